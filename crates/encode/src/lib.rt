// The bytes of a card of any kind, record by record, at the front of a buffer that has room for them:
// document 01, "Card bytes".
#![tactic(auto)]

ghost use Rattle.std.specs.Prelude.{◌≡◌, ◌+◌, ◌^◌, ◌≤◌, ◌<◌, length};
ghost use Rattle.std.proofs.lemmas.List.Edits.{sets};
ghost use Rattle.curve.specs.Steps.{size};
ghost use Rattle.knots.specs.Kinds.{kind_of};
ghost use Rattle.knots.specs.Lent.{card_lent};
ghost use Rattle.card_bytes.specs.Bytes.{head_bytes, a_knot, knot_bytes, end_bytes, bytes_of};

use knots::{Kind, Lent};

fn put_head(buffer: &mut [u8], head: u16, n: u16, left: u16, right: u16)
    requires { 10 ≤ length buffer.old }
    ensures { buffer.new ≡ sets buffer.old 0 (head_bytes head n left right) }
{
    little_endian::write_u16(buffer, 0, 6);
    little_endian::write_u16(buffer, 2, head);
    little_endian::write_u16(buffer, 4, n);
    little_endian::write_u16(buffer, 6, left);
    little_endian::write_u16(buffer, 8, right);
}

fn put_knot(buffer: &mut [u8], at: usize, x: u16, y: i16, m: i32, c: i32)
    requires { at + 16 ≤ length buffer.old }
    ensures { buffer.new ≡ sets buffer.old at (knot_bytes (a_knot x y m c)) }
{
    little_endian::write_u16(buffer, at, 12);
    little_endian::write_u16(buffer, at + 2, 2);
    little_endian::write_u16(buffer, at + 4, x);
    little_endian::write_i16(buffer, at + 6, y);
    little_endian::write_i32(buffer, at + 8, m);
    little_endian::write_i32(buffer, at + 12, c);
}

fn put_end(buffer: &mut [u8], at: usize)
    requires { at + 4 ≤ length buffer.old }
    ensures { buffer.new ≡ sets buffer.old at end_bytes }
{
    little_endian::write_u16(buffer, at, 0);
    little_endian::write_u16(buffer, at + 2, 3);
}

// A card's bytes at the front of a buffer that has room for them.
pub fn put_card(kind: Kind, card: Lent<'_>, buffer: &mut [u8])
    requires minutes_len_bound { length card.minutes.now < 2 ^ 16 }
    requires ordinates_len { (length card.ordinates.now ≡ length card.minutes.now) × (length card.slopes.now ≡ length card.minutes.now) × (length card.curvatures.now ≡ length card.minutes.now) }
    requires minutes_in_bounds { size (length card.minutes.now) ≤ length buffer.old }
    ensures { buffer.new ≡ sets buffer.old 0 (bytes_of (kind_of kind) (card_lent card.entry)) }
{
    let n = card.minutes.len();
    put_head(buffer, kind.head, n as u16, card.left, card.right);
    for row in 0..n {
        put_knot(
            buffer,
            10 + 16 * row,
            card.minutes[row],
            card.ordinates[row],
            card.slopes[row],
            card.curvatures[row],
        );
    }
    put_end(buffer, 10 + 16 * n);
}
