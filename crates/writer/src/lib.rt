// The writer of a card's bytes, one for both kinds of card: document 01, "Card bytes", and the writer's order
// of "Numbers of refusal"; document 02, order 8. It asks nothing of its caller.
#![tactic(auto)]

ghost use Rattle.std.specs.Prelude.{◌≡◌, ℕ};
ghost use Rattle.answer.specs.Answer.{refused};
ghost use Rattle.answer.specs.Judge.{number_of, verdict_of};
ghost use Rattle.curve.specs.Kind.{quintic, sloped};
ghost use Rattle.curve.specs.Orders.{verdict, write_order};
ghost use Rattle.knots.specs.Kinds.{kind_of};
ghost use Rattle.knots.specs.Lent.{lent, card_lent};
ghost use Rattle.writer.specs.Promise.{Writes, written};

use answer::{Judged, Refusal};
use knots::{Kind, Lent};

// 3, 1, 2, 15; per knot 4, 5, 6; 9; 10.
fn judged(kind: Kind, card: Lent<'_>) -> Judged
    ensures { verdict_of result ≡ verdict (kind_of kind) (card_lent card.entry) }
{
    let named = knots::codes(kind, card.left, card.right);
    knots::sized(
        card.minutes.len(),
        card.ordinates.len(),
        card.slopes.len(),
        card.curvatures.len(),
        named,
    )?;
    lists::sound(kind, card)
}

// And 26.
fn writable(kind: Kind, card: Lent<'_>, bytes: usize) -> Judged
    ensures { verdict_of result ≡ write_order (kind_of kind) (card_lent card.entry) bytes }
{
    judged(kind, card)?;
    knots::room(14 + 16 * card.minutes.len(), bytes)
}

// Number and place, and how many bytes were written; zeros behind a refusal.
#[repr(C)]
#[derive(Drop)]
pub struct Written {
    pub number: u32,
    pub place: u32,
    pub bytes: u32,
}

impl From<Refusal> for Written {
    ghost from_gives = { λ r w. (bytes : ℕ) → w ≡ written (refused (number_of r.reason) r.place) bytes };

    #[tactic(auto, unfolding(crate::specs::Promise::written))]
    fn from(refusal: Refusal) -> Written {
        Written {
            number: refusal.number(),
            place: refusal.place,
            bytes: 0,
        }
    }
}

// On acceptance the bytes of the card of a kind are written, and the rest of the buffer stays.
fn write_as(kind: Kind, card: Lent<'_>, buffer: &mut [u8]) -> Written
    ensures { Writes (kind_of kind) (card_lent card.entry) buffer.old buffer.new result }
{
    if let Err(refusal) = writable(kind, card, buffer.len()) {
        return Written::from(refusal);
    }
    encode::put_card(kind, card, buffer);
    Written {
        number: 0,
        place: 0,
        bytes: (14 + 16 * card.minutes.len()) as u32,
    }
}

pub fn write(
    minutes: &[u16],
    ordinates: &[i16],
    slopes: &[i32],
    curvatures: &[i32],
    left: u16,
    right: u16,
    buffer: &mut [u8],
) -> Written
    ensures { Writes quintic
        (lent minutes.now ordinates.now slopes.now curvatures.now left right)
        buffer.old buffer.new result }
{
    let card = Lent {
        minutes,
        ordinates,
        slopes,
        curvatures,
        left,
        right,
    };
    write_as(Kind::quintic(), card, buffer)
}

// Order 8's, whose codes are both 0.
pub fn write_slopes(
    minutes: &[u16],
    ordinates: &[i16],
    slopes: &[i32],
    curvatures: &[i32],
    buffer: &mut [u8],
) -> Written
    ensures { Writes sloped
        (lent minutes.now ordinates.now slopes.now curvatures.now 0 0)
        buffer.old buffer.new result }
{
    let card = Lent {
        minutes,
        ordinates,
        slopes,
        curvatures,
        left: 0,
        right: 0,
    };
    write_as(Kind::sloped(), card, buffer)
}
