// The card that bytes hold, decoded once, and its numbers over the fronts of lent lists: document 01, "Card bytes".
#![tactic(auto)]

ghost use Rattle.std.specs.Prelude.{◌≡◌, ◌≤◌, ◌++◌, length, drop};
ghost use Rattle.knots.specs.Lent.{card_lent};
ghost use Rattle.card_bytes.specs.Held.{start, count_at};
ghost use Rattle.decode.specs.Decoded.{most, held, none, decoded, Full};

use knots::{Kind, Lent};

// Its numbers, decoded once: each list at the front of an array, zeros behind it.
#[derive(Clone, Copy)]
pub struct Card {
    pub knots: usize,
    pub left: u16,
    pub right: u16,
    pub minutes: [u16; Kind::MOST],
    pub ordinates: [i16; Kind::MOST],
    pub slopes: [i32; Kind::MOST],
    pub curvatures: [i32; Kind::MOST],
}

impl Card {
    // Of no knots.
    pub fn none() -> Card
        ensures { result ≡ none }
    {
        Card {
            knots: 0,
            left: 0,
            right: 0,
            minutes: [0; Kind::MOST],
            ordinates: [0; Kind::MOST],
            slopes: [0; Kind::MOST],
            curvatures: [0; Kind::MOST],
        }
    }

    // Of bytes that have a head, no more knots than there is place for, and a record for each.
    pub fn of(list: &[u8]) -> Card
        requires { (count_at list.now ≤ most) × (start (count_at list.now) ≤ length list.now) }
        ensures { result ≡ held list.now }
    {
        let n = little_endian::read_u16(list, 4) as usize;
        let mut minutes = [0u16; Kind::MOST];
        let mut ordinates = [0i16; Kind::MOST];
        let mut slopes = [0i32; Kind::MOST];
        let mut curvatures = [0i32; Kind::MOST];
        for i in 0..n {
            let at = 10 + 16 * i;
            minutes[i] = little_endian::read_u16(list, at + 4);
            ordinates[i] = little_endian::read_i16(list, at + 6);
            slopes[i] = little_endian::read_i32(list, at + 8);
            curvatures[i] = little_endian::read_i32(list, at + 12);
        }
        Card {
            knots: n,
            left: little_endian::read_u16(list, 6),
            right: little_endian::read_u16(list, 8),
            minutes,
            ordinates,
            slopes,
            curvatures,
        }
    }

    // Its lists, as long as it has knots, and the codes of its ends.
    #[tactic(auto, unfolding(crate::specs::Decoded::decoded))]
    pub fn lent(&self) -> Lent<'_>
        requires { Full self.now }
        ensures { card_lent result ≡ decoded self.now }
    {
        let n = self.knots;
        Lent {
            minutes: &self.minutes[..n],
            ordinates: &self.ordinates[..n],
            slopes: &self.slopes[..n],
            curvatures: &self.curvatures[..n],
            left: self.left,
            right: self.right,
        }
    }

    // Its numbers over the fronts of four lists that have room for them.
    #[tactic(auto, unfolding(crate::specs::Decoded::decoded))]
    pub fn give(
        &self,
        minutes: &mut [u16],
        ordinates: &mut [i16],
        slopes: &mut [i32],
        curvatures: &mut [i32],
    )
        requires full { Full self.now }
        requires knots_in_bounds { (self.now.knots ≤ length minutes.old) × (length ordinates.old ≡ length minutes.old) × (length slopes.old ≡ length minutes.old) × (length curvatures.old ≡ length minutes.old) }
        ensures minutes_after { minutes.new ≡ (decoded self.now).minutes ++ drop self.now.knots minutes.old }
        ensures ordinates_after { ordinates.new ≡ (decoded self.now).ordinates ++ drop self.now.knots ordinates.old }
        ensures slopes_after { slopes.new ≡ (decoded self.now).slopes ++ drop self.now.knots slopes.old }
        ensures curvatures_after { curvatures.new ≡ (decoded self.now).curvatures ++ drop self.now.knots curvatures.old }
    {
        let held = self.lent();
        let n = held.minutes.len();
        minutes[..n].copy_from_slice(held.minutes);
        ordinates[..n].copy_from_slice(held.ordinates);
        slopes[..n].copy_from_slice(held.slopes);
        curvatures[..n].copy_from_slice(held.curvatures);
    }
}
