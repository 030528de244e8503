// What is done with a card's bytes of either kind: tested, read into lent lists, and read off at a minute.
// Document 01, the orders of "Numbers of refusal". None of the public functions asks anything of its caller.
#![tactic(auto)]

ghost use Rattle.std.specs.Prelude.{◌≡◌};
ghost use Rattle.answer.specs.Answer.{accepted, refused};
ghost use Rattle.answer.specs.Judge.{number_of, verdict_of};
ghost use Rattle.curve.specs.Kind as Curve;
ghost use Rattle.curve.specs.Card as Held;
ghost use Rattle.curve.specs.Orders.{lists_order};
ghost use Rattle.knots.specs.Kinds.{kind_of};
ghost use Rattle.card_bytes.specs.Held.{card_of};
ghost use Rattle.card_bytes.specs.Records.{kind_by};
ghost use Rattle.decode.specs.Decoded.{decoded, Full};
ghost use Rattle.card.specs.Answers.{own, checked, read_off};
ghost use Rattle.card.specs.Promise.{lists, Reads};

use answer::{Judged, Refusal};
use decode::Card;
use knots::Kind;
use lists::CardReading;
use opened::Opened;

// ---- the card test

// The kind of card is its head's: 1 or 6. Zeros behind a refusal.
#[repr(C)]
#[derive(Drop)]
pub struct Checked {
    pub number: u32,
    pub place: u32,
    pub knots: u32,
    pub left: u32,
    pub right: u32,
    pub kind: u32,
}

impl Checked {
    // Of a card that is accepted.
    #[tactic(auto, unfolding(crate::specs::Answers::checked))]
    fn of(kind: Kind, card: &Card) -> Checked
        requires { Full card.now }
        ensures { result ≡ checked accepted (kind_of kind) (decoded card.now) }
    {
        Checked {
            number: 0,
            place: 0,
            knots: card.knots as u32,
            left: card.left as u32,
            right: card.right as u32,
            kind: kind.head as u32,
        }
    }
}

#[tactic(auto, unfolding(crate::specs::Answers::checked))]
impl From<Refusal> for Checked {
    ghost from_gives = { λ r c. (K : Curve.Kind) (held : Held.Card) → c ≡ checked (refused (number_of r.reason) r.place) K held };

    fn from(refusal: Refusal) -> Checked {
        Checked {
            number: refusal.number(),
            place: refusal.place,
            knots: 0,
            left: 0,
            right: 0,
            kind: 0,
        }
    }
}

pub fn check(card: &[u8]) -> Checked
    ensures { result ≡ checked (own card.now) (kind_by card.now) (card_of card.now) }
{
    let opened = Opened::by_head(card);
    match opened.verdict {
        Err(refusal) => Checked::from(refusal),
        Ok(()) => Checked::of(opened.kind, &opened.card),
    }
}

// ---- the card into lent lists

// 3, the card's, 26: of a card that was opened, and the lengths of four lists.
#[tactic(auto, using(answer::proofs::Orders::orders), unfolding(curve::specs::Orders::lists_order))]
pub fn into(
    opened: &Opened,
    minutes: usize,
    ordinates: usize,
    slopes: usize,
    curvatures: usize,
) -> Judged
    ensures { verdict_of result ≡ lists_order minutes ordinates slopes curvatures (verdict_of opened.now.verdict) opened.now.card.knots }
{
    knots::same_lengths(minutes, ordinates, slopes, curvatures)?;
    opened.verdict?;
    knots::room(opened.card.knots, minutes)
}

// On acceptance n places of each list are written.
pub fn read(
    card: &[u8],
    minutes: &mut [u16],
    ordinates: &mut [i16],
    slopes: &mut [i32],
    curvatures: &mut [i32],
) -> Checked
    ensures { Reads card.now
        (lists minutes.entry ordinates.entry slopes.entry curvatures.entry)
        (lists minutes.exit ordinates.exit slopes.exit curvatures.exit) result }
{
    let opened = Opened::by_head(card);
    match into(
        &opened,
        minutes.len(),
        ordinates.len(),
        slopes.len(),
        curvatures.len(),
    ) {
        Err(refusal) => Checked::from(refusal),
        Ok(()) => {
            opened.card.give(minutes, ordinates, slopes, curvatures);
            Checked::of(opened.kind, &opened.card)
        }
    }
}

// ---- the reading

// The card's, then 11.
pub fn reading(card: &[u8], minute: u16) -> CardReading
    ensures { result ≡ read_off card.now minute }
{
    let opened = Opened::by_head(card);
    match opened.verdict {
        Err(refusal) => CardReading::from(refusal),
        Ok(()) => opened::lists(&opened.card).read_at(minute),
    }
}
