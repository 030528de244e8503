// A card's bytes, opened: judged in the card's order as the kind of card that their head names, and decoded
// once for whatever is done with them. Document 01, "Card bytes" and "Numbers of refusal"; document 02, order
// 8.
#![tactic(auto)]

ghost use Rattle.std.specs.Prelude.{◌≡◌, ◌≤◌, length};
ghost use Rattle.answer.specs.Judge.{verdict_of};
ghost use Rattle.curve.specs.Orders.{sound};
ghost use Rattle.knots.specs.Kinds.{kind_of};
ghost use Rattle.knots.specs.Lent.{lent};
ghost use Rattle.card_bytes.specs.Records.{kind_by};
ghost use Rattle.decode.specs.Decoded.{decoded, Full};
ghost use Rattle.opened.specs.Readable.{Readable};
ghost use Rattle.opened.specs.Steps.{carried_by, behind_head, shaped, Opens};

use answer::Judged;
use decode::Card;
use knots::Kind;
use lists::Lists;

// 1, 2; 15; the other records 14.
#[tactic(auto, using(answer::proofs::Orders::orders), unfolding(crate::specs::Steps::behind_head, crate::specs::Steps::limited, curve::specs::Steps::counted))]
fn behind_head(kind: Kind, card: &[u8]) -> Judged
    requires { 10 ≤ length card.now }
    ensures { verdict_of result ≡ behind_head (kind_of kind) card.now }
{
    let n = little_endian::read_u16(card, 4) as usize;
    let left = little_endian::read_u16(card, 6);
    let right = little_endian::read_u16(card, 8);
    knots::counted(n)?;
    knots::codes(kind, left, right)?;
    card_bytes::records_due(card, n)
}

// Head 14 before them.
#[tactic(auto, using(answer::proofs::Orders::orders, crate::proofs::Shape::headed), unfolding(crate::specs::Steps::shaped))]
fn shaped(kind: Kind, card: &[u8]) -> Judged
    ensures { verdict_of result ≡ shaped (kind_of kind) card.now }
{
    card_bytes::head_due(card, kind.head)?;
    behind_head(kind, card)
}

// Per knot 4, 5, 6; 9; 10, of a card that was decoded.
#[tactic(auto, unfolding(decode::specs::Decoded::decoded))]
fn sound(kind: Kind, card: &Card) -> Judged
    requires { Full card.now }
    ensures { verdict_of result ≡ sound (kind_of kind) (decoded card.now) }
{
    lists::sound(kind, card.lent())
}

// The lists of a card that can be read.
#[tactic(auto, unfolding(decode::specs::Decoded::decoded))]
pub fn lists(card: &Card) -> Lists<'_>
    requires { Readable card.now }
    ensures { lent result.minutes.now result.ordinates.now result.slopes.now result.curvatures.now card.now.left card.now.right ≡ decoded card.now }
{
    let held = card.lent();
    Lists {
        minutes: held.minutes,
        ordinates: held.ordinates,
        slopes: held.slopes,
        curvatures: held.curvatures,
    }
}

// Order 8's kind where its head stands; else document 01's, whose head is then due.
#[tactic(auto, unfolding(crate::specs::Steps::carried_by, curve::specs::Kind::sloped))]
fn kind_by(card: &[u8]) -> Kind
    ensures { result ≡ carried_by card.now }
{
    let sloped = Kind::sloped();
    if record::is_at(card, 0, sloped.head, 6) {
        return sloped;
    }
    Kind::quintic()
}

// The kind of card is what it was judged as. The card is there wherever the records are in order, also where
// 4, 5, 6, 9 or 10 refuses it; elsewhere it has zeros alone.
#[derive(Drop)]
pub struct Opened {
    pub verdict: Judged,
    pub kind: Kind,
    pub card: Card,
}

impl Opened {
    // As a card of a kind, with that kind's head.
    fn of(kind: Kind, card: &[u8]) -> Opened
        ensures { Opens kind (kind_of kind) result card.now }
    {
        match shaped(kind, card) {
            Err(refusal) => Opened {
                verdict: Err(refusal),
                kind,
                card: Card::none(),
            },
            Ok(()) => {
                let held = Card::of(card);
                Opened {
                    verdict: sound(kind, &held),
                    kind,
                    card: held,
                }
            }
        }
    }

    // The head says what kind of card it is.
    pub fn by_head(card: &[u8]) -> Opened
        ensures { Opens (carried_by card.now) (kind_by card.now) result card.now }
    {
        Opened::of(kind_by(card), card)
    }
}
