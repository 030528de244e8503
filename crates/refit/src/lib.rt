// A card's own knots fitted anew, and how many of the card's slopes and curvatures are not that fit's:
// numbers that were typed over on a card and still pass the jump test. Where the card's slopes were given,
// they are given back, and its curvatures fitted anew from them. The order of the tests is that of the
// reader, "Card into lent lists", and then the fit's own. Nothing is asked of the caller.
#![tactic(auto)]

ghost use Rattle.std.specs.Prelude.{◌≡◌, ◌<◌, ◌≤◌, length};
ghost use Rattle.std.proofs.Math.IntN.{ℤ_discrete};
ghost use Rattle.answer.specs.Answer.{refused};
ghost use Rattle.answer.specs.Judge.{number_of};
ghost use Rattle.curve.specs.Card.{Card};
ghost use Rattle.knots.specs.Kinds.{kind_of};
ghost use Rattle.knots.specs.Lent.{card_lent};
ghost use Rattle.lists.specs.Lists.{Long};
ghost use Rattle.decode.specs.Decoded.{most};
ghost use Rattle.fit.specs.Promise.{Fits};
ghost use Rattle.slope_fit.specs.SlopesFit.{slopes_fit};
ghost use Rattle.refit.specs.Differing.{differing};
ghost use Rattle.refit.specs.Fresh.{fresh_between, fresh};
ghost use Rattle.refit.specs.Promise.{changed, refitted, Refits, Renews};

use answer::Refusal;
use knots::{Kind, Lent};
use lines::hundredths;
use opened::Opened;

// Zeros behind a refusal. C receives it so.
#[repr(C)]
#[derive(Drop)]
pub struct Refitted {
    pub number: u32,
    pub place: u32,
    pub knots: u32,
    pub changed: u32,
}

#[tactic(auto, unfolding(crate::specs::Promise::refitted))]
impl From<Refusal> for Refitted {
    ghost from_gives = { λ refusal r. (c : Card) → r ≡ refitted c (refused (number_of refusal.reason) refusal.place) };

    fn from(refusal: Refusal) -> Refitted {
        Refitted {
            number: refusal.number(),
            place: refusal.place,
            knots: 0,
            changed: 0,
        }
    }
}

// At how many places two lists differ.
fn differing(held: &[i32], anew: &[i32]) -> u32
    requires { (length held.now ≤ most) × (length anew.now ≡ length held.now) }
    ensures { (result ≡ differing ℤ_discrete held.now anew.now) × (result ≤ most) }
{
    let mut count = 0;
    for i in 0..held.len() {
        if held[i] != anew[i] {
            count += 1;
        }
    }
    count
}

// The fresh fit of a card between its ends, to lists of its n places.
#[tactic(auto, unfolding(crate::specs::Fresh::fresh_between, curve::specs::Card::knots, curve::specs::Card::knot))]
fn fresh_between(held: Lent<'_>, slopes: &mut [i32], curvatures: &mut [i32]) -> fit::Fitted
    requires long { Long held.minutes.now held.ordinates.now held.slopes.now held.curvatures.now }
    requires some { 0 < length held.minutes.now }
    requires slopes_len { (length slopes.old ≡ length held.minutes.now) × (length curvatures.old ≡ length held.minutes.now) }
    ensures { Fits (fresh_between (card_lent held.entry)) slopes.old curvatures.old slopes.new curvatures.new result }
{
    let last = held.minutes.len() - 1;
    fit::fit_codes(
        held.minutes,
        held.ordinates,
        slopes,
        curvatures,
        held.left,
        hundredths(held.slopes[0]),
        hundredths(held.curvatures[0]),
        held.right,
        hundredths(held.slopes[last]),
        hundredths(held.curvatures[last]),
    )
}

// Of its curvatures alone, by its own slopes, which are given back.
fn fresh_by_slopes(held: Lent<'_>, slopes: &mut [i32], curvatures: &mut [i32]) -> fit::Fitted
    requires { length slopes.old ≡ length held.slopes.now }
    ensures { Fits (slopes_fit held.entry.minutes.now held.entry.ordinates.now held.entry.slopes.now (length curvatures.old))
        slopes.old curvatures.old slopes.new curvatures.new result }
{
    let fitted = slope_fit::fit(held.minutes, held.ordinates, held.slopes, curvatures);
    if fitted.number == 0 {
        slopes.copy_from_slice(held.slopes);
    }
    fitted
}

// As the card's kind is fitted.
fn fresh(kind: Kind, held: Lent<'_>, slopes: &mut [i32], curvatures: &mut [i32]) -> fit::Fitted
    requires long { Long held.minutes.now held.ordinates.now held.slopes.now held.curvatures.now }
    requires some { 0 < length held.minutes.now }
    requires slopes_len { (length slopes.old ≡ length held.minutes.now) × (length curvatures.old ≡ length held.minutes.now) }
    ensures { Fits (fresh (kind_of kind) (card_lent held.entry)) slopes.old curvatures.old slopes.new curvatures.new result }
{
    if kind.fourth {
        return fresh_between(held, slopes, curvatures);
    }
    fresh_by_slopes(held, slopes, curvatures)
}

// How many of a card's numbers are not those of two lists of its n places.
#[tactic(auto, unfolding(crate::specs::Promise::changed))]
fn changed(held: Lent<'_>, slopes: &[i32], curvatures: &[i32]) -> u32
    requires few { length held.minutes.now ≤ most }
    requires long { Long held.minutes.now held.ordinates.now held.slopes.now held.curvatures.now }
    requires slopes_len { (length slopes.now ≡ length held.minutes.now) × (length curvatures.now ≡ length held.minutes.now) }
    ensures { result ≡ changed (card_lent held.entry) slopes.now curvatures.now }
{
    differing(held.slopes, slopes) + differing(held.curvatures, curvatures)
}

// The fit's own refusals; the numbers are written and counted where it has none.
fn anew(kind: Kind, held: Lent<'_>, slopes: &mut [i32], curvatures: &mut [i32]) -> Refitted
    requires few { length held.minutes.now ≤ most }
    requires long { Long held.minutes.now held.ordinates.now held.slopes.now held.curvatures.now }
    requires some { 0 < length held.minutes.now }
    requires slopes_len { (length slopes.old ≡ length held.minutes.now) × (length curvatures.old ≡ length held.minutes.now) }
    ensures { Renews (kind_of kind) (card_lent held.entry) slopes.old curvatures.old slopes.new curvatures.new result }
{
    let fitted = fresh(kind, held, slopes, curvatures);
    if fitted.number == 0 {
        return Refitted {
            number: 0,
            place: 0,
            knots: held.minutes.len() as u32,
            changed: changed(held, slopes, curvatures),
        };
    }
    Refitted {
        number: fitted.number,
        place: fitted.place,
        knots: 0,
        changed: 0,
    }
}

// On acceptance n places of each list are written.
pub fn refit(card: &[u8], slopes: &mut [i32], curvatures: &mut [i32]) -> Refitted
    ensures { Refits card.now slopes.old curvatures.old slopes.new curvatures.new result }
{
    let opened = Opened::by_head(card);
    let n = opened.card.knots;
    let lent = slopes.len();
    match card::into(&opened, lent, lent, lent, curvatures.len()) {
        Err(refusal) => Refitted::from(refusal),
        Ok(()) => {
            let held = opened.card.lent();
            anew(opened.kind, held, &mut slopes[..n], &mut curvatures[..n])
        }
    }
}
