// The unknowns of the pre-heater's cubic: one sixth of each second derivative, in whole numbers over an entry
// of Table 1. Document 02, order 10; document 001. By the recurrence from the first value on, so that no list
// is lent.
#![tactic(auto)]

ghost use Rattle.std.specs.Prelude.{◌≡◌, ◌+◌, ◌-◌, ◌<◌, ◌^◌, length};
ghost use Rattle.answer.specs.Answer.{each};
ghost use Rattle.answer.specs.Judge.{verdict_of};
ghost use Rattle.cubic.specs.Cubic.{y, δ², sum, unknown};
ghost use Rattle.unknowns.specs.Unknowns.{in_range, checked, answer_of, unknown_order, pair_at, Sound};

use answer::{Judged, Reason, Refusal};
use knots::Kind;

// ---- 1, 24, 6

// At a value.
#[tactic(auto, unfolding(crate::specs::Unknowns::in_range, curve::specs::Kind::quintic))]
fn in_range_at(ys: &[i16], i: usize) -> Judged
    requires { (i < length ys.now) × (length ys.now < 2 ^ 32) }
    ensures { verdict_of result ≡ in_range ys.now i }
{
    let far = knots::beyond(Kind::ORDINATE, ys[i] as i32);
    answer::refuse(Reason::FarOrdinate, i as u32, far)
}

fn in_range(ys: &[i16]) -> Judged
    requires { length ys.now < 2 ^ 32 }
    ensures { verdict_of result ≡ each (in_range ys.now) 0 (length ys.now) }
{
    answer::each(ys.len(), |i| in_range_at(ys, i))
}

#[tactic(auto, using(answer::proofs::Orders::orders), unfolding(crate::specs::Unknowns::checked, crate::specs::Unknowns::counted, curve::specs::Kind::quintic))]
pub fn check(ys: &[i16]) -> Judged
    ensures { verdict_of result ≡ checked ys.now }
{
    answer::refuse(Reason::FewKnots, 0, ys.len() < Kind::FEWEST)?;
    answer::refuse(Reason::ManyValues, 0, cubic::MOST < ys.len())?;
    in_range(ys)
}

// ---- the recurrence

pub fn value_at(ys: &[i16], i: usize) -> i64
    requires { i < length ys.now }
    ensures { result ≡ y ys.now i }
{
    ys[i] as i64
}

fn second_difference(ys: &[i16], i: usize) -> i64
    requires sound { Sound ys.now }
    requires i_in_bounds { i + 2 < length ys.now }
    ensures { result ≡ δ² ys.now i }
{
    value_at(ys, i) - 2 * value_at(ys, i + 1) + value_at(ys, i + 2)
}

// The sum of (3.13), from its last term to the first, so that no sign is needed.
fn first(ys: &[i16]) -> i64
    requires { Sound ys.now }
    ensures { result ≡ sum ys.now 0 (length ys.now - 2) }
{
    let inner = ys.len() - 2;
    let mut total: i64 = 0;
    for k in 0..inner {
        total = cubic::entry(k) * second_difference(ys, inner - 1 - k) - total;
    }
    total
}

// Those of two neighbours.
#[derive(Drop)]
pub struct Pair {
    pub here: i64,
    pub next: i64,
}

// At a place and the next, by the continuity equation.
pub fn at(ys: &[i16], place: usize) -> Pair
    requires sound { Sound ys.now }
    requires place_in_bounds { place + 1 < length ys.now }
    ensures { result ≡ pair_at ys.now place }
{
    let scale = cubic::entry(ys.len() - 2);
    let mut here: i64 = 0;
    let mut next = first(ys);
    for i in 0..place {
        let after = scale * second_difference(ys, i) - 4 * next - here;
        here = next;
        next = after;
    }
    Pair { here, next }
}

// At a place.
#[tactic(auto, unfolding(cubic::specs::Cubic::unknown))]
fn one_at(ys: &[i16], i: usize) -> i64
    requires sound { Sound ys.now }
    requires i_in_bounds { i < length ys.now }
    ensures { result ≡ unknown ys.now i }
{
    if i == 0 { 0 } else { at(ys, i - 1).next }
}

// ---- answered

// `unknown` over `scale` is one sixth of the second derivative at a value, the step being one.
#[derive(Drop)]
pub struct Unknown {
    pub unknown: i64,
    pub scale: i64,
}

// 1, 24, 6; 11 past the last value.
#[tactic(auto, using(answer::proofs::Orders::orders), unfolding(crate::specs::Unknowns::unknown_order))]
pub fn unknown_at(ys: &[i16], place: u16) -> Result<Unknown, Refusal>
    ensures { answer_of result ≡ unknown_order ys.now place }
{
    check(ys)?;
    let i = place as usize;
    answer::refuse(Reason::Outside, 0, ys.len() <= i)?;
    Ok(Unknown {
        unknown: one_at(ys, i),
        scale: cubic::entry(ys.len() - 2),
    })
}
