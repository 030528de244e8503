// The checks of document 01 on lent lists that need no arithmetic of the curve: "Numbers of refusal", each a step of an order. The limits are "constants of the kind of
// card they belong to".
#![tactic(auto)]

ghost use Rattle.std.specs.Prelude.{◌≡◌, List, ℕ, ◌^◌, ◌<◌, length, get_or, ℤ, pos, nat_abs, ◌≤ℤ◌};
ghost use Rattle.whole.specs.Whole.{beyond};
ghost use Rattle.answer.specs.Answer.{◌then◌, each};
ghost use Rattle.answer.specs.Judge.{verdict_of};
ghost use Rattle.curve.specs.Kind.{quintic};
ghost use Rattle.curve.specs.Steps.{lengths, counted, codes, stands, in_range, room};
ghost use Rattle.knots.specs.Kinds.{quintic_card, sloped_card, kind_of};
ghost use Rattle.knots.specs.Lent.{lent};
ghost use Rattle.minutes.specs.Gaps.{wider_gap};

use answer::{Judged, Reason};

// What differs between kinds of card; what they share is below.
#[derive(Clone, Copy)]
pub struct Kind {
    // the kind of the record that opens its cards
    pub head: u16,
    // the greatest code of an end
    pub code: u16,
    // how many g2 the third's allowance has
    pub squares: u8,
    // whether the fourth is asked
    pub fourth: bool,
}

impl Kind {
    pub const FEWEST: usize = 3;

    pub const MOST: usize = 64;

    pub const GAP: u16 = 60;

    pub const ORDINATE: i32 = 20_000;

    pub const SLOPE: i32 = 1_048_576;

    pub const CURVATURE: i32 = 1_048_576;

    // of a number given for an end, in hundredths per minute (squared)
    pub const GIVEN: f64 = 256.0;

    pub fn quintic() -> Self
        ensures { result ≡ quintic_card }
    {
        Kind {
            head: 1,
            code: 2,
            squares: 16,
            fourth: true,
        }
    }

    // Document 02, order 8: the slopes are given.
    pub fn sloped() -> Self
        ensures { result ≡ sloped_card }
    {
        Kind {
            head: 6,
            code: 0,
            squares: 0,
            fourth: false,
        }
    }
}

// A card as four lists lend it, with the codes of its ends.
#[derive(Clone, Copy)]
pub struct Lent<'a> {
    pub minutes: &'a [u16],
    pub ordinates: &'a [i16],
    pub slopes: &'a [i32],
    pub curvatures: &'a [i32],
    pub left: u16,
    pub right: u16,
}

// ---- steps without lists

// 3.
#[tactic(auto, unfolding(curve::specs::Steps::lengths))]
pub fn same_lengths(n: usize, ys: usize, ms: usize, cs: usize) -> Judged
    ensures { verdict_of result ≡ lengths n ys ms cs }
{
    answer::refuse(Reason::OddLengths, 0, ys != n || ms != n || cs != n)
}

// 1, 2.
#[tactic(auto, using(answer::proofs::Orders::orders), unfolding(curve::specs::Steps::counted, curve::specs::Kind::quintic))]
pub fn counted(n: usize) -> Judged
    ensures { verdict_of result ≡ counted quintic n }
{
    answer::refuse(Reason::FewKnots, 0, n < Kind::FEWEST)?;
    answer::refuse(Reason::ManyKnots, 0, Kind::MOST < n)
}

// 15.
#[tactic(auto, using(answer::proofs::Orders::orders), unfolding(curve::specs::Steps::codes))]
pub fn codes(kind: Kind, left: u16, right: u16) -> Judged
    ensures { verdict_of result ≡ codes (kind_of kind) left right }
{
    answer::refuse(Reason::UnknownCode, 0, kind.code < left)?;
    answer::refuse(Reason::UnknownCode, 1, kind.code < right)
}

// 3, 1, 2, and 15 where there are code numbers.
#[tactic(auto, using(answer::proofs::Orders::orders))]
pub fn sized(n: usize, ys: usize, ms: usize, cs: usize, named: Judged) -> Judged
    ensures { verdict_of result ≡ (lengths n ys ms cs then counted quintic n then verdict_of named) }
{
    same_lengths(n, ys, ms, cs)?;
    counted(n)?;
    named
}

// 26.
#[tactic(auto, unfolding(curve::specs::Steps::room))]
pub fn room(needed: usize, lent: usize) -> Judged
    ensures { verdict_of result ≡ room needed lent }
{
    answer::refuse(Reason::ShortBuffer, 0, lent < needed)
}

// ---- 4, 5, 6

// Beyond a limit, on either side.
#[tactic(auto, unfolding(whole::specs::Whole::beyond))]
pub fn beyond(limit: i32, z: i32) -> bool
    requires { pos 0 ≤ℤ limit }
    ensures { result ≡ beyond (nat_abs limit) z }
{
    z < -limit || limit < z
}

// At a knot.
#[tactic(auto, using(answer::proofs::Orders::orders), unfolding(curve::specs::Steps::stands, curve::specs::Kind::quintic, curve::specs::Card::back))]
fn stands_at(xs: &[u16], ys: &[i16], i: usize) -> Judged
    requires { (i < length xs.now) × (length xs.now < 2 ^ 32) × (i < length ys.now) }
    ensures { verdict_of result ≡ stands quintic xs.now ys.now i }
{
    let place = i as u32;
    let falls = 0 < i && xs[i] <= xs[i - 1];
    answer::refuse(Reason::NotRising, place, falls)?;
    let gap = minutes::left_gap(xs, i);
    answer::refuse(Reason::WideGap, place, Kind::GAP < gap)?;
    let far = beyond(Kind::ORDINATE, ys[i] as i32);
    answer::refuse(Reason::FarOrdinate, place, far)
}

// Knot by knot.
pub fn stand(xs: &[u16], ys: &[i16]) -> Judged
    requires { (length xs.now < 2 ^ 32) × (length ys.now ≡ length xs.now) }
    ensures { verdict_of result ≡ each (stands quintic xs.now ys.now) 0 (length xs.now) }
{
    answer::each(xs.len(), |i| stands_at(xs, ys, i))
}

// ---- 9

// By the wider of the gaps beside the knot.
#[tactic(auto, unfolding(curve::specs::Kind::quintic))]
fn curvature_limit(gap: u16) -> i32
    ensures { result ≡ pos (quintic.curvatures gap) }
{
    Kind::CURVATURE
}

#[tactic(auto, unfolding(curve::specs::Kind::quintic))]
fn slope_beyond(ms: &[i32], i: usize) -> bool
    requires { i < length ms.now }
    ensures { result ≡ beyond quintic.slopes (get_or ms.now i (pos 0)) }
{
    beyond(Kind::SLOPE, ms[i])
}

#[tactic(auto, unfolding(curve::specs::Kind::quintic))]
fn curvature_beyond(xs: &[u16], cs: &[i32], i: usize) -> bool
    requires { (i < length xs.now) × (i < length cs.now) }
    ensures { result ≡ beyond (quintic.curvatures (wider_gap xs.now i)) (get_or cs.now i (pos 0)) }
{
    beyond(curvature_limit(minutes::wider_gap(xs, i)), cs[i])
}

// At a knot.
#[tactic(auto, unfolding(curve::specs::Steps::in_range, curve::specs::Steps::slope_beyond, curve::specs::Steps::curvature_beyond, curve::specs::Card::joint, curve::specs::Card::knot, curve::specs::Card::knots, curve::specs::Card::gap, curve::specs::Card::on, minutes::specs::Gaps::wider_gap))]
fn in_range_at(xs: &[u16], ms: &[i32], cs: &[i32], i: usize) -> Judged
    requires { (i < length xs.now) × (length xs.now < 2 ^ 32) × (i < length ms.now) × (i < length cs.now) }
    ensures { (ys : List ℤ) (left right : ℕ) → verdict_of result ≡ in_range quintic (lent xs.now ys ms.now cs.now left right) i }
{
    let beyond = slope_beyond(ms, i) || curvature_beyond(xs, cs, i);
    answer::refuse(Reason::OutOfRange, i as u32, beyond)
}

// Knot by knot, whatever the ordinates and the codes.
pub fn in_range(xs: &[u16], ms: &[i32], cs: &[i32]) -> Judged
    requires { (length xs.now < 2 ^ 32) × (length ms.now ≡ length xs.now) × (length cs.now ≡ length xs.now) }
    ensures { (ys : List ℤ) (left right : ℕ) → verdict_of result ≡ each (in_range quintic (lent xs.now ys ms.now cs.now left right)) 0 (length xs.now) }
{
    answer::each(xs.len(), |i| in_range_at(xs, ms, cs, i))
}
