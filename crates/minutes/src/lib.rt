// What the minutes of a card say by themselves: a knot's neighbours, the gaps beside it, and the gap of a minute with the looks that it takes.
// Document 01, "The curve and its card" and "The exact curve"; document 02, order 7.
#![tactic(auto)]

ghost use Rattle.std.specs.Prelude.{◌≡◌, ◌+◌, ◌-◌, ◌<◌, ◌^◌, min, length};
ghost use Rattle.answer.specs.Judge.{verdict_of};
ghost use Rattle.curve.specs.Card.{back};
ghost use Rattle.curve.specs.Steps.{outside};
ghost use Rattle.minutes.specs.Gaps.{left_gap, right_gap, wider_gap};
ghost use Rattle.minutes.specs.Search.{look, found};

use answer::{Judged, Reason};

// ---- a knot and its neighbours

// The place before; at the first knot its own.
#[tactic(auto, unfolding(curve::specs::Card::back))]
pub fn back(i: usize) -> usize
    ensures { result ≡ back i }
{
    i.saturating_sub(1)
}

// The place after, of n; at the last knot its own.
pub fn on(n: usize, i: usize) -> usize
    requires { i < n }
    ensures { result ≡ min (i + 1) (n - 1) }
{
    (i + 1).min(n - 1)
}

// From one minute to another; 0 where it is not after.
fn gap(from: u16, to: u16) -> u16
    ensures { result ≡ to - from }
{
    to.saturating_sub(from)
}

// The gap on the left of a knot; 0 at the first.
#[tactic(auto, unfolding(curve::specs::Card::back))]
pub fn left_gap(xs: &[u16], i: usize) -> u16
    requires { i < length xs.now }
    ensures { result ≡ left_gap xs.now i }
{
    let before = back(i);
    gap(xs[before], xs[i])
}

// The gap on the right of a knot; 0 at the last.
pub fn right_gap(xs: &[u16], i: usize) -> u16
    requires { i < length xs.now }
    ensures { result ≡ right_gap xs.now i }
{
    let after = on(xs.len(), i);
    gap(xs[i], xs[after])
}

// The wider of the gaps beside a knot.
#[tactic(auto, unfolding(crate::specs::Gaps::wider_gap))]
pub fn wider_gap(xs: &[u16], i: usize) -> u16
    requires { i < length xs.now }
    ensures { result ≡ wider_gap xs.now i }
{
    left_gap(xs, i).max(right_gap(xs, i))
}

// ---- a minute

// 11.
#[tactic(auto, unfolding(curve::specs::Steps::outside))]
pub fn outside(xs: &[u16], minute: u16) -> Judged
    requires { 0 < length xs.now }
    ensures { verdict_of result ≡ outside xs.now minute }
{
    let last = xs[xs.len() - 1];
    answer::refuse(Reason::Outside, 0, minute < xs[0] || last < minute)
}

// ---- the gap of a minute, by halving: document 02, order 7

// What is left to look through: so many gaps, from a first one on; and the looks so far.
#[derive(Clone, Copy)]
pub struct Left {
    pub first: usize,
    pub gaps: usize,
    pub looks: u32,
}

// One look. It sees what is left, the minute, and the minute of the knot that begins the middle gap; and it alone counts.
fn look(left: Left, minute: u16, knot: u16) -> Left
    requires { (left.first + left.gaps < 2 ^ 64) × (left.looks + 1 < 2 ^ 32) }
    ensures { result ≡ look left minute knot }
{
    let lower = left.gaps / 2;
    let looks = left.looks + 1;
    if minute < knot {
        return Left {
            first: left.first,
            gaps: lower,
            looks,
        };
    }
    Left {
        first: left.first + lower,
        gaps: left.gaps - lower,
        looks,
    }
}

// The one gap that the looks leave, by the place of its left knot; and how many they were.
pub fn find(xs: &[u16], minute: u16) -> Left
    requires { (0 < length xs.now) × (length xs.now < 2 ^ 32) }
    ensures { result ≡ found xs.now minute }
{
    let mut left = Left {
        first: 0,
        gaps: xs.len() - 1,
        looks: 0,
    };
    // no index is counted: each look says how much is left
    while 1 < left.gaps {
        let middle = left.first + left.gaps / 2;
        left = look(left, minute, xs[middle]);
    }
    left
}
