// The ends of a fit: their codes, and the test of the numbers given for them. Document 01, "The curve and its card" and number 7.
#![tactic(auto)]

ghost use Rattle.std.specs.Prelude.{◌≡◌, ◌^◌, ◌≤◌, ◌<◌};
ghost use Rattle.answer.specs.Judge.{verdict_of};
ghost use Rattle.rows.specs.Equations.{code};
ghost use Rattle.ends.specs.Ends.{end_by, unfit, unfit_end, ends};

use answer::{Judged, Reason};
use knots::Kind;
use rows::End;

// ---- codes

// A function, since `u16::from(end)` would not say which number of an end is meant.
pub fn code(end: End) -> u16
    ensures { result ≡ code end }
{
    match end {
        End::Free => 0,
        End::Both(_, _) => 1,
        End::Curvature(_) => 2,
    }
}

// The end that a code asks, with the numbers that come beside it; free for a code that 15 refuses.
#[tactic(auto, unfolding(crate::specs::Ends::end_by))]
pub fn end_by(number: u16, slope: f64, curvature: f64) -> End
    ensures { result ≡ end_by number slope curvature }
{
    match number {
        1 => End::Both(slope, curvature),
        2 => End::Curvature(curvature),
        _ => End::Free,
    }
}

// ---- 7

fn unfit(x: f64) -> bool
    ensures { result ≡ unfit x }
{
    !elimination::finite(x) || Kind::GIVEN < x || x < -Kind::GIVEN
}

// It looks only at the numbers that the end's kind takes.
fn unfit_end(end: End) -> bool
    ensures { result ≡ unfit_end end }
{
    match end {
        End::Free => false,
        End::Both(slope, curvature) => unfit(slope) || unfit(curvature),
        End::Curvature(curvature) => unfit(curvature),
    }
}

// Left, right: at the end knots of n.
#[tactic(auto, using(answer::proofs::Orders::orders), unfolding(crate::specs::Ends::ends))]
pub fn given_ends(n: usize, left: End, right: End) -> Judged
    requires { (0 < n) × (n ≤ 2 ^ 32) }
    ensures { verdict_of result ≡ ends n left right }
{
    answer::refuse(Reason::UnfitEnd, 0, unfit_end(left))?;
    let last = n - 1;
    answer::refuse(Reason::UnfitEnd, last as u32, unfit_end(right))
}
