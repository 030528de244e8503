// One knot of order 8's elimination in binary64, with one number per knot: its equation, the slopes given and
// moved to the right side, what the knot before leaves of it, its solution and the way back. It follows
// document 02's "Values with measured slopes", in the order written there; the tests of number 8 are
// `elimination`'s.
#![tactic(auto)]

ghost use Rattle.std.specs.Prelude.{◌≡◌};
ghost use Rattle.lines.specs.Lines.{hundredths, line, reduced, single, line_solved, line_eliminated, line_back};

use elimination::State;
use rows::{Block, Gap, Pair, ZEROS};

// A knot's equation: L·(curvature before) + A·(curvature) + R·(next curvature) = k.
#[derive(Drop)]
pub struct Line {
    pub a: f64,
    pub l: f64,
    pub r: f64,
    pub k: f64,
}

// A number in card units as a float; both steps are exact.
pub fn hundredths(number: i32) -> f64
    ensures { result ≡ hundredths number }
{
    f64::from(number) / 4096.0
}

// The equation of a knot between two gaps, by the slope of the knot before, its own and that of the next.
pub fn line_of(p: Gap, g: Gap, before: f64, here: f64, after: f64) -> Line
    ensures { result ≡ line p g before here after }
{
    Line {
        a: 3.0 * (p.powers.g + g.powers.g),
        l: -p.powers.g,
        r: -g.powers.g,
        k: 20.0 * (g.powers.g3 * g.rise - p.powers.g3 * p.rise)
            - (((12.0 * (g.powers.g2 - p.powers.g2)) * here + (8.0 * g.powers.g2) * after)
                - (8.0 * p.powers.g2) * before),
    }
}

// S or t: A − L.H, k − L.P; at the first knot A, k.
fn reduce(own: f64, l: f64, before: f64, first: bool) -> f64
    ensures { result ≡ reduced own l before first }
{
    if first { own } else { own - l * before }
}

// H and P in the curvatures' places.
fn state_of(h: f64, p: f64) -> State
    ensures { result ≡ single h p }
{
    State {
        h: Block { e22: h, ..ZEROS },
        p: Pair { s: 0.0, c: p },
    }
}

// S is tested as the determinant that P and H were divided by; H is not solved for at the last knot.
#[tactic(auto, unfolding(crate::specs::Lines::line_solved))]
fn settle(s: f64, t: f64, r: f64, last: bool) -> Option<State>
    ensures { result ≡ line_solved s t r last }
{
    let h = if last { 0.0 } else { r / s };
    elimination::judge(s, state_of(h, t / s))
}

// One knot, given what elimination left of the one before.
#[tactic(auto, unfolding(crate::specs::Lines::line_eliminated))]
pub fn eliminate(line: Line, before: State, first: bool, last: bool) -> Option<State>
    ensures { result ≡ line_eliminated line before first last }
{
    let s = reduce(line.a, line.l, before.h.e22, first);
    let t = reduce(line.k, line.l, before.p.c, first);
    settle(s, t, line.r, last)
}

// P − H·(next curvature).
pub fn back(x: State, next: Pair) -> Pair
    ensures { result ≡ line_back x next }
{
    Pair {
        s: 0.0,
        c: x.p.c - x.h.e22 * next.c,
    }
}
