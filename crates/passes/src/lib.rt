// The two passes of the fit's elimination over a sheet of knots, forward and back, after document 01's "The elimination,
// rounded once per operation" and document 02's "Values with measured slopes": they give each knot's slope
// and curvature, or number 8 at the knot where it is first met. Where the slopes are given, the curvatures
// alone are solved for, and zeros stand for the slopes.
#![tactic(auto)]

ghost use Rattle.std.specs.Prelude.{◌≡◌, ◌+◌, ◌≤◌, ◌<◌, pos, length, get_or, IfErr, None};
ghost use Rattle.answer.specs.Judge.{number_of};
ghost use Rattle.elimination.specs.Refusal.{number_of_step};
ghost use Rattle.lines.specs.Lines.{hundredths};
ghost use Rattle.passes.specs.Sheet.{most, Rising, end_of, knot_between, right_gap, slope_before, slope_after, line_between};
ghost use Rattle.passes.specs.Jobs.{between_by, step_by, turn_by};
ghost use Rattle.passes.specs.Forward.{stuck_at, Forwarded};
ghost use Rattle.passes.specs.Back.{turned};
ghost use Rattle.passes.specs.Passes.{passes};

use answer::{Judged, Reason, Refusal};
use elimination::State;
use rows::{End, Gap, Pair};

// The most knots that a sheet may have.
pub const MOST: usize = 64;

// What is solved for: the slopes and curvatures between two ends, or the curvatures alone, the slopes given.
#[derive(Clone, Copy)]
pub enum Job {
    Ends(End, End),
    Slopes,
}

// The gap on the right of knot i.
#[tactic(auto, unfolding(crate::specs::Sheet::right_gap))]
fn gap_after(minutes: &[u16], ordinates: &[i16], i: usize) -> Gap
    requires i_in_bounds { (i < length minutes.now) × (length minutes.now ≤ most) × (length ordinates.now ≡ length minutes.now) }
    requires rising { Rising minutes.now }
    ensures { result ≡ right_gap minutes.now ordinates.now i }
{
    if i + 1 == minutes.len() {
        rows::empty_gap()
    } else {
        rows::gap_of(minutes[i + 1] - minutes[i], ordinates[i], ordinates[i + 1])
    }
}

#[tactic(auto, unfolding(crate::specs::Sheet::end_of))]
fn end_at(n: usize, left: End, right: End, i: usize) -> End
    requires { i < n }
    ensures { result ≡ end_of n left right i }
{
    if i == 0 {
        left
    } else if i + 1 == n {
        right
    } else {
        End::Free
    }
}

// Knot i of n between the gaps p and g, given what elimination left of the one before.
#[tactic(auto, unfolding(crate::specs::Sheet::knot_between))]
fn knot(n: usize, left: End, right: End, p: Gap, g: Gap, before: State, i: usize) -> Option<State>
    requires { i < n }
    ensures { result ≡ knot_between n left right p g before i }
{
    let end = end_at(n, left, right, i);
    let row = rows::equations_of(p, g, end);
    elimination::eliminate(row, before, i == 0, i + 1 == n)
}

// ---- the slopes given

// Of knot i, as a float.
fn slope_of(slopes: &[i32], i: usize) -> f64
    requires { i < length slopes.now }
    ensures { result ≡ hundredths (get_or slopes.now i (pos 0)) }
{
    let m = slopes[i];
    lines::hundredths(m)
}

// Of the knot before knot i; the first has none.
#[tactic(auto, unfolding(crate::specs::Sheet::slope_before))]
fn slope_before(slopes: &[i32], i: usize) -> f64
    requires { i < length slopes.now }
    ensures { result ≡ slope_before slopes.now i }
{
    if i == 0 { 0.0 } else { slope_of(slopes, i - 1) }
}

// Of the knot after knot i; the last has none.
#[tactic(auto, unfolding(crate::specs::Sheet::slope_after))]
fn slope_after(slopes: &[i32], i: usize) -> f64
    requires { (i < length slopes.now) × (length slopes.now ≤ most) }
    ensures { result ≡ slope_after slopes.now i }
{
    if i + 1 == slopes.len() {
        0.0
    } else {
        slope_of(slopes, i + 1)
    }
}

// Knot i between the gaps p and g, given what elimination left of the one before.
#[tactic(auto, unfolding(crate::specs::Sheet::line_between))]
fn line_knot(slopes: &[i32], p: Gap, g: Gap, before: State, i: usize) -> Option<State>
    requires { (i < length slopes.now) × (length slopes.now ≤ most) }
    ensures { result ≡ line_between slopes.now p g before i }
{
    let left = slope_before(slopes, i);
    let here = slope_of(slopes, i);
    let right = slope_after(slopes, i);
    let line = lines::line_of(p, g, left, here, right);
    lines::eliminate(line, before, i == 0, i + 1 == slopes.len())
}

// ---- either job

// One knot for each slope.
fn knot_by(slopes: &[i32], job: Job, p: Gap, g: Gap, before: State, i: usize) -> Option<State>
    requires { (i < length slopes.now) × (length slopes.now ≤ most) }
    ensures { result ≡ between_by slopes.now job p g before i }
{
    match job {
        Job::Ends(left, right) => knot(slopes.len(), left, right, p, g, before, i),
        Job::Slopes => line_knot(slopes, p, g, before, i),
    }
}

fn back_by(job: Job, x: State, next: Pair) -> Pair
    ensures { result ≡ turn_by job x next }
{
    match job {
        Job::Ends(left, right) => elimination::back(x, next),
        Job::Slopes => lines::back(x, next),
    }
}

// Number 8 at knot i.
fn stuck(i: usize) -> Refusal
    requires { i < most }
    ensures { result ≡ stuck_at i }
{
    Refusal {
        reason: Reason::Stuck,
        place: i as u32,
    }
}

// What elimination leaves of each knot, in lent room. The gap on a knot's right is kept for the next, whose left it is.
fn forward_pass(
    minutes: &[u16],
    ordinates: &[i16],
    slopes: &[i32],
    job: Job,
    states: &mut [State; MOST],
) -> Judged
    requires minutes_len_bound { (length minutes.now ≤ most) × (length ordinates.now ≡ length minutes.now) × (length slopes.now ≡ length minutes.now) }
    requires rising { Rising minutes.now }
    ensures { Forwarded (step_by minutes.now ordinates.now slopes.now job) (length minutes.now) result states.new }
{
    let mut before = elimination::start();
    let mut p = rows::empty_gap();
    for i in 0..minutes.len() {
        let g = gap_after(minutes, ordinates, i);
        let Some(state) = knot_by(slopes, job, p, g, before, i) else {
            return Err(stuck(i));
        };
        states[i] = state;
        before = state;
        p = g;
    }
    Ok(())
}

// The pair of a knot with j knots behind it.
#[tactic(auto, unfolding(crate::specs::Back::turned))]
fn pair_before(job: Job, x: State, next: Pair, j: usize) -> Pair
    ensures { result ≡ turned (turn_by job) x next j }
{
    if j == 0 { x.p } else { back_by(job, x, next) }
}

// The slope and the curvature of each knot, in hundredths per minute (squared), zeros behind them: forward, then
// back. The number of a refusal is a stuck step's. The slopes are read only where they are what is given. The states
// stand here alone, since they are a third of a fit's stack.
pub fn pairs_of(
    minutes: &[u16],
    ordinates: &[i16],
    slopes: &[i32],
    job: Job,
) -> Result<[Pair; MOST], Refusal>
    requires minutes_len_bound { (length minutes.now ≤ most) × (length ordinates.now ≡ length minutes.now) × (length slopes.now ≡ length minutes.now) }
    requires rising { Rising minutes.now }
    ensures whole { result ≡ passes (step_by minutes.now ordinates.now slopes.now job) (turn_by job) (length minutes.now) }
    ensures number { IfErr result (λ refusal. number_of refusal.reason ≡ number_of_step None) }
{
    let n = minutes.len();
    let mut states = [elimination::start(); MOST];
    forward_pass(minutes, ordinates, slopes, job, &mut states)?;
    let mut next = elimination::no_pair();
    let mut pairs = [next; MOST];
    for j in 0..n {
        let k = n - 1 - j;
        next = pair_before(job, states[k], next, j);
        if !elimination::finite_pair(next) {
            return Err(stuck(k));
        }
        pairs[k] = next;
    }
    Ok(pairs)
}
