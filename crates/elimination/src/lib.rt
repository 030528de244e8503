// One knot of the fit's elimination in binary64: what the knot before leaves of its equations, their solution, the way back, and the tests of number 8. It follows
// document 01's "The elimination, rounded once per operation", points 1 to 3, in the order written there.
#![tactic(auto)]

ghost use Rattle.std.specs.Prelude.{◌≡◌, cond};
ghost use Rattle.rows.specs.Equations.{zeros};
ghost use Rattle.elimination.specs.Elimination.{reduced, system, det, solution, columns, state, zero_pair, zero_state, backward};
ghost use Rattle.elimination.specs.Refusal.{is_finite, both_finite, all_finite, usable, passed, judged, solved, eliminated};

use rows::{Block, Pair, Row, ZEROS};

// S and t: a knot's equations once the knot before is eliminated.
#[derive(Drop)]
pub struct System {
    pub s: Block,
    pub t: Pair,
}

// H and P: what elimination leaves of a knot.
#[derive(Clone, Copy)]
pub struct State {
    pub h: Block,
    pub p: Pair,
}

// What stands before the last knot's pair is known, and behind a refusal.
pub fn no_pair() -> Pair
    ensures { result ≡ zero_pair }
{
    Pair { s: 0.0, c: 0.0 }
}

// What stands before the first knot is eliminated.
pub fn start() -> State
    ensures { result ≡ zero_state }
{
    State {
        h: ZEROS,
        p: Pair { s: 0.0, c: 0.0 },
    }
}

// S = A − L.H, t = k − L.P.
fn reduce(row: Row, before: State) -> System
    ensures { result ≡ reduced row before }
{
    System {
        s: row.a - row.l * before.h,
        t: row.k - row.l * before.p,
    }
}

// At the first knot S = A, t = k.
#[tactic(auto, unfolding(crate::specs::Elimination::system))]
fn system_of(row: Row, before: State, first: bool) -> System
    ensures { result ≡ system row before first }
{
    if first {
        System { s: row.a, t: row.k }
    } else {
        reduce(row, before)
    }
}

fn determinant(s: Block) -> f64
    ensures { result ≡ det s }
{
    s.e11 * s.e22 - s.e12 * s.e21
}

// Solves S against the column (r1, r2); d is the determinant.
fn solve(s: Block, d: f64, r1: f64, r2: f64) -> Pair
    ensures { result ≡ solution s d r1 r2 }
{
    Pair {
        s: (s.e22 * r1 - s.e12 * r2) / d,
        c: (s.e11 * r2 - s.e21 * r1) / d,
    }
}

// H solves the columns of R, but not at the last knot.
fn solve_columns(s: Block, d: f64, r: Block, last: bool) -> Block
    ensures { result ≡ cond last zeros (columns s d r) }
{
    if last {
        ZEROS
    } else {
        let u = solve(s, d, r.e11, r.e21);
        let v = solve(s, d, r.e12, r.e22);
        Block {
            e11: u.s,
            e12: v.s,
            e21: u.c,
            e22: v.c,
        }
    }
}

fn state_of(y: System, d: f64, r: Block, last: bool) -> State
    ensures { result ≡ state y d r last }
{
    State {
        h: solve_columns(y.s, d, r, last),
        p: solve(y.s, d, y.t.s, y.t.c),
    }
}

// P − H·(next pair).
pub fn back(x: State, next: Pair) -> Pair
    ensures { result ≡ backward x next }
{
    x.p - x.h * next
}

#[tactic(auto, using(crate::proofs::Words::finite_is))]
pub fn finite(x: f64) -> bool
    ensures { result ≡ is_finite x }
{
    x.is_finite()
}

pub fn finite_pair(v: Pair) -> bool
    ensures { result ≡ both_finite v }
{
    finite(v.s) && finite(v.c)
}

fn finite_block(m: Block) -> bool
    ensures { result ≡ all_finite m }
{
    finite(m.e11) && finite(m.e12) && finite(m.e21) && finite(m.e22)
}

fn can_divide(d: f64) -> bool
    ensures { result ≡ usable d }
{
    finite(d) && d != 0.0
}

fn sound(d: f64, x: State) -> bool
    ensures { result ≡ passed d x }
{
    can_divide(d) && finite_pair(x.p) && finite_block(x.h)
}

// The tests of 8 at a knot that was divided by d: nothing where it is met.
pub fn judge(d: f64, x: State) -> Option<State>
    ensures { result ≡ judged d x }
{
    sound(d, x).then_some(x)
}

// Solves a knot; the determinant that its numbers are divided by is the one that is tested.
#[tactic(auto, unfolding(crate::specs::Refusal::solved))]
fn settle(y: System, r: Block, last: bool) -> Option<State>
    ensures { result ≡ solved y r last }
{
    let d = determinant(y.s);
    judge(d, state_of(y, d, r, last))
}

// One knot, given what elimination left of the one before.
#[tactic(auto, unfolding(crate::specs::Refusal::eliminated))]
pub fn eliminate(row: Row, before: State, first: bool, last: bool) -> Option<State>
    ensures { result ≡ eliminated row before first last }
{
    settle(system_of(row, before, first), row.r, last)
}
