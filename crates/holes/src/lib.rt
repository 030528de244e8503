// Holes in a sheet, and the straight line that fills them: document 02, order 1. Nothing lent is written here.
#![tactic(auto)]

ghost use Rattle.std.specs.Prelude.{◌≡◌, cond, ◌≤◌, ◌<◌, ◌^◌, pos, nat_abs, ◌+ℤ◌, ◌*ℤ◌, length, replicate};
ghost use Rattle.answer.specs.Answer.{each};
ghost use Rattle.answer.specs.Judge.{verdict_of};
ghost use Rattle.curve.specs.Kind.{quintic};
ghost use Rattle.front.specs.Front.{over};
ghost use Rattle.holes.specs.Hole.{is_hole, hole_at, before, right_of, bridged, holes, line, line_at, filled_at};
ghost use Rattle.holes.specs.Needs.{most, Weighed, Between, Fillable};

use answer::{Judged, Reason};

// The places of an array: those of a card.
pub const MOST: usize = knots::Kind::MOST;

// What a sheet has where nothing was measured.
pub const MARK: i16 = -32768;

// What is put into the holes of a copy.
#[derive(Clone, Copy)]
pub enum Fill {
    Zero,
    Line,
}

// ---- holes

pub fn is_hole(y: i16) -> bool
    ensures { result ≡ is_hole y }
{
    y == MARK
}

#[tactic(auto, unfolding(crate::specs::Hole::hole_at))]
fn hole_at(ys: &[i16], i: usize) -> bool
    requires { i < length ys.now }
    ensures { result ≡ hole_at ys.now i }
{
    is_hole(ys[i])
}

// One past the nearest sound knot before i, 0 for none.
#[tactic(auto, using(crate::proofs::Sides::before_hole, crate::proofs::Sides::before_sound, crate::proofs::Sides::before_first))]
fn left_of(ys: &[i16], i: usize) -> usize
    requires { i ≤ length ys.now }
    ensures { result ≡ before ys.now i }
{
    for k in (0..i).rev() {
        if !hole_at(ys, k) {
            return k + 1;
        }
    }
    0
}

// The nearest sound knot behind i, the length for none.
#[tactic(auto, using(crate::proofs::Sides::after_hole, crate::proofs::Sides::after_sound, crate::proofs::Sides::after_last), unfolding(crate::specs::Hole::right_of))]
fn right_of(ys: &[i16], i: usize) -> usize
    requires { i < length ys.now }
    ensures { result ≡ right_of ys.now i }
{
    for j in i + 1..ys.len() {
        if !hole_at(ys, j) {
            return j;
        }
    }
    ys.len()
}

// What a count goes up by: 1 at a hole.
pub fn one_at(ys: &[i16], i: usize) -> usize
    requires { i < length ys.now }
    ensures { result ≡ cond (hole_at ys.now i) 1 0 }
{
    if hole_at(ys, i) { 1 } else { 0 }
}

pub fn count(ys: &[i16]) -> usize
    ensures { result ≡ holes ys.now }
{
    ys.iter().filter(|y| is_hole(**y)).count()
}

// ---- 17

// At a knot.
#[tactic(auto, unfolding(crate::specs::Hole::bridged))]
fn bridged_at(ys: &[i16], i: usize) -> Judged
    requires { (i < length ys.now) × (length ys.now < 2 ^ 32) }
    ensures { verdict_of result ≡ bridged ys.now i }
{
    let stranded = hole_at(ys, i) && (left_of(ys, i) == 0 || ys.len() <= right_of(ys, i));
    answer::refuse(Reason::Stranded, i as u32, stranded)
}

// Knot by knot.
pub fn bridged(ys: &[i16]) -> Judged
    requires { length ys.now < 2 ^ 32 }
    ensures { verdict_of result ≡ each (bridged ys.now) 0 (length ys.now) }
{
    answer::each(ys.len(), |i| bridged_at(ys, i))
}

// ---- the line

// The line's value times the minutes between its ends.
fn weighed(y: i64, u: i64, z: i64, v: i64) -> i64
    requires y_bound { (nat_abs y ≤ quintic.ordinates) × (nat_abs z ≤ quintic.ordinates) }
    requires u_bound { (nat_abs u ≤ 65535) × (nat_abs v ≤ 65535) }
    ensures { result ≡ y *ℤ u +ℤ z *ℤ v }
{
    y * u + z * v
}

// v minutes behind y, u minutes before z.
fn line(y: i16, u: u16, z: i16, v: u16) -> i16
    requires { Weighed y u z v }
    ensures { result ≡ line y u z v }
{
    let sum = weighed(y as i64, u as i64, z as i64, v as i64);
    whole::nearest(sum, u as u64 + v as u64) as i16
}

#[tactic(auto, using(std::proofs::lemmas::Int::ints, crate::proofs::Lines::weighs), unfolding(crate::specs::Hole::left_of, crate::specs::Hole::line_at))]
fn line_at(xs: &[u16], ys: &[i16], i: usize) -> i16
    requires i_in_bounds { (i < length ys.now) × (length ys.now ≡ length xs.now) }
    requires between { Between xs.now ys.now i }
    ensures { result ≡ line_at xs.now ys.now i }
{
    let l = left_of(ys, i) - 1;
    let r = right_of(ys, i);
    line(ys[l], xs[r] - xs[i], ys[r], xs[i] - xs[l])
}

#[tactic(auto, using(std::proofs::lemmas::Int::ints), unfolding(crate::specs::Hole::filled_at, crate::specs::Hole::put_at))]
fn filled_at(fill: Fill, xs: &[u16], ys: &[i16], i: usize) -> i16
    requires i_in_bounds { (i < length ys.now) × (length ys.now ≡ length xs.now) }
    requires fillable { Fillable fill xs.now ys.now }
    ensures { result ≡ filled_at xs.now ys.now fill i }
{
    if !hole_at(ys, i) {
        return ys[i];
    }
    match fill {
        Fill::Zero => 0,
        Fill::Line => line_at(xs, ys, i),
    }
}

// A copy of the ordinates with the holes filled, zeros behind it.
#[tactic(auto, using(front::proofs::Filled::filled_none))]
pub fn filled(fill: Fill, xs: &[u16], ys: &[i16]) -> [i16; MOST]
    requires ys_len_bound { (length ys.now ≤ most) × (length ys.now ≡ length xs.now) }
    requires fillable { Fillable fill xs.now ys.now }
    ensures { result ≡ over (filled_at xs.now ys.now fill) (length ys.now) (replicate most (pos 0)) }
{
    let mut out = [0i16; MOST];
    for i in 0..ys.len() {
        out[i] = filled_at(fill, xs, ys, i);
    }
    out
}
