// The pre-heater's set value: the natural cubic through a table of equal steps, at a whole count of parts from
// its first value. Document 02, order 10; document 001, in whole numbers. The public function asks nothing of
// its caller.
#![tactic(auto)]

ghost use Rattle.std.specs.Prelude.{◌≡◌, ◌-◌, ◌*◌, ◌≤◌, ◌<◌, nat_abs, ◌-ℤ◌, ◌*ℤ◌, length};
ghost use Rattle.whole.specs.Whole.{nearest};
ghost use Rattle.answer.specs.Answer.{refused, ◌then◌};
ghost use Rattle.answer.specs.Judge.{number_of, verdict_of};
ghost use Rattle.curve.specs.Formula.{num, worth};
ghost use Rattle.cubic.specs.Cubic.{cubic};
ghost use Rattle.unknowns.specs.Unknowns.{answer_of, Sound};
ghost use Rattle.preheat.specs.Preheat.{fewest_parts, most_parts, step, value, parted, past, preheat, heated, weight, bent, InLeft, InBend, InLevel, InStep};

use answer::{Judged, Reason, Refusal};

const FEWEST_PARTS: u16 = 2;

const MOST_PARTS: u16 = 60;

// ---- (2.1), rounded

// How much an unknown counts, r of q parts from the other value.
fn weight(q: i64, r: i64) -> i64
    requires { (nat_abs q ≤ most_parts) × (nat_abs r ≤ most_parts) }
    ensures { result ≡ weight q r }
{
    q * q * r - r * r * r
}

fn bent(x: i64, w0: i64, w1: i64, z0: i64, z1: i64) -> i64
    requires { InBend x w0 w1 z0 z1 }
    ensures { result ≡ bent x w0 w1 z0 z1 }
{
    x - w0 * z0 - w1 * z1
}

// What a whole multiple of d leaves.
fn left(z: i64, d: i64, f: i64) -> i64
    requires { InLeft z d f }
    ensures { result ≡ z -ℤ d *ℤ f }
{
    z - d * f
}

// Over a * cube, where the level is over the cube: what is whole and even in it is set aside first, so that the
// rest is small and its tie is the tie of both.
fn settled(a: i64, cube: i64, level: i64, w0: i64, w1: i64, z0: i64, z1: i64) -> i64
    requires { InLevel a cube level w0 w1 z0 z1 }
    ensures { result ≡ nearest (bent (a *ℤ level) w0 w1 z0 z1) (nat_abs (a *ℤ cube)) }
{
    let twice = 2 * cube;
    let half = whole::nearest(level, twice as u64);
    let rest = left(level, twice, half);
    let n = bent(a * rest, w0, w1, z0, z1);
    2 * half + whole::nearest(n, (a * cube) as u64)
}

// As one fraction it would pass 64 bits: a whole multiple of a is set aside of each unknown.
fn rounded(a: i64, q: i64, r: i64, y0: i64, y1: i64, z0: i64, z1: i64) -> i64
    requires { InStep a q r y0 y1 z0 z1 }
    ensures { result ≡ nearest (worth (cubic (num a) (num q) (num y0) (num y1) (num z0) (num z1)) r) (nat_abs (a *ℤ (q *ℤ q *ℤ q))) }
{
    let w0 = weight(q, q - r);
    let w1 = weight(q, r);
    let f0 = whole::nearest(z0, a as u64);
    let f1 = whole::nearest(z1, a as u64);
    let level = bent(q * q * (y0 * (q - r) + y1 * r), w0, w1, f0, f1);
    let e0 = left(z0, a, f0);
    let e1 = left(z1, a, f1);
    settled(a, q * q * q, level, w0, w1, e0, e1)
}

// ---- of a table

// The step that a count falls into, of n values.
#[tactic(auto, unfolding(crate::specs::Preheat::step))]
fn step_of(n: usize, parts: usize, count: usize) -> usize
    requires { (2 ≤ n) × (0 < parts) }
    ensures { result ≡ step n parts count }
{
    (count / parts).min(n - 2)
}

fn value_in(ys: &[i16], parts: usize, count: usize) -> i64
    requires sound { Sound ys.now }
    requires fewest_parts_le_parts { (fewest_parts ≤ parts) × (parts ≤ most_parts) × (count ≤ (length ys.now - 1) * parts) }
    ensures { result ≡ value ys.now parts count }
{
    let i = step_of(ys.len(), parts, count);
    let past = count - i * parts;
    let pair = unknowns::at(ys, i);
    let scale = cubic::entry(ys.len() - 2);
    let y0 = unknowns::value_at(ys, i);
    let y1 = unknowns::value_at(ys, i + 1);
    rounded(
        scale,
        parts as i64,
        past as i64,
        y0,
        y1,
        pair.here,
        pair.next,
    )
}

// 25, 11.
#[tactic(auto, using(answer::proofs::Orders::orders), unfolding(crate::specs::Preheat::parted, crate::specs::Preheat::past))]
fn asked(n: usize, parts: u16, count: u16) -> Judged
    requires { (0 < n) × (n < 65536) }
    ensures { verdict_of result ≡ (parted parts then past n parts count) }
{
    let unfit = parts < FEWEST_PARTS || MOST_PARTS < parts;
    answer::refuse(Reason::UnfitParts, 0, unfit)?;
    let behind = (n - 1) * (parts as usize) < count as usize;
    answer::refuse(Reason::Outside, 0, behind)
}

// ---- answered

// The value in hundredths, or a zero beside the number and place of a refusal: what C is told.
#[repr(C)]
#[derive(Drop)]
pub struct Heated {
    pub number: u32,
    pub place: u32,
    pub value: i32,
}

impl From<Refusal> for Heated {
    ghost from_gives = { λ r answer. answer ≡ heated (refused (number_of r.reason) r.place) };

    fn from(refusal: Refusal) -> Heated {
        Heated {
            number: refusal.number(),
            place: refusal.place,
            value: 0,
        }
    }
}

// Beyond the table's own values where the cubic swings.
#[tactic(auto, using(answer::proofs::Orders::orders), unfolding(crate::specs::Preheat::preheat))]
fn found(ys: &[i16], parts: u16, count: u16) -> Result<i32, Refusal>
    ensures { answer_of result ≡ preheat ys.now parts count }
{
    unknowns::check(ys)?;
    asked(ys.len(), parts, count)?;
    Ok(value_in(ys, parts as usize, count as usize) as i32)
}

// 1, 24, 6; 25; 11.
pub fn value(ys: &[i16], parts: u16, count: u16) -> Heated
    ensures { result ≡ heated (preheat ys.now parts count) }
{
    match found(ys, parts, count) {
        Ok(value) => Heated {
            number: 0,
            place: 0,
            value,
        },
        Err(refusal) => Heated::from(refusal),
    }
}
