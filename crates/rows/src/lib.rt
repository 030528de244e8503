// One knot's equations in binary64: the powers of its gaps, the matrices A, L and R, the right side k, and the rows that an end replaces. It follows document 01's
// "The equations" and the first paragraph of "The elimination, rounded once per operation", in the order written there.
#![tactic(auto)]

ghost use Rattle.std.specs.Prelude.{◌≡◌};
ghost use Rattle.rows.specs.Matrices.{◌times◌, ◌on◌, ◌less◌, ◌minus◌};
ghost use Rattle.rows.specs.Equations.{one_over, powers, difference, gap, no_gap, row, second, both_given, curvature_given, replaced, equations};

use std::ops::{Mul, Sub};

// A slope with a curvature; a right side; a column.
#[derive(Clone, Copy)]
pub struct Pair {
    pub s: f64,
    pub c: f64,
}

// A matrix, row by row.
#[derive(Clone, Copy)]
pub struct Block {
    pub e11: f64,
    pub e12: f64,
    pub e21: f64,
    pub e22: f64,
}

// The inverse of a gap, and its powers.
#[derive(Clone, Copy)]
pub struct Powers {
    pub g: f64,
    pub g2: f64,
    pub g3: f64,
    pub g4: f64,
}

// What a gap brings to the equations of the knots beside it.
#[derive(Clone, Copy)]
pub struct Gap {
    pub powers: Powers,
    pub rise: f64,
}

// A knot's two equations: L·(pair before) + A·(pair) + R·(next pair) = k.
#[derive(Clone, Copy)]
pub struct Row {
    pub a: Block,
    pub l: Block,
    pub r: Block,
    pub k: Pair,
}

// The kind of an end: code 0, code 1 with slope and curvature given, code 2 with the curvature given.
#[derive(Clone, Copy)]
pub enum End {
    Free,
    Both(f64, f64),
    Curvature(f64),
}

pub const ZEROS: Block = Block {
    e11: 0.0,
    e12: 0.0,
    e21: 0.0,
    e22: 0.0,
};

// ---- matrices: each entry of a product is two products, then their sum

impl Mul for Block {
    type Output = Block;

    ghost mul_gives = { λ m n r. r ≡ m times n };

    fn mul(self, n: Block) -> Block {
        Block {
            e11: self.e11 * n.e11 + self.e12 * n.e21,
            e12: self.e11 * n.e12 + self.e12 * n.e22,
            e21: self.e21 * n.e11 + self.e22 * n.e21,
            e22: self.e21 * n.e12 + self.e22 * n.e22,
        }
    }
}

impl Mul<Pair> for Block {
    type Output = Pair;

    ghost mul_gives = { λ m v r. r ≡ m on v };

    fn mul(self, v: Pair) -> Pair {
        Pair {
            s: self.e11 * v.s + self.e12 * v.c,
            c: self.e21 * v.s + self.e22 * v.c,
        }
    }
}

impl Sub for Block {
    type Output = Block;

    ghost sub_gives = { λ m n r. r ≡ m less n };

    fn sub(self, n: Block) -> Block {
        Block {
            e11: self.e11 - n.e11,
            e12: self.e12 - n.e12,
            e21: self.e21 - n.e21,
            e22: self.e22 - n.e22,
        }
    }
}

impl Sub for Pair {
    type Output = Pair;

    ghost sub_gives = { λ v w r. r ≡ v minus w };

    fn sub(self, w: Pair) -> Pair {
        Pair {
            s: self.s - w.s,
            c: self.c - w.c,
        }
    }
}

// ---- gaps

fn inverse(h: u16) -> f64
    ensures { result ≡ one_over h }
{
    1.0 / f64::from(h)
}

fn powers_of(g: f64) -> Powers
    ensures { result ≡ powers g }
{
    let g2 = g * g;
    let g3 = g2 * g;
    let g4 = g3 * g;
    Powers { g, g2, g3, g4 }
}

fn rise_over(y: i16, next: i16) -> f64
    ensures { result ≡ difference y next }
{
    f64::from(i32::from(next) - i32::from(y))
}

// A gap of h minutes, from the ordinate y to the next.
#[tactic(auto, unfolding(crate::specs::Equations::gap))]
pub fn gap_of(h: u16, y: i16, next: i16) -> Gap
    ensures { result ≡ gap h y next }
{
    let powers = powers_of(inverse(h));
    let rise = rise_over(y, next);
    Gap { powers, rise }
}

#[tactic(auto, unfolding(crate::specs::Equations::no_gap))]
pub fn empty_gap() -> Gap
    ensures { result ≡ no_gap }
{
    let powers = powers_of(0.0);
    Gap { powers, rise: 0.0 }
}

// ---- rows

// A, L, R and k for the gaps p on the left and g on the right.
fn row_of(p: Powers, e: f64, g: Powers, d: f64) -> Row
    ensures { result ≡ row p e g d }
{
    let m = 12.0 * (g.g2 - p.g2);
    let a = Block {
        e11: 64.0 * (p.g3 + g.g3),
        e12: m,
        e21: m,
        e22: 3.0 * (p.g + g.g),
    };
    let l = Block {
        e11: 56.0 * p.g3,
        e12: 8.0 * p.g2,
        e21: -8.0 * p.g2,
        e22: -p.g,
    };
    let r = Block {
        e11: 56.0 * g.g3,
        e12: -8.0 * g.g2,
        e21: 8.0 * g.g2,
        e22: -g.g,
    };
    let k = Pair {
        s: 120.0 * (g.g4 * d + p.g4 * e),
        c: 20.0 * (g.g3 * d - p.g3 * e),
    };
    Row { a, l, r, k }
}

fn with_second(m: Block, e21: f64, e22: f64) -> Block
    ensures { result ≡ second m e21 e22 }
{
    Block { e21, e22, ..m }
}

// Both rows replaced: s = given and c = given.
fn row_of_both(slope: f64, curvature: f64) -> Row
    ensures { result ≡ both_given slope curvature }
{
    Row {
        a: Block {
            e11: 1.0,
            e22: 1.0,
            ..ZEROS
        },
        l: ZEROS,
        r: ZEROS,
        k: Pair {
            s: slope,
            c: curvature,
        },
    }
}

// The third-derivative row replaced: c = given.
fn row_of_curvature(row: Row, curvature: f64) -> Row
    ensures { result ≡ curvature_given row curvature }
{
    Row {
        a: with_second(row.a, 0.0, 1.0),
        l: with_second(row.l, 0.0, 0.0),
        r: with_second(row.r, 0.0, 0.0),
        k: Pair {
            c: curvature,
            ..row.k
        },
    }
}

fn ended(row: Row, end: End) -> Row
    ensures { result ≡ replaced row end }
{
    match end {
        End::Free => row,
        End::Both(slope, curvature) => row_of_both(slope, curvature),
        End::Curvature(curvature) => row_of_curvature(row, curvature),
    }
}

// The equations of a knot between two gaps; an inner knot passes a free end, which keeps both rows.
#[tactic(auto, unfolding(crate::specs::Equations::equations))]
pub fn equations_of(p: Gap, g: Gap, end: End) -> Row
    ensures { result ≡ equations p g end }
{
    ended(row_of(p.powers, p.rise, g.powers, g.rise), end)
}
