// The curve of one gap, with what the gap alone decides worked out once, so that a minute of it takes few
// operations. Document 01, "The exact curve": N is σ³ P(τ) + τ³ P'(σ), where P and P' have degree 2, so that
// either knot gives three numbers.
#![tactic(auto)]

ghost use Rattle.std.specs.Prelude.{◌≡◌, ◌<◌, ◌^◌, nat_abs};
ghost use Rattle.whole.specs.Whole.{nearest};
ghost use Rattle.gaps.specs.Limits.{InGap, Keeps};
ghost use Rattle.parts.specs.Limits.{Tame};
ghost use Rattle.gap_curve.specs.GapCurve.{by_powers, side, shares, laid, added, read_of};
ghost use Rattle.gap_curve.specs.Limits.{near, Fair, Laid};

// What a knot adds to the three numerators at a minute; and the numerators themselves.
#[derive(Drop)]
pub struct Shares {
    pub value: i64,
    pub slope: i64,
    pub curvature: i64,
}

// P, by the powers of the minutes from its knot.
#[derive(Clone, Copy)]
pub struct Side {
    pub level: i64,
    pub rise: i64,
    pub bend: i64,
}

impl Side {
    fn of(h: i64, k: gaps::Knot) -> Side
        requires in_gap { InGap h h }
        requires keeps { Keeps near k }
        ensures { result ≡ side h k }
    {
        let gaps::Knot {
            ordinate,
            slope,
            curvature,
        } = k;
        let height = 8192 * ordinate;
        let reach = h * slope;
        Side {
            level: h * h * height,
            rise: h * (3 * height + 2 * reach),
            bend: 6 * (height + reach) + h * h * curvature,
        }
    }
}

// At t minutes from the knot of P and s from the other: s³ P(t), and its first two derivatives in t, where s
// falls as t rises. P comes as its three numbers: a call that hands a struct on by memory costs more than the
// arithmetic.
fn shares_of(level: i64, rise: i64, bend: i64, t: i64, s: i64) -> Shares
    requires { Fair (by_powers level rise bend) t s }
    ensures { result ≡ shares (by_powers level rise bend) t s }
{
    let bent = bend * t;
    let risen = bent + rise;
    let value = risen * t + level;
    let rate = bent + risen;
    let slope = s * rate - 3 * value;
    let square = s * s;
    Shares {
        value: square * s * value,
        slope: square * slope,
        curvature: s * (s * (2 * bend * s - 4 * rate) - 2 * slope),
    }
}

// s³ P(t) alone.
fn value_share(level: i64, rise: i64, bend: i64, t: i64, s: i64) -> i64
    requires { Fair (by_powers level rise bend) t s }
    ensures { result ≡ (shares (by_powers level rise bend) t s).value }
{
    s * s * s * ((bend * t + rise) * t + level)
}

// n / d, where it fits 32 bits.
#[tactic(auto, using(std::proofs::lemmas::Int::ints))]
fn rounded(n: i64, d: u64) -> i32
    requires d_nonzero { (0 < d) × (nat_abs n < 2 ^ 63) }
    requires d_bound { nat_abs (nearest n d) < 2 ^ 31 }
    ensures { result ≡ nearest n d }
{
    whole::nearest(n, d) as i32
}

// The gap, P of either knot, and what stands under the value, and what under the slope and the curvature.
#[derive(Clone, Copy)]
pub struct GapCurve {
    pub h: i64,
    pub left: Side,
    pub right: Side,
    pub under: u64,
    pub base: u64,
}

impl GapCurve {
    pub fn of(h: i64, a: gaps::Knot, b: gaps::Knot) -> GapCurve
        requires in_gap { InGap h h }
        requires tame { Tame h a b }
        ensures { result ≡ laid h a b }
    {
        GapCurve {
            h,
            left: Side::of(h, a),
            right: Side::of(h, b.mirrored()),
            under: parts::denominator(weights::Quantity::Value, h),
            base: parts::denominator(weights::Quantity::Slope, h),
        }
    }

    // The right knot's minutes run the other way, and its slope is taken off.
    fn numerators(self, t: i64) -> Shares
        requires laid { Laid self }
        requires in_gap { InGap self.h t }
        ensures { result ≡ added self t }
    {
        let s = self.h - t;
        let GapCurve { left, right, .. } = self;
        let a = shares_of(left.level, left.rise, left.bend, t, s);
        let b = shares_of(right.level, right.rise, right.bend, s, t);
        Shares {
            value: a.value + b.value,
            slope: a.slope - b.slope,
            curvature: a.curvature + b.curvature,
        }
    }

    // At t minutes into the gap: of a curve that was laid from one knot to another, what
    // `reading::Reading::between` gives of the two (`proofs/LaidReads`).
    pub fn at(self, t: i64) -> reading::Reading
        requires laid { Laid self }
        requires in_gap { InGap self.h t }
        ensures { result ≡ read_of self t }
    {
        let n = self.numerators(t);
        reading::Reading {
            value: rounded(n.value, self.under),
            slope: rounded(n.slope, self.base),
            curvature: rounded(n.curvature, self.base),
        }
    }

    // The value alone of what is read there.
    pub fn value_at(self, t: i64) -> i32
        requires laid { Laid self }
        requires in_gap { InGap self.h t }
        ensures { result ≡ (read_of self t).value }
    {
        let s = self.h - t;
        let GapCurve { left, right, .. } = self;
        let a = value_share(left.level, left.rise, left.bend, t, s);
        let b = value_share(right.level, right.rise, right.bend, s, t);
        rounded(a + b, self.under)
    }
}
