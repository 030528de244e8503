// The numerators of one gap, part by part: what the ordinate, the slope and the curvature of either knot add to the curve, its slope or its curvature, t minutes
// into a gap of h. Document 01, "The exact curve". Each function asks that the numbers keep within limits for which a computed test shows that nothing passes
// 64 bits; none names a limit.
#![tactic(auto)]

ghost use Rattle.std.specs.Prelude.{◌≡◌, ◌*◌, ◌<◌, ◌^◌, nat_abs};
ghost use Rattle.curve.specs.Formula.{worth, ∂^};
ghost use Rattle.gaps.specs.Limits.{InGap, Keeps, far};
ghost use Rattle.weights.specs.Weights.{derivative};
ghost use Rattle.parts.specs.Parts.{parts, drawn, under, adds, seen, sum_of, size};
ghost use Rattle.parts.specs.Limits.{Light, Tame};

// What a knot's ordinate, slope and curvature add to a numerator.
#[derive(Drop)]
pub struct Added {
    pub ordinate: i64,
    pub slope: i64,
    pub curvature: i64,
}

impl Added {
    // By a knot whose numbers weigh so much in it.
    fn by(h: i64, k: gaps::Knot, w: weights::Weights) -> Added
        requires { Light h k w }
        ensures { result ≡ adds h k w }
    {
        Added {
            ordinate: 8192 * (k.ordinate * w.ordinate),
            slope: 2 * h * (k.slope * w.slope),
            curvature: h * h * (k.curvature * w.curvature),
        }
    }

    #[tactic(auto, using(std::proofs::lemmas::Int::ints), unfolding(crate::specs::Parts::size, crate::specs::Parts::sum_of))]
    fn sum(self) -> i64
        requires { size self < 2 ^ 63 }
        ensures { result ≡ sum_of self }
    {
        self.ordinate + self.slope + self.curvature
    }
}

// The right knot as it is seen with the minutes running the other way, where a slope that is read changes its sign too.
#[tactic(auto, using(std::proofs::lemmas::Int::ints), unfolding(crate::specs::Parts::seen, gaps::specs::Knots::mirror))]
fn seen(q: weights::Quantity, k: gaps::Knot) -> gaps::Knot
    requires { Keeps far k }
    ensures { result ≡ seen q k }
{
    match q {
        weights::Quantity::Value | weights::Quantity::Curvature => k.mirrored(),
        weights::Quantity::Slope => gaps::Knot {
            ordinate: -k.ordinate,
            curvature: -k.curvature,
            ..k
        },
    }
}

// The six parts, three from either side; the right slope's has its minus.
#[derive(Drop)]
pub struct Parts {
    pub left: Added,
    pub right: Added,
}

impl Parts {
    pub fn of(q: weights::Quantity, h: i64, t: i64, a: gaps::Knot, b: gaps::Knot) -> Parts
        requires in_gap { InGap h t }
        requires tame { Tame h a b }
        ensures { result ≡ parts q h t a b }
    {
        let left = Added::by(h, a, weights::Weights::of(q, h, t));
        let right = Added::by(h, seen(q, b), weights::Weights::of(q, h, h - t));
        Parts { left, right }
    }
}

// The numerator N of the curve, or of its first or second derivative: its parts together.
pub fn numerator(q: weights::Quantity, h: i64, t: i64, a: gaps::Knot, b: gaps::Knot) -> i64
    requires in_gap { InGap h t }
    requires tame { Tame h a b }
    ensures { result ≡ worth (∂^ (derivative q) (drawn h a b)) t }
{
    let parts = Parts::of(q, h, t, a, b);
    parts.left.sum() + parts.right.sum()
}

// Under the value stands 8192 h^5; under the slope and the curvature, which are taken 4096 times, 2 h^5.
fn under(q: weights::Quantity) -> u64
    ensures { result ≡ under q }
{
    match q {
        weights::Quantity::Value => 8192,
        weights::Quantity::Slope | weights::Quantity::Curvature => 2,
    }
}

pub fn denominator(q: weights::Quantity, h: i64) -> u64
    requires { InGap h h }
    ensures { result ≡ under q * nat_abs h ^ 5 }
{
    under(q) * ((h * h * h * h * h) as u64)
}
