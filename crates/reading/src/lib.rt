// What is read off the curve of one gap at a minute, rounded to nearest, ties to even. Document 01, "The exact curve".
#![tactic(auto)]

ghost use Rattle.std.specs.Prelude.{◌≡◌, ◌*◌, ◌^◌, nat_abs};
ghost use Rattle.whole.specs.Whole.{nearest};
ghost use Rattle.curve.specs.Formula.{worth, ∂^};
ghost use Rattle.curve.specs.Reading.{reads};
ghost use Rattle.gaps.specs.Knots.{placed};
ghost use Rattle.gaps.specs.Limits.{InGap};
ghost use Rattle.weights.specs.Weights.{derivative};
ghost use Rattle.parts.specs.Parts.{drawn, under};
ghost use Rattle.parts.specs.Limits.{Tame};
ghost use Rattle.reading.specs.Shown.{shown};

// The numerator over the denominator, to nearest, ties to even.
fn rounded(q: weights::Quantity, h: i64, t: i64, a: gaps::Knot, b: gaps::Knot) -> i32
    requires in_gap { InGap h t }
    requires tame { Tame h a b }
    ensures { result ≡ nearest (worth (∂^ (derivative q) (drawn h a b)) t) (under q * nat_abs h ^ 5) }
{
    whole::nearest(parts::numerator(q, h, t, a, b), parts::denominator(q, h)) as i32
}

#[derive(Drop)]
pub struct Reading {
    pub value: i32,
    pub slope: i32,
    pub curvature: i32,
}

impl Reading {
    // Off the curve from knot a to knot b, t minutes into their gap of h.
    pub fn between(h: i64, t: i64, a: gaps::Knot, b: gaps::Knot) -> Reading
        requires in_gap { InGap h t }
        requires tame { Tame h a b }
        ensures { result ≡ shown (reads (placed 0 a) (placed (nat_abs h) b) (nat_abs t)) }
    {
        Reading {
            value: rounded(weights::Quantity::Value, h, t, a, b),
            slope: rounded(weights::Quantity::Slope, h, t, a, b),
            curvature: rounded(weights::Quantity::Curvature, h, t, a, b),
        }
    }
}
