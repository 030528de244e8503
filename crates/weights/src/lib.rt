// What the numbers of a gap's left knot weigh in the curve, in its slope and in its curvature. Document 01, "The exact curve".
#![tactic(auto)]

ghost use Rattle.std.specs.Prelude.{◌≡◌};
ghost use Rattle.gaps.specs.Limits.{InGap};
ghost use Rattle.weights.specs.Weights.{weigh, weights_of};

use weight_sheet::Row;

// What is read off the curve at a minute.
#[derive(Clone, Copy)]
pub enum Quantity {
    Value,
    Slope,
    Curvature,
}

// What the ordinate, the slope and the curvature of a gap's left knot weigh in a quantity. The right knot's weights are these, seen from the right.
#[derive(Clone, Copy)]
pub struct Weights {
    pub ordinate: i64,
    pub slope: i64,
    pub curvature: i64,
}

impl From<Row> for Weights {
    ghost from_gives = { λ row w. w ≡ weights_of row };

    fn from(row: Row) -> Weights {
        Weights {
            ordinate: i64::from(row.ordinate),
            slope: i64::from(row.slope),
            curvature: i64::from(row.curvature),
        }
    }
}

impl Weights {
    // t minutes into a gap of h, by the formula.
    fn by_formula(h: i64, t: i64) -> Weights
        requires { InGap h t }
        ensures { result ≡ weigh Quantity.Value h t }
    {
        let s = h - t;
        let cube = s * s * s;
        Weights {
            ordinate: cube * (h * h + 3 * h * t + 6 * t * t),
            slope: t * cube * (h + 3 * t),
            curvature: t * t * cube,
        }
    }

    // Off the weight sheet, where it has the gap.
    fn of_value(h: i64, t: i64) -> Weights
        requires { InGap h t }
        ensures { result ≡ weigh Quantity.Value h t }
    {
        match Row::at(h as usize, t as usize) {
            Some(row) => Weights::from(row),
            None => Weights::by_formula(h, t),
        }
    }

    fn of_slope(h: i64, t: i64) -> Weights
        requires { InGap h t }
        ensures { result ≡ weigh Quantity.Slope h t }
    {
        let s = h - t;
        let square = s * s;
        Weights {
            ordinate: -30 * t * t * square,
            slope: square * (s + 6 * t) * (s - 2 * t),
            curvature: t * square * (2 * s - 3 * t),
        }
    }

    fn of_curvature(h: i64, t: i64) -> Weights
        requires { InGap h t }
        ensures { result ≡ weigh Quantity.Curvature h t }
    {
        let s = h - t;
        Weights {
            ordinate: 60 * t * s * (t - s),
            slope: 12 * t * s * (2 * t - 3 * s),
            curvature: 2 * s * (s * s - 6 * t * s + 3 * t * t),
        }
    }

    pub fn of(q: Quantity, h: i64, t: i64) -> Weights
        requires { InGap h t }
        ensures { result ≡ weigh q h t }
    {
        match q {
            Quantity::Value => Weights::of_value(h, t),
            Quantity::Slope => Weights::of_slope(h, t),
            Quantity::Curvature => Weights::of_curvature(h, t),
        }
    }
}
