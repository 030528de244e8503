// The pairs of the knots in card units, worked out beside the lent lists, and written to a lent list once they are tested.
// Document 01, "The elimination", point 4.
#![tactic(auto)]

ghost use Rattle.std.specs.Prelude.{◌≡◌, ◌≤◌, length, take};
ghost use Rattle.passes.specs.Sheet.{most};
ghost use Rattle.numbers.specs.Numbers.{AllFinite, scaled};

use passes::MOST;
use rows::Pair;

// Two lists, since two are lent, of which a fit may write one alone.
#[derive(Clone, Copy)]
pub struct Numbers {
    pub slopes: [i32; MOST],
    pub curvatures: [i32; MOST],
}

// Of the first n pairs, zeros behind them.
pub fn scale(pairs: &[Pair; MOST], n: usize) -> Numbers
    requires n_le_most { n ≤ most }
    requires all_finite { AllFinite pairs.now n }
    ensures { result ≡ scaled pairs.now n }
{
    let mut slopes = [0; MOST];
    let mut curvatures = [0; MOST];
    for k in 0..n {
        let pair = pairs[k];
        slopes[k] = units::units_of(pair.s);
        curvatures[k] = units::units_of(pair.c);
    }
    Numbers { slopes, curvatures }
}

// As many as the lent list has places.
pub fn write(out: &mut [i32], values: &[i32])
    requires { length out.old ≤ length values.now }
    ensures { out.new ≡ take (length out.old) values.now }
{
    out.copy_from_slice(&values[..out.len()]);
}
