// Document 02's order 8, "Values with measured slopes": the fit of curvatures alone, by slopes that are given
// in card units. It tests what it is handed, eliminates, works the curvatures out beside the lent list, tests
// them, and only then writes them. The slopes are read, and never written.
#![tactic(auto)]

ghost use Rattle.std.specs.Prelude.{◌≡◌, List, ◌≤◌, ℤ, length};
ghost use Rattle.answer.specs.Answer.{◌then◌};
ghost use Rattle.answer.specs.Judge.{verdict_of};
ghost use Rattle.curve.specs.Kind.{sloped};
ghost use Rattle.passes.specs.Sheet.{most};
ghost use Rattle.fit.specs.Fit.{tested};
ghost use Rattle.fit.specs.Promise.{fitted_of, Fits, Alike};
ghost use Rattle.slope_fit.specs.SlopesFit.{ranged, standing, eliminated, card_of, slopes_fit};

use answer::Judged;
use fit::Fitted;
use passes::{Job, MOST};

// 9 for the given slopes, whatever the ordinates: curvatures of 0 are in range.
fn in_range(minutes: &[u16], slopes: &[i32]) -> Judged
    requires { (length minutes.now ≤ most) × (length slopes.now ≡ length minutes.now) }
    ensures { (ys : List ℤ) → verdict_of result ≡ ranged minutes.now ys slopes.now }
{
    let n = minutes.len();
    let zeros = [0; MOST];
    knots::in_range(minutes, slopes, &zeros[..n])
}

// Per knot 4, 5, 6; 9 for the given slopes; 8; 9; 10, and then to the lent list.
fn fit_alike(minutes: &[u16], ordinates: &[i16], slopes: &[i32], curvatures: &mut [i32]) -> Judged
    requires { Alike minutes.now ordinates.now slopes.now curvatures.old }
    ensures { Fits
        (standing minutes.now ordinates.now slopes.now then eliminated minutes.now ordinates.now slopes.now then tested sloped (card_of minutes.now ordinates.now slopes.now))
        slopes.now curvatures.old slopes.now curvatures.new (fitted_of result) }
{
    knots::stand(minutes, ordinates)?;
    in_range(minutes, slopes)?;
    let numbers = worked::work_out(minutes, ordinates, slopes, Job::Slopes)?;
    numbers::write(curvatures, &numbers.curvatures);
    Ok(())
}

// All of the order.
fn fit_into(minutes: &[u16], ordinates: &[i16], slopes: &[i32], curvatures: &mut [i32]) -> Judged
    ensures { Fits
        (slopes_fit minutes.now ordinates.now slopes.now (length curvatures.old))
        slopes.now curvatures.old slopes.now curvatures.new (fitted_of result) }
{
    knots::sized(
        minutes.len(),
        ordinates.len(),
        slopes.len(),
        curvatures.len(),
        Ok(()),
    )?;
    fit_alike(minutes, ordinates, slopes, curvatures)
}

// On acceptance the curvatures are written, one for each knot; refused, none.
pub fn fit(minutes: &[u16], ordinates: &[i16], slopes: &[i32], curvatures: &mut [i32]) -> Fitted
    ensures { Fits
        (slopes_fit minutes.now ordinates.now slopes.now (length curvatures.old))
        slopes.now curvatures.old slopes.now curvatures.new result }
{
    fit_into(minutes, ordinates, slopes, curvatures).into()
}
