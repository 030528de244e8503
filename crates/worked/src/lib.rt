// What a fit works out of knots that stand, by either job: the two passes, the numbers in card units, and their tests.
// `fit` and `slope_fit` ask for it, behind their own tests, and write the numbers to the lent lists.
#![tactic(auto)]

ghost use Rattle.std.specs.Prelude.{◌≡◌, ◌≤◌, length, IfOk};
ghost use Rattle.answer.specs.Answer.{accepted, each};
ghost use Rattle.answer.specs.Judge.{verdict_of};
ghost use Rattle.curve.specs.Kind.{quintic};
ghost use Rattle.curve.specs.Steps.{stands};
ghost use Rattle.curve.specs.Orders.{numbers_sound};
ghost use Rattle.passes.specs.Sheet.{most};
ghost use Rattle.worked.specs.Jobs.{kind_by, card_with, worked, handed, numbers_by};

use answer::{Judged, Refusal};
use knots::{Kind, Lent};
use numbers::Numbers;
use passes::Job;

// 9; 10.
fn judge(minutes: &[u16], ordinates: &[i16], slopes: &[i32], job: Job, numbers: &Numbers) -> Judged
    requires minutes_len_bound { (length minutes.now ≤ most) × (length ordinates.now ≡ length minutes.now) × (length slopes.now ≡ length minutes.now) }
    requires stand { each (stands quintic minutes.now ordinates.now) 0 (length minutes.now) ≡ accepted }
    ensures { verdict_of result ≡ numbers_sound (kind_by job) (card_with minutes.now ordinates.now slopes.now job numbers.now) }
{
    let n = minutes.len();
    let curvatures = &numbers.curvatures[..n];
    match job {
        Job::Ends(left, right) => lists::numbers_sound(
            Kind::quintic(),
            Lent {
                minutes,
                ordinates,
                slopes: &numbers.slopes[..n],
                curvatures,
                left: ends::code(left),
                right: ends::code(right),
            },
        ),
        Job::Slopes => lists::numbers_sound(
            Kind::sloped(),
            Lent {
                minutes,
                ordinates,
                slopes,
                curvatures,
                left: 0,
                right: 0,
            },
        ),
    }
}

// 8; 9; 10: what the knots get, beside the lent lists, with zeros behind the knots, and for slopes that are given.
pub fn work_out(
    minutes: &[u16],
    ordinates: &[i16],
    slopes: &[i32],
    job: Job,
) -> Result<Numbers, Refusal>
    requires minutes_len_bound { (length minutes.now ≤ most) × (length ordinates.now ≡ length minutes.now) × (length slopes.now ≡ length minutes.now) }
    requires stand { each (stands quintic minutes.now ordinates.now) 0 (length minutes.now) ≡ accepted }
    ensures card { handed minutes.now ordinates.now slopes.now job result ≡ worked minutes.now ordinates.now slopes.now job }
    ensures numbers { IfOk result (λ numbers. numbers ≡ numbers_by minutes.now ordinates.now slopes.now job) }
{
    let pairs = passes::pairs_of(minutes, ordinates, slopes, job)?;
    let numbers = numbers::scale(&pairs, minutes.len());
    judge(minutes, ordinates, slopes, job, &numbers)?;
    Ok(numbers)
}
