// Document 01's fit: it tests what it is handed, has the numbers worked out beside the lent lists and tested, and only
// then writes them. The order of the tests is that of "Numbers of refusal".
#![tactic(auto)]

ghost use Rattle.std.specs.Prelude.{◌≡◌, length};
ghost use Rattle.answer.specs.Answer.{◌then◌};
ghost use Rattle.answer.specs.Judge.{verdict_of};
ghost use Rattle.curve.specs.Kind.{quintic};
ghost use Rattle.fit.specs.Fit.{standing, eliminated, card_of, tested, fit_of, fit_between, fit_codes, fit};
ghost use Rattle.fit.specs.Promise.{fitted_of, Fits, Alike};

use answer::Judged;
use knots::Kind;
use passes::Job;
use rows::End;

// The ends of a fit that is asked without ends.
pub const DEFAULT_LEFT: End = End::Both(0.0, 0.0);

pub const DEFAULT_RIGHT: End = End::Free;

// Number and place; zeros where it is accepted. C receives it so.
#[repr(C)]
#[derive(Drop)]
pub struct Fitted {
    pub number: u32,
    pub place: u32,
}

#[tactic(auto, unfolding(answer::specs::Answer::number, answer::specs::Answer::place))]
impl From<Judged> for Fitted {
    ghost from_gives = { λ judged fitted. fitted ≡ fitted_of judged };

    fn from(judged: Judged) -> Fitted {
        match judged {
            Ok(()) => Fitted {
                number: 0,
                place: 0,
            },
            Err(refusal) => Fitted {
                number: refusal.number(),
                place: refusal.place,
            },
        }
    }
}

// Per knot 4, 5, 6; 7; 8; 9; 10, and then to the lent lists.
fn fit_alike(
    minutes: &[u16],
    ordinates: &[i16],
    slopes: &mut [i32],
    curvatures: &mut [i32],
    left: End,
    right: End,
) -> Judged
    requires { Alike minutes.now ordinates.now slopes.old curvatures.old }
    ensures { Fits
        (standing minutes.now ordinates.now left right then eliminated minutes.now ordinates.now left right then tested quintic (card_of minutes.now ordinates.now left right))
        slopes.old curvatures.old slopes.new curvatures.new (fitted_of result) }
{
    knots::stand(minutes, ordinates)?;
    ends::given_ends(minutes.len(), left, right)?;
    let numbers = worked::work_out(minutes, ordinates, slopes, Job::Ends(left, right))?;
    numbers::write(slopes, &numbers.slopes);
    numbers::write(curvatures, &numbers.curvatures);
    Ok(())
}

// All of the order, judged; `named` is 15.
pub fn fit_into(
    minutes: &[u16],
    ordinates: &[i16],
    slopes: &mut [i32],
    curvatures: &mut [i32],
    named: Judged,
    left: End,
    right: End,
) -> Judged
    ensures { Fits
        (fit_of minutes.now ordinates.now left right (length slopes.old) (length curvatures.old) (verdict_of named))
        slopes.old curvatures.old slopes.new curvatures.new (fitted_of result) }
{
    knots::sized(
        minutes.len(),
        ordinates.len(),
        slopes.len(),
        curvatures.len(),
        named,
    )?;
    fit_alike(minutes, ordinates, slopes, curvatures, left, right)
}

// Between ends named by their kind.
pub fn fit_between(
    minutes: &[u16],
    ordinates: &[i16],
    slopes: &mut [i32],
    curvatures: &mut [i32],
    left: End,
    right: End,
) -> Fitted
    ensures { Fits
        (fit_between minutes.now ordinates.now (length slopes.old) (length curvatures.old)
        left right)
        slopes.old curvatures.old slopes.new curvatures.new result }
{
    fit_into(minutes, ordinates, slopes, curvatures, Ok(()), left, right).into()
}

// Between ends that come as code numbers.
pub fn fit_codes(
    minutes: &[u16],
    ordinates: &[i16],
    slopes: &mut [i32],
    curvatures: &mut [i32],
    left: u16,
    left_slope: f64,
    left_curvature: f64,
    right: u16,
    right_slope: f64,
    right_curvature: f64,
) -> Fitted
    ensures { Fits
        (fit_codes minutes.now ordinates.now (length slopes.old) (length curvatures.old)
        left left_slope left_curvature right right_slope right_curvature)
        slopes.old curvatures.old slopes.new curvatures.new result }
{
    let named = knots::codes(Kind::quintic(), left, right);
    let from = ends::end_by(left, left_slope, left_curvature);
    let to = ends::end_by(right, right_slope, right_curvature);
    fit_into(minutes, ordinates, slopes, curvatures, named, from, to).into()
}

// "A fit without ends has slope 0 and curvature 0 given at the left, and stays free at the right": document 02, order 6.
pub fn fit(minutes: &[u16], ordinates: &[i16], slopes: &mut [i32], curvatures: &mut [i32]) -> Fitted
    ensures { Fits
        (fit minutes.now ordinates.now (length slopes.old) (length curvatures.old))
        slopes.old curvatures.old slopes.new curvatures.new result }
{
    fit_between(
        minutes,
        ordinates,
        slopes,
        curvatures,
        DEFAULT_LEFT,
        DEFAULT_RIGHT,
    )
}
