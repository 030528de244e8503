// Mending a sheet with holes: document 02, order 1. Each hole gets the straight line between the nearest sound knots, and the mended sheet is fitted between free ends before anything lent is
// written. The changes are answered by value; `fill` puts them into a lent list.
#![tactic(auto)]

ghost use Rattle.std.specs.Prelude.{◌≡◌, [], ◌≤◌, length};
ghost use Rattle.answer.specs.Answer.{◌then◌};
ghost use Rattle.answer.specs.Judge.{verdict_of};
ghost use Rattle.front.specs.Front.{over};
ghost use Rattle.rows.specs.declared.End.TheVariants.{Free};
ghost use Rattle.fit.specs.Fit.{fit_between};
ghost use Rattle.fit.specs.Promise.{Alike};
ghost use Rattle.holes.specs.Hole.{mended};
ghost use Rattle.holes.specs.Needs.{most};
ghost use Rattle.mend.specs.Changes.{changes};
ghost use Rattle.mend.specs.Order.{mendable, mend};
ghost use Rattle.mend.specs.Promise.{no_change, plan_of, plan_in, planned, told, Plans};

use answer::{Judged, Reason, Refusal};
use holes::{Fill, MOST};
use rows::End;

// A place of the sheet, the number that stood there, and the one that stands there now.
#[repr(C)]
#[derive(Clone, Copy)]
pub struct Change {
    pub place: u32,
    pub old: i32,
    pub new: i32,
}

// Zeros behind a refusal. C receives it so.
#[repr(C)]
#[derive(Drop)]
pub struct Mended {
    pub number: u32,
    pub place: u32,
    pub count: u32,
}

// The same, and the changes at the front of an array with zeros behind them; number and place as C receives them.
#[derive(Clone, Copy)]
pub struct Plan {
    pub number: u32,
    pub place: u32,
    pub count: u32,
    pub changes: [Change; MOST],
}

// ---- the order

// Per knot 4, 5, 6; 17; 18.
fn mendable(minutes: &[u16], ordinates: &[i16], room: usize) -> Judged
    requires { (length minutes.now ≤ most) × (length ordinates.now ≡ length minutes.now) }
    ensures { verdict_of result ≡ mendable minutes.now ordinates.now room }
{
    let n = ordinates.len();
    let passable = holes::filled(Fill::Zero, minutes, ordinates);
    knots::stand(minutes, &passable[..n])?;
    holes::bridged(ordinates)?;
    answer::refuse(Reason::FewPlaces, 0, room < holes::count(ordinates))
}

// ---- the changes

fn no_change() -> Change
    ensures { result ≡ no_change }
{
    Change {
        place: 0,
        old: 0,
        new: 0,
    }
}

impl Plan {
    // No change is made.
    pub fn unchanged(number: u32, place: u32) -> Plan
        ensures { result ≡ plan_of number place [] }
    {
        Plan {
            number,
            place,
            count: 0,
            changes: [no_change(); MOST],
        }
    }

    // The holes' changes.
    fn of(sheet: &[i16], mended: &[i16]) -> Plan
        requires { (length sheet.now ≤ most) × (length mended.now ≡ length sheet.now) }
        ensures { result ≡ plan_of 0 0 (changes sheet.now mended.now) }
    {
        let mut changes = [no_change(); MOST];
        let mut count = 0;
        for i in 0..sheet.len() {
            if holes::is_hole(sheet[i]) {
                changes[count] = Change {
                    place: i as u32,
                    old: i32::from(sheet[i]),
                    new: i32::from(mended[i]),
                };
                count += 1;
            }
        }
        Plan {
            number: 0,
            place: 0,
            count: count as u32,
            changes,
        }
    }

    // How many changes it has.
    pub fn len(self) -> usize
        ensures { result ≡ self.count }
    {
        self.count as usize
    }

    // What it says without the changes.
    pub fn answer(self) -> Mended
        ensures { result ≡ told self }
    {
        Mended {
            number: self.number,
            place: self.place,
            count: self.count,
        }
    }
}

// ---- the sheet

// The fit of a mended sheet, and then the sheet itself.
fn settle(
    minutes: &[u16],
    mended: &[i16],
    ordinates: &mut [i16],
    slopes: &mut [i32],
    curvatures: &mut [i32],
) -> Result<Plan, Refusal>
    requires { (length ordinates.old ≤ most) × (length mended.now ≡ length ordinates.old) }
    ensures { Plans
        (fit_between minutes.now mended.now (length slopes.old) (length curvatures.old) Free Free)
        (changes ordinates.old mended.now)
        ordinates.old slopes.old curvatures.old ordinates.new slopes.new curvatures.new (plan_in result) }
{
    let (left, right) = (End::Free, End::Free);
    fit::fit_into(minutes, mended, slopes, curvatures, Ok(()), left, right)?;
    let plan = Plan::of(ordinates, mended);
    ordinates.copy_from_slice(mended);
    Ok(plan)
}

// Per knot 4, 5, 6; 17; 18; then the fit's own.
fn mend_alike(
    minutes: &[u16],
    ordinates: &mut [i16],
    slopes: &mut [i32],
    curvatures: &mut [i32],
    room: usize,
) -> Result<Plan, Refusal>
    requires { Alike minutes.now ordinates.old slopes.old curvatures.old }
    ensures { Plans
        (mendable minutes.now ordinates.old room
        then fit_between minutes.now (mended minutes.now ordinates.old) (length slopes.old) (length curvatures.old) Free Free)
        (changes ordinates.old (mended minutes.now ordinates.old))
        ordinates.old slopes.old curvatures.old ordinates.new slopes.new curvatures.new (plan_in result) }
{
    mendable(minutes, ordinates, room)?;
    let n = ordinates.len();
    let mended = holes::filled(Fill::Line, minutes, ordinates);
    settle(minutes, &mended[..n], ordinates, slopes, curvatures)
}

// All of the order.
fn mend_into(
    minutes: &[u16],
    ordinates: &mut [i16],
    slopes: &mut [i32],
    curvatures: &mut [i32],
    room: usize,
) -> Result<Plan, Refusal>
    ensures { Plans
        (mend minutes.now ordinates.old (length slopes.old) (length curvatures.old) room)
        (changes ordinates.old (mended minutes.now ordinates.old))
        ordinates.old slopes.old curvatures.old ordinates.new slopes.new curvatures.new (plan_in result) }
{
    knots::sized(
        minutes.len(),
        ordinates.len(),
        slopes.len(),
        curvatures.len(),
        Ok(()),
    )?;
    mend_alike(minutes, ordinates, slopes, curvatures, room)
}

// 3, 1, 2; per knot 4, 5, 6; 17; 18, where there are more holes than places; 8; 9; 10.
pub fn mend<'a>(
    minutes: &'a [u16],
    ordinates: &'a mut [i16],
    slopes: &'a mut [i32],
    curvatures: &'a mut [i32],
    room: usize,
) -> Plan
    ensures { Plans
        (mend minutes.now ordinates.old (length slopes.old) (length curvatures.old) room)
        (changes ordinates.old (mended minutes.now ordinates.old))
        ordinates.old slopes.old curvatures.old ordinates.new slopes.new curvatures.new result }
{
    match mend_into(minutes, ordinates, slopes, curvatures, room) {
        Ok(plan) => plan,
        Err(refusal) => Plan::unchanged(refusal.number(), refusal.place),
    }
}

// ---- the list

// A plan's first n changes to the front of a list.
pub fn fill(list: &mut [Change], n: usize, plan: Plan)
    requires { (n ≤ length list.old) × (n ≤ most) }
    ensures { list.new ≡ over (planned plan) n list.old }
{
    list[..n].copy_from_slice(&plan.changes[..n]);
}
