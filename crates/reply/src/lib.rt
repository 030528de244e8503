// What the text of a sheet, with the logs that it names, is answered with: the listing of its fit and the card's bytes, or a complaint; and a sheet with holes, mended before it is fitted. Apart from files.
#![tactic(auto)]

ghost use Rattle.std.specs.Prelude.{◌≡◌, true, false, cond, [], ◌≤◌, ◌<◌, length, get_or};
ghost use Rattle.knots.specs.Lent.{lent};
ghost use Rattle.writer.specs.Promise.{Writes};
ghost use Rattle.gather.specs.Gathered.{plain, logged};
ghost use Rattle.text.specs.Sheet.{most, sheet as sheet_of};
ghost use Rattle.reply.specs.Knots.{log_at, gathered};
ghost use Rattle.reply.specs.Mending.{mend_reply, mending_reply, knots_plan, text_plan, lines_of, Mends};
ghost use Rattle.reply.specs.Reply.{of_a_log, of_a_knot, blamed, byte_of, complaint, refusing_knots, form_kind, form_left, form_right, reply_of, fit_reply, by_slopes, reply, Answers};

use gather::{Gathered, Knot};
use mend::Plan;
use rows::End;
use text::{Blame, Sheet};
use writer::Written;

// The logs of a sheet as they were read: for knot i, the byte at SLOT * i says how many bytes its log has, and they stand behind it; a log too long for its slot is told as 61 bytes, one more than a log may have.
pub const SLOT: usize = 62;

// Any list is answered: a log ends where the list does.
#[tactic(auto, using(crate::proofs::Slots::no_slot, crate::proofs::Slots::in_slot, crate::proofs::Slots::short_slot))]
fn log_at(logs: &[u8], i: usize) -> &[u8]
    requires { i < most }
    ensures { result.now ≡ log_at logs.now i }
{
    let at = SLOT * i;
    if logs.len() <= at {
        return b"";
    }
    let bytes = split::from(logs, at + 1);
    let n = logs[at] as usize;
    if bytes.len() <= n {
        return bytes;
    }
    &bytes[..n]
}

// Knot i, by what the sheet has of it.
fn knot_at(log: bool, minute: u16, ordinate: i16, logs: &[u8], i: usize) -> Knot
    requires { i < most }
    ensures { result ≡ cond log (logged minute (log_at logs.now i)) (plain minute ordinate) }
{
    if log {
        return Knot::logged(minute, log_at(logs, i));
    }
    Knot::plain(minute, ordinate)
}

fn gathered(sheet: Sheet, logs: &[u8]) -> Gathered
    requires { sheet.knots ≤ most }
    ensures { result ≡ gathered sheet logs.now }
{
    let mut so_far = Gathered::refused(0, 0);
    for i in 0..sheet.knots {
        let knot = knot_at(sheet.logs[i], sheet.minutes[i], sheet.ordinates[i], logs, i);
        so_far = so_far.with_knot(knot);
    }
    so_far.close()
}

// What a log is refused with. The numbers are those of the structs that C receives.
fn of_a_log(number: u32) -> bool
    ensures { result ≡ of_a_log number }
{
    matches!(number, 12 | 13 | 16 | 19 | 23)
}

// The numbers whose place in a sheet is a knot.
fn of_a_knot(number: u32) -> bool
    ensures { result ≡ of_a_knot number }
{
    of_a_log(number) || matches!(number, 17 | 4..=10)
}

// The line of a knot; 0 behind the last.
pub fn line_of(lines: [u32; Sheet::MOST], knot: u32) -> u32
    ensures { result ≡ get_or lines knot 0 }
{
    lines.get(knot as usize).copied().unwrap_or(0)
}

// The line of the knot that is refused; 0 where no knot is.
#[tactic(auto, unfolding(crate::specs::Reply::blamed))]
fn blamed(lines: [u32; Sheet::MOST], number: u32, knot: u32) -> u32
    ensures { result ≡ blamed lines number knot }
{
    if of_a_knot(number) {
        return line_of(lines, knot);
    }
    0
}

// The first byte of an answer.
#[derive(Clone, Copy, PartialEq, Eq)]
pub enum Status {
    Done,
    Refused,
}

impl Status {
    pub fn byte(self) -> u8
        ensures { result ≡ byte_of self }
    {
        match self {
            Status::Done => b'0',
            Status::Refused => b'1',
        }
    }
}

// The status, the length of what is said, and the size of the card.
#[derive(Clone, Copy)]
pub struct Answered {
    pub status: Status,
    pub length: usize,
    pub card: u32,
}

// Knots that are refused; the card stays as it is.
#[tactic(auto, unfolding(crate::specs::Reply::refusing))]
fn refuse_knots(number: u32, place: u32, lines: [u32; Sheet::MOST], to: &mut [u8]) -> Answered
    requires { 4096 ≤ length to.old }
    ensures { Answers (refusing_knots number place lines []) to.old to.new [] result }
{
    let line = blamed(lines, number, place);
    let length = words::refused_line(to, number, place, line);
    Answered {
        status: Status::Refused,
        length,
        card: 0,
    }
}

// Which card the knots are answered with: one with these codes of its ends, or one of given slopes.
#[derive(Drop)]
enum Form {
    Codes(u16, u16),
    Slopes,
}

// The card in the form of its kind.
fn write(
    form: Form,
    minutes: &[u16],
    ordinates: &[i16],
    slopes: &[i32],
    curvatures: &[i32],
    card: &mut [u8],
) -> Written
    ensures { Writes (form_kind form) (lent minutes.now ordinates.now slopes.now curvatures.now (form_left form) (form_right form)) card.old card.new result }
{
    match form {
        Form::Codes(left, right) => {
            writer::write(minutes, ordinates, slopes, curvatures, left, right, card)
        }
        Form::Slopes => writer::write_slopes(minutes, ordinates, slopes, curvatures, card),
    }
}

// Knots that were fitted, or refused with this number at this place: what is said of them, and the card in
// its form.
fn told(
    form: Form,
    number: u32,
    place: u32,
    minutes: &[u16],
    ordinates: &[i16],
    slopes: &[i32],
    curvatures: &[i32],
    faults: &[Option<u8>; Gathered::MOST],
    lines: [u32; Sheet::MOST],
    to: &mut [u8],
    card: &mut [u8],
) -> Answered
    requires ordinates_len { (length ordinates.now ≡ length minutes.now) × (length slopes.now ≡ length minutes.now) × (length curvatures.now ≡ length minutes.now) }
    requires minutes_len_bound { (length minutes.now ≤ 65) × (4096 ≤ length to.old) }
    ensures { Answers (reply_of (form_kind form) number place (lent minutes.now ordinates.now slopes.now curvatures.now (form_left form) (form_right form)) faults.now lines card.old) to.old to.new card.new result }
{
    if number != 0 {
        return refuse_knots(number, place, lines, to);
    }
    let written = write(form, minutes, ordinates, slopes, curvatures, card);
    let length = listing::list(
        0,
        0,
        minutes,
        ordinates,
        slopes,
        curvatures,
        |i| faults[i],
        to,
    );
    Answered {
        status: Status::Done,
        length,
        card: written.bytes,
    }
}

// The card has the codes of the ends between which it was fitted.
#[tactic(auto, using(crate::proofs::Replies::answers_as, crate::proofs::Replies::replies_fitted))]
fn fit_lists(
    minutes: &[u16],
    ordinates: &[i16],
    slopes: &mut [i32],
    curvatures: &mut [i32],
    left: End,
    right: End,
    faults: &[Option<u8>; Gathered::MOST],
    lines: [u32; Sheet::MOST],
    to: &mut [u8],
    card: &mut [u8],
) -> Answered
    requires ordinates_len { (length ordinates.now ≡ length minutes.now) × (length slopes.old ≡ length minutes.now) × (length curvatures.old ≡ length minutes.now) }
    requires minutes_len_bound { (length minutes.now ≤ 65) × (4096 ≤ length to.old) }
    ensures { Answers (fit_reply left right minutes.now ordinates.now slopes.old curvatures.old faults.now lines card.old) to.old to.new card.new result }
{
    let fitted = fit::fit_between(minutes, ordinates, slopes, curvatures, left, right);
    told(
        Form::Codes(ends::code(left), ends::code(right)),
        fitted.number,
        fitted.place,
        minutes,
        ordinates,
        slopes,
        curvatures,
        faults,
        lines,
        to,
        card,
    )
}

// The slopes are given, one for each knot, and only the curvatures fitted.
#[tactic(auto, using(crate::proofs::Replies::answers_as, crate::proofs::Replies::replies_sloped))]
fn slope_lists(
    minutes: &[u16],
    ordinates: &[i16],
    slopes: &[i32],
    curvatures: &mut [i32],
    faults: &[Option<u8>; Gathered::MOST],
    lines: [u32; Sheet::MOST],
    to: &mut [u8],
    card: &mut [u8],
) -> Answered
    requires ordinates_len { (length ordinates.now ≡ length minutes.now) × (length slopes.now ≡ length minutes.now) × (length curvatures.old ≡ length minutes.now) }
    requires minutes_len_bound { (length minutes.now ≤ 65) × (4096 ≤ length to.old) }
    ensures { Answers (by_slopes slopes.now minutes.now ordinates.now [] curvatures.old faults.now lines card.old) to.old to.new card.new result }
{
    let fitted = slope_fit::fit(minutes, ordinates, slopes, curvatures);
    told(
        Form::Slopes,
        fitted.number,
        fitted.place,
        minutes,
        ordinates,
        slopes,
        curvatures,
        faults,
        lines,
        to,
        card,
    )
}

// By the given slopes, or between these ends where there are none.
fn sheet_lists(
    sloped: bool,
    minutes: &[u16],
    ordinates: &[i16],
    given: &[i32],
    slopes: &mut [i32],
    curvatures: &mut [i32],
    left: End,
    right: End,
    faults: &[Option<u8>; Gathered::MOST],
    lines: [u32; Sheet::MOST],
    to: &mut [u8],
    card: &mut [u8],
) -> Answered
    requires ordinates_len { (length ordinates.now ≡ length minutes.now) × (length given.now ≡ length minutes.now) × (length slopes.old ≡ length minutes.now) × (length curvatures.old ≡ length minutes.now) }
    requires minutes_len_bound { (length minutes.now ≤ 65) × (4096 ≤ length to.old) }
    ensures { Answers (cond sloped (by_slopes given.now) (fit_reply left right) minutes.now ordinates.now slopes.old curvatures.old faults.now lines card.old) to.old to.new card.new result }
{
    if sloped {
        return slope_lists(
            minutes, ordinates, given, curvatures, faults, lines, to, card,
        );
    }
    fit_lists(
        minutes, ordinates, slopes, curvatures, left, right, faults, lines, to, card,
    )
}

// What is wrong in the text of a sheet, with the word that is to blame; the card stays as it is.
#[tactic(auto, unfolding(crate::specs::Reply::refusing))]
fn complain(text: &[u8], blame: Blame, to: &mut [u8]) -> Answered
    requires { 4096 ≤ length to.old }
    ensures { Answers (complaint text.now blame []) to.old to.new [] result }
{
    let word = text::blamed(text, blame.line);
    let length = words::wrong_line(to, blame.wrong.number(), blame.line, word);
    Answered {
        status: Status::Refused,
        length,
        card: 0,
    }
}

// The knots of a sheet, with the logs that it names, and their fit: by the sheet's slopes, or between these
// ends where it has none. The sheet is the text's.
pub fn answer(
    text: &[u8],
    sheet: Result<Sheet, Blame>,
    logs: &[u8],
    left: End,
    right: End,
    to: &mut [u8],
    card: &mut [u8],
) -> Answered
    requires { (sheet ≡ sheet_of false text.now) × (4096 ≤ length to.old) }
    ensures { Answers (reply left right text.now logs.now card.old) to.old to.new card.new result }
{
    let sheet = match sheet {
        Err(blame) => return complain(text, blame, to),
        Ok(sheet) => sheet,
    };
    let lines = sheet.lines;
    let sloped = sheet.sloped;
    let given = sheet.slopes;
    let all = gathered(sheet, logs);
    if all.number != 0 {
        return refuse_knots(all.number, all.place, lines, to);
    }
    let n = all.knots;
    let minutes = all.minutes;
    let ordinates = all.ordinates;
    let faults = all.faults;
    let mut slopes = [0i32; Sheet::MOST];
    let mut curvatures = [0i32; Sheet::MOST];
    sheet_lists(
        sloped,
        &minutes[..n],
        &ordinates[..n],
        &given[..n],
        &mut slopes[..n],
        &mut curvatures[..n],
        left,
        right,
        &faults,
        lines,
        to,
        card,
    )
}

// The answer, the changes at the front of the plan's arrays, and at the front of an array the line of each knot.
#[derive(Drop)]
pub struct Mending {
    pub answered: Answered,
    pub plan: Plan,
    pub lines: [u32; Sheet::MOST],
}

impl Mending {
    // A place for each hole: no card has more knots.
    const ROOM: usize = holes::MOST;
}

#[tactic(auto, using(crate::proofs::Replies::answers_as, crate::proofs::Replies::replies_mended))]
fn mend_lists(
    minutes: &[u16],
    ordinates: &mut [i16],
    slopes: &mut [i32],
    curvatures: &mut [i32],
    faults: &[Option<u8>; Gathered::MOST],
    lines: [u32; Sheet::MOST],
    to: &mut [u8],
    card: &mut [u8],
) -> Mending
    requires ordinates_len { (length ordinates.old ≡ length minutes.now) × (length slopes.old ≡ length minutes.now) × (length curvatures.old ≡ length minutes.now) }
    requires minutes_len_bound { (length minutes.now ≤ 65) × (4096 ≤ length to.old) }
    ensures { Mends
        (mend_reply minutes.now ordinates.old slopes.old curvatures.old faults.now lines card.old)
        (knots_plan minutes.now ordinates.old slopes.old curvatures.old)
        lines to.old to.new card.new result }
{
    let plan = mend::mend(minutes, ordinates, slopes, curvatures, Mending::ROOM);
    let answered = told(
        Form::Codes(0, 0),
        plan.number,
        plan.place,
        minutes,
        ordinates,
        slopes,
        curvatures,
        faults,
        lines,
        to,
        card,
    );
    Mending {
        answered,
        plan,
        lines,
    }
}

// The knots of a sheet, with the logs that it names, its holes filled, and their fit, between free ends. The sheet is the text's.
pub fn mend(
    text: &[u8],
    sheet: Result<Sheet, Blame>,
    logs: &[u8],
    to: &mut [u8],
    card: &mut [u8],
) -> Mending
    requires { (sheet ≡ sheet_of true text.now) × (4096 ≤ length to.old) }
    ensures { Mends (mending_reply text.now logs.now card.old) (text_plan text.now logs.now) (lines_of sheet)
        to.old to.new card.new result }
{
    let sheet = match sheet {
        Err(blame) => {
            return Mending {
                answered: complain(text, blame, to),
                plan: Plan::unchanged(0, 0),
                lines: [0; Sheet::MOST],
            };
        }
        Ok(sheet) => sheet,
    };
    let lines = sheet.lines;
    let all = gathered(sheet, logs);
    if all.number != 0 {
        return Mending {
            answered: refuse_knots(all.number, all.place, lines, to),
            plan: Plan::unchanged(all.number, all.place),
            lines,
        };
    }
    let n = all.knots;
    let minutes = all.minutes;
    let mut ordinates = all.ordinates;
    let faults = all.faults;
    let mut slopes = [0i32; Sheet::MOST];
    let mut curvatures = [0i32; Sheet::MOST];
    mend_lists(
        &minutes[..n],
        &mut ordinates[..n],
        &mut slopes[..n],
        &mut curvatures[..n],
        &faults,
        lines,
        to,
        card,
    )
}
