// The text of a sheet, with the logs that it names: fitted, or mended and then fitted, and listed, and its
// card made a file.
use crate::places::{at, front};
use crate::source::Source;
use crate::swings::Care;
use crate::tell::{Done, Undone};
use mend::Plan;
use reply::{Answered, Status};
use rows::End;
use text::{Blame, Sheet};

// What is done with a sheet; `Fit` between which ends.
#[derive(Clone, Copy)]
enum Job {
    Fit(End, End),
    Mend,
}

// Where the card goes, where one is asked for, and what is cared for.
#[derive(Clone, Copy)]
struct Wish<'a> {
    card: Option<&'a [u8]>,
    care: Care,
}

impl Wish<'_> {
    // A refusal is told behind the sheet's name. The warnings come first, since one of them may be a refusal, and
    // then the card, so that a listing is seen only where all is done.
    fn save(
        self,
        rt: HostRuntime,
        file: &[u8],
        lines: &[u32],
        answered: Answered,
        said: &[u8],
        made: &[u8],
    ) -> Done {
        if answered.status == Status::Refused {
            crate::tell::complain(rt, file);
            crate::tell::complain(rt, front(said, answered.length));
            return Err(Undone::Refused);
        }
        let made = Source {
            name: file,
            bytes: front(made, answered.card as usize),
        };
        crate::swings::allow(rt, made, lines, self.care)?;
        match self.card {
            None => Ok(()),
            Some(card) => crate::files::save(rt, card, made.bytes),
        }
    }

    // A card that goes to standard output goes alone.
    fn list(self, rt: HostRuntime, listing: &[u8]) -> Done {
        if let Some(card) = self.card {
            if crate::files::is_dash(card) {
                return Ok(());
            }
        }
        crate::tell::print(rt, listing)
    }
}

// The line of each knot, in a sheet with nothing wrong.
fn lines(sheet: &Result<Sheet, Blame>) -> &[u32] {
    match sheet {
        Ok(sheet) => &sheet.lines,
        Err(_) => &[],
    }
}

fn fit_text(rt: HostRuntime, source: Source, wish: Wish, left: End, right: End) -> Done {
    let Source { name, bytes: text } = source;
    let sheet = Sheet::read(text, false);
    let mut logs = io::buffer();
    crate::slots::load(rt, name, text, sheet, &mut logs)?;
    let mut said = io::buffer();
    let mut made = io::buffer();
    let answered = reply::answer(text, sheet, &logs, left, right, &mut said, &mut made);
    let length = answered.length;
    wish.save(rt, name, lines(&sheet), answered, &said, &made)?;
    wish.list(rt, front(&said, length))
}

// A line for each knot that was mended.
fn tell_changes(rt: HostRuntime, file: &[u8], plan: Plan, lines: &[u32]) {
    for change in front(&plan.changes, plan.count as usize) {
        let line = at(lines, change.place as usize);
        let mut said = io::buffer();
        let n = words::mended_line(&mut said, line, change.place, change.new);
        crate::tell::complain(rt, file);
        crate::tell::complain(rt, front(&said, n));
    }
}

fn mend_text(rt: HostRuntime, source: Source, wish: Wish) -> Done {
    let Source { name, bytes: text } = source;
    let sheet = Sheet::read(text, true);
    let mut logs = io::buffer();
    crate::slots::load(rt, name, text, sheet, &mut logs)?;
    let mut said = io::buffer();
    let mut made = io::buffer();
    let mending = reply::mend(text, sheet, &logs, &mut said, &mut made);
    let length = mending.answered.length;
    wish.save(rt, name, lines(&sheet), mending.answered, &said, &made)?;
    tell_changes(rt, name, mending.plan, lines(&sheet));
    wish.list(rt, front(&said, length))
}

// Argument 2 is the sheet and, where there is one, argument 5 the card; arguments 3 and 4 are what is cared for.
// Where no card is asked for, its name counts for nothing.
fn run(rt: HostRuntime, count: usize, job: Job) -> Done {
    let care = Care::asked_for(rt, 3, 4)?;
    let mut file = io::buffer();
    let name = crate::host::arg(rt, 2, &mut file);
    let mut buffer = io::buffer();
    let card = crate::host::arg(rt, 5, &mut buffer);
    let wish = Wish {
        card: if 5 < count { Some(card) } else { None },
        care,
    };
    let mut bytes = io::large_buffer();
    let bytes = crate::files::load(rt, name, &mut bytes)?;
    let source = Source { name, bytes };
    match job {
        Job::Fit(left, right) => fit_text(rt, source, wish, left, right),
        Job::Mend => mend_text(rt, source, wish),
    }
}

// Without ends named: it starts at rest.
pub(crate) fn fit(rt: HostRuntime, count: usize) -> Done {
    run(rt, count, Job::Fit(fit::DEFAULT_LEFT, fit::DEFAULT_RIGHT))
}

pub(crate) fn fit_free(rt: HostRuntime, count: usize) -> Done {
    run(rt, count, Job::Fit(End::Free, End::Free))
}

pub(crate) fn mend(rt: HostRuntime, count: usize) -> Done {
    run(rt, count, Job::Mend)
}
