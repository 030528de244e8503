// The pre-heater's table: its values out of a file, and its cubic at every count of parts from the first value
// to the last. The numbers are those of the crate `preheat`; here they are read, printed, or refused.
use crate::tell::{Done, Undone};
use answer::Reason;
use preheat::Heated;
use text::Blame;
use values::Values;

// No count is larger.
const LAST: u16 = 65535;

// A complaint, behind the file's name.
fn complain(rt: HostRuntime, file: &[u8], said: &[u8]) -> Undone {
    crate::tell::complain(rt, file);
    crate::tell::complain(rt, said);
    Undone::Refused
}

// Of a single value, 6, its line is told too.
fn refused(rt: HostRuntime, file: &[u8], lines: &[u32], heated: Heated) -> Undone {
    if heated.number != Reason::FarOrdinate.number() {
        return crate::tell::refused(rt, file, heated.number, heated.place);
    }
    let line = crate::places::at(lines, heated.place as usize);
    let mut said = io::buffer();
    let n = words::value_line(&mut said, heated.number, heated.place, line);
    complain(rt, file, crate::places::front(&said, n))
}

// What is wrong in the text.
fn wrong(rt: HostRuntime, file: &[u8], text: &[u8], blame: Blame) -> Undone {
    let mut said = io::buffer();
    let word = values::blamed(text, blame.line);
    let n = words::wrong_line(&mut said, blame.wrong.number(), blame.line, word);
    complain(rt, file, crate::places::front(&said, n))
}

fn print_ok(rt: HostRuntime, lines: u16) -> Done {
    crate::tell::line(rt, b"", format_args!("ok {lines}"))
}

// A line for each count, and how many there are. The table ends them: behind its last value it refuses. What
// cannot be written is told once.
fn print_all(rt: HostRuntime, values: &[i16], parts: u16) -> Done {
    for count in 0..LAST {
        let heated = preheat::value(values, parts, count);
        if heated.number != 0 {
            return print_ok(rt, count);
        }
        crate::tell::line(rt, b"", format_args!("{count} {}", heated.value))?;
    }
    print_ok(rt, LAST)
}

// What is refused is so at every count, and told before anything is printed.
fn with_text(rt: HostRuntime, file: &[u8], text: &[u8], parts: u16) -> Done {
    let read = Values::read(text).map_err(|blame| wrong(rt, file, text, blame))?;
    let values = crate::places::front(&read.values, read.count);
    let first = preheat::value(values, parts, 0);
    if first.number != 0 {
        return Err(refused(rt, file, &read.lines, first));
    }
    print_all(rt, values, parts)
}

// Argument 2 is how many parts a step has, argument 3 the file.
pub(crate) fn print(rt: HostRuntime) -> Done {
    let parts = crate::arguments::number(rt, 2)?;
    let mut buffer = io::buffer();
    let file = crate::host::arg(rt, 3, &mut buffer);
    let mut bytes = io::large_buffer();
    let text = crate::files::load(rt, file, &mut bytes)?;
    with_text(rt, file, text, parts)
}
