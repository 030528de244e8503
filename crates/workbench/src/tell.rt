// What a command ends with, and what it says.
use answer::Judged;
use std::fmt::{Display, InlineText};
use std::io::{Eprint, Error, ErrorKind, Print};
use std::ops::Range;

// Why a command is not done. Of two things that are not, the graver counts, which stands behind the other.
#[derive(Clone, Copy, PartialEq, Eq, PartialOrd, Ord)]
pub(crate) enum Undone {
    Refused,
    // Wrong use, or a file that cannot be read or written.
    Failed,
    // Whoever read standard output has gone. No more is said then, and no status is told: a program that the
    // system ends there, as it does one that does not ask to go on, says none either.
    Gone,
}

pub(crate) type Done = Result<(), Undone>;

// One thing for each number, each also behind one that is not done, until nobody reads any more; the gravest
// of them counts.
pub(crate) fn each<F: Fn(usize) -> Done>(numbers: Range<usize>, thing: F) -> Done
    requires { F.IsAlwaysCallable thing }
{
    let mut done = Ok(());
    for i in numbers {
        done = done.max(thing(i));
        if done == Err(Undone::Gone) {
            break;
        }
    }
    done
}

// Text that is put together first; none comes near so many bytes.
pub(crate) type Text = InlineText<256>;

// ---- to standard output

// A full disk is told.
fn unprinted(rt: HostRuntime, error: Error) -> Undone {
    if error.kind() == ErrorKind::BrokenPipe {
        return Undone::Gone;
    }
    crate::host::complain(rt, b"standard output", error);
    Undone::Failed
}

pub(crate) fn print(rt: HostRuntime, said: &[u8]) -> Done {
    rt.write_all(said).map_err(|error| unprinted(rt, error))
}

// A line behind a name; it is put together first, and written at once.
pub(crate) fn line<D: Display + Drop>(rt: HostRuntime, name: &[u8], said: D) -> Done {
    let named = print(rt, name);
    let said = rt.println(said).map_err(|error| unprinted(rt, error));
    named.max(said)
}

// ---- to standard error

// Nobody can be told that this fails.
pub(crate) fn complain(rt: HostRuntime, said: &[u8]) {
    let _ = rt.stderr().write_all(said);
}

pub(crate) fn complain_line<D: Display + Drop>(rt: HostRuntime, name: &[u8], said: D) {
    complain(rt, name);
    let _ = rt.eprintln(said);
}

// One line behind the name of what is refused.
pub(crate) fn refused(rt: HostRuntime, name: &[u8], number: u32, place: u32) -> Undone {
    let mut said = io::buffer();
    let n = words::refused_line(&mut said, number, place, 0);
    complain(rt, name);
    complain(rt, crate::places::front(&said, n));
    Undone::Refused
}

pub(crate) fn judged(rt: HostRuntime, name: &[u8], verdict: Judged) -> Done {
    verdict.map_err(|refusal| refused(rt, name, refusal.number(), refusal.place))
}

// What answers a number of refusal, 0 for none, and a place, as C receives them.
pub(crate) fn accepted(rt: HostRuntime, name: &[u8], number: u32, place: u32) -> Done {
    if number == 0 {
        return Ok(());
    }
    Err(refused(rt, name, number, place))
}

// The same of one room of a book.
pub(crate) fn refused_in(
    rt: HostRuntime,
    file: &[u8],
    room: u16,
    number: u32,
    place: u32,
) -> Undone {
    complain(rt, file);
    let _ = eprint!(rt; ":{room}");
    refused(rt, b"", number, place)
}

// The same of one minute of a card.
pub(crate) fn refused_at(
    rt: HostRuntime,
    name: &[u8],
    minute: u16,
    number: u32,
    place: u32,
) -> Undone {
    complain(rt, name);
    let _ = eprint!(rt; ": minute {minute}");
    refused(rt, b"", number, place)
}

// ---- to either

// Where a line goes that is an answer, or stands beside one.
#[derive(Clone, Copy)]
pub(crate) enum Stream {
    Output,
    Error,
}

impl Stream {
    pub(crate) fn line<D: Display + Drop>(self, rt: HostRuntime, name: &[u8], said: D) -> Done {
        match self {
            Stream::Output => line(rt, name, said),
            Stream::Error => {
                complain_line(rt, name, said);
                Ok(())
            }
        }
    }
}
