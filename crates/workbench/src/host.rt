// What the program asks of the system, over `std`: its arguments, files by their names, its process's number,
// and what an error says. A name is bytes, and `std` takes text: a name that is no text is told as the system
// tells it.
ghost use Rattle.std.specs.Prelude.{◌≤◌, length};

use crate::tell::Text;
use std::env::{Env, FillError};
use std::fmt::Write;
use std::fs::{File, OpenOptions};
use std::io::{Error, ErrorKind};

// Argument i, in the buffer; nothing where there is none or it does not fit.
pub(crate) fn arg(rt: HostRuntime, i: usize, word: &mut [u8]) -> &[u8]
    ensures { length result.now ≤ length word.old }
{
    let n = rt.arg(i, word).unwrap_or(0);
    &word[..n]
}

fn has_arg(rt: HostRuntime, i: usize) -> bool {
    let mut first = [0u8; 1];
    !matches!(rt.arg(i, &mut first), Err(FillError::NotPresent))
}

// How many arguments there are, the program's own name among them.
pub(crate) fn arg_count(rt: HostRuntime) -> usize {
    (0..usize::MAX)
        .find(|i| !has_arg(rt, *i))
        .unwrap_or(usize::MAX)
}

pub(crate) fn process(rt: HostRuntime) -> u32 {
    std::process::id(rt.process())
}

// ---- files

// The system's numbers for an argument that no call takes, and for bytes that are no text.
const INVALID: i32 = 22;

const NO_TEXT: i32 = 84;

fn text(name: &[u8]) -> std::io::Result<&str> {
    if name.iter().any(|byte| *byte == 0) {
        return Err(Error::from_raw_os_error(INVALID));
    }
    std::str::from_utf8(name).map_err(|_| Error::from_raw_os_error(NO_TEXT))
}

pub(crate) fn open_read(rt: HostRuntime, path: &[u8]) -> std::io::Result<File> {
    File::open(&rt, text(path)?)
}

// A new file; the name may not be taken.
pub(crate) fn create(rt: HostRuntime, path: &[u8]) -> std::io::Result<File> {
    let name = text(path)?;
    OpenOptions::new()
        .write(true)
        .create_new(true)
        .open(&rt, name)
}

pub(crate) fn rename(rt: HostRuntime, from: &[u8], to: &[u8]) -> std::io::Result<()> {
    std::fs::rename(&rt, text(from)?, text(to)?)
}

pub(crate) fn unlink(rt: HostRuntime, path: &[u8]) -> std::io::Result<()> {
    std::fs::remove_file(&rt, text(path)?)
}

// ---- errors

// Whether what failed did so since there is no file of that name; no file has one that is too long.
pub(crate) fn is_missing(error: Error) -> bool {
    error.kind() == ErrorKind::NotFound || error.kind() == ErrorKind::InvalidFilename
}

// What stands before the last bracket that opens, without the blank between.
fn before_bracket(text: &str) -> &str {
    let bracket = text.as_bytes().iter().rposition(|byte| *byte == b'(');
    let end = bracket.and_then(|at| at.checked_sub(1));
    end.and_then(|end| text.get(..end)).unwrap_or(text)
}

// A line to standard error: what failed, as the caller names it, a colon and the system's text of the error,
// without its number in brackets, which `std` adds.
pub(crate) fn complain(rt: HostRuntime, what: &[u8], error: Error) {
    let mut text = Text::new();
    let _ = write!(text, "{error}");
    let said = if error.raw_os_error().is_none() {
        text.as_str()
    } else {
        before_bracket(text.as_str())
    };
    crate::tell::complain_line(rt, what, format_args!(": {said}"));
}
