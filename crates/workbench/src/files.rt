// A whole file read, and a file put in another's place at once. `-` is standard input or output.

ghost use Rattle.std.specs.Prelude.{◌≡◌, ◌≤◌, length, IfOk};
ghost use Rattle.std.specs.Io.{ReadsAtMost};

use crate::tell::{Done, Undone};
use std::fs::File;
use std::io::{Error, ErrorKind, Read, Write};

// Reads until the buffer is full, the input ends or a read fails. Each read says how far the next one goes on: a
// for would be no plainer.
fn fill<R: Read>(from: &mut R, bytes: &mut [u8]) -> std::io::Result<usize>
    ensures { ReadsAtMost result bytes.new }
{
    let mut done: usize = 0;
    while done < bytes.len() {
        let n = from.read(&mut bytes[done..])?;
        if n == 0 {
            break;
        }
        done += n;
    }
    Ok(done)
}

pub(crate) fn is_dash(path: &[u8]) -> bool {
    matches!(path, b"-")
}

// A file by its name, whatever that is; nothing is told.
pub(crate) fn load_named(rt: HostRuntime, path: &[u8], bytes: &mut [u8]) -> std::io::Result<usize>
    ensures { ReadsAtMost result bytes.new }
{
    let mut from = crate::host::open_read(rt, path)?;
    fill(&mut from, bytes)
}

// As `load`, with nothing told.
pub(crate) fn load_file(rt: HostRuntime, path: &[u8], bytes: &mut [u8]) -> std::io::Result<usize>
    ensures { ReadsAtMost result bytes.new }
{
    if is_dash(path) {
        return fill(&mut rt.stdin(), bytes);
    }
    load_named(rt, path, bytes)
}

fn failed(rt: HostRuntime, path: &[u8], error: Error) -> Undone {
    crate::host::complain(rt, path, error);
    Undone::Failed
}

// A name that does not fit into its buffer comes here as an empty one.
pub(crate) fn unloaded(rt: HostRuntime, path: &[u8], error: Error) -> Undone {
    if path.is_empty() {
        return failed(rt, b"a name that is empty or longer than 4096 bytes", error);
    }
    failed(rt, path, error)
}

// What was read, in the buffer; an error is told.
pub(crate) fn load<'a>(
    rt: HostRuntime,
    path: &[u8],
    buffer: &'a mut [u8],
) -> Result<&'a [u8], Undone>
    ensures { IfOk result (λ bytes. length bytes.now ≤ length buffer.old) }
{
    match load_file(rt, path, buffer) {
        Ok(n) => Ok(&buffer[..n]),
        Err(error) => Err(unloaded(rt, path, error)),
    }
}

const LONGEST: usize = 4000;

// The name of the new file that is made beside the one that is asked for.
fn beside(rt: HostRuntime, path: &[u8], name: &mut [u8]) -> usize
    requires { (length path.now ≤ 4000) × (length name.old ≡ 4096) }
{
    let process = crate::host::process(rt);
    let n = decimal::put_words(name, 0, path);
    decimal::put_worded(name, n, b".new", process as u64)
}

// Filled, synced and closed.
fn write<F: FnOnce(&mut File) -> std::io::Result<()>>(mut to: File, fill: F) -> std::io::Result<()>
    requires { F.IsAlwaysCallable fill }
{
    fill(&mut to)?;
    to.sync_all()
}

// A new file beside the one that is asked for, filled, synced, closed and renamed: the old file or the new one
// is there, and never a part. What goes wrong is told, and the new file goes.
fn settle<F: FnOnce(&mut File) -> std::io::Result<()>>(
    rt: HostRuntime,
    path: &[u8],
    beside: &[u8],
    fill: F,
) -> Done
    requires { F.IsAlwaysCallable fill }
{
    let to = match crate::host::create(rt, beside) {
        Ok(file) => file,
        Err(error) => return Err(failed(rt, path, error)),
    };
    let settled = match write(to, fill) {
        Ok(()) => crate::host::rename(rt, beside, path),
        Err(error) => Err(error),
    };
    if let Err(error) = settled {
        let undone = failed(rt, path, error);
        let _ = crate::host::unlink(rt, beside);
        return Err(undone);
    }
    Ok(())
}

fn too_long(rt: HostRuntime) -> Undone {
    crate::tell::complain(
        rt,
        b"kaihveto: the name of the new file is empty or too long\n",
    );
    Undone::Failed
}

// In the place of a file, what fills it. No file has an empty name: one that does not fit into its buffer
// comes here as such.
fn replace<F: FnOnce(&mut File) -> std::io::Result<()>>(
    rt: HostRuntime,
    path: &[u8],
    fill: F,
) -> Done
    requires { F.IsAlwaysCallable fill }
{
    if path.is_empty() || LONGEST < path.len() {
        return Err(too_long(rt));
    }
    let mut name = io::buffer();
    let n = beside(rt, path, &mut name);
    settle(rt, path, crate::places::front(&name, n), fill)
}

// Bytes as a file, or to standard output.
pub(crate) fn save(rt: HostRuntime, path: &[u8], bytes: &[u8]) -> Done {
    if is_dash(path) {
        return crate::tell::print(rt, bytes);
    }
    replace(rt, path, |to| to.write_all(bytes))
}

// Bytes as a file where there is none: the name itself is made, which fails where it is taken, and renaming
// it to itself changes nothing.
pub(crate) fn make(rt: HostRuntime, path: &[u8], bytes: &[u8]) -> Done {
    if path.is_empty() {
        return Err(too_long(rt));
    }
    settle(rt, path, path, |to| to.write_all(bytes))
}

// Standard input, as far as it can be read.
fn copy(to: &mut File) -> std::io::Result<()> {
    let mut bytes = io::large_buffer();
    for _ in 0..1_000_000 {
        let n = io::read_full(0, &mut bytes);
        if n == 0 {
            return Ok(());
        }
        to.write_all(&bytes[..n])?;
    }
    Err(Error::from(ErrorKind::FileTooLarge))
}

// Standard input as a file of argument 2's name.
pub(crate) fn save_input(rt: HostRuntime) -> Done {
    let mut buffer = io::buffer();
    replace(rt, crate::host::arg(rt, 2, &mut buffer), |to| copy(to))
}
