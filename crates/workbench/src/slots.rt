// The logs that a sheet names, read from their files into the slots in which `reply` looks for them. A name
// is taken from the sheet's own folder, so that a folder with a sheet and its logs can be carried about.
ghost use Rattle.std.specs.Prelude.{◌≡◌, length};

use crate::tell::{Done, Undone};
use reply::SLOT;
use text::{Blame, Sheet};

// The folder of a file, with the slash; nothing where its name has none.
fn folder(file: &[u8]) -> &[u8] {
    match file.iter().rposition(|byte| *byte == b'/') {
        Some(slash) => &file[..slash + 1],
        None => &file[..0],
    }
}

// Nothing where they are too long.
fn join(path: &mut [u8], folder: &[u8], name: &[u8]) -> usize {
    if path.len() < folder.len() {
        return 0;
    }
    if path.len() - folder.len() < name.len() {
        return 0;
    }
    let n = decimal::put_words(path, 0, folder);
    decimal::put_words(path, n, name)
}

fn put_path(path: &mut [u8], file: &[u8], name: &[u8]) -> usize {
    match name {
        [b'/', ..] => join(path, b"", name),
        _ => join(path, folder(file), name),
    }
}

// The log in its slot, behind its length; `-` is a name like any other. Of a log that is too long one byte too
// many is read, and no further one. What cannot be read is told:
// `night.sheet:4: hour.log: No such file or directory`.
fn load_log(rt: HostRuntime, file: &[u8], line: u32, name: &[u8], slot: &mut [u8]) -> Done
    requires { length slot.old ≡ 62 }
{
    let mut buffer = io::buffer();
    let n = put_path(&mut buffer, file, name);
    let path = crate::places::front(&buffer, n);
    match crate::files::load_named(rt, path, &mut slot[1..]) {
        Ok(length) => {
            slot[0] = length as u8;
            Ok(())
        }
        Err(error) => {
            crate::tell::complain(rt, file);
            let _ = eprint!(rt; ":{line}: ");
            Err(crate::files::unloaded(rt, path, error))
        }
    }
}

// All of them, in the order of the lines; the first that cannot be read is told. A sheet with anything wrong
// has no log.
pub(crate) fn load(
    rt: HostRuntime,
    file: &[u8],
    text: &[u8],
    sheet: Result<Sheet, Blame>,
    logs: &mut [u8],
) -> Done
    requires { length logs.old ≡ 4096 }
{
    let Ok(sheet) = sheet else {
        return Ok(());
    };
    for i in 0..Sheet::MOST {
        if sheet.logs[i] {
            let line = sheet.lines[i];
            let name = text::log_name(text, line);
            load_log(rt, file, line, name, &mut logs[SLOT * i..SLOT * i + SLOT])?;
        }
    }
    Ok(())
}
