// The numbers among the program's arguments.
use crate::tell::Undone;
use numeral::Wrong;

// No number among the arguments is larger.
const MOST: u32 = 65535;

// Whoever meant a number is told that it is none.
pub(crate) fn complain(rt: HostRuntime, word: &[u8]) {
    crate::tell::complain(rt, b"kaihveto: '");
    crate::tell::complain(rt, word);
    crate::tell::complain(
        rt,
        b"' is not a whole number from 0 to 65535, written without a zero in front\n",
    );
}

pub(crate) fn whole(word: &[u8]) -> Option<u16> {
    let number = numeral::natural(word, MOST).ok()?;
    u16::try_from(number).ok()
}

// Whether a word that is no number is one in another spelling, or too large.
pub(crate) fn nearly(word: &[u8]) -> bool {
    match numeral::natural(word, MOST) {
        Ok(_) => false,
        Err(wrong) => wrong != Wrong::NotWhole,
    }
}

// Argument i as a number; where it is none, that is told.
pub(crate) fn number(rt: HostRuntime, i: usize) -> Result<u16, Undone> {
    let mut buffer = io::buffer();
    let word = crate::host::arg(rt, i, &mut buffer);
    let Some(number) = whole(word) else {
        complain(rt, word);
        return Err(Undone::Failed);
    };
    Ok(number)
}
