// What a number of refusal means, and what to do.
use crate::tell::{Done, Undone};
use words::Table;

// A line of words, a sentence of a table behind them.
fn print(rt: HostRuntime, before: &[u8], table: Table, number: u16) -> Done {
    let mut said = io::buffer();
    let n = words::put_sentence(&mut said, 0, table, number as u32);
    let begun = crate::tell::print(rt, before);
    let told = crate::tell::print(rt, crate::places::front(&said, n));
    begun.max(told).max(crate::tell::print(rt, b"\n"))
}

fn has_row(number: u16) -> bool {
    let mut said = io::buffer();
    0 < words::put_sentence(&mut said, 0, Table::Refusals, number as u32)
}

// Of argument 2.
pub(crate) fn why(rt: HostRuntime) -> Done {
    let number = crate::arguments::number(rt, 2)?;
    if !has_row(number) {
        let _ = eprintln!(rt; "kaihveto: no refusal has the number {number}");
        return Err(Undone::Failed);
    }
    let what = print(rt, b"what: ", Table::Refusals, number);
    let place = print(rt, b"place: ", Table::Places, number);
    let remedy = print(rt, b"what to do: ", Table::Remedies, number);
    what.max(place).max(remedy)
}
