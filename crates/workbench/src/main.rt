// What stands behind the command `kaihveto`: workbench fit SHEET CARE [CARD], free SHEET CARE [CARD] (the fit
// between free ends), mend SHEET CARE [CARD], list CARD, check CARE CARD .., at CARD MINUTE .., explain CARD
// MINUTE, table CARD [EVERY], points CARD CARE, mean MINUTE LOG, preheat PARTS FILE, why NUMBER, weights,
// book new BOOK, book list BOOK, book find BOOK ROOM [CARD], book put BOOK ROOM CARD CARE, book remove BOOK
// ROOM, save FILE. CARE is two words: the hundredths beyond its knots beyond which a curve is warned of, and
// `strict` where such a curve is refused. A CARD that is read may be BOOK:ROOM. Results go to standard
// output, complaints to standard error, and one byte to descriptor 3: where none comes, the program was ended
// before its time. What is proved of the lines is said in the crates that are called; here every function is
// proved safe and ending.
#![tactic(auto)]

mod arguments;
mod books;
mod cards;
mod checks;
mod explained;
mod files;
mod heats;
mod host;
mod logs;
mod places;
mod rooms;
mod sheets;
mod slots;
mod source;
mod swings;
mod tables;
mod tell;
mod weight_lines;
mod whys;

use std::process::ExitCode;
use tell::{Done, Undone};

fn run(rt: HostRuntime, command: &[u8], count: usize) -> Done {
    match command {
        b"fit" => sheets::fit(rt, count),
        b"free" => sheets::fit_free(rt, count),
        b"mend" => sheets::mend(rt, count),
        b"list" => cards::list_argument(rt),
        b"check" => cards::check(rt, count),
        b"at" => cards::minutes(rt, count),
        b"explain" => cards::explain(rt),
        b"table" => cards::table(rt, count),
        b"points" => cards::points(rt),
        b"mean" => logs::mean(rt),
        b"preheat" => heats::print(rt),
        b"why" => whys::why(rt),
        b"weights" => weight_lines::print(rt),
        b"book" => books::run(rt, count),
        b"save" => files::save_input(rt),
        _ => Err(Undone::Failed),
    }
}

// The status with which a shell sees a program that wrote to a pipe that nobody reads.
const PIPE: u8 = 141;

fn main(rt: HostRuntime) -> ExitCode {
    let mut buffer = io::buffer();
    let command = host::arg(rt, 1, &mut buffer);
    let status = match run(rt, command, host::arg_count(rt)) {
        Ok(()) => b'0',
        Err(Undone::Refused) => b'1',
        Err(Undone::Failed) => b'2',
        Err(Undone::Gone) => return ExitCode::from(PIPE),
    };
    io::write_all(3, &[status]);
    ExitCode::SUCCESS
}
