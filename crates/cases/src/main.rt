// Asks the library the questions of tests/cases/questions.txt, which come as records on standard input (tests/cases/records), and prints a line for each answer.
// The stored output is what the independent reference answers to the same file. A new kind of question is a function and an arm in `ask`.
#![tactic(auto)]

mod ask;
mod lay;
mod print;

use ask::Question;

// Reads a record and answers it; whether the input had one.
fn answer_record(rt: HostRuntime, space: &mut [u8]) -> bool {
    let mut head = [0u8; 4];
    let got = io::read_full(0, &mut head);
    if got < 4 {
        return false;
    }
    let length = little_endian::read_u16(&head, 0) as usize;
    let kind = little_endian::read_u16(&head, 2);
    if space.len() < length {
        return false;
    }
    let had = io::read_full(0, &mut space[..length]);
    lay::question(rt, Question::from(kind), &mut space[..had]).is_ok()
}

// At most so many records: a program that is proved must end.
fn main(rt: HostRuntime) {
    let mut space = io::buffer();
    for _ in 0..1_000_000 {
        if !answer_record(rt, &mut space) {
            return;
        }
    }
}
