// The fitter: knots and logs as records on standard input, the listing of their fit on standard output. Document 01, "Two programs", and document 02, order 4.
#![tactic(auto)]

ghost use Rattle.std.specs.Prelude.{◌≤◌, length};
ghost use Rattle.sheet.specs.Sheet.{OfAnInput};
ghost use Rattle.sheet.specs.Step.{Near};
ghost use Rattle.fitter.specs.Turned.{Turned};

use gather::Gathered;
use sheet::Intake;
use std::ops::ControlFlow;

// One turn of the loop of `sheet::read`, with what standard input gives for its pieces: what one more record makes of an intake, and whether another is looked at. No contract can say what standard input gives.
fn take_record(intake: Intake, space: &mut [u8]) -> ControlFlow<Intake, Intake>
    requires { Near intake × (65535 ≤ length space.old) }
    ensures { Turned intake result }
{
    let mut head = [0u8; 4];
    let got = io::read_full(0, &mut head);
    if got == 0 {
        return ControlFlow::Break(intake);
    }
    let long = sheet::asked(&head[..got]) as usize;
    let had = io::read_full(0, &mut space[..long]);
    let next = intake.step(&head[..got], &space[..had]);
    if next.done() {
        return ControlFlow::Break(next);
    }
    ControlFlow::Continue(next)
}

// At most 65 records, each with at most 65,535 bytes behind its head: one buffer holds one of them.
fn read_input() -> Gathered
    ensures { OfAnInput result }
{
    let mut space = io::large_buffer();
    let mut intake = Intake::new();
    for _taken in 0..Gathered::MOST {
        match take_record(intake, &mut space) {
            ControlFlow::Continue(next) => intake = next,
            ControlFlow::Break(last) => return last.close(),
        }
    }
    intake.close()
}

fn main() {
    let mut text = io::buffer();
    let length = fit_listing::list_sheet(read_input(), &mut text);
    io::write_all(1, &text[..length]);
}
