// The fitters' weight sheet: what the numbers of a gap's left knot weigh in the value, at each minute of gaps of 15, 30 and 60 minutes. Document 02, order 5.
// The right knot's weights are those at the same minute, counted from the other side.
#![tactic(auto)]

mod table;

ghost use Rattle.std.specs.Prelude.{◌≡◌, ◌<◌};
ghost use Rattle.weight_sheet.specs.Sheet.{rows, sheet_row, found};

use table::NUMBERS;

// What the left knot's ordinate, slope and curvature weigh at a minute.
#[derive(Clone, Copy)]
pub struct Row {
    pub ordinate: i32,
    pub slope: i32,
    pub curvature: i32,
}

// The rows of a gap begin with this one.
const FROM_15: usize = 0;

const FROM_30: usize = FROM_15 + 16;

const FROM_60: usize = FROM_30 + 31;

impl Row {
    // Row i of the sheet.
    #[tactic(auto, using(crate::proofs::Sheet::rule))]
    fn of(i: usize) -> Row
        requires { i < rows }
        ensures { result ≡ sheet_row i }
    {
        // once: the compiler writes a constant to the stack wherever it stands
        let numbers = NUMBERS;
        let at = 3 * i;
        Row {
            ordinate: numbers[at],
            slope: numbers[at + 1],
            curvature: numbers[at + 2],
        }
    }

    // What the sheet has of minute t of a gap of h.
    #[tactic(auto, using(crate::proofs::Sheet::begins), unfolding(crate::specs::Sheet::found))]
    pub fn at(h: usize, t: usize) -> Option<Row>
        ensures { result ≡ found h t }
    {
        if h < t {
            return None;
        }
        match h {
            15 => Some(Row::of(FROM_15 + t)),
            30 => Some(Row::of(FROM_30 + t)),
            60 => Some(Row::of(FROM_60 + t)),
            _ => None,
        }
    }
}
