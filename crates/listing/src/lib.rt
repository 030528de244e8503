// The text that both programs print, written into a lent buffer: document 01, "Two programs", and document 02, order 4. Each function here asks for the room of what it writes, and
// answers the offset behind it.
#![tactic(auto)]

ghost use Rattle.std.specs.Prelude.{◌≡◌, ◌+◌, ◌*◌, ◌^◌, ◌≤◌, ◌<◌, ℕ, List, Option, length};
ghost use Rattle.decimal.specs.Put.{Put};
ghost use Rattle.listing.specs.Text.{four_fields, knot_line, counted_line, listed_line, ok_line, refused_line, line_of, listing, longest_line, Lines, Answered};

// A knot's four numbers, and a byte behind the last.
fn four_fields(text: &mut [u8], at: usize, x: u16, y: i32, m: i32, c: i32, last: u8) -> usize
    requires { at + length (four_fields x y m c last) ≤ length text.old }
    ensures { Put (four_fields x y m c last) text.old text.new at result }
{
    let after_x = decimal::put_field(text, at, x as i64, b' ');
    let after_y = decimal::put_field(text, after_x, y as i64, b' ');
    let after_m = decimal::put_field(text, after_y, m as i64, b' ');
    decimal::put_field(text, after_m, c as i64, last)
}

pub fn knot_line(text: &mut [u8], at: usize, x: u16, y: i32, m: i32, c: i32) -> usize
    requires { at + length (knot_line x y m c) ≤ length text.old }
    ensures { Put (knot_line x y m c) text.old text.new at result }
{
    four_fields(text, at, x, y, m, c, b'\n')
}

// A count behind the four: a log's faults, or the looks for a reading.
pub fn counted_line(text: &mut [u8], at: usize, x: u16, y: i32, m: i32, c: i32, count: u32) -> usize
    requires { at + length (counted_line x y m c count) ≤ length text.old }
    ensures { Put (counted_line x y m c count) text.old text.new at result }
{
    let next = four_fields(text, at, x, y, m, c, b' ');
    decimal::put_field(text, next, count as i64, b'\n')
}

// A log's line has its faults behind the curvature, and no other knot's has any.
#[tactic(auto, unfolding(crate::specs::Text::listed_line))]
fn listed_line(
    text: &mut [u8],
    at: usize,
    x: u16,
    y: i32,
    m: i32,
    c: i32,
    faults: Option<u8>,
) -> usize
    requires { at + length (listed_line x y m c faults) ≤ length text.old }
    ensures { Put (listed_line x y m c faults) text.old text.new at result }
{
    match faults {
        None => knot_line(text, at, x, y, m, c),
        Some(count) => counted_line(text, at, x, y, m, c, count as u32),
    }
}

// What is answered, when the faults of a knot are asked for.
fn faults_at<F: Fn(usize) -> Option<u8>>(faults: &F, i: usize) -> Option<u8>
    requires { F.pre faults.now i }
    ensures { F.post faults.now i result }
{
    faults(i)
}

fn knot_lines<F: Fn(usize) -> Option<u8>>(
    text: &mut [u8],
    minutes: &[u16],
    ordinates: &[i16],
    slopes: &[i32],
    curvatures: &[i32],
    faults: F,
) -> usize
    requires ordinates_len { (length ordinates.now ≡ length minutes.now) × (length slopes.now ≡ length minutes.now) × (length curvatures.now ≡ length minutes.now) }
    requires minutes_in_bounds { longest_line * length minutes.now ≤ length text.old }
    requires faults_pre { (i : ℕ) → i < length minutes.now → F.pre faults i }
    ensures { (fs : List (Option ℕ)) × Answered (F.post faults) (length minutes.now) fs
        × Lines (line_of minutes.now ordinates.now slopes.now curvatures.now fs) (length minutes.now) text.old text.new result }
{
    let mut next: usize = 0;
    for i in 0..minutes.len() {
        next = listed_line(
            text,
            next,
            minutes[i],
            ordinates[i] as i32,
            slopes[i],
            curvatures[i],
            faults_at(&faults, i),
        );
    }
    next
}

// "then `ok n`".
fn accepted_line(text: &mut [u8], at: usize, knots: u32) -> usize
    requires { at + length (ok_line knots) ≤ length text.old }
    ensures { Put (ok_line knots) text.old text.new at result }
{
    let next = decimal::put_worded(text, at, b"ok ", knots as u64);
    decimal::put_byte(text, next, b'\n')
}

// "or one line `refused NUMBER at PLACE`".
pub fn refused_line(text: &mut [u8], at: usize, number: u32, place: u32) -> usize
    requires { at + length (refused_line number place) ≤ length text.old }
    ensures { Put (refused_line number place) text.old text.new at result }
{
    let after_number = decimal::put_worded(text, at, b"refused ", number as u64);
    let after_place = decimal::put_worded(text, after_number, b" at ", place as u64);
    decimal::put_byte(text, after_place, b'\n')
}

// The whole listing at the front of a buffer, and its length, by the number and place that a struct has which C receives: the line of a knot has at most 60 bytes, the last line at most 33.
// The faults are asked for, knot by knot: whoever has a list of them hands on `|i| list.get(i).copied().flatten()`.
pub fn list<F: Fn(usize) -> Option<u8>>(
    number: u32,
    place: u32,
    minutes: &[u16],
    ordinates: &[i16],
    slopes: &[i32],
    curvatures: &[i32],
    faults: F,
    text: &mut [u8],
) -> usize
    requires ordinates_len { (length ordinates.now ≡ length minutes.now) × (length slopes.now ≡ length minutes.now) × (length curvatures.now ≡ length minutes.now) }
    requires minutes_len_bound { (length minutes.now < 2 ^ 32) × (longest_line * length minutes.now + 33 ≤ length text.old) }
    requires faults_pre { number ≡ 0 → (i : ℕ) → i < length minutes.now → F.pre faults i }
    ensures { (fs : List (Option ℕ)) × (number ≡ 0 → Answered (F.post faults) (length minutes.now) fs)
        × Put (listing number place minutes.now ordinates.now slopes.now curvatures.now fs) text.old text.new 0 result }
{
    if number != 0 {
        return refused_line(text, 0, number, place);
    }
    let next = knot_lines(text, minutes, ordinates, slopes, curvatures, faults);
    accepted_line(text, next, minutes.len() as u32)
}
