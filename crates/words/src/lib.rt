// What is wrong, in plain words: a sentence for each number of refusal with what to do about it, a sentence for each thing that can be wrong in the text of a sheet or a table,
// and the lines of standard error that are made of them, or say which knot was mended.
#![tactic(auto)]

ghost use Rattle.std.specs.Prelude.{◌≡◌, [], ◌+◌, ◌≤◌, length, get_or};
ghost use Rattle.decimal.specs.Put.{Put};
ghost use Rattle.split.specs.Parts.{lines};
ghost use Rattle.words.specs.Sentences.{sentence, longest};
ghost use Rattle.words.specs.Said.{at_line, counts, at_place, refused_words, refused_line, value_line, quoted, shown, wrong_line, mended_line};

// What a sentence is looked up in.
#[derive(Drop)]
pub enum Table {
    Refusals,
    Places,
    Remedies,
    Wrongs,
}

// A line of a text, from 0.
fn put_row(to: &mut [u8], at: usize, rows: &[u8], n: u32) -> usize
    requires { at + length (get_or (lines rows.now) n []) ≤ length to.old }
    ensures { Put (get_or (lines rows.now) n []) to.old to.new at result }
{
    decimal::put_words(to, at, split::line_at(rows, n))
}

// Each table is one text, a line for each number.
pub fn put_sentence(to: &mut [u8], at: usize, table: Table, n: u32) -> usize
    requires { at + longest ≤ length to.old }
    ensures { Put (sentence table n) to.old to.new at result }
{
    match table {
        Table::Refusals => put_row(
            to,
            at,
            b"\n\
            fewer than 3 knots or values\n\
            more than 64 knots\n\
            lent lists differ in length\n\
            minute is not above the one before\n\
            more than 60 minutes lie between this knot and the one before\n\
            ordinate or value is beyond 20000 hundredths either way\n\
            number given for this end is no number, or beyond 256 either way\n\
            elimination met a zero or a number that is not finite\n\
            slope or curvature is beyond 1048576 card units\n\
            third or fourth derivative jumps by more than is allowed\n\
            minute is outside the card\n\
            log byte is from 201 to 254\n\
            log has no good byte\n\
            record is cut short, of the wrong kind or length, or bytes follow the end\n\
            code of this end (0 left, 1 right) is not 0, 1 or 2, or not 0 where slopes are given\n\
            log has not 1 to 60 bytes\n\
            hole has no sound knot on one side\n\
            list of changes has fewer places than there are holes\n\
            log's middle is behind minute 65535\n\
            room is not in the book\n\
            book would be over 16384 bytes, or over the lent buffer\n\
            room number is not above the one before\n\
            log has good bytes, but fewer than half\n\
            more than 20 values\n\
            step has not 2 to 60 parts\n\
            lent buffer or lists are too short\n",
            n,
        ),
        Table::Places => put_row(
            to,
            at,
            b"\n\
            \n\
            \n\
            \n\
            knot\n\
            knot\n\
            knot\n\
            knot\n\
            knot\n\
            knot\n\
            knot\n\
            \n\
            byte\n\
            \n\
            byte\n\
            end\n\
            \n\
            knot\n\
            \n\
            \n\
            \n\
            \n\
            byte\n\
            \n\
            \n\
            \n\
            \n",
            n,
        ),
        Table::Remedies => put_row(
            to,
            at,
            b"\n\
            give more logs; a pre-heater's table has 3 to 20 values\n\
            leave knots out, or make two cards\n\
            the program that calls is wrong: it has to lend lists of one length\n\
            two logs have the same middle, or the sheet is out of order: look at that knot\n\
            a log is missing before that knot\n\
            look at that number: 100 % is 10000\n\
            give the end's slope and curvature in hundredths per minute (squared), not in card units\n\
            no input is known that does this: keep the sheet and report it\n\
            the curve is too steep there: knots too close for so large a step; or a slope in the sheet is not in card units; or a number on the card was changed\n\
            a number at or beside that knot was changed, or an end has another code than in its fit: kaihveto explain says how far it jumps; make the card anew; if a fit says it, keep the sheet and report it\n\
            it is before the first knot or after the last, or past a table's last value; a log's knot stands in its middle, so the first log's first half and the last log's second half are not on the card\n\
            the log is damaged at that byte; of a log in a sheet, whose place is the knot, kaihveto mean says the byte\n\
            the sensor was dead: leave this log out, or write a hole at the minute of its middle and mend the sheet\n\
            the file is damaged there, or is another kind of file, or a book of more than 16384 bytes; of a card in a book the bytes count from the card's first\n\
            the card is damaged or comes from a newer program, or the calling program gave a wrong code\n\
            cut a longer log to one hour, leave out an empty one\n\
            no line can be laid to a hole before the first sound knot or behind the last: leave that knot out, or give it a number\n\
            the program that calls is wrong: it has to lend a list with a place for each hole (64 are always enough)\n\
            a knot's minute is at most 65535, and a log's knot stands in its middle: look at the log's first minute\n\
            look at the room's number: kaihveto book list says which rooms are there, kaihveto book put puts one in\n\
            take out a room that is not used any more (kaihveto book remove), put the card into a second book, or make it with fewer knots; a program that calls has to lend as many bytes as the book then has\n\
            the record there is out of order, or its room is in the book already: make the book anew from the rooms' cards\n\
            the sensor was out for most of that time: cut the log to minutes of which half are good, leave it out, or write a hole at the minute of its middle and mend the sheet\n\
            a pre-heater's table has 3 to 20 values: leave some out, or make two tables\n\
            ask for 2 to 60 parts to a step of the pre-heater's table\n\
            lend 14 + 16n bytes, or n places\n",
            n,
        ),
        Table::Wrongs => put_row(
            to,
            at,
            b"\n\
            is not a whole number; hundredths are whole: write 550 for 5.5 %\n\
            has a zero or a sign too many: write 50 for 050, and 0 for -0\n\
            is too large: a minute is at most 65535, an ordinate or value from -32768 to 32767\n\
            stands alone: a knot is a minute and an ordinate, or a minute and @FILE for a log\n\
            is one word too many: a knot is a minute, an ordinate or @FILE for a log, whose name has no blank here, and behind that its slope if it has one\n\
            is longer than 65535 bytes: no sheet or table is\n\
            is a hole: kaihveto mend fills it, in a sheet without slopes\n\
            asks for the name of a log's file: write MINUTE @FILE\n\
            is no slope: behind an ordinate or @FILE, whose name has no blank here, stands nothing or a whole number of card units, with no zero in front\n\
            has no slope behind it, and the knots before have one: give every knot its slope in card units, or none\n\
            is a slope, and the knots before have none: give every knot its slope in card units, or none\n\
            is a slope: kaihveto mend takes a sheet without slopes\n",
            n,
        ),
    }
}

// The line of a sheet, where one is to blame. Lines count from 1 and stand in an array whose other places are 0:
// so 0 is none, and an Option would be no plainer.
#[tactic(auto, unfolding(crate::specs::Said::at_line, decimal::specs::Decimal::spelled), using(decimal::proofs::Puts::room_before, decimal::proofs::Puts::room_behind))]
fn put_line(to: &mut [u8], at: usize, line: u32) -> usize
    requires { at + length (at_line line) ≤ length to.old }
    ensures { Put (at_line line) to.old to.new at result }
{
    if line == 0 {
        return decimal::put_words(to, at, b": ");
    }
    let next = decimal::put_worded(to, at, b":", line as u64);
    decimal::put_words(to, next, b": ")
}

// What the place counts: of a line of a sheet always the knot, without one what the number says.
#[tactic(auto, unfolding(crate::specs::Said::counts, decimal::specs::Decimal::spelled))]
fn put_counts(to: &mut [u8], at: usize, number: u32, line: u32) -> usize
    requires { at + longest ≤ length to.old }
    ensures { Put (counts number line) to.old to.new at result }
{
    if line == 0 {
        return put_sentence(to, at, Table::Places, number);
    }
    decimal::put_words(to, at, b"knot")
}

// Where in the file, where the place counts anything.
fn put_place(to: &mut [u8], at: usize, number: u32, place: u32, line: u32) -> usize
    requires { at + longest + 23 ≤ length to.old }
    ensures { Put (at_place number place line) to.old to.new at result }
{
    let after_kind = put_counts(to, at, number, line);
    if after_kind == at {
        return at;
    }
    let after_place = decimal::put_worded(to, after_kind, b" ", place as u64);
    decimal::put_words(to, after_place, b": ")
}

fn put_refused(to: &mut [u8], at: usize, number: u32) -> usize
    requires { at + longest + 31 ≤ length to.old }
    ensures { Put (refused_words number) to.old to.new at result }
{
    let after_number = decimal::put_worded(to, at, b"refused ", number as u64);
    let next = decimal::put_words(to, after_number, b": ");
    let end = put_sentence(to, next, Table::Refusals, number);
    decimal::put_byte(to, end, b'\n')
}

// A refusal, at the front of a buffer: its line of a sheet or 0, its place, its number and its sentence.
pub fn refused_line(to: &mut [u8], number: u32, place: u32, line: u32) -> usize
    requires { 4096 ≤ length to.old }
    ensures { Put (refused_line number place line) to.old to.new 0 result }
{
    let after_line = put_line(to, 0, line);
    let after_place = put_place(to, after_line, number, place, line);
    put_refused(to, after_place, number)
}

// A value of a pre-heater's table that is refused, at the front of a buffer: its line, its place, the number
// and its sentence.
pub fn value_line(to: &mut [u8], number: u32, place: u32, line: u32) -> usize
    requires { 4096 ≤ length to.old }
    ensures { Put (value_line number place line) to.old to.new 0 result }
{
    let after_line = put_line(to, 0, line);
    let after_place = decimal::put_worded(to, after_line, b"value ", place as u64);
    let next = decimal::put_words(to, after_place, b": ");
    put_refused(to, next, number)
}

// A word between quotes, where it can be shown as it is.
fn put_quoted(to: &mut [u8], at: usize, word: &[u8]) -> usize
    requires { at + length word.now + 2 ≤ length to.old }
    ensures { Put (quoted word.now) to.old to.new at result }
{
    let opened = decimal::put_words(to, at, b"'");
    let closed = decimal::put_words(to, opened, word);
    decimal::put_words(to, closed, b"'")
}

#[tactic(auto, unfolding(crate::specs::Said::shown, decimal::specs::Decimal::spelled), using(crate::proofs::Lengths::length_plain))]
fn put_shown(to: &mut [u8], at: usize, line: u32, word: &[u8]) -> usize
    requires { at + 34 ≤ length to.old }
    ensures { Put (shown line word.now) to.old to.new at result }
{
    if line == 0 {
        return decimal::put_words(to, at, b"the text");
    }
    if numeral::plain(word) {
        return put_quoted(to, at, word);
    }
    decimal::put_words(to, at, b"this word")
}

// What is wrong in the text of a sheet, at the front of a buffer: its line, the word that is to blame, and its sentence.
pub fn wrong_line(to: &mut [u8], wrong: u32, line: u32, word: &[u8]) -> usize
    requires { 4096 ≤ length to.old }
    ensures { Put (wrong_line wrong line word.now) to.old to.new 0 result }
{
    let after_line = put_line(to, 0, line);
    let after_word = put_shown(to, after_line, line, word);
    let next = decimal::put_words(to, after_word, b" ");
    let end = put_sentence(to, next, Table::Wrongs, wrong);
    decimal::put_byte(to, end, b'\n')
}

// What is said of a knot that was mended, at the front of a buffer: its line of a sheet or 0, its place, and its new ordinate.
pub fn mended_line(to: &mut [u8], line: u32, knot: u32, new: i32) -> usize
    requires { 4096 ≤ length to.old }
    ensures { Put (mended_line line knot new) to.old to.new 0 result }
{
    let after_line = put_line(to, 0, line);
    let after_knot = decimal::put_worded(to, after_line, b"knot ", knot as u64);
    let next = decimal::put_words(to, after_knot, b": hole, now ");
    decimal::put_field(to, next, new as i64, b'\n')
}
