// The library's archive for C: each function of the boundary under its own name, with the clauses that it has there. What each does, and what is
// promised of it, is said in the crate `kaihveto`, which Rattle crates call.
#![tactic(auto)]

ghost use Rattle.std.specs.Prelude.{◌≡◌, length};
ghost use Rattle.curve.specs.Log.{mean};
ghost use Rattle.little_endian.specs.Numbers.{Bytes};
ghost use Rattle.knots.specs.Lent.{lent};
ghost use Rattle.log_mean.specs.Answers.{answered};
ghost use Rattle.fit.specs.Fit.{fit, fit_codes};
ghost use Rattle.fit.specs.Promise.{Fits};
ghost use Rattle.slope_fit.specs.SlopesFit.{slopes_fit};
ghost use Rattle.curve.specs.Kind.{quintic, sloped};
ghost use Rattle.card_bytes.specs.Held.{card_of};
ghost use Rattle.card_bytes.specs.Records.{kind_by};
ghost use Rattle.card.specs.Answers.{own, checked, read_off};
ghost use Rattle.card.specs.Promise.{lists, Reads};
ghost use Rattle.table.specs.Promise.{columns, Tables};
ghost use Rattle.swing.specs.Swing.{swung};
ghost use Rattle.explain.specs.Explain.{explain};
ghost use Rattle.preheat.specs.Preheat.{preheat, heated};
ghost use Rattle.writer.specs.Promise.{Writes};
ghost use Rattle.refit.specs.Promise.{Refits};
ghost use Rattle.holes.specs.Hole.{mended};
ghost use Rattle.mend.specs.Changes.{changes as changes_of};
ghost use Rattle.mend.specs.Order.{mend};
ghost use Rattle.mend.specs.Promise.{Mends};
ghost use Rattle.book.specs.Lookup.{spot};
ghost use Rattle.book_put.specs.Put.{put, Puts};
ghost use Rattle.book_remove.specs.Remove.{remove};
ghost use Rattle.kaihveto.specs.Types.{Minutes, Room};
ghost use Rattle.kaihveto.specs.Version.{version};

// The version in one number, so that a program can see that the library and the header which it was compiled with belong together.
#[unsafe(no_mangle)]
pub extern "C" fn kaihveto_version() -> u32
    ensures { result ≡ version 6 3 }
{
    kaihveto::kaihveto_version()
}

// The mean of a log from its first minute on, the minute for which it stands, and how many of its bytes are good and how many are faults: 16, 12, 13, 23, 19.
#[unsafe(no_mangle)]
pub extern "C" fn kaihveto_mean(first: u16, log: &[u8]) -> log_mean::Mean
    ensures value { result ≡ answered (mean first log.now) }
    ensures typed { Bytes log.now }
{
    kaihveto::kaihveto_mean(first, log)
}

// Slopes and curvatures of the curve through the knots, without naming ends: at rest at the left, free at the right, so that the card's codes are 1 and 0. 3, 1, 2; per knot 4, 5, 6; 8; 9; 10.
#[unsafe(no_mangle)]
pub extern "C" fn kaihveto_fit(
    minutes: &[u16],
    ordinates: &[i16],
    slopes: &mut [i32],
    curvatures: &mut [i32],
) -> fit::Fitted
    ensures { Fits
        (fit minutes.now ordinates.now (length slopes.old) (length curvatures.old))
        slopes.old curvatures.old slopes.new curvatures.new result }
{
    kaihveto::kaihveto_fit(minutes, ordinates, slopes, curvatures)
}

// The same between ends by their codes, with 15 after 2 and 7 after 6. Numbers that a code does not use are not looked at.
#[unsafe(no_mangle)]
pub extern "C" fn kaihveto_fit_ends(
    minutes: &[u16],
    ordinates: &[i16],
    slopes: &mut [i32],
    curvatures: &mut [i32],
    left: u16,
    left_slope: f64,
    left_curvature: f64,
    right: u16,
    right_slope: f64,
    right_curvature: f64,
) -> fit::Fitted
    ensures { Fits
        (fit_codes minutes.now ordinates.now (length slopes.old) (length curvatures.old)
        left left_slope left_curvature right right_slope right_curvature)
        slopes.old curvatures.old slopes.new curvatures.new result }
{
    kaihveto::kaihveto_fit_ends(
        minutes,
        ordinates,
        slopes,
        curvatures,
        left,
        left_slope,
        left_curvature,
        right,
        right_slope,
        right_curvature,
    )
}

// The curvatures of the curve through the knots with these slopes, in card units: 3, 1, 2; per knot 4, 5, 6;
// 9 for the slopes; 8; 9; 10.
#[unsafe(no_mangle)]
pub extern "C" fn kaihveto_fit_slopes(
    minutes: &[u16],
    ordinates: &[i16],
    slopes: &[i32],
    curvatures: &mut [i32],
) -> fit::Fitted
    ensures { Fits
        (slopes_fit minutes.now ordinates.now slopes.now (length curvatures.old))
        slopes.now curvatures.old slopes.now curvatures.new result }
{
    kaihveto::kaihveto_fit_slopes(minutes, ordinates, slopes, curvatures)
}

// A card's bytes, at the front of the buffer: 3, 1, 2, 15; per knot 4, 5, 6; 9; 10; 26.
#[unsafe(no_mangle)]
pub extern "C" fn kaihveto_write(
    minutes: &[u16],
    ordinates: &[i16],
    slopes: &[i32],
    curvatures: &[i32],
    left: u16,
    right: u16,
    buffer: &mut [u8],
) -> writer::Written
    ensures writes { Writes quintic
        (lent minutes.now ordinates.now slopes.now curvatures.now left right)
        buffer.old buffer.new result }
    ensures typed { Minutes minutes.now }
{
    kaihveto::kaihveto_write(minutes, ordinates, slopes, curvatures, left, right, buffer)
}

// The same of a card whose slopes were given, which has no codes: 3, 1, 2; per knot 4, 5, 6; 9; 10; 26.
#[unsafe(no_mangle)]
pub extern "C" fn kaihveto_write_slopes(
    minutes: &[u16],
    ordinates: &[i16],
    slopes: &[i32],
    curvatures: &[i32],
    buffer: &mut [u8],
) -> writer::Written
    ensures writes { Writes sloped
        (lent minutes.now ordinates.now slopes.now curvatures.now 0 0)
        buffer.old buffer.new result }
    ensures typed { Minutes minutes.now }
{
    kaihveto::kaihveto_write_slopes(minutes, ordinates, slopes, curvatures, buffer)
}

// The test of a card's bytes: head 14; 1, 2; 15; the other records 14; per knot 4, 5, 6; 9; 10.
#[unsafe(no_mangle)]
pub extern "C" fn kaihveto_check(card: &[u8]) -> card::Checked
    ensures value { result ≡ checked (own card.now) (kind_by card.now) (card_of card.now) }
    ensures typed { Bytes card.now }
{
    kaihveto::kaihveto_check(card)
}

// A card's numbers, at the front of four lists: 3, the card's, 26.
#[unsafe(no_mangle)]
pub extern "C" fn kaihveto_read(
    card: &[u8],
    minutes: &mut [u16],
    ordinates: &mut [i16],
    slopes: &mut [i32],
    curvatures: &mut [i32],
) -> card::Checked
    ensures { Reads card.now
        (lists minutes.entry ordinates.entry slopes.entry curvatures.entry)
        (lists minutes.exit ordinates.exit slopes.exit curvatures.exit) result }
{
    kaihveto::kaihveto_read(card, minutes, ordinates, slopes, curvatures)
}

// What a card reads at a minute: the card's, then 11.
#[unsafe(no_mangle)]
pub extern "C" fn kaihveto_reading(card: &[u8], minute: u16) -> lists::CardReading
    ensures { result ≡ read_off card.now minute }
{
    kaihveto::kaihveto_reading(card, minute)
}

// What a card reads at the minutes from one on, at the front of three lists: 3, the card's, 11.
#[unsafe(no_mangle)]
pub extern "C" fn kaihveto_table(
    card: &[u8],
    from: u16,
    values: &mut [i32],
    slopes: &mut [i32],
    curvatures: &mut [i32],
) -> table::Tabled
    ensures { Tables card.now from
        (columns values.entry slopes.entry curvatures.entry)
        (columns values.exit slopes.exit curvatures.exit) result }
{
    kaihveto::kaihveto_table(card, from, values, slopes, curvatures)
}

// How far a card's readings at whole minutes go beyond the two knots of a gap, in the gap that goes furthest:
// the card's.
#[unsafe(no_mangle)]
pub extern "C" fn kaihveto_swing(card: &[u8]) -> swing::Swung
    ensures { result ≡ swung (own card.now) (card_of card.now) }
{
    kaihveto::kaihveto_swing(card)
}

// What a reading is made of, and the jump that a card is refused for with 10: the card's, then 11.
#[unsafe(no_mangle)]
pub extern "C" fn kaihveto_explain(card: &[u8], minute: u16) -> explain::Explained
    ensures { result ≡ explain card.now minute }
{
    kaihveto::kaihveto_explain(card, minute)
}

// The pre-heater's set value, of a table of equal steps, at a whole count of parts from its first value: 1, 24, 6;
// 25; 11.
#[unsafe(no_mangle)]
pub extern "C" fn kaihveto_preheat(values: &[i16], parts: u16, count: u16) -> preheat::Heated
    ensures { result ≡ heated (preheat values.now parts count) }
{
    kaihveto::kaihveto_preheat(values, parts, count)
}

// The slopes and curvatures of a card's own knots fitted anew, at the front of two lists, and how many of the card's are others: 3, the card's, 26; 8; 9; 10.
#[unsafe(no_mangle)]
pub extern "C" fn kaihveto_refit(
    card: &[u8],
    slopes: &mut [i32],
    curvatures: &mut [i32],
) -> refit::Refitted
    ensures { Refits card.now slopes.old curvatures.old slopes.new curvatures.new result }
{
    kaihveto::kaihveto_refit(card, slopes, curvatures)
}

// Where the card of a room stands in a book: 14, 22, 20, then the card's own, its places counted in the card.
#[unsafe(no_mangle)]
pub extern "C" fn kaihveto_book_find(book: &[u8], room: u16) -> book::Spot
    ensures { result ≡ spot room book.now }
{
    kaihveto::kaihveto_book_find(book, room)
}

// A card put into a book for a room, or in place of the one there: 14, 22, the new card's own, 21.
#[unsafe(no_mangle)]
pub extern "C" fn kaihveto_book_put(book: &mut [u8], room: u16, card: &[u8]) -> book::Used
    ensures puts { Puts (put room card.now book.old) book.old book.new result }
    ensures typed { Bytes book.old × Room room }
{
    kaihveto::kaihveto_book_put(book, room, card)
}

// A room taken out of a book: 14, 22, 20; no card is tested.
#[unsafe(no_mangle)]
pub extern "C" fn kaihveto_book_remove(book: &mut [u8], room: u16) -> book::Used
    ensures puts { Puts (remove room book.old) book.old book.new result }
    ensures typed { Bytes book.old × Room room }
{
    kaihveto::kaihveto_book_remove(book, room)
}

// A sheet with holes mended and fitted between free ends, with the changes at the front of a list: 3, 1, 2; per knot 4, 5, 6; 17; 18; 8; 9; 10.
#[unsafe(no_mangle)]
pub extern "C" fn kaihveto_mend<'a>(
    minutes: &'a [u16],
    ordinates: &'a mut [i16],
    slopes: &'a mut [i32],
    curvatures: &'a mut [i32],
    changes: &'a mut [mend::Change],
) -> mend::Mended
    ensures { Mends
        (mend minutes.now ordinates.old (length slopes.old) (length curvatures.old) (length changes.old))
        (changes_of ordinates.old (mended minutes.now ordinates.old))
        ordinates.old slopes.old curvatures.old changes.old
        ordinates.new slopes.new curvatures.new changes.new result }
{
    kaihveto::kaihveto_mend(minutes, ordinates, slopes, curvatures, changes)
}
