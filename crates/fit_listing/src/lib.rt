// What the fitter prints of a sheet: the listing of its fit without ends. Document 01, "Two programs", and document 02, orders 4 and 6.
#![tactic(auto)]

ghost use Rattle.std.specs.Prelude.{◌≡◌, ◌+◌, ◌*◌, ◌^◌, ◌≤◌, ◌<◌, length};
ghost use Rattle.decimal.specs.Put.{Put};
ghost use Rattle.listing.specs.Text.{longest_line};
ghost use Rattle.gather.specs.Gathered.{most};
ghost use Rattle.fit_listing.specs.Printed.{fit_listing, listed};

use gather::Gathered;

fn list_fit(
    minutes: &[u16],
    ordinates: &[i16],
    slopes: &mut [i32],
    curvatures: &mut [i32],
    faults: &[Option<u8>; Gathered::MOST],
    text: &mut [u8],
) -> usize
    requires ordinates_len { (length ordinates.now ≡ length minutes.now) × (length slopes.old ≡ length minutes.now) × (length curvatures.old ≡ length minutes.now) }
    requires minutes_len_bound { (length minutes.now ≤ most) × (longest_line * length minutes.now + 33 ≤ length text.old) }
    ensures { Put (fit_listing minutes.now ordinates.now slopes.old curvatures.old faults.now) text.old text.new 0 result }
{
    let fitted = fit::fit(minutes, ordinates, slopes, curvatures);
    listing::list(
        fitted.number,
        fitted.place,
        minutes,
        ordinates,
        slopes,
        curvatures,
        |i| faults[i],
        text,
    )
}

// The listing of a sheet at the front of a buffer, and its length.
pub fn list_sheet(sheet: Gathered, text: &mut [u8]) -> usize
    requires { (sheet.knots ≤ most) × (4096 ≤ length text.old) }
    ensures { Put (listed sheet) text.old text.new 0 result }
{
    if sheet.number != 0 {
        return listing::refused_line(text, 0, sheet.number, sheet.place);
    }
    let n = sheet.knots;
    let minutes = sheet.minutes;
    let ordinates = sheet.ordinates;
    let faults = sheet.faults;
    let mut slopes = [0i32; Gathered::MOST];
    let mut curvatures = [0i32; Gathered::MOST];
    list_fit(
        &minutes[..n],
        &ordinates[..n],
        &mut slopes[..n],
        &mut curvatures[..n],
        &faults,
        text,
    )
}
