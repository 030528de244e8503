// What a card reads at minute after minute: its bytes are tested and decoded once, and each minute is read off what was decoded. Document 01, "The exact curve" and "Numbers of refusal".
// The public function asks nothing of its caller.
#![tactic(auto)]

ghost use Rattle.std.specs.Prelude.{◌≡◌, ℕ, ◌+◌, ◌-◌, ◌≤◌, ◌<◌, ◌^◌, length, get_or};
ghost use Rattle.answer.specs.Answer.{accepted, refused};
ghost use Rattle.answer.specs.Judge.{number_of, verdict_of};
ghost use Rattle.curve.specs.Steps.{outside};
ghost use Rattle.knots.specs.Lent.{lent};
ghost use Rattle.lists.specs.Lists.{answer_at};
ghost use Rattle.decode.specs.Decoded.{decoded};
ghost use Rattle.opened.specs.Readable.{Readable};
ghost use Rattle.table.specs.Table.{table_order, count, tabled, Stops};
ghost use Rattle.table.specs.Promise.{columns, Given, Tables};

use answer::{Judged, Refusal};
use decode::Card;
use lists::Lists;
use opened::Opened;

// What C is told. Zeros behind a refusal.
#[repr(C)]
#[derive(Drop)]
pub struct Tabled {
    pub number: u32,
    pub place: u32,
    pub count: u32,
}

#[tactic(auto, unfolding(crate::specs::Table::tabled))]
impl From<Refusal> for Tabled {
    ghost from_gives = { λ r answer. (count : ℕ) → answer ≡ tabled (refused (number_of r.reason) r.place) count };

    fn from(refusal: Refusal) -> Tabled {
        Tabled {
            number: refusal.number(),
            place: refusal.place,
            count: 0,
        }
    }
}

// ---- the order

// 3, the card's, 11.
#[tactic(auto, using(answer::proofs::Orders::orders), unfolding(crate::specs::Table::table_order))]
fn judged(opened: &Opened, from: u16, values: usize, slopes: usize, curvatures: usize) -> Judged
    requires { verdict_of opened.now.verdict ≡ accepted → Readable opened.now.card }
    ensures { verdict_of result ≡ table_order values slopes curvatures (verdict_of opened.now.verdict) (decoded opened.now.card).minutes from }
{
    knots::same_lengths(values, slopes, curvatures, curvatures)?;
    opened.verdict?;
    minutes::outside(opened::lists(&opened.card).minutes, from)
}

// ---- the readings

// As many as there are places, or as the card has minutes left.
#[tactic(auto, unfolding(crate::specs::Table::minutes_left, crate::specs::Table::count))]
fn count(xs: &[u16], from: u16, places: usize) -> usize
    requires xs_nonzero { 0 < length xs.now }
    requires from_bound { from ≤ get_or xs.now (length xs.now - 1) 0 }
    ensures { (result ≡ count xs.now from places) × (from + result ≤ 2 ^ 16) }
{
    let last = xs[xs.len() - 1];
    let left = (last - from) as usize + 1;
    left.min(places)
}

// How many readings there are before those of the next gap, from the gap at place j on.
fn stop(xs: &[u16], from: u16, count: usize, j: usize) -> usize
    requires j_in_bounds { j + 1 < length xs.now }
    requires from_bound { j + 2 < length xs.now → from ≤ get_or xs.now (j + 1) 0 }
    ensures { Stops xs.now from count j result }
{
    if j + 2 == xs.len() {
        return count;
    }
    let before = (xs[j + 1] - from) as usize;
    before.min(count)
}

// Off lists that are sound, over the fronts of three lists that have room: gap after gap, each gap's curve laid
// once.
fn fill(
    lists: Lists,
    from: u16,
    count: usize,
    values: &mut [i32],
    slopes: &mut [i32],
    curvatures: &mut [i32],
)
    requires in_bounds { (2 ≤ length lists.minutes.now) × (get_or lists.minutes.now 0 0 ≤ from) × (from + count ≤ get_or lists.minutes.now (length lists.minutes.now - 1) 0 + 1) }
    requires count_in_bounds { (count ≤ length values.old) × (count ≤ length slopes.old) × (count ≤ length curvatures.old) }
    ensures { Given (λ i. answer_at accepted (lent lists.entry.minutes.now lists.entry.ordinates.now lists.entry.slopes.now lists.entry.curvatures.now 0 0) (from + i)) count
        (columns values.entry slopes.entry curvatures.entry)
        (columns values.exit slopes.exit curvatures.exit) }
{
    let xs = lists.minutes;
    let gap = minutes::find(xs, from);
    let mut done: usize = 0;
    for j in gap.first..xs.len() - 1 {
        if done == count {
            break;
        }
        let curve = lists.curve(j);
        let start = xs[j];
        let stop = stop(xs, from, count, j);
        for i in done..stop {
            let r = curve.at((from + i as u16 - start) as i64);
            values[i] = r.value;
            slopes[i] = r.slope;
            curvatures[i] = r.curvature;
        }
        done = stop;
    }
}

// A sound card's, from a minute of it on; how many they are.
fn give(
    card: &Card,
    from: u16,
    values: &mut [i32],
    slopes: &mut [i32],
    curvatures: &mut [i32],
) -> usize
    requires readable { Readable card.now }
    requires from_value { outside (decoded card.now).minutes from ≡ accepted }
    requires slopes_len { (length slopes.old ≡ length values.old) × (length curvatures.old ≡ length values.old) }
    ensures value { (result ≡ count (decoded card.now).minutes from (length values.old)) × (from + result ≤ 2 ^ 16) }
    ensures given { Given (λ i. answer_at accepted (decoded card.now) (from + i)) result
        (columns values.entry slopes.entry curvatures.entry)
        (columns values.exit slopes.exit curvatures.exit) }
{
    let lists = opened::lists(card);
    let count = count(lists.minutes, from, values.len());
    fill(lists, from, count, values, slopes, curvatures);
    count
}

// 3, the card's, 11. On acceptance the first `count` places of each list are written.
pub fn table(
    card: &[u8],
    from: u16,
    values: &mut [i32],
    slopes: &mut [i32],
    curvatures: &mut [i32],
) -> Tabled
    ensures { Tables card.now from
        (columns values.entry slopes.entry curvatures.entry)
        (columns values.exit slopes.exit curvatures.exit) result }
{
    let opened = Opened::by_head(card);
    match judged(&opened, from, values.len(), slopes.len(), curvatures.len()) {
        Err(refusal) => Tabled::from(refusal),
        Ok(()) => {
            let count = give(&opened.card, from, values, slopes, curvatures);
            Tabled {
                number: 0,
                place: 0,
                count: count as u32,
            }
        }
    }
}
