// How far a card's curve swings beyond its knots: gap by gap, what is read at its whole minutes beside the
// ordinates of its two knots. The card is tested and decoded once, and every minute between two knots read
// once; at a knot the card reads the knot's own ordinate. The public function that takes bytes asks nothing
// of its caller.
#![tactic(auto)]

ghost use Rattle.std.specs.Prelude.{◌≡◌, ◌+◌, ◌≤◌, ◌<◌, min, length, ◌-ℤ◌};
ghost use Rattle.answer.specs.Answer.{refused};
ghost use Rattle.answer.specs.Judge.{number_of};
ghost use Rattle.curve.specs.Card as Held;
ghost use Rattle.knots.specs.Lent.{lent};
ghost use Rattle.decode.specs.Decoded.{decoded};
ghost use Rattle.opened.specs.Readable.{Readable};
ghost use Rattle.card_bytes.specs.Held.{card_of};
ghost use Rattle.card.specs.Answers.{own};
ghost use Rattle.swing.specs.Swing.{surplus, below, above, gap_swing, furthest, first_minute, swung, further, wider, widest_of};

use answer::Refusal;
use decode::Card;
use lists::Lists;
use opened::Opened;

// How far the curve of a card goes beyond the knots of the gap that goes furthest: the gap's left knot, the
// first minute at which the curve is so far beyond, and how far it goes below the lower and above the higher
// of the gap's two knots. Zeros behind a refusal. What C is told.
#[repr(C)]
#[derive(Clone, Copy)]
pub struct Swung {
    pub number: u32,
    pub place: u32,
    pub knot: u32,
    pub minute: u32,
    pub below: u32,
    pub above: u32,
}

#[tactic(auto, unfolding(crate::specs::Swing::swung))]
impl From<Refusal> for Swung {
    ghost from_gives = { λ r answer. (held : Held.Card) → answer ≡ swung (refused (number_of r.reason) r.place) held };

    fn from(refusal: Refusal) -> Swung {
        Swung {
            number: refusal.number(),
            place: refusal.place,
            knot: 0,
            minute: 0,
            below: 0,
            above: 0,
        }
    }
}

// The same of one gap, with the first minute for either side: the left knot's, where the curve stays within.
#[derive(Clone, Copy)]
pub struct GapSwing {
    pub below: u32,
    pub lowest: u16,
    pub above: u32,
    pub highest: u16,
}

// ---- a value

// What one number is more than another; 0 where it is not.
#[tactic(auto, using(std::proofs::lemmas::Int::ints, crate::proofs::Beyond::surplus_none, crate::proofs::Beyond::surplus_is))]
fn surplus(a: i32, b: i32) -> u32
    ensures { result ≡ surplus (a -ℤ b) }
{
    if b < a { a.abs_diff(b) } else { 0 }
}

// How far a value is below both of two ordinates.
#[tactic(auto, using(std::proofs::lemmas::Int::ints), unfolding(crate::specs::Swing::below))]
fn below(y: i16, z: i16, value: i32) -> u32
    ensures { result ≡ below y z value }
{
    surplus(y as i32, value).min(surplus(z as i32, value))
}

// And how far above both.
#[tactic(auto, using(std::proofs::lemmas::Int::ints), unfolding(crate::specs::Swing::above))]
fn above(y: i16, z: i16, value: i32) -> u32
    ensures { result ≡ above y z value }
{
    surplus(value, y as i32).min(surplus(value, z as i32))
}

// ---- a gap

// How far the curve goes to one side, and the minutes from the left knot at which it is first so far.
#[derive(Drop)]
struct Reach {
    by: u32,
    at: u16,
}

impl Reach {
    // Or at a later minute, where it is further there.
    #[tactic(auto, unfolding(crate::specs::Swing::further))]
    fn or(self, by: u32, at: u16) -> Reach
        ensures { result ≡ further self by at }
    {
        if self.by < by {
            return Reach { by, at };
        }
        self
    }
}

// Of the gap from place j: at the minutes between its knots.
fn gap_on(lists: Lists, j: usize) -> GapSwing
    requires { j + 1 < length lists.minutes.now }
    ensures { result ≡ gap_swing (lent lists.entry.minutes.now lists.entry.ordinates.now lists.entry.slopes.now lists.entry.curvatures.now 0 0) j }
{
    let curve = lists.curve(j);
    let start = lists.minutes[j];
    let h = lists.minutes[j + 1] - start;
    let y = lists.ordinates[j];
    let z = lists.ordinates[j + 1];
    let mut low = Reach { by: 0, at: 0 };
    let mut high = Reach { by: 0, at: 0 };
    for t in 1..h {
        let value = curve.value_at(t as i64);
        low = low.or(below(y, z, value), t);
        high = high.or(above(y, z, value), t);
    }
    GapSwing {
        below: low.by,
        lowest: start + low.at,
        above: high.by,
        highest: start + high.at,
    }
}

// ---- a card

#[tactic(auto, unfolding(crate::specs::Swing::furthest))]
fn furthest(g: GapSwing) -> u32
    ensures { result ≡ furthest g }
{
    g.below.max(g.above)
}

#[tactic(auto, unfolding(crate::specs::Swing::first_minute))]
fn first_minute(g: GapSwing) -> u16
    ensures { result ≡ first_minute g }
{
    if g.above < g.below {
        g.lowest
    } else if g.below < g.above {
        g.highest
    } else {
        g.lowest.min(g.highest)
    }
}

// The gap that goes furthest, by the place of its left knot.
#[derive(Drop)]
struct AtKnot {
    knot: usize,
    gap: GapSwing,
}

impl AtKnot {
    // Or a later gap, where it goes further.
    #[tactic(auto, unfolding(crate::specs::Swing::wider))]
    fn or(self, knot: usize, gap: GapSwing) -> AtKnot
        ensures { result ≡ wider self knot gap }
    {
        if furthest(self.gap) < furthest(gap) {
            return AtKnot { knot, gap };
        }
        self
    }
}

fn widest_on(lists: Lists) -> AtKnot
    requires { 2 ≤ length lists.minutes.now }
    ensures { result ≡ widest_of (lent lists.entry.minutes.now lists.entry.ordinates.now lists.entry.slopes.now lists.entry.curvatures.now 0 0) }
{
    let mut widest = AtKnot {
        knot: 0,
        gap: gap_on(lists, 0),
    };
    for j in 1..lists.minutes.len() - 1 {
        widest = widest.or(j, gap_on(lists, j));
    }
    widest
}

// Of the gap from place j of a sound card.
pub fn gap(card: &Card, j: usize) -> GapSwing
    requires readable { Readable card.now }
    requires j_bound { j + 1 < card.now.knots }
    ensures { result ≡ gap_swing (decoded card.now) j }
{
    gap_on(opened::lists(card), j)
}

// Of the gap of a sound card that goes furthest.
fn widest(card: &Card) -> AtKnot
    requires { Readable card.now }
    ensures { result ≡ widest_of (decoded card.now) }
{
    widest_on(opened::lists(card))
}

// Of a card's bytes: the card's refusals.
pub fn swing(card: &[u8]) -> Swung
    ensures { result ≡ swung (own card.now) (card_of card.now) }
{
    let opened = Opened::by_head(card);
    match opened.verdict {
        Err(refusal) => Swung::from(refusal),
        Ok(()) => {
            let widest = widest(&opened.card);
            let gap = widest.gap;
            Swung {
                number: 0,
                place: 0,
                knot: widest.knot as u32,
                minute: first_minute(gap) as u32,
                below: gap.below,
                above: gap.above,
            }
        }
    }
}
