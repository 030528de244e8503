// What stands on lent lists and needs the curve's arithmetic: 10 knot by knot, the orders of 9 and 10, and the reading at a minute.
// Document 01, "Numbers of refusal" and "The exact curve". The lists are minutes, ordinates, slopes and curvatures.
#![tactic(auto)]

ghost use Rattle.std.specs.Prelude.{◌≡◌, ◌||◌, ℕ, ◌+◌, ◌<◌, ◌≤◌, ◌^◌, length, pos};
ghost use Rattle.answer.specs.Answer.{accepted, refused, given, refuse, each};
ghost use Rattle.answer.specs.Judge.{number_of, verdict_of};
ghost use Rattle.curve.specs.Kind.{quintic, end};
ghost use Rattle.curve.specs.Steps.{stands, smooth};
ghost use Rattle.curve.specs.Orders.{numbers_sound, sound};
ghost use Rattle.knots.specs.Kinds.{kind_of};
ghost use Rattle.knots.specs.Lent.{lent, card_lent};
ghost use Rattle.jumps.specs.Sides.{order_of};
ghost use Rattle.jumps.specs.declared.Order.TheVariants.{Third, Fourth};
ghost use Rattle.jumps.specs.Limits.{Meeting};
ghost use Rattle.lists.specs.Lists.{Long, Checked, InPlace, numbers_at, code_of, square_of, spans_at, jumps_of, curve_of, spelt, spell_of, answered, answer_at};

use answer::{Judged, Reason, Refusal};
use gap_curve::GapCurve;
use gaps::Knot;
use jumps::{Order, Span, Spans};
use knots::{Kind, Lent};
use minutes::Left;
use reading::Reading;

// ---- 10

// A knot's numbers, as wide as the curve's arithmetic takes them.
pub fn knot_at(ys: &[i16], ms: &[i32], cs: &[i32], i: usize) -> Knot
    requires { (i < length ys.now) × (i < length ms.now) × (i < length cs.now) }
    ensures { result ≡ numbers_at ys.now ms.now cs.now i }
{
    Knot {
        ordinate: ys[i] as i64,
        slope: ms[i] as i64,
        curvature: cs[i] as i64,
    }
}

// The code by which a knot is tested. An inner knot is tested as a free end is.
#[tactic(auto, unfolding(crate::specs::Lists::code_of))]
pub fn code_at(left: u16, right: u16, n: usize, i: usize) -> u16
    requires { i < n }
    ensures { result ≡ code_of left right n i }
{
    if i == 0 {
        left
    } else if i == n - 1 {
        right
    } else {
        0
    }
}

// "At a free end both; with code 2 the fourth only; with code 1 nothing".
#[tactic(auto, unfolding(curve::specs::Kind::quintic, curve::specs::Kind::quintic_asks))]
pub fn asks(kind: Kind, order: Order, code: u16) -> bool
    ensures { result ≡ (kind_of kind).asks (end code) (order_of order) }
{
    match order {
        Order::Third => code == 0,
        Order::Fourth => kind.fourth && (code == 0 || code == 2),
    }
}

// Whether a derivative jumps at a knot between two gaps where its code asks for it.
fn jumps_at(kind: Kind, order: Order, code: u16, before: Span, after: Span) -> bool
    requires { Meeting before after }
    ensures { result ≡ jumps_of kind order code before after }
{
    asks(kind, order, code) && jumps::meet(before, after)
}

// At a knot between two gaps.
#[tactic(auto, unfolding(answer::specs::Answer::refuse))]
fn rough_at(kind: Kind, code: u16, before: Spans, after: Spans, place: u32) -> Judged
    requires meeting { Meeting before.third after.third }
    requires meeting_2 { Meeting before.fourth after.fourth }
    ensures { verdict_of result ≡ refuse 10 place (jumps_of kind Third code before.third after.third || jumps_of kind Fourth code before.fourth after.fourth) }
{
    let jumps = jumps_at(kind, Order::Third, code, before.third, after.third)
        || jumps_at(kind, Order::Fourth, code, before.fourth, after.fourth);
    answer::refuse(Reason::Jump, place, jumps)
}

// ---- a reading

// What a card reads at a minute, and the looks for the minute's gap; zeros beside the number and place of a refusal.
#[repr(C)]
#[derive(Drop)]
pub struct CardReading {
    pub number: u32,
    pub place: u32,
    pub value: i32,
    pub slope: i32,
    pub curvature: i32,
    pub looks: u32,
}

impl CardReading {
    pub fn refused(number: u32, place: u32) -> CardReading
        ensures { result ≡ answered 0 (refused number place) }
    {
        CardReading {
            number,
            place,
            value: 0,
            slope: 0,
            curvature: 0,
            looks: 0,
        }
    }
}

impl From<Refusal> for CardReading {
    ghost from_gives = { λ r reading. reading ≡ answered 0 (refused (number_of r.reason) r.place) };

    fn from(refusal: Refusal) -> CardReading {
        CardReading::refused(refusal.number(), refusal.place)
    }
}

// Where a minute falls: how wide its gap is, the minutes from the gap's left knot, and what both knots have.
#[derive(Drop)]
pub struct Spell {
    pub h: i64,
    pub t: i64,
    pub from: Knot,
    pub to: Knot,
}

// ---- lists that 4, 5, 6 and 9 accept

#[derive(Clone, Copy)]
pub struct Lists<'a> {
    pub minutes: &'a [u16],
    pub ordinates: &'a [i16],
    pub slopes: &'a [i32],
    pub curvatures: &'a [i32],
    pub ghost checked: { Checked minutes.now ordinates.now slopes.now curvatures.now },
}

impl<'a> Lists<'a> {
    // Knot i, as wide as the curve's arithmetic takes it.
    pub fn knot(self, i: usize) -> Knot
        requires { i < length self.minutes.now }
        ensures { result ≡ numbers_at self.entry.ordinates.now self.entry.slopes.now self.entry.curvatures.now i }
    {
        knot_at(self.ordinates, self.slopes, self.curvatures, i)
    }

    // What the gap on the right of a knot gives to the tests at both of its knots; at the last knot there is
    // none. The fourth's is left out where the kind does not ask for it.
    fn spans(self, kind: Kind, i: usize) -> Spans
        requires { i < length self.minutes.now }
        ensures { (result ≡ spans_at kind self.entry.minutes.now self.entry.ordinates.now self.entry.slopes.now self.entry.curvatures.now i) × (square_of kind Third < 2 ^ 8) }
    {
        let after = self.knot(minutes::on(self.minutes.len(), i));
        let h = minutes::right_gap(self.minutes, i) as i64;
        Spans::of(kind.fourth, kind.squares as i64, h, self.knot(i), after)
    }

    // 10, knot by knot, each gap worked out once.
    fn smooth(self, kind: Kind, left: u16, right: u16) -> Judged
        ensures { verdict_of result ≡ each (smooth (kind_of kind) (lent self.entry.minutes.now self.entry.ordinates.now self.entry.slopes.now self.entry.curvatures.now left right)) 0 (length self.entry.minutes.now) }
    {
        let n = self.minutes.len();
        let mut before = Spans::none();
        for i in 0..n {
            let code = code_at(left, right, n, i);
            let after = self.spans(kind, i);
            rough_at(kind, code, before, after, i as u32)?;
            before = after;
        }
        Ok(())
    }

    // The curve of the gap from place i, for all of its minutes.
    pub fn curve(self, i: usize) -> GapCurve
        requires { i + 1 < length self.minutes.now }
        ensures { result ≡ curve_of self.entry.minutes.now self.entry.ordinates.now self.entry.slopes.now self.entry.curvatures.now i }
    {
        let h = self.minutes[i + 1] - self.minutes[i];
        GapCurve::of(h as i64, self.knot(i), self.knot(i + 1))
    }

    // A minute of the gap from place i.
    pub fn spell(self, i: usize, minute: u16) -> Spell
        requires { InPlace self.minutes.now i minute }
        ensures { result ≡ spelt self.entry.minutes.now self.entry.ordinates.now self.entry.slopes.now self.entry.curvatures.now i minute }
    {
        let from = self.minutes[i];
        let to = self.minutes[i + 1];
        Spell {
            h: (to - from) as i64,
            t: (minute - from) as i64,
            from: self.knot(i),
            to: self.knot(i + 1),
        }
    }

    // At a minute of the one gap that the looks have left.
    fn read_gap(self, gap: Left, minute: u16) -> CardReading
        requires { InPlace self.minutes.now gap.first minute }
        ensures { (left right : ℕ) → result ≡ answered gap.looks (given (spell_of (lent self.entry.minutes.now self.entry.ordinates.now self.entry.slopes.now self.entry.curvatures.now left right) gap.first minute)) }
    {
        let spell = self.spell(gap.first, minute);
        let r = Reading::between(spell.h, spell.t, spell.from, spell.to);
        CardReading {
            number: 0,
            place: 0,
            value: r.value,
            slope: r.slope,
            curvature: r.curvature,
            looks: gap.looks,
        }
    }

    // 11, or what the lists read at the minute.
    pub fn read_at(self, minute: u16) -> CardReading
        requires { 2 ≤ length self.minutes.now }
        ensures { (left right : ℕ) → result ≡ answer_at accepted (lent self.entry.minutes.now self.entry.ordinates.now self.entry.slopes.now self.entry.curvatures.now left right) minute }
    {
        match minutes::outside(self.minutes, minute) {
            Err(refusal) => CardReading::from(refusal),
            Ok(()) => self.read_gap(minutes::find(self.minutes, minute), minute),
        }
    }
}

// ---- the orders

// "9; 10", of lists that 4, 5 and 6 accept.
pub fn numbers_sound(kind: Kind, card: Lent<'_>) -> Judged
    requires long { Long card.minutes.now card.ordinates.now card.slopes.now card.curvatures.now }
    requires stand { each (stands quintic card.minutes.now card.ordinates.now) 0 (length card.minutes.now) ≡ accepted }
    ensures { verdict_of result ≡ numbers_sound (kind_of kind) (card_lent card.entry) }
{
    knots::in_range(card.minutes, card.slopes, card.curvatures)?;
    let lists = Lists {
        minutes: card.minutes,
        ordinates: card.ordinates,
        slopes: card.slopes,
        curvatures: card.curvatures,
    };
    lists.smooth(kind, card.left, card.right)
}

// "Per knot 4, 5, 6; 9; 10."
pub fn sound(kind: Kind, card: Lent<'_>) -> Judged
    requires { Long card.minutes.now card.ordinates.now card.slopes.now card.curvatures.now }
    ensures { verdict_of result ≡ sound (kind_of kind) (card_lent card.entry) }
{
    knots::stand(card.minutes, card.ordinates)?;
    numbers_sound(kind, card)
}
