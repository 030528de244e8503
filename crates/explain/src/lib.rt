// Why did it say that: what a reading off a card is made of, and which jump a card was refused for. Document
// 02, order 9. The numbers are those that the reading and the jump test take; the card is tested and decoded
// once. The public function asks nothing of its caller.
#![tactic(auto)]

ghost use Rattle.std.specs.Prelude.{◌≡◌, ℕ, ◌≤◌, ◌<◌, ◌^◌, pos, length};
ghost use Rattle.answer.specs.Answer.{accepted};
ghost use Rattle.answer.specs.Judge.{number_of};
ghost use Rattle.curve.specs.Curve.{degree};
ghost use Rattle.curve.specs.Kind as Curve;
ghost use Rattle.curve.specs.Card.{joint};
ghost use Rattle.knots.specs.Kinds.{kind_of};
ghost use Rattle.knots.specs.Lent.{lent};
ghost use Rattle.jumps.specs.Sides.{order_of};
ghost use Rattle.lists.specs.Lists.{InPlace, square_of};
ghost use Rattle.decode.specs.Decoded.{decoded};
ghost use Rattle.opened.specs.Readable.{Readable};
ghost use Rattle.explain.specs.Explain.{parted, jump_at, because, reason, zeros, explained, explain, sum, sizes};

use answer::{Reason, Refusal};
use decode::Card;
use jumps::Order;
use knots::Kind;
use lists::Lists;
use opened::Opened;
use parts::Parts;
use weights::Quantity;

// Of a reading: its gap, by the place of the left knot; the minutes from that knot; the six parts of the
// value's numerator, those of the right knot marked 1 and its slope's with the minus, and what they are over.
// Of a card that is refused with 10: the knot; 3 or 4 for the third or the fourth derivative; how far that
// jumps, and what is allowed, both over the product of the adjoining gaps' cubes or fourth powers, at an end
// over the one gap's. What is not told is 0. It is what C is told.
#[repr(C)]
#[derive(Clone, Copy)]
pub struct Explained {
    pub number: u32,
    pub place: u32,
    pub gap: u32,
    pub minutes: u32,
    pub ordinate: i64,
    pub ordinate1: i64,
    pub slope: i64,
    pub slope1: i64,
    pub curvature: i64,
    pub curvature1: i64,
    pub denominator: i64,
    pub knot: u32,
    pub order: u32,
    pub jump: i64,
    pub allowance: i64,
}

impl From<Refusal> for Explained {
    ghost from_gives = { λ r answer. answer ≡ zeros (number_of r.reason) r.place };

    fn from(refusal: Refusal) -> Explained {
        Explained {
            number: refusal.number(),
            place: refusal.place,
            ..Explained::none()
        }
    }
}

impl Explained {
    fn none() -> Explained
        ensures { result ≡ zeros 0 0 }
    {
        Explained {
            number: 0,
            place: 0,
            gap: 0,
            minutes: 0,
            ordinate: 0,
            ordinate1: 0,
            slope: 0,
            slope1: 0,
            curvature: 0,
            curvature1: 0,
            denominator: 0,
            knot: 0,
            order: 0,
            jump: 0,
            allowance: 0,
        }
    }

    // The numerator of the exact value: the parts together.
    #[tactic(auto, using(std::proofs::lemmas::Int::ints), unfolding(crate::specs::Explain::sum, crate::specs::Explain::sizes))]
    pub fn sum(self) -> i64
        requires { sizes self < 2 ^ 63 }
        ensures { result ≡ sum self }
    {
        self.ordinate + self.ordinate1 + self.slope + self.slope1 + self.curvature + self.curvature1
    }
}

// ---- a reading

// At a minute of the gap from place i.
fn parted(lists: Lists, i: usize, minute: u16) -> Explained
    requires { InPlace lists.minutes.now i minute }
    ensures value { result ≡ parted (lent lists.entry.minutes.now lists.entry.ordinates.now lists.entry.slopes.now lists.entry.curvatures.now 0 0) i minute }
    ensures fits { sizes result < 2 ^ 63 }
{
    let spell = lists.spell(i, minute);
    let parts = Parts::of(Quantity::Value, spell.h, spell.t, spell.from, spell.to);
    Explained {
        gap: i as u32,
        minutes: spell.t as u32,
        ordinate: parts.left.ordinate,
        ordinate1: parts.right.ordinate,
        slope: parts.left.slope,
        slope1: parts.right.slope,
        curvature: parts.left.curvature,
        curvature1: parts.right.curvature,
        denominator: parts::denominator(Quantity::Value, spell.h) as i64,
        ..Explained::none()
    }
}

// 11, or the parts of what is read.
fn parts_at(lists: Lists, minute: u16) -> Explained
    requires { 2 ≤ length lists.minutes.now }
    ensures value { (K : Curve.Kind) (left right : ℕ) → result ≡ explained K accepted (lent lists.entry.minutes.now lists.entry.ordinates.now lists.entry.slopes.now lists.entry.curvatures.now left right) minute }
    ensures fits { sizes result < 2 ^ 63 }
{
    match minutes::outside(lists.minutes, minute) {
        Err(refusal) => Explained::from(refusal),
        Ok(()) => {
            let gap = minutes::find(lists.minutes, minute);
            parted(lists, gap.first, minute)
        }
    }
}

// ---- a refusal with 10

// How far a derivative jumps at a knot, to either side, and what is allowed.
#[derive(Drop)]
pub struct Jump {
    pub size: i64,
    pub allowance: i64,
}

impl Jump {
    // As the reason of a refusal at a place.
    #[tactic(auto, using(std::proofs::lemmas::Int::ints), unfolding(crate::specs::Explain::because))]
    fn because(self, place: u32, order: Order) -> Explained
        ensures { result ≡ because place (degree (order_of order)) self }
    {
        Explained {
            number: Reason::Jump.number(),
            place,
            knot: place,
            order: order.number(),
            jump: self.size,
            allowance: self.allowance,
            ..Explained::none()
        }
    }
}

// How many g2 or g3 a side's allowance has.
#[tactic(auto, using(std::proofs::lemmas::Int::ints))]
fn squares(kind: Kind, order: Order) -> i64
    ensures { (result ≡ pos (square_of kind order)) × (square_of kind order ≤ 2 ^ 8) }
{
    match order {
        Order::Third => kind.squares as i64,
        Order::Fourth => jumps::CUBES,
    }
}

fn jump_at(kind: Kind, order: Order, lists: Lists, i: usize) -> Jump
    requires { i < length lists.minutes.now }
    ensures { (left right : ℕ) → result ≡ jump_at (kind_of kind) (joint (lent lists.entry.minutes.now lists.entry.ordinates.now lists.entry.slopes.now lists.entry.curvatures.now left right) i) (order_of order) }
{
    let before = lists.knot(minutes::back(i));
    let here = lists.knot(i);
    let after = lists.knot(minutes::on(lists.minutes.len(), i));
    let q = minutes::left_gap(lists.minutes, i) as i64;
    let h = minutes::right_gap(lists.minutes, i) as i64;
    Jump {
        size: jumps::jump(order, q, h, before, here, after).abs(),
        allowance: jumps::allowance(order, squares(kind, order), q, h),
    }
}

// The third where it is over; else the fourth.
fn reason(kind: Kind, left: u16, right: u16, lists: Lists, i: usize) -> Explained
    requires { i < length lists.minutes.now }
    ensures { result ≡ reason (kind_of kind) (lent lists.entry.minutes.now lists.entry.ordinates.now lists.entry.slopes.now lists.entry.curvatures.now left right) i }
{
    let code = lists::code_at(left, right, lists.minutes.len(), i);
    if lists::asks(kind, Order::Third, code) {
        let third = jump_at(kind, Order::Third, lists, i);
        if third.allowance < third.size {
            return third.because(i as u32, Order::Third);
        }
    }
    let fourth = jump_at(kind, Order::Fourth, lists, i);
    fourth.because(i as u32, Order::Fourth)
}

// ---- off a card

// Of a sound card.
fn off(card: &Card, minute: u16) -> Explained
    requires { Readable card.now }
    ensures value { (K : Curve.Kind) → result ≡ explained K accepted (decoded card.now) minute }
    ensures fits { sizes result < 2 ^ 63 }
{
    parts_at(opened::lists(card), minute)
}

// Of one that is refused with 10 at a place.
fn why(kind: Kind, card: &Card, place: u32) -> Explained
    requires readable { Readable card.now }
    requires place_lt_knots { place < card.now.knots }
    ensures { result ≡ reason (kind_of kind) (decoded card.now) place }
{
    reason(
        kind,
        card.left,
        card.right,
        opened::lists(card),
        place as usize,
    )
}

// The card's, then 11; the reason beside 10. The parts add up within 64 bits, in whatever order.
pub fn explain(card: &[u8], minute: u16) -> Explained
    ensures value { result ≡ explain card.now minute }
    ensures fits { sizes result < 2 ^ 63 }
{
    let opened = Opened::by_head(card);
    match opened.verdict {
        Ok(()) => off(&opened.card, minute),
        Err(refusal) => match refusal.reason {
            Reason::Jump => why(opened.kind, &opened.card, refusal.place),
            _ => Explained::from(refusal),
        },
    }
}
