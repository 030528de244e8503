// Which record of a card is due where, and 14 where it is not: document 01, "Card bytes" and "Numbers of refusal".
#![tactic(auto)]

ghost use Rattle.std.specs.Prelude.{◌≡◌, ◌^◌, ◌<◌};
ghost use Rattle.answer.specs.Answer.{each};
ghost use Rattle.answer.specs.Judge.{verdict_of};
ghost use Rattle.card_bytes.specs.Records.{due, head_due, knot_due, end_due, records_due};

use answer::{Judged, Reason};

// A record that is due at an offset.
#[tactic(auto, unfolding(crate::specs::Records::due))]
fn due(list: &[u8], at: usize, kind: u16, length: u16) -> Judged
    requires { at < 2 ^ 32 }
    ensures { verdict_of result ≡ due list.now at kind length }
{
    let there = record::is_at(list, at, kind, length);
    answer::refuse(Reason::BadRecord, at as u32, !there)
}

// The head of a card, of the kind that it has for such cards.
#[tactic(auto, unfolding(crate::specs::Records::head_due))]
pub fn head_due(list: &[u8], head: u16) -> Judged
    ensures { verdict_of result ≡ head_due head list.now }
{
    due(list, 0, head, 6)
}

// The knots' records.
#[tactic(auto, unfolding(crate::specs::Records::knot_due))]
fn knots_due(list: &[u8], n: usize) -> Judged
    requires { n < 2 ^ 16 }
    ensures { verdict_of result ≡ each (knot_due list.now) 0 n }
{
    answer::each(n, |i| due(list, 10 + 16 * i, 2, 12))
}

// The end, and nothing that follows it.
#[tactic(auto, using(answer::proofs::Orders::orders), unfolding(crate::specs::Records::end_due))]
fn end_due(list: &[u8], n: usize) -> Judged
    requires { n < 2 ^ 16 }
    ensures { verdict_of result ≡ end_due list.now n }
{
    let size = 14 + 16 * n;
    due(list, 10 + 16 * n, 3, 0)?;
    answer::refuse(Reason::BadRecord, size as u32, size < list.len())
}

// "the other records".
#[tactic(auto, using(answer::proofs::Orders::orders), unfolding(crate::specs::Records::records_due))]
pub fn records_due(list: &[u8], n: usize) -> Judged
    requires { n < 2 ^ 16 }
    ensures { verdict_of result ≡ records_due list.now n }
{
    knots_due(list, n)?;
    end_due(list, n)
}
