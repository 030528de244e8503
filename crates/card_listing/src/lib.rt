// What the lister prints of a card's bytes: a line for each knot, or the refusal. Document 01, "Two programs". A card has no faults.
#![tactic(auto)]

ghost use Rattle.std.specs.Prelude.{◌≡◌, ◌≤◌, None, length};
ghost use Rattle.answer.specs.Judge.{verdict_of};
ghost use Rattle.decimal.specs.Put.{Put};
ghost use Rattle.card.specs.Answers.{own};
ghost use Rattle.card_listing.specs.Printed.{printed};

use answer::Judged;
use opened::Opened;

// The card's own verdict, and the length of its listing.
#[derive(Clone, Copy)]
pub struct Listed {
    pub verdict: Judged,
    pub length: usize,
}

// A card says of no knot that it was a log's.
fn no_log(_knot: usize) -> Option<u8>
    ensures { result ≡ None }
{
    None
}

// The listing at the front of a buffer.
pub fn list_card(card: &[u8], text: &mut [u8]) -> Listed
    requires { 4096 ≤ length text.old }
    ensures put { Put (printed card.now) text.old text.new 0 result.length }
    ensures own { verdict_of result.verdict ≡ own card.now }
{
    let opened = Opened::by_head(card);
    let verdict = opened.verdict;
    match verdict {
        Err(refusal) => {
            let number = refusal.number();
            let place = refusal.place;
            let length = listing::list(number, place, &[], &[], &[], &[], no_log, text);
            Listed { verdict, length }
        }
        Ok(()) => {
            let held = opened.card.lent();
            let length = listing::list(
                0,
                0,
                held.minutes,
                held.ordinates,
                held.slopes,
                held.curvatures,
                no_log,
                text,
            );
            Listed { verdict, length }
        }
    }
}
