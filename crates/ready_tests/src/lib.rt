// Runs of the ready box, and three uses of boxes that pass the check. Beside each of these, `.ci/must-not-compile`
// keeps a patch that turns it into one that the check has to refuse.
#![tactic(auto)]

ghost use Rattle.std.specs.Prelude.{◌≡◌};
ghost use Rattle.refusals.specs.Reading.{judged};
ghost use Rattle.settlement.specs.Faults.{box_reading};
ghost use Rattle.settlement.specs.Seen.{take_answer_of};
ghost use Rattle.ready.specs.Seen.{released_text_of, slip_of, done};

use book::Book;
use marks::MarkStore;
use ready::{ReadyBox, Slip};
use seals::Checker;
use settlement::{BoxFault, ColdBox};

#[cfg(test)]
mod runs;

// Takes on a cold box.
pub fn take_cold<B: Book, C: Checker>(
    cold: &mut ColdBox<B, C>,
    bytes: &[u8],
) -> Result<u32, BoxFault>
    ensures { judged box_reading result ≡ take_answer_of B.Book C.Checker cold.old bytes.now }
{
    cold.take(bytes)
}

// Releases two slips, which may be of one docket.
pub fn release_both<B: Book, C: Checker, S: MarkStore>(
    ready: &mut ReadyBox<B, C, S>,
    first: Slip,
    second: Slip,
    out: &mut [u8; 82],
) -> (Result<(), BoxFault>, Result<(), BoxFault>)
    ensures first { judged box_reading result.0 ≡ done (released_text_of B.Book S.MarkStore ready.old (slip_of first)) }
    ensures second { judged box_reading result.1 ≡ done (released_text_of B.Book S.MarkStore ready.old (slip_of second)) }
{
    let one = ready.release(first, out);
    let other = ready.release(second, out);
    (one, other)
}

// Withholds a slip.
pub fn give_up<B: Book, C: Checker, S: MarkStore>(ready: &mut ReadyBox<B, C, S>, slip: Slip)
    ensures { ready.new ≡ ready.old }
{
    ready.withhold(slip);
}
