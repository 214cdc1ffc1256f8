// Countersigning dockets: the mark is written down before the slip is given out.
ghost use Rattle.std.specs.Prelude.{◌≡◌, Some, Ok};
ghost use Rattle.refusals.specs.Reading.{judged, and_then};
ghost use Rattle.settling.specs.Books.{uncovered_in};
ghost use Rattle.settlement.specs.Faults.{box_reading};
ghost use Rattle.settlement.specs.Seen.{state_of};
ghost use Rattle.pool.specs.Ready.{Finding, slip_for, by_cover, by_mark};
ghost use Rattle.ready.specs.Seen.{ActsOn, by_store_of, finding_of, slip_seen, stood};

use crate::mark::mark_of;
use crate::slip::Slip;
use crate::state::ReadyBox;
use book::Book;
use docket::Docket;
use marks::MarkStore;
use seals::Checker;
use settlement::{BoxFault, is_same};

impl<B: Book, C: Checker, S: MarkStore> ReadyBox<B, C, S> {
    // A slip for the docket in the bytes, if its yard has sealed it, its account can settle it next, and it is the
    // account's mark: it is written down as such first, if it is not yet and its lines are valid. On any refusal but a
    // failed write the store is as it was.
    #[tactic(auto, unfolding(pool::specs::Ready::finding))]
    pub fn countersign(&mut self, bytes: &[u8], seal: &[u8]) -> Result<Slip, BoxFault>
        ensures { ActsOn B.Book S.MarkStore self.old self.new (slip_seen result) (finding_of B.Book C.Checker S.MarkStore self.old bytes.now seal.now) }
    {
        let docket = self.cold.examine(bytes, seal)?;
        self.have_marked(&docket)?;
        Ok(Slip {
            maker: self.cold.number(),
            account: docket.account,
            number: docket.number,
        })
    }

    // Sees to it that the docket is its account's mark.
    fn have_marked(&mut self, docket: &Docket) -> Result<(), BoxFault>
        ensures { ActsOn B.Book S.MarkStore self.old self.new (and_then (judged box_reading result) (λ _. Ok (slip_for (state_of B.Book self.old.cold) docket.now))) (by_store_of B.Book S.MarkStore self.old docket.now) }
    {
        if self.is_marked(docket)? {
            return Ok(());
        }
        self.write_mark(docket)
    }

    // Whether the docket is its account's mark already. Another mark of its number, or one of a greater number, is
    // refused.
    fn is_marked(&self, docket: &Docket) -> Result<bool, BoxFault>
        ensures { stood docket.now (by_cover docket.now (uncovered_in B.Book self.now.cold.book docket.now)) (judged box_reading result) ≡ by_store_of B.Book S.MarkStore self.now docket.now }
    {
        if self.store.owner() != self.cold.number() {
            return Err(BoxFault::OtherOwner);
        }
        match mark_of(&self.store, docket.account) {
            None => Ok(false),
            Some(mark) => is_same_mark(&mark, docket),
        }
    }

    // Makes the docket its account's mark, if it is covered.
    fn write_mark(&mut self, docket: &Docket) -> Result<(), BoxFault>
        ensures { ActsOn B.Book S.MarkStore self.old self.new (and_then (judged box_reading result) (λ _. Ok (slip_for (state_of B.Book self.old.cold) docket.now))) (by_cover docket.now (uncovered_in B.Book self.old.cold.book docket.now)) }
    {
        if let Some(place) = self.cold.first_invalid_line(docket) {
            return Err(BoxFault::NotCovered(place));
        }
        if !self.store.write(docket) {
            return Err(BoxFault::WriteFailed);
        }
        Ok(())
    }
}

// Whether a docket is this mark of its account. Tests one after another, since each refusal ends it.
fn is_same_mark(mark: &Docket, docket: &Docket) -> Result<bool, BoxFault>
    ensures { (covers : Finding) → stood docket.now covers (judged box_reading result) ≡ by_mark docket.now covers (Some mark.now) }
{
    if docket.number < mark.number {
        return Err(BoxFault::OtherMarked);
    }
    if mark.number < docket.number {
        return Ok(false);
    }
    if !is_same(*mark, *docket) {
        return Err(BoxFault::OtherMarked);
    }
    Ok(true)
}
