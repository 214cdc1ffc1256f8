// What a box can tell of a docket that a yard hands in.
ghost use Rattle.std.specs.Prelude.{◌≡◌, not, is_some};
ghost use Rattle.refusals.specs.Reading.{judged};
ghost use Rattle.settling.specs.Books.{covered_in, uncovered_in};
ghost use Rattle.settlement.specs.Examine.{level_box};
ghost use Rattle.settlement.specs.Faults.{box_reading};
ghost use Rattle.settlement.specs.Seen.{state_of, ComesTo, judged_docket_of, examined_of};

use crate::cold::ColdBox;
use crate::faults::BoxFault;
use book::Book;
use docket::Docket;
use seals::Checker;
use settling::apply_lines;

impl<B: Book, C: Checker> ColdBox<B, C> {
    // The docket in the bytes, if it is of the pool, has its yard's seal and is at its account's next number.
    #[tactic(auto, unfolding(crate::specs::Examine::examined))]
    pub fn examine(&self, bytes: &[u8], seal: &[u8]) -> Result<Docket, BoxFault>
        ensures { judged box_reading result ≡ examined_of B.Book C.Checker self.now bytes.now seal.now }
    {
        let docket = Docket::read(bytes)?;
        self.judge_docket(bytes, seal, docket)
    }

    // The same of a docket that was read from the bytes.
    fn judge_docket(&self, bytes: &[u8], seal: &[u8], docket: Docket) -> Result<Docket, BoxFault>
        ensures { judged box_reading result ≡ judged_docket_of B.Book C.Checker self.now bytes.now seal.now docket }
    {
        if docket.pool != self.pool {
            return Err(BoxFault::AnotherPool);
        }
        if !self.checker.check(docket.account, bytes, seal) {
            return Err(BoxFault::YardSeal);
        }
        let due = self.accounts.get(docket.account).next;
        if docket.number < due {
            return Err(BoxFault::BelowNext);
        }
        if docket.number > due {
            return Err(BoxFault::AboveNext);
        }
        Ok(docket)
    }

    // Tries the docket's lines in the book, one after another: the index of the first that is not valid in its turn,
    // and none where the docket is covered. The book is then where it was.
    pub fn first_invalid_line(&mut self, docket: &Docket) -> Option<usize>
        ensures answer { result ≡ uncovered_in B.Book self.old.book docket.now }
        ensures covers { is_some (covered_in B.Book self.old.book docket.now) ≡ not (is_some result) }
        ensures left { ComesTo B.Book self.old self.new (level_box (state_of B.Book self.old)) }
    {
        self.book.keep();
        let place = apply_lines(&mut self.book, docket);
        self.book.back();
        place
    }
}
