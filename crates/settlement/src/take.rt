// Taking certificates.
ghost use Rattle.std.specs.Prelude.{◌≡◌, OnOk};
ghost use Rattle.refusals.specs.Reading.{judged};
ghost use Rattle.settling.specs.Books.{Level, NoneSettles};
ghost use Rattle.settlement.specs.Box.{with_ledger};
ghost use Rattle.settlement.specs.Faults.{box_reading};
ghost use Rattle.settlement.specs.Seen.{state_of, ComesTo, taken_docket_of, settled_with_of, take_answer_of, take_box_of};

use crate::accept::admit;
use crate::cold::ColdBox;
use crate::faults::BoxFault;
use book::Book;
use docket::Docket;
use seals::Checker;
use settling::settle;

impl<B: Book, C: Checker> ColdBox<B, C> {
    // The docket that the certificate's bytes put into a cell.
    fn docket_to_take(&self, bytes: &[u8]) -> Result<Docket, BoxFault>
        ensures { judged box_reading result ≡ taken_docket_of B.Book C.Checker self.now bytes.now }
    {
        let docket = self.accept(bytes)?;
        let account = self.accounts.get(docket.account);
        admit(&account, docket)
    }

    // Puts a docket into its cell and settles what can settle then.
    fn settle_with(&mut self, docket: Docket) -> u32
        ensures answer { result ≡ (settled_with_of B.Book self.old docket).0 }
        ensures left { ComesTo B.Book self.old self.new (with_ledger (state_of B.Book self.old) (settled_with_of B.Book self.old docket).1) }
        ensures done { NoneSettles B.Book self.new.book self.new.accounts.rows }
    {
        self.accounts.put(docket);
        settle(&mut self.book, &mut self.accounts)
    }

    // Takes a certificate: its docket goes into its cell, and what can settle then settles. The answer is how many
    // dockets did; none that waits can settle afterwards. A refusal changes nothing.
    #[tactic(auto, unfolding(crate::specs::Box::take_answer, crate::specs::Box::take_box))]
    pub fn take(&mut self, bytes: &[u8]) -> Result<u32, BoxFault>
        ensures answer { judged box_reading result ≡ take_answer_of B.Book C.Checker self.old bytes.now }
        ensures left { ComesTo B.Book self.old self.new (take_box_of B.Book C.Checker self.old bytes.now) }
        ensures level { Level B.Book self.old.book → Level B.Book self.new.book }
        ensures done { OnOk result (NoneSettles B.Book self.new.book self.new.accounts.rows) }
    {
        let docket = self.docket_to_take(bytes)?;
        Ok(self.settle_with(docket))
    }
}
