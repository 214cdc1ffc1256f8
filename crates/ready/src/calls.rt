// What a ready box does as a cold one does: it takes certificates and reports. Each call is passed on by a method: `take`
// may not lend the cold box out, since a caller could exchange it under its store, and a `Deref` for three reports is no
// plainer.
ghost use Rattle.std.specs.Prelude.{◌≡◌, is_some, OnOk};
ghost use Rattle.refusals.specs.Reading.{judged};
ghost use Rattle.settling.specs.Books.{Level, NoneSettles};
ghost use Rattle.settlement.specs.Box.{next_number, waiting_docket, reported};
ghost use Rattle.settlement.specs.Faults.{box_reading};
ghost use Rattle.settlement.specs.Seen.{state_of, ComesTo, take_answer_of, take_box_of};

use crate::state::ReadyBox;
use book::Book;
use marks::MarkStore;
use seals::Checker;
use settlement::BoxFault;

impl<B: Book, C: Checker, S: MarkStore> ReadyBox<B, C, S> {
    // Takes a certificate, as a cold box does. The store is left alone.
    pub fn take(&mut self, bytes: &[u8]) -> Result<u32, BoxFault>
        ensures answer { judged box_reading result ≡ take_answer_of B.Book C.Checker self.old.cold bytes.now }
        ensures left { ComesTo B.Book self.old.cold self.new.cold (take_box_of B.Book C.Checker self.old.cold bytes.now) }
        ensures store { self.new.store ≡ self.old.store }
        ensures level { Level B.Book self.old.cold.book → Level B.Book self.new.cold.book }
        ensures done { OnOk result (NoneSettles B.Book self.new.cold.book self.new.cold.accounts.rows) }
    {
        self.cold.take(bytes)
    }

    // What the book answers.
    pub fn ask(&self, question: B::Question) -> B::Answer
        ensures { result ≡ B.Book.answer (state_of B.Book self.now.cold).current question }
    {
        self.cold.ask(question)
    }

    // An account's next number; none above account 63.
    pub fn next_number(&self, account: u8) -> Option<u64>
        ensures { result ≡ next_number (state_of B.Book self.now.cold) account }
    {
        self.cold.next_number(account)
    }

    // Writes the account's waiting docket of a number into the buffer. Where there is none, and above account 63,
    // the answer is no and the buffer is left alone. A yes or no beside the caller's buffer is a rule of the project.
    pub fn waiting(&self, account: u8, number: u64, out: &mut [u8; 80]) -> bool
        ensures answer { result ≡ is_some (waiting_docket (state_of B.Book self.now.cold) account number) }
        ensures buffer { out.new ≡ reported (waiting_docket (state_of B.Book self.now.cold) account number) out.old }
    {
        self.cold.waiting(account, number, out)
    }
}
