// What a box reports of itself. Reporting changes nothing.
ghost use Rattle.std.specs.Prelude.{◌≡◌, is_some};
ghost use Rattle.settlement.specs.Box.{next_number, waiting_docket, reported};
ghost use Rattle.settlement.specs.Seen.{state_of};

use crate::cold::ColdBox;
use book::{Book, LAST_ACCOUNT};
use docket::Docket;
use seals::Checker;

impl<B: Book, C: Checker> ColdBox<B, C> {
    // What the book answers.
    pub fn ask(&self, question: B::Question) -> B::Answer
        ensures { result ≡ B.Book.answer (state_of B.Book self.now).current question }
    {
        self.book.ask(question)
    }

    // Its own number among the pool's boxes.
    pub fn number(&self) -> u8
        ensures { result ≡ (state_of B.Book self.now).number }
    {
        self.number
    }

    // An account's next number; none above account 63.
    pub fn next_number(&self, account: u8) -> Option<u64>
        ensures { result ≡ next_number (state_of B.Book self.now) account }
    {
        if account > LAST_ACCOUNT {
            return None;
        }
        Some(self.accounts.get(account).next)
    }

    // Writes the account's waiting docket of a number into the buffer. Where there is none, and above account 63,
    // the answer is no and the buffer is left alone. A yes or no beside the caller's buffer is a rule of the project;
    // the like of it in `marks` stands in a crate on which this one does not stand.
    pub fn waiting(&self, account: u8, number: u64, out: &mut [u8; 80]) -> bool
        ensures answer { result ≡ is_some (waiting_docket (state_of B.Book self.now) account number) }
        ensures buffer { out.new ≡ reported (waiting_docket (state_of B.Book self.now) account number) out.old }
    {
        match self.waiting_docket(account, number) {
            Some(docket) => {
                *out = docket.to_bytes();
                true
            }
            None => false,
        }
    }

    // The docket that waits under an account and a number.
    fn waiting_docket(&self, account: u8, number: u64) -> Option<Docket>
        ensures { result ≡ waiting_docket (state_of B.Book self.now) account number }
    {
        if account > LAST_ACCOUNT {
            return None;
        }
        self.accounts.get(account).waiting(number)
    }
}
