// Setting a box up.
ghost use Rattle.std.specs.Prelude.{◌≡◌, ◌≤◌, true, IfOk, IfErr};
ghost use Rattle.settling.specs.Order.{SettlingIsOrderFree};
ghost use Rattle.settlement.specs.Box.{in_range, set_up};
ghost use Rattle.settlement.specs.Order.{TakingIsOrderFree};
ghost use Rattle.settlement.specs.Seen.{state_of, set_up_seen};

use crate::cold::{ColdBox, SetUpRefused};
use crate::faults::BoxFault;
use book::Book;
use seals::Checker;
use settling::Accounts;

impl<B: Book, C: Checker> ColdBox<B, C> {
    // A box of a pool in which `faulty` boxes may be faulty, 1 to 4, so that there are three times as many and one
    // more. The book starts from its opening. A refusal hands the book and the checker back as they were.
    // For every book, the order in which dockets come makes no difference to what has settled in the end
    // (`settling`), and so the box depends on which dockets it took alone (`order_free`). Both are said of validity and
    // next state alone, by name: no more of the book counts.
    #[tactic(auto, unfolding(crate::specs::Box::set_up))]
    pub fn set_up(
        pool: u32,
        number: u8,
        faulty: u8,
        mut book: B,
        checker: C,
    ) -> Result<ColdBox<B, C>, SetUpRefused<B, C>>
        ensures answer { set_up_seen B.Book result ≡ set_up pool number faulty (B.Book.opening book) }
        ensures checker { IfOk result (λ b. b.checker ≡ checker) }
        ensures settling { SettlingIsOrderFree B.Book.valid B.Book.next (B.Book.opening book) }
        ensures order_free { IfOk result (λ b. TakingIsOrderFree B.Book.valid B.Book.next (C.Checker.good checker) (state_of B.Book b)) }
        ensures returned { IfErr result (λ e. (e.book ≡ book) × (e.checker ≡ checker)) }
    {
        if !in_range(number, faulty) {
            return Err(SetUpRefused {
                fault: BoxFault::OutOfRange,
                book,
                checker,
            });
        }
        book.reset();
        Ok(ColdBox {
            pool,
            number,
            boxes: 3 * faulty + 1,
            needed: 2 * faulty + 1,
            book,
            checker,
            accounts: Accounts::new(),
        })
    }
}

// Whether a count of faulty boxes and a box's number are in range.
fn in_range(number: u8, faulty: u8) -> bool
    ensures answer { result ≡ in_range number faulty }
    ensures small { result ≡ true → faulty ≤ 4 }
{
    (1..=4).contains(&faulty) && number < 3 * faulty + 1
}
