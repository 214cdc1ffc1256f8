// Making a box ready, and cold again.
ghost use Rattle.std.specs.Prelude.{◌≡◌};
ghost use Rattle.pool.specs.Promise.{PoolsAgree};
ghost use Rattle.settlement.specs.Box.{restart_box};
ghost use Rattle.settlement.specs.Seen.{state_of, ComesTo};

use crate::state::ReadyBox;
use book::Book;
use marks::MarkStore;
use seals::Checker;
use settlement::ColdBox;

impl<B: Book, C: Checker, S: MarkStore> ReadyBox<B, C, S> {
    // A cold box and a store of marks make a ready box. Neither is changed.
    // Every pool of boxes with such a book agrees, if its seals hold (`pool`). This is said of validity and next state
    // alone, by name: no more of the book counts.
    pub fn join(cold: ColdBox<B, C>, store: S) -> ReadyBox<B, C, S>
        ensures cold { result.cold ≡ cold }
        ensures store { result.store ≡ store }
        ensures pool { PoolsAgree B.Book.valid B.Book.next (B.Book.opening cold.book) }
    {
        ReadyBox { cold, store }
    }

    // The box, cold and as it was set up, and its store as it is.
    pub fn restart(self) -> (ColdBox<B, C>, S)
        ensures cold { ComesTo B.Book self.cold result.0 (restart_box (state_of B.Book self.cold)) }
        ensures store { result.1 ≡ self.store }
    {
        let ReadyBox { cold, store } = self;
        (cold.restart(), store)
    }
}
