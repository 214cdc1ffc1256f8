// Starting a box again.
ghost use Rattle.settlement.specs.Box.{restart_box};
ghost use Rattle.settlement.specs.Seen.{state_of, ComesTo};

use crate::cold::ColdBox;
use book::Book;
use seals::Checker;
use settling::Accounts;

impl<B: Book, C: Checker> ColdBox<B, C> {
    // The box as it was set up: its book starts again from the opening, and nothing waits.
    pub fn restart(mut self) -> ColdBox<B, C>
        ensures { ComesTo B.Book self result (restart_box (state_of B.Book self)) }
    {
        self.book.reset();
        self.accounts = Accounts::new();
        self
    }
}
