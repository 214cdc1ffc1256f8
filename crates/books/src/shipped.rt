// The book that the pool ships, named here and nowhere else.
ghost use Rattle.std.specs.Prelude.{◌≡◌};
ghost use Rattle.book.specs.Fault.{book_reading};
ghost use Rattle.books.specs.Allowance.{no_lines, spent};
ghost use Rattle.books.specs.Ballots.{no_votes};
ghost use Rattle.books.specs.Pair.{both};
ghost use Rattle.books.specs.Shipped.{shipped};
ghost use Rattle.std.specs.Result.{result_map_both};

use crate::{Allowance, BallotBook, Pair};
use book::{BookFault, PalletBook};

// The allowance over pallets and ballots.
pub type ShippedBook = Allowance<Pair<PalletBook, BallotBook>>;

// Refuses balances whose sum is above 2^40.
pub fn ship(balances: [u64; 64], maximum: u16) -> Result<ShippedBook, BookFault>
    ensures { result_map_both (λ b. record { opening = spent b.maximum no_lines (both b.below.first.opening no_votes); kept = spent b.maximum b.kept (both b.below.first.kept b.below.second.kept); current = spent b.maximum b.current (both b.below.first.current b.below.second.current) }) book_reading result ≡ shipped balances maximum }
{
    let pallets = PalletBook::new(balances)?;
    Ok(Allowance::new(Pair::new(pallets, BallotBook::new()), maximum))
}
