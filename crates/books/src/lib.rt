// Books and layers over books, each in a file of its own, and the one that the pool ships.
#![tactic(auto)]

mod allowance;
mod ballots;
mod pair;
mod shipped;

pub use allowance::Allowance;
pub use ballots::{BallotBook, BallotQuestion};
pub use pair::{Pair, PairAnswer, PairQuestion};
pub use shipped::{ShippedBook, ship};
