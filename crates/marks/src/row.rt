// A row of outcomes for coming writes.
use crate::outcome::Outcome;

// Those in the cells from the next one on, up to the first empty one, are still to come; a row that is used up counts as
// one that stands. The place of the next moves and the cells stay, since moving them would cost each write all of them.
#[derive(Clone, Copy)]
pub struct Row {
    pub(crate) cells: [Option<Outcome>; 64],
    pub(crate) next: usize,
}
