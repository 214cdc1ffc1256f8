// A store of marks in a table, for tests and for simulations of failing writes.
ghost use Rattle.marks.specs.Marks.{Marked};

use crate::row::Row;
use docket::Docket;

// Every mark is a well-formed docket of its account. The memory is fixed.
#[derive(Clone, Copy)]
pub struct TableStore {
    pub(crate) owner: u8,
    pub(crate) marks: [Option<Docket>; 64],
    pub(crate) row: Row,
    ghost own: { Marked marks },
}
