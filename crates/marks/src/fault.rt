// What a mark store refuses.
ghost use Rattle.marks.specs.Fault.{store_reading};

use refusals::{Cause, Fault, Layer, Refusal};
use thiserror::Error;

// A type of its own: one for stores and checkers alike would take the layer as a parameter, and be no shorter.
#[derive(Clone, Copy, PartialEq, Eq, Debug, Error)]
#[error("{}", self.refusal())]
pub enum StoreFault {
    // A wrong length or layout.
    Layout,
}

impl Fault for StoreFault {
    ghost reading = { store_reading };

    fn refusal(&self) -> Refusal {
        match self {
            StoreFault::Layout => Refusal {
                layer: Layer::Store,
                cause: Cause::Layout,
                place: 0,
            },
        }
    }
}
