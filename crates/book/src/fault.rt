// Why a book cannot be set up.
ghost use Rattle.book.specs.Fault.{book_reading};

use refusals::{Cause, Fault, Layer, Refusal};
use thiserror::Error;

// A type of its own: one for all layers would take the layer and the cause as parameters, and be no shorter.
#[derive(Clone, Copy, PartialEq, Eq, Debug, Error)]
#[error("{}", self.refusal())]
pub enum BookFault {
    // The sum of the balances is above 2^40.
    Overfull,
}

impl Fault for BookFault {
    ghost reading = { book_reading };

    fn refusal(&self) -> Refusal {
        match self {
            BookFault::Overfull => Refusal {
                layer: Layer::Book,
                cause: Cause::Overfull,
                place: 0,
            },
        }
    }
}
