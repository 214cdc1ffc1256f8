// What a checker refuses.
ghost use Rattle.seals.specs.Fault.{checker_reading};

use refusals::{Cause, Fault, Layer, Refusal};
use thiserror::Error;

// A type of its own: one for checkers and stores alike would take the layer as a parameter, and be no shorter.
#[derive(Clone, Copy, PartialEq, Eq, Debug, Error)]
#[error("{}", self.refusal())]
pub enum CheckerFault {
    // The length or layout of a roll, or of keys, is wrong.
    Layout,
}

impl Fault for CheckerFault {
    ghost reading = { checker_reading };

    fn refusal(&self) -> Refusal {
        match self {
            CheckerFault::Layout => Refusal {
                layer: Layer::Checker,
                cause: Cause::Layout,
                place: 0,
            },
        }
    }
}
