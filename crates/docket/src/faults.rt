// The faults of reading and writing a docket.
ghost use Rattle.docket.specs.Faults.{docket_reading};

use refusals::{Cause, Fault, Layer, Refusal};
use thiserror::Error;

// Why bytes or a value are no docket.
#[derive(Clone, Copy, PartialEq, Eq, Debug, Error)]
#[error("{}", self.refusal())]
pub enum DocketFault {
    // A wrong length, which is the place itself, or a wrong field or line at its offset.
    Malformed(usize),
    // The buffer to write into has fewer than 80 bytes.
    ShortBuffer,
}

impl Fault for DocketFault {
    ghost reading = { docket_reading };

    fn refusal(&self) -> Refusal {
        let (cause, place) = match *self {
            DocketFault::Malformed(place) => (Cause::Malformed, place),
            DocketFault::ShortBuffer => (Cause::ShortBuffer, 0),
        };
        Refusal {
            layer: Layer::Docket,
            cause,
            place,
        }
    }
}
