// The faults of a box.
ghost use Rattle.std.specs.Prelude.{◌≡◌};
ghost use Rattle.settlement.specs.declared.faults.BoxFault.TheVariants.{Certificate, Docket};
ghost use Rattle.settlement.specs.Faults.{box_reading};

use certificate::CertificateFault;
use docket::DocketFault;
use refusals::{Cause, Fault, Layer, Refusal};
use thiserror::Error;

// Why a box refuses a call. What it found inside is printed after its own refusal, on the same line.
#[derive(Clone, Copy, PartialEq, Eq, Debug, Error)]
#[error("{}", self.refusal())]
pub enum BoxFault {
    // The certificate's bytes are refused.
    #[error("{}; {}", self.refusal(), .0)]
    Certificate(CertificateFault),
    // The docket's bytes are refused.
    #[error("{}; {}", self.refusal(), .0)]
    Docket(DocketFault),
    // The docket names another pool.
    AnotherPool,
    // The yard's seal is not good.
    YardSeal,
    // The docket's number is below its account's next.
    BelowNext,
    // The docket's number is above its account's next.
    AboveNext,
    // The mark has a greater number, or this number and another docket.
    OtherMarked,
    // The docket is not covered: the index of its first invalid line.
    NotCovered(usize),
    // Fewer entries than countersigns are needed.
    TooFewEntries,
    // A seal is not good: the offset of its entry.
    BadSeal(usize),
    // The docket's number is more than three above its account's next.
    TooFarAhead,
    // The cell holds this docket.
    AlreadyWaiting,
    // The cell holds another docket.
    OtherWaiting,
    // The store is another box's.
    OtherOwner,
    // The mark was not written.
    WriteFailed,
    // The slip is another box's, or the store has no mark of its account and number.
    NotMarked,
    // The count of faulty boxes or the box's number is out of range.
    OutOfRange,
}

// By hand, as the one below: what `#[from]` writes has no clause, and each `?` needs one.
impl From<CertificateFault> for BoxFault {
    ghost from_gives = { λ e r. r ≡ Certificate e };

    fn from(inner: CertificateFault) -> BoxFault {
        BoxFault::Certificate(inner)
    }
}

impl From<DocketFault> for BoxFault {
    ghost from_gives = { λ e r. r ≡ Docket e };

    fn from(inner: DocketFault) -> BoxFault {
        BoxFault::Docket(inner)
    }
}

impl Fault for BoxFault {
    ghost reading = { box_reading };

    fn refusal(&self) -> Refusal {
        let (cause, place) = match self {
            BoxFault::Certificate(inner) => (inner.refusal().cause, 0),
            BoxFault::Docket(inner) => (inner.refusal().cause, 0),
            BoxFault::AnotherPool => (Cause::AnotherPool, 0),
            BoxFault::YardSeal => (Cause::YardSeal, 0),
            BoxFault::BelowNext => (Cause::BelowNext, 0),
            BoxFault::AboveNext => (Cause::AboveNext, 0),
            BoxFault::OtherMarked => (Cause::OtherMarked, 0),
            BoxFault::NotCovered(place) => (Cause::NotCovered, *place),
            BoxFault::TooFewEntries => (Cause::TooFewEntries, 0),
            BoxFault::BadSeal(place) => (Cause::BadSeal, *place),
            BoxFault::TooFarAhead => (Cause::TooFarAhead, 0),
            BoxFault::AlreadyWaiting => (Cause::AlreadyWaiting, 0),
            BoxFault::OtherWaiting => (Cause::OtherWaiting, 0),
            BoxFault::OtherOwner => (Cause::OtherOwner, 0),
            BoxFault::WriteFailed => (Cause::WriteFailed, 0),
            BoxFault::NotMarked => (Cause::NotMarked, 0),
            BoxFault::OutOfRange => (Cause::OutOfRange, 0),
        };
        Refusal {
            layer: Layer::Box,
            cause,
            place,
        }
    }
}
