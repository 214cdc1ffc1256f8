// The faults of reading and writing a certificate.
ghost use Rattle.std.specs.Prelude.{◌≡◌};
ghost use Rattle.certificate.specs.declared.faults.CertificateFault.TheVariants.{Docket};
ghost use Rattle.certificate.specs.Faults.{certificate_reading};

use docket::DocketFault;
use refusals::{Cause, Fault, Layer, Refusal};
use thiserror::Error;

// A docket's fault, and where the docket starts in the certificate.
#[derive(Clone, Copy, PartialEq, Eq, Debug)]
pub struct DocketFaultAt {
    pub place: usize,
    pub fault: DocketFault,
}

// Why bytes or values are no certificate. A docket's refusal is printed after the certificate's own, on the same line.
#[derive(Clone, Copy, PartialEq, Eq, Debug, Error)]
#[error("{}", self.refusal())]
pub enum CertificateFault {
    // A wrong length, which is the place itself, or a wrong field at its offset.
    Malformed(usize),
    // The buffer to write into is too short.
    ShortBuffer,
    // The docket inside is refused.
    #[error("{}; {}", self.refusal(), .0.fault)]
    Docket(DocketFaultAt),
}

// By hand: what `#[from]` writes has no clause, and each `?` needs one.
impl From<DocketFaultAt> for CertificateFault {
    ghost from_gives = { λ e r. r ≡ Docket e };

    fn from(docket: DocketFaultAt) -> CertificateFault {
        CertificateFault::Docket(docket)
    }
}

impl Fault for CertificateFault {
    ghost reading = { certificate_reading };

    fn refusal(&self) -> Refusal {
        let (cause, place) = match self {
            CertificateFault::Malformed(place) => (Cause::Malformed, *place),
            CertificateFault::ShortBuffer => (Cause::ShortBuffer, 0),
            CertificateFault::Docket(inner) => (inner.fault.refusal().cause, inner.place),
        };
        Refusal {
            layer: Layer::Certificate,
            cause,
            place,
        }
    }
}
