// The certificate: seals of several boxes over one docket.
#![tactic(auto)]

ghost use Rattle.std.specs.Prelude.{◌≡◌, ◌+◌, ◌*◌, length, take, drop, IfOk, Ok};
ghost use Rattle.refusals.specs.Reading.{judged};
ghost use Rattle.certificate.specs.Faults.{certificate_reading};
ghost use Rattle.certificate.specs.Contents.{contents};
ghost use Rattle.certificate.specs.Layout.{seen, read_certificate, Accepted, laid_out, contents_of, write_answer, write_buffer};

pub mod faults;
mod read;
pub mod table;
pub mod value;
mod write;

use docket::Docket;
pub use faults::{CertificateFault, DocketFaultAt};
use read::{head_end, read_head};
pub use table::{Entry, Signer};
pub use value::Certificate;
use write::{head_of, if_room, put_all};

impl Certificate {
    // Takes a certificate's bytes apart, for a pool of so many boxes. A wrong field is refused at its offset,
    // a wrong length at itself. What is read is written as the same bytes.
    pub fn read(boxes: u8, bytes: &[u8]) -> Result<Certificate, CertificateFault>
        ensures answer { seen result ≡ read_certificate boxes bytes.now }
        ensures accepted { IfOk result (λ c. Accepted boxes bytes.now (contents c)) }
        ensures same { IfOk result (λ c. laid_out (contents c) (drop (84 + 8 * length (contents c).entries) bytes.now) ≡ bytes.now) }
    {
        read_head(boxes, bytes.len(), &bytes[0..head_end(bytes)])
    }

    // Writes the certificate of a docket, its signers and their seals, end to end, to the start of the buffer,
    // and answers its length. It refuses what would not be read. What is written reads back equal.
    pub fn write(
        boxes: u8,
        docket: &Docket,
        signers: &[Signer],
        seals: &[u8],
        out: &mut [u8],
    ) -> Result<usize, CertificateFault>
        ensures answer { judged certificate_reading result ≡ write_answer boxes docket.now signers.now seals.now out.old }
        ensures buffer { out.new ≡ write_buffer boxes docket.now signers.now seals.now out.old }
        ensures back { IfOk result (λ n. read_certificate boxes (take n out.new) ≡ Ok (contents_of docket.now signers.now)) }
    {
        let count = signers.len();
        if count == 0 || count > 13 {
            return Err(CertificateFault::Malformed(0));
        }
        let end = 84 + 8 * count;
        let total = end + seals.len();
        let head = head_of(docket, signers);
        read_head(boxes, total, &head[0..end])?;
        let written = if_room(out.len(), total)?;
        put_all(out, &head[0..end], seals);
        Ok(written)
    }

    // The docket that the seals are for.
    pub fn docket(&self) -> Docket
        ensures { result ≡ (contents self.now).docket }
    {
        self.docket
    }

    // An entry for each seal, box numbers rising.
    pub fn entries(&self) -> &[Entry]
        ensures { result.now ≡ (contents self.now).entries }
    {
        &self.table[0..self.count]
    }
}
