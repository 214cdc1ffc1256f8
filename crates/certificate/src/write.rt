// Writing a certificate.
ghost use Rattle.std.specs.Prelude.{◌≡◌, ℕ, ◌+◌, ◌*◌, ◌≤◌, ◌++◌, length, take, drop, IfOk};
ghost use Rattle.refusals.specs.Reading.{judged};
ghost use Rattle.docket.specs.Layout.{Sized};
ghost use Rattle.certificate.specs.Faults.{certificate_reading};
ghost use Rattle.certificate.specs.Table.{row, rows};
ghost use Rattle.certificate.specs.Layout.{head_of, if_room};

use crate::faults::CertificateFault;
use crate::table::Signer;
use docket::Docket;
use layout::put;

// How many bytes are written, if there is room.
pub(crate) fn if_room(room: usize, total: usize) -> Result<usize, CertificateFault>
    ensures answer { judged certificate_reading result ≡ if_room room total }
    ensures bounds { IfOk result (λ n. (n ≡ total) × (n ≤ room)) }
{
    if room < total {
        Err(CertificateFault::ShortBuffer)
    } else {
        Ok(total)
    }
}

// The head, and room behind it for as many entries as there may be.
pub(crate) fn head_of(docket: &Docket, signers: &[Signer]) -> [u8; 188]
    requires { length signers.now ≤ 13 }
    ensures front { take (84 + 8 * length signers.now) result ≡ head_of docket.now signers.now }
    ensures sized { Sized docket.now }
{
    let mut head = [0u8; 188];
    let count = signers.len();
    put(&mut head, 0, &[count as u8, 0, 0, 0]);
    put_rows(&mut head, signers);
    put(&mut head, 4 + 8 * count, &docket.to_bytes());
    head
}

// Writes an entry for each signer, from offset 4 on.
fn put_rows(head: &mut [u8; 188], signers: &[Signer])
    requires { length signers.now ≤ 13 }
    ensures { take (4 + 8 * length signers.now) head.new ≡ take 4 head.old ++ rows (84 + 8 * length signers.now) signers.now }
{
    let mut place = 84 + 8 * signers.len() as u32;
    // By index, since of chunks that are written through a proof knows only how many there are.
    for (i, signer) in signers.iter().enumerate() {
        put(head, 4 + 8 * i, &row_of(*signer, place));
        place = signer.next_place(place);
    }
}

// The entry of a signer whose seal starts at `place`. A function, since a signer alone does not give it.
fn row_of(signer: Signer, place: u32) -> [u8; 8]
    ensures { result ≡ row signer place }
{
    let [s0, s1] = signer.size.to_be_bytes();
    let [p0, p1, p2, p3] = place.to_be_bytes();
    [signer.number, 0, s0, s1, p0, p1, p2, p3]
}

// Copies a head and the seals behind it to the start of the buffer. Both lengths are decided by the signers, so no array
// type has them.
pub(crate) fn put_all(out: &mut [u8], head: &[u8], seals: &[u8])
    requires { length head.now + length seals.now ≤ length out.old }
    ensures front { take (length head.now + length seals.now) out.new ≡ head.now ++ seals.now }
    ensures rest { drop (length head.now + length seals.now) out.new ≡ drop (length head.now + length seals.now) out.old }
{
    put(out, 0, head);
    put(out, head.len(), seals);
}
