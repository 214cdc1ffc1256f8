// Reading a certificate.
ghost use Rattle.std.specs.Prelude.{◌≡◌, ◌+◌, ◌*◌, ◌≤◌, min, length, take, IfOk, slice_index};
ghost use Rattle.refusals.specs.Reading.{judged};
ghost use Rattle.certificate.specs.Contents.{contents};
ghost use Rattle.certificate.specs.Faults.{certificate_reading};
ghost use Rattle.certificate.specs.Table.{entry_of, wrong_field, read_row, read_rows, seals_end};
ghost use Rattle.certificate.specs.Layout.{seen, listed, read_count, read_inner, ending, read_head};

use crate::faults::{CertificateFault, DocketFaultAt};
use crate::table::{Entry, Signer};
use crate::value::Certificate;
use docket::Docket;
use layout::is_blank;

// A seal has at most so many bytes.
const LONGEST_SEAL: u16 = 2000;

// Where the head ends, or the bytes, if they are fewer.
pub(crate) fn head_end(bytes: &[u8]) -> usize
    ensures { result ≡ min (length bytes.now) (84 + 8 * slice_index bytes.now 0) }
{
    match bytes.first() {
        Some(count) => bytes.len().min(84 + 8 * *count as usize),
        None => 0,
    }
}

// The certificate of which the head is given, and the length in all. It is read from the head alone, which
// is cut at a length that its own first byte tells: so the clauses here require lengths, and no array type could.
pub(crate) fn read_head(
    boxes: u8,
    total: usize,
    head: &[u8],
) -> Result<Certificate, CertificateFault>
    requires { min total (84 + 8 * slice_index head.now 0) ≤ length head.now }
    ensures { seen result ≡ read_head boxes total (slice_index head.now 0) head.now }
{
    let count = read_count(total, head)?;
    let (table, end) = read_table(boxes, count, head)?;
    let docket = read_docket(head, 4 + 8 * count)?;
    let certificate = Certificate {
        docket,
        count,
        table,
    };
    if_ending(total, end, certificate)
}

// A certificate, if it ends where its seals do.
fn if_ending(
    total: usize,
    end: u32,
    certificate: Certificate,
) -> Result<Certificate, CertificateFault>
    ensures { seen result ≡ ending total end (contents certificate) }
{
    if total == end as usize {
        Ok(certificate)
    } else {
        Err(CertificateFault::Malformed(total))
    }
}

// The count of entries, if the head is whole and its first bytes are well formed.
fn read_count(total: usize, head: &[u8]) -> Result<usize, CertificateFault>
    requires { min total 4 ≤ length head.now }
    ensures answer { judged certificate_reading result ≡ read_count total (slice_index head.now 0) head.now }
    ensures bounds { IfOk result (λ m. (m ≡ slice_index head.now 0) × (m ≤ 13) × (84 + 8 * m ≤ total)) }
{
    if total < 4 {
        return Err(CertificateFault::Malformed(total));
    }
    let count = head[0] as usize;
    if count == 0 || count > 13 {
        Err(CertificateFault::Malformed(0))
    } else if !is_blank(&head[1..4]) {
        Err(CertificateFault::Malformed(1))
    } else if total < 84 + 8 * count {
        Err(CertificateFault::Malformed(total))
    } else {
        Ok(count)
    }
}

// The table of `count` entries, and where the last seal ends.
fn read_table(boxes: u8, count: usize, head: &[u8]) -> Result<([Entry; 13], u32), CertificateFault>
    requires { (count ≤ 13) × (4 + 8 * count ≤ length head.now) }
    ensures entries { listed count result ≡ read_rows boxes count 4 0 (84 + 8 * count) head.now }
    ensures end { IfOk result (λ t. t.1 ≡ seals_end (84 + 8 * count) (take count t.0)) }
{
    let blank = Entry {
        signer: Signer { number: 0, size: 0 },
        place: 0,
    };
    let mut table = [blank; 13];
    let mut least = 0u16;
    let mut place = 84 + 8 * count as u32;
    let (rows, _) = head[4..4 + 8 * count].as_chunks();
    // By index, since of entries that are written through `iter_mut` a proof knows only how many there are.
    for (i, row) in rows.iter().enumerate() {
        let entry = read_row(boxes, 4 + 8 * i, least, place, row)?;
        least = entry.signer.next_number();
        place = entry.signer.next_place(place);
        table[i] = entry;
    }
    Ok((table, place))
}

// One entry of the table, which starts at `at`.
fn read_row(
    boxes: u8,
    at: usize,
    least: u16,
    place: u32,
    row: &[u8; 8],
) -> Result<Entry, CertificateFault>
    requires { at ≤ 100 }
    ensures { judged certificate_reading result ≡ read_row boxes at least place row.now }
{
    let entry = entry_of(row);
    match wrong_field(boxes, least, place, row[1], entry) {
        None => Ok(entry),
        Some(offset) => Err(CertificateFault::Malformed(at + offset)),
    }
}

// What a row says, which nobody has judged yet; a `From` would offer that to every caller of the crate.
fn entry_of(row: &[u8; 8]) -> Entry
    ensures { result ≡ entry_of row.now }
{
    let [number, _, s0, s1, p0, p1, p2, p3] = *row;
    Entry {
        signer: Signer {
            number,
            size: u16::from_be_bytes([s0, s1]),
        },
        place: u32::from_be_bytes([p0, p1, p2, p3]),
    }
}

// The offset of an entry's first wrong field. An Option, since its caller says which fault it is, and where the entry
// starts.
fn wrong_field(boxes: u8, least: u16, place: u32, reserved: u8, entry: Entry) -> Option<usize>
    ensures answer { result ≡ wrong_field boxes least place reserved entry }
{
    if (entry.signer.number as u16) < least || entry.signer.number >= boxes {
        Some(0)
    } else if reserved != 0 {
        Some(1)
    } else if entry.signer.size == 0 || entry.signer.size > LONGEST_SEAL {
        Some(2)
    } else if entry.place != place {
        Some(4)
    } else {
        None
    }
}

// The docket that starts at `place`.
fn read_docket(head: &[u8], place: usize) -> Result<Docket, CertificateFault>
    requires { place + 80 ≤ length head.now }
    ensures { judged certificate_reading result ≡ read_inner place head.now }
{
    let bytes = &head[place..place + 80];
    let docket = Docket::read(bytes).map_err(|fault| DocketFaultAt { place, fault })?;
    Ok(docket)
}
