// A store of marks in host bytes, which outlive the box.
#![tactic(auto)]

ghost use Rattle.std.specs.Prelude.{◌≡◌, ℕ, ◌+◌, ◌-◌, ◌^◌, ◌<◌, ◌≤◌, true, ◌&&◌, [], ◌∷◌, ◌++◌, length, take, drop, IfOk, Ok, ◌≢◌, false, MatchOption};
ghost use Rattle.layout.specs.Bytes.{blank};
ghost use Rattle.docket.specs.Layout.{read_docket, encoded};
ghost use Rattle.sheet.specs.Sheet.{count_of, end_of, fit, record_at, records, of_account, last_of, stays_by, keep_last, counted, contents, with_room, owner_on, mark_on, row_on, head_clear, all_read, laid_out, IsMadeOf, rest_clear, well_laid, SameHead, Wrote, Lasts, lent, OpensSheet};
ghost use Rattle.sheet.specs.Own.{mark_on_lem};
ghost use Rattle.marks.specs.Marks.{well_formed, write_answer, mark_after, row_after};

use docket::Docket;
use layout::is_blank;
use marks::{MarkStore, StoreFault, give, is_well_formed};

// The bytes of the head, and those of a record.
const HEAD: usize = 16;

const RECORD: usize = 80;

// The lengths that a sheet may have.
const SHORTEST: usize = HEAD + 65 * RECORD;

const LONGEST: usize = 65536;

// What the bytes of a sheet are made of: its head, its records and what follows them.
#[derive(Clone, Copy)]
struct Parts<'a> {
    head: &'a [u8; HEAD],
    records: &'a [[u8; RECORD]],
    rest: &'a [u8],
}

impl<'a> Parts<'a> {
    // Takes bytes apart that have a sheet's length, and space for the records that they count.
    fn of(bytes: &'a [u8]) -> Option<Parts<'a>>
        ensures { MatchOption result (fit bytes.now ≡ false) (IsMadeOf bytes.now) }
    {
        if !(SHORTEST..=LONGEST).contains(&bytes.len()) {
            return None;
        }
        let count = count(bytes);
        let rest = bytes.get(end_of(count)..)?;
        Some(Parts {
            head: bytes.first_chunk()?,
            records: records(bytes, count),
            rest,
        })
    }

    // The head's bytes besides owner and count are zero, every record is a docket, and zeros follow them.
    fn are_laid(self) -> bool
        ensures { result ≡ laid_out self.entry }
    {
        let head = self.head;
        head[1] == 0 && is_blank(&head[4..]) && are_read(self.records) && is_blank(self.rest)
    }
}

// How many records the head counts. Here and below a length is required of bytes where `Parts`, which only lends, would
// not serve: where they are about to be taken apart or written.
fn count(bytes: &[u8]) -> usize
    requires { 4 ≤ length bytes.now }
    ensures { result ≡ count_of bytes.now }
{
    usize::from(u16::from_be_bytes([bytes[2], bytes[3]]))
}

// Where the first `count` records end.
fn end_of(count: usize) -> usize
    requires { end_of count < 2 ^ 64 }
    ensures { result ≡ end_of count }
{
    HEAD + RECORD * count
}

// The first `count` records. Bytes and count go together here and in the three calls that write
// records: `Parts` lends what is read, and these write it.
fn records(bytes: &[u8], count: usize) -> &[[u8; RECORD]]
    requires { end_of count ≤ length bytes.now }
    ensures value { result.now ≡ records 0 count bytes.now }
    ensures len { length result.now ≡ count }
{
    let (records, _) = bytes[HEAD..end_of(count)].as_chunks();
    records
}

// A record, if it is a docket of the account.
fn of_account(record: &[u8; RECORD], account: u8) -> Option<Docket>
    ensures { result ≡ of_account account (read_docket «record».now) }
{
    Docket::read(record)
        .ok()
        .filter(|docket| docket.account == account)
}

// The last record of an account.
fn last_of(records: &[[u8; RECORD]], account: u8) -> Option<Docket>
    ensures { result ≡ last_of account records.now }
{
    records
        .iter()
        .rev()
        .find_map(|record| of_account(record, account))
}

// Whether a record is a docket, with no later one of its account.
fn stays(record: &[u8; RECORD], later: &[[u8; RECORD]]) -> bool
    ensures { result ≡ stays_by (read_docket «record».now) later.now }
{
    Docket::read(record).is_ok_and(|docket| last_of(later, docket.account).is_none())
}

// Whether every record is a docket.
fn are_read(records: &[[u8; RECORD]]) -> bool
    ensures { result ≡ all_read records.now }
{
    records.iter().all(|record| Docket::read(record).is_ok())
}

// Copies a record to another place.
fn copy_record(bytes: &mut [u8], from: usize, to: usize)
    requires { (to ≤ from) × (end_of from + 80 ≤ length bytes.old) }
    ensures record { record_at to bytes.new ≡ record_at from bytes.old }
    ensures others { (k : ℕ) → (k ≢ to) → record_at k bytes.new ≡ record_at k bytes.old }
    ensures head { take 16 bytes.new ≡ take 16 bytes.old }
{
    bytes.copy_within(end_of(from)..end_of(from + 1), end_of(to));
}

// Drops each record that is no docket or has a later one of its account, and answers how many are left.
// By index, since the loop writes the bytes that it reads; `retain` is a Vec's, and there is no heap here.
fn compact(bytes: &mut [u8], count: usize) -> usize
    requires { end_of count ≤ length bytes.old }
    ensures left { records 0 result bytes.new ≡ keep_last (records 0 count bytes.old) }
    ensures few { result ≤ 64 }
    ensures fewer { result ≤ count }
    ensures head { take 16 bytes.new ≡ take 16 bytes.old }
{
    let mut place = 0;
    for i in 0..count {
        let records = records(bytes, count);
        if stays(&records[i], &records[i + 1..]) {
            copy_record(bytes, i, place);
            place += 1;
        }
    }
    place
}

// Counts the records. Byte by byte, as their definition says it: a part that is copied in is no plainer.
fn set_count(bytes: &mut [u8], count: usize)
    requires { (16 ≤ length bytes.old) × (count < 65536) }
    ensures { bytes.new ≡ counted count bytes.old }
{
    let [high, low] = (count as u16).to_be_bytes();
    bytes[2] = high;
    bytes[3] = low;
}

// Zeros all that lies behind the records.
fn clear_rest(bytes: &mut [u8], count: usize)
    requires { end_of count ≤ length bytes.old }
    ensures front { take (end_of count) bytes.new ≡ take (end_of count) bytes.old }
    ensures rest { blank (drop (end_of count) bytes.new) ≡ true }
{
    bytes[end_of(count)..].fill(0);
}

// Makes space for another record, where there is none, by dropping those that have a later one of their account.
fn make_room(bytes: &mut [u8])
    requires { fit bytes.old ≡ true }
    ensures rows { contents bytes.new ≡ with_room bytes.old }
    ensures space { end_of (count_of bytes.new) + 80 ≤ length bytes.new }
    ensures head { SameHead bytes.old bytes.new }
    ensures rest { rest_clear bytes.old ≡ true → rest_clear bytes.new ≡ true }
{
    let count = count(bytes);
    if end_of(count + 1) <= bytes.len() {
        return;
    }
    let left = compact(bytes, count);
    clear_rest(bytes, left);
    set_count(bytes, left);
}

// Writes a docket after the last record.
fn append(bytes: &mut [u8], docket: &Docket) -> bool
    requires { (well_formed docket.now ≡ true) × ((end_of (count_of bytes.old) + 80 ≤ length bytes.old) × (length bytes.old ≤ 65536)) }
    ensures stood { result ≡ true }
    ensures rows { contents bytes.new ≡ contents bytes.old ++ encoded docket.now ∷ [] }
    ensures space { end_of (count_of bytes.new) ≤ length bytes.new }
    ensures head { SameHead bytes.old bytes.new }
    ensures rest { rest_clear bytes.old ≡ true → rest_clear bytes.new ≡ true }
    ensures back { read_docket (encoded docket.now) ≡ Ok docket.now }
{
    let count = count(bytes);
    let at = end_of(count);
    let stood = docket.write(&mut bytes[at..at + RECORD]).is_ok();
    set_count(bytes, count + 1);
    stood
}

// Writes a mark; nothing changes where the docket is malformed or the bytes are no sheet.
fn write_mark(bytes: &mut [u8], docket: &Docket) -> bool
    ensures answer { result ≡ write_answer (row_on bytes.old) docket.now }
    ensures wrote { Wrote bytes.old docket.now bytes.new }
{
    if !is_well_formed(docket) || Parts::of(bytes).is_none() {
        return false;
    }
    make_room(bytes);
    append(bytes, docket)
}

// Whether the bytes are a sheet.
fn is_laid(bytes: &[u8]) -> bool
    ensures { result ≡ well_laid bytes.now }
{
    Parts::of(bytes).is_some_and(|parts| parts.are_laid())
}

// The mark of an account; bytes that are no sheet have none.
fn find(bytes: &[u8], account: u8) -> Option<Docket>
    ensures { result ≡ mark_on bytes.now account }
{
    last_of(Parts::of(bytes)?.records, account)
}

// No fact is kept of the bytes, so every call is right over any bytes.
#[derive(Drop)]
pub struct Sheet<'a> {
    bytes: &'a mut [u8],
}

impl<'a> Sheet<'a> {
    // Refuses bytes of wrong length or layout. What is written through the sheet is there when the bytes are opened
    // again, with the same owner.
    #[tactic(auto, using(crate::proofs::Lasting::lasts))]
    pub fn open(bytes: &'a mut [u8]) -> Result<Sheet<'a>, StoreFault>
        ensures opens { OpensSheet bytes.old result }
        ensures place { IfOk result (λ sheet. sheet.bytes.ghost_name ≡ bytes.entry.ghost_name) }
        ensures lasts { Lasts bytes.old }
    {
        if is_laid(bytes) {
            Ok(Sheet { bytes })
        } else {
            Err(StoreFault::Layout)
        }
    }
}

impl<'a> MarkStore for Sheet<'a> {
    ghost owner_of = { λ sheet. owner_on (lent sheet) };

    ghost mark = { λ sheet. mark_on (lent sheet) };

    ghost row = { λ sheet. row_on (lent sheet) };

    ghost own = { λ sheet. mark_on_lem (lent sheet) };

    fn owner(&self) -> u8 {
        self.bytes.first().copied().unwrap_or(0)
    }

    fn read(&self, account: u8, out: &mut [u8; 80]) -> bool {
        give(find(self.bytes, account), out)
    }

    // What the host's bytes hold then; clauses of a method's own stand for the trait's, so those are said again.
    fn write(&mut self, docket: &Docket) -> bool
        ensures answer { result ≡ write_answer (row_on (lent self.old)) docket.now }
        ensures marks { (a : ℕ) → mark_on (lent self.new) a ≡ mark_after (mark_on (lent self.old)) (row_on (lent self.old)) docket.now a }
        ensures row { row_on (lent self.new) ≡ row_after (row_on (lent self.old)) docket.now }
        ensures owner { owner_on (lent self.new) ≡ owner_on (lent self.old) }
        ensures wrote { Wrote (lent self.old) docket.now (lent self.new) }
        ensures place { self.new.bytes.ghost_name ≡ self.old.bytes.ghost_name }
    {
        write_mark(self.bytes, docket)
    }
}
