// The docket: a numbered, sealed transaction of one account, and its 80 bytes.
#![tactic(auto)]

ghost use Rattle.std.specs.Prelude.{◌≡◌, ◌+◌, ◌*◌, length, take, drop, IfOk, Ok, Decides, OnOk};
ghost use Rattle.refusals.specs.Reading.{judged};
ghost use Rattle.docket.specs.Faults.{docket_reading};
ghost use Rattle.docket.specs.Layout.{wrong_line, wrong_place, decoded, encoded, Sized, read_docket, write_answer, write_buffer, used_lines, same_fields};
ghost use Rattle.std.specs.Cmp.Rules.{comparing};
ghost use Rattle.std.proofs.Common.{rules};

pub mod faults;

pub use faults::DocketFault;
use layout::is_blank;

// Accounts go from 0 to this one, and dockets' numbers from 1 to this one. The books have a constant of their own for
// accounts, since neither crate stands on the other.
const LAST_ACCOUNT: u8 = 63;

const LAST_NUMBER: u64 = 1 << 40;

// A docket value has plain fields, so that a malformed one can be handed to the writer.
#[derive(Clone, Copy, Debug)]
pub struct Docket {
    // The pool that it is meant for.
    pub pool: u32,
    // The account of the yard that issues it, 0 to 63.
    pub account: u8,
    // How many of its lines are used, 1 to 4.
    pub count: u8,
    // Its number among the account's dockets, 1 to 2^40.
    pub number: u64,
    // Its lines, the claims that it makes on the book; those past the count are zero.
    pub lines: [[u8; 16]; 4],
}

// Two dockets are equal where all their fields are. By hand, since a derived `eq` has the trait's clause alone, and not
// the fact that it decides equality.
impl PartialEq for Docket {
    ghost eq = { same_fields };

    ghost laws = { Prim.search (comparing, rules) depth 14 };

    #[tactic(auto, using(crate::proofs::RoundTrip::fields_decide))]
    fn eq(&self, other: &Docket) -> bool
        ensures answer { result ≡ same_fields self.now other.now }
        ensures same { Decides result (self.now ≡ other.now) }
    {
        self.pool == other.pool
            && self.account == other.account
            && self.count == other.count
            && self.number == other.number
            && self.lines == other.lines
    }
}

impl Eq for Docket {
    ghost laws = { Prim.search (comparing, rules) depth 14 };
}

impl Docket {
    // Takes 80 bytes apart. A wrong field or line is refused at its offset, a wrong length at itself.
    // What is read is written as the same bytes.
    pub fn read(bytes: &[u8]) -> Result<Docket, DocketFault>
        ensures answer { judged docket_reading result ≡ read_docket bytes.now }
        ensures same { IfOk result (λ d. encoded d ≡ bytes.now) }
    {
        let Some(bytes) = bytes.as_array() else {
            return Err(DocketFault::Malformed(bytes.len()));
        };
        let docket = decode(bytes);
        match docket.wrong_place(is_blank(&bytes[6..8])) {
            Some(place) => Err(DocketFault::Malformed(place)),
            None => Ok(docket),
        }
    }

    // Writes the docket's 80 bytes to the start of the buffer, if it is well formed and they fit.
    // What is written reads back equal.
    pub fn write(&self, out: &mut [u8]) -> Result<(), DocketFault>
        ensures answer { judged docket_reading result ≡ write_answer self.now out.old }
        ensures buffer { out.new ≡ write_buffer self.now out.old }
        ensures back { OnOk result (read_docket (take 80 out.new) ≡ Ok self.now) }
    {
        if let Some(place) = self.wrong_place(true) {
            return Err(DocketFault::Malformed(place));
        }
        let Some(front) = out.first_chunk_mut::<80>() else {
            return Err(DocketFault::ShortBuffer);
        };
        *front = self.to_bytes();
        Ok(())
    }

    // The layout of the fields, whether they are well formed or not. A method and no `From`: this is the call's name.
    pub fn to_bytes(&self) -> [u8; 80]
        ensures value { result ≡ encoded self.now }
        ensures sized { Sized self.now }
    {
        let Docket { account, count, .. } = *self;
        let [p0, p1, p2, p3] = self.pool.to_be_bytes();
        let [n0, n1, n2, n3, n4, n5, n6, n7] = self.number.to_be_bytes();
        let head = [
            p0, p1, p2, p3, account, count, 0, 0, n0, n1, n2, n3, n4, n5, n6, n7,
        ];
        let [a, b, c, d] = self.lines;
        let rows = [head, a, b, c, d];
        *rows.as_flattened().as_array().unwrap()
    }

    // The lines that count, in their order.
    pub fn used_lines(&self) -> &[[u8; 16]]
        ensures { result.now ≡ used_lines self.now }
    {
        let end = self.lines.len().min(self.count as usize);
        &self.lines[0..end]
    }

    // The offset of the first wrong field or line. `clear` says that the reserved bytes are zero. An Option, since which
    // fault it is, its caller says.
    fn wrong_place(&self, clear: bool) -> Option<usize>
        ensures { result ≡ wrong_place self.now clear }
    {
        if self.account > LAST_ACCOUNT {
            Some(4)
        } else if self.count == 0 || self.count > 4 {
            Some(5)
        } else if !clear {
            Some(6)
        } else if self.number == 0 || self.number > LAST_NUMBER {
            Some(8)
        } else {
            wrong_line(self.count, &self.lines)
        }
    }
}

// The offset of the first line past the count that is not blank.
fn wrong_line(count: u8, lines: &[[u8; 16]; 4]) -> Option<usize>
    ensures { result ≡ wrong_line count 0 lines.now }
{
    let count = count as usize;
    lines
        .iter()
        .enumerate()
        .position(|(i, line)| i >= count && !is_blank(line))
        .map(|i| 16 + 16 * i)
}

// The fields of the layout, whether they are well formed or not; a `From` would offer them to every caller.
fn decode(bytes: &[u8; 80]) -> Docket
    ensures { result ≡ decoded bytes.now }
{
    let [
        p0,
        p1,
        p2,
        p3,
        account,
        count,
        _,
        _,
        n0,
        n1,
        n2,
        n3,
        n4,
        n5,
        n6,
        n7,
        ..
    ] = *bytes;
    let (rows, _) = bytes.as_chunks::<16>();
    Docket {
        pool: u32::from_be_bytes([p0, p1, p2, p3]),
        account,
        count,
        number: u64::from_be_bytes([n0, n1, n2, n3, n4, n5, n6, n7]),
        lines: [rows[1], rows[2], rows[3], rows[4]],
    }
}
