// Marks: votes that are written down before they are given out.
#![tactic(auto)]

ghost use Rattle.std.specs.Prelude.{◌≡◌, ℕ, true, List, IfSome, Option};
ghost use Rattle.docket.specs.declared.Docket.{Docket};
ghost use Rattle.marks.specs.Marks.{OwnMarks, ReadsBack, well_formed, read_answer, read_buffer, write_answer, mark_after, row_after};
ghost use Rattle.marks.specs.Outcomes.{End};
ghost use Rattle.marks.specs.Table.{owner_in, mark_in, row_in, Starts};
ghost use Rattle.marks.specs.Kept.{mark_of};

pub mod fault;
pub mod outcome;
pub mod row;
pub mod table;

use docket::Docket;
pub use fault::StoreFault;
pub use outcome::Outcome;
pub use row::Row;
pub use table::TableStore;

// A store of marks means an owner, for each account no mark or one docket of that account, and a row of outcomes for
// coming writes. Every mark is a well-formed docket of its account.
pub trait MarkStore {
    ghost owner_of: { Self → ℕ };

    ghost mark: { Self → ℕ → Option Docket };

    ghost row: { Self → List End };

    // The box whose marks it keeps.
    fn owner(&self) -> u8
        ensures answer { result ≡ owner_of self.now };

    // Puts the bytes of an account's mark into the buffer, or answers no and leaves the buffer as it is.
    // By a rule of the project a mark goes into the caller's buffer, with a yes or no beside it.
    fn read(&self, account: u8, out: &mut [u8; 80]) -> bool
        ensures answer { result ≡ read_answer (mark self.now account) }
        ensures buffer { out.new ≡ read_buffer (mark self.now account) out.old }
        ensures back { ReadsBack (mark self.now account) };

    // Writes a mark, as the next outcome says, and answers whether that stood. A malformed docket changes nothing.
    fn write(&mut self, docket: &Docket) -> bool
        ensures answer { result ≡ write_answer (row self.old) docket.now }
        ensures marks { (a : ℕ) → mark self.new a ≡ mark_after (mark self.old) (row self.old) docket.now a }
        ensures row { row self.new ≡ row_after (row self.old) docket.now }
        ensures owner { owner_of self.new ≡ owner_of self.old };

    ghost own: { (s : Self) → OwnMarks (mark s) };
}

// Whether a store may keep the docket as a mark. Public, as every store needs it.
pub fn is_well_formed(docket: &Docket) -> bool
    ensures { result ≡ well_formed docket.now }
{
    let mut bytes = [0; 80];
    docket.write(&mut bytes).is_ok()
}

// Puts the bytes of a mark, if there is one, into the buffer, as `read` answers, by the same rule of the project. Public, as
// every store reads so.
pub fn give(mark: Option<Docket>, out: &mut [u8; 80]) -> bool
    ensures answer { result ≡ read_answer mark }
    ensures buffer { out.new ≡ read_buffer mark out.old }
    ensures back { IfSome mark (λ d. well_formed d ≡ true) → ReadsBack mark }
{
    match mark {
        Some(docket) => {
            *out = docket.to_bytes();
            true
        }
        None => false,
    }
}

impl TableStore {
    // An unmarked store. A row of more than 64 outcomes is refused.
    pub fn new(owner: u8, row: &[Outcome]) -> Result<TableStore, StoreFault>
        ensures { Starts owner row.now result }
    {
        let row = Row::new(row).ok_or(StoreFault::Layout)?;
        Ok(TableStore {
            owner,
            marks: [None; 64],
            row,
        })
    }

    fn get(&self, account: u8) -> Option<Docket>
        ensures { result ≡ mark_in self.now account }
    {
        self.marks.get(usize::from(account)).copied().flatten()
    }
}

impl MarkStore for TableStore {
    ghost owner_of = { owner_in };

    ghost mark = { mark_in };

    ghost row = { row_in };

    ghost own = { λ s a d e. mark_of s.marks a d s.own e };

    fn owner(&self) -> u8 {
        self.owner
    }

    fn read(&self, account: u8, out: &mut [u8; 80]) -> bool {
        give(self.get(account), out)
    }

    fn write(&mut self, docket: &Docket) -> bool {
        if !is_well_formed(docket) {
            return false;
        }
        let outcome = self.row.take();
        if outcome.lands() {
            self.marks[usize::from(docket.account)] = Some(*docket);
        }
        outcome.stands()
    }
}
