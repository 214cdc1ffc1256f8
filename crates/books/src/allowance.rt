// The allowance: a layer over any book that lets each account make so many lines since the opening and no more.
ghost use Rattle.std.specs.Prelude.{◌≡◌};
ghost use Rattle.books.specs.Allowance.{Spent, allowance_answer, allowance_next, allowance_valid, no_lines, spent};
ghost use Rattle.books.specs.Counts.{allowance_independent};
ghost use Rattle.std.proofs.Common.{rules};

use book::{Book, LAST_ACCOUNT};

// The book below, and how many lines each account has made in its kept and in its current state.
// At the opening no account has made a line, so those counts are not stored. Kept and current are two fields as in the
// pallet book, of fixed memory.
#[derive(Drop)]
pub struct Allowance<B> {
    below: B,
    maximum: u16,
    kept: [u16; 64],
    current: [u16; 64],
}

#[tactic(auto, unfolding(crate::specs::Allowance::no_lines))]
fn no_lines() -> [u16; 64]
    ensures { result ≡ no_lines }
{
    [0; 64]
}

impl<B: Book> Allowance<B> {
    // Stands over a book at its opening.
    pub fn new(mut below: B, maximum: u16) -> Allowance<B>
        ensures opening { spent result.maximum no_lines (B.opening result.below) ≡ spent maximum no_lines (B.opening below) }
        ensures kept { spent result.maximum result.kept (B.kept result.below) ≡ spent maximum no_lines (B.opening below) }
        ensures current { spent result.maximum result.current (B.current result.below) ≡ spent maximum no_lines (B.opening below) }
    {
        below.reset();
        Allowance {
            below,
            maximum,
            kept: no_lines(),
            current: no_lines(),
        }
    }
}

impl<B: Book> Book for Allowance<B> {
    type Question = B::Question;

    type Answer = B::Answer;

    ghost State = { Spent B.State };

    ghost opening = { λ a. spent a.maximum no_lines (B.opening a.below) };

    ghost kept = { λ a. spent a.maximum a.kept (B.kept a.below) };

    ghost current = { λ a. spent a.maximum a.current (B.current a.below) };

    ghost listed = { B.listed };

    ghost valid = { allowance_valid B.valid };

    ghost next = { allowance_next B.next };

    ghost answer = { allowance_answer B.answer };

    ghost kinds = { Prim.search rules };

    // of validity and next state alone, as the book's law
    ghost independence = { λ a. allowance_independent B.valid B.next (spent a.maximum no_lines (B.opening a.below)) (B.independence a.below) };

    fn lists(kind: u8) -> bool {
        B::lists(kind)
    }

    fn apply(&mut self, account: u8, line: &[u8; 16]) -> bool {
        if account > LAST_ACCOUNT || self.current[account as usize] >= self.maximum {
            return false;
        }
        let made = self.below.apply(account, line);
        if made {
            self.current[account as usize] += 1;
        }
        made
    }

    fn keep(&mut self) {
        self.below.keep();
        self.kept = self.current;
    }

    fn back(&mut self) {
        self.below.back();
        self.current = self.kept;
    }

    fn reset(&mut self) {
        self.below.reset();
        self.kept = no_lines();
        self.current = no_lines();
    }

    fn ask(&self, question: B::Question) -> B::Answer {
        self.below.ask(question)
    }
}
