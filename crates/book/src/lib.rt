// The book: a replicated state machine that settled lines move on.
#![tactic(auto)]

ghost use Rattle.std.specs.Prelude.{◌≡◌, ℕ, Bool, List, if◌then◌else◌};
ghost use Rattle.book.specs.Law.{OnlyListed, WeaklyIndependent};

mod fault;
mod pallets;

pub use fault::BookFault;
pub use pallets::{LAST_ACCOUNT, PalletBook};

// A book means three states of its own kind: the opening, the kept and the current one.
// A state, an account and a line alone say whether the line is valid and which state follows.
pub trait Book {
    type Question;

    type Answer;

    ghost State: { Type 0 };

    ghost opening: { Self → State };

    ghost kept: { Self → State };

    ghost current: { Self → State };

    // The kinds of line that it knows.
    ghost listed: { ℕ → Bool };

    // Whether a line of an account is valid in a state, and the state that follows a valid one.
    ghost valid: { State → ℕ → List ℕ → Bool };

    ghost next: { State → ℕ → List ℕ → State };

    ghost answer: { State → Self.Question → Self.Answer };

    // Whether it knows this kind of line.
    fn lists(kind: u8) -> bool
        ensures { result ≡ listed kind };

    // Makes a valid line and answers yes; else answers no and changes nothing.
    fn apply(&mut self, account: u8, line: &[u8; 16]) -> bool
        ensures answer { result ≡ valid (current self.old) account line.now }
        ensures current { current self.new ≡ (if valid (current self.old) account line.now then next (current self.old) account line.now else current self.old) }
        ensures kept { kept self.new ≡ kept self.old }
        ensures opening { opening self.new ≡ opening self.old };

    // Keeps the current state.
    fn keep(&mut self)
        ensures current { current self.new ≡ current self.old }
        ensures kept { kept self.new ≡ current self.old }
        ensures opening { opening self.new ≡ opening self.old };

    // Goes back to the kept state.
    fn back(&mut self)
        ensures current { current self.new ≡ kept self.old }
        ensures kept { kept self.new ≡ kept self.old }
        ensures opening { opening self.new ≡ opening self.old };

    // Starts again from the opening.
    fn reset(&mut self)
        ensures current { current self.new ≡ opening self.old }
        ensures kept { kept self.new ≡ opening self.old }
        ensures opening { opening self.new ≡ opening self.old };

    // What the current state answers.
    fn ask(&self, question: Self::Question) -> Self::Answer
        ensures { result ≡ answer (current self.now) question };

    ghost kinds: { OnlyListed listed valid };

    ghost independence: { (b : Self) → WeaklyIndependent valid next (opening b) };
}
