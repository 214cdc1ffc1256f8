// Seals and who judges them.
#![tactic(auto)]

ghost use Rattle.std.specs.Prelude.{◌≡◌, ℕ, Bool, List};
ghost use Rattle.seals.specs.Texts.{countersign_text};

mod fault;
mod roll;

pub use fault::CheckerFault;
pub use roll::Roll;

// Judges seals: a fixed yes or no for a party, a text and a seal.
// Parties 0 to 63 are yards, and 64 + b is box b.
pub trait Checker {
    ghost good: { Self → ℕ → List ℕ → List ℕ → Bool };

    fn check(&self, party: u8, text: &[u8], seal: &[u8]) -> bool
        ensures { result ≡ good self.now party text.now seal.now };
}

// The text that a box seals for a docket: the byte 2, the box's number and the docket.
pub fn countersign_text(box_number: u8, docket: &[u8; 80]) -> [u8; 82]
    ensures { result ≡ countersign_text box_number docket.now }
{
    let mut text = [0; 82];
    text[0] = 2;
    text[1] = box_number;
    text[2..].copy_from_slice(docket);
    text
}
