// A checker by list: a seal is good when it names its own entry in the roll.
ghost use Rattle.std.specs.Prelude.{◌≡◌};
ghost use Rattle.seals.specs.Roll.{laid, is_of, good_under, lent, Opens};

use super::{Checker, CheckerFault};

// The bytes of an entry: the party, the text's length, and the text with zeros up to 82 bytes.
const ENTRY: usize = 84;

// The roll's bytes are lent; no fact is kept of them, so every call is right over any bytes.
#[derive(Clone, Copy)]
pub struct Roll<'a> {
    bytes: &'a [u8],
}

impl<'a> Roll<'a> {
    // Refuses bytes of wrong length or layout. An empty roll is one under which no seal is good.
    pub fn open(bytes: &'a [u8]) -> Result<Roll<'a>, CheckerFault>
        ensures { Opens bytes.now result }
    {
        let (entries, rest) = bytes.as_chunks();
        if rest.is_empty() && entries.iter().all(|entry| is_laid(entry)) {
            Ok(Roll { bytes })
        } else {
            Err(CheckerFault::Layout)
        }
    }
}

// A text is of 82 bytes, or of 80 and two zeros.
fn is_laid(entry: &[u8; ENTRY]) -> bool
    ensures { result ≡ laid entry.now }
{
    matches!(entry, [_, 82, ..] | [_, 80, .., 0, 0])
}

// The entry has this party, this length and this text.
fn is_of(entry: &[u8; ENTRY], party: u8, text: &[u8]) -> bool
    ensures { result ≡ is_of entry.now party text.now }
{
    entry[0] == party && usize::from(entry[1]) == text.len() && entry[2..].starts_with(text)
}

impl<'a> Checker for Roll<'a> {
    ghost good = { λ roll. good_under (lent roll) };

    fn check(&self, party: u8, text: &[u8], seal: &[u8]) -> bool {
        let [high, low] = seal else {
            return false;
        };
        let index = usize::from(u16::from_be_bytes([*high, *low]));
        let (entries, _) = self.bytes.as_chunks();
        match entries.get(index) {
            Some(entry) => is_of(entry, party, text),
            None => false,
        }
    }
}
