// A checker over the keys of all parties.
ghost use Rattle.std.specs.Prelude.{◌≡◌, ◌<◌, ◌≤◌, MatchOption};
ghost use Rattle.lms.specs.Keys.{lent, Opens, key_of, good_under};

use super::verify::is_verified;
use seals::{Checker, CheckerFault};

// The bytes of a key.
const KEY: usize = 56;

// The bytes of the keys of parties 0 to 76.
pub const KEYS: usize = 4312;

// The keys' bytes are lent, and no fact is kept of what they hold.
#[derive(Clone, Copy)]
pub struct Keys<'a> {
    bytes: &'a [u8; KEYS],
}

impl<'a> Keys<'a> {
    // Refuses bytes of another length. What a key holds is judged by each check: one of other types makes no seal good.
    pub fn open(bytes: &'a [u8]) -> Result<Keys<'a>, CheckerFault>
        ensures { Opens bytes.now result }
    {
        match bytes.as_array::<KEYS>() {
            Some(bytes) => Ok(Keys { bytes }),
            None => Err(CheckerFault::Layout),
        }
    }
}

impl<'a> Checker for Keys<'a> {
    ghost good = { λ keys. good_under (lent keys) };

    fn check(&self, party: u8, text: &[u8], seal: &[u8]) -> bool {
        match key_of(self.bytes, party) {
            Some(key) => is_verified(key, text, seal),
            None => false,
        }
    }
}

fn key_of(keys: &[u8; KEYS], party: u8) -> Option<&[u8; KEY]>
    ensures { MatchOption result (76 < party) (λ key. (party ≤ 76) × (key.now ≡ key_of party keys.now)) }
{
    let (keys, _) = keys.as_chunks::<KEY>();
    keys.get(usize::from(party))
}
