// One key among those of all parties.
ghost use Rattle.std.specs.Prelude.{◌≡◌, if◌then◌else◌};
ghost use Rattle.lms.specs.Keys.{good_under};

use lms::{KEYS, Keys};
use seals::Checker;

// The last party, so that its key is found at the end of the bytes.
const PARTY: u8 = 76;

// Where its key begins.
pub const KEY_START: usize = KEYS - 56;

// Whether the seal is good under the last party's key.
pub fn is_good(keys: &[u8; KEYS], text: &[u8], seal: &[u8]) -> bool
    ensures { result ≡ good_under keys.now 76 text.now seal.now }
{
    match Keys::open(keys) {
        Ok(checker) => checker.check(PARTY, text, seal),
        Err(_) => unreachable(),
    }
}

// How many of `n` checks of one seal find it good. The loop counts checks, and indexes nothing.
pub fn count_good(keys: &[u8; KEYS], text: &[u8], seal: &[u8], n: u32) -> u32
    ensures { result ≡ (if good_under keys.now 76 text.now seal.now then n else 0) }
{
    let mut count = 0;
    for _i in 0..n {
        count += u32::from(is_good(keys, text, seal));
    }
    count
}
