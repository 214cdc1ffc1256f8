// Digests of long texts, made as they are hashed.
ghost use Rattle.std.specs.Prelude.{◌≡◌, ℕ, ◌<◌, slice_index};
ghost use Rattle.lms_vectors.specs.Repeats.{repeated};
ghost use Rattle.sha256.specs.Digest.{sha256};

use sha256::Hasher;
use std::array;

// The bytes 0, 1, .. 255.
pub fn ramp() -> [u8; 256]
    ensures { (k : ℕ) → k < 256 → slice_index result k ≡ k }
{
    array::from_fn(|i| i as u8)
}

// The digest of the first `n` bytes of a pattern that goes on and on. The loop counts turns, and indexes nothing.
pub fn repeated_digest(pattern: &[u8; 256], n: usize) -> [u8; 32]
    ensures { result ≡ sha256 (repeated n pattern.now) }
{
    let mut hasher = Hasher::new();
    for _i in 0..n / 256 {
        hasher.update(pattern);
    }
    hasher.update(&pattern[0..n % 256]);
    hasher.finish()
}
