// SHA-256 of FIPS 180-4.
#![tactic(auto)]

ghost use Rattle.std.specs.Prelude.{◌≡◌};
ghost use Rattle.sha256.specs.Digest.{sha256};
ghost use Rattle.sha256.specs.Examples.{Abc};

mod compression;
mod hasher;

pub use hasher::Hasher;

// The clause `example` is FIPS 180-4's own example of the definition that `value` cites.
pub fn digest(text: &[u8]) -> [u8; 32]
    ensures value { result ≡ sha256 text.now }
    ensures example { Abc }
{
    let mut hasher = Hasher::new();
    hasher.update(text);
    hasher.finish()
}
