// The one-time signature: digits, chains and the one-time public key.
ghost use Rattle.std.specs.Prelude.{◌≡◌};
ghost use Rattle.lms.specs.Chains.{step, chained, checksum, digits_of, chain_ends};
ghost use Rattle.lms.specs.Hashes.{one_time_key};

use super::hashes::{D_PBLC, Node};
use layout::put;
use sha256::{Hasher, digest};

fn one_step(front: &[u8; 22], j: u8, value: &[u8; 32]) -> [u8; 32]
    ensures { result ≡ step front.now j value.now }
{
    let mut input = [0; 55];
    put(&mut input, 0, front);
    put(&mut input, 22, &[j]);
    put(&mut input, 23, value);
    digest(&input)
}

// From the value at `first` to the chain's end. Each step hashes its own number, so the loop counts it; a
// fold was tried, and its proof did not close.
fn chain_end(front: &[u8; 22], first: u8, start: [u8; 32]) -> [u8; 32]
    ensures { result ≡ chained front.now first 255 start }
{
    let mut value = start;
    for j in first..255 {
        value = one_step(front, j, &value);
    }
    value
}

fn checksum_of(hash: &[u8; 32]) -> u16
    ensures { result ≡ checksum hash.now }
{
    hash.iter().map(|digit| 255 - u16::from(*digit)).sum()
}

pub fn digits_of(hash: &[u8; 32]) -> [u8; 34]
    ensures { result ≡ digits_of hash.now }
{
    let mut digits = [0; 34];
    put(&mut digits, 0, hash);
    put(&mut digits, 32, &checksum_of(hash).to_be_bytes());
    digits
}

// From the 34 values that stand end to end in a seal.
pub fn one_time_key(leaf: &Node<'_>, digits: &[u8; 34], values: &[u8; 1088]) -> [u8; 32]
    ensures { result ≡ one_time_key leaf.now.id.now leaf.now.number (chain_ends leaf.now.id.now leaf.now.number digits.now values.now 34) }
{
    let mut hasher = Hasher::new();
    hasher.update(&leaf.front(D_PBLC));
    let (starts, _) = values.as_chunks::<32>();
    for (i, (digit, start)) in digits.iter().zip(starts).enumerate() {
        let end = chain_end(&leaf.front(i as u16), *digit, *start);
        hasher.update(&end);
    }
    hasher.finish()
}
