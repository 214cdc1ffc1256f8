// Hashing a text that comes in parts, with no copy of it.
ghost use Rattle.std.specs.Prelude.{◌≡◌, ℕ, ◌-◌, ◌/◌, ◌<◌, List, [], ◌∷◌, ◌++◌, length, take, replicate};
ghost use Rattle.sha256.specs.Digest.{u64 as eight_bytes, bytes_of, folded, sha256};
ghost use Rattle.sha256.specs.Hasher.{after};

use super::compression::compress;

const INITIAL: [u32; 8] = [
    0x6a09_e667,
    0xbb67_ae85,
    0x3c6e_f372,
    0xa54f_f53a,
    0x510e_527f,
    0x9b05_688c,
    0x1f83_d9ab,
    0x5be0_cd19,
];

// The bytes of a block.
const BLOCK: usize = 64;

// The words so far, the bytes that wait for their block to be full, and the count of all bytes given, modulo 2^64. Room
// and a count, since no heap is used.
#[derive(Clone, Copy)]
pub struct Hasher {
    state: [u32; 8],
    block: [u8; 64],
    length: u64,
}

impl Hasher {
    pub fn new() -> Hasher
        ensures { (text : List ℕ) → after result text ≡ sha256 text }
    {
        Hasher {
            state: INITIAL,
            block: [0; 64],
            length: 0,
        }
    }

    // Takes in the next part of the text.
    pub fn update(&mut self, part: &[u8])
        ensures { (rest : List ℕ) → after self.new rest ≡ after self.old (part.now ++ rest) }
    {
        let filled = (self.length % 64) as usize;
        let room = BLOCK - filled;
        self.length = self.length.wrapping_add(part.len() as u64);
        if part.len() < room {
            self.block[filled..filled + part.len()].copy_from_slice(part);
        } else {
            let (front, more) = part.split_at(room);
            self.block[filled..BLOCK].copy_from_slice(front);
            let first = compress(self.state, &self.block);
            self.state = fold_blocks(first, more);
            let left = &more[more.len() / BLOCK * BLOCK..];
            self.block[0..left.len()].copy_from_slice(left);
        }
    }

    // The digest of all that was given.
    pub fn finish(self) -> [u8; 32]
        ensures { result ≡ after self [] }
    {
        let filled = (self.length % 64) as usize;
        let marked = with_mark(self.block, filled);
        let bits = self.length.wrapping_mul(8);
        if filled < 56 {
            to_bytes(compress(self.state, &with_bits(marked, bits)))
        } else {
            let state = compress(self.state, &marked);
            to_bytes(compress(state, &with_bits([0; 64], bits)))
        }
    }
}

impl Default for Hasher {
    ghost is_default = { λ hasher. (text : List ℕ) → after hasher text ≡ sha256 text };

    fn default() -> Hasher {
        Hasher::new()
    }
}

// The one bit after the text, and zeros to the block's end.
fn with_mark(block: [u8; 64], filled: usize) -> [u8; 64]
    requires { filled < 64 }
    ensures { result ≡ take filled block ++ 128 ∷ replicate (63 - filled) 0 }
{
    let mut marked = block;
    marked[filled] = 0x80;
    marked[filled + 1..BLOCK].fill(0);
    marked
}

// The count of bits at the block's end.
fn with_bits(block: [u8; 64], bits: u64) -> [u8; 64]
    ensures { result ≡ take 56 block ++ eight_bytes bits }
{
    let mut last = block;
    last[56..BLOCK].copy_from_slice(&bits.to_be_bytes());
    last
}

// The state after the whole blocks of `bytes`.
fn fold_blocks(start: [u32; 8], bytes: &[u8]) -> [u32; 8]
    ensures { result ≡ folded (length bytes.now / 64) start bytes.now }
{
    let (blocks, _) = bytes.as_chunks::<BLOCK>();
    blocks.iter().fold(start, compress)
}

// The digest's bytes. Between the library's arrays there is no `From` to give them.
fn to_bytes(words: [u32; 8]) -> [u8; 32]
    ensures { result ≡ bytes_of words }
{
    let mut bytes = [0; 32];
    bytes.copy_from_slice(words.map(u32::to_be_bytes).as_flattened());
    bytes
}
