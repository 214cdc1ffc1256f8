// Bytes in which parts have fixed places.
#![tactic(auto)]

ghost use Rattle.std.specs.Prelude.{◌≡◌, ℕ, ◌+◌, ◌≤◌, ◌++◌, length, take, drop};
ghost use Rattle.layout.specs.Bytes.{blank, overwritten};

// Copies a part to an offset. Where it does not fit, nothing changes.
pub fn put(out: &mut [u8], at: usize, part: &[u8])
    ensures whole { out.new ≡ overwritten out.old at part.now }
    ensures front { at + length part.now ≤ length out.old → take (at + length part.now) out.new ≡ take at out.old ++ part.now }
    ensures rest { (n : ℕ) → at + length part.now ≤ n → drop n out.new ≡ drop n out.old }
{
    if at <= out.len() && part.len() <= out.len() - at {
        out[at..at + part.len()].copy_from_slice(part);
    }
}

// Whether every byte is zero.
pub fn is_blank(bytes: &[u8]) -> bool
    ensures { result ≡ blank bytes.now }
{
    bytes.iter().all(|b| *b == 0)
}
