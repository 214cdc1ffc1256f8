// Bytes in hexadecimal.
ghost use Rattle.std.specs.Prelude.{◌≡◌, ◌+◌, ◌*◌, ◌/◌, ◌<◌, length, slice_index, IfOk};
ghost use Rattle.lms_vectors.specs.Bytes.{value_of, unhex};

use std::alloc::{AllocError, Global};

// The kit's crate `hex` and `to_digit` read capitals and refuse what is no digit; here either counts as 0.
fn value_of(digit: u8) -> u8
    ensures value { result ≡ value_of digit }
    ensures small { result < 16 }
{
    match digit {
        b'0'..=b'9' => digit - b'0',
        b'a'..=b'f' => digit - b'a' + 10,
        _ => 0,
    }
}

fn byte_of(pair: &[u8; 2]) -> u8
    ensures { result ≡ value_of (slice_index pair.now 0) * 16 + value_of (slice_index pair.now 1) }
{
    let [high, low] = *pair;
    value_of(high) * 16 + value_of(low)
}

pub fn from_hex(heap: Global, text: &[u8]) -> Result<Vec<u8>, AllocError>
    ensures { IfOk result (λ v. v.items ≡ unhex (length text.now / 2) text.now) }
{
    let (pairs, _) = text.as_chunks::<2>();
    pairs.iter().map(byte_of).collect(heap)
}
