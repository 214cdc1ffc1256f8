// The hashes of RFC 8554 over the key's identifier, a number, a mark and parts.
ghost use Rattle.std.specs.Prelude.{◌≡◌, ◌++◌};
ghost use Rattle.lms.specs.Hashes.{head};
ghost use Rattle.sha256.specs.Digest.{sha256};

use layout::put;
use sha256::Hasher;

// Marks that keep the inputs of the hashes apart. They are numbers as the byte format has them: in a chain's inputs
// the chain's own number stands in the same two bytes.
pub const D_PBLC: u16 = 0x8080;

pub const D_MESG: u16 = 0x8181;

pub const D_LEAF: u16 = 0x8282;

pub const D_INTR: u16 = 0x8383;

// A leaf or a node under a key: the key's identifier and its own number.
#[derive(Clone, Copy)]
pub struct Node<'a> {
    pub id: &'a [u8; 16],
    pub number: u32,
}

impl<'a> Node<'a> {
    // The bytes that every input at this node begins with.
    pub fn front(&self, mark: u16) -> [u8; 22]
        ensures { result ≡ head self.now.id.now self.now.number mark }
    {
        let id = self.id;
        let mut bytes = [0; 22];
        put(&mut bytes, 0, id);
        put(&mut bytes, 16, &self.number.to_be_bytes());
        put(&mut bytes, 20, &mark.to_be_bytes());
        bytes
    }
}

// The hash of a front and two parts; the second may have any length.
pub fn hash(front: &[u8; 22], first: &[u8; 32], second: &[u8]) -> [u8; 32]
    ensures { result ≡ sha256 (front.now ++ (first.now ++ second.now)) }
{
    let mut hasher = Hasher::new();
    hasher.update(front);
    hasher.update(first);
    hasher.update(second);
    hasher.finish()
}
