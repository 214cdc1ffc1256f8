// Whether a seal verifies under a key.
ghost use Rattle.std.specs.Prelude.{◌≡◌, ℕ, ◌<◌, List, false, true, MatchOption};
ghost use Rattle.lms.specs.Hashes.{message_hash, leaf};
ghost use Rattle.lms.specs.Verify.{is_key, is_seal, IsKeyOf, IsSealOf, candidate_key, candidate, verifies};

use super::chains::{digits_of, one_time_key};
use super::hashes::{D_LEAF, D_MESG, Node, hash};
use super::tree::climb;

// SHA-256 at height 10, and at W8: numbers, as the byte format has them.
const LMS_TYPE: u32 = 6;

const ONE_TIME_TYPE: u32 = 4;

// The leaves of the tree, which are its nodes from this number on.
const LEAVES: u32 = 1024;

// The parts of a key of types 6 and 4.
#[derive(Clone, Copy)]
struct Key<'a> {
    id: &'a [u8; 16],
    root: &'a [u8; 32],
}

// The parts of a seal of types 6 and 4 by one of the leaves.
#[derive(Clone, Copy)]
struct Seal<'a> {
    leaf: u32,
    randomizer: &'a [u8; 32],
    values: &'a [u8; 1088],
    path: &'a [u8; 320],
}

impl<'a> Key<'a> {
    // None where the length or a type is another.
    fn parse(bytes: &'a [u8]) -> Option<Key<'a>>
        ensures { MatchOption result (is_key bytes.now ≡ false) (λ key. (is_key bytes.now ≡ true) × IsKeyOf bytes.now key) }
    {
        let (lms_type, rest) = bytes.split_first_chunk::<4>()?;
        let (one_time_type, rest) = rest.split_first_chunk::<4>()?;
        let (id, rest) = rest.split_first_chunk::<16>()?;
        let root = rest.as_array::<32>()?;
        if u32::from_be_bytes(*lms_type) == LMS_TYPE
            && u32::from_be_bytes(*one_time_type) == ONE_TIME_TYPE
        {
            Some(Key { id, root })
        } else {
            None
        }
    }
}

impl<'a> Seal<'a> {
    // None where the length, a type or the leaf's number is another.
    fn parse(bytes: &'a [u8]) -> Option<Seal<'a>>
        ensures { MatchOption result (is_seal bytes.now ≡ false) (λ seal. (is_seal bytes.now ≡ true) × ((seal.leaf < 1024) × IsSealOf bytes.now seal)) }
    {
        let (number, rest) = bytes.split_first_chunk::<4>()?;
        let (one_time_type, rest) = rest.split_first_chunk::<4>()?;
        let (randomizer, rest) = rest.split_first_chunk::<32>()?;
        let (values, rest) = rest.split_first_chunk::<1088>()?;
        let (tree_type, rest) = rest.split_first_chunk::<4>()?;
        let path = rest.as_array::<320>()?;
        let leaf = u32::from_be_bytes(*number);
        if u32::from_be_bytes(*one_time_type) == ONE_TIME_TYPE
            && u32::from_be_bytes(*tree_type) == LMS_TYPE
            && leaf < LEAVES
        {
            Some(Seal {
                leaf,
                randomizer,
                values,
                path,
            })
        } else {
            None
        }
    }

    // The one-time public key that a text and the seal lead to.
    fn candidate_key(&self, id: &[u8; 16], text: &[u8]) -> [u8; 32]
        ensures { (bytes : List ℕ) → IsSealOf bytes self.now → result ≡ candidate_key id.now text.now bytes }
    {
        let leaf = Node {
            id,
            number: self.leaf,
        };
        let digits = digits_of(&message_hash(&leaf, self.randomizer, text));
        one_time_key(&leaf, &digits, self.values)
    }

    // The root that a text and the seal lead to.
    fn candidate_root(&self, id: &[u8; 16], text: &[u8]) -> [u8; 32]
        requires { self.now.leaf < 1024 }
        ensures { (bytes : List ℕ) → IsSealOf bytes self.now → result ≡ candidate id.now text.now bytes }
    {
        let node = Node {
            id,
            number: LEAVES + self.leaf,
        };
        let leaf = leaf_of(&node, &self.candidate_key(id, text));
        climb(&node, leaf, self.path)
    }
}

fn message_hash(leaf: &Node<'_>, randomizer: &[u8; 32], text: &[u8]) -> [u8; 32]
    ensures { result ≡ message_hash leaf.now.id.now leaf.now.number randomizer.now text.now }
{
    hash(&leaf.front(D_MESG), randomizer, text)
}

fn leaf_of(node: &Node<'_>, key: &[u8; 32]) -> [u8; 32]
    ensures { result ≡ leaf node.now.id.now node.now.number key.now }
{
    hash(&node.front(D_LEAF), key, &[])
}

pub fn is_verified(key: &[u8], text: &[u8], seal: &[u8]) -> bool
    ensures { result ≡ verifies key.now text.now seal.now }
{
    let Some(key) = Key::parse(key) else {
        return false;
    };
    let Some(seal) = Seal::parse(seal) else {
        return false;
    };
    seal.candidate_root(key.id, text) == *key.root
}
