// From a leaf to the root.
ghost use Rattle.std.specs.Prelude.{◌≡◌, ◌/◌};
ghost use Rattle.lms.specs.Hashes.{node};
ghost use Rattle.lms.specs.Tree.{parent, climbed};

use super::hashes::{D_INTR, Node, hash};

fn node_of(at: &Node<'_>, left: &[u8; 32], right: &[u8; 32]) -> [u8; 32]
    ensures { result ≡ node at.now.id.now at.now.number left.now right.now }
{
    hash(&at.front(D_INTR), left, right)
}

// The node above one, from its value and its sibling's.
fn parent_of(at: &Node<'_>, value: &[u8; 32], sibling: &[u8; 32]) -> [u8; 32]
    ensures { result ≡ parent at.now.id.now at.now.number value.now sibling.now }
{
    let above = Node {
        number: at.number / 2,
        ..*at
    };
    if at.number % 2 == 1 {
        node_of(&above, sibling, value)
    } else {
        node_of(&above, value, sibling)
    }
}

// From a node up along a path of siblings.
pub fn climb(first: &Node<'_>, leaf: [u8; 32], path: &[u8; 320]) -> [u8; 32]
    ensures { result ≡ climbed first.now.id.now 10 first.now.number leaf path.now }
{
    let (siblings, _) = path.as_chunks::<32>();
    let mut number = first.number;
    let mut value = leaf;
    for sibling in siblings {
        value = parent_of(&Node { number, ..*first }, &value, sibling);
        number /= 2;
    }
    value
}
