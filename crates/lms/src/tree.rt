// The hash tree (RFC 8554, sections 5.3 and 5.4).

ghost use Rattle.std.specs.Prelude.{◌≡◌, ◌+◌, ◌<◌, ◌^◌, length};
ghost use Rattle.lms.specs.Tree.{leaf_hash as leaf_hash_of, inner_hash as inner_hash_of, parent_hash as parent_hash_of, root_over as root_over_of};

use crate::Steps;
use crate::hashes::{INNER, LEAF, finish, marked};
use sha2::Digest;

/// The hash of the leaf with this key, whose node has this number.
pub fn leaf_hash(identifier: &[u8; 16], node: u32, key: &[u8; 32], steps: &mut Steps) -> [u8; 32]
    requires { steps.old + 1 < 2 ^ 64 }
    ensures value { result ≡ leaf_hash_of identifier.now node key.now }
    ensures count { steps.new ≡ steps.old + 1 }
{
    let mut hasher = marked(identifier, node, LEAF);
    hasher.update(key);
    finish(hasher, steps)
}

/// The hash of a node above two others.
pub fn inner_hash(
    identifier: &[u8; 16],
    node: u32,
    left: &[u8; 32],
    right: &[u8; 32],
    steps: &mut Steps,
) -> [u8; 32]
    requires { steps.old + 1 < 2 ^ 64 }
    ensures value { result ≡ inner_hash_of identifier.now node left.now right.now }
    ensures count { steps.new ≡ steps.old + 1 }
{
    let mut hasher = marked(identifier, node, INNER);
    hasher.update(left);
    hasher.update(right);
    finish(hasher, steps)
}

// The hash of a node's parent, from its own and its sibling's.
fn parent_hash(
    identifier: &[u8; 16],
    node: u32,
    here: &[u8; 32],
    sibling: &[u8; 32],
    steps: &mut Steps,
) -> [u8; 32]
    requires { steps.old + 1 < 2 ^ 64 }
    ensures value { result ≡ parent_hash_of identifier.now node here.now sibling.now }
    ensures count { steps.new ≡ steps.old + 1 }
{
    if node % 2 == 1 {
        inner_hash(identifier, node / 2, sibling, here, steps)
    } else {
        inner_hash(identifier, node / 2, here, sibling, steps)
    }
}

/// What the path of siblings makes of the hash of a node, up to the root.
pub fn root_over(
    identifier: &[u8; 16],
    node: u32,
    start: [u8; 32],
    path: &[[u8; 32]],
    steps: &mut Steps,
) -> [u8; 32]
    requires { steps.old + length path.now < 2 ^ 64 }
    ensures value { result ≡ root_over_of identifier.now node start path.now }
    ensures count { steps.new ≡ steps.old + length path.now }
{
    let mut node = node;
    let mut here = start;
    for sibling in path {
        here = parent_hash(identifier, node, &here, sibling, steps);
        node /= 2;
    }
    here
}
