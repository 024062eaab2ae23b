//! Which leaf a signature is by, and whether a book keeps it.
ghost use Rattle.std.specs.Prelude.{◌≡◌, ◌≢◌, ℕ, map, MatchBool, MatchOption};
ghost use Rattle.sqlite_rules.specs.Lists.{Has};
ghost use Rattle.keys_roles.specs.Views.{id_text};
ghost use Rattle.leaf_plans.specs.Book.{Keeps};
ghost use Rattle.leaf_plans.specs.Views.{kept_view};
ghost use Rattle.signer.specs.Leaves.{BeginsWithLeaf};

use keys_roles::{KeyId, read_digits, same_id};
use leaf_book::Book;
use leaf_plans::{LeafRow, is_same};
use sqlite::Alter;

/// Whether the book keeps this leaf of the key for this message. It takes no memory.
pub fn keeps<S: Alter>(book: &Book<S>, key: &KeyId, leaf: u32, message: &[u8]) -> bool
    ensures { MatchBool result (Keeps book.now.book (id_text key.now) leaf message.now) (Keeps book.now.book (id_text key.now) leaf message.now → ⊥) }
{
    is_among(book.kept(), key, leaf, message)
}

// The same of entries of a leaf history.
fn is_among(leaves: &[LeafRow], key: &KeyId, leaf: u32, message: &[u8]) -> bool
    ensures { MatchBool result (Has (map kept_view leaves.now) (record { key = id_text key.now; leaf = leaf; message = message.now }))
        (Has (map kept_view leaves.now) (record { key = id_text key.now; leaf = leaf; message = message.now }) → ⊥) }
{
    let mut rest = leaves;
    'leaves: while let Some((kept, later)) = rest.split_first() {
        if is_for(kept, key, leaf, message) {
            return true;
        }
        rest = later;
    }
    false
}

// Whether it is this leaf of the key, kept for this message.
fn is_for(kept: &LeafRow, key: &KeyId, leaf: u32, message: &[u8]) -> bool
    ensures { MatchBool result (kept_view kept.now ≡ record { key = id_text key.now; leaf = leaf; message = message.now })
        (kept_view kept.now ≢ record { key = id_text key.now; leaf = leaf; message = message.now }) }
{
    kept.leaf == leaf && same_id(&kept.key, key) && is_same(kept.message.as_slice(), message)
}

/// The leaf that an LMS signature in hex digits of lower case is by: q, which stands in its first eight digits (RFC 8554, section 5.4).
/// `None` where the text does not begin with eight such digits; of what stands after them it says nothing. It takes no memory.
pub fn leaf_of(sig: &str) -> Option<u32>
    ensures { MatchOption result ((leaf : ℕ) → BeginsWithLeaf sig.now leaf → ⊥) (λ leaf. BeginsWithLeaf sig.now leaf) }
{
    let digits = sig.as_bytes();
    if digits.len() < 8 {
        return None;
    }
    let mut bytes = [0; 4];
    if !read_digits(&digits[..8], &mut bytes) {
        return None;
    }
    Some(u32::from_be_bytes(bytes))
}
