//! Messages that are rivals: two documents of one kind and version.
ghost use Rattle.std.specs.Prelude.{◌≡◌, ℕ, List, map, IfOk, MatchBool, MatchOption};
ghost use Rattle.canonical_json.specs.Json.{Json, HasMember};
ghost use Rattle.canonical_json.specs.Spelling.{IsCanonical};
ghost use Rattle.keys_roles.specs.Views.{id_text};
ghost use Rattle.leaf_plans.specs.Book.{LeafRow as PlainKept};
ghost use Rattle.leaf_plans.specs.Views.{kept_view};
ghost use Rattle.signer.specs.Versions.{AreRivals, IsRivalLeaf};

use canonical_json::{ReadFault, member, one_spelling, read};
use keys_roles::{KeyId, NoMemory, same_id};
use leaf_book::Book;
use leaf_plans::{LeafRow, is_same};
use sqlite::Alter;
use std::alloc::{AllocError, Global};

/// A leaf of the key that the book keeps for a rival of the message, if there is one.
pub(crate) fn rival_of<S: Alter>(
    alloc: Global,
    book: &Book<S>,
    key: &KeyId,
    message: &[u8],
) -> Result<Option<u32>, NoMemory>
    requires { (v : Json) × IsCanonical v message.now }
    ensures { IfOk result (λ found. MatchOption found ((leaf : ℕ) → IsRivalLeaf book.now.book.leaves (id_text key.now) message.now leaf → ⊥)
        (λ leaf. IsRivalLeaf book.now.book.leaves (id_text key.now) message.now leaf)) }
{
    rival_among(alloc, book.kept(), key, message)
}

// The same among entries of a leaf history.
pub(crate) fn rival_among(
    alloc: Global,
    leaves: &[LeafRow],
    key: &KeyId,
    message: &[u8],
) -> Result<Option<u32>, NoMemory>
    requires { (v : Json) × IsCanonical v message.now }
    ensures { IfOk result (λ found. MatchOption found ((leaf : ℕ) → IsRivalLeaf (map kept_view leaves.now) (id_text key.now) message.now leaf → ⊥)
        (λ leaf. IsRivalLeaf (map kept_view leaves.now) (id_text key.now) message.now leaf)) }
{
    let mut rest = leaves;
    'leaves: while let Some((kept, later)) = rest.split_first() {
        let found = is_rival(alloc, kept, key, message)?;
        if found {
            return Ok(Some(kept.leaf));
        }
        rest = later;
    }
    Ok(None)
}

// Whether the leaf is one of the key, kept for a rival of the message.
fn is_rival(alloc: Global, kept: &LeafRow, key: &KeyId, message: &[u8]) -> Result<bool, NoMemory>
    requires { (v : Json) × IsCanonical v message.now }
    ensures { IfOk result (λ b. MatchBool b ((kept_view kept.now ≡ record { key = id_text key.now; leaf = kept.now.leaf; message = kept.now.message.items }) × AreRivals message.now kept.now.message.items)
        ((leaf : ℕ) (other : List ℕ) → kept_view kept.now ≡ record { key = id_text key.now; leaf = leaf; message = other } → AreRivals message.now other → ⊥)) }
{
    if !same_id(&kept.key, key) {
        return Ok(false);
    }
    are_rivals(alloc, message, kept.message.as_slice())
}

// Whether the messages are two documents of one kind and version.
fn are_rivals(alloc: Global, message: &[u8], other: &[u8]) -> Result<bool, NoMemory>
    requires { (v : Json) × IsCanonical v message.now }
    ensures { IfOk result (λ b. MatchBool b (AreRivals message.now other.now) (AreRivals message.now other.now → ⊥)) }
{
    if is_same(message, other) {
        return Ok(false);
    }
    if !same_member(message, other, "_type") {
        return Ok(false);
    }
    if !same_member(message, other, "version") {
        return Ok(false);
    }
    is_canonical(alloc, other)
}

// Whether both have the member, with one value. It tells of canonical JSON alone.
fn same_member(one: &[u8], other: &[u8], name: &str) -> bool
    ensures { (v w : Json) → IsCanonical v one.now → IsCanonical w other.now → MatchBool result ((x : Json) × HasMember v name.now x × HasMember w name.now x)
        ((x : Json) → HasMember v name.now x → HasMember w name.now x → ⊥) }
{
    one_spelling();
    let Some(first) = member(one, name) else {
        return false;
    };
    let Some(second) = member(other, name) else {
        return false;
    };
    is_same(first, second)
}

// Whether the bytes are canonical JSON.
fn is_canonical(alloc: Global, bytes: &[u8]) -> Result<bool, NoMemory>
    ensures { IfOk result (λ b. MatchBool b ((v : Json) × IsCanonical v bytes.now) ((v : Json) → IsCanonical v bytes.now → ⊥)) }
{
    match read(alloc, bytes) {
        Ok(_) => Ok(true),
        Err(ReadFault::OutOfMemory) => Err(AllocError),
        Err(ReadFault::NotCanonical | ReadFault::TooDeep | ReadFault::IntegerRange) => Ok(false),
    }
}
