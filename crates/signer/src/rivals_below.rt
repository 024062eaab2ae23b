//! Rivals of a message in all trees of a key of two levels, and those of a file.
ghost use Rattle.std.specs.Prelude.{◌≡◌, ◌⊎◌, ℕ, List, length, map, IfErr, IfOk, MatchOption};
ghost use Rattle.sqlite_rules.specs.Lists.{Has};
ghost use Rattle.canonical_json.specs.Json.{Json};
ghost use Rattle.canonical_json.specs.Spelling.{IsCanonical};
ghost use Rattle.keys_roles.specs.Plain.{Signature};
ghost use Rattle.keys_roles.specs.Views.{id_text};
ghost use Rattle.metadata.specs.Shape.{IsEnvelopeFault, IsSignedBy};
ghost use Rattle.document_parts.specs.declared.documents.ShapeFault.{ShapeFault};
ghost use Rattle.leaf_plans.specs.Views.{kept_view};
ghost use Rattle.signer.specs.Below.{IsRivalBelow, lms_key_of};
ghost use Rattle.signer.specs.Faults.{of_shape};
ghost use Rattle.signer.specs.Versions.{IsRivalLeaf};

use crate::faults::SignFileFault;
use crate::trees::lms_id;
use crate::versions::rival_among;
use keys_roles::{KeyId, NoMemory, same_id};
use leaf_book::Book;
use leaf_plans::LeafRow;
use metadata::read_signed;
use sqlite::Alter;
use std::alloc::Global;

/// A leaf that the book keeps for another document of the kind and version that the file has, if there is one: a leaf of this key, or of a key that
/// one of its leaves is kept for, as of a tree below. Where several keys sign one role, each of their books is asked so before one of them
/// signs. The error says why the file's envelope is none, or that memory was refused. It spends nothing.
pub fn other_document<S: Alter>(
    alloc: Global,
    book: &Book<S>,
    key: &KeyId,
    file: &[u8],
) -> Result<Option<u32>, SignFileFault>
    ensures found { IfOk result (λ found. (entries : List Signature) × (message : List ℕ) × IsSignedBy file.now entries message
        × MatchOption found ((leaf : ℕ) → IsRivalBelow book.now.book (id_text key.now) message leaf → ⊥)
        (λ leaf. IsRivalBelow book.now.book (id_text key.now) message leaf)) }
    ensures fault { IfErr result (λ fault. (fault ≡ SignFileFault.OutOfMemory) ⊎ ((e : ShapeFault) × IsEnvelopeFault file.now e × (fault ≡ of_shape e))) }
{
    match read_signed(alloc, file) {
        Ok(signed) => match rival_below(alloc, book, key, signed.signed) {
            Ok(found) => Ok(found),
            Err(_) => Err(SignFileFault::OutOfMemory),
        },
        Err(fault) => Err(SignFileFault::from(fault)),
    }
}

/// A leaf of the top tree's key, or of a key that one of its leaves is kept for, that the book keeps for a rival of the message, if there is
/// one.
pub(crate) fn rival_below<S: Alter>(
    alloc: Global,
    book: &Book<S>,
    top: &KeyId,
    message: &[u8],
) -> Result<Option<u32>, NoMemory>
    requires { (v : Json) × IsCanonical v message.now }
    ensures { IfOk result (λ found. MatchOption found ((leaf : ℕ) → IsRivalBelow book.now.book (id_text top.now) message.now leaf → ⊥)
        (λ leaf. IsRivalBelow book.now.book (id_text top.now) message.now leaf)) }
{
    let leaves = book.kept();
    match rival_among(alloc, leaves, top, message) {
        Ok(None) => {}
        Ok(Some(leaf)) => return Ok(Some(leaf)),
        Err(fault) => return Err(fault),
    }
    rival_under(alloc, leaves, top, message)
}

// The same in the trees below alone.
fn rival_under(
    alloc: Global,
    leaves: &[LeafRow],
    top: &KeyId,
    message: &[u8],
) -> Result<Option<u32>, NoMemory>
    requires { (v : Json) × IsCanonical v message.now }
    ensures { IfOk result (λ found. MatchOption found
        ((q : ℕ) (public : List ℕ) → Has (map kept_view leaves.now) (record { key = id_text top.now; leaf = q; message = public }) → length public ≡ 56
        → (leaf : ℕ) → IsRivalLeaf (map kept_view leaves.now) (lms_key_of public) message.now leaf → ⊥)
        (λ leaf. (q : ℕ) × (public : List ℕ) × Has (map kept_view leaves.now) (record { key = id_text top.now; leaf = q; message = public }) × (length public ≡ 56)
        × IsRivalLeaf (map kept_view leaves.now) (lms_key_of public) message.now leaf)) }
{
    let mut rest = leaves;
    'leaves: while let Some((kept, later)) = rest.split_first() {
        match rival_by(alloc, leaves, kept, top, message) {
            Ok(None) => {}
            Ok(Some(leaf)) => return Ok(Some(leaf)),
            Err(fault) => return Err(fault),
        }
        rest = later;
    }
    Ok(None)
}

// The same in the tree that this leaf is kept for, where it is one of the top tree.
fn rival_by(
    alloc: Global,
    leaves: &[LeafRow],
    kept: &LeafRow,
    top: &KeyId,
    message: &[u8],
) -> Result<Option<u32>, NoMemory>
    requires { (v : Json) × IsCanonical v message.now }
    ensures { IfOk result (λ found. MatchOption found
        ((q : ℕ) (public : List ℕ) → kept_view kept.now ≡ record { key = id_text top.now; leaf = q; message = public } → length public ≡ 56
        → (leaf : ℕ) → IsRivalLeaf (map kept_view leaves.now) (lms_key_of public) message.now leaf → ⊥)
        (λ leaf. (q : ℕ) × (public : List ℕ) × (kept_view kept.now ≡ record { key = id_text top.now; leaf = q; message = public }) × (length public ≡ 56)
        × IsRivalLeaf (map kept_view leaves.now) (lms_key_of public) message.now leaf)) }
{
    if !same_id(&kept.key, top) || kept.message.len() != 56 {
        return Ok(None);
    }
    let id = lms_id(alloc, kept.message.as_slice());
    rival_among(alloc, leaves, &id, message)
}
