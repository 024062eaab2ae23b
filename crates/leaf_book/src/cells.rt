//! Copies of bytes, and key ids.
ghost use Rattle.std.specs.Prelude.{◌≡◌, IfOk, IfErr, IfSome, MatchOption};
ghost use Rattle.keys_roles.specs.Views.{id_text};
ghost use Rattle.leaf_plans.specs.Book.{IsKeyId};

use crate::faults::BookFault;
use keys_roles::KeyId;
use sql_tables::digest_of;
use std::alloc::Global;

// A copy of the bytes.
pub(crate) fn copied(alloc: Global, bytes: &[u8]) -> Result<Vec<u8>, BookFault>
    ensures value { IfOk result (λ v. v.items ≡ bytes.now) }
    ensures fault { IfErr result (λ f. f ≡ BookFault.OutOfMemory) }
{
    Ok(Vec::from_slice(alloc, bytes)?)
}

// The key id that a text spells.
pub(crate) fn id_of(text: &[u8]) -> Option<KeyId>
    ensures value { MatchOption result (IsKeyId text.now → ⊥) (λ id. text.now ≡ id_text id) }
    ensures fits { IfSome result (λ id. IsKeyId text.now) }
{
    let digest = digest_of(text)?;
    Some(KeyId(digest))
}
