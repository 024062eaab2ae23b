// Who has signed a link.
ghost use Rattle.std.specs.Prelude.{◌≡◌, ◌↔◌, ℕ, List, Some, IfOk, bytes_eq, option_map};
ghost use Rattle.keys_roles.specs.Plain.{look_up};
ghost use Rattle.keys_roles.specs.Views.{id_text, key_view, rows_view, table_view};
ghost use Rattle.layouts.specs.steps.Gathering.{IsSigner};

use keys_roles::{Key, KeyId, KeyTable, RoleRule, meets, same_id, top_key};
use metadata::Source;
use std::alloc::{AllocError, Global};

/// The public key by which the key of this id in the table is counted, if that has signed the file.
pub(crate) fn signer(
    alloc: Global,
    keys: &KeyTable,
    id: &KeyId,
    source: &Source,
) -> Result<Option<[u8; 56]>, AllocError>
    ensures { IfOk result (λ o. (top : List ℕ) → (o ≡ Some top) ↔ (IsSigner (table_view keys.now) source.now.signed source.now.entries (id_text id.now) top)) }
{
    let Some(key) = key_of(&keys.entries, id) else {
        return Ok(None);
    };
    let mut keyids = Vec::new(alloc);
    keyids.push(*id)?;
    let rule = RoleRule {
        keyids,
        threshold: 1,
    };
    if meets(&rule, keys, source.signed(), source.signatures()) {
        Ok(Some(*top_key(key)))
    } else {
        Ok(None)
    }
}

// The key that stands first beside the id.
fn key_of<'a>(rows: &'a [(KeyId, Key)], id: &KeyId) -> Option<&'a Key>
    ensures { option_map (λ k. key_view k.now) result ≡ look_up (rows_view rows.now) (id_text id.now) }
{
    let mut rest = rows;
    'rows: while let Some((row, later)) = rest.split_first() {
        if same_id(&row.0, id) {
            return Some(&row.1);
        }
        rest = later;
    }
    None
}
