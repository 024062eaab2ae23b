// When a role's rule stays as it was (TUF 1.0, section 5.3.11: which keys were rotated).
ghost use Rattle.std.specs.Prelude.{◌≡◌, ◌↔◌, IsTrue};
ghost use Rattle.keys_roles.specs.Rules.{SameRule};
ghost use Rattle.std.specs.List.{AllByRecursion};
ghost use Rattle.keys_roles.specs.steps.Counting.{IsIn, IsKept};
ghost use Rattle.keys_roles.specs.Plain.{look_up};
ghost use Rattle.keys_roles.specs.Views.{id_text, ids_view, key_view, rule_view, table_view};

use crate::ids::{is_listed, key_of};
use crate::{Key, KeyId, KeyTable, RoleRule};

/// Whether two rules, each with its table of keys, have the same threshold and the same key ids, with the same public keys
/// that these name. It takes no memory.
pub fn same_rule(old: &RoleRule, old_keys: &KeyTable, new: &RoleRule, new_keys: &KeyTable) -> bool
    ensures { IsTrue result ↔ (SameRule (rule_view old.now) (table_view old_keys.now) (rule_view new.now) (table_view new_keys.now)) }
{
    if old.threshold != new.threshold {
        return false;
    }
    if !are_kept(&old.keyids, old_keys, &new.keyids, new_keys) {
        return false;
    }
    are_listed(&new.keyids, &old.keyids)
}

// Whether each id is listed in the new ids, and names the same key in both tables.
fn are_kept(ids: &[KeyId], old_keys: &KeyTable, new: &[KeyId], new_keys: &KeyTable) -> bool
    ensures { IsTrue result ↔ (AllByRecursion (IsKept (table_view old_keys.now) (ids_view new.now) (table_view new_keys.now)) (ids_view ids.now)) }
{
    let mut rest = ids;
    'ids: while let Some((id, later)) = rest.split_first() {
        if !is_kept(id, old_keys, new, new_keys) {
            return false;
        }
        rest = later;
    }
    true
}

// Whether the id is listed in the new ids, and names the same key in both tables.
fn is_kept(id: &KeyId, old_keys: &KeyTable, new: &[KeyId], new_keys: &KeyTable) -> bool
    ensures { IsTrue result ↔ (IsKept (table_view old_keys.now) (ids_view new.now) (table_view new_keys.now) (id_text id.now)) }
{
    is_listed(new, id) && names_same(id, old_keys, new_keys)
}

// Whether each id is listed in the others.
fn are_listed(ids: &[KeyId], others: &[KeyId]) -> bool
    ensures { IsTrue result ↔ (AllByRecursion (IsIn (ids_view others.now)) (ids_view ids.now)) }
{
    let mut rest = ids;
    'ids: while let Some((id, later)) = rest.split_first() {
        if !is_listed(others, id) {
            return false;
        }
        rest = later;
    }
    true
}

// Whether the id names the same key in both tables, or none in either.
fn names_same(id: &KeyId, old_keys: &KeyTable, new_keys: &KeyTable) -> bool
    ensures { IsTrue result ↔ look_up (table_view old_keys.now) (id_text id.now) ≡ look_up (table_view new_keys.now) (id_text id.now) }
{
    match key_of(&old_keys.entries, id) {
        Some(old) => match key_of(&new_keys.entries, id) {
            Some(new) => same_key(old, new),
            None => false,
        },
        None => key_of(&new_keys.entries, id).is_none(),
    }
}

// Whether the keys are one.
fn same_key(old: &Key, new: &Key) -> bool
    ensures { IsTrue result ↔ key_view old.now ≡ key_view new.now }
{
    match (old, new) {
        (Key::Lms(old), Key::Lms(new)) => *old == *new,
        (Key::Hss(old), Key::Hss(new)) => *old == *new,
        (Key::Lms(_), Key::Hss(_)) | (Key::Hss(_), Key::Lms(_)) => false,
    }
}
