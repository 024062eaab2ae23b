//! Key tables and the names of keys, as the rules that have them say.
ghost use Rattle.std.specs.Prelude.{◌≡◌, ◌++◌, List, ℕ, codes, OnOk};
ghost use Rattle.canonical_json.specs.Json.{Json, object};
ghost use Rattle.canonical_json.specs.View.{members_view};
ghost use Rattle.drafting.specs.Members.{PutsAll};
ghost use Rattle.drafting.specs.Roots.{key_rows, keys_of, name_rows, names_of};
ghost use Rattle.drafting.specs.steps.Rules.{PutsOne, keys_view, rules_view};

use crate::faults::TopRole;
use crate::members::{object_value, put, take_object, text_value};
use crate::named::keep_named;
use crate::rules::{NamedKey, Rule, id_text, key_value};
use canonical_json::Value;
use std::alloc::{AllocError, Global};

/// Puts the keys of the rules into `keys`, and takes out those that no rule of the roles has.
pub(crate) fn put_keys(
    alloc: Global,
    members: &mut Vec<(String, Value)>,
    rules: &[(TopRole, Rule<'_>)],
    roles: &[(String, Value)],
) -> Result<(), AllocError>
    ensures { OnOk result (PutsOne (codes "keys") (key_rows (rules_view rules.now)) (object (members_view roles.now)) (object (members_view members.old.items)) (object (members_view members.new.items))) }
{
    let mut table = take_object(alloc, members, "keys");
    add_keys(alloc, &mut table, rules)?;
    keep_named(&mut table, roles);
    put(alloc, members, "keys", object_value(table))
}

/// Puts the names of these keys into `names`, and takes out those of keys that no rule of the roles has.
pub(crate) fn put_names(
    alloc: Global,
    members: &mut Vec<(String, Value)>,
    rules: &[(TopRole, Rule<'_>)],
    roles: &[(String, Value)],
) -> Result<(), AllocError>
    ensures { OnOk result (PutsOne (codes "names") (name_rows (rules_view rules.now)) (object (members_view roles.now)) (object (members_view members.old.items)) (object (members_view members.new.items))) }
{
    let mut table = take_object(alloc, members, "names");
    add_names(alloc, &mut table, rules)?;
    keep_named(&mut table, roles);
    put(alloc, members, "names", object_value(table))
}

// Puts the keys of all rules.
fn add_keys(
    alloc: Global,
    table: &mut Vec<(String, Value)>,
    rules: &[(TopRole, Rule<'_>)],
) -> Result<(), AllocError>
    ensures { OnOk result (PutsAll (key_rows (rules_view rules.now)) (object (members_view table.old.items)) (object (members_view table.new.items))) }
{
    for rule in rules {
        add_rule_keys(alloc, table, rule.1.keys)?;
    }
    Ok(())
}

/// Puts the keys of a rule, under what else is put.
pub fn add_rule_keys(
    alloc: Global,
    table: &mut Vec<(String, Value)>,
    keys: &[NamedKey],
) -> Result<(), AllocError>
    ensures { OnOk result ((rows : List (List ℕ × Json)) (c : Json) → PutsAll rows (object (members_view table.new.items)) c
        → PutsAll (keys_of (keys_view keys.now) ++ rows) (object (members_view table.old.items)) c) }
{
    let mut rest = keys;
    'keys: while let Some((key, later)) = rest.split_first() {
        let id = id_text(alloc, &key.key)?;
        let value = key_value(alloc, &key.key)?;
        put(alloc, table, id.as_str(), value)?;
        rest = later;
    }
    Ok(())
}

// Puts the names of the keys of all rules.
fn add_names(
    alloc: Global,
    table: &mut Vec<(String, Value)>,
    rules: &[(TopRole, Rule<'_>)],
) -> Result<(), AllocError>
    ensures { OnOk result (PutsAll (name_rows (rules_view rules.now)) (object (members_view table.old.items)) (object (members_view table.new.items))) }
{
    for rule in rules {
        add_rule_names(alloc, table, rule.1.keys)?;
    }
    Ok(())
}

/// Puts the names of the keys of a rule, under what else is put.
pub fn add_rule_names(
    alloc: Global,
    table: &mut Vec<(String, Value)>,
    keys: &[NamedKey],
) -> Result<(), AllocError>
    ensures { OnOk result ((rows : List (List ℕ × Json)) (c : Json) → PutsAll rows (object (members_view table.new.items)) c
        → PutsAll (names_of (keys_view keys.now) ++ rows) (object (members_view table.old.items)) c) }
{
    let mut rest = keys;
    'keys: while let Some((key, later)) = rest.split_first() {
        let id = id_text(alloc, &key.key)?;
        let value = text_value(alloc, key.name.as_str())?;
        put(alloc, table, id.as_str(), value)?;
        rest = later;
    }
    Ok(())
}
