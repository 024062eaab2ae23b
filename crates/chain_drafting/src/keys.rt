//! Key tables of the rules of steps and of owners, and the names of keys.
ghost use Rattle.std.specs.Prelude.{◌≡◌, IfOk, OnOk, codes};
ghost use Rattle.canonical_json.specs.Json.{Json, object, no_members};
ghost use Rattle.canonical_json.specs.View.{view, members_view};
ghost use Rattle.drafting.specs.Members.{PutsAll};
ghost use Rattle.drafting.specs.Roots.{keys_of};
ghost use Rattle.drafting.specs.steps.Rules.{keys_view};
ghost use Rattle.chain_drafting.specs.Layouts.{step_keys, step_names};
ghost use Rattle.chain_drafting.specs.steps.Recorded.{PutsTable};
ghost use Rattle.chain_drafting.specs.steps.Said.{steps_view};

use crate::layouts::StepDraft;
use canonical_json::Value;
use drafting::{NamedKey, add_rule_keys, add_rule_names, object_value, put};
use std::alloc::{AllocError, Global};

/// The table of these keys.
pub(crate) fn table_value(alloc: Global, keys: &[NamedKey]) -> Result<Value, AllocError>
    ensures { IfOk result (λ v. PutsAll (keys_of (keys_view keys.now)) (object no_members) (view v)) }
{
    let mut table = Vec::new(alloc);
    add_rule_keys(alloc, &mut table, keys)?;
    Ok(object_value(table))
}

/// Puts the table of the keys of these steps into `keys`.
pub(crate) fn put_keys(
    alloc: Global,
    members: &mut Vec<(String, Value)>,
    steps: &[StepDraft<'_>],
) -> Result<(), AllocError>
    ensures { OnOk result (PutsTable (codes "keys") (step_keys (steps_view steps.now)) (object (members_view members.old.items)) (object (members_view members.new.items))) }
{
    let mut table = Vec::new(alloc);
    add_keys(alloc, &mut table, steps)?;
    put(alloc, members, "keys", object_value(table))
}

/// Puts the names of the keys of these steps into `names`.
pub(crate) fn put_names(
    alloc: Global,
    members: &mut Vec<(String, Value)>,
    steps: &[StepDraft<'_>],
) -> Result<(), AllocError>
    ensures { OnOk result (PutsTable (codes "names") (step_names (steps_view steps.now)) (object (members_view members.old.items)) (object (members_view members.new.items))) }
{
    let mut table = Vec::new(alloc);
    add_names(alloc, &mut table, steps)?;
    put(alloc, members, "names", object_value(table))
}

// Puts the keys of all steps.
fn add_keys(
    alloc: Global,
    table: &mut Vec<(String, Value)>,
    steps: &[StepDraft<'_>],
) -> Result<(), AllocError>
    ensures { OnOk result (PutsAll (step_keys (steps_view steps.now)) (object (members_view table.old.items)) (object (members_view table.new.items))) }
{
    for step in steps {
        add_rule_keys(alloc, table, step.rule.keys)?;
    }
    Ok(())
}

// Puts the names of the keys of all steps.
fn add_names(
    alloc: Global,
    table: &mut Vec<(String, Value)>,
    steps: &[StepDraft<'_>],
) -> Result<(), AllocError>
    ensures { OnOk result (PutsAll (step_names (steps_view steps.now)) (object (members_view table.old.items)) (object (members_view table.new.items))) }
{
    for step in steps {
        add_rule_names(alloc, table, step.rule.keys)?;
    }
    Ok(())
}
