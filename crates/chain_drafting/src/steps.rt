//! The steps of a layout (in-toto 1.0, section 4.3.1).
ghost use Rattle.std.specs.Prelude.{◌≡◌, ◌++◌, None, IfOk, OnOk};
ghost use Rattle.canonical_json.specs.View.{view};
ghost use Rattle.chain_drafting.specs.Layouts.{chain, step_object};
ghost use Rattle.chain_drafting.specs.steps.Recorded.{rule_rows};
ghost use Rattle.drafting.specs.steps.Rows.{rows_view};
ghost use Rattle.chain_drafting.specs.steps.Said.{step_view, steps_view, text_of};

use crate::artifact_rules::{material_rules, product_rules};
use crate::layouts::StepDraft;
use crate::lists::{list_value, push_member};
use canonical_json::Value;
use drafting::{ids_value, number_value, object_value, text_value};
use std::alloc::{AllocError, Global};

/// The steps in their order.
pub(crate) fn steps_value(alloc: Global, steps: &[StepDraft<'_>]) -> Result<Value, AllocError>
    ensures { IfOk result (λ v. view v ≡ chain (steps_view steps.now)) }
{
    let mut list = Vec::new(alloc);
    let mut before = None;
    for step in steps {
        let value = step_value(alloc, before, step)?;
        list.push(value)?;
        before = Some(step.name);
    }
    Ok(list_value(list))
}

// The step after the one of this name, or the first one.
fn step_value(
    alloc: Global,
    before: Option<&str>,
    said: &StepDraft<'_>,
) -> Result<Value, AllocError>
    ensures { IfOk result (λ v. view v ≡ step_object (text_of before.entry) (step_view said.now)) }
{
    let mut members = Vec::new(alloc);
    push_rules(alloc, &mut members, before, said)?;
    let name = text_value(alloc, said.name)?;
    push_member(alloc, &mut members, "name", name)?;
    let ids = ids_value(alloc, said.rule.keys)?;
    push_member(alloc, &mut members, "pubkeys", ids)?;
    let threshold = number_value(u32::from(said.rule.threshold));
    push_member(alloc, &mut members, "threshold", threshold)?;
    Ok(object_value(members))
}

// Puts the rules of what a step may use and of what it leaves.
fn push_rules(
    alloc: Global,
    members: &mut Vec<(String, Value)>,
    before: Option<&str>,
    said: &StepDraft<'_>,
) -> Result<(), AllocError>
    ensures { OnOk result (rows_view members.new.items ≡ rows_view members.old.items ++ rule_rows (text_of before.entry) (step_view said.now)) }
{
    let rules = material_rules(alloc, before, said.material_rules)?;
    push_member(alloc, members, "expected_materials", rules)?;
    let rules = product_rules(alloc, before, said.products, said.product_rules)?;
    push_member(alloc, members, "expected_products", rules)?;
    Ok(())
}
