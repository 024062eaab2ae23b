// Layouts (in-toto 1.0, section 4.3).
ghost use Rattle.std.specs.Prelude.{◌≡◌, ◌↔◌, List, codes, map, IsTrue, IfOk, IfErr};
ghost use Rattle.std.specs.List.{AllByRecursion};
ghost use Rattle.canonical_json.specs.Json.{array, no_items};
ghost use Rattle.canonical_json.specs.Spelling.{IsProper};
ghost use Rattle.canonical_json.specs.View.{view};
ghost use Rattle.keys_roles.specs.Views.{table_view};
ghost use Rattle.document_parts.specs.Bodies.{AreSteps, HasNoInspections, IsLayout};
ghost use Rattle.document_parts.specs.Documents as plain;
ghost use Rattle.document_parts.specs.Members.{Has};
ghost use Rattle.document_parts.specs.Parts.{IsRuleOver, NamesAreIds};
ghost use Rattle.document_parts.specs.Views.{layout_view, step_view};
ghost use Rattle.document_parts.specs.steps.Faults.{IsIll, IsMisnamed, IsFaulty};
ghost use Rattle.document_parts.specs.steps.Tables.{spelled_table};
ghost use Rattle.layout_files.specs.steps.Spelled.{spelled_steps};

use crate::steps::{SpelledStep, name_steps, read_steps};
use canonical_json::Value;
use document_parts::documents::{Layout, ShapeFault, Step};
use document_parts::head::expires_of;
use document_parts::keys::{SpelledTable, keys_of, name_table};
use document_parts::members::{items_of, member_of};
use document_parts::trail::Trail;
use keys_roles::KeyTable;
use std::alloc::Global;

/// The keys and the steps of a layout.
#[derive(Drop)]
pub struct KeyedSteps {
    pub keys: KeyTable,
    pub steps: Vec<Step>,
}

/// The layout that the signed part is, its keys named by their ids.
pub fn read_layout(alloc: Global, signed: &Value, trail: &mut Trail) -> Result<Layout, ShapeFault>
    requires { IsProper (view signed.now) }
    ensures ok { IfOk result (λ l. IsLayout (view signed.now) (layout_view l) × NamesAreIds (table_view l.keys)) }
    ensures err { IfErr result (IsFaulty (IsLayout (view signed.now)) (λ l. NamesAreIds l.keys)) }
{
    trail.enter("expires");
    let Some(expires) = expires_of(signed) else {
        return Err(ShapeFault::WrongShape);
    };
    trail.turn("inspect");
    if !has_no_inspections(signed) {
        return Err(ShapeFault::WrongShape);
    }
    trail.leave();
    let keys = keys_of(alloc, signed, trail)?;
    let steps = steps_of(alloc, signed, &keys, trail)?;
    let keyed = named(alloc, &keys, steps, trail)?;
    Ok(Layout {
        expires,
        keys: keyed.keys,
        steps: keyed.steps,
    })
}

// Whether the object has an empty list under `inspect`.
fn has_no_inspections(signed: &Value) -> bool
    requires { IsProper (view signed.now) }
    ensures { IsTrue result ↔ (HasNoInspections (view signed.now)) }
{
    match member_of(signed, "inspect") {
        Some(found) => is_empty_list(found),
        None => false,
    }
}

fn is_empty_list(value: &Value) -> bool
    ensures { IsTrue result ↔ (view value.now ≡ array no_items) }
{
    let Some(items) = items_of(value) else {
        return false;
    };
    items.is_empty()
}

// The steps over the table that the object has under `steps`.
fn steps_of(
    alloc: Global,
    signed: &Value,
    keys: &SpelledTable,
    trail: &mut Trail,
) -> Result<Vec<SpelledStep>, ShapeFault>
    requires { IsProper (view signed.now) }
    ensures ok { IfOk result (λ ss. Has (view signed.now) (codes "steps") (λ x. AreSteps (spelled_table keys.now) x (spelled_steps ss.items))) }
    ensures err { IfErr result (IsIll ((ss : List plain.Step) × Has (view signed.now) (codes "steps") (λ x. AreSteps (spelled_table keys.now) x ss))) }
{
    trail.enter("steps");
    let Some(steps) = member_of(signed, "steps") else {
        return Err(ShapeFault::WrongShape);
    };
    let steps = read_steps(alloc, steps, keys, trail)?;
    trail.leave();
    Ok(steps)
}

// The keys and the steps, each key named by its id.
fn named(
    alloc: Global,
    keys: &SpelledTable,
    steps: Vec<SpelledStep>,
    trail: &mut Trail,
) -> Result<KeyedSteps, ShapeFault>
    requires { AllByRecursion (λ s. IsRuleOver (spelled_table keys.now) s.rule) (spelled_steps steps.items) }
    ensures keys { IfOk result (λ k. (table_view k.keys ≡ spelled_table keys.now) × NamesAreIds (spelled_table keys.now)) }
    ensures steps { IfOk result (λ k. map step_view k.steps.items ≡ spelled_steps steps.items) }
    ensures err { IfErr result (IsMisnamed (NamesAreIds (spelled_table keys.now))) }
{
    let table = name_table(alloc, keys, trail)?;
    let steps = name_steps(alloc, steps)?;
    Ok(KeyedSteps { keys: table, steps })
}
