// Steps of a layout as a file spells them (in-toto 1.0, section 4.3.1).
ghost use Rattle.std.specs.Prelude.{◌≡◌, ◌↔◌, ◌<◌, ◌≤◌, ℕ, List, codes, length, map, IsTrue, IfOk, IfErr};
ghost use Rattle.std.specs.List.{AllByRecursion};
ghost use Rattle.canonical_json.specs.Json.{EachItem};
ghost use Rattle.canonical_json.specs.Spelling.{IsProper, IsSound};
ghost use Rattle.canonical_json.specs.View.{view, items_view};
ghost use Rattle.path_patterns.specs.Grammar.{IsHex, IsName};
ghost use Rattle.document_parts.specs.Bodies.{IsRuleList, IsStep, IsTextOf, AreSteps, max_steps};
ghost use Rattle.document_parts.specs.Documents as plain;
ghost use Rattle.document_parts.specs.Members.{Has, ItemsAre};
ghost use Rattle.document_parts.specs.RuleViews.{rule_view};
ghost use Rattle.document_parts.specs.Rules.{ArtifactRule};
ghost use Rattle.document_parts.specs.Views.{step_view};
ghost use Rattle.document_parts.specs.steps.Faults.{IsIll};
ghost use Rattle.document_parts.specs.steps.Tables.{spelled_rule, spelled_table};
ghost use Rattle.layout_files.specs.steps.Spelled.{spelled_step, spelled_steps};

use crate::rule_lists::read_rules;
use canonical_json::Value;
use document_parts::distinct::{Named, are_distinct};
use document_parts::documents::{ShapeFault, Step};
use document_parts::keys::{SpelledRule, SpelledTable, name_rule, read_role_rule};
use document_parts::members::{items_of, member_of};
use document_parts::names::name_at;
use document_parts::rules::Rule;
use document_parts::trail::Trail;
use path_patterns::RoleName;
use std::alloc::Global;

// The most steps of a layout.
const MOST_STEPS: usize = 16;

/// A step whose rule's ids need not be ids of keys.
#[derive(Drop)]
pub struct SpelledStep {
    pub name: RoleName,
    pub rule: SpelledRule,
    pub materials: Vec<Rule>,
    pub products: Vec<Rule>,
}

impl Named for SpelledStep {
    ghost name = { λ step. step.name };

    fn is_namesake(&self, other: &SpelledStep) -> bool {
        self.name.as_str() == other.name.as_str()
    }
}

/// The steps over the table that the value is.
pub fn read_steps(
    alloc: Global,
    value: &Value,
    keys: &SpelledTable,
    trail: &mut Trail,
) -> Result<Vec<SpelledStep>, ShapeFault>
    requires { IsProper (view value.now) }
    ensures ok { IfOk result (λ ss. AreSteps (spelled_table keys.now) (view value.now) (spelled_steps ss.items)) }
    ensures err { IfErr result (IsIll ((ss : List plain.Step) × AreSteps (spelled_table keys.now) (view value.now) ss)) }
{
    let Some(items) = items_of(value) else {
        return Err(ShapeFault::WrongShape);
    };
    if !are_few(items) {
        return Err(ShapeFault::WrongShape);
    }
    trail.enter_items();
    let steps = steps_of(alloc, items, keys, trail)?;
    trail.leave();
    if are_distinct(&steps) {
        Ok(steps)
    } else {
        Err(ShapeFault::WrongShape)
    }
}

// Whether there are as many as a layout may have.
fn are_few(items: &[Value]) -> bool
    ensures { IsTrue result ↔ ((0 < length items.now) × (length items.now ≤ max_steps)) }
{
    !items.is_empty() && items.len() <= MOST_STEPS
}

fn steps_of(
    alloc: Global,
    items: &[Value],
    keys: &SpelledTable,
    trail: &mut Trail,
) -> Result<Vec<SpelledStep>, ShapeFault>
    requires { EachItem IsSound (items_view items.now) }
    ensures ok { IfOk result (λ ss. ItemsAre (IsStep (spelled_table keys.now)) (items_view items.now) (spelled_steps ss.items)) }
    ensures err { IfErr result (IsIll ((ss : List plain.Step) × ItemsAre (IsStep (spelled_table keys.now)) (items_view items.now) ss)) }
{
    let mut steps = Vec::new(alloc);
    let mut rest = items;
    'items: while let Some((item, later)) = rest.split_first() {
        let step = read_step(alloc, item, keys, trail)?;
        steps.push(step)?;
        trail.next();
        rest = later;
    }
    Ok(steps)
}

// The step over the table that the value is.
fn read_step(
    alloc: Global,
    value: &Value,
    keys: &SpelledTable,
    trail: &mut Trail,
) -> Result<SpelledStep, ShapeFault>
    requires { IsProper (view value.now) }
    ensures ok { IfOk result (λ s. IsStep (spelled_table keys.now) (view value.now) (spelled_step s)) }
    ensures err { IfErr result (IsIll ((s : plain.Step) × IsStep (spelled_table keys.now) (view value.now) s)) }
{
    let name = name_at(alloc, value, "name", trail)?;
    let rule = read_role_rule(alloc, value, "pubkeys", keys, trail)?;
    let materials = rules_at(alloc, value, "expected_materials", trail)?;
    let products = rules_at(alloc, value, "expected_products", trail)?;
    Ok(SpelledStep {
        name,
        rule,
        materials,
        products,
    })
}

// The rules that the object has under the name.
fn rules_at(
    alloc: Global,
    value: &Value,
    name: &'static str,
    trail: &mut Trail,
) -> Result<Vec<Rule>, ShapeFault>
    requires { IsProper (view value.now) }
    ensures ok { IfOk result (λ rs. Has (view value.now) name.now (λ x. IsRuleList x (map rule_view rs.items))) }
    ensures err { IfErr result (IsIll ((rs : List ArtifactRule) × Has (view value.now) name.now (λ x. IsRuleList x rs))) }
{
    trail.enter(name);
    let Some(found) = member_of(value, name) else {
        return Err(ShapeFault::WrongShape);
    };
    let rules = read_rules(alloc, found, trail)?;
    trail.leave();
    Ok(rules)
}

/// The steps, the keys of their rules named by their ids.
pub fn name_steps(alloc: Global, spelled: Vec<SpelledStep>) -> Result<Vec<Step>, ShapeFault>
    requires { AllByRecursion (λ s. AllByRecursion (IsHex 64) s.rule.keyids) (spelled_steps spelled.items) }
    ensures ok { IfOk result (λ ss. map step_view ss.items ≡ spelled_steps spelled.items) }
    ensures err { IfErr result (λ e. e ≡ ShapeFault.OutOfMemory) }
{
    let mut steps = Vec::new(alloc);
    for step in spelled {
        let named = name_step(alloc, step)?;
        steps.push(named)?;
    }
    Ok(steps)
}

fn name_step(alloc: Global, spelled: SpelledStep) -> Result<Step, ShapeFault>
    requires { AllByRecursion (IsHex 64) (spelled_rule spelled.rule).keyids }
    ensures ok { IfOk result (λ s. step_view s ≡ spelled_step spelled) }
    ensures err { IfErr result (λ e. e ≡ ShapeFault.OutOfMemory) }
{
    let SpelledStep {
        name,
        rule,
        materials,
        products,
    } = spelled;
    let rule = name_rule(alloc, &rule)?;
    Ok(Step {
        name,
        rule,
        materials,
        products,
    })
}
