// Lists of artifact rules (in-toto 1.0, sections 4.3.1 and 4.3.3).
ghost use Rattle.std.specs.Prelude.{ℕ, List, map, IfOk, IfErr};
ghost use Rattle.canonical_json.specs.View.{view, items_view};
ghost use Rattle.document_parts.specs.Bodies.{IsListedRule, IsRuleList};
ghost use Rattle.document_parts.specs.Members.{ItemsAre};
ghost use Rattle.document_parts.specs.RuleViews.{rule_view};
ghost use Rattle.document_parts.specs.Rules.{ArtifactRule};
ghost use Rattle.document_parts.specs.steps.Faults.{IsIll};

use crate::rules::read_rule;
use canonical_json::Value;
use document_parts::documents::ShapeFault;
use document_parts::keys::read_texts;
use document_parts::members::items_of;
use document_parts::rules::Rule;
use document_parts::trail::Trail;
use std::alloc::Global;

// The most rules of one list.
const MOST_RULES: usize = 64;

/// The rules that the value is.
pub fn read_rules(alloc: Global, value: &Value, trail: &mut Trail) -> Result<Vec<Rule>, ShapeFault>
    ensures ok { IfOk result (λ rs. IsRuleList (view value.now) (map rule_view rs.items)) }
    ensures err { IfErr result (IsIll ((rs : List ArtifactRule) × IsRuleList (view value.now) rs)) }
{
    let Some(items) = items_of(value) else {
        return Err(ShapeFault::WrongShape);
    };
    if items.len() > MOST_RULES {
        return Err(ShapeFault::WrongShape);
    }
    trail.enter_items();
    let rules = rules_of(alloc, items, trail)?;
    trail.leave();
    Ok(rules)
}

fn rules_of(alloc: Global, items: &[Value], trail: &mut Trail) -> Result<Vec<Rule>, ShapeFault>
    ensures ok { IfOk result (λ rs. ItemsAre IsListedRule (items_view items.now) (map rule_view rs.items)) }
    ensures err { IfErr result (IsIll ((rs : List ArtifactRule) × ItemsAre IsListedRule (items_view items.now) rs)) }
{
    let mut rules = Vec::new(alloc);
    let mut rest = items;
    'items: while let Some((item, later)) = rest.split_first() {
        let rule = rule_of(alloc, item, trail)?;
        rules.push(rule)?;
        trail.next();
        rest = later;
    }
    Ok(rules)
}

// The rule whose words the value is.
fn rule_of(alloc: Global, value: &Value, trail: &mut Trail) -> Result<Rule, ShapeFault>
    ensures ok { IfOk result (λ r. IsListedRule (view value.now) (rule_view r)) }
    ensures err { IfErr result (IsIll ((r : ArtifactRule) × IsListedRule (view value.now) r)) }
{
    let words = read_texts(alloc, value, trail)?;
    let Some(rule) = read_rule(alloc, &words)? else {
        return Err(ShapeFault::WrongShape);
    };
    Ok(rule)
}
