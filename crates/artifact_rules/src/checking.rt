//! Whether a list of rules holds.
ghost use Rattle.std.specs.Prelude.{map, IfErr, OnOk};
ghost use Rattle.document_parts.specs.RuleViews.{link_view, rule_view, side_view};
ghost use Rattle.artifact_rules.specs.Faults.{IsRuleFault};
ghost use Rattle.artifact_rules.specs.Rules.{RulesHold};
ghost use Rattle.artifact_rules.specs.Views.{links_view};
ghost use Rattle.artifact_rules.specs.steps.Judging.{IsFaultAt, IsPassed};
ghost use Rattle.artifact_rules.specs.steps.Queue.{queue_view};

use crate::faults::RuleFault;
use crate::queue::{Queued, first_left, queue_of};
use crate::taking::Judged;
use metadata::{Link, Rule, Side};
use std::alloc::Global;

/// Whether the rules hold of one side of the link; the links are those that MATCH looks into, of which a step's is the first of its name.
/// On the paths of the side it makes as many look-ups by halves as there are rules and paths, and takes room for one number a path.
///
/// Errors: the first rule that fails, as `RuleFault` says.
pub fn check<'a>(
    alloc: Global,
    rules: &'a [Rule],
    side: Side,
    link: &'a Link,
    links: &'a [&'a Link],
) -> Result<(), RuleFault<'a>>
    ensures hold { OnOk result (RulesHold (side_view side) (link_view link.now) (links_view links.now) (map rule_view rules.now)) }
    ensures fault { IfErr result (IsRuleFault (side_view side) (link_view link.now) (links_view links.now) (map rule_view rules.now)) }
{
    let judged = Judged { side, link, links };
    let Ok(queue) = queue_of(alloc, &judged, rules) else {
        return Err(RuleFault::OutOfMemory);
    };
    let mut at = 0;
    'rules: while at < rules.len() {
        judge(&rules[at], at, &queue)?;
        at += 1;
    }
    Ok(())
}

// Whether the rule of this place fails.
fn judge<'a>(rule: &'a Rule, at: usize, queue: &[Queued<'a>]) -> Result<(), RuleFault<'a>>
    ensures ok { OnOk result (IsPassed (queue_view queue.now) at (rule_view rule.now)) }
    ensures fault { IfErr result (IsFaultAt (queue_view queue.now) at (rule_view rule.now)) }
{
    match (rule, first_left(queue, at, rule)) {
        (Rule::Disallow(_), Some(place)) => {
            Err(RuleFault::Disallowed(at, queue[place].path.as_str()))
        }
        (Rule::Require(path), None) => Err(RuleFault::Required(at, path.as_str())),
        _ => Ok(()),
    }
}
