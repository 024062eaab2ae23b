// The artifact rules of the steps, and the product of one.
ghost use Rattle.std.specs.Prelude.{◌≡◌, ◌↔◌, map, IsTrue, option_map};
ghost use Rattle.std.specs.List.{zip};
ghost use Rattle.artifact_rules.specs.Rules.{link_of};
ghost use Rattle.artifact_rules.specs.Views.{links_view};
ghost use Rattle.document_parts.specs.RuleViews.{link_view, rule_view, side_view};
ghost use Rattle.document_parts.specs.Views.{step_view};
ghost use Rattle.layouts.specs.Faults.{IsJudged, fault_of};
ghost use Rattle.layouts.specs.Layouts.{HasProduct, all, ruled, step_rules};

use crate::faults::LayoutFault;
use artifact_rules::{RuleFault, check};
use metadata::{Digest, Link, Rule, Side, Step};
use path_patterns::TargetPath;
use std::alloc::Global;

/// Whether the rules of each step hold of the link in its place; `links` are those that MATCH looks into.
pub(crate) fn check_rules<'a>(
    alloc: Global,
    steps: &[Step],
    own: &[&'a Link],
    links: &[&'a Link],
) -> Result<(), LayoutFault>
    ensures { IsJudged (all (step_rules (links_view links.now)) (zip (map step_view steps.now) (links_view own.now))) result }
{
    let Some((step, later)) = steps.split_first() else {
        return Ok(());
    };
    let Some((link, behind)) = own.split_first() else {
        return Ok(());
    };
    check_step(alloc, step, *link, links)?;
    check_rules(alloc, later, behind, links)
}

// Whether the rules of the step hold of the link, those of its materials first.
fn check_step(alloc: Global, step: &Step, link: &Link, links: &[&Link]) -> Result<(), LayoutFault>
    ensures { IsJudged (step_rules (links_view links.now) (step_view step.now, link_view link.now)) result }
{
    check_side(alloc, &step.materials, Side::Materials, link, links)?;
    check_side(alloc, &step.products, Side::Products, link, links)
}

// Whether the rules hold of the side of the link.
fn check_side(
    alloc: Global,
    rules: &[Rule],
    side: Side,
    link: &Link,
    links: &[&Link],
) -> Result<(), LayoutFault>
    ensures { IsJudged (ruled (links_view links.now) (side_view side) (link_view link.now) (map rule_view rules.now)) result }
{
    match check(alloc, rules, side, link, links) {
        Ok(()) => Ok(()),
        Err(fault) => Err(told(&fault)),
    }
}

// What the fault of a list of rules is told as.
fn told(fault: &RuleFault<'_>) -> LayoutFault
    ensures { result ≡ fault_of fault.now }
{
    match fault {
        RuleFault::Disallowed(_, _) => LayoutFault::Disallowed,
        RuleFault::Required(_, _) => LayoutFault::Required,
        RuleFault::OutOfMemory => LayoutFault::OutOfMemory,
    }
}

/// Whether the link of the step of this name lists the product with this digest.
pub(crate) fn has_product(
    links: &[&Link],
    step: &str,
    product: &TargetPath,
    digest: &Digest,
) -> bool
    ensures { IsTrue result ↔ (HasProduct (links_view links.now) step.now product.now digest.now.0) }
{
    let Some(link) = link_by(links, step) else {
        return false;
    };
    match link.products.digest_of(product.as_str()) {
        Some(found) => found == digest,
        None => false,
    }
}

// The link of the step: the first of its name.
fn link_by<'a>(links: &[&'a Link], step: &str) -> Option<&'a Link>
    ensures { option_map (λ l. link_view l.now) result ≡ link_of (links_view links.now) step.now }
{
    let (link, later) = links.split_first()?;
    if link.name.as_str() == step {
        return Some(*link);
    }
    link_by(later, step)
}
