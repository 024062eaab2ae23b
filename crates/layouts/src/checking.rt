//! Whether a layout holds.
ghost use Rattle.std.specs.Prelude.{map};
ghost use Rattle.artifact_rules.specs.Views.{links_view};
ghost use Rattle.keys_roles.specs.Views.{rule_view, table_view};
ghost use Rattle.metadata.specs.FileViews.{layout_file};
ghost use Rattle.document_parts.specs.Views.{step_view};
ghost use Rattle.layouts.specs.Faults.{IsJudged};
ghost use Rattle.layouts.specs.Layouts.{layout_holds, rules_and_product};
ghost use Rattle.layouts.specs.Views.{files_view};

use crate::faults::LayoutFault;
use crate::gathering::gather_all;
use crate::ruling::{check_rules, has_product};
use keys_roles::{KeyTable, RoleRule, meets};
use metadata::{Digest, File, Layout, Link, Moment, live};
use path_patterns::{RoleName, TargetPath};
use std::alloc::Global;

/// Whether the layout and its links allow the target: as many owners as their rule asks for have signed the layout, it is live, each step has
/// good links from as many keys as its threshold and at least one, the good links of a step do not differ, the rules of each step hold of its
/// link, and the named step's link lists the product with the digest of the target (in-toto 1.0, section 5.2).
///
/// A link is good for a step if it has the step's name and a signature by a key of the step's rule. Who has signed a link is judged once for
/// the step that it names.
///
/// Errors: the first check that fails, in this order, as `LayoutFault` says.
pub fn check_layout(
    alloc: Global,
    layout: &File<Layout>,
    owners: (&RoleRule, &KeyTable),
    links: &[File<Link>],
    step: &RoleName,
    product: &TargetPath,
    digest: &Digest,
    now: Moment,
) -> Result<(), LayoutFault>
    ensures { IsJudged (layout_holds (layout_file layout.now) (rule_view owners.entry.0.now) (table_view owners.entry.1.now) (files_view links.now) step.now product.now digest.now.0 now) result }
{
    let (rule, table) = owners;
    if !meets(
        rule,
        table,
        layout.source.signed(),
        layout.source.signatures(),
    ) {
        return Err(LayoutFault::LayoutThreshold);
    }
    if !live(layout.body.expires, now) {
        return Err(LayoutFault::LayoutExpired);
    }
    let found = gather_all(alloc, &layout.body.steps, &layout.body.keys, links)?;
    if !found.agree {
        return Err(LayoutFault::LinksDisagree);
    }
    check_chosen(alloc, &layout.body, &found.links, step, product, digest)
}

// Whether the rules of the steps hold of these links, and the named step's link lists the product.
fn check_chosen(
    alloc: Global,
    layout: &Layout,
    links: &[&Link],
    step: &RoleName,
    product: &TargetPath,
    digest: &Digest,
) -> Result<(), LayoutFault>
    ensures { IsJudged (rules_and_product (links_view links.now) (map step_view layout.now.steps.items) step.now product.now digest.now.0) result }
{
    check_rules(alloc, &layout.steps, links, links)?;
    if has_product(links, step.as_str(), product, digest) {
        Ok(())
    } else {
        Err(LayoutFault::ProductMismatch)
    }
}
