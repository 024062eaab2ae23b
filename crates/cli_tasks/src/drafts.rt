//! What the words say of a draft.
ghost use Rattle.std.specs.Prelude.{IfOk, codes};
ghost use Rattle.clap.specs.Words.{found_of, rows_of};
ghost use Rattle.cli_tasks.specs.CommandLine.{HasDraft, HasKind, HasLayout, HasLink, HasTargets, LacksChain, LacksDelegations, LacksKey, LacksLayout, LacksLink, LacksRole, LacksTargets, SpreadsAlone};

use crate::given::{
    fault, is_given, is_left_out, refuse, refuse_flag, text_of, text_or_none, texts_of,
    texts_or_none,
};
use crate::outside::{attach_of, message_of};
use crate::tasks::{Draft, Drafting, LayoutDraft, LinkDraft, MOST_TIMES, TargetsDraft, Unread};
use clap::ArgMatches;
use limits::MOST_DOCUMENTS;
use std::alloc::Global;

/// What is drafted.
pub fn draft_of(alloc: Global, given: &ArgMatches<'_>) -> Result<Drafting, Unread>
    ensures { IfOk result (HasDraft (rows_of (found_of given.now))) }
{
    let db = text_or_none(alloc, given, "db")?;
    let folder = text_of(alloc, given, "in")?;
    let expires = text_or_none(alloc, given, "expires")?;
    let name = text_of(alloc, given, "kind")?;
    let kind = kind_of(alloc, given, name.as_str())?;
    see_key(alloc, given, &kind, name.as_str())?;
    Ok(Drafting {
        db,
        folder,
        expires,
        anew: is_given(given, "anew"),
        kind,
    })
}

// A key stands beside a signature of another tool alone.
fn see_key(alloc: Global, given: &ArgMatches<'_>, kind: &Draft, name: &str) -> Result<(), Unread>
    ensures { IfOk result (λ _. LacksKey (rows_of (found_of given.now)) kind.now) }
{
    match kind {
        Draft::Attach(_) => Ok(()),
        Draft::Root { .. }
        | Draft::Targets(_)
        | Draft::Layout(_)
        | Draft::Link(_)
        | Draft::Seal
        | Draft::Take { .. }
        | Draft::Message { .. } => refuse(alloc, given, "key", name),
    }
}

// The kind of this name.
fn kind_of(alloc: Global, given: &ArgMatches<'_>, kind: &str) -> Result<Draft, Unread>
    ensures { IfOk result (HasKind (rows_of (found_of given.now)) kind.now) }
{
    match kind {
        "root" => root_of(alloc, given),
        "targets" => targets_of(alloc, given),
        "layout" => layout_of(alloc, given),
        "link" => link_of(alloc, given),
        "seal" => seal_of(alloc, given),
        "take" => take_of(alloc, given),
        "message" => message_of(alloc, given),
        "attach" => attach_of(alloc, given),
        _ => Err(fault(
            alloc,
            "error: a draft is of the kind root, targets, layout, link, seal, take, message or attach\n\nFor more information, try '--help'.\n",
        )),
    }
}

fn root_of(alloc: Global, given: &ArgMatches<'_>) -> Result<Draft, Unread>
    ensures { IfOk result (HasKind (rows_of (found_of given.now)) (codes "root")) }
{
    refuse_targets(alloc, given, "root")?;
    refuse_chain(alloc, given, "root")?;
    let rules = texts_or_none(alloc, given, "word", MOST_DOCUMENTS)?;
    Ok(Draft::Root { rules })
}

fn targets_of(alloc: Global, given: &ArgMatches<'_>) -> Result<Draft, Unread>
    ensures { IfOk result (HasKind (rows_of (found_of given.now)) (codes "targets")) }
{
    refuse(alloc, given, "word", "targets")?;
    refuse_chain(alloc, given, "targets")?;
    let told = told_of_targets(alloc, given)?;
    Ok(Draft::Targets(told))
}

fn seal_of(alloc: Global, given: &ArgMatches<'_>) -> Result<Draft, Unread>
    ensures { IfOk result (HasKind (rows_of (found_of given.now)) (codes "seal")) }
{
    refuse(alloc, given, "word", "seal")?;
    refuse_targets(alloc, given, "seal")?;
    refuse_chain(alloc, given, "seal")?;
    Ok(Draft::Seal)
}

fn take_of(alloc: Global, given: &ArgMatches<'_>) -> Result<Draft, Unread>
    ensures { IfOk result (HasKind (rows_of (found_of given.now)) (codes "take")) }
{
    refuse_targets(alloc, given, "take")?;
    refuse_layout(alloc, given, "take")?;
    refuse_link(alloc, given, "take")?;
    let target = text_or_none(alloc, given, "target")?;
    let files = texts_of(alloc, given, "word", MOST_DOCUMENTS)?;
    Ok(Draft::Take { target, files })
}

fn layout_of(alloc: Global, given: &ArgMatches<'_>) -> Result<Draft, Unread>
    ensures { IfOk result (HasKind (rows_of (found_of given.now)) (codes "layout")) }
{
    refuse_targets(alloc, given, "layout")?;
    refuse_link(alloc, given, "layout")?;
    let told = told_of_layout(alloc, given)?;
    Ok(Draft::Layout(told))
}

fn told_of_layout(alloc: Global, given: &ArgMatches<'_>) -> Result<LayoutDraft, Unread>
    ensures { IfOk result (HasLayout (rows_of (found_of given.now))) }
{
    let target = text_of(alloc, given, "target")?;
    let owners = text_of(alloc, given, "owners")?;
    let rules = text_or_none(alloc, given, "rules")?;
    let steps = texts_of(alloc, given, "word", MOST_DOCUMENTS)?;
    Ok(LayoutDraft {
        target,
        owners,
        rules,
        steps,
    })
}

fn link_of(alloc: Global, given: &ArgMatches<'_>) -> Result<Draft, Unread>
    ensures { IfOk result (HasKind (rows_of (found_of given.now)) (codes "link")) }
{
    refuse(alloc, given, "word", "link")?;
    refuse_targets(alloc, given, "link")?;
    refuse(alloc, given, "target", "link")?;
    refuse_layout(alloc, given, "link")?;
    let told = told_of_link(alloc, given)?;
    Ok(Draft::Link(told))
}

fn told_of_link(alloc: Global, given: &ArgMatches<'_>) -> Result<LinkDraft, Unread>
    ensures { IfOk result (HasLink (rows_of (found_of given.now))) }
{
    let step = text_of(alloc, given, "step")?;
    let materials = texts_or_none(alloc, given, "materials", MOST_TIMES)?;
    let products = texts_or_none(alloc, given, "products", MOST_TIMES)?;
    Ok(LinkDraft {
        step,
        materials,
        products,
    })
}

// What is told of targets metadata.
fn told_of_targets(alloc: Global, given: &ArgMatches<'_>) -> Result<TargetsDraft, Unread>
    ensures { IfOk result (HasTargets (rows_of (found_of given.now))) }
{
    let role = text_or_none(alloc, given, "role")?;
    let add = texts_or_none(alloc, given, "add", MOST_TIMES)?;
    let remove = texts_or_none(alloc, given, "remove", MOST_TIMES)?;
    let delegate = texts_or_none(alloc, given, "delegate", MOST_TIMES)?;
    let bins = texts_or_none(alloc, given, "bins", MOST_TIMES)?;
    let before = text_or_none(alloc, given, "before")?;
    let undelegate = texts_or_none(alloc, given, "undelegate", MOST_TIMES)?;
    see_spread_alone(alloc, given)?;
    Ok(TargetsDraft {
        role,
        add,
        remove,
        spread: is_given(given, "spread"),
        delegate,
        bins,
        terminating: is_given(given, "terminating"),
        before,
        undelegate,
    })
}

// Where each target is listed in the role that covers it, nothing is said of one role or of delegations.
fn see_spread_alone(alloc: Global, given: &ArgMatches<'_>) -> Result<(), Unread>
    ensures { IfOk result (λ _. SpreadsAlone (rows_of (found_of given.now))) }
{
    if !is_given(given, "spread") {
        return Ok(());
    }
    refuse_role(alloc, given)
}

fn refuse_role(alloc: Global, given: &ArgMatches<'_>) -> Result<(), Unread>
    ensures { IfOk result (λ _. LacksRole (rows_of (found_of given.now))) }
{
    refuse(alloc, given, "role", "--spread")?;
    refuse_delegations(alloc, given, "--spread")
}

// Nothing is said of delegations.
fn refuse_delegations(alloc: Global, given: &ArgMatches<'_>, with: &str) -> Result<(), Unread>
    ensures { IfOk result (λ _. LacksDelegations (rows_of (found_of given.now))) }
{
    refuse(alloc, given, "delegate", with)?;
    refuse(alloc, given, "bins", with)?;
    refuse_flag(alloc, given, "terminating", with)?;
    refuse(alloc, given, "before", with)?;
    refuse(alloc, given, "undelegate", with)
}

// What targets metadata alone has stands beside no other kind.
pub(crate) fn refuse_targets(
    alloc: Global,
    given: &ArgMatches<'_>,
    kind: &str,
) -> Result<(), Unread>
    ensures { IfOk result (λ _. LacksTargets (rows_of (found_of given.now))) }
{
    refuse(alloc, given, "role", kind)?;
    refuse(alloc, given, "add", kind)?;
    refuse(alloc, given, "remove", kind)?;
    refuse_flag(alloc, given, "spread", kind)?;
    refuse_delegations(alloc, given, kind)
}

// What layouts and links have stands beside no other kind.
pub(crate) fn refuse_chain(alloc: Global, given: &ArgMatches<'_>, kind: &str) -> Result<(), Unread>
    ensures { IfOk result (λ _. LacksChain (rows_of (found_of given.now))) }
{
    refuse(alloc, given, "target", kind)?;
    refuse_layout(alloc, given, kind)?;
    refuse_link(alloc, given, kind)
}

fn refuse_layout(alloc: Global, given: &ArgMatches<'_>, kind: &str) -> Result<(), Unread>
    ensures { IfOk result (λ _. LacksLayout (rows_of (found_of given.now))) }
{
    refuse(alloc, given, "owners", kind)?;
    refuse(alloc, given, "rules", kind)
}

fn refuse_link(alloc: Global, given: &ArgMatches<'_>, kind: &str) -> Result<(), Unread>
    ensures { IfOk result (λ _. LacksLink (rows_of (found_of given.now))) }
{
    refuse(alloc, given, "step", kind)?;
    refuse(alloc, given, "materials", kind)?;
    refuse(alloc, given, "products", kind)
}
