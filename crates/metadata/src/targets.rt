// Targets metadata (TUF 1.0, section 4.5).
ghost use Rattle.std.specs.Prelude.{◌≡◌, Option, codes, option_map, IfSome, IfOk, IfErr};
ghost use Rattle.std.specs.List.{AllByRecursion};
ghost use Rattle.canonical_json.specs.Spelling.{IsProper};
ghost use Rattle.canonical_json.specs.View.{view};
ghost use Rattle.document_parts.specs.Bodies.{HasDelegations, IsTargets};
ghost use Rattle.document_parts.specs.Documents as plain;
ghost use Rattle.document_parts.specs.Parts.{NamesAreIds};
ghost use Rattle.metadata.specs.Shape.{delegation_tables};
ghost use Rattle.document_parts.specs.steps.Faults.{IsIll, IsMisnamed, IsFaulty};
ghost use Rattle.document_parts.specs.Members.{MayHave};
ghost use Rattle.metadata.specs.steps.Entries.{AreNamed};
ghost use Rattle.metadata.specs.steps.Spelled.{spelled_delegations, AreAllOver};
ghost use Rattle.document_parts.specs.Views.{delegations_view, targets_view};

use crate::delegations::{SpelledDelegations, name_delegations, read_delegations};
use crate::listings::{name_listings, read_table};
use canonical_json::Value;
use document_parts::documents::{Delegations, ShapeFault, Targets};
use document_parts::head::read_head;
use document_parts::members::member_of;
use document_parts::trail::Trail;
use std::alloc::Global;

/// The targets metadata that the signed part is, the keys of its delegations named by their ids.
pub(crate) fn read_targets(
    alloc: Global,
    signed: &Value,
    trail: &mut Trail,
) -> Result<Targets, ShapeFault>
    requires { IsProper (view signed.now) }
    ensures ok { IfOk result (λ t. IsTargets (view signed.now) (targets_view t) × AreNamed (targets_view t)) }
    ensures err { IfErr result (IsFaulty (IsTargets (view signed.now)) AreNamed) }
{
    let Some((version, expires)) = read_head(signed, trail) else {
        return Err(ShapeFault::WrongShape);
    };
    trail.enter("targets");
    let Some(found) = member_of(signed, "targets") else {
        return Err(ShapeFault::WrongShape);
    };
    let listings = read_table(alloc, found, trail)?;
    trail.turn("delegations");
    let spelled = delegations_of(alloc, signed, trail)?;
    let delegations = named(alloc, spelled, trail)?;
    trail.turn("targets");
    trail.enter_entries();
    let targets = name_listings(alloc, listings, trail)?;
    Ok(Targets {
        version,
        expires,
        targets,
        delegations,
    })
}

// The delegations that the object has, if it has any, whatever the names in their key table.
fn delegations_of(
    alloc: Global,
    signed: &Value,
    trail: &mut Trail,
) -> Result<Option<SpelledDelegations>, ShapeFault>
    requires { IsProper (view signed.now) }
    ensures ok { IfOk result (λ o. MayHave (view signed.now) (codes "delegations") HasDelegations (option_map spelled_delegations o)) }
    ensures err { IfErr result (IsIll ((o : Option plain.Delegations) × MayHave (view signed.now) (codes "delegations") HasDelegations o)) }
{
    let Some(found) = member_of(signed, "delegations") else {
        return Ok(None);
    };
    let delegations = read_delegations(alloc, found, trail)?;
    Ok(Some(delegations))
}

// The delegations, each key named by its id.
fn named(
    alloc: Global,
    spelled: Option<SpelledDelegations>,
    trail: &mut Trail,
) -> Result<Option<Delegations>, ShapeFault>
    requires { IfSome spelled AreAllOver }
    ensures ok { IfOk result (λ o. (option_map delegations_view o ≡ option_map spelled_delegations spelled)
        × AllByRecursion NamesAreIds (delegation_tables (option_map spelled_delegations spelled))) }
    ensures err { IfErr result (IsMisnamed (AllByRecursion NamesAreIds (delegation_tables (option_map spelled_delegations spelled)))) }
{
    let Some(spelled) = spelled else {
        return Ok(None);
    };
    let delegations = name_delegations(alloc, spelled, trail)?;
    Ok(Some(delegations))
}
