//! Targets metadata: the order of its checks.
ghost use Rattle.std.specs.Prelude.{◌≡◌, None, IfOk, IsTrue};
ghost use Rattle.metadata.specs.FileViews.{root_file, targets_file};
ghost use Rattle.document_parts.specs.Views.{meta_view};
ghost use Rattle.delegations.specs.Rows.{with_row, place_before, row_at};
ghost use Rattle.delegations.specs.Verdicts.{AreFoundOut};
ghost use Rattle.trusted_state.specs.Answers.{Gives};
ghost use Rattle.trusted_state.specs.steps.Judging.{Judges, Ends};
ghost use Rattle.trust_rules.specs.Offers as commands;
ghost use Rattle.trusted_state.specs.Views.{draft_view};

use crate::files::new_targets;
use delegations::{Row, Shelf, Verdicts, has_hash, has_length, vouched};
use denials::Denial;
use metadata::{File, Meta, Moment, Root, Targets, live};
use path_patterns::RoleName;
use std::alloc::{AllocError, Global};
use trusted_state::draft::Draft;
use trusted_state::liveness::live_snapshot;
use trusted_state::pieces::checks::are_same;
use trusted_state::refusal::Refusal;

// Whether the snapshot's entry names a new targets document.
fn named_targets(entry: &Meta, new: &File<Targets>) -> Result<(), Refusal>
    ensures { Gives (commands.named_targets (meta_view entry.now) (targets_file new.now)) (λ u. u) result }
{
    if !has_length(entry, &new.source) {
        return Err(Refusal::Denied(Denial::RoleLength));
    }
    if !has_hash(entry, &new.source) {
        return Err(Refusal::Denied(Denial::RoleHash));
    }
    if new.body.version != entry.version {
        return Err(Refusal::Denied(Denial::RoleVersion));
    }
    Ok(())
}

// Whether there is a place on the shelf for a new targets document, or it stands there.
fn placed(
    draft: &Draft<'_>,
    role: &RoleName,
    version: u32,
    new: &File<Targets>,
) -> Result<bool, Refusal>
    ensures judged { Judges (commands.placed (draft_view draft.now) role.now version (targets_file new.now))
        (record (draft_view draft.now) { shelf = with_row place_before (draft_view draft.now).shelf (role.now, version) (targets_file new.now) }) result }
    ensures free { IfOk result (λ taken. IsTrue taken → row_at (draft_view draft.now).shelf role.now version ≡ None) }
{
    if let Some(old) = draft.row_at(role.as_str(), version) {
        if are_same(old.source.bytes(), new.source.bytes()) {
            return Ok(false);
        }
        return Err(Refusal::Denied(Denial::VersionTaken));
    }
    if !draft.has_room_for_row() {
        return Err(Refusal::Denied(Denial::Full));
    }
    Ok(true)
}

// Whether a new targets document of a role is taken, or stands on the shelf.
fn judge_targets(
    alloc: Global,
    draft: &Draft<'_>,
    known: &mut Verdicts,
    root: &File<Root>,
    role: &RoleName,
    new: &File<Targets>,
    now: Moment,
) -> Result<bool, Refusal>
    requires { AreFoundOut (draft_view draft.now).shelf known.old }
    ensures judged { Judges (commands.renew_targets (draft_view draft.now) (root_file root.now) role.now (targets_file new.now) now)
        (record (draft_view draft.now) { shelf = with_row place_before (draft_view draft.now).shelf (role.now, new.now.body.version) (targets_file new.now) }) result }
    ensures free { IfOk result (λ taken. IsTrue taken → row_at (draft_view draft.now).shelf role.now new.now.body.version ≡ None) }
    ensures known { AreFoundOut (draft_view draft.now).shelf known.new }
{
    let snapshot = live_snapshot(draft.timestamp(), draft.snapshot(), root, now)?;
    let Some(entry) = snapshot.body.entry(role.as_str()) else {
        return Err(Refusal::Denied(Denial::RoleUnlisted));
    };
    named_targets(entry, new)?;
    let shelf = Shelf::new(&root.body, &snapshot.body, draft.rows());
    if !vouched(alloc, &shelf, known, role, new, now)? {
        return Err(Refusal::Denied(Denial::RoleThreshold));
    }
    if !live(new.body.expires, now) {
        return Err(Refusal::Denied(Denial::RoleExpired));
    }
    placed(draft, role, new.body.version, new)
}

// Puts a new targets document on the shelf.
fn put_targets(
    draft: &mut Draft<'_>,
    role: &RoleName,
    file: File<Targets>,
) -> Result<(), AllocError>
    ensures view { IfOk result (λ _. draft_view draft.new
        ≡ record (draft_view draft.old) { shelf = with_row place_before (draft_view draft.old).shelf (role.now, file.body.version) (targets_file file) }) }
    ensures base { draft.new.base.now ≡ draft.old.base.now }
{
    let role = role.clone()?;
    let version = file.body.version;
    draft.put_row(Row {
        role,
        version,
        file,
    })
}

// Offers a targets document of a role. The answer is whether it was taken.
pub(crate) fn offer_targets(
    alloc: Global,
    draft: &mut Draft<'_>,
    known: &mut Verdicts,
    role: &RoleName,
    bytes: &[u8],
    now: Moment,
) -> Result<bool, Refusal>
    requires { AreFoundOut (draft_view draft.old).shelf known.old }
    ensures ends { Ends (commands.offer_targets (draft_view draft.old) role.now bytes.now now) (draft_view draft.old) (draft_view draft.new) result }
    ensures base { draft.new.base.now ≡ draft.old.base.now }
    ensures known { IfOk result (λ _. AreFoundOut (draft_view draft.new).shelf known.new) }
{
    let Some(root) = draft.root() else {
        return Err(Refusal::Denied(Denial::NoRoot));
    };
    let new = new_targets(alloc, bytes)?;
    if !judge_targets(alloc, draft, known, root, role, &new, now)? {
        return Ok(false);
    }
    put_targets(draft, role, new)?;
    Ok(true)
}
