//! Roots: the order of their checks.
ghost use Rattle.std.specs.Prelude.{◌≡◌, cond};
ghost use Rattle.metadata.specs.FileViews.{root_file};
ghost use Rattle.trusted_state.specs.Answers.{Gives};
ghost use Rattle.trusted_state.specs.steps.Judging.{Ends};
ghost use Rattle.trust_rules.specs.Offers as commands;
ghost use Rattle.trust_rules.specs.Offers.{with_root, emptied};
ghost use Rattle.trusted_state.specs.Views.{draft_view};

use crate::compared::keeps_roles;
use crate::files::new_root;
use crate::following::after_root;
use denials::Denial;
use metadata::{File, Root};
use std::alloc::Global;
use trusted_state::draft::Draft;
use trusted_state::pieces::checks::{are_same, is_signed};
use trusted_state::refusal::Refusal;

// Whether a new root keeps the rules of the timestamp and the snapshot role, where it may follow the trusted one.
fn judge_root(draft: &Draft<'_>, old: &File<Root>, new: &File<Root>) -> Result<bool, Refusal>
    ensures { Gives (commands.renew_root (draft_view draft.now) (root_file old.now) (root_file new.now))
        (λ keeps. cond keeps (with_root (draft_view draft.now) (root_file new.now)) (emptied (with_root (draft_view draft.now) (root_file new.now)))) result }
{
    after_root(old, new)?;
    if !is_signed(&old.body.root, &old.body.keys, &new.source) {
        return Err(Refusal::Denied(Denial::OldThreshold));
    }
    if !is_signed(&new.body.root, &new.body.keys, &new.source) {
        return Err(Refusal::Denied(Denial::NewThreshold));
    }
    if !draft.has_room_for_root() {
        return Err(Refusal::Denied(Denial::Full));
    }
    Ok(keeps_roles(&old.body, &new.body))
}

// Offers a root. The answer is whether it was taken.
pub(crate) fn offer_root(
    alloc: Global,
    draft: &mut Draft<'_>,
    bytes: &[u8],
) -> Result<bool, Refusal>
    ensures ends { Ends (commands.offer_root (draft_view draft.old) bytes.now) (draft_view draft.old) (draft_view draft.new) result }
    ensures base { draft.new.base.now ≡ draft.old.base.now }
{
    let Some(old) = draft.root() else {
        return Err(Refusal::Denied(Denial::NoRoot));
    };
    if are_same(bytes, old.source.bytes()) {
        return Ok(false);
    }
    let new = new_root(alloc, bytes)?;
    let keeps = judge_root(draft, old, &new)?;
    draft.put_root(new, keeps)?;
    Ok(true)
}
