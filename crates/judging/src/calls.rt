//! The commands: each is judged on a state that is borrowed, and answers what it changes, or the first rule that fails.
ghost use Rattle.std.specs.Prelude.{◌≡◌, ◌∷◌, [], IfOk};
ghost use Rattle.metadata.specs.FileViews.{root_file};
ghost use Rattle.delegations.specs.Verdicts.{AreFoundOut};
ghost use Rattle.trusted_state.specs.Answers.{Answers};
ghost use Rattle.trust_rules.specs.Held.{OfEachState};
ghost use Rattle.trusted_state.specs.Knowing.{CarriesKnown, CarriesVerdicts};
ghost use Rattle.trusted_state.specs.steps.Carrying.{LeavesTrusted};
ghost use Rattle.trusted_state.specs.steps.Judging.{Ends};
ghost use Rattle.trust_rules.specs.Offers as commands;
ghost use Rattle.trust_rules.specs.Effects.{no_effects, on_state};
ghost use Rattle.trusted_state.specs.PartViews.{effects_view};
ghost use Rattle.trusted_state.specs.Views.{draft_view, offer_view};

use crate::files::new_root;
use crate::roots::offer_root;
use crate::snapshots::offer_snapshot;
use crate::targets_metadata::offer_targets;
use crate::timestamps::offer_timestamp;
use delegations::Verdicts;
use denials::Denial;
use metadata::{File, Moment, Root};
use std::alloc::{AllocError, Global};
use trust_rules::stays_valid;
use trusted_state::draft::Draft;
use trusted_state::held::Held;
use trusted_state::knowing::with_verdicts;
use trusted_state::outcome::{Offer, Outcome};
use trusted_state::pieces::checks::is_signed;
use trusted_state::pieces::effects::{Changes, Effects};
use trusted_state::refusal::Refusal;
use trusted_state::state::State;

/// Begins the trust with a first root, which must meet its own rule for roots (TUF 1.0, section 5.2). Denials in their order:
/// a root is trusted already; the file's shape; the root's own threshold.
pub fn init(alloc: Global, state: &State, bytes: &[u8]) -> Result<Outcome, Refusal>
    ensures answers { Answers state.now.state (commands.init state.now.state bytes.now) result }
    ensures known { CarriesKnown state.now.state result }
{
    state.is_valid();
    init_on(alloc, state.held(), bytes)
}

// Begins the trust with a first root.
fn judge_first(alloc: Global, held: &Held, bytes: &[u8]) -> Result<Outcome, Refusal>
    ensures answers { OfEachState held.now.held (λ S. Answers S (commands.init S bytes.now) result) }
    ensures trusted { LeavesTrusted held.now.held.trusted result }
{
    stays_valid();
    if held.trusted().root.is_some() {
        return Err(Refusal::Denied(Denial::RootExists));
    }
    let new = new_root(alloc, bytes)?;
    if !is_signed(&new.body.root, &new.body.keys, &new.source) {
        return Err(Refusal::Denied(Denial::NewThreshold));
    }
    let effects = first_root(alloc, new)?;
    Ok(Outcome::Changed(effects))
}

// A root alone.
fn first_root(alloc: Global, root: File<Root>) -> Result<Effects, AllocError>
    ensures { IfOk result (λ e. effects_view e ≡ record no_effects { roots = root_file root ∷ [] }) }
{
    let mut changes = Changes::new(alloc);
    changes.roots.push(root)?;
    Ok(Effects::of(alloc, changes))
}

/// Offers one document at a moment (TUF 1.0, sections 5.3 to 5.6).
pub fn offer(
    alloc: Global,
    state: &State,
    offer: &Offer,
    bytes: &[u8],
    now: Moment,
) -> Result<Outcome, Refusal>
    ensures answers { Answers state.now.state (on_state state.now.state (commands.offer state.now.state.trusted (offer_view offer.now) bytes.now now)) result }
    ensures known { CarriesKnown state.now.state result }
{
    state.is_valid();
    offer_on(alloc, state.held(), offer, bytes, now)
}

/// `init`, where the blobs are elsewhere.
pub fn init_on(alloc: Global, held: &Held, bytes: &[u8]) -> Result<Outcome, Refusal>
    ensures answers { OfEachState held.now.held (λ S. Answers S (commands.init S bytes.now) result) }
    ensures known { CarriesVerdicts held.now.held.trusted result }
{
    let outcome = judge_first(alloc, held, bytes)?;
    with_verdicts(alloc, held, outcome)
}

/// `offer`, where the blobs are elsewhere.
pub fn offer_on(
    alloc: Global,
    held: &Held,
    offer: &Offer,
    bytes: &[u8],
    now: Moment,
) -> Result<Outcome, Refusal>
    ensures answers { OfEachState held.now.held (λ S. Answers S (on_state S (commands.offer S.trusted (offer_view offer.now) bytes.now now)) result) }
    ensures known { CarriesVerdicts held.now.held.trusted result }
{
    let outcome = judge_offer(alloc, held, offer, bytes, now)?;
    with_verdicts(alloc, held, outcome)
}

// Offers one document to what is held.
fn judge_offer(
    alloc: Global,
    held: &Held,
    offer: &Offer,
    bytes: &[u8],
    now: Moment,
) -> Result<Outcome, Refusal>
    ensures answers { OfEachState held.now.held (λ S. Answers S (on_state S (commands.offer S.trusted (offer_view offer.now) bytes.now now)) result) }
    ensures trusted { LeavesTrusted held.now.held.trusted result }
{
    stays_valid();
    let mut draft = Draft::new(alloc, held.trusted());
    let mut known = Verdicts::new(alloc);
    if !offer_one(alloc, &mut draft, &mut known, offer, bytes, now)? {
        return Ok(Outcome::Same);
    }
    Ok(Outcome::Changed(Effects::of(alloc, draft.into_changes())))
}

// Offers one document to a draft. The answer is whether it was taken. What is found out of signatures on the shelf is known to the targets
// documents that follow, up to the next document of another role.
pub(crate) fn offer_one(
    alloc: Global,
    draft: &mut Draft<'_>,
    known: &mut Verdicts,
    offer: &Offer,
    bytes: &[u8],
    now: Moment,
) -> Result<bool, Refusal>
    requires { AreFoundOut (draft_view draft.old).shelf known.old }
    ensures ends { Ends (commands.offer (draft_view draft.old) (offer_view offer.now) bytes.now now) (draft_view draft.old) (draft_view draft.new) result }
    ensures base { draft.new.base.now ≡ draft.old.base.now }
    ensures known { IfOk result (λ _. AreFoundOut (draft_view draft.new).shelf known.new) }
{
    match offer {
        Offer::Root => {
            known.forget();
            offer_root(alloc, draft, bytes)
        }
        Offer::Timestamp => {
            known.forget();
            offer_timestamp(alloc, draft, bytes, now)
        }
        Offer::Snapshot => {
            known.forget();
            offer_snapshot(alloc, draft, bytes, now)
        }
        Offer::Targets(role) => offer_targets(alloc, draft, known, role, bytes, now),
    }
}
