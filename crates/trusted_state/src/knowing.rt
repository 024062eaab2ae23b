//! What is known of the signatures on a shelf: found out before a commit, so that no request checks them again.
ghost use Rattle.std.specs.Prelude.{◌≡◌, ◌≤◌, IfOk, length};
ghost use Rattle.delegations.specs.Rows.{AllFiles};
ghost use Rattle.delegations.specs.Verdicts.{AreTrue};
ghost use Rattle.trust_rules.specs.Offers.{kept_rows};
ghost use Rattle.trust_rules.specs.Effects.{brought, nothing_gone};
ghost use Rattle.trusted_state.specs.Knowing.{BatchCarriesVerdicts, CarriesVerdicts, IsKnown};
ghost use Rattle.trust_rules.specs.State.{IsTrusted};
ghost use Rattle.trusted_state.specs.steps.Carrying.{BatchMakesTrusted, IsSameBatch, IsSameOutcome, MakesTrusted};
ghost use Rattle.trust_rules.specs.steps.Pruning.{AreAtListed};
ghost use Rattle.state_parts.specs.Views.{effects_view, gone_view, trusted_view};
ghost use Rattle.trusted_state.specs.Views.{draft_view};

use crate::draft::Draft;
use crate::held::Held;
use crate::outcome::{Batched, Outcome};
use crate::refusal::{BatchRefusal, Refusal};
use delegations::{Shelf, Verdicts, all_verdicts};
use state_parts::effects::Effects;
use state_parts::parts::Trusted;
use std::alloc::{AllocError, Global};

/// An outcome with what is known after it.
pub fn with_verdicts(alloc: Global, held: &Held, outcome: Outcome) -> Result<Outcome, Refusal>
    requires { MakesTrusted held.now.held.trusted outcome }
    ensures same { IsSameOutcome outcome result }
    ensures known { CarriesVerdicts held.now.held.trusted result }
{
    match outcome {
        Outcome::Changed(effects) => {
            let effects = effects_with_verdicts(alloc, held, effects)?;
            Ok(Outcome::Changed(effects))
        }
        Outcome::Same => Ok(Outcome::Same),
    }
}

/// The same of a batch.
pub fn batch_with_verdicts(
    alloc: Global,
    held: &Held,
    batched: Batched,
) -> Result<Batched, BatchRefusal>
    requires { BatchMakesTrusted held.now.held.trusted batched }
    ensures same { IsSameBatch batched result }
    ensures known { BatchCarriesVerdicts held.now.held.trusted result }
{
    let Batched {
        effects,
        accepted,
        same,
    } = batched;
    match effects_with_verdicts(alloc, held, effects) {
        Ok(effects) => Ok(Batched {
            effects,
            accepted,
            same,
        }),
        Err(_) => Err(BatchRefusal::OutOfMemory),
    }
}

/// The changes with what is known after them. What is known of a row that stays is not found out again.
pub fn effects_with_verdicts(
    alloc: Global,
    held: &Held,
    effects: Effects,
) -> Result<Effects, AllocError>
    requires none { gone_view effects.gone ≡ nothing_gone }
    requires trusted { IsTrusted (brought held.now.held.trusted (effects_view effects)) }
    ensures same { IfOk result (λ e. effects_view e ≡ effects_view effects) }
    ensures known { IfOk result (λ e. IsKnown (brought held.now.held.trusted (effects_view effects)) e.verdicts) }
{
    let Effects {
        changes,
        blobs,
        gone,
        verdicts: _,
    } = effects;
    let draft = Draft::over(held.trusted(), changes);
    let verdicts = draft_verdicts(alloc, &draft, held.verdicts())?;
    Ok(Effects {
        changes: draft.into_changes(),
        blobs,
        gone,
        verdicts,
    })
}

/// What is known of the shelf of a state, found out anew.
pub fn trusted_verdicts(alloc: Global, trusted: &Trusted) -> Result<Verdicts, AllocError>
    requires { IsTrusted (trusted_view trusted.now) }
    ensures { IfOk result (λ t. IsKnown (trusted_view trusted.now) t) }
{
    draft_verdicts(alloc, &Draft::new(alloc, trusted), &Verdicts::new(alloc))
}

/// What is known of the rows of the shelf at listed versions.
pub fn listed_verdicts(alloc: Global, held: &Held) -> Result<Verdicts, AllocError>
    ensures { IfOk result (λ t. IsKnown (record held.now.held.trusted { shelf = kept_rows held.now.held.trusted }) t) }
{
    held.is_valid();
    draft_verdicts(alloc, &Draft::new(alloc, held.trusted()), held.verdicts())
}

// What is known after changes, where this is known of the state before them.
fn draft_verdicts(alloc: Global, draft: &Draft<'_>, held: &Verdicts) -> Result<Verdicts, AllocError>
    requires sound { AreTrue (trusted_view draft.now.base.now).shelf held.now }
    requires few { AllFiles (λ f. length f.entries ≤ 16) (draft_view draft.now).shelf }
    ensures known { IfOk result (λ t. IsKnown (draft_view draft.now) t) }
    ensures listed { IfOk result (λ t. AreAtListed (draft_view draft.now).snapshot t) }
{
    let Some(root) = draft.root() else {
        return Ok(Verdicts::new(alloc));
    };
    let Some(snapshot) = draft.snapshot() else {
        return Ok(Verdicts::new(alloc));
    };
    let shelf = Shelf::new(&root.body, &snapshot.body, draft.rows());
    all_verdicts(alloc, &shelf, held)
}
