//! Batches: documents that are judged in order, each against what the earlier ones made, and taken together or not at all.
ghost use Rattle.std.specs.Prelude.{◌≡◌, ◌↔◌, cond, ℕ, Result, IsTrue, IfOk, IfErr, length};
ghost use Rattle.denials.specs.Orders as orders;
ghost use Rattle.denials.specs.Views.{denial_view};
ghost use Rattle.denials.specs.declared.denial.Denial.{Denial as Denials};
ghost use Rattle.trusted_state.specs.Answers.{AnswersBatch};
ghost use Rattle.trust_rules.specs.Held.{OfEachState};
ghost use Rattle.trusted_state.specs.Knowing.{BatchCarriesKnown, BatchCarriesVerdicts};
ghost use Rattle.trust_rules.specs.Ready.{AreDenied, AreTaken};
ghost use Rattle.trusted_state.specs.steps.Carrying.{BatchLeavesTrusted};
ghost use Rattle.trusted_state.specs.steps.Judging.{IsDeniedAt, IsRefusedAt};
ghost use Rattle.trust_rules.specs.Offers as commands;
ghost use Rattle.trust_rules.specs.Offers.{Ended};
ghost use Rattle.trust_rules.specs.State.{IsCoherent};
ghost use Rattle.trusted_state.specs.Views.{documents_view, draft_view};

use crate::calls::offer_one;
use crate::compared::are_coherent;
use delegations::Verdicts;
use denials::Denial;
use metadata::Moment;
use std::alloc::Global;
use trust_rules::stays_valid;
use trusted_state::draft::Draft;
use trusted_state::held::Held;
use trusted_state::knowing::batch_with_verdicts;
use trusted_state::outcome::{Batched, Offer};
use trusted_state::pieces::effects::Effects;
use trusted_state::refusal::{BatchRefusal, Refusal};
use trusted_state::state::State;

/// Offers documents in order, each against what the earlier ones made. They are taken together, if what they leave belongs
/// together: timestamp and snapshot are both absent, or the timestamp names the snapshot and the shelf holds the document of
/// each role that it lists. A denial has the index of its document, and that of the whole batch the number of its documents.
pub fn batch(
    alloc: Global,
    state: &State,
    documents: &[(Offer, &[u8])],
    now: Moment,
) -> Result<Batched, BatchRefusal>
    ensures answers { AnswersBatch state.now.state (commands.batch state.now.state.trusted (documents_view documents.now) now) result }
    ensures known { BatchCarriesKnown state.now.state result }
{
    state.is_valid();
    batch_on(alloc, state.held(), documents, now)
}

/// The same, where the blobs are elsewhere.
pub fn batch_on(
    alloc: Global,
    held: &Held,
    documents: &[(Offer, &[u8])],
    now: Moment,
) -> Result<Batched, BatchRefusal>
    ensures answers { OfEachState held.now.held (λ S. AnswersBatch S (commands.batch S.trusted (documents_view documents.now) now) result) }
    ensures known { BatchCarriesVerdicts held.now.held.trusted result }
{
    let batched = judge_batch(alloc, held, documents, now)?;
    batch_with_verdicts(alloc, held, batched)
}

/// Whether the documents would be taken together at the moment, or the first rule that fails, with the index of its document: so of
/// every state in which just this is held. Nothing changes.
pub fn would_take(
    alloc: Global,
    held: &Held,
    documents: &[(Offer, &[u8])],
    now: Moment,
) -> Result<(), BatchRefusal>
    ensures ready { IfOk result (λ _. OfEachState held.now.held (λ S. AreTaken S.trusted (documents_view documents.now) now)) }
    ensures denied { IfErr result (λ r. (d : Denials) (i : ℕ) → r ≡ BatchRefusal.Denied d i
        → OfEachState held.now.held (λ S. AreDenied S.trusted (documents_view documents.now) now (denial_view d) i)) }
{
    match batch_on(alloc, held, documents, now) {
        Ok(_batched) => Ok(()),
        Err(refusal) => Err(refusal),
    }
}

// Offers documents in order to what is held.
fn judge_batch(
    alloc: Global,
    held: &Held,
    documents: &[(Offer, &[u8])],
    now: Moment,
) -> Result<Batched, BatchRefusal>
    ensures answers { OfEachState held.now.held (λ S. AnswersBatch S (commands.batch S.trusted (documents_view documents.now) now) result) }
    ensures trusted { BatchLeavesTrusted held.now.held.trusted result }
{
    stays_valid();
    let draft = Draft::new(alloc, held.trusted());
    let progress = judge_all(alloc, draft, documents, now)?;
    let Progress {
        draft,
        accepted,
        same,
    } = progress;
    if !is_coherent(&draft) {
        return Err(BatchRefusal::Denied(Denial::Incoherent, documents.len()));
    }
    Ok(Batched {
        effects: Effects::of(alloc, draft.into_changes()),
        accepted,
        same,
    })
}

// How far a batch has come.
#[derive(Drop)]
struct Progress<'a> {
    draft: Draft<'a>,
    accepted: usize,
    same: usize,
}

// Offers the documents to the draft.
fn judge_all<'a>(
    alloc: Global,
    draft: Draft<'a>,
    documents: &[(Offer, &[u8])],
    now: Moment,
) -> Result<Progress<'a>, BatchRefusal>
    ensures ok { IfOk result (λ p. (r : Result commands.Batched (orders.Denial × ℕ))
        → Ended (record { trusted = draft_view p.draft; accepted = p.accepted; same = p.same }) (length documents.now) r
        → commands.batch (draft_view draft.entry) (documents_view documents.now) now r) }
    ensures base { IfOk result (λ p. p.draft.base.now ≡ draft.entry.base.now) }
    ensures err { IfErr result (IsDeniedAt (commands.batch (draft_view draft.entry) (documents_view documents.now) now)) }
{
    let mut draft = draft;
    let mut known = Verdicts::new(alloc);
    let mut accepted = 0usize;
    let mut same = 0usize;
    let mut index = 0usize;
    while index < documents.len() {
        let document = &documents[index];
        let taken = match offer_one(alloc, &mut draft, &mut known, &document.0, document.1, now) {
            Ok(taken) => taken,
            Err(refusal) => return Err(refused_at(refusal, index)),
        };
        accepted += one_if(taken);
        same += one_if(!taken);
        index += 1;
    }
    Ok(Progress {
        draft,
        accepted,
        same,
    })
}

// One where it is so.
fn one_if(holds: bool) -> usize
    ensures { result ≡ cond holds 1 0 }
{
    if holds { 1 } else { 0 }
}

// The refusal of the document with this index.
fn refused_at(refusal: Refusal, index: usize) -> BatchRefusal
    ensures { IsRefusedAt refusal index result }
{
    match refusal {
        Refusal::Denied(denial) => BatchRefusal::Denied(denial, index),
        Refusal::OutOfMemory => BatchRefusal::OutOfMemory,
    }
}

// Whether what is trusted belongs together.
fn is_coherent(draft: &Draft<'_>) -> bool
    ensures { IsTrue result ↔ (IsCoherent (draft_view draft.now)) }
{
    are_coherent(draft.timestamp(), draft.snapshot(), draft.rows())
}
