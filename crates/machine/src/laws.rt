//! Laws of the trust machine, in functions that do nothing.
ghost use Rattle.std.specs.List.{AllByRecursion};
ghost use Rattle.std.specs.Prelude.{ℕ, List, Option, Result, Ok, Err, length};
ghost use Rattle.metadata.specs.File.{Bytes};
ghost use Rattle.denials.specs.Orders.{Same};
ghost use Rattle.trust_rules.specs.State.{Trusted, State, IsState};
ghost use Rattle.trust_rules.specs.Offers.{Offer, Batched, offer, batch, prune};
ghost use Rattle.trust_rules.specs.Grants.{GrantAlike, grants};
ghost use Rattle.granting.specs.Answers.{AnswersBatch, IsAllSame};
ghost use Rattle.trust_rules.specs.Resending.{IsInOrder};
ghost use Rattle.trust_rules.specs.Runs.{Batch, BatchDone, Steps, with_trusted};
ghost use Rattle.granting.specs.Serving.{IsFault, IsSameAnswer, Serves};
ghost use Rattle.granting.specs.DeclaredBatched as answered;
ghost use Rattle.granting.specs.DeclaredBatchRefusal.{BatchRefusal};
ghost use Rattle.granting.specs.declared.serving.Served.{Served};
ghost use Rattle.granting.specs.declared.serving.GetFault.{GetFault};

use delegations::search_is_sound;
use metadata::{one_document, one_shape, snapshot_names};
use trust_rules::one_judgement;

/// A law, which does nothing: a prune changes no answer. Each request for a target has the same end before it and after it. So what is
/// answered by `get_from` and `target_from` is the same file under the same digest, or the same denial, unless it is a fault.
pub fn prune_keeps_answers()
    ensures grants { (S T : State) → prune S (Ok T) → GrantAlike S T }
    ensures answers { (S T : State) → IsState S → prune S (Ok T) → (path : Bytes) (asked : Option Bytes) (now : ℕ) (before after : Result Served GetFault)
        → Serves S (grants S path asked now) before → Serves T (grants T path asked now) after → (IsFault before → ⊥) → (IsFault after → ⊥)
        → IsSameAnswer before after }
{
    search_is_sound();
    one_judgement();
}

/// A law, which does nothing: a batch that was accepted and whose reply was lost may be sent again. At the same moment each of its
/// documents is the same, none is accepted, and what is trusted stays as it is: where they are at most one root, then at most one
/// timestamp, at most one snapshot, then targets documents.
pub fn sent_again()
    ensures offers { (T : Trusted) (os : List (Offer × Bytes)) (now : ℕ) (B : Batched) → IsInOrder os → batch T os now (Ok B)
        → AllByRecursion (λ o. offer B.trusted o.0 o.1 now (Err Same)) os }
    ensures batches { (T : Trusted) (os : List (Offer × Bytes)) (now : ℕ) (B : Batched) → IsInOrder os → batch T os now (Ok B)
        → batch B.trusted os now (Ok (record { trusted = B.trusted; accepted = 0; same = length os })) }
    ensures steps { (S U : State) (os : List (Offer × Bytes)) (now accepted same : ℕ) → IsInOrder os → Steps S (Batch os) now (U, BatchDone accepted same)
        → Steps U (Batch os) now (U, BatchDone 0 (length os)) }
    ensures answers { (S : State) (os : List (Offer × Bytes)) (now : ℕ) (B : Batched) (r : Result answered.Batched BatchRefusal) → IsInOrder os → batch S.trusted os now (Ok B)
        → AnswersBatch (with_trusted S B.trusted) (batch B.trusted os now) r → IsAllSame (with_trusted S B.trusted) (length os) r }
{
    snapshot_names();
    one_document();
    one_shape();
}
