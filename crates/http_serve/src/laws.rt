// What follows from the definitions alone.
ghost use Rattle.std.specs.Prelude.{◌≡◌, ◌⊎◌, ◌++◌, Bool, true, ℕ, List, Option, Result};
ghost use Rattle.trust_rules.specs.State.{State};
ghost use Rattle.trust_rules.specs.Runs.{Command, Reply, Runs};
ghost use Rattle.http_messages.specs.Faults.{fault_response};
ghost use Rattle.http_messages.specs.declared.faults.Fault.TheVariants.{Memory, Database};
ghost use Rattle.http_serve.specs.Response.{Responds};
ghost use Rattle.http_serve.specs.Serving.{Answered, AnsweredBy, EndedBy, EndedUnavailable, Line, Serves};
ghost use Rattle.http_serve.specs.declared.serve.ServeFault.{ServeFault};
ghost use Rattle.store.specs.Standing.{IsClean, Moves, Standing};

use http_messages::one_request;
use path_patterns::names_undo;
use trust_rules::one_judgement;

/// A law, which does nothing: an input has one response at a moment, and leaves one state.
pub fn one_response()
    ensures { (S : State) (input : List ℕ) (now : ℕ) (t u : List ℕ) (T U : State) → Responds S input now t T → Responds S input now u U → (t ≡ u) × (T ≡ U) }
{
    one_request();
    one_judgement();
    names_undo();
}

/// A law, which does nothing: what an input is answered is its response, from the state at which the store stood to that at which it
/// then stands, or a refusal by 503, which leaves the state as it was. The bytes of a target are read from the disk, so that it is a
/// response is said unless a wrong answer of the disk was taken as true.
pub fn only_responses()
    ensures { (A B : Standing) (input : List ℕ) (now : ℕ) (text : List ℕ) → Answered A input now text B
        → Moves A B (λ S T. IsClean B → Responds S input now text T) ⊎ (((text ≡ fault_response Memory) ⊎ (text ≡ fault_response Database)) × Moves A B (λ S T. T ≡ S)) }
{}

/// A law, which does nothing: whatever commands led to the state at which the store stood, they and those made while connections were
/// served lead to the state at which it then stands, unless a wrong answer of the disk was taken as true.
pub fn runs_on()
    ensures { (lines : List Line) (helds : List (Option (List ℕ))) (A B : Standing) (count : ℕ) → Serves lines helds A B count
        → Moves A B (λ S T. IsClean B → (first : State) (before : List (Command × ℕ)) (replies : List Reply) → Runs first before S replies
        → (made : List (Command × ℕ)) × (later : List Reply) × Runs first (before ++ made) T (replies ++ later)) }
{}

/// A law, which does nothing: a connection that is answered that no database can be opened ends as one that is served from a store,
/// wherever that stands, and the store stays as it is.
pub fn unavailable_is_served()
    ensures { (reads_only : Bool) (line : Line) (held : Option (List ℕ)) (A : Standing) (r : Result (Unit {0}) ServeFault) → EndedUnavailable reads_only line held r
        → EndedBy reads_only line held A r A }
{}

/// A law, which does nothing: whatever a server that only reads is sent, the state stays as it was.
pub fn reading_changes_nothing()
    ensures { (A B : Standing) (input : List ℕ) (now : ℕ) (text : List ℕ) → AnsweredBy true A input now text B → Moves A B (λ S T. T ≡ S) }
{}
