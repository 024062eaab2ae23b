//! The members of two objects, name by name.
ghost use Rattle.std.specs.Prelude.{◌≡◌, [], ◌∷◌, Some, None, string_bytes, MatchBool, MatchOption};
ghost use Rattle.canonical_json.specs.Json.{names};
ghost use Rattle.canonical_json.specs.Spelling.{AreRising};
ghost use Rattle.canonical_json.specs.View.{view, members_view};
ghost use Rattle.value_changes.specs.Changes.{at_name};
ghost use Rattle.value_changes.specs.steps.Turns.{merged, turn_view};

use canonical_json::Value;
use std::cmp::Ordering;

/// What stands at a name in two objects, and the members after it.
#[derive(Clone, Copy)]
pub(crate) struct Turn<'v> {
    pub name: &'v str,
    pub before: Option<&'v Value>,
    pub after: Option<&'v Value>,
    pub left: &'v [(String, Value)],
    pub right: &'v [(String, Value)],
}

/// The least of the two first names, and what stands there.
pub(crate) fn next<'v>(
    before: &'v [(String, Value)],
    after: &'v [(String, Value)],
) -> Option<Turn<'v>>
    ensures { MatchOption result (merged (members_view before.now) (members_view after.now) ≡ [])
        (λ t. merged (members_view before.now) (members_view after.now) ≡ turn_view t ∷ merged (members_view t.left.now) (members_view t.right.now)) }
{
    let Some((one, left)) = before.split_first() else {
        let (other, right) = after.split_first()?;
        return Some(after_alone(other, before, right));
    };
    let Some((other, right)) = after.split_first() else {
        return Some(before_alone(one, left, after));
    };
    match one.0.as_str().cmp(other.0.as_str()) {
        Ordering::Less => Some(before_alone(one, left, after)),
        Ordering::Equal => Some(Turn {
            name: one.0.as_str(),
            before: Some(&one.1),
            after: Some(&other.1),
            left,
            right,
        }),
        Ordering::Greater => Some(after_alone(other, before, right)),
    }
}

// The member stands in the first object alone.
fn before_alone<'v>(
    member: &'v (String, Value),
    left: &'v [(String, Value)],
    right: &'v [(String, Value)],
) -> Turn<'v>
    ensures turn { turn_view result ≡ record { step = at_name (string_bytes member.now.0); one = Some (view member.now.1); other = None } }
    ensures left { result.left.now ≡ left.now }
    ensures right { result.right.now ≡ right.now }
{
    Turn {
        name: member.0.as_str(),
        before: Some(&member.1),
        after: None,
        left,
        right,
    }
}

// The member stands in the second object alone.
fn after_alone<'v>(
    member: &'v (String, Value),
    left: &'v [(String, Value)],
    right: &'v [(String, Value)],
) -> Turn<'v>
    ensures turn { turn_view result ≡ record { step = at_name (string_bytes member.now.0); one = None; other = Some (view member.now.1) } }
    ensures left { result.left.now ≡ left.now }
    ensures right { result.right.now ≡ right.now }
{
    Turn {
        name: member.0.as_str(),
        before: None,
        after: Some(&member.1),
        left,
        right,
    }
}

/// Whether the names rise strictly in the order of their bytes.
pub(crate) fn are_rising(members: &[(String, Value)]) -> bool
    ensures { MatchBool result (AreRising (names (members_view members.now))) (AreRising (names (members_view members.now)) → ⊥) }
{
    let Some((first, later)) = members.split_first() else {
        return true;
    };
    let mut name = first.0.as_str();
    let mut rest = later;
    'names: while let Some((member, later)) = rest.split_first() {
        if name >= member.0.as_str() {
            return false;
        }
        name = member.0.as_str();
        rest = later;
    }
    true
}
