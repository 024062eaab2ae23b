//! How two values are compared: part by part, or as a whole.
ghost use Rattle.std.specs.Prelude.{◌≡◌, ◌≢◌, Some, None, cond, MatchBool};
ghost use Rattle.canonical_json.specs.Json.{null, boolean, integer, text};
ghost use Rattle.canonical_json.specs.View.{view};
ghost use Rattle.value_changes.specs.Views.{side_view};
ghost use Rattle.value_changes.specs.steps.Pairs.{IsPair};

use canonical_json::Value;

/// What two values are to one another.
#[derive(Clone, Copy)]
pub(crate) enum Pair<'v> {
    /// Two objects, which are compared member by member.
    Objects(&'v [(String, Value)], &'v [(String, Value)]),
    /// Two arrays, which are compared item by item.
    Arrays(&'v [Value], &'v [Value]),
    /// The same.
    Same,
    /// They differ as a whole.
    Changed,
}

/// How what stands at a place is compared.
pub(crate) fn pair_of<'v>(before: Option<&'v Value>, after: Option<&'v Value>) -> Pair<'v>
    ensures { IsPair (side_view before.entry) (side_view after.entry) result }
{
    match before {
        None => nothing_before(after),
        Some(one) => match after {
            None => Pair::Changed,
            Some(other) => values(one, other),
        },
    }
}

fn nothing_before<'v>(after: Option<&'v Value>) -> Pair<'v>
    ensures { IsPair None (side_view after.entry) result }
{
    match after {
        None => Pair::Same,
        Some(_) => Pair::Changed,
    }
}

fn values<'v>(one: &'v Value, other: &'v Value) -> Pair<'v>
    ensures { IsPair (Some (view one.now)) (Some (view other.now)) result }
{
    match one {
        Value::Object(members) => match other {
            Value::Object(others) => Pair::Objects(members, others),
            _ => Pair::Changed,
        },
        Value::List(items) => match other {
            Value::List(others) => Pair::Arrays(items, others),
            _ => Pair::Changed,
        },
        Value::Null => as_whole(is_null(other)),
        Value::Bool(value) => as_whole(is_boolean(other, *value)),
        Value::Int(value) => as_whole(is_integer(other, *value)),
        Value::Text(value) => as_whole(is_text(other, value.as_str())),
    }
}

fn as_whole<'v>(is_same: bool) -> Pair<'v>
    ensures { result ≡ cond is_same Pair.Same Pair.Changed }
{
    if is_same { Pair::Same } else { Pair::Changed }
}

fn is_null(value: &Value) -> bool
    ensures { MatchBool result (view value.now ≡ null) (view value.now ≢ null) }
{
    match value {
        Value::Null => true,
        _ => false,
    }
}

fn is_boolean(value: &Value, wanted: bool) -> bool
    ensures { MatchBool result (view value.now ≡ boolean wanted) (view value.now ≢ boolean wanted) }
{
    match value {
        Value::Bool(found) => *found == wanted,
        _ => false,
    }
}

fn is_integer(value: &Value, wanted: i64) -> bool
    ensures { MatchBool result (view value.now ≡ integer wanted) (view value.now ≢ integer wanted) }
{
    match value {
        Value::Int(found) => *found == wanted,
        _ => false,
    }
}

fn is_text(value: &Value, wanted: &str) -> bool
    ensures { MatchBool result (view value.now ≡ text wanted.now) (view value.now ≢ text wanted.now) }
{
    match value {
        Value::Text(found) => found.as_str() == wanted,
        _ => false,
    }
}
