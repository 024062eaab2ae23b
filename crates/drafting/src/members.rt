//! Members of objects that are changed.
ghost use Rattle.std.specs.Prelude.{◌≡◌, ◌⊎◌, ◌<◌, ◌≤◌, ◌∷◌, ℕ, [], List, length, pos, slice_index_or, string_bytes, vec_len, IfOk, OnOk, MatchOption, String, true, false};
ghost use Rattle.std.specs.declared.alloc.Global.{Global};
ghost use Rattle.canonical_json.specs.Json.{Json, Items, Members, array, boolean, integer, text, object, names, HasMember};
ghost use Rattle.canonical_json.specs.Spelling.{AreRising, IsBefore};
ghost use Rattle.canonical_json.specs.View.{view, items_view, members_view};
ghost use Rattle.canonical_json.specs.declared.Value.{Value};
ghost use Rattle.drafting.specs.Members.{AlikeBut, Drops, HasNone, IsListAt, IsObjectAt, Puts, without};
ghost use Rattle.drafting.specs.Targets.{IsThere};
ghost use Rattle.drafting.specs.steps.Rows.{rows_view};

use canonical_json::Value;
use std::alloc::{AllocError, Global};

// The place of the first member of this name.
fn place_of(members: &[(String, Value)], name: &str) -> Option<usize>
    ensures { MatchOption result ((x : Json) → HasMember (object (members_view members.now)) name.now x → ⊥)
        (λ i. (i < length members.now) × ((d : String Global × Value) → string_bytes (slice_index_or members.now i d).0 ≡ name.now)) }
{
    for (i, member) in members.iter().enumerate() {
        if member.0.as_str() == name {
            return Some(i);
        }
    }
    None
}

/// Whether there is a member of this name.
pub fn is_there(members: &[(String, Value)], name: &str) -> bool
    ensures there { result ≡ true → IsThere (object (members_view members.now)) name.now }
    ensures none { result ≡ false → HasNone (object (members_view members.now)) name.now }
{
    match place_of(members, name) {
        Some(_) => true,
        None => false,
    }
}

/// Takes each member of the name out.
pub fn take_out(members: &mut Vec<(String, Value)>, name: &str)
    ensures dropped { Drops name.now (object (members_view members.old.items)) (object (members_view members.new.items)) }
    ensures rest { rows_view members.new.items ≡ without (name.now ∷ []) (rows_view members.old.items) }
{
    'members: while let Some(at) = place_of(members, name) {
        members.remove(at);
    }
}

/// Puts a member, in the place of those of its name. Where the names rise, they rise still.
pub fn put(
    alloc: Global,
    members: &mut Vec<(String, Value)>,
    name: &str,
    value: Value,
) -> Result<(), AllocError>
    ensures puts { OnOk result (Puts name.now (view value) (object (members_view members.old.items)) (object (members_view members.new.items))) }
    ensures rising { OnOk result (AreRising (names (members_view members.old.items)) → AreRising (names (members_view members.new.items))) }
{
    take_out(members, name);
    let at = place_for(members, name);
    let name = String::from_str(alloc, name)?;
    members.insert(at, (name, value))?;
    Ok(())
}

// How many members at the front do not stand after this name.
fn place_for(members: &[(String, Value)], name: &str) -> usize
    ensures bound { result ≤ length members.now }
    ensures front { (k : ℕ) → k < result → (d : String Global × Value) → IsBefore name.now (string_bytes (slice_index_or members.now k d).0) → ⊥ }
    ensures behind { result < length members.now → (d : String Global × Value) → IsBefore name.now (string_bytes (slice_index_or members.now result d).0) }
{
    for (i, member) in members.iter().enumerate() {
        if name < member.0.as_str() {
            return i;
        }
    }
    members.len()
}

/// Takes the object out that stands under the name: it has no members where no object does.
pub fn take_object(
    alloc: Global,
    members: &mut Vec<(String, Value)>,
    name: &str,
) -> Vec<(String, Value)>
    ensures object { IsObjectAt (object (members_view members.old.items)) name.now (object (members_view result.items)) }
    ensures others { AlikeBut (name.now ∷ []) (object (members_view members.old.items)) (object (members_view members.new.items)) }
{
    let Some(at) = place_of(members, name) else {
        return Vec::new(alloc);
    };
    let (_name, value) = members.remove(at);
    into_members(alloc, value)
}

// The members of the object that the value is: none where it is no object.
fn into_members(alloc: Global, value: Value) -> Vec<(String, Value)>
    ensures { (view value ≡ object (members_view result.items)) ⊎ ((result.items ≡ []) × ((ms : Members) → view value ≡ object ms → ⊥)) }
{
    match value {
        Value::Object(members) => members,
        _ => Vec::new(alloc),
    }
}

/// Takes the list out that stands under the name: it has no items where no list does.
pub fn take_list(alloc: Global, members: &mut Vec<(String, Value)>, name: &str) -> Vec<Value>
    ensures list { IsListAt (object (members_view members.old.items)) name.now (items_view result.items) }
    ensures others { AlikeBut (name.now ∷ []) (object (members_view members.old.items)) (object (members_view members.new.items)) }
{
    let Some(at) = place_of(members, name) else {
        return Vec::new(alloc);
    };
    let (_name, value) = members.remove(at);
    into_items(alloc, value)
}

// The items of the list that the value is: none where it is no list.
fn into_items(alloc: Global, value: Value) -> Vec<Value>
    ensures { (view value ≡ array (items_view result.items)) ⊎ ((result.items ≡ []) × ((vs : Items) → view value ≡ array vs → ⊥)) }
{
    match value {
        Value::List(items) => items,
        _ => Vec::new(alloc),
    }
}

/// A text of its own.
pub fn text_value(alloc: Global, said: &str) -> Result<Value, AllocError>
    ensures { IfOk result (λ v. view v ≡ text said.now) }
{
    Ok(Value::Text(String::from_str(alloc, said)?))
}

/// A number.
pub fn number_value(number: u32) -> Value
    ensures { view result ≡ integer (pos number) }
{
    Value::Int(i64::from(number))
}

/// A number of any size.
pub(crate) fn integer_value(number: i64) -> Value
    ensures { view result ≡ integer number }
{
    Value::Int(number)
}

/// The text, as a value.
pub(crate) fn string_value(said: String) -> Value
    ensures { view result ≡ text (string_bytes said) }
{
    Value::Text(said)
}

/// The object of these members.
pub fn object_value(members: Vec<(String, Value)>) -> Value
    ensures { view result ≡ object (members_view members.items) }
{
    Value::Object(members)
}

/// `true`
pub(crate) fn true_value() -> Value
    ensures { view result ≡ boolean true }
{
    Value::Bool(true)
}
