// Why a value has no canonical text: the first fault in the order of the text.
ghost use Rattle.std.specs.Prelude.{◌≡◌, None, Some, Option, ℕ, List, option_map};
ghost use Rattle.canonical_json.specs.Faults.{first_fault, marks, item_marks, member_marks, name_mark};
ghost use Rattle.canonical_json.specs.Json.{Everywhere, EachItem};
ghost use Rattle.canonical_json.specs.Spelling.{IsOfCode, MembersOfCode};
ghost use Rattle.canonical_json.specs.View.{view, items_view, members_view};

use super::{MAX_DEPTH, Value, WriteFault};

// The first fault of a value that stands inside so many lists and objects.
#[cycle(faults)]
pub(crate) fn value_fault(value: &Value, outer: usize) -> Option<WriteFault>
    ensures first { result ≡ first_fault (marks outer (view value.now)) }
    ensures of_code { result ≡ None → Everywhere IsOfCode (view value.now) }
{
    match value {
        Value::List(values) => {
            if outer >= MAX_DEPTH {
                return Some(WriteFault::TooDeep);
            }
            items_fault(values, outer + 1)
        }
        Value::Object(members) => {
            if outer >= MAX_DEPTH {
                return Some(WriteFault::TooDeep);
            }
            members_fault(members, outer + 1)
        }
        Value::Null => None,
        Value::Bool(_) => None,
        Value::Int(n) => {
            // Reading the number is what shows a proof that it is one of 64 bits.
            let _read = *n;
            None
        }
        Value::Text(_) => None,
    }
}

#[cycle(faults)]
fn items_fault(values: &[Value], outer: usize) -> Option<WriteFault>
    ensures first { result ≡ first_fault (item_marks outer (items_view values.now)) }
    ensures of_code { result ≡ None → EachItem IsOfCode (items_view values.now) }
{
    let mut rest = values;
    'items: while let Some((value, later)) = rest.split_first() {
        if let Some(fault) = value_fault(value, outer) {
            return Some(fault);
        }
        rest = later;
    }
    None
}

#[cycle(faults)]
fn members_fault(members: &[(String, Value)], outer: usize) -> Option<WriteFault>
    ensures first { result ≡ first_fault (member_marks outer None (members_view members.now)) }
    ensures of_code { result ≡ None → MembersOfCode (members_view members.now) }
{
    let mut before = None;
    let mut rest = members;
    'members: while let Some((member, later)) = rest.split_first() {
        let name = member.0.as_str();
        if let Some(fault) = name_fault(before, name) {
            return Some(fault);
        }
        if let Some(fault) = value_fault(&member.1, outer) {
            return Some(fault);
        }
        before = Some(name);
        rest = later;
    }
    None
}

// A name stands after the name before it.
fn name_fault(before: Option<&str>, name: &str) -> Option<WriteFault>
    ensures { result ≡ first_fault (name_mark (option_map (λ b. b.now) before.entry) name.now) }
{
    match before {
        None => None,
        Some(before) => {
            if before < name {
                None
            } else {
                Some(WriteFault::Unordered)
            }
        }
    }
}
