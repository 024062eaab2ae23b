//! Which ids the rules of roles have.
ghost use Rattle.std.specs.Prelude.{◌≡◌, ◌↔◌, ◌<◌, ℕ, List, IsTrue, codes, MatchOption, String, length, slice_index_or, string_bytes, vec_len};
ghost use Rattle.std.specs.declared.alloc.Global.{Global};
ghost use Rattle.canonical_json.specs.Json.{Json, HasMember, object, text};
ghost use Rattle.canonical_json.specs.View.{view, items_view, members_view};
ghost use Rattle.canonical_json.specs.declared.Value.{Value};
ghost use Rattle.drafting.specs.Roots.{HasId, IsItem, IsListed, IsNamed};
ghost use Rattle.drafting.specs.Members.{Keeps};

use canonical_json::Value;
use metadata::text_of;

/// Takes out the members whose names no rule of the roles has.
pub fn keep_named(table: &mut Vec<(String, Value)>, roles: &[(String, Value)])
    ensures { Keeps (IsNamed (object (members_view roles.now))) (object (members_view table.old.items)) (object (members_view table.new.items)) }
{
    'table: while let Some(at) = unnamed_place(table, roles) {
        table.remove(at);
    }
}

// The place of the first member whose name no rule of the roles has.
fn unnamed_place(table: &[(String, Value)], roles: &[(String, Value)]) -> Option<usize>
    ensures { MatchOption result ((id : List ℕ) (x : Json) → HasMember (object (members_view table.now)) id x → IsNamed (object (members_view roles.now)) id)
        (λ i. (i < length table.now) × ((d : String Global × Value) → IsNamed (object (members_view roles.now)) (string_bytes (slice_index_or table.now i d).0) → ⊥)) }
{
    for (i, member) in table.iter().enumerate() {
        let named = is_named(roles, member.0.as_str());
        if !named {
            return Some(i);
        }
    }
    None
}

// Whether some rule of the roles has the id.
fn is_named(roles: &[(String, Value)], id: &str) -> bool
    ensures { IsTrue result ↔ (IsNamed (object (members_view roles.now)) id.now) }
{
    let mut rest = roles;
    'roles: while let Some((role, later)) = rest.split_first() {
        if has_id(&role.1, id) {
            return true;
        }
        rest = later;
    }
    false
}

// Whether the rule has the id.
fn has_id(rule: &Value, id: &str) -> bool
    ensures { IsTrue result ↔ (HasId (view rule.now) id.now) }
{
    match rule {
        Value::Object(members) => some_has_id(members.as_slice(), id),
        _ => false,
    }
}

// Whether a member `keyids` among these has the id.
fn some_has_id(members: &[(String, Value)], id: &str) -> bool
    ensures { IsTrue result ↔ (HasId (object (members_view members.now)) id.now) }
{
    let mut rest = members;
    'members: while let Some((member, later)) = rest.split_first() {
        if lists(member, id) {
            return true;
        }
        rest = later;
    }
    false
}

// Whether the member is `keyids` and has the id.
fn lists(member: &(String, Value), id: &str) -> bool
    ensures { IsTrue result ↔ ((string_bytes member.now.0 ≡ codes "keyids") × IsListed (view member.now.1) id.now) }
{
    member.0.as_str() == "keyids" && is_listed(&member.1, id)
}

// Whether the value is a list that has the text.
fn is_listed(value: &Value, id: &str) -> bool
    ensures { IsTrue result ↔ (IsListed (view value.now) id.now) }
{
    match value {
        Value::List(items) => is_item(items.as_slice(), id),
        _ => false,
    }
}

// Whether the text stands in the list.
fn is_item(items: &[Value], id: &str) -> bool
    ensures { IsTrue result ↔ (IsItem id.now (items_view items.now)) }
{
    let mut rest = items;
    'items: while let Some((item, later)) = rest.split_first() {
        if is_text(item, id) {
            return true;
        }
        rest = later;
    }
    false
}

/// Whether the value is the text.
pub(crate) fn is_text(value: &Value, said: &str) -> bool
    ensures { IsTrue result ↔ view value.now ≡ text said.now }
{
    match text_of(value) {
        Some(found) => *found == *said,
        None => false,
    }
}
