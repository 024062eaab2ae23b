// The parts of a JSON value by their kinds, and the members of objects by their names.
ghost use Rattle.std.specs.Prelude.{◌≡◌, ◌↔◌, ℕ, Bool, List, MatchOption, IfSome, IsTrue, true};
ghost use Rattle.canonical_json.specs.Json.{Json, boolean, array, object, Items, Members, HasMember, member, no_members};
ghost use Rattle.canonical_json.specs.Spelling.{IsProper};
ghost use Rattle.canonical_json.specs.View.{view, items_view, members_view};
ghost use Rattle.document_parts.specs.Bodies.{NoMember};
ghost use Rattle.document_parts.specs.Members.{Has, IsText, IsNumber};

use canonical_json::Value;

/// The value of the member of this name.
#[tactic(auto, using(crate::proofs::Once::member_once, crate::proofs::Once::member_proper))]
pub fn member_of<'a>(value: &'a Value, name: &str) -> Option<&'a Value>
    requires { IsProper (view value.now) }
    ensures found { MatchOption result ((x : Json) → HasMember (view value.now) name.now x → ⊥)
        (λ found. HasMember (view value.now) name.now (view found.now)) }
    ensures only { IfSome result (λ found. (x : Json) → HasMember (view value.now) name.now x → x ≡ view found.now) }
    ensures proper { IfSome result (λ found. IsProper (view found.now)) }
{
    let found = first_named(value, name)?;
    Some(found)
}

/// Whether the value has no member of this name.
pub fn lacks(value: &Value, name: &str) -> bool
    requires { IsProper (view value.now) }
    ensures { IsTrue result ↔ (NoMember (view value.now) name.now) }
{
    match member_of(value, name) {
        Some(_) => false,
        None => true,
    }
}

// The value of the first member of this name.
fn first_named<'a>(value: &'a Value, name: &str) -> Option<&'a Value>
    ensures { MatchOption result ((x : Json) → HasMember (view value.now) name.now x → ⊥)
        (λ found. HasMember (view value.now) name.now (view found.now)) }
{
    let Value::Object(members) = value else {
        return None;
    };
    let mut rest = members.as_slice();
    'members: while let Some((member, later)) = rest.split_first() {
        if member.0.as_str() == name {
            return Some(&member.1);
        }
        rest = later;
    }
    None
}

/// The text that the value is.
pub fn text_of(value: &Value) -> Option<&str>
    ensures { MatchOption result ((t : List ℕ) → IsText (view value.now) t → ⊥) (λ t. IsText (view value.now) t.now) }
{
    match value {
        Value::Text(t) => Some(t.as_str()),
        _ => None,
    }
}

/// The values of the list that the value is.
pub fn items_of(value: &Value) -> Option<&[Value]>
    ensures { MatchOption result ((vs : Items) → view value.now ≡ array vs → ⊥) (λ vs. view value.now ≡ array (items_view vs.now)) }
{
    match value {
        Value::List(values) => Some(values.as_slice()),
        _ => None,
    }
}

/// The members of the object that the value is.
pub fn members_of(value: &Value) -> Option<&[(String, Value)]>
    ensures { MatchOption result ((ms : Members) → view value.now ≡ object ms → ⊥) (λ ms. view value.now ≡ object (members_view ms.now)) }
{
    match value {
        Value::Object(members) => Some(members.as_slice()),
        _ => None,
    }
}

/// The whole number that the value is, from `low` to `high`.
pub fn number_of(value: &Value, low: u32, high: u32) -> Option<u32>
    ensures { MatchOption result ((n : ℕ) → IsNumber low high (view value.now) n → ⊥) (λ n. IsNumber low high (view value.now) n) }
{
    let Value::Int(number) = value else {
        return None;
    };
    let number = u32::try_from(*number).ok()?;
    if low <= number && number <= high {
        Some(number)
    } else {
        None
    }
}

/// The value of the first of the members, which has this name, and the members after it.
pub fn next_member<'a>(
    members: &'a [(String, Value)],
    name: &str,
) -> Option<(&'a Value, &'a [(String, Value)])>
    ensures { MatchOption result ((x : Json) (ms : Members) → members_view members.now ≡ member name.now x ms → ⊥)
        (λ found. members_view members.now ≡ member name.now (view found.0.now) (members_view found.1.now)) }
{
    let (first, later) = members.split_first()?;
    if first.0.as_str() == name {
        Some((&first.1, later))
    } else {
        None
    }
}

/// The value of the one member of the object, which has this name.
pub fn one_member<'a>(value: &'a Value, name: &str) -> Option<&'a Value>
    ensures { MatchOption result ((x : Json) → view value.now ≡ object (member name.now x no_members) → ⊥)
        (λ x. view value.now ≡ object (member name.now (view x.now) no_members)) }
{
    let members = members_of(value)?;
    let (only, later) = next_member(members, name)?;
    match later.split_first() {
        None => Some(only),
        Some(_) => None,
    }
}

/// The values of the two members of the object, which have these names in this order.
pub fn two_members<'a>(
    value: &'a Value,
    first: &str,
    second: &str,
) -> Option<(&'a Value, &'a Value)>
    ensures { MatchOption result ((x y : Json) → view value.now ≡ object (member first.now x (member second.now y no_members)) → ⊥)
        (λ found. view value.now ≡ object (member first.now (view found.0.now) (member second.now (view found.1.now) no_members))) }
{
    let members = members_of(value)?;
    let (one, later) = next_member(members, first)?;
    let (two, later) = next_member(later, second)?;
    match later.split_first() {
        None => Some((one, two)),
        Some(_) => None,
    }
}

/// The values of the three members of the object, which have these names in this order.
pub fn three_members<'a>(
    value: &'a Value,
    first: &str,
    second: &str,
    third: &str,
) -> Option<(&'a Value, &'a Value, &'a Value)>
    ensures { MatchOption result ((x y z : Json) → view value.now ≡ object (member first.now x (member second.now y (member third.now z no_members))) → ⊥)
        (λ found. view value.now ≡ object (member first.now (view found.0.now) (member second.now (view found.1.now) (member third.now (view found.2.now) no_members)))) }
{
    let members = members_of(value)?;
    let (one, later) = next_member(members, first)?;
    let (two, later) = next_member(later, second)?;
    let (three, later) = next_member(later, third)?;
    match later.split_first() {
        None => Some((one, two, three)),
        Some(_) => None,
    }
}

/// Whether the value is this text.
pub fn is_text(value: &Value, text: &str) -> bool
    ensures { IsTrue result ↔ (IsText (view value.now) text.now) }
{
    match text_of(value) {
        Some(found) => *found == *text,
        None => false,
    }
}

/// The whole number from `low` to `high` that the member of this name is.
pub fn number_at(value: &Value, name: &str, low: u32, high: u32) -> Option<u32>
    requires { IsProper (view value.now) }
    ensures { MatchOption result ((n : ℕ) → Has (view value.now) name.now (λ x. IsNumber low high x n) → ⊥)
        (λ n. Has (view value.now) name.now (λ x. IsNumber low high x n)) }
{
    let found = member_of(value, name)?;
    number_of(found, low, high)
}

/// The values of the four members of the object, which have these names in this order.
pub fn four_members<'a>(
    value: &'a Value,
    first: &str,
    second: &str,
    third: &str,
    fourth: &str,
) -> Option<(&'a Value, &'a Value, &'a Value, &'a Value)>
    ensures { MatchOption result ((x y z w : Json) → view value.now ≡ object (member first.now x (member second.now y (member third.now z (member fourth.now w no_members)))) → ⊥)
        (λ found. view value.now ≡ object (member first.now (view found.0.now) (member second.now (view found.1.now) (member third.now (view found.2.now) (member fourth.now (view found.3.now) no_members))))) }
{
    let members = members_of(value)?;
    let (one, later) = next_member(members, first)?;
    let (two, later) = next_member(later, second)?;
    let (three, later) = next_member(later, third)?;
    let (four, later) = next_member(later, fourth)?;
    match later.split_first() {
        None => Some((one, two, three, four)),
        Some(_) => None,
    }
}

/// Whether the member of this name is `true`.
pub fn is_true_at(value: &Value, name: &str) -> bool
    requires { IsProper (view value.now) }
    ensures { IsTrue result ↔ (Has (view value.now) name.now (λ x. x ≡ boolean true)) }
{
    match member_of(value, name) {
        Some(found) => is_true(found),
        None => false,
    }
}

fn is_true(value: &Value) -> bool
    ensures { IsTrue result ↔ view value.now ≡ boolean true }
{
    match value {
        Value::Bool(b) => *b,
        _ => false,
    }
}

/// Whether the member of this name is `true` or `false`.
pub fn bool_at(value: &Value, name: &str) -> Option<bool>
    requires { IsProper (view value.now) }
    ensures { MatchOption result ((b : Bool) → Has (view value.now) name.now (λ x. x ≡ boolean b) → ⊥)
        (λ b. Has (view value.now) name.now (λ x. x ≡ boolean b)) }
{
    let found = member_of(value, name)?;
    bool_of(found)
}

fn bool_of(value: &Value) -> Option<bool>
    ensures { MatchOption result ((b : Bool) → view value.now ≡ boolean b → ⊥) (λ b. view value.now ≡ boolean b) }
{
    match value {
        Value::Bool(b) => Some(*b),
        _ => None,
    }
}
