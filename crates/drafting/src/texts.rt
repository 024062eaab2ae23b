//! Members that are a text.
ghost use Rattle.std.specs.Prelude.{◌≡◌, ◌↔◌, ℕ, List, IsTrue, MatchOption, string_bytes};
ghost use Rattle.canonical_json.specs.Json.{HasMember, object, text};
ghost use Rattle.canonical_json.specs.View.{view, members_view};

use crate::named::is_text;
use canonical_json::Value;
use metadata::text_of;

/// Whether one of the members has this name and is this text.
pub fn some_text(members: &[(String, Value)], name: &str, said: &str) -> bool
    ensures { IsTrue result ↔ (HasMember (object (members_view members.now)) name.now (text said.now)) }
{
    let mut rest = members;
    'members: while let Some((member, later)) = rest.split_first() {
        if says(member, name, said) {
            return true;
        }
        rest = later;
    }
    false
}

// Whether the member has this name and is this text.
fn says(member: &(String, Value), name: &str, said: &str) -> bool
    ensures { IsTrue result ↔ ((string_bytes member.now.0 ≡ name.now) × (view member.now.1 ≡ text said.now)) }
{
    member.0.as_str() == name && is_text(&member.1, said)
}

/// The text that a member of this name is.
pub fn text_at<'a>(members: &'a [(String, Value)], name: &str) -> Option<&'a str>
    ensures { MatchOption result ((t : List ℕ) → HasMember (object (members_view members.now)) name.now (text t) → ⊥)
        (λ t. HasMember (object (members_view members.now)) name.now (text t.now)) }
{
    let mut rest = members;
    'members: while let Some((member, later)) = rest.split_first() {
        match text_if(member, name) {
            Some(said) => return Some(said),
            None => rest = later,
        }
    }
    None
}

// The text that the member is, if it has this name.
fn text_if<'a>(member: &'a (String, Value), name: &str) -> Option<&'a str>
    ensures { MatchOption result ((t : List ℕ) → string_bytes member.now.0 ≡ name.now → view member.now.1 ≡ text t → ⊥)
        (λ t. (string_bytes member.now.0 ≡ name.now) × (view member.now.1 ≡ text t.now)) }
{
    if member.0.as_str() == name {
        text_of(&member.1)
    } else {
        None
    }
}
