// What the signed parts of root, timestamp, snapshot and targets have in common (TUF 1.0, section 4.3).
ghost use Rattle.std.specs.Prelude.{◌≡◌, ◌↔◌, ℕ, MatchOption, IsTrue, codes};
ghost use Rattle.canonical_json.specs.Spelling.{IsProper};
ghost use Rattle.canonical_json.specs.View.{view};
ghost use Rattle.document_parts.specs.Bodies.{HasHead};
ghost use Rattle.document_parts.specs.Members.{Has};
ghost use Rattle.document_parts.specs.Parts.{HasExpires, IsSpecVersion};

use crate::dates::read_date_time;
use crate::members::{member_of, text_of};
use crate::moment::Moment;
use crate::parts::{is_spec_version, version_of};
use crate::trail::Trail;
use canonical_json::Value;

/// The version and the expiry that the signed part has, beside a `spec_version`.
pub fn read_head(signed: &Value, trail: &mut Trail) -> Option<(u32, Moment)>
    requires { IsProper (view signed.now) }
    ensures { MatchOption result ((version expires : ℕ) → HasHead (view signed.now) version expires → ⊥)
        (λ head. HasHead (view signed.now) head.0 head.1) }
{
    trail.enter("spec_version");
    if !has_spec_version(signed) {
        return None;
    }
    trail.turn("version");
    let version = version_of(signed)?;
    trail.turn("expires");
    let expires = expires_of(signed)?;
    trail.leave();
    Some((version, expires))
}

// Whether the object has a `spec_version`.
fn has_spec_version(signed: &Value) -> bool
    requires { IsProper (view signed.now) }
    ensures { IsTrue result ↔ (Has (view signed.now) (codes "spec_version") IsSpecVersion) }
{
    match member_of(signed, "spec_version") {
        Some(found) => is_spec_version(found),
        None => false,
    }
}

/// The moment at which the object expires.
pub fn expires_of(value: &Value) -> Option<Moment>
    requires { IsProper (view value.now) }
    ensures { MatchOption result ((seconds : ℕ) → HasExpires (view value.now) seconds → ⊥)
        (λ moment. HasExpires (view value.now) moment) }
{
    let found = member_of(value, "expires")?;
    let text = text_of(found)?;
    match read_date_time(text) {
        Some(moment) => Some(moment),
        None => None,
    }
}
