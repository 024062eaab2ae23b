// Timestamp metadata (TUF 1.0, section 4.6).
ghost use Rattle.std.specs.Prelude.{◌≡◌, ℕ, MatchOption, codes};
ghost use Rattle.canonical_json.specs.Spelling.{IsProper};
ghost use Rattle.canonical_json.specs.View.{view};
ghost use Rattle.document_parts.specs.Bodies.{IsTimestamp, IsTimestampMeta};
ghost use Rattle.document_parts.specs.Documents as plain;
ghost use Rattle.document_parts.specs.Members.{Has};
ghost use Rattle.document_parts.specs.Views.{meta_view, timestamp_view};

use canonical_json::Value;
use document_parts::documents::{Meta, Timestamp};
use document_parts::head::read_head;
use document_parts::members::{member_of, one_member};
use document_parts::parts::read_meta;
use document_parts::trail::Trail;

/// What the signed part of a timestamp says.
pub(crate) fn read_timestamp(signed: &Value, trail: &mut Trail) -> Option<Timestamp>
    requires { IsProper (view signed.now) }
    ensures { MatchOption result ((t : plain.Timestamp) → IsTimestamp (view signed.now) t → ⊥)
        (λ t. IsTimestamp (view signed.now) (timestamp_view t)) }
{
    let (version, expires) = read_head(signed, trail)?;
    let snapshot = snapshot_of(signed, trail)?;
    Some(Timestamp {
        version,
        expires,
        snapshot,
    })
}

// What the object says of the snapshot under `meta`.
fn snapshot_of(signed: &Value, trail: &mut Trail) -> Option<Meta>
    requires { IsProper (view signed.now) }
    ensures { MatchOption result ((m : plain.MetaFile) → Has (view signed.now) (codes "meta") (λ x. IsTimestampMeta x m) → ⊥)
        (λ m. Has (view signed.now) (codes "meta") (λ x. IsTimestampMeta x (meta_view m))) }
{
    trail.enter("meta");
    let found = member_of(signed, "meta")?;
    match read_row(found, trail) {
        Some(meta) => {
            trail.leave();
            Some(meta)
        }
        None => None,
    }
}

// What the value says of the snapshot, and of nothing else.
fn read_row(value: &Value, trail: &mut Trail) -> Option<Meta>
    requires { IsProper (view value.now) }
    ensures { MatchOption result ((m : plain.MetaFile) → IsTimestampMeta (view value.now) m → ⊥)
        (λ m. IsTimestampMeta (view value.now) (meta_view m)) }
{
    trail.enter("snapshot.json");
    let Some(_) = one_member(value, "snapshot.json") else {
        return None;
    };
    let Some(found) = member_of(value, "snapshot.json") else {
        return None;
    };
    match read_meta(found, trail) {
        Some(meta) => {
            trail.leave();
            Some(meta)
        }
        None => None,
    }
}
