//! Single checks.
ghost use Rattle.std.specs.Prelude.{◌↔◌, ◌≡◌, ◌+◌, IsTrue, Some};
ghost use Rattle.std.specs.Option.{option_map};
ghost use Rattle.keys_roles.specs.Rules.{Meets};
ghost use Rattle.keys_roles.specs.Views.{rule_view, table_view};
ghost use Rattle.metadata.specs.FileViews.{timestamp_file, snapshot_file};
ghost use Rattle.document_parts.specs.Documents.{second_profile};
ghost use Rattle.document_parts.specs.Views.{profile_view, root_view};
ghost use Rattle.trust_rules.specs.State.{KeepsProfile, NamesSnapshot};

use delegations::{has_hash, has_length};
use keys_roles::{KeyTable, RoleRule, meets};
use metadata::{File, Profile, Root, Snapshot, Source, Timestamp};

/// Whether enough of the rule's keys have signed the file.
pub fn is_signed(rule: &RoleRule, keys: &KeyTable, source: &Source) -> bool
    ensures { IsTrue result ↔ (Meets (rule_view rule.now) (table_view keys.now) source.now.signed source.now.entries) }
{
    meets(rule, keys, source.signed(), source.signatures())
}

/// Whether the timestamp names the snapshot.
pub fn names_snapshot(timestamp: &File<Timestamp>, snapshot: &File<Snapshot>) -> bool
    ensures { IsTrue result ↔ (NamesSnapshot (timestamp_file timestamp.now) (snapshot_file snapshot.now)) }
{
    let entry = &timestamp.body.snapshot;
    entry.version == snapshot.body.version
        && has_length(entry, &snapshot.source)
        && has_hash(entry, &snapshot.source)
}

/// Whether the file has these bytes.
pub fn has_bytes(held: Option<&File<Snapshot>>, bytes: &[u8]) -> bool
    ensures { IsTrue result ↔ option_map (λ f. f.bytes) (option_map (λ f. snapshot_file f.now) held.entry) ≡ Some bytes.now }
{
    match held {
        Some(file) => *file.source.bytes() == *bytes,
        None => false,
    }
}

/// Whether the bytes are the same.
pub fn are_same(a: &[u8], b: &[u8]) -> bool
    ensures { IsTrue result ↔ a.now ≡ b.now }
{
    *a == *b
}

/// Whether the new version is one more than the old.
pub fn is_next(old: u32, new: u32) -> bool
    ensures { IsTrue result ↔ new ≡ old + 1 }
{
    u64::from(new) == u64::from(old) + 1
}

/// Whether the new root has the second profile, where the old one has it.
pub fn keeps_profile(old: &Root, new: &Root) -> bool
    ensures { IsTrue result ↔ (KeepsProfile (root_view old.now) (root_view new.now)) }
{
    match old.profile {
        Profile::First => true,
        Profile::Second => is_second(new.profile),
    }
}

// Whether it is the second profile.
fn is_second(profile: Profile) -> bool
    ensures { IsTrue result ↔ profile_view profile ≡ second_profile }
{
    match profile {
        Profile::First => false,
        Profile::Second => true,
    }
}
