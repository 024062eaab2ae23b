//! The metadata files under their names.
ghost use Rattle.std.specs.Prelude.{◌≡◌, ℕ, List, ◌++◌, false, map, bytes_eq, option_map, MatchOption};
ghost use Rattle.path_patterns.specs.Names.{dotted};
ghost use Rattle.document_parts.specs.Views.{profile_view};
ghost use Rattle.delegations.specs.Views.{row_views};
ghost use Rattle.keys_roles.specs.Plain.{look_up};
ghost use Rattle.trust_rules.specs.State.{IsTrusted, metadata_of, root_files};
ghost use Rattle.trust_rules.specs.steps.NamedFiles.{earlier_files, shelf_files, timestamp_files, snapshot_files};
ghost use Rattle.state_parts.specs.Views.{trusted_view};

use crate::held::Held;
use crate::state::State;
use delegations::Row;
use metadata::Profile;
use state_parts::parts::Trusted;

/// The bytes of the metadata file with this name: `timestamp.json`, `1.root.json`, `7.snapshot.json` or `2.targets.json`, with
/// the number of the version and the name of the role. It takes no memory (TUF 1.0, section 3.1.2 and 6.2, consistent snapshots).
pub fn metadata_file<'a>(state: &'a State, name: &str) -> Option<&'a [u8]>
    ensures { option_map (λ b. b.now) result ≡ metadata_of state.now.state.trusted name.now }
{
    state.held().metadata_file(name)
}

impl Held {
    /// The same, where the blobs are elsewhere.
    pub fn metadata_file(&self, name: &str) -> Option<&[u8]>
        ensures { option_map (λ b. b.now) result ≡ metadata_of self.now.held.trusted name.now }
    {
        let trusted = self.trusted();
        let name = name.as_bytes();
        if let Some(bytes) = timestamp_named(trusted, name) {
            return Some(bytes);
        }
        if let Some(bytes) = root_named(trusted, name) {
            return Some(bytes);
        }
        if let Some(bytes) = snapshot_named(trusted, name) {
            return Some(bytes);
        }
        row_named(&trusted.shelf, name)
    }
}

// What follows these bytes in a name that begins with them.
fn after<'a>(name: &'a [u8], front: &[u8]) -> Option<&'a [u8]>
    ensures { MatchOption result ((more : List ℕ) → bytes_eq (front.now ++ more) name.now ≡ false)
        (λ rest. (more : List ℕ) → bytes_eq (front.now ++ more) name.now ≡ bytes_eq more rest.now) }
{
    let mut left = front;
    let mut rest = name;
    'bytes: while let Some((x, more)) = left.split_first() {
        let Some((y, later)) = rest.split_first() else {
            return None;
        };
        if x != y {
            return None;
        }
        left = more;
        rest = later;
    }
    Some(rest)
}

/// Whether a name is this number, a dot, these bytes and `.json`.
pub fn is_dotted(name: &[u8], number: u64, middle: &[u8]) -> bool
    ensures { result ≡ bytes_eq (dotted number middle.now) name.now }
{
    let mut buffer = itoa::Buffer::new();
    let digits = buffer.format(number).as_bytes();
    let Some(rest) = after(name, digits) else {
        return false;
    };
    let Some(rest) = after(rest, b".".as_slice()) else {
        return false;
    };
    let Some(rest) = after(rest, middle) else {
        return false;
    };
    b".json".as_slice() == rest
}

// The timestamp's bytes, under its name.
fn timestamp_named<'a>(trusted: &'a Trusted, name: &[u8]) -> Option<&'a [u8]>
    ensures { option_map (λ b. b.now) result ≡ look_up (timestamp_files (trusted_view trusted.now).timestamp) name.now }
{
    match &trusted.timestamp {
        Some(file) if b"timestamp.json".as_slice() == name => Some(file.source.bytes()),
        _ => None,
    }
}

// The snapshot's bytes, under its name.
fn snapshot_named<'a>(trusted: &'a Trusted, name: &[u8]) -> Option<&'a [u8]>
    ensures { option_map (λ b. b.now) result ≡ look_up (snapshot_files (trusted_view trusted.now).snapshot) name.now }
{
    match &trusted.snapshot {
        Some(file) if is_dotted(name, u64::from(file.body.version), b"snapshot".as_slice()) => Some(
            file.source.bytes(),
        ),
        _ => None,
    }
}

// The bytes of the root with this name.
fn root_named<'a>(trusted: &'a Trusted, name: &[u8]) -> Option<&'a [u8]>
    requires { IsTrusted (trusted_view trusted.now) }
    ensures { option_map (λ b. b.now) result ≡ look_up (root_files (trusted_view trusted.now) 0 (trusted_view trusted.now).roots) name.now }
{
    let Some(last) = &trusted.root else {
        return None;
    };
    let version = u64::from(last.body.version);
    if let Some(bytes) = earlier_named(&trusted.earlier, version, name) {
        return Some(bytes);
    }
    if is_dotted(name, version, b"root".as_slice()) {
        Some(last.source.bytes())
    } else {
        None
    }
}

// The bytes of the earlier root with this name, where this is the version of the last root.
fn earlier_named<'a>(
    earlier: &'a [(Profile, Vec<u8>)],
    version: u64,
    name: &[u8],
) -> Option<&'a [u8]>
    ensures { option_map (λ b. b.now) result ≡ look_up (earlier_files version (map (λ b. (profile_view b.0, b.1.items)) earlier.now)) name.now }
{
    let mut rest = earlier;
    'roots: while let Some((root, later)) = rest.split_first() {
        let number = version.saturating_sub(rest.len() as u64);
        if is_dotted(name, number, b"root".as_slice()) {
            return Some(&root.1);
        }
        rest = later;
    }
    None
}

// The bytes of the document on the shelf with this name.
fn row_named<'a>(rows: &'a [Row], name: &[u8]) -> Option<&'a [u8]>
    ensures { option_map (λ b. b.now) result ≡ look_up (shelf_files (row_views rows.now)) name.now }
{
    let mut rest = rows;
    'rows: while let Some((row, later)) = rest.split_first() {
        if is_dotted(name, u64::from(row.version), row.role.as_str().as_bytes()) {
            return Some(row.file.source.bytes());
        }
        rest = later;
    }
    None
}
