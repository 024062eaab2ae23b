//! What is told of a repository before it is served, and of a client's own state: what is trusted, and when the first of its documents expires.
use cli_faults::{Notes, expiry_of};
use metadata::{Body, Kind, Listing, Moment, ShapeFault, live, read_document};
use path_patterns::metadata_name;
use served_files::{FileVisitor, visit_files};
use std::alloc::{AllocError, Global};
use std::fmt;
use std::io::Write;
use store::Held;

/// Tells the version of the trusted root, and the moment and the name of the document that expires first, of those that are in
/// use: root, timestamp, snapshot, and the targets metadata that the snapshot lists.
pub fn tell_standing<E: Write>(alloc: Global, db: &str, held: &Held, notes: &mut Notes<'_, E>) {
    let Some(version) = held.root_version() else {
        notes.tell(&db, &"no root is trusted");
        return;
    };
    notes.tell(&db, &Trusted(version));
    if let Ok(Some(first)) = FirstExpiry::of(alloc, held) {
        notes.tell(&db, &first);
    }
}

/// The versions that are trusted, and when the timestamp expires. Notes tell those of root, timestamp and snapshot.
#[derive(Clone, Copy)]
pub struct Versions {
    pub root: Option<u32>,
    pub timestamp: Option<u32>,
    pub snapshot: Option<u32>,
    pub targets: Option<u32>,
    expires: Option<Moment>,
}

impl Versions {
    /// Those of a repository or of a client's own state. The snapshot is the one that the timestamp names, if it is held, and the targets
    /// metadata are those that it lists, held or not. The error is want of memory.
    pub fn of(alloc: Global, held: &Held) -> Result<Versions, AllocError> {
        let mut found = Versions {
            root: held.root_version(),
            timestamp: None,
            snapshot: None,
            targets: None,
            expires: None,
        };
        if let Some(bytes) = held.metadata_file("timestamp.json") {
            let named = found.take_timestamp(alloc, bytes)?;
            if held.snapshot_due().is_none() {
                found.snapshot = named;
                found.targets = targets_version(alloc, held, named.unwrap_or(0))?;
            }
        }
        Ok(found)
    }

    // Takes what a timestamp says, and answers the version of the snapshot that it names.
    fn take_timestamp(&mut self, alloc: Global, bytes: &[u8]) -> Result<Option<u32>, AllocError> {
        match read_document(alloc, Kind::Timestamp, bytes) {
            Ok(document) => Ok(self.take_body(&document.body)),
            Err(ShapeFault::OutOfMemory) => Err(AllocError),
            Err(_) => Ok(None),
        }
    }

    fn take_body(&mut self, body: &Body) -> Option<u32> {
        let Body::Timestamp(timestamp) = body else {
            return None;
        };
        self.timestamp = Some(timestamp.version);
        self.expires = Some(timestamp.expires);
        Some(timestamp.snapshot.version)
    }

    /// Whether others are the same.
    pub fn are(&self, others: &Versions) -> bool {
        is_same(self.root, others.root)
            && is_same(self.timestamp, others.timestamp)
            && is_same(self.snapshot, others.snapshot)
            && is_same(self.targets, others.targets)
    }

    /// Whether the timestamp has expired, if there is one.
    pub fn has_expired(&self, now: Moment) -> bool {
        match self.expires {
            Some(expires) => !live(expires, now),
            None => false,
        }
    }
}

// A version is 1 at least.
fn is_same(one: Option<u32>, other: Option<u32>) -> bool {
    one.unwrap_or(0) == other.unwrap_or(0)
}

// The version of the targets metadata that the snapshot of a version lists, if that snapshot is held.
fn targets_version(alloc: Global, held: &Held, version: u32) -> Result<Option<u32>, AllocError> {
    let name = metadata_name(alloc, version, "snapshot")?;
    let Some(bytes) = held.metadata_file(name.as_str()) else {
        return Ok(None);
    };
    match read_document(alloc, Kind::Snapshot, bytes) {
        Ok(document) => Ok(listed_version(&document.body)),
        Err(ShapeFault::OutOfMemory) => Err(AllocError),
        Err(_) => Ok(None),
    }
}

fn listed_version(body: &Body) -> Option<u32> {
    let Body::Snapshot(snapshot) = body else {
        return None;
    };
    for (role, meta) in &snapshot.meta {
        if role.as_str() == "targets" {
            return Some(meta.version);
        }
    }
    None
}

impl fmt::Display for Versions {
    fn fmt<W: fmt::Write>(&self, f: &mut fmt::Formatter<W>) -> fmt::Result {
        write_version(f, "root", self.root)?;
        f.write_str(", ")?;
        write_version(f, "timestamp", self.timestamp)?;
        f.write_str(", ")?;
        write_version(f, "snapshot", self.snapshot)
    }
}

fn write_version<W: fmt::Write>(
    f: &mut fmt::Formatter<W>,
    kind: &str,
    version: Option<u32>,
) -> fmt::Result {
    match version {
        Some(version) => write!(f, "{kind} {version}"),
        None => write!(f, "no {kind}"),
    }
}

// The version of the trusted root, as notes tell it.
#[derive(Drop)]
struct Trusted(u32);

impl fmt::Display for Trusted {
    fn fmt<W: fmt::Write>(&self, f: &mut fmt::Formatter<W>) -> fmt::Result {
        let version = self.0;
        write!(f, "root {version} is trusted")
    }
}

/// The role of the document in use that expires first, and the moment at which it does: of root, timestamp, snapshot, and the targets
/// metadata that the snapshot lists, as far as they are held.
#[derive(Drop)]
pub struct FirstExpiry {
    pub role: String,
    at: Moment,
}

impl FirstExpiry {
    /// That of a repository or of a client's own state, if a root is trusted. The error is want of memory.
    pub fn of(alloc: Global, held: &Held) -> Result<Option<FirstExpiry>, AllocError> {
        let Some(version) = held.root_version() else {
            return Ok(None);
        };
        let mut looked = Looked {
            alloc,
            held,
            first: None,
        };
        visit_files(alloc, version.saturating_sub(1), version, &mut looked)?;
        Ok(looked.first)
    }

    /// The moment, in seconds since 1970-01-01T00:00:00Z.
    pub fn seconds(&self) -> u64 {
        self.at.seconds()
    }
}

impl fmt::Display for FirstExpiry {
    fn fmt<W: fmt::Write>(&self, f: &mut fmt::Formatter<W>) -> fmt::Result {
        let seconds = self.seconds();
        write!(f, "the first expiry is at {seconds}")
    }
}

// The documents that were looked at, and the first moment at which one of them expires.
#[derive(Drop)]
struct Looked<'a> {
    alloc: Global,
    held: &'a Held,
    first: Option<FirstExpiry>,
}

impl FileVisitor for Looked<'_> {
    type Fault = AllocError;

    fn read(&mut self, name: &str) -> Result<Option<Vec<u8>>, AllocError> {
        match self.held.metadata_file(name) {
            Some(bytes) => Ok(Some(Vec::from_slice(self.alloc, bytes)?)),
            None => Ok(None),
        }
    }

    fn visit_root(&mut self, name: &str, bytes: &[u8]) -> Result<(), AllocError> {
        let expires = root_expiry(self.alloc, bytes)?;
        self.note(name, expires)?;
        Ok(())
    }

    fn visit_metadata(
        &mut self,
        _kind: Kind,
        name: &str,
        _bytes: &[u8],
        body: Option<&Body>,
    ) -> Result<(), AllocError> {
        if let Some(body) = body {
            self.note(name, expiry_of(body))?;
        }
        Ok(())
    }

    fn visit_target(&mut self, _listing: &Listing) -> Result<(), AllocError> {
        Ok(())
    }
}

impl Looked<'_> {
    // Notes when the document of this name expires.
    fn note(&mut self, name: &str, expires: Option<Moment>) -> Result<(), AllocError> {
        if let Some(at) = expires {
            if self.is_first(at) {
                let role = String::from_str(self.alloc, role_in(name))?;
                self.first = Some(FirstExpiry { role, at });
            }
        }
        Ok(())
    }

    fn is_first(&self, at: Moment) -> bool {
        match &self.first {
            Some(first) => at < first.at,
            None => true,
        }
    }
}

// When a root expires, if it is one.
fn root_expiry(alloc: Global, bytes: &[u8]) -> Result<Option<Moment>, AllocError> {
    match read_document(alloc, Kind::Root, bytes) {
        Ok(document) => Ok(expiry_of(&document.body)),
        Err(ShapeFault::OutOfMemory) => Err(AllocError),
        Err(_) => Ok(None),
    }
}

// The role in the name of a metadata file, VERSION.ROLE.json or timestamp.json.
fn role_in(name: &str) -> &str {
    let stem = name.strip_suffix(".json").unwrap_or(name);
    match stem.split_once('.') {
        Some((_, role)) => role,
        None => stem,
    }
}
