//! When a root makes a repository forget its timestamp, and what is warned of where documents are published.
use crate::batch::Batch;
use cli_faults::{Fault, Notes};
use judging::keeps_roles;
use metadata::{Body, Document, Kind, read_document};
use path_patterns::metadata_name;
use reasons::{HeldFiles, listed_targets};
use std::alloc::Global;
use std::fmt::Display;
use std::io::Write;
use store::Offer;

// What is said of a root that was published and made the repository forget its timestamp, where none is offered after it.
const FORGETS: &str =
    "the root has other keys for the timestamp or the snapshot, and no timestamp comes after it: every target will be denied";

// What is said of a root with other keys for the timestamp or the snapshot that was published without their successors.
const FORGOTTEN: &str =
    "no timestamp any more: every target is denied until timestamp, snapshot and targets metadata are published";

// What is said of a timestamp that counted as the same, and has other bytes than the one that is held.
const NOT_TAKEN: &str = "not taken, another timestamp of its version is held";

const TIMESTAMP: &str = "timestamp.json";

/// What is known before a batch: whether a timestamp is held, and whether it will be forgotten by the batch.
#[derive(Clone, Copy)]
pub struct Before {
    had_timestamp: bool,
    forgetting: Option<Forgetting>,
}

// What is known before a batch that makes a repository forget its timestamp: how many targets are listed, where facts are told.
#[derive(Clone, Copy)]
struct Forgetting {
    listed: Option<u64>,
}

impl Batch<'_> {
    /// What is known before a batch with a root. Of another batch nothing is asked.
    pub fn before<H: HeldFiles, E: Write>(
        &self,
        alloc: Global,
        held: &mut H,
        notes: &Notes<'_, E>,
    ) -> Before {
        let had_timestamp = self.has_root() && matches!(held.ask(alloc, TIMESTAMP), Some(Some(_)));
        let forgetting = if had_timestamp && self.will_forget(alloc, held) {
            Some(Forgetting::of(alloc, held, notes))
        } else {
            None
        };
        Before {
            had_timestamp,
            forgetting,
        }
    }

    /// After the batch was taken, of which so many documents counted as the same: warns where the repository of this name forgot its timestamp
    /// by it and has none any more, and where it has another one than the last of the batch: one of its version was held, so that counts as the
    /// same, and was not taken. No other document counts as the same where its bytes are others.
    pub fn warn_after<H: HeldFiles, N: Display, E: Write>(
        &self,
        alloc: Global,
        held: &mut H,
        before: Before,
        same: usize,
        name: &N,
        notes: &mut Notes<'_, E>,
    ) {
        if let Some(forgetting) = &before.forgetting {
            forgetting.warn(alloc, name, notes);
        }
        let last = self.last_timestamp();
        if !before.had_timestamp && (same == 0 || last.is_none()) {
            return;
        }
        match (held.ask(alloc, TIMESTAMP), last) {
            (Some(Some(found)), Some((argument, offered))) => {
                if found.as_slice() != offered {
                    notes.warn(argument, &NOT_TAKEN);
                }
            }
            (Some(None), _) => {
                if before.had_timestamp {
                    notes.warn(name, &FORGOTTEN);
                }
            }
            _ => {}
        }
    }

    // Whether the repository forgets its timestamp by the last root of the batch, and none is offered after it.
    fn will_forget<H: HeldFiles>(&self, alloc: Global, held: &mut H) -> bool {
        let Some(root) = self.last_root() else {
            return false;
        };
        match self.root_before(alloc, root, held) {
            Some(before) => forgets(alloc, &before, root).unwrap_or(false),
            None => false,
        }
    }

    // The newest root that is held, where this one is not: between them are roots of the batch alone.
    fn root_before<H: HeldFiles>(
        &self,
        alloc: Global,
        root: &[u8],
        held: &mut H,
    ) -> Option<Vec<u8>> {
        let mut version = root_version_of(alloc, root)?;
        if root_of_version(alloc, held, version)?.is_some() {
            return None;
        }
        for (offer, _) in self.documents {
            if let Offer::Root = offer {
                version = version.checked_sub(1)?;
                let found = root_of_version(alloc, held, version)?;
                if found.is_some() {
                    return found;
                }
            }
        }
        None
    }

    fn has_root(&self) -> bool {
        self.documents
            .iter()
            .any(|document| matches!(document.0, Offer::Root))
    }

    // The last root of the batch, where no timestamp stands after it.
    fn last_root(&self) -> Option<&[u8]> {
        let mut last = None;
        for (offer, bytes) in self.documents {
            match offer {
                Offer::Root => last = Some(*bytes),
                Offer::Timestamp => last = None,
                _ => {}
            }
        }
        last
    }

    // The last timestamp of the batch, with its argument.
    fn last_timestamp(&self) -> Option<(&String, &[u8])> {
        let mut last = None;
        for (argument, (offer, bytes)) in self.arguments.iter().zip(self.documents.iter()) {
            if let Offer::Timestamp = offer {
                last = Some((argument, *bytes));
            }
        }
        last
    }
}

/// The root of a version that is held, if it is, where that is answered.
pub fn root_of_version<H: HeldFiles>(
    alloc: Global,
    held: &H,
    version: u32,
) -> Option<Option<Vec<u8>>> {
    let name = metadata_name(alloc, version, "root").ok()?;
    held.ask(alloc, name.as_str())
}

impl Forgetting {
    // What is known of a repository that holds these files.
    fn of<H: HeldFiles, E: Write>(alloc: Global, held: &mut H, notes: &Notes<'_, E>) -> Forgetting {
        if !notes.are_told() {
            return Forgetting { listed: None };
        }
        match listed_targets(alloc, held) {
            Ok(listed) => Forgetting { listed },
            Err(_) => Forgetting { listed: None },
        }
    }

    // Warns of it, once the batch was taken, and tells how many targets were listed.
    fn warn<N: Display, E: Write>(&self, alloc: Global, name: &N, notes: &mut Notes<'_, E>) {
        notes.warn(name, &FORGETS);
        if let Some(count) = self.listed {
            if let Ok(told) = format!(in alloc; "targets that will be denied: {count}") {
                notes.tell(name, &told);
            }
        }
    }
}

/// Whether the one root has another rule than the other for the timestamp or the snapshot: a repository that takes it after the other
/// forgets its timestamp, its snapshot and its targets metadata. A fault is why one of them is no root: the newer one is read first.
pub fn forgets(alloc: Global, held: &[u8], root: &[u8]) -> Result<bool, Fault> {
    match read_document(alloc, Kind::Root, root) {
        Ok(root) => forgets_by(alloc, held, &root),
        Err(fault) => Err(Fault::from(fault)),
    }
}

// The version of a root, if the bytes are one.
fn root_version_of(alloc: Global, bytes: &[u8]) -> Option<u32> {
    match read_document(alloc, Kind::Root, bytes) {
        Ok(document) => version_in(&document.body),
        Err(_) => None,
    }
}

fn version_in(body: &Body) -> Option<u32> {
    match body {
        Body::Root(root) => Some(root.version),
        _ => None,
    }
}

fn forgets_by(alloc: Global, held: &[u8], root: &Document<'_>) -> Result<bool, Fault> {
    match read_document(alloc, Kind::Root, held) {
        Ok(held) => Ok(has_other_rules(&held.body, &root.body)),
        Err(fault) => Err(Fault::from(fault)),
    }
}

fn has_other_rules(held: &Body, root: &Body) -> bool {
    match (held, root) {
        (Body::Root(held), Body::Root(root)) => !keeps_roles(held, root),
        _ => false,
    }
}
