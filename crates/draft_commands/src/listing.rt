//! `draft targets`.
use crate::adding::Adding;
use crate::delegating::{DelegationRead, bins_said, delegations_of, lent};
use crate::drafting_faults::{document_or_fault, usage};
use crate::keys::Known;
use crate::saving::Before;
use crate::spreading::spread;
use crate::terms::terms_of;
use chain_drafting::{DelegationChanges, draft_delegations};
use cli_faults::{Fault, Notes, Slip};
use cli_tasks::{Drafting, TargetsDraft};
use draft_folder::Folder;
use drafting::{Addition, DraftFault, TargetsChanges, Terms, draft_targets};
use metadata::{Kind, Moment, RoleName};
use show_limits::put_draft;
use std::io::Write;

// The days that a first one is valid.
pub const TARGETS_DAYS: u64 = 90;

/// Drafts the next targets metadata of a role, or of each role that a spread changes. The files of what is added go into the folder.
pub fn draft_listing<E: Write>(
    rt: &HostRuntime,
    folder: Folder<'_>,
    asked: &Drafting,
    told: &TargetsDraft,
    now: Moment,
    notes: &mut Notes<'_, E>,
) -> Result<(), Fault> {
    if told.spread {
        return spread(rt, folder, asked, told, now, notes);
    }
    let role = role_of(rt, told)?;
    let bins = bins_said(rt, &told.bins)?;
    let before = Before::of(rt, folder, role, asked.anew, notes)?;
    let known = Known {
        kind: Kind::Targets,
        files: [before.begun(), before.held()],
    };
    let read = delegations_of(rt, known, &told.delegate, &bins, notes)?;
    let terms = terms_of(
        rt.alloc(),
        asked.expires.as_deref(),
        before.latest(),
        TARGETS_DAYS,
        now,
    )?;
    let next = Next {
        rt,
        folder,
        told,
        role,
        before: &before,
        terms,
    };
    next.put(&read, notes)
}

// The next targets metadata of a role, by what was told.
#[derive(Clone, Copy)]
struct Next<'a> {
    rt: &'a HostRuntime,
    folder: Folder<'a>,
    told: &'a TargetsDraft,
    role: &'a str,
    before: &'a Before,
    terms: Terms,
}

impl Next<'_> {
    fn put<E: Write>(
        &self,
        read: &[DelegationRead],
        notes: &mut Notes<'_, E>,
    ) -> Result<(), Fault> {
        let mut adding = Adding::new(self.rt, Some(self.folder));
        adding.add_all(&self.told.add, notes)?;
        let draft = self.listing(adding.added(), notes)?;
        self.put_behind(&draft, read, notes)
    }

    // The draft with the listings that are added and without those that are removed.
    fn listing<E: Write>(
        &self,
        added: &[Addition],
        notes: &mut Notes<'_, E>,
    ) -> Result<Vec<u8>, Fault> {
        let listed = TargetsChanges {
            add: added,
            remove: &self.told.remove,
        };
        let (held, begun) = (self.before.held(), self.before.begun());
        match draft_targets(self.rt.alloc(), held, begun, self.terms, &listed) {
            Err(DraftFault::Unlisted(at)) => Err(unlisted(&self.told.remove, at, notes)),
            draft => document_or_fault(self.rt.alloc(), draft, self.role, notes),
        }
    }

    // Puts the draft with the changes of its delegations.
    fn put_behind<E: Write>(
        &self,
        draft: &[u8],
        read: &[DelegationRead],
        notes: &mut Notes<'_, E>,
    ) -> Result<(), Fault> {
        if read.is_empty() && self.told.undelegate.is_empty() {
            return put_draft(self.rt.alloc(), self.folder, self.role, draft, notes);
        }
        let next = self.delegating(draft, read, notes)?;
        put_draft(self.rt.alloc(), self.folder, self.role, &next, notes)
    }

    fn delegating<E: Write>(
        &self,
        draft: &[u8],
        read: &[DelegationRead],
        notes: &mut Notes<'_, E>,
    ) -> Result<Vec<u8>, Fault> {
        let delegate = lent(self.rt, read, self.told)?;
        let changes = DelegationChanges {
            delegate: &delegate,
            undelegate: &self.told.undelegate,
        };
        let held = self.before.held();
        let next = draft_delegations(self.rt.alloc(), held, Some(draft), self.terms, &changes);
        document_or_fault(self.rt.alloc(), next, self.role, notes)
    }
}

// The path at this place is to be removed and is not listed.
fn unlisted<E: Write>(paths: &[String], at: usize, notes: &mut Notes<'_, E>) -> Fault {
    if let Some(path) = paths.get(at) {
        notes.warn(path, &"not listed, or named twice");
    }
    Fault::Slip(Slip::Path)
}

// The role whose targets metadata is drafted.
fn role_of<'a>(rt: &HostRuntime, told: &'a TargetsDraft) -> Result<&'a str, Fault> {
    let role = told.role.as_deref().unwrap_or("targets");
    let is_name = RoleName::read(rt.alloc(), role)?.is_some();
    if !is_name || role == "root" || role == "snapshot" || role == "timestamp" {
        return Err(usage(
            rt.alloc(),
            "error: '--role' is targets or the name of a delegated role\n\nFor more information, try '--help'.\n",
        ));
    }
    Ok(role)
}
