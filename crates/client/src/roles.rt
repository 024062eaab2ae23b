//! Fetching the targets metadata that a snapshot lists.
ghost use Rattle.sqlite.specs.Held.{state};
ghost use Rattle.store.specs.Standing.{seen};
ghost use Rattle.client.specs.Changes.{Changes};
ghost use Rattle.client.specs.Taken.{IsTaking, RunsOn};

use crate::fault::ClientFault;
use crate::several::{Sources, is_want, worse};
use crate::taking::take;
use crate::wanted::Wanted;
use fetch::{FetchFault, Source};
use metadata::Moment;
use path_patterns::RoleName;
use sqlite::Alter;
use std::alloc::{AllocError, Global};
use store::Store;
use trusted_state::draft::Draft;

// The most rounds over one source: no chain of delegations has more roles.
const MAX_ROUNDS: usize = 128;

// A role, and the version of its document that the snapshot lists.
#[derive(Drop)]
struct Listed {
    role: RoleName,
    version: u32,
}

/// Fetches the targets metadata that the state's snapshot lists and the state misses, from each of so many sources in turn, and offers each
/// (TUF 1.0, section 5.6.7), until none is missing. A document may be taken only after that of the role which delegates to it, so a source is
/// asked again for what is missing as long as one more is taken. What it gives that the state refuses, or that is too long, is passed by.
///
/// It ends well where none is missing. Else the fault is told as at `update_by_each`; `Fetch(Broken)` is also told where no source has what is
/// missing. Want of memory, and a fault of the database, end it at once.
pub fn fetch_roles_by_each<S: Alter, F: Sources>(
    alloc: Global,
    store: &mut Store<S>,
    sources: &mut F,
    count: usize,
    now: Moment,
) -> Result<(), ClientFault>
    ensures runs { Changes (seen store.old.kept (state S.Store store.old.conn)) (seen store.new.kept (state S.Store store.new.conn)) (λ C D. RunsOn IsTaking now C D) }
{
    let mut so_far = ClientFault::Fetch(FetchFault::Broken);
    for place in 0..count {
        sources.turn(place);
        match fetch_roles(alloc, store, sources, now) {
            Ok(()) => return Ok(()),
            Err(fault) => {
                if is_want(&fault) {
                    return Err(fault);
                }
                sources.failed(place, &fault);
                so_far = worse(so_far, fault);
            }
        }
    }
    Err(so_far)
}

// The same from one source.
fn fetch_roles<S: Alter, F: Source>(
    alloc: Global,
    store: &mut Store<S>,
    source: &mut F,
    now: Moment,
) -> Result<(), ClientFault>
    ensures { Changes (seen store.old.kept (state S.Store store.old.conn)) (seen store.new.kept (state S.Store store.new.conn)) (λ C D. RunsOn IsTaking now C D) }
{
    for _round in 0..MAX_ROUNDS {
        match take_missing(alloc, store, source, now) {
            Ok(true) => {}
            Ok(false) => return Ok(()),
            Err(fault) => return Err(fault),
        }
    }
    Ok(())
}

// Takes what is missing: whether something was, and one more was taken.
fn take_missing<S: Alter, F: Source>(
    alloc: Global,
    store: &mut Store<S>,
    source: &mut F,
    now: Moment,
) -> Result<bool, ClientFault>
    ensures { Changes (seen store.old.kept (state S.Store store.old.conn)) (seen store.new.kept (state S.Store store.new.conn)) (λ C D. RunsOn IsTaking now C D) }
{
    match missing_roles(alloc, store) {
        Ok(missing) if missing.is_empty() => Ok(false),
        Ok(missing) => take_each(alloc, store, source, missing, now),
        Err(_) => Err(ClientFault::OutOfMemory),
    }
}

// The roles whose listed document the state misses.
fn missing_roles<S: Alter>(alloc: Global, store: &Store<S>) -> Result<Vec<Listed>, AllocError> {
    let draft = Draft::new(alloc, store.held().trusted());
    let mut missing = Vec::new(alloc);
    let Some(snapshot) = draft.snapshot() else {
        return Ok(missing);
    };
    let mut rest = snapshot.body.meta.as_slice();
    'roles: while let Some((entry, later)) = rest.split_first() {
        if draft.row_at(entry.0.as_str(), entry.1.version).is_none() {
            missing.push(Listed {
                role: entry.0.clone()?,
                version: entry.1.version,
            })?;
        }
        rest = later;
    }
    Ok(missing)
}

// Takes each of these: whether one was taken. Otherwise the first fault is told, or that the source has none.
fn take_each<S: Alter, F: Source>(
    alloc: Global,
    store: &mut Store<S>,
    source: &mut F,
    missing: Vec<Listed>,
    now: Moment,
) -> Result<bool, ClientFault>
    ensures { Changes (seen store.old.kept (state S.Store store.old.conn)) (seen store.new.kept (state S.Store store.new.conn)) (λ C D. RunsOn IsTaking now C D) }
{
    let mut missing = missing;
    let mut fault = ClientFault::Fetch(FetchFault::Broken);
    let mut is_taken = false;
    'missing: while let Some(listed) = missing.pop() {
        match take_role(alloc, store, source, listed, now) {
            Ok(took) => is_taken = is_taken || took,
            Err(more) => {
                if ends_turn(&more) {
                    return Err(more);
                }
                fault = worse(fault, more);
            }
        }
    }
    if is_taken { Ok(true) } else { Err(fault) }
}

// Whether nothing more is asked of a source after the fault: each but a refusal of one file.
fn ends_turn(fault: &ClientFault) -> bool {
    match fault {
        ClientFault::Denied(_) | ClientFault::Fetch(FetchFault::TooLong) => false,
        ClientFault::Fetch(FetchFault::Broken | FetchFault::OutOfMemory) => true,
        ClientFault::Database | ClientFault::OutOfMemory => true,
    }
}

// Takes the document of a role: whether the source has it.
fn take_role<S: Alter, F: Source>(
    alloc: Global,
    store: &mut Store<S>,
    source: &mut F,
    listed: Listed,
    now: Moment,
) -> Result<bool, ClientFault>
    ensures { Changes (seen store.old.kept (state S.Store store.old.conn)) (seen store.new.kept (state S.Store store.new.conn)) (λ C D. RunsOn IsTaking now C D) }
{
    match Wanted::row(alloc, listed.role, listed.version) {
        Ok(wanted) => take(alloc, store, source, &wanted, now),
        Err(_) => Err(ClientFault::OutOfMemory),
    }
}
