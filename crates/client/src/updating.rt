//! Bringing a client up to date.
ghost use Rattle.std.specs.Prelude.{◌≡◌, Some, option_map};
ghost use Rattle.sqlite.specs.Held.{state};
ghost use Rattle.trust_rules.specs.State as trust;
ghost use Rattle.store.specs.Standing.{IsStateOf, seen};
ghost use Rattle.client.specs.Asking.{AsksAtMost};
ghost use Rattle.client.specs.Changes.{Changes};
ghost use Rattle.client.specs.Session.{TakesRoots, TakesSnapshot, TakesTimestamp, Updates};
ghost use Rattle.client.specs.Taken.{IsTaking, RunsOn};
ghost use Rattle.client.specs.Views.{ended};
ghost use Rattle.client.specs.steps.Rounds.{RootTaken};

use crate::fault::ClientFault;
use crate::taking::take;
use crate::wanted::Wanted;
use fetch::Source;
use metadata::Moment;
use sqlite::Alter;
use std::alloc::Global;
use store::{Denial, Store, stands};

// The most new roots of an update.
const MAX_ROOTS: usize = 64;

/// Brings a client's state up to date (TUF 1.0, sections 5.3 to 5.5): fetches and offers the root that follows the trusted one, at
/// most 64 times and until the source has none; then the timestamp; then the snapshot that the timestamp names, unless it is the
/// held one. A source that has no timestamp or no snapshot ends the update without a fault. No root is fetched after version
/// 4,294,967,295. Nothing that the source gives is trusted before it is judged, and what was accepted before a fault stays.
///
/// - `Denied`: a file was denied; where no root is trusted, it is `NoRoot`.
/// - `Fetch`: the source answered this, or more bytes than the limit (`TooLong`).
/// - `Database`, `OutOfMemory`: as at `Store::apply`; `OutOfMemory` also where a name found no memory.
pub fn update<S: Alter, F: Source>(
    alloc: Global,
    store: &mut Store<S>,
    source: &mut F,
    now: Moment,
) -> Result<(), ClientFault>
    ensures updates { Changes (seen store.old.kept (state S.Store store.old.conn)) (seen store.new.kept (state S.Store store.new.conn))
        (λ C D. Updates F.gives now source.old C source.new D (ended (λ u. u) result) × RunsOn IsTaking now C D) }
    ensures asks { AsksAtMost F.gives 66 source.old source.new }
{
    stands(store);
    up_to_date(alloc, store, source, now)
}

// The same, said by its parts.
fn up_to_date<S: Alter, F: Source>(
    alloc: Global,
    store: &mut Store<S>,
    source: &mut F,
    now: Moment,
) -> Result<(), ClientFault>
    ensures { Changes (seen store.old.kept (state S.Store store.old.conn)) (seen store.new.kept (state S.Store store.new.conn))
        (λ C D. Updates F.gives now source.old C source.new D (ended (λ u. u) result)) }
{
    match take_roots(alloc, store, source, now) {
        Ok(()) => take_timestamp(alloc, store, source, now),
        Err(fault) => Err(fault),
    }
}

// Takes new roots in order.
fn take_roots<S: Alter, F: Source>(
    alloc: Global,
    store: &mut Store<S>,
    source: &mut F,
    now: Moment,
) -> Result<(), ClientFault>
    ensures { Changes (seen store.old.kept (state S.Store store.old.conn)) (seen store.new.kept (state S.Store store.new.conn))
        (λ C D. TakesRoots F.gives now MAX_ROOTS source.old C source.new D (ended (λ u. u) result)) }
{
    for _round in 0..MAX_ROOTS {
        match take_root(alloc, store, source, now) {
            Ok(true) => {}
            Ok(false) => return Ok(()),
            Err(fault) => return Err(fault),
        }
    }
    Ok(())
}

// Takes the root that follows the trusted one: whether there was one.
fn take_root<S: Alter, F: Source>(
    alloc: Global,
    store: &mut Store<S>,
    source: &mut F,
    now: Moment,
) -> Result<bool, ClientFault>
    ensures { RootTaken (seen store.old.kept (state S.Store store.old.conn)) (seen store.new.kept (state S.Store store.new.conn)) F.gives now source.old source.new result }
{
    match store.root_version() {
        Some(version) => take_next(alloc, store, source, version, now),
        None => Err(ClientFault::Denied(Denial::NoRoot)),
    }
}

// Takes the root that follows this version, which is that of the trusted root: whether there was one.
fn take_next<S: Alter, F: Source>(
    alloc: Global,
    store: &mut Store<S>,
    source: &mut F,
    version: u32,
    now: Moment,
) -> Result<bool, ClientFault>
    requires { (U : trust.State) → IsStateOf store.old.kept U → Some version ≡ option_map (λ root. root.body.version) U.trusted.root }
    ensures { RootTaken (seen store.old.kept (state S.Store store.old.conn)) (seen store.new.kept (state S.Store store.new.conn)) F.gives now source.old source.new result }
{
    if version == u32::MAX {
        return Ok(false);
    }
    match Wanted::root(alloc, version + 1) {
        Ok(wanted) => take(alloc, store, source, &wanted, now),
        Err(_) => Err(ClientFault::OutOfMemory),
    }
}

// Takes the timestamp, and where there is one the snapshot.
fn take_timestamp<S: Alter, F: Source>(
    alloc: Global,
    store: &mut Store<S>,
    source: &mut F,
    now: Moment,
) -> Result<(), ClientFault>
    ensures { Changes (seen store.old.kept (state S.Store store.old.conn)) (seen store.new.kept (state S.Store store.new.conn))
        (λ C D. TakesTimestamp F.gives now source.old C source.new D (ended (λ u. u) result)) }
{
    let wanted = match Wanted::timestamp(alloc) {
        Ok(wanted) => wanted,
        Err(_) => return Err(ClientFault::OutOfMemory),
    };
    match take(alloc, store, source, &wanted, now) {
        Ok(true) => take_snapshot(alloc, store, source, now),
        Ok(false) => Ok(()),
        Err(fault) => Err(fault),
    }
}

// Takes the snapshot that the timestamp names, unless it is the held one.
fn take_snapshot<S: Alter, F: Source>(
    alloc: Global,
    store: &mut Store<S>,
    source: &mut F,
    now: Moment,
) -> Result<(), ClientFault>
    ensures { Changes (seen store.old.kept (state S.Store store.old.conn)) (seen store.new.kept (state S.Store store.new.conn))
        (λ C D. TakesSnapshot F.gives now source.old C source.new D (ended (λ u. u) result)) }
{
    let version = match store.snapshot_due() {
        Some(version) => version,
        None => return Ok(()),
    };
    let wanted = match Wanted::snapshot(alloc, version) {
        Ok(wanted) => wanted,
        Err(_) => return Err(ClientFault::OutOfMemory),
    };
    match take(alloc, store, source, &wanted, now) {
        Ok(_) => Ok(()),
        Err(fault) => Err(fault),
    }
}
