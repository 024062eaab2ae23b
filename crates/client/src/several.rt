//! Several sources of one repository, each asked in its turn.
ghost use Rattle.std.specs.Prelude.{◌≡◌, ◌↔◌, ℕ, ⊤, IsTrue, None, Ok, IfOk};
ghost use Rattle.sqlite.specs.Held.{state};
ghost use Rattle.trust_rules.specs.Grants.{grants};
ghost use Rattle.store.specs.Standing.{IsClean, seen};
ghost use Rattle.client.specs.Changes.{Changes};
ghost use Rattle.client.specs.Several.{AsksInTurn, FetchesByEach, IsBroughtBy, IsServedBy, IsWant, IsWanting, Told, UpdatesByEach, denial_or, together, worse};
ghost use Rattle.client.specs.Taken.{IsTaking, RunsOn};
ghost use Rattle.client.specs.Views.{ended, fault_view, fetched};

use crate::fault::ClientFault;
use crate::fetching::fetch_target;
use crate::laws::laws;
use crate::updating::update;
use fetch::{FetchFault, Source};
use metadata::{Moment, one_document, one_shape};
use path_patterns::TargetPath;
use sqlite::Alter;
use std::alloc::Global;
use store::{Store, stands};

/// Several sources of one repository, of which one at a time is asked: each of them may answer anything.
pub trait Sources: Source {
    /// The sources that were, a place, the sources that are left: whether the one at this place is asked from then on. Without a value
    /// of its own this claims nothing.
    ghost turns: { Self → ℕ → Self → Type 0 } = { λ _ _ _. ⊤ };
    /// The sources that were, a place, the sources that are left: what telling them of a fault at this place changes. Without a value
    /// of its own this claims nothing, so it may be anything.
    ghost tells: { Self → ℕ → Self → Type 0 } = { λ _ _ _. ⊤ };

    /// From now on the one at this place is asked, whatever was asked before.
    fn turn(&mut self, place: usize)
        ensures { turns self.old place self.new };

    /// The turn of the one at this place has ended in this fault, and the next is asked. Whoever relies on it can tell.
    fn failed(&mut self, place: usize, fault: &ClientFault)
        ensures { tells self.old place self.new };
}

/// `update` by each of so many sources in turn, into one state. What one of them gives that the state refuses, or that is too long, or
/// that it does not answer at all, ends its own turn alone. So one honest source is enough: where the client was behind its server
/// and nothing that it took put it ahead, it has the server's roots, timestamp and snapshot then.
///
/// It ends well where one of the updates did. Else the fault is that of the first source that was denied; where none was, of the first
/// that answered another fault; and where none answered, or there are none, `Fetch(Broken)`. Want of memory, and a fault of the
/// database, end it at once.
pub fn update_by_each<S: Alter, F: Sources>(
    alloc: Global,
    store: &mut Store<S>,
    sources: &mut F,
    count: usize,
    now: Moment,
) -> Result<(), ClientFault>
    ensures brings { Changes (seen store.old.kept (state S.Store store.old.conn)) (seen store.new.kept (state S.Store store.new.conn))
        (λ C D. UpdatesByEach F.gives F.turns F.tells now count sources.old C sources.new D (ended (λ u. u) result)
        × IsBroughtBy F.gives F.turns now count C D (ended (λ u. u) result) × RunsOn IsTaking now C D) }
    ensures asks { AsksInTurn F.gives F.turns F.tells 66 0 count sources.old sources.new }
{
    stands(store);
    laws();
    one_document();
    one_shape();
    updates(alloc, store, sources, count, now)
}

// The same, said by its turns.
fn updates<S: Alter, F: Sources>(
    alloc: Global,
    store: &mut Store<S>,
    sources: &mut F,
    count: usize,
    now: Moment,
) -> Result<(), ClientFault>
    ensures { Changes (seen store.old.kept (state S.Store store.old.conn)) (seen store.new.kept (state S.Store store.new.conn))
        (λ C D. UpdatesByEach F.gives F.turns F.tells now count sources.old C sources.new D (ended (λ u. u) result)) }
{
    let mut so_far = Err(ClientFault::Fetch(FetchFault::Broken));
    for place in 0..count {
        sources.turn(place);
        let end = update(alloc, store, sources, now);
        if is_last(&end) {
            return end;
        }
        tell(sources, place, &end);
        so_far = joined(so_far, end);
    }
    so_far
}

// Tells the sources where an update ended in a fault.
fn tell<F: Sources>(sources: &mut F, place: usize, end: &Result<(), ClientFault>)
    ensures { Told F.tells place (ended (λ u. u) end.now) sources.old sources.new }
{
    match end {
        Ok(()) => {}
        Err(fault) => sources.failed(place, fault),
    }
}

// Whether an update ended in want, so that no other source is asked.
fn is_last(end: &Result<(), ClientFault>) -> bool
    ensures { IsTrue result ↔ IsWanting (ended (λ u. u) end.now) }
{
    match end {
        Ok(()) => false,
        Err(fault) => is_want(fault),
    }
}

pub(crate) fn is_want(fault: &ClientFault) -> bool
    ensures { IsTrue result ↔ IsWant (fault_view fault.now) }
{
    match fault {
        ClientFault::Denied(_) => false,
        ClientFault::Fetch(FetchFault::TooLong | FetchFault::Broken) => false,
        ClientFault::Fetch(FetchFault::OutOfMemory) => true,
        ClientFault::Database => true,
        ClientFault::OutOfMemory => true,
    }
}

// How the updates so far and one more end together.
fn joined(so_far: Result<(), ClientFault>, end: Result<(), ClientFault>) -> Result<(), ClientFault>
    ensures { ended (λ u. u) result ≡ together (ended (λ u. u) so_far) (ended (λ u. u) end) }
{
    match so_far {
        Ok(()) => Ok(()),
        Err(fault) => match end {
            Ok(()) => Ok(()),
            Err(more) => Err(worse(fault, more)),
        },
    }
}

// Of two faults the first denial, or where there is none, the first that says more than that there is no answer.
pub(crate) fn worse(fault: ClientFault, more: ClientFault) -> ClientFault
    ensures { fault_view result ≡ worse (fault_view fault) (fault_view more) }
{
    match fault {
        ClientFault::Denied(denial) => ClientFault::Denied(denial),
        ClientFault::Fetch(FetchFault::Broken) => more,
        ClientFault::Fetch(FetchFault::TooLong) => denial_or(
            ClientFault::Fetch(FetchFault::TooLong),
            more,
        ),
        ClientFault::Fetch(FetchFault::OutOfMemory) => denial_or(
            ClientFault::Fetch(FetchFault::OutOfMemory),
            more,
        ),
        ClientFault::Database => denial_or(ClientFault::Database, more),
        ClientFault::OutOfMemory => denial_or(ClientFault::OutOfMemory, more),
    }
}

// The second of two faults where it is a denial, or else the first.
fn denial_or(fault: ClientFault, more: ClientFault) -> ClientFault
    ensures { fault_view result ≡ denial_or (fault_view fault) (fault_view more) }
{
    match more {
        ClientFault::Denied(denial) => ClientFault::Denied(denial),
        ClientFault::Fetch(_) => fault,
        ClientFault::Database => fault,
        ClientFault::OutOfMemory => fault,
    }
}

/// `fetch_target` by each of so many sources in turn, into one state, until one ends in the target's bytes. So one honest source is
/// enough: where the client was level with its server and nothing that it took put it ahead, the bytes are answered that the server
/// grants. The fault is told as at `update_by_each`.
pub fn fetch_by_each<S: Alter, F: Sources>(
    alloc: Global,
    store: &mut Store<S>,
    sources: &mut F,
    count: usize,
    path: &TargetPath,
    now: Moment,
) -> Result<Vec<u8>, ClientFault>
    ensures serves { Changes (seen store.old.kept (state S.Store store.old.conn)) (seen store.new.kept (state S.Store store.new.conn))
        (λ C D. FetchesByEach (IsClean (seen store.new.kept (state S.Store store.new.conn))) F.gives F.turns F.tells now path.now count sources.old C sources.new D (fetched result)
        × RunsOn IsTaking now C D
        × (IsClean (seen store.new.kept (state S.Store store.new.conn)) → IfOk result (λ b. grants D path.now None now (Ok b.items))
        × IsServedBy F.gives F.turns now path.now count C D (fetched result))) }
    ensures asks { AsksInTurn F.gives F.turns F.tells 194 0 count sources.old sources.new }
{
    stands(store);
    let _text = path.as_str();
    laws();
    one_document();
    one_shape();
    fetches(alloc, store, sources, count, path, now)
}

// The same, said by its turns.
fn fetches<S: Alter, F: Sources>(
    alloc: Global,
    store: &mut Store<S>,
    sources: &mut F,
    count: usize,
    path: &TargetPath,
    now: Moment,
) -> Result<Vec<u8>, ClientFault>
    ensures { Changes (seen store.old.kept (state S.Store store.old.conn)) (seen store.new.kept (state S.Store store.new.conn))
        (λ C D. FetchesByEach (IsClean (seen store.new.kept (state S.Store store.new.conn))) F.gives F.turns F.tells now path.now count sources.old C sources.new D (fetched result)) }
{
    let mut so_far = ClientFault::Fetch(FetchFault::Broken);
    for at in 0..count {
        sources.turn(at);
        match fetch_target(alloc, store, sources, path, now) {
            Ok(bytes) => return Ok(bytes),
            Err(fault) => {
                if is_want(&fault) {
                    return Err(fault);
                }
                sources.failed(at, &fault);
                so_far = worse(so_far, fault);
            }
        }
    }
    Err(so_far)
}
