//! A client whose source is a server's own state.
ghost use Rattle.std.specs.Prelude.{◌≡◌, Some};
ghost use Rattle.sqlite.specs.Held as connection;
ghost use Rattle.store.specs.Standing.{IsClean, seen};
ghost use Rattle.fetch.specs.Source.{answered};
ghost use Rattle.client.specs.Agreement.{Brings, FetchesFrom};
ghost use Rattle.client.specs.Answering.{IsAnswer, IsFoundAs};
ghost use Rattle.client.specs.Changes.{Changes};
ghost use Rattle.client.specs.Views.{ended, fetched};

use crate::fault::ClientFault;
use crate::fetching::fetch_target;
use crate::laws::laws;
use crate::updating::update;
use fetch::{FetchFault, Source};
use metadata::{Moment, one_document, one_shape};
use path_patterns::{TargetPath, names_undo, read_asked};
use sqlite::Alter;
use std::alloc::Global;
use store::{Refusal, State, Store, metadata_file, target};

// Answers from a state at a moment, as a server of it would.
#[derive(Drop)]
struct StateSource<'a> {
    server: &'a State,
    now: Moment,
}

impl Source for StateSource<'_> {
    ghost use Rattle.std.specs.Prelude.{◌≡◌};
    ghost use Rattle.client.specs.Answering.{AnswersFrom};

    ghost gives = { λ s name limit answer t. (t ≡ s) × AnswersFrom s.server.now.state s.now name limit answer };

    fn fetch(
        &mut self,
        alloc: Global,
        name: &str,
        limit: usize,
    ) -> Result<Option<Vec<u8>>, FetchFault> {
        match find(alloc, self.server, name, self.now) {
            Ok(Some(bytes)) => within(alloc, bytes, limit),
            Ok(None) => Ok(None),
            Err(fault) => Err(fault),
        }
    }
}

// The file of a name that a server of the state has, or want of memory.
fn find<'a>(
    alloc: Global,
    server: &'a State,
    name: &str,
    now: Moment,
) -> Result<Option<&'a [u8]>, FetchFault>
    ensures { IsFoundAs server.now.state now name.now result }
{
    if let Some(file) = name.strip_prefix("metadata/") {
        return Ok(metadata_file(server, file));
    }
    let Some(text) = name.strip_prefix("targets/") else {
        return Ok(None);
    };
    let (path, asked) = read_asked(alloc, text)?;
    names_undo();
    match target(alloc, server, path.as_str(), asked, now) {
        Ok(bytes) => Ok(Some(bytes)),
        Err(Refusal::Denied(_)) => Ok(None),
        Err(Refusal::OutOfMemory) => Err(FetchFault::OutOfMemory),
    }
}

// A copy of the bytes, where they are within the limit.
fn within(alloc: Global, bytes: &[u8], limit: usize) -> Result<Option<Vec<u8>>, FetchFault>
    ensures { IsAnswer limit (λ found. found ≡ Some bytes.now) (answered result) }
{
    if bytes.len() > limit {
        return Err(FetchFault::TooLong);
    }
    Ok(Some(Vec::from_slice(alloc, bytes)?))
}

/// A target as a client fetches it from a server of this state, at one moment: `update`, whose denial is disregarded, and then
/// `fetch_target`, over a source that answers from the state. Where the state is coherent and the client's is behind it, it answers
/// bytes exactly where the server grants them, and the same ones, want of memory and faults of the client's database aside.
pub fn fetch_from_state<S: Alter>(
    alloc: Global,
    server: &State,
    store: &mut Store<S>,
    path: &TargetPath,
    now: Moment,
) -> Result<Vec<u8>, ClientFault>
    ensures { Changes (seen store.old.kept (connection.state S.Store store.old.conn)) (seen store.new.kept (connection.state S.Store store.new.conn))
        (λ C D. FetchesFrom (IsClean (seen store.new.kept (connection.state S.Store store.new.conn))) server.now.state C D path.now now (fetched result)) }
{
    let _text = path.as_str();
    server.is_valid();
    laws();
    one_document();
    one_shape();
    let mut source = StateSource { server, now };
    match bring(alloc, store, &mut source, now) {
        Ok(()) => fetch_target(alloc, store, &mut source, path, now),
        Err(fault) => Err(fault),
    }
}

// Brings the client up to date, where that is not denied.
fn bring<S: Alter, F: Source>(
    alloc: Global,
    store: &mut Store<S>,
    source: &mut F,
    now: Moment,
) -> Result<(), ClientFault>
    ensures { Changes (seen store.old.kept (connection.state S.Store store.old.conn)) (seen store.new.kept (connection.state S.Store store.new.conn))
        (λ C D. Brings F.gives now source.old C source.new D (ended (λ u. u) result)) }
{
    match update(alloc, store, source, now) {
        Ok(()) => Ok(()),
        Err(ClientFault::Denied(_)) => Ok(()),
        Err(ClientFault::Fetch(fault)) => Err(ClientFault::Fetch(fault)),
        Err(ClientFault::Database) => Err(ClientFault::Database),
        Err(ClientFault::OutOfMemory) => Err(ClientFault::OutOfMemory),
    }
}
