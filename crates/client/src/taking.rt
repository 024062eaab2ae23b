//! One file: fetched, and offered to the store.
ghost use Rattle.std.specs.Prelude.{◌≡◌};
ghost use Rattle.sqlite.specs.Held.{state};
ghost use Rattle.store.specs.Standing.{seen};
ghost use Rattle.store.specs.Views.{command_view, reply_view};
ghost use Rattle.client.specs.Changes.{Changes};
ghost use Rattle.client.specs.Session.{IsJudged, Makes, Takes};
ghost use Rattle.client.specs.Views.{ended};
ghost use Rattle.client.specs.WantedViews.{command_of, wanted_view};

use crate::fault::{ClientFault, unmade};
use crate::wanted::{Use, Wanted};
use fetch::{FetchFault, Source};
use metadata::Moment;
use sqlite::Alter;
use std::alloc::Global;
use store::{Command, Reply, Store};

// Fetches a file and makes its command: whether the source has one. What is over its limit is not offered.
pub(crate) fn take<S: Alter, F: Source>(
    alloc: Global,
    store: &mut Store<S>,
    source: &mut F,
    wanted: &Wanted,
    now: Moment,
) -> Result<bool, ClientFault>
    ensures { Changes (seen store.old.kept (state S.Store store.old.conn)) (seen store.new.kept (state S.Store store.new.conn))
        (λ C D. Takes F.gives now (wanted_view wanted.now) source.old C source.new D (ended (λ b. b) result)) }
{
    let file = match source.fetch(alloc, wanted.name.as_str(), wanted.limit) {
        Ok(Some(file)) => file,
        Ok(None) => return Ok(false),
        Err(fault) => return Err(ClientFault::Fetch(fault)),
    };
    let bytes: &[u8] = &file;
    if bytes.len() > wanted.limit {
        return Err(ClientFault::Fetch(FetchFault::TooLong));
    }
    match offer(store, &wanted.purpose, bytes, now) {
        Ok(()) => Ok(true),
        Err(fault) => Err(fault),
    }
}

// Makes the command of a file.
fn offer<S: Alter>(
    store: &mut Store<S>,
    purpose: &Use,
    file: &[u8],
    now: Moment,
) -> Result<(), ClientFault>
    ensures { Changes (seen store.old.kept (state S.Store store.old.conn)) (seen store.new.kept (state S.Store store.new.conn))
        (λ C D. Makes now (command_of purpose.now file.now) C D (ended (λ u. u) result)) }
{
    let command = command_for(purpose, file);
    match store.apply(command, now) {
        Ok(reply) => judged(reply),
        Err(fault) => Err(unmade(fault)),
    }
}

// The command that is made with a file.
fn command_for<'a>(purpose: &'a Use, file: &'a [u8]) -> Command<'a>
    ensures { command_view result ≡ command_of purpose.now file.now }
{
    match purpose {
        Use::Document(offer) => Command::Offer(offer, file),
        Use::Blob(digest) => Command::PutBlob(*digest, file),
    }
}

// A reply to an offer or an upload: accepted, or denied.
fn judged(reply: Reply) -> Result<(), ClientFault>
    ensures { IsJudged (reply_view reply) (ended (λ u. u) result) }
{
    match reply {
        Reply::Denied(denial, _) => Err(ClientFault::Denied(denial)),
        Reply::Begun
        | Reply::Batch { .. }
        | Reply::Offered { .. }
        | Reply::Stored(_)
        | Reply::Pruned { .. }
        | Reply::Bytes(_)
        | Reply::Absent => Ok(()),
    }
}
