//! Fetching a target.
ghost use Rattle.std.specs.Prelude.{◌≡◌, ◌≤◌, ◌<◌, [], None, Ok, IfOk, IfErr, map, string_bytes, suc, vec_len};
ghost use Rattle.sqlite.specs.Held.{state};
ghost use Rattle.metadata.specs.File.{has_name};
ghost use Rattle.trust_rules.specs.Grants.{grants};
ghost use Rattle.store.specs.Standing.{IsClean, seen};
ghost use Rattle.store.specs.Views.{reply_view};
ghost use Rattle.client.specs.Asking.{AsksOnce};
ghost use Rattle.client.specs.Changes.{Changes};
ghost use Rattle.client.specs.Session.{Fetches};
ghost use Rattle.client.specs.Taken.{IsTaking, RunsOn};
ghost use Rattle.client.specs.Views.{fetched};
ghost use Rattle.client.specs.steps.Asked.{IsAnswered, IsSaidBy, IsTargetReply};
ghost use Rattle.client.specs.steps.Rounds.{GoesOn, Round};

use crate::fault::{ClientFault, unmade};
use crate::missing::missing;
use crate::taking::take;
use fetch::Source;
use metadata::Moment;
use path_patterns::TargetPath;
use sqlite::Alter;
use std::alloc::Global;
use store::{Command, Denial, Reply, Store, stands};
use trust_rules::replies_tell;

// The most names that are fetched in one call: 128 metadata files and 66 target files, more than which no call needs.
const MAX_NAMES: usize = 194;

/// The file of a target at a moment (TUF 1.0, sections 5.6 and 5.7): asks the client's own state for it, and where a targets document
/// or a target file is missing, fetches and offers that, and asks again. Each name is fetched at most once, and at most 194 in one
/// call. Where the source has no such file, where the name was fetched before, or where 194 were fetched, the denial is the answer.
/// What was accepted before a fault stays.
///
/// - `Denied`: the state denies the target, or a file that was fetched was denied.
/// - `Fetch`: the source answered this, or more bytes than the limit (`TooLong`): 262,144 for a document, and for a target file the
///   lesser of its listed length and 1,048,576.
/// - `Database`, `OutOfMemory`: as at `Store::apply`; `OutOfMemory` also where a name found no memory.
pub fn fetch_target<S: Alter, F: Source>(
    alloc: Global,
    store: &mut Store<S>,
    source: &mut F,
    path: &TargetPath,
    now: Moment,
) -> Result<Vec<u8>, ClientFault>
    ensures fetches { Changes (seen store.old.kept (state S.Store store.old.conn)) (seen store.new.kept (state S.Store store.new.conn))
        (λ C D. Fetches (IsClean (seen store.new.kept (state S.Store store.new.conn))) F.gives now path.now [] source.old C source.new D (fetched result)
        × RunsOn IsTaking now C D
        × (IsClean (seen store.new.kept (state S.Store store.new.conn)) → IfOk result (λ b. grants D path.now None now (Ok b.items)))) }
    ensures asks { AsksOnce F.gives 194 source.old source.new }
{
    stands(store);
    rounds(alloc, store, source, path, now)
}

// The same, said by its rounds.
fn rounds<S: Alter, F: Source>(
    alloc: Global,
    store: &mut Store<S>,
    source: &mut F,
    path: &TargetPath,
    now: Moment,
) -> Result<Vec<u8>, ClientFault>
    ensures { Changes (seen store.old.kept (state S.Store store.old.conn)) (seen store.new.kept (state S.Store store.new.conn))
        (λ C D. Fetches (IsClean (seen store.new.kept (state S.Store store.new.conn))) F.gives now path.now [] source.old C source.new D (fetched result)) }
{
    let mut names: Vec<String> = Vec::new(alloc);
    'rounds: loop {
        match round(alloc, store, source, &mut names, path, now) {
            Ok(Some(bytes)) => return Ok(bytes),
            Ok(None) => {}
            Err(fault) => return Err(fault),
        }
    }
}

// Asks for the target, and where a file is missing takes that: then it is to be asked again.
fn round<S: Alter, F: Source>(
    alloc: Global,
    store: &mut Store<S>,
    source: &mut F,
    names: &mut Vec<String>,
    path: &TargetPath,
    now: Moment,
) -> Result<Option<Vec<u8>>, ClientFault>
    requires { vec_len names.old ≤ 194 }
    ensures { Round (seen store.old.kept (state S.Store store.old.conn)) (seen store.new.kept (state S.Store store.new.conn)) F.gives now path.now
        (map string_bytes names.old.items) (map string_bytes names.new.items) source.old source.new result }
{
    let denial = match ask(store, path, now) {
        Ok(Asked::Granted(bytes)) => return Ok(Some(bytes)),
        Ok(Asked::Denied(denial)) => denial,
        Err(fault) => return Err(fault),
    };
    let wanted = match missing(alloc, &denial) {
        Ok(Some(wanted)) => wanted,
        Ok(None) => return Err(ClientFault::Denied(denial)),
        Err(_) => return Err(ClientFault::OutOfMemory),
    };
    if names.len() == MAX_NAMES {
        return Err(ClientFault::Denied(denial));
    }
    if has(names, wanted.name.as_str()) {
        return Err(ClientFault::Denied(denial));
    }
    match take(alloc, store, source, &wanted, now) {
        Ok(true) => {}
        Ok(false) => return Err(ClientFault::Denied(denial)),
        Err(fault) => return Err(fault),
    }
    match names.push(wanted.name) {
        Ok(()) => Ok(None),
        Err(_) => Err(ClientFault::OutOfMemory),
    }
}

// What a client's own state says of a target.
#[derive(Drop)]
enum Asked {
    Granted(Vec<u8>),
    Denied(Denial),
}

// Asks the client's own state for a target.
fn ask<S: Alter>(store: &mut Store<S>, path: &TargetPath, now: Moment) -> Result<Asked, ClientFault>
    ensures { IsAnswered (seen store.old.kept (state S.Store store.old.conn)) (seen store.new.kept (state S.Store store.new.conn)) path.now now result }
{
    stands(store);
    replies_tell();
    match store.apply(Command::Target(path.as_str(), None), now) {
        Ok(reply) => Ok(asked_of(reply)),
        Err(fault) => Err(unmade(fault)),
    }
}

// What a reply to one who asks for a target says.
fn asked_of(reply: Reply) -> Asked
    requires { IsTargetReply (reply_view reply) }
    ensures { IsSaidBy reply result }
{
    match reply {
        Reply::Bytes(bytes) => Asked::Granted(bytes),
        Reply::Denied(denial, _) => Asked::Denied(denial),
        Reply::Begun => unreachable!(),
        Reply::Batch { .. } => unreachable!(),
        Reply::Offered { .. } => unreachable!(),
        Reply::Stored(_) => unreachable!(),
        Reply::Pruned { .. } => unreachable!(),
        Reply::Absent => unreachable!(),
    }
}

// Whether the name is among these.
fn has(names: &[String], name: &str) -> bool
    ensures { result ≡ has_name (map string_bytes names.now) name.now }
{
    let mut rest = names;
    'names: while let Some((first, later)) = rest.split_first() {
        if first.as_str() == name {
            return true;
        }
        rest = later;
    }
    false
}
