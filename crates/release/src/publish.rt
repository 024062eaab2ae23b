//! `publish`: offers documents in order, which are taken together or not at all.
ghost use Rattle.std.specs.Prelude.{◌≡◌, ℕ};
ghost use Rattle.trust_rules.specs.Runs.{BatchDone};
ghost use Rattle.store.specs.Views.{command_view, reply_view};
ghost use Rattle.sqlite.specs.Held.{state};
ghost use Rattle.store.specs.Standing.{seen};
ghost use Rattle.cli_repository.specs.Works.{Ends, EndsBy};
ghost use Rattle.release.specs.AfterPuts.{AllPut, EndsAfterPuts, IsUndenied};

use crate::printing::print_line;
use cli_client::publish_at;
use cli_drafts::{Drafted, clear_published, complete_batch_in, waiting_files};
use cli_faults::{Fault, Notes, moment};
use cli_repository::{
    Batch, Holding, Waiting, Work, batch_of, documents_of, fault_of_store, read_all, refused,
    tell_argument, worked,
};
use cli_tasks::Place;
use draft_folder::Folder;
use http_messages::accepted_body;
use metadata::Moment;
use show_limits::warn_near;
use sqlite::Alter;
use std::alloc::Global;
use std::io::Write;
use store::{Command, Digest, Reply, Store};

/// Offers the documents to the repository in the database file or at the port, and prints how many were accepted and how many were
/// held already. Each argument is a role's name, a colon and a file.
pub fn publish<O: Write, E: Write>(
    rt: &HostRuntime,
    place: &Place,
    arguments: &[String],
    at: Option<u64>,
    out: &mut O,
    notes: &mut Notes<'_, E>,
) -> Result<(), Fault> {
    if let Place::Database(_) = place {
        let _now = moment(rt, at)?;
    }
    let documents = tell_argument(documents_of(rt.alloc(), arguments), arguments, notes)?;
    let files = read_all(rt, &documents, notes)?;
    let documents = batch_of(rt.alloc(), documents, &files)?;
    let batch = Batch {
        files: Waiting {
            folder: Folder::new(rt, "."),
            digests: &[],
        },
        arguments,
        documents: &documents,
    };
    hand_over(rt, place, at, batch, out, notes)
}

/// Puts the target files that wait in a folder of drafts, offers its documents together, and empties it after that. A repository in a database
/// file is opened once for all of it. Each document is read once, so what is held in the folder after that is what was offered. A waiting file
/// that is not the one of its digest is refused before anything is sent. No other command writes in the folder meanwhile.
pub fn publish_in_folder<O: Write, E: Write>(
    rt: &HostRuntime,
    place: &Place,
    folder: &str,
    at: Option<u64>,
    out: &mut O,
    notes: &mut Notes<'_, E>,
) -> Result<(), Fault> {
    let _now = moment(rt, at)?;
    let folder = Folder::new(rt, folder);
    let _lock = folder.lock(notes)?;
    let drafted = complete_batch_in(rt.alloc(), folder, notes)?;
    let digests = waiting_files(rt.alloc(), folder, notes)?;
    folder.make_inner("held", notes)?;
    let files = Waiting {
        folder,
        digests: &digests,
    };
    if let Err(fault) = publish_drafted(rt, place, at, files, &drafted, out, notes) {
        tell_unsealed(&fault, folder, &drafted, notes);
        return Err(fault);
    }
    clear_published(rt.alloc(), folder, &drafted, notes)
}

fn publish_drafted<'d, O: Write, E: Write>(
    rt: &HostRuntime,
    place: &Place,
    at: Option<u64>,
    files: Waiting<'d>,
    drafted: &'d Drafted,
    out: &mut O,
    notes: &mut Notes<'_, E>,
) -> Result<(), Fault> {
    let documents = drafted.offers(rt.alloc())?;
    let batch = Batch {
        files,
        arguments: &drafted.arguments,
        documents: &documents,
    };
    hand_over(rt, place, at, batch, out, notes)
}

// Tells what is to be done where a batch was denied and the folder was not sealed.
fn tell_unsealed<E: Write>(
    fault: &Fault,
    folder: Folder<'_>,
    drafted: &Drafted,
    notes: &mut Notes<'_, E>,
) {
    let is_denied = match fault {
        Fault::Denied(_, _) | Fault::Refused(_, _, _) => true,
        _ => false,
    };
    if is_denied && drafted.is_unsealed() {
        notes.fault(
            &folder.path(),
            &"it has no draft of a timestamp: seal first, by 'release draft --in DIR seal', and sign what that drafts",
        );
    }
}

// Puts the target files and offers the documents.
fn hand_over<O: Write, E: Write>(
    rt: &HostRuntime,
    place: &Place,
    at: Option<u64>,
    batch: Batch<'_>,
    out: &mut O,
    notes: &mut Notes<'_, E>,
) -> Result<(), Fault> {
    match place {
        Place::Port(port) => publish_at(rt, *port, batch, out, notes),
        Place::Database(db) => {
            let now = moment(rt, at)?;
            if batch.files.digests.is_empty() {
                return offer(rt, db, batch, now, out, notes);
            }
            put_and_offer(rt, db, batch, now, out, notes)
        }
    }
}

// The same of a batch with target files that wait, over one opening.
fn put_and_offer<O: Write, E: Write>(
    rt: &HostRuntime,
    db: &str,
    batch: Batch<'_>,
    now: Moment,
    out: &mut O,
    notes: &mut Notes<'_, E>,
) -> Result<(), Fault>
    ensures { EndsAfterPuts (command_view (Command.Batch batch.entry.documents)) now (λ reply. (accepted same : ℕ) × (reply ≡ BatchDone accepted same)) result }
{
    let mut publishing = Publishing {
        folder: batch.files.folder,
        waiting: batch.files.digests,
        offering: Offering {
            alloc: rt.alloc(),
            db,
            batch,
            now,
        },
    };
    let reply = match worked(rt, db, &mut publishing, notes) {
        Ok(reply) => reply,
        Err(fault) => return Err(fault),
    };
    print_accepted(reply, batch.arguments, out, notes)
}

// Offers a batch, and prints how many documents were accepted and how many were held already.
fn offer<O: Write, E: Write>(
    rt: &HostRuntime,
    db: &str,
    batch: Batch<'_>,
    now: Moment,
    out: &mut O,
    notes: &mut Notes<'_, E>,
) -> Result<(), Fault>
    ensures { Ends (command_view (Command.Batch batch.entry.documents)) now (λ reply. (accepted same : ℕ) × (reply ≡ BatchDone accepted same)) result }
{
    let mut offering = Offering {
        alloc: rt.alloc(),
        db,
        batch,
        now,
    };
    let reply = match worked(rt, db, &mut offering, notes) {
        Ok(reply) => reply,
        Err(fault) => return Err(fault),
    };
    print_accepted(reply, batch.arguments, out, notes)
}

// Prints how many documents were accepted and how many were held already, or tells which one was denied.
fn print_accepted<O: Write, E: Write>(
    reply: Reply,
    arguments: &[String],
    out: &mut O,
    notes: &mut Notes<'_, E>,
) -> Result<(), Fault>
    ensures { EndsBy (reply_view reply) (λ said. (accepted same : ℕ) × (said ≡ BatchDone accepted same)) result }
{
    match reply {
        Reply::Batch { accepted, same } => print_line(out, &accepted_body(accepted, same), notes),
        other => tell_argument(Err(refused(other)), arguments, notes),
    }
}

// What a repository holds, as what is told asks for it.
fn holding<S: Alter>(repository: &Store<S>) -> Holding<'_> {
    Holding {
        held: repository.held(),
    }
}

// What is done over the repository: the batch is offered once, and nothing else is. A fault is told with the name of its database.
#[derive(Clone, Copy)]
struct Offering<'a> {
    alloc: Global,
    db: &'a str,
    batch: Batch<'a>,
    now: Moment,
}

impl Work for Offering<'_> {
    ghost use Rattle.store.specs.Views.{command_view};
    ghost use Rattle.store.specs.declared.command.Command.TheVariants.{Batch};
    ghost use Rattle.cli_repository.specs.Works.{MakesOne};

    type Done = Reply;

    ghost does = { λ offering A r B _. MakesOne (command_view (Batch offering.batch.documents)) offering.now A r B };

    fn work<S: Alter, E: Write>(
        &mut self,
        repository: &mut Store<S>,
        notes: &mut Notes<'_, E>,
    ) -> Result<Reply, Fault> {
        let (alloc, batch) = (self.alloc, self.batch);
        let before = batch.before(alloc, &mut holding(repository), notes);
        match repository.apply(Command::Batch(batch.documents), self.now) {
            Ok(reply) => {
                let held = &mut holding(repository);
                match &reply {
                    Reply::Batch { same, .. } => {
                        batch.warn_after(alloc, held, before, *same, &self.db, notes);
                        warn_near(alloc, repository.held(), &self.db, notes);
                    }
                    Reply::Denied(denial, Some(index)) => {
                        batch.tell(alloc, held, denial.number(), *index, notes);
                    }
                    _ => {}
                }
                Ok(reply)
            }
            Err(fault) => {
                notes.fault(&self.db, &fault);
                Err(fault_of_store(fault))
            }
        }
    }
}

// What is done over the repository where target files wait: they are put, one after the other, and then the batch is offered.
#[derive(Clone, Copy)]
struct Publishing<'a> {
    folder: Folder<'a>,
    waiting: &'a [Digest],
    offering: Offering<'a>,
}

impl Work for Publishing<'_> {
    ghost use Rattle.store.specs.Views.{command_view};
    ghost use Rattle.store.specs.declared.command.Command.TheVariants.{Batch};
    ghost use Rattle.release.specs.AfterPuts.{PublishesOver};

    type Done = Reply;

    ghost does = { λ publishing A r B _. PublishesOver (command_view (Batch publishing.offering.batch.documents)) publishing.offering.now A r B };

    fn work<S: Alter, E: Write>(
        &mut self,
        repository: &mut Store<S>,
        notes: &mut Notes<'_, E>,
    ) -> Result<Reply, Fault> {
        match self.put_all(repository, notes) {
            Ok(()) => {}
            Err(fault) => return Err(fault),
        }
        self.offering.work(repository, notes)
    }
}

impl Publishing<'_> {
    // Puts the files that wait, one after the other.
    fn put_all<S: Alter, E: Write>(
        &self,
        repository: &mut Store<S>,
        notes: &mut Notes<'_, E>,
    ) -> Result<(), Fault>
        ensures { AllPut self.now.offering.now (seen repository.old.kept (state S.Store repository.old.conn)) result (seen repository.new.kept (state S.Store repository.new.conn)) }
    {
        let files = Waiting {
            folder: self.folder,
            digests: self.waiting,
        };
        let mut rest = self.waiting;
        'files: while let Some((digest, later)) = rest.split_first() {
            let bytes = match files.read(digest, notes) {
                Ok(bytes) => bytes,
                Err(fault) => return Err(unread(fault)),
            };
            match self.offering.put(*digest, &bytes, repository, notes) {
                Ok(()) => {}
                Err(fault) => return Err(fault),
            }
            rest = later;
        }
        Ok(())
    }
}

// Why a file that waits was not read: that is no denial, which rules alone give.
fn unread(fault: Fault) -> Fault
    ensures { IsUndenied result }
{
    match fault {
        Fault::Denied(_, _) => Fault::File,
        other => other,
    }
}

impl Offering<'_> {
    // Stores a target file. What is told of it has its digest as its name.
    fn put<S: Alter, E: Write>(
        &self,
        digest: Digest,
        bytes: &[u8],
        repository: &mut Store<S>,
        notes: &mut Notes<'_, E>,
    ) -> Result<(), Fault>
        ensures { AllPut self.entry.now.now (seen repository.old.kept (state S.Store repository.old.conn)) result (seen repository.new.kept (state S.Store repository.new.conn)) }
    {
        match repository.apply(Command::PutBlob(digest, bytes), self.now) {
            Ok(Reply::Stored(_)) => Ok(()),
            Ok(other) => {
                if let Reply::Denied(denial, _) = &other {
                    let digits = digest.digits();
                    let name = str::from_utf8(&digits).unwrap_or("-");
                    notes.denied(&name, denial.number());
                }
                Err(refused(other))
            }
            Err(fault) => {
                notes.fault(&self.db, &fault);
                Err(fault_of_store(fault))
            }
        }
    }
}
