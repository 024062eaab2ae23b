//! A store: a state of the trust machine, whose rows the tables hold.
ghost use Rattle.std.specs.Prelude.{◌≡◌, ◌≢◌, ◌⊎◌, ◌<◌, ◌≤◌, ◌^◌, Err, IfOk, IsTrue, None, Ok, OnErr, OnOk, option_map, true};
ghost use Rattle.sha2.specs.Sha256.{sha256};
ghost use Rattle.sqlite.specs.Held.{state};
ghost use Rattle.sqlite.specs.State.{HasCleanDisk, Survives};
ghost use Rattle.sqlite_trees.specs.Tree.{Trees};
ghost use Rattle.sql_tables.specs.Outliving.{Outlives};
ghost use Rattle.table_rows.specs.Tables.{HoldsWhole, IsStore};
ghost use Rattle.trust_rules.specs.Grants as granted;
ghost use Rattle.trust_rules.specs.State as trust;
ghost use Rattle.trust_rules.specs.State.{IsSnapshotDue, IsState};
ghost use Rattle.trust_rules.specs.Effects.{applied};
ghost use Rattle.trust_rules.specs.Held.{held_with};
ghost use Rattle.machine.specs.Knowing.{IsKnown};
ghost use Rattle.machine.specs.PartViews.{effects_view};
ghost use Rattle.machine.specs.StateViews.{documents_view, offer_view};
ghost use Rattle.trust_rules.specs.Runs as steps;
ghost use Rattle.machine.specs.Serving.{ListsDigest, Refuses, Serves};
ghost use Rattle.delegations.specs.Verdicts.{Table};
ghost use Rattle.store.specs.Ticks.{Ticks, TicksFew};
ghost use Rattle.store.specs.Applies.{Applies};
ghost use Rattle.store.specs.Standing.{IsStateOf, Keeps, StandsAt, seen};
ghost use Rattle.store.specs.steps.Doing.{DoesAt};
ghost use Rattle.store.specs.steps.Loading.{ReadsOnly};
ghost use Rattle.store.specs.steps.Replies.{IsBatchRefusal, IsCopied, IsGetFault, IsRefusal};
ghost use Rattle.store.specs.StateRows.{rows_of};
ghost use Rattle.store.specs.Views.{command_view};

use crate::command::{Command, Reply};
use crate::stored_rows::StoredRows;
use machine::{
    BatchRefusal, Batched, Effects, GetFault, Held, LoadFault, Offer, Outcome, Refusal, Served,
    Steps, batch_on, get_from_counted, held_follows, init_on, offer_on, prune_on, put_blob_on,
    target_from_counted,
};
use metadata::Moment;
use path_patterns::{Digest, TargetPath};
use repository_tables::StoreFault;
use sqlite::{Alter, Connection};
use std::alloc::{AllocError, Global};
use std::marker::Model;

/// What a state of the trust machine holds beside the bytes of its target files, and the connection to the tables that hold its rows. A
/// clause sees the connection, and the states that the store stands for. While the connection is open, and unless a wrong answer of the
/// disk was taken as true, the rows are those of such a state.
#[derive(Drop)]
pub struct Store<S: Alter> {
    rows: StoredRows<S>,
    held: Held,
    alloc: Global,
}

impl<S: Alter> Model for Store<S> {
    ghost use Rattle.std.specs.Prelude.{◌≡◌, IsTrue};
    ghost use Rattle.sqlite.specs.Held.{state};
    ghost use Rattle.sqlite.specs.State.{HasCleanDisk};
    ghost use Rattle.trust_rules.specs.State as trust;
    ghost use Rattle.table_rows.specs.Tables.{IsStore};
    ghost use Rattle.machine.specs.HeldContracts as machine;
    ghost use Rattle.store.specs.Standing.{IsStateOf};
    ghost use Rattle.store.specs.StateRows.{Shown, shown_code, rows_of};

    ghost Value = { Shown S };

    ghost coded = { shown_code S.code machine.the_row.coded };

    ghost view = { λ s. record { conn = s.rows; kept = s.held.held } };

    ghost invariant = { λ s. (U : trust.State) × IsStateOf s.held.held U × (HasCleanDisk (state S.Store s.rows) → IsTrue (state S.Store s.rows).is_open → IsStore (state S.Store s.rows) (rows_of U)) };
}

impl<S: Alter> Store<S> {
    /// Makes a command at a moment, in one transaction: the step of the trust machine, whose reply it answers. After a denial
    /// or a fault rows and state are as before, and the store may be used on: only a fault of the disk shuts its connection.
    ///
    /// - `Database`: a call of the database answered a fault.
    /// - `OutOfMemory`: memory was refused. Nothing takes memory once the rows are committed.
    pub fn apply(&mut self, command: Command<'_>, now: Moment) -> Result<Reply, StoreFault>
        ensures { Applies self.old.kept self.new.kept (state S.Store self.old.conn) (state S.Store self.new.conn) (command_view command.entry) now result }
    {
        self.apply_counted(command, now, &mut Steps::new())
    }

    /// The same, with one tick for each signature that a request for a target checks in its searches. For a target without a layout these
    /// are at most 512, and none where the pairs that searches may meet are at most 2,048. No other command makes a tick.
    pub fn apply_counted(
        &mut self,
        command: Command<'_>,
        now: Moment,
        checks: &mut Steps,
    ) -> Result<Reply, StoreFault>
        requires { checks.old < 2 ^ 63 }
        ensures applies { Applies self.old.kept self.new.kept (state S.Store self.old.conn) (state S.Store self.new.conn) (command_view command.entry) now result }
        ensures ticks { Ticks self.old.kept.trusted (command_view command.entry) now checks.old checks.new }
    {
        self.is_known();
        self.rests();
        match self.touch() {
            Ok(()) => {}
            Err(fault) => {
                self.rests();
                return Err(fault);
            }
        }
        let result = self.make(command, now, checks);
        self.rests();
        result
    }

    /// The version of the trusted root, and `None` where no root is trusted. It takes no memory.
    pub fn root_version(&self) -> Option<u32>
        ensures { (U : trust.State) → IsStateOf self.now.kept U → result ≡ option_map (λ root. root.body.version) U.trusted.root }
    {
        self.held().root_version()
    }

    /// The version of the snapshot that the held timestamp names, and `None` where no timestamp is held or it names the held
    /// snapshot. It takes no memory.
    pub fn snapshot_due(&self) -> Option<u32>
        ensures { (U : trust.State) → IsStateOf self.now.kept U → IsSnapshotDue U.trusted result }
    {
        self.held().snapshot_due()
    }

    /// What is held of the state, with what is known of the signatures on its shelf.
    pub fn held(&self) -> &Held
        ensures { result.now.held ≡ self.now.kept }
    {
        &self.held
    }

    /// The file of a target at a moment, as a request for it is answered, with one tick for each signature that is checked: none where
    /// the pairs that searches may meet are at most 2,048. Nothing is written.
    pub fn get_counted(
        &mut self,
        path: &TargetPath,
        now: Moment,
        checks: &mut Steps,
    ) -> Result<Served, GetFault>
        requires { checks.old < 2 ^ 63 }
        ensures keeps { Keeps (seen self.old.kept (state S.Store self.old.conn)) (seen self.new.kept (state S.Store self.new.conn)) }
        ensures denial { Refuses self.old.kept (λ U. granted.grants U path.now None now) path.now now (IsTrue (state S.Store self.old.conn).is_open → IsTrue (state S.Store self.new.conn).is_open)
            (HasCleanDisk (state S.Store self.new.conn) → IsTrue (state S.Store self.new.conn).is_open) result }
        ensures answer { HasCleanDisk (state S.Store self.new.conn) → IsTrue (state S.Store self.new.conn).is_open → (U : trust.State) → StandsAt (seen self.old.kept (state S.Store self.old.conn)) U
            → Serves U (granted.grants U path.now None now) result }
        ensures digest { IfOk result (λ s. sha256 s.bytes.items ≡ s.digest.0) }
        ensures lists { IfOk result (λ s. ListsDigest self.old.kept.trusted path.now None now s.digest.0) }
        ensures ticks { TicksFew self.old.kept.trusted path.now now checks.old checks.new }
    {
        self.held.is_known();
        get_from_counted(self.alloc, &self.held, &mut self.rows, path, now, checks)
    }

    /// Whether the connection is open, which is asked of the database by one small query: a fault that has shut it shows here, before a
    /// command is answered one. What stands stays. `false` is answered only after a call of the database answered a fault.
    ///
    /// Error: memory was refused, so that it is not known.
    pub fn is_open(&mut self) -> Result<bool, AllocError>
        ensures keeps { Keeps (seen self.old.kept (state S.Store self.old.conn)) (seen self.new.kept (state S.Store self.new.conn)) }
        ensures open { HasCleanDisk (state S.Store self.new.conn) → result ≡ Ok true → IsTrue (state S.Store self.old.conn).is_open × IsTrue (state S.Store self.new.conn).is_open }
    {
        match self.touch() {
            Ok(()) => Ok(true),
            Err(StoreFault::OutOfMemory) => Err(AllocError),
            Err(_) => Ok(false),
        }
    }

    /// The connection of a store that is done.
    pub fn into_connection(self) -> Connection<S>
        ensures { result ≡ self.conn }
    {
        self.rows.into_connection()
    }

    // Makes a command, over a connection that is open.
    fn make(
        &mut self,
        command: Command<'_>,
        now: Moment,
        checks: &mut Steps,
    ) -> Result<Reply, StoreFault>
        requires { checks.old < 2 ^ 63 }
        ensures does { DoesAt self.old.kept self.new.kept (state S.Store self.old.conn) (state S.Store self.new.conn) (command_view command.entry) now result }
        ensures ticks { Ticks self.old.kept.trusted (command_view command.entry) now checks.old checks.new }
    {
        match command {
            Command::Init(bytes) => self.begin(bytes, now),
            Command::Batch(documents) => self.take_batch(documents, now),
            Command::Offer(offer, bytes) => self.take_offer(offer, bytes, now),
            Command::PutBlob(digest, bytes) => self.put(digest, bytes, now),
            Command::Prune => self.prune(now),
            Command::Metadata(name) => self.metadata(name, now),
            Command::Target(path, asked) => self.target(path, asked, now, checks),
        }
    }

    fn begin(&mut self, bytes: &[u8], now: Moment) -> Result<Reply, StoreFault>
        ensures { DoesAt self.old.kept self.new.kept (state S.Store self.old.conn) (state S.Store self.new.conn) (steps.Init bytes.now) now result }
    {
        self.rests();
        let effects = match init_on(self.alloc(), self.held(), bytes) {
            Ok(Outcome::Changed(effects)) => effects,
            Ok(Outcome::Same) => return Ok(Reply::Begun),
            Err(refusal) => return refused(refusal),
        };
        match self.keep(effects) {
            Ok(()) => Ok(Reply::Begun),
            Err(fault) => Err(fault),
        }
    }

    fn take_offer(
        &mut self,
        offered: &Offer,
        bytes: &[u8],
        now: Moment,
    ) -> Result<Reply, StoreFault>
        ensures { DoesAt self.old.kept self.new.kept (state S.Store self.old.conn) (state S.Store self.new.conn) (steps.OfferOne (offer_view offered.now) bytes.now) now result }
    {
        self.rests();
        let effects = match offer_on(self.alloc(), self.held(), offered, bytes, now) {
            Ok(Outcome::Changed(effects)) => effects,
            Ok(Outcome::Same) => return Ok(Reply::Offered { same: true }),
            Err(refusal) => return refused(refusal),
        };
        match self.keep(effects) {
            Ok(()) => Ok(Reply::Offered { same: false }),
            Err(fault) => Err(fault),
        }
    }

    fn take_batch(&mut self, documents: &[(Offer, &[u8])], now: Moment) -> Result<Reply, StoreFault>
        ensures { DoesAt self.old.kept self.new.kept (state S.Store self.old.conn) (state S.Store self.new.conn) (steps.Batch (documents_view documents.now)) now result }
    {
        self.rests();
        let Batched {
            effects,
            accepted,
            same,
        } = match batch_on(self.alloc(), self.held(), documents, now) {
            Ok(batched) => batched,
            Err(refusal) => return refused_batch(refusal),
        };
        match self.keep(effects) {
            Ok(()) => Ok(Reply::Batch { accepted, same }),
            Err(fault) => Err(fault),
        }
    }

    fn put(&mut self, digest: Digest, bytes: &[u8], now: Moment) -> Result<Reply, StoreFault>
        ensures { DoesAt self.old.kept self.new.kept (state S.Store self.old.conn) (state S.Store self.new.conn) (steps.PutBlob digest.0 bytes.now) now result }
    {
        self.rests();
        let effects = match put_blob_on(self.alloc(), self.held(), &digest, bytes) {
            Ok(Outcome::Changed(effects)) => effects,
            Ok(Outcome::Same) => return Ok(Reply::Stored(false)),
            Err(refusal) => return refused(refusal),
        };
        match self.keep(effects) {
            Ok(()) => Ok(Reply::Stored(true)),
            Err(fault) => Err(fault),
        }
    }

    fn prune(&mut self, now: Moment) -> Result<Reply, StoreFault>
        ensures { DoesAt self.old.kept self.new.kept (state S.Store self.old.conn) (state S.Store self.new.conn) steps.Prune now result }
    {
        self.rests();
        let effects = match prune_on(self.alloc(), self.held()) {
            Ok(Outcome::Changed(effects)) => effects,
            Ok(Outcome::Same) => return Ok(Reply::Pruned { blobs: 0, rows: 0 }),
            Err(refusal) => return refused(refusal),
        };
        let blobs = effects.gone.blobs.len();
        let rows = effects.gone.rows.len();
        match self.keep(effects) {
            Ok(()) => Ok(Reply::Pruned { blobs, rows }),
            Err(fault) => Err(fault),
        }
    }

    fn metadata(&mut self, name: &str, now: Moment) -> Result<Reply, StoreFault>
        ensures { DoesAt self.old.kept self.new.kept (state S.Store self.old.conn) (state S.Store self.new.conn) (steps.Metadata name.now) now result }
    {
        self.rests();
        match self.held().metadata_file(name) {
            Some(bytes) => copied(self.alloc(), bytes),
            None => Ok(Reply::Absent),
        }
    }

    fn target(
        &mut self,
        path: &str,
        asked: Option<Digest>,
        now: Moment,
        checks: &mut Steps,
    ) -> Result<Reply, StoreFault>
        requires { checks.old < 2 ^ 63 }
        ensures does { DoesAt self.old.kept self.new.kept (state S.Store self.old.conn) (state S.Store self.new.conn) (steps.Target path.now (option_map (λ d. d.0) asked)) now result }
        ensures ticks { TicksFew self.old.kept.trusted path.now now checks.old checks.new }
    {
        self.rests();
        match self.load_target(path, asked, now, checks) {
            Ok(served) => Ok(Reply::Bytes(served.bytes)),
            Err(fault) => unserved(fault),
        }
    }

    // What a request for a target serves.
    fn load_target(
        &mut self,
        path: &str,
        asked: Option<Digest>,
        now: Moment,
        checks: &mut Steps,
    ) -> Result<Served, GetFault>
        requires { checks.old < 2 ^ 63 }
        ensures same { self.new.kept ≡ self.old.kept }
        ensures reads { ReadsOnly (state S.Store self.old.conn) (state S.Store self.new.conn) }
        ensures denial { Refuses self.old.kept (λ U. granted.grants U path.now (option_map (λ d. d.0) asked) now) path.now now
            (IsTrue (state S.Store self.old.conn).is_open → IsTrue (state S.Store self.new.conn).is_open) (HasCleanDisk (state S.Store self.new.conn) → IsTrue (state S.Store self.new.conn).is_open) result }
        ensures there { HasCleanDisk (state S.Store self.new.conn) → OnOk result (IsTrue (state S.Store self.new.conn).is_open) }
        ensures answer { HasCleanDisk (state S.Store self.new.conn) → IsTrue (state S.Store self.new.conn).is_open → (U : trust.State) → StandsAt (seen self.old.kept (state S.Store self.old.conn)) U
            → Serves U (granted.grants U path.now (option_map (λ d. d.0) asked) now) result }
        ensures lists { IfOk result (λ s. ListsDigest self.old.kept.trusted path.now (option_map (λ d. d.0) asked) now (sha256 s.bytes.items)) }
        ensures ticks { TicksFew self.old.kept.trusted path.now now checks.old checks.new }
    {
        self.held.is_known();
        target_from_counted(
            self.alloc,
            &self.held,
            &mut self.rows,
            path,
            asked,
            now,
            checks,
        )
    }

    // A store over rows that are those of a state of which this is held.
    pub(crate) fn over(alloc: Global, rows: StoredRows<S>, held: Held) -> Store<S>
        requires { (U : trust.State) × IsStateOf held.held U × (HasCleanDisk (state S.Store rows) → IsTrue (state S.Store rows).is_open → IsStore (state S.Store rows) (rows_of U)) }
        ensures conn { result.conn ≡ rows }
        ensures kept { result.kept ≡ held.held }
    {
        Store { rows, held, alloc }
    }

    // Asks the database for one row, so that nothing is answered from memory where the connection is shut.
    fn touch(&mut self) -> Result<(), StoreFault>
        ensures same { self.new.kept ≡ self.old.kept }
        ensures open { HasCleanDisk (state S.Store self.new.conn) → OnOk result (IsTrue (state S.Store self.old.conn).is_open × IsTrue (state S.Store self.new.conn).is_open) }
        ensures reads { ReadsOnly (state S.Store self.old.conn) (state S.Store self.new.conn) }
        ensures sound { result ≢ Err StoreFault.Damaged }
    {
        self.rows.touch()
    }

    // A law, which does nothing: a store stands at a state, and a crash leaves just the rows of each at which it stands.
    pub(crate) fn rests(&self)
        ensures somewhere { (U : trust.State) × StandsAt (seen self.now.kept (state S.Store self.now.conn)) U }
        ensures left { HasCleanDisk (state S.Store self.now.conn) → IsTrue (state S.Store self.now.conn).is_open → (U : trust.State) → StandsAt (seen self.now.kept (state S.Store self.now.conn)) U
            → (trees : Trees) → (state S.Store self.now.conn).may_leave trees → HoldsWhole trees (rows_of U) }
    {
        self.rows.rests();
    }

    // A law, which does nothing: something is known of the signatures on the shelf, which is true and is all that a search may meet.
    fn is_known(&self)
        ensures { (known : Table) × IsKnown self.now.kept.trusted known }
    {
        self.held.is_known();
    }

    fn alloc(&self) -> Global {
        self.alloc
    }

    // Makes these changes: all memory first, then the rows and their commit, then what is held with no memory.
    fn keep(&mut self, effects: Effects) -> Result<(), StoreFault>
        requires valid { (U : trust.State) → IsStateOf self.old.kept U → IsState (applied U (effects_view effects)) }
        requires known { IsKnown (held_with self.old.kept (effects_view effects)).trusted effects.verdicts }
        ensures done { (U : trust.State) → StandsAt (seen self.old.kept (state S.Store self.old.conn)) U → OnOk result (StandsAt (seen self.new.kept (state S.Store self.new.conn)) (applied U (effects_view effects))) }
        ensures kept { (U : trust.State) → StandsAt (seen self.old.kept (state S.Store self.old.conn)) U → OnErr result (StandsAt (seen self.new.kept (state S.Store self.new.conn)) U) }
        ensures live { HasCleanDisk (state S.Store self.new.conn) → IsTrue (state S.Store self.old.conn).is_open → OnOk result (IsTrue (state S.Store self.new.conn).is_open) }
        ensures crash { HasCleanDisk (state S.Store self.new.conn) → IsTrue (state S.Store self.old.conn).is_open → (U : trust.State) → StandsAt (seen self.old.kept (state S.Store self.old.conn)) U
            → (trees : Trees) → (state S.Store self.new.conn).may_leave trees → HoldsWhole trees (rows_of U) ⊎ HoldsWhole trees (rows_of (applied U (effects_view effects))) }
        ensures sound { result ≢ Err StoreFault.Damaged }
        ensures clean { HasCleanDisk (state S.Store self.new.conn) → HasCleanDisk (state S.Store self.old.conn) }
        ensures outlives { Outlives (state S.Store self.old.conn) (state S.Store self.new.conn) }
    {
        held_follows();
        self.rows.rests();
        self.held.room(&effects)?;
        self.rows.write(self.alloc, &effects)?;
        self.held.take(effects);
        Ok(())
    }
}

// A refusal of the machine: a reply, or want of memory.
fn refused(refusal: Refusal) -> Result<Reply, StoreFault>
    ensures { IsRefusal refusal result }
{
    match refusal {
        Refusal::Denied(denial) => Ok(Reply::Denied(denial, None)),
        Refusal::OutOfMemory => Err(StoreFault::OutOfMemory),
    }
}

// What a request for a target was refused for: a reply, or a fault. A file that should be there and is not is one of the database.
fn unserved(fault: GetFault) -> Result<Reply, StoreFault>
    ensures { IsGetFault fault result }
{
    match fault {
        GetFault::Denied(denial) => Ok(Reply::Denied(denial, None)),
        GetFault::Load(LoadFault::OutOfMemory) => Err(StoreFault::OutOfMemory),
        GetFault::Load(_) => Err(StoreFault::Database),
        GetFault::OutOfMemory => Err(StoreFault::OutOfMemory),
    }
}

// A refusal of a batch: a reply with the index of its document, or want of memory.
fn refused_batch(refusal: BatchRefusal) -> Result<Reply, StoreFault>
    ensures { IsBatchRefusal refusal result }
{
    match refusal {
        BatchRefusal::Denied(denial, index) => Ok(Reply::Denied(denial, Some(index))),
        BatchRefusal::OutOfMemory => Err(StoreFault::OutOfMemory),
    }
}

// A file's bytes as a reply of their own.
fn copied(alloc: Global, bytes: &[u8]) -> Result<Reply, StoreFault>
    ensures { IsCopied bytes.now result }
{
    match Vec::from_slice(alloc, bytes) {
        Ok(bytes) => Ok(Reply::Bytes(bytes)),
        Err(_) => Err(StoreFault::OutOfMemory),
    }
}
