//! Commands over the store, each answered by one line.
use crate::replies::{due_text, fault_text, reply_text, rows_text, text_of};
use crate::session::Session;
use case_databases::{Command, Reply, StoreFault, cold_search};
use machine::{Offer, Steps, TargetPath};
use metadata::Kind;
use path_patterns::RoleName;
use script_words::{File, LineFault, digest_word, find, key_of, kind_named, with_literals};
use std::alloc::Global;

/// What a document is offered as: `root`, `timestamp`, `snapshot`, or the name of another role.
fn offer_of(alloc: Global, role: &str) -> Result<Offer, LineFault> {
    match RoleName::read(alloc, role)? {
        Some(role) => Ok(Offer::of(role)),
        None => Err(LineFault::NotUnderstood),
    }
}

// The kind of the documents of a role.
fn kind_of(role: &str) -> Kind {
    match kind_named(role) {
        Some(Kind::Root) => Kind::Root,
        Some(Kind::Timestamp) => Kind::Timestamp,
        Some(Kind::Snapshot) => Kind::Snapshot,
        _ => Kind::Targets,
    }
}

// The role and the name of `ROLE:NAME`.
fn role_and_name(word: &str) -> Result<(&str, &str), LineFault> {
    match word.split_once(':') {
        Some(both) => Ok(both),
        None => Err(LineFault::NotUnderstood),
    }
}

// The offers of `ROLE:NAME ..`, each with the bytes of its file.
fn documents_of<'a>(
    alloc: Global,
    text: &str,
    files: &'a [Vec<u8>],
) -> Result<Vec<(Offer, &'a [u8])>, LineFault> {
    let mut documents = Vec::new(alloc);
    for (word, file) in text.split_whitespace().zip(files.iter()) {
        documents.push((offered_in(alloc, word)?, file.as_slice()))?;
    }
    Ok(documents)
}

// What `ROLE:NAME` offers.
fn offered_in(alloc: Global, word: &str) -> Result<Offer, LineFault> {
    let (role, _) = role_and_name(word)?;
    offer_of(alloc, role)
}

// The bytes of the files of `ROLE:NAME ..`.
fn files_named(alloc: Global, files: &[File], text: &str) -> Result<Vec<Vec<u8>>, LineFault> {
    let mut named = Vec::new(alloc);
    for word in text.split_whitespace() {
        named.push(file_named(files, word)?)?;
    }
    Ok(named)
}

fn file_named(files: &[File], word: &str) -> Result<Vec<u8>, LineFault> {
    let (_, name) = role_and_name(word)?;
    Ok(find(files, name)?.bytes.clone()?)
}

impl Session<'_> {
    /// Makes a command. Where memory was refused, the rows have to be as before, and it is made once more.
    pub fn ask(&mut self, command: Command<'_>) -> Result<String, LineFault> {
        let answer = self.base.apply(command, self.now);
        if matches!(answer, Err(StoreFault::OutOfMemory)) {
            return self.ask_again(command);
        }
        self.rows = None;
        reply_text(self.alloc, &self.files, &answer)
    }

    fn ask_again(&mut self, command: Command<'_>) -> Result<String, LineFault> {
        self.refusals = self.refusals.saturating_add(1);
        if !self.has_rows_of_before()? {
            return text_of(self.alloc, "rows are changed by a refusal");
        }
        let answer = self.base.apply(command, self.now);
        self.rows = None;
        reply_text(self.alloc, &self.files, &answer)
    }

    /// Whether the rows are those that were looked at before, where they were.
    pub fn has_rows_of_before(&mut self) -> Result<bool, LineFault> {
        let Some(before) = &self.rows else {
            return Ok(true);
        };
        match self.base.rows(self.alloc) {
            Ok(rows) => Ok(rows.as_slice() == before.as_slice()),
            Err(_) => Err(LineFault::OutOfMemory),
        }
    }

    /// `init DOCUMENT`.
    pub fn init(&mut self, text: &str) -> Result<String, LineFault> {
        let bytes = self.document(Kind::Root, text)?;
        self.ask(Command::Init(&bytes))
    }

    /// `offer ROLE DOCUMENT`.
    pub fn offer(&mut self, text: &str) -> Result<String, LineFault> {
        let (role, text) = text.split_once(' ').unwrap_or((text, ""));
        let bytes = self.document(kind_of(role), text)?;
        let offer = offer_of(self.alloc, role)?;
        self.ask(Command::Offer(&offer, &bytes))
    }

    /// `batch ROLE:NAME ..`.
    pub fn batch(&mut self, text: &str) -> Result<String, LineFault> {
        let files = files_named(self.alloc, &self.files, text)?;
        let documents = documents_of(self.alloc, text, &files)?;
        self.ask(Command::Batch(&documents))
    }

    /// `put DIGEST NAME`.
    pub fn put(&mut self, text: &str) -> Result<String, LineFault> {
        let Some((digest, name)) = text.split_once(' ') else {
            return Err(LineFault::NotUnderstood);
        };
        let digest = digest_word(&self.files, digest)?;
        let bytes = find(&self.files, name)?.bytes.clone()?;
        self.ask(Command::PutBlob(digest, &bytes))
    }

    /// `prune`.
    pub fn prune(&mut self) -> Result<String, LineFault> {
        self.ask(Command::Prune)
    }

    /// `get PATH [DIGEST]`.
    pub fn get(&mut self, text: &str) -> Result<String, LineFault> {
        match text.split_once(' ') {
            Some((path, digest)) => {
                let digest = digest_word(&self.files, digest)?;
                self.ask(Command::Target(path, Some(digest)))
            }
            None => self.ask(Command::Target(text, None)),
        }
    }

    /// `metadata NAME`.
    pub fn metadata(&mut self, text: &str) -> Result<String, LineFault> {
        self.ask(Command::Metadata(text))
    }

    /// `due`: the trusted root's version, and the snapshot version that is due.
    pub fn due(&mut self) -> Result<String, LineFault> {
        let alloc = self.alloc;
        let Some(store) = self.base.store() else {
            return text_of(alloc, "shut");
        };
        due_text(alloc, store.root_version(), store.snapshot_due())
    }

    /// `checks PATH`: how many signatures a request for the target checks.
    pub fn checks(&mut self, text: &str) -> Result<String, LineFault> {
        match TargetPath::read(self.alloc, text)? {
            Some(path) => self.checks_of(&path),
            None => Err(LineFault::NotUnderstood),
        }
    }

    fn checks_of(&mut self, path: &TargetPath) -> Result<String, LineFault> {
        let alloc = self.alloc;
        let now = self.now;
        let Some(store) = self.base.store() else {
            return text_of(alloc, "shut");
        };
        let mut checks = Steps::new();
        let _ = store.get_counted(path, now, &mut checks);
        let count = checks.count();
        Ok(format!(in alloc; "{count} checks")?)
    }

    /// `cold PATH`: how many signatures a search for the target checks, and how many roles it visits, where nothing is known.
    pub fn cold(&mut self, text: &str) -> Result<String, LineFault> {
        match TargetPath::read(self.alloc, text)? {
            Some(path) => self.cold_of(&path),
            None => Err(LineFault::NotUnderstood),
        }
    }

    fn cold_of(&mut self, path: &TargetPath) -> Result<String, LineFault> {
        let alloc = self.alloc;
        let Some(store) = self.base.store() else {
            return text_of(alloc, "shut");
        };
        let Some(version) = store.root_version() else {
            return text_of(alloc, "no root");
        };
        let (checks, visits) = cold_search(alloc, store.held(), version, path, self.now)?;
        Ok(format!(in alloc; "{checks} checks, {visits} visits")?)
    }

    /// `equal NAME NAME`: whether two files have the same bytes.
    pub fn equal(&self, text: &str) -> Result<String, LineFault> {
        let Some((first, second)) = text.split_once(' ') else {
            return Err(LineFault::NotUnderstood);
        };
        let is_same = find(&self.files, first)?.bytes == find(&self.files, second)?.bytes;
        text_of(self.alloc, if is_same { "equal" } else { "different" })
    }

    /// `key KEY`: the id of the key, and the key.
    pub fn key(&mut self, text: &str) -> Result<String, LineFault> {
        let key = key_of(text)?;
        self.keys.make(key)?;
        let id = self.keys.id(key)?;
        let public = self.keys.public(key)?;
        Ok(format!(in self.alloc; "{id} {public}")?)
    }

    /// `case NAME`: a new database, and an empty store over it. Where memory was refused, once more.
    pub fn begin_case(&mut self, line: &str) -> Result<String, LineFault> {
        let mut opened = self.base.begin(self.alloc);
        if matches!(opened, Err(StoreFault::OutOfMemory)) {
            self.refusals = self.refusals.saturating_add(1);
            opened = self.base.begin(self.alloc);
        }
        self.rows = None;
        match opened {
            Ok(()) => text_of(self.alloc, line),
            Err(fault) => text_of(self.alloc, fault_text(fault)),
        }
    }

    /// `reopen`: opens a store over what the tables hold now. Where memory was refused, once more, if the connection is left.
    pub fn reopen(&mut self) -> Result<String, LineFault> {
        let mut opened = self.base.open(self.alloc);
        if matches!(opened, Err(StoreFault::OutOfMemory)) {
            if self.base.is_gone() {
                return Err(LineFault::OutOfMemory);
            }
            self.refusals = self.refusals.saturating_add(1);
            opened = self.base.open(self.alloc);
        }
        let text = match opened {
            Ok(()) => "opened",
            Err(fault) => fault_text(fault),
        };
        text_of(self.alloc, text)
    }

    /// `sql TEXT`: changes the tables behind the store's back.
    pub fn execute(&mut self, text: &str) -> Result<String, LineFault> {
        let text = with_literals(self.alloc, &self.files, text)?;
        self.rows = None;
        let done = self.base.execute(text.as_str());
        text_of(self.alloc, if done.is_ok() { "done" } else { "failed" })
    }

    /// `rows`: a line for each row of the six tables.
    pub fn look(&mut self) -> Result<String, LineFault> {
        let mut rows = self.base.rows(self.alloc);
        if rows.is_err() {
            rows = self.base.rows(self.alloc);
        }
        let Ok(rows) = rows else {
            return Err(LineFault::OutOfMemory);
        };
        let text = rows_text(self.alloc, &self.files, &rows);
        self.rows = Some(rows);
        text
    }
}
