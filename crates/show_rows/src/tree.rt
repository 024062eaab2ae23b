//! The documents that a repository holds, in the order of a search.
use crate::following::file_of;
use crate::keys::named_key;
use cli_faults::{Denial, Fault};
use cli_repository::Store;
use draft_folder::{Said, SaidRule, read_said};
use keys_roles::KeyId;
use metadata::{Moment, read_signed};
use path_patterns::metadata_name;
use show_limits::document_bytes;
use show_texts::{Covers, Growing, KeyRow, Limits, Overview, Row};
use sqlite::Alter;
use std::alloc::{AllocError, Global};

// More roles than a snapshot lists are not looked at.
const MOST_ROLES: usize = 4096;

/// What is looked at: the rows so far, and what is known of the leaves of keys: their ids, how many are left, and of how many.
#[derive(Drop)]
pub struct Looking<'a> {
    pub alloc: Global,
    pub now: Moment,
    pub shown: Overview,
    leaves: &'a [(KeyId, u32, u32)],
    seen: Vec<String>,
}

impl<'a> Looking<'a> {
    pub fn new(
        alloc: Global,
        now: Moment,
        due: u64,
        leaves: &'a [(KeyId, u32, u32)],
    ) -> Looking<'a> {
        Looking {
            alloc,
            now,
            shown: Overview {
                now: now.seconds(),
                due,
                rows: Vec::new(alloc),
                limits: Limits::default(),
                path: None,
            },
            leaves,
            seen: Vec::new(alloc),
        }
    }

    /// Looks at the root, the targets metadata with what they delegate to, the snapshot and the timestamp, as far as they are held.
    pub fn look<S: Alter>(&mut self, repository: &mut Store<S>) -> Result<(), Fault> {
        let Some(version) = repository.root_version() else {
            return Err(Fault::Denied(Denial::NoRoot, None));
        };
        let name = metadata_name(self.alloc, version, "root")?;
        match file_of(repository, name.as_str(), self.now) {
            Some(bytes) => self.look_below(repository, &bytes),
            None => Ok(()),
        }
    }

    fn look_below<S: Alter>(
        &mut self,
        repository: &mut Store<S>,
        root: &[u8],
    ) -> Result<(), Fault> {
        let said = read_said(self.alloc, "root", root)?;
        self.put_top(root, &said, "root", &said, root.len())?;
        let Some(timestamp) = file_of(repository, "timestamp.json", self.now) else {
            return Ok(());
        };
        let stamp = read_said(self.alloc, "timestamp", &timestamp)?;
        self.look_at_snapshot(
            repository,
            root,
            &said,
            stamp.named("snapshot").unwrap_or(0),
        )?;
        self.put_top(root, &said, "timestamp", &stamp, timestamp.len())
    }

    fn look_at_snapshot<S: Alter>(
        &mut self,
        repository: &mut Store<S>,
        root: &[u8],
        rules: &Said,
        version: u32,
    ) -> Result<(), Fault> {
        let name = metadata_name(self.alloc, version, "snapshot")?;
        let Some(bytes) = file_of(repository, name.as_str(), self.now) else {
            return Ok(());
        };
        let snapshot = read_said(self.alloc, "snapshot", &bytes)?;
        if let Some(rule) = rules.rule("targets") {
            let row = self.row_of(root, rule, 0)?;
            self.look_at_roles(repository, &snapshot, row)?;
        }
        self.put_top(root, rules, "snapshot", &snapshot, bytes.len())
    }

    // Puts the row of one of the four roles of a root, whose document has so many bytes.
    fn put_top(
        &mut self,
        root: &[u8],
        rules: &Said,
        role: &str,
        said: &Said,
        bytes: usize,
    ) -> Result<(), Fault> {
        if let Some(rule) = rules.rule(role) {
            let row = self.row_of(root, rule, 0)?;
            self.put(row, said, bytes)?;
        }
        Ok(())
    }

    // Looks at `targets` and all that it delegates to, each role once.
    fn look_at_roles<S: Alter>(
        &mut self,
        repository: &mut Store<S>,
        snapshot: &Said,
        first: Row,
    ) -> Result<(), Fault> {
        let mut waiting = Vec::new(self.alloc);
        waiting.push(first)?;
        for _ in 0..MOST_ROLES {
            let Some(row) = waiting.pop() else {
                return Ok(());
            };
            if !self.has_seen(row.role.as_str()) {
                self.look_at_role(repository, snapshot, row, &mut waiting)?;
            }
        }
        Ok(())
    }

    fn has_seen(&self, role: &str) -> bool {
        self.seen.iter().any(|seen| seen.as_str() == role)
    }

    fn look_at_role<S: Alter>(
        &mut self,
        repository: &mut Store<S>,
        snapshot: &Said,
        row: Row,
        waiting: &mut Vec<Row>,
    ) -> Result<(), Fault> {
        let role = String::from_str(self.alloc, row.role.as_str())?;
        self.seen.push(role)?;
        let version = snapshot.named(row.role.as_str()).unwrap_or(0);
        let name = self.name_at(row.role.as_str(), version)?;
        match file_of(repository, name.as_str(), self.now) {
            Some(bytes) => self.put_role(row, &bytes, waiting),
            None => Ok(self.shown.rows.push(row)?),
        }
    }

    fn name_at(&self, role: &str, version: u32) -> Result<String, AllocError> {
        metadata_name(self.alloc, version, role)
    }

    // Puts the row of a role, and has the roles wait that it delegates to, the first on top.
    fn put_role(&mut self, row: Row, bytes: &[u8], waiting: &mut Vec<Row>) -> Result<(), Fault> {
        let said = read_said(self.alloc, "targets", bytes)?;
        let depth = row.depth.saturating_add(1);
        self.put(row, &said, bytes.len())?;
        for rule in said.rules.iter().rev() {
            let row = self.row_of(bytes, rule, depth)?;
            waiting.push(row)?;
        }
        Ok(())
    }

    fn put(&mut self, row: Row, said: &Said, bytes: usize) -> Result<(), AllocError> {
        let mut row = row;
        row.version = said.version;
        row.expires = said.expires.map(|expires| expires.seconds());
        row.is_held = true;
        row.bytes = document_bytes(bytes);
        row.targets = said.files.len();
        row.layouts = said.files.iter().filter(|file| file.has_layout).count();
        self.shown.rows.push(row)?;
        Ok(())
    }

    // The row of a role by its rule, in the document that has it.
    fn row_of(&self, bytes: &[u8], rule: &SaidRule, depth: usize) -> Result<Row, Fault> {
        let keys = match read_signed(self.alloc, bytes) {
            Ok(file) => self.keys_of(file.signed, rule)?,
            Err(fault) => return Err(Fault::from(fault)),
        };
        Ok(self.begun(keys, rule, depth)?)
    }

    fn begun(&self, keys: Vec<KeyRow>, rule: &SaidRule, depth: usize) -> Result<Row, AllocError> {
        let role = String::from_str(self.alloc, rule.role.as_str())?;
        let words = self.copied(&rule.covers)?;
        Ok(Row {
            role,
            depth,
            version: 0,
            expires: None,
            threshold: rule.threshold,
            keys,
            covers: Covers {
                words,
                are_prefixes: rule.has_prefixes,
                is_terminating: rule.is_terminating,
            },
            is_held: false,
            bytes: document_bytes(0),
            targets: 0,
            layouts: 0,
        })
    }

    fn copied(&self, texts: &[String]) -> Result<Vec<String>, AllocError> {
        let mut copies = Vec::new(self.alloc);
        for text in texts {
            copies.push(String::from_str(self.alloc, text.as_str())?)?;
        }
        Ok(copies)
    }

    fn keys_of(&self, signed: &[u8], rule: &SaidRule) -> Result<Vec<KeyRow>, AllocError> {
        let mut keys = Growing::new(self.alloc);
        for id in &rule.keyids {
            keys.put(self.key_of(signed, id));
        }
        keys.done()
    }

    fn key_of(&self, signed: &[u8], id: &KeyId) -> Result<KeyRow, AllocError> {
        let (left, most) = self.leaves_of(id);
        let key = named_key(self.alloc, signed, id)?;
        Ok(KeyRow { key, left, most })
    }

    fn leaves_of(&self, id: &KeyId) -> (Option<u32>, u32) {
        for (known, left, most) in self.leaves {
            if known == id {
                return (Some(*left), *most);
            }
        }
        (None, 0)
    }
}
