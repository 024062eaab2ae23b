//! What keys sign in a folder: one alone, or each document by one of several.
use crate::choosing::Standing;
use crate::one::{One, What};
use crate::ready::ReadyKey;
use crate::signing::Signing;
use cli_faults::{Fault, Notes, Slip};
use cli_files::FolderLock;
use cli_tasks::FolderSigning;
use draft_folder::{Folder, sign_order, target_of_layout};
use metadata::{Moment, read_signed};
use std::alloc::Global;
use std::io::Write;

/// How many documents were signed, and how many were asked for and not agreed to.
#[derive(Clone, Copy, Default)]
pub struct Signed {
    done: u64,
    declined: u64,
}

impl Signed {
    /// More documents were signed.
    pub fn add(&mut self, more: Signed) {
        self.done = self.done.saturating_add(more.done);
        self.declined = self.declined.saturating_add(more.declined);
    }

    /// Nothing signed is told by why it was not.
    pub fn end<E: Write>(&self, folder: &str, notes: &mut Notes<'_, E>) -> Result<(), Fault> {
        if self.done > 0 {
            return Ok(());
        }
        let why = if self.declined > 0 {
            "nothing is signed: no question was answered by y"
        } else {
            "no document that the key may sign and has not signed"
        };
        notes.warn(&folder, &why);
        Err(Fault::Slip(Slip::Nothing))
    }
}

/// A signing by one key, or by several of which one signs each document: the first that keeps a leaf for it, else the first that has a leaf left.
#[derive(Drop)]
pub struct Turn<'a> {
    rt: &'a HostRuntime,
    asked: &'a FolderSigning,
    folder: Folder<'a>,
    keys: Vec<Signing<'a>>,
    // the key that signs the first document, once this is judged
    first: Option<usize>,
    is_signing: bool,
    pub signed: Signed,
}

impl<'a> Turn<'a> {
    pub fn new(
        rt: &'a HostRuntime,
        asked: &'a FolderSigning,
        ready: &'a [ReadyKey],
        now: Moment,
    ) -> Result<Turn<'a>, Fault> {
        let mut keys = Vec::new(rt.alloc());
        for key in ready {
            keys.push(Signing::new(rt, asked, key, now))?;
        }
        Ok(Turn {
            rt,
            asked,
            folder: Folder::new(rt, asked.folder.as_str()),
            keys,
            first: None,
            is_signing: false,
            signed: Signed::default(),
        })
    }
}

impl Turn<'_> {
    fn alloc(&self) -> Global {
        self.rt.alloc()
    }

    /// The books are asked, and the first document is judged, before a tree is hashed, which may take seconds. Where there is no document,
    /// nothing is hashed. Where nobody is asked, no other command writes in the folder until all is signed, so it is read once.
    pub fn sign_all<O: Write, E: Write>(
        &mut self,
        out: &mut O,
        notes: &mut Notes<'_, E>,
    ) -> Result<(), Fault> {
        let roles = self.roles(notes)?;
        self.sign_each(&roles, out, notes)?;
        let Some(first) = self.first else {
            return Ok(());
        };
        if let Some(key) = self.keys.get_mut(first) {
            key.hash(notes)?;
        }
        self.is_signing = true;
        let _lock = if self.asked.yes {
            Some(self.locked(notes)?)
        } else {
            None
        };
        self.sign_each(&roles, out, notes)
    }

    // No other command writes in the folder, which is read again.
    fn locked<E: Write>(&mut self, notes: &mut Notes<'_, E>) -> Result<FolderLock, Fault> {
        let lock = self.folder.lock(notes)?;
        for key in &mut self.keys {
            key.judged.forget();
        }
        Ok(lock)
    }

    // Signs the documents of these roles, and layouts and links, in their order. Before anything is signed the first of them is judged alone.
    fn sign_each<O: Write, E: Write>(
        &mut self,
        roles: &[String],
        out: &mut O,
        notes: &mut Notes<'_, E>,
    ) -> Result<(), Fault> {
        for order in 0..5u8 {
            for role in roles {
                if sign_order(role.as_str()) == order {
                    let place = format!(in self.alloc(); "{role}.json")?;
                    let (what, place) = (What::Draft(role.as_str()), place.as_str());
                    self.sign_one(One { what, place }, out, notes)?;
                }
            }
            if order == 0 {
                self.sign_layouts(out, notes)?;
                self.sign_links(out, notes)?;
            }
        }
        Ok(())
    }

    // Signs the layouts that are named, or whose owners have a key and that lack the keys' signatures.
    fn sign_layouts<O: Write, E: Write>(
        &mut self,
        out: &mut O,
        notes: &mut Notes<'_, E>,
    ) -> Result<(), Fault> {
        for name in &self.folder.chain_files("layouts", notes)? {
            let name = name.as_str();
            if let Some(target) = target_of_layout(self.alloc(), name)? {
                self.sign_layout(name, target.as_str(), out, notes)?;
            }
        }
        Ok(())
    }

    // Signs the layout of a target, if it is wanted.
    fn sign_layout<O: Write, E: Write>(
        &mut self,
        name: &str,
        target: &str,
        out: &mut O,
        notes: &mut Notes<'_, E>,
    ) -> Result<(), Fault> {
        let place = format!(in self.alloc(); "layouts/{name}")?;
        let place = place.as_str();
        if !self.is_layout_wanted(name, target, place, notes)? {
            return Ok(());
        }
        let what = What::Layout(target);
        self.sign_one(One { what, place }, out, notes)
    }

    fn is_layout_wanted<E: Write>(
        &mut self,
        name: &str,
        target: &str,
        place: &str,
        notes: &mut Notes<'_, E>,
    ) -> Result<bool, Fault> {
        if !self.asked.documents.is_empty() {
            return Ok(self.is_asked(name));
        }
        let bytes = self.folder.file_or_none(place, notes)?;
        Ok(self.has_owner(target, notes)? && !self.have_signed(&bytes)?)
    }

    // Signs the links that are named, or all that have no signature: a link has one.
    fn sign_links<O: Write, E: Write>(
        &mut self,
        out: &mut O,
        notes: &mut Notes<'_, E>,
    ) -> Result<(), Fault> {
        for name in &self.folder.chain_files("links", notes)? {
            self.sign_link(name.as_str(), out, notes)?;
        }
        Ok(())
    }

    // Signs a link, if it is wanted.
    fn sign_link<O: Write, E: Write>(
        &mut self,
        name: &str,
        out: &mut O,
        notes: &mut Notes<'_, E>,
    ) -> Result<(), Fault> {
        let place = format!(in self.alloc(); "links/{name}")?;
        let place = place.as_str();
        let bytes = self.folder.file_or_none(place, notes)?;
        let is_wanted = self.asked.documents.is_empty() || self.is_asked(name);
        if !is_wanted || !is_unsigned(self.alloc(), &bytes)? {
            return Ok(());
        }
        let what = What::Link(name);
        self.sign_one(One { what, place }, out, notes)
    }

    // Whether a document is named, with its ending or without.
    fn is_asked(&self, name: &str) -> bool {
        let name = name.strip_suffix(".json").unwrap_or(name);
        for word in &self.asked.documents {
            if is_named(word.as_str(), name) {
                return true;
            }
        }
        false
    }

    // Whether one of the keys has signed the file.
    fn have_signed(&self, bytes: &[u8]) -> Result<bool, Fault> {
        let file = read_signed(self.alloc(), bytes)?;
        for key in &self.keys {
            if key.judged.signer.has_signed(&file) {
                return Ok(true);
            }
        }
        Ok(false)
    }

    // The roles of the documents to sign: those that are named, or of all drafts those that a key may sign and none has signed.
    fn roles<E: Write>(&mut self, notes: &mut Notes<'_, E>) -> Result<Vec<String>, Fault> {
        let mut roles = Vec::new(self.alloc());
        let asked = self.asked;
        for role in &self.folder.roles(notes)? {
            let is_wanted = if asked.documents.is_empty() {
                self.may_sign(role.as_str(), notes)?
            } else {
                self.is_asked(role.as_str())
            };
            if is_wanted {
                roles.push(String::from_str(self.alloc(), role.as_str())?)?;
            }
        }
        Ok(roles)
    }

    // Whether a rule of the role has one of the keys, and none of them has signed the draft.
    fn may_sign<E: Write>(&mut self, role: &str, notes: &mut Notes<'_, E>) -> Result<bool, Fault> {
        if !self.has_rule(role, notes)? {
            return Ok(false);
        }
        let bytes = self.folder.draft_or_none(role, notes)?;
        Ok(!self.have_signed(&bytes)?)
    }

    // Whether a rule of the role has one of the keys.
    fn has_rule<E: Write>(&mut self, role: &str, notes: &mut Notes<'_, E>) -> Result<bool, Fault> {
        for key in &mut self.keys {
            if key.judged.has_rule(role, notes)? {
                return Ok(true);
            }
        }
        Ok(false)
    }

    // Whether the owners of a target's layout have one of the keys.
    fn has_owner<E: Write>(
        &mut self,
        target: &str,
        notes: &mut Notes<'_, E>,
    ) -> Result<bool, Fault> {
        for key in &mut self.keys {
            if key.judged.is_owner(target, notes)? {
                return Ok(true);
            }
        }
        Ok(false)
    }

    // Signs one document, by the key that is chosen for it, if the operator agrees.
    fn sign_one<O: Write, E: Write>(
        &mut self,
        one: One<'_>,
        out: &mut O,
        notes: &mut Notes<'_, E>,
    ) -> Result<(), Fault> {
        self.see_each_key(one, notes)?;
        if !self.is_signing {
            return self.judge_first(one, notes);
        }
        let bytes = self.folder.file_or_none(one.place, notes)?;
        let index = self.chosen(one, &bytes, notes)?;
        let Some(key) = self.keys.get_mut(index) else {
            return Ok(());
        };
        if !key.sign(one, &bytes, out, notes)? {
            self.signed.declined = self.signed.declined.saturating_add(1);
            return Ok(());
        }
        for key in &mut self.keys {
            key.judged.written(one.place);
        }
        self.signed.done = self.signed.done.saturating_add(1);
        Ok(())
    }

    // Judges a document, if it is the first one.
    fn judge_first<E: Write>(
        &mut self,
        one: One<'_>,
        notes: &mut Notes<'_, E>,
    ) -> Result<(), Fault> {
        if self.first.is_some() {
            return Ok(());
        }
        let bytes = self.folder.file_or_none(one.place, notes)?;
        let index = self.chosen(one, &bytes, notes)?;
        self.first = Some(index);
        match self.keys.get_mut(index) {
            Some(key) => key.judge(one, &bytes, notes),
            None => Ok(()),
        }
    }

    // Of several keys each may sign it.
    fn see_each_key<E: Write>(
        &mut self,
        one: One<'_>,
        notes: &mut Notes<'_, E>,
    ) -> Result<(), Fault> {
        if self.keys.len() < 2 {
            return Ok(());
        }
        for key in &mut self.keys {
            key.see_rule(one, notes)?;
        }
        Ok(())
    }

    // The place of the key that signs a document. What is no document is the first one's, which judges it.
    fn chosen<E: Write>(
        &self,
        one: One<'_>,
        bytes: &[u8],
        notes: &mut Notes<'_, E>,
    ) -> Result<usize, Fault> {
        if self.keys.len() < 2 {
            return Ok(0);
        }
        let Ok(file) = read_signed(self.alloc(), bytes) else {
            return Ok(0);
        };
        let (mut open, mut other) = (None, None);
        for (index, key) in self.keys.iter().enumerate() {
            match key.standing(bytes, file.signed, notes)? {
                Standing::Keeps => return Ok(index),
                Standing::Other => other = Some(index),
                Standing::HasLeaf if open.is_none() => open = Some(index),
                Standing::HasLeaf | Standing::Spent => {}
            }
        }
        self.see_other(other, notes)?;
        match (open, other) {
            (Some(index), _) | (None, Some(index)) => Ok(index),
            (None, None) => Err(self.spent(one, notes)),
        }
    }

    // No key of the list has signed another document of the kind and version, if that is not asked for.
    fn see_other<E: Write>(
        &self,
        other: Option<usize>,
        notes: &mut Notes<'_, E>,
    ) -> Result<(), Fault> {
        let (Some(index), false) = (other, self.asked.again) else {
            return Ok(());
        };
        if let Some(key) = self.keys.get(index) {
            key.tell_other(notes);
        }
        Err(Fault::Slip(Slip::Other))
    }

    // Tells that no key has a leaf left, and what is to be done.
    fn spent<E: Write>(&self, one: One<'_>, notes: &mut Notes<'_, E>) -> Fault {
        for key in &self.keys {
            key.tell_spent(notes);
        }
        notes.fault(
            &one.name(),
            &"no key of the list has a leaf left: make one by 'release key --new NAME', and put it into the rule by 'release draft'",
        );
        Fault::LeavesSpent
    }
}

// Whether the file has no entry.
fn is_unsigned(alloc: Global, bytes: &[u8]) -> Result<bool, Fault> {
    match read_signed(alloc, bytes) {
        Ok(file) => Ok(file.signatures.is_empty()),
        Err(fault) => Err(Fault::from(fault)),
    }
}

// Whether a word names a role's document, with its ending or without.
fn is_named(word: &str, role: &str) -> bool {
    word.strip_suffix(".json").unwrap_or(word) == role
}
