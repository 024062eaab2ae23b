//! The rules that a document has to meet.
use crate::changes::signed_in;
use change_lines::{Names, key_text};
use cli_faults::{Fault, Notes};
use cli_files::Folder;
use drafting::{Look, look_at};
use keys_roles::{KeyId, KeyTable, RoleRule};
use metadata::{Body, Document, Kind};
use std::alloc::{AllocError, Global};
use std::io::Write;

/// A rule, the keys of its table, and the signed part that has them, which may have names for them; the signed part of the same document that
/// is held, if one is; and the role and the version of the document that has the rule.
#[derive(Drop)]
pub struct Vouching {
    pub rule: RoleRule,
    pub keys: KeyTable,
    pub said: Vec<u8>,
    pub held: Option<Vec<u8>>,
    pub of: String,
    pub version: u32,
}

impl Vouching {
    /// A key of the rule, as a person reads it: its name and the first digits of its id. A name that the draft alone gives is marked.
    pub fn key_text(&self, alloc: Global, id: &KeyId) -> Result<String, AllocError> {
        let names = Names {
            held: self.held.as_deref(),
            draft: &self.said,
        };
        key_text(alloc, names, id, false)
    }
}

/// The rules of a role that has its rule in a root, `root` among them, which these roots have, in their order: by the name of each in the
/// folder, its bytes, if it is there. The names for keys of the one that is held count.
pub(crate) fn rules_in_roots<E: Write>(
    alloc: Global,
    folder: Folder<'_>,
    role: &str,
    roots: &[(&str, Option<&[u8]>)],
    held: Option<&[u8]>,
    notes: &mut Notes<'_, E>,
) -> Result<Vec<Vouching>, Fault> {
    let mut rules = Vec::new(alloc);
    for (name, root) in roots {
        if let Some(bytes) = root {
            let mut gathering = InRoot { role, held };
            match look_at(alloc, Kind::Root, bytes, &mut gathering) {
                Ok(Some(vouching)) => rules.push(vouching)?,
                Ok(None) => {}
                Err(fault) => return Err(folder.fault_of(name, Fault::from(fault), notes)),
            }
        }
    }
    Ok(rules)
}

// Looks for the rule of a role in a root.
#[derive(Clone, Copy)]
struct InRoot<'a> {
    role: &'a str,
    held: Option<&'a [u8]>,
}

impl Look for InRoot<'_> {
    type Seen = Option<Vouching>;

    fn look(
        &mut self,
        alloc: Global,
        document: &Document<'_>,
    ) -> Result<Option<Vouching>, AllocError> {
        let Body::Root(root) = &document.body else {
            return Ok(None);
        };
        let Some(rule) = root.rule(self.role) else {
            return Ok(None);
        };
        let mut vouching = vouching_of(alloc, rule, &root.keys, document.signed)?;
        vouching.held = copied(alloc, self.held.map(signed_in))?;
        vouching.of = String::from_str(alloc, "root")?;
        vouching.version = root.version;
        Ok(Some(vouching))
    }
}

/// A rule with its keys.
pub(crate) fn vouching_of(
    alloc: Global,
    rule: &RoleRule,
    keys: &KeyTable,
    said: &[u8],
) -> Result<Vouching, AllocError> {
    let keyids = Vec::from_slice(alloc, &rule.keyids)?;
    let entries = Vec::from_slice(alloc, &keys.entries)?;
    let said = Vec::from_slice(alloc, said)?;
    Ok(Vouching {
        rule: RoleRule {
            keyids,
            threshold: rule.threshold,
        },
        keys: KeyTable { entries },
        said,
        held: None,
        of: String::new(alloc),
        version: 0,
    })
}

pub(crate) fn copied(alloc: Global, bytes: Option<&[u8]>) -> Result<Option<Vec<u8>>, AllocError> {
    match bytes {
        Some(bytes) => Ok(Some(Vec::from_slice(alloc, bytes)?)),
        None => Ok(None),
    }
}
