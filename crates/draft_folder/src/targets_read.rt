//! The rules of a folder's documents, where the targets metadata that have them are read once.
use crate::chains::{layout_in, links_in};
use crate::changes::signed_in;
use crate::counting::{count_of, meets_in};
use crate::said::{Said, read_said_of};
use crate::vouching::{Vouching, copied, rules_in_roots, vouching_of};
use cli_faults::{Fault, Notes, Slip};
use cli_files::Folder;
use drafting::{Look, look_at, version_of};
use keys_roles::{KeyId, KeyTable, RoleRule};
use metadata::{Body, Delegations, Document, Kind, Listing, read_signed};
use std::alloc::{AllocError, Global};
use std::io::Write;

/// The rules of roles and of the owners of layouts, by the documents of a folder. Targets metadata are read where they are asked for first; of
/// a draft that is written after that it has to be told.
#[derive(Drop)]
pub struct TargetsRead<'a> {
    alloc: Global,
    folder: Folder<'a>,
    drafts: Option<Vec<Known>>,
    held: Option<Vec<Known>>,
}

// Targets metadata, drafted or held, by their role; whether their rules count, which are those of a draft where there is one; and what they
// list, once they are read.
#[derive(Drop)]
struct Known {
    role: String,
    is_draft: bool,
    counts: bool,
    listed: Option<Listed>,
}

// The signed part and the version; the rule of each role that is delegated to, and the table that has their keys; the rule of the owners of
// each layout, by its target; and the signed part of what is held of the role.
#[derive(Drop)]
struct Listed {
    said: Vec<u8>,
    version: u32,
    rules: Vec<(String, RoleRule)>,
    keys: KeyTable,
    owners: Vec<(String, Vouching)>,
    held: Option<Vec<u8>>,
}

// For what a document is read: for the rules of roles, where a denial is told with the document's name, or for owners of layouts.
#[derive(Clone, Copy, PartialEq, Eq)]
enum Asked {
    Rules,
    Owners,
}

/// The rules of one role, as `TargetsRead` has them.
pub fn rules_for<E: Write>(
    alloc: Global,
    folder: Folder<'_>,
    role: &str,
    notes: &mut Notes<'_, E>,
) -> Result<Vec<Vouching>, Fault> {
    TargetsRead::new(alloc, folder).rules(role, notes)
}

/// The rules of the owners of one layout, as `TargetsRead` has them.
pub fn owners_of<E: Write>(
    alloc: Global,
    folder: Folder<'_>,
    target: &str,
    notes: &mut Notes<'_, E>,
) -> Result<Vec<Vouching>, Fault> {
    TargetsRead::new(alloc, folder).owners(target, notes)
}

impl<'a> TargetsRead<'a> {
    pub fn new(alloc: Global, folder: Folder<'a>) -> TargetsRead<'a> {
        TargetsRead {
            alloc,
            folder,
            drafts: None,
            held: None,
        }
    }

    /// The same by what is held alone, of delegated roles.
    pub(crate) fn of_held(alloc: Global, folder: Folder<'a>) -> TargetsRead<'a> {
        let mut read = TargetsRead::new(alloc, folder);
        read.drafts = Some(Vec::new(alloc));
        read
    }

    /// The draft at this place in the folder was written, and is read again.
    pub fn written(&mut self, place: &str) {
        if let (Some(drafts), Some(role)) = (&mut self.drafts, place.strip_suffix(".json")) {
            for known in drafts {
                if known.role.as_str() == role {
                    known.listed = None;
                }
            }
        }
    }

    /// The rules of a role: of a root those of the root that is held and its own, of another role that has its rule in the root the last root's,
    /// of a delegated role that of each targets metadata that delegates to it. What is drafted stands before what is held.
    pub fn rules<E: Write>(
        &mut self,
        role: &str,
        notes: &mut Notes<'_, E>,
    ) -> Result<Vec<Vouching>, Fault> {
        let (alloc, folder) = (self.alloc, self.folder);
        match role {
            "root" => {
                let held = folder.held("root", notes)?;
                let draft = folder.draft("root", notes)?;
                let roots = [
                    ("held/root.json", held.as_deref()),
                    ("root.json", draft.as_deref()),
                ];
                rules_in_roots(alloc, folder, role, &roots, held.as_deref(), notes)
            }
            "targets" | "snapshot" | "timestamp" => {
                let held = folder.held("root", notes)?;
                let (latest, name) = folder.latest_named("root", notes)?;
                let roots = [(name.as_str(), latest.as_deref())];
                rules_in_roots(alloc, folder, role, &roots, held.as_deref(), notes)
            }
            _ => {
                self.read_drafts(Asked::Rules, notes)?;
                self.read_held(Asked::Rules, notes)?;
                Ok(self.delegated(role)?)
            }
        }
    }

    // The rules of a delegated role, of what is read.
    fn delegated(&self, role: &str) -> Result<Vec<Vouching>, AllocError> {
        let mut rules = Vec::new(self.alloc);
        for list in [&self.drafts, &self.held] {
            for known in list.as_deref().unwrap_or(&[]) {
                known.add_rules(self.alloc, role, &mut rules)?;
            }
        }
        Ok(rules)
    }

    /// Whether one of the rules of a role has the key.
    pub fn have_key<E: Write>(
        &mut self,
        role: &str,
        id: &KeyId,
        notes: &mut Notes<'_, E>,
    ) -> Result<bool, Fault> {
        let rules = self.rules(role, notes)?;
        Ok(
            rules
                .iter()
                .any(|vouching| vouching.rule.keyids.contains(id)),
        )
    }

    /// Each draft that a snapshot or timestamp is over has the signatures that its rules ask for. Bytes that are no document of a role are
    /// denied by the first check that fails.
    pub fn see_signatures<E: Write>(
        &mut self,
        over: &str,
        notes: &mut Notes<'_, E>,
    ) -> Result<(), Fault> {
        for under in &self.folder.roles(notes)? {
            let under = under.as_str();
            let is_under = under != "timestamp" && !(over == "snapshot" && under == "snapshot");
            if is_under && !self.has_signatures(under, notes)? {
                notes.warn(
                    &under,
                    &"too few signatures: a change of it would cost a snapshot and a timestamp",
                );
                return Err(Fault::Slip(Slip::Order));
            }
        }
        Ok(())
    }

    fn has_signatures<E: Write>(
        &mut self,
        role: &str,
        notes: &mut Notes<'_, E>,
    ) -> Result<bool, Fault> {
        let rules = self.rules(role, notes)?;
        let bytes = self.folder.draft_or_none(role, notes)?;
        meets_in(self.alloc, role, &rules, &bytes)
    }

    /// The rule of the owners of a target's layout, by the targets metadata that refer the target to it: drafts, or else what is held.
    pub fn owners<E: Write>(
        &mut self,
        target: &str,
        notes: &mut Notes<'_, E>,
    ) -> Result<Vec<Vouching>, Fault> {
        self.read_drafts(Asked::Owners, notes)?;
        let owners = owners_in(self.alloc, &self.drafts, target)?;
        if !owners.is_empty() {
            return Ok(owners);
        }
        self.read_held(Asked::Owners, notes)?;
        Ok(owners_in(self.alloc, &self.held, target)?)
    }

    /// Whether enough of the owners of a target's layout have signed the file.
    pub fn owners_have_signed<E: Write>(
        &mut self,
        target: &str,
        bytes: &[u8],
        notes: &mut Notes<'_, E>,
    ) -> Result<bool, Fault> {
        let owners = self.owners(target, notes)?;
        let file = read_signed(self.alloc, bytes)?;
        for vouching in &owners {
            if !count_of(self.alloc, vouching, &file)?.is_met() {
                return Ok(false);
            }
        }
        Ok(true)
    }

    /// The first target of targets metadata whose layout is on its way and is not finished: its owners have not signed, or a step lacks links.
    pub fn unfinished_layout<E: Write>(
        &mut self,
        said: &Said,
        notes: &mut Notes<'_, E>,
    ) -> Result<Option<String>, Fault> {
        for file in &said.files {
            if file.has_layout && self.is_unfinished(file.path.as_str(), notes)? {
                return Ok(Some(String::from_str(self.alloc, file.path.as_str())?));
            }
        }
        Ok(None)
    }

    fn is_unfinished<E: Write>(
        &mut self,
        target: &str,
        notes: &mut Notes<'_, E>,
    ) -> Result<bool, Fault> {
        let (alloc, folder) = (self.alloc, self.folder);
        let Some(bytes) = layout_in(alloc, folder, target, notes)? else {
            return Ok(false);
        };
        if !self.owners_have_signed(target, &bytes, notes)? {
            return Ok(true);
        }
        let layout = read_said_of(alloc, Kind::Layout, &bytes)?;
        for rule in &layout.rules {
            let links = links_in(alloc, folder, target, &layout, rule.role.as_str(), notes)?;
            if links < usize::from(rule.threshold) {
                return Ok(true);
            }
        }
        Ok(false)
    }

    fn read_drafts<E: Write>(
        &mut self,
        asked: Asked,
        notes: &mut Notes<'_, E>,
    ) -> Result<(), Fault> {
        let (alloc, folder) = (self.alloc, self.folder);
        if self.drafts.is_none() {
            self.drafts = Some(known_of(alloc, &folder.roles(notes)?, None)?);
        }
        read_all(alloc, folder, &mut self.drafts, asked, notes)
    }

    fn read_held<E: Write>(&mut self, asked: Asked, notes: &mut Notes<'_, E>) -> Result<(), Fault> {
        let (alloc, folder) = (self.alloc, self.folder);
        if self.held.is_none() {
            let drafts = self.drafts.as_deref();
            self.held = Some(known_of(alloc, &folder.held_roles(notes)?, drafts)?);
        }
        read_all(alloc, folder, &mut self.held, asked, notes)
    }
}

// The targets metadata of these roles, which are drafts, or else are held beside drafts.
fn known_of(
    alloc: Global,
    roles: &[String],
    beside: Option<&[Known]>,
) -> Result<Vec<Known>, AllocError> {
    let mut list = Vec::new(alloc);
    for role in roles {
        if Kind::of_role(role.as_str()) == Kind::Targets {
            let is_drafted = beside.is_some_and(|drafts| drafts
                .iter()
                .any(|known| known.role == *role));
            list.push(Known {
                role: String::from_str(alloc, role.as_str())?,
                is_draft: beside.is_none(),
                counts: !is_drafted,
                listed: None,
            })?;
        }
    }
    Ok(list)
}

fn read_all<E: Write>(
    alloc: Global,
    folder: Folder<'_>,
    list: &mut Option<Vec<Known>>,
    asked: Asked,
    notes: &mut Notes<'_, E>,
) -> Result<(), Fault> {
    if let Some(list) = list {
        for known in list {
            if known.listed.is_none() && (known.counts || asked == Asked::Owners) {
                known.listed = known.read(alloc, folder, asked, notes)?;
            }
        }
    }
    Ok(())
}

fn owners_in(
    alloc: Global,
    list: &Option<Vec<Known>>,
    target: &str,
) -> Result<Vec<Vouching>, AllocError> {
    let mut found = Vec::new(alloc);
    for known in list.as_deref().unwrap_or(&[]) {
        if let Some(listed) = &known.listed {
            listed.add_owners(alloc, target, &mut found)?;
        }
    }
    Ok(found)
}

impl Known {
    // What the document lists, if it is there. Beside a draft what is held is looked at, for the names of its keys.
    fn read<E: Write>(
        &self,
        alloc: Global,
        folder: Folder<'_>,
        asked: Asked,
        notes: &mut Notes<'_, E>,
    ) -> Result<Option<Listed>, Fault> {
        let role = self.role.as_str();
        let held = folder.held(role, notes)?;
        let held = held.as_deref();
        let (draft, place) = if self.is_draft {
            folder.latest_named(role, notes)?
        } else {
            (None, format!(in alloc; "held/{role}.json")?)
        };
        let bytes = if self.is_draft {
            draft.as_deref()
        } else {
            held
        };
        let Some(bytes) = bytes else {
            return Ok(None);
        };
        match (
            look_at(alloc, Kind::Targets, bytes, &mut Reading { held }),
            asked,
        ) {
            (Ok(listed), _) => Ok(Some(listed)),
            (Err(fault), Asked::Owners) => Err(Fault::from(fault)),
            (Err(fault), Asked::Rules) => {
                Err(folder.fault_of(place.as_str(), Fault::from(fault), notes))
            }
        }
    }

    // Adds the rules that the document has for a role, where they count.
    fn add_rules(
        &self,
        alloc: Global,
        role: &str,
        rules: &mut Vec<Vouching>,
    ) -> Result<(), AllocError> {
        let (true, Some(listed)) = (self.counts, &self.listed) else {
            return Ok(());
        };
        for (of, rule) in &listed.rules {
            if of.as_str() == role {
                let mut vouching = vouching_of(alloc, rule, &listed.keys, &listed.said)?;
                vouching.held = copied(alloc, listed.held.as_deref())?;
                vouching.of = String::from_str(alloc, self.role.as_str())?;
                vouching.version = listed.version;
                rules.push(vouching)?;
            }
        }
        Ok(())
    }
}

impl Listed {
    // Adds the rule of the owners of a target's layout.
    fn add_owners(
        &self,
        alloc: Global,
        target: &str,
        found: &mut Vec<Vouching>,
    ) -> Result<(), AllocError> {
        for (of, owners) in &self.owners {
            if of.as_str() == target {
                found.push(vouching_of(alloc, &owners.rule, &owners.keys, &self.said)?)?;
            }
        }
        Ok(())
    }

    fn read_rules(&mut self, alloc: Global, delegations: &Delegations) -> Result<(), AllocError> {
        self.keys.entries = Vec::from_slice(alloc, &delegations.keys.entries)?;
        for delegation in &delegations.roles {
            let role = String::from_str(alloc, delegation.name.as_str())?;
            let keyids = Vec::from_slice(alloc, &delegation.rule.keyids)?;
            let threshold = delegation.rule.threshold;
            self.rules.push((role, RoleRule { keyids, threshold }))?;
        }
        Ok(())
    }

    fn read_owners(&mut self, alloc: Global, listings: &[Listing]) -> Result<(), AllocError> {
        for listing in listings {
            if let Some(layout) = &listing.layout {
                let target = String::from_str(alloc, listing.path.as_str())?;
                let owners = vouching_of(alloc, &layout.owners, &layout.keys, &[])?;
                self.owners.push((target, owners))?;
            }
        }
        Ok(())
    }
}

// Reads what targets metadata list, beside what is held of their role.
#[derive(Clone, Copy)]
struct Reading<'a> {
    held: Option<&'a [u8]>,
}

impl Look for Reading<'_> {
    type Seen = Listed;

    fn look(&mut self, alloc: Global, document: &Document<'_>) -> Result<Listed, AllocError> {
        let mut listed = Listed {
            said: Vec::from_slice(alloc, document.signed)?,
            version: version_of(&document.body),
            rules: Vec::new(alloc),
            keys: KeyTable {
                entries: Vec::new(alloc),
            },
            owners: Vec::new(alloc),
            held: copied(alloc, self.held.map(signed_in))?,
        };
        if let Body::Targets(targets) = &document.body {
            listed.read_owners(alloc, &targets.targets)?;
            if let Some(delegations) = &targets.delegations {
                listed.read_rules(alloc, delegations)?;
            }
        }
        Ok(listed)
    }
}
