//! What a document says, as far as drafts are about it.
use canonical_json::member;
use cli_faults::{Fault, Notes, expiry_of};
use cli_files::Folder;
use drafting::{Look, look_at, version_of};
use keys_roles::{KeyId, RoleRule};
use metadata::{
    Body, Delegation, Digest, Document, Kind, Listing, Meta, Moment, Pattern, Root, Scope, Step,
};
use path_patterns::RoleName;
use std::alloc::{AllocError, Global};
use std::io::Write;

/// What a document says: its version, 0 of one that has none, when it expires, if it does, the documents that it names with their versions,
/// the target files that it lists, and the rules that it has for roles.
#[derive(Drop)]
pub struct Said {
    pub version: u32,
    pub expires: Option<Moment>,
    pub names: Vec<(String, u32)>,
    pub files: Vec<ListedFile>,
    pub rules: Vec<SaidRule>,
}

/// A target file as targets metadata list it.
#[derive(Drop)]
pub struct ListedFile {
    pub path: String,
    pub length: u32,
    pub digest: Digest,
    pub has_layout: bool,
}

/// The rule of a role: how many of which keys have to sign, and of a delegation what it covers, patterns of paths or prefixes of their
/// digests, and whether it is terminating.
#[derive(Drop)]
pub struct SaidRule {
    pub role: String,
    pub threshold: u8,
    pub keyids: Vec<KeyId>,
    pub covers: Vec<String>,
    pub has_prefixes: bool,
    pub is_terminating: bool,
}

/// What a role's document says. Bytes that are none are denied by the first check that fails.
pub fn read_said(alloc: Global, role: &str, bytes: &[u8]) -> Result<Said, Fault> {
    read_said_of(alloc, Kind::of_role(role), bytes)
}

/// What a document of a kind says; of a layout the rules of its steps.
pub fn read_said_of(alloc: Global, kind: Kind, bytes: &[u8]) -> Result<Said, Fault> {
    let mut saying = Saying;
    Ok(look_at(alloc, kind, bytes, &mut saying)?)
}

// Looks at what a document says.
#[derive(Clone, Copy)]
struct Saying;

impl Look for Saying {
    type Seen = Said;

    fn look(&mut self, alloc: Global, document: &Document<'_>) -> Result<Said, AllocError> {
        said_by(alloc, &document.body)
    }
}

/// The kind that a signed part says it is, where it says one of those that are read without a signature: all but a link.
pub fn typed_kind(signed: &[u8]) -> Option<Kind> {
    match str::from_utf8(member(signed, "_type")?).ok()? {
        "\"root\"" => Some(Kind::Root),
        "\"timestamp\"" => Some(Kind::Timestamp),
        "\"snapshot\"" => Some(Kind::Snapshot),
        "\"targets\"" => Some(Kind::Targets),
        "\"layout\"" => Some(Kind::Layout),
        _ => None,
    }
}

/// The version of a role's document.
pub fn version_in(alloc: Global, role: &str, bytes: &[u8]) -> Result<u32, Fault> {
    let said = read_said(alloc, role, bytes)?;
    Ok(said.version)
}

/// What a role's document that is held says, if there is one.
pub fn held_said<E: Write>(
    alloc: Global,
    folder: Folder<'_>,
    role: &str,
    notes: &mut Notes<'_, E>,
) -> Result<Option<Said>, Fault> {
    let Some(bytes) = folder.held(role, notes)? else {
        return Ok(None);
    };
    match read_said(alloc, role, &bytes) {
        Ok(said) => Ok(Some(said)),
        Err(fault) => {
            let name = format!(in alloc; "held/{role}.json")?;
            Err(folder.fault_of(name.as_str(), fault, notes))
        }
    }
}

fn said_by(alloc: Global, body: &Body) -> Result<Said, AllocError> {
    let names = names_of(alloc, body)?;
    let files = files_of(alloc, body)?;
    let rules = rules_of(alloc, body)?;
    Ok(Said {
        version: version_of(body),
        expires: expiry_of(body),
        names,
        files,
        rules,
    })
}

// The documents that a timestamp or a snapshot names.
fn names_of(alloc: Global, body: &Body) -> Result<Vec<(String, u32)>, AllocError> {
    match body {
        Body::Timestamp(timestamp) => {
            let mut names = Vec::new(alloc);
            names.push((
                String::from_str(alloc, "snapshot")?,
                timestamp.snapshot.version,
            ))?;
            Ok(names)
        }
        Body::Snapshot(snapshot) => named_in(alloc, &snapshot.meta),
        _ => Ok(Vec::new(alloc)),
    }
}

fn named_in(alloc: Global, meta: &[(RoleName, Meta)]) -> Result<Vec<(String, u32)>, AllocError> {
    let mut names = Vec::new(alloc);
    for (role, meta) in meta {
        let role = String::from_str(alloc, role.as_str())?;
        names.push((role, meta.version))?;
    }
    Ok(names)
}

fn files_of(alloc: Global, body: &Body) -> Result<Vec<ListedFile>, AllocError> {
    match body {
        Body::Targets(targets) => listed_in(alloc, &targets.targets),
        _ => Ok(Vec::new(alloc)),
    }
}

fn listed_in(alloc: Global, listings: &[Listing]) -> Result<Vec<ListedFile>, AllocError> {
    let mut files = Vec::new(alloc);
    for listing in listings {
        let path = String::from_str(alloc, listing.path.as_str())?;
        files.push(ListedFile {
            path,
            length: listing.length,
            digest: listing.digest,
            has_layout: listing.layout.is_some(),
        })?;
    }
    Ok(files)
}

// The rules of the four roles of a root, of those that targets metadata delegate to, or of the steps of a layout.
fn rules_of(alloc: Global, body: &Body) -> Result<Vec<SaidRule>, AllocError> {
    match body {
        Body::Root(root) => rules_in_root(alloc, root),
        Body::Targets(_) => rules_in(alloc, delegated_by(body)),
        Body::Layout(layout) => rules_in_steps(alloc, &layout.steps),
        _ => Ok(Vec::new(alloc)),
    }
}

/// The delegations of targets metadata.
pub(crate) fn delegated_by(body: &Body) -> &[Delegation] {
    match body {
        Body::Targets(targets) => match &targets.delegations {
            Some(delegations) => &delegations.roles,
            None => &[],
        },
        _ => &[],
    }
}

fn rules_in_root(alloc: Global, root: &Root) -> Result<Vec<SaidRule>, AllocError> {
    let mut rules = Vec::new(alloc);
    for role in ["root", "targets", "snapshot", "timestamp"] {
        if let Some(rule) = root.rule(role) {
            rules.push(said_rule(alloc, role, rule)?)?;
        }
    }
    Ok(rules)
}

fn rules_in(alloc: Global, delegations: &[Delegation]) -> Result<Vec<SaidRule>, AllocError> {
    let mut rules = Vec::new(alloc);
    for delegation in delegations {
        rules.push(delegated_rule(alloc, delegation)?)?;
    }
    Ok(rules)
}

fn delegated_rule(alloc: Global, delegation: &Delegation) -> Result<SaidRule, AllocError> {
    let mut rule = said_rule(alloc, delegation.name.as_str(), &delegation.rule)?;
    rule.is_terminating = delegation.terminating;
    match &delegation.scope {
        Scope::Patterns(patterns) => rule.covers = texts_of_patterns(alloc, patterns)?,
        Scope::Prefixes(prefixes) => {
            rule.has_prefixes = true;
            rule.covers = copied(alloc, prefixes)?;
        }
    }
    Ok(rule)
}

fn texts_of_patterns(alloc: Global, patterns: &[Pattern]) -> Result<Vec<String>, AllocError> {
    let mut texts = Vec::new(alloc);
    for pattern in patterns {
        texts.push(String::from_str(alloc, pattern.as_str())?)?;
    }
    Ok(texts)
}

fn copied(alloc: Global, texts: &[String]) -> Result<Vec<String>, AllocError> {
    let mut copies = Vec::new(alloc);
    for text in texts {
        copies.push(String::from_str(alloc, text.as_str())?)?;
    }
    Ok(copies)
}

fn rules_in_steps(alloc: Global, steps: &[Step]) -> Result<Vec<SaidRule>, AllocError> {
    let mut rules = Vec::new(alloc);
    for step in steps {
        rules.push(said_rule(alloc, step.name.as_str(), &step.rule)?)?;
    }
    Ok(rules)
}

fn said_rule(alloc: Global, role: &str, rule: &RoleRule) -> Result<SaidRule, AllocError> {
    let role = String::from_str(alloc, role)?;
    let keyids = Vec::from_slice(alloc, &rule.keyids)?;
    Ok(SaidRule {
        role,
        threshold: rule.threshold,
        keyids,
        covers: Vec::new(alloc),
        has_prefixes: false,
        is_terminating: false,
    })
}

impl Said {
    /// The version at which a role's document is named, if it is.
    pub fn named(&self, role: &str) -> Option<u32> {
        for (name, version) in &self.names {
            if name.as_str() == role {
                return Some(*version);
            }
        }
        None
    }

    /// The target file that is listed under a path, if one is.
    pub fn listed(&self, path: &str) -> Option<&ListedFile> {
        self.files.iter().find(|file| file.path.as_str() == path)
    }

    /// The rule of a role, if there is one.
    pub fn rule(&self, role: &str) -> Option<&SaidRule> {
        self.rules.iter().find(|rule| rule.role.as_str() == role)
    }

    /// Whether a file of this length and digest is listed, under any path.
    pub fn has_file(&self, length: u32, digest: &Digest) -> bool {
        self.files
            .iter()
            .any(|file| file.length == length && file.digest == *digest)
    }
}
