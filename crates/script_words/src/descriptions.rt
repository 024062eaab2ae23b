//! Documents that a line describes: a kind, a version, what differs from the documents of the usual repository, and who signs.
//!
//! The usual repository has the key of seed 1 and 2 for its root (both sign), 3 for the timestamp, 4 for the snapshot, 5 for targets;
//! its documents expire in 2031, its timestamp names version 1 of the snapshot, and its snapshot version 1 of `targets`.
use crate::fault::LineFault;
use crate::files::{File, find};
use crate::layout_words::{SaidLink, reference_of, step_of};
use crate::words::{add_leaves, delegation_of, entry_of, listing_of, number_of, rule_of};
use canonical_json::write;
use metadata::Kind;
use std::alloc::Global;
use test_files::{
    Delegation, Entry, Keys, LayoutReference, Leaf, Listing, Root, Rule, Step, Targets, Value,
    layout_signed, link_signed, meta_signed, root_signed, signed_file, targets_signed, text_value,
    texts, with_member,
};

/// The kind of documents that a word names.
pub fn kind_named(word: &str) -> Option<Kind> {
    match word {
        "root" => Some(Kind::Root),
        "timestamp" => Some(Kind::Timestamp),
        "snapshot" => Some(Kind::Snapshot),
        "targets" => Some(Kind::Targets),
        "layout" => Some(Kind::Layout),
        "link" => Some(Kind::Link),
        _ => None,
    }
}

// The rules of a root.
#[derive(Drop)]
struct Rules {
    root: Rule,
    timestamp: Rule,
    snapshot: Rule,
    targets: Rule,
}

// What a line says so far.
#[derive(Drop)]
struct Description {
    alloc: Global,
    kind: Kind,
    version: u32,
    expires: String,
    spec_version: Option<String>,
    required: Option<Vec<String>>,
    rules: Rules,
    entries: Vec<(String, Entry)>,
    listings: Vec<(String, Listing)>,
    references: Vec<(String, LayoutReference)>,
    delegations: Vec<Delegation>,
    steps: Vec<Step>,
    link: SaidLink,
    leaves: Vec<Leaf>,
}

fn usual_rules(alloc: Global) -> Result<Rules, LineFault> {
    Ok(Rules {
        root: rule_of(alloc, "1,2:2")?,
        timestamp: rule_of(alloc, "3")?,
        snapshot: rule_of(alloc, "4")?,
        targets: rule_of(alloc, "5")?,
    })
}

impl Description {
    // What nothing but its rules is said of.
    fn begun(alloc: Global, kind: Kind, rules: Rules) -> Description {
        Description {
            alloc,
            kind,
            version: 1,
            expires: String::new(alloc),
            spec_version: None,
            required: None,
            rules,
            entries: Vec::new(alloc),
            listings: Vec::new(alloc),
            references: Vec::new(alloc),
            delegations: Vec::new(alloc),
            steps: Vec::new(alloc),
            link: SaidLink::new(alloc),
            leaves: Vec::new(alloc),
        }
    }

    fn set_usual(&mut self) -> Result<(), LineFault> {
        self.expires = String::from_str(self.alloc, "2031-01-01T00:00:00Z")?;
        self.link.name = String::from_str(self.alloc, "build")?;
        let named = match self.kind {
            Kind::Timestamp => "snapshot",
            _ => "targets",
        };
        let entry = Entry {
            version: 1,
            length: None,
            digest: None,
        };
        self.entries
            .push((String::from_str(self.alloc, named)?, entry))?;
        Ok(())
    }

    // The file of the usual document of its kind with these words, signed by these leaves.
    fn described(
        &mut self,
        keys: &mut Keys,
        files: &[File],
        now: &str,
        words: &str,
        leaves: &str,
    ) -> Result<Vec<u8>, LineFault> {
        self.set_usual()?;
        for word in words.split_whitespace() {
            self.take(files, now, word)?;
        }
        self.file(keys, leaves)
    }

    // Takes one more word.
    fn take(&mut self, files: &[File], now: &str, word: &str) -> Result<(), LineFault> {
        let Some((name, value)) = word.split_once('=') else {
            self.version = number_of(word)?;
            return Ok(());
        };
        if name == "expires" {
            let text = if value == "now" { now } else { value };
            self.expires = String::from_str(self.alloc, text)?;
            return Ok(());
        }
        if name == "spec" {
            self.spec_version = Some(String::from_str(self.alloc, value)?);
            return Ok(());
        }
        if name == "require" {
            self.required = Some(patterns_of(self.alloc, value)?);
            return Ok(());
        }
        match self.kind {
            Kind::Root => self.take_rule(name, value),
            Kind::Timestamp | Kind::Snapshot => self.take_entry(files, name, value),
            Kind::Targets => match name.strip_prefix(">") {
                Some(role) => self.take_delegation(role, value),
                None => self.take_target(files, name, value),
            },
            Kind::Layout => self.take_step(name, value),
            Kind::Link => self.link.take(files, name, value),
        }
    }

    fn take_rule(&mut self, name: &str, value: &str) -> Result<(), LineFault> {
        let rule = rule_of(self.alloc, value)?;
        match kind_named(name) {
            Some(Kind::Root) => self.rules.root = rule,
            Some(Kind::Timestamp) => self.rules.timestamp = rule,
            Some(Kind::Snapshot) => self.rules.snapshot = rule,
            Some(Kind::Targets) => self.rules.targets = rule,
            _ => return Err(LineFault::NotUnderstood),
        }
        Ok(())
    }

    // A dash takes the entry away.
    fn take_entry(&mut self, files: &[File], name: &str, value: &str) -> Result<(), LineFault> {
        self.entries.retain(|held| held.0.as_str() != name);
        if value != "-" {
            let entry = entry_of(files, value)?;
            self.entries
                .push((String::from_str(self.alloc, name)?, entry))?;
        }
        Ok(())
    }

    // A name with `~` after it is that of a target that refers to a layout.
    fn take_target(&mut self, files: &[File], name: &str, value: &str) -> Result<(), LineFault> {
        match name.strip_suffix("~") {
            Some(path) => self.take_reference(path, value),
            None => self.take_listing(files, name, value),
        }
    }

    fn take_reference(&mut self, path: &str, value: &str) -> Result<(), LineFault> {
        self.references.retain(|held| held.0.as_str() != path);
        if value != "-" {
            let reference = reference_of(self.alloc, value)?;
            self.references
                .push((String::from_str(self.alloc, path)?, reference))?;
        }
        Ok(())
    }

    // A dash takes the step away.
    fn take_step(&mut self, name: &str, value: &str) -> Result<(), LineFault> {
        self.steps.retain(|held| held.name.as_str() != name);
        if value != "-" {
            let step = step_of(self.alloc, name, value)?;
            self.steps.push(step)?;
        }
        Ok(())
    }

    fn take_listing(&mut self, files: &[File], name: &str, value: &str) -> Result<(), LineFault> {
        self.listings.retain(|held| held.0.as_str() != name);
        if value != "-" {
            let listing = listing_of(files, value)?;
            self.listings
                .push((String::from_str(self.alloc, name)?, listing))?;
        }
        Ok(())
    }

    // A second `>` is that of a terminating delegation. A dash takes the delegation away.
    fn take_delegation(&mut self, name: &str, value: &str) -> Result<(), LineFault> {
        let (name, terminating) = match name.strip_prefix(">") {
            Some(name) => (name, true),
            None => (name, false),
        };
        self.delegations.retain(|held| held.name.as_str() != name);
        if value != "-" {
            let delegation = delegation_of(self.alloc, name, terminating, value)?;
            self.delegations.push(delegation)?;
        }
        Ok(())
    }

    // Makes the keys that the document names and that sign it.
    fn make_keys(&self, keys: &mut Keys) -> Result<(), LineFault> {
        match self.kind {
            Kind::Root => {
                let rules = &self.rules;
                for rule in [
                    &rules.root,
                    &rules.timestamp,
                    &rules.snapshot,
                    &rules.targets,
                ] {
                    make_rule(keys, rule)?;
                }
            }
            Kind::Targets => {
                for delegation in &self.delegations {
                    make_rule(keys, &delegation.rule)?;
                }
                for (_, reference) in &self.references {
                    make_rule(keys, &reference.owners)?;
                }
            }
            Kind::Layout => {
                for step in &self.steps {
                    make_rule(keys, &step.rule)?;
                }
            }
            Kind::Timestamp | Kind::Snapshot | Kind::Link => {}
        }
        make_signers(keys, &self.leaves)
    }

    // The file, signed by the leaves of these words.
    fn file(&mut self, keys: &mut Keys, leaves: &str) -> Result<Vec<u8>, LineFault> {
        self.leaves = leaves_of(self.alloc, leaves)?;
        self.make_keys(keys)?;
        let signed = self.written(keys)?;
        Ok(signed_file(self.alloc, keys, &signed, &self.leaves)?)
    }

    // The bytes of the signed part.
    fn written(&self, keys: &Keys) -> Result<Vec<u8>, LineFault> {
        let value = self.with_said(self.signed(keys)?)?;
        let mut bytes = Vec::new(self.alloc);
        match write(&value, &mut bytes) {
            Ok(()) => Ok(bytes),
            Err(_) => Err(LineFault::NotUnderstood),
        }
    }

    // The signed part.
    fn signed(&self, keys: &Keys) -> Result<Value, LineFault> {
        let expires = self.expires.as_str();
        let value = match self.kind {
            Kind::Root => root_signed(self.alloc, keys, &self.root()),
            Kind::Timestamp => meta_signed(
                self.alloc,
                "timestamp",
                self.version,
                expires,
                &self.entries,
            ),
            Kind::Snapshot => {
                meta_signed(self.alloc, "snapshot", self.version, expires, &self.entries)
            }
            Kind::Targets => targets_signed(self.alloc, keys, &self.targets()),
            Kind::Layout => layout_signed(self.alloc, keys, expires, &self.steps),
            Kind::Link => link_signed(self.alloc, &self.link.said()),
        };
        Ok(value?)
    }

    // The signed part with the `spec_version` and the `layout_required` that the words say.
    fn with_said(&self, signed: Value) -> Result<Value, LineFault> {
        let mut value = signed;
        if let Some(text) = &self.spec_version {
            let text = text_value(self.alloc, text.as_str())?;
            value = with_member(self.alloc, value, "spec_version", text)?;
        }
        if let Some(patterns) = &self.required {
            let patterns = texts(self.alloc, patterns)?;
            value = with_member(self.alloc, value, "layout_required", patterns)?;
        }
        Ok(value)
    }

    fn root(&self) -> Root<'_> {
        Root {
            version: self.version,
            expires: self.expires.as_str(),
            root: &self.rules.root,
            timestamp: &self.rules.timestamp,
            snapshot: &self.rules.snapshot,
            targets: &self.rules.targets,
        }
    }

    fn targets(&self) -> Targets<'_> {
        Targets {
            version: self.version,
            expires: self.expires.as_str(),
            listings: &self.listings,
            references: &self.references,
            delegations: &self.delegations,
        }
    }
}

// The patterns of a word, with commas between them; an empty word has none.
fn patterns_of(alloc: Global, value: &str) -> Result<Vec<String>, LineFault> {
    let mut patterns = Vec::new(alloc);
    if value.is_empty() {
        return Ok(patterns);
    }
    for pattern in value.split(',') {
        patterns.push(String::from_str(alloc, pattern)?)?;
    }
    Ok(patterns)
}

fn make_rule(keys: &mut Keys, rule: &Rule) -> Result<(), LineFault> {
    for key in &rule.keys {
        keys.make(*key)?;
    }
    Ok(())
}

fn make_signers(keys: &mut Keys, leaves: &[Leaf]) -> Result<(), LineFault> {
    for leaf in leaves {
        keys.make(leaf.key)?;
    }
    Ok(())
}

/// The leaves that stand after `by`.
pub fn leaves_of(alloc: Global, words: &str) -> Result<Vec<Leaf>, LineFault> {
    let mut leaves = Vec::new(alloc);
    for word in words.split_whitespace() {
        add_leaves(word, &mut leaves)?;
    }
    Ok(leaves)
}

/// The file of a signed part that is handed in, with these signatures.
pub fn signed_by(
    alloc: Global,
    keys: &mut Keys,
    signed: &[u8],
    leaves: &[Leaf],
) -> Result<Vec<u8>, LineFault> {
    make_signers(keys, leaves)?;
    Ok(signed_file(alloc, keys, signed, leaves)?)
}

// The words of a description, with those of the file that it is like put before them.
fn whole_words(alloc: Global, files: &[File], words: &str) -> Result<String, LineFault> {
    let Some(others) = words.strip_prefix("like ") else {
        return Ok(String::from_str(alloc, words)?);
    };
    let (name, rest) = others.split_once(' ').unwrap_or((others, ""));
    let before = find(files, name)?.words.as_str();
    Ok(format!(in alloc; "{before} {rest}")?)
}

// The kind that words begin with, and what stands after it. Where the first is no kind, it is the usual one.
fn kind_and_rest(usual: Kind, words: &str) -> (Kind, &str) {
    match words.split_once(' ') {
        Some((first, rest)) => match kind_named(first) {
            Some(kind) => (kind, rest),
            None => (usual, words),
        },
        None => (usual, words),
    }
}

/// A document that words describe: `[like NAME] [KIND] [VERSION] [WORD=VALUE ..] [by LEAF ..]`, with the words that a later
/// description can be like.
pub fn described(
    alloc: Global,
    keys: &mut Keys,
    files: &[File],
    now: &str,
    usual: Kind,
    text: &str,
) -> Result<(String, Vec<u8>), LineFault> {
    let (words, leaves) = match text.split_once(" by") {
        Some((words, leaves)) => (words, leaves),
        None => (text, ""),
    };
    let words = whole_words(alloc, files, words)?;
    let (kind, rest) = kind_and_rest(usual, words.as_str());
    let bytes = file_of(alloc, keys, files, now, kind, rest, leaves)?;
    Ok((words, bytes))
}

fn file_of(
    alloc: Global,
    keys: &mut Keys,
    files: &[File],
    now: &str,
    kind: Kind,
    words: &str,
    leaves: &str,
) -> Result<Vec<u8>, LineFault> {
    let mut description = Description::begun(alloc, kind, usual_rules(alloc)?);
    description.described(keys, files, now, words, leaves)
}
