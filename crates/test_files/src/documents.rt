//! The signed parts of metadata (TUF 1.0, sections 4.3 to 4.6).
use crate::fault::Fault;
use crate::keys::{Keys, SeedKey};
use crate::members::{Members, text_value, texts};
use canonical_json::Value;
use path_patterns::Digest;
use std::alloc::Global;

const SPEC_VERSION: &str = "1.0.31";

/// The keys of a role, and its threshold.
#[derive(Drop)]
pub struct Rule {
    pub keys: Vec<SeedKey>,
    pub threshold: u32,
}

/// What root metadata says.
#[derive(Clone, Copy)]
pub struct Root<'a> {
    pub version: u32,
    pub expires: &'a str,
    pub root: &'a Rule,
    pub timestamp: &'a Rule,
    pub snapshot: &'a Rule,
    pub targets: &'a Rule,
}

/// What timestamp or snapshot metadata says of another file: its version and, where they are given, its length and its hash.
#[derive(Clone, Copy)]
pub struct Entry {
    pub version: u32,
    pub length: Option<u32>,
    pub digest: Option<Digest>,
}

/// What targets metadata says of a target: its length and its hash.
#[derive(Clone, Copy)]
pub struct Listing {
    pub length: u32,
    pub digest: Digest,
}

/// What refers a target to a layout: the owners' rule, the paths of the links and of the layout as targets, the path of the
/// product, and the step that makes it.
#[derive(Drop)]
pub struct LayoutReference {
    pub owners: Rule,
    pub links: Vec<String>,
    pub path: String,
    pub product: String,
    pub step: String,
}

/// What a delegation covers: what one of these patterns matches, or what has a digest that begins with one of these prefixes.
#[derive(Drop)]
pub enum Scope {
    Patterns(Vec<String>),
    Prefixes(Vec<String>),
}

/// What targets metadata says of a role that it delegates to: its name, the rule of its keys, whether nothing after it is searched
/// for a path that it covers, and what it covers.
#[derive(Drop)]
pub struct Delegation {
    pub name: String,
    pub rule: Rule,
    pub terminating: bool,
    pub scope: Scope,
}

/// What targets metadata says: the targets by their paths, what refers some of them to layouts, by their paths too, and the
/// delegations in their order. A reference of a path that no target has is left out.
#[derive(Clone, Copy)]
pub struct Targets<'a> {
    pub version: u32,
    pub expires: &'a str,
    pub listings: &'a [(String, Listing)],
    pub references: &'a [(String, LayoutReference)],
    pub delegations: &'a [Delegation],
}

/// The signed part of root metadata. Its key table has the keys of all rules.
pub fn root_signed(alloc: Global, keys: &Keys, said: &Root<'_>) -> Result<Value, Fault> {
    let mut members = begun(alloc, "root", said.version, said.expires);
    members.put("consistent_snapshot", Ok(Value::Bool(true)));
    members.put("keys", key_table(alloc, keys, said));
    members.put("roles", roles(alloc, keys, said));
    members.object()
}

// The keys of all rules.
fn key_table(alloc: Global, keys: &Keys, said: &Root<'_>) -> Result<Value, Fault> {
    let mut all = Vec::new(alloc);
    for rule in [said.root, said.timestamp, said.snapshot, said.targets] {
        add_keys(&mut all, rule)?;
    }
    keys_of(alloc, keys, &all)
}

/// Puts the keys of a rule after the others, each that is not there yet.
pub fn add_keys(all: &mut Vec<SeedKey>, rule: &Rule) -> Result<(), Fault> {
    for key in &rule.keys {
        if !all.contains(key) {
            all.push(*key)?;
        }
    }
    Ok(())
}

/// The keys of a table by their ids.
pub fn keys_of(alloc: Global, keys: &Keys, said: &[SeedKey]) -> Result<Value, Fault> {
    let mut table = Members::new(alloc);
    for key in said {
        table.put(keys.id(*key)?, keys.key_value(*key));
    }
    table.object()
}

fn roles(alloc: Global, keys: &Keys, said: &Root<'_>) -> Result<Value, Fault> {
    let mut roles = Members::new(alloc);
    roles.put("root", rule_value(alloc, keys, said.root));
    roles.put("snapshot", rule_value(alloc, keys, said.snapshot));
    roles.put("targets", rule_value(alloc, keys, said.targets));
    roles.put("timestamp", rule_value(alloc, keys, said.timestamp));
    roles.object()
}

fn rule_value(alloc: Global, keys: &Keys, rule: &Rule) -> Result<Value, Fault> {
    let mut members = Members::new(alloc);
    put_rule(alloc, keys, "keyids", rule, &mut members);
    members.object()
}

/// Puts the rule among the members, its ids under this name.
pub fn put_rule(alloc: Global, keys: &Keys, name: &str, rule: &Rule, members: &mut Members) {
    members.put(name, ids_of(alloc, keys, rule));
    members.put_number("threshold", rule.threshold);
}

fn ids_of(alloc: Global, keys: &Keys, rule: &Rule) -> Result<Value, Fault> {
    let mut ids = Vec::new(alloc);
    for key in &rule.keys {
        let id = text_value(alloc, keys.id(*key)?)?;
        ids.push(id)?;
    }
    Ok(Value::List(ids))
}

/// The signed part of metadata of the kind `timestamp` or `snapshot`, which says this of other files, by their roles' names.
pub fn meta_signed(
    alloc: Global,
    kind: &str,
    version: u32,
    expires: &str,
    roles: &[(String, Entry)],
) -> Result<Value, Fault> {
    let mut files = Members::new(alloc);
    for (role, entry) in roles {
        let name = format!(in alloc; "{role}.json")?;
        files.put(name.as_str(), entry_value(alloc, entry));
    }
    let mut members = begun(alloc, kind, version, expires);
    members.put("meta", files.object());
    members.object()
}

fn entry_value(alloc: Global, entry: &Entry) -> Result<Value, Fault> {
    let mut members = Members::new(alloc);
    if let Some(digest) = &entry.digest {
        members.put("hashes", hashes(alloc, digest));
    }
    if let Some(length) = entry.length {
        members.put_number("length", length);
    }
    members.put_number("version", entry.version);
    members.object()
}

/// `{"sha256":..}`.
pub fn hashes(alloc: Global, digest: &Digest) -> Result<Value, Fault> {
    let digits = digest.text(alloc)?;
    let mut members = Members::new(alloc);
    members.put_text("sha256", digits.as_str());
    members.object()
}

/// The signed part of targets metadata. It has the member `delegations` where there is one, and in it the keys of their rules.
pub fn targets_signed(alloc: Global, keys: &Keys, said: &Targets<'_>) -> Result<Value, Fault> {
    let mut files = Members::new(alloc);
    for (path, listing) in said.listings {
        let reference = reference_of(said.references, path.as_str());
        files.put(
            path.as_str(),
            listing_value(alloc, keys, listing, reference),
        );
    }
    let mut members = begun(alloc, "targets", said.version, said.expires);
    if !said.delegations.is_empty() {
        members.put("delegations", delegations(alloc, keys, said.delegations));
    }
    members.put("targets", files.object());
    members.object()
}

fn delegations(alloc: Global, keys: &Keys, said: &[Delegation]) -> Result<Value, Fault> {
    let mut members = Members::new(alloc);
    members.put("keys", delegated_keys(alloc, keys, said));
    members.put("roles", delegated_roles(alloc, keys, said));
    members.object()
}

// The keys of all delegations.
fn delegated_keys(alloc: Global, keys: &Keys, said: &[Delegation]) -> Result<Value, Fault> {
    let mut all = Vec::new(alloc);
    for delegation in said {
        add_keys(&mut all, &delegation.rule)?;
    }
    keys_of(alloc, keys, &all)
}

fn delegated_roles(alloc: Global, keys: &Keys, said: &[Delegation]) -> Result<Value, Fault> {
    let mut roles = Vec::new(alloc);
    for delegation in said {
        let role = delegation_value(alloc, keys, delegation)?;
        roles.push(role)?;
    }
    Ok(Value::List(roles))
}

fn delegation_value(alloc: Global, keys: &Keys, said: &Delegation) -> Result<Value, Fault> {
    let mut members = Members::new(alloc);
    members.put_text("name", said.name.as_str());
    put_rule(alloc, keys, "keyids", &said.rule, &mut members);
    members.put("terminating", Ok(Value::Bool(said.terminating)));
    match &said.scope {
        Scope::Patterns(patterns) => members.put("paths", texts(alloc, patterns)),
        Scope::Prefixes(prefixes) => members.put("path_hash_prefixes", texts(alloc, prefixes)),
    }
    members.object()
}

// What refers the target of this path to a layout.
fn reference_of<'a>(
    references: &'a [(String, LayoutReference)],
    path: &str,
) -> Option<&'a LayoutReference> {
    for (name, reference) in references {
        if name.as_str() == path {
            return Some(reference);
        }
    }
    None
}

fn listing_value(
    alloc: Global,
    keys: &Keys,
    listing: &Listing,
    reference: Option<&LayoutReference>,
) -> Result<Value, Fault> {
    let mut members = Members::new(alloc);
    if let Some(reference) = reference {
        let mut custom = Members::new(alloc);
        custom.put("layout", reference_value(alloc, keys, reference));
        members.put("custom", custom.object());
    }
    members.put("hashes", hashes(alloc, &listing.digest));
    members.put_number("length", listing.length);
    members.object()
}

fn reference_value(alloc: Global, keys: &Keys, said: &LayoutReference) -> Result<Value, Fault> {
    let mut members = Members::new(alloc);
    put_rule(alloc, keys, "keyids", &said.owners, &mut members);
    members.put("keys", keys_of(alloc, keys, &said.owners.keys));
    members.put("links", texts(alloc, &said.links));
    members.put_text("path", said.path.as_str());
    members.put_text("product", said.product.as_str());
    members.put_text("step", said.step.as_str());
    members.object()
}

// What all kinds have.
fn begun(alloc: Global, kind: &str, version: u32, expires: &str) -> Members {
    let mut members = Members::new(alloc);
    members.put_text("_type", kind);
    members.put_text("expires", expires);
    members.put_text("spec_version", SPEC_VERSION);
    members.put_number("version", version);
    members
}
