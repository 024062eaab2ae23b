//! How many keys of a rule have signed.
use keys_roles::{KeyTable, RoleRule, signed_count};
use metadata::{Body, Kind, ShapeFault, SignedFile, read_document, read_signed};
use std::alloc::{AllocError, Global};

/// How many distinct keys of a rule have signed, and how many it asks for.
#[derive(Clone, Copy)]
pub(crate) struct Tally {
    pub count: usize,
    pub threshold: usize,
}

/// How many keys have signed the offered file by the rule that the root, or the targets metadata, gives the role. None where the file
/// is no such document or gives the role no rule.
pub(crate) fn counted(
    alloc: Global,
    kind: Kind,
    file: &[u8],
    role: &str,
    offered: &[u8],
) -> Result<Option<Tally>, AllocError> {
    match read_document(alloc, kind, file) {
        Ok(document) => counted_by(alloc, &document.body, role, offered),
        Err(ShapeFault::OutOfMemory) => Err(AllocError),
        Err(_) => Ok(None),
    }
}

fn counted_by(
    alloc: Global,
    body: &Body,
    role: &str,
    offered: &[u8],
) -> Result<Option<Tally>, AllocError> {
    match body {
        Body::Root(root) => counted_over(alloc, root.rule(role), &root.keys, offered),
        Body::Targets(targets) => match &targets.delegations {
            Some(found) => counted_over(alloc, found.rule(role), &found.keys, offered),
            None => Ok(None),
        },
        _ => Ok(None),
    }
}

fn counted_over(
    alloc: Global,
    rule: Option<&RoleRule>,
    keys: &KeyTable,
    offered: &[u8],
) -> Result<Option<Tally>, AllocError> {
    let Some(rule) = rule else {
        return Ok(None);
    };
    match read_signed(alloc, offered) {
        Ok(file) => signers(alloc, rule, keys, &file),
        Err(ShapeFault::OutOfMemory) => Err(AllocError),
        Err(_) => Ok(None),
    }
}

fn signers(
    alloc: Global,
    rule: &RoleRule,
    keys: &KeyTable,
    file: &SignedFile,
) -> Result<Option<Tally>, AllocError> {
    let count = signed_count(alloc, rule, keys, file.signed, &file.signatures)?;
    let threshold = usize::from(rule.threshold);
    Ok(Some(Tally { count, threshold }))
}
