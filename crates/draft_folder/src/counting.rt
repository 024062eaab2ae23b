//! How many keys of a rule have signed.
use crate::vouching::Vouching;
use cli_faults::Fault;
use drafting::{Look, look_at};
use keys_roles::{KeyId, RoleRule, meets, signed_count};
use metadata::{Document, Kind, SignedFile};
use std::alloc::{AllocError, Global};
use std::fmt;

/// How many keys have signed, and how many have to.
#[derive(Clone, Copy)]
pub struct Count {
    pub signed: usize,
    pub threshold: u8,
}

impl Count {
    /// Whether enough have signed.
    pub fn is_met(&self) -> bool {
        self.signed >= usize::from(self.threshold)
    }
}

impl fmt::Display for Count {
    fn fmt<W: fmt::Write>(&self, f: &mut fmt::Formatter<W>) -> fmt::Result {
        let Count { signed, threshold } = self;
        write!(f, "{signed} of {threshold}")
    }
}

/// How many keys of the rule have signed the file.
pub fn count_of(
    alloc: Global,
    vouching: &Vouching,
    file: &SignedFile<'_>,
) -> Result<Count, AllocError> {
    let signed = signed_count(
        alloc,
        &vouching.rule,
        &vouching.keys,
        file.signed,
        &file.signatures,
    )?;
    Ok(Count {
        signed,
        threshold: vouching.rule.threshold,
    })
}

/// Whether a key of the rule's table has signed the file.
pub fn has_signed(
    alloc: Global,
    vouching: &Vouching,
    id: &KeyId,
    file: &SignedFile<'_>,
) -> Result<bool, AllocError> {
    let mut keyids = Vec::new(alloc);
    keyids.push(*id)?;
    let rule = RoleRule {
        keyids,
        threshold: 1,
    };
    Ok(meets(&rule, &vouching.keys, file.signed, &file.signatures))
}

/// Whether the bytes meet every one of these rules, and there is one. Bytes that are no document of the role are denied by the first check
/// that fails.
pub(crate) fn meets_in(
    alloc: Global,
    role: &str,
    rules: &[Vouching],
    bytes: &[u8],
) -> Result<bool, Fault> {
    let mut meeting = Meeting { rules };
    Ok(look_at(alloc, Kind::of_role(role), bytes, &mut meeting)?)
}

// Looks whether a document meets rules.
#[derive(Clone, Copy)]
struct Meeting<'a> {
    rules: &'a [Vouching],
}

impl Look for Meeting<'_> {
    type Seen = bool;

    fn look(&mut self, _alloc: Global, document: &Document<'_>) -> Result<bool, AllocError> {
        Ok(meets_all(self.rules, document))
    }
}

// Whether the document meets every one of these rules, and there is one.
fn meets_all(rules: &[Vouching], document: &Document<'_>) -> bool {
    for vouching in rules {
        if !meets(
            &vouching.rule,
            &vouching.keys,
            document.signed,
            &document.signatures,
        ) {
            return false;
        }
    }
    !rules.is_empty()
}
