//! Files of signed parts.
use crate::fault::Fault;
use crate::keys::{Keys, SeedKey};
use canonical_json::{Value, write};
use std::alloc::{AllocError, Global};

/// A leaf of a seed's tree, with the key that has it as its top tree. That of a key of several levels signs the key of the leaf after it, which is
/// of one level less, and any other signs the message: so a list has the leaves of one HSS signature one after another, the top one first.
/// RFC 8554 has each leaf sign once alone; test files of test seeds need not keep to it.
#[derive(Debug, Clone, Copy, PartialEq, Eq)]
pub struct Leaf {
    pub key: SeedKey,
    pub number: u32,
}

/// The file of a signed part, whose text is handed in, with the signatures of these leaves in their order. The text is taken as it
/// is, whatever it spells.
pub fn signed_file(
    alloc: Global,
    keys: &Keys,
    signed: &[u8],
    leaves: &[Leaf],
) -> Result<Vec<u8>, Fault> {
    let entries = entries_of(alloc, keys, signed, leaves)?;
    let mut file = Vec::from_slice(alloc, b"{\"signatures\":")?;
    write(&entries, &mut file)?;
    push_signed(&mut file, signed)?;
    Ok(file)
}

// The signatures of the leaves: a key of several levels takes so many of them.
fn entries_of(alloc: Global, keys: &Keys, signed: &[u8], leaves: &[Leaf]) -> Result<Value, Fault> {
    let mut entries = Vec::new(alloc);
    let mut rest = leaves;
    for _ in leaves {
        let Some((leaf, behind)) = rest.split_first() else {
            break;
        };
        let signed_keys = leaf.key.levels.unwrap_or(1).saturating_sub(1) as usize;
        let (below, later) = behind.split_at(signed_keys.min(behind.len()));
        let entry = keys.signature_value(*leaf, below, signed)?;
        entries.push(entry)?;
        rest = later;
    }
    Ok(Value::List(entries))
}

fn push_signed(file: &mut Vec<u8>, signed: &[u8]) -> Result<(), AllocError> {
    file.extend_from_slice(b",\"signed\":")?;
    file.extend_from_slice(signed)?;
    file.extend_from_slice(b"}")?;
    Ok(())
}
