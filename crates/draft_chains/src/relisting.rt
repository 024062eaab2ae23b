//! Layouts and links are listed as they stand signed.
use crate::chains::Chain;
use crate::linking::has_step;
use chain_drafting::Reference;
use cli_faults::{Fault, Notes};
use draft_commands::{Before, see_unsigned};
use draft_folder::{
    Folder, Referred, Said, Vouching, chain_name, layout_path, path_of, read_said, reference_of,
};
use drafting::{Addition, NamedKey, Rule};
use metadata::Kind;
use path_patterns::are_hex_digits;
use std::alloc::{AllocError, Global};
use std::io::Write;

// What is done with each target that has a layout.
#[derive(Clone, Copy)]
enum Task {
    Relist { anew: bool },
    See,
}

/// Lists the layouts and links of the folder as they stand, in the drafted targets metadata that refer to them. What has signatures is changed
/// only where they are to be taken off.
pub fn relist<E: Write>(
    rt: &HostRuntime,
    folder: Folder<'_>,
    anew: bool,
    notes: &mut Notes<'_, E>,
) -> Result<(), Fault> {
    over_folder(rt, folder, Task::Relist { anew }, notes)
}

/// What `relist` would change as the folder stands has no signatures. Nothing is written.
pub fn see_listable<E: Write>(
    rt: &HostRuntime,
    folder: Folder<'_>,
    notes: &mut Notes<'_, E>,
) -> Result<(), Fault> {
    over_folder(rt, folder, Task::See, notes)
}

// Does it in each role's drafted targets metadata, where the folder has layouts.
fn over_folder<E: Write>(
    rt: &HostRuntime,
    folder: Folder<'_>,
    task: Task,
    notes: &mut Notes<'_, E>,
) -> Result<(), Fault> {
    let names = folder.chain_files("layouts", notes)?;
    if names.is_empty() {
        return Ok(());
    }
    for role in &folder.roles(notes)? {
        if Kind::of_role(role.as_str()) == Kind::Targets {
            over_draft(rt, folder, role.as_str(), &names, task, notes)?;
        }
    }
    Ok(())
}

fn over_draft<E: Write>(
    rt: &HostRuntime,
    folder: Folder<'_>,
    role: &str,
    names: &[String],
    task: Task,
    notes: &mut Notes<'_, E>,
) -> Result<(), Fault> {
    let bytes = folder.draft_or_none(role, notes)?;
    let said = read_said(rt.alloc(), role, &bytes)?;
    for file in &said.files {
        if file.has_layout {
            let chain = Chain {
                rt,
                folder,
                role,
                target: file.path.as_str(),
            };
            over_target(chain, &said, &bytes, names, task, notes)?;
        }
    }
    Ok(())
}

// Does it where the layout and the links of the target are not listed as they stand.
fn over_target<E: Write>(
    chain: Chain<'_>,
    said: &Said,
    bytes: &[u8],
    names: &[String],
    task: Task,
    notes: &mut Notes<'_, E>,
) -> Result<(), Fault> {
    let added = additions(chain, names, notes)?;
    if are_listed(said, &added) && is_referred(chain, &added, notes)? {
        return Ok(());
    }
    match task {
        Task::Relist { anew } => relist_one(chain, &added, anew, notes),
        Task::See => see_unsigned(
            chain.rt.alloc(),
            chain.folder,
            chain.role,
            Some(bytes),
            false,
            notes,
        ),
    }
}

// Lists the layout and the links of one target.
fn relist_one<E: Write>(
    chain: Chain<'_>,
    added: &[Addition],
    anew: bool,
    notes: &mut Notes<'_, E>,
) -> Result<(), Fault> {
    let before = Before::of(chain.rt, chain.folder, chain.role, anew, notes)?;
    relist_behind(chain, &before, added, notes)
}

fn relist_behind<E: Write>(
    chain: Chain<'_>,
    before: &Before,
    added: &[Addition],
    notes: &mut Notes<'_, E>,
) -> Result<(), Fault> {
    let Some(begun) = before.begun() else {
        return Ok(());
    };
    for one in added {
        let _put = chain.addition(one.path.as_str(), notes)?;
    }
    match reference_of(chain.rt.alloc(), begun, chain.target) {
        Ok(Some(found)) => refer_anew(chain, before, &found, added, notes),
        Ok(None) => Ok(()),
        Err(fault) => Err(fault),
    }
}

// The layout and the links of a target, by the names of their files.
fn additions<E: Write>(
    chain: Chain<'_>,
    names: &[String],
    notes: &mut Notes<'_, E>,
) -> Result<Vec<Addition>, Fault> {
    let alloc = chain.rt.alloc();
    let begun = chain_name(alloc, chain.target)?;
    let begun = begun.as_str().strip_prefix("layouts/").unwrap_or("");
    let mut added = Vec::new(alloc);
    for name in names {
        if is_own(chain, begun, name.as_str(), notes)? {
            let path = path_of(alloc, name.as_str())?;
            added.push(chain.seen(path.as_str(), notes)?)?;
        }
    }
    Ok(added)
}

// Whether a file is the target's layout, or a link of one of its steps: `.layout.json` or `.STEP.ID.json` after the target's own name, where
// ID is 8 hex digits.
fn is_own<E: Write>(
    chain: Chain<'_>,
    begun: &str,
    name: &str,
    notes: &mut Notes<'_, E>,
) -> Result<bool, Fault> {
    let Some(rest) = name.strip_prefix(begun) else {
        return Ok(false);
    };
    if rest == ".layout.json" {
        return Ok(true);
    }
    match step_in(rest) {
        Some(step) => has_step(chain.rt, chain.folder, chain.target, step, notes),
        None => Ok(false),
    }
}

// The step in `.STEP.ID.json`.
fn step_in(rest: &str) -> Option<&str> {
    let (step, digits) = rest.strip_suffix(".json")?.rsplit_once('.')?;
    if digits.len() == 8 && are_hex_digits(digits.as_bytes()) {
        step.strip_prefix('.')
    } else {
        None
    }
}

// Whether the role's draft refers the target to just the links that are here, where any are.
fn is_referred<E: Write>(
    chain: Chain<'_>,
    added: &[Addition],
    notes: &mut Notes<'_, E>,
) -> Result<bool, Fault> {
    let alloc = chain.rt.alloc();
    let path = layout_path(alloc, chain.target)?;
    let links = links_of(alloc, path.as_str(), added)?;
    let bytes = chain.folder.draft_or_none(chain.role, notes)?;
    match reference_of(alloc, &bytes, chain.target) {
        Ok(Some(found)) => Ok(links.is_empty() || found.links == links),
        Ok(None) => Ok(true),
        Err(fault) => Err(fault),
    }
}

fn are_listed(said: &Said, added: &[Addition]) -> bool {
    added.iter().all(|one| {
        let listed = said.listed(one.path.as_str());
        listed.is_some_and(|listed| listed.digest == one.digest)
    })
}

fn refer_anew<E: Write>(
    chain: Chain<'_>,
    before: &Before,
    found: &Referred,
    added: &[Addition],
    notes: &mut Notes<'_, E>,
) -> Result<(), Fault> {
    let alloc = chain.rt.alloc();
    let keys = named_keys(alloc, &found.owners)?;
    let path = layout_path(alloc, chain.target)?;
    let links = links_of(alloc, path.as_str(), added)?;
    let reference = Reference {
        owners: Rule {
            threshold: found.owners.rule.threshold,
            keys: &keys,
        },
        path: path.as_str(),
        links: if links.is_empty() {
            &found.links
        } else {
            &links
        },
        product: found.product.as_str(),
        step: found.step.as_str(),
    };
    chain.refer(before, added, &reference, notes)
}

// The keys of a rule, by its ids.
fn named_keys(alloc: Global, vouching: &Vouching) -> Result<Vec<NamedKey>, AllocError> {
    let mut keys = Vec::new(alloc);
    for id in &vouching.rule.keyids {
        for (known, key) in &vouching.keys.entries {
            if known == id {
                keys.push(NamedKey {
                    key: *key,
                    name: String::new(alloc),
                })?;
            }
        }
    }
    Ok(keys)
}

// All but the layout.
fn links_of(alloc: Global, layout: &str, added: &[Addition]) -> Result<Vec<String>, AllocError> {
    let mut links = Vec::new(alloc);
    for one in added {
        if one.path.as_str() != layout {
            links.push(String::from_str(alloc, one.path.as_str())?)?;
        }
    }
    Ok(links)
}
