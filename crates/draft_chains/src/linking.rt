//! `draft link`, and links that another machine sends back.
use crate::chains::role_of;
use chain_drafting::{Artifact, draft_link};
use cli_faults::{Fault, Notes, Slip};
use cli_files::read;
use cli_tasks::LinkDraft;
use draft_commands::{draft_or_fault, see_unsigned};
use draft_folder::{Folder, Said, layout_said, link_name, read_said, signed_step};
use metadata::{Kind, digest_of};
use std::io::Write;

/// Drafts the link of a step, with these files as its materials and products beside those that it has already: materials before the step and
/// products after it, in two calls. The paths are as they are typed. A link that has a signature is changed only where that is to be taken off.
pub fn draft_step<E: Write>(
    rt: &HostRuntime,
    folder: Folder<'_>,
    told: &LinkDraft,
    anew: bool,
    notes: &mut Notes<'_, E>,
) -> Result<(), Fault> {
    let step = told.step.as_str();
    let name = format!(in rt.alloc(); "links/{step}.json")?;
    let begun = folder.file(name.as_str(), notes)?;
    see_unsigned(
        rt.alloc(),
        folder,
        name.as_str(),
        begun.as_deref(),
        anew,
        notes,
    )?;
    let draft = link_of(rt, begun.as_deref(), told, notes)?;
    folder.make_inner("links", notes)?;
    folder.put_named(name.as_str(), &draft, notes)
}

// The next link of the step.
fn link_of<E: Write>(
    rt: &HostRuntime,
    begun: Option<&[u8]>,
    told: &LinkDraft,
    notes: &mut Notes<'_, E>,
) -> Result<Vec<u8>, Fault> {
    let materials = artifacts_of(rt, &told.materials, notes)?;
    let products = artifacts_of(rt, &told.products, notes)?;
    let step = told.step.as_str();
    let draft = draft_link(rt.alloc(), begun, step, &materials, &products);
    draft_or_fault(rt.alloc(), draft, "link", notes)
}

fn artifacts_of<E: Write>(
    rt: &HostRuntime,
    files: &[String],
    notes: &mut Notes<'_, E>,
) -> Result<Vec<Artifact>, Fault> {
    let mut artifacts = Vec::new(rt.alloc());
    for file in files {
        artifacts.push(artifact_of(rt, file.as_str(), notes)?)?;
    }
    Ok(artifacts)
}

fn artifact_of<E: Write>(
    rt: &HostRuntime,
    file: &str,
    notes: &mut Notes<'_, E>,
) -> Result<Artifact, Fault> {
    let bytes = read(rt, file, notes)?;
    let path = String::from_str(rt.alloc(), file)?;
    Ok(Artifact {
        path,
        digest: digest_of(&bytes),
    })
}

/// Takes a link: it stands from now on under the path that it has as a target. Answers whether the bytes are a link.
pub fn take_link<E: Write>(
    rt: &HostRuntime,
    folder: Folder<'_>,
    target: Option<&str>,
    bytes: &[u8],
    notes: &mut Notes<'_, E>,
) -> Result<bool, Fault> {
    let Some((step, id)) = signed_step(rt.alloc(), bytes)? else {
        return Ok(false);
    };
    let step = step.as_str();
    let found = target_of(rt, folder, target, step, notes)?;
    let Some(found) = found else {
        notes.warn(
            &step,
            &"the step of no layout here, of that target's or of any, or of more than one: say --target",
        );
        return Err(Fault::Slip(Slip::Path));
    };
    let name = link_name(rt.alloc(), found.as_str(), step, &id)?;
    folder.put_named(name.as_str(), bytes, notes)?;
    Ok(true)
}

// The target that is given, or the one target whose layout here has the step.
fn target_of<E: Write>(
    rt: &HostRuntime,
    folder: Folder<'_>,
    given: Option<&str>,
    step: &str,
    notes: &mut Notes<'_, E>,
) -> Result<Option<String>, Fault> {
    if let Some(target) = given {
        let is_there = role_of(rt, folder, target, notes)?.is_some();
        return Ok(if is_there && has_step(rt, folder, target, step, notes)? {
            Some(String::from_str(rt.alloc(), target)?)
        } else {
            None
        });
    }
    let mut looking = Looking {
        rt,
        folder,
        step,
        found: Vec::new(rt.alloc()),
    };
    looking.look(notes)?;
    if looking.found.len() == 1 {
        Ok(looking.found.pop())
    } else {
        Ok(None)
    }
}

// The targets whose layouts have a step.
#[derive(Drop)]
struct Looking<'a> {
    rt: &'a HostRuntime,
    folder: Folder<'a>,
    step: &'a str,
    found: Vec<String>,
}

impl Looking<'_> {
    fn look<E: Write>(&mut self, notes: &mut Notes<'_, E>) -> Result<(), Fault> {
        for role in &self.folder.roles(notes)? {
            if Kind::of_role(role.as_str()) == Kind::Targets {
                let bytes = self.folder.draft_or_none(role.as_str(), notes)?;
                let said = read_said(self.rt.alloc(), role.as_str(), &bytes)?;
                self.look_in(&said, notes)?;
            }
        }
        Ok(())
    }

    fn look_in<E: Write>(&mut self, said: &Said, notes: &mut Notes<'_, E>) -> Result<(), Fault> {
        for file in &said.files {
            let target = file.path.as_str();
            if has_step(self.rt, self.folder, target, self.step, notes)? {
                self.found.push(String::from_str(self.rt.alloc(), target)?)?;
            }
        }
        Ok(())
    }
}

/// Whether the layout of a target is here and has the step.
pub fn has_step<E: Write>(
    rt: &HostRuntime,
    folder: Folder<'_>,
    target: &str,
    step: &str,
    notes: &mut Notes<'_, E>,
) -> Result<bool, Fault> {
    match layout_said(rt.alloc(), folder, target, notes)? {
        Some(layout) => Ok(layout.rule(step).is_some()),
        None => Ok(false),
    }
}
