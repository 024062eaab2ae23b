//! Which documents are too long, where a command was denied for one of them.
use cli_faults::{Denial, Fault, Notes};
use draft_folder::Folder;
use limits::FILE_LIMIT;
use metadata::Kind;
use std::alloc::AllocError;
use std::fs;
use std::io::Write;

// What can be done about targets metadata that are too long.
const DELEGATE: &str =
    ": delegate a part of it, by 'release draft targets' with --delegate or --bins";

/// Where a command over a folder of drafts was denied for a document that is too long, names each that is: what is drafted, what is held, and
/// layouts and links.
pub fn tell_long<E: Write>(
    rt: &HostRuntime,
    folder: &str,
    fault: &Fault,
    notes: &mut Notes<'_, E>,
) {
    if is_too_long(fault) {
        let folder = Folder::new(rt, folder);
        let _ = tell_drafts(rt, folder, notes);
        let _ = tell_held(rt, folder, notes);
        let _ = tell_chains(rt, folder, "layouts", notes);
        let _ = tell_chains(rt, folder, "links", notes);
    }
}

/// The same of files that were named.
pub fn tell_long_files<E: Write>(
    rt: &HostRuntime,
    files: &[String],
    fault: &Fault,
    notes: &mut Notes<'_, E>,
) {
    if is_too_long(fault) {
        for file in files {
            let _ = tell_file(rt, file.as_str(), file.as_str(), "", notes);
        }
    }
}

/// The same of the document of a batch for which it was denied, by its argument ROLE:FILE.
pub fn tell_long_argument<E: Write>(
    rt: &HostRuntime,
    arguments: &[String],
    fault: &Fault,
    notes: &mut Notes<'_, E>,
) {
    let index = match fault {
        Fault::Denied(_, Some(index)) | Fault::Refused(_, _, Some(index)) => *index,
        _ => return,
    };
    if !is_too_long(fault) {
        return;
    }
    if let Some(argument) = arguments.get(index) {
        let argument = argument.as_str();
        if let Some((role, file)) = argument.split_once(':') {
            let _ = tell_file(rt, argument, file, advice_of(role), notes);
        }
    }
}

fn is_too_long(fault: &Fault) -> bool {
    match fault {
        Fault::Denied(denial, _) => denial.number() == Denial::TooLong.number(),
        Fault::Refused(number, _, _) => *number == Denial::TooLong.number(),
        _ => false,
    }
}

fn advice_of(role: &str) -> &'static str {
    match Kind::of_role(role) {
        Kind::Targets => DELEGATE,
        _ => "",
    }
}

fn tell_drafts<E: Write>(
    rt: &HostRuntime,
    folder: Folder<'_>,
    notes: &mut Notes<'_, E>,
) -> Result<(), Fault> {
    for role in &folder.roles(notes)? {
        let place = folder.place_of(role.as_str())?;
        tell_file(
            rt,
            place.as_str(),
            place.as_str(),
            advice_of(role.as_str()),
            notes,
        )?;
    }
    Ok(())
}

fn tell_held<E: Write>(
    rt: &HostRuntime,
    folder: Folder<'_>,
    notes: &mut Notes<'_, E>,
) -> Result<(), Fault> {
    for role in &folder.held_roles(notes)? {
        let name = role.as_str();
        let name = format!(in rt.alloc(); "held/{name}.json")?;
        let place = folder.place(name.as_str())?;
        tell_file(rt, place.as_str(), place.as_str(), "", notes)?;
    }
    Ok(())
}

fn tell_chains<E: Write>(
    rt: &HostRuntime,
    folder: Folder<'_>,
    inner: &str,
    notes: &mut Notes<'_, E>,
) -> Result<(), Fault> {
    for name in &folder.chain_files(inner, notes)? {
        let name = name.as_str();
        let name = format!(in rt.alloc(); "{inner}/{name}")?;
        let place = folder.place(name.as_str())?;
        tell_file(rt, place.as_str(), place.as_str(), "", notes)?;
    }
    Ok(())
}

// Tells of the file at a place, by what it is called, where it is too long.
fn tell_file<E: Write>(
    rt: &HostRuntime,
    called: &str,
    place: &str,
    advice: &str,
    notes: &mut Notes<'_, E>,
) -> Result<(), AllocError> {
    let Ok(found) = fs::metadata(rt, place) else {
        return Ok(());
    };
    let bytes = found.len();
    if bytes > FILE_LIMIT as u64 {
        let told = format!(in rt.alloc(); "{bytes} bytes, of at most {FILE_LIMIT}{advice}")?;
        notes.fault(&called, &told);
    }
    Ok(())
}
