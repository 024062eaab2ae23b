//! Layouts and links as targets (this project's profile of TUF 1.0, section 4.5, custom).
use crate::said::{Said, read_said_of};
use crate::vouching::{Vouching, vouching_of};
use change_lines::FIRST_DIGITS;
use cli_faults::{Fault, Notes};
use cli_files::Folder;
use drafting::{Look, look_at};
use keys_roles::KeyId;
use metadata::{
    Body, Digest, Document, Kind, LayoutReference, ShapeFault, TargetPath, digest_of, read_signed,
};
use std::alloc::{AllocError, Global};
use std::io::Write;

/// What refers a target to its layout: the layout's path, the rule of its owners, the links, and the step among whose products the target
/// stands, with its path there.
#[derive(Drop)]
pub struct Referred {
    pub path: String,
    pub owners: Vouching,
    pub links: Vec<String>,
    pub product: String,
    pub step: String,
}

/// What refers a target to its layout in these targets metadata, if they list it with one.
pub fn reference_of(alloc: Global, bytes: &[u8], target: &str) -> Result<Option<Referred>, Fault> {
    let mut referring = Referring { target };
    Ok(look_at(alloc, Kind::Targets, bytes, &mut referring)?)
}

// Looks for what refers a target to its layout.
#[derive(Clone, Copy)]
struct Referring<'a> {
    target: &'a str,
}

impl Look for Referring<'_> {
    type Seen = Option<Referred>;

    fn look(
        &mut self,
        alloc: Global,
        document: &Document<'_>,
    ) -> Result<Option<Referred>, AllocError> {
        match layout_of(document, self.target) {
            Some(layout) => Ok(Some(referred_by(alloc, document.signed, layout)?)),
            None => Ok(None),
        }
    }
}

// The layout that a target is referred to, if it is to one.
fn layout_of<'a>(document: &'a Document<'_>, target: &str) -> Option<&'a LayoutReference> {
    let Body::Targets(targets) = &document.body else {
        return None;
    };
    for listing in &targets.targets {
        if listing.path.as_str() == target {
            if let Some(layout) = &listing.layout {
                return Some(layout);
            }
        }
    }
    None
}

fn referred_by(
    alloc: Global,
    said: &[u8],
    layout: &LayoutReference,
) -> Result<Referred, AllocError> {
    let owners = vouching_of(alloc, &layout.owners, &layout.keys, said)?;
    let path = String::from_str(alloc, layout.path.as_str())?;
    let links = texts_of(alloc, &layout.links)?;
    let product = String::from_str(alloc, layout.product.as_str())?;
    let step = String::from_str(alloc, layout.step.as_str())?;
    Ok(Referred {
        path,
        owners,
        links,
        product,
        step,
    })
}

fn texts_of(alloc: Global, paths: &[TargetPath]) -> Result<Vec<String>, AllocError> {
    let mut texts = Vec::new(alloc);
    for path in paths {
        texts.push(String::from_str(alloc, path.as_str())?)?;
    }
    Ok(texts)
}

/// The path that the layout of a target has as a target: beside it, so that who lists the one may list the other.
pub fn layout_path(alloc: Global, target: &str) -> Result<String, AllocError> {
    format!(in alloc; "{target}.layout.json")
}

/// The path that the link of a step has as a target, with the first 8 digits of its signer's id.
pub fn link_path(
    alloc: Global,
    target: &str,
    step: &str,
    id: &KeyId,
) -> Result<String, AllocError> {
    let digits = Digest::new(id.0).digits();
    let first = str::from_utf8(&digits[..FIRST_DIGITS]).unwrap_or("-");
    format!(in alloc; "{target}.{step}.{first}.json")
}

/// The name of the file in the folder under which what has this path as a target stands.
pub fn chain_name(alloc: Global, path: &str) -> Result<String, AllocError> {
    let flat = path.replace(alloc, '/', "~")?;
    let flat = flat.as_str();
    format!(in alloc; "layouts/{flat}")
}

/// The name of the file in the folder under which the layout of a target stands.
pub fn layout_name(alloc: Global, target: &str) -> Result<String, AllocError> {
    let path = layout_path(alloc, target)?;
    chain_name(alloc, path.as_str())
}

/// The name of the file in the folder under which the link of a step by a key stands.
pub fn link_name(
    alloc: Global,
    target: &str,
    step: &str,
    id: &KeyId,
) -> Result<String, AllocError> {
    let path = link_path(alloc, target, step, id)?;
    chain_name(alloc, path.as_str())
}

/// The path of a target by the name of its file in `layouts`.
pub fn path_of(alloc: Global, name: &str) -> Result<String, AllocError> {
    name.replace(alloc, '~', "/")
}

/// The layout of a target that is on its way, if there is one.
pub fn layout_in<E: Write>(
    alloc: Global,
    folder: Folder<'_>,
    target: &str,
    notes: &mut Notes<'_, E>,
) -> Result<Option<Vec<u8>>, Fault> {
    let name = layout_name(alloc, target)?;
    folder.file(name.as_str(), notes)
}

/// How many links of a step are on their way.
pub fn links_in<E: Write>(
    alloc: Global,
    folder: Folder<'_>,
    target: &str,
    layout: &Said,
    step: &str,
    notes: &mut Notes<'_, E>,
) -> Result<usize, Fault> {
    let mut count = 0usize;
    if let Some(rule) = layout.rule(step) {
        for id in &rule.keyids {
            if has_link(alloc, folder, target, step, id, notes)? {
                count = count.saturating_add(1);
            }
        }
    }
    Ok(count)
}

fn has_link<E: Write>(
    alloc: Global,
    folder: Folder<'_>,
    target: &str,
    step: &str,
    id: &KeyId,
    notes: &mut Notes<'_, E>,
) -> Result<bool, Fault> {
    let name = link_name(alloc, target, step, id)?;
    let bytes = folder.file(name.as_str(), notes)?;
    Ok(bytes.is_some())
}

/// What the layout of a target that is on its way says, if there is one.
pub fn layout_said<E: Write>(
    alloc: Global,
    folder: Folder<'_>,
    target: &str,
    notes: &mut Notes<'_, E>,
) -> Result<Option<Said>, Fault> {
    match layout_in(alloc, folder, target, notes)? {
        Some(bytes) => Ok(Some(read_said_of(alloc, Kind::Layout, &bytes)?)),
        None => Ok(None),
    }
}

/// The target of a layout, by the name of its file in `layouts`.
pub fn target_of_layout(alloc: Global, name: &str) -> Result<Option<String>, AllocError> {
    match name.strip_suffix(".layout.json") {
        Some(flat) => Ok(Some(path_of(alloc, flat)?)),
        None => Ok(None),
    }
}

/// The path of a layout or a link that these targets metadata list otherwise than it stands in the folder by now, where one is: it has been
/// signed since, or another one has come.
pub fn listed_otherwise<E: Write>(
    alloc: Global,
    folder: Folder<'_>,
    said: &Said,
    notes: &mut Notes<'_, E>,
) -> Result<Option<String>, Fault> {
    for name in &folder.chain_files("layouts", notes)? {
        let path = path_of(alloc, name.as_str())?;
        if !is_listed_so(alloc, folder, said, name.as_str(), path.as_str(), notes)? {
            return Ok(Some(path));
        }
    }
    Ok(None)
}

// Whether a file in `layouts` has the digest that is listed under its path, where one is.
fn is_listed_so<E: Write>(
    alloc: Global,
    folder: Folder<'_>,
    said: &Said,
    name: &str,
    path: &str,
    notes: &mut Notes<'_, E>,
) -> Result<bool, Fault> {
    let Some(file) = said.listed(path) else {
        return Ok(true);
    };
    let place = format!(in alloc; "layouts/{name}")?;
    match folder.file(place.as_str(), notes)? {
        Some(bytes) => Ok(digest_of(&bytes) == file.digest),
        None => Ok(true),
    }
}

/// The step of a link and the id of its signer, where the bytes are a link that is signed.
pub fn signed_step(alloc: Global, bytes: &[u8]) -> Result<Option<(String, KeyId)>, Fault> {
    let mut stepping = Stepping;
    match look_at(alloc, Kind::Link, bytes, &mut stepping) {
        Ok(found) => Ok(found),
        Err(ShapeFault::OutOfMemory) => Err(Fault::Memory),
        Err(_) => Ok(None),
    }
}

/// The first check of shape that fails for what is to be a link, with whose signature it would be one.
pub fn see_link(alloc: Global, bytes: &[u8], id: &KeyId) -> Result<(), Fault> {
    let file = read_signed(alloc, bytes)?;
    let entry = Digest::new(id.0).text(alloc)?;
    let entry = entry.as_str();
    let mut whole = Vec::new(alloc);
    let front = format!(in alloc;
        "{{\"signatures\":[{{\"keyid\":\"{entry}\",\"sig\":\"00\"}}],\"signed\":"
    )?;
    whole.extend_from_slice(front.as_bytes())?;
    whole.extend_from_slice(file.signed)?;
    whole.push(b'}')?;
    let _said = read_said_of(alloc, Kind::Link, &whole)?;
    Ok(())
}

// Looks for the step of a link, and who signed it.
#[derive(Clone, Copy)]
struct Stepping;

impl Look for Stepping {
    type Seen = Option<(String, KeyId)>;

    fn look(
        &mut self,
        alloc: Global,
        document: &Document<'_>,
    ) -> Result<Option<(String, KeyId)>, AllocError> {
        match (&document.body, document.signatures.first()) {
            (Body::Link(link), Some(entry)) => {
                let step = String::from_str(alloc, link.name.as_str())?;
                Ok(Some((step, entry.keyid)))
            }
            _ => Ok(None),
        }
    }
}
