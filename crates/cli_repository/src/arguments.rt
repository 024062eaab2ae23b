//! The arguments of `publish`.
ghost use Rattle.std.specs.Prelude.{◌≡◌, ℕ, List, IfErr, IfNone, IfOk, IfSome, map, string_bytes};
ghost use Rattle.trust_rules.specs.Offers as commands;
ghost use Rattle.trusted_state.specs.Views.{offer_view};
ghost use Rattle.cli_repository.specs.Arguments.{AreDocuments, IsDocument, IsWhyNot};

use crate::files::InputFile;
use cli_faults::{Denial, Fault, Notes};
use path_patterns::RoleName;
use std::alloc::{AllocError, Global};
use std::io::Write;
use store::Offer;

/// What is offered, and the file, of each argument. The first argument that is no document is denied at its index.
pub fn documents_of<'a>(
    alloc: Global,
    arguments: &'a [String],
) -> Result<Vec<(Offer, &'a str)>, Fault>
    ensures all { IfOk result (λ v. AreDocuments (map (λ a. string_bytes a) arguments.now) (map (λ d. (offer_view d.0, d.1.now)) v.items)) }
    ensures none { IfErr result (IsWhyNot (map (λ a. string_bytes a) arguments.now)) }
{
    let mut documents = Vec::new(alloc);
    for (index, argument) in arguments.iter().enumerate() {
        match document_of(alloc, argument.as_str())? {
            Some(document) => documents.push(document)?,
            None => return Err(Fault::Denied(Denial::WrongShape, Some(index))),
        }
    }
    Ok(documents)
}

// The offer and the file of an argument: a role's name, a colon and the file. `None` is answered for another text.
fn document_of(alloc: Global, argument: &str) -> Result<Option<(Offer, &str)>, AllocError>
    ensures some { IfOk result (λ o. IfSome o (λ d. IsDocument argument.now (offer_view d.0) d.1.now)) }
    ensures none { IfOk result (λ o. IfNone o ((offer : commands.Offer) (file : List ℕ) → IsDocument argument.now offer file → ⊥)) }
{
    let Some((role, file)) = argument.split_once(':') else {
        return Ok(None);
    };
    match RoleName::read(alloc, role) {
        Ok(Some(role)) => Ok(Some((Offer::of(role), file))),
        Ok(None) => Ok(None),
        Err(error) => Err(error),
    }
}

/// The offers with the bytes of their files, in order: each document's own file is the one at its place.
pub fn batch_of<'a>(
    alloc: Global,
    documents: Vec<(Offer, &str)>,
    files: &'a [InputFile<'_>],
) -> Result<Vec<(Offer, &'a [u8])>, AllocError>
    requires own { map (λ f. f.path.now) files.now ≡ map (λ d. d.1.now) documents.items }
    ensures offers { IfOk result (λ batch. map (λ b. offer_view b.0) batch.items ≡ map (λ d. offer_view d.0) documents.entry.items) }
    ensures files { IfOk result (λ batch. map (λ b. b.1.now) batch.items ≡ map (λ f. f.bytes.items) files.now) }
{
    let mut batch = Vec::new(alloc);
    'documents: for (index, (offer, _)) in documents.into_iter().enumerate() {
        batch.push((offer, files[index].bytes.as_slice()))?;
    }
    Ok(batch)
}

// What is told of an argument without a role.
const NO_ROLE: &str = "no role stands before a colon: write ROLE:FILE, as root:root.json";

/// The same, where a denial is told with the argument that it is about.
pub fn tell_argument<T: Drop, E: Write>(
    done: Result<T, Fault>,
    arguments: &[String],
    notes: &mut Notes<'_, E>,
) -> Result<T, Fault>
    ensures { result ≡ done }
{
    match &done {
        Err(Fault::Denied(denial, Some(index))) => {
            tell_denied(arguments, *index, denial.number(), notes);
        }
        Err(Fault::Refused(number, _, Some(index))) => {
            tell_denied(arguments, *index, *number, notes);
        }
        _ => {}
    }
    done
}

fn tell_denied<E: Write>(arguments: &[String], index: usize, number: u8, notes: &mut Notes<'_, E>) {
    match arguments.get(index) {
        Some(argument) if argument.as_str().split_once(':').is_none() => {
            notes.fault(&argument.as_str(), &NO_ROLE);
        }
        Some(argument) => notes.denied(&argument.as_str(), number),
        None => notes.denied(&"the documents together", number),
    }
}
