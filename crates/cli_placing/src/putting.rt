// A file comes into its place whole.
ghost use Rattle.std.specs.Prelude.{◌≡◌, ◌++◌, [], ◌∷◌, ℕ, List, Some, true, false, All, IfOk, IfSome, OnErr, is_ok, string_bytes};
ghost use Rattle.path_patterns.specs.Names.{IsCutAtLast};
ghost use Rattle.cli_placing.specs.Calls.{Call, Tells, create, did, look};
ghost use Rattle.cli_placing.specs.Puts.{Called, IsBeside, IsRefused, Puts, Runs, filling, found_of, in_folder, modes, part_name};

use crate::calls::{Found, Places};
use std::alloc::{AllocError, Global};
use std::io::{self, ErrorKind};

// So many names are tried for a file that is not in its place yet.
const NAMES: u32 = 64;

/// Puts a file of these bytes into its place, where a file may stand. It is written beside the place, in the same folder, and
/// renamed onto it once the disk has it: at each moment the place has what stood there before, or the whole file. After an error
/// it has what stood there before. What is no file, a link too, is not replaced. The file has the mode of the one that stood there, and
/// where none did this one, less the process's mask.
pub fn put_in_place<P: Places>(
    alloc: Global,
    places: &mut P,
    place: &str,
    bytes: &[u8],
    mode: u32,
) -> io::Result<()>
    ensures { Called (P.log places.old) (P.log places.new) (λ calls. Puts place.now bytes.now mode calls (is_ok result)) }
{
    let stood = mode_there(places, place)?;
    let (beside, file) = begun_beside(alloc, places, place, mode)?;
    match finished(places, file, stood, beside.as_str(), place, bytes) {
        Ok(()) => Ok(()),
        Err(error) => {
            let _ = places.remove(beside.as_str());
            Err(error)
        }
    }
}

// The mode of the file that stands there, if one does. What is no file is an error.
fn mode_there<P: Places>(places: &mut P, place: &str) -> io::Result<Option<u32>>
    ensures some { IfOk result (λ stood. Tells (P.log places.old) (P.log places.new) (look place.now (Some (found_of stood)))) }
    ensures none { OnErr result (Called (P.log places.old) (P.log places.new) (λ calls. (bytes : List ℕ) (mode : ℕ) → Puts place.now bytes mode calls false)) }
{
    match places.look(place) {
        Ok(Found::File(mode)) => Ok(Some(mode)),
        Ok(Found::Nothing) => Ok(None),
        Ok(Found::Other) => Err(io::Error::new(
            ErrorKind::InvalidInput,
            "what stands there is no file",
        )),
        Err(error) => Err(error),
    }
}

// A new file beside the place, and its path.
fn begun_beside<P: Places>(
    alloc: Global,
    places: &mut P,
    place: &str,
    mode: u32,
) -> io::Result<(String, P::File)>
    ensures some { IfOk result (λ r. IsBeside place.now (string_bytes r.0) × P.Names (string_bytes r.0) r.1
        × Called (P.log places.old) (P.log places.new) (λ calls. (tried : List Call) × All (IsRefused place.now mode) tried
        × (calls ≡ tried ++ did (create (string_bytes r.0) mode) true ∷ []))) }
    ensures none { OnErr result (Called (P.log places.old) (P.log places.new) (λ calls. All (IsRefused place.now mode) calls)) }
{
    let process = places.process();
    for number in 0..NAMES {
        let Some(beside) = name_beside(alloc, place, process, number)? else {
            continue;
        };
        match places.create(beside.as_str(), mode) {
            Ok(file) => return Ok((beside, file)),
            Err(error) if error.kind() == ErrorKind::AlreadyExists => {}
            Err(error) => return Err(error),
        }
    }
    Err(io::Error::from(ErrorKind::AlreadyExists))
}

// The name of this number beside the place, unless it is the place's own.
fn name_beside(
    alloc: Global,
    place: &str,
    process: u32,
    number: u32,
) -> Result<Option<String>, AllocError>
    ensures { IfOk result (λ o. IfSome o (λ beside. IsBeside place.now (string_bytes beside))) }
{
    let (folder, own) = cut_at_last(place);
    let name = part_name(alloc, process, number)?;
    if name.as_str() == own {
        return Ok(None);
    }
    Ok(Some(in_folder(alloc, folder, name.as_str())?))
}

fn part_name(alloc: Global, process: u32, number: u32) -> Result<String, AllocError>
    ensures { IfOk result (λ name. string_bytes name ≡ part_name process number) }
{
    format!(in alloc; ".release-{process}-{number}.part")
}

// The path of a name in a folder, or in the working folder.
fn in_folder(alloc: Global, folder: &str, name: &str) -> Result<String, AllocError>
    ensures { IfOk result (λ path. string_bytes path ≡ in_folder folder.now ++ name.now) }
{
    if folder.is_empty() {
        return format!(in alloc; "./{name}");
    }
    format!(in alloc; "{folder}{name}")
}

// The folder of a place with its slash, or nothing, and the place's own name.
fn cut_at_last(place: &str) -> (&str, &str)
    ensures { IsCutAtLast place.now result.0.now result.1.now }
{
    match place.rfind('/') {
        None => ("", place),
        Some(slash) => place.split_at(slash + 1),
    }
}

// Writes the bytes, gives the file the mode of what stood there, waits until the disk has it, and renames it onto its place.
fn finished<P: Places>(
    places: &mut P,
    file: P::File,
    stood: Option<u32>,
    beside: &str,
    place: &str,
    bytes: &[u8],
) -> io::Result<()>
    ensures { P.Names beside.now file
        → Called (P.log places.old) (P.log places.new) (λ calls. Runs (filling place.now beside.now bytes.now stood) calls (is_ok result)) }
{
    let mut file = file;
    places.write(&mut file, bytes)?;
    given_mode(places, &file, stood)?;
    places.sync(&file)?;
    places.rename(beside, place)
}

// The mode of what stood there, if anything did.
fn given_mode<P: Places>(places: &mut P, file: &P::File, stood: Option<u32>) -> io::Result<()>
    ensures { (name : List ℕ) → P.Names name file.now
        → Called (P.log places.old) (P.log places.new) (λ calls. Runs (modes name stood) calls (is_ok result)) }
{
    match stood {
        Some(mode) => places.give_mode(file, mode),
        None => Ok(()),
    }
}
