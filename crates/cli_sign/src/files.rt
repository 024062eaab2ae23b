//! A key as three files: `NAME.seed`, `NAME.key` with its public object, and `NAME.book`.
use crate::documents::tell_of_tree;
use crate::seeds::seed_at;
use cli_faults::{Fault, Notes, Slip, moment};
use cli_files::{FOR_ALL, OWNER_ALONE, print, read_at_most, unused};
use draft_folder::{KEY_FILE_LIMIT, key_in};
use keys_roles::{Key, KeyId, key_id, key_object, top_key};
use leaf_plans::leaves_of;
use lms::Params;
use sign_books::{BookAt, NewKey, NewPair, Pair, Registering, has_bytes, worked_over};
use signer::{Seed, params_in, read_seed};
use std::alloc::AllocError;
use std::fs::{self, File};
use std::io::{self, Write};
use std::os::unix::fs::OpenOptionsExt;
use std::random::RandomSource;

/// The public half of a key, as `NAME.key` has it: the key with its id, and its tree, or its top tree, with its parameters and its id as a key
/// of its own, under which the book has it.
#[derive(Clone, Copy)]
pub struct PublicHalf {
    pub key: Key,
    pub id: KeyId,
    pub params: Params,
    pub top: KeyId,
}

impl PublicHalf {
    /// The public half of the key of this name.
    pub fn read<E: Write>(
        rt: &HostRuntime,
        name: &str,
        notes: &mut Notes<'_, E>,
    ) -> Result<PublicHalf, Fault> {
        let place = format!(in rt.alloc(); "{name}.key")?;
        let bytes = read_at_most(rt, place.as_str(), KEY_FILE_LIMIT, notes)?;
        let Some(key) = key_in(rt.alloc(), &bytes)? else {
            notes.fault(&place, &"no key object");
            return Err(Fault::File);
        };
        let params = if has_known_levels(&key) {
            params_in(top_key(&key))
        } else {
            None
        };
        let Some(params) = params else {
            notes.fault(&place, &"no parameters that are signed by");
            return Err(Fault::File);
        };
        let alloc = rt.alloc();
        Ok(PublicHalf {
            key,
            id: key_id(alloc, &key)?,
            params,
            top: key_id(alloc, &Key::Lms(*top_key(&key)))?,
        })
    }

    /// Whether it is of two levels.
    pub fn has_two_levels(&self) -> bool {
        matches!(self.key, Key::Hss(_))
    }
}

// Whether it is a key of one level or of two.
fn has_known_levels(key: &Key) -> bool {
    match key {
        Key::Lms(_) => true,
        Key::Hss(public) => public[..4] == [0, 0, 0, 2],
    }
}

/// How many documents a key signs: so many as its tree has leaves, of two levels as all trees below have.
pub fn leaf_count(params: Params, lower: Option<Params>) -> u32 {
    let most = leaves_of(params);
    match lower {
        Some(lower) => most.saturating_mul(leaves_of(lower)),
        None => most,
    }
}

/// A key that was read from its files.
#[derive(Clone, Copy)]
pub struct KeyFiles {
    pub seed: Seed,
    pub half: PublicHalf,
}

impl KeyFiles {
    /// The key of this name. The parameters are those of its public half.
    pub fn read<E: Write>(
        rt: &HostRuntime,
        name: &str,
        notes: &mut Notes<'_, E>,
    ) -> Result<KeyFiles, Fault> {
        let half = PublicHalf::read(rt, name, notes)?;
        let place = format!(in rt.alloc(); "{name}.seed")?;
        let seed = seed_at(rt, place.as_str(), notes)?;
        Ok(KeyFiles { seed, half })
    }

    /// The key pair; of two levels with the parameters of the trees below. A seed of another key is a fault of a file.
    pub fn pair<E: Write>(
        &self,
        rt: &HostRuntime,
        lower: Option<Params>,
        notes: &mut Notes<'_, E>,
    ) -> Result<Pair, Fault> {
        tell_of_tree(rt, self.half.params, notes);
        let pair = Pair::new(rt.alloc(), &self.seed, self.half.params, lower)?;
        if pair.top().public() != *top_key(&self.half.key) {
            notes.warn(&"the seed", &"it is of another key than the public half");
            return Err(Fault::File);
        }
        Ok(pair)
    }
}

/// Where the book of a key stands.
pub fn book_place(rt: &HostRuntime, name: &str) -> Result<String, AllocError> {
    format!(in rt.alloc(); "{name}.book")
}

/// Makes the three files of each key, seed and book for their owner alone, and prints the keys' ids, a line each. Where one of them stands
/// nothing is made. Trees are hashed before the files of their key are made, so a call that is ended meanwhile leaves none of it.
pub fn make_keys<O: Write, E: Write>(
    rt: &HostRuntime,
    names: &[String],
    kind: NewKey,
    at: Option<u64>,
    out: &mut O,
    notes: &mut Notes<'_, E>,
) -> Result<(), Fault> {
    let _now = moment(rt, at)?;
    for (place, name) in names.iter().enumerate() {
        see_free(rt, name.as_str(), notes)?;
        see_once(&names[..place], name, notes)?;
    }
    for name in names {
        make_key(rt, name.as_str(), kind, out, notes)?;
    }
    Ok(())
}

// None of the names before is this one.
fn see_once<E: Write>(
    names: &[String],
    name: &String,
    notes: &mut Notes<'_, E>,
) -> Result<(), Fault> {
    if names.contains(name) {
        notes.warn(name, &"it is named twice");
        return Err(Fault::Slip(Slip::Exists));
    }
    Ok(())
}

// None of the three files stands.
fn see_free<E: Write>(rt: &HostRuntime, name: &str, notes: &mut Notes<'_, E>) -> Result<(), Fault> {
    for ending in ["seed", "key", "book"] {
        let place = format!(in rt.alloc(); "{name}.{ending}")?;
        if has_bytes(rt, place.as_str()) || stands(rt, place.as_str()) {
            notes.warn(&place, &"it stands already");
            return Err(Fault::Slip(Slip::Exists));
        }
    }
    Ok(())
}

// Makes the three files of a key, and prints its id.
fn make_key<O: Write, E: Write>(
    rt: &HostRuntime,
    name: &str,
    kind: NewKey,
    out: &mut O,
    notes: &mut Notes<'_, E>,
) -> Result<(), Fault> {
    let alloc = rt.alloc();
    let seed = format!(in alloc; "{name}.seed")?;
    let key = format!(in alloc; "{name}.key")?;
    let book = book_place(rt, name)?;
    let id = made_at(rt, seed.as_str(), key.as_str(), book.as_str(), kind, notes)?;
    let mut line = metadata::Digest::new(id.0).text(alloc)?;
    line.push('\n')?;
    print(out, line.as_bytes(), notes)
}

// Makes the three files, and answers the key's id. All that takes long is done before the first of them stands.
fn made_at<E: Write>(
    rt: &HostRuntime,
    seed: &str,
    key: &str,
    book: &str,
    kind: NewKey,
    notes: &mut Notes<'_, E>,
) -> Result<KeyId, Fault> {
    let alloc = rt.alloc();
    let text = new_seed(rt, seed, notes)?;
    let Some(new) = read_seed(text.as_bytes()) else {
        return Err(Fault::File);
    };
    tell_of_tree(rt, kind.params, notes);
    let pair = NewPair::new(alloc, &new, kind)?;
    made(rt, seed, text.as_bytes(), OWNER_ALONE, notes)?;
    let at = BookAt {
        place: book,
        name: "the book",
        known: false,
    };
    let mut registering = Registering { alloc, pair: &pair };
    worked_over(rt, at, &mut registering, notes)?;
    let public = pair.public();
    let mut object = key_object(alloc, &public)?;
    object.push(b'\n')?;
    made(rt, key, &object, FOR_ALL, notes)?;
    Ok(key_id(alloc, &public)?)
}

// Whether anything stands there.
fn stands(rt: &HostRuntime, place: &str) -> bool {
    fs::symlink_metadata(rt, place).is_ok()
}

// A new seed as its file has it: 48 bytes of the system's randomness as hex digits.
fn new_seed<E: Write>(
    rt: &HostRuntime,
    place: &str,
    notes: &mut Notes<'_, E>,
) -> Result<String, Fault> {
    let mut bytes = [0; 48];
    if let Err(error) = rt.fill_bytes(&mut bytes) {
        return Err(unused(place, &error, notes));
    }
    let mut text = hex::encode(rt.alloc(), &bytes)?;
    text.push('\n')?;
    Ok(text)
}

// Makes a file where none stands.
fn made<E: Write>(
    rt: &HostRuntime,
    place: &str,
    bytes: &[u8],
    mode: u32,
    notes: &mut Notes<'_, E>,
) -> Result<(), Fault> {
    match written(rt, place, bytes, mode) {
        Ok(()) => Ok(()),
        Err(error) => Err(unused(place, &error, notes)),
    }
}

fn written(rt: &HostRuntime, place: &str, bytes: &[u8], mode: u32) -> io::Result<()> {
    let mut file = File::options()
        .write(true)
        .create_new(true)
        .mode(mode)
        .open(rt, place)?;
    file.write_all(bytes)?;
    file.sync_all()
}
