ghost use Rattle.std.specs.Prelude.{◌≡◌, ◌∷◌, [], IfOk, IfErr, codes, map};
ghost use Rattle.verdicts.specs.Case.{words_of, IsCase, IsCaseFault};

use crate::rule_case::RuleCase;
use crate::rule_text::rule_case_of;
use crate::words::{
    array_of, bytes_of, covering_of, height_of, key_of, kind_of, leaf_of, ots_of, text_of,
};
use hex::FromHexError;
use keys_roles::Key;
use lms::{Levels, Params, Seed};
use metadata::{Kind, ShapeFault};
use std::alloc::{AllocError, AllocFailed, Global};

/// One line, taken apart.
#[derive(Drop)]
pub enum Case {
    /// `json HEX`: is this the canonical text of a value?
    Json(Vec<u8>),
    /// `lms PUBLIC SIGNATURE MESSAGE`: is this a signature of the message under the key?
    Lms {
        public: Vec<u8>,
        signature: Vec<u8>,
        message: Vec<u8>,
    },
    /// `hss PUBLIC SIGNATURE MESSAGE`: the same under a key of the hierarchical scheme?
    Hss {
        public: Vec<u8>,
        signature: Vec<u8>,
        message: Vec<u8>,
    },
    /// `key PUBLIC`: which id has this key?
    Key(Key),
    /// `sign W HEIGHT I SEED Q MESSAGE`: which key has this seed, and which signature of the message makes its leaf Q?
    Sign {
        seed: Seed,
        params: Params,
        leaf: u32,
        message: Vec<u8>,
    },
    /// `hss_made W HEIGHT W HEIGHT I SEED G MESSAGE`: which key of two levels has this seed, and which signature of the message makes its
    /// leaf G?
    HssMade {
        seed: Seed,
        levels: Levels,
        leaf: u32,
        message: Vec<u8>,
    },
    /// `calendar HEX`: which moment is this text as a date and time?
    Calendar(String),
    /// `document KIND HEX`: is this a document of the kind?
    Document {
        kind: Kind,
        bytes: Vec<u8>,
    },
    /// `asked HEX`: which path does this text ask for, and which digest?
    Asked(String),
    /// `match KIND PATTERN PATH`: does this pattern, or this prefix of a digest, cover the path?
    Match {
        covering: Covering,
        pattern: String,
        path: String,
    },
    /// `rules HEX`: do these artifact rules hold of this link?
    Rules(RuleCase),
}

/// How a path is covered.
#[derive(Clone, Copy, PartialEq, Eq)]
pub enum Covering {
    /// By a pattern whose wildcards stand for no slash.
    Segmented,
    /// By a pattern whose wildcards stand for any byte.
    Flat,
    /// By a prefix of its digest.
    Prefix,
}

/// Why a line is not taken apart.
#[derive(Clone, Copy, PartialEq, Eq)]
pub enum CaseFault {
    NotUnderstood,
    OutOfMemory,
}

impl From<AllocError> for CaseFault {
    ghost use Rattle.std.specs.Prelude.{◌≡◌};
    ghost use Rattle.verdicts.specs.declared.case.CaseFault.TheVariants.{OutOfMemory};

    ghost from_gives = { λ _ e. e ≡ OutOfMemory };

    fn from(_: AllocError) -> Self {
        CaseFault::OutOfMemory
    }
}

impl<T: Drop> From<AllocFailed<T>> for CaseFault {
    ghost use Rattle.std.specs.Prelude.{◌≡◌};
    ghost use Rattle.verdicts.specs.declared.case.CaseFault.TheVariants.{OutOfMemory};

    ghost from_gives = { λ _ e. e ≡ OutOfMemory };

    fn from(_: AllocFailed<T>) -> Self {
        CaseFault::OutOfMemory
    }
}

impl From<ShapeFault> for CaseFault {
    ghost use Rattle.std.specs.Prelude.{◌≡◌};
    ghost use Rattle.verdicts.specs.Words.{fault_of_shape};

    ghost from_gives = { λ error fault. fault ≡ fault_of_shape error };

    fn from(error: ShapeFault) -> Self {
        match error {
            ShapeFault::OutOfMemory => CaseFault::OutOfMemory,
            _ => CaseFault::NotUnderstood,
        }
    }
}

impl From<FromHexError> for CaseFault {
    ghost use Rattle.std.specs.Prelude.{◌≡◌};
    ghost use Rattle.verdicts.specs.Words.{fault_of};

    ghost from_gives = { λ error fault. fault ≡ fault_of error };

    fn from(error: FromHexError) -> Self {
        match error {
            FromHexError::OutOfMemory => CaseFault::OutOfMemory,
            _ => CaseFault::NotUnderstood,
        }
    }
}

impl Case {
    /// The case that a line without its line break writes down.
    pub fn parse(alloc: Global, line: &[u8]) -> Result<Self, CaseFault>
        ensures case { IfOk result (IsCase (words_of line.now)) }
        ensures fault { IfErr result (IsCaseFault (words_of line.now)) }
    {
        let words = words(alloc, line)?;
        let Some((kind, parts)) = words.split_first() else {
            return Err(CaseFault::NotUnderstood);
        };
        if *kind == b"json".as_slice() {
            json_case(alloc, parts)
        } else if *kind == b"lms".as_slice() {
            lms_case(alloc, parts)
        } else if *kind == b"hss".as_slice() {
            hss_case(alloc, parts)
        } else if *kind == b"key".as_slice() {
            key_case(alloc, parts)
        } else if *kind == b"sign".as_slice() {
            sign_case(alloc, parts)
        } else if *kind == b"hss_made".as_slice() {
            hss_made_case(alloc, parts)
        } else if *kind == b"calendar".as_slice() {
            calendar_case(alloc, parts)
        } else if *kind == b"document".as_slice() {
            document_case(alloc, parts)
        } else if *kind == b"asked".as_slice() {
            asked_case(alloc, parts)
        } else if *kind == b"match".as_slice() {
            match_case(alloc, parts)
        } else if *kind == b"rules".as_slice() {
            rules_case(alloc, parts)
        } else {
            Err(CaseFault::NotUnderstood)
        }
    }
}

// The words of a line, which single spaces part.
fn words<'a>(alloc: Global, line: &'a [u8]) -> Result<Vec<&'a [u8]>, AllocError>
    ensures { IfOk result (λ v. map (λ w. w.now) v.items ≡ words_of line.now) }
{
    line.split(|b| *b == b' ').collect(alloc)
}

// The case of a line that begins with `json`, by the words after.
fn json_case(alloc: Global, parts: &[&[u8]]) -> Result<Case, CaseFault>
    ensures case { IfOk result (IsCase (codes "json" ∷ map (λ w. w.now) parts.now)) }
    ensures fault { IfErr result (IsCaseFault (codes "json" ∷ map (λ w. w.now) parts.now)) }
{
    let [bytes] = parts else {
        return Err(CaseFault::NotUnderstood);
    };
    Ok(Case::Json(bytes_of(alloc, bytes)?))
}

// The same for `lms`.
fn lms_case(alloc: Global, parts: &[&[u8]]) -> Result<Case, CaseFault>
    ensures case { IfOk result (IsCase (codes "lms" ∷ map (λ w. w.now) parts.now)) }
    ensures fault { IfErr result (IsCaseFault (codes "lms" ∷ map (λ w. w.now) parts.now)) }
{
    let [public, signature, message] = parts else {
        return Err(CaseFault::NotUnderstood);
    };
    Ok(Case::Lms {
        public: bytes_of(alloc, public)?,
        signature: bytes_of(alloc, signature)?,
        message: bytes_of(alloc, message)?,
    })
}

// The same for `hss`.
fn hss_case(alloc: Global, parts: &[&[u8]]) -> Result<Case, CaseFault>
    ensures case { IfOk result (IsCase (codes "hss" ∷ map (λ w. w.now) parts.now)) }
    ensures fault { IfErr result (IsCaseFault (codes "hss" ∷ map (λ w. w.now) parts.now)) }
{
    let [public, signature, message] = parts else {
        return Err(CaseFault::NotUnderstood);
    };
    Ok(Case::Hss {
        public: bytes_of(alloc, public)?,
        signature: bytes_of(alloc, signature)?,
        message: bytes_of(alloc, message)?,
    })
}

// The same for `key`.
fn key_case(alloc: Global, parts: &[&[u8]]) -> Result<Case, CaseFault>
    ensures case { IfOk result (IsCase (codes "key" ∷ map (λ w. w.now) parts.now)) }
    ensures fault { IfErr result (IsCaseFault (codes "key" ∷ map (λ w. w.now) parts.now)) }
{
    let [public] = parts else {
        return Err(CaseFault::NotUnderstood);
    };
    Ok(Case::Key(key_of(alloc, public)?))
}

// The same for `sign`.
fn sign_case(alloc: Global, parts: &[&[u8]]) -> Result<Case, CaseFault>
    ensures case { IfOk result (IsCase (codes "sign" ∷ map (λ w. w.now) parts.now)) }
    ensures fault { IfErr result (IsCaseFault (codes "sign" ∷ map (λ w. w.now) parts.now)) }
{
    let [ots, height, identifier, secret, leaf, message] = parts else {
        return Err(CaseFault::NotUnderstood);
    };
    let params = Params {
        ots: ots_of(ots)?,
        height: height_of(height)?,
    };
    let seed = Seed {
        identifier: array_of(alloc, identifier)?,
        secret: array_of(alloc, secret)?,
    };
    Ok(Case::Sign {
        seed,
        params,
        leaf: leaf_of(alloc, leaf)?,
        message: bytes_of(alloc, message)?,
    })
}

// The same for `hss_made`.
fn hss_made_case(alloc: Global, parts: &[&[u8]]) -> Result<Case, CaseFault>
    ensures case { IfOk result (IsCase (codes "hss_made" ∷ map (λ w. w.now) parts.now)) }
    ensures fault { IfErr result (IsCaseFault (codes "hss_made" ∷ map (λ w. w.now) parts.now)) }
{
    let [
        top_ots,
        top_height,
        bottom_ots,
        bottom_height,
        identifier,
        secret,
        leaf,
        message,
    ] = parts
    else {
        return Err(CaseFault::NotUnderstood);
    };
    let top = Params {
        ots: ots_of(top_ots)?,
        height: height_of(top_height)?,
    };
    let bottom = Params {
        ots: ots_of(bottom_ots)?,
        height: height_of(bottom_height)?,
    };
    let seed = Seed {
        identifier: array_of(alloc, identifier)?,
        secret: array_of(alloc, secret)?,
    };
    Ok(Case::HssMade {
        seed,
        levels: Levels { top, bottom },
        leaf: leaf_of(alloc, leaf)?,
        message: bytes_of(alloc, message)?,
    })
}

// The same for `calendar`.
fn calendar_case(alloc: Global, parts: &[&[u8]]) -> Result<Case, CaseFault>
    ensures case { IfOk result (IsCase (codes "calendar" ∷ map (λ w. w.now) parts.now)) }
    ensures fault { IfErr result (IsCaseFault (codes "calendar" ∷ map (λ w. w.now) parts.now)) }
{
    let [text] = parts else {
        return Err(CaseFault::NotUnderstood);
    };
    Ok(Case::Calendar(text_of(alloc, text)?))
}

// The same for `document`.
fn document_case(alloc: Global, parts: &[&[u8]]) -> Result<Case, CaseFault>
    ensures case { IfOk result (IsCase (codes "document" ∷ map (λ w. w.now) parts.now)) }
    ensures fault { IfErr result (IsCaseFault (codes "document" ∷ map (λ w. w.now) parts.now)) }
{
    let [kind, bytes] = parts else {
        return Err(CaseFault::NotUnderstood);
    };
    Ok(Case::Document {
        kind: kind_of(kind)?,
        bytes: bytes_of(alloc, bytes)?,
    })
}

// The same for `asked`.
fn asked_case(alloc: Global, parts: &[&[u8]]) -> Result<Case, CaseFault>
    ensures case { IfOk result (IsCase (codes "asked" ∷ map (λ w. w.now) parts.now)) }
    ensures fault { IfErr result (IsCaseFault (codes "asked" ∷ map (λ w. w.now) parts.now)) }
{
    let [text] = parts else {
        return Err(CaseFault::NotUnderstood);
    };
    Ok(Case::Asked(text_of(alloc, text)?))
}

// The same for `match`.
fn match_case(alloc: Global, parts: &[&[u8]]) -> Result<Case, CaseFault>
    ensures case { IfOk result (IsCase (codes "match" ∷ map (λ w. w.now) parts.now)) }
    ensures fault { IfErr result (IsCaseFault (codes "match" ∷ map (λ w. w.now) parts.now)) }
{
    let [covering, pattern, path] = parts else {
        return Err(CaseFault::NotUnderstood);
    };
    Ok(Case::Match {
        covering: covering_of(covering)?,
        pattern: text_of(alloc, pattern)?,
        path: text_of(alloc, path)?,
    })
}

// The same for `rules`.
fn rules_case(alloc: Global, parts: &[&[u8]]) -> Result<Case, CaseFault>
    ensures case { IfOk result (IsCase (codes "rules" ∷ map (λ w. w.now) parts.now)) }
    ensures fault { IfErr result (IsCaseFault (codes "rules" ∷ map (λ w. w.now) parts.now)) }
{
    let [text] = parts else {
        return Err(CaseFault::NotUnderstood);
    };
    rules_of_word(alloc, text)
}

// The case whose word stands after `rules`.
fn rules_of_word(alloc: Global, word: &[u8]) -> Result<Case, CaseFault>
    ensures case { IfOk result (IsCase (codes "rules" ∷ word.now ∷ [])) }
    ensures fault { IfErr result (IsCaseFault (codes "rules" ∷ word.now ∷ [])) }
{
    let part = rule_case_of(alloc, word)?;
    Ok(Case::Rules(part))
}
