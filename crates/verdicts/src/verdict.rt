ghost use Rattle.std.specs.Prelude.{◌≡◌, IfOk, IfErr, MatchOption, string_bytes};
ghost use Rattle.metadata.specs.File.{fault_number};
ghost use Rattle.verdicts.specs.Case.{words_of, IsCaseFault};
ghost use Rattle.verdicts.specs.Verdict.{IsReading, IsVerifying, IsVerifyingHss, IsIdentifying, IsSigning, IsMaking, IsDating, IsShaping, IsAsking, IsVerdict, IsAnswer};
ghost use Rattle.verdicts.specs.Words.{hex_word};

use crate::case::{Case, CaseFault};
use crate::covering::matching;
use crate::ruling::ruling;
use canonical_json::ReadFault;
use keys_roles::{Key, key_id};
use lms::{
    HssKeyPair, Levels, Params, Seed, SignFault, Steps, public_of, sign, verify_counted, verify_hss,
};
use metadata::{Kind, ShapeFault, digest_of, read_date_time, read_document};
use path_patterns::read_asked;
use std::alloc::{AllocError, Global};
use std::fmt;

/// What a case comes to.
#[derive(Drop)]
pub enum Verdict {
    Canonical,
    NotCanonical,
    TooDeep,
    IntegerRange,
    /// The signature is valid, and so many hashes were made to tell.
    Valid(u64),
    /// The same of one that is not.
    Invalid(u64),
    /// The signature of several levels is valid.
    Verified,
    /// It is not.
    Refused,
    /// The id of a key, in hex digits.
    KeyId(String),
    /// A public key and a signature, in hex digits.
    Signed {
        public: String,
        signature: String,
    },
    /// A public key in hex digits, the length of a signature, and its SHA-256 in hex digits.
    Made {
        public: String,
        length: usize,
        digest: String,
    },
    /// The tree has no such leaf.
    LeafRange,
    /// A date and time, in seconds since 1970-01-01T00:00:00Z.
    Moment(u64),
    /// The text is no date and time.
    NoMoment,
    Document,
    /// The first check of the document that fails.
    NoDocument(ShapeFault),
    /// The path in hex digits, and the digest in hex digits. Where there is nothing to write, it is a dash.
    AsksFor {
        path: String,
        digest: String,
    },
    Covered,
    NotCovered,
    /// One of the texts is no pattern, no prefix or no path.
    IllFormed,
    /// No artifact rule fails.
    Holds,
    /// The first rule that fails, by its place, is a DISALLOW that matches this path.
    Disallowed {
        rule: usize,
        path: String,
    },
    /// It is a REQUIRE of this path.
    Required {
        rule: usize,
        path: String,
    },
    /// The words of this place are no rule.
    NoRule(usize),
}

impl fmt::Display for Verdict {
    ghost use Rattle.std.specs.Prelude.{Some};
    ghost use Rattle.verdicts.specs.Verdict.{text_of};

    ghost output = { λ verdict. Some (text_of verdict) };

    fn fmt<W: fmt::Write>(&self, f: &mut fmt::Formatter<W>) -> fmt::Result {
        match self {
            Verdict::Canonical => f.write_str("canonical"),
            Verdict::NotCanonical => f.write_str("not_canonical"),
            Verdict::TooDeep => f.write_str("too_deep"),
            Verdict::IntegerRange => f.write_str("integer_range"),
            Verdict::Valid(count) => write!(f, "valid {count}"),
            Verdict::Invalid(count) => write!(f, "invalid {count}"),
            Verdict::Verified => f.write_str("valid"),
            Verdict::Refused => f.write_str("invalid"),
            Verdict::KeyId(digits) => f.write_str(digits),
            Verdict::Signed { public, signature } => write!(f, "{public} {signature}"),
            Verdict::Made {
                public,
                length,
                digest,
            } => write!(f, "{public} {length} {digest}"),
            Verdict::LeafRange => f.write_str("leaf_range"),
            Verdict::Moment(seconds) => write!(f, "{seconds}"),
            Verdict::NoMoment => f.write_str("ill"),
            Verdict::Document => f.write_str("ok"),
            Verdict::NoDocument(fault) => write!(f, "{}", number_of(*fault)),
            Verdict::AsksFor { path, digest } => write!(f, "{path} {digest}"),
            Verdict::Covered => f.write_str("yes"),
            Verdict::NotCovered => f.write_str("no"),
            Verdict::IllFormed => f.write_str("ill"),
            Verdict::Holds => f.write_str("holds"),
            Verdict::Disallowed { rule, path } => write!(f, "disallowed {rule} {path}"),
            Verdict::Required { rule, path } => write!(f, "required {rule} {path}"),
            Verdict::NoRule(rule) => write!(f, "no_rule {rule}"),
        }
    }
}

// The number of a check.
fn number_of(fault: ShapeFault) -> u8
    ensures { result ≡ fault_number fault }
{
    match fault {
        ShapeFault::TooLong => 1,
        ShapeFault::NotCanonical => 2,
        ShapeFault::WrongShape => 3,
        ShapeFault::WrongType => 4,
        ShapeFault::BadKeyId => 5,
        ShapeFault::OutOfMemory => 0,
    }
}

/// The verdict on the case that a line without its line break writes down.
pub fn answer(alloc: Global, line: &[u8]) -> Result<Verdict, CaseFault>
    ensures verdict { IfOk result (IsAnswer line.now) }
    ensures fault { IfErr result (IsCaseFault (words_of line.now)) }
{
    let case = Case::parse(alloc, line)?;
    Ok(judge(alloc, &case)?)
}

/// The verdict on a case. It fails only where memory does.
pub fn judge(alloc: Global, case: &Case) -> Result<Verdict, AllocError>
    ensures { IfOk result (IsVerdict case.now) }
{
    match case {
        Case::Json(bytes) => reading(alloc, bytes),
        Case::Lms {
            public,
            signature,
            message,
        } => Ok(verifying(public, signature, message)),
        Case::Hss {
            public,
            signature,
            message,
        } => Ok(verifying_hss(public, signature, message)),
        Case::Key(key) => identifying(alloc, key),
        Case::Sign {
            seed,
            params,
            leaf,
            message,
        } => signing(alloc, seed, *params, *leaf, message),
        Case::HssMade {
            seed,
            levels,
            leaf,
            message,
        } => making(alloc, seed, *levels, *leaf, message),
        Case::Calendar(text) => Ok(dating(text)),
        Case::Document { kind, bytes } => shaping(alloc, *kind, bytes),
        Case::Asked(text) => asking(alloc, text),
        Case::Match {
            covering,
            pattern,
            path,
        } => matching(alloc, *covering, pattern, path),
        Case::Rules(part) => ruling(alloc, part),
    }
}

// What the reader of canonical JSON answers for the bytes.
fn reading(alloc: Global, bytes: &[u8]) -> Result<Verdict, AllocError>
    ensures { IfOk result (IsReading bytes.now) }
{
    match canonical_json::read(alloc, bytes) {
        Ok(_) => Ok(Verdict::Canonical),
        Err(ReadFault::NotCanonical) => Ok(Verdict::NotCanonical),
        Err(ReadFault::TooDeep) => Ok(Verdict::TooDeep),
        Err(ReadFault::IntegerRange) => Ok(Verdict::IntegerRange),
        Err(ReadFault::OutOfMemory) => Err(AllocError),
    }
}

// Whether the signature is one of the message under the public key, and after how many hashes.
fn verifying(public: &[u8], signature: &[u8], message: &[u8]) -> Verdict
    ensures { IsVerifying public.now signature.now message.now result }
{
    let Some(public) = public.as_array::<56>() else {
        return Verdict::Invalid(0);
    };
    let mut steps = Steps::new();
    let valid = verify_counted(public, message, signature, &mut steps);
    if valid {
        Verdict::Valid(steps.count())
    } else {
        Verdict::Invalid(steps.count())
    }
}

// Whether the signature is one of the message under the key of the hierarchical scheme.
fn verifying_hss(public: &[u8], signature: &[u8], message: &[u8]) -> Verdict
    ensures { IsVerifyingHss public.now signature.now message.now result }
{
    let Some(public) = public.as_array::<60>() else {
        return Verdict::Refused;
    };
    if verify_hss(public, message, signature) {
        Verdict::Verified
    } else {
        Verdict::Refused
    }
}

// The id of the public key.
fn identifying(alloc: Global, key: &Key) -> Result<Verdict, AllocError>
    ensures { IfOk result (IsIdentifying key.now) }
{
    let id = key_id(alloc, key)?;
    Ok(Verdict::KeyId(hex::encode(alloc, &id.0)?))
}

// The public key of the seed, and its signature of the message with this leaf.
fn signing(
    alloc: Global,
    seed: &Seed,
    params: Params,
    leaf: u32,
    message: &[u8],
) -> Result<Verdict, AllocError>
    ensures { IfOk result (IsSigning seed.now params leaf message.now) }
{
    let mut signature = Vec::new(alloc);
    match sign(seed, params, leaf, message, &mut signature) {
        Ok(()) => {}
        Err(SignFault::LeafRange) => return Ok(Verdict::LeafRange),
        Err(SignFault::OutOfMemory) => return Err(AllocError),
    }
    Ok(Verdict::Signed {
        public: hex::encode(alloc, &public_of(seed, params))?,
        signature: hex::encode(alloc, &signature)?,
    })
}

// The public key of the seed with two levels, and how long its signature of the message with this lowest leaf is, with its SHA-256.
fn making(
    alloc: Global,
    seed: &Seed,
    levels: Levels,
    leaf: u32,
    message: &[u8],
) -> Result<Verdict, AllocError>
    ensures { IfOk result (IsMaking seed.now levels leaf message.now) }
{
    let pair = HssKeyPair::new(alloc, seed, levels)?;
    let signature = match pair.sign(alloc, leaf, message) {
        Ok(signature) => signature,
        Err(SignFault::LeafRange) => return Ok(Verdict::LeafRange),
        Err(SignFault::OutOfMemory) => return Err(AllocError),
    };
    Ok(Verdict::Made {
        public: hex::encode(alloc, &pair.public())?,
        length: signature.len(),
        digest: hex::encode(alloc, &digest_of(&signature).0)?,
    })
}

// The moment that the text is as a date and time.
fn dating(text: &str) -> Verdict
    ensures { IsDating text.now result }
{
    match read_date_time(text) {
        Some(moment) => Verdict::Moment(moment.seconds()),
        None => Verdict::NoMoment,
    }
}

// Whether the bytes are a document of the kind, or which check fails first.
fn shaping(alloc: Global, kind: Kind, bytes: &[u8]) -> Result<Verdict, AllocError>
    ensures { IfOk result (IsShaping kind bytes.now) }
{
    match read_document(alloc, kind, bytes) {
        Ok(_) => Ok(Verdict::Document),
        Err(ShapeFault::OutOfMemory) => Err(AllocError),
        Err(fault) => Ok(Verdict::NoDocument(fault)),
    }
}

// The path that the text asks for, and the digest.
fn asking(alloc: Global, text: &str) -> Result<Verdict, AllocError>
    ensures { IfOk result (IsAsking text.now) }
{
    let (path, digest) = read_asked(alloc, text)?;
    let digest = match digest {
        Some(digest) => digest.text(alloc)?,
        None => String::from_str(alloc, "-")?,
    };
    Ok(Verdict::AsksFor {
        path: word_of(alloc, path.as_bytes())?,
        digest,
    })
}

// The word that writes the bytes down: lower-case hex, or a dash where there are none.
fn word_of(alloc: Global, bytes: &[u8]) -> Result<String, AllocError>
    ensures { IfOk result (λ s. string_bytes s ≡ hex_word bytes.now) }
{
    match bytes {
        [] => String::from_str(alloc, "-"),
        _ => hex::encode(alloc, bytes),
    }
}
