ghost use Rattle.std.specs.Prelude.{◌++◌, codes, map};
ghost use Rattle.std.proofs.Props.{props};
ghost use Rattle.document_parts.specs.Sorted.{AreInOrder};

use crate::links::Link;
use crate::moment::Moment;
use crate::rules::Rule;
use keys_roles::{KeyTable, RoleRule, Signature};
use path_patterns::{Digest, Pattern, RoleName, TargetPath};
use std::alloc::{AllocError, AllocFailed};
use thiserror::Error;

/// The kinds of documents, by the `_type` of the signed part.
#[derive(Debug, Clone, Copy, PartialEq, Eq)]
pub enum Kind {
    /// TUF 1.0, section 4.3.
    Root,
    /// TUF 1.0, section 4.6.
    Timestamp,
    /// TUF 1.0, section 4.4.
    Snapshot,
    /// TUF 1.0, section 4.5.
    Targets,
    /// In-toto 1.0, section 4.3.
    Layout,
    /// In-toto 1.0, section 4.4.
    Link,
}

/// Why a file is no document of its kind: the first check that fails.
#[derive(Debug, Clone, Copy, PartialEq, Eq, Error)]
pub enum ShapeFault {
    /// The file has over 262,144 bytes.
    #[error("too long")]
    TooLong,
    /// It is no canonical JSON.
    #[error("not canonical JSON")]
    NotCanonical,
    /// The envelope, or the members of the signed part, are not those of the kind.
    #[error("wrong shape")]
    WrongShape,
    /// The signed part is of another type.
    #[error("wrong type")]
    WrongType,
    /// A name in a key table is not its key's id.
    #[error("bad key id")]
    BadKeyId,
    /// Memory was refused. It says nothing of the file.
    #[error("out of memory")]
    OutOfMemory,
}

/// Refused memory is `OutOfMemory`.
impl From<AllocError> for ShapeFault {
    ghost use Rattle.std.specs.Prelude.{◌≡◌};
    ghost use Rattle.document_parts.specs.declared.documents.ShapeFault.TheVariants.{OutOfMemory};

    ghost from_gives = { λ _ e. e ≡ OutOfMemory };

    fn from(_: AllocError) -> Self {
        ShapeFault::OutOfMemory
    }
}

impl<T: Drop> From<AllocFailed<T>> for ShapeFault {
    ghost use Rattle.std.specs.Prelude.{◌≡◌};
    ghost use Rattle.document_parts.specs.declared.documents.ShapeFault.TheVariants.{OutOfMemory};

    ghost from_gives = { λ _ e. e ≡ OutOfMemory };

    fn from(_: AllocFailed<T>) -> Self {
        ShapeFault::OutOfMemory
    }
}

/// What a file says of another (TUF 1.0, sections 4.4 and 4.6, METAFILES): its version, 1 to 4,294,967,295, and its
/// length in bytes and digest where these are given.
#[derive(Clone, Copy)]
pub struct Meta {
    pub version: u32,
    pub length: Option<u32>,
    pub digest: Option<Digest>,
}

/// What a root means: one of the second profile may require layouts (this project's profile of TUF 1.0, section 4.3).
#[derive(Debug, Clone, Copy, PartialEq, Eq)]
pub enum Profile {
    /// `spec_version` is that of TUF 1.0.
    First,
    /// `spec_version` ends in `+p2`.
    Second,
}

/// Root metadata (TUF 1.0, section 4.3), and the 1 to 64 patterns of the paths that need a layout, if a root of the second
/// profile has them.
#[derive(Drop)]
pub struct Root {
    pub version: u32,
    pub expires: Moment,
    pub keys: KeyTable,
    pub root: RoleRule,
    pub targets: RoleRule,
    pub snapshot: RoleRule,
    pub timestamp: RoleRule,
    pub profile: Profile,
    pub required: Option<Vec<Pattern>>,
}

/// Timestamp metadata (TUF 1.0, section 4.6).
#[derive(Drop)]
pub struct Timestamp {
    pub version: u32,
    pub expires: Moment,
    pub snapshot: Meta,
}

/// Snapshot metadata (TUF 1.0, section 4.4): roles with what is said of their documents, in the order of their files'
/// names, `ROLE.json`.
#[derive(Drop)]
pub struct Snapshot {
    pub version: u32,
    pub expires: Moment,
    pub meta: Vec<(RoleName, Meta)>,
    ghost in_order: { AreInOrder (map (λ e. e.0 ++ codes ".json") meta.items) } by { Prim.hlevel props },
}

/// The layout that a target refers to (in-toto 1.0, section 4.3; this project's profile of TUF 1.0, section 4.5, custom): whose
/// signatures it takes, over keys of its own, the paths of 1 to 64 links and of the layout as targets, and the step among whose
/// products the target stands, with its path there. No link stands twice, and none is the layout.
#[derive(Drop)]
pub struct LayoutReference {
    pub owners: RoleRule,
    pub keys: KeyTable,
    pub links: Vec<TargetPath>,
    pub path: TargetPath,
    pub product: TargetPath,
    pub step: RoleName,
}

/// A target (TUF 1.0, section 4.5, TARGETS): its length in bytes, its digest, and the layout that it refers to, if it refers to
/// one.
#[derive(Drop)]
pub struct Listing {
    pub path: TargetPath,
    pub length: u32,
    pub digest: Digest,
    pub layout: Option<LayoutReference>,
}

/// What a delegation covers (TUF 1.0, section 4.5, PATHPATTERN and path_hash_prefixes): paths that one of 1 to 64 patterns
/// matches, with wildcards that stand for no slash, or whose digests begin with one of 1 to 64 prefixes, each of 1 to 64 hex
/// digits of lower case.
#[derive(Drop)]
pub enum Scope {
    Patterns(Vec<Pattern>),
    Prefixes(Vec<String>),
}

/// A delegation (TUF 1.0, section 4.5, ROLENAME): a role, its rule over the keys of its list, whether nothing after it is
/// searched for a path that it covers, and what it covers.
#[derive(Drop)]
pub struct Delegation {
    pub name: RoleName,
    pub rule: RoleRule,
    pub terminating: bool,
    pub scope: Scope,
}

/// The delegations of targets metadata (TUF 1.0, section 4.5, DELEGATIONS): at most 64 in their order, with their keys.
#[derive(Drop)]
pub struct Delegations {
    pub keys: KeyTable,
    pub roles: Vec<Delegation>,
}

/// Targets metadata (TUF 1.0, section 4.5): the listings in the order of their paths, and the delegations, if it has any.
#[derive(Drop)]
pub struct Targets {
    pub version: u32,
    pub expires: Moment,
    pub targets: Vec<Listing>,
    pub delegations: Option<Delegations>,
    ghost in_order: { AreInOrder (map (λ l. l.path) targets.items) } by { Prim.hlevel props },
}

/// A step of a layout (in-toto 1.0, section 4.3.1): its name, whose links count for it and from how many keys there must be
/// one, and the rules that its link's materials and products must keep to, at most 64 each.
#[derive(Drop)]
pub struct Step {
    pub name: RoleName,
    pub rule: RoleRule,
    pub materials: Vec<Rule>,
    pub products: Vec<Rule>,
}

/// A layout (in-toto 1.0, section 4.3): 1 to 16 steps in their order, no name twice, and the keys that their rules name.
#[derive(Drop)]
pub struct Layout {
    pub expires: Moment,
    pub keys: KeyTable,
    pub steps: Vec<Step>,
}

/// What the signed part of a document says.
#[derive(Drop)]
pub enum Body {
    Root(Root),
    Timestamp(Timestamp),
    Snapshot(Snapshot),
    Targets(Targets),
    Layout(Layout),
    Link(Link),
}

/// A file (TUF 1.0, section 4.2): its signatures, the bytes that they are over, lent from the file, and what these say.
#[derive(Drop)]
pub struct Document<'a> {
    pub signatures: Vec<Signature>,
    pub signed: &'a [u8],
    pub body: Body,
}
