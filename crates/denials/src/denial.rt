//! Denials: which rule fails first.
ghost use Rattle.std.specs.Prelude.{◌≡◌};
ghost use Rattle.denials.specs.Orders as orders;
ghost use Rattle.denials.specs.Views.{denial_view};

use path_patterns::{Digest, TargetPath};

/// The first rule that fails. Two denials say besides what is missing.
#[derive(Debug, Drop)]
pub enum Denial {
    /// The file has over 262,144 bytes.
    TooLong,
    /// The file is no canonical JSON.
    NotCanonical,
    /// The members are not those of the kind.
    WrongShape,
    /// The `_type` is another.
    WrongType,
    /// A name in a key table is not its key's id.
    BadKeyId,
    /// No root is trusted.
    NoRoot,
    /// A root is trusted already.
    RootExists,
    /// The version is not one more than that of the trusted root.
    RootVersion,
    /// The trusted root's rule for roots is not met.
    OldThreshold,
    /// The root's own rule for roots is not met.
    NewThreshold,
    /// The trusted root is not live.
    RootExpired,
    /// The root's rule for the timestamp is not met.
    TimestampThreshold,
    /// The version is lower than that of the held timestamp.
    TimestampRollback,
    /// It names a lower snapshot version than the held timestamp does.
    NamedSnapshotRollback,
    /// The timestamp is not live.
    TimestampExpired,
    /// No timestamp is held.
    NoTimestamp,
    /// The length is not the one that the timestamp gives.
    SnapshotLength,
    /// The digest is not the one that the timestamp gives.
    SnapshotHash,
    /// The root's rule for the snapshot is not met.
    SnapshotThreshold,
    /// The version is not the one that the timestamp names.
    SnapshotVersion,
    /// A role has a lower version than in the held snapshot.
    SnapshotRollback,
    /// A role of the held snapshot is not listed.
    RoleDropped,
    /// The snapshot is not live.
    SnapshotExpired,
    /// No snapshot is held.
    NoSnapshot,
    /// The timestamp does not name the held snapshot.
    SnapshotStale,
    /// The snapshot does not list the role.
    RoleUnlisted,
    /// The length is not the one that the snapshot gives.
    RoleLength,
    /// The digest is not the one that the snapshot gives.
    RoleHash,
    /// The version is not the one that the snapshot lists.
    RoleVersion,
    /// No chain of delegations vouches for the document, or its rule is not met.
    RoleThreshold,
    /// The role's document is not live.
    RoleExpired,
    /// Another document of the role has this version.
    VersionTaken,
    /// The document of a role at the listed version is not held.
    RoleMissing {
        role: String,
        version: u32,
    },
    /// A search made 32 visits and had more to make.
    TooManyRoles,
    /// No role that a search visits lists the path.
    NotFound,
    /// The path is no target path.
    BadPath,
    /// The file of a target, of the listed digest and length in bytes, is not held.
    BlobMissing {
        path: TargetPath,
        digest: Digest,
        length: u32,
    },
    /// The length is not the listed one, or over 1,048,576 bytes.
    BlobLength,
    /// The digest is not the one asked for.
    DigestMismatch,
    /// The most that are held are held.
    Full,
    /// A file that a layout needs is denied.
    SupportDenied,
    /// A file that a layout needs has a layout.
    LayoutNested,
    /// The layout, or a link, is of another shape.
    LayoutShape,
    /// The layout's owners have not signed enough.
    LayoutThreshold,
    /// The layout is not live.
    LayoutExpired,
    /// A step has too few links.
    StepThreshold,
    /// The links of a step disagree.
    LinksDisagree,
    /// An artifact rule forbids what a step did.
    Disallowed,
    /// An artifact that a rule requires is not there.
    Required,
    /// The target is not the step's product.
    ProductMismatch,
    /// What a batch leaves does not belong together.
    Incoherent,
    /// The root requires a layout for the path, and the listing has none.
    LayoutRequired,
    /// The trusted root has profile 2, and the new one profile 1.
    ProfileLowered,
}

impl Denial {
    /// The number of the rule, from 1 to 53. It takes no memory.
    pub fn number(&self) -> u8
        ensures { result ≡ orders.number (denial_view self.now) }
    {
        match self {
            Denial::TooLong => 1,
            Denial::NotCanonical => 2,
            Denial::WrongShape => 3,
            Denial::WrongType => 4,
            Denial::BadKeyId => 5,
            Denial::NoRoot => 6,
            Denial::RootExists => 7,
            Denial::RootVersion => 8,
            Denial::OldThreshold => 9,
            Denial::NewThreshold => 10,
            Denial::RootExpired => 11,
            Denial::TimestampThreshold => 12,
            Denial::TimestampRollback => 13,
            Denial::NamedSnapshotRollback => 14,
            Denial::TimestampExpired => 15,
            Denial::NoTimestamp => 16,
            Denial::SnapshotLength => 17,
            Denial::SnapshotHash => 18,
            Denial::SnapshotThreshold => 19,
            Denial::SnapshotVersion => 20,
            Denial::SnapshotRollback => 21,
            Denial::RoleDropped => 22,
            Denial::SnapshotExpired => 23,
            Denial::NoSnapshot => 24,
            Denial::SnapshotStale => 25,
            Denial::RoleUnlisted => 26,
            Denial::RoleLength => 27,
            Denial::RoleHash => 28,
            Denial::RoleVersion => 29,
            Denial::RoleThreshold => 30,
            Denial::RoleExpired => 31,
            Denial::VersionTaken => 32,
            Denial::RoleMissing { .. } => 33,
            Denial::TooManyRoles => 34,
            Denial::NotFound => 35,
            Denial::BadPath => 36,
            Denial::BlobMissing { .. } => 37,
            Denial::BlobLength => 38,
            Denial::DigestMismatch => 39,
            Denial::Full => 40,
            Denial::SupportDenied => 41,
            Denial::LayoutNested => 42,
            Denial::LayoutShape => 43,
            Denial::LayoutThreshold => 44,
            Denial::LayoutExpired => 45,
            Denial::StepThreshold => 46,
            Denial::LinksDisagree => 47,
            Denial::Disallowed => 48,
            Denial::Required => 49,
            Denial::ProductMismatch => 50,
            Denial::Incoherent => 51,
            Denial::LayoutRequired => 52,
            Denial::ProfileLowered => 53,
        }
    }

    /// The name of the rule. It takes no memory.
    pub fn name(&self) -> &'static str
        ensures { result.now ≡ orders.name (denial_view self.now) }
    {
        match self {
            Denial::TooLong => "TooLong",
            Denial::NotCanonical => "NotCanonical",
            Denial::WrongShape => "WrongShape",
            Denial::WrongType => "WrongType",
            Denial::BadKeyId => "BadKeyId",
            Denial::NoRoot => "NoRoot",
            Denial::RootExists => "RootExists",
            Denial::RootVersion => "RootVersion",
            Denial::OldThreshold => "OldThreshold",
            Denial::NewThreshold => "NewThreshold",
            Denial::RootExpired => "RootExpired",
            Denial::TimestampThreshold => "TimestampThreshold",
            Denial::TimestampRollback => "TimestampRollback",
            Denial::NamedSnapshotRollback => "NamedSnapshotRollback",
            Denial::TimestampExpired => "TimestampExpired",
            Denial::NoTimestamp => "NoTimestamp",
            Denial::SnapshotLength => "SnapshotLength",
            Denial::SnapshotHash => "SnapshotHash",
            Denial::SnapshotThreshold => "SnapshotThreshold",
            Denial::SnapshotVersion => "SnapshotVersion",
            Denial::SnapshotRollback => "SnapshotRollback",
            Denial::RoleDropped => "RoleDropped",
            Denial::SnapshotExpired => "SnapshotExpired",
            Denial::NoSnapshot => "NoSnapshot",
            Denial::SnapshotStale => "SnapshotStale",
            Denial::RoleUnlisted => "RoleUnlisted",
            Denial::RoleLength => "RoleLength",
            Denial::RoleHash => "RoleHash",
            Denial::RoleVersion => "RoleVersion",
            Denial::RoleThreshold => "RoleThreshold",
            Denial::RoleExpired => "RoleExpired",
            Denial::VersionTaken => "VersionTaken",
            Denial::RoleMissing { .. } => "RoleMissing",
            Denial::TooManyRoles => "TooManyRoles",
            Denial::NotFound => "NotFound",
            Denial::BadPath => "BadPath",
            Denial::BlobMissing { .. } => "BlobMissing",
            Denial::BlobLength => "BlobLength",
            Denial::DigestMismatch => "DigestMismatch",
            Denial::Full => "Full",
            Denial::SupportDenied => "SupportDenied",
            Denial::LayoutNested => "LayoutNested",
            Denial::LayoutShape => "LayoutShape",
            Denial::LayoutThreshold => "LayoutThreshold",
            Denial::LayoutExpired => "LayoutExpired",
            Denial::StepThreshold => "StepThreshold",
            Denial::LinksDisagree => "LinksDisagree",
            Denial::Disallowed => "Disallowed",
            Denial::Required => "Required",
            Denial::ProductMismatch => "ProductMismatch",
            Denial::Incoherent => "Incoherent",
            Denial::LayoutRequired => "LayoutRequired",
            Denial::ProfileLowered => "ProfileLowered",
        }
    }

    /// Whether what was asked for is not there: a role's document, a listing of the path, or the file of a target. It takes no
    /// memory.
    pub fn is_missing(&self) -> bool
        ensures { result ≡ orders.is_missing (denial_view self.now) }
    {
        match self {
            Denial::RoleMissing { .. } => true,
            Denial::NotFound => true,
            Denial::BlobMissing { .. } => true,
            _ => false,
        }
    }
}
