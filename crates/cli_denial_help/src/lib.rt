//! What a denial says to whoever sees it: what was looked at and failed, and what to do next.
#![tactic(auto)]

ghost use Rattle.std.specs.Prelude.{◌≡◌, ◌≤◌, ◌<◌, IfSome, IsSome, length, map, option_map, slice_get};
ghost use Rattle.cli_denial_help.specs.Paragraphs.{IsParagraph};
ghost use Rattle.denials.specs.Numbers.{names};

mod files;
mod layouts;
mod roles;
mod roots;
mod rules;
mod snapshots;
mod targets;
mod timestamps;

// The names of the denials in the order of their numbers, the first of which is 1.
static NAMES: [&str; 53] = [
    "TooLong",
    "NotCanonical",
    "WrongShape",
    "WrongType",
    "BadKeyId",
    "NoRoot",
    "RootExists",
    "RootVersion",
    "OldThreshold",
    "NewThreshold",
    "RootExpired",
    "TimestampThreshold",
    "TimestampRollback",
    "NamedSnapshotRollback",
    "TimestampExpired",
    "NoTimestamp",
    "SnapshotLength",
    "SnapshotHash",
    "SnapshotThreshold",
    "SnapshotVersion",
    "SnapshotRollback",
    "RoleDropped",
    "SnapshotExpired",
    "NoSnapshot",
    "SnapshotStale",
    "RoleUnlisted",
    "RoleLength",
    "RoleHash",
    "RoleVersion",
    "RoleThreshold",
    "RoleExpired",
    "VersionTaken",
    "RoleMissing",
    "TooManyRoles",
    "NotFound",
    "BadPath",
    "BlobMissing",
    "BlobLength",
    "DigestMismatch",
    "Full",
    "SupportDenied",
    "LayoutNested",
    "LayoutShape",
    "LayoutThreshold",
    "LayoutExpired",
    "StepThreshold",
    "LinksDisagree",
    "Disallowed",
    "Required",
    "ProductMismatch",
    "Incoherent",
    "LayoutRequired",
    "ProfileLowered",
];

/// The paragraph of a denial: its number, its name, and some sentences, each line with its end.
#[derive(Clone, Copy)]
pub struct Paragraph {
    pub number: u8,
    pub name: &'static str,
    pub text: &'static str,
}

/// The paragraph of the denial that has this number. Each number of a denial has one, and no other number.
pub fn numbered(number: u8) -> Option<Paragraph>
    ensures every { (1 ≤ number) × (number ≤ length names) → IsSome result }
    ensures says { IfSome result (λ p. (p.number ≡ number) × IsParagraph p) }
{
    let place = usize::from(number).checked_sub(1)?;
    let text = text_of(number);
    match text_at(&NAMES, place) {
        Some(name) => Some(Paragraph { number, name, text }),
        None => None,
    }
}

// The text at a place, if there is one.
fn text_at(texts: &[&'static str], place: usize) -> Option<&'static str>
    ensures { option_map (λ s. s.now) result ≡ slice_get (map (λ s. s.now) texts.now) place }
{
    match texts.get(place) {
        Some(text) => Some(text),
        None => None,
    }
}

// The sentences about the denial that has this number.
fn text_of(number: u8) -> &'static str
    ensures { 0 < length result.now }
{
    match number {
        1 => files::TOO_LONG,
        2 => files::NOT_CANONICAL,
        3 => files::WRONG_SHAPE,
        4 => files::WRONG_TYPE,
        5 => files::BAD_KEY_ID,
        6 => roots::NO_ROOT,
        7 => roots::ROOT_EXISTS,
        8 => roots::ROOT_VERSION,
        9 => roots::OLD_THRESHOLD,
        10 => roots::NEW_THRESHOLD,
        11 => roots::ROOT_EXPIRED,
        12 => timestamps::TIMESTAMP_THRESHOLD,
        13 => timestamps::TIMESTAMP_ROLLBACK,
        14 => timestamps::NAMED_SNAPSHOT_ROLLBACK,
        15 => timestamps::TIMESTAMP_EXPIRED,
        16 => timestamps::NO_TIMESTAMP,
        17 => snapshots::SNAPSHOT_LENGTH,
        18 => snapshots::SNAPSHOT_HASH,
        19 => snapshots::SNAPSHOT_THRESHOLD,
        20 => snapshots::SNAPSHOT_VERSION,
        21 => snapshots::SNAPSHOT_ROLLBACK,
        22 => snapshots::ROLE_DROPPED,
        23 => snapshots::SNAPSHOT_EXPIRED,
        24 => snapshots::NO_SNAPSHOT,
        25 => snapshots::SNAPSHOT_STALE,
        26 => roles::ROLE_UNLISTED,
        27 => roles::ROLE_LENGTH,
        28 => roles::ROLE_HASH,
        29 => roles::ROLE_VERSION,
        30 => roles::ROLE_THRESHOLD,
        31 => roles::ROLE_EXPIRED,
        32 => roles::VERSION_TAKEN,
        33 => roles::ROLE_MISSING,
        34 => targets::TOO_MANY_ROLES,
        35 => targets::NOT_FOUND,
        36 => targets::BAD_PATH,
        37 => targets::BLOB_MISSING,
        38 => targets::BLOB_LENGTH,
        39 => targets::DIGEST_MISMATCH,
        40 => targets::FULL,
        41 => layouts::SUPPORT_DENIED,
        42 => layouts::LAYOUT_NESTED,
        43 => layouts::LAYOUT_SHAPE,
        44 => layouts::LAYOUT_THRESHOLD,
        45 => layouts::LAYOUT_EXPIRED,
        46 => layouts::STEP_THRESHOLD,
        47 => layouts::LINKS_DISAGREE,
        48 => rules::DISALLOWED,
        49 => rules::REQUIRED,
        50 => rules::PRODUCT_MISMATCH,
        51 => rules::INCOHERENT,
        52 => rules::LAYOUT_REQUIRED,
        _ => rules::PROFILE_LOWERED,
    }
}

/// The paragraph that a word asks for, by the number or the name of a denial.
pub fn asked(word: &str) -> Option<Paragraph>
    ensures { IfSome result IsParagraph }
{
    match word.parse::<u8>() {
        Ok(number) => numbered(number),
        Err(_) => named(word),
    }
}

// The paragraph of the denial that has this name.
fn named(name: &str) -> Option<Paragraph>
    ensures { IfSome result (λ p. (p.name.now ≡ name.now) × IsParagraph p) }
{
    for number in 1..=53u8 {
        if let Some(found) = numbered(number) {
            if found.name == name {
                return Some(found);
            }
        }
    }
    None
}
