//! The rows of a repository's tables, and the state of which they are all.
ghost use Rattle.std.specs.Prelude.{◌≡◌, ◌≤◌, List, [], All, length, map, option_map, string_bytes, Ok, IfOk, IfSome, IfNone, IsErrAnd};
ghost use Rattle.std.specs.List.{AllZip};
ghost use Rattle.sha2.specs.Sha256.{sha256};
ghost use Rattle.document_parts.specs.Documents as plain;
ghost use Rattle.metadata.specs.File as files;
ghost use Rattle.metadata.specs.File.{Bytes, timestamp_form, snapshot_form};
ghost use Rattle.metadata.specs.FileViews.{root_file, timestamp_file, snapshot_file, targets_file};
ghost use Rattle.document_parts.specs.Views.{profile_view};
ghost use Rattle.delegations.specs.Views.{row_views};
ghost use Rattle.trust_rules.specs.State as trust;
ghost use Rattle.limits.specs.Limits.{most_held};
ghost use Rattle.trust_rules.specs.Contents.{contents_of, profile_number as number_of_profile, root_rows, without_profiles};
ghost use Rattle.trust_rules.specs.steps.Loading.{AreRead, laid};
ghost use Rattle.trust_rules.specs.steps.Stored.{AreStored, IsShelved, IsStored, IsStoredRoot, Together, earlier_roots};
ghost use Rattle.trust_rules.specs.Effects as changes;
ghost use Rattle.trust_rules.specs.Held.{held_of};
ghost use Rattle.state_parts.specs.Views.{blob_views, changes_view, effects_view, length_views, trusted_view};
ghost use Rattle.repository_rows.specs.Contents.{contents_view, contents_with, lengths_of};

use crate::held::Held;
use crate::knowing::trusted_verdicts;
use crate::state::State;
use delegations::{Row, Verdicts};
use metadata::{
    File, Profile, Root, ShapeFault, Snapshot, Timestamp, one_document, one_shape, read_root_file,
    read_snapshot_file, read_targets_file, read_timestamp_file,
};
use path_patterns::{Digest, RoleName};
use repository_rows::{Contents, MetadataRows};
use state_parts::effects::{Blob, Changes, Effects, Gone};
use state_parts::loading::{is_state, may_be_held};
use state_parts::parts::{BlobLength, Trusted};
use state_parts::taking::{blob_lengths, laid_parts};
use std::alloc::{AllocError, Global};

impl State {
    /// The state of which these are all the rows, and `None` where no state has them.
    pub fn load(alloc: Global, contents: Contents) -> Result<Option<State>, AllocError>
        ensures some { IfOk result (λ o. IfSome o (λ s. contents_of s.state ≡ contents_view contents)) }
        ensures none { IfOk result (λ o. IfNone o ((S : trust.State) → trust.IsState S → contents_of S ≡ contents_view contents → ⊥)) }
    {
        one_document();
        one_shape();
        let Some(files) = read_files(alloc, contents)? else {
            return Ok(None);
        };
        settle(alloc, files)
    }
}

impl Held {
    /// What is held of the state of which these are all the rows, whatever the bytes of the target files are, of each of which this is the
    /// digest, which was compared with its bytes, and the length. `None` where no state has them.
    pub fn load(
        alloc: Global,
        metadata: MetadataRows,
        blobs: Vec<([u8; 32], usize)>,
    ) -> Result<Option<Held>, AllocError>
        ensures some { IfOk result (λ o. IfSome o (λ h. (rows : List (Bytes × Bytes)) → lengths_of rows ≡ blobs.items → All (λ b. sha256 b.1 ≡ b.0) rows
            → (S : trust.State) × trust.IsState S × (contents_of S ≡ contents_with metadata rows) × (held_of S ≡ h.held))) }
        ensures none { IfOk result (λ o. IfNone o ((rows : List (Bytes × Bytes)) → lengths_of rows ≡ blobs.items
            → (S : trust.State) → trust.IsState S → contents_of S ≡ contents_with metadata rows → ⊥)) }
    {
        one_document();
        one_shape();
        let lengths = all_lengths(alloc, blobs)?;
        let contents = Contents {
            metadata,
            blobs: Vec::new(alloc),
        };
        let Some(state) = State::load(alloc, contents)? else {
            return Ok(None);
        };
        state.is_valid();
        if !may_be_held(state.held().trusted(), &lengths) {
            return Ok(None);
        }
        Ok(Some(state.with_lengths(lengths)))
    }

    /// Version and bytes of each trusted root, in order. The bytes are not copied.
    pub fn roots<'a>(&'a self, alloc: Global) -> Result<Vec<(u32, &'a [u8])>, AllocError>
        ensures { IfOk result (λ roots. map (λ r. (r.0, r.1.now)) roots.items ≡ without_profiles (root_rows self.now.held.trusted 0 self.now.held.trusted.roots)) }
    {
        numbered_roots(alloc, self.trusted())
    }
}

// Version and bytes of each root.
fn numbered_roots<'a>(
    alloc: Global,
    trusted: &'a Trusted,
) -> Result<Vec<(u32, &'a [u8])>, AllocError>
    requires { trust.IsTrusted (trusted_view trusted.now) }
    ensures { IfOk result (λ roots. map (λ r. (r.0, r.1.now)) roots.items ≡ without_profiles (root_rows (trusted_view trusted.now) 0 (trusted_view trusted.now).roots)) }
{
    let Some(last) = &trusted.root else {
        return Ok(Vec::new(alloc));
    };
    let version = last.body.version;
    let mut roots = numbered_earlier(alloc, &trusted.earlier, version)?;
    roots.push((version, last.source.bytes()))?;
    Ok(roots)
}

// Version and bytes of each root before the one with this version.
fn numbered_earlier<'a>(
    alloc: Global,
    earlier: &'a [(Profile, Vec<u8>)],
    version: u32,
) -> Result<Vec<(u32, &'a [u8])>, AllocError>
    requires { length earlier.now ≤ most_held }
    ensures { IfOk result (λ roots. map (λ r. (r.0, r.1.now)) roots.items ≡ earlier_roots version (map (λ b. (profile_view b.0, b.1.items)) earlier.now)) }
{
    let mut roots = Vec::with_capacity(alloc, earlier.len())?;
    let mut rest = earlier;
    'roots: while let Some((root, later)) = rest.split_first() {
        let number = version.saturating_sub(rest.len() as u32);
        roots.push((number, root.1.as_slice()))?;
        rest = later;
    }
    Ok(roots)
}

// The files of all rows, if each is one.
fn read_files(alloc: Global, contents: Contents) -> Result<Option<Effects>, AllocError>
    ensures some { IfOk result (λ o. IfSome o (λ e. AreStored (contents_view contents) (effects_view e))) }
    ensures none { IfOk result (λ o. IfNone o ((E : changes.Effects) → AreStored (contents_view contents) E → ⊥)) }
{
    let Contents { metadata, blobs } = contents;
    let Some(changes) = read_metadata(alloc, metadata)? else {
        return Ok(None);
    };
    let blobs = all_blobs(alloc, blobs)?;
    Ok(Some(Effects {
        changes,
        blobs,
        gone: Gone::new(alloc),
        verdicts: Verdicts::new(alloc),
    }))
}

// The files of the rows of the metadata, if each is one.
fn read_metadata(alloc: Global, metadata: MetadataRows) -> Result<Option<Changes>, AllocError>
    ensures some { IfOk result (λ o. IfSome o (λ c. AreStored (contents_with metadata []) (changes_view c))) }
    ensures none { IfOk result (λ o. IfNone o ((E : changes.Effects) → AreStored (contents_with metadata []) E → ⊥)) }
{
    let MetadataRows {
        roots,
        timestamp,
        snapshot,
        shelf,
    } = metadata;
    let Some(roots) = read_roots(alloc, &roots)? else {
        return Ok(None);
    };
    let Some(timestamp) = read_timestamp(alloc, &timestamp)? else {
        return Ok(None);
    };
    let Some(snapshot) = read_snapshot(alloc, &snapshot)? else {
        return Ok(None);
    };
    let Some(rows) = read_rows(alloc, &shelf)? else {
        return Ok(None);
    };
    Ok(Some(Changes {
        roots,
        emptied: false,
        timestamp,
        snapshot,
        rows,
    }))
}

// The file that was read, and nothing where its shape is another.
fn if_shaped<T: Drop>(read: Result<File<T>, ShapeFault>) -> Result<Option<File<T>>, AllocError>
    ensures some { IfOk result (λ o. IfSome o (λ f. read ≡ Ok f)) }
    ensures none { IfOk result (λ o. IfNone o (IsErrAnd read (λ fault. ¬ (fault ≡ ShapeFault.OutOfMemory)))) }
{
    match read {
        Ok(file) => Ok(Some(file)),
        Err(ShapeFault::OutOfMemory) => Err(AllocError),
        Err(_) => Ok(None),
    }
}

/// The number of a profile in the row of a root.
pub fn profile_number(profile: Profile) -> u32
    ensures { result ≡ number_of_profile (profile_view profile) }
{
    match profile {
        Profile::First => 1,
        Profile::Second => 2,
    }
}

// The root of a row, if it is one of this version and this profile.
fn stored_root(
    alloc: Global,
    version: u32,
    profile: u32,
    bytes: &[u8],
) -> Result<Option<File<Root>>, AllocError>
    ensures some { IfOk result (λ o. IfSome o (λ f. IsStoredRoot (version, (profile, bytes.now)) (root_file f))) }
    ensures none { IfOk result (λ o. IfNone o ((f : files.File plain.Root) → IsStoredRoot (version, (profile, bytes.now)) f → ⊥)) }
{
    one_document();
    one_shape();
    let Some(file) = if_shaped(read_root_file(alloc, bytes))? else {
        return Ok(None);
    };
    if file.body.version != version {
        return Ok(None);
    }
    if profile_number(file.body.profile) != profile {
        return Ok(None);
    }
    Ok(Some(file))
}

// The timestamp of a row, if it is one of this version.
fn stored_timestamp(
    alloc: Global,
    version: u32,
    bytes: &[u8],
) -> Result<Option<File<Timestamp>>, AllocError>
    ensures some { IfOk result (λ o. IfSome o (λ f. IsStored timestamp_form (λ b. b.version) (version, bytes.now) (timestamp_file f))) }
    ensures none { IfOk result (λ o. IfNone o ((f : files.File plain.Timestamp) → IsStored timestamp_form (λ b. b.version) (version, bytes.now) f → ⊥)) }
{
    one_document();
    one_shape();
    let Some(file) = if_shaped(read_timestamp_file(alloc, bytes))? else {
        return Ok(None);
    };
    if file.body.version != version {
        return Ok(None);
    }
    Ok(Some(file))
}

// The snapshot of a row, if it is one of this version.
fn stored_snapshot(
    alloc: Global,
    version: u32,
    bytes: &[u8],
) -> Result<Option<File<Snapshot>>, AllocError>
    ensures some { IfOk result (λ o. IfSome o (λ f. IsStored snapshot_form (λ b. b.version) (version, bytes.now) (snapshot_file f))) }
    ensures none { IfOk result (λ o. IfNone o ((f : files.File plain.Snapshot) → IsStored snapshot_form (λ b. b.version) (version, bytes.now) f → ⊥)) }
{
    one_document();
    one_shape();
    let Some(file) = if_shaped(read_snapshot_file(alloc, bytes))? else {
        return Ok(None);
    };
    if file.body.version != version {
        return Ok(None);
    }
    Ok(Some(file))
}

// The timestamp of the row that is there, if it is one of its version.
fn read_timestamp(
    alloc: Global,
    row: &Option<(u32, Vec<u8>)>,
) -> Result<Option<Option<File<Timestamp>>>, AllocError>
    ensures some { IfOk result (λ o. IfSome o (λ f. Together (IsStored timestamp_form (λ b. b.version)) (option_map (λ r. (r.0, r.1.items)) row.now) (option_map timestamp_file f))) }
    ensures none { IfOk result (λ o. IfNone o ((f : _) → Together (IsStored timestamp_form (λ b. b.version)) (option_map (λ r. (r.0, r.1.items)) row.now) f → ⊥)) }
{
    let Some((version, bytes)) = row else {
        return Ok(Some(None));
    };
    let Some(file) = stored_timestamp(alloc, *version, bytes)? else {
        return Ok(None);
    };
    Ok(Some(Some(file)))
}

// The snapshot of the row that is there, if it is one of its version.
fn read_snapshot(
    alloc: Global,
    row: &Option<(u32, Vec<u8>)>,
) -> Result<Option<Option<File<Snapshot>>>, AllocError>
    ensures some { IfOk result (λ o. IfSome o (λ f. Together (IsStored snapshot_form (λ b. b.version)) (option_map (λ r. (r.0, r.1.items)) row.now) (option_map snapshot_file f))) }
    ensures none { IfOk result (λ o. IfNone o ((f : _) → Together (IsStored snapshot_form (λ b. b.version)) (option_map (λ r. (r.0, r.1.items)) row.now) f → ⊥)) }
{
    let Some((version, bytes)) = row else {
        return Ok(Some(None));
    };
    let Some(file) = stored_snapshot(alloc, *version, bytes)? else {
        return Ok(None);
    };
    Ok(Some(Some(file)))
}

// The roots of all rows, if each is one of its version and its profile.
fn read_roots(
    alloc: Global,
    rows: &[(u32, u32, Vec<u8>)],
) -> Result<Option<Vec<File<Root>>>, AllocError>
    ensures some { IfOk result (λ o. IfSome o (λ fs. AllZip IsStoredRoot (map (λ r. (r.0, (r.1, r.2.items))) rows.now) (map root_file fs.items))) }
    ensures none { IfOk result (λ o. IfNone o ((fs : _) → AllZip IsStoredRoot (map (λ r. (r.0, (r.1, r.2.items))) rows.now) fs → ⊥)) }
{
    let mut files = Vec::new(alloc);
    let mut rest = rows;
    'rows: while let Some((row, later)) = rest.split_first() {
        let Some(file) = stored_root(alloc, row.0, row.1, &row.2)? else {
            return Ok(None);
        };
        files.push(file)?;
        rest = later;
    }
    Ok(Some(files))
}

// The targets document of a row, at its place.
fn stored_row(
    alloc: Global,
    role: &str,
    version: u32,
    bytes: &[u8],
) -> Result<Option<Row>, AllocError>
    ensures some { IfOk result (λ o. IfSome o (λ r. IsShelved ((role.now, version), bytes.now) ((r.role, r.version), targets_file r.file))) }
    ensures none { IfOk result (λ o. IfNone o ((held : _) → IsShelved ((role.now, version), bytes.now) held → ⊥)) }
{
    one_document();
    one_shape();
    let Some(role) = RoleName::read(alloc, role)? else {
        return Ok(None);
    };
    let Some(file) = if_shaped(read_targets_file(alloc, bytes))? else {
        return Ok(None);
    };
    Ok(Some(Row {
        role,
        version,
        file,
    }))
}

// The targets documents of all rows, if each is one.
fn read_rows(alloc: Global, rows: &[(String, u32, Vec<u8>)]) -> Result<Option<Vec<Row>>, AllocError>
    ensures some { IfOk result (λ o. IfSome o (λ held. AllZip IsShelved (map (λ r. ((string_bytes r.0, r.1), r.2.items)) rows.now) (row_views held.items))) }
    ensures none { IfOk result (λ o. IfNone o ((held : _) → AllZip IsShelved (map (λ r. ((string_bytes r.0, r.1), r.2.items)) rows.now) held → ⊥)) }
{
    let mut held = Vec::new(alloc);
    let mut rest = rows;
    'rows: while let Some((row, later)) = rest.split_first() {
        let Some(new) = stored_row(alloc, &row.0, row.1, &row.2)? else {
            return Ok(None);
        };
        held.push(new)?;
        rest = later;
    }
    Ok(Some(held))
}

// The blobs of all rows. Their bytes are not copied.
fn all_blobs(alloc: Global, rows: Vec<([u8; 32], Vec<u8>)>) -> Result<Vec<Blob>, AllocError>
    ensures { IfOk result (λ blobs. blob_views blobs.items ≡ map (λ b. (b.0, b.1.items)) rows.items) }
{
    let mut blobs = Vec::with_capacity(alloc, rows.len())?;
    'rows: for (digest, bytes) in rows {
        blobs.push(Blob {
            digest: Digest::new(digest),
            bytes,
        })?;
    }
    Ok(blobs)
}

// Digest and length of each blob.
fn all_lengths(alloc: Global, rows: Vec<([u8; 32], usize)>) -> Result<Vec<BlobLength>, AllocError>
    ensures { IfOk result (λ lengths. length_views lengths.items ≡ rows.items) }
{
    let mut lengths = Vec::with_capacity(alloc, rows.len())?;
    'rows: for (digest, length) in rows {
        lengths.push(BlobLength {
            digest: Digest::new(digest),
            length,
        })?;
    }
    Ok(lengths)
}

// The state of which these are all the files, and `None` where no state has them.
fn settle(alloc: Global, files: Effects) -> Result<Option<State>, AllocError>
    requires { AreRead (effects_view files) }
    ensures some { IfOk result (λ o. IfSome o (λ s. (s.state ≡ laid (effects_view files)) × trust.IsState (laid (effects_view files)))) }
    ensures none { IfOk result (λ o. IfNone o (trust.IsState (laid (effects_view files)) → ⊥)) }
{
    if !is_state(&files) {
        return Ok(None);
    }
    let parts = laid_parts(alloc, files)?;
    let verdicts = trusted_verdicts(alloc, &parts.trusted)?;
    let lengths = blob_lengths(alloc, &parts.blobs)?;
    Ok(Some(State::of(parts, lengths, verdicts)))
}
