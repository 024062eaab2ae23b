// One walk over the files that a client may ask for.
ghost use Rattle.std.specs.Prelude.{◌≡◌, ◌++◌, [], ◌∷◌, Some, List, IfOk, OnOk, OnErr, map, option_map};
ghost use Rattle.document_parts.specs.Views.{body_view, listing_view, meta_view};
ghost use Rattle.document_parts.specs.declared.documents.Kind.TheVariants as kinds;
ghost use Rattle.path_patterns.specs.Names.{dotted};
ghost use Rattle.served_files.specs.Order.{IsInOrder, LeadsTo, StandAfter};
ghost use Rattle.served_files.specs.Served.{AreJust, Files, IsBodyOf, IsOfRole, IsOfRoots, IsOfSnapshot, IsSaid, IsServed, ServedFile, metadata, snapshot_name, target, timestamp_name};
ghost use Rattle.served_files.specs.steps.Visits.{AreInOrder, Became, IsListedBy, IsListedIn, IsNamedBy, IsOfRolesBy, IsOfRolesIn, TellsRoot};

use metadata::{
    Body, Kind, Listing, Meta, RoleName, ShapeFault, one_document, one_shape, read_document,
};
use path_patterns::metadata_name;
use std::alloc::{AllocError, Global};

/// Where metadata files are read, and who is told of each file that a client may ask for.
pub trait FileVisitor {
    /// Why a walk ends early.
    type Fault: From<AllocError>;

    /// It reads from these metadata files, and was told of these files in this order. Without a value of its own this claims nothing.
    ghost Stands: { Files → List ServedFile → Self → Type 0 } = { λ _ _ _. ⊥ };

    /// The bytes of the metadata file of this name, if it is held.
    fn read(&mut self, name: &str) -> Result<Option<Vec<u8>>, Self::Fault>
        ensures { IfOk result (λ o. (files : Files) (told : List ServedFile) → Stands files told self.old
            → (option_map (λ v. v.items) o ≡ files name.now) × Stands files told self.new) };

    /// Is told of a root.
    fn visit_root(&mut self, name: &str, bytes: &[u8]) -> Result<(), Self::Fault>
        ensures { OnOk result ((files : Files) (told : List ServedFile) → Stands files told self.old
            → Stands files (told ++ metadata kinds.Root name.now bytes.now ∷ []) self.new) };

    /// Is told of a timestamp, a snapshot or targets metadata, by the kind, with what they say: `None` where the file is no document of
    /// its kind.
    fn visit_metadata(
        &mut self,
        kind: Kind,
        name: &str,
        bytes: &[u8],
        body: Option<&Body>,
    ) -> Result<(), Self::Fault>
        requires { IsSaid kind bytes.now (option_map (λ b. body_view b.now) body) }
        ensures { OnOk result ((files : Files) (told : List ServedFile) → Stands files told self.old
            → Stands files (told ++ metadata kind name.now bytes.now ∷ []) self.new) };

    /// Is told of a target, whether its file is there or not.
    fn visit_target(&mut self, listing: &Listing) -> Result<(), Self::Fault>
        ensures { OnOk result ((files : Files) (told : List ServedFile) → Stands files told self.old
            → Stands files (told ++ target listing.now.path listing.now.digest.0 ∷ []) self.new) };
}

/// Tells of each file that a client may ask for which trusts the root of the version `after`, or none at 0, where the last root has the
/// version `last`, and of no other (TUF 1.0, sections 5.3 to 5.7). A file stands after what it names: the targets that a role lists, and
/// then its metadata; after all roles the snapshot; the roots, from the last down to the first that is not held; and at the end the
/// timestamp. A target that several roles list is told several times.
///
/// It ends at the first fault, and then nothing is claimed: that of the visitor, or its fault for want of memory.
pub fn visit_files<V: FileVisitor>(
    alloc: Global,
    after: u32,
    last: u32,
    visitor: &mut V,
) -> Result<(), V::Fault>
    ensures { OnOk result (Became V.Stands visitor.old visitor.new (λ files more. AreJust (IsServed files after last) more × IsInOrder files last more)) }
{
    match visitor.read("timestamp.json")? {
        Some(bytes) => visit_from(alloc, after, last, &bytes, visitor),
        None => visit_roots(alloc, after, last, visitor),
    }
}

// The same where a timestamp is held.
fn visit_from<V: FileVisitor>(
    alloc: Global,
    after: u32,
    last: u32,
    bytes: &[u8],
    visitor: &mut V,
) -> Result<(), V::Fault>
    ensures { OnOk result (Became V.Stands visitor.old visitor.new (λ files more. files timestamp_name ≡ Some bytes.now
        → AreJust (IsServed files after last) more × IsInOrder files last more)) }
{
    one_document();
    one_shape();
    match read_document(alloc, Kind::Timestamp, bytes) {
        Ok(document) => visit_timestamp(alloc, after, last, bytes, &document.body, visitor),
        Err(fault) => {
            unless_memory::<V::Fault>(fault)?;
            visit_roots(alloc, after, last, visitor)?;
            visitor.visit_metadata(Kind::Timestamp, "timestamp.json", bytes, None)
        }
    }
}

// The fault of a walk for want of memory, and nothing where a file is no document.
fn unless_memory<F: From<AllocError>>(fault: ShapeFault) -> Result<(), F>
    ensures well { OnOk result (fault ≡ ShapeFault.OutOfMemory → ⊥) }
    ensures memory { OnErr result (fault ≡ ShapeFault.OutOfMemory) }
{
    match fault {
        ShapeFault::OutOfMemory => Err(F::from(AllocError)),
        _ => Ok(()),
    }
}

// What a timestamp names, the roots, and the timestamp.
fn visit_timestamp<V: FileVisitor>(
    alloc: Global,
    after: u32,
    last: u32,
    bytes: &[u8],
    body: &Body,
    visitor: &mut V,
) -> Result<(), V::Fault>
    requires { IsBodyOf kinds.Timestamp bytes.now (body_view body.now) }
    ensures { OnOk result (Became V.Stands visitor.old visitor.new (λ files more. files timestamp_name ≡ Some bytes.now
        → AreJust (IsServed files after last) more × IsInOrder files last more)) }
{
    visit_named(alloc, body, visitor)?;
    visit_roots(alloc, after, last, visitor)?;
    visitor.visit_metadata(Kind::Timestamp, "timestamp.json", bytes, Some(body))
}

// What is of the snapshot that a timestamp names.
fn visit_named<V: FileVisitor>(alloc: Global, body: &Body, visitor: &mut V) -> Result<(), V::Fault>
    ensures { OnOk result (Became V.Stands visitor.old visitor.new (λ files more. AreInOrder files (IsNamedBy files (body_view body.now)) more)) }
{
    match body {
        Body::Timestamp(timestamp) => visit_version(alloc, timestamp.snapshot.version, visitor),
        _ => Ok(()),
    }
}

// What is of the snapshot of this version.
fn visit_version<V: FileVisitor>(
    alloc: Global,
    version: u32,
    visitor: &mut V,
) -> Result<(), V::Fault>
    ensures { OnOk result (Became V.Stands visitor.old visitor.new (λ files more. AreInOrder files (IsOfSnapshot files (snapshot_name version)) more)) }
{
    let name = metadata_name(alloc, version, "snapshot")?;
    match visitor.read(name.as_str())? {
        Some(bytes) => visit_snapshot(alloc, name.as_str(), &bytes, visitor),
        None => Ok(()),
    }
}

// What a held snapshot lists, and the snapshot.
fn visit_snapshot<V: FileVisitor>(
    alloc: Global,
    name: &str,
    bytes: &[u8],
    visitor: &mut V,
) -> Result<(), V::Fault>
    ensures { OnOk result (Became V.Stands visitor.old visitor.new (λ files more. files name.now ≡ Some bytes.now
        → AreInOrder files (IsOfSnapshot files name.now) more)) }
{
    one_document();
    one_shape();
    match read_document(alloc, Kind::Snapshot, bytes) {
        Ok(document) => visit_snapshot_body(alloc, name, bytes, &document.body, visitor),
        Err(fault) => {
            unless_memory::<V::Fault>(fault)?;
            visitor.visit_metadata(Kind::Snapshot, name, bytes, None)
        }
    }
}

fn visit_snapshot_body<V: FileVisitor>(
    alloc: Global,
    name: &str,
    bytes: &[u8],
    body: &Body,
    visitor: &mut V,
) -> Result<(), V::Fault>
    requires { IsBodyOf kinds.Snapshot bytes.now (body_view body.now) }
    ensures { OnOk result (Became V.Stands visitor.old visitor.new (λ files more. files name.now ≡ Some bytes.now
        → AreInOrder files (IsOfSnapshot files name.now) more)) }
{
    visit_roles_of(alloc, body, visitor)?;
    visitor.visit_metadata(Kind::Snapshot, name, bytes, Some(body))
}

// What is of the roles that a snapshot lists.
fn visit_roles_of<V: FileVisitor>(
    alloc: Global,
    body: &Body,
    visitor: &mut V,
) -> Result<(), V::Fault>
    ensures { OnOk result (Became V.Stands visitor.old visitor.new (λ files more. AreInOrder files (IsOfRolesBy files (body_view body.now)) more)) }
{
    match body {
        Body::Snapshot(snapshot) => visit_roles(alloc, &snapshot.meta, visitor),
        _ => Ok(()),
    }
}

fn visit_roles<V: FileVisitor>(
    alloc: Global,
    rows: &[(RoleName, Meta)],
    visitor: &mut V,
) -> Result<(), V::Fault>
    ensures { OnOk result (Became V.Stands visitor.old visitor.new (λ files more. AreInOrder files (IsOfRolesIn files (map (λ e. (e.0, meta_view e.1)) rows.now)) more)) }
{
    for row in rows {
        visit_role(alloc, row, visitor)?;
    }
    Ok(())
}

// What is of a role's targets metadata of a version.
fn visit_role<V: FileVisitor>(
    alloc: Global,
    row: &(RoleName, Meta),
    visitor: &mut V,
) -> Result<(), V::Fault>
    ensures { OnOk result (Became V.Stands visitor.old visitor.new (λ files more. AreInOrder files (IsOfRole files (dotted row.now.1.version row.now.0)) more)) }
{
    let name = metadata_name(alloc, row.1.version, row.0.as_str())?;
    match visitor.read(name.as_str())? {
        Some(bytes) => visit_targets(alloc, name.as_str(), &bytes, visitor),
        None => Ok(()),
    }
}

// The targets that held targets metadata list, and the metadata.
fn visit_targets<V: FileVisitor>(
    alloc: Global,
    name: &str,
    bytes: &[u8],
    visitor: &mut V,
) -> Result<(), V::Fault>
    ensures { OnOk result (Became V.Stands visitor.old visitor.new (λ files more. files name.now ≡ Some bytes.now
        → AreInOrder files (IsOfRole files name.now) more)) }
{
    one_document();
    one_shape();
    match read_document(alloc, Kind::Targets, bytes) {
        Ok(document) => visit_targets_body(name, bytes, &document.body, visitor),
        Err(fault) => {
            unless_memory::<V::Fault>(fault)?;
            visitor.visit_metadata(Kind::Targets, name, bytes, None)
        }
    }
}

fn visit_targets_body<V: FileVisitor>(
    name: &str,
    bytes: &[u8],
    body: &Body,
    visitor: &mut V,
) -> Result<(), V::Fault>
    requires { IsBodyOf kinds.Targets bytes.now (body_view body.now) }
    ensures { OnOk result (Became V.Stands visitor.old visitor.new (λ files more. files name.now ≡ Some bytes.now
        → AreInOrder files (IsOfRole files name.now) more)) }
{
    visit_listings_of(body, visitor)?;
    visitor.visit_metadata(Kind::Targets, name, bytes, Some(body))
}

// The targets that targets metadata list.
fn visit_listings_of<V: FileVisitor>(body: &Body, visitor: &mut V) -> Result<(), V::Fault>
    ensures { OnOk result (Became V.Stands visitor.old visitor.new (λ files more. AreInOrder files (IsListedBy (body_view body.now)) more)) }
{
    match body {
        Body::Targets(targets) => visit_listings(&targets.targets, visitor),
        _ => Ok(()),
    }
}

fn visit_listings<V: FileVisitor>(listings: &[Listing], visitor: &mut V) -> Result<(), V::Fault>
    ensures { OnOk result (Became V.Stands visitor.old visitor.new (λ files more. AreInOrder files (IsListedIn (map listing_view listings.now)) more)) }
{
    for listing in listings {
        visitor.visit_target(listing)?;
    }
    Ok(())
}

// The roots after a version, from the last down to the first that is not held.
fn visit_roots<V: FileVisitor>(
    alloc: Global,
    after: u32,
    last: u32,
    visitor: &mut V,
) -> Result<(), V::Fault>
    ensures { OnOk result (Became V.Stands visitor.old visitor.new (λ files more. AreJust (IsOfRoots files after last) more × StandAfter (LeadsTo files last) more)) }
{
    for before in (after..last).rev() {
        if !visit_root(alloc, before + 1, visitor)? {
            return Ok(());
        }
    }
    Ok(())
}

// A root, and whether it is held.
fn visit_root<V: FileVisitor>(
    alloc: Global,
    version: u32,
    visitor: &mut V,
) -> Result<bool, V::Fault>
    ensures { IfOk result (λ held. Became V.Stands visitor.old visitor.new (λ files more. TellsRoot files version held more)) }
{
    let name = metadata_name(alloc, version, "root")?;
    match visitor.read(name.as_str())? {
        Some(bytes) => {
            visitor.visit_root(name.as_str(), &bytes)?;
            Ok(true)
        }
        None => Ok(false),
    }
}
