// The walk over the files of a repository, each of which is put into its place.
ghost use Rattle.std.specs.Prelude.{◌≡◌, ℕ, [], List, IfOk, string_bytes};
ghost use Rattle.served_files.specs.Order.{IsInOrder};
ghost use Rattle.served_files.specs.Served.{AreJust, Files, IsServed, ServedFile};
ghost use Rattle.exported_files.specs.Events.{Event};
ghost use Rattle.exported_files.specs.Exports.{Exported, Exports};

use crate::mirror::Mirror;
use crate::putting::{put_metadata, put_target};
use metadata::{Body, Kind, Listing};
use served_files::{FileVisitor, visit_files};
use std::alloc::Global;
use std::marker::{Brand, PhantomData};

// The folder of an export, for its proof.
trait Folder {
    ghost folder: { List ℕ };
}

impl Folder for Brand {
    ghost folder = { [] };
}

// What is done for each file that the walk tells of.
#[derive(Drop)]
struct Exporting<'a, K: Folder, M: Mirror> {
    alloc: Global,
    folder: &'a str,
    mirror: M,
    of: PhantomData<K>,
    ghost is_folder: { folder.now ≡ K.folder },
}

impl<K: Folder, M: Mirror> FileVisitor for Exporting<'_, K, M> {
    type Fault = M::Fault;

    ghost Stands = { λ files told x. Exported M.Holds K.folder files told x.mirror };

    fn read(&mut self, name: &str) -> Result<Option<Vec<u8>>, M::Fault> {
        self.mirror.metadata(name)
    }

    fn visit_root(&mut self, name: &str, bytes: &[u8]) -> Result<(), M::Fault> {
        put_metadata(self.alloc, self.folder, &mut self.mirror, name, bytes)
    }

    fn visit_metadata(
        &mut self,
        _kind: Kind,
        name: &str,
        bytes: &[u8],
        _body: Option<&Body>,
    ) -> Result<(), M::Fault> {
        put_metadata(self.alloc, self.folder, &mut self.mirror, name, bytes)
    }

    fn visit_target(&mut self, listing: &Listing) -> Result<(), M::Fault> {
        put_target(self.alloc, self.folder, &mut self.mirror, listing)
    }
}

/// Puts each file that a client may ask for into its place in the folder, where the last root has the version `last`, and answers the
/// mirror after it: target files before the metadata that list them, targets metadata, the snapshot, the roots from the last to the first,
/// and the timestamp. It ends at the first fault, and then nothing is claimed.
pub fn export_files<M: Mirror + Drop>(
    alloc: Global,
    folder: &str,
    last: u32,
    mirror: M,
) -> Result<M, M::Fault>
    ensures { IfOk result (λ after. (files : Files) → M.Holds files [] mirror
        → (told : List ServedFile) × (events : List Event) × AreJust (IsServed files 0 last) told × IsInOrder files last told
        × Exports folder.now told events × M.Holds files events after) }
{
    let folder = String::from_str(alloc, folder)?;
    export_into::<Brand, M>(alloc, &folder, last, mirror)
}

fn export_into<K: Folder, M: Mirror + Drop>(
    alloc: Global,
    folder: &String,
    last: u32,
    mirror: M,
) -> Result<M, M::Fault>
    requires { string_bytes folder.now ≡ K.folder }
    ensures { IfOk result (λ after. (files : Files) → M.Holds files [] mirror
        → (told : List ServedFile) × (events : List Event) × AreJust (IsServed files 0 last) told × IsInOrder files last told
        × Exports K.folder told events × M.Holds files events after) }
{
    let mut exporting = Exporting::<K, M> {
        alloc,
        folder: folder.as_str(),
        mirror,
        of: PhantomData,
    };
    visit_files(alloc, 0, last, &mut exporting)?;
    let Exporting { mirror, .. } = exporting;
    Ok(mirror)
}
