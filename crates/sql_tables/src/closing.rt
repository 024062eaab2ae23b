// The end of a connection over two files: what the next open finds in them.
ghost use Rattle.std.specs.Prelude.{◌≡◌};
ghost use Rattle.sqlite.specs.Files.{file_state};
ghost use Rattle.sqlite.specs.State.{HasCleanDisk};
ghost use Rattle.sqlite_trees.specs.Tree.{Trees};
ghost use Rattle.sqlite_wal.specs.Files.{outcomes};
ghost use Rattle.sqlite_wal.specs.Reads.{AreClean};
ghost use Rattle.sqlite_wal.specs.Recovery.{Image};
ghost use Rattle.sql_tables.specs.Opening.{IsFound};

use sqlite::{Connection, FileStore, Files};
use sqlite_disk::Disk;

/// Hands back the files of a connection. What the next open of an image finds that a crash may leave of them is what the
/// connection may leave.
pub fn close<D: Disk + Drop>(conn: Connection<FileStore<D>>) -> Files<D>
    ensures clean { AreClean D.Disk result.log result.db → HasCleanDisk (file_state conn) }
    ensures left { AreClean D.Disk result.log result.db → (left : Image) → outcomes D.Disk result.log result.db left
        → (found : Trees) → IsFound left found → ∥ (file_state conn).may_leave found ∥₁ }
{
    let store = conn.into_store();
    store.close()
}
