//! One command at a time writes in a folder of drafts.
use crate::files::unused;
use cli_faults::{Fault, Notes, Slip};
use std::fs::{File, TryLockError};
use std::io::Write;
use std::thread;
use std::time::Duration;

// So often the lock is asked for, and so many milliseconds lie between.
const TRIES: u32 = 100;

const BETWEEN: u64 = 100;

/// What keeps other commands from writing in a folder: a lock of the folder itself, which leaves no file in it. The system lets go of it with
/// the process, however that ends.
#[derive(Drop)]
pub struct FolderLock {
    _folder: File,
}

impl FolderLock {
    /// The lock of a folder that is there. One that another command has is waited for, ten seconds long. A file system that has no locks is
    /// warned of.
    pub(crate) fn of<E: Write>(
        rt: &HostRuntime,
        path: &str,
        notes: &mut Notes<'_, E>,
    ) -> Result<FolderLock, Fault> {
        let folder = match File::open(rt, path) {
            Ok(folder) => folder,
            Err(error) => return Err(unused(path, &error, notes)),
        };
        if is_locked(rt, &folder, path, notes) {
            return Ok(FolderLock { _folder: folder });
        }
        notes.fault(&path, &"another command is writing in it; try again");
        Err(Fault::Slip(Slip::Busy))
    }
}

fn is_locked<E: Write>(
    rt: &HostRuntime,
    folder: &File,
    path: &str,
    notes: &mut Notes<'_, E>,
) -> bool {
    for _ in 0..TRIES {
        match folder.try_lock() {
            Ok(()) => return true,
            Err(TryLockError::WouldBlock) => thread::sleep(rt, Duration::from_millis(BETWEEN)),
            Err(TryLockError::Error(error)) => {
                notes.warn(&path, &error);
                return true;
            }
        }
    }
    false
}
