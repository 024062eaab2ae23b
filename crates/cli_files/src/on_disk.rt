//! Files that come into their places whole, on the disk.
use crate::files::unused;
use cli_faults::{Fault, Notes};
use cli_placing::{Found, Places};
use std::fs::{self, File, Permissions};
use std::io::{self, ErrorKind, Write};
use std::os::unix::fs::{MetadataExt, OpenOptionsExt, PermissionsExt};
use std::process;

// Who may read, write and run a file.
const MODE_BITS: u32 = 0o777;

/// The mode of a file that is its owner's alone.
pub const OWNER_ALONE: u32 = 0o600;

/// The file system of the machine, in which a file is put into its place. Each call of `Places` is one call of `std::fs`.
#[derive(Clone, Copy)]
pub struct OnDisk<'a> {
    rt: &'a HostRuntime,
}

impl<'a> OnDisk<'a> {
    pub fn new(rt: &'a HostRuntime) -> OnDisk<'a> {
        OnDisk { rt }
    }
}

impl Places for OnDisk<'_> {
    type File = File;

    fn process(&self) -> u32 {
        process::id(self.rt.process())
    }

    fn look(&mut self, place: &str) -> io::Result<Found> {
        match fs::symlink_metadata(self.rt, place) {
            Ok(found) if found.is_file() => Ok(Found::File(found.permissions().mode() & MODE_BITS)),
            Ok(_) => Ok(Found::Other),
            Err(error) if error.kind() == ErrorKind::NotFound => Ok(Found::Nothing),
            Err(error) => Err(error),
        }
    }

    fn create(&mut self, name: &str, mode: u32) -> io::Result<File> {
        File::options()
            .write(true)
            .create_new(true)
            .mode(mode)
            .open(self.rt, name)
    }

    fn write(&mut self, file: &mut File, bytes: &[u8]) -> io::Result<()> {
        file.write_all(bytes)
    }

    fn give_mode(&mut self, file: &File, mode: u32) -> io::Result<()> {
        file.set_permissions(Permissions::from_mode(mode))
    }

    fn sync(&mut self, file: &File) -> io::Result<()> {
        file.sync_all()
    }

    fn rename(&mut self, from: &str, to: &str) -> io::Result<()> {
        fs::rename(self.rt, from, to)
    }

    fn remove(&mut self, name: &str) -> io::Result<()> {
        fs::remove_file(self.rt, name)
    }
}

/// Puts a file of these bytes into its place, where a file may stand. It is written beside the place, in the same folder, and
/// renamed onto it once the disk has it: at each moment the place has what stood there before, or the whole file. After an error
/// it has what stood there before. What is no file, a link too, is not replaced. The file has the mode of the one that stood there, and
/// where none did this one, less the process's mask.
pub fn put_in_place(rt: &HostRuntime, place: &str, bytes: &[u8], mode: u32) -> io::Result<()> {
    let mut disk = OnDisk::new(rt);
    cli_placing::put_in_place(rt.alloc(), &mut disk, place, bytes, mode)
}

/// The same, and why it was not done is told.
pub fn put_told<E: Write>(
    rt: &HostRuntime,
    place: &str,
    bytes: &[u8],
    mode: u32,
    notes: &mut Notes<'_, E>,
) -> Result<(), Fault> {
    match put_in_place(rt, place, bytes, mode) {
        Ok(()) => Ok(()),
        Err(error) => Err(unused(place, &error, notes)),
    }
}

/// Whether two paths lead to one file, by whatever names. Where one of them leads to none, they do not.
pub fn are_one_file(rt: &HostRuntime, one: &str, other: &str) -> bool {
    match (fs::metadata(rt, one), fs::metadata(rt, other)) {
        (Ok(one), Ok(other)) => one.dev() == other.dev() && one.ino() == other.ino(),
        _ => false,
    }
}
