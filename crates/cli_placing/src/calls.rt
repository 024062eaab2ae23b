// The calls of a file system that put a file into its place.
ghost use Rattle.std.specs.Prelude.{ℕ, List, Option, None, IfOk, ⊤, is_ok};
ghost use Rattle.cli_placing.specs.Calls.{Call, Tells, did, look, seen, create, write, give_mode, sync, rename, remove};

use std::io;

/// What stands at a place.
#[derive(Clone, Copy)]
pub enum Found {
    /// Nothing.
    Nothing,
    /// A file, with its mode: who may read, write and run it.
    File(u32),
    /// Something else, as a folder or a link.
    Other,
}

/// The calls of a file system by which a file comes into its place. A name is a path, in UTF-8.
pub trait Places {
    /// A file that `create` made and that is still open.
    type File: Drop;

    /// The calls that were made so far, where they are known. Without a value of its own this claims nothing.
    ghost log: { Self → Option (List Call) } = { λ _. None };

    /// The open file was created under this name.
    ghost Names: { List ℕ → Self.File → Type 0 } = { λ _ _. ⊤ };

    /// A number that no other running process has.
    fn process(&self) -> u32;

    /// What stands at the place. A link is not followed.
    fn look(&mut self, place: &str) -> io::Result<Found>
        ensures { Tells (log self.old) (log self.new) (look place.now (seen result)) };

    /// A new file of no bytes under the name, with this mode less the process's mask. Where anything stands there, also a link, the error
    /// is `AlreadyExists`.
    fn create(&mut self, name: &str, mode: u32) -> io::Result<Self::File>
        ensures told { Tells (log self.old) (log self.new) (did (create name.now mode) (is_ok result)) }
        ensures file { IfOk result (λ file. Names name.now file) };

    /// Writes all of these bytes at the end of a file.
    fn write(&mut self, file: &mut Self::File, bytes: &[u8]) -> io::Result<()>
        ensures { (name : List ℕ) → Names name file.old
            → Names name file.new × Tells (log self.old) (log self.new) (did (write name bytes.now) (is_ok result)) };

    /// Gives a file this mode.
    fn give_mode(&mut self, file: &Self::File, mode: u32) -> io::Result<()>
        ensures { (name : List ℕ) → Names name file.now
            → Tells (log self.old) (log self.new) (did (give_mode name mode) (is_ok result)) };

    /// Waits until the disk has a file, with all that was written to it.
    fn sync(&mut self, file: &Self::File) -> io::Result<()>
        ensures { (name : List ℕ) → Names name file.now
            → Tells (log self.old) (log self.new) (did (sync name) (is_ok result)) };

    /// Gives the file of one name the other name, in the place of the file that has that one.
    fn rename(&mut self, from: &str, to: &str) -> io::Result<()>
        ensures { Tells (log self.old) (log self.new) (did (rename from.now to.now) (is_ok result)) };

    /// Removes the file of the name.
    fn remove(&mut self, name: &str) -> io::Result<()>
        ensures { Tells (log self.old) (log self.new) (did (remove name.now) (is_ok result)) };
}
