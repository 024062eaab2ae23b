//! Files that commands read and write: input files, standard output, files that come into their places, folders of drafts with their
//! locks, and the files of databases.
#![tactic(auto)]

mod databases;
mod files;
mod folder;
mod locking;
mod on_disk;

pub use databases::{connected, see_database};
pub use files::{names_of, print, read, read_at_most, read_regular, regular, unused};
pub use folder::{FOR_ALL, Folder};
pub use limits::FILE_LIMIT;
pub use locking::FolderLock;
pub use on_disk::{OWNER_ALONE, OnDisk, are_one_file, put_in_place, put_told};
