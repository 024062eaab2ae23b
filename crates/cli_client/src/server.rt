//! Where `update` and `get` fetch files from, and how that is told.
use cli_faults::{Fault, Notes};
use cli_files::Folder;
use cli_sockets::Port;
use cli_tasks::Server;
use mirrors::{Mirror, read_mirror};
use std::fmt;
use std::io::Write;

/// How many are asked.
pub fn count_of(server: &Server) -> usize {
    match server {
        Server::Port(_) => 1,
        Server::Mirrors(urls) => urls.len(),
        Server::Folders { folders, mirrors } => folders.len().saturating_add(mirrors.len()),
    }
}

/// Whether more than one is asked.
pub fn are_several(server: &Server) -> bool {
    count_of(server) > 1
}

/// The one at a place in the order in which they are asked.
pub fn peer_at(server: &Server, place: usize) -> Option<Peer<'_>> {
    match server {
        Server::Port(port) => Some(Peer::Port(*port)),
        Server::Mirrors(urls) => mirror_at(urls, place),
        Server::Folders { folders, mirrors } => match folders.get(place) {
            Some(folder) => Some(Peer::Folder(folder.as_str())),
            None => mirror_at(mirrors, place.checked_sub(folders.len())?),
        },
    }
}

fn mirror_at(urls: &[String], place: usize) -> Option<Peer<'_>> {
    let url = urls.get(place)?.as_str();
    let mirror = read_mirror(url)?;
    Some(Peer::Mirror(url, mirror))
}

/// Each of the folders is there.
pub fn see_folders<E: Write>(
    rt: &HostRuntime,
    server: &Server,
    notes: &mut Notes<'_, E>,
) -> Result<(), Fault> {
    if let Server::Folders { folders, .. } = server {
        for folder in folders {
            Folder::new(rt, folder.as_str()).see(notes)?;
        }
    }
    Ok(())
}

/// A port of 127.0.0.1, or folders and mirrors, as notes name them.
#[derive(Clone, Copy)]
pub struct Named<'a>(pub &'a Server);

impl fmt::Display for Named<'_> {
    fn fmt<W: fmt::Write>(&self, f: &mut fmt::Formatter<W>) -> fmt::Result {
        match self.0 {
            Server::Port(port) => write!(f, "{}", Port(*port)),
            Server::Mirrors(urls) => write_each(f, "", urls),
            Server::Folders { folders, mirrors } => {
                write_each(f, "", folders)?;
                write_each(f, ", ", mirrors)
            }
        }
    }
}

// The texts, with a comma between each two, and before the first of them what stands between it and what was written.
fn write_each<W: fmt::Write>(
    f: &mut fmt::Formatter<W>,
    before: &str,
    texts: &[String],
) -> fmt::Result {
    let mut between = before;
    for text in texts {
        write!(f, "{between}{text}")?;
        between = ", ";
    }
    Ok(())
}

/// One of them: the port, a mirror by its URL, or a folder.
#[derive(Clone, Copy)]
pub enum Peer<'a> {
    Port(u16),
    Mirror(&'a str, Mirror<'a>),
    Folder(&'a str),
}

impl<'a> Peer<'a> {
    /// The text that names it: of a port none does.
    pub fn name(&self) -> &'a str {
        match self {
            Peer::Port(_) => "port",
            Peer::Mirror(name, _) | Peer::Folder(name) => name,
        }
    }
}

impl fmt::Display for Peer<'_> {
    fn fmt<W: fmt::Write>(&self, f: &mut fmt::Formatter<W>) -> fmt::Result {
        match self {
            Peer::Port(port) => write!(f, "{}", Port(*port)),
            Peer::Mirror(name, _) | Peer::Folder(name) => write!(f, "{name}"),
        }
    }
}

/// What one is asked for: a file by its name, of at most so many bytes.
#[derive(Clone, Copy)]
pub struct Asked<'a> {
    pub peer: Peer<'a>,
    pub name: &'a str,
    pub limit: usize,
}

impl fmt::Display for Asked<'_> {
    fn fmt<W: fmt::Write>(&self, f: &mut fmt::Formatter<W>) -> fmt::Result {
        let name = self.name;
        match self.peer {
            Peer::Port(_) => write!(f, "{name}"),
            Peer::Mirror(place, _) | Peer::Folder(place) => write!(f, "{place}: {name}"),
        }
    }
}
