//! What the server at a port of 127.0.0.1 is asked besides a batch. A question that gets no answer costs its warning, and nothing else.
use crate::wire::{Wire, connected, host};
use cli_faults::{Fault, Notes};
use cli_files::FILE_LIMIT;
use cli_repository::HeldFiles;
use cli_sockets::Port;
use http_fetch::fetch_over;
use path_patterns::metadata_name;
use std::alloc::Global;
use std::io::Write;

// An answer has so many seconds.
const ANSWER_SECONDS: u64 = 10;

// So often a version is doubled, and an interval of versions halved, to find the newest root.
const ROOT_QUESTIONS: u32 = 13;

/// The port that is asked.
#[derive(Clone, Copy)]
pub struct Asking<'a> {
    pub rt: &'a HostRuntime,
    pub port: u16,
}

impl Asking<'_> {
    // What the server answers for a metadata file.
    fn answer(&self, alloc: Global, name: &str) -> Option<Option<Vec<u8>>> {
        let name = format!(in alloc; "metadata/{name}").ok()?;
        let host = host(alloc, self.port).ok()?;
        let (stream, timer) = connected(self.rt, "127.0.0.1", self.port, ANSWER_SECONDS).ok()?;
        let mut writer = Wire::new(&stream, timer, ANSWER_SECONDS);
        let mut reader = Wire::new(&stream, timer, ANSWER_SECONDS);
        fetch_over(
            alloc,
            &mut writer,
            &mut reader,
            host.as_str(),
            name.as_str(),
            FILE_LIMIT,
        )
        .ok()
    }

    // The root of a version.
    fn root(&self, version: u32) -> Option<Option<Vec<u8>>> {
        let alloc = self.rt.alloc();
        let name = metadata_name(alloc, version, "root").ok()?;
        self.answer(alloc, name.as_str())
    }

    // The version of a root that the server has, 0 where it has none, and twice that, of which it has none: 1, 2, 4 and so on are asked for.
    fn root_between(&self) -> Option<(u32, u32)> {
        let (mut least, mut next) = (0u32, 1u32);
        for _ in 0..ROOT_QUESTIONS {
            if self.root(next)?.is_none() {
                return Some((least, next));
            }
            least = next;
            next = next.saturating_mul(2);
        }
        Some((least, next))
    }
}

// What the server holds, as far as it answers.
impl HeldFiles for Asking<'_> {
    fn ask(&self, alloc: Global, name: &str) -> Option<Option<Vec<u8>>> {
        self.answer(alloc, name)
    }

    // The roots of a repository have the versions from 1 on, so the newest one lies between one that is there and one that is not.
    fn root_version(&self) -> Option<u32> {
        let (mut least, mut beyond) = self.root_between()?;
        for _ in 0..ROOT_QUESTIONS {
            if beyond.saturating_sub(least) > 1 {
                let middle = least.saturating_add(beyond) / 2;
                match self.root(middle)? {
                    Some(_) => least = middle,
                    None => beyond = middle,
                }
            }
        }
        if least == 0 { None } else { Some(least) }
    }
}

/// The root of a version that the server at a port has, if it has one. One that does not answer is a fault of the network.
pub fn root_at<E: Write>(
    rt: &HostRuntime,
    port: u16,
    version: u32,
    notes: &mut Notes<'_, E>,
) -> Result<Option<Vec<u8>>, Fault> {
    match (Asking { rt, port }).root(version) {
        Some(root) => Ok(root),
        None => {
            notes.fault(&Port(port), &"no answer");
            Err(Fault::Network)
        }
    }
}
