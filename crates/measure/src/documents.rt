use crate::failure::Failure;
use crate::rate::{now, rate};
use metadata::{Kind, read_document};
use std::alloc::Global;
use std::fs;
use std::rt::{Clock, Files};
use std::time::Duration;

/// Prints how many bytes the file has, and how often per second it is read as a document of this kind.
pub fn measure(
    rt: &(impl Files + Clock + Print + AllocGlobal),
    rounds: u32,
    kind: &str,
    file: &str,
) -> Result<(), Failure> {
    let Some(read_as) = kind_of(kind) else {
        return Err(Failure::Usage);
    };
    let bytes = fs::read(rt, file)?;
    let reading = time_of_reading(rt, rt.alloc(), rounds, read_as, &bytes)?;
    println!(rt; "{kind} {} read {}", bytes.len(), rate(1, rounds, reading))?;
    Ok(())
}

fn time_of_reading(
    rt: &impl Clock,
    alloc: Global,
    rounds: u32,
    kind: Kind,
    bytes: &[u8],
) -> Result<Duration, Failure> {
    let start = now(rt)?;
    for _ in 0..rounds {
        see(alloc, kind, bytes)?;
    }
    Ok(now(rt)?.duration_since(start))
}

fn see(alloc: Global, kind: Kind, bytes: &[u8]) -> Result<(), Failure> {
    let _document = read_document(alloc, kind, bytes)?;
    Ok(())
}

fn kind_of(word: &str) -> Option<Kind> {
    match word {
        "root" => Some(Kind::Root),
        "timestamp" => Some(Kind::Timestamp),
        "snapshot" => Some(Kind::Snapshot),
        "targets" => Some(Kind::Targets),
        "layout" => Some(Kind::Layout),
        "link" => Some(Kind::Link),
        _ => None,
    }
}
