//! Tests that want an end of a file or of a connection inside the process, which no script of `replay` and no command can have: disks that
//! fail at each of their calls under `store`, `leaf_book` and what `signer` does over it, and readers and writers that fail or take little,
//! one that never fails, and sockets under `http_messages` and `http_serve`.
#![tactic(auto)]

#[cfg(test)]
mod book_crashes;
#[cfg(test)]
mod cuts;
#[cfg(test)]
mod documents;
#[cfg(test)]
mod ends;
#[cfg(test)]
mod files;
#[cfg(test)]
mod loopback;
#[cfg(test)]
mod requests;
#[cfg(test)]
mod sockets;
#[cfg(test)]
mod sound;
#[cfg(test)]
mod store_crashes;
