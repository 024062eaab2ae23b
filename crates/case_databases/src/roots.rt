//! Roots that may follow one another: one key, of the seed 1, for all roles, and its leaf 0 signs each of them. They are signed
//! here, since `lms::sign` hashes the whole tree for each.
use sha2::{Digest, Sha256};
use std::alloc::{AllocError, Global};

// The signed part, up to the version.
const SIGNED: &str =
    "{\"_type\":\"root\",\"consistent_snapshot\":true,\"expires\":\"2031-01-01T00:00:00Z\",\"keys\":{\"34f4bb3f1c145bb86b4327af8a78f5372c7821cb812e3c6daca2fe7cca113db9\":{\"keytype\":\"lms\",\"keyval\":{\"public\":\"00000005000000030101010101010101010101010101010166bf6f5816eee4bbf33c50acb480e09b4169ebb533372959bc4315c388e501ac\"},\"scheme\":\"lms-sha256\"}},\"roles\":{\"root\":{\"keyids\":[\"34f4bb3f1c145bb86b4327af8a78f5372c7821cb812e3c6daca2fe7cca113db9\"],\"threshold\":1},\"snapshot\":{\"keyids\":[\"34f4bb3f1c145bb86b4327af8a78f5372c7821cb812e3c6daca2fe7cca113db9\"],\"threshold\":1},\"targets\":{\"keyids\":[\"34f4bb3f1c145bb86b4327af8a78f5372c7821cb812e3c6daca2fe7cca113db9\"],\"threshold\":1},\"timestamp\":{\"keyids\":[\"34f4bb3f1c145bb86b4327af8a78f5372c7821cb812e3c6daca2fe7cca113db9\"],\"threshold\":1}},\"spec_version\":\"1.0.31\",\"version\":";

const KEY_ID: &str = "34f4bb3f1c145bb86b4327af8a78f5372c7821cb812e3c6daca2fe7cca113db9";

// The tree's type, and the siblings of the nodes from leaf 0 to the root.
const PATH: &str =
    "0000000583ad372deb888b0f63bde74c3f7ac5e982938d57ace512124218de371f2fc0039b0798edc45323daeb4c0b11adde7de99a2cc63c85923e31c00da8f6658a4abe2616cea68d60c35bcefa373b5d3d3540bb121518d3555f33e037b4d54737a78b88f0c9f58afbfaba3c29d2fddbc2da71e490c6b6b8069dd645101dee3504df4b1eda4b899045814e59afb9ec706879fdb9fd5b7a0b3a1172cb3c48cb637c22ce";

// The identifier, and the bytes of the seed and of the randomizer.
const IDENTIFIER: [u8; 16] = [1; 16];

const ONES: [u8; 32] = [1; 32];

// A hash at this place of a chain of leaf 0 (RFC 8554, section 4.5).
fn link(chain: u16, place: u8, bytes: &[u8; 32]) -> [u8; 32] {
    let mut hasher = Sha256::new();
    hasher.update(IDENTIFIER);
    hasher.update([0; 4]);
    hasher.update(chain.to_be_bytes());
    hasher.update([place]);
    hasher.update(bytes);
    hasher.finalize()
}

// What a chain is after so many steps from its private element (RFC 8554, appendix A).
fn element(chain: u16, steps: u8) -> [u8; 32] {
    let mut bytes = link(chain, 0xff, &ONES);
    for place in 0..steps {
        bytes = link(chain, place, &bytes);
    }
    bytes
}

// The steps of each chain for a hash: its half bytes, and those of the sum of what each of them lacks of 15.
fn steps_of(alloc: Global, hash: &[u8; 32]) -> Result<Vec<u8>, AllocError> {
    let mut steps = Vec::new(alloc);
    let mut lacking = 0u16;
    for byte in hash {
        for half in [byte / 16, byte % 16] {
            steps.push(half)?;
            lacking = lacking.saturating_add(u16::from(15u8.saturating_sub(half)));
        }
    }
    let [high, low] = lacking.to_be_bytes();
    steps.push(high)?;
    steps.push(low / 16)?;
    steps.push(low % 16)?;
    Ok(steps)
}

// The hash of a message, with leaf 0 and the randomizer.
fn hash_of(message: &[u8]) -> [u8; 32] {
    let mut hasher = Sha256::new();
    hasher.update(IDENTIFIER);
    hasher.update([0, 0, 0, 0, 0x81, 0x81]);
    hasher.update(ONES);
    hasher.update(message);
    hasher.finalize()
}

// The signature of a message, in hex.
fn signature_of(alloc: Global, message: &[u8]) -> Result<String, AllocError> {
    let mut bytes = Vec::from_slice(alloc, &[0, 0, 0, 0, 0, 0, 0, 3])?;
    bytes.extend_from_slice(&ONES)?;
    let mut chain = 0u16;
    for steps in steps_of(alloc, &hash_of(message))?.iter() {
        bytes.extend_from_slice(&element(chain, *steps))?;
        chain = chain.saturating_add(1);
    }
    let mut text = hex::encode(alloc, bytes.as_slice())?;
    text.push_str(PATH)?;
    Ok(text)
}

/// The root of this version.
pub fn root_file(alloc: Global, version: u32) -> Result<String, AllocError> {
    let signed = format!(in alloc; "{SIGNED}{version}}}")?;
    let signature = signature_of(alloc, signed.as_bytes())?;
    format!(in alloc;
        "{{\"signatures\":[{{\"keyid\":\"{KEY_ID}\",\"sig\":\"{signature}\"}}],\"signed\":{signed}}}"
    )
}
