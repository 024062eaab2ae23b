//! What a book holds, in memory.
use keys_roles::KeyId;
use lms::Params;

/// A key that signs, and the parameters of its tree.
#[derive(Drop)]
pub struct Signer {
    pub key: KeyId,
    pub params: Params,
}

/// A leaf of a key, by its number, and the message that it is kept for.
#[derive(Drop)]
pub struct LeafRow {
    pub key: KeyId,
    pub leaf: u32,
    pub message: Vec<u8>,
}
