//! Keys of test seeds.
use crate::fault::Fault;
use crate::members::Members;
use crate::signing::Leaf;
use canonical_json::Value;
use keys_roles::{Key, key_id};
use lms::{KeyPair, OtsType, Params, Seed, SigningHeight};
use std::alloc::{AllocError, Global};

/// A key by its test seed: the LMS key of the seed, or the HSS key of so many levels that has it as its top key (RFC 8554, section 6).
#[derive(Debug, Clone, Copy, PartialEq, Eq)]
pub struct SeedKey {
    pub seed: u8,
    /// The levels of an HSS key, L; none of an LMS key.
    pub levels: Option<u32>,
}

/// The key pair of a seed, and a key whose top key is that of the pair: with its id and its public key in hex digits.
#[derive(Drop)]
struct Pair {
    key: SeedKey,
    top: KeyPair,
    id: String,
    public: String,
}

/// The key pairs of test seeds. The seed of a byte has an `I` of 16 such bytes and a `SEED` of 32 (RFC 8554, appendix A). All keys
/// have a tree of 32 leaves and one LM-OTS type.
#[derive(Drop)]
pub struct Keys {
    alloc: Global,
    ots: OtsType,
    pairs: Vec<Pair>,
}

impl Keys {
    /// No key pairs, of this LM-OTS type.
    pub fn new(alloc: Global, ots: OtsType) -> Self {
        Keys {
            alloc,
            ots,
            pairs: Vec::new(alloc),
        }
    }

    /// Makes the key, unless it is there: its whole top tree is hashed, once for all its signatures.
    pub fn make(&mut self, key: SeedKey) -> Result<(), AllocError> {
        if self.pair(key).is_ok() {
            return Ok(());
        }
        let pair = pair_of(self.alloc, key, self.ots)?;
        self.pairs.push(pair)?;
        Ok(())
    }

    fn pair(&self, key: SeedKey) -> Result<&Pair, Fault> {
        for pair in &self.pairs {
            if pair.key == key {
                return Ok(pair);
            }
        }
        Err(Fault::UnknownKey)
    }

    /// The id of the key, as 64 hex digits.
    pub fn id(&self, key: SeedKey) -> Result<&str, Fault> {
        Ok(self.pair(key)?.id.as_str())
    }

    /// The public key, as 112 hex digits, or 120 of an HSS key.
    pub fn public(&self, key: SeedKey) -> Result<&str, Fault> {
        Ok(self.pair(key)?.public.as_str())
    }

    /// The key as it stands in a key table.
    pub fn key_value(&self, key: SeedKey) -> Result<Value, Fault> {
        let public = self.public(key)?;
        let scheme = match key.levels {
            None => "lms-sha256",
            Some(_) => "hss-sha256",
        };
        let mut keyval = Members::new(self.alloc);
        keyval.put_text("public", public);
        let mut key = Members::new(self.alloc);
        key.put_text("keytype", "lms");
        key.put("keyval", keyval.object());
        key.put_text("scheme", scheme);
        key.object()
    }

    /// The entry of a signature of the message by the leaf, and where its key has several levels by those below it, as it stands in a
    /// file: each leaf signs the public key of the next one, and the last the message (RFC 8554, section 6.2).
    pub fn signature_value(
        &self,
        leaf: Leaf,
        below: &[Leaf],
        message: &[u8],
    ) -> Result<Value, Fault> {
        let signature = self.signature_of(leaf, below, message)?;
        let digits = hex::encode(self.alloc, &signature)?;
        let mut entry = Members::new(self.alloc);
        entry.put_text("keyid", self.id(leaf.key)?);
        entry.put_text("sig", digits.as_str());
        entry.object()
    }

    fn signature_of(&self, leaf: Leaf, below: &[Leaf], message: &[u8]) -> Result<Vec<u8>, Fault> {
        let mut signature = Vec::new(self.alloc);
        if let Some(levels) = leaf.key.levels {
            signature.extend_from_slice(&levels.wrapping_sub(1).to_be_bytes())?;
        }
        let (mut signer, mut number) = (&self.pair(leaf.key)?.top, leaf.number);
        for next in below {
            let lower = &self.pair(next.key)?.top;
            signer.sign(number, &lower.public(), &mut signature)?;
            signature.extend_from_slice(&lower.public())?;
            (signer, number) = (lower, next.number);
        }
        signer.sign(number, message, &mut signature)?;
        Ok(signature)
    }
}

fn pair_of(alloc: Global, key: SeedKey, ots: OtsType) -> Result<Pair, AllocError> {
    let seed = Seed {
        identifier: [key.seed; 16],
        secret: [key.seed; 32],
    };
    let params = Params {
        ots,
        height: SigningHeight::H5,
    };
    let top = KeyPair::new(alloc, &seed, params)?;
    let (id, public) = texts_of(alloc, key.levels, top.public())?;
    Ok(Pair {
        key,
        top,
        id,
        public,
    })
}

// The id and the public key of the key whose top key this is.
fn texts_of(
    alloc: Global,
    levels: Option<u32>,
    top: [u8; 56],
) -> Result<(String, String), AllocError> {
    let mut public = Vec::new(alloc);
    if let Some(levels) = levels {
        public.extend_from_slice(&levels.to_be_bytes())?;
    }
    public.extend_from_slice(&top)?;
    let key = match public.as_array::<60>() {
        Some(public) => Key::Hss(*public),
        None => Key::Lms(top),
    };
    let id = key_id(alloc, &key)?;
    Ok((hex::encode(alloc, &id.0)?, hex::encode(alloc, &public)?))
}
