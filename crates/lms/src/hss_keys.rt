//! Keys of the hierarchical scheme of two levels (RFC 8554, sections 6.1 and 6.2).
ghost use Rattle.std.specs.Prelude.{◌≡◌, ◌⊎◌, ◌++◌, ◌<◌, ◌≤◌, Err, IfErr, IfOk, length};
ghost use Rattle.lms.specs.Text.{u32};
ghost use Rattle.lms.specs.Keys.{leaf_count as leaf_count_of, pair, signature_of};
ghost use Rattle.lms.specs.Hss.{VerifiesHss};
ghost use Rattle.lms.specs.HssKeys.{child_of as child_seed, hss_pair, hss_public_of, hss_signature_of, message_count_of};

use crate::arrays::place;
use crate::keys::derived;
use crate::parts::front;
use crate::{KeyPair, Levels, Params, Seed, SignFault, SigningHeight};
use std::alloc::{AllocError, Global};
use std::marker::Model;

// The numbers that the seed of the tree below a leaf is derived with.
const CHILD_SECRET: u16 = 0xfffe;

const CHILD_IDENTIFIER: u16 = 0xffff;

// The levels of a key, and the keys that are signed in a signature.
const LEVELS: u32 = 2;

const SIGNED_KEYS: u32 = 1;

/// The seed of the tree whose public key leaf `q` signs: SEED and I, derived like the leaf's private elements.
pub fn child_of(seed: &Seed, q: u32) -> Seed
    ensures { result ≡ child_seed seed.now q }
{
    let hash = derived(seed, q, CHILD_IDENTIFIER);
    let (identifier, _) = front::<16>(&hash);
    Seed {
        identifier: *identifier,
        secret: derived(seed, q, CHILD_SECRET),
    }
}

/// The public key of two levels (section 6.1) whose top tree has this one: u32 L and that. It takes no memory.
pub fn hss_public(top: &[u8; 56]) -> [u8; 60]
    ensures { result ≡ u32 2 ++ top.now }
{
    let mut public = [0; 60];
    place(&mut public, 0, &LEVELS.to_be_bytes());
    place(&mut public, 4, top);
    public
}

// How many leaves a tree has.
fn leaf_count(params: Params) -> u32
    ensures value { result ≡ leaf_count_of params }
    ensures some { 0 < result }
    ensures few { result ≤ 1024 }
{
    match params.height {
        SigningHeight::H5 => 32,
        SigningHeight::H10 => 1024,
    }
}

/// A signature of two levels (section 6.2): that of the lower tree's public key by a leaf of the top tree, this key, and that of the
/// message by a leaf of the lower tree.
pub fn join_levels(
    alloc: Global,
    first: &[u8],
    public: &[u8; 56],
    last: &[u8],
) -> Result<Vec<u8>, AllocError>
    ensures { IfOk result (λ bytes. bytes.items ≡ u32 1 ++ (first.now ++ (public.now ++ last.now))) }
{
    let mut bytes = Vec::new(alloc);
    bytes.extend_from_slice(&SIGNED_KEYS.to_be_bytes())?;
    bytes.extend_from_slice(first)?;
    bytes.extend_from_slice(public)?;
    bytes.extend_from_slice(last)?;
    Ok(bytes)
}

// The signature of a tree's leaf.
fn signed(alloc: Global, pair: &KeyPair, q: u32, message: &[u8]) -> Result<Vec<u8>, AllocError>
    ensures { IfOk result (λ bytes. bytes.items ≡ signature_of pair.now.seed pair.now.params q message.now) }
{
    let mut bytes = Vec::new(alloc);
    match pair.sign(q, message, &mut bytes) {
        Ok(()) => Ok(bytes),
        Err(_) => Err(AllocError),
    }
}

// A law, which does nothing.
fn has_size(seed: &Seed)
    ensures { length seed.now.identifier ≡ 16 }
{
    let _first = seed.identifier[0];
}

/// A key pair of two levels, with the pair of its top tree, whose leaves are hashed once. Contracts see the seed and the levels.
#[derive(Drop)]
pub struct HssKeyPair {
    seed: Seed,
    levels: Levels,
    top: KeyPair,
}

impl Model for HssKeyPair {
    ghost use Rattle.std.specs.Prelude.{◌≡◌};
    ghost use Rattle.lms.specs.Keys.{pair};
    ghost use Rattle.lms.specs.HssKeys.{HssPair, hss_pair};

    ghost Value = { HssPair };

    ghost view = { λ p. hss_pair p.seed p.levels };

    ghost invariant = { λ p. p.top ≡ pair p.seed p.levels.top };
}

impl HssKeyPair {
    /// The key pair of the seed. It hashes each leaf of the top tree once, and no leaf below it.
    pub fn new(alloc: Global, seed: &Seed, levels: Levels) -> Result<HssKeyPair, AllocError>
        ensures { IfOk result (λ p. p ≡ hss_pair seed.now levels) }
    {
        Ok(HssKeyPair {
            seed: *seed,
            levels,
            top: KeyPair::new(alloc, seed, levels.top)?,
        })
    }

    /// The parameters of its levels.
    pub fn levels(&self) -> Levels
        ensures { result ≡ self.now.levels }
    {
        self.levels
    }

    /// The pair of its top tree.
    pub fn top(&self) -> &KeyPair
        ensures { result.now ≡ pair self.now.seed self.now.levels.top }
    {
        &self.top
    }

    /// The pair of the tree whose public key leaf `q` of the top tree signs. It hashes each leaf of this tree once.
    pub fn below(&self, alloc: Global, q: u32) -> Result<KeyPair, AllocError>
        ensures { IfOk result (λ p. p ≡ pair (child_seed self.now.seed q) self.now.levels.bottom) }
    {
        let seed = child_of(&self.seed, q);
        KeyPair::new(alloc, &seed, self.levels.bottom)
    }

    /// Its public key (section 6.1): u32 L and the public key of the top tree. It takes no memory.
    pub fn public(&self) -> [u8; 60]
        ensures { result ≡ hss_public_of self.now.seed self.now.levels }
    {
        hss_public(&self.top.public())
    }

    /// How many messages it signs: the leaves of the top tree times those of a tree below.
    pub fn message_count(&self) -> u32
        ensures value { result ≡ message_count_of self.now.levels }
        ensures few { result ≤ 1048576 }
    {
        leaf_count(self.levels.top) * leaf_count(self.levels.bottom)
    }

    // How many leaves a tree below has.
    fn leaves_below(&self) -> u32
        ensures value { result ≡ leaf_count_of self.now.levels.bottom }
        ensures some { 0 < result }
    {
        leaf_count(self.levels.bottom)
    }

    // A law, which does nothing.
    fn sized(&self)
        ensures { length self.now.seed.identifier ≡ 16 }
    {
        has_size(&self.seed);
    }

    // The signature, of which it is not said that it verifies.
    fn signature(&self, alloc: Global, g: u32, message: &[u8]) -> Result<Vec<u8>, AllocError>
        requires { g < message_count_of self.now.levels }
        ensures { IfOk result (λ bytes. bytes.items ≡ hss_signature_of self.now.seed self.now.levels g message.now) }
    {
        let leaves = self.leaves_below();
        let q = g / leaves;
        let below = match self.below(alloc, q) {
            Ok(below) => below,
            Err(fault) => return Err(fault),
        };
        let public = below.public();
        let first = match signed(alloc, self.top(), q, &public) {
            Ok(first) => first,
            Err(fault) => return Err(fault),
        };
        let last = match signed(alloc, &below, g % leaves, message) {
            Ok(last) => last,
            Err(fault) => return Err(fault),
        };
        join_levels(alloc, first.as_slice(), &public, last.as_slice())
    }

    /// The signature of the message with the lowest leaf `g`: leaf g / 2^h of the top tree signs the public key of the tree below, of
    /// height h, and leaf g % 2^h of this tree the message. The same arguments always make the same bytes. `LeafRange`: there is no such
    /// leaf. It hashes each leaf of one tree below once.
    pub fn sign(&self, alloc: Global, g: u32, message: &[u8]) -> Result<Vec<u8>, SignFault>
        ensures ok { IfOk result (λ bytes. (g < message_count_of self.now.levels) × (bytes.items ≡ hss_signature_of self.now.seed self.now.levels g message.now)) }
        ensures verifies { IfOk result (λ bytes. VerifiesHss (hss_public_of self.now.seed self.now.levels) message.now bytes.items) }
        ensures range { message_count_of self.now.levels ≤ g → result ≡ Err SignFault.LeafRange }
        ensures fault { IfErr result (λ e. (e ≡ SignFault.OutOfMemory) ⊎ ((e ≡ SignFault.LeafRange) × (message_count_of self.now.levels ≤ g))) }
    {
        self.sized();
        if g >= self.message_count() {
            return Err(SignFault::LeafRange);
        }
        match self.signature(alloc, g, message) {
            Ok(bytes) => Ok(bytes),
            Err(_) => Err(SignFault::OutOfMemory),
        }
    }
}
