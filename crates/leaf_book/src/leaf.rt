//! A leaf that is to be spent, and the signature that spends it.
ghost use Rattle.std.specs.Prelude.{◌≡◌, ◌<◌, IfOk};
ghost use Rattle.lms.specs.Keys.{leaf_count, public_of};
ghost use Rattle.lms.specs.Verifies.{Verifies};
ghost use Rattle.keys_roles.specs.Views.{id_text};
ghost use Rattle.leaf_book.specs.Calls.{IsSeedOf, signature_by};

use crate::faults::NoMemory;
use keys_roles::KeyId;
use lms::{KeyPair, Params, Seed};
use std::alloc::{AllocError, Global};
use std::marker::Model;

/// A leaf that `Book::reserve` has answered: the key, the number of the leaf, the parameters of the key's tree, and the message
/// that the leaf is kept for. It is no `Drop`, no `Copy` and no `Clone`, so it has to be spent, by `sign` or by being handed on,
/// and once only.
pub struct Leaf {
    key: KeyId,
    number: u32,
    params: Params,
    message: Vec<u8>,
}

impl Model for Leaf {
    ghost use Rattle.std.specs.Prelude.{◌<◌};
    ghost use Rattle.lms.specs.Keys.{leaf_count};
    ghost use Rattle.keys_roles.specs.Views.{id_text};
    ghost use Rattle.leaf_book.specs.Calls.{Reserved};
    ghost use Rattle.leaf_book.specs.Views.{reserved_code};

    ghost Value = { Reserved };

    ghost coded = { reserved_code };

    ghost view = { λ l. record { key = id_text l.key; leaf = l.number; params = l.params; message = l.message.items } };

    ghost invariant = { λ l. l.number < leaf_count l.params };
}

impl Leaf {
    // A leaf of these parts.
    pub(crate) fn of(key: KeyId, number: u32, params: Params, message: Vec<u8>) -> Leaf
        requires { number < leaf_count params }
        ensures { result ≡ record { key = id_text key; leaf = number; params = params; message = message.items } }
    {
        Leaf {
            key,
            number,
            params,
            message,
        }
    }
}

/// The signature of the leaf's message by the leaf (RFC 8554, section 5.4.1), which spends the leaf. The seed must be that of the
/// leaf's key. On `NoMemory` the leaf stays kept for the message: reserving the message again gives the same leaf.
pub fn sign(alloc: Global, leaf: Leaf, seed: &Seed) -> Result<Vec<u8>, NoMemory>
    requires { IsSeedOf seed.now leaf }
    ensures signature { IfOk result (λ bytes. bytes.items ≡ signature_by seed.now leaf) }
    ensures verifies { IfOk result (λ bytes. Verifies (public_of seed.now leaf.params) leaf.message bytes.items) }
{
    let Leaf {
        key: _,
        number,
        params,
        message,
    } = leaf;
    let mut out = Vec::new(alloc);
    match lms::sign(seed, params, number, message.as_slice(), &mut out) {
        Ok(()) => Ok(out),
        Err(_) => Err(AllocError),
    }
}

/// The same by a key pair whose tree is hashed already.
pub fn sign_with(alloc: Global, leaf: Leaf, pair: &KeyPair) -> Result<Vec<u8>, NoMemory>
    requires seed { IsSeedOf pair.now.seed leaf }
    requires params { pair.now.params ≡ leaf.params }
    ensures signature { IfOk result (λ bytes. bytes.items ≡ signature_by pair.now.seed leaf) }
    ensures verifies { IfOk result (λ bytes. Verifies (public_of pair.now.seed leaf.params) leaf.message bytes.items) }
{
    let Leaf {
        key: _,
        number,
        params: _,
        message,
    } = leaf;
    let mut out = Vec::new(alloc);
    match pair.sign(number, message.as_slice(), &mut out) {
        Ok(()) => Ok(out),
        Err(_) => Err(AllocError),
    }
}
