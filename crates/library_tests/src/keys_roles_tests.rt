use keys_roles::{Key, KeyId, KeyTable, RoleRule, Signature, meets};
use lms::{OtsType, Params, Seed, SigningHeight, public_of, sign};
use std::test::Fail;

const PARAMS: Params = Params {
    ots: OtsType::W4,
    height: SigningHeight::H5,
};

const SEED: Seed = Seed {
    identifier: [1; 16],
    secret: [1; 32],
};

// The ids that the one key has.
const IDS: [KeyId; 2] = [KeyId([1; 32]), KeyId([3; 32])];

// No file says so: there the id of a key is its digest.
#[test]
fn a_key_of_two_ids_counts_once(rt: HostRuntime) -> Result<(), Fail> {
    let alloc = rt.alloc();
    let mut signature = Vec::new(alloc);
    assert_eq!(rt; sign(&SEED, PARAMS, 0, b"{}", &mut signature), Ok(()));
    let mut entries = Vec::new(alloc);
    let mut signatures = Vec::new(alloc);
    for keyid in IDS {
        entries.push((keyid, Key::Lms(public_of(&SEED, PARAMS))))?;
        let sig = hex::encode(alloc, &signature)?;
        signatures.push(Signature { keyid, sig })?;
    }
    let table = KeyTable { entries };
    for (threshold, is_met) in [(1, true), (2, false)] {
        let keyids = Vec::from_array(alloc, IDS)?;
        let rule = RoleRule { keyids, threshold };
        assert_eq!(rt; meets(&rule, &table, b"{}", &signatures), is_met);
    }
    Ok(())
}
