//! Seed files.
ghost use Rattle.std.specs.Prelude.{◌≡◌, IfNone, IfSome};
ghost use Rattle.lms.specs.declared.Seed.{Seed as Seeds};
ghost use Rattle.signer.specs.Seeds.{IsSeedFile};

use keys_roles::read_digits;
use lms::Seed;

/// The seed that a file holds: I and SEED (RFC 8554, appendix A) in 96 hex digits of lower case, and a line feed. `None` is answered for
/// any other file. It takes no memory.
pub fn read_seed(file: &[u8]) -> Option<Seed>
    ensures some { IfSome result (IsSeedFile file.now) }
    ensures none { IfNone result ((seed : Seeds) → IsSeedFile file.now seed → ⊥) }
{
    if file.len() != 97 || file[96] != b'\n' {
        return None;
    }
    let mut identifier = [0; 16];
    let mut secret = [0; 32];
    if !read_digits(&file[..32], &mut identifier) || !read_digits(&file[32..96], &mut secret) {
        return None;
    }
    Some(Seed { identifier, secret })
}
