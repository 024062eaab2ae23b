// Writing into arrays.

ghost use Rattle.std.specs.Prelude.{◌≡◌, ◌+◌, ◌++◌, ◌≤◌, length, take, drop};

/// Writes the bytes over those from `at` on.
#[inline(always)]
pub fn place(target: &mut [u8], at: usize, bytes: &[u8])
    requires { at + length bytes.now ≤ length target.old }
    ensures front { take (at + length bytes.now) target.new ≡ take at target.old ++ bytes.now }
    ensures back { drop (at + length bytes.now) target.new ≡ drop (at + length bytes.now) target.old }
{
    target[at..at + bytes.len()].copy_from_slice(bytes);
}
