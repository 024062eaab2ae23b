// The names of files in a consistent snapshot.
ghost use Rattle.std.specs.Prelude.{◌≡◌, ◌≢◌, ◌<◌, ◌∷◌, ◌++◌, ℕ, List, Some, Option, IfOk, IfSome, IfNone, length, option_map, string_bytes};
ghost use Rattle.hex.specs.Hex.{encode_lower};
ghost use Rattle.path_patterns.specs.Grammar.{IsTargetPath};
ghost use Rattle.path_patterns.specs.Names.{IsDigest, IsCutAtLast, IsNameOf, dotted};

use crate::{Digest, NoMemory, TargetPath};
use std::alloc::Global;

/// The path that a text asks for, and the digest that it names (TUF 1.0, section 6.2, consistent snapshots): where the last
/// segment of the text is 64 hex digits of lower case, a dot and at least one byte, the digits are the digest and the path
/// is the text without the digits and the dot. Otherwise the path is the text, and no digest is asked for. The last segment
/// is what stands after the last slash, or the whole text where there is none.
///
/// Any text may be asked. Whether the path is a target path is not judged.
pub fn read_asked(alloc: Global, text: &str) -> Result<(String, Option<Digest>), NoMemory>
    ensures { IfOk result (λ r. IsNameOf text.now (string_bytes r.0) (option_map (λ d. d.0) r.1)) }
{
    let (folder, last) = cut_at_last(text);
    match cut_off_digest(last) {
        None => {
            let path = String::from_str(alloc, text)?;
            Ok((path, None))
        }
        Some((digest, name)) => {
            let mut path = String::from_str(alloc, folder)?;
            path.push_str(name)?;
            Ok((path, Some(digest)))
        }
    }
}

/// The text that asks for this path with this digest, which `read_asked` takes apart into the two: the path with the
/// digest's 64 hex digits of lower case and a dot before its last segment (TUF 1.0, section 6.2).
pub fn consistent_name(
    alloc: Global,
    path: &TargetPath,
    digest: &Digest,
) -> Result<String, NoMemory>
    ensures { IfOk result (λ s. IsNameOf (string_bytes s) path.now (Some digest.now.0)) }
{
    let (folder, name) = cut_at_last(path.as_str());
    let digits = digest.text(alloc)?;
    let mut text = String::from_str(alloc, folder)?;
    text.push_str(digits.as_str())?;
    text.push_str(".")?;
    text.push_str(name)?;
    Ok(text)
}

/// The name of the metadata file of this version and role: `7.snapshot.json`, `2.targets.json` (TUF 1.0, section 6.2).
pub fn metadata_name(alloc: Global, version: u32, role: &str) -> Result<String, NoMemory>
    ensures { IfOk result (λ s. string_bytes s ≡ dotted version role.now) }
{
    let mut buffer = itoa::Buffer::new();
    let mut name = String::from_str(alloc, buffer.format(version))?;
    name.push_str(".")?;
    name.push_str(role)?;
    name.push_str(".json")?;
    Ok(name)
}

// What stands before the last segment of the text, and the last segment.
fn cut_at_last(text: &str) -> (&str, &str)
    ensures { IsCutAtLast text.now result.0.now result.1.now }
{
    match text.rfind('/') {
        None => ("", text),
        Some(slash) => text.split_at(slash + 1),
    }
}

// The digest whose digits the segment begins with, and what stands after the dot.
fn cut_off_digest(last: &str) -> Option<(Digest, &str)>
    ensures some { IfSome result (λ r. IsDigest r.0.0 × (last.now ≡ encode_lower r.0.0 ++ 46 ∷ r.1.now) × (0 < length r.1.now)) }
    ensures none { IfNone result ((d name : List ℕ) → IsDigest d → 0 < length name → last.now ≢ encode_lower d ++ 46 ∷ name) }
{
    let (digits, rest) = last.split_at_checked(64)?;
    let digest = Digest::read(digits)?;
    let name = rest.strip_prefix('.')?;
    if name.is_empty() {
        return None;
    }
    Some((digest, name))
}

/// A law, which does nothing: `read_asked` and `consistent_name` undo each other, also where the last segment of a path
/// looks like a consistent name itself. A text asks for one path with one digest or with none; a path with a digest is
/// asked for by one text, and every target path with a digest by some text.
pub fn names_undo()
    ensures asks_once { (text p q : List ℕ) (d e : Option (List ℕ)) → IsNameOf text p d → IsNameOf text q e → (p ≡ q) × (d ≡ e) }
    ensures asked_by_one { (s t path digest : List ℕ) → IsNameOf s path (Some digest) → IsNameOf t path (Some digest) → s ≡ t }
    ensures asked_by_some { (path digest : List ℕ) → IsTargetPath path → IsDigest digest
        → (text : List ℕ) × IsNameOf text path (Some digest) }
{}
