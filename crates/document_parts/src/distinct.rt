//! Whether names stand twice in a list.
ghost use Rattle.std.specs.Prelude.{◌≡◌, ◌↔◌, ℕ, List, map, IsTrue, string_bytes};
ghost use Rattle.keys_roles.specs.Rules.{AreDistinct};
ghost use Rattle.keys_roles.specs.steps.Counting.{IsIn};
ghost use Rattle.keys_roles.specs.Views.{id_text};

use keys_roles::{Signature, same_id};
use path_patterns::TargetPath;

/// What has a name among others of its kind.
pub trait Named {
    /// The name: a path, the name of a role or a step, or the digits of a key id.
    ghost name: { Self → List ℕ };

    /// Whether both have one name.
    fn is_namesake(&self, other: &Self) -> bool
        ensures { IsTrue result ↔ (name self.now ≡ name other.now) };
}

/// A text is its own name.
impl Named for String {
    ghost name = { string_bytes };

    fn is_namesake(&self, other: &String) -> bool {
        self.as_str() == other.as_str()
    }
}

/// A path is its own name.
impl Named for TargetPath {
    ghost name = { λ path. path };

    fn is_namesake(&self, other: &TargetPath) -> bool {
        self.as_str() == other.as_str()
    }
}

/// A signature has the name of its key.
impl Named for Signature {
    ghost name = { λ signature. id_text signature.keyid };

    fn is_namesake(&self, other: &Signature) -> bool {
        same_id(&self.keyid, &other.keyid)
    }
}

/// Whether no name stands twice.
pub fn are_distinct<T: Named>(items: &[T]) -> bool
    ensures { IsTrue result ↔ (AreDistinct (map T.name items.now)) }
{
    let mut rest = items;
    'items: while let Some((item, later)) = rest.split_first() {
        if is_among(later, item) {
            return false;
        }
        rest = later;
    }
    true
}

/// Whether the name of one stands among others.
pub fn is_among<T: Named>(items: &[T], item: &T) -> bool
    ensures { IsTrue result ↔ (IsIn (map T.name items.now) (T.name item.now)) }
{
    let mut rest = items;
    'items: while let Some((first, later)) = rest.split_first() {
        if first.is_namesake(item) {
            return true;
        }
        rest = later;
    }
    false
}
