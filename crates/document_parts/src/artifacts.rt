// The artifacts of a link, which are searched by halves.
ghost use Rattle.std.specs.Prelude.{◌≡◌, ◌++◌, ◌∷◌, map, option_map, IfSome, IfNone};
ghost use Rattle.keys_roles.specs.Plain.{look_up};
ghost use Rattle.document_parts.specs.RuleViews.{artifacts_view};
ghost use Rattle.document_parts.specs.Sorted.{AreInOrder, compared};
ghost use Rattle.document_parts.specs.steps.Rising.{comes_before, rises};

use crate::links::Artifacts;
use path_patterns::{Digest, TargetPath};
use std::cmp::Ordering;

impl Artifacts {
    /// The artifacts, if they are in order. It takes no memory.
    pub fn new(rows: Vec<(TargetPath, Digest)>) -> Option<Artifacts>
        ensures some { IfSome result (λ a. artifacts_view a ≡ map (λ r. (r.0, r.1.0)) rows.items) }
        ensures none { IfNone result (AreInOrder (map (λ r. r.0) rows.items) → ⊥) }
    {
        if !are_in_order(&rows) {
            return None;
        }
        Some(Artifacts { rows })
    }

    /// The artifacts in order. It takes no memory.
    pub fn rows(&self) -> &[(TargetPath, Digest)]
        ensures { map (λ r. (r.0, r.1.0)) result.now ≡ artifacts_view self.now }
    {
        self.rows.as_slice()
    }

    /// The digest of the artifact of this path. It takes no memory, and looks by halves.
    pub fn digest_of(&self, path: &str) -> Option<&Digest>
        ensures { option_map (λ d. d.now.0) result ≡ look_up (artifacts_view self.now) path.now }
    {
        let rows = self.rows.as_slice();
        match rows.binary_search_by(|row| row.0.as_str().cmp(path)) {
            Ok(at) => Some(&rows[at].1),
            Err(_) => None,
        }
    }

    /// The digest of the artifact whose path is the folder, a slash, and the rest. It takes no memory, and looks by halves.
    pub fn digest_in(&self, folder: &str, rest: &str) -> Option<&Digest>
        ensures { option_map (λ d. d.now.0) result ≡ look_up (artifacts_view self.now) (folder.now ++ 47 ∷ rest.now) }
    {
        let rows = self.rows.as_slice();
        match rows.binary_search_by(|row| compare_path(row.0.as_str(), folder, rest)) {
            Ok(at) => Some(&rows[at].1),
            Err(_) => None,
        }
    }
}

// How the path stands to that of the rest in the folder.
fn compare_path(path: &str, folder: &str, rest: &str) -> Ordering
    ensures { result ≡ compared path.now (folder.now ++ 47 ∷ rest.now) }
{
    let start = folder.bytes().chain("/".bytes());
    let other = start.chain(rest.bytes());
    path.bytes().cmp(other)
}

// Whether each path stands before all after it.
fn are_in_order(rows: &[(TargetPath, Digest)]) -> bool
    ensures { result ≡ rises (map (λ r. r.0) rows.now) }
{
    let mut rest = rows;
    'rows: while let Some((row, later)) = rest.split_first() {
        if !is_before(row.0.as_str(), later) {
            return false;
        }
        rest = later;
    }
    true
}

// Whether the path stands before that of the first row.
fn is_before(path: &str, later: &[(TargetPath, Digest)]) -> bool
    ensures { result ≡ comes_before path.now (map (λ r. r.0) later.now) }
{
    match later.first() {
        Some(next) => path.cmp(next.0.as_str()) == Ordering::Less,
        None => true,
    }
}
