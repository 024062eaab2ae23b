// What a snapshot says of a role, and what targets metadata says of a path. Both lists are in the order of their names, so
// each is searched by halves.
ghost use Rattle.std.specs.Prelude.{◌≡◌, ◌++◌, codes, find, option_map, bytes_eq};
ghost use Rattle.keys_roles.specs.Plain.{look_up};
ghost use Rattle.document_parts.specs.Sorted.{compared};
ghost use Rattle.document_parts.specs.Views.{meta_view, snapshot_view, listing_view, targets_view};

use crate::documents::{Listing, Meta, Snapshot, Targets};
use std::cmp::Ordering;

impl Snapshot {
    /// What the snapshot says of the role's document (TUF 1.0, section 4.4, METAFILES). It takes no memory.
    pub fn entry(&self, role: &str) -> Option<&Meta>
        ensures { option_map (λ m. meta_view m.now) result ≡ look_up (snapshot_view self.now).meta role.now }
    {
        let rows = self.meta.as_slice();
        match rows.binary_search_by(|row| compare_files(row.0.as_str(), role)) {
            Ok(at) => Some(&rows[at].1),
            Err(_) => None,
        }
    }
}

impl Targets {
    /// What the targets metadata says of the path (TUF 1.0, section 4.5, TARGETS). It takes no memory.
    pub fn listing(&self, path: &str) -> Option<&Listing>
        ensures { option_map (λ l. listing_view l.now) result ≡ find (λ l. bytes_eq l.path path.now) (targets_view self.now).targets }
    {
        let listings = self.targets.as_slice();
        match listings.binary_search_by(|listing| listing.path.as_str().cmp(path)) {
            Ok(at) => Some(&listings[at]),
            Err(_) => None,
        }
    }
}

// How the files `ROLE.json` of two roles stand to each other.
fn compare_files(role: &str, other: &str) -> Ordering
    ensures { result ≡ compared (role.now ++ codes ".json") (other.now ++ codes ".json") }
{
    let file = role.bytes().chain(".json".bytes());
    let other_file = other.bytes().chain(".json".bytes());
    file.cmp(other_file)
}
