// Which paths a delegation covers, and for which a root requires a layout.
ghost use Rattle.std.specs.Prelude.{◌≡◌};
ghost use Rattle.std.specs.List.{list_any};
ghost use Rattle.path_patterns.specs.Tests as tests;
ghost use Rattle.document_parts.specs.Covers.{covers, requires_layout};
ghost use Rattle.document_parts.specs.Views.{delegation_view, root_view};

use crate::documents::{Delegation, Root, Scope};
use path_patterns::{Pattern, TargetPath, matches_segmented, some_prefix_covers, tests_tell};

impl Delegation {
    /// Whether the delegation covers the path: one of its patterns matches it, a wildcard standing for no slash, or its digest
    /// begins with one of its prefixes (TUF 1.0, section 4.5, PATHPATTERN and path_hash_prefixes). It takes no memory.
    pub fn covers(&self, path: &TargetPath) -> bool
        ensures { result ≡ covers (delegation_view self.now) path.now }
    {
        match &self.scope {
            Scope::Patterns(patterns) => some_matches(patterns, path),
            Scope::Prefixes(prefixes) => some_prefix_covers(prefixes, path),
        }
    }
}

impl Root {
    /// Whether the root requires a layout of a target of this path: one of its patterns matches the path, a wildcard standing for
    /// no slash (this project's profile of TUF 1.0, section 4.3). It takes no memory.
    pub fn requires_layout(&self, path: &TargetPath) -> bool
        ensures { result ≡ requires_layout (root_view self.now) path.now }
    {
        match &self.required {
            Some(patterns) => some_matches(patterns, path),
            None => false,
        }
    }
}

// Whether one of the patterns matches the path.
fn some_matches(patterns: &[Pattern], path: &TargetPath) -> bool
    ensures { result ≡ list_any (λ p. tests.matches_segmented p path.now) patterns.now }
{
    let mut rest = patterns;
    'patterns: while let Some((pattern, later)) = rest.split_first() {
        if is_match(pattern, path) {
            return true;
        }
        rest = later;
    }
    false
}

fn is_match(pattern: &Pattern, path: &TargetPath) -> bool
    ensures { result ≡ tests.matches_segmented pattern.now path.now }
{
    tests_tell();
    matches_segmented(pattern, path)
}
