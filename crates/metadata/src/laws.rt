//! Laws of documents, in functions that do nothing.
ghost use Rattle.std.specs.Prelude.{◌≡◌, ◌↔◌, ℕ, List, map, Err, None, IsTrue};
ghost use Rattle.std.specs.List.{AllByRecursion};
ghost use Rattle.path_patterns.specs.Grammar.{IsName};
ghost use Rattle.canonical_json.specs.Json.{Json};
ghost use Rattle.keys_roles.specs.Rules.{AreDistinct};
ghost use Rattle.metadata.specs.BeforeLevels.{WasDocument};
ghost use Rattle.metadata.specs.BeforeProfiles.{WasRoot};
ghost use Rattle.document_parts.specs.Covers.{Covers, covers, RequiresLayout, requires_layout};
ghost use Rattle.document_parts.specs.Documents.{Delegation, Document, Root, Snapshot, first_profile};
ghost use Rattle.document_parts.specs.Bodies.{IsListable, IsRoot};
ghost use Rattle.metadata.specs.File.{Bytes, File, IsFileOf, IsDeniedShape, root_form, timestamp_form, snapshot_form, targets_form, layout_form, link_form};
ghost use Rattle.denials.specs.Orders.{Denied, Plain};
ghost use Rattle.metadata.specs.Shape.{IsDocument};
ghost use Rattle.metadata.specs.Shaped.{shaped};
ghost use Rattle.document_parts.specs.declared.documents.Kind.{Kind};
ghost use Rattle.document_parts.specs.declared.documents.Kind.TheVariants as kinds;

use path_patterns::tests_tell;

/// A law, which does nothing: a snapshot lists roles by their names, each once, and none whose document no snapshot lists.
pub fn snapshot_names()
    ensures names { (f : File Snapshot) → IsFileOf snapshot_form f → AllByRecursion (λ e. IsName e.0 × IsListable e.0) f.body.meta }
    ensures distinct { (f : File Snapshot) → IsFileOf snapshot_form f → AreDistinct (map (λ e. e.0) f.body.meta) }
{}

/// A law, which does nothing: a file of another shape is denied with just the number of the first check that fails.
pub fn denied_shapes()
    ensures roots { (b : Bytes) (n : ℕ) → shaped root_form b (Err (Denied (Plain n))) ↔ IsDeniedShape kinds.Root b n }
    ensures timestamps { (b : Bytes) (n : ℕ) → shaped timestamp_form b (Err (Denied (Plain n))) ↔ IsDeniedShape kinds.Timestamp b n }
    ensures snapshots { (b : Bytes) (n : ℕ) → shaped snapshot_form b (Err (Denied (Plain n))) ↔ IsDeniedShape kinds.Snapshot b n }
    ensures targets { (b : Bytes) (n : ℕ) → shaped targets_form b (Err (Denied (Plain n))) ↔ IsDeniedShape kinds.Targets b n }
    ensures layouts { (b : Bytes) (n : ℕ) → shaped layout_form b (Err (Denied (Plain n))) ↔ IsDeniedShape kinds.Layout b n }
    ensures links { (b : Bytes) (n : ℕ) → shaped link_form b (Err (Denied (Plain n))) ↔ IsDeniedShape kinds.Link b n }
{}

/// A law, which does nothing: the test by which a search follows a delegation holds exactly where one of its patterns
/// matches the path, its wildcards standing for no slash, or one of its prefixes covers it.
pub fn covers_tell()
    ensures { (d : Delegation) (path : Bytes) → IsTrue (covers d path) ↔ (Covers d path) }
{
    tests_tell();
}

/// A law, which does nothing: the test by which a root requires a layout of a path holds exactly where one of its patterns
/// matches the path, its wildcards standing for no slash.
pub fn required_tell()
    ensures { (r : Root) (path : Bytes) → IsTrue (requires_layout r path) ↔ (RequiresLayout r path) }
{
    tests_tell();
}

/// A law, which does nothing: what was a root before roots had profiles is one now, of the first profile and without required
/// layouts, and no other root is such a one; so a member that the first profile doesn't know says nothing in it.
pub fn first_roots_as_before()
    ensures { (signed : Json) (r : Root) → WasRoot signed r ↔ (IsRoot signed r × (r.profile ≡ first_profile) × (r.required ≡ None)) }
{}

/// A law, which does nothing: a file that was a document before signatures of several levels, when a rule might still name one key
/// by two ids and a signature had at most 18,648 hex digits, is the same document now.
pub fn accepted_before()
    ensures { (kind : Kind) (bytes : List ℕ) (d : Document) → WasDocument kind bytes d → IsDocument kind bytes d }
{}
