//! Documents: which document a file is, and what of it was signed (TUF 1.0, sections 4.2 to 4.6; in-toto 1.0, sections 4.3 and 4.4).
//!
//! A file is canonical JSON of at most 262,144 bytes: an envelope of 0 to 16 signatures and the part that they are over.
//! Members of the signed part that no rule names are allowed, and signed over.
#![tactic(auto)]

mod delegations;
mod document;
mod envelope;
mod file;
mod laws;
mod listings;
mod references;
mod root;
mod signed;
mod snapshot;
mod source;
mod targets;
mod timestamp;

ghost use Rattle.std.specs.Prelude.{◌≡◌, List, ℕ};
ghost use Rattle.document_parts.specs.Documents as plain;
ghost use Rattle.metadata.specs.Shape.{IsDocument, IsShapeFault};
ghost use Rattle.document_parts.specs.declared.documents.Kind.{Kind};
ghost use Rattle.document_parts.specs.declared.documents.ShapeFault.{ShapeFault};

use canonical_json::one_spelling;
pub use document::{read_document, read_document_along};
pub use document_parts::dates::read_date_time;
pub use document_parts::documents::{
    Body, Delegation, Delegations, Document, Kind, Layout, LayoutReference, Listing, Meta, Profile,
    Root, Scope, ShapeFault, Snapshot, Step, Targets, Timestamp,
};
pub use document_parts::keys::read_texts;
pub use document_parts::links::{Artifacts, Link};
pub use document_parts::members::{four_members, items_of, members_of, text_of, two_members};
pub use document_parts::moment::{Moment, live};
pub use document_parts::rules::{Match, Rule, Side};
pub use document_parts::trail::{Part, Trail};
pub use file::{
    File, read_layout_file, read_link_file, read_root_file, read_snapshot_file, read_targets_file,
    read_timestamp_file,
};
pub use keys_roles::{Key, KeyId, KeyTable, RoleRule, Signature};
pub use laws::{
    accepted_before, covers_tell, denied_shapes, first_roots_as_before, required_tell,
    snapshot_names,
};
pub use layout_files::link::read_artifacts;
pub use layout_files::rules::read_rule;
pub use path_patterns::{Digest, Pattern, RoleName, TargetPath};
pub use signed::{SignedFile, read_signed};
pub use snapshot::is_listable;
pub use source::{Source, digest_of};

/// A law, which does nothing: a file spells at most one document of a kind.
pub fn one_document()
    ensures { (kind : Kind) (bytes : List ℕ) (d e : plain.Document) → IsDocument kind bytes d → IsDocument kind bytes e → d ≡ e }
{
    one_spelling();
}

/// A law, which does nothing: a file that spells a document has no fault of shape, and no file has two.
pub fn one_shape()
    ensures none { (kind : Kind) (bytes : List ℕ) (d : plain.Document) (f : ShapeFault) → IsDocument kind bytes d → IsShapeFault kind bytes f → ⊥ }
    ensures one { (kind : Kind) (bytes : List ℕ) (f g : ShapeFault) → IsShapeFault kind bytes f → IsShapeFault kind bytes g → f ≡ g }
{
    one_spelling();
}
