//! Links (in-toto 1.0, section 4.4).
ghost use Rattle.std.specs.Prelude.{map};
ghost use Rattle.std.proofs.Props.{props};
ghost use Rattle.document_parts.specs.Sorted.{AreInOrder};

use path_patterns::{Digest, RoleName, TargetPath};

/// Artifacts by their paths, each with the digest of its bytes, in the order of the paths' bytes, none twice.
#[derive(Drop)]
pub struct Artifacts {
    pub rows: Vec<(TargetPath, Digest)>,
    ghost in_order: { AreInOrder (map (λ r. r.0) rows.items) } by { Prim.hlevel props },
}

/// What a link says: the step that it is of, and the step's artifacts before it and after it.
#[derive(Drop)]
pub struct Link {
    pub name: RoleName,
    pub materials: Artifacts,
    pub products: Artifacts,
}
