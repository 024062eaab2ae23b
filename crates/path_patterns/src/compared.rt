// Paths and names are compared, ordered and copied as their bytes.
ghost use Rattle.std.specs.Prelude.{◌≡◌, Some, nat_eq, refl};
ghost use Rattle.std.specs.Ordering.{nat_cmp};
ghost use Rattle.std.specs.Cmp.{partial_equiv_from_equiv};
ghost use Rattle.std.specs.Cmp.Lexicographic.{pointwise, slice_cmp, nat_list_eq_equiv, nat_list_cmp_total, texts_po, texts_ties};

use crate::{RoleName, TargetPath};
use std::alloc::AllocError;
use std::cmp::Ordering;

impl PartialEq for TargetPath {
    ghost eq = { pointwise nat_eq };

    ghost laws = { partial_equiv_from_equiv nat_list_eq_equiv };

    fn eq(&self, other: &TargetPath) -> bool {
        self.as_str() == other.as_str()
    }
}

impl Eq for TargetPath {
    ghost laws = { nat_list_eq_equiv };
}

impl PartialOrd for TargetPath {
    ghost partial_cmp = { λ x y. Some (slice_cmp nat_cmp x y) };

    ghost laws = { texts_po };

    fn partial_cmp(&self, other: &TargetPath) -> Option<Ordering> {
        Some(self.cmp(other))
    }
}

impl Ord for TargetPath {
    ghost cmp = { slice_cmp nat_cmp };

    ghost total = { nat_list_cmp_total };

    ghost matches_partial_cmp = { λ x y. refl };

    ghost matches_eq = { texts_ties };

    fn cmp(&self, other: &TargetPath) -> Ordering {
        self.as_str().cmp(other.as_str())
    }
}

impl Clone for TargetPath {
    ghost is_clone = { λ path copy. copy ≡ path };

    fn clone(&self) -> Result<TargetPath, AllocError> {
        let text = self.text.clone()?;
        Ok(TargetPath { text })
    }
}

impl PartialEq for RoleName {
    ghost eq = { pointwise nat_eq };

    ghost laws = { partial_equiv_from_equiv nat_list_eq_equiv };

    fn eq(&self, other: &RoleName) -> bool {
        self.as_str() == other.as_str()
    }
}

impl Eq for RoleName {
    ghost laws = { nat_list_eq_equiv };
}

impl PartialOrd for RoleName {
    ghost partial_cmp = { λ x y. Some (slice_cmp nat_cmp x y) };

    ghost laws = { texts_po };

    fn partial_cmp(&self, other: &RoleName) -> Option<Ordering> {
        Some(self.cmp(other))
    }
}

impl Ord for RoleName {
    ghost cmp = { slice_cmp nat_cmp };

    ghost total = { nat_list_cmp_total };

    ghost matches_partial_cmp = { λ x y. refl };

    ghost matches_eq = { texts_ties };

    fn cmp(&self, other: &RoleName) -> Ordering {
        self.as_str().cmp(other.as_str())
    }
}

impl Clone for RoleName {
    ghost is_clone = { λ name copy. copy ≡ name };

    fn clone(&self) -> Result<RoleName, AllocError> {
        let text = self.text.clone()?;
        Ok(RoleName { text })
    }
}
