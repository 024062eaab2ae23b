// Whether links say the same.
ghost use Rattle.std.specs.Prelude.{◌≡◌, ◌↔◌, map, IsTrue};
ghost use Rattle.std.specs.List.{AllByRecursion};
ghost use Rattle.document_parts.specs.RuleViews.{artifacts_view, link_view};
ghost use Rattle.layout_files.specs.steps.Spelled.{artifact_views};
ghost use Rattle.layouts.specs.Layouts.{SameArtifacts};
ghost use Rattle.layouts.specs.steps.Gathering.{FirstAgrees, goods_view};

use crate::step_links::Good;
use metadata::{Artifacts, Digest, Link};
use path_patterns::TargetPath;

/// Whether each of the links has the artifacts of the first.
pub(crate) fn all_agree(goods: &[Good<'_>]) -> bool
    ensures { IsTrue result ↔ (FirstAgrees (goods_view goods.now)) }
{
    match goods.split_first() {
        Some((first, later)) => agree_with(first.link, later),
        None => true,
    }
}

// Whether each of the links has the artifacts of this one.
fn agree_with(link: &Link, goods: &[Good<'_>]) -> bool
    ensures { IsTrue result ↔ (AllByRecursion (λ g. SameArtifacts (link_view link.now) g.0) (goods_view goods.now)) }
{
    match goods.split_first() {
        Some((good, later)) => is_same_link(link, good.link) && agree_with(link, later),
        None => true,
    }
}

// Whether the links have the same artifacts.
fn is_same_link(a: &Link, b: &Link) -> bool
    ensures { IsTrue result ↔ (SameArtifacts (link_view a.now) (link_view b.now)) }
{
    are_same(&a.materials, &b.materials) && are_same(&a.products, &b.products)
}

// Whether the artifacts are the same.
fn are_same(a: &Artifacts, b: &Artifacts) -> bool
    ensures { IsTrue result ↔ artifacts_view a.now ≡ artifacts_view b.now }
{
    are_same_rows(a.rows(), b.rows())
}

fn are_same_rows(a: &[(TargetPath, Digest)], b: &[(TargetPath, Digest)]) -> bool
    ensures { IsTrue result ↔ artifact_views a.now ≡ artifact_views b.now }
{
    let mut rest = a;
    let mut others = b;
    'rows: while let Some((row, later)) = rest.split_first() {
        let Some((other, behind)) = others.split_first() else {
            return false;
        };
        if !is_same_row(row, other) {
            return false;
        }
        rest = later;
        others = behind;
    }
    others.is_empty()
}

// Whether the rows are the same.
fn is_same_row(a: &(TargetPath, Digest), b: &(TargetPath, Digest)) -> bool
    ensures { IsTrue result ↔ ((a.now.0 ≡ b.now.0) × (a.now.1.0 ≡ b.now.1.0)) }
{
    a.0.as_str() == b.0.as_str() && a.1 == b.1
}
