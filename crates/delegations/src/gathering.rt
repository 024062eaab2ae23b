// The edges of a shelf, and the verdicts on one document over all of them.
ghost use Rattle.std.specs.Prelude.{◌≡◌, ◌≤◌, ◌++◌, List, [], ◌∷◌, Some, IfOk, MatchOption, length, map, slice_get};
ghost use Rattle.keys_roles.specs.Rules.{AreDistinct};
ghost use Rattle.keys_roles.specs.Verdicts.{AreVerdicts};
ghost use Rattle.keys_roles.specs.Views as keys;
ghost use Rattle.keys_roles.specs.Views.{verdict_views};
ghost use Rattle.metadata.specs.File.{Names};
ghost use Rattle.metadata.specs.FileViews.{targets_file};
ghost use Rattle.document_parts.specs.Views.{delegation_view};
ghost use Rattle.delegations.specs.Delegation as graph;
ghost use Rattle.delegations.specs.Search as plain;
ghost use Rattle.delegations.specs.Search.{doc, edge_of};
ghost use Rattle.delegations.specs.Views.{edge_view, shelf_view};
ghost use Rattle.delegations.specs.steps.Gathering.{AreEdges, IsGathered};

use crate::shelf::{Edge, Shelf};
use crate::verdicts::document;
use keys_roles::{Steps, Verdict, with_verdicts};
use metadata::{Delegations, File, Targets};
use std::alloc::{AllocError, Global};

/// The edges of a shelf: the root's into `targets`, and one for each delegation of each document.
pub(crate) fn all_edges<'a>(alloc: Global, shelf: &Shelf<'a>) -> Result<Vec<Edge<'a>>, AllocError>
    ensures { IfOk result (λ es. AreEdges (shelf_view shelf.now) [] (map edge_view es.items)) }
{
    let mut edges = Vec::new(alloc);
    edges.push(shelf.top())?;
    let mut rest = shelf.snapshot.meta.as_slice();
    'roles: while let Some((entry, later)) = rest.split_first() {
        edges = with_edges_of(edges, shelf, entry.0.as_str())?;
        rest = later;
    }
    Ok(edges)
}

// Edges with those of a role's document, where it has one.
fn with_edges_of<'a>(
    edges: Vec<Edge<'a>>,
    shelf: &Shelf<'a>,
    role: &str,
) -> Result<Vec<Edge<'a>>, AllocError>
    ensures { IfOk result (λ es. (left : Names) → AreEdges (shelf_view shelf.now) (role.now ∷ left) (map edge_view edges.entry.items) → AreEdges (shelf_view shelf.now) left (map edge_view es.items)) }
{
    let Some((_, file)) = document(shelf, role) else {
        return Ok(edges);
    };
    match &file.body.delegations {
        Some(delegations) => with_edges(edges, delegations),
        None => Ok(edges),
    }
}

// Edges with those of a document's delegations.
fn with_edges<'a>(
    edges: Vec<Edge<'a>>,
    delegations: &'a Delegations,
) -> Result<Vec<Edge<'a>>, AllocError>
    ensures { IfOk result (λ es. map edge_view es.items ≡ map edge_view edges.entry.items ++ map (edge_of (keys.table_view delegations.now.keys)) (map delegation_view delegations.now.roles.items)) }
{
    let mut edges = edges;
    let mut rest = delegations.roles.as_slice();
    'delegations: while let Some((delegation, later)) = rest.split_first() {
        edges.push(Edge {
            role: delegation.name.as_str(),
            terminating: delegation.terminating,
            rule: &delegation.rule,
            keys: &delegations.keys,
        })?;
        rest = later;
    }
    Ok(edges)
}

/// The verdicts on the document of a role, over all edges into it, each pair once. What is known already is not checked again.
pub(crate) fn gather(
    alloc: Global,
    edges: &[Edge],
    role: &str,
    file: &File<Targets>,
    known: &[Verdict],
) -> Result<Vec<Verdict>, AllocError>
    requires { AreVerdicts (targets_file file.now).signed (targets_file file.now).entries (verdict_views known.now) }
    ensures { IfOk result (λ vs. (V : plain.Shelf) → doc V role.now ≡ Some (targets_file file.now) → AreEdges V [] (map edge_view edges.now)
        → IsGathered V role.now (targets_file file.now) [] (verdict_views vs.items)) }
{
    let mut verdicts = Vec::new(alloc);
    let mut next = 0;
    'edges: while let Some(edge) = edge_at(edges, next) {
        verdicts = gather_over(verdicts, &edge, role, file, known)?;
        next += 1;
    }
    Ok(verdicts)
}

// The edge at the place.
fn edge_at<'a>(edges: &[Edge<'a>], place: usize) -> Option<Edge<'a>>
    ensures { MatchOption result (length edges.now ≤ place) (λ e. slice_get edges.now place ≡ Some e) }
{
    match edges.get(place) {
        Some(edge) => Some(*edge),
        None => None,
    }
}

// Verdicts on the document of a role with those over one more edge, if it is one into the role.
fn gather_over(
    verdicts: Vec<Verdict>,
    edge: &Edge,
    role: &str,
    file: &File<Targets>,
    known: &[Verdict],
) -> Result<Vec<Verdict>, AllocError>
    requires known { AreVerdicts (targets_file file.now).signed (targets_file file.now).entries (verdict_views known.now) }
    requires sound { AreVerdicts (targets_file file.now).signed (targets_file file.now).entries (verdict_views verdicts.items) }
    requires distinct { AreDistinct (map (λ v. v.pair) (verdict_views verdicts.items)) }
    ensures sound { IfOk result (λ vs. AreVerdicts (targets_file file.now).signed (targets_file file.now).entries (verdict_views vs.items)) }
    ensures distinct { IfOk result (λ vs. AreDistinct (map (λ v. v.pair) (verdict_views vs.items))) }
    ensures gathered { IfOk result (λ vs. (V : plain.Shelf) (left : List graph.Edge) → doc V role.now ≡ Some (targets_file file.now)
        → IsGathered V role.now (targets_file file.now) (edge_view edge.now ∷ left) (verdict_views verdicts.items)
        → IsGathered V role.now (targets_file file.now) left (verdict_views vs.items)) }
{
    if *edge.role != *role {
        return Ok(verdicts);
    }
    with_verdicts(
        verdicts,
        edge.rule,
        edge.keys,
        file.source.signed(),
        file.source.signatures(),
        known,
        &mut Steps::new(),
    )
}
