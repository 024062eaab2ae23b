//! Which new documents are vouched for (TUF 1.0, section 5.6.7): by a search over the roles that chains of good documents reach.
ghost use Rattle.std.specs.Prelude.{◌≡◌, ◌↔◌, ◌+◌, ◌≤◌, ◌∷◌, ℕ, Some, IfOk, IfSome, IfNone, IsTrue, [], length, map, slice_get};
ghost use Rattle.metadata.specs.FileViews.{targets_file};
ghost use Rattle.document_parts.specs.Views.{delegations_view};
ghost use Rattle.delegations.specs.Delegation.{Hops, hops};
ghost use Rattle.delegations.specs.Search.{Good, Vouched, whole};
ghost use Rattle.delegations.specs.Verdicts.{AreFoundOut};
ghost use Rattle.delegations.specs.Views.{edge_view, shelf_view};
ghost use Rattle.delegations.specs.steps.Reaching.{IsOpen, Follows, Closes, unmet_rows, waiting, whole_of};

use crate::frames::Frame;
use crate::shelf::{Edge, Shelf};
use crate::verdicts::{Verdicts, document, of_row};
use crate::visited::is_among;
use crate::visiting::meets_edge;
use keys_roles::Steps;
use metadata::{Delegations, File, Moment, Targets, live};
use path_patterns::RoleName;
use std::alloc::{AllocError, Global};

// The delegations of the document at the end of the edge, if it is good and has some. One without delegations leads no further, so its
// signatures are not checked; of one that has some they are checked once, and known from then on.
fn onward<'a>(
    alloc: Global,
    shelf: &Shelf<'a>,
    known: &mut Verdicts,
    edge: &Edge,
    now: Moment,
) -> Result<Option<&'a Delegations>, AllocError>
    requires { AreFoundOut (shelf_view shelf.now).rows known.old }
    ensures some { IfOk result (λ o. IfSome o (λ ds. (g : Good (shelf_view shelf.now) (edge_view edge.now) now) × (g.file.body.delegations ≡ Some (delegations_view ds.now)))) }
    ensures none { IfOk result (λ o. IfNone o (Good (shelf_view shelf.now) (edge_view edge.now) now → hops (whole (shelf_view shelf.now)) (edge_view edge.now).role ≡ [])) }
    ensures known { AreFoundOut (shelf_view shelf.now).rows known.new }
{
    let Some((version, file)) = document(shelf, edge.role) else {
        return Ok(None);
    };
    let Some(delegations) = &file.body.delegations else {
        return Ok(None);
    };
    known.learn(alloc, edge, version, file)?;
    let verdicts = of_row(known.rows(), edge.role, version);
    if meets_edge(edge, file, verdicts, &mut Steps::new()) && live(file.body.expires, now) {
        Ok(Some(delegations))
    } else {
        Ok(None)
    }
}

// Follows one delegation of a role that was met: whether it vouches for the document. Otherwise its role is met too, where it is good and
// delegates something.
fn follow<'a>(
    alloc: Global,
    shelf: &Shelf<'a>,
    known: &mut Verdicts,
    role: &RoleName,
    new: &File<Targets>,
    now: Moment,
    edge: Edge<'a>,
    met: &mut Vec<&'a str>,
    todo: &mut Vec<Frame<'a>>,
) -> Result<bool, AllocError>
    requires { AreFoundOut (shelf_view shelf.now).rows known.old }
    ensures follows { IfOk result (λ b. (hs : Hops) (i : ℕ) → IsOpen (shelf_view shelf.now) now role.now (targets_file new.now) (map (λ n. n.now) met.old.items) (hs ∷ waiting todo.old.items)
        → slice_get hs i ≡ Some (Some (edge_view edge.entry))
        → Follows (shelf_view shelf.now) now role.now (targets_file new.now) (edge_view edge.entry) hs (map (λ n. n.now) met.old.items) (waiting todo.old.items) (map (λ n. n.now) met.new.items) (waiting todo.new.items) b) }
    ensures less { IfOk result (λ b. unmet_rows (shelf_view shelf.now).listing (map (λ n. n.now) met.new.items) + length todo.new.items
        ≤ unmet_rows (shelf_view shelf.now).listing (map (λ n. n.now) met.old.items) + length todo.old.items) }
    ensures known { AreFoundOut (shelf_view shelf.now).rows known.new }
{
    if *edge.role == *role.as_str() {
        return Ok(meets_edge(&edge, new, &[], &mut Steps::new()));
    }
    if is_among(met, edge.role) {
        return Ok(false);
    }
    let Some(delegations) = onward(alloc, shelf, &mut *known, &edge, now)? else {
        return Ok(false);
    };
    met.push(edge.role)?;
    todo.push(Frame {
        roles: &delegations.roles,
        keys: &delegations.keys,
    })?;
    Ok(false)
}

// Looks at all delegations of a role that was met: whether one vouches for the document.
fn expand<'a>(
    alloc: Global,
    shelf: &Shelf<'a>,
    known: &mut Verdicts,
    role: &RoleName,
    new: &File<Targets>,
    now: Moment,
    frame: Frame<'a>,
    met: &mut Vec<&'a str>,
    todo: &mut Vec<Frame<'a>>,
) -> Result<bool, AllocError>
    requires waits { IsOpen (shelf_view shelf.now) now role.now (targets_file new.now) (map (λ n. n.now) met.old.items) (whole_of frame ∷ waiting todo.old.items) }
    requires known { AreFoundOut (shelf_view shelf.now).rows known.old }
    ensures closes { IfOk result (λ b. Closes (shelf_view shelf.now) now role.now (targets_file new.now) (map (λ n. n.now) met.new.items) (waiting todo.new.items) b) }
    ensures less { IfOk result (λ b. unmet_rows (shelf_view shelf.now).listing (map (λ n. n.now) met.new.items) + length todo.new.items
        ≤ unmet_rows (shelf_view shelf.now).listing (map (λ n. n.now) met.old.items) + length todo.old.items) }
    ensures known { AreFoundOut (shelf_view shelf.now).rows known.new }
{
    let mut rest = frame.roles;
    'roles: while let Some((delegation, later)) = rest.split_first() {
        let edge = Edge {
            role: delegation.name.as_str(),
            terminating: delegation.terminating,
            rule: &delegation.rule,
            keys: frame.keys,
        };
        if follow(alloc, shelf, &mut *known, role, new, now, edge, met, todo)? {
            return Ok(true);
        }
        rest = later;
    }
    Ok(false)
}

/// Whether some chain of delegations vouches for a new document of the role: each document on the chain before it is good,
/// and the new document meets the rule by which the chain leads to its role. Which paths a delegation covers, and whether it is
/// terminating, plays no part. What is known of signatures on the shelf is not checked again, and what is found out of those that
/// delegate is known from then on.
pub fn vouched(
    alloc: Global,
    shelf: &Shelf,
    known: &mut Verdicts,
    role: &RoleName,
    document: &File<Targets>,
    now: Moment,
) -> Result<bool, AllocError>
    requires { AreFoundOut (shelf_view shelf.now).rows known.old }
    ensures vouched { IfOk result (λ b. IsTrue b ↔ (Vouched (shelf_view shelf.now) role.now (targets_file document.now) now)) }
    ensures known { AreFoundOut (shelf_view shelf.now).rows known.new }
{
    let top = shelf.top();
    if *top.role == *role.as_str() {
        return Ok(meets_edge(&top, document, &[], &mut Steps::new()));
    }
    let Some(delegations) = onward(alloc, shelf, &mut *known, &top, now)? else {
        return Ok(false);
    };
    let mut met = Vec::new(alloc);
    met.push(top.role)?;
    let mut todo = Vec::new(alloc);
    todo.push(Frame {
        roles: &delegations.roles,
        keys: &delegations.keys,
    })?;
    'frames: while let Some(frame) = todo.pop() {
        if expand(
            alloc,
            shelf,
            &mut *known,
            role,
            document,
            now,
            frame,
            &mut met,
            &mut todo,
        )? {
            return Ok(true);
        }
    }
    Ok(false)
}
