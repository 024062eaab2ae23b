// The search for a target as a loop (TUF 1.0, section 5.6.7): role after role, each with its delegations in order, in a fixed array of
// frames, one for each role whose delegations are being followed.
ghost use Rattle.std.specs.Prelude.{◌≡◌, ◌+◌, ◌*◌, ◌≤◌, ◌<◌, ◌^◌, [], ◌∷◌, length, MatchOption, option_map};
ghost use Rattle.delegations.specs.Search.{search};
ghost use Rattle.delegations.specs.Verdicts.{AreTrue, Costs};
ghost use Rattle.delegations.specs.Views.{answer_view, edge_view, found_view, shelf_view, table_view};
ghost use Rattle.delegations.specs.Visits.{Visits};
ghost use Rattle.delegations.specs.steps.Remains.{IsAt, IsBefore, Leads, all_left, left_of, work};

use crate::frames::{Frame, Frames};
use crate::shelf::{Edge, Found, SearchDenial, Shelf};
use crate::verdicts::RowVerdicts;
use crate::visited::Visited;
use crate::visiting::visit;
use keys_roles::Steps;
use metadata::Moment;
use path_patterns::TargetPath;

/// What a search is asked: the target at a path, at a moment, with what is known of the signatures on some rows.
#[derive(Clone, Copy)]
pub(crate) struct Query<'q> {
    pub(crate) path: &'q TargetPath,
    pub(crate) moment: Moment,
    pub(crate) known: &'q [RowVerdicts],
}

/// The search, with one tick for each signature that is checked, and the roles that it visits.
pub(crate) fn search_over<'a>(
    shelf: &Shelf<'a>,
    query: &Query,
    visited: &mut Visited<'a>,
    checks: &mut Steps,
) -> Result<Found<'a>, SearchDenial<'a>>
    requires sound { AreTrue (shelf_view shelf.now).rows (table_view query.now.known.now) }
    requires no_visits { visited.old ≡ [] }
    requires no_checks { checks.old ≡ 0 }
    ensures answer { search (shelf_view shelf.now) query.now.path.now query.now.moment (answer_view found_view result) }
    ensures checks { checks.new ≤ 512 }
    ensures visits { length visited.new ≤ 32 }
    ensures made { Visits (shelf_view shelf.now) query.now.path.now query.now.moment visited.new }
    ensures costs { Costs (shelf_view shelf.now) (table_view query.now.known.now) query.now.path.now query.now.moment checks.new }
{
    let top = shelf.top();
    let mut frames = Frames::new(top.keys);
    match enter(shelf, query, top, visited, &mut frames, checks) {
        Ok(Some(found)) => return Ok(found),
        Ok(None) => {}
        Err(denial) => return Err(denial),
    }
    'frames: while let Some(frame) = frames.pop() {
        match advance(shelf, query, frame, visited, &mut frames, checks) {
            Ok(Some(found)) => return Ok(found),
            Ok(None) => {}
            Err(denial) => return Err(denial),
        }
    }
    Err(SearchDenial::NotFound)
}

// Follows the next delegation of the innermost role, which was taken off the frames.
fn advance<'a>(
    shelf: &Shelf<'a>,
    query: &Query,
    frame: Frame<'a>,
    visited: &mut Visited<'a>,
    frames: &mut Frames<'a>,
    checks: &mut Steps,
) -> Result<Option<Found<'a>>, SearchDenial<'a>>
    requires sound { AreTrue (shelf_view shelf.now).rows (table_view query.now.known.now) }
    requires at { IsAt (shelf_view shelf.now) query.now.path.now query.now.moment (table_view query.now.known.now) checks.old (all_left query.now.path.now (frame ∷ frames.old)) visited.old }
    requires room { length frames.old < length visited.old }
    requires within { length visited.old ≤ 32 }
    requires few { checks.old ≤ 16 * length visited.old }
    ensures judged { Leads (shelf_view shelf.now) query.now.path.now query.now.moment (table_view query.now.known.now) checks.new frames.new visited.new result }
    ensures room { length frames.new ≤ length visited.new }
    ensures within { length visited.new ≤ 32 }
    ensures few { checks.new ≤ 16 * length visited.new }
    ensures less { work (shelf_view shelf.now) query.now.path.now visited.new frames.new < work (shelf_view shelf.now) query.now.path.now visited.old (frame.entry ∷ frames.old) }
{
    let Some((hop, later)) = next_hop(frame, query.path) else {
        return Ok(None);
    };
    let Some(edge) = hop else {
        frames.push(later);
        return Ok(None);
    };
    if edge.terminating {
        frames.clear();
    } else {
        frames.push(later);
    }
    if visited.has(edge.role) {
        return Ok(None);
    }
    enter(shelf, query, edge, visited, frames, checks)
}

// Visits the role of the edge, and opens its delegations where it does not list the path.
fn enter<'a>(
    shelf: &Shelf<'a>,
    query: &Query,
    edge: Edge<'a>,
    visited: &mut Visited<'a>,
    frames: &mut Frames<'a>,
    checks: &mut Steps,
) -> Result<Option<Found<'a>>, SearchDenial<'a>>
    requires sound { AreTrue (shelf_view shelf.now).rows (table_view query.now.known.now) }
    requires before { IsBefore (shelf_view shelf.now) query.now.path.now query.now.moment (table_view query.now.known.now) checks.old (edge_view edge) (all_left query.now.path.now frames.old) visited.old }
    requires room { length frames.old ≤ length visited.old }
    requires few { checks.old ≤ 16 * length visited.old }
    ensures judged { Leads (shelf_view shelf.now) query.now.path.now query.now.moment (table_view query.now.known.now) checks.new frames.new visited.new result }
    ensures room { length frames.new ≤ length visited.new }
    ensures within { length visited.new ≤ 32 }
    ensures few { checks.new ≤ 16 * length visited.new }
    ensures less { work (shelf_view shelf.now) query.now.path.now visited.new frames.new ≤ work (shelf_view shelf.now) query.now.path.now visited.old frames.old }
{
    if visited.room() == 0 {
        return Err(SearchDenial::TooManyRoles);
    }
    visited.add(edge.role);
    let file = visit(shelf, &edge, query.known, query.moment, checks)?;
    if let Some(listing) = file.body.listing(query.path.as_str()) {
        return Ok(Some(Found {
            role: edge.role,
            listing,
        }));
    }
    let Some(delegations) = &file.body.delegations else {
        return Ok(None);
    };
    frames.push(Frame {
        roles: &delegations.roles,
        keys: &delegations.keys,
    });
    Ok(None)
}

// The next delegation of a role, or `None` in its place where it does not cover the path, and what is left after it.
fn next_hop<'a>(frame: Frame<'a>, path: &TargetPath) -> Option<(Option<Edge<'a>>, Frame<'a>)>
    ensures { MatchOption result (left_of path.now frame.entry ≡ []) (λ n. left_of path.now frame.entry ≡ option_map edge_view n.0 ∷ left_of path.now n.1) }
{
    let (delegation, roles) = frame.roles.split_first()?;
    let later = Frame {
        roles,
        keys: frame.keys,
    };
    if !delegation.covers(path) {
        return Some((None, later));
    }
    let edge = Edge {
        role: delegation.name.as_str(),
        terminating: delegation.terminating,
        rule: &delegation.rule,
        keys: frame.keys,
    };
    Some((Some(edge), later))
}
