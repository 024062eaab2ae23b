//! Which roles a search for a target visits (TUF 1.0, section 5.6.7).
ghost use Rattle.std.specs.Prelude.{◌≡◌, IfOk};
ghost use Rattle.delegations.specs.Search.{search};
ghost use Rattle.delegations.specs.Verdicts.{AreTrue};
ghost use Rattle.delegations.specs.Views as searches;
ghost use Rattle.delegations.specs.Visits.{Visits};
ghost use Rattle.granting.specs.Seeing.{standing};
ghost use Rattle.trusted_state.specs.Answers.{Gives};

use crate::listing::held_rows;
use delegations::{Found, SearchDenial, Shelf, Visited, search_seen};
use denials::Denial;
use metadata::Moment;
use path_patterns::TargetPath;
use trusted_state::held::Held;
use trusted_state::liveness::live_snapshot;
use trusted_state::refusal::Refusal;

/// A search: the shelf that it read, the roles that it visited, and what it found, or why it found nothing.
#[derive(Drop)]
pub struct Search<'a> {
    pub shelf: Shelf<'a>,
    pub visited: Visited<'a>,
    pub answer: Result<Found<'a>, SearchDenial<'a>>,
}

/// The search of a request for a target at a moment. What a root requires of a listing, the file and its layout are not looked at. It
/// takes no memory, and checks no signature of which something is known.
///
/// Denials of a request that makes no search, in their order: no root is trusted; the root is not live; the timestamp, then the snapshot.
pub fn search_of<'a>(held: &'a Held, path: &TargetPath, now: Moment) -> Result<Search<'a>, Refusal>
    ensures shelf { Gives (standing held.now.held.trusted now) (λ s. searches.shelf_view s.shelf) result }
    ensures answer { IfOk result (λ s. search (searches.shelf_view s.shelf) path.now now (searches.answer_view searches.found_view s.answer)) }
    ensures visits { IfOk result (λ s. Visits (searches.shelf_view s.shelf) path.now now s.visited) }
{
    let shelf = standing_shelf(held, now)?;
    let (answer, visited) = search_seen(&shelf, held.verdicts(), path, now);
    Ok(Search {
        shelf,
        visited,
        answer,
    })
}

// The shelf of the root and the snapshot that are live.
fn standing_shelf(held: &Held, now: Moment) -> Result<Shelf<'_>, Refusal>
    ensures shelf { Gives (standing held.now.held.trusted now) searches.shelf_view result }
    ensures known { IfOk result (λ s. AreTrue (searches.shelf_view s).rows held.now.verdicts) }
{
    held.is_known();
    let trusted = held.trusted();
    let Some(root) = trusted.root.as_ref() else {
        return Err(Refusal::Denied(Denial::NoRoot));
    };
    let snapshot = live_snapshot(
        trusted.timestamp.as_ref(),
        trusted.snapshot.as_ref(),
        root,
        now,
    )?;
    Ok(Shelf::new(&root.body, &snapshot.body, held_rows(trusted)))
}
