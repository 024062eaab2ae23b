//! The search for a target through delegations (TUF 1.0, section 5.6.7).
ghost use Rattle.std.specs.Prelude.{◌≡◌, ◌+◌, ◌-◌, ◌<◌, ◌≤◌, ◌^◌, length};
ghost use Rattle.delegations.specs.Search.{search};
ghost use Rattle.delegations.specs.Verdicts.{AreFew, AreTrue, Costs, IsComplete};
ghost use Rattle.delegations.specs.Views.{shelf_view, found_view, answer_view};
ghost use Rattle.delegations.specs.Visits.{Visits};
ghost use Rattle.metadata.specs.File.{Names};

use crate::shelf::{Found, SearchDenial, Shelf};
use crate::verdicts::Verdicts;
use crate::visited::Visited;
use crate::walking::{Query, search_over};
use keys_roles::Steps;
use metadata::Moment;
use path_patterns::TargetPath;

/// The target at the path: the role that lists it first, in the order in which the delegations are visited, with its listing,
/// or the first check that fails. From `targets` on, the delegations of a role that cover the path are followed in their order,
/// each with all that is after it before the next; a role is visited once, by the first edge that leads to it; after a
/// terminating delegation that covers the path, nothing outside of it is visited any more. At most 32 roles are visited, and at
/// most 512 signatures are checked. It takes no memory.
pub fn search<'a>(
    shelf: &Shelf<'a>,
    path: &TargetPath,
    now: Moment,
) -> Result<Found<'a>, SearchDenial<'a>>
    ensures { search (shelf_view shelf.now) path.now now (answer_view found_view result) }
{
    search_counted(shelf, path, now, &mut Steps::new(), &mut Steps::new())
}

/// The same, with one tick of the first counter for each signature that is checked, and one of the second for each role that is
/// visited. Both are made when the search is done.
pub fn search_counted<'a>(
    shelf: &Shelf<'a>,
    path: &TargetPath,
    now: Moment,
    checks: &mut Steps,
    visits: &mut Steps,
) -> Result<Found<'a>, SearchDenial<'a>>
    requires checks { checks.old < 2 ^ 63 }
    requires visits { visits.old < 2 ^ 63 }
    ensures answer { search (shelf_view shelf.now) path.now now (answer_view found_view result) }
    ensures checks_grow { checks.old ≤ checks.new }
    ensures checks { checks.new ≤ checks.old + 512 }
    ensures visits_grow { visits.old ≤ visits.new }
    ensures visits { visits.new ≤ visits.old + 32 }
    ensures made { (roles : Names) × Visits (shelf_view shelf.now) path.now now roles × (visits.new ≡ visits.old + length roles) }
{
    let query = Query {
        path,
        moment: now,
        known: &[],
    };
    let mut visited = Visited::new();
    let mut made = Steps::new();
    let answer = search_over(shelf, &query, &mut visited, &mut made);
    add_ticks(checks, made.count());
    add_ticks(visits, visited.count());
    answer
}

/// The same where something is known of the signatures on the shelf, and how many of them were checked: at most 512, and at most
/// as many as there are pairs that the search meets and of which nothing is known. A pair is met where the search visits a role's
/// document: it is a signature of the document, and the key that its id names in the rule of the edge. Where the wanted pairs are
/// few and something is known of each, no signature is checked. It takes no memory.
pub fn search_with<'a>(
    shelf: &Shelf<'a>,
    verdicts: &Verdicts,
    path: &TargetPath,
    now: Moment,
) -> (Result<Found<'a>, SearchDenial<'a>>, u32)
    requires { AreTrue (shelf_view shelf.now).rows verdicts.now }
    ensures answer { search (shelf_view shelf.now) path.now now (answer_view found_view result.0) }
    ensures most { result.1 ≤ 512 }
    ensures costs { Costs (shelf_view shelf.now) verdicts.now path.now now result.1 }
    ensures free { AreFew (shelf_view shelf.now) → IsComplete (shelf_view shelf.now) verdicts.now → result.1 ≡ 0 }
{
    let query = Query {
        path,
        moment: now,
        known: verdicts.rows(),
    };
    let mut checks = Steps::new();
    let answer = search_over(shelf, &query, &mut Visited::new(), &mut checks);
    (answer, checks.count() as u32)
}

/// The same, and the roles that the search visited: up to the one that lists the path, or whose document ends the search, at most 32.
pub fn search_seen<'a>(
    shelf: &Shelf<'a>,
    verdicts: &Verdicts,
    path: &TargetPath,
    now: Moment,
) -> (Result<Found<'a>, SearchDenial<'a>>, Visited<'a>)
    requires { AreTrue (shelf_view shelf.now).rows verdicts.now }
    ensures answer { search (shelf_view shelf.now) path.now now (answer_view found_view result.0) }
    ensures visits { Visits (shelf_view shelf.now) path.now now result.1 }
{
    let query = Query {
        path,
        moment: now,
        known: verdicts.rows(),
    };
    let mut visited = Visited::new();
    let answer = search_over(shelf, &query, &mut visited, &mut Steps::new());
    (answer, visited)
}

/// The same as `search_with`, with one tick for each signature that is checked in place of their number. They are made when the search
/// is done.
pub fn search_with_counted<'a>(
    shelf: &Shelf<'a>,
    verdicts: &Verdicts,
    path: &TargetPath,
    now: Moment,
    checks: &mut Steps,
) -> Result<Found<'a>, SearchDenial<'a>>
    requires sound { AreTrue (shelf_view shelf.now).rows verdicts.now }
    requires room { checks.old < 2 ^ 63 }
    ensures answer { search (shelf_view shelf.now) path.now now (answer_view found_view result) }
    ensures grows { checks.old ≤ checks.new }
    ensures most { checks.new ≤ checks.old + 512 }
    ensures costs { Costs (shelf_view shelf.now) verdicts.now path.now now (checks.new - checks.old) }
    ensures free { AreFew (shelf_view shelf.now) → IsComplete (shelf_view shelf.now) verdicts.now → checks.new ≡ checks.old }
{
    let (answer, made) = search_with(shelf, verdicts, path, now);
    add_ticks(checks, made as u64);
    answer
}

// So many ticks more.
fn add_ticks(steps: &mut Steps, count: u64)
    requires { steps.old + count < 2 ^ 64 }
    ensures { steps.new ≡ steps.old + count }
{
    let mut made = 0;
    'ticks: while made < count {
        steps.tick();
        made += 1;
    }
}
