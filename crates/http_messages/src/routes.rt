// The routes of the server, found by `matchit`.

ghost use Rattle.std.specs.Prelude.{◌≡◌, option_map, IfErr};
ghost use Rattle.matchit.specs.declared.error.InsertError.TheVariants.{OutOfMemory};
ghost use Rattle.http_messages.specs.Request.{writes as writes_of};
ghost use Rattle.http_messages.specs.RouteOf.{Routed, route_of, after};
ghost use Rattle.http_messages.specs.steps.Known.{all_routes};
ghost use Rattle.http_messages.specs.steps.Prefixes.{prefix_of, with_rest};
ghost use Rattle.http_messages.specs.steps.Said.{served_route};

use matchit::{InsertError, Router};
use std::alloc::{AllocError, Global};

/// What a request target asks for.
#[derive(Clone, Copy, Debug, PartialEq, Eq)]
pub enum Route {
    /// `/batch`
    Batch,
    /// `/blobs/{digest}`
    Blob,
    /// `/metadata/{name}`
    Metadata,
    /// `/prune`
    Prune,
    /// `/targets/{*path}`
    Target,
}

/// The routes of the server. `{digest}` and `{name}` stand for one or more bytes other than a slash, `{*path}` for one or more
/// bytes of any kind, and every other byte for itself.
#[derive(Drop)]
pub struct Routes {
    router: Router<Route>,
    ghost complete: { router ≡ all_routes },
}

impl Route {
    /// The bytes that the route's targets begin with.
    fn prefix(self) -> &'static str
        ensures { result.now ≡ prefix_of self }
    {
        match self {
            Route::Batch => "/batch",
            Route::Blob => "/blobs/",
            Route::Metadata => "/metadata/",
            Route::Prune => "/prune",
            Route::Target => "/targets/",
        }
    }
}

impl Route {
    /// Whether its command may change something.
    pub fn writes(self) -> bool
        ensures { result ≡ writes_of self }
    {
        match self {
            Route::Batch | Route::Blob | Route::Prune => true,
            Route::Metadata | Route::Target => false,
        }
    }
}

impl Routes {
    /// All routes. The error is want of memory.
    pub fn new(alloc: Global) -> Result<Routes, AllocError> {
        match Routes::filled(alloc) {
            Ok(routes) => Ok(routes),
            Err(InsertError::OutOfMemory) => Err(AllocError),
            Err(_) => unreachable!(),
        }
    }

    // The same with the router's error: no two routes are in each other's way, and each reads well.
    fn filled(alloc: Global) -> Result<Routes, InsertError>
        ensures { IfErr result (λ e. e ≡ OutOfMemory) }
    {
        let mut router = Router::new(alloc);
        router.insert("/batch", Route::Batch)?;
        router.insert("/blobs/{digest}", Route::Blob)?;
        router.insert("/metadata/{name}", Route::Metadata)?;
        router.insert("/prune", Route::Prune)?;
        router.insert("/targets/{*path}", Route::Target)?;
        Ok(Routes { router })
    }

    /// The route of a request target, with what follows the route's prefix. `None` where there is no such route.
    pub fn find<'t>(&self, target: &'t str) -> Option<(Route, &'t str)>
        ensures { option_map {U = Routed} (λ r. (r.0, r.1.now)) result ≡ route_of target.now }
    {
        match self.router.at(target) {
            Ok(found) => rest_of(*found.value, target),
            Err(_) => None,
        }
    }
}

/// The same of a server of all routes, or of one that only reads, which has no route by which something may be changed.
pub(crate) fn find_served<'t>(
    routes: &Routes,
    reads_only: bool,
    target: &'t str,
) -> Option<(Route, &'t str)>
    ensures { option_map {U = Routed} (λ r. (r.0, r.1.now)) result ≡ served_route reads_only (route_of target.now) }
{
    let (route, rest) = routes.find(target)?;
    if reads_only && route.writes() {
        return None;
    }
    Some((route, rest))
}

// What follows a prefix, if the text begins with it.
fn strip<'t>(text: &'t str, prefix: &str) -> Option<&'t str>
    ensures { option_map (λ r. r.now) result ≡ after prefix.now text.now }
{
    text.strip_prefix(prefix)
}

// A route with what follows its prefix.
fn rest_of<'t>(route: Route, target: &'t str) -> Option<(Route, &'t str)>
    ensures { option_map {U = Routed} (λ r. (r.0, r.1.now)) result ≡ with_rest route (after (prefix_of route) target.now) }
{
    let rest = strip(target, route.prefix())?;
    Some((route, rest))
}
