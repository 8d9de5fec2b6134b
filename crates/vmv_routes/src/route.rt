ghost use Rattle.std.specs.Prelude.{◌≡◌, IfOk, OnOk, option_map};
ghost use Rattle.matchit.specs.Seek.{first};
ghost use Rattle.vmv_routes.specs.Routes.{pattern_of, method_of, all_routes, put, rows, route_of};

use matchit::{InsertError, Router};
use std::alloc::{AllocError, Global};
use vmv_head::Method;

/// What a path is for. In a pattern a name between braces stands for any part of a path.
#[derive(Clone, Copy, PartialEq, Eq, Debug, Drop)]
pub enum Route {
    /// `POST /projects`, with the fields `id`, `name` and `text`.
    Projects,
    /// `POST /projects/{owner}/{project}/members`, with the fields `id` and `member`.
    Members,
    /// `POST /projects/{owner}/{project}/submissions`, with the fields `id` and `text`.
    Submissions,
    /// `POST /projects/{owner}/{project}/submissions/{n}/withdraw`, with the field `id`.
    Withdraw,
    /// `POST /projects/{owner}/{project}/submissions/{n}/accept`, with the field `id`.
    Accept,
    /// `POST /projects/{owner}/{project}/submissions/{n}/waive`, with the field `id`.
    Waive,
    /// `GET /projects/{owner}/{project}/submissions/{n}/report`.
    Report,
    /// `GET /projects/{owner}/{project}/base`.
    Base,
    /// `GET /projects/{owner}/{project}/history`.
    History,
    /// `GET /projects/{owner}/{project}/pending`.
    Pending,
}

/// The routes, in the order in which the router takes them.
const ROUTES: [Route; 10] = [
    Route::Projects,
    Route::Members,
    Route::Submissions,
    Route::Withdraw,
    Route::Accept,
    Route::Waive,
    Route::Report,
    Route::Base,
    Route::History,
    Route::Pending,
];

impl Route {
    /// The route's pattern.
    fn pattern(self) -> &'static str
        ensures { result.now ≡ pattern_of self }
    {
        match self {
            Route::Projects => "/projects",
            Route::Members => "/projects/{owner}/{project}/members",
            Route::Submissions => "/projects/{owner}/{project}/submissions",
            Route::Withdraw => "/projects/{owner}/{project}/submissions/{n}/withdraw",
            Route::Accept => "/projects/{owner}/{project}/submissions/{n}/accept",
            Route::Waive => "/projects/{owner}/{project}/submissions/{n}/waive",
            Route::Report => "/projects/{owner}/{project}/submissions/{n}/report",
            Route::Base => "/projects/{owner}/{project}/base",
            Route::History => "/projects/{owner}/{project}/history",
            Route::Pending => "/projects/{owner}/{project}/pending",
        }
    }

    /// The method that the route has.
    pub fn method(self) -> Method
        ensures { result ≡ method_of self }
    {
        match self {
            Route::Report | Route::Base | Route::History | Route::Pending => Method::Get,
            _ => Method::Post,
        }
    }
}

/// Adds a route.
fn add(router: &mut Router<Route>, route: Route) -> Result<(), InsertError>
    ensures { OnOk result (router.new ≡ put route router.old) }
{
    router.insert(route.pattern(), route)
}

/// A router with the routes.
fn router(alloc: Global) -> Result<Router<Route>, InsertError>
    ensures { IfOk result (λ router. router ≡ rows) }
{
    let mut router = Router::new(alloc);
    for route in ROUTES {
        add(&mut router, route)?;
    }
    Ok(router)
}

/// The route of a path in a router.
fn found_in(router: &Router<Route>, path: &str) -> Option<Route>
    ensures { result ≡ option_map (λ found. found.value) (first router.now path.now) }
{
    match router.at(path) {
        Ok(found) => Some(*found.value),
        Err(_) => None,
    }
}

/// The route of a path. It fails for want of memory alone.
pub(crate) fn route_of(alloc: Global, path: &[u8]) -> Result<Option<Route>, AllocError>
    ensures { IfOk result (λ route. route ≡ route_of path.now) }
{
    let Ok(path) = std::str::from_utf8(path) else {
        return Ok(None);
    };
    let Ok(router) = router(alloc) else {
        return Err(AllocError);
    };
    Ok(found_in(&router, path))
}
