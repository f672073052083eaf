//! The statuses of the replies for which no register is asked.

ghost use Rattle.std.specs.Prelude.{◌≡◌};
ghost use Rattle.oftp_listing.specs.Queries.{is_get, status_of};
ghost use Rattle.oftp_listing.specs.Unasked.{status_at, unless_get};

use crate::query::{Method, Query};
use crate::route::Route;
use http::StatusCode;

// The status that another method than GET has for a list.
fn unless_get(method: Method) -> Option<StatusCode>
    ensures { result ≡ unless_get (is_get method) }
{
    match method {
        Method::Get => None,
        Method::Other => Some(StatusCode::METHOD_NOT_ALLOWED),
    }
}

// The status that a request for a route, or for none, has whatever is registered.
fn status_at(method: Method, route: Option<Route>) -> Option<StatusCode>
    ensures { result ≡ status_at (is_get method) route }
{
    let Some(route) = route else {
        return Some(StatusCode::NOT_FOUND);
    };
    match route {
        Route::IncomingFile(_) | Route::OutgoingFile(_) => None,
        Route::Incoming | Route::Outgoing | Route::Responses => unless_get(method),
    }
}

/// The status that what is asked for has whatever is registered, if there is one.
pub(crate) fn status_of(query: Query) -> Option<StatusCode>
    ensures { result ≡ status_of query }
{
    match query {
        Query::Invalid => Some(StatusCode::BAD_REQUEST),
        Query::Page => None,
        Query::Register(method, route) => status_at(method, route),
    }
}
