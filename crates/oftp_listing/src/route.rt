//! The routes of the listing.

ghost use Rattle.std.specs.Prelude.{◌≡◌, [], IfOk, MatchResult, OnOk, codes, option_and_then};
ghost use Rattle.oftp_listing.specs.declared.fault.ListFault.TheVariants.{Memory};
ghost use Rattle.oftp_listing.specs.Routes.{number_of, route_at};
ghost use Rattle.oftp_listing.specs.Rows.{parts_of, routes};
ghost use Rattle.matchit.specs.Params.{AllText, named};

use crate::fault::ListFault;
use matchit::{InsertError, Params, Router};
use std::alloc::Global;

/// The most digits of a file's number.
const MOST_DIGITS: usize = 7;

/// The route of a target.
#[derive(Clone, Copy, Debug, Drop, PartialEq, Eq)]
pub enum Route {
    /// All incoming files.
    Incoming,
    /// The incoming file with a number.
    IncomingFile(u64),
    /// All outgoing files.
    Outgoing,
    /// The outgoing file with a number.
    OutgoingFile(u64),
    /// All responses.
    Responses,
}

// A route without its number, as the router stores it.
#[derive(Clone, Copy, Drop)]
enum Place {
    Incoming,
    IncomingFile,
    Outgoing,
    OutgoingFile,
    Responses,
}

// The number that a text of digits without a leading zero stands for, unless they are too many.
#[tactic(auto, unfolding(crate::specs::Routes::number_of))]
fn number(text: &[u8]) -> Option<u64>
    ensures { result ≡ number_of text.now }
{
    if text.is_empty() || text[0] == b'0' || text.len() > MOST_DIGITS {
        return None;
    }
    let mut sum: u64 = 0;
    for digit in text {
        if !digit.is_ascii_digit() {
            return None;
        }
        sum = sum * 10 + u64::from(*digit - b'0');
    }
    Some(sum)
}

// Adds the five routes. They don't conflict, so an error is out of memory.
fn add_routes(router: &mut Router<Place>) -> Result<(), InsertError>
    ensures { router.old ≡ [] → OnOk result (router.new ≡ routes) }
{
    router.insert("/in", Place::Incoming)?;
    router.insert("/in/{id}", Place::IncomingFile)?;
    router.insert("/out", Place::Outgoing)?;
    router.insert("/out/{id}", Place::OutgoingFile)?;
    router.insert("/responses", Place::Responses)?;
    Ok(())
}

// The router of the five routes.
fn router(alloc: Global) -> Result<Router<Place>, InsertError>
    ensures { IfOk result (λ router. router ≡ routes) }
{
    let mut router = Router::new(alloc);
    add_routes(&mut router)?;
    Ok(router)
}

// The number in the last segment of a target.
fn number_in(params: &Params<'_, '_>) -> Option<u64>
    ensures { AllText (parts_of params.now) → result ≡ option_and_then number_of (named (codes "id") (parts_of params.now)) }
{
    number(params.get("id")?.as_bytes())
}

// The route of a target, by the router.
fn route_in(router: &Router<Place>, target: &str) -> Option<Route>
    requires { router.now ≡ routes }
    ensures { result ≡ route_at target.now }
{
    let Ok(found) = router.at(target) else {
        return None;
    };
    match *found.value {
        Place::Incoming => Some(Route::Incoming),
        Place::IncomingFile => Some(Route::IncomingFile(number_in(&found.params)?)),
        Place::Outgoing => Some(Route::Outgoing),
        Place::OutgoingFile => Some(Route::OutgoingFile(number_in(&found.params)?)),
        Place::Responses => Some(Route::Responses),
    }
}

/// The route of a target, if it has one.
///
/// # Errors
///
/// [`ListFault::Memory`]: out of memory.
pub(crate) fn find_route(alloc: Global, target: &str) -> Result<Option<Route>, ListFault>
    ensures { MatchResult result (λ route. route ≡ route_at target.now) (λ fault. fault ≡ Memory) }
{
    let router = router(alloc).map_err(|_| ListFault::Memory)?;
    Ok(route_in(&router, target))
}
