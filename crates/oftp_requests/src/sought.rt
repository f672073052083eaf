//! What is asked for of the station itself, over HTTP or by a command.

ghost use Rattle.std.specs.Prelude.{◌≡◌};
ghost use Rattle.oftp_requests.specs.Soughts.{sought_at, sought_by, sought_of};

use oftp_channel::{Form, Request};
use oftp_listing::{Method, Query};
use oftp_status::Limits;

/// What is asked for of the station itself.
#[derive(Clone, Copy, PartialEq, Eq)]
pub enum Sought {
    /// The reply over HTTP that tells how it stands, as JSON.
    Status,
    /// The same in Prometheus' text form.
    Metrics,
    /// The reply with the last events.
    Events,
    /// The answer to a command that tells how it stands.
    Told(Form),
    /// The verdict on it by these limits.
    Verdict(Limits),
}

// What a head asks for.
fn sought_at(head: &[u8]) -> Option<Sought>
    ensures { result ≡ sought_at head.now }
{
    if head.starts_with(b"GET /status ") {
        Some(Sought::Status)
    } else if head.starts_with(b"GET /metrics ") {
        Some(Sought::Metrics)
    } else if head.starts_with(b"GET /events ") {
        Some(Sought::Events)
    } else {
        None
    }
}

/// What a request with this head asks for of the station itself, where its target is none of the register's.
pub fn sought_by(query: Query, head: &[u8]) -> Option<Sought>
    ensures { result ≡ sought_by query head.now }
{
    match query {
        Query::Register(Method::Get, None) => sought_at(head),
        _ => None,
    }
}

/// What the request of a command asks for of the station itself.
pub(crate) fn sought_of(request: &Request<'_>) -> Option<Sought>
    ensures { result ≡ sought_of request.now }
{
    match *request {
        Request::Status(form) => Some(Sought::Told(form)),
        Request::Health { warn, critical } => Some(Sought::Verdict(Limits { warn, critical })),
        _ => None,
    }
}
