//! What a request over HTTP asks for. Its octets are read once, and its target has one route.

ghost use Rattle.std.specs.Prelude.{◌≡◌, IfErr, IfOk, codes};
ghost use Rattle.std.specs.Str.{bytes_eq};
ghost use Rattle.oftp_listing.specs.Heads.{Heard, Hears, Reads};
ghost use Rattle.oftp_listing.specs.Queries.{AsksFor, IsReadAt, IsReplyTo, is_get, status_of};
ghost use Rattle.oftp_listing.specs.Sites.{IsGoalAt};
ghost use Rattle.oftp_listing.specs.Texts.{Asks, TellsOffice};
ghost use Rattle.oftp_listing.specs.Unasked.{IsOfStatus, IsSame};
ghost use Rattle.oftp_listing.specs.declared.fault.ListFault.TheVariants.{Memory};

use crate::fault::ListFault;
use crate::handler::serve;
use crate::head::{Head, MOST_FIELDS, begun_head, whole_head};
use crate::reply::{Reply, error_reply, page_reply};
use crate::route::{Route, find_route};
use crate::site::{Goal, Site, goal_at};
use crate::unasked::status_of;
use http::StatusCode;
use httparse::Status;
use httparse::spans::{EMPTY_HEADER_SPAN, parse_request};
use oftp_register::Office;
use std::alloc::Global;
use std::net::IpAddr;

/// The method of a request.
#[derive(Clone, Copy, Debug, Drop, PartialEq, Eq)]
pub enum Method {
    /// GET.
    Get,
    /// Another one.
    Other,
}

/// What a request over HTTP asks for at a site.
#[derive(Clone, Copy, Debug, Drop, PartialEq, Eq)]
pub enum Query {
    /// Nothing that is here: its octets aren't a head that is accepted, or it is for another host.
    Invalid,
    /// The page.
    Page,
    /// What the register has at a route, or at an unknown target.
    Register(Method, Option<Route>),
}

// The method with this name.
fn method_of(name: &[u8]) -> Method
    ensures { is_get result ≡ bytes_eq name.now (codes "GET") }
{
    if name == b"GET".as_slice() {
        Method::Get
    } else {
        Method::Other
    }
}

// The head of a request, and what it asks for that was sent to this address of a site.
fn read_at<'a>(site: Site<'_>, address: Option<IpAddr>, request: &'a [u8]) -> (Head<'a>, Goal)
    ensures head { (heard : Heard) → Hears request.now heard → Reads heard result.0 }
    ensures goal { IsGoalAt site.entry address request.now result.1 }
{
    let mut fields = [EMPTY_HEADER_SPAN; MOST_FIELDS];
    match parse_request(request, &mut fields) {
        Ok(Status::Complete(spans)) => {
            let method = spans.method.of(request);
            let target = spans.path.of(request);
            let fields = &fields[..spans.headers];
            let goal = goal_at(site, address, request, method, target, fields);
            (whole_head(request, method, target), goal)
        }
        Ok(Status::Partial) => (begun_head(request), Goal::Register),
        Err(_) => (Head::Refused, Goal::Register),
    }
}

// What octets with this head ask for of the register.
fn query_of(alloc: Global, head: Head<'_>) -> Result<Option<Query>, ListFault>
    ensures asks { (heard : Heard) → Reads heard head.entry → AsksFor heard result }
    ensures fails { IfErr result (λ fault. fault ≡ Memory) }
{
    match head {
        Head::Unfinished => Ok(None),
        Head::Refused => Ok(Some(Query::Invalid)),
        Head::Whole { method, target } => {
            let route = find_route(alloc, target)?;
            Ok(Some(Query::Register(method_of(method), route)))
        }
    }
}

/// Reads what a request asks for that was sent to this address of a site, if it is known. The octets are the head and perhaps more. It is
/// `None` while the head is incomplete, and there are at most [`LONGEST_HEAD`](crate::LONGEST_HEAD) octets.
///
/// # Errors
///
/// [`ListFault::Memory`]: out of memory.
pub fn read_query(
    alloc: Global,
    site: Site<'_>,
    address: Option<IpAddr>,
    request: &[u8],
) -> Result<Option<Query>, ListFault>
    ensures read { IsReadAt site.entry address request.now result }
    ensures fails { IfErr result (λ fault. fault ≡ Memory) }
{
    let (head, goal) = read_at(site, address, request);
    match goal {
        Goal::OtherHost => Ok(Some(Query::Invalid)),
        Goal::Page => Ok(Some(Query::Page)),
        Goal::Register => query_of(alloc, head),
    }
}

impl Query {
    /// The reply that is the same for each register, if there is one. It is that to what is invalid, to an unknown target, and to another
    /// method than GET for a list. For these [`reply`](Query::reply) asks no office, and [`same_for_each`](crate::laws::same_for_each) says
    /// that it gives this reply.
    ///
    /// # Errors
    ///
    /// [`ListFault::Memory`]: out of memory.
    pub fn reply_of_any(self, alloc: Global) -> Result<Option<Reply>, ListFault>
        ensures reply { IfOk result (IsOfStatus (status_of self)) }
        ensures fails { IfErr result (λ fault. fault ≡ Memory) }
    {
        match status_of(self) {
            Some(status) => Ok(Some(error_reply(alloc, status)?)),
            None => Ok(None),
        }
    }

    /// The reply, with this page and from the register of the office. The office is only read, also where the call returns an error.
    ///
    /// - 400: the head isn't accepted or has more than 64 fields, there are more than 8,192 octets, or the request is for another host.
    /// - 404: the target isn't a route, or its number isn't that of an entry.
    /// - 405: the method isn't GET. It is also the reply to another method than GET after an error of the office.
    /// - 503: the office returned an error.
    ///
    /// The reply says whether the office failed: exactly where the office returned an error in this call. Nothing is promised of it after
    /// that.
    ///
    /// # Errors
    ///
    /// - [`ListFault::Memory`]: out of memory.
    /// - [`ListFault::Office`]: the office returned an error, and there is no memory for the reply that says so.
    pub fn reply<O: Office>(
        self,
        alloc: Global,
        page: &str,
        office: &mut O,
    ) -> Result<Reply, ListFault>
        ensures replies { IsReplyTo self page.now (O.view office.old) (O.view office.new) result }
        // Where nobody is asked, the register doesn't matter.
        ensures any { IsSame (status_of self) (O.view office.old) (O.view office.new) result }
        ensures asks { Asks (O.view office.old) (O.view office.new) }
        ensures office { TellsOffice (O.view office.old) (O.view office.new) result }
    {
        match self {
            Query::Invalid => Ok(error_reply(alloc, StatusCode::BAD_REQUEST)?),
            Query::Page => Ok(page_reply(alloc, page)?),
            Query::Register(method, route) => serve(alloc, method, route, office),
        }
    }
}
