//! Answering a request.

ghost use Rattle.std.specs.Prelude.{◌≡◌, [], ◌++◌, true, false, Some, IfErr, IfOk, IfSome, OnOk, is_some};
ghost use Rattle.std.specs.Option.{option_map};
ghost use Rattle.serde_json.specs.View.{view};
ghost use Rattle.serde_json.specs.Written.{comma_if, compact_text, has_float};
ghost use Rattle.oftp_listing.specs.Finding.{Finds, IsDataBehind};
ghost use Rattle.oftp_listing.specs.Heads.{Heard, Hears};
ghost use Rattle.oftp_listing.specs.InsideResource.{is_comma, list_text, objects_with, text_in};
ghost use Rattle.oftp_listing.specs.Queries.{is_get};
ghost use Rattle.oftp_listing.specs.Sites.{IsRepliedAt};
ghost use Rattle.oftp_listing.specs.Texts.{Answers, Asks, Serves, TellsOffice, is_asked, list_of, shown, shown_responses};
ghost use Rattle.oftp_listing.specs.Unasked.{IsSame, status_at, status_of_any};

use crate::fault::ListFault;
use crate::query::{Method, Query, read_query};
use crate::reply::{Reply, body_reply, error_reply, failed_reply};
use crate::resource::{Resource, list_with_numbers};
use crate::route::Route;
use crate::site::Site;
use http::StatusCode;
use oftp_register::{IncomingEntry, IssuedEntry, Office, OutgoingEntry, ReceivedEntry};
use serde_json::Value;
use std::alloc::{AllocError, Global};
use std::net::IpAddr;

// What stands before an object of a list.
#[derive(Clone, Copy)]
enum Separator {
    // Nothing: the object is the first.
    Nothing,
    // A comma.
    Comma,
}

impl Separator {
    // Its octets.
    fn octets(self) -> &'static [u8]
        ensures { result.now ≡ comma_if (is_comma self) }
    {
        match self {
            Separator::Nothing => b"",
            Separator::Comma => b",",
        }
    }
}

// Appends an object to the text of its list.
fn add_object(
    alloc: Global,
    separator: Separator,
    object: &Value,
    text: &mut Vec<u8>,
) -> Result<(), AllocError>
    requires { has_float (view object.now) ≡ false }
    ensures { OnOk result (text.new.items ≡ text.old.items ++ (comma_if (is_comma separator) ++ compact_text (view object.now))) }
{
    text.extend_from_slice(separator.octets())?;
    text.extend_from_slice(object.to_vec(alloc)?.as_slice())
}

// Appends the list of the objects of entries, each with the number beside it. Only one object is in memory at a time.
fn add_objects<E: Resource>(
    alloc: Global,
    front: Vec<u8>,
    entries: &[E],
    numbers: &[u64],
) -> Result<Vec<u8>, AllocError>
    ensures { IfOk result (λ text. text.items ≡ front.items ++ compact_text (list_of (objects_with E.kind entries.now numbers.now))) }
{
    let mut text = front;
    text.extend_from_slice(b"[")?;
    let mut separator = Separator::Nothing;
    for (entry, number) in entries.iter().zip(numbers) {
        let object = entry.to_object(alloc, *number)?;
        add_object(alloc, separator, &object, &mut text)?;
        separator = Separator::Comma;
    }
    text.extend_from_slice(b"]")?;
    Ok(text)
}

// Appends the list of all entries of a kind to the text.
fn add_list<E: Resource + Drop, O: Office>(
    alloc: Global,
    front: Vec<u8>,
    office: &mut O,
) -> Result<Vec<u8>, ListFault>
    ensures finds { Finds (λ r text. text.items ≡ front.items ++ list_text E.kind r) (O.view office.old) (O.view office.new) result }
    ensures shows { IfOk result (λ text. IsDataBehind front.items text.items) }
{
    let (entries, numbers) = list_with_numbers::<E, O>(alloc, office)?;
    Ok(add_objects(alloc, front, entries.as_slice(), numbers.as_slice())?)
}

// The text of all responses.
fn responses<O: Office>(alloc: Global, office: &mut O) -> Result<Vec<u8>, ListFault>
    ensures finds { Finds (λ r text. text.items ≡ compact_text (shown_responses r)) (O.view office.old) (O.view office.new) result }
    ensures shows { IfOk result (λ text. IsDataBehind [] text.items) }
{
    let text = Vec::from_slice(alloc, b"{\"issued\":")?;
    let mut text = add_list::<IssuedEntry, O>(alloc, text, office)?;
    text.extend_from_slice(b",\"received\":")?;
    let mut text = add_list::<ReceivedEntry, O>(alloc, text, office)?;
    text.extend_from_slice(b"}")?;
    Ok(text)
}

// The text of an entry, if there is one.
fn entry_text<E: Resource + Drop, O: Office>(
    alloc: Global,
    found: Option<E>,
    office: &mut O,
) -> Result<Option<Vec<u8>>, ListFault>
    ensures finds { Finds (λ r shown. option_map (λ text. text.items) shown ≡ option_map (text_in E.kind r) found) (O.view office.old) (O.view office.new) result }
    ensures shows { IfOk result (λ shown. IfSome shown (λ text. IsDataBehind [] text.items)) }
{
    let Some(entry) = found else {
        return Ok(None);
    };
    let related = entry.related_number(office)?;
    let object = entry.to_object(alloc, related)?;
    Ok(Some(object.to_vec(alloc)?))
}

// The text that a route shows, or `None` where its number isn't that of an entry.
fn shown<O: Office>(
    alloc: Global,
    route: Route,
    office: &mut O,
) -> Result<Option<Vec<u8>>, ListFault>
    ensures finds { Finds (λ r found. option_map (λ text. text.items) found ≡ option_map compact_text (shown r route)) (O.view office.old) (O.view office.new) result }
    ensures shows { IfOk result (λ found. IfSome found (λ text. IsDataBehind [] text.items)) }
{
    match route {
        Route::Incoming => {
            let text = add_list::<IncomingEntry, O>(alloc, Vec::new(alloc), office)?;
            Ok(Some(text))
        }
        Route::IncomingFile(no) => {
            let found = office.in_by_no(no)?;
            entry_text(alloc, found, office)
        }
        Route::Outgoing => {
            let text = add_list::<OutgoingEntry, O>(alloc, Vec::new(alloc), office)?;
            Ok(Some(text))
        }
        Route::OutgoingFile(no) => {
            let found = office.out_by_no(no)?;
            entry_text(alloc, found, office)
        }
        Route::Responses => Ok(Some(responses(alloc, office)?)),
    }
}

// The reply to GET on a route.
fn show<O: Office>(alloc: Global, route: Route, office: &mut O) -> Result<Reply, ListFault>
    ensures serves { Serves true (Some route) (O.view office.old) (O.view office.new) result }
    ensures office { TellsOffice (O.view office.old) (O.view office.new) result }
    ensures asks { Asks (O.view office.old) (O.view office.new) }
{
    match shown(alloc, route, office) {
        Ok(Some(body)) => Ok(body_reply(alloc, body)?),
        Ok(None) => Ok(error_reply(alloc, StatusCode::NOT_FOUND)?),
        Err(ListFault::Office) => failed_reply(alloc, StatusCode::SERVICE_UNAVAILABLE),
        Err(fault) => Err(fault),
    }
}

// Whether there is something to show on a route.
fn is_there<O: Office>(route: Route, office: &mut O) -> Result<bool, ListFault>
    ensures finds { Finds (λ r there. there ≡ is_some (shown r route)) (O.view office.old) (O.view office.new) result }
    ensures told { IfErr result (λ fault. (fault ≡ ListFault.Office) × (is_asked false (Some route) ≡ true)) }
{
    match route {
        Route::IncomingFile(no) => Ok(office.in_by_no(no)?.is_some()),
        Route::OutgoingFile(no) => Ok(office.out_by_no(no)?.is_some()),
        Route::Incoming | Route::Outgoing | Route::Responses => Ok(true),
    }
}

// The reply to another method on a route.
fn refuse<O: Office>(alloc: Global, route: Route, office: &mut O) -> Result<Reply, ListFault>
    ensures serves { Serves false (Some route) (O.view office.old) (O.view office.new) result }
    ensures office { TellsOffice (O.view office.old) (O.view office.new) result }
    ensures asks { Asks (O.view office.old) (O.view office.new) }
{
    match is_there(route, office) {
        Ok(false) => Ok(error_reply(alloc, StatusCode::NOT_FOUND)?),
        Ok(true) => Ok(error_reply(alloc, StatusCode::METHOD_NOT_ALLOWED)?),
        Err(_) => failed_reply(alloc, StatusCode::METHOD_NOT_ALLOWED),
    }
}

/// The reply to a request for a route, or for none.
///
/// # Errors
///
/// - [`ListFault::Memory`]: out of memory.
/// - [`ListFault::Office`]: the office returned an error, and there is no memory for the reply that says so.
pub(crate) fn serve<O: Office>(
    alloc: Global,
    method: Method,
    route: Option<Route>,
    office: &mut O,
) -> Result<Reply, ListFault>
    ensures serves { Serves (is_get method) route (O.view office.old) (O.view office.new) result }
    ensures any { IsSame (status_at (is_get method) route) (O.view office.old) (O.view office.new) result }
    ensures office { TellsOffice (O.view office.old) (O.view office.new) result }
    ensures asks { Asks (O.view office.old) (O.view office.new) }
{
    match (route, method) {
        (None, _) => Ok(error_reply(alloc, StatusCode::NOT_FOUND)?),
        (Some(route), Method::Get) => show(alloc, route, office),
        (Some(route), Method::Other) => refuse(alloc, route, office),
    }
}

/// The reply to an HTTP request at a site, with this page, that was sent to this address if it is known. It is [`read_query`] and
/// [`Query::reply`] in one call. A site with the page is for this machine alone: if a field `Host` names another host, the reply is 400.
/// Else the page is the reply to GET for `/`, and [`answer`] has the other replies.
///
/// # Errors
///
/// As [`answer`].
pub fn reply_at<O: Office>(
    alloc: Global,
    site: Site<'_>,
    page: &str,
    address: Option<IpAddr>,
    request: &[u8],
    office: &mut O,
) -> Result<Reply, ListFault>
    ensures replies { IsRepliedAt site.entry page.now address request.now (O.view office.old) (O.view office.new) result }
    // These hold of all octets.
    ensures asks { Asks (O.view office.old) (O.view office.new) }
    ensures office { TellsOffice (O.view office.old) (O.view office.new) result }
{
    match read_query(alloc, site, address, request)? {
        None => Err(ListFault::Incomplete),
        Some(query) => query.reply(alloc, page, office),
    }
}

/// The reply to an HTTP request, from the register of the office. The octets are the head and perhaps more. The office is only read, also
/// where the call returns an error.
///
/// - 400: the head isn't accepted or has more than 64 fields, or there are more than 8,192 octets.
/// - 404: the target isn't a route, or its number isn't that of an entry.
/// - 405: the method isn't GET. It is also the reply to another method than GET after an error of the office.
/// - 503: the office returned an error.
///
/// The reply says whether the office failed: exactly where the office returned an error in this call. Nothing is promised of it after that.
///
/// # Errors
///
/// - [`ListFault::Incomplete`]: the head is incomplete, and there are at most 8,192 octets.
/// - [`ListFault::Memory`]: out of memory.
/// - [`ListFault::Office`]: the office returned an error, and there is no memory for the reply that says so.
pub fn answer<O: Office>(alloc: Global, request: &[u8], office: &mut O) -> Result<Reply, ListFault>
    ensures texts { (heard : Heard) → Hears request.now heard → Answers heard (O.view office.old) (O.view office.new) result }
    // Where nobody is asked, the register doesn't matter.
    ensures any { (heard : Heard) → Hears request.now heard → IsSame (status_of_any heard) (O.view office.old) (O.view office.new) result }
    // These hold of all octets.
    ensures asks { Asks (O.view office.old) (O.view office.new) }
    ensures office { TellsOffice (O.view office.old) (O.view office.new) result }
{
    reply_at(alloc, Site::Register, "", None, request, office)
}
