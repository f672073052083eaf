//! The JSON objects of the listing.

ghost use Rattle.std.specs.Prelude.{◌≡◌, IfOk};
ghost use Rattle.serde_json.specs.Data.{object};
ghost use Rattle.serde_json.specs.View.{view};
ghost use Rattle.oftp_listing.specs.Details.{gathered};
ghost use Rattle.oftp_listing.specs.Names.{issued_reason, received_reason, refusal_name};
ghost use Rattle.oftp_listing.specs.Objects.{incoming_object, issued_object, outgoing_object, received_object};

use crate::detail::Detail;
use crate::names::{
    digit_text, format_name, incoming_state_name, is_sent, kind_name, name_text,
    outgoing_state_name, reason_name, refusal_name, response_name,
};
use oftp_register::{IncomingEntry, IssuedEntry, OutgoingEntry, ReceivedEntry};
use serde_json::{Map, Value, put};
use std::alloc::{AllocError, Global};

/// A key of an object with its value.
pub(crate) type Member<'a> = (&'a str, Detail<'a>);

/// The object with these members.
pub(crate) fn object_of<'a>(alloc: Global, members: &[Member<'a>]) -> Result<Value, AllocError>
    ensures { IfOk result (λ value. view value ≡ object (gathered members.now)) }
{
    let mut map = Map::new(alloc);
    for (key, detail) in members {
        let value = detail.to_value(alloc)?;
        put(&mut map, alloc, key, value)?;
    }
    Ok(Value::Object(map))
}

/// The members of an incoming file.
pub(crate) fn incoming_members<'a>(entry: &'a IncomingEntry, units: u64) -> [Member<'a>; 12]
    ensures { object (gathered result) ≡ incoming_object entry.now units }
{
    [
        ("dataset", Detail::Text(name_text(&entry.identity.dataset))),
        ("date", Detail::Text(digit_text(&entry.identity.date))),
        ("description", Detail::Text(entry.description.as_str())),
        (
            "destination",
            Detail::Text(name_text(&entry.identity.destination)),
        ),
        ("format", Detail::Text(format_name(entry.format))),
        ("no", Detail::Count(entry.no)),
        (
            "originator",
            Detail::Text(name_text(&entry.identity.originator)),
        ),
        ("response", Detail::Text(response_name(&entry.response))),
        ("rows", Detail::Count(entry.rows)),
        ("state", Detail::Text(incoming_state_name(entry.state))),
        ("time", Detail::Text(digit_text(&entry.identity.time))),
        ("units", Detail::Count(units)),
    ]
}

/// The members of an outgoing file, with the reason if it was refused.
pub(crate) fn outgoing_members<'a>(
    entry: &'a OutgoingEntry,
    reason: &'a str,
    units: u64,
) -> [Member<'a>; 13]
    ensures { reason.now ≡ refusal_name entry.now.state → object (gathered result) ≡ outgoing_object entry.now units }
{
    [
        ("dataset", Detail::Text(name_text(&entry.identity.dataset))),
        ("date", Detail::Text(digit_text(&entry.identity.date))),
        ("description", Detail::Text(entry.description.as_str())),
        (
            "destination",
            Detail::Text(name_text(&entry.identity.destination)),
        ),
        ("format", Detail::Text(format_name(entry.format))),
        ("mark", Detail::Count(entry.mark)),
        ("no", Detail::Count(entry.no)),
        (
            "originator",
            Detail::Text(name_text(&entry.identity.originator)),
        ),
        ("reason", Detail::Text(reason)),
        ("rows", Detail::Count(entry.rows)),
        ("state", Detail::Text(outgoing_state_name(entry.state))),
        ("time", Detail::Text(digit_text(&entry.identity.time))),
        ("units", Detail::Count(units)),
    ]
}

/// The members of an issued response, with its reason.
pub(crate) fn issued_members<'a>(entry: &'a IssuedEntry, reason: &'a str) -> [Member<'a>; 4]
    ensures { reason.now ≡ issued_reason entry.now → object (gathered result) ≡ issued_object entry.now }
{
    [
        ("kind", Detail::Text(kind_name(entry.response.kind))),
        ("no", Detail::Count(entry.no)),
        ("reason", Detail::Text(reason)),
        ("sent", Detail::Flag(is_sent(entry.response.dispatch))),
    ]
}

/// The members of a received response, with its reason and the number of the outgoing file that it answers.
pub(crate) fn received_members<'a>(
    entry: &'a ReceivedEntry,
    reason: &'a str,
    file: u64,
) -> [Member<'a>; 10]
    ensures { reason.now ≡ received_reason entry.now → object (gathered result) ≡ received_object entry.now file }
{
    let response = &entry.response;
    [
        ("creator", Detail::Text(name_text(&response.creator))),
        (
            "dataset",
            Detail::Text(name_text(&response.identity.dataset)),
        ),
        ("date", Detail::Text(digit_text(&response.identity.date))),
        ("file", Detail::Count(file)),
        (
            "from",
            Detail::Text(name_text(&response.identity.destination)),
        ),
        ("kind", Detail::Text(kind_name(response.kind))),
        ("no", Detail::Count(entry.no)),
        ("note", Detail::Text(response.text.as_str())),
        ("reason", Detail::Text(reason)),
        ("time", Detail::Text(digit_text(&response.identity.time))),
    ]
}
