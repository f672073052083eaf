//! The responses to incoming files, as their table stores them.

ghost use Rattle.std.specs.Prelude.{◌≡◌, ◌<◌, ◌↔◌, [], IfErr, IfOk, IsTrue};
ghost use Rattle.oftp_register.specs.Offices.{IsFailure};
ghost use Rattle.oftp_register.specs.Soundness.{IsResponse, IsSound};
ghost use Rattle.oftp_store.specs.Reads.{IsResponseTo, TellsResponse, response_from, response_in, response_values};
ghost use Rattle.oftp_store.specs.Causes.{HasResponse, Response};
ghost use Rattle.oftp_register.specs.declared.entries.IssuedResponse.{IssuedResponse};

use super::by_number::ByNumber;
use oftp_register::{IssuedResponse, Note, OfficeFault, ResponseKind, is_response};
use oftp_tables::{dispatch_at, kind_at, reason_at, text_at};
use oftp_wire::{Count, Text};
use sqlite::Row;
use std::alloc::Global;

// Whether the fields fit the kind of the response. An End-to-End Response has neither reason nor text.
fn is_fit(kind: ResponseKind, reason: Count<2>, text: &Note) -> bool
    ensures { IsTrue result ↔ IsResponse kind reason [] text.now }
{
    match Text::new(text.as_str()) {
        Some(text) => is_response(kind, reason, b"", &text),
        None => false,
    }
}

/// The response in four columns of a row, from a place below 100 on. Columns that are none of a response are a fault
/// of the store.
pub(crate) fn response_at(
    alloc: Global,
    row: &Row,
    at: usize,
) -> Result<IssuedResponse, OfficeFault>
    requires { at < 100 }
    ensures told { IfOk result (λ response. response ≡ response_from at row.now) }
    ensures fits { IfOk result (λ response. TellsResponse response at row.now) }
    ensures within { IfOk result (λ response. IsResponse response.kind response.reason [] response.text) }
    ensures unfit { IfErr result (λ fault. fault ≡ OfficeFault.Store → (response : IssuedResponse) → ¬ HasResponse response at row.now) }
    ensures fails { IfErr result IsFailure }
{
    let kind = kind_at(row, at).ok_or(OfficeFault::Store)?;
    let reason = reason_at(row, at + 1, kind).ok_or(OfficeFault::Store)?;
    let dispatch = dispatch_at(row, at + 3).ok_or(OfficeFault::Store)?;
    let text = text_at(alloc, row, at + 2)?;
    if !is_fit(kind, reason, &text) {
        return Err(OfficeFault::Store);
    }
    Ok(IssuedResponse {
        kind,
        reason,
        text,
        dispatch,
    })
}

impl ByNumber for IssuedResponse {
    ghost asked = { Response };

    ghost told = { response_in };

    ghost values = { response_values };

    ghost is_within = { λ response. IsResponse response.kind response.reason [] response.text };

    ghost is_found = { λ r no found. IsSound r → IsResponseTo r no found };

    fn query() -> &'static str {
        "SELECT kind, reason, note, sent FROM issued WHERE no = ?1"
    }

    fn from_row(alloc: Global, row: &Row) -> Result<IssuedResponse, OfficeFault> {
        response_at(alloc, row, 0)
    }
}
