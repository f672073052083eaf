//! The names of states, kinds and reasons in the listing and the reports.

ghost use Rattle.std.specs.Prelude.{◌≡◌, ◌<◌, IfOk, string_bytes};
ghost use Rattle.oftp_wire.specs.Reasons.{two_digits};
ghost use Rattle.oftp_listing.specs.Names.{format_name, incoming_state_name, is_sent, kind_name, outgoing_state_name, reason_name, refusal_name, response_name};

use oftp_register::{
    DigitString, Dispatch, IncomingState, IssuedResponse, Name, OutgoingState, ResponseKind,
};
use oftp_vfile::Format;
use oftp_wire::Count;
use std::alloc::{AllocError, Global};

/// A name as a text.
pub fn name_text<const N: usize>(name: &Name<N>) -> &str
    ensures { result.now ≡ name.now }
{
    str::from_utf8(name.octets()).unwrap()
}

/// Digits as a text.
pub fn digit_text<const N: usize>(digits: &DigitString<N>) -> &str
    ensures { result.now ≡ digits.now }
{
    str::from_utf8(digits.octets()).unwrap()
}

/// The letter of a format.
pub(crate) fn format_name(format: Format) -> &'static str
    ensures { result.now ≡ format_name format }
{
    match format {
        Format::Fixed => "F",
        Format::Variable => "V",
        Format::Unstructured => "U",
        Format::Text => "T",
    }
}

/// The name of a kind of response.
pub(crate) fn kind_name(kind: ResponseKind) -> &'static str
    ensures { result.now ≡ kind_name kind }
{
    match kind {
        ResponseKind::EndResponse => "EERP",
        ResponseKind::NegativeEndResponse => "NERP",
    }
}

/// The kind of the response to a file, or `none` where none was issued.
pub(crate) fn response_name(response: &Option<IssuedResponse>) -> &'static str
    ensures { result.now ≡ response_name response.now }
{
    match response {
        None => "none",
        Some(response) => kind_name(response.kind),
    }
}

/// The state of an incoming file.
pub(crate) fn incoming_state_name(state: IncomingState) -> &'static str
    ensures { result.now ≡ incoming_state_name state }
{
    match state {
        IncomingState::Open => "open",
        IncomingState::Whole => "whole",
    }
}

/// The state of an outgoing file.
pub(crate) fn outgoing_state_name(state: OutgoingState) -> &'static str
    ensures { result.now ≡ outgoing_state_name state }
{
    match state {
        OutgoingState::Waiting => "waiting",
        OutgoingState::Closing => "closing",
        OutgoingState::Handed => "handed",
        OutgoingState::Refused(_) => "refused",
        OutgoingState::Delivered => "delivered",
        OutgoingState::Returned => "returned",
    }
}

// The two digits of a reason code.
fn two_digits(alloc: Global, reason: Count<2>) -> Result<String, AllocError>
    ensures { IfOk result (λ text. string_bytes text ≡ two_digits reason) }
{
    let number = reason.get();
    format!(in alloc; "{}{}", number / 10, number % 10)
}

/// The reason of a refused file, empty for any other file.
///
/// # Errors
///
/// Out of memory.
pub(crate) fn refusal_name(alloc: Global, state: OutgoingState) -> Result<String, AllocError>
    ensures { IfOk result (λ text. string_bytes text ≡ refusal_name state) }
{
    match state {
        OutgoingState::Refused(reason) => two_digits(alloc, reason),
        OutgoingState::Waiting
        | OutgoingState::Closing
        | OutgoingState::Handed
        | OutgoingState::Delivered
        | OutgoingState::Returned => Ok(String::new(alloc)),
    }
}

/// The reason of a response, empty for an End-to-End Response.
///
/// # Errors
///
/// Out of memory.
pub(crate) fn reason_name(
    alloc: Global,
    kind: ResponseKind,
    reason: Count<2>,
) -> Result<String, AllocError>
    ensures { IfOk result (λ text. string_bytes text ≡ reason_name kind reason) }
{
    match kind {
        ResponseKind::EndResponse => Ok(String::new(alloc)),
        ResponseKind::NegativeEndResponse => two_digits(alloc, reason),
    }
}

/// Whether a response was sent.
pub(crate) fn is_sent(dispatch: Dispatch) -> bool
    ensures { result ≡ is_sent dispatch }
{
    dispatch == Dispatch::Sent
}
