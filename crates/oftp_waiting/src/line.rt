//! For what a command waits, as the station's status says it.

ghost use Rattle.std.specs.Prelude.{◌≡◌, codes, option_and_then, option_map, IfOk, string_bytes};
ghost use Rattle.serde_json.specs.Find.{get};
ghost use Rattle.serde_json.specs.View.{view};
ghost use Rattle.oftp_history.specs.Values.{number_at, text_at};
ghost use Rattle.oftp_notes.specs.Seen.{IsOneLine, seen_line};
ghost use Rattle.oftp_waiting.specs.Waits.{call_line, call_with, called_with, file_text, is_called, is_text, session_text, value_in, waiting_line, waiting_with};

use oftp_history::{number_at, text_at, value_of};
use oftp_notes::seen_line;
use oftp_progress::Extent;
use serde_json::Value;
use std::alloc::{AllocError, Global};

// The value of JSON that octets are, if they are UTF-8.
#[tactic(auto, using(oftp_history::proofs::Utf8::not_utf8, oftp_history::proofs::Utf8::utf8_is))]
fn value_in(alloc: Global, octets: &[u8]) -> Result<Option<Value>, AllocError>
    ensures { IfOk result (λ value. option_map view value ≡ value_in octets.now) }
{
    match str::from_utf8(octets) {
        Ok(text) => value_of(alloc, text),
        Err(_) => Ok(None),
    }
}

// The words for a file that comes or goes.
fn file_text(alloc: Global, dataset: Option<&str>, share: Option<u64>) -> Result<String, AllocError>
    ensures { IfOk result (λ text. string_bytes text ≡ file_text (option_map (λ s. s.now) dataset.entry) share) }
{
    match (dataset, share) {
        (Some(dataset), Some(share)) if dataset.len() > 0 => {
            format!(in alloc; ", {dataset} {share} %")
        }
        _ => String::from_str(alloc, ""),
    }
}

// The words for a session with a partner, if there is one.
fn session_text(alloc: Global, partner: Option<&str>, file: &str) -> Result<String, AllocError>
    ensures { IfOk result (λ text. string_bytes text ≡ session_text (option_map (λ s. s.now) partner.entry) file.now) }
{
    match partner {
        Some(partner) => format!(in alloc; "waiting: session with {partner}{file}"),
        None => String::from_str(alloc, "waiting: for its turn"),
    }
}

// The words for the session that a status has.
fn waiting_with(alloc: Global, session: Option<&Value>) -> Result<String, AllocError>
    ensures { IfOk result (λ text. string_bytes text ≡ waiting_with (option_map (λ v. view v.now) session.entry)) }
{
    let Some(session) = session else {
        return String::from_str(alloc, "waiting: for its turn");
    };
    let file = file_text(
        alloc,
        text_at(session, "dataset"),
        number_at(session, "share"),
    )?;
    session_text(alloc, text_at(session, "partner"), file.as_str())
}

// Whether a text is there, and is this one.
fn is_text(text: Option<&str>, wanted: &str) -> bool
    ensures { result ≡ is_text (option_map (λ s. s.now) text.entry) wanted.now }
{
    match text {
        Some(text) => text == wanted,
        None => false,
    }
}

// Whether the station called the partner with a code for a session.
fn is_called(session: &Value, code: &str) -> bool
    ensures { result ≡ is_called code.now (view session.now) }
{
    is_text(text_at(session, "partner"), code) && is_text(text_at(session, "way"), "out")
}

// The words for how far the file of a called session came, if it has one with a name.
fn called_with(alloc: Global, session: &Value) -> Result<String, AllocError>
    ensures { IfOk result (λ text. string_bytes text ≡ called_with (text_at (codes "dataset") (view session.now)) (number_at (codes "share") (view session.now)) (view session.now)) }
{
    match (text_at(session, "dataset"), number_at(session, "share")) {
        (Some(dataset), Some(share)) if !dataset.is_empty() => {
            Extent::Call { dataset, share }.to_string(alloc)
        }
        _ => waiting_with(alloc, Some(session)),
    }
}

// The words of a call for the session that a status has.
fn call_with(alloc: Global, code: &str, session: Option<&Value>) -> Result<String, AllocError>
    ensures { IfOk result (λ text. string_bytes text ≡ call_with code.now (option_map (λ v. view v.now) session.entry)) }
{
    match session {
        Some(session) if is_called(session, code) => called_with(alloc, session),
        _ => waiting_with(alloc, session),
    }
}

// The session that a status has.
fn session_of(status: &Option<Value>) -> Option<&Value>
    ensures { option_map (λ v. view v.now) result ≡ option_and_then (get (codes "session")) (option_map view status.now) }
{
    match status {
        Some(status) => status.get("session"),
        None => None,
    }
}

/// The line that says for what a command waits, by the status that the station gives as JSON. It waits for a session with a partner, and a file
/// in it, or only for its turn. Characters that can't be seen are escapes, and one line end is behind it.
///
/// # Errors
///
/// Out of memory.
pub fn waiting_line(alloc: Global, status: &[u8]) -> Result<String, AllocError>
    ensures text { IfOk result (λ line. string_bytes line ≡ waiting_line status.now) }
    ensures alone { IfOk result (λ line. IsOneLine (string_bytes line)) }
{
    let status = value_in(alloc, status)?;
    let text = waiting_with(alloc, session_of(&status))?;
    seen_line(alloc, text.as_str())
}

/// The line of a call of the partner with a code, by the status that the station gives as JSON. It says how far the file came that is on its
/// way in the session for which the station called that partner. Else it is what [`waiting_line`] says. Characters that can't be seen are
/// escapes, and one line end is behind it.
///
/// # Errors
///
/// Out of memory.
pub fn call_line(alloc: Global, status: &[u8], code: &str) -> Result<String, AllocError>
    ensures text { IfOk result (λ line. string_bytes line ≡ call_line status.now code.now) }
    ensures alone { IfOk result (λ line. IsOneLine (string_bytes line)) }
{
    let status = value_in(alloc, status)?;
    let words = call_with(alloc, code, session_of(&status))?;
    seen_line(alloc, words.as_str())
}
