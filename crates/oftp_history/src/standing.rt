//! How a file stands by its events, and what that proves.

ghost use Rattle.std.specs.Prelude.{◌≡◌, IfOk, codes, string_bytes};
ghost use Rattle.oftp_history.specs.Proofs.{answered_by, incoming_after, outgoing_after, passed_line, proof_text, responded, standing_after, standing_by, standing_line, standing_text_line};

use crate::past::PastEvent;
use oftp_events::Direction;
use oftp_status::Standing;
use std::alloc::{AllocError, Global};

// An incoming file after an event with these words.
fn incoming_after(before: Option<Standing>, words: &str) -> Option<Standing>
    ensures { result ≡ incoming_after before words.now }
{
    match words {
        "started to come" | "given up" => Some(Standing::Coming),
        "came" => Some(Standing::Whole),
        "released" | "refused here" => Some(Standing::Due),
        "response sent" => Some(Standing::Answered),
        _ => before,
    }
}

// A file that a response of this kind answers.
fn answered_by(kind: &str, before: Option<Standing>) -> Option<Standing>
    ensures { result ≡ answered_by kind.now before }
{
    match kind {
        "EERP" => Some(Standing::Delivered),
        "NERP" => Some(Standing::Returned),
        _ => before,
    }
}

// A file after a response of this kind.
fn responded(kind: &str, before: Option<Standing>) -> Option<Standing>
    ensures { result ≡ responded kind.now before }
{
    match before {
        Some(Standing::Closing | Standing::Handed) => answered_by(kind, before),
        _ => before,
    }
}

// An outgoing file after an event with these words, and this kind of a response.
fn outgoing_after(kind: &str, before: Option<Standing>, words: &str) -> Option<Standing>
    ensures { result ≡ outgoing_after kind.now before words.now }
{
    match words {
        "submitted" | "reopened" => Some(Standing::Waiting),
        "sent" => Some(Standing::Closing),
        "handed over" => Some(Standing::Handed),
        "refused" => Some(Standing::Refused),
        "response received" => responded(kind, before),
        _ => before,
    }
}

// A file that goes this way after one more event.
fn standing_after(way: Direction, before: Option<Standing>, event: &PastEvent) -> Option<Standing>
    ensures { result ≡ standing_after way before event.now }
{
    match way {
        Direction::In => incoming_after(before, event.said_at("event")),
        Direction::Out => outgoing_after(event.said_at("kind"), before, event.said_at("event")),
    }
}

/// A file that goes this way after its events, if they say how it stands.
pub(crate) fn standing_by(way: Direction, events: &[PastEvent]) -> Option<Standing>
    ensures { result ≡ standing_by way events.now }
{
    let mut standing = None;
    for event in events {
        standing = standing_after(way, standing, event);
    }
    standing
}

/// What a state proves, between two such stations.
pub fn proof_text(standing: Standing) -> &'static str
    ensures { result.now ≡ proof_text standing }
{
    match standing {
        Standing::Coming => "nothing yet: not all of the file is here",
        Standing::Whole => {
            "the file is here, whole; if it names the partner as its originator, it is one of the partner's, record by record"
        }
        Standing::Due => {
            "the file is here, whole, and so is its response, which is still to be sent"
        }
        Standing::Answered => "the file is here, whole, and the partner has its response",
        Standing::Waiting => "nothing of the partner",
        Standing::Closing => {
            "nothing yet: the file's end may have gone out, and the next session finds out"
        }
        Standing::Handed => {
            "the file is whole at the partner, record by record, and stays so while the partner keeps its database"
        }
        Standing::Refused => "only that a refusal (SFNA) came; records may be there",
        Standing::Delivered => {
            "the file is whole at the partner, record by record; it was released there, and that receipt is kept there"
        }
        Standing::Returned => {
            "the file is whole at the partner, record by record; it was refused there, and that response is kept there"
        }
    }
}

// The line of how a file stands, by the word for it and what that proves.
fn standing_text_line(
    alloc: Global,
    way: Direction,
    no: u64,
    word: &str,
    proof: &str,
) -> Result<String, AllocError>
    ensures { IfOk result (λ line. string_bytes line ≡ standing_text_line way no word.now proof.now) }
{
    format!(in alloc;
        "by these events {way} {no} is {word}; between two such stations this proves: {proof}\n"
    )
}

/// The line of how a file stands and what that proves, with its end.
///
/// # Errors
///
/// Out of memory.
pub fn standing_line(
    alloc: Global,
    way: Direction,
    no: u64,
    standing: Option<Standing>,
) -> Result<String, AllocError>
    ensures { IfOk result (λ line. string_bytes line ≡ standing_line way no standing) }
{
    match standing {
        None => format!(in alloc; "no event says how {way} {no} stands\n"),
        Some(standing) => {
            standing_text_line(alloc, way, no, standing.word(), proof_text(standing))
        }
    }
}

/// The line of how many lines were no events, with its end.
///
/// # Errors
///
/// Out of memory.
pub fn passed_line(alloc: Global, count: u64) -> Result<String, AllocError>
    ensures { IfOk result (λ line. string_bytes line ≡ passed_line count) }
{
    format!(in alloc; "passed over: {count} lines that are no events\n")
}
