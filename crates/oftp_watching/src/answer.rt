//! What an event says of a response, or of a refusal by SFNA or EFNA.

ghost use Rattle.std.specs.Prelude.{◌≡◌, ℕ, List, IfOk, Some, option_map};
ghost use Rattle.std.specs.Borrow.{Bor};
ghost use Rattle.oftp_watching.specs.Answers.{answer_in, answer_of, answer_reason, answer_text, answer_words, kind_text, response_answer, said_if};

use oftp_register::{Change, IssuedResponse, Note, ResponseKind};
use oftp_wire::{Count, Text, end_phrase, negative_phrase, start_phrase};
use std::alloc::{AllocError, Global};

/// An answer that ends a file's way, or refuses it.
#[derive(Drop)]
pub enum Answer {
    /// An End-to-End Response.
    Eerp,
    /// A Negative End Response, with its reason and its text.
    Nerp(Count<2>, Note),
    /// The file isn't accepted, for this reason.
    Sfna(Count<2>),
    /// The end of the file isn't accepted, for this reason.
    Efna(Count<2>),
}

// The answer that a response is.
fn answer_in(
    alloc: Global,
    kind: ResponseKind,
    reason: Count<2>,
    text: &Text<'_>,
) -> Result<Answer, AllocError>
    ensures { IfOk result (λ answer. answer ≡ answer_in kind reason text.now) }
{
    match kind {
        ResponseKind::EndResponse => Ok(Answer::Eerp),
        ResponseKind::NegativeEndResponse => Ok(Answer::Nerp(reason, Note::of(alloc, text)?)),
    }
}

// The same as an answer that there is.
fn answered(
    alloc: Global,
    kind: ResponseKind,
    reason: Count<2>,
    text: &Text<'_>,
) -> Result<Option<Answer>, AllocError>
    ensures { IfOk result (λ answer. answer ≡ Some (answer_in kind reason text.now)) }
{
    Ok(Some(answer_in(alloc, kind, reason, text)?))
}

/// The answer that a change is about, if it is about one. That of `Send` is in the register alone.
///
/// # Errors
///
/// Out of memory.
pub(crate) fn answer_of(alloc: Global, change: &Change<'_>) -> Result<Option<Answer>, AllocError>
    ensures { IfOk result (λ answer. answer ≡ answer_of change.now) }
{
    match change {
        Change::File {
            kind,
            reason,
            text,
            ..
        } => answered(alloc, *kind, *reason, text),
        Change::Issue {
            kind,
            reason,
            text,
            ..
        } => answered(alloc, *kind, *reason, text),
        Change::Refuse { reason, .. } => Ok(Some(Answer::Sfna(*reason))),
        Change::Submit { .. } | Change::Start { .. } | Change::Keep { .. } => Ok(None),
        Change::Close { .. } | Change::GiveUp { .. } | Change::Mark { .. } => Ok(None),
        Change::BeginClosing { .. } | Change::HandOver { .. } => Ok(None),
        Change::Reopen { .. } | Change::Send { .. } => Ok(None),
    }
}

/// The answer that an issued response is.
///
/// # Errors
///
/// Out of memory.
pub(crate) fn response_answer(
    alloc: Global,
    response: &IssuedResponse,
) -> Result<Answer, AllocError>
    ensures { IfOk result (λ answer. answer ≡ response_answer response.now) }
{
    match response.kind {
        ResponseKind::EndResponse => Ok(Answer::Eerp),
        ResponseKind::NegativeEndResponse => {
            Ok(Answer::Nerp(response.reason, response.text.again(alloc)?))
        }
    }
}

// A text, unless it is empty.
fn said_if(text: &str) -> Option<&str>
    ensures { option_map (λ (t : Bor (List ℕ)). t.now) result ≡ said_if text.now }
{
    if text.is_empty() { None } else { Some(text) }
}

impl Answer {
    /// The kind of a response.
    pub(crate) fn kind(&self) -> Option<&'static str>
        ensures { option_map (λ (t : Bor (List ℕ)). t.now) result ≡ kind_text self.now }
    {
        match self {
            Answer::Eerp => Some("EERP"),
            Answer::Nerp(..) => Some("NERP"),
            Answer::Sfna(_) | Answer::Efna(_) => None,
        }
    }

    /// The reason, where it has one.
    pub(crate) fn reason(&self) -> Option<Count<2>>
        ensures { result ≡ answer_reason self.now }
    {
        match self {
            Answer::Eerp => None,
            Answer::Nerp(reason, _) | Answer::Sfna(reason) | Answer::Efna(reason) => Some(*reason),
        }
    }

    /// What RFC 5024 calls the reason, if it lists it.
    pub(crate) fn words(&self) -> Option<&'static str>
        ensures { option_map (λ (t : Bor (List ℕ)). t.now) result ≡ answer_words self.now }
    {
        match self {
            Answer::Eerp => None,
            Answer::Nerp(reason, _) => said_if(negative_phrase(*reason)),
            Answer::Sfna(reason) => said_if(start_phrase(*reason)),
            Answer::Efna(reason) => said_if(end_phrase(*reason)),
        }
    }

    /// Its text, if it has one.
    pub(crate) fn text(&self) -> Option<&str>
        ensures { option_map (λ (t : Bor (List ℕ)). t.now) result ≡ answer_text self.now }
    {
        match self {
            Answer::Nerp(_, text) => said_if(text.as_str()),
            Answer::Eerp | Answer::Sfna(_) | Answer::Efna(_) => None,
        }
    }
}
