//! What an accepted change tells before anything is looked up.

ghost use Rattle.std.specs.Prelude.{◌≡◌, IfOk};
ghost use Rattle.oftp_watching.specs.Moments.{format_of, moment_of, rows_of, subject_of};

use crate::answer::{Answer, answer_of};
use oftp_events::{Event, event_of};
use oftp_register::{Change, Identity, Side};
use oftp_vfile::Format;
use std::alloc::{AllocError, Global};

/// The file that an event is about.
#[derive(Drop)]
pub enum Subject {
    /// The file of a table that has this number.
    Numbered(Side, u64),
    /// The file of a table that has this identity, if there is one.
    Named(Side, Identity),
    /// A file that was offered under this identity. The register isn't asked for it.
    Offered(Identity),
}

/// What happened to a file, as far as the change or the command says it that did it.
#[derive(Drop)]
pub struct Moment {
    /// What happened.
    pub event: Event,
    /// The file.
    pub subject: Subject,
    /// Its format, where the change says it.
    pub format: Option<Format>,
    /// How many rows it has then, where the change says it.
    pub rows: Option<u64>,
    /// The response or the refusal, if there is one.
    pub answer: Option<Answer>,
}

// The file that a change is about.
fn subject_of(change: &Change<'_>) -> Subject
    ensures { result ≡ subject_of change.now }
{
    match change {
        Change::Submit { identity, .. } => Subject::Named(Side::Outgoing, identity.again()),
        Change::Start { identity, .. } => Subject::Named(Side::Incoming, identity.again()),
        Change::File { identity, .. } => Subject::Named(Side::Outgoing, identity.again()),
        Change::Keep { no, .. } | Change::Close { no, .. } | Change::GiveUp { no } => {
            Subject::Numbered(Side::Incoming, *no)
        }
        Change::Issue { no, .. } | Change::Send { no } => Subject::Numbered(Side::Incoming, *no),
        Change::Mark { no, .. } | Change::BeginClosing { no } | Change::HandOver { no } => {
            Subject::Numbered(Side::Outgoing, *no)
        }
        Change::Refuse { no, .. } | Change::Reopen { no } => Subject::Numbered(Side::Outgoing, *no),
    }
}

// The format of a file that is new, or whose transfer starts.
fn format_of(change: &Change<'_>) -> Option<Format>
    ensures { result ≡ format_of change.now }
{
    match change {
        Change::Submit { format, .. } | Change::Start { format, .. } => Some(*format),
        Change::Keep { .. } | Change::Close { .. } | Change::GiveUp { .. } => None,
        Change::File { .. } | Change::Issue { .. } | Change::Send { .. } => None,
        Change::Mark { .. } | Change::BeginClosing { .. } | Change::HandOver { .. } => None,
        Change::Refuse { .. } | Change::Reopen { .. } => None,
    }
}

// How many rows the file has after a change that gives or takes all of them. They are those that are kept of a transfer, and none after it is given
// up.
fn rows_of(change: &Change<'_>) -> Option<u64>
    ensures { result ≡ rows_of change.now }
{
    match change {
        Change::Submit { rows, .. } => Some(rows.len() as u64),
        Change::Start { count, .. } => Some(*count),
        Change::GiveUp { .. } => Some(0),
        Change::Keep { .. } | Change::Close { .. } => None,
        Change::File { .. } | Change::Issue { .. } => None,
        Change::Mark { .. } | Change::BeginClosing { .. } | Change::HandOver { .. } => None,
        Change::Refuse { .. } | Change::Reopen { .. } | Change::Send { .. } => None,
    }
}

/// What a change tells once it is accepted, if it is an event.
///
/// # Errors
///
/// Out of memory.
pub fn moment_of(alloc: Global, change: &Change<'_>) -> Result<Option<Moment>, AllocError>
    ensures { IfOk result (λ moment. moment ≡ moment_of change.now) }
{
    let Some(event) = event_of(change) else {
        return Ok(None);
    };
    Ok(Some(Moment {
        event,
        subject: subject_of(change),
        format: format_of(change),
        rows: rows_of(change),
        answer: answer_of(alloc, change)?,
    }))
}
