//! The events of a station's work, and which change of the register is which.

ghost use Rattle.std.specs.Prelude.{◌≡◌, Some};
ghost use Rattle.oftp_events.specs.Events.{event_of, event_text, issued_event};

use oftp_register::{Change, ResponseKind};
use std::fmt;

/// What happened in a station's work.
#[derive(Clone, Copy, Debug, Drop, PartialEq, Eq)]
pub enum Event {
    /// The program is ready.
    Started,
    /// The program ends in order.
    Stopped,
    /// A partner was let in, or called.
    SessionBegun,
    /// The session of a partner ended.
    SessionEnded,
    /// A caller wasn't let in.
    NotLetIn,
    /// A call didn't connect.
    NotReached,
    /// A file was submitted.
    Submitted,
    /// A file started to come, or goes on after its transfer broke off.
    StartedToCome,
    /// The whole file is here.
    Came,
    /// A session ended within a file.
    BrokenOff,
    /// The rows of a file that is incomplete were deleted.
    GivenUp,
    /// The end of a file is sent next, since all of it went out.
    Sent,
    /// The partner has the whole file.
    HandedOver,
    /// The partner refused a file.
    Refused,
    /// A file is sent again from its first row on.
    Reopened,
    /// An End-to-End Response was issued.
    Released,
    /// A Negative End Response was issued.
    RefusedHere,
    /// A response was sent, and the partner answered RTR.
    ResponseSent,
    /// The partner sent a response.
    ResponseReceived,
    /// This station refused a file by SFNA.
    RefusedFile,
    /// This station refused the end of a file by EFNA.
    RefusedEnd,
    /// A backup was made.
    Backup,
}

impl Event {
    /// The words that a line has for it.
    pub fn words(self) -> &'static str
        ensures { result.now ≡ event_text self }
    {
        match self {
            Event::Started => "started",
            Event::Stopped => "stopped",
            Event::SessionBegun => "session begun",
            Event::SessionEnded => "session ended",
            Event::NotLetIn => "not let in",
            Event::NotReached => "not reached",
            Event::Submitted => "submitted",
            Event::StartedToCome => "started to come",
            Event::Came => "came",
            Event::BrokenOff => "broken off",
            Event::GivenUp => "given up",
            Event::Sent => "sent",
            Event::HandedOver => "handed over",
            Event::Refused => "refused",
            Event::Reopened => "reopened",
            Event::Released => "released",
            Event::RefusedHere => "refused here",
            Event::ResponseSent => "response sent",
            Event::ResponseReceived => "response received",
            Event::RefusedFile => "refused file",
            Event::RefusedEnd => "refused end",
            Event::Backup => "backup",
        }
    }
}

impl fmt::Display for Event {
    ghost output = { λ event. Some (event_text event) };

    fn fmt<W: fmt::Write>(&self, f: &mut fmt::Formatter<W>) -> fmt::Result {
        f.write_str(self.words())
    }
}

// The event of a response that is issued.
fn issued_event(kind: ResponseKind) -> Event
    ensures { result ≡ issued_event kind }
{
    match kind {
        ResponseKind::EndResponse => Event::Released,
        ResponseKind::NegativeEndResponse => Event::RefusedHere,
    }
}

/// The event that a change of the register is, once it was accepted. Rows that are kept and a mark that is set are none.
///
/// The other events aren't changes: `BrokenOff`, among them, is told where a session ends.
pub fn event_of(change: &Change<'_>) -> Option<Event>
    ensures { result ≡ event_of change.now }
{
    match change {
        Change::Submit { .. } => Some(Event::Submitted),
        Change::Start { .. } => Some(Event::StartedToCome),
        Change::Keep { .. } => None,
        Change::Close { .. } => Some(Event::Came),
        Change::GiveUp { .. } => Some(Event::GivenUp),
        Change::File { .. } => Some(Event::ResponseReceived),
        Change::Issue { kind, .. } => Some(issued_event(*kind)),
        Change::Mark { .. } => None,
        Change::BeginClosing { .. } => Some(Event::Sent),
        Change::HandOver { .. } => Some(Event::HandedOver),
        Change::Refuse { .. } => Some(Event::Refused),
        Change::Reopen { .. } => Some(Event::Reopened),
        Change::Send { .. } => Some(Event::ResponseSent),
    }
}
