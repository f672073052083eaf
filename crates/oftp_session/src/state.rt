//! The states of a session.

ghost use Rattle.std.specs.Prelude.{◌≡◌, if◌then◌else◌, None, is_some, option_map};
ghost use Rattle.oftp_session.specs.Phases.{fails, leaves, unexpected};
ghost use Rattle.oftp_session.specs.Standings.{ended_as, is_closed, is_due, is_sending, standing_of};
ghost use Rattle.oftp_session.specs.Callers.{code_of};
ghost use Rattle.oftp_session.specs.Recalling.{recalled_of};
ghost use Rattle.oftp_session.specs.Inside.{Goes};

use crate::commands::esid;
use crate::frame::Frame;
use crate::link::{Link, WhenDone};
use crate::receiving::IncomingTransfer;
use crate::sending::{OutgoingOffer, OutgoingTransfer};
use crate::session::Ending;
use oftp_register::{Cursor, Name};
use oftp_wire::{Command, Count, SessionReason};

// The partner of an open session by its code, what is agreed with it, and the numbers up to which responses and files were tried.
#[derive(Drop)]
pub(crate) struct Contact {
    pub(crate) code: Name<25>,
    pub(crate) link: Link,
    pub(crate) tried: Cursor,
}

// The state of a session (RFC 5024, section 9).
#[derive(Drop)]
pub(crate) enum State {
    // A responder that has to send SSRM.
    ResponderOpening,
    // An initiator that waits for SSRM.
    InitiatorOpening,
    // The partner's SSID is missing.
    AwaitingSsid,
    // The partner speaks, and no file is being received.
    ListenerIdle(Contact),
    // The partner speaks, and this file is being received.
    Receiving(Contact, IncomingTransfer),
    // The station speaks, and decides what it sends next.
    SpeakerIdle(Contact, WhenDone),
    // The station has to send CD.
    GivingWay(Contact),
    // The response to the incoming file with this number was sent, and RTR is missing.
    AwaitingRtr(Contact, u64),
    // This file was offered, and the answer to SFID is missing.
    AwaitingStart(Contact, OutgoingOffer),
    // This file is being sent.
    Sending(Contact, OutgoingTransfer),
    // The end of the outgoing file with this number was sent, and the answer to EFID is missing.
    AwaitingEnd(Contact, u64),
    // The station ended the session.
    EndedHere(SessionReason),
    // The partner ended the session. Its reason code may be one that RFC 5024 doesn't list.
    EndedThere(Count<2>),
}

impl State {
    // Ends the session with an ESID of this reason.
    pub(crate) fn ended_here(reason: SessionReason, frame: &mut Frame) -> State
        ensures { Goes (fails reason) result frame.new }
    {
        frame.set_command(&esid(reason));
        State::EndedHere(reason)
    }

    // The partner ended the session.
    fn ended_there(reason: Count<2>, frame: &mut Frame) -> State
        ensures { Goes (leaves reason) result frame.new }
    {
        frame.clear();
        State::EndedThere(reason)
    }

    // Executes a command that isn't allowed in the current state.
    #[tactic(auto, unfolding(crate::specs::Phases::unexpected))]
    pub(crate) fn unexpected(command: &Command<'_>, frame: &mut Frame) -> State
        ensures { Goes (unexpected command.now) result frame.new }
    {
        match command {
            Command::Esid(esid) => State::ended_there(esid.reason, frame),
            _ => State::ended_here(SessionReason::ProtocolViolation, frame),
        }
    }

    // How the session ended, if it did.
    pub(crate) fn ended(&self) -> Option<Ending>
        ensures { result ≡ ended_as (standing_of self.now) }
    {
        match self {
            State::EndedHere(reason) => Some(Ending::Own(*reason)),
            State::EndedThere(reason) => Some(Ending::Partner(*reason)),
            State::ResponderOpening
            | State::InitiatorOpening
            | State::AwaitingSsid
            | State::ListenerIdle(_)
            | State::Receiving(_, _)
            | State::SpeakerIdle(_, _)
            | State::GivingWay(_)
            | State::AwaitingRtr(_, _)
            | State::AwaitingStart(_, _)
            | State::Sending(_, _)
            | State::AwaitingEnd(_, _) => None,
        }
    }

    // Whether the session ended.
    #[tactic(auto, using(crate::proofs::Standings::closed_ended))]
    pub(crate) fn is_closed(&self) -> bool
        ensures { result ≡ is_closed (standing_of self.now) }
    {
        self.ended().is_some()
    }

    // What was looked up, in a state that remembers it: each of an open session, but for the one in which RTR is missing.
    pub(crate) fn recalled(&self, response_due: Option<bool>) -> Option<bool>
        ensures { result ≡ (if is_some (recalled_of (standing_of self.now)) then response_due else None) }
    {
        match self {
            State::ListenerIdle(_)
            | State::Receiving(_, _)
            | State::SpeakerIdle(_, _)
            | State::GivingWay(_)
            | State::AwaitingStart(_, _)
            | State::Sending(_, _)
            | State::AwaitingEnd(_, _) => response_due,
            State::ResponderOpening
            | State::InitiatorOpening
            | State::AwaitingSsid
            | State::AwaitingRtr(_, _)
            | State::EndedHere(_)
            | State::EndedThere(_) => None,
        }
    }

    // Whether a command of the station is due.
    pub(crate) fn is_due(&self) -> bool
        ensures { result ≡ is_due (standing_of self.now) }
    {
        match self {
            State::ResponderOpening | State::SpeakerIdle(_, _) | State::GivingWay(_) => true,
            State::Sending(_, outgoing) => outgoing.credit > 0,
            State::InitiatorOpening
            | State::AwaitingSsid
            | State::ListenerIdle(_)
            | State::Receiving(_, _)
            | State::AwaitingRtr(_, _)
            | State::AwaitingStart(_, _)
            | State::AwaitingEnd(_, _)
            | State::EndedHere(_)
            | State::EndedThere(_) => false,
        }
    }

    // Whether the buffers of a file are being sent.
    pub(crate) fn is_sending(&self) -> bool
        ensures { result ≡ is_sending (standing_of self.now) }
    {
        match self {
            State::Sending(_, _) => true,
            State::ResponderOpening
            | State::InitiatorOpening
            | State::AwaitingSsid
            | State::ListenerIdle(_)
            | State::Receiving(_, _)
            | State::SpeakerIdle(_, _)
            | State::GivingWay(_)
            | State::AwaitingRtr(_, _)
            | State::AwaitingStart(_, _)
            | State::AwaitingEnd(_, _)
            | State::EndedHere(_)
            | State::EndedThere(_) => false,
        }
    }

    // The code of the partner with whom the session is open, if it is.
    pub(crate) fn code(&self) -> Option<&Name<25>>
        ensures { option_map (λ name. name.now) result ≡ code_of (standing_of self.now) }
    {
        match self {
            State::ListenerIdle(contact)
            | State::Receiving(contact, _)
            | State::SpeakerIdle(contact, _)
            | State::GivingWay(contact)
            | State::AwaitingRtr(contact, _)
            | State::AwaitingStart(contact, _)
            | State::Sending(contact, _)
            | State::AwaitingEnd(contact, _) => Some(&contact.code),
            State::ResponderOpening
            | State::InitiatorOpening
            | State::AwaitingSsid
            | State::EndedHere(_)
            | State::EndedThere(_) => None,
        }
    }
}
