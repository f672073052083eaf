//! The entries that the look-ups of an office return.

ghost use Rattle.std.specs.Prelude.{◌≡◌, IfOk};

use crate::entry::{Dispatch, Identity, IncomingState, OutgoingState, ResponseKind};
use crate::name::Name;
use crate::note::Note;
use oftp_vfile::Format;
use oftp_wire::{Count, Text};
use std::alloc::{AllocError, Global};

/// The table of incoming or of outgoing files.
#[derive(Clone, Copy, Debug, Drop, PartialEq, Eq)]
pub enum Side {
    /// The files that come from partners.
    Incoming,
    /// The files that go to partners.
    Outgoing,
}

/// A response that this station issued to an incoming file.
#[derive(Drop)]
pub struct IssuedResponse {
    /// Its kind.
    pub kind: ResponseKind,
    /// The reason of a refusal, 0 in an End-to-End Response.
    pub reason: Count<2>,
    /// The text of a refusal, empty in an End-to-End Response.
    pub text: Note,
    /// Whether it was sent.
    pub dispatch: Dispatch,
}

/// An incoming file without its rows.
#[derive(Drop)]
pub struct IncomingEntry {
    /// Its number, from 1 on.
    pub no: u64,
    /// Its identity.
    pub identity: Identity,
    /// Its format.
    pub format: Format,
    /// The length of its longest record in octets, 0 in U and T.
    pub longest: u32,
    /// Its description.
    pub description: Note,
    /// Its state.
    pub state: IncomingState,
    /// How many rows were received.
    pub rows: u64,
    /// The response to it, if one was issued.
    pub response: Option<IssuedResponse>,
}

/// An outgoing file without its rows.
#[derive(Drop)]
pub struct OutgoingEntry {
    /// Its number, from 1 on.
    pub no: u64,
    /// Its identity.
    pub identity: Identity,
    /// Its format.
    pub format: Format,
    /// The length of its longest record in octets, 0 in U and T.
    pub longest: u32,
    /// Its description.
    pub description: Note,
    /// How many rows it has.
    pub rows: u64,
    /// Its mark: how many rows were wholly sent when CDT last came.
    pub mark: u64,
    /// Its state.
    pub state: OutgoingState,
}

/// An issued response and the file that it answers.
#[derive(Drop)]
pub struct IssuedEntry {
    /// The number of the incoming file.
    pub no: u64,
    /// The identity of the file. The response goes to its originator and comes from its destination.
    pub identity: Identity,
    /// The response.
    pub response: IssuedResponse,
}

/// A response that a partner sent.
#[derive(Drop)]
pub struct ReceivedResponse {
    /// Its kind.
    pub kind: ResponseKind,
    /// The identity of the file that it answers.
    pub identity: Identity,
    /// The reason of a refusal, 0 in an End-to-End Response.
    pub reason: Count<2>,
    /// The code of the station that refuses the file, empty in an End-to-End Response.
    pub creator: Name<25>,
    /// The text of a refusal, empty in an End-to-End Response.
    pub text: Note,
}

/// A received response with its number.
#[derive(Drop)]
pub struct ReceivedEntry {
    /// Its number, from 1 on.
    pub no: u64,
    /// The response.
    pub response: ReceivedResponse,
}

/// A received response and the file that it answers, by their numbers.
#[derive(Drop)]
pub struct AnsweredEntry {
    /// The number of the response, from 1 on.
    pub no: u64,
    /// The number of the outgoing file with its identity, or `None` where there is none.
    pub file: Option<u64>,
}

/// How far a session is: the greatest numbers that it tried, 0 before the first.
#[derive(Clone, Copy, Debug, Drop, PartialEq, Eq)]
pub struct Cursor {
    /// The greatest number of an incoming file whose response was tried.
    pub response: u64,
    /// The greatest number of an outgoing file that was tried.
    pub file: u64,
}

/// What a speaker sends next.
#[derive(Drop)]
pub enum Item {
    /// A response that is due.
    Response(IssuedEntry),
    /// A file.
    File(OutgoingEntry),
}

impl IssuedResponse {
    // A new response, which is due.
    pub(crate) fn new(
        alloc: Global,
        kind: ResponseKind,
        reason: Count<2>,
        text: &Text<'_>,
    ) -> Result<IssuedResponse, AllocError>
        ensures { IfOk result (λ response. response ≡ record { kind = kind; reason = reason; text = text.now; dispatch = Dispatch.Due }) }
    {
        Ok(IssuedResponse {
            kind,
            reason,
            text: Note::of(alloc, text)?,
            dispatch: Dispatch::Due,
        })
    }

    // A copy of the response.
    pub(crate) fn again(&self, alloc: Global) -> Result<IssuedResponse, AllocError>
        ensures { IfOk result (λ response. response ≡ self.now) }
    {
        Ok(IssuedResponse {
            kind: self.kind,
            reason: self.reason,
            text: self.text.again(alloc)?,
            dispatch: self.dispatch,
        })
    }
}

impl ReceivedResponse {
    // A new received response.
    pub(crate) fn new(
        alloc: Global,
        kind: ResponseKind,
        identity: Identity,
        reason: Count<2>,
        creator: Name<25>,
        text: &Text<'_>,
    ) -> Result<ReceivedResponse, AllocError>
        ensures { IfOk result (λ response. response ≡ record { kind = kind; identity = identity; reason = reason; creator = creator; text = text.now }) }
    {
        Ok(ReceivedResponse {
            kind,
            identity,
            reason,
            creator,
            text: Note::of(alloc, text)?,
        })
    }

    // A copy of the response.
    pub(crate) fn again(&self, alloc: Global) -> Result<ReceivedResponse, AllocError>
        ensures { IfOk result (λ response. response ≡ self.now) }
    {
        Ok(ReceivedResponse {
            kind: self.kind,
            identity: self.identity.again(),
            reason: self.reason,
            creator: self.creator.again(),
            text: self.text.again(alloc)?,
        })
    }
}
