//! The edits that make up a transaction, and what a change gives them.

ghost use Rattle.std.specs.Prelude.{◌≡◌};

use oftp_register::{Identity, Name, OutgoingState, ResponseKind, Side};
use oftp_vfile::{Format, Rows};
use oftp_wire::{Count, Text};

/// The header of a file that a change adds, or with which an incoming file goes on.
#[derive(Drop)]
pub(crate) struct NewHeader<'a> {
    pub identity: &'a Identity,
    pub format: Format,
    /// The longest record in octets, and 0 in formats U and T.
    pub longest: u32,
    pub description: &'a Text<'a>,
}

/// The header with these fields.
pub(crate) fn header<'a>(
    identity: &'a Identity,
    format: Format,
    longest: u32,
    description: &'a Text<'a>,
) -> NewHeader<'a>
    ensures { result ≡ record { identity = identity.entry; format = format; longest = longest; description = description.entry } }
{
    NewHeader {
        identity,
        format,
        longest,
        description,
    }
}

/// A response that a partner sent. An End-to-End Response has no reason, creator or text.
#[derive(Drop)]
pub(crate) struct NewReceived<'a> {
    pub kind: ResponseKind,
    /// The identity of the file that it answers.
    pub identity: &'a Identity,
    pub reason: Count<2>,
    pub creator: &'a Name<25>,
    pub text: &'a Text<'a>,
}

/// The received response with these fields.
pub(crate) fn received<'a>(
    kind: ResponseKind,
    identity: &'a Identity,
    reason: Count<2>,
    creator: &'a Name<25>,
    text: &'a Text<'a>,
) -> NewReceived<'a>
    ensures { result ≡ record { kind = kind; identity = identity.entry; reason = reason; creator = creator.entry; text = text.entry } }
{
    NewReceived {
        kind,
        identity,
        reason,
        creator,
        text,
    }
}

/// A response that is issued to an incoming file. An End-to-End Response has no reason or text.
#[derive(Drop)]
pub(crate) struct NewIssued<'a> {
    pub kind: ResponseKind,
    pub reason: Count<2>,
    pub text: &'a Text<'a>,
}

/// The issued response with these fields.
pub(crate) fn issued<'a>(kind: ResponseKind, reason: Count<2>, text: &'a Text<'a>) -> NewIssued<'a>
    ensures { result ≡ record { kind = kind; reason = reason; text = text.entry } }
{
    NewIssued { kind, reason, text }
}

/// What an edit does to an entry.
#[derive(Drop)]
pub(crate) enum EditKind<'a> {
    /// Adds a file without rows. An incoming file is then open, an outgoing file waits.
    AddFile {
        side: Side,
        header: &'a NewHeader<'a>,
    },
    /// Replaces the header of an incoming file, except its identity.
    SetHeader {
        header: &'a NewHeader<'a>,
    },
    /// Marks an incoming file as whole.
    SetWhole,
    /// Sets the mark and the state of an outgoing file.
    SetOutgoing {
        mark: u32,
        state: OutgoingState,
    },
    /// Appends rows to a file that has `from` rows.
    AddRows {
        side: Side,
        from: u32,
        rows: &'a Rows,
    },
    /// Keeps the first `count` rows of an incoming file at most.
    CutRows {
        count: u32,
    },
    /// Adds a response, which is due, to an incoming file that has none.
    AddIssued {
        response: &'a NewIssued<'a>,
    },
    /// Marks the response to an incoming file as sent.
    SetSent,
    /// Adds a response that was received.
    AddReceived {
        response: &'a NewReceived<'a>,
    },
}

/// One edit of one entry.
#[derive(Drop)]
pub(crate) struct Edit<'a> {
    /// The number of the entry, from 1 on.
    pub no: u64,
    /// What is done to it.
    pub kind: EditKind<'a>,
}
