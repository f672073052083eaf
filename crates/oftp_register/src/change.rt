//! The changes of a register.

use crate::entry::{Identity, ResponseKind};
use crate::name::Name;
use oftp_vfile::{Format, Rows};
use oftp_wire::{Count, Text};

/// Why a register refuses a change. Where several causes apply, it is the first in this list.
#[derive(Clone, Copy, Debug, Drop, PartialEq, Eq)]
pub enum Cause {
    /// There is an entry with this identity.
    Duplicate,
    /// No file has this number.
    Unknown,
    /// The state of the entry doesn't allow the change.
    State,
    /// The table has as many files as the limits allow.
    Full,
}

/// A change of a register. It is made whole or not at all.
///
/// Files are numbered from 1 on, separately for incoming and for outgoing files. The longest record is in octets, and 0 in formats U and T.
#[derive(Drop)]
pub enum Change<'a> {
    /// Submit a file: it waits to be sent, with mark 0.
    Submit {
        /// The file's identity.
        identity: Identity,
        /// The format of its records.
        format: Format,
        /// Its longest record.
        longest: u32,
        /// The description.
        description: Text<'a>,
        /// All its rows.
        rows: Rows,
    },
    /// Start an incoming file, or go on with it after its first `count` rows (RFC 5024, section 5.3.4).
    Start {
        /// The file's identity.
        identity: Identity,
        /// The format of its records.
        format: Format,
        /// Its longest record.
        longest: u32,
        /// The description.
        description: Text<'a>,
        /// How many of its rows are kept, 0 for a new file.
        count: u64,
    },
    /// Append rows to an incoming file.
    Keep {
        /// The file's number.
        no: u64,
        /// The rows after those that it has.
        rows: Rows,
    },
    /// Append the last rows to an incoming file, which is whole then (RFC 5024, section 5.3.8).
    Close {
        /// The file's number.
        no: u64,
        /// The rows after those that it has.
        rows: Rows,
    },
    /// Delete the rows of an incoming file.
    GiveUp {
        /// The file's number.
        no: u64,
    },
    /// Add a response that the partner sent (RFC 5024, sections 5.3.13 and 5.3.14).
    File {
        /// The kind of response.
        kind: ResponseKind,
        /// The identity of the file that it answers. The response's destination is the file's originator.
        identity: Identity,
        /// Why the file wasn't delivered, 0 in an End-to-End Response.
        reason: Count<2>,
        /// The station that gave the reason, empty in an End-to-End Response.
        creator: Name<25>,
        /// The reason text, empty in an End-to-End Response.
        text: Text<'a>,
    },
    /// Issue a response to an incoming file, which is to be sent (RFC 5024, sections 5.3.13 and 5.3.14).
    Issue {
        /// The file's number.
        no: u64,
        /// The kind of response.
        kind: ResponseKind,
        /// Why the file wasn't delivered, 0 in an End-to-End Response.
        reason: Count<2>,
        /// The reason text, empty in an End-to-End Response.
        text: Text<'a>,
    },
    /// Set the mark of an outgoing file: `rows` rows were wholly sent when CDT came (RFC 5024, section 4.4.1).
    Mark {
        /// The file's number.
        no: u64,
        /// How many of its rows, counted from the first.
        rows: u64,
    },
    /// Record that the end of an outgoing file is sent next (RFC 5024, section 5.3.8).
    BeginClosing {
        /// The file's number.
        no: u64,
    },
    /// Record that the partner has the whole outgoing file (RFC 5024, section 5.3.9).
    HandOver {
        /// The file's number.
        no: u64,
    },
    /// Record that the partner refuses an outgoing file by SFNA (RFC 5024, section 5.3.5).
    Refuse {
        /// The file's number.
        no: u64,
        /// The reason of the refusal.
        reason: Count<2>,
    },
    /// Send an outgoing file again from its first row on. This is after EFNA, or after SFPA if its end was sent (RFC 5024, sections
    /// 5.3.4 and 5.3.10).
    Reopen {
        /// The file's number.
        no: u64,
    },
    /// Record that the response to an incoming file was sent.
    Send {
        /// The file's number.
        no: u64,
    },
}
