//! A rule that is broken, and where.

use crate::rule::Rule;
use oftp_telling::{CommandKind, NamedField};

/// Where in a session something is that breaks a rule.
#[derive(Clone, Copy, Debug, Drop, PartialEq, Eq)]
pub enum Place {
    /// The stream header of a command (RFC 5024, section 8).
    Header,
    /// The first octet of a command.
    Beginning,
    /// A field of a command of this kind.
    Field(CommandKind, NamedField),
    /// The octets of a command of this kind from an offset on, where its last field ends.
    Behind(CommandKind, usize),
    /// A command of this kind as a whole.
    Whole(CommandKind),
}

/// A rule that is broken, and where.
#[derive(Clone, Copy, Debug, Drop, PartialEq, Eq)]
pub struct Finding {
    /// The rule.
    pub rule: Rule,
    /// What breaks it.
    pub place: Place,
}
