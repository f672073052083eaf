//! How a session ended, as it is counted.

ghost use Rattle.std.specs.Prelude.{◌≡◌, ◌++◌, OnOk, Some};
ghost use Rattle.oftp_status.specs.Subjects.{end_text, end_words, is_good, same_end};

use oftp_wire::{Count, SessionReason};
use std::alloc::{AllocError, Global};
use std::fmt;

/// How a session ended, as it is counted.
#[derive(Clone, Copy, Debug, Drop, PartialEq, Eq)]
pub enum Ending {
    /// The station sent ESID with this reason code (RFC 5024, section 5.3.11).
    Own(Count<2>),
    /// The partner sent it.
    Partner(Count<2>),
    /// The connection ended within the session.
    Input,
    /// The session failed: reading, writing or the register did.
    Failed,
}

impl Ending {
    /// Whether both are counted as one.
    pub fn is(self, other: Ending) -> bool
        ensures { result ≡ same_end self other }
    {
        match self {
            Ending::Own(one) => match other {
                Ending::Own(another) => one.get() == another.get(),
                _ => false,
            },
            Ending::Partner(one) => match other {
                Ending::Partner(another) => one.get() == another.get(),
                _ => false,
            },
            Ending::Input => other == Ending::Input,
            Ending::Failed => other == Ending::Failed,
        }
    }

    /// Whether the session ended in order: an ESID with reason 00.
    pub fn is_good(self) -> bool
        ensures { result ≡ is_good self }
    {
        match self {
            Ending::Own(reason) | Ending::Partner(reason) => reason.get() == 0,
            Ending::Input | Ending::Failed => false,
        }
    }
}

impl fmt::Display for Ending {
    ghost output = { λ end. Some (end_text end) };

    fn fmt<W: fmt::Write>(&self, f: &mut fmt::Formatter<W>) -> fmt::Result {
        match self {
            Ending::Own(reason) => {
                let number = reason.get();
                write!(f, "own {}{}", number / 10, number % 10)
            }
            Ending::Partner(reason) => {
                let number = reason.get();
                write!(f, "partner {}{}", number / 10, number % 10)
            }
            Ending::Input => f.write_str("input"),
            Ending::Failed => f.write_str("failed"),
        }
    }
}

/// An end with what RFC 5024 calls its reason.
#[derive(Clone, Copy, Drop)]
pub(crate) struct InWords {
    /// The end.
    pub(crate) end: Ending,
}

impl fmt::Display for InWords {
    ghost output = { λ end. Some (end_words end.end) };

    fn fmt<W: fmt::Write>(&self, f: &mut fmt::Formatter<W>) -> fmt::Result {
        match self.end {
            Ending::Own(number) => match SessionReason::from_number(number) {
                Some(reason) => write!(f, "own {reason}"),
                None => write!(f, "{}", self.end),
            },
            Ending::Partner(number) => match SessionReason::from_number(number) {
                Some(reason) => write!(f, "partner {reason}"),
                None => write!(f, "{}", self.end),
            },
            Ending::Input | Ending::Failed => write!(f, "{}", self.end),
        }
    }
}

/// Appends an end.
///
/// # Errors
///
/// Out of memory.
pub(crate) fn add_end(alloc: Global, end: Ending, text: &mut Vec<u8>) -> Result<(), AllocError>
    ensures { OnOk result (text.new.items ≡ text.old.items ++ end_text end) }
{
    text.extend_from_slice(end.to_string(alloc)?.as_bytes())
}

/// Appends an end with what its reason is called.
///
/// # Errors
///
/// Out of memory.
pub(crate) fn add_words(alloc: Global, end: Ending, text: &mut Vec<u8>) -> Result<(), AllocError>
    ensures { OnOk result (text.new.items ≡ text.old.items ++ end_words end) }
{
    text.extend_from_slice(InWords { end }.to_string(alloc)?.as_bytes())
}
