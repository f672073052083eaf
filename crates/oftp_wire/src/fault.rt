//! Why octets aren't a command, and why a command isn't encoded.

ghost use Rattle.std.specs.Prelude.{Some};
ghost use Rattle.oftp_wire.specs.Messages.{fault_text};

use std::error::Error;
use std::fmt;

/// Why octets aren't a command, or why a command isn't encoded.
#[derive(Clone, Copy, Debug, PartialEq, Eq)]
pub enum WireFault {
    /// No command begins with the first octet, or there is no octet.
    UnknownCommand,
    /// A field extends past the end, or octets are left after the last field.
    WrongLength,
    /// The field at this offset, in octets from 0, has an invalid value.
    BadField(usize),
    /// A text isn't UTF-8.
    BadText,
    /// The slice to write to is shorter than the encoding.
    NoRoom,
}

impl fmt::Display for WireFault {
    ghost output = { λ e. Some (fault_text e) };

    fn fmt<W: fmt::Write>(&self, f: &mut fmt::Formatter<W>) -> fmt::Result {
        match self {
            WireFault::UnknownCommand => f.write_str("no command begins so"),
            WireFault::WrongLength => f.write_str("the command has the wrong length"),
            WireFault::BadField(at) => write!(f, "the field at offset {at} has a bad content"),
            WireFault::BadText => f.write_str("a text isn't UTF-8"),
            WireFault::NoRoom => f.write_str("there is no room for the command"),
        }
    }
}

impl Error for WireFault {}
