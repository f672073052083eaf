//! The options that services over sockets share: where they listen, and the limits of sessions.

ghost use Rattle.std.specs.Prelude.{◌≡◌};
ghost use Rattle.oftp_command_line.specs.Arguments.{values_in};
ghost use Rattle.oftp_command_line.specs.Terms.{entrance_said, entrance_with, terms_said, terms_with};
ghost use Rattle.oftp_command_line.specs.Told.{HasEntrance, HasTerms};

use crate::line::values::{given, number, port, value_of};
use clap::ArgMatches;

/// Where a service listens, and how long a caller has to be admitted.
#[derive(Debug, Clone, Copy, PartialEq, Eq)]
pub struct Entrance<'a> {
    /// The port to listen on, 1 to 65,535.
    pub port: u16,
    /// The machine's address to listen on.
    pub address: &'a str,
    /// How many seconds a caller has to be admitted, 1 to 86,400.
    pub admission: u64,
}

/// Reads where a service listens from the values of the options.
pub(super) fn entrance_read<'a>(matches: &ArgMatches<'a>) -> Entrance<'a>
    requires { HasEntrance (values_in matches.now) }
    ensures { entrance_said result ≡ entrance_with (values_in matches.now) }
{
    Entrance {
        port: port(matches, "port"),
        address: given(matches, "address"),
        admission: number(matches, "admission"),
    }
}

/// The limits and the trace of sessions.
#[derive(Debug, Clone, Copy, PartialEq, Eq)]
pub struct SessionTerms<'a> {
    /// How many seconds a partner may be idle, 0 to 86,400; 0 is no limit.
    pub patience: u64,
    /// How many seconds a session may take in all, 1 to 86,400.
    pub longest: u64,
    /// The file to which the commands of sessions are appended as text, if there is one.
    pub trace: Option<&'a str>,
}

/// Reads the limits and the trace from the values of the options.
pub(super) fn terms_read<'a>(matches: &ArgMatches<'a>) -> SessionTerms<'a>
    requires { HasTerms (values_in matches.now) }
    ensures { terms_said result ≡ terms_with (values_in matches.now) }
{
    SessionTerms {
        patience: number(matches, "patience"),
        longest: number(matches, "longest"),
        trace: value_of(matches, "trace"),
    }
}
