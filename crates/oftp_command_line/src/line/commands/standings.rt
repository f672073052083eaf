//! The commands `status` and `health`, which ask the station that runs over a database.

ghost use Rattle.std.specs.Prelude.{◌≡◌, codes};
ghost use Rattle.oftp_command_line.specs.Arguments.{HasValues, values_in};
ghost use Rattle.oftp_command_line.specs.StandingLines.{health_app, health_said, health_with, status_app, status_said, status_with};

use crate::line::values::{given, has_flag, number};
use clap::ArgMatches;

/// The command `status`, which tells how the station stands.
#[derive(Clone, Copy)]
pub struct Status<'a> {
    /// The database's file.
    pub database: &'a str,
    /// Whether it is told as JSON.
    pub json: bool,
}

/// Reads the values of the options of `status`.
#[tactic(auto, using(crate::proofs::Values::has_text), unfolding(crate::specs::StandingLines::status_app))]
pub(super) fn status_read<'a>(matches: &ArgMatches<'a>) -> Status<'a>
    requires { HasValues status_app (values_in matches.now) }
    ensures { status_said result ≡ status_with (values_in matches.now) }
{
    Status {
        database: given(matches, "db"),
        json: has_flag(matches, "json"),
    }
}

/// The command `health`, which tells whether something is overdue.
#[derive(Clone, Copy)]
pub struct Health<'a> {
    /// The database's file.
    pub database: &'a str,
    /// After how many hours something is overdue, 0 to 87,600.
    pub warn: u64,
    /// After how many hours that is critical, 0 to 87,600.
    pub critical: u64,
}

/// Reads the values of the options of `health`.
#[tactic(auto, using(crate::proofs::Values::has_text), unfolding(crate::specs::StandingLines::health_app))]
pub(super) fn health_read<'a>(matches: &ArgMatches<'a>) -> Health<'a>
    requires { HasValues health_app (values_in matches.now) }
    ensures { health_said result ≡ health_with (values_in matches.now) }
{
    Health {
        database: given(matches, "db"),
        warn: number(matches, "warn"),
        critical: number(matches, "critical"),
    }
}
