//! The command `audit`, which reads the database, an older one, and a record.
#![tactic(auto, using(crate::proofs::Values::has_text), unfolding(crate::specs::RegisterLines::audit_app))]

ghost use Rattle.std.specs.Prelude.{◌≡◌, codes};
ghost use Rattle.oftp_command_line.specs.Arguments.{HasValues, values_in};
ghost use Rattle.oftp_command_line.specs.RegisterLines.{audit_app, audit_said, audit_with};

use crate::line::values::{given, value_of};
use clap::ArgMatches;

/// The command `audit`, which tells what is unsound in the database, and what it has lost of an older one or of a record.
#[derive(Clone, Copy)]
pub struct Audit<'a> {
    /// The database's file.
    pub database: &'a str,
    /// The older database's file, if there is one.
    pub old: Option<&'a str>,
    /// The folder of the record, if there is one.
    pub record: Option<&'a str>,
}

/// Reads the values of the options of `audit`.
pub(super) fn audit_read<'a>(matches: &ArgMatches<'a>) -> Audit<'a>
    requires { HasValues audit_app (values_in matches.now) }
    ensures { audit_said result ≡ audit_with (values_in matches.now) }
{
    Audit {
        database: given(matches, "db"),
        old: value_of(matches, "old"),
        record: value_of(matches, "record"),
    }
}
