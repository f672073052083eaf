//! The option `record-sync` of `run`, and the command `replay`.
#![tactic(auto, using(crate::proofs::Values::has_text), unfolding(crate::specs::RecordLines::replay_app))]

ghost use Rattle.std.specs.Prelude.{◌≡◌, codes};
ghost use Rattle.oftp_command_line.specs.Arguments.{HasValues, values_in};
ghost use Rattle.oftp_command_line.specs.RecordLines.{replay_app, replay_said, replay_with};

use crate::line::values::{given, value_of};
use clap::ArgMatches;

/// Whether a record is synced before an answer to what it has goes out.
#[derive(Debug, Clone, Copy, PartialEq, Eq)]
pub enum RecordSync {
    /// It is.
    Synced,
    /// It isn't.
    Unsynced,
}

/// Whether a record is synced, by its names for `run`.
pub(super) const RECORD_SYNCS: &[(&str, RecordSync)] = &[
    ("yes", RecordSync::Synced),
    ("no", RecordSync::Unsynced),
];

/// The command `replay`, which plays a record over a database.
#[derive(Debug, Clone, Copy, PartialEq, Eq)]
pub struct Replay<'a> {
    /// The folder with the record.
    pub folder: &'a str,
    /// The database.
    pub database: &'a str,
    /// The book with the passwords. `None`: no session that needs one can be played.
    pub book: Option<&'a str>,
    /// The first entry that is played, as YYYYMMDD:NUMBER. `None` is the record's first.
    pub from: Option<&'a str>,
    /// The last entry that is played, as YYYYMMDD:NUMBER. `None` is the record's last.
    pub to: Option<&'a str>,
}

/// Reads the values of the options of `replay`.
pub(super) fn replay_read<'a>(matches: &ArgMatches<'a>) -> Replay<'a>
    requires { HasValues replay_app (values_in matches.now) }
    ensures { replay_said result ≡ replay_with (values_in matches.now) }
{
    Replay {
        folder: given(matches, "record"),
        database: given(matches, "db"),
        book: value_of(matches, "book"),
        from: value_of(matches, "from"),
        to: value_of(matches, "to"),
    }
}
