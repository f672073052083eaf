//! The files that most commands name.
ghost use Rattle.std.specs.Prelude.{◌≡◌, IsSome, codes};
ghost use Rattle.clap.specs.Words.{first_of};
ghost use Rattle.oftp_command_line.specs.Arguments.{values_in};
ghost use Rattle.oftp_command_line.specs.Files.{files_said, files_with};

use crate::line::values::{given, value_of};
use clap::ArgMatches;

/// The files of a command that names a database and a book.
#[derive(Debug, Clone, Copy, PartialEq, Eq)]
pub struct Files<'a> {
    /// The database's file.
    pub database: &'a str,
    /// The book's file.
    pub book: &'a str,
    /// The file to which its events are appended, if there is one.
    pub events: Option<&'a str>,
    /// The folder of its record, if there is one.
    pub record: Option<&'a str>,
}

/// Reads the files from the values of the options.
pub(super) fn files_read<'a>(matches: &ArgMatches<'a>) -> Files<'a>
    requires database { IsSome (first_of (codes "db") (values_in matches.now)) }
    requires book { IsSome (first_of (codes "book") (values_in matches.now)) }
    ensures { files_said result ≡ files_with (values_in matches.now) }
{
    Files {
        database: given(matches, "db"),
        book: given(matches, "book"),
        events: value_of(matches, "events"),
        record: value_of(matches, "record"),
    }
}
