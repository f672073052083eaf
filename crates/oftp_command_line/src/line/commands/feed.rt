//! The command `feed`.
#![tactic(auto, using(crate::proofs::Values::has_text), unfolding(crate::specs::FeedLine::feed_app))]

ghost use Rattle.std.specs.Prelude.{◌≡◌, IfErr, IfOk, None, Some, codes, option_map, true};
ghost use Rattle.oftp_command_line.specs.Arguments.{HasValues, values_in};
ghost use Rattle.oftp_command_line.specs.Fault.{is_bad};
ghost use Rattle.oftp_command_line.specs.FeedLine.{feed_app, feed_in, feed_said, may_record};

use crate::line::LineFault;
use crate::line::values::{choice, given, value_of};
use clap::ArgMatches;
use std::alloc::Global;

/// What a line says that wants a record of a register in memory.
const NOTHING_KEPT: &str =
    "error: --record <FOLDER> needs --db <DATABASE>\n\nFor more information, try '--help'.\n";

/// The command `feed`, which runs one session from file to file.
#[derive(Clone, Copy)]
pub struct Feed<'a> {
    /// The database's file. `None` is a register in memory.
    pub database: Option<&'a str>,
    /// The book's file.
    pub book: &'a str,
    /// The side of the session that the station has.
    pub role: FeedRole,
    /// The code of the partner that an initiator calls. A responder may have none.
    pub partner: Option<&'a str>,
    /// The file to which the commands of the session are appended as text, if there is one.
    pub trace: Option<&'a str>,
    /// The folder of the record, if there is one. Then there is a database, too.
    pub record: Option<&'a str>,
    /// The file with what the partner sends.
    pub input: &'a str,
    /// The file to which the station's output is written.
    pub output: &'a str,
}

/// A side of a session (RFC 5024, section 4.2.1).
#[derive(Clone, Copy)]
pub enum FeedRole {
    /// The side that accepted the connection.
    Responder,
    /// The side that made the connection.
    Initiator,
}

/// The sides, by their names for `feed`.
const FEED_ROLES: &[(&str, FeedRole)] = &[
    ("responder", FeedRole::Responder),
    ("initiator", FeedRole::Initiator),
];

// Whether a record may be kept, if one is named: not of a register in memory, of which nothing is left.
fn may_record(database: Option<&str>, folder: Option<&str>) -> bool
    ensures { result ≡ may_record (option_map (λ s. s.now) database.entry) (option_map (λ s. s.now) folder.entry) }
{
    match (database, folder) {
        (None, Some(_)) => false,
        (Some(_), _) | (None, None) => true,
    }
}

/// Reads the values of the options and words of `feed`.
pub(super) fn feed_read<'a>(alloc: Global, matches: &ArgMatches<'a>) -> Result<Feed<'a>, LineFault>
    requires { HasValues feed_app (values_in matches.now) }
    ensures ok { IfOk result (λ f. feed_in (values_in matches.now) ≡ Some (feed_said f)) }
    ensures bad { IfErr result (λ e. is_bad e ≡ true → feed_in (values_in matches.now) ≡ None) }
{
    let role = choice(alloc, matches, "role", "--role <ROLE>", FEED_ROLES)?;
    let database = value_of(matches, "db");
    let record = value_of(matches, "record");
    if !may_record(database, record) {
        return Err(LineFault::Bad(String::from_str(alloc, NOTHING_KEPT)?));
    }
    Ok(Feed {
        database,
        book: given(matches, "book"),
        role,
        partner: value_of(matches, "partner"),
        trace: value_of(matches, "trace"),
        record,
        input: given(matches, "in"),
        output: given(matches, "out"),
    })
}
