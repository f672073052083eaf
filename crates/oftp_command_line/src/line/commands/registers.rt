//! The commands `fetch`, `report` and `backup`, which read the database.
#![tactic(auto, using(crate::proofs::Values::has_text), unfolding(crate::specs::RegisterLines::fetch_app, crate::specs::RegisterLines::report_app, crate::specs::RegisterLines::backup_app))]

ghost use Rattle.std.specs.Prelude.{◌≡◌, IfErr, IfOk, None, Some, codes, true};
ghost use Rattle.oftp_command_line.specs.Arguments.{HasValues, values_in};
ghost use Rattle.oftp_command_line.specs.Fault.{is_bad};
ghost use Rattle.oftp_command_line.specs.RegisterLines.{backup_app, backup_said, backup_with, fetch_app, fetch_said, fetch_with, report_app, report_in, report_said};

use crate::line::LineFault;
use crate::line::values::{choice, given, has_flag, number, value_of};
use clap::ArgMatches;
use oftp_listing::ReportKind;
use std::alloc::Global;

/// The command `fetch`, which writes an incoming file to a file.
#[derive(Clone, Copy)]
pub struct Fetch<'a> {
    /// The database's file.
    pub database: &'a str,
    /// The incoming file's number, 1 to 9,999,999.
    pub no: u64,
    /// The file to which its local form is written.
    pub file: &'a str,
}

/// Reads the values of the options and words of `fetch`.
pub(super) fn fetch_read<'a>(matches: &ArgMatches<'a>) -> Fetch<'a>
    requires { HasValues fetch_app (values_in matches.now) }
    ensures { fetch_said result ≡ fetch_with (values_in matches.now) }
{
    Fetch {
        database: given(matches, "db"),
        no: number(matches, "no"),
        file: given(matches, "file"),
    }
}

/// The kinds of report, by their names for `report`.
const KINDS: &[(&str, ReportKind)] = &[
    ("in", ReportKind::Incoming),
    ("out", ReportKind::Outgoing),
    ("issued", ReportKind::Issued),
    ("received", ReportKind::Received),
];

/// The command `report`, which prints a report of the database.
#[derive(Clone, Copy)]
pub struct Report<'a> {
    /// The database's file.
    pub database: &'a str,
    /// The kind of report.
    pub kind: ReportKind,
    /// The state of what alone is told, if there is one.
    pub state: Option<&'a str>,
    /// The code of the partner of what alone is told, if there is one.
    pub partner: Option<&'a str>,
    /// The first date of what alone is told, if there is one.
    pub since: Option<&'a str>,
    /// Whether it is told as JSON.
    pub json: bool,
}

/// Reads the values of the options and words of `report`.
pub(super) fn report_read<'a>(
    alloc: Global,
    matches: &ArgMatches<'a>,
) -> Result<Report<'a>, LineFault>
    requires { HasValues report_app (values_in matches.now) }
    ensures ok { IfOk result (λ r. report_in (values_in matches.now) ≡ Some (report_said r)) }
    ensures bad { IfErr result (λ e. is_bad e ≡ true → report_in (values_in matches.now) ≡ None) }
{
    Ok(Report {
        database: given(matches, "db"),
        kind: choice(alloc, matches, "kind", "<KIND>", KINDS)?,
        state: value_of(matches, "state"),
        partner: value_of(matches, "partner"),
        since: value_of(matches, "since"),
        json: has_flag(matches, "json"),
    })
}

/// The command `backup`, which copies the database to a file.
#[derive(Clone, Copy)]
pub struct Backup<'a> {
    /// The database's file.
    pub database: &'a str,
    /// The file to which its event is appended, if there is one.
    pub events: Option<&'a str>,
    /// The folder of its record, if there is one.
    pub record: Option<&'a str>,
    /// The file to which the copy is written.
    pub to: &'a str,
}

/// Reads the values of the options and words of `backup`.
pub(super) fn backup_read<'a>(matches: &ArgMatches<'a>) -> Backup<'a>
    requires { HasValues backup_app (values_in matches.now) }
    ensures { backup_said result ≡ backup_with (values_in matches.now) }
{
    Backup {
        database: given(matches, "db"),
        events: value_of(matches, "events"),
        record: value_of(matches, "record"),
        to: given(matches, "to"),
    }
}
