//! The commands `run`, `listen`, `call` and `http`, which are services over sockets, and `stop`, which ends one.

ghost use Rattle.std.specs.Prelude.{◌≡◌, IfErr, IfOk, None, Some, codes, true};
ghost use Rattle.oftp_command_line.specs.Arguments.{HasValues, values_in};
ghost use Rattle.oftp_command_line.specs.Fault.{is_bad};
ghost use Rattle.oftp_command_line.specs.ServiceLines.{call_app, call_said, call_with, http_app, http_said, http_with, listen_app, listen_said, listen_with, run_app, run_in, run_said, stop_app, stop_said, stop_with};

use super::files::{Files, files_read};
use super::recording::{RECORD_SYNCS, RecordSync};
use super::terms::{Entrance, SessionTerms, entrance_read, terms_read};
use crate::line::LineFault;
use crate::line::values::{choice, given, has_flag, number, port, value_of};
use clap::ArgMatches;
use std::alloc::Global;

/// The command `run`, which serves partners and commands until it is stopped.
#[derive(Debug, Clone, Copy, PartialEq, Eq)]
pub struct Run<'a> {
    /// The database and the book.
    pub files: Files<'a>,
    /// The address and port to listen on, and the time for an admission.
    pub entrance: Entrance<'a>,
    /// The HTTP port, 0 to 65,535; 0 is none.
    pub http_port: u16,
    /// Another host name that HTTP requests may use, if there is one.
    pub host: Option<&'a str>,
    /// The interval in seconds between the calls of a partner that something waits for, 0 to 86,400; 0 is never.
    pub interval: u64,
    /// The limits and the trace of its sessions.
    pub terms: SessionTerms<'a>,
    /// After how many jobs it ends, 0 to 1,000,000; 0 is never.
    pub jobs: u64,
    /// Whether the record is synced.
    pub sync: RecordSync,
}

/// Reads the values of the options of `run`.
#[tactic(auto, using(crate::proofs::Values::has_text), unfolding(crate::specs::ServiceLines::run_app))]
pub(super) fn run_read<'a>(alloc: Global, matches: &ArgMatches<'a>) -> Result<Run<'a>, LineFault>
    requires { HasValues run_app (values_in matches.now) }
    ensures ok { IfOk result (λ r. run_in (values_in matches.now) ≡ Some (run_said r)) }
    ensures bad { IfErr result (λ e. is_bad e ≡ true → run_in (values_in matches.now) ≡ None) }
{
    let sync = choice(
        alloc,
        matches,
        "record-sync",
        "--record-sync <SYNC>",
        RECORD_SYNCS,
    )?;
    Ok(Run {
        files: files_read(matches),
        entrance: entrance_read(matches),
        http_port: port(matches, "http-port"),
        host: value_of(matches, "host"),
        interval: number(matches, "call-every"),
        terms: terms_read(matches),
        jobs: number(matches, "jobs"),
        sync,
    })
}

/// The command `stop`, which has the station that runs over the database end.
#[derive(Debug, Clone, Copy, PartialEq, Eq)]
pub struct Stop<'a> {
    /// The database's file.
    pub database: &'a str,
    /// Whether the session that goes on is cut off.
    pub now: bool,
}

/// Reads the values of the options of `stop`.
#[tactic(auto, using(crate::proofs::Values::has_text), unfolding(crate::specs::ServiceLines::stop_app))]
pub(super) fn stop_read<'a>(matches: &ArgMatches<'a>) -> Stop<'a>
    requires { HasValues stop_app (values_in matches.now) }
    ensures { stop_said result ≡ stop_with (values_in matches.now) }
{
    Stop {
        database: given(matches, "db"),
        now: has_flag(matches, "now"),
    }
}

/// The command `listen`, which serves sessions of partners that call.
#[derive(Debug, Clone, Copy, PartialEq, Eq)]
pub struct Listen<'a> {
    /// The database and the book.
    pub files: Files<'a>,
    /// The address and port to listen on, and the time for an admission.
    pub entrance: Entrance<'a>,
    /// How many sessions are served, 1 to 1,000,000.
    pub sessions: u64,
    /// The limits and the trace of its sessions.
    pub terms: SessionTerms<'a>,
}

/// Reads the values of the options of `listen`.
#[tactic(auto, using(crate::proofs::Values::has_text), unfolding(crate::specs::ServiceLines::listen_app))]
pub(super) fn listen_read<'a>(matches: &ArgMatches<'a>) -> Listen<'a>
    requires { HasValues listen_app (values_in matches.now) }
    ensures { listen_said result ≡ listen_with (values_in matches.now) }
{
    Listen {
        files: files_read(matches),
        entrance: entrance_read(matches),
        sessions: number(matches, "sessions"),
        terms: terms_read(matches),
    }
}

/// The command `call`, which calls a partner for one session.
#[derive(Debug, Clone, Copy, PartialEq, Eq)]
pub struct Call<'a> {
    /// The database and the book.
    pub files: Files<'a>,
    /// The code of the partner that is called.
    pub partner: &'a str,
    /// Whether a session that ends otherwise than by 00 is a failure.
    pub fails: bool,
    /// The limits and the trace of its session.
    pub terms: SessionTerms<'a>,
}

/// Reads the values of the options of `call`.
#[tactic(auto, using(crate::proofs::Values::has_text), unfolding(crate::specs::ServiceLines::call_app))]
pub(super) fn call_read<'a>(matches: &ArgMatches<'a>) -> Call<'a>
    requires { HasValues call_app (values_in matches.now) }
    ensures { call_said result ≡ call_with (values_in matches.now) }
{
    Call {
        files: files_read(matches),
        partner: given(matches, "partner"),
        fails: has_flag(matches, "fail"),
        terms: terms_read(matches),
    }
}

/// The command `http`, which answers HTTP requests about the database.
#[derive(Debug, Clone, Copy, PartialEq, Eq)]
pub struct Http<'a> {
    /// The database's file.
    pub database: &'a str,
    /// The port to listen on, 1 to 65,535.
    pub port: u16,
    /// The machine's address to listen on.
    pub address: &'a str,
    /// How many requests are answered, 1 to 1,000,000.
    pub requests: u64,
}

/// Reads the values of the options of `http`.
#[tactic(auto, using(crate::proofs::Values::has_text), unfolding(crate::specs::ServiceLines::http_app))]
pub(super) fn http_read<'a>(matches: &ArgMatches<'a>) -> Http<'a>
    requires { HasValues http_app (values_in matches.now) }
    ensures { http_said result ≡ http_with (values_in matches.now) }
{
    Http {
        database: given(matches, "db"),
        port: port(matches, "port"),
        address: given(matches, "address"),
        requests: number(matches, "requests"),
    }
}
