//! The commands `init`, `migrate`, `report` and `fetch`, which only need a database.

use crate::backing::Backing;
use crate::reporting::{Asked, Form, Rows, asked_by};
use oftp_asking as asking;
use oftp_channel::{Ending, Request};
use oftp_command_line::{Fetch, Report};
use oftp_database::{self as database, PATIENCE};
use oftp_engine::{Refusal, RunFault};
use oftp_listing::ReportKind;
use oftp_outcomes::{DONE, Fault, Outcome, tell};
use oftp_requests::{Backend, GONE, outcome_in};
use std::io::{self, Write};

/// Opens a database and creates its tables, unless it has them.
///
/// # Errors
/// [`Fault::Store`] if it can't be opened; [`Fault::Run`] if the station is gone; [`Fault::MEMORY`].
pub fn initiate<'a>(rt: &'a HostRuntime, database: &'a str) -> Result<Outcome, Fault> {
    let mut backing = Backing::opened(rt, database, None, None)?;
    let asked = backing.ask(&Request::Init, &mut io::sink());
    outcome_in(asked)
}

/// Migrates a database of schema 1 to schema 2.
///
/// # Errors
/// Those of [`database::migrate`].
pub fn migrate(rt: &HostRuntime, database: &str) -> Result<Outcome, Fault> {
    database::migrate(rt, database, PATIENCE)?;
    Ok(Outcome::Migrated)
}

/// Writes a report of a database. Returns the exit status. It is refused if it is to have rows with something that it doesn't tell.
///
/// # Errors
/// [`Fault::Store`] if it can't be opened; [`Fault::Run`] if the office failed, the station is gone or `out` returned an error;
/// [`Fault::MEMORY`]. A beginning is written then.
pub fn write_report<'a>(
    rt: &'a HostRuntime,
    what: &Report<'a>,
    out: &mut impl Write,
) -> Result<u8, Fault> {
    let Asked::Rows(conditions) = asked_by(rt.alloc(), what)? else {
        return tell(Outcome::Refused(Refusal::Field), out);
    };
    let form = if what.json { Form::Json } else { Form::Values };
    let mut backing = Backing::opened(rt, what.database, None, None)?;
    if conditions.is_empty() && form == Form::Values {
        ask_for(&mut backing, what.kind, out)?;
    } else {
        let mut rows = Rows::new(rt.alloc(), out, conditions.as_slice(), form);
        let asked = ask_for(&mut backing, what.kind, &mut rows);
        asked.map_err(|fault| rows.fault_of(fault))?;
        rows.finish().map_err(|_| UNWRITTEN)?;
    }
    match out.flush() {
        Ok(()) => Ok(DONE),
        Err(_) => Err(UNWRITTEN),
    }
}

/// The error of a failed write.
const UNWRITTEN: Fault = Fault::Run(RunFault::Write);

/// Has a whole report of this kind written.
fn ask_for(
    backing: &mut Backing<'_, '_, '_>,
    kind: ReportKind,
    out: &mut impl Write,
) -> Result<(), Fault> {
    match backing.ask(&Request::Report(kind), out)? {
        Ending::Listed => Ok(()),
        _ => Err(GONE),
    }
}

/// Writes a whole incoming file of a database to a file, as [`asking::fetch`] does.
///
/// # Errors
/// [`Fault::Store`] if the database can't be opened; [`Fault::Run`] if the office failed or the station is gone; [`Fault::File`] if the file
/// can't be written; [`Fault::MEMORY`]. The file is as it was then.
pub fn fetch<'a>(rt: &'a HostRuntime, line: &'a Fetch<'a>) -> Result<Outcome, Fault> {
    let backing = Backing::opened(rt, line.database, None, None)?;
    asking::fetch(rt, line, backing)
}
