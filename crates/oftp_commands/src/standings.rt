//! The commands `status`, `health` and `settled`, which tell how the station and its files stand.

use crate::backing::Backing;
use oftp_asking::Beside;
use oftp_channel::{Ending, Form, Request};
use oftp_command_line::{Health, Status};
use oftp_engine::RunFault;
use oftp_outcomes::{DONE, Fault, status_where};
use oftp_requests::{Backend, GONE};
use oftp_status::{Missing, grade_in};
use std::io::Write;

/// The seconds of an hour.
const HOUR: u64 = 3_600;

/// Writes how the station stands that runs over a database. Returns the exit status.
///
/// # Errors
/// [`Fault::Socket`] if none runs; [`Fault::Run`] if its office failed, it is gone or `out` returned an error; [`Fault::MEMORY`].
pub fn status<'a>(
    rt: &'a HostRuntime,
    line: &Status<'a>,
    out: &mut impl Write,
) -> Result<u8, Fault> {
    let Some(mut station) = Beside::reached(rt, line.database) else {
        return Err(Fault::Socket);
    };
    let form = if line.json { Form::Json } else { Form::Lines };
    ask_for(&mut station, &Request::Status(form), out)?;
    put(&[], out)?;
    Ok(DONE)
}

/// Writes the verdict on the station that runs over a database. Returns the exit status of a plugin of Nagios.
///
/// # Errors
/// [`Fault::Run`] if `out` returned an error.
pub fn health<'a>(
    rt: &'a HostRuntime,
    line: &Health<'a>,
    out: &mut impl Write,
) -> Result<u8, Fault> {
    let Some(mut station) = Beside::reached(rt, line.database) else {
        return tell_missing(Missing::Station, out);
    };
    let mut text = Vec::new(rt.alloc());
    let request = Request::Health {
        warn: line.warn.saturating_mul(HOUR),
        critical: line.critical.saturating_mul(HOUR),
    };
    match ask_for(&mut station, &request, &mut text) {
        Ok(()) => {
            put(text.as_slice(), out)?;
            Ok(grade_in(text.as_slice()).status())
        }
        Err(_) => tell_missing(Missing::Verdict, out),
    }
}

/// Writes why there is no verdict. Returns the exit status of a plugin.
fn tell_missing(missing: Missing, out: &mut impl Write) -> Result<u8, Fault> {
    put(missing.line().as_bytes(), out)?;
    Ok(missing.grade().status())
}

/// Writes the files of a database that are still open. Returns the exit status: done if there are none.
///
/// # Errors
/// Those of the backend; [`Fault::Run`] if `out` returned an error.
pub fn settled<'a>(
    rt: &'a HostRuntime,
    database: &'a str,
    out: &mut impl Write,
) -> Result<u8, Fault> {
    let mut backing = Backing::opened(rt, database, None, None)?;
    let mut text = Vec::new(rt.alloc());
    ask_for(&mut backing, &Request::Settled, &mut text)?;
    put(text.as_slice(), out)?;
    Ok(status_where(text.is_empty()))
}

/// Has what a request asks for written.
fn ask_for(
    backend: &mut impl Backend,
    request: &Request<'_>,
    out: &mut impl Write,
) -> Result<(), Fault> {
    match backend.ask(request, out)? {
        Ending::Listed => Ok(()),
        _ => Err(GONE),
    }
}

/// Writes octets, and what was written before.
pub(crate) fn put(octets: &[u8], out: &mut impl Write) -> Result<(), Fault> {
    if out.write_all(octets).is_err() || out.flush().is_err() {
        return Err(Fault::Run(RunFault::Write));
    }
    Ok(())
}
