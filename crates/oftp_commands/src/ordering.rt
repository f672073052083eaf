//! The commands `stop` and `reload`, which the station that runs over the database carries out itself.

use oftp_asking::Beside;
use oftp_channel::{Haste, Request};
use oftp_command_line::Stop;
use oftp_outcomes::{Fault, Outcome};
use oftp_requests::{Backend, outcome_in, stopped_in};
use std::io;
use std::rt::Clock;
use std::time::Duration;

/// How often it is looked whether a station that was told to end is still there, at most.
const MOST_LOOKS: u32 = 600;

/// How long each wait between two looks is, in milliseconds.
const PAUSE: u64 = 100;

/// Has the station end that runs over a database, and waits until it isn't there any more.
///
/// # Errors
/// [`Fault::Socket`] if none runs; [`Fault::Run`] if it is gone before it has answered; [`Fault::MEMORY`].
pub fn stop(rt: &HostRuntime, line: &Stop<'_>) -> Result<Outcome, Fault> {
    let haste = if line.now {
        Haste::AtOnce
    } else {
        Haste::InTurn
    };
    let Some(mut station) = Beside::reached(rt, line.database) else {
        return Err(Fault::Socket);
    };
    let asked = station.ask(&Request::Stop(haste), &mut io::sink());
    let outcome = stopped_in(asked)?;
    for _ in 0..MOST_LOOKS {
        if Beside::reached(rt, line.database).is_none() {
            break;
        }
        rt.sleep(Duration::from_millis(PAUSE));
    }
    Ok(outcome)
}

/// Has the station that runs over a database read its book again.
///
/// # Errors
/// [`Fault::Book`] or [`Fault::File`] if the book has an error or can't be read, and the station goes on with the one that it has.
/// [`Fault::Socket`] if none runs; [`Fault::Run`] if it is gone; [`Fault::MEMORY`].
pub fn reload(rt: &HostRuntime, database: &str) -> Result<Outcome, Fault> {
    let Some(mut station) = Beside::reached(rt, database) else {
        return Err(Fault::Socket);
    };
    let asked = station.ask(&Request::Reload, &mut io::sink());
    outcome_in(asked)
}
