//! The files of a register that are still open.

use crate::ended::GONE;
use crate::standings::{standing_in, standing_out};
use oftp_channel::Ending;
use oftp_engine::{Port, RunFault};
use oftp_listing::{digit_text, name_text};
use oftp_outcomes::Fault;
use oftp_register::{Identity, Office};
use oftp_status::{Held, Standing, Way, add_open};
use std::alloc::{AllocError, Global};
use std::io::Write;

/// Writes a line for each file that is still open: those that come, and then those that go, in order of their numbers.
///
/// # Errors
/// [`Fault::Run`] if the office failed or `out` returned an error; [`Fault::MEMORY`].
pub(crate) fn list_open<O: Office, W: Write>(
    alloc: Global,
    office: &mut O,
    out: &mut Port<W>,
) -> Result<Ending, Fault> {
    let mut text = Vec::new(alloc);
    add_incoming(alloc, office, &mut text)?;
    add_outgoing(alloc, office, &mut text)?;
    if out.send(text.as_slice()) {
        Ok(Ending::Listed)
    } else {
        Err(Fault::Run(RunFault::Write))
    }
}

/// Appends the lines of the files that come.
fn add_incoming<O: Office>(alloc: Global, office: &mut O, text: &mut Vec<u8>) -> Result<(), Fault> {
    let Ok(entries) = office.list_in() else {
        return Err(GONE);
    };
    for entry in &entries {
        add_line(alloc, entry.no, &entry.identity, standing_in(entry), text)?;
    }
    Ok(())
}

/// Appends the lines of the files that go.
fn add_outgoing<O: Office>(alloc: Global, office: &mut O, text: &mut Vec<u8>) -> Result<(), Fault> {
    let Ok(entries) = office.list_out() else {
        return Err(GONE);
    };
    for entry in &entries {
        let standing = standing_out(entry.state);
        add_line(alloc, entry.no, &entry.identity, standing, text)?;
    }
    Ok(())
}

/// Appends the line of a file, if it is open.
fn add_line(
    alloc: Global,
    no: u64,
    identity: &Identity,
    standing: Standing,
    text: &mut Vec<u8>,
) -> Result<(), AllocError> {
    let partner = match standing.way() {
        Way::In => &identity.originator,
        Way::Out => &identity.destination,
    };
    let held = Held {
        no,
        dataset: name_text(&identity.dataset),
        date: digit_text(&identity.date),
        time: digit_text(&identity.time),
        partner: name_text(partner),
        standing,
    };
    add_open(alloc, &held, text)
}
