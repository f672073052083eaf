//! The register of an office as text: the files with their rows, and the responses. Each file and each received response is a line.

use oftp_register::{
    Identity, IncomingEntry, IssuedResponse, Note, Office, OfficeFault, OutgoingEntry,
    ReceivedEntry, Side,
};
use oftp_vfile::Format;
use std::alloc::{AllocError, Global};

// More rows than a file has.
const ALL: u64 = 1 << 40;

fn add_octets(all: &mut String, octets: &[u8]) -> Result<(), AllocError> {
    for octet in octets {
        all.push(char::from(*octet))?;
    }
    Ok(())
}

fn add_identity(all: &mut String, identity: &Identity) -> Result<(), AllocError> {
    for octets in [
        identity.dataset.octets(),
        identity.date.octets(),
        identity.time.octets(),
        identity.originator.octets(),
        identity.destination.octets(),
    ] {
        all.push(' ')?;
        add_octets(all, octets)?;
    }
    Ok(())
}

// Adds the header of a file of either direction.
fn add_header(
    all: &mut String,
    identity: &Identity,
    format: Format,
    longest: u32,
    description: &Note,
) -> Result<(), AllocError> {
    add_identity(all, identity)?;
    let about = description.as_str();
    write!(all, " {format:?} {longest} {about}")
}

fn add_response(all: &mut String, response: &IssuedResponse) -> Result<(), AllocError> {
    let (kind, reason) = (response.kind, response.reason.get());
    let (note, dispatch) = (response.text.as_str(), response.dispatch);
    write!(all, " {kind:?} {reason} {note} {dispatch:?}")
}

// Adds the rows of a file, each after a bar, and the end of its line.
fn add_rows<O: Office>(
    all: &mut String,
    office: &mut O,
    side: Side,
    no: u64,
) -> Result<(), OfficeFault> {
    let rows = office.rows_of(side, no, 0, ALL)?;
    for row in rows.as_slice() {
        all.push('|')?;
        add_octets(all, row.octets())?;
    }
    Ok(all.push('\n')?)
}

fn add_incoming(all: &mut String, entry: &IncomingEntry) -> Result<(), AllocError> {
    let (no, state, rows) = (entry.no, entry.state, entry.rows);
    write!(all, "in {no} {state:?} {rows}")?;
    add_header(
        all,
        &entry.identity,
        entry.format,
        entry.longest,
        &entry.description,
    )?;
    match &entry.response {
        Some(response) => add_response(all, response),
        None => Ok(()),
    }
}

fn add_outgoing(all: &mut String, entry: &OutgoingEntry) -> Result<(), AllocError> {
    let (no, state, mark, rows) = (entry.no, entry.state, entry.mark, entry.rows);
    write!(all, "out {no} {state:?} {mark} of {rows}")?;
    add_header(
        all,
        &entry.identity,
        entry.format,
        entry.longest,
        &entry.description,
    )
}

fn add_received(all: &mut String, entry: &ReceivedEntry) -> Result<(), AllocError> {
    let response = &entry.response;
    let (no, kind, reason) = (entry.no, response.kind, response.reason.get());
    write!(all, "received {no} {kind:?} {reason}")?;
    add_identity(all, &response.identity)?;
    all.push(' ')?;
    add_octets(all, response.creator.octets())?;
    let note = response.text.as_str();
    writeln!(all, " {note}")
}

fn add_all_in<O: Office>(all: &mut String, office: &mut O) -> Result<(), OfficeFault> {
    for entry in &office.list_in()? {
        add_incoming(all, entry)?;
        add_rows(all, office, Side::Incoming, entry.no)?;
    }
    Ok(())
}

fn add_all_out<O: Office>(all: &mut String, office: &mut O) -> Result<(), OfficeFault> {
    for entry in &office.list_out()? {
        add_outgoing(all, entry)?;
        add_rows(all, office, Side::Outgoing, entry.no)?;
    }
    Ok(())
}

/// The register as text: the incoming files, the outgoing files, and the received responses.
///
/// # Errors
/// [`OfficeFault`]: a look-up failed, or memory ran out. The office is as it was.
pub fn snapshot<O: Office>(alloc: Global, office: &mut O) -> Result<String, OfficeFault> {
    let mut all = String::new(alloc);
    add_all_in(&mut all, office)?;
    add_all_out(&mut all, office)?;
    for entry in &office.list_received()? {
        add_received(&mut all, entry)?;
    }
    Ok(all)
}
