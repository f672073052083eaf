//! Lists of files, for the commands over a folder.

ghost use Rattle.std.specs.Prelude.{◌≡◌};
ghost use Rattle.oftp_requests.specs.Listed.{is_unanswered};

use crate::ended::GONE;
use oftp_channel::{Ending, ListedFile, write_entry};
use oftp_engine::{Port, RunFault};
use oftp_listing::{digit_text, name_text};
use oftp_outcomes::Fault;
use oftp_register::{Identity, IncomingEntry, IncomingState, Office};
use std::io::Write;

/// Whether an incoming file is whole and has no response.
fn is_unanswered(entry: &IncomingEntry) -> bool
    ensures { result ≡ is_unanswered entry.now }
{
    match (entry.state, &entry.response) {
        (IncomingState::Whole, None) => true,
        _ => false,
    }
}

/// Writes the incoming files that are whole and have no response, in order of their numbers.
///
/// # Errors
/// [`Fault::Run`] if the office failed or `out` returned an error.
pub(crate) fn list_unanswered<O: Office, W: Write>(
    office: &mut O,
    out: &mut Port<W>,
) -> Result<Ending, Fault> {
    let Ok(entries) = office.list_in() else {
        return Err(GONE);
    };
    for entry in &entries {
        if is_unanswered(entry) {
            let identity = &entry.identity;
            write_file(entry.no, identity, name_text(&identity.originator), out)?;
        }
    }
    Ok(Ending::Listed)
}

/// Writes the outgoing files to the partner with a code, in order of their numbers.
///
/// # Errors
/// [`Fault::Run`] if the office failed or `out` returned an error.
pub(crate) fn list_outgoing<O: Office, W: Write>(
    office: &mut O,
    to: &str,
    out: &mut Port<W>,
) -> Result<Ending, Fault> {
    let Ok(entries) = office.list_out() else {
        return Err(GONE);
    };
    for entry in &entries {
        let code = name_text(&entry.identity.destination);
        if code == to {
            write_file(entry.no, &entry.identity, code, out)?;
        }
    }
    Ok(Ending::Listed)
}

/// Writes a file of a list.
fn write_file<W: Write>(
    no: u64,
    identity: &Identity,
    code: &str,
    out: &mut Port<W>,
) -> Result<(), Fault> {
    let file = ListedFile {
        no,
        dataset: name_text(&identity.dataset),
        date: digit_text(&identity.date),
        time: digit_text(&identity.time),
        code,
    };
    if write_entry(out, &file) {
        Ok(())
    } else {
        Err(Fault::Run(RunFault::Write))
    }
}
