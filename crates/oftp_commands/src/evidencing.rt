//! The command `evidence`, which writes a folder of what proves a file's delivery.

use oftp_command_line::Evidence;
use oftp_database::{self as database, PATIENCE};
use oftp_outcomes::Fault;
use oftp_replay::write_evidence;
use std::io::Write;

/// Writes a folder of what proves a file's delivery, by a database and a record. Returns the exit status.
///
/// # Errors
/// [`Fault::Store`] or [`Fault::File`] if the database or the record can't be read, or the folder can't be written. [`Fault::Run`] if the office
/// failed, or `out` returned an error; [`Fault::MEMORY`].
pub fn evidence(rt: &HostRuntime, line: &Evidence<'_>, out: &mut impl Write) -> Result<u8, Fault> {
    let mut life = database::live(rt, line.database, PATIENCE, None)?;
    write_evidence(rt, line, &mut life, out)
}
