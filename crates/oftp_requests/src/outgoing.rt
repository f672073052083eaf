//! The content of outgoing files.

use crate::ended::GONE;
use oftp_engine::RunFault;
use oftp_outcomes::Fault;
use oftp_register::{Office, OutgoingEntry, Side, is_file};
use oftp_vfile::{Rows, VFile};
use std::alloc::Global;
use std::io::Write;

/// The number of rows in memory at a time.
const WINDOW: u64 = 64;

/// Writes the local form of the outgoing file with a number, some rows at a time. Returns whether there is such a file.
///
/// # Errors
/// [`Fault::Run`] if the office failed, or `out` returned an error; [`Fault::MEMORY`]. A beginning of the file is written then.
pub fn write_outgoing<O: Office, W: Write>(
    alloc: Global,
    office: &mut O,
    no: u64,
    out: &mut W,
) -> Result<bool, Fault> {
    match office.out_by_no(no) {
        Ok(Some(entry)) => {
            write_rows(alloc, office, &entry, out)?;
            Ok(true)
        }
        Ok(None) => Ok(false),
        Err(_) => Err(GONE),
    }
}

/// Writes the rows of an outgoing file in its local form.
fn write_rows<O: Office, W: Write>(
    alloc: Global,
    office: &mut O,
    entry: &OutgoingEntry,
    out: &mut W,
) -> Result<(), Fault> {
    for window in 0..entry.rows.div_ceil(WINDOW) {
        let from = window.saturating_mul(WINDOW);
        let most = WINDOW.min(entry.rows.saturating_sub(from));
        let Ok(rows) = office.rows_of(Side::Outgoing, entry.no, from, most) else {
            return Err(GONE);
        };
        if rows.len() as u64 != most {
            return Err(GONE);
        }
        let piece = local_form(alloc, entry, rows)?;
        if out.write_all(piece.as_slice()).is_err() {
            return Err(Fault::Run(RunFault::Write));
        }
    }
    Ok(())
}

/// The local form of some rows of a file.
fn local_form(alloc: Global, entry: &OutgoingEntry, rows: Rows) -> Result<Vec<u8>, Fault> {
    if !is_file(entry.format, entry.longest, rows.as_slice()) {
        return Err(GONE);
    }
    let piece = VFile {
        format: entry.format,
        longest: entry.longest,
        rows,
    };
    piece.to_local(alloc).map_err(|_| Fault::MEMORY)
}
