//! The traces that command lines ask for, and which files may be appended to.

use crate::access::make_private;
use crate::files::{file_fault, is_at, is_beside_database, is_of_database};
use crate::tracing::Trace;
use oftp_outcomes::Fault;
use std::fs::{self, File, Metadata, OpenOptions};
use std::io::ErrorKind;
use std::os::unix::fs::MetadataExt;

/// The bits of a mode that say what kind of file it is, and those of a pipe.
const KIND: u32 = 0o170000;

const PIPE: u32 = 0o010000;

/// Opens the trace at a path, if there is one. A file that the session needs may not be traced to: one of `needed`, one of the database, or one
/// that may appear beside that. A device may.
///
/// # Errors
/// [`Fault::File`] if it is such a file, or can't be created or written; [`Fault::MEMORY`].
pub fn open_trace<'a>(
    rt: &'a HostRuntime,
    path: Option<&str>,
    needed: &[&str],
    database: Option<&str>,
) -> Result<Option<Trace<'a>>, Fault> {
    let Some(path) = path else {
        return Ok(None);
    };
    refuse_needed(rt, path, needed, database)?;
    let trace = Trace::open(rt, path).map_err(|error| file_fault(&error))?;
    Ok(Some(trace))
}

/// Refuses to append to a file of the database, to one that may appear beside that, or to another one that is needed.
///
/// # Errors
/// [`Fault::File`] if it is such a file, or can't be looked at; [`Fault::MEMORY`].
pub(crate) fn refuse_needed(
    rt: &HostRuntime,
    path: &str,
    needed: &[&str],
    database: Option<&str>,
) -> Result<(), Fault> {
    if let Some(database) = database
        && is_beside_database(rt, path, database)?
    {
        return Err(Fault::File);
    }
    match fs::metadata(rt, path) {
        Ok(about) if about.is_file() && is_needed(rt, &about, needed, database)? => {
            Err(Fault::File)
        }
        Err(error) if error.kind() != ErrorKind::NotFound => Err(file_fault(&error)),
        _ => Ok(()),
    }
}

/// Opens a file to which lines are appended. One that doesn't exist is created so that only its owner may read it. A pipe isn't opened: it would
/// hold up whoever writes once nobody reads.
///
/// # Errors
/// [`Fault::File`] if it is a pipe, or can't be created or opened for writing; [`Fault::MEMORY`].
pub(crate) fn appended(rt: &HostRuntime, path: &str) -> Result<File, Fault> {
    match make_private(rt, path) {
        Err(error) if error.kind() == ErrorKind::AlreadyExists => {}
        made => return made.map_err(|error| file_fault(&error)),
    }
    let about = fs::metadata(rt, path).map_err(|error| file_fault(&error))?;
    if about.mode() & KIND == PIPE {
        return Err(Fault::File);
    }
    let opened = OpenOptions::new().append(true).open(rt, path);
    opened.map_err(|error| file_fault(&error))
}

/// Whether this file is one of `needed`, or one of the database.
fn is_needed(
    rt: &HostRuntime,
    about: &Metadata,
    needed: &[&str],
    database: Option<&str>,
) -> Result<bool, Fault> {
    for path in needed {
        if is_at(rt, about, path)? {
            return Ok(true);
        }
    }
    match database {
        Some(path) => is_of_database(rt, about, path),
        None => Ok(false),
    }
}
