//! The files that a command line names.

use crate::drafts::folder_of;
use oftp_outcomes::Fault;
use std::fs::{self, File, Metadata, OpenFile, OpenOptions};
use std::io::{self, ErrorKind};
use std::os::unix::fs::MetadataExt;
use std::path::PathBuf;
use std::rt::Files;

/// The endings of the files beside a database: its log, those that sqlite3 makes, and the socket of its station.
const BESIDE: [&str; 4] = ["-wal", "-shm", "-journal", SOCKET];

/// The ending of the name of the socket of a database's station.
const SOCKET: &str = "-station";

/// Up to how many octets of a database's name the address of a socket has room for.
const LONGEST_NAME: usize = 80;

/// The beginning of the socket's name where the database's is longer. The number of the database's file follows.
const INSTEAD: &str = ".oftp_station_of_";

/// The error for a failed file operation: [`Fault::MEMORY`] if memory ran out, which isn't an error of the file, or [`Fault::File`].
pub fn file_fault(error: &io::Error) -> Fault {
    if error.kind() == ErrorKind::OutOfMemory {
        Fault::MEMORY
    } else {
        Fault::File
    }
}

/// Opens a file for reading, which isn't a folder.
///
/// # Errors
/// [`Fault::File`] if it can't be opened, or is a folder; [`Fault::MEMORY`].
pub fn open_input<R: Files>(rt: &R, path: &str) -> Result<R::File, Fault> {
    let file = fs::open(rt, path).map_err(|error| file_fault(&error))?;
    let about = file.metadata().map_err(|error| file_fault(&error))?;
    if about.is_dir() {
        return Err(Fault::File);
    }
    Ok(file)
}

/// Opens a regular file for reading. No link is followed: what is open is compared with what was looked at before. Returns `None` if something
/// else is at the path.
///
/// # Errors
/// [`Fault::File`] if nothing is there, or it can't be opened; [`Fault::MEMORY`].
pub fn open_regular(rt: &HostRuntime, path: &str) -> Result<Option<File>, Fault> {
    let named = fs::symlink_metadata(rt, path).map_err(|error| file_fault(&error))?;
    if !named.is_file() {
        return Ok(None);
    }
    let file = open_at_once(rt, path).map_err(|error| file_fault(&error))?;
    let about = file.metadata().map_err(|error| file_fault(&error))?;
    // A pipe may have got the number of a file that is gone.
    Ok(if about.is_file() && are_of_one_file(&about, &named) {
        Some(file)
    } else {
        None
    })
}

/// Opens a file that was looked at for reading, and for writing too if that is allowed. A pipe that somebody has put there since the look,
/// opened so, doesn't wait for its other end. Links are followed, so the caller compares what is open with what was looked at.
///
/// # Errors
/// The file can't be opened.
pub fn open_at_once(rt: &HostRuntime, path: &str) -> io::Result<File> {
    match OpenOptions::new().read(true).write(true).open(rt, path) {
        Err(error) if is_not_written(&error) => fs::open(rt, path),
        opened => opened,
    }
}

/// Whether an error says that a file may not be written.
fn is_not_written(error: &io::Error) -> bool {
    matches!(
        error.kind(),
        ErrorKind::PermissionDenied | ErrorKind::ReadOnlyFilesystem | ErrorKind::ExecutableFileBusy
    )
}

/// Whether a file belongs to the user as whom the program runs.
pub fn is_ours(about: &Metadata) -> bool {
    about.uid() == own_user()
}

/// Whether two files are the same, whatever their names are.
pub fn are_of_one_file(one: &Metadata, other: &Metadata) -> bool {
    one.dev() == other.dev() && one.ino() == other.ino()
}

/// Whether a path leads to this file. If nothing is there, it doesn't.
///
/// # Errors
/// [`Fault::File`] if the path can't be examined; [`Fault::MEMORY`].
pub fn is_at<R: Files>(rt: &R, about: &Metadata, path: &str) -> Result<bool, Fault> {
    match fs::metadata(rt, path) {
        Ok(other) => Ok(are_of_one_file(about, &other)),
        Err(error) if error.kind() == ErrorKind::NotFound => Ok(false),
        Err(error) => Err(file_fault(&error)),
    }
}

/// Whether this file is the database, or the log beside it.
///
/// # Errors
/// [`Fault::File`] if the database doesn't exist, or a path can't be examined; [`Fault::MEMORY`].
pub fn is_of_database<R: Files + AllocGlobal>(
    rt: &R,
    about: &Metadata,
    database: &str,
) -> Result<bool, Fault> {
    let real = fs::canonicalize(rt, database).map_err(|error| file_fault(&error))?;
    let log = format!(in rt.alloc(); "{}-wal", real.as_str())?;
    Ok(is_at(rt, about, real.as_str())? || is_at(rt, about, log.as_str())?)
}

/// Whether a path has the name of a file beside a database, even if that file doesn't exist yet.
///
/// # Errors
/// [`Fault::File`] if the database or the path's folder doesn't exist, or can't be examined; [`Fault::MEMORY`].
pub fn is_beside_database(rt: &HostRuntime, path: &str, database: &str) -> Result<bool, Fault> {
    let path = PathBuf::from_str(rt.alloc(), path)?;
    let path = path.as_path();
    let real = fs::canonicalize(rt, database).map_err(|error| file_fault(&error))?;
    let folder = fs::canonicalize(rt, folder_of(path)).map_err(|error| file_fault(&error))?;
    let real = real.as_path();
    if folder.as_str() != folder_of(real) {
        return Ok(false);
    }
    let (Some(name), Some(own)) = (path.file_name(), real.file_name()) else {
        return Ok(false);
    };
    let socket = socket_name(rt, real.as_str(), own).map_err(|error| file_fault(&error))?;
    Ok(is_behind(name, own) || socket.as_str() == name)
}

/// The number of the user for whom this process acts.
pub fn own_user() -> u32 {
    libc::geteuid()
}

/// The name of the socket beside a database with this path and name, neither of which is a link's.
///
/// # Errors
/// The file can't be examined; out of memory.
pub fn socket_name(rt: &HostRuntime, path: &str, name: &str) -> io::Result<String> {
    if name.len() <= LONGEST_NAME {
        return Ok(format!(in rt.alloc(); "{name}{}", SOCKET)?);
    }
    let number = fs::metadata(rt, path)?.ino();
    Ok(format!(in rt.alloc(); "{}{number}", INSTEAD)?)
}

/// Whether a name is the database's name with the ending of a file beside it.
fn is_behind(name: &str, own: &str) -> bool {
    match name.strip_prefix(own) {
        Some(ending) => BESIDE.contains(&ending),
        None => false,
    }
}
