//! Why a file or a folder of a command line can't be read or made.

use crate::places::{
    book_of, database_of, events_of, folder_of, input_of, output_of, record_of, trace_of,
};
use crate::teller::system_error;
use oftp_command_line::Line;
use oftp_files::{is_beside_database, is_of_database, own_user};
use oftp_notes::{PathCause, SystemError};
use std::alloc::AllocError;
use std::fs::{self, Metadata, OpenFile, OpenOptions};
use std::io::{self, ErrorKind};
use std::os::unix::fs::MetadataExt;
use std::path::PathBuf;

/// How many octets a book may have.
const LONGEST_BOOK: u64 = 16_777_216;

/// The error of a folder in which nothing may be made (EACCES).
const DENIED: u32 = 13;

/// The mode bits by which the owner, the group and others may write.
const WRITE: [u32; 3] = [0o200, 0o020, 0o002];

/// The endings of the files that would make another database of a copy.
const BEHIND: [&str; 2] = ["-wal", "-journal"];

/// A path of a command line, and why it can't be used.
type Fault<'a> = Option<(&'a str, PathCause)>;

/// The first path of a line that can't be used, and why. If all of them can be now, it is the last one.
pub(crate) fn faulty_path<'a>(rt: &HostRuntime, line: &Line<'a>) -> Fault<'a> {
    if let Some(fault) = faulty_book(rt, line) {
        return Some(fault);
    }
    if let Some(fault) = faulty_folder(rt, line) {
        return Some(fault);
    }
    if let Some(fault) = faulty_input(rt, line) {
        return Some(fault);
    }
    if let Some(fault) = faulty_events(rt, line) {
        return Some(fault);
    }
    if let Some(fault) = faulty_record(rt, line) {
        return Some(fault);
    }
    if let Some(fault) = faulty_trace(rt, line) {
        return Some(fault);
    }
    faulty_output(rt, line)
}

/// The book, if it can't be read.
fn faulty_book<'a>(rt: &HostRuntime, line: &Line<'a>) -> Fault<'a> {
    let path = book_of(line)?;
    match fs::open(rt, path) {
        Err(error) => Some((path, cause_of(&error))),
        Ok(file) => match file.metadata() {
            Err(error) => Some((path, cause_of(&error))),
            Ok(about) if about.is_dir() => Some((path, PathCause::IsFolder)),
            Ok(about) if about.len() > LONGEST_BOOK => Some((path, PathCause::IsTooLong)),
            Ok(_) => None,
        },
    }
}

/// The folder that it works on, if it is none.
fn faulty_folder<'a>(rt: &HostRuntime, line: &Line<'a>) -> Fault<'a> {
    no_folder(rt, folder_of(line)?)
}

/// The folder of the record, if it is none.
fn faulty_record<'a>(rt: &HostRuntime, line: &Line<'a>) -> Fault<'a> {
    no_folder(rt, record_of(line)?)
}

/// The path of a folder, if none is there.
fn no_folder<'a>(rt: &HostRuntime, path: &'a str) -> Fault<'a> {
    match fs::metadata(rt, path) {
        Err(error) => Some((path, cause_of(&error))),
        Ok(about) if !about.is_dir() => Some((path, PathCause::IsNoFolder)),
        Ok(_) => None,
    }
}

/// The last path of a line that writes no file: the record if there is one, else what is read.
fn last_read<'a>(line: &Line<'a>) -> Option<&'a str> {
    let read = folder_of(line).or(input_of(line)).or(book_of(line));
    record_of(line).or(read)
}

/// The file that is read, if it can't be.
fn faulty_input<'a>(rt: &HostRuntime, line: &Line<'a>) -> Fault<'a> {
    let path = input_of(line)?;
    match fs::metadata(rt, path) {
        Err(error) => Some((path, cause_of(&error))),
        Ok(about) if about.is_dir() => Some((path, PathCause::IsFolder)),
        Ok(about) if about.is_file() => match fs::open(rt, path) {
            Err(error) => Some((path, cause_of(&error))),
            Ok(_) => None,
        },
        Ok(_) => None,
    }
}

/// The trace, if nothing can be appended to it. Where one can be opened, the command needs the file, so this is looked at behind the others.
fn faulty_trace<'a>(rt: &HostRuntime, line: &Line<'a>) -> Fault<'a> {
    let path = trace_of(line)?;
    match made_cause(rt, path) {
        PathCause::IsOther => match output_of(line) {
            None => Some((path, PathCause::IsNeeded)),
            Some(_) => None,
        },
        cause => Some((path, cause)),
    }
}

/// The file of the events, if nothing can be appended to it.
fn faulty_events<'a>(rt: &HostRuntime, line: &Line<'a>) -> Fault<'a> {
    let path = events_of(line)?;
    match made_cause(rt, path) {
        PathCause::IsOther => None,
        cause => Some((path, cause)),
    }
}

/// The file that is written, and why it can't be.
fn faulty_output<'a>(rt: &HostRuntime, line: &Line<'a>) -> Fault<'a> {
    let Some(path) = output_of(line) else {
        return Some((last_read(line)?, PathCause::IsOther));
    };
    if is_of(rt, path, database_of(line)) {
        return Some((path, PathCause::IsNeeded));
    }
    if matches!(line, Line::Backup(_)) && has_log(rt, path) {
        return Some((path, PathCause::HasLog));
    }
    Some((path, made_cause(rt, path)))
}

/// Why a file can't be made or written here.
fn made_cause(rt: &HostRuntime, path: &str) -> PathCause {
    match fs::metadata(rt, path) {
        Ok(about) if about.is_dir() => PathCause::IsFolder,
        Ok(about) if about.is_file() => written_cause(rt, path),
        Ok(_) => PathCause::IsNeeded,
        Err(error) if error.kind() == ErrorKind::NotFound => parent_cause(rt, path),
        Err(error) => cause_of(&error),
    }
}

/// Why a regular file can't be written. Nothing in it is changed.
fn written_cause(rt: &HostRuntime, path: &str) -> PathCause {
    match OpenOptions::new().append(true).open(rt, path) {
        Err(error) => cause_of(&error),
        Ok(_) => PathCause::IsOther,
    }
}

/// Why nothing can be made beside this path.
fn parent_cause(rt: &HostRuntime, path: &str) -> PathCause {
    let Ok(path) = PathBuf::from_str(rt.alloc(), path) else {
        return PathCause::IsOther;
    };
    let folder = match path.as_path().parent() {
        Some(folder) if !folder.as_str().is_empty() => folder.as_str(),
        _ => ".",
    };
    match fs::metadata(rt, folder) {
        Err(error) => cause_of(&error),
        Ok(about) if !about.is_dir() => PathCause::IsNoFolder,
        Ok(about) if may_write(&about) => PathCause::IsOther,
        Ok(_) => PathCause::System(SystemError(DENIED)),
    }
}

/// Whether this process may write in a folder, as far as its mode says. Root may.
fn may_write(about: &Metadata) -> bool {
    let user = own_user();
    let mode = about.mode();
    let [owner, group, others] = WRITE;
    if user == 0 {
        true
    } else if about.uid() == user {
        mode & owner != 0
    } else {
        mode & (group | others) != 0
    }
}

/// Whether a path is a file of the database, or may come to be one.
fn is_of(rt: &HostRuntime, path: &str, database: Option<&str>) -> bool {
    let Some(database) = database else {
        return false;
    };
    let is_one = match fs::metadata(rt, path) {
        Ok(about) => matches!(is_of_database(rt, &about, database), Ok(true)),
        Err(_) => false,
    };
    is_one || matches!(is_beside_database(rt, path, database), Ok(true))
}

/// Whether a log or a journal lies beside a path.
fn has_log(rt: &HostRuntime, path: &str) -> bool {
    for ending in &BEHIND {
        if matches!(is_there(rt, path, ending), Ok(true)) {
            return true;
        }
    }
    false
}

/// Whether something is at a path with an ending.
fn is_there(rt: &HostRuntime, path: &str, ending: &str) -> Result<bool, AllocError> {
    let path = format!(in rt.alloc(); "{path}{ending}")?;
    Ok(fs::symlink_metadata(rt, path.as_str()).is_ok())
}

/// The cause for an error of the system.
fn cause_of(error: &io::Error) -> PathCause {
    match system_error(error) {
        Some(error) => PathCause::System(error),
        None => PathCause::IsOther,
    }
}
