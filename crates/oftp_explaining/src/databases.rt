//! Why a database can't be used, and who has it.

use crate::teller::system_error;
use oftp_files::are_of_one_file;
use oftp_notes::DatabaseCause;
use std::alloc::AllocError;
use std::fs::{self, File, Metadata, OpenOptions};
use std::io::{self, ErrorKind, Read};

/// How each database of SQLite begins.
const HEAD: [u8; 16] = *b"SQLite format 3\0";

/// Why a database can't be opened.
pub(crate) fn database_cause(rt: &HostRuntime, path: &str) -> DatabaseCause {
    if path.is_empty() || path == ":memory:" {
        return DatabaseCause::IsUnkept;
    }
    match fs::metadata(rt, path) {
        Ok(about) if about.is_dir() => DatabaseCause::IsFolder,
        Ok(about) => found_cause(rt, path, &about),
        Err(error) => cause_of(&error),
    }
}

/// Whether there is no database.
pub(crate) fn is_missing(rt: &HostRuntime, path: &str) -> bool {
    match fs::metadata(rt, path) {
        Ok(about) => about.len() == 0,
        Err(error) => error.kind() == ErrorKind::NotFound,
    }
}

/// Why a database that is there can't be opened.
fn found_cause(rt: &HostRuntime, path: &str, about: &Metadata) -> DatabaseCause {
    if !about.is_file() {
        return DatabaseCause::IsNoDatabase;
    }
    match OpenOptions::new().read(true).write(true).open(rt, path) {
        Err(error) => cause_of(&error),
        Ok(file) if !begins_as_one(&file) => DatabaseCause::IsNoDatabase,
        Ok(file) => {
            drop(file);
            match holder_of(rt, about) {
                Some(process) => DatabaseCause::IsHeld(process),
                None => DatabaseCause::IsDamaged,
            }
        }
    }
}

/// Whether a file begins as a database, or is empty.
fn begins_as_one(file: &File) -> bool {
    let mut head = [0; 16];
    let mut reader = file;
    match reader.read(&mut head) {
        Ok(0) => true,
        Ok(_) => head == HEAD,
        Err(_) => false,
    }
}

/// The process that has a file open, as far as this one may look. The locks of SQLite here belong to open files, so /proc/locks doesn't name it.
fn holder_of(rt: &HostRuntime, about: &Metadata) -> Option<u32> {
    let own = libc::getpid().unsigned_abs();
    for entry in fs::read_dir(rt, "/proc").ok()? {
        if let Ok(entry) = entry {
            if let Ok(number) = entry.file_name().parse::<u32>() {
                if number != own && has_open(rt, number, about) {
                    return Some(number);
                }
            }
        }
    }
    None
}

/// Whether a process has a file open.
fn has_open(rt: &HostRuntime, number: u32, about: &Metadata) -> bool {
    let Ok(folder) = descriptors_of(rt, number) else {
        return false;
    };
    let Ok(entries) = fs::read_dir(rt, folder.as_str()) else {
        return false;
    };
    for entry in entries {
        if let Ok(entry) = entry {
            if is_same(rt, entry.path().as_str(), about) {
                return true;
            }
        }
    }
    false
}

/// The folder of the descriptors of a process.
fn descriptors_of(rt: &HostRuntime, number: u32) -> Result<String, AllocError> {
    format!(in rt.alloc(); "/proc/{number}/fd")
}

/// Whether a path leads to this file.
fn is_same(rt: &HostRuntime, path: &str, about: &Metadata) -> bool {
    match fs::metadata(rt, path) {
        Ok(other) => are_of_one_file(about, &other),
        Err(_) => false,
    }
}

/// The cause for an error of the system.
fn cause_of(error: &io::Error) -> DatabaseCause {
    match system_error(error) {
        Some(error) => DatabaseCause::System(error),
        None => DatabaseCause::IsDamaged,
    }
}
