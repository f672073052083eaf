//! Drafts: temporary files, which are written beside their later name.

use crate::access::make_private;
use crate::files::{are_of_one_file, file_fault};
use oftp_outcomes::Fault;
use std::fs::{self, File, OpenOptions, TryLockError};
use std::hash::{BuildHasher, RandomState};
use std::io;
use std::os::unix::fs::MetadataExt;
use std::path::{Path, PathBuf};

/// The prefix of a draft's name. A random number follows.
const PREFIX: &str = ".oftp_station_";

/// How many drafts are tried, if other processes remove each as if a killed process had left it.
const MOST_TRIES: u32 = 100;

/// A temporary file beside its later name. It is locked while it is open, which shows other processes that it is in use.
#[derive(Drop)]
pub struct Draft {
    /// The open file.
    pub file: File,
    /// Its path.
    pub path: PathBuf,
}

/// Creates an empty draft beside a path, which only its owner may read.
pub(super) fn new_draft(rt: &HostRuntime, beside: Path<'_>) -> Result<Draft, Fault> {
    for _ in 0..MOST_TRIES {
        let path = draft_path(rt, beside)?;
        let file = make_private(rt, path.as_str()).map_err(|error| file_fault(&error))?;
        if is_free(&file) && bears(rt, &file, path.as_str()) {
            return Ok(Draft { file, path });
        }
        let _ = fs::remove_file(rt, path.as_str());
    }
    Err(Fault::File)
}

/// The mode that a new file beside a path gets, by the umask or the folder's default. It is read from an empty file that is created and
/// removed.
pub(super) fn usual_mode(rt: &HostRuntime, beside: Path<'_>) -> Result<u32, Fault> {
    let path = draft_path(rt, beside)?;
    let empty = File::create_new(rt, path.as_str()).map_err(|error| file_fault(&error))?;
    let about = empty.metadata();
    let _ = fs::remove_file(rt, path.as_str());
    match about {
        Ok(about) => Ok(about.mode()),
        Err(error) => Err(file_fault(&error)),
    }
}

/// The folder of a path.
pub(super) fn folder_of<'a>(path: Path<'a>) -> &'a str {
    match path.parent() {
        Some(folder) if !folder.as_str().is_empty() => folder.as_str(),
        _ => ".",
    }
}

/// A random path for a draft beside a path.
fn draft_path(rt: &HostRuntime, beside: Path<'_>) -> Result<PathBuf, Fault> {
    let number = drawn(rt).map_err(|error| file_fault(&error))?;
    let name = format!(in rt.alloc(); "{}{number}", PREFIX)?;
    Ok(beside.with_file_name(rt.alloc(), name.as_str())?)
}

/// A random number, so that nobody can take the names beforehand.
fn drawn(rt: &HostRuntime) -> io::Result<u64> {
    Ok(RandomState::new(rt)?.hash_one(&0u8))
}

/// Locks a file. Returns whether no other process has it locked. If files can't be locked, no process has.
pub fn is_free(file: &File) -> bool {
    !matches!(file.try_lock(), Err(TryLockError::WouldBlock))
}

/// Whether a path names this file itself, without following links.
pub fn bears(rt: &HostRuntime, file: &File, path: &str) -> bool {
    match (file.metadata(), fs::symlink_metadata(rt, path)) {
        (Ok(about), Ok(named)) => are_of_one_file(&about, &named),
        _ => false,
    }
}

/// Removes the drafts in a folder that killed processes left, and no process writes. Those that can't be found or removed stay.
pub fn sweep(rt: &HostRuntime, folder: &str) {
    let Ok(entries) = fs::read_dir(rt, folder) else {
        return;
    };
    for entry in entries {
        if let Ok(entry) = entry {
            if is_draft(entry.file_name()) {
                remove_left(rt, entry.path().as_str());
            }
        }
    }
}

/// Whether a name may be a draft's.
fn is_draft(name: &str) -> bool {
    match name.strip_prefix(PREFIX) {
        Some(number) => number.parse::<u64>().is_ok(),
        None => false,
    }
}

/// Removes a draft that no process has locked. If it is a copy of a database, its log is removed first.
fn remove_left(rt: &HostRuntime, path: &str) {
    // Links aren't followed, and devices and pipes aren't opened.
    if !is_file(rt, path) {
        return;
    }
    let Ok(file) = OpenOptions::new().read(true).write(true).open(rt, path) else {
        return;
    };
    if file.try_lock().is_ok() && bears(rt, &file, path) {
        remove_log(rt, path);
        let _ = fs::remove_file(rt, path);
    }
}

/// The path of the write-ahead log of a draft that is a copy of a database: the draft's path with `-wal` behind it.
///
/// # Errors
/// [`Fault::MEMORY`].
pub fn log_of(rt: &HostRuntime, path: &str) -> Result<String, Fault> {
    Ok(format!(in rt.alloc(); "{path}-wal")?)
}

/// Removes the write-ahead log of a draft, if there is one. If it can't be removed, it stays.
pub fn remove_log(rt: &HostRuntime, path: &str) {
    if let Ok(log) = log_of(rt, path) {
        let _ = fs::remove_file(rt, log.as_str());
    }
}

/// Whether a path is a regular file, without following links.
fn is_file(rt: &HostRuntime, path: &str) -> bool {
    match fs::symlink_metadata(rt, path) {
        Ok(named) => named.is_file(),
        Err(_) => false,
    }
}
