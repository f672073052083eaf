//! The lock of a folder: a file in it that only its owner may open. A lock on the folder itself could be held by whoever may read it.

use crate::judging::{LockSeen, Locking, locking_of};
use oftp_files::{
    are_of_one_file, bears, file_fault, is_free, is_ours, make_private, open_at_once,
};
use oftp_outcomes::Fault;
use std::fs::{self, File, Metadata};
use std::io::ErrorKind;
use std::os::unix::fs::MetadataExt;
use std::time::{Clock, Duration};

/// The name of the file.
const LOCK: &str = ".oftp_station_lock";

/// The mode bits by which others may open it.
const OTHERS: u32 = 0o077;

/// How often a locked folder is tried again, which is for ten seconds.
const TRIES: u32 = 200;

/// The pause before that, in milliseconds.
const PAUSE: u64 = 50;

/// The lock of a folder that is locked against other commands.
#[derive(Drop)]
pub(super) struct FolderLock {
    file: File,
    path: String,
}

impl FolderLock {
    /// Locks the folder at a path. If another command has it locked, waits up to ten seconds. File systems without locks are accepted.
    ///
    /// # Errors
    /// [`Fault::File`] if the lock's file can't be created, is a link, another user's or open to others, or stays locked; [`Fault::MEMORY`].
    pub(super) fn held(rt: &HostRuntime, folder: &str) -> Result<FolderLock, Fault> {
        let path = format!(in rt.alloc(); "{folder}/{}", LOCK)?;
        for _ in 0..TRIES {
            if let Some(file) = tried(rt, path.as_str())? {
                return Ok(FolderLock { file, path });
            }
            rt.sleep(Duration::from_millis(PAUSE));
        }
        Err(Fault::File)
    }

    /// Gives the lock up, and removes its file. One that a kill leaves is taken by the next command.
    pub(super) fn give_up(self, rt: &HostRuntime) {
        if bears(rt, &self.file, self.path.as_str()) {
            let _ = fs::remove_file(rt, self.path.as_str());
        }
    }
}

/// Tries to lock the file at a path. Returns `None` if another command has it locked, or has removed it meanwhile.
fn tried(rt: &HostRuntime, path: &str) -> Result<Option<File>, Fault> {
    let file = match make_private(rt, path) {
        Ok(file) => file,
        Err(error) if error.kind() == ErrorKind::AlreadyExists => match found(rt, path)? {
            Some(file) => file,
            None => return Ok(None),
        },
        Err(error) => return Err(file_fault(&error)),
    };
    Ok(if is_free(&file) && bears(rt, &file, path) {
        Some(file)
    } else {
        None
    })
}

/// Opens a lock's file that is there already. Returns `None` if it is gone or exchanged meanwhile, as when another command is done.
fn found(rt: &HostRuntime, path: &str) -> Result<Option<File>, Fault> {
    let (seen, file) = looked_for(rt, path)?;
    match locking_of(seen) {
        Locking::Lock => Ok(file),
        Locking::TryAgain => Ok(None),
        Locking::Refuse => Err(Fault::File),
    }
}

/// Looks what is at the path of a lock, and opens it if it is one.
fn looked_for(rt: &HostRuntime, path: &str) -> Result<(LockSeen, Option<File>), Fault> {
    match fs::symlink_metadata(rt, path) {
        Ok(named) if is_lock(&named) => opened(rt, path, &named),
        Ok(_) => Ok((LockSeen::Else, None)),
        Err(error) if error.kind() == ErrorKind::NotFound => Ok((LockSeen::Nothing, None)),
        Err(error) => Err(file_fault(&error)),
    }
}

/// Opens the lock at a path that was looked at before. No link is followed: what is open is compared with what was looked at.
fn opened(
    rt: &HostRuntime,
    path: &str,
    named: &Metadata,
) -> Result<(LockSeen, Option<File>), Fault> {
    let file = match open_at_once(rt, path) {
        Ok(file) => file,
        Err(error) if error.kind() == ErrorKind::NotFound => return Ok((LockSeen::Nothing, None)),
        Err(error) => return Err(file_fault(&error)),
    };
    let about = file.metadata().map_err(|error| file_fault(&error))?;
    Ok(if !are_of_one_file(&about, named) {
        (LockSeen::Exchanged, None)
    } else if is_lock(&about) {
        (LockSeen::Lock, Some(file))
    } else {
        (LockSeen::Else, None)
    })
}

/// Whether this is a regular file that only this user may open.
fn is_lock(about: &Metadata) -> bool {
    about.is_file() && is_ours(about) && about.mode() & OTHERS == 0
}
