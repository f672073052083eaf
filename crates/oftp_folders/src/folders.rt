//! The folders that commands work on, and the names of the files in them.

use crate::locking::FolderLock;
use oftp_channel::ListedFile;
use oftp_files::{are_of_one_file, file_fault, is_ours};
use oftp_outcomes::Fault;
use std::alloc::{AllocError, Global};
use std::fs::{self, File, Permissions};
use std::io::{self, ErrorKind};
use std::os::fd::AsRawFd;
use std::os::unix::fs::{MetadataExt, PermissionsExt};

/// The permission bits of a mode.
const MODE: u32 = 0o7777;

/// Those by which others than the owner may write in a folder.
const OTHERS_WRITE: u32 = 0o022;

/// The separator between the parts of a name. No part contains it.
const BETWEEN: char = '_';

/// The replacement for a character that isn't allowed in a file's name. No part contains it.
pub(super) const INSTEAD: char = '+';

/// An open folder. The names in it are reached through its descriptor, so that it stays this one, whatever its own name leads to meanwhile.
#[derive(Drop)]
pub(super) struct Room {
    file: File,
    path: String,
}

impl Room {
    /// Opens the folder at a path. A link is followed.
    fn opened(rt: &HostRuntime, path: &str) -> io::Result<Room> {
        // Nothing but a folder can be opened with this ending, so no pipe is waited for.
        let below = format!(in rt.alloc(); "{path}/.")?;
        let file = fs::open(rt, below.as_str())?;
        let fd = file.as_raw_fd();
        let path = format!(in rt.alloc(); "/proc/self/fd/{fd}")?;
        if are_of_one_file(&file.metadata()?, &fs::metadata(rt, path.as_str())?) {
            Ok(Room { file, path })
        } else {
            Err(io::Error::from(ErrorKind::NotFound))
        }
    }

    /// Opens the folder with a name in this one. It has to belong to the user as whom the program runs, and to be no link. Returns `None` if
    /// there is none.
    pub(super) fn inner(&self, rt: &HostRuntime, name: &str) -> Result<Option<Room>, Fault> {
        let path = path_in(rt, self.path(), name)?;
        let named = match fs::symlink_metadata(rt, path.as_str()) {
            Ok(named) => named,
            Err(error) if error.kind() == ErrorKind::NotFound => return Ok(None),
            Err(error) => return Err(file_fault(&error)),
        };
        let room = Room::opened(rt, path.as_str()).map_err(|error| file_fault(&error))?;
        let about = room.file.metadata().map_err(|error| file_fault(&error))?;
        if named.is_dir() && is_ours(&about) && are_of_one_file(&about, &named) {
            Ok(Some(room))
        } else {
            Err(Fault::File)
        }
    }

    /// Opens the folder with a name in this one as [`Room::inner`] does, once it is made, if there is none.
    pub(super) fn made(&self, rt: &HostRuntime, name: &str) -> Result<Room, Fault> {
        let path = path_in(rt, self.path(), name)?;
        match fs::create_dir(rt, path.as_str()) {
            Ok(()) => {}
            Err(error) if error.kind() == ErrorKind::AlreadyExists => {}
            Err(error) => return Err(file_fault(&error)),
        }
        match self.inner(rt, name)? {
            Some(room) => Ok(room),
            None => Err(Fault::File),
        }
    }

    /// Lets nobody but its owner write in it.
    pub(super) fn close_to_others(&self) -> Result<(), Fault> {
        let about = self.file.metadata().map_err(|error| file_fault(&error))?;
        let mode = about.mode() & MODE;
        if mode & OTHERS_WRITE == 0 {
            return Ok(());
        }
        let closed = Permissions::from_mode(mode & !OTHERS_WRITE);
        self.file
            .set_permissions(closed)
            .map_err(|error| file_fault(&error))
    }

    /// A path that leads to it as long as it is open.
    pub(super) fn path(&self) -> &str {
        self.path.as_str()
    }

    /// Syncs the folder, so that the names in it are durable. File systems that don't sync folders are accepted.
    pub(super) fn keep(&self) -> Result<(), Fault> {
        keep(&self.file)
    }
}

/// A folder that is locked against other commands.
#[derive(Drop)]
pub struct Folder {
    pub(super) room: Room,
    lock: FolderLock,
}

impl Folder {
    /// Locks the folder at a path. If another command has it locked, waits up to ten seconds.
    ///
    /// # Errors
    /// [`Fault::File`] if there is no such folder, it can't be opened, or its lock can't be created. So too if the lock is a link, another
    /// user's or open to others, or stays locked. Also [`Fault::MEMORY`].
    pub fn held(rt: &HostRuntime, path: &str) -> Result<Folder, Fault> {
        if path.is_empty() {
            return Err(Fault::File);
        }
        let room = Room::opened(rt, path).map_err(|error| file_fault(&error))?;
        let lock = FolderLock::held(rt, room.path())?;
        Ok(Folder { room, lock })
    }

    /// Gives up the lock.
    pub fn give_up(self, rt: &HostRuntime) {
        let Folder { room: _room, lock } = self;
        lock.give_up(rt);
    }
}

/// Syncs what is open. What the file system doesn't sync is accepted.
pub(super) fn keep(file: &File) -> Result<(), Fault> {
    match file.sync_all() {
        Ok(()) => Ok(()),
        Err(error) => match error.kind() {
            ErrorKind::InvalidInput | ErrorKind::Unsupported => Ok(()),
            _ => Err(file_fault(&error)),
        },
    }
}

/// The path of a name in a folder.
pub(super) fn path_in(rt: &HostRuntime, folder: &str, name: &str) -> Result<String, Fault> {
    Ok(format!(in rt.alloc(); "{folder}/{name}")?)
}

/// Whether something is at a path, be it a link that leads nowhere.
pub(super) fn has_something(rt: &HostRuntime, path: &str) -> Result<bool, Fault> {
    match fs::symlink_metadata(rt, path) {
        Ok(_) => Ok(true),
        Err(error) if error.kind() == ErrorKind::NotFound => Ok(false),
        Err(error) => Err(file_fault(&error)),
    }
}

/// The names in a folder, sorted. Those that aren't text are left out.
pub(super) fn names_in(rt: &HostRuntime, folder: &Room) -> Result<Vec<String>, Fault> {
    let mut names = Vec::new(rt.alloc());
    let entries = fs::read_dir(rt, folder.path()).map_err(|error| file_fault(&error))?;
    for entry in entries {
        match entry {
            Ok(entry) => add_name(rt, &mut names, entry.file_name())?,
            Err(error) if error.kind() == ErrorKind::InvalidFilename => {}
            Err(error) => return Err(file_fault(&error)),
        }
    }
    names.sort()?;
    Ok(names)
}

/// Adds a name.
fn add_name(rt: &HostRuntime, names: &mut Vec<String>, name: &str) -> Result<(), Fault> {
    let name = String::from_str(rt.alloc(), name)?;
    Ok(names.push(name)?)
}

/// What identifies a virtual file between two partners: its dataset name, date and time.
#[derive(Clone, Copy)]
pub(super) struct Stamps<'a> {
    pub(super) dataset: &'a str,
    pub(super) date: &'a str,
    pub(super) time: &'a str,
}

impl<'a> Stamps<'a> {
    /// Those of a file in a list.
    pub(super) fn of(file: &ListedFile<'a>) -> Stamps<'a> {
        Stamps {
            dataset: file.dataset,
            date: file.date,
            time: file.time,
        }
    }
}

/// The name of a file that was received from the partner with a code, or sent to it.
pub(super) fn name_of(alloc: Global, stamps: Stamps<'_>, code: &str) -> Result<String, Fault> {
    let Stamps {
        dataset,
        date,
        time,
    } = stamps;
    Ok(joined(alloc, [dataset, date, time, code])?)
}

/// The name of a file while it is submitted. Sorted by name, such files are in the order of their times.
pub(super) fn claim_name(alloc: Global, stamps: Stamps<'_>, code: &str) -> Result<String, Fault> {
    let Stamps {
        dataset,
        date,
        time,
    } = stamps;
    Ok(joined(alloc, [date, time, dataset, code])?)
}

/// The dataset name, date and time in the name of a file that is submitted.
pub(super) fn stamps_in<'a>(claim: &'a str) -> Option<Stamps<'a>> {
    let (date, behind) = claim.split_once(BETWEEN)?;
    let (time, behind) = behind.split_once(BETWEEN)?;
    let (dataset, _) = behind.split_once(BETWEEN)?;
    Some(Stamps {
        dataset,
        date,
        time,
    })
}

/// The name that a file has of its own, in the name that it has while it is submitted, which begins with this name. It is there if the file is
/// described by it.
pub(super) fn own_name_in<'a>(claim: &'a str, name: &str) -> Option<&'a str> {
    claim.strip_prefix(name)?.strip_prefix(BETWEEN)
}

/// The name of a file while it is submitted, with the name that it has of its own.
pub(super) fn with_own_name(alloc: Global, name: &str, own: &str) -> Result<String, Fault> {
    Ok(format!(in alloc; "{name}{}{own}", BETWEEN)?)
}

/// A name with the file's number in the register in front.
pub(super) fn numbered(alloc: Global, no: u64, name: &str) -> Result<String, Fault> {
    Ok(format!(in alloc; "{no:07}{}{name}", BETWEEN)?)
}

/// A name with a number behind it, for a file whose name another one has already.
pub(super) fn followed(alloc: Global, name: &str, number: u32) -> Result<String, Fault> {
    Ok(format!(in alloc; "{name}{}{number}", BETWEEN)?)
}

/// Joins the parts of a name.
fn joined(alloc: Global, parts: [&str; 4]) -> Result<String, AllocError> {
    let mut name = String::new(alloc);
    for part in parts {
        if !name.is_empty() {
            name.push(BETWEEN)?;
        }
        add_safely(&mut name, part)?;
    }
    Ok(name)
}

/// Adds a part of a name. Characters that aren't allowed are replaced.
fn add_safely(name: &mut String, part: &str) -> Result<(), AllocError> {
    for character in part.chars() {
        name.push(if is_safe(character) {
            character
        } else {
            INSTEAD
        })?;
    }
    Ok(())
}

/// Whether a character may be in a file's name: ASCII letters and digits, and the signs of a field X other than the slash.
pub(super) fn is_safe(character: char) -> bool {
    character.is_ascii_alphanumeric() || matches!(character, '-' | '.' | '&' | '(' | ')')
}
