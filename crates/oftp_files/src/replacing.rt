//! Files that are replaced atomically: until the new file is whole, its path has the old one.

use crate::access::Access;
use crate::drafts::{Draft, folder_of, new_draft, sweep, usual_mode};
use crate::files::{file_fault, is_beside_database, is_of_database};
use oftp_outcomes::Fault;
use std::fs::{self, File, OpenOptions};
use std::io::{self, ErrorKind};
use std::path::PathBuf;

/// Where output is written.
#[derive(Drop)]
pub enum Place {
    /// To something that can't be replaced, such as a device or a pipe.
    Device(File),
    /// To a path.
    Name(Name),
}

/// A path that a new file is to get.
#[derive(Drop)]
pub struct Name {
    path: PathBuf,
    // That of the present file, or the usual one of a new file.
    access: Access,
}

impl Name {
    /// Its path.
    pub fn path(&self) -> &str {
        self.path.as_str()
    }

    /// The permissions and the owner that the new file gets.
    pub fn access(&self) -> Access {
        self.access
    }

    /// The same path, with other permissions and another owner for the new file.
    pub fn with_access(self, access: Access) -> Name {
        let Name { path, access: _ } = self;
        Name { path, access }
    }
}

/// Examines a path to which output is to be written. It may not be a folder or a file of the database.
///
/// # Errors
/// [`Fault::File`] if nothing may be written there, and nothing is created; [`Fault::MEMORY`].
pub fn place_of(rt: &HostRuntime, path: &str, database: &str) -> Result<Place, Fault> {
    match OpenOptions::new().write(true).open(rt, path) {
        Ok(file) => place_of_file(rt, file, path, database),
        Err(error) if error.kind() == ErrorKind::NotFound => new_place(rt, path, database),
        Err(error) => Err(file_fault(&error)),
    }
}

/// The place of a path that doesn't exist.
fn new_place(rt: &HostRuntime, path: &str, database: &str) -> Result<Place, Fault> {
    Ok(Place::Name(free_name(rt, path, database)?))
}

/// Examines a path at which nothing is, for a new file. It may not be the name of a file that may appear beside the database.
///
/// # Errors
/// [`Fault::File`] if something is there, be it a link that leads nowhere, or nothing may be created there; [`Fault::MEMORY`].
pub fn free_name(rt: &HostRuntime, path: &str, database: &str) -> Result<Name, Fault> {
    let path = free_path(rt, path, database)?;
    let access = Access::of_mode(usual_mode(rt, path.as_path())?);
    Ok(Name { path, access })
}

/// Examines a path as [`free_name`] does, for a new file with these permissions and this owner. They are those of another one in the folder, so
/// that they aren't asked for again.
///
/// # Errors
/// Those of [`free_name`].
pub fn free_name_like(
    rt: &HostRuntime,
    path: &str,
    database: &str,
    access: Access,
) -> Result<Name, Fault> {
    let path = free_path(rt, path, database)?;
    Ok(Name { path, access })
}

/// A path at which nothing is, and which isn't the name of a file that may appear beside the database.
fn free_path(rt: &HostRuntime, path: &str, database: &str) -> Result<PathBuf, Fault> {
    match fs::symlink_metadata(rt, path) {
        Ok(_) => return Err(Fault::File),
        Err(error) if error.kind() == ErrorKind::NotFound => {}
        Err(error) => return Err(file_fault(&error)),
    }
    if is_beside_database(rt, path, database)? {
        return Err(Fault::File);
    }
    Ok(PathBuf::from_str(rt.alloc(), path)?)
}

/// The place of an existing file. If the path leads over links, its target is replaced and the links stay.
fn place_of_file(rt: &HostRuntime, file: File, path: &str, database: &str) -> Result<Place, Fault> {
    let about = file.metadata().map_err(|error| file_fault(&error))?;
    if !about.is_file() {
        return Ok(Place::Device(file));
    }
    if is_of_database(rt, &about, database)? {
        return Err(Fault::File);
    }
    let path = fs::canonicalize(rt, path).map_err(|error| file_fault(&error))?;
    let access = Access::of_file(&about);
    Ok(Place::Name(Name { path, access }))
}

/// Creates an empty draft beside a path. Only its owner may read it until it is settled. Drafts there that killed processes left are removed.
///
/// # Errors
/// [`Fault::File`] if none can be created; [`Fault::MEMORY`].
pub fn draft_of(rt: &HostRuntime, name: &Name) -> Result<Draft, Fault> {
    sweep(rt, folder_of(name.path.as_path()));
    new_draft(rt, name.path.as_path())
}

/// Creates an empty draft beside a path as [`draft_of`] does, in a folder that was swept already.
///
/// # Errors
/// Those of [`draft_of`].
pub fn draft_in_swept(rt: &HostRuntime, name: &Name) -> Result<Draft, Fault> {
    new_draft(rt, name.path.as_path())
}

/// Removes a draft that isn't needed.
pub fn discard(rt: &HostRuntime, draft: &Draft) {
    let _ = fs::remove_file(rt, draft.path.as_str());
}

/// Gives a written draft its name, and syncs the file and its folder. A draft whose writing failed is removed.
///
/// # Errors
/// The error of the writing; or [`Fault::File`] if the draft can't get its permissions, be synced or be renamed; or [`Fault::MEMORY`]. The
/// draft is removed then. If only the folder can't be synced, the file has its name already.
pub fn settle(
    rt: &HostRuntime,
    draft: Draft,
    name: &Name,
    written: Result<(), Fault>,
) -> Result<(), Fault> {
    let named = match written {
        Ok(()) => take_name(rt, &draft, name).map_err(|error| file_fault(&error)),
        Err(fault) => Err(fault),
    };
    match named {
        Ok(()) => keep_name(rt, name),
        Err(fault) => {
            discard(rt, &draft);
            Err(fault)
        }
    }
}

/// Syncs a draft and gives it its name.
fn take_name(rt: &HostRuntime, draft: &Draft, name: &Name) -> io::Result<()> {
    name.access.give_to(&draft.file)?;
    draft.file.sync_all()?;
    fs::rename(rt, draft.path.as_str(), name.path.as_str())
}

/// Syncs the folder of the name. If the folder may not be read, or the file system doesn't sync folders, there is nothing to wait for.
fn keep_name(rt: &HostRuntime, name: &Name) -> Result<(), Fault> {
    match sync_folder(rt, folder_of(name.path.as_path())) {
        Ok(()) => Ok(()),
        Err(error) => match error.kind() {
            ErrorKind::PermissionDenied | ErrorKind::InvalidInput | ErrorKind::Unsupported => Ok(
                (),
            ),
            _ => Err(file_fault(&error)),
        },
    }
}

/// Syncs a folder.
fn sync_folder(rt: &HostRuntime, folder: &str) -> io::Result<()> {
    fs::open(rt, folder)?.sync_all()
}
