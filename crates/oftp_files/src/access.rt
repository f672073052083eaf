//! Who may read the files that the program makes.

use std::fs::{DirBuilder, File, Metadata, OpenOptions, Permissions};
use std::io::{self, ErrorKind};
use std::os::unix::fs::{DirBuilderExt, MetadataExt, OpenOptionsExt, PermissionsExt, fchown};

/// Mode bits: only the owner may read and write.
const PRIVATE: u32 = 0o600;

/// Mode bits: only the owner may use a folder.
const PRIVATE_FOLDER: u32 = 0o700;

/// The permission bits of a mode, without setuid, setgid and sticky.
const ANYONE: u32 = 0o777;

/// The permission bits for others.
const OTHERS: u32 = 0o007;

/// The permission bits for the group.
const GROUP: u32 = 0o070;

/// Creates an empty file for writing. Only its owner may read or write it, whatever the umask is.
///
/// # Errors
/// The file can't be created. If the path exists already, even as a dangling link, it is left alone and the error is `AlreadyExists`. If
/// only the permissions can't be set, the empty file stays.
pub fn make_private(rt: &HostRuntime, path: &str) -> io::Result<File> {
    let file = OpenOptions::new()
        .append(true)
        .create_new(true)
        .mode(PRIVATE)
        .open(rt, path)?;
    // The umask may have removed permissions of the owner.
    file.set_permissions(Permissions::from_mode(PRIVATE))?;
    Ok(file)
}

/// Creates an empty folder, which only its owner may use.
///
/// # Errors
/// The folder can't be created. If the path exists already, it is left alone and the error is `AlreadyExists`.
pub fn make_private_folder(rt: &HostRuntime, path: &str) -> io::Result<()> {
    DirBuilder::new().mode(PRIVATE_FOLDER).create(rt, path)
}

/// The permissions and the owner of a file.
#[derive(Clone, Copy)]
pub struct Access {
    mode: u32,
    owner: Option<Owner>,
}

/// The user and the group that a file belongs to.
#[derive(Clone, Copy)]
struct Owner {
    user: u32,
    group: u32,
}

impl Access {
    /// The permissions of a new file with this mode, which belongs to its creator.
    pub fn of_mode(mode: u32) -> Access {
        Access {
            mode: mode & ANYONE,
            owner: None,
        }
    }

    /// The permissions and the owner of an existing file.
    pub fn of_file(about: &Metadata) -> Access {
        Access {
            mode: about.mode() & ANYONE,
            owner: Some(Owner {
                user: about.uid(),
                group: about.gid(),
            }),
        }
    }

    /// Sets the permissions and the owner of a file, as far as this process may. If it may not set the group, the group gets the
    /// permissions of others.
    ///
    /// # Errors
    /// Any error of the system, except that this process may not change the owner or group. The file may have part of the access then.
    pub fn give_to(self, file: &File) -> io::Result<()> {
        let mut mode = self.mode;
        if let Some(owner) = self.owner {
            if !is_given(fchown(file, None, Some(owner.group)))? {
                mode = (mode & !GROUP) | ((mode & OTHERS) << 3);
            }
            is_given(fchown(file, Some(owner.user), None))?;
        }
        file.set_permissions(Permissions::from_mode(mode))
    }
}

/// Whether the owner or group was set. A process may set few of them, and a user namespace doesn't map all of them.
fn is_given(outcome: io::Result<()>) -> io::Result<bool> {
    match outcome {
        Ok(()) => Ok(true),
        Err(error) => match error.kind() {
            ErrorKind::PermissionDenied | ErrorKind::InvalidInput => Ok(false),
            _ => Err(error),
        },
    }
}
