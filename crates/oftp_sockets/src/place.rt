//! The socket beside a database: its path, and how it is created, replaced and connected to.

use oftp_files::socket_name;
use oftp_watching::COMMAND_END;
use std::fs::{self, File, Files};
use std::io::{self, ErrorKind};
use std::net::Net;
use std::os::fd::{AsFd, AsRawFd};
use std::os::unix::fs::FileTypeExt;
use std::os::unix::net::{SocketAddr, UnixListener, UnixStream};

/// The mode of the socket's file: whoever may write it may connect.
pub(crate) const MODE: u32 = 0o600;

/// As many connections may wait to be accepted as the system allows.
const BACKLOG: i32 = -1;

/// The path of the socket beside a database.
#[derive(Drop)]
pub struct SocketPlace {
    // The folder stays open, so that the path through its descriptor fits into a socket's address, however long its own path is.
    folder: File,
    path: String,
}

impl SocketPlace {
    /// The place beside an existing database. Links in its path are followed.
    ///
    /// # Errors
    /// There is no such file, or its folder can't be opened.
    pub fn beside(rt: &HostRuntime, database: &str) -> io::Result<SocketPlace> {
        let real = fs::canonicalize(rt, database)?;
        let real = real.as_path();
        let (Some(folder), Some(name)) = (real.parent(), real.file_name()) else {
            return Err(io::Error::from(ErrorKind::NotFound));
        };
        let own = socket_name(rt, real.as_str(), name)?;
        let folder = File::open(rt, folder.as_str())?;
        let fd = folder.as_raw_fd();
        let path = format!(in rt.alloc(); "/proc/self/fd/{fd}/{own}")?;
        Ok(SocketPlace { folder, path })
    }

    /// Listens at the socket. A socket that a killed process left is replaced: the caller has the database locked, so no other process
    /// listens. From the first moment only the file's owner may connect.
    ///
    /// # Errors
    /// Any error of the system; one if another file has the name, which stays. If the socket was bound and can't listen, its file stays
    /// too.
    pub fn listen(&self, rt: &HostRuntime) -> io::Result<UnixListener> {
        self.remove(rt)?;
        let socket = rt.unix_socket()?;
        checked(libc::fchmod(socket.as_raw_fd(), MODE))?;
        rt.bind_unix(
            socket.as_fd(),
            &SocketAddr::from_pathname(self.path.as_str())?,
        )?;
        checked(libc::net::listen(socket.as_raw_fd(), BACKLOG))?;
        Ok(UnixListener::from(socket))
    }

    /// Connects to the station that listens there.
    ///
    /// # Errors
    /// No process listens there, or this one may not connect.
    pub fn connect(&self, rt: &HostRuntime) -> io::Result<UnixStream> {
        UnixStream::connect(rt, self.path.as_str())
    }

    /// The path of the name with this number, which a command's end may have.
    pub(crate) fn path_of_end(&self, rt: &HostRuntime, number: u32) -> io::Result<String> {
        let fd = self.folder.as_raw_fd();
        Ok(format!(in rt.alloc(); "/proc/self/fd/{fd}/{}{number}", COMMAND_END)?)
    }

    /// Removes the socket's file. Another file with its name stays.
    ///
    /// # Errors
    /// Any error of the system, except that there is no file.
    pub fn remove(&self, rt: &HostRuntime) -> io::Result<()> {
        match fs::symlink_metadata(rt, self.path.as_str()) {
            Ok(found) if found.file_type().is_socket() => fs::remove_file(rt, self.path.as_str()),
            Err(error) if error.kind() != ErrorKind::NotFound => Err(error),
            _ => Ok(()),
        }
    }
}

/// The system's error, if a C function returned a negative number.
pub(crate) fn checked(status: i32) -> io::Result<()> {
    if status < 0 {
        Err(io::Error::from_raw_os_error(os::errno()))
    } else {
        Ok(())
    }
}
