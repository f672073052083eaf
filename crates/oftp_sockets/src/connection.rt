//! A command's connection to the station, and the name of its end. By the owner of that name's file the station knows who asks.

use crate::place::{MODE, SocketPlace, checked};
use oftp_watching::{EndFile, number_of_end};
use std::fs::{self, Files};
use std::io;
use std::os::fd::{AsFd, AsRawFd};
use std::os::unix::fs::{FileTypeExt, MetadataExt};
use std::os::unix::net::{SocketAddr, UnixStream};

/// A connection to the station that listens at a place.
pub struct Connection<'a> {
    rt: &'a HostRuntime,
    place: SocketPlace,
    stream: UnixStream,
    // The number of its name, once it has one.
    number: Option<u32>,
}

impl Drop for Connection<'_> {
    fn drop(self) {
        let Connection {
            rt,
            place,
            stream: _stream,
            number,
        } = self;
        if let Some(number) = number {
            place.forget(rt, number);
        }
    }
}

impl<'a> Connection<'a> {
    /// Connects to the station that listens at a place.
    ///
    /// # Errors
    /// No process listens there, or this one may not connect.
    pub fn open(rt: &'a HostRuntime, place: SocketPlace) -> io::Result<Connection<'a>> {
        let stream = place.connect(rt)?;
        Ok(Connection {
            rt,
            place,
            stream,
            number: None,
        })
    }

    /// Gives this end a name until the connection is let go of, by which the station knows who asks. If none can be given, it isn't known.
    pub fn sign(&mut self) {
        let number = libc::getpid().unsigned_abs();
        if self.place.sign(self.rt, &self.stream, number).is_ok() {
            self.number = Some(number);
        }
    }

    /// Its socket.
    pub fn stream(&self) -> &UnixStream {
        &self.stream
    }
}

impl SocketPlace {
    /// Gives a command's end of a connection the name with this number. One that a killed process left is replaced.
    fn sign(&self, rt: &HostRuntime, stream: &UnixStream, number: u32) -> io::Result<()> {
        let path = self.path_of_end(rt, number)?;
        let address = SocketAddr::from_pathname(path.as_str())?;
        checked(libc::fchmod(stream.as_raw_fd(), MODE))?;
        self.forget(rt, number);
        rt.bind_unix(stream.as_fd(), &address)
    }

    /// Removes the name with this number, if it is a socket's.
    fn forget(&self, rt: &HostRuntime, number: u32) {
        if let Ok(path) = self.path_of_end(rt, number)
            && let Ok(found) = fs::symlink_metadata(rt, path.as_str())
            && found.file_type().is_socket()
        {
            let _ = fs::remove_file(rt, path.as_str());
        }
    }

    /// Takes the name of a command's end with this address away. Returns its owner, the user whose command it is. `None` if it has no name, or
    /// another one.
    pub fn take_user(&self, rt: &HostRuntime, address: &SocketAddr) -> Option<u32> {
        let name = address.as_pathname()?;
        let number = number_of_end(name.as_str().as_bytes())?;
        let path = self.path_of_end(rt, number).ok()?;
        let user = end_file(rt, path.as_str()).user()?;
        let _ = fs::remove_file(rt, path.as_str());
        Some(user)
    }
}

/// What has the name with a path.
fn end_file(rt: &HostRuntime, path: &str) -> EndFile {
    match fs::symlink_metadata(rt, path) {
        Ok(found) if found.file_type().is_socket() => EndFile::Socket(found.uid()),
        _ => EndFile::Other,
    }
}
