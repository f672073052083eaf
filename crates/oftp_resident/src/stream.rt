//! The sockets of connections. None of them blocks.

use std::io::{self, ErrorKind, Read, Write};
use std::net::{IpAddr, Shutdown, SocketAddr, TcpStream};
use std::os::fd::{AsFd, AsRawFd, OwnedFd, RawFd};
use std::os::unix::net::{self as unix, UnixStream};

/// The socket of a connection, if it has one. The system's calls are the same for each kind of stream, so a command's socket is held as one of
/// the internet.
#[derive(Drop)]
pub(crate) struct Stream {
    socket: Option<TcpStream>,
}

impl Stream {
    /// None: that of a call which isn't connected.
    pub(crate) fn absent() -> Stream {
        Stream { socket: None }
    }

    /// A partner's or an HTTP client's.
    pub(crate) fn internet(socket: TcpStream) -> Stream {
        Stream {
            socket: Some(socket),
        }
    }

    /// A command's.
    pub(crate) fn local(socket: UnixStream) -> Stream {
        Stream::internet(TcpStream::from(OwnedFd::from(socket)))
    }

    fn socket(&self) -> io::Result<&TcpStream> {
        match &self.socket {
            Some(socket) => Ok(socket),
            None => Err(io::Error::from(ErrorKind::WouldBlock)),
        }
    }

    /// Lets its calls return at once.
    pub(crate) fn set_nonblocking(&self) -> io::Result<()> {
        self.socket()?.set_nonblocking(true)
    }

    /// Lets what is written leave at once.
    pub(crate) fn set_nodelay(&self) -> io::Result<()> {
        self.socket()?.set_nodelay(true)
    }

    pub(crate) fn read(&self, piece: &mut [u8]) -> io::Result<usize> {
        let mut socket = self.socket()?;
        socket.read(piece)
    }

    pub(crate) fn write(&self, piece: &[u8]) -> io::Result<usize> {
        let mut socket = self.socket()?;
        socket.write(piece)
    }

    /// Ends the station's direction.
    pub(crate) fn end_writing(&self) -> io::Result<()> {
        self.socket()?.shutdown(Shutdown::Write)
    }

    /// Whether it is connected.
    ///
    /// # Errors
    /// Why it can't be.
    pub(crate) fn is_connected(&self) -> io::Result<bool> {
        let socket = self.socket()?;
        match socket.take_error()? {
            Some(error) => Err(error),
            None => Ok(socket.peer_addr().is_ok()),
        }
    }

    /// The machine's address that was called.
    pub(crate) fn called_address(&self) -> Option<IpAddr> {
        match self.socket().ok()?.local_addr() {
            Ok(address) => Some(address.ip()),
            Err(_) => None,
        }
    }

    /// The address and the port at the other end.
    pub(crate) fn peer_address(&self) -> Option<SocketAddr> {
        self.socket().ok()?.peer_addr().ok()
    }

    /// The name of a command's end.
    pub(crate) fn name(&self) -> Option<unix::SocketAddr> {
        let again = self.socket().ok()?.as_fd().try_clone_to_owned().ok()?;
        UnixStream::from(again).peer_addr().ok()
    }

    /// Its descriptor.
    pub(crate) fn descriptor(&self) -> io::Result<RawFd> {
        Ok(self.socket()?.as_raw_fd())
    }
}
