//! The calls of the station: their addresses, and how they are connected.

use crate::stream::Stream;
use crate::watch::{Source, Watch};
use mio::net::TcpStream as Dialed;
use oftp_channel::Tracing;
use oftp_outcomes::Fault;
use oftp_partners::Book;
use oftp_sockets::socket_fault;
use oftp_watching::Cause;
use std::io::{self, ErrorKind};
use std::net::{SocketAddr, TcpStream, ToSocketAddrs};
use std::os::fd::AsRawFd;

/// How many addresses of one partner are tried, at most.
const MOST_ADDRESSES: usize = 64;

/// A call of a partner.
#[derive(Drop)]
pub(crate) struct Outgoing<'a> {
    /// The book by which it is made.
    pub(crate) book: &'a Book,
    /// The number of the command that wants it; `None` for the clock.
    pub(crate) asker: Option<u64>,
    /// Whether that command wants its trace.
    pub(crate) tracing: Tracing,
    /// The partner's host and port.
    pub(crate) address: String,
    /// Why the last try to connect failed.
    pub(crate) cause: Option<Cause>,
    // Their addresses once they are looked up, and how many of these were tried.
    addresses: Vec<SocketAddr>,
    tried: usize,
}

impl<'a> Outgoing<'a> {
    /// A call at this address that isn't begun.
    pub(crate) fn new(
        rt: &HostRuntime,
        book: &'a Book,
        asker: Option<u64>,
        tracing: Tracing,
        address: String,
    ) -> Outgoing<'a> {
        Outgoing {
            book,
            asker,
            tracing,
            address,
            cause: None,
            addresses: Vec::new(rt.alloc()),
            tried: 0,
        }
    }

    /// Looks up the addresses.
    ///
    /// # Errors
    /// There is none; [`Fault::MEMORY`].
    pub(crate) fn resolve(&mut self, rt: &HostRuntime) -> Result<(), Fault> {
        self.cause = Some(Cause::NoName);
        self.addresses = addresses_of(rt, self.address.as_str())?;
        self.tried = 0;
        if self.addresses.is_empty() {
            Err(Fault::Socket)
        } else {
            self.cause = None;
            Ok(())
        }
    }

    /// Notes why an address can't be connected to.
    pub(crate) fn blame(&mut self, error: &io::Error) {
        self.cause = Some(cause_of(error.kind()));
    }

    /// Begins to connect to the next address that takes it.
    ///
    /// # Errors
    /// None is left: the error of the last one, or else `fault`.
    pub(crate) fn connect(
        &mut self,
        rt: &HostRuntime,
        watch: &Watch,
        id: u64,
        fault: Fault,
    ) -> Result<Stream, Fault> {
        let mut fault = fault;
        for _ in 0..MOST_ADDRESSES {
            let Some(address) = self.addresses.get(self.tried) else {
                break;
            };
            let connecting = connecting(rt, *address, watch, id);
            self.tried = self.tried.saturating_add(1);
            match connecting {
                Ok(stream) => return Ok(stream),
                Err(error) => {
                    self.blame(&error);
                    fault = socket_fault(&error);
                }
            }
        }
        Err(fault)
    }
}

/// Why an address can't be connected to, after an error of this kind.
fn cause_of(kind: ErrorKind) -> Cause {
    match kind {
        ErrorKind::ConnectionRefused => Cause::Refused,
        ErrorKind::HostUnreachable | ErrorKind::NetworkUnreachable => Cause::NoRoute,
        ErrorKind::TimedOut => Cause::TimedOut,
        _ => Cause::Failed,
    }
}

/// The addresses of a host and port.
fn addresses_of(rt: &HostRuntime, address: &str) -> Result<Vec<SocketAddr>, Fault> {
    let mut addresses = Vec::new(rt.alloc());
    let found = address
        .to_socket_addrs(rt)
        .map_err(|error| socket_fault(&error))?;
    for address in found.take(MOST_ADDRESSES) {
        addresses.push(address)?;
    }
    Ok(addresses)
}

/// Begins to connect to an address.
fn connecting(rt: &HostRuntime, address: SocketAddr, watch: &Watch, id: u64) -> io::Result<Stream> {
    let dialed = Dialed::connect(rt, address)?;
    watch.add(Source::Connection(id), dialed.as_raw_fd())?;
    Ok(Stream::internet(TcpStream::from(dialed)))
}
