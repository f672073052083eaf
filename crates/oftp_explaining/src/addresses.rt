//! Why an address can't be connected or bound.

use crate::teller::system_error;
use oftp_notes::AddressCause;
use std::io::{self, ErrorKind};
use std::net::{SocketAddr, TcpListener, TcpStream, ToSocketAddrs};
use std::time::Duration;

/// How long one address is waited for, in seconds.
const PATIENCE: u64 = 5;

/// Whether a text is a host and a port that can be called.
pub(crate) fn is_called(address: &str) -> bool {
    match address.rsplit_once(':') {
        Some((host, port)) => {
            let is_port = match port.parse::<u16>() {
                Ok(port) => port > 0,
                Err(_) => false,
            };
            is_port && !host.is_empty() && !host.contains('/') && !host.contains(' ')
        }
        None => false,
    }
}

/// Whether the host of an address has one.
pub(crate) fn has_name(rt: &HostRuntime, address: &str) -> bool {
    match address.to_socket_addrs(rt) {
        Ok(mut found) => found.next().is_some(),
        Err(_) => false,
    }
}

/// Why a partner's address can't be connected. It is tried once more for that.
pub(crate) fn called_cause(rt: &HostRuntime, address: &str) -> AddressCause {
    if !is_called(address) {
        return AddressCause::IsNoAddress;
    }
    let first = match address.to_socket_addrs(rt) {
        Ok(mut found) => found.next(),
        Err(_) => None,
    };
    match first {
        Some(first) => connected_cause(rt, &first),
        None => AddressCause::IsNoName,
    }
}

/// Why nobody answers at an address.
fn connected_cause(rt: &HostRuntime, address: &SocketAddr) -> AddressCause {
    match TcpStream::connect_timeout(rt, address, Duration::from_secs(PATIENCE)) {
        Ok(_) => AddressCause::IsOther,
        Err(error) => cause_of(&error),
    }
}

/// Why an address can't be bound.
pub(crate) fn bound_cause(rt: &HostRuntime, address: &str, port: u16) -> AddressCause {
    match TcpListener::bind(rt, (address, port)) {
        Ok(_) => AddressCause::IsOther,
        Err(error) => cause_of(&error),
    }
}

/// The cause for an error of the system.
fn cause_of(error: &io::Error) -> AddressCause {
    match system_error(error) {
        Some(error) => AddressCause::System(error),
        None if error.kind() == ErrorKind::TimedOut => AddressCause::IsLate,
        None => AddressCause::IsNoName,
    }
}
