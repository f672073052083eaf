//! Sockets by address.

use oftp_outcomes::Fault;
use std::io::{self, ErrorKind};
use std::net::TcpListener;

/// The error of a system without memory for a socket (ENOBUFS).
const NO_BUFFERS: i32 = 105;

/// The errors of accept after which the listener still works, by Linux's numbers. The caller is gone or was rejected (EPERM, ENONET,
/// EPROTO, ENOPROTOOPT, EOPNOTSUPP, ENETDOWN, ENETUNREACH, ECONNABORTED, ECONNRESET, ETIMEDOUT, EHOSTDOWN, EHOSTUNREACH). Or there is no
/// descriptor or memory for it now (ENOMEM, ENFILE, EMFILE, ENOBUFS).
const PASSING: [i32; 16] = [
    1, 64, 71, 92, 95, 100, 101, 103, 104, 110, 112, 113, 12, 23, 24, NO_BUFFERS,
];

/// Those of them for which there is no descriptor or memory now.
const SHORT: [i32; 4] = [12, 23, 24, NO_BUFFERS];

/// Listens on a port of one of the machine's addresses. The port can be bound again at once.
///
/// # Errors
/// [`Fault::Socket`] if it can't be bound; [`Fault::MEMORY`].
pub fn bound(rt: &HostRuntime, address: &str, port: u16) -> Result<TcpListener, Fault> {
    TcpListener::bind(rt, (address, port)).map_err(|error| socket_fault(&error))
}

/// Whether accept may be called again after this error.
pub fn passes(error: &io::Error) -> bool {
    match error.raw_os_error() {
        Some(number) => PASSING.contains(&number),
        None => false,
    }
}

/// Whether the system had no descriptor or no memory for a connection. It may have one later.
pub fn is_short(error: &io::Error) -> bool {
    match error.raw_os_error() {
        Some(number) => SHORT.contains(&number),
        None => false,
    }
}

/// The error for a failed socket operation: [`Fault::MEMORY`] if memory or the system's buffers ran out, or [`Fault::Socket`].
pub fn socket_fault(error: &io::Error) -> Fault {
    if error.kind() == ErrorKind::OutOfMemory || error.raw_os_error() == Some(NO_BUFFERS) {
        Fault::MEMORY
    } else {
        Fault::Socket
    }
}
