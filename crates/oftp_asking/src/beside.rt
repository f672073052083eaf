//! The station that has a command's database open, which is asked over its socket.

use crate::waiting::{Awaited, called_in};
use oftp_channel::{
    AnswerPart, Ending, ReadFault, Request, fits, read_part, read_ready, write_request,
};
use oftp_engine::{Port, RunFault};
use oftp_outcomes::Fault;
use oftp_requests::{Backend, GONE, changes_register};
use oftp_sockets::{Connection, SocketPlace};
use std::alloc::Global;
use std::io::{Read, Write};
use std::net::Shutdown;
use std::os::unix::net::UnixStream;

/// The station that runs over a database. Each request has its own connection.
#[derive(Drop)]
pub struct Beside<'a> {
    rt: &'a HostRuntime,
    database: &'a str,
    // The connection for the first request.
    connection: Option<Connection<'a>>,
}

impl<'a> Beside<'a> {
    /// The station that runs over a database, if one does.
    pub fn reached(rt: &'a HostRuntime, database: &'a str) -> Option<Beside<'a>> {
        let connection = connected(rt, database)?;
        Some(Beside {
            rt,
            database,
            connection: Some(connection),
        })
    }

    /// A connection for one request.
    fn connection(&mut self) -> Result<Connection<'a>, Fault> {
        match self.connection.take() {
            Some(connection) => Ok(connection),
            None => connected(self.rt, self.database).ok_or(GONE),
        }
    }
}

impl Backend for Beside<'_> {
    fn ask(&mut self, request: &Request<'_>, out: &mut impl Write) -> Result<Ending, Fault> {
        let mut connection = self.connection()?;
        if changes_register(request) {
            connection.sign();
        }
        exchange(self.rt, self.database, connection.stream(), request, out)
    }
}

/// A connection to the station that runs over a database, if one does.
fn connected<'a>(rt: &'a HostRuntime, database: &str) -> Option<Connection<'a>> {
    let place = SocketPlace::beside(rt, database).ok()?;
    Connection::open(rt, place).ok()
}

/// Sends a request over a connection, and receives its answer.
fn exchange<'s>(
    rt: &'s HostRuntime,
    database: &'s str,
    stream: &'s UnixStream,
    request: &Request<'_>,
    out: &mut impl Write,
) -> Result<Ending, Fault> {
    let called = called_in(rt.alloc(), request);
    let mut reader = Port::new(Awaited::new(rt, database, stream, called), u64::MAX);
    send(rt.alloc(), &mut reader, stream, request)?;
    receive(rt.alloc(), &mut reader, stream, request, out)
}

/// Sends a request, once the station will read it. A station that ends meanwhile reads no more of it, and its answer says so.
fn send<R: Read>(
    alloc: Global,
    reader: &mut Port<R>,
    stream: &UnixStream,
    request: &Request<'_>,
) -> Result<(), Fault> {
    read_ready(alloc, reader).map_err(fault_of)?;
    if !fits(request) {
        return Err(Fault::MEMORY);
    }
    let _ = write_request(&mut Port::new(stream, 0), request);
    Ok(())
}

/// Writes the pieces of an answer to `out` as they arrive. Returns its end.
fn receive<R: Read>(
    alloc: Global,
    reader: &mut Port<R>,
    stream: &UnixStream,
    request: &Request<'_>,
    out: &mut impl Write,
) -> Result<Ending, Fault> {
    for _ in 0..u64::MAX {
        match read_part(alloc, reader).map_err(fault_of)? {
            AnswerPart::End(Ending::Failed(fault)) => return Err(fault),
            AnswerPart::End(ending) => return Ok(ending),
            AnswerPart::Piece(_, octets) => {
                take_piece(stream, request, octets.as_slice(), out)?;
            }
        }
    }
    Err(GONE)
}

/// Writes a piece of an answer. That of a backup lets the database's files be copied, and the station is told once that is done.
fn take_piece(
    stream: &UnixStream,
    request: &Request<'_>,
    octets: &[u8],
    out: &mut impl Write,
) -> Result<(), Fault> {
    if out.write_all(octets).is_err() {
        return Err(Fault::Run(RunFault::Write));
    }
    if let Request::Backup { .. } = request {
        // A station that is gone needs no message.
        let _ = stream.shutdown(Shutdown::Write);
    }
    Ok(())
}

/// The error for an answer that can't be read.
fn fault_of(fault: ReadFault) -> Fault {
    match fault {
        ReadFault::Memory => Fault::MEMORY,
        ReadFault::Input | ReadFault::Form => GONE,
    }
}
