//! What a command says on a terminal while it waits for the station.

use oftp_channel::{AnswerPart, Ending, Form, Request, read_part, read_ready, write_request};
use oftp_engine::Port;
use oftp_notes::Screen;
use oftp_progress::{TAKE_BACK, screen_of};
use oftp_sockets::SocketPlace;
use oftp_waiting::{call_line, pause_after, waiting_line};
use std::alloc::Global;
use std::io::{self, ErrorKind, Read, Write};
use std::os::unix::net::UnixStream;
use std::time::Duration;

/// How many seconds the station's status is waited for.
const SECONDS: u64 = 5;

/// A connection to the station, which says on a terminal for what its answer waits. What it said is taken back as soon as more comes.
#[derive(Drop)]
pub(crate) struct Awaited<'s> {
    rt: &'s HostRuntime,
    database: &'s str,
    stream: &'s UnixStream,
    // The code of the partner that is called, if one is.
    called: Option<String>,
    screen: Screen,
    // How often it was said.
    said: u64,
}

impl<'s> Awaited<'s> {
    /// A connection on which nothing was waited for. Where standard error is no terminal, it is read as any other.
    pub(crate) fn new(
        rt: &'s HostRuntime,
        database: &'s str,
        stream: &'s UnixStream,
        called: Option<String>,
    ) -> Awaited<'s> {
        let awaited = Awaited {
            rt,
            database,
            stream,
            called,
            screen: screen_of(rt),
            said: 0,
        };
        awaited.pause();
        awaited
    }

    /// Lets the next read wait until it is time to say something.
    fn pause(&self) {
        if self.screen == Screen::Terminal {
            let pause = Duration::from_secs(pause_after(self.said));
            let _ = self.stream.set_read_timeout(Some(pause));
        }
    }

    /// Says for what is waited.
    fn say(&mut self) {
        if let Some(line) = line_for(self.rt, self.database, self.called.as_ref()) {
            let mut terminal = self.rt.stderr();
            let _ = terminal.write_all(TAKE_BACK);
            let _ = terminal.write_all(line.as_str().trim_end().as_bytes());
        }
        self.said = self.said.saturating_add(1);
        self.pause();
    }

    /// Takes back what was said.
    fn take_back(&mut self) {
        if self.said > 0 {
            let mut terminal = self.rt.stderr();
            let _ = terminal.write_all(TAKE_BACK);
            self.said = 0;
            self.pause();
        }
    }
}

impl Read for Awaited<'_> {
    fn read(&mut self, piece: &mut [u8]) -> io::Result<usize> {
        for _ in 0..u64::MAX {
            let mut stream = self.stream;
            match stream.read(piece) {
                Err(error) if is_time(error.kind()) => self.say(),
                result => {
                    self.take_back();
                    return result;
                }
            }
        }
        Ok(0)
    }
}

/// The code of the partner for whose call a request asks, if it does and there is memory for it.
pub(crate) fn called_in(alloc: Global, request: &Request<'_>) -> Option<String> {
    match request {
        Request::Call { partner, .. } => String::from_str(alloc, partner).ok(),
        _ => None,
    }
}

/// Whether an error says that the time for a read is over.
fn is_time(kind: ErrorKind) -> bool {
    matches!(kind, ErrorKind::WouldBlock | ErrorKind::TimedOut)
}

/// The line that says what the station does. `None` if it doesn't tell.
fn line_for(rt: &HostRuntime, database: &str, called: Option<&String>) -> Option<String> {
    let status = status_of(rt, database)?;
    match called {
        Some(code) => call_line(rt.alloc(), status.as_slice(), code.as_str()).ok(),
        None => waiting_line(rt.alloc(), status.as_slice()).ok(),
    }
}

/// The status of the station over a database, as JSON, by a connection of its own.
fn status_of(rt: &HostRuntime, database: &str) -> Option<Vec<u8>> {
    let stream = SocketPlace::beside(rt, database).ok()?.connect(rt).ok()?;
    let pause = Duration::from_secs(SECONDS);
    stream.set_read_timeout(Some(pause)).ok()?;
    asked(rt, &stream)
}

/// The answer to a request for the status.
fn asked(rt: &HostRuntime, stream: &UnixStream) -> Option<Vec<u8>> {
    let mut reader = Port::new(stream, u64::MAX);
    read_ready(rt.alloc(), &mut reader).ok()?;
    let _ = write_request(&mut Port::new(stream, 0), &Request::Status(Form::Json));
    let mut text = Vec::new(rt.alloc());
    for _ in 0..u64::MAX {
        match read_part(rt.alloc(), &mut reader).ok()? {
            AnswerPart::End(Ending::Listed) => return Some(text),
            AnswerPart::End(_) => return None,
            AnswerPart::Piece(_, octets) => text.extend_from_slice(octets.as_slice()).ok()?,
        }
    }
    None
}
