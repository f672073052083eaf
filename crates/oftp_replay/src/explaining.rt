//! What partners did in the sessions of a record.

use crate::tape::{At, Tape, text_of};
use oftp_contents::{ContentFields, Listening, RecordSide};
use oftp_engine::{Refusal, RunFault};
use oftp_files::explained;
use oftp_notes::seen_line;
use oftp_outcomes::{DONE, FAILED, Fault, Outcome, tell, write_line};
use oftp_record::RecordKind;
use oftp_recording::{SessionPasswords, instead};
use std::alloc::Global;
use std::io::Write;

/// With what a station greets each caller, before there is a session to be recorded: the stream header, and SSRM (RFC 5024, section 5.3.1).
const GREETING: &[u8; 23] = b"\x10\0\0\x17IODETTE FTP READY \r";

/// What was read of the sessions that are asked for.
#[derive(Drop)]
struct Listener {
    alloc: Global,
    // The number of the sessions that are asked for; `None` for each.
    wanted: Option<u64>,
    // The number of the session that is read, if one is.
    reading: Option<u64>,
    // The line that says which session it is.
    title: String,
    heard: Vec<u8>,
    said: Vec<u8>,
    passwords: Option<SessionPasswords>,
    // How many sessions were told of, and of how many there was something to tell.
    sessions: u64,
    broken: u64,
}

/// Tells what partners did that RFC 5024 doesn't allow, or that this station doesn't take, in the sessions of the record in a folder: in those with a
/// number, or with `None` in each. A record that is cut off or was changed is told of, up to there. Returns the exit status: 1 if there was something
/// to tell, and that of a refusal if there is no such session.
///
/// # Errors
/// [`Fault::File`] if the record can't be read; [`Fault::Run`] if `out` returned an error; [`Fault::MEMORY`].
pub fn explain_record(
    rt: &HostRuntime,
    folder: &str,
    session: Option<u64>,
    out: &mut impl Write,
) -> Result<u8, Fault> {
    let mut tape = Tape::open(rt, folder)?;
    let mut listener = Listener::new(rt.alloc(), session);
    for _ in 0..u64::MAX {
        match tape.at() {
            At::End => break,
            At::Entry(kind) => listener.take(kind, tape.content(), out)?,
            At::Broken(damage) => {
                listener.close(out)?;
                let line = tape.told(damage.words())?;
                write_line(out, &line.as_str())?;
                return Ok(FAILED);
            }
        }
        tape.advance()?;
    }
    listener.close(out)?;
    listener.status(out)
}

impl Listener {
    /// Nothing was read yet.
    fn new(alloc: Global, wanted: Option<u64>) -> Listener {
        Listener {
            alloc,
            wanted,
            reading: None,
            title: String::new(alloc),
            heard: Vec::new(alloc),
            said: Vec::new(alloc),
            passwords: None,
            sessions: 0,
            broken: 0,
        }
    }

    /// Takes an entry.
    fn take(
        &mut self,
        kind: RecordKind,
        content: &[u8],
        out: &mut impl Write,
    ) -> Result<(), Fault> {
        let Some(fields) = ContentFields::of(content) else {
            return Ok(());
        };
        match Listening::at(kind, fields.number, self.wanted, self.reading) {
            Listening::Begins => {
                self.close(out)?;
                self.begin(&fields)
            }
            Listening::Hears => self.hear(fields.rest),
            Listening::Says => self.say(fields.rest),
            Listening::Closes | Listening::Opens => self.close(out),
            Listening::Passes => Ok(()),
        }
    }

    /// Takes what was heard.
    fn hear(&mut self, octets: &[u8]) -> Result<(), Fault> {
        let shown = match &mut self.passwords {
            Some(passwords) => passwords.show_heard(octets)?,
            None => None,
        };
        Ok(self.heard.extend_from_slice(instead(&shown, octets))?)
    }

    /// Takes what was said.
    fn say(&mut self, octets: &[u8]) -> Result<(), Fault> {
        let shown = match &mut self.passwords {
            Some(passwords) => passwords.show_said(octets)?,
            None => None,
        };
        Ok(self.said.extend_from_slice(instead(&shown, octets))?)
    }

    /// Begins a session.
    fn begin(&mut self, fields: &ContentFields<'_>) -> Result<(), Fault> {
        let partner = text_of(fields.first);
        let peer = text_of(fields.second);
        let number = fields.number;
        let title = format!(in self.alloc; "session {number}: {partner} {peer}")?;
        self.title = seen_line(self.alloc, title.as_str())?;
        self.reading = Some(number);
        let side = RecordSide::of_code(fields.code);
        if side == Some(RecordSide::Responder) {
            self.said.extend_from_slice(GREETING.as_slice())?;
        }
        self.passwords = match side {
            Some(side) => Some(SessionPasswords::stand_in(self.alloc, side)?),
            None => None,
        };
        self.sessions = self.sessions.saturating_add(1);
        Ok(())
    }

    /// Tells of the session that was read, if there is one.
    fn close(&mut self, out: &mut impl Write) -> Result<(), Fault> {
        if self.reading.is_none() {
            return Ok(());
        }
        self.reading = None;
        let lines = explained(
            self.alloc,
            self.heard.as_slice(),
            Some(self.said.as_slice()),
        )?;
        self.heard.clear();
        self.said.clear();
        if lines.is_empty() {
            return Ok(());
        }
        self.broken = self.broken.saturating_add(1);
        write_all(out, self.title.as_str())?;
        write_all(out, lines.as_str())
    }

    /// The exit status.
    fn status(&self, out: &mut impl Write) -> Result<u8, Fault> {
        if self.sessions == 0 && self.wanted.is_some() {
            return tell(Outcome::Refused(Refusal::Unknown), out);
        }
        Ok(if self.broken == 0 { DONE } else { FAILED })
    }
}

/// Writes lines.
fn write_all(out: &mut impl Write, lines: &str) -> Result<(), Fault> {
    match out.write_all(lines.as_bytes()) {
        Ok(()) => Ok(()),
        Err(_) => Err(Fault::Run(RunFault::Write)),
    }
}
