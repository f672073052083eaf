//! The sessions of a record that say something of a file.

use crate::bundle::{Bundle, hex_text};
use crate::tape::{At, Tape, text_of};
use oftp_contents::{ContentFields, Listening, RecordSide, sources_in, version_in};
use oftp_evidence::{Findings, SessionFacts, SessionParts, SideFinding, answered_after};
use oftp_files::{Counted, Head, Transcript};
use oftp_outcomes::Fault;
use oftp_record::RecordKind;
use oftp_recording::{SessionPasswords, instead, moment_text};
use oftp_register::{Identity, Side};
use oftp_telling::Sender;
use sha2::{Digest as Hashing, Sha256};
use std::alloc::{AllocError, Global};
use std::mem;

/// One side of a session that is read.
#[derive(Drop)]
struct ReadSide {
    sender: Sender,
    octets: Vec<u8>,
    parts: SessionParts,
    transcript: Transcript,
    // When it last answered the file; `None` if it didn't.
    answered: Option<u64>,
}

/// A session that is read.
#[derive(Drop)]
struct ReadSession {
    number: u64,
    partner: String,
    peer: String,
    begun: u64,
    // When the last entry of it was written, and how many days were begun then.
    ended: u64,
    days: usize,
    passwords: Option<SessionPasswords>,
    heard: ReadSide,
    said: ReadSide,
    // Both sides in words, and the DATA that are told once another command comes.
    words: String,
    counted: Option<Counted>,
}

/// A session that says something of the file.
#[derive(Drop)]
pub(crate) struct FoundSession {
    // Its place among these sessions, from 1 on: after each start of the station its own numbers begin anew.
    place: u64,
    partner: String,
    peer: String,
    begun: String,
    ended: String,
    heard: SessionParts,
    said: SessionParts,
    // The program's version and its sources by the record, and the sum of the book there.
    version: String,
    pub(crate) book: String,
}

/// What was found in a record.
#[derive(Drop)]
pub(crate) struct Search {
    alloc: Global,
    side: Side,
    file: Identity,
    reading: Option<ReadSession>,
    // By the last opening.
    version: String,
    book: String,
    /// The sessions that say something of the file, in their order.
    pub(crate) found: Vec<FoundSession>,
    /// How many days they need, and when the file was last answered.
    pub(crate) findings: Findings,
    /// What is wrong with the record, in a line.
    pub(crate) broken: Option<String>,
}

/// Reads the record in a folder, and writes the octets of each session that says something of a file of a side, and both of its sides in words.
///
/// # Errors
/// [`Fault::File`] if the record can't be read, or something can't be written; [`Fault::MEMORY`].
pub(crate) fn find_sessions(
    rt: &HostRuntime,
    folder: &str,
    side: Side,
    file: &Identity,
    bundle: &mut Bundle<'_>,
) -> Result<Search, Fault> {
    let mut tape = Tape::open(rt, folder)?;
    let mut search = Search::new(rt.alloc(), side, file);
    for _ in 0..u64::MAX {
        match tape.at() {
            At::End => break,
            At::Entry(kind) => search.take(kind, &tape, bundle)?,
            At::Broken(damage) => {
                search.broken = Some(tape.told(damage.words())?);
                break;
            }
        }
        tape.advance()?;
    }
    search.close(bundle)?;
    Ok(search)
}

impl ReadSide {
    /// Nothing was read of it.
    fn new(alloc: Global, sender: Sender, file: &Identity) -> ReadSide {
        ReadSide {
            sender,
            octets: Vec::new(alloc),
            parts: SessionParts::new(alloc, file.again()),
            transcript: Transcript::new(alloc),
            answered: None,
        }
    }

    /// What stands in front of its words.
    fn head(&self, moment: u64) -> Head {
        Head {
            sender: self.sender,
            time: i64::try_from(moment).ok(),
        }
    }

    /// Takes a piece.
    fn take(
        &mut self,
        piece: &[u8],
        moment: u64,
        counted: &mut Option<Counted>,
        words: &mut String,
    ) -> Result<(), AllocError> {
        let before = self.parts.found().len();
        self.parts.hear(piece)?;
        let parts = self.parts.found().get(before..).unwrap_or(&[]);
        self.answered = answered_after(self.answered, parts, moment);
        self.octets.extend_from_slice(piece)?;
        let head = self.head(moment);
        self.transcript.take(piece, head, counted, words)
    }

    /// What it says of the file.
    fn finding(&self) -> SideFinding<'_> {
        SideFinding {
            parts: self.parts.found(),
            answered: self.answered,
        }
    }

    /// Tells its end.
    fn end(
        &mut self,
        moment: u64,
        counted: &mut Option<Counted>,
        words: &mut String,
    ) -> Result<(), AllocError> {
        let head = self.head(moment);
        self.transcript.end(head, counted, words)
    }
}

impl ReadSession {
    /// A session that begins.
    fn begin(
        alloc: Global,
        fields: &ContentFields<'_>,
        moment: u64,
        file: &Identity,
    ) -> Result<ReadSession, AllocError> {
        let passwords = match RecordSide::of_code(fields.code) {
            Some(side) => Some(SessionPasswords::stand_in(alloc, side)?),
            None => None,
        };
        Ok(ReadSession {
            number: fields.number,
            partner: String::from_str(alloc, text_of(fields.first))?,
            peer: String::from_str(alloc, text_of(fields.second))?,
            begun: moment,
            ended: moment,
            days: 0,
            passwords,
            heard: ReadSide::new(alloc, Sender::Partner, file),
            said: ReadSide::new(alloc, Sender::Station, file),
            words: String::new(alloc),
            counted: None,
        })
    }

    /// Notes that an entry of it is read, at which a tape stands.
    fn reach(&mut self, tape: &Tape<'_>) {
        self.ended = tape.moment();
        self.days = tape.count();
    }

    /// What a piece that came or went is without the places of passwords, unless it is so as it is.
    fn shown(&mut self, sender: Sender, piece: &[u8]) -> Result<Option<Vec<u8>>, AllocError> {
        match (&mut self.passwords, sender) {
            (Some(passwords), Sender::Partner) => passwords.show_heard(piece),
            (Some(passwords), Sender::Station) => passwords.show_said(piece),
            (None, _) => Ok(None),
        }
    }

    /// Takes a piece that came or went.
    fn take(&mut self, sender: Sender, piece: &[u8], moment: u64) -> Result<(), AllocError> {
        let shown = self.shown(sender, piece)?;
        let piece = instead(&shown, piece);
        match sender {
            Sender::Partner => {
                self.heard
                    .take(piece, moment, &mut self.counted, &mut self.words)
            }
            Sender::Station => {
                self.said
                    .take(piece, moment, &mut self.counted, &mut self.words)
            }
        }
    }

    /// Tells its end.
    fn end(&mut self) -> Result<(), AllocError> {
        self.heard
            .end(self.ended, &mut self.counted, &mut self.words)?;
        self.said
            .end(self.ended, &mut self.counted, &mut self.words)
    }

    /// What the sessions before it and this one have of a file that goes this way; `None` if this one says nothing of it.
    fn findings(&self, before: Findings, way: Side) -> Option<Findings> {
        before.after(way, &self.heard.finding(), &self.said.finding(), self.days)
    }

    /// Writes its octets and its words.
    fn write(&self, alloc: Global, place: u64, bundle: &mut Bundle<'_>) -> Result<(), Fault> {
        write_part(alloc, place, "in", self.heard.octets.as_slice(), bundle)?;
        write_part(alloc, place, "out", self.said.octets.as_slice(), bundle)?;
        write_part(alloc, place, "txt", self.words.as_bytes(), bundle)
    }

    /// What stays of it, by this version of the program and the book with this sum.
    fn into_found(
        self,
        alloc: Global,
        place: u64,
        version: &str,
        book: &str,
    ) -> Result<FoundSession, AllocError> {
        let begun = moment_text(alloc, self.begun)?;
        let ended = moment_text(alloc, self.ended)?;
        let version = String::from_str(alloc, version)?;
        let book = String::from_str(alloc, book)?;
        let ReadSession {
            partner,
            peer,
            heard,
            said,
            ..
        } = self;
        Ok(FoundSession {
            place,
            partner,
            peer,
            begun,
            ended,
            heard: heard.into_parts(),
            said: said.into_parts(),
            version,
            book,
        })
    }
}

impl ReadSide {
    /// What it says of the file.
    fn into_parts(self) -> SessionParts {
        let ReadSide { parts, .. } = self;
        parts
    }
}

/// Writes a file of a session.
fn write_part(
    alloc: Global,
    place: u64,
    ending: &str,
    octets: &[u8],
    bundle: &mut Bundle<'_>,
) -> Result<(), Fault> {
    let name = format!(in alloc; "session-{place}.{ending}")?;
    bundle.put(name.as_str(), octets)
}

impl FoundSession {
    /// The version of the program by the record, and the sum of its sources if the record has it.
    pub(crate) fn program(&self) -> (&str, Option<&str>) {
        let text = self.version.as_str();
        let sources = sources_in(text).map(|sum| text_of(sum));
        (version_in(text), sources)
    }

    /// What is told of it.
    pub(crate) fn facts(&self) -> SessionFacts<'_> {
        SessionFacts {
            no: self.place,
            partner: self.partner.as_str(),
            peer: self.peer.as_str(),
            begun: self.begun.as_str(),
            ended: self.ended.as_str(),
            heard: self.heard.found(),
            said: self.said.found(),
        }
    }
}

impl Search {
    /// Nothing was read yet.
    fn new(alloc: Global, side: Side, file: &Identity) -> Search {
        Search {
            alloc,
            side,
            file: file.again(),
            reading: None,
            version: String::new(alloc),
            book: String::new(alloc),
            found: Vec::new(alloc),
            findings: Findings::none(),
            broken: None,
        }
    }

    /// Takes the entry at which a tape stands.
    fn take(
        &mut self,
        kind: RecordKind,
        tape: &Tape<'_>,
        bundle: &mut Bundle<'_>,
    ) -> Result<(), Fault> {
        let Some(fields) = ContentFields::of(tape.content()) else {
            return Ok(());
        };
        match Listening::at(kind, fields.number, None, self.number()) {
            Listening::Opens => {
                self.close(bundle)?;
                self.open(&fields)
            }
            Listening::Begins => {
                self.close(bundle)?;
                self.begin(&fields, tape)
            }
            Listening::Hears => self.hear(&fields, Sender::Partner, tape),
            Listening::Says => self.hear(&fields, Sender::Station, tape),
            Listening::Closes => self.end(tape, bundle),
            Listening::Passes => Ok(()),
        }
    }

    /// Takes an opening.
    fn open(&mut self, fields: &ContentFields<'_>) -> Result<(), Fault> {
        let mut hasher = Sha256::new();
        hasher.update(fields.rest);
        self.version = String::from_str(self.alloc, text_of(fields.first))?;
        self.book = hex_text(self.alloc, &hasher.finalize())?;
        Ok(())
    }

    /// Begins a session.
    fn begin(&mut self, fields: &ContentFields<'_>, tape: &Tape<'_>) -> Result<(), Fault> {
        let mut session = ReadSession::begin(self.alloc, fields, tape.moment(), &self.file)?;
        session.reach(tape);
        self.reading = Some(session);
        Ok(())
    }

    /// The number of the session that is read, if one is.
    fn number(&self) -> Option<u64> {
        let session = self.reading.as_ref()?;
        Some(session.number)
    }

    /// Takes a piece of the session that is read.
    fn hear(
        &mut self,
        fields: &ContentFields<'_>,
        sender: Sender,
        tape: &Tape<'_>,
    ) -> Result<(), Fault> {
        if let Some(session) = &mut self.reading {
            session.reach(tape);
            session.take(sender, fields.rest, tape.moment())?;
        }
        Ok(())
    }

    /// Ends the session that is read.
    fn end(&mut self, tape: &Tape<'_>, bundle: &mut Bundle<'_>) -> Result<(), Fault> {
        if let Some(session) = &mut self.reading {
            session.reach(tape);
        }
        self.close(bundle)
    }

    /// Keeps the session that was read, if there is one, and it says something of the file.
    fn close(&mut self, bundle: &mut Bundle<'_>) -> Result<(), Fault> {
        let Some(session) = mem::replace(&mut self.reading, None) else {
            return Ok(());
        };
        let Some(findings) = session.findings(self.findings, self.side) else {
            return Ok(());
        };
        self.findings = findings;
        self.keep(session, bundle)
    }

    /// Keeps a session.
    fn keep(&mut self, session: ReadSession, bundle: &mut Bundle<'_>) -> Result<(), Fault> {
        let mut session = session;
        session.end()?;
        let place = (self.found.len() as u64).saturating_add(1);
        session.write(self.alloc, place, bundle)?;
        let found = session.into_found(
            self.alloc,
            place,
            self.version.as_str(),
            self.book.as_str(),
        )?;
        self.found.push(found)?;
        Ok(())
    }
}
