//! What was played so far, and the ends of sessions and calls that are still to be compared.

use crate::halting::Halt;
use crate::tape::{At, Stop, Tape};
use oftp_contents::{
    BookTurn, ContentFields, Doing, EndCause, EndLine, EntryPlace, known_behind, shown_book,
    was_made,
};
use oftp_files::book_of;
use oftp_life::Life;
use oftp_outcomes::Fault;
use oftp_partners::Book;
use oftp_record::RecordKind;
use oftp_recording::{Digest, end_for, line_of_end};
use oftp_register::Office;
use oftp_requests::Asked;
use std::alloc::Global;

/// The line of a session or a call that is over.
#[derive(Drop)]
struct Ended {
    job: u64,
    line: String,
}

/// By which book sessions are played.
#[derive(Drop)]
pub(crate) enum PlayedBook {
    /// The one that was named.
    Named,
    /// The one by which the station was started, with passwords of the one that was named.
    Recorded(Book),
    /// None: that one has a password that the one that was named lacks.
    Lacking,
}

/// A record that is played.
#[derive(Drop)]
pub(crate) struct Player<'a> {
    pub(crate) alloc: Global,
    pub(crate) tape: Tape<'a>,
    /// Up to which register its office makes changes, and the digests of its registers.
    pub(crate) halt: Halt,
    // The octets of the book that was named.
    octets: &'a [u8],
    /// By which book sessions are played.
    pub(crate) book: PlayedBook,
    pub(crate) sessions: u64,
    calls: u64,
    ended: Vec<Ended>,
    // The digest of the register, as far as it was worked out since an entry behind which the register may be another one.
    register: Option<Digest>,
}

impl<'a> Player<'a> {
    /// A record of which nothing was played.
    pub(crate) fn new(alloc: Global, tape: Tape<'a>, halt: Halt, octets: &'a [u8]) -> Player<'a> {
        Player {
            alloc,
            tape,
            halt,
            octets,
            book: PlayedBook::Named,
            sessions: 0,
            calls: 0,
            ended: Vec::new(alloc),
            register: None,
        }
    }

    /// Forgets the digest of the register, if that may be another one behind an entry of this kind.
    pub(crate) fn pass(&mut self, kind: RecordKind) {
        self.register = known_behind(kind, self.register);
    }

    /// The digest of the register.
    pub(crate) fn register<O: Office>(&mut self, life: &mut Life<O>) -> Result<Digest, Stop> {
        if let Some(register) = self.register {
            return Ok(register);
        }
        let register = self.halt.register(life)?;
        self.register = Some(register);
        Ok(register)
    }

    /// How many sessions and calls were played.
    pub(crate) fn counts(&self) -> (u64, u64) {
        (self.sessions, self.calls)
    }

    /// Goes on to the entry with the digest of a register.
    pub(crate) fn find(&mut self, register: &Digest) -> Result<(), Stop> {
        for _ in 0..u64::MAX {
            if self.tape.register() == Some(*register) {
                return Ok(());
            }
            match self.tape.at() {
                At::Entry(kind) => self.skip(kind)?,
                At::End => return Err(Stop::Differs("no entry has the register of the database")),
                At::Broken(damage) => return Err(Stop::Differs(damage.words())),
            }
        }
        Ok(())
    }

    /// Goes on to the entry at a place.
    pub(crate) fn pass_to(&mut self, place: EntryPlace) -> Result<(), Stop> {
        for _ in 0..u64::MAX {
            match self.tape.at() {
                At::Entry(_) if self.tape.place() == place => return Ok(()),
                At::Entry(kind) => self.skip(kind)?,
                At::End => return Err(Stop::Unknown),
                At::Broken(damage) => return Err(Stop::Differs(damage.words())),
            }
        }
        Ok(())
    }

    /// Passes over an entry of this kind. The book of an opening is that of the sessions behind it.
    fn skip(&mut self, kind: RecordKind) -> Result<(), Stop> {
        if kind == RecordKind::Opening {
            self.take_book()?;
        }
        Ok(self.tape.advance()?)
    }

    /// Compares the register with that of an opening, a backup or a mark. The book of an opening is that of the sessions behind it.
    pub(crate) fn compare<O: Office>(&mut self, life: &mut Life<O>) -> Result<(), Stop> {
        let Some(wanted) = self.tape.register() else {
            return Err(Stop::Differs("it is none that a station records"));
        };
        if self.register(life)? != wanted {
            return Err(Stop::Differs("the register"));
        }
        if self.tape.at() == At::Entry(RecordKind::Opening) {
            self.take_book()?;
            if let PlayedBook::Lacking = self.book {
                return Err(Stop::Differs("the book"));
            }
        }
        Ok(self.tape.advance()?)
    }

    /// Takes the book of the opening at which the record stands. That of a command has none.
    fn take_book(&mut self) -> Result<(), Stop> {
        let Some(fields) = ContentFields::of(self.tape.content()) else {
            return Ok(());
        };
        let shown = shown_book(self.alloc, fields.rest, fields.number, self.octets)?;
        let shown = shown.as_ref().map(|text| text.as_slice());
        match BookTurn::behind(fields.rest, shown, self.octets) {
            BookTurn::Stays => {}
            BookTurn::Named => self.book = PlayedBook::Named,
            BookTurn::Recorded => {
                let book = book_of(self.alloc, shown.unwrap_or(&[]))?;
                self.book = PlayedBook::Recorded(book);
            }
            BookTurn::Lacking => self.book = PlayedBook::Lacking,
        }
        Ok(())
    }

    /// Makes an operator's call again. One behind which the station was killed may have been made or not.
    pub(crate) fn call<O: Office>(&mut self, life: &mut Life<O>) -> Result<(), Stop> {
        let content = self.tape.copied(self.alloc)?;
        let Some(fields) = ContentFields::of(content.as_slice()) else {
            return Err(Stop::Differs("it is no call"));
        };
        let Some(asked) = Asked::of(self.alloc, fields.rest) else {
            return Err(Stop::Differs("it is no call"));
        };
        self.tape.advance()?;
        if !self.was_done(life)? {
            return Ok(());
        }
        let made = asked.change(self.alloc, life);
        let line = made.line(self.alloc)?;
        self.calls = self.calls.saturating_add(1);
        self.keep(fields.number, line)
    }

    /// Whether that was done which the record has last before this place: not where the record ends there, or the station was killed with the
    /// register that it had before.
    fn was_done<O: Office>(&mut self, life: &mut Life<O>) -> Result<bool, Stop> {
        match Doing::before(self.tape.kind()) {
            Doing::Done => Ok(true),
            Doing::Untold => Ok(false),
            Doing::ByRegister => {
                let now = self.halt.register(life)?;
                Ok(was_made(self.tape.register(), now))
            }
        }
    }

    /// Keeps the line of a session or a call that is over, until its end is read.
    pub(crate) fn keep(&mut self, job: u64, line: String) -> Result<(), Stop> {
        self.ended.retain(|ended| ended.job != job);
        match self.ended.push(Ended { job, line }) {
            Ok(()) => Ok(()),
            Err(_) => Err(Stop::Failed(Fault::MEMORY)),
        }
    }

    /// Compares the end of a session or a call that is over.
    pub(crate) fn compare_end(&mut self) -> Result<(), Stop> {
        let content = self.tape.copied(self.alloc)?;
        let Some(fields) = ContentFields::of(content.as_slice()) else {
            return Err(Stop::Differs("it is no end"));
        };
        let Some(cause) = EndCause::of_code(fields.code) else {
            return Err(Stop::Differs("it is no end"));
        };
        let wanted = EndLine::of(cause);
        let line = match wanted {
            EndLine::OfCause => cause_line(self.alloc, cause)?,
            EndLine::Played | EndLine::Any => self.take(fields.number),
        };
        let line = line.as_ref().map(|line| line.as_bytes());
        if wanted.is(line, fields.first) {
            Ok(self.tape.advance()?)
        } else {
            Err(Stop::Differs("the line"))
        }
    }

    /// The line that was kept of a session or a call.
    fn take(&mut self, job: u64) -> Option<String> {
        let place = self.ended.iter().position(|ended| ended.job == job)?;
        let Ended { line, .. } = self.ended.remove(place);
        Some(line)
    }
}

/// The line of a session that ended for a cause, if that alone determines it.
fn cause_line(alloc: Global, cause: EndCause) -> Result<Option<String>, Stop> {
    let Some(ended) = end_for(cause) else {
        return Ok(None);
    };
    match line_of_end(alloc, &ended) {
        Ok(line) => Ok(Some(line)),
        Err(_) => Err(Stop::Failed(Fault::MEMORY)),
    }
}
