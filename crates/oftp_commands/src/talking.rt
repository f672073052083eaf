//! A session of a life over a reader and a writer: what the session says is written, and what its partner sends is heard. Both are recorded before.

use crate::session_record::SessionRecord;
use oftp_contents::RecordSide;
use oftp_engine::{End, Port, Role, RunFault};
use oftp_life::{Guest, Life, LifeSession, Opening};
use oftp_outcomes::{Fault, plain};
use oftp_partners::Book;
use oftp_register::Office;
use oftp_requests::{
    Came, Need, Saying, Welcome, came_of, end_after, end_of_input, need_of, trouble_greeting,
    trouble_hearing, welcome_after,
};
use std::alloc::Global;
use std::io::{Read, Write};

/// How many octets of the partner are read at once, at most.
const PIECE: usize = 4_096;

/// What a session goes over, and its record.
#[derive(Drop)]
pub(crate) struct Wire<'r, R, W> {
    pub(crate) alloc: Global,
    pub(crate) reader: Port<R>,
    pub(crate) writer: Port<W>,
    pub(crate) record: &'r SessionRecord<'r>,
}

/// Who is there for a session, once that is recorded.
#[derive(Drop)]
enum Met<'b> {
    /// The partner who is called.
    Called,
    /// A caller who was let in.
    Guest(Guest<'b>),
    /// Nobody: the caller is gone, or was sent away.
    Nobody(End),
}

impl<R: Read, W: Write> Wire<'_, R, W> {
    /// Runs one session of a life to its end, and records it. Returns the life, and how the session ended.
    ///
    /// # Errors
    /// [`RunFault::Read`], [`RunFault::Write`] of the ports; [`RunFault::Office`], after which the life is over; [`Fault::MEMORY`];
    /// [`Fault::File`] if the record can't be written.
    pub(crate) fn run<'b, O: Office>(
        &mut self,
        life: Life<O>,
        book: &'b Book,
        role: Role<'b>,
    ) -> (Life<O>, Result<End, Fault>) {
        match self.meet(book, role) {
            Ok(Met::Called) => self.finish(life.begin(self.alloc, book, role)),
            Ok(Met::Guest(guest)) => self.finish(life.admit(self.alloc, guest)),
            Ok(Met::Nobody(end)) => (life, Ok(end)),
            Err(fault) => (life, Err(fault)),
        }
    }

    /// Finds out who is there for a session in a role, by a book.
    fn meet<'b>(&mut self, book: &'b Book, role: Role<'b>) -> Result<Met<'b>, Fault> {
        match role {
            Role::Initiator(partner) => {
                self.record.session(RecordSide::Initiator, Some(partner))?;
                Ok(Met::Called)
            }
            Role::Responder => self.welcome(book),
        }
    }

    /// Greets a caller, and lets it in or sends it away. Until then it needs no life.
    fn welcome<'b>(&mut self, book: &'b Book) -> Result<Met<'b>, Fault> {
        let mut opening = Opening::new(self.alloc, book);
        let mut heard = Vec::new(self.alloc);
        for _ in 0..u64::MAX {
            let said = opening.take_out(self.alloc);
            let saying = self.send(said.as_slice());
            match welcome_after(opening.admission(), saying) {
                Welcome::Undecided => {}
                Welcome::LetIn => return self.admitted(book, opening, heard.as_slice()),
                Welcome::SentAway(end) => return Ok(Met::Nobody(end)),
                Welcome::Failed(trouble) => return Err(trouble.fault()),
            }
            let mut piece = [0; PIECE];
            let came = came_of(self.reader.read(&mut piece));
            if let Some(ended) = end_of_input(came) {
                return Ok(Met::Nobody(plain(&ended)?));
            }
            let octets = piece.get(..came.count()).unwrap_or(&[]);
            heard.extend_from_slice(octets)?;
            if let Some(trouble) = trouble_greeting(opening.hear(octets)) {
                return Err(trouble.fault());
            }
        }
        Err(Fault::Run(RunFault::Read))
    }

    /// The guest that a caller is who was let in, and has sent these octets. Its session is recorded.
    fn admitted<'b>(
        &self,
        book: &'b Book,
        opening: Opening<'b>,
        heard: &[u8],
    ) -> Result<Met<'b>, Fault> {
        // Who was let in has a code of the book, and is a guest.
        if let Some(code) = opening.code() {
            let partner = book.partner(code.octets());
            self.record.session(RecordSide::Responder, partner)?;
        }
        self.record.heard(heard)?;
        match opening.into_guest() {
            Ok(guest) => Ok(Met::Guest(guest)),
            Err(_) => Ok(Met::Nobody(End::Input)),
        }
    }

    /// Lets a session and its partner talk to the end, which is recorded.
    fn finish<O: Office>(&mut self, session: LifeSession<'_, O>) -> (Life<O>, Result<End, Fault>) {
        let mut session = session;
        let ended = self.talk(&mut session);
        let ended = self.record.ended(self.alloc, ended);
        let (life, _) = session.end();
        (life, ended)
    }

    /// Lets a session and its partner talk, until one of them ends the session.
    fn talk<O: Office>(&mut self, session: &mut LifeSession<'_, O>) -> Result<End, Fault> {
        for _ in 0..u64::MAX {
            if let Some(end) = self.say(session)? {
                return Ok(end);
            }
            if let Some(end) = self.hear(session)? {
                return Ok(end);
            }
        }
        Err(Fault::Run(RunFault::Read))
    }

    /// Sends what the session has said. Returns how the session ended, if it did.
    ///
    /// # Errors
    /// The session was cut short; or the record or the writer returned an error.
    fn say<O: Office>(&mut self, session: &mut LifeSession<'_, O>) -> Result<Option<End>, Fault> {
        let said = session.take_out(self.alloc);
        self.record.said(said.as_slice(), session.stage())?;
        let saying = self.send(said.as_slice());
        end_after(session.stage(), saying)
    }

    /// Lets the session hear the next octets of its partner, or go on if it sends a file. Returns its end if there are no more octets.
    ///
    /// # Errors
    /// The reader or the record returned an error; or there is no memory for the octets.
    fn hear<O: Office>(&mut self, session: &mut LifeSession<'_, O>) -> Result<Option<End>, Fault> {
        let mut piece = [0; PIECE];
        let came = match need_of(Some(session.stage())) {
            Need::Octets => came_of(self.reader.read(&mut piece)),
            Need::Nothing => Came::Nothing,
        };
        if let Some(ended) = end_of_input(came) {
            return Ok(Some(plain(&ended)?));
        }
        let octets = piece.get(..came.count()).unwrap_or(&[]);
        self.record.heard(octets)?;
        let heard = session.hear(octets);
        match trouble_hearing(heard, session.stage()) {
            Some(trouble) => Err(trouble.fault()),
            None => Ok(None),
        }
    }

    /// Sends octets, if there are any.
    fn send(&mut self, octets: &[u8]) -> Saying {
        if octets.is_empty() || self.writer.send(octets) {
            Saying::Sent
        } else {
            Saying::Unsent
        }
    }
}
