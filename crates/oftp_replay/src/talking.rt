//! Playing a session.

use crate::player::Player;
use crate::tape::Stop;
use oftp_contents::{ContentFields, Doing, RecordSide, SaidOctets, Talking, is_joined};
use oftp_engine::{End, Role};
use oftp_files::book_of;
use oftp_life::{Life, LifeSession, Opening, Stage};
use oftp_outcomes::Fault;
use oftp_partners::{Book, Partner};
use oftp_recording::{SessionPasswords, instead, line_of_end};
use oftp_register::Office;
use oftp_requests::{Need, Welcome, need_of, welcome_of};
use std::alloc::Global;

/// What is wrong with octets that aren't those of the session.
const STRAY: &str = "it is no piece of the session";

/// A session that is played.
#[derive(Drop)]
struct Talk<'b, O: Office> {
    alloc: Global,
    number: u64,
    session: LifeSession<'b, O>,
    passwords: SessionPasswords,
    // What it has said as a record has that, and the record hasn't said yet.
    said: Vec<u8>,
}

impl Player<'_> {
    /// Plays the session at which the record stands. Returns the life.
    pub(crate) fn session<O: Office + Drop>(
        &mut self,
        life: Life<O>,
        book: &Book,
    ) -> Result<Life<O>, Stop> {
        let content = self.tape.copied(self.alloc)?;
        let Some(fields) = ContentFields::of(content.as_slice()) else {
            return Err(Stop::Differs("it is no session"));
        };
        self.tape.advance()?;
        if fields.rest.is_empty() {
            return self.session_by(life, book, &fields);
        }
        let lent = book_of(self.alloc, fields.rest)?;
        self.session_by(life, &lent, &fields)
    }

    /// Plays a session by a book.
    fn session_by<O: Office + Drop>(
        &mut self,
        life: Life<O>,
        book: &Book,
        fields: &ContentFields<'_>,
    ) -> Result<Life<O>, Stop> {
        match RecordSide::of_code(fields.code) {
            Some(RecordSide::Initiator) => {
                let Some(partner) = book.partner(fields.first) else {
                    return Err(Stop::Differs("the book has no such partner"));
                };
                let side = RecordSide::Initiator;
                let passwords = SessionPasswords::of_partner(self.alloc, side, Some(partner))?;
                let session = life.begin(self.alloc, book, Role::Initiator(partner));
                self.play(
                    Talk::new(self.alloc, fields.number, session, passwords),
                    &[],
                )
            }
            Some(RecordSide::Responder) => {
                let partner = book.partner(fields.first);
                self.admitted(life, book, fields.number, partner)
            }
            None => Err(Stop::Differs("it is no session")),
        }
    }

    /// Plays a session with a caller, this partner, who is let in by the octets that were heard first. Without them it was never begun.
    fn admitted<O: Office + Drop>(
        &mut self,
        life: Life<O>,
        book: &Book,
        number: u64,
        partner: Option<&Partner>,
    ) -> Result<Life<O>, Stop> {
        match self.talking(number) {
            Some(Talking::Hears) => {}
            Some(Talking::Strays) => return Err(Stop::Differs(STRAY)),
            _ => return Ok(life),
        }
        let content = self.tape.copied(self.alloc)?;
        let Some(fields) = ContentFields::of(content.as_slice()) else {
            return Err(Stop::Differs(STRAY));
        };
        let mut passwords = SessionPasswords::of_partner(
            self.alloc,
            RecordSide::Responder,
            partner,
        )?;
        let shown = passwords.show_heard(fields.rest)?;
        let octets = instead(&shown, fields.rest);
        let mut opening = Opening::new(self.alloc, book);
        drop(opening.take_out(self.alloc));
        let count = let_in(&mut opening, octets)?;
        let Ok(guest) = opening.into_guest() else {
            return Err(Stop::Differs("the caller isn't let in"));
        };
        let rest = self.joined(octets.get(count..).unwrap_or(&[]))?;
        let session = life.admit(self.alloc, guest);
        self.play(
            Talk::new(self.alloc, number, session, passwords),
            rest.as_slice(),
        )
    }

    /// Plays a session to its end, which hears these octets first. Returns the life.
    fn play<O: Office + Drop>(
        &mut self,
        talk: Talk<'_, O>,
        octets: &[u8],
    ) -> Result<Life<O>, Stop> {
        let mut talk = talk;
        self.sessions = self.sessions.saturating_add(1);
        if !octets.is_empty() {
            self.hear_on(&mut talk, octets)?;
        }
        for _ in 0..u64::MAX {
            match self.talking(talk.number) {
                Some(Talking::Hears) => self.hear(&mut talk)?,
                Some(Talking::Compares) => self.compare_said(&mut talk)?,
                Some(Talking::OtherEnds) => self.compare_end()?,
                Some(Talking::Strays) => return Err(Stop::Differs(STRAY)),
                Some(Talking::Ends) => {
                    self.keep_line(&mut talk)?;
                    self.compare_end()?;
                    break;
                }
                Some(Talking::Settles) => {
                    self.settle(&mut talk, &[])?;
                    break;
                }
                Some(Talking::Leaves) | None => break,
            }
        }
        self.keep_line(&mut talk)?;
        let Talk { session, .. } = talk;
        let (life, _) = session.end();
        Ok(life)
    }

    /// Lets a session hear the octets at which the record stands.
    fn hear<O: Office + Drop>(&mut self, talk: &mut Talk<'_, O>) -> Result<(), Stop> {
        let content = self.tape.copied(self.alloc)?;
        let Some(fields) = ContentFields::of(content.as_slice()) else {
            return Err(Stop::Differs(STRAY));
        };
        let octets = self.joined(fields.rest)?;
        let shown = talk.passwords.show_heard(octets.as_slice())?;
        self.hear_on(talk, instead(&shown, octets.as_slice()))
    }

    /// These octets of the piece at which the record stands, and the other pieces behind it of what was heard at once. The record goes on behind them.
    fn joined(&mut self, first: &[u8]) -> Result<Vec<u8>, Stop> {
        let piece = self.tape.piece();
        let mut octets = Vec::from_slice(self.alloc, first).map_err(Fault::from)?;
        self.tape.advance()?;
        for _ in 0..u64::MAX {
            if !is_joined(piece, self.tape.piece()) {
                break;
            }
            let Some(fields) = ContentFields::of(self.tape.content()) else {
                break;
            };
            octets.extend_from_slice(fields.rest).map_err(Fault::from)?;
            self.tape.advance()?;
        }
        Ok(octets)
    }

    /// Lets a session hear octets, behind which the record stands. At its end nothing says that they were heard.
    fn hear_on<O: Office + Drop>(
        &mut self,
        talk: &mut Talk<'_, O>,
        octets: &[u8],
    ) -> Result<(), Stop> {
        match Doing::before(self.tape.kind()) {
            Doing::Done => talk.go_on(octets),
            Doing::Untold => Ok(()),
            Doing::ByRegister => self.settle(talk, octets),
        }
    }

    /// Lets a session hear the last octets before the station was killed, and makes its changes up to the register of the opening behind them.
    fn settle<O: Office + Drop>(
        &mut self,
        talk: &mut Talk<'_, O>,
        octets: &[u8],
    ) -> Result<(), Stop> {
        self.halt.set(self.tape.register());
        talk.go_on(octets)?;
        talk.send()
    }

    /// Compares the octets that went out with those that the session says.
    fn compare_said<O: Office + Drop>(&mut self, talk: &mut Talk<'_, O>) -> Result<(), Stop> {
        let content = self.tape.copied(self.alloc)?;
        let Some(fields) = ContentFields::of(content.as_slice()) else {
            return Err(Stop::Differs(STRAY));
        };
        if talk.says(fields.rest)? {
            Ok(self.tape.advance()?)
        } else {
            Err(Stop::Differs("the octets that went out"))
        }
    }

    /// What the session with a number does at the entry at which the record stands, if it stands at one.
    fn talking(&self, own: u64) -> Option<Talking> {
        let kind = self.tape.kind()?;
        Some(Talking::at(kind, self.tape.number(), own))
    }

    /// Keeps the line of a session, if it has ended by itself.
    fn keep_line<O: Office + Drop>(&mut self, talk: &mut Talk<'_, O>) -> Result<(), Stop> {
        match talk.line()? {
            Some(line) => self.keep(talk.number, line),
            None => Ok(()),
        }
    }
}

/// Lets an opening hear octets until its caller is let in, or sent away. Returns how many it has heard.
fn let_in(opening: &mut Opening<'_>, octets: &[u8]) -> Result<usize, Stop> {
    for (place, octet) in octets.iter().enumerate() {
        match welcome_of(opening.hear(&[*octet])) {
            Welcome::Undecided => {}
            Welcome::LetIn | Welcome::SentAway(_) => return Ok(place.saturating_add(1)),
            Welcome::Failed(_) => return Err(Stop::Failed(Fault::MEMORY)),
        }
    }
    Ok(octets.len())
}

impl<'b, O: Office + Drop> Talk<'b, O> {
    /// A session that has said nothing yet.
    fn new(
        alloc: Global,
        number: u64,
        session: LifeSession<'b, O>,
        passwords: SessionPasswords,
    ) -> Talk<'b, O> {
        Talk {
            alloc,
            number,
            session,
            passwords,
            said: Vec::new(alloc),
        }
    }

    /// Lets the session hear octets.
    fn hear(&mut self, octets: &[u8]) -> Result<(), Stop> {
        let _ = self.session.hear(octets);
        self.pull()
    }

    /// Takes what the session has said, as a record has it.
    fn pull(&mut self) -> Result<(), Stop> {
        let said = self.session.take_out(self.alloc);
        let hidden = self.passwords.hide_said(said.as_slice())?;
        match self
            .said
            .extend_from_slice(instead(&hidden, said.as_slice()))
        {
            Ok(()) => Ok(()),
            Err(_) => Err(Stop::Failed(Fault::MEMORY)),
        }
    }

    /// Lets the session go on as far as it goes, and then hear octets.
    fn go_on(&mut self, octets: &[u8]) -> Result<(), Stop> {
        self.send()?;
        self.hear(octets)
    }

    /// Lets the session go on that sends a file, as far as it goes without more octets.
    fn send(&mut self) -> Result<(), Stop> {
        for _ in 0..u64::MAX {
            match need_of(Some(self.session.stage())) {
                Need::Nothing => self.hear(&[])?,
                Need::Octets => break,
            }
        }
        Ok(())
    }

    /// Whether the session says these octets next. They are taken then.
    fn says(&mut self, octets: &[u8]) -> Result<bool, Stop> {
        self.pull()?;
        for _ in 0..u64::MAX {
            let need = need_of(Some(self.session.stage()));
            match (SaidOctets::at(self.said.as_slice(), octets), need) {
                (SaidOctets::Fewer, Need::Nothing) => self.hear(&[])?,
                (SaidOctets::Fewer, Need::Octets) | (SaidOctets::Other, _) => break,
                (SaidOctets::Same, _) => {
                    let _ = self.said.drain(..octets.len());
                    return Ok(true);
                }
            }
        }
        Ok(false)
    }

    /// The line of the session, if it has ended by itself.
    fn line(&mut self) -> Result<Option<String>, Stop> {
        match self.session.stage() {
            Stage::Ended(ending) => match line_of_end(self.alloc, &Ok(End::from(ending))) {
                Ok(line) => Ok(Some(line)),
                Err(_) => Err(Stop::Failed(Fault::MEMORY)),
            },
            _ => Ok(None),
        }
    }
}
