//! Playing a record over a register.

use crate::halting::{Halt, Halting};
use crate::player::{PlayedBook, Player};
use crate::tape::{At, Stop, Tape};
use oftp_command_line::Replay;
use oftp_contents::{Playing, RecordPart};
use oftp_engine::Refusal;
use oftp_life::Life;
use oftp_outcomes::{DONE, FAILED, Fault, Outcome, tell, write_line};
use oftp_partners::Book;
use oftp_progress::Gauge;
use oftp_record::RecordKind;
use oftp_register::Office;
use std::io::Write;
use std::mem;

/// The book that is named for the passwords.
#[derive(Clone, Copy)]
pub struct NamedBook<'a> {
    /// The book.
    pub book: &'a Book,
    /// Its octets.
    pub octets: &'a [u8],
}

/// Whoever opens the office over which a record is played: once, and again behind each kill of the station within what it did at once.
pub trait Opens {
    /// The office.
    type Office: Office + Drop;

    /// Opens the office. The one that was opened before is closed.
    ///
    /// # Errors
    /// Any. Nothing is played then.
    fn open(&mut self) -> Result<Self::Office, Fault>;
}

/// Plays a record over the register of an office. The station's books are in the record, without the passwords, which are taken from `named`, if a
/// book is named. It begins with the entry that the command line names, or else with the first that has the digest of the register. Writes what came
/// of it to `out`: that all is the same, or the first difference. Returns the exit status. It is refused if an entry is named by what is no place, or
/// isn't there.
///
/// # Errors
/// Those of [`Opens::open`]; [`Fault::File`] if the record can't be read; [`Fault::Run`] if the office failed, or `out` returned an error;
/// [`Fault::MEMORY`].
pub fn replay<P: Opens>(
    rt: &HostRuntime,
    line: &Replay<'_>,
    opens: &mut P,
    named: Option<NamedBook<'_>>,
    out: &mut impl Write,
) -> Result<u8, Fault> {
    let halt = Halt::new(rt.alloc())?;
    let life = begin(opens, &halt)?;
    let from = line.from.map(|text| text.as_bytes());
    let to = line.to.map(|text| text.as_bytes());
    let Some(part) = RecordPart::of_texts(from, to) else {
        return tell(Outcome::Refused(Refusal::Field), out);
    };
    let mut tape = Tape::open_part(rt, line.folder, part)?;
    tape.gauge = Some(Gauge::new(rt));
    let octets = named.map_or(&[] as &[u8], |named| named.octets);
    let mut player = Player::new(rt.alloc(), tape, halt, octets);
    let played = player.play_all(part, life, opens, named.map(|named| named.book));
    player.tape.finish();
    match played {
        Ok(()) => {
            let (sessions, calls) = player.counts();
            let line = format!(in rt.alloc(); "same: {sessions} sessions, {calls} calls")?;
            write_line(out, &line.as_str())?;
            Ok(DONE)
        }
        Err(Stop::Differs(what)) => {
            let line = player.tape.told(what)?;
            write_line(out, &line.as_str())?;
            Ok(FAILED)
        }
        Err(Stop::Unknown) => tell(Outcome::Refused(Refusal::Unknown), out),
        Err(Stop::Failed(fault)) => Err(fault),
    }
}

/// Opens the office, and begins a life with it, whose changes are made up to where `halt` says.
fn begin<P: Opens>(opens: &mut P, halt: &Halt) -> Result<Life<Halting<P::Office>>, Fault> {
    let office = opens.open()?;
    halt.turn();
    Ok(Life::new(Halting::new(office, halt.again()?)))
}

impl Player<'_> {
    /// Plays the entries of a part.
    fn play_all<P: Opens>(
        &mut self,
        part: RecordPart,
        life: Life<Halting<P::Office>>,
        opens: &mut P,
        book: Option<&Book>,
    ) -> Result<(), Stop> {
        let mut life = life;
        match part.from {
            Some(place) => self.pass_to(place)?,
            None => {
                let register = self.register(&mut life)?;
                self.find(&register)?;
            }
        }
        for _ in 0..u64::MAX {
            match self.tape.at() {
                At::End => return Ok(()),
                At::Broken(damage) => return Err(Stop::Differs(damage.words())),
                At::Entry(kind) => life = self.play_entry(kind, life, book)?,
            }
            if self.halt.lift() {
                drop(life);
                life = begin(opens, &self.halt)?;
            }
        }
        Ok(())
    }

    /// Plays an entry, or the session that begins with it. Returns the life.
    fn play_entry<O: Office + Drop>(
        &mut self,
        kind: RecordKind,
        life: Life<O>,
        book: Option<&Book>,
    ) -> Result<Life<O>, Stop> {
        let mut life = life;
        self.pass(kind);
        match Playing::at(kind) {
            Playing::Begins => return self.session_by_its_book(life, book),
            Playing::Compares => self.compare(&mut life)?,
            Playing::Calls => self.call(&mut life)?,
            Playing::Ends => self.compare_end()?,
            Playing::Strays => return Err(Stop::Differs("it belongs to no session")),
        }
        Ok(life)
    }

    /// Plays a session by the book of its station: the one that was named, or the one that the record has. Returns the life.
    fn session_by_its_book<O: Office + Drop>(
        &mut self,
        life: Life<O>,
        book: Option<&Book>,
    ) -> Result<Life<O>, Stop> {
        match mem::replace(&mut self.book, PlayedBook::Named) {
            PlayedBook::Named => match book {
                Some(book) => self.session(life, book),
                None => Err(Stop::Differs("the book")),
            },
            PlayedBook::Lacking => Err(Stop::Differs("the book")),
            PlayedBook::Recorded(recorded) => {
                let life = self.session(life, &recorded)?;
                self.book = PlayedBook::Recorded(recorded);
                Ok(life)
            }
        }
    }
}
