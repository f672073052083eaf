//! Who carries out the requests of a command: the database, which is opened for it, or the station that has it open.

use crate::recording::Recording;
use oftp_asking::Beside;
use oftp_channel::{Ending, Request};
use oftp_command_line::Files;
use oftp_database::{self as database, WatchedOffice};
use oftp_engine::{Operator, Port, RunFault};
use oftp_files::{EventFile, Noted, book_of, open_events};
use oftp_life::Life;
use oftp_outcomes::{Fault, Outcome};
use oftp_partners::Book;
use oftp_requests::{Again, Backend, changes_register, look_up, operate, resend};
use oftp_store::StoreFault;
use oftp_watching::{News, Occasion};
use std::alloc::Global;
use std::io::Write;
use std::mem;

/// What lets the database's files be copied.
const COPY: &[u8] = b"copy";

/// Where the events and the record of a command go, if it has the database itself.
#[derive(Clone, Copy)]
pub(crate) struct Telling<'t> {
    pub(crate) rt: &'t HostRuntime,
    /// Where events are noted.
    pub(crate) news: &'t News,
    /// The file to which they are appended, if there is one.
    pub(crate) path: Option<&'t str>,
    /// The file of the book, which isn't that file.
    pub(crate) book: &'t str,
    /// The folder of the record, if there is one.
    pub(crate) record: Option<&'t str>,
    /// The line with the sum of the program's sources, which the record has.
    pub(crate) sources: &'t str,
}

impl<'t> Telling<'t> {
    /// Where those of a command go that names these files.
    pub(crate) fn of(
        rt: &'t HostRuntime,
        files: &Files<'t>,
        sources: &'t str,
        news: &'t News,
    ) -> Telling<'t> {
        Telling {
            rt,
            news,
            path: files.events,
            book: files.book,
            record: files.record,
            sources,
        }
    }

    /// Where the record of a command goes that has no book, and writes its own event.
    pub(crate) fn of_record(
        rt: &'t HostRuntime,
        record: Option<&'t str>,
        sources: &'t str,
        news: &'t News,
    ) -> Telling<'t> {
        Telling {
            rt,
            news,
            path: None,
            book: "",
            record,
            sources,
        }
    }

    /// Where events are noted, if they are told.
    fn noting(self) -> Option<&'t News> {
        match self.path {
            Some(_) => Some(self.news),
            None => None,
        }
    }

    /// Opens the file of the events.
    ///
    /// # Errors
    /// Those of [`open_events`].
    fn opened(self, database: &str) -> Result<Option<EventFile<'t>>, Fault> {
        open_events(self.rt, self.path, self.news, &[self.book], Some(database))
    }
}

/// Who carries out the requests of a command.
#[derive(Drop)]
pub(crate) enum Backing<'a, 'b, 't> {
    /// The database, which is open and locked here.
    Own(Own<'b, 't>),
    /// The station that has it open.
    Station(Beside<'a>),
}

impl<'a, 'b, 't> Backing<'a, 'b, 't> {
    /// The station that runs over a database, or else the database, which is opened. After an error of the store, such as a locked database, a
    /// station that has started meanwhile is asked. Only the database itself writes events.
    ///
    /// # Errors
    /// Those of [`database::live_shared`], and of the events' file.
    pub(crate) fn opened(
        rt: &'a HostRuntime,
        database: &'a str,
        book: Option<&'b Book>,
        telling: Option<Telling<'t>>,
    ) -> Result<Backing<'a, 'b, 't>, Fault> {
        let wanted = Wanted {
            rt,
            database,
            book,
            telling,
        };
        wanted.opened()
    }
}

/// A database for which somebody is wanted who carries out requests, by a book if there is one.
#[derive(Clone, Copy)]
struct Wanted<'a, 'b, 't> {
    rt: &'a HostRuntime,
    database: &'a str,
    book: Option<&'b Book>,
    telling: Option<Telling<'t>>,
}

impl<'a, 'b, 't> Wanted<'a, 'b, 't> {
    /// The station that runs over it, or else the database.
    fn opened(self) -> Result<Backing<'a, 'b, 't>, Fault> {
        match Beside::reached(self.rt, self.database) {
            Some(station) => Ok(self.by_station(station)),
            None => {
                let life = database::live_shared(self.rt, self.database, self.noting());
                self.by_itself(life)
            }
        }
    }

    /// The database if it could be opened, or else a station that has started meanwhile.
    fn by_itself(
        self,
        opened: Result<Life<WatchedOffice<'t>>, Fault>,
    ) -> Result<Backing<'a, 'b, 't>, Fault> {
        match opened {
            Ok(life) => self.by_own(life),
            Err(fault) => self.after(fault),
        }
    }

    /// Where changes are noted, if events are written.
    fn noting(self) -> Option<&'t News> {
        self.telling?.noting()
    }

    /// The database, which is open.
    fn by_own(self, life: Life<WatchedOffice<'t>>) -> Result<Backing<'a, 'b, 't>, Fault> {
        let mut life = life;
        let events = match self.telling {
            Some(telling) => telling.opened(self.database)?,
            None => None,
        };
        let recording = match self.telling {
            Some(telling) => Recording::begun(telling, &mut life)?,
            None => None,
        };
        Ok(Backing::Own(Own {
            alloc: self.rt.alloc(),
            book: self.book,
            life,
            noted: Vec::new(self.rt.alloc()),
            events,
            recording,
        }))
    }

    /// The station.
    fn by_station(self, station: Beside<'a>) -> Backing<'a, 'b, 't> {
        Backing::Station(station)
    }

    /// The station that runs over the database, after it couldn't be opened for this error, if that is one of the store.
    fn after(self, fault: Fault) -> Result<Backing<'a, 'b, 't>, Fault> {
        let Fault::Store(StoreFault::Store) = fault else {
            return Err(fault);
        };
        match Beside::reached(self.rt, self.database) {
            Some(station) => Ok(self.by_station(station)),
            None => Err(fault),
        }
    }
}

impl Backend for Backing<'_, '_, '_> {
    fn ask(&mut self, request: &Request<'_>, out: &mut impl Write) -> Result<Ending, Fault> {
        match self {
            Backing::Own(own) => own.ask(request, out),
            Backing::Station(station) => station.ask(request, out),
        }
    }
}

/// A database that a command has opened, with the book that goes with its requests if it has read one. The events of a request are written
/// before the next one, or as the database is let go: its answer is out then. Its changes are recorded as they are made.
pub(crate) struct Own<'b, 't> {
    alloc: Global,
    book: Option<&'b Book>,
    life: Life<WatchedOffice<'t>>,
    // The events that are to be written.
    noted: Vec<Noted>,
    events: Option<EventFile<'t>>,
    recording: Option<Recording<'t>>,
}

impl Drop for Own<'_, '_> {
    fn drop(self) {
        let Own {
            alloc: _,
            book: _,
            life,
            noted,
            events,
            recording,
        } = self;
        let mut life = life;
        if let Some(events) = &events {
            events.tell_all(noted, &mut life);
        }
        if let Some(recording) = recording {
            recording.end(&mut life);
        }
    }
}

impl Own<'_, '_> {
    /// Notes the events of a request.
    fn note(&mut self) {
        if let Some(events) = &self.events {
            events.note_all(Occasion::Command, events.take(), &mut self.noted);
        }
    }

    /// Writes the events of the requests before.
    fn tell(&mut self) {
        let noted = mem::replace(&mut self.noted, Vec::new(self.alloc));
        if let Some(events) = &self.events {
            events.tell_all(noted, &mut self.life);
        }
    }

    /// Makes a change, and records it.
    fn change(&mut self, request: &Request<'_>) -> Result<Ending, Fault> {
        if let Some(recording) = &mut self.recording {
            recording.ask(self.alloc, request)?;
        }
        let ending = self.changed(request);
        self.note();
        if let Some(recording) = &self.recording {
            recording.answer(self.alloc, &ending)?;
        }
        ending
    }

    /// Makes a change.
    fn changed(&mut self, request: &Request<'_>) -> Result<Ending, Fault> {
        match *request {
            Request::Operate { book, call } => self.operate(book, &call),
            Request::Resend {
                book,
                no,
                date,
                time,
            } => self.resend(book, &Again { no, date, time }),
            _ => Err(Fault::Socket),
        }
    }

    /// Carries out an operator's call.
    fn operate(&mut self, book: &[u8], call: &Operator<'_>) -> Result<Ending, Fault> {
        let outcome = match self.book {
            Some(book) => operate(self.alloc, &mut self.life, book, call)?,
            None => {
                let book = book_of(self.alloc, book)?;
                operate(self.alloc, &mut self.life, &book, call)?
            }
        };
        Ok(Ending::Outcome(outcome))
    }

    /// Submits a file again.
    fn resend(&mut self, book: &[u8], again: &Again<'_>) -> Result<Ending, Fault> {
        let outcome = match self.book {
            Some(book) => resend(self.alloc, &mut self.life, book, again)?,
            None => {
                let book = book_of(self.alloc, book)?;
                resend(self.alloc, &mut self.life, &book, again)?
            }
        };
        Ok(Ending::Outcome(outcome))
    }
}

impl Backend for Own<'_, '_> {
    fn ask(&mut self, request: &Request<'_>, out: &mut impl Write) -> Result<Ending, Fault> {
        self.tell();
        if changes_register(request) {
            return self.change(request);
        }
        match *request {
            Request::Backup { to } => {
                if let Some(recording) = &self.recording {
                    recording.back_up(to, &mut self.life)?;
                }
                let_copy(out)
            }
            _ => look_up(self.alloc, &mut self.life, request, &mut Port::new(out, 0)),
        }
    }
}

/// Lets the database's files be copied, which are locked here.
fn let_copy(out: &mut impl Write) -> Result<Ending, Fault> {
    match out.write_all(COPY) {
        Ok(()) => Ok(Ending::Outcome(Outcome::BackedUp)),
        Err(_) => Err(Fault::Run(RunFault::Write)),
    }
}
