//! The requests of commands, and what is told and answered of each.

ghost use Rattle.std.specs.Prelude.{◌≡◌, IfOk};
ghost use Rattle.oftp_channel.specs.Asked.{words_of};
ghost use Rattle.oftp_channel.specs.Requests.{spelled_request};

use crate::asking::{look_up, operate};
use crate::judging::{asking_of, signal_of};
use crate::made::Made;
use crate::resending::{Again, resend};
use crate::sought::{Sought, sought_of};
use oftp_channel::{Ending, Haste, Request, Tracing, fits, read_request, write_request};
use oftp_contents::without_passwords;
use oftp_engine::{Port, Refusal};
use oftp_files::book_of;
use oftp_life::Life;
use oftp_outcomes::{Fault, Outcome};
use oftp_partners::{self as partners, Book};
use oftp_register::Office;
use oftp_schedule::connection::{Partner, Signal};
use oftp_schedule::durations::{millis, pause_of, wait_of};
use std::alloc::Global;

/// The number of a partner whom a command calls. No partner that the clock calls has it.
const OF_NO_CLOCK: u32 = u32::MAX;

/// The request of a command, as its words.
#[derive(Drop)]
pub struct Asked {
    words: Vec<Vec<u8>>,
}

/// What a command asks of the station itself.
#[derive(Clone, Copy)]
pub enum Order {
    /// To end.
    Stop(Haste),
    /// To read its book again.
    Reload,
}

/// A call that a command or the clock wants.
#[derive(Drop)]
pub struct Wanted {
    pub partner: Partner,
    pub code: String,
    pub address: String,
    pub tracing: Tracing,
}

impl Wanted {
    /// A call of a partner with this code in its book, of which the schedule is told so much.
    ///
    /// # Errors
    /// [`Fault::MEMORY`].
    pub fn of(
        alloc: Global,
        called: Partner,
        code: &str,
        partner: &partners::Partner,
        tracing: Tracing,
    ) -> Result<Wanted, Fault> {
        let address = partner.address.as_str();
        Ok(Wanted {
            partner: called,
            code: String::from_str(alloc, code)?,
            address: String::from_str(alloc, address)?,
            tracing,
        })
    }
}

impl Asked {
    /// Reads a request. `None` if the octets aren't exactly one, or memory runs out.
    pub fn of(alloc: Global, octets: &[u8]) -> Option<Asked> {
        let mut reader = Port::new(octets, octets.len() as u64);
        let words = read_request(alloc, &mut reader).ok()?;
        if reader.inner().is_empty() && Request::of(words.as_slice()).is_some() {
            Some(Asked { words })
        } else {
            None
        }
    }

    /// The request.
    fn request(&self) -> Option<Request<'_>> {
        Request::of(self.words.as_slice())
    }

    /// Its octets, as a record has them ([`recorded_request`]).
    ///
    /// # Errors
    /// [`Fault::MEMORY`].
    pub fn recorded(&self, alloc: Global) -> Result<Vec<u8>, Fault> {
        match self.request() {
            Some(request) => recorded_request(alloc, &request),
            None => Err(Fault::MEMORY),
        }
    }

    /// The path of the copy that it asks for, if it does: a backup.
    pub fn copy_to(&self) -> Option<&str> {
        match self.request() {
            Some(Request::Backup { to }) => Some(to),
            _ => None,
        }
    }

    /// What it asks of the station itself, if it does.
    pub fn order(&self) -> Option<Order> {
        match self.request() {
            Some(Request::Stop(haste)) => Some(Order::Stop(haste)),
            Some(Request::Reload) => Some(Order::Reload),
            _ => None,
        }
    }

    /// What the schedule of a station with this book is told of it.
    pub fn signal(&self, book: &Book) -> Signal {
        match self.request() {
            Some(request) => signal_of(asking_of(&request), called_in(book, &request)),
            None => Signal::Rejected,
        }
    }

    /// The call of a partner of this book that it asks for.
    ///
    /// # Errors
    /// [`Fault::Socket`] if it asks for none, or the book has no such partner; [`Fault::MEMORY`].
    pub fn wanted(&self, alloc: Global, book: &Book) -> Result<Wanted, Fault> {
        match self.request() {
            Some(
                Request::Call {
                    partner: code,
                    patience,
                    longest,
                    tracing,
                },
            ) => {
                let Some(partner) = book.partner(code.as_bytes()) else {
                    return Err(Fault::Socket);
                };
                let called = partner_of(book, OF_NO_CLOCK, partner, patience, longest);
                Wanted::of(alloc, called, code, partner, tracing)
            }
            _ => Err(Fault::Socket),
        }
    }

    /// Looks up what it asks for.
    pub fn look<O: Office>(&self, alloc: Global, office: &mut O) -> Made {
        let mut out = Port::new(Vec::new(alloc), 0);
        let ending = match self.request() {
            // It is looked up only if the station's book has no such partner.
            Some(Request::Call { .. }) => Ok(Ending::Outcome(Outcome::Refused(Refusal::Unknown))),
            Some(request) => look_up(alloc, office, &request, &mut out),
            None => Err(Fault::MEMORY),
        };
        Made::of(alloc, out.into_inner().as_slice(), ending)
    }

    /// What it asks for of the station itself.
    pub fn sought(&self) -> Option<Sought> {
        sought_of(&self.request()?)
    }

    /// Makes the change that it asks for.
    pub fn change<O: Office>(&self, alloc: Global, life: &mut Life<O>) -> Made {
        Made::of(alloc, &[], self.operated(alloc, life))
    }

    /// Carries out what it asks for that is an operator's call.
    fn operated<O: Office>(&self, alloc: Global, life: &mut Life<O>) -> Result<Ending, Fault> {
        match self.request() {
            Some(Request::Operate { book, call }) => {
                let book = book_of(alloc, book)?;
                let outcome = operate(alloc, life, &book, &call)?;
                Ok(Ending::Outcome(outcome))
            }
            Some(
                Request::Resend {
                    book,
                    no,
                    date,
                    time,
                },
            ) => {
                let book = book_of(alloc, book)?;
                let outcome = resend(alloc, life, &book, &Again { no, date, time })?;
                Ok(Ending::Outcome(outcome))
            }
            _ => Err(Fault::Socket),
        }
    }
}

/// The octets of a request, as they go over the channel.
///
/// # Errors
/// [`Fault::MEMORY`], also if the request is longer than one may be.
pub fn request_octets(alloc: Global, request: &Request<'_>) -> Result<Vec<u8>, Fault>
    ensures { IfOk result (λ octets. octets.items ≡ spelled_request (words_of request.now)) }
{
    let mut port = Port::new(Vec::new(alloc), 0);
    if fits(request) && write_request(&mut port, request) {
        Ok(port.into_inner())
    } else {
        Err(Fault::MEMORY)
    }
}

/// The octets of a request, as a record has them: with X for each octet of a password of its book. The call is made in the same way by that book.
///
/// # Errors
/// Those of [`request_octets`].
pub fn recorded_request(alloc: Global, request: &Request<'_>) -> Result<Vec<u8>, Fault> {
    match *request {
        Request::Operate { book, call } => {
            let book = without_passwords(alloc, book)?;
            let book = book.as_slice();
            request_octets(alloc, &Request::Operate { book, call })
        }
        Request::Resend {
            book,
            no,
            date,
            time,
        } => {
            let book = without_passwords(alloc, book)?;
            let book = book.as_slice();
            request_octets(
                alloc,
                &Request::Resend {
                    book,
                    no,
                    date,
                    time,
                },
            )
        }
        _ => request_octets(alloc, request),
    }
}

/// What the schedule is told of the partner whom a request wants to be called, if the book has that partner.
fn called_in(book: &Book, request: &Request<'_>) -> Option<Partner> {
    match *request {
        Request::Call {
            partner,
            patience,
            longest,
            ..
        } => {
            let found = book.partner(partner.as_bytes())?;
            Some(partner_of(book, OF_NO_CLOCK, found, patience, longest))
        }
        _ => None,
    }
}

/// What the schedule is told of a partner of a book with this number. It is to be called with this patience and for no longer, in seconds. A
/// patience of 0 is no limit.
pub fn partner_of(
    book: &Book,
    number: u32,
    partner: &partners::Partner,
    patience: u64,
    longest: u64,
) -> Partner {
    Partner {
        number,
        pause: pause_of(book.station().code.as_str() < partner.code.as_str()),
        patience: wait_of(patience),
        longest: millis(longest),
    }
}
