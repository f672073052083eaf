//! The command `call`, as far as the station that runs over the database carries it out.

use crate::backing::Backing;
use oftp_asking::{self as asking, Beside};
use oftp_command_line::Call;
use oftp_engine::Refusal;
use oftp_files::read_book_octets;
use oftp_outcomes::{Fault, Outcome};
use oftp_partners::Book;

/// How far a call came.
#[derive(Drop)]
pub enum Called {
    /// To its end: the station called the partner, or there is no such partner.
    Told(Outcome),
    /// No station runs over the database, which isn't locked. Whoever asked has to call, by this book, which has these octets.
    Alone(Vec<u8>, Book),
}

/// Has the station that runs over a database call a partner of its book for one session. Without one the database is opened, which creates its tables, and
/// closed again.
///
/// # Errors
/// [`Fault::Book`], [`Fault::File`] or [`Fault::Store`] if the book, the trace or the database can't be opened. Those of the station's session;
/// [`Fault::Run`] if the station is gone.
pub fn call<'a>(rt: &'a HostRuntime, line: &Call<'a>) -> Result<Called, Fault> {
    let (octets, book) = read_book_octets(rt, line.files.book)?;
    match Beside::reached(rt, line.files.database) {
        Some(mut station) => asking::call(rt, line, &mut station).map(Called::Told),
        None => call_alone(rt, line, octets, book),
    }
}

/// Has a station that has started meanwhile call a partner, or says that it has to be called by this book.
fn call_alone<'a>(
    rt: &'a HostRuntime,
    line: &Call<'a>,
    octets: Vec<u8>,
    book: Book,
) -> Result<Called, Fault> {
    if book.partner(line.partner.as_bytes()).is_none() {
        return Ok(Called::Told(Outcome::Refused(Refusal::Unknown)));
    }
    match Backing::opened(rt, line.files.database, None, None)? {
        Backing::Own(own) => {
            drop(own);
            Ok(Called::Alone(octets, book))
        }
        Backing::Station(mut station) => { asking::call(rt, line, &mut station).map(Called::Told) }
    }
}
