//! The command `offer`, which submits the files of a folder, to be sent to a partner.

use crate::backing::{Backing, Telling};
use oftp_command_line::Offer;
use oftp_engine::Refusal;
use oftp_files::read_book_octets;
use oftp_folders::{self as folders, Folder, names_files};
use oftp_outcomes::{Fault, Outcome, status_where, tell};
use oftp_partners::Book;
use oftp_watching::News;
use std::io::Write;

/// Offers files. Returns the exit status.
///
/// # Errors
/// [`Fault::Book`], [`Fault::File`] or [`Fault::Store`] if the book, the folder, the database or the events can't be opened; those of
/// [`folders::offer`].
pub fn offer(
    rt: &HostRuntime,
    line: &Offer<'_>,
    sources: &str,
    out: &mut impl Write,
) -> Result<u8, Fault> {
    let (octets, book) = read_book_octets(rt, line.files.book)?;
    if let Some(refusal) = refusal_of(&book, line) {
        return tell(Outcome::Refused(refusal), out);
    }
    let folder = Folder::held(rt, line.folder)?;
    let outcome = offer_from(rt, line, sources, &folder, octets.as_slice(), &book, out);
    folder.give_up(rt);
    Ok(status_where(outcome?))
}

/// Offers the files of a folder that is locked. Returns whether none was refused.
fn offer_from<'a>(
    rt: &'a HostRuntime,
    line: &Offer<'a>,
    sources: &'a str,
    folder: &Folder,
    octets: &[u8],
    book: &Book,
    out: &mut impl Write,
) -> Result<bool, Fault> {
    let news = News::new(rt.alloc());
    let telling = Telling::of(rt, &line.files, sources, &news);
    let backing = Backing::opened(rt, line.files.database, Some(book), Some(telling))?;
    folders::offer(rt, line, folder, octets, backing, out)
}

/// Whether each file can have the dataset name of the command line, if there is one.
fn is_nameable(line: &Offer<'_>) -> bool {
    match line.dataset {
        Some(dataset) => names_files(dataset),
        None => true,
    }
}

/// Why no file at all can be offered with this command line, if that is so.
fn refusal_of(book: &Book, line: &Offer<'_>) -> Option<Refusal> {
    if book.partner(line.to.as_bytes()).is_none() {
        Some(Refusal::Unknown)
    } else if line.format.allows_longest(line.longest) && is_nameable(line) {
        None
    } else {
        Some(Refusal::Field)
    }
}
