//! The command `collect`, which writes the incoming files that are whole and have no response to a folder.

use crate::backing::{Backing, Telling};
use oftp_command_line::Collect;
use oftp_files::read_book_octets;
use oftp_folders::{self as folders, Folder};
use oftp_outcomes::{Fault, status_where};
use oftp_partners::Book;
use oftp_watching::News;
use std::io::Write;

/// Collects files. Returns the exit status.
///
/// # Errors
/// [`Fault::Book`], [`Fault::File`] or [`Fault::Store`] if the book, the folder, the database or the events can't be opened; those of
/// [`folders::collect`].
pub fn collect(
    rt: &HostRuntime,
    line: &Collect<'_>,
    sources: &str,
    out: &mut impl Write,
) -> Result<u8, Fault> {
    let (octets, book) = read_book_octets(rt, line.files.book)?;
    let folder = Folder::held(rt, line.folder)?;
    let outcome = collect_to(rt, line, sources, &folder, octets.as_slice(), &book, out);
    folder.give_up(rt);
    Ok(status_where(outcome?))
}

/// Collects files to a folder that is locked. Returns whether none was refused.
fn collect_to<'a>(
    rt: &'a HostRuntime,
    line: &Collect<'a>,
    sources: &'a str,
    folder: &Folder,
    octets: &[u8],
    book: &Book,
    out: &mut impl Write,
) -> Result<bool, Fault> {
    let news = News::new(rt.alloc());
    let telling = Telling::of(rt, &line.files, sources, &news);
    let backing = Backing::opened(rt, line.files.database, Some(book), Some(telling))?;
    folders::collect(rt, line, folder, octets, backing, out)
}
