//! The command `replay`, which plays a record over a database.

use oftp_command_line::Replay;
use oftp_database::{self as database, DatabaseOffice, PATIENCE};
use oftp_files::read_book_octets;
use oftp_outcomes::Fault;
use oftp_recording::record_files;
use oftp_replay::{self as playing, NamedBook, Opens};
use std::io::Write;

/// The database over which a record is played.
#[derive(Drop)]
struct PlayedDatabase<'r, 'p> {
    rt: &'r HostRuntime,
    path: &'p str,
}

impl Opens for PlayedDatabase<'_, '_> {
    type Office = DatabaseOffice;

    fn open(&mut self) -> Result<DatabaseOffice, Fault> {
        database::open(self.rt, self.path, PATIENCE)
    }
}

/// Plays a record over a database, and writes what came of it. Returns the exit status.
///
/// # Errors
/// [`Fault::Book`], [`Fault::Store`] or [`Fault::File`] if the book, the database or the record can't be read. [`Fault::Run`] if the office failed,
/// or `out` returned an error; [`Fault::MEMORY`].
pub fn replay(rt: &HostRuntime, line: &Replay<'_>, out: &mut impl Write) -> Result<u8, Fault> {
    let Some(path) = line.book else {
        return play(rt, line, None, out);
    };
    let (octets, book) = read_book_octets(rt, path)?;
    let named = NamedBook {
        book: &book,
        octets: octets.as_slice(),
    };
    play(rt, line, Some(named), out)
}

/// Plays a record over a database, with the passwords of a book, if one is named.
fn play(
    rt: &HostRuntime,
    line: &Replay<'_>,
    named: Option<NamedBook<'_>>,
    out: &mut impl Write,
) -> Result<u8, Fault> {
    // Without the folder no database is made.
    let _ = record_files(rt, line.folder)?;
    let mut database = PlayedDatabase {
        rt,
        path: line.database,
    };
    playing::replay(rt, line, &mut database, named, out)
}
