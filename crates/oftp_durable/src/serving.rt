//! A session over a database.

ghost use Rattle.std.specs.Prelude.{ℕ, List};
ghost use Rattle.sqlite.specs.State.{HasCleanDisk};
ghost use Rattle.oftp_store.specs.Shown.{database_of};
ghost use Rattle.oftp_io.specs.Ports.{Puts};
ghost use Rattle.oftp_engine.specs.Served.{Gave, InputEnded, ReaderTold, WriterTold, setting_of};
ghost use Rattle.oftp_durable.specs.Databases.{LeavesItsOwn, OnCleanDisk, ServesOver};
ghost use Rattle.oftp_durable.specs.Headline.{ButForOffice};

use oftp_engine::{End, Port, Role, RunFault, serve};
use oftp_partners::Book;
use oftp_store::SqlOffice;
use sqlite::Alter;
use std::alloc::Global;
use std::io::{Read, Write};

/// Serves one session, as [`serve`] does, by the office over a database.
///
/// At every return, also with an error, a crash leaves the tables of the register after a prefix of the session's changes. The prefix has
/// each change whose answer has one octet out. Except after an error of the office, a crash leaves the tables of the office's register and
/// nothing else. The premise is a disk that keeps what it has synced, and a database that nobody else writes.
///
/// # Errors
///
/// Those of [`serve`], with what they leave.
pub fn serve_durable<S: Alter, R: Read, W: Write>(
    alloc: Global,
    office: &mut SqlOffice<S>,
    book: &Book,
    role: Role<'_>,
    reader: &mut Port<R>,
    writer: &mut Port<W>,
) -> Result<End, RunFault>
    // The session does over this database what it does over any office. The second part is the headline.
    ensures serves { (given : List ℕ) × Gave R.remaining reader.old reader.new given
        × ServesOver S.Store W.contents (setting_of book.now role.entry) given office.old office.new writer.old writer.new result }
    ensures alone { OnCleanDisk S.Store office.old office.new (λ _. ButForOffice result (LeavesItsOwn S.Store office.new)) }
    ensures clean { HasCleanDisk (database_of S.Store office.new) → HasCleanDisk (database_of S.Store office.old) }
    ensures reader_told { ReaderTold reader.old reader.new result }
    ensures writer_told { WriterTold writer.old writer.new result }
    ensures ends { InputEnded R.remaining reader.old reader.new result }
    ensures out { Puts W.contents writer.old writer.new }
{
    serve(alloc, office, book, role, reader, writer)
}
