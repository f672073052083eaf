//! An operator's call on a database.

ghost use Rattle.sqlite.specs.State.{HasCleanDisk};
ghost use Rattle.oftp_store.specs.Shown.{database_of, limits_of};
ghost use Rattle.oftp_engine.specs.Operated.{Operates};
ghost use Rattle.oftp_io.specs.Ports.{Puts};
ghost use Rattle.oftp_engine.specs.Served.{WriterTold};
ghost use Rattle.oftp_durable.specs.Databases.{LeavesItsOwn, OnCleanDisk, scene_over};
ghost use Rattle.oftp_durable.specs.Headline.{ButForOffice, CallLeaves};

use oftp_engine::{Operator, Port, RunFault, Told, operate};
use oftp_partners::Book;
use oftp_store::SqlOffice;
use sqlite::Alter;
use std::alloc::Global;
use std::io::Write;

/// Does an operator's call, as [`operate`] does, by the office over a database.
///
/// At every return, also with an error, a crash leaves the tables of the register with the call's change or without it. If one octet of the
/// call's line is out, it leaves those with the change. Except after an error of the office, it leaves the tables of the office's register
/// and nothing else. The premise is a disk that keeps what it has synced, and a database that nobody else writes.
///
/// # Errors
///
/// Those of [`operate`], with what they leave.
pub fn operate_durable<S: Alter, W: Write>(
    alloc: Global,
    office: &mut SqlOffice<S>,
    book: &Book,
    call: &Operator<'_>,
    writer: &mut Port<W>,
) -> Result<Told, RunFault>
    // The call does over this database what it does over any office.
    ensures operates { OnCleanDisk S.Store office.old office.new (λ _.
        Operates book.now call.now (scene_over S.Store W.contents office.old writer.old) (scene_over S.Store W.contents office.new writer.new) result) }
    // The headline.
    ensures leaves { OnCleanDisk S.Store office.old office.new (λ r.
        CallLeaves W.contents book.now call.now r writer.old writer.new (limits_of office.new) (database_of S.Store office.new) result) }
    ensures alone { OnCleanDisk S.Store office.old office.new (λ _. ButForOffice result (LeavesItsOwn S.Store office.new)) }
    ensures clean { HasCleanDisk (database_of S.Store office.new) → HasCleanDisk (database_of S.Store office.old) }
    ensures out { Puts W.contents writer.old writer.new }
    ensures writer_told { WriterTold writer.old writer.new result }
{
    operate(alloc, office, book, call, writer)
}
