//! The last number in a table, and the next.

ghost use Rattle.std.specs.Prelude.{◌≡◌, ◌+◌, ◌≤◌, ◌<◌, ◌^◌, nat_le, Ok, Err, IfOk, IfErr};
ghost use Rattle.oftp_register.specs.Register.{Register};
ghost use Rattle.oftp_register.specs.LookUps.{files_full};
ghost use Rattle.oftp_store.specs.Numbers.{entries_in, last_text, table_of};
ghost use Rattle.oftp_store.specs.Tells.{OnlyLooks, Tells, TellsStored};
ghost use Rattle.oftp_store.specs.Causes.{HasCause};

use super::first_row::first_number;
use oftp_register::{OfficeFault, Side};
use sqlite::{Alter, Connection};

/// No entry has this number or a greater one, because SQLite's integers end below it.
pub(crate) const FIRST_FAR: u64 = 1 << 63;

/// A table whose entries are numbered from 1 on without gaps.
#[derive(Clone, Copy, Debug, Drop, PartialEq, Eq)]
pub(crate) enum Table {
    /// The incoming files.
    IncomingFiles,
    /// The outgoing files.
    OutgoingFiles,
    /// The received responses.
    ReceivedResponses,
}

// The SQL that selects the last number in a table.
fn last_text(table: Table) -> &'static str
    ensures { result.now ≡ last_text table }
{
    match table {
        Table::IncomingFiles => "SELECT no FROM in_file ORDER BY no DESC LIMIT 1",
        Table::OutgoingFiles => "SELECT no FROM out_file ORDER BY no DESC LIMIT 1",
        Table::ReceivedResponses => "SELECT no FROM received ORDER BY no DESC LIMIT 1",
    }
}

/// The last number in a table, which is how many entries it has. It is 0 in an empty table.
pub(crate) fn last_number<S: Alter>(
    conn: &mut Connection<S>,
    table: Table,
) -> Result<u64, OfficeFault>
    ensures looks { OnlyLooks S.Store conn.old conn.new result }
    ensures answer { TellsStored S.Store (λ r no. no ≡ entries_in r table) conn.old conn.new result }
    ensures small { IfOk result (λ no. no < 2 ^ 63) }
    ensures told { IfErr result (HasCause S.Store conn.old conn.new) }
{
    let last = first_number(conn, last_text(table), &[])?;
    Ok(last.unwrap_or(0))
}

/// The table of the incoming or of the outgoing files.
pub(crate) fn table_of(side: Side) -> Table
    ensures is { result ≡ table_of side }
    ensures full { (r : Register) → files_full r side ≡ nat_le r.limits.files (entries_in r result) }
{
    match side {
        Side::Incoming => Table::IncomingFiles,
        Side::Outgoing => Table::OutgoingFiles,
    }
}

/// Whether a table of files has `most` entries or more.
pub(crate) fn is_full<S: Alter>(
    conn: &mut Connection<S>,
    side: Side,
    most: u64,
) -> Result<bool, OfficeFault>
    ensures looks { OnlyLooks S.Store conn.old conn.new result }
    ensures answer { Tells S.Store (λ r full. r.limits.files ≡ most → full ≡ files_full r side) conn.old conn.new result }
    ensures told { IfErr result (HasCause S.Store conn.old conn.new) }
{
    let last = last_number(conn, table_of(side))?;
    Ok(last >= most)
}

/// The number after this one. [`OfficeFault::Store`] where the database can't store it.
pub(crate) fn number_after(last: u64) -> Result<u64, OfficeFault>
    ensures made { last + 1 < 2 ^ 63 → result ≡ Ok (last + 1) }
    ensures full { 2 ^ 63 ≤ last + 1 → result ≡ Err OfficeFault.Store }
{
    if last < FIRST_FAR - 1 {
        Ok(last + 1)
    } else {
        Err(OfficeFault::Store)
    }
}

/// The number of the next entry of a table.
///
/// # Errors
///
/// [`OfficeFault::Store`] also where no number is left, and the errors of a look-up.
pub(crate) fn new_number<S: Alter>(
    conn: &mut Connection<S>,
    table: Table,
) -> Result<u64, OfficeFault>
    ensures looks { OnlyLooks S.Store conn.old conn.new result }
    ensures answer { TellsStored S.Store (λ r no. no ≡ 1 + entries_in r table) conn.old conn.new result }
    ensures small { IfOk result (λ no. no < 2 ^ 63) }
    ensures told { IfErr result (HasCause S.Store conn.old conn.new) }
{
    let last = last_number(conn, table)?;
    number_after(last)
}
