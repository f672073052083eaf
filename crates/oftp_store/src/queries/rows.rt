//! The rows of files.

ghost use Rattle.std.specs.Prelude.{◌≡◌, ◌≤◌, ◌<◌, ◌^◌, map, take, drop, length, IfOk, IfErr};
ghost use Rattle.std.specs.Option.{IsSomeAnd};
ghost use Rattle.sqlite.specs.Order.{bytes, column};
ghost use Rattle.oftp_register.specs.LookUps.{AreRowsWithin, file_rows, rows_of};
ghost use Rattle.oftp_vfile.specs.declared.format.TheConstants.{MOST_ROWS};
ghost use Rattle.oftp_register.specs.Offices.{IsFailure};
ghost use Rattle.oftp_store.specs.Reads.{TellsCount};
ghost use Rattle.oftp_store.specs.Tells.{OnlyLooks, Tells, TellsStored};
ghost use Rattle.oftp_store.specs.Texts.{last_row_text, some_rows_text};
ghost use Rattle.oftp_store.specs.Causes.{HasBody, HasCause, HasPosition, Misfits};

use super::first_row::first_row;
use oftp_register::{OfficeFault, Side};
use oftp_tables::{ask, body_at, number, number_at};
use oftp_vfile::{MOST_ROWS, Rows};
use sqlite::{Alter, Connection, Row, params};
use std::alloc::Global;

// The SQL that selects the position of the last row of a file.
fn last_row_text(side: Side) -> &'static str
    ensures { result.now ≡ last_row_text side }
{
    match side {
        Side::Incoming => "SELECT pos FROM in_row WHERE no = ?1 ORDER BY pos DESC LIMIT 1",
        Side::Outgoing => "SELECT pos FROM out_row WHERE no = ?1 ORDER BY pos DESC LIMIT 1",
    }
}

// The SQL that selects some rows of a file from a position on.
fn some_rows_text(side: Side) -> &'static str
    ensures { result.now ≡ some_rows_text side }
{
    match side {
        Side::Incoming =>
            "SELECT body FROM in_row WHERE no = ?1 AND pos >= ?2 ORDER BY pos LIMIT ?3",
        Side::Outgoing =>
            "SELECT body FROM out_row WHERE no = ?1 AND pos >= ?2 ORDER BY pos LIMIT ?3",
    }
}

// The number of rows of a file, from the position of its last row, if there is one.
fn count_to(last: Option<Row>) -> Result<u32, OfficeFault>
    ensures told { IfOk result (TellsCount last) }
    ensures few { IfOk result (λ count. count ≤ MOST_ROWS) }
    ensures unfit { IfErr result (λ _. IsSomeAnd last (λ row. ¬ HasPosition row)) }
    ensures fails { IfErr result IsFailure }
{
    let Some(row) = last else {
        return Ok(0);
    };
    match number_at(&row, 0) {
        Some(at) if at < MOST_ROWS as u32 => Ok(at + 1),
        _ => Err(OfficeFault::Store),
    }
}

/// The number of rows of the file with this number, or 0 where there is no such file.
pub(crate) fn count_rows<S: Alter>(
    conn: &mut Connection<S>,
    side: Side,
    no: u64,
) -> Result<u32, OfficeFault>
    requires { no < 2 ^ 63 }
    ensures looks { OnlyLooks S.Store conn.old conn.new result }
    ensures answer { TellsStored S.Store (λ r count. count ≡ length (file_rows r side no)) conn.old conn.new result }
    ensures few { IfOk result (λ count. count ≤ MOST_ROWS) }
    ensures told { IfErr result (HasCause S.Store conn.old conn.new) }
{
    let last = first_row(conn, last_row_text(side), params![number(no)])?;
    count_to(last)
}

// The contents of the rows that a query returned.
fn bodies_told(alloc: Global, rows: &[Row]) -> Result<Vec<oftp_vfile::Row>, OfficeFault>
    ensures told { IfOk result (λ out. out.items ≡ map (λ row. bytes (column row 0)) rows.now) }
    ensures unfit { IfErr result (λ fault. fault ≡ OfficeFault.Store → Misfits HasBody rows.now) }
    ensures fails { IfErr result IsFailure }
{
    let mut out = Vec::new(alloc);
    'rows: for row in rows {
        let body = body_at(alloc, row, 0)?;
        out.push(body)?;
    }
    Ok(out)
}

/// At most `most` rows of the file with this number, from position `from` on.
pub(crate) fn find_rows<S: Alter>(
    alloc: Global,
    conn: &mut Connection<S>,
    side: Side,
    no: u64,
    from: u32,
    most: u32,
) -> Result<Vec<oftp_vfile::Row>, OfficeFault>
    requires { no < 2 ^ 63 }
    ensures looks { OnlyLooks S.Store conn.old conn.new result }
    ensures answer { TellsStored S.Store (λ r rows. rows.items ≡ take most (drop from (file_rows r side no))) conn.old conn.new result }
    ensures told { IfErr result (HasCause S.Store conn.old conn.new) }
{
    let rows = ask(conn, some_rows_text(side), params![number(no), from, most])?;
    bodies_told(alloc, rows.as_slice())
}

/// Rows of a file as an office returns them: at most `most`, from position `from` on. More rows than were asked for, or than a file may
/// have, are an error of the store.
pub(crate) fn rows_of<S: Alter>(
    alloc: Global,
    conn: &mut Connection<S>,
    side: Side,
    no: u64,
    from: u64,
    most: u64,
) -> Result<Rows, OfficeFault>
    requires no { no < 2 ^ 63 }
    requires from { from ≤ MOST_ROWS }
    ensures looks { OnlyLooks S.Store conn.old conn.new result }
    ensures answer { Tells S.Store (λ r rows. rows ≡ rows_of r side no from most) conn.old conn.new result }
    ensures within { IfOk result (AreRowsWithin from most) }
    ensures told { IfErr result (HasCause S.Store conn.old conn.new) }
{
    let few = most.min(MOST_ROWS as u64) as u32;
    let rows = find_rows(alloc, conn, side, no, from as u32, few)?;
    let len = rows.len() as u64;
    if len > most || len > MOST_ROWS as u64 - from {
        return Err(OfficeFault::Store);
    }
    Ok(Rows::new(rows))
}
