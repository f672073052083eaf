//! The number of octets of a file.

ghost use Rattle.std.specs.Prelude.{◌≡◌, ◌≤◌, ◌<◌, ◌+◌, ◌*◌, ◌^◌, length, IfOk, IfErr, IfSome};
ghost use Rattle.oftp_vfile.specs.declared.format.TheConstants.{LONGEST_RECORD};
ghost use Rattle.oftp_vfile.specs.VirtualFile.{IsLongest, units_in};
ghost use Rattle.oftp_register.specs.LookUps.{file_rows, units_of};
ghost use Rattle.oftp_register.specs.Offices.{IsFailure};
ghost use Rattle.oftp_register.specs.Units.{file_format, units_in_blocks, units_told};
ghost use Rattle.oftp_register.specs.declared.fit.TheConstants.{MOST_UNITS};
ghost use Rattle.oftp_store.specs.Tells.{OnlyLooks, Tells, TellsStored};
ghost use Rattle.oftp_store.specs.Causes.{HasCause, HasCauseWhere};

use super::by_number::find;
use super::header::{IncomingHeader, OutgoingHeader};
use super::rows::{count_rows, find_rows};
use oftp_register::{MOST_UNITS, OfficeFault, Side};
use oftp_vfile::{BLOCK, Format, Row};
use sqlite::{Alter, Connection};
use std::alloc::Global;

// The number of rows that are read at a time.
const PAGE: u32 = 64;

// Adds the octets of some rows. More than a file may have are an error of the store.
fn add_units(units: u64, rows: &[Row]) -> Result<u64, OfficeFault>
    requires { units ≤ MOST_UNITS }
    ensures told { IfOk result (λ sum. sum ≡ units + units_in rows.now) }
    ensures within { IfOk result (λ sum. sum ≤ MOST_UNITS) }
    ensures beyond { IfErr result (λ _. MOST_UNITS < units + units_in rows.now) }
    ensures fails { IfErr result IsFailure }
{
    let mut sum = units;
    'rows: for row in rows {
        if row.len() as u64 > MOST_UNITS - sum {
            return Err(OfficeFault::Store);
        }
        sum += row.len() as u64;
    }
    Ok(sum)
}

// The number of octets of a file. Each row is read, in pages.
fn count_octets<S: Alter>(
    alloc: Global,
    conn: &mut Connection<S>,
    side: Side,
    no: u64,
) -> Result<u64, OfficeFault>
    requires { no < 2 ^ 63 }
    ensures looks { OnlyLooks S.Store conn.old conn.new result }
    ensures answer { Tells S.Store (λ r units. units ≡ units_in (file_rows r side no)) conn.old conn.new result }
    ensures within { IfOk result (λ units. units ≤ MOST_UNITS) }
    ensures told { IfErr result (HasCause S.Store conn.old conn.new) }
{
    let count = count_rows(conn, side, no)?;
    let mut units = 0;
    'pages: for page in 0..count / PAGE + 1 {
        let rows = find_rows(alloc, conn, side, no, page * PAGE, PAGE)?;
        units = add_units(units, rows.as_slice())?;
    }
    Ok(units)
}

// The number of octets of a file whose records all have `longest` octets. No row is read, only counted.
fn count_records<S: Alter>(
    conn: &mut Connection<S>,
    side: Side,
    no: u64,
    longest: u32,
) -> Result<u64, OfficeFault>
    requires no { no < 2 ^ 63 }
    requires longest { longest ≤ LONGEST_RECORD }
    ensures looks { OnlyLooks S.Store conn.old conn.new result }
    ensures answer { TellsStored S.Store (λ r units. units ≡ length (file_rows r side no) * longest) conn.old conn.new result }
    ensures within { IfOk result (λ units. units ≤ MOST_UNITS) }
    ensures told { IfErr result (HasCause S.Store conn.old conn.new) }
{
    let count = count_rows(conn, side, no)?;
    Ok(u64::from(count) * u64::from(longest))
}

// The number of octets of a file whose blocks are all full but the last. Only the last one is read.
fn count_blocks<S: Alter>(
    alloc: Global,
    conn: &mut Connection<S>,
    side: Side,
    no: u64,
) -> Result<u64, OfficeFault>
    requires { no < 2 ^ 63 }
    ensures looks { OnlyLooks S.Store conn.old conn.new result }
    ensures answer { TellsStored S.Store (λ r units. units ≡ units_in_blocks (file_rows r side no)) conn.old conn.new result }
    ensures within { IfOk result (λ units. units ≤ MOST_UNITS) }
    ensures told { IfErr result (HasCauseWhere S.Store (λ r. units_in_blocks (file_rows r side no) ≤ MOST_UNITS) conn.old conn.new) }
{
    let count = count_rows(conn, side, no)?;
    let full = count.saturating_sub(1);
    let last = find_rows(alloc, conn, side, no, full, 1)?;
    add_units(u64::from(full) * BLOCK as u64, last.as_slice())
}

// The number of octets of a file whose rows fit this format and longest record.
fn count_in_format<S: Alter>(
    alloc: Global,
    conn: &mut Connection<S>,
    side: Side,
    no: u64,
    format: Format,
    longest: u32,
) -> Result<u64, OfficeFault>
    requires no { no < 2 ^ 63 }
    requires longest { IsLongest format longest }
    ensures looks { OnlyLooks S.Store conn.old conn.new result }
    ensures answer { Tells S.Store (λ r units. units ≡ units_told format longest (file_rows r side no)) conn.old conn.new result }
    ensures within { IfOk result (λ units. units ≤ MOST_UNITS) }
    ensures told { IfErr result (HasCauseWhere S.Store (λ r. units_told format longest (file_rows r side no) ≤ MOST_UNITS) conn.old conn.new) }
{
    match format {
        Format::Fixed => count_records(conn, side, no, longest),
        Format::Variable => count_octets(alloc, conn, side, no),
        Format::Unstructured | Format::Text => count_blocks(alloc, conn, side, no),
    }
}

// The format and the longest record of the file with this number, if there is one.
fn find_format<S: Alter>(
    alloc: Global,
    conn: &mut Connection<S>,
    side: Side,
    no: u64,
) -> Result<Option<(Format, u32)>, OfficeFault>
    requires { no < 2 ^ 63 }
    ensures looks { OnlyLooks S.Store conn.old conn.new result }
    ensures answer { TellsStored S.Store (λ r found. found ≡ file_format r side no) conn.old conn.new result }
    ensures within { IfOk result (λ found. IfSome found (λ format. IsLongest format.0 format.1)) }
    ensures told { IfErr result (HasCause S.Store conn.old conn.new) }
{
    match side {
        Side::Incoming => {
            let header = find::<IncomingHeader, S>(alloc, conn, no)?;
            Ok(header.map(|header| (header.file.format, header.file.longest)))
        }
        Side::Outgoing => {
            let header = find::<OutgoingHeader, S>(alloc, conn, no)?;
            Ok(header.map(|header| (header.file.format, header.file.longest)))
        }
    }
}

/// The number of octets of the file with this number, or 0 where there is no such file. In format F no row is read, in U and T the last
/// one, and in V each, in pages.
pub(crate) fn count_units<S: Alter>(
    alloc: Global,
    conn: &mut Connection<S>,
    side: Side,
    no: u64,
) -> Result<u64, OfficeFault>
    requires { no < 2 ^ 63 }
    ensures looks { OnlyLooks S.Store conn.old conn.new result }
    ensures answer { Tells S.Store (λ r units. units ≡ units_of r side no) conn.old conn.new result }
    ensures within { IfOk result (λ units. units ≤ MOST_UNITS) }
    ensures told { IfErr result (HasCause S.Store conn.old conn.new) }
{
    let Some((format, longest)) = find_format(alloc, conn, side, no)? else {
        return Ok(0);
    };
    count_in_format(alloc, conn, side, no, format, longest)
}
