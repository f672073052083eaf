//! Entries of files, by number.

ghost use Rattle.std.specs.Prelude.{◌≡◌, ◌≤◌, ◌<◌, ◌^◌, IfOk, IfSome, IfErr};
ghost use Rattle.oftp_register.specs.LookUps.{IsIncomingWithin, IsOutgoingWithin, in_by_no, out_by_no};
ghost use Rattle.oftp_register.specs.Offices.{IsFailure};
ghost use Rattle.oftp_store.specs.Reads.{incoming_entry_of, outgoing_entry_of};
ghost use Rattle.oftp_store.specs.Tells.{OnlyLooks, Tells, TellsStored};
ghost use Rattle.oftp_store.specs.Causes.{HasCause};

use super::by_number::find;
use super::header::{IncomingHeader, OutgoingHeader};
use super::rows::count_rows;
use oftp_register::{IncomingEntry, IssuedResponse, OfficeFault, OutgoingEntry, Side};
use sqlite::{Alter, Connection};
use std::alloc::Global;

/// The incoming file with a number, a header, so many rows and a response, if one was issued.
pub(super) fn incoming_of(
    no: u64,
    header: IncomingHeader,
    rows: u32,
    response: Option<IssuedResponse>,
) -> IncomingEntry
    ensures { result ≡ incoming_entry_of no header rows response }
{
    let file = header.file;
    IncomingEntry {
        no,
        identity: file.identity,
        format: file.format,
        longest: file.longest,
        description: file.description,
        state: header.state,
        rows: u64::from(rows),
        response,
    }
}

/// The incoming file with a number.
pub(crate) fn find_incoming_file<S: Alter>(
    alloc: Global,
    conn: &mut Connection<S>,
    no: u64,
) -> Result<Option<IncomingEntry>, OfficeFault>
    requires { no < 2 ^ 63 }
    ensures looks { OnlyLooks S.Store conn.old conn.new result }
    ensures answer { Tells S.Store (λ r found. found ≡ in_by_no r no) conn.old conn.new result }
    ensures within { IfOk result (λ found. IfSome found IsIncomingWithin) }
    ensures told { IfErr result (HasCause S.Store conn.old conn.new) }
{
    let Some(header) = find::<IncomingHeader, S>(alloc, conn, no)? else {
        return Ok(None);
    };
    let rows = count_rows(conn, Side::Incoming, no)?;
    let response = find::<IssuedResponse, S>(alloc, conn, no)?;
    Ok(Some(incoming_of(no, header, rows, response)))
}

/// The outgoing file with a number, a header and so many rows. A mark that exceeds them is an error of the store.
pub(super) fn outgoing_of(
    no: u64,
    header: OutgoingHeader,
    rows: u32,
) -> Result<OutgoingEntry, OfficeFault>
    ensures made { IfOk result (λ entry. entry ≡ outgoing_entry_of no header rows) }
    ensures mark { IfOk result (λ entry. entry.mark ≤ entry.rows) }
    ensures beyond { IfErr result (λ _. rows < header.mark) }
    ensures fails { IfErr result IsFailure }
{
    if header.mark > rows {
        return Err(OfficeFault::Store);
    }
    let file = header.file;
    Ok(OutgoingEntry {
        no,
        identity: file.identity,
        format: file.format,
        longest: file.longest,
        description: file.description,
        rows: u64::from(rows),
        mark: u64::from(header.mark),
        state: header.state,
    })
}

/// The outgoing file with a number. A mark that exceeds its rows is an error of the store.
pub(crate) fn find_outgoing_file<S: Alter>(
    alloc: Global,
    conn: &mut Connection<S>,
    no: u64,
) -> Result<Option<OutgoingEntry>, OfficeFault>
    requires { no < 2 ^ 63 }
    ensures looks { OnlyLooks S.Store conn.old conn.new result }
    ensures answer { TellsStored S.Store (λ r found. found ≡ out_by_no r no) conn.old conn.new result }
    ensures within { IfOk result (λ found. IfSome found IsOutgoingWithin) }
    ensures told { IfErr result (HasCause S.Store conn.old conn.new) }
{
    let Some(header) = find::<OutgoingHeader, S>(alloc, conn, no)? else {
        return Ok(None);
    };
    let rows = count_rows(conn, Side::Outgoing, no)?;
    let entry = outgoing_of(no, header, rows)?;
    Ok(Some(entry))
}
