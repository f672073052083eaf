//! The responses to incoming files, as an office returns them.

ghost use Rattle.std.specs.Prelude.{◌≡◌, ◌<◌, ◌^◌, IfErr};
ghost use Rattle.oftp_store.specs.Reads.{issued_entry_of};
ghost use Rattle.oftp_store.specs.Tells.{OnlyLooks, Tells, issued_by_no};
ghost use Rattle.oftp_store.specs.Causes.{HasCause};

use super::by_number::find;
use super::header::IncomingHeader;
use oftp_register::{IssuedEntry, IssuedResponse, OfficeFault};
use sqlite::{Alter, Connection};
use std::alloc::Global;

/// The response to the incoming file with a number and a header.
pub(super) fn issued_of(no: u64, header: IncomingHeader, response: IssuedResponse) -> IssuedEntry
    ensures { result ≡ issued_entry_of no header response }
{
    let file = header.file;
    IssuedEntry {
        no,
        identity: file.identity,
        response,
    }
}

/// The response to the incoming file with a number, with the file's identity.
pub(crate) fn find_issued<S: Alter>(
    alloc: Global,
    conn: &mut Connection<S>,
    no: u64,
) -> Result<Option<IssuedEntry>, OfficeFault>
    requires { no < 2 ^ 63 }
    ensures looks { OnlyLooks S.Store conn.old conn.new result }
    ensures answer { Tells S.Store (λ r found. found ≡ issued_by_no r no) conn.old conn.new result }
    ensures told { IfErr result (HasCause S.Store conn.old conn.new) }
{
    let Some(header) = find::<IncomingHeader, S>(alloc, conn, no)? else {
        return Ok(None);
    };
    let Some(response) = find::<IssuedResponse, S>(alloc, conn, no)? else {
        return Ok(None);
    };
    Ok(Some(issued_of(no, header, response)))
}
