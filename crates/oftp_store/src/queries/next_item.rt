//! What is sent next to a partner: a file or a response.

ghost use Rattle.std.specs.Prelude.{◌≡◌, ◌≤◌, ◌<◌, ◌+◌, ◌^◌, false, true, IfOk, IfErr, IfSome};
ghost use Rattle.oftp_register.specs.LookUps.{IsItemWithin, next_item, next_response};
ghost use Rattle.oftp_store.specs.Tells.{OnlyLooks, Tells};
ghost use Rattle.oftp_store.specs.Causes.{HasCause};

use super::file_by_identity::next_file;
use super::issued::find_issued;
use super::last_number::FIRST_FAR;
use super::next_number::{Sendable, next_number};
use oftp_register::{Cursor, IssuedEntry, Item, Name, OfficeFault};
use sqlite::{Alter, Connection};
use std::alloc::Global;

// The number itself where the database can store it, and else the greatest that it can store. No entry has a greater number.
fn within_store(tried: u64) -> u64
    ensures small { result < 2 ^ 63 }
    ensures same { tried < 2 ^ 63 → result ≡ tried }
    ensures far { 2 ^ 63 ≤ tried → result + 1 ≡ 2 ^ 63 }
{
    tried.min(FIRST_FAR - 1)
}

/// The first response that is due to a partner, with a number above `tried`.
pub(crate) fn next_response<S: Alter>(
    alloc: Global,
    conn: &mut Connection<S>,
    partner: &Name<25>,
    tried: u64,
) -> Result<Option<IssuedEntry>, OfficeFault>
    requires { tried < 2 ^ 63 }
    ensures looks { OnlyLooks S.Store conn.old conn.new result }
    ensures answer { Tells S.Store (λ r found. found ≡ next_response r partner.now tried) conn.old conn.new result }
    ensures told { IfErr result (HasCause S.Store conn.old conn.new) }
{
    match next_number(conn, Sendable::Response, partner, tried)? {
        Some(no) => find_issued(alloc, conn, no),
        None => Ok(None),
    }
}

/// The first response that is due to a partner, as a session sends it next.
pub(crate) fn next_due<S: Alter>(
    alloc: Global,
    conn: &mut Connection<S>,
    partner: &Name<25>,
    cursor: Cursor,
) -> Result<Option<Item>, OfficeFault>
    ensures looks { OnlyLooks S.Store conn.old conn.new result }
    ensures answer { Tells S.Store (λ r item. item ≡ next_item r partner.now cursor false) conn.old conn.new result }
    ensures within { IfOk result (λ found. IfSome found IsItemWithin) }
    ensures told { IfErr result (HasCause S.Store conn.old conn.new) }
{
    let tried = within_store(cursor.response);
    let first = next_response(alloc, conn, partner, tried)?;
    match first {
        Some(response) => Ok(Some(Item::Response(response))),
        None => Ok(None),
    }
}

/// What a session sends next to a partner: a response, or else a file.
pub(crate) fn next_item<S: Alter>(
    alloc: Global,
    conn: &mut Connection<S>,
    partner: &Name<25>,
    cursor: Cursor,
) -> Result<Option<Item>, OfficeFault>
    ensures looks { OnlyLooks S.Store conn.old conn.new result }
    ensures answer { Tells S.Store (λ r item. item ≡ next_item r partner.now cursor true) conn.old conn.new result }
    ensures within { IfOk result (λ found. IfSome found IsItemWithin) }
    ensures told { IfErr result (HasCause S.Store conn.old conn.new) }
{
    if let Some(item) = next_due(alloc, conn, partner, cursor)? {
        return Ok(Some(item));
    }
    let file = next_file(alloc, conn, partner, within_store(cursor.file))?;
    Ok(file.map(Item::File))
}
