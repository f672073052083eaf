//! What a received response refers to.

ghost use Rattle.std.specs.Prelude.{◌≡◌, IfErr};
ghost use Rattle.oftp_store.specs.Tells.{OnlyLooks, Tells};
ghost use Rattle.oftp_store.specs.ResponseMatches.{IsResponseMatchOf, Settles, is_awaiting};
ghost use Rattle.oftp_store.specs.Causes.{HasCause};

use super::identity::{file_number, has_filed};
use super::last_number::{Table, new_number};
use super::progress::{OutgoingProgress, Progress};
use oftp_register::{Identity, OfficeFault, OutgoingState, ResponseKind, Side};
use sqlite::{Alter, Connection};
use std::alloc::Global;

/// An outgoing file whose state a response sets.
#[derive(Drop)]
pub(crate) struct SettledFile {
    pub no: u64,
    /// How many of its rows were wholly sent when CDT last came.
    pub mark: u32,
}

/// How a received response is stored.
#[derive(Drop)]
pub(crate) enum ResponseMatch {
    /// A response of this kind was received before.
    Duplicate,
    /// It gets this number. No file is awaiting it.
    Unmatched(u64),
    /// It gets this number, and sets the state of a file.
    Matched { no: u64, file: SettledFile },
}

// Whether the end of a file was sent and no response was received.
fn is_awaiting(state: &OutgoingState) -> bool
    ensures { result ≡ is_awaiting state.now }
{
    matches!(state, OutgoingState::Closing | OutgoingState::Handed)
}

/// The outgoing file with this identity, if it awaits a response.
pub(crate) fn find_settled_file<S: Alter>(
    alloc: Global,
    conn: &mut Connection<S>,
    identity: &Identity,
) -> Result<Option<SettledFile>, OfficeFault>
    ensures looks { OnlyLooks S.Store conn.old conn.new result }
    ensures answer { Tells S.Store (λ r found. Settles r identity.now found) conn.old conn.new result }
    ensures told { IfErr result (HasCause S.Store conn.old conn.new) }
{
    let Some(no) = file_number(conn, Side::Outgoing, identity)? else {
        return Ok(None);
    };
    let progress = OutgoingProgress::find(alloc, conn, no)?.ok_or(OfficeFault::Store)?;
    if !is_awaiting(&progress.state) {
        return Ok(None);
    }
    Ok(Some(SettledFile {
        no,
        mark: progress.mark,
    }))
}

/// How a received response to the file with this identity is stored.
///
/// # Errors
///
/// [`OfficeFault::Store`] also where no number is left, and the errors of a look-up.
pub(crate) fn find_response_match<S: Alter>(
    alloc: Global,
    conn: &mut Connection<S>,
    kind: ResponseKind,
    identity: &Identity,
) -> Result<ResponseMatch, OfficeFault>
    ensures looks { OnlyLooks S.Store conn.old conn.new result }
    ensures answer { Tells S.Store (λ r found. IsResponseMatchOf r kind identity.now found) conn.old conn.new result }
    ensures told { IfErr result (HasCause S.Store conn.old conn.new) }
{
    if has_filed(conn, kind, identity)? {
        return Ok(ResponseMatch::Duplicate);
    }
    let no = new_number(conn, Table::ReceivedResponses)?;
    match find_settled_file(alloc, conn, identity)? {
        Some(file) => Ok(ResponseMatch::Matched { no, file }),
        None => Ok(ResponseMatch::Unmatched(no)),
    }
}
