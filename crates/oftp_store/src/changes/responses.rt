//! The changes of responses: `File`, `Issue` and `Send`.

ghost use Rattle.std.specs.Prelude.{◌≡◌, false};
ghost use Rattle.oftp_register.specs.declared.change.Change.TheVariants.{Send};
ghost use Rattle.oftp_register.specs.Changes.{answered_as};
ghost use Rattle.oftp_store.specs.Commits.{MakesChange};
ghost use Rattle.oftp_store.specs.Edits.{file_of, issue_of};
ghost use Rattle.oftp_store.specs.FileProgress.{is_answerable, is_sendable};

use super::Context;
use super::edit::{Edit, EditKind, NewIssued, NewReceived};
use super::known::known;
use super::outgoing::outgoing_edit;
use super::transaction::make_edits;
use crate::queries::progress::ResponseProgress;
use crate::queries::response_match::{ResponseMatch, find_response_match};
use oftp_register::{Cause, Dispatch, IncomingState, OfficeFault, OutgoingState, ResponseKind};
use sqlite::{Alter, Connection};

// The state of an outgoing file after its response.
fn answered_as(kind: ResponseKind) -> OutgoingState
    ensures { result ≡ answered_as kind }
{
    match kind {
        ResponseKind::EndResponse => OutgoingState::Delivered,
        ResponseKind::NegativeEndResponse => OutgoingState::Returned,
    }
}

/// Adds a response that was received, and sets the state of the file that it answers.
pub(crate) fn file<'x, S: Alter>(
    cx: Context,
    conn: &mut Connection<S>,
    response: &'x NewReceived<'x>,
) -> Result<(), OfficeFault>
    requires { conn.old.in_transaction ≡ false }
    ensures { MakesChange S.Store cx.limits (file_of response.now) conn.old conn.new result }
{
    match find_response_match(cx.alloc, conn, response.kind, response.identity)? {
        ResponseMatch::Duplicate => Err(OfficeFault::Refused(Cause::Duplicate)),
        ResponseMatch::Unmatched(no) => {
            let kind = EditKind::AddReceived { response };
            make_edits(conn, &[Edit { no, kind }])
        }
        ResponseMatch::Matched { no, file } => {
            let settled = outgoing_edit(file.no, file.mark, answered_as(response.kind));
            let kind = EditKind::AddReceived { response };
            make_edits(conn, &[settled, Edit { no, kind }])
        }
    }
}

// Whether a file is whole and has no response yet.
fn is_answerable(progress: &ResponseProgress) -> bool
    ensures { result ≡ is_answerable progress.now }
{
    match progress.state {
        IncomingState::Open => false,
        IncomingState::Whole => progress.response.is_none(),
    }
}

// Whether a file has a response that wasn't sent.
fn is_sendable(progress: &ResponseProgress) -> bool
    ensures { result ≡ is_sendable progress.now }
{
    match progress.response {
        None => false,
        Some(Dispatch::Due) => true,
        Some(Dispatch::Sent) => false,
    }
}

/// Adds the response to an incoming file that is whole.
pub(crate) fn issue<S: Alter>(
    cx: Context,
    conn: &mut Connection<S>,
    no: u64,
    response: &NewIssued<'_>,
) -> Result<(), OfficeFault>
    requires { conn.old.in_transaction ≡ false }
    ensures { MakesChange S.Store cx.limits (issue_of no response.now) conn.old conn.new result }
{
    let file = known::<ResponseProgress, S>(cx, conn, no)?;
    if !is_answerable(&file) {
        return Err(OfficeFault::Refused(Cause::State));
    }
    let kind = EditKind::AddIssued { response };
    make_edits(conn, &[Edit { no, kind }])
}

/// Marks the response to an incoming file as sent.
pub(crate) fn send<S: Alter>(
    cx: Context,
    conn: &mut Connection<S>,
    no: u64,
) -> Result<(), OfficeFault>
    requires { conn.old.in_transaction ≡ false }
    ensures { MakesChange S.Store cx.limits (Send no) conn.old conn.new result }
{
    let file = known::<ResponseProgress, S>(cx, conn, no)?;
    if !is_sendable(&file) {
        return Err(OfficeFault::Refused(Cause::State));
    }
    let kind = EditKind::SetSent;
    make_edits(conn, &[Edit { no, kind }])
}
