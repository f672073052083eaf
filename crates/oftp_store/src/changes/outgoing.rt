//! The changes of an outgoing file: `Submit`, `Mark`, `BeginClosing`, `HandOver`, `Refuse` and `Reopen`.

ghost use Rattle.std.specs.Prelude.{◌≡◌, ◌&&◌, ◌||◌, false, nat_le};
ghost use Rattle.oftp_register.specs.declared.change.Change.TheVariants.{BeginClosing, HandOver, Mark, Refuse, Reopen};
ghost use Rattle.oftp_register.specs.Changes.{is_closing, is_waiting};
ghost use Rattle.oftp_store.specs.Commits.{MakesChange};
ghost use Rattle.oftp_store.specs.Edits.{outgoing_edit, submit_of};

use super::Context;
use super::edit::{Edit, EditKind, NewHeader};
use super::known::known;
use super::transaction::make_edits;
use crate::queries::allocation::{Allocation, find_allocation};
use crate::queries::progress::OutgoingProgress;
use oftp_register::{Cause, OfficeFault, OutgoingState, Side};
use oftp_vfile::Rows;
use oftp_wire::Count;
use sqlite::{Alter, Connection};

/// Adds an outgoing file with all its rows.
pub(crate) fn submit<S: Alter>(
    cx: Context,
    conn: &mut Connection<S>,
    header: &NewHeader<'_>,
    rows: &Rows,
) -> Result<(), OfficeFault>
    requires { conn.old.in_transaction ≡ false }
    ensures { MakesChange S.Store cx.limits (submit_of header.now rows.now) conn.old conn.new result }
{
    match find_allocation(conn, cx.limits, Side::Outgoing, header.identity)? {
        Allocation::Existing(_) => Err(OfficeFault::Refused(Cause::Duplicate)),
        Allocation::Full => Err(OfficeFault::Refused(Cause::Full)),
        Allocation::New(no) => {
            let new = EditKind::AddFile {
                side: Side::Outgoing,
                header,
            };
            let all = EditKind::AddRows {
                side: Side::Outgoing,
                from: 0,
                rows,
            };
            make_edits(conn, &[Edit { no, kind: new }, Edit { no, kind: all }])
        }
    }
}

// Whether the file is waiting to be sent.
fn is_waiting(state: &OutgoingState) -> bool
    ensures { result ≡ is_waiting state.now }
{
    matches!(state, OutgoingState::Waiting)
}

// Whether the end of the file was sent and its answer is still missing.
fn is_closing(state: &OutgoingState) -> bool
    ensures { result ≡ is_closing state.now }
{
    matches!(state, OutgoingState::Closing)
}

// Whether the partner may still refuse the file: it is waiting, or its end was sent.
fn is_on_its_way(state: &OutgoingState) -> bool
    ensures { result ≡ (is_waiting state.now || is_closing state.now) }
{
    is_waiting(state) || is_closing(state)
}

// Whether the file is waiting and has at least `rows` rows, so that these may be marked.
fn may_be_covered(file: &OutgoingProgress, rows: u64) -> bool
    ensures { result ≡ (is_waiting file.now.state && nat_le rows file.now.rows) }
{
    is_waiting(&file.state) && rows <= u64::from(file.rows)
}

/// The edit that sets mark and state of a file.
pub(super) fn outgoing_edit(no: u64, mark: u32, state: OutgoingState) -> Edit<'static>
    ensures { result ≡ outgoing_edit no mark state }
{
    let kind = EditKind::SetOutgoing { mark, state };
    Edit { no, kind }
}

/// Sets the mark of a waiting file: `rows` rows are known to be kept by the partner.
pub(crate) fn mark<S: Alter>(
    cx: Context,
    conn: &mut Connection<S>,
    no: u64,
    rows: u64,
) -> Result<(), OfficeFault>
    requires { conn.old.in_transaction ≡ false }
    ensures { MakesChange S.Store cx.limits (Mark no rows) conn.old conn.new result }
{
    let file = known::<OutgoingProgress, S>(cx, conn, no)?;
    if !may_be_covered(&file, rows) {
        return Err(OfficeFault::Refused(Cause::State));
    }
    let edit = outgoing_edit(no, rows as u32, file.state);
    make_edits(conn, &[edit])
}

/// Puts a waiting file into the state in which its end is sent next.
pub(crate) fn begin_closing<S: Alter>(
    cx: Context,
    conn: &mut Connection<S>,
    no: u64,
) -> Result<(), OfficeFault>
    requires { conn.old.in_transaction ≡ false }
    ensures { MakesChange S.Store cx.limits (BeginClosing no) conn.old conn.new result }
{
    let file = known::<OutgoingProgress, S>(cx, conn, no)?;
    if !is_waiting(&file.state) {
        return Err(OfficeFault::Refused(Cause::State));
    }
    let edit = outgoing_edit(no, file.mark, OutgoingState::Closing);
    make_edits(conn, &[edit])
}

/// Marks a file whose end was sent as handed over.
pub(crate) fn hand_over<S: Alter>(
    cx: Context,
    conn: &mut Connection<S>,
    no: u64,
) -> Result<(), OfficeFault>
    requires { conn.old.in_transaction ≡ false }
    ensures { MakesChange S.Store cx.limits (HandOver no) conn.old conn.new result }
{
    let file = known::<OutgoingProgress, S>(cx, conn, no)?;
    if !is_closing(&file.state) {
        return Err(OfficeFault::Refused(Cause::State));
    }
    let edit = outgoing_edit(no, file.mark, OutgoingState::Handed);
    make_edits(conn, &[edit])
}

/// Marks a file as refused that is waiting, or whose end was sent.
pub(crate) fn refuse<S: Alter>(
    cx: Context,
    conn: &mut Connection<S>,
    no: u64,
    reason: Count<2>,
) -> Result<(), OfficeFault>
    requires { conn.old.in_transaction ≡ false }
    ensures { MakesChange S.Store cx.limits (Refuse no reason) conn.old conn.new result }
{
    let file = known::<OutgoingProgress, S>(cx, conn, no)?;
    if !is_on_its_way(&file.state) {
        return Err(OfficeFault::Refused(Cause::State));
    }
    let edit = outgoing_edit(no, file.mark, OutgoingState::Refused(reason));
    make_edits(conn, &[edit])
}

/// Reopens a file whose end was sent: it waits again, with mark 0.
pub(crate) fn reopen<S: Alter>(
    cx: Context,
    conn: &mut Connection<S>,
    no: u64,
) -> Result<(), OfficeFault>
    requires { conn.old.in_transaction ≡ false }
    ensures { MakesChange S.Store cx.limits (Reopen no) conn.old conn.new result }
{
    let state = known::<OutgoingProgress, S>(cx, conn, no)?.state;
    if !is_closing(&state) {
        return Err(OfficeFault::Refused(Cause::State));
    }
    let edit = outgoing_edit(no, 0, OutgoingState::Waiting);
    make_edits(conn, &[edit])
}
