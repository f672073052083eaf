//! The changes of an incoming file: `Start`, `Keep`, `Close` and `GiveUp`.

ghost use Rattle.std.specs.Prelude.{◌≡◌, IfErr, IfOk, false, true};
ghost use Rattle.oftp_register.specs.declared.change.Change.TheVariants.{Close, GiveUp, Keep};
ghost use Rattle.oftp_store.specs.Commits.{EndsCommit, Finds, MakesChange, NeedsFit};
ghost use Rattle.oftp_store.specs.Edits.{more, start_of};
ghost use Rattle.oftp_store.specs.FileProgress.{incoming_told, is_open, is_open_file};
ghost use Rattle.oftp_store.specs.Allocations.{goes_on};

use super::Context;
use super::edit::{Edit, EditKind, NewHeader};
use super::known::known;
use super::transaction::make_edits;
use crate::queries::allocation::{IncomingAllocation, find_incoming_allocation};
use crate::queries::progress::IncomingProgress;
use oftp_register::{Cause, IncomingState, OfficeFault, Side};
use oftp_vfile::Rows;
use sqlite::{Alter, Connection};

// Whether a file is open and has at least `count` rows, so that it may go on after them.
fn goes_on(progress: &IncomingProgress, count: u64) -> bool
    ensures { result ≡ goes_on progress.now count }
{
    match progress.state {
        IncomingState::Open => count <= u64::from(progress.rows),
        IncomingState::Whole => false,
    }
}

/// Starts an incoming file, or goes on with an open one after its first `count` rows.
pub(crate) fn start<S: Alter>(
    cx: Context,
    conn: &mut Connection<S>,
    header: &NewHeader<'_>,
    count: u64,
) -> Result<(), OfficeFault>
    requires { conn.old.in_transaction ≡ false }
    ensures { MakesChange S.Store cx.limits (start_of header.now count) conn.old conn.new result }
{
    match find_incoming_allocation(cx.alloc, conn, cx.limits, header.identity)? {
        IncomingAllocation::Full => {
            if count > 0 {
                return Err(OfficeFault::Refused(Cause::State));
            }
            Err(OfficeFault::Refused(Cause::Full))
        }
        IncomingAllocation::New(no) => {
            if count > 0 {
                return Err(OfficeFault::Refused(Cause::State));
            }
            let kind = EditKind::AddFile {
                side: Side::Incoming,
                header,
            };
            make_edits(conn, &[Edit { no, kind }])
        }
        IncomingAllocation::Known { no, progress } => {
            if !goes_on(&progress, count) {
                return Err(OfficeFault::Refused(Cause::State));
            }
            let new = EditKind::SetHeader { header };
            let rest = EditKind::CutRows {
                count: count as u32,
            };
            make_edits(conn, &[Edit { no, kind: new }, Edit { no, kind: rest }])
        }
    }
}

// Whether the file is still incomplete.
fn is_open(state: &IncomingState) -> bool
    ensures { result ≡ is_open state.now }
{
    matches!(state, IncomingState::Open)
}

// Finds the open incoming file with this number.
fn open_file<S: Alter>(
    cx: Context,
    conn: &mut Connection<S>,
    no: u64,
) -> Result<IncomingProgress, OfficeFault>
    requires { conn.old.in_transaction ≡ false }
    ensures autocommit { conn.new.in_transaction ≡ false }
    ensures found { IfOk result (Finds S.Store incoming_told no conn.old conn.new) }
    ensures open { IfOk result (λ file. is_open_file file ≡ true) }
    ensures ends { IfErr result (EndsCommit S.Store cx.limits (NeedsFit incoming_told is_open_file no) conn.old conn.new) }
{
    let file = known::<IncomingProgress, S>(cx, conn, no)?;
    if !is_open(&file.state) {
        return Err(OfficeFault::Refused(Cause::State));
    }
    Ok(file)
}

// The edit that appends rows to those that the file has.
fn more<'x>(no: u64, file: &IncomingProgress, rows: &'x Rows) -> Edit<'x>
    ensures { result ≡ more no file.now.rows rows.entry }
{
    let kind = EditKind::AddRows {
        side: Side::Incoming,
        from: file.rows,
        rows,
    };
    Edit { no, kind }
}

/// Appends rows to an open file.
pub(crate) fn keep<S: Alter>(
    cx: Context,
    conn: &mut Connection<S>,
    no: u64,
    rows: &Rows,
) -> Result<(), OfficeFault>
    requires { conn.old.in_transaction ≡ false }
    ensures { MakesChange S.Store cx.limits (Keep no rows.now) conn.old conn.new result }
{
    let file = open_file(cx, conn, no)?;
    make_edits(conn, &[more(no, &file, rows)])
}

/// Appends the last rows to an open file and marks it as whole.
pub(crate) fn close<S: Alter>(
    cx: Context,
    conn: &mut Connection<S>,
    no: u64,
    rows: &Rows,
) -> Result<(), OfficeFault>
    requires { conn.old.in_transaction ≡ false }
    ensures { MakesChange S.Store cx.limits (Close no rows.now) conn.old conn.new result }
{
    let file = open_file(cx, conn, no)?;
    let whole = EditKind::SetWhole;
    make_edits(conn, &[more(no, &file, rows), Edit { no, kind: whole }])
}

/// Deletes all rows of an open file.
pub(crate) fn give_up<S: Alter>(
    cx: Context,
    conn: &mut Connection<S>,
    no: u64,
) -> Result<(), OfficeFault>
    requires { conn.old.in_transaction ≡ false }
    ensures { MakesChange S.Store cx.limits (GiveUp no) conn.old conn.new result }
{
    open_file(cx, conn, no)?;
    let none = EditKind::CutRows { count: 0 };
    make_edits(conn, &[Edit { no, kind: none }])
}
