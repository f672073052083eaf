//! The transaction that makes a change.

ghost use Rattle.std.specs.Prelude.{◌≡◌, ◌↔◌, IsTrue, false};
ghost use Rattle.oftp_tables.specs.Statements.{Performs};
ghost use Rattle.oftp_store.specs.Commits.{MakesEdits};
ghost use Rattle.oftp_store.specs.Edits.{IsStorable, Makes};

use super::edit::{Edit, EditKind};
use super::statements::{
    add_file, add_issued, add_received, add_rows, cut_rows, set_header, set_outgoing, set_sent,
    set_whole,
};
use crate::queries::last_number::FIRST_FAR;
use oftp_register::OfficeFault;
use oftp_tables::office_fault_of;
use sqlite::{Alter, Connection, Error, Transaction};

// Whether the database can store what an edit writes.
fn is_storable(edit: &Edit<'_>) -> bool
    ensures { IsTrue result ↔ IsStorable edit.now }
{
    let has_room = match &edit.kind {
        EditKind::AddRows { from, rows, .. } => (rows.len() as u64) < (1 << 32) - u64::from(*from),
        _ => true,
    };
    edit.no < FIRST_FAR && has_room
}

// Executes one edit that the database can store.
fn perform<S: Alter>(tx: &mut Transaction<'_, S>, edit: &Edit<'_>) -> Result<(), Error>
    requires { IsStorable edit.now }
    ensures same_reference { tx.new.conn.ghost_name ≡ tx.old.conn.ghost_name }
    ensures performs { Performs (Makes edit.now.no edit.now.kind) S.Store tx.old.conn.now tx.new.conn.now result }
{
    let no = edit.no;
    match &edit.kind {
        EditKind::AddFile { side, header } => add_file(tx, *side, no, header),
        EditKind::SetHeader { header } => set_header(tx, no, header),
        EditKind::SetWhole => set_whole(tx, no),
        EditKind::SetOutgoing { mark, state } => set_outgoing(tx, no, *mark, *state),
        EditKind::AddRows { side, from, rows } => add_rows(tx, *side, no, *from, rows),
        EditKind::CutRows { count } => cut_rows(tx, no, *count),
        EditKind::AddIssued { response } => add_issued(tx, no, response),
        EditKind::SetSent => set_sent(tx, no),
        EditKind::AddReceived { response } => add_received(tx, no, response),
    }
}

/// Executes edits in order, in one transaction. Edits that the database can't store return [`OfficeFault::Store`], and nothing is done.
pub(crate) fn make_edits<S: Alter>(
    conn: &mut Connection<S>,
    edits: &[Edit<'_>],
) -> Result<(), OfficeFault>
    requires { conn.old.in_transaction ≡ false }
    ensures { MakesEdits edits.now S.Store conn.old conn.new result }
{
    if !edits.iter().all(|edit| is_storable(edit)) {
        return Err(OfficeFault::Store);
    }
    let mut tx = conn.transaction();
    'edits: for edit in edits {
        if let Err(error) = perform(&mut tx, edit) {
            return Err(office_fault_of(error));
        }
    }
    match tx.commit() {
        Ok(()) => Ok(()),
        Err(error) => Err(office_fault_of(error)),
    }
}
