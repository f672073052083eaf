//! The implementation of `Office` for [`SqlOffice`].

ghost use Rattle.std.specs.Prelude.{◌≡◌, ◌≤◌, ◌||◌, ◌^◌, nat_le, nat_lt, IfErr, IfOk, IfSome};
ghost use Rattle.sqlite.specs.Held.{state};
ghost use Rattle.oftp_vfile.specs.declared.format.TheConstants.{MOST_ROWS};
ghost use Rattle.oftp_register.specs.Offices.{Counts, Commits, LooksUp};
ghost use Rattle.oftp_store.specs.Views.{content_alone, view_of};
ghost use Rattle.oftp_store.specs.Causes.{HasCommitCause, HasCause};
ghost use Rattle.oftp_store.specs.Shown.{shown};
ghost use Rattle.oftp_register.specs.Register.{has_received};
ghost use Rattle.oftp_register.specs.LookUps.{AreRowsWithin, IsIncomingWithin, IsItemWithin, IsOutgoingWithin, files_full, in_by_no, list_answered, list_in, list_issued, list_out, list_received, look_in, look_out, next_item, out_by_no, rows_of, units_of};
ghost use Rattle.oftp_register.specs.declared.fit.TheConstants.{MOST_UNITS};

use super::SqlOffice;
use crate::changes::Context;
use crate::changes::commit::commit_change;
use crate::queries::last_number::FIRST_FAR;
use crate::queries::{
    file_by_identity, file_by_number, identity, last_number, lists, next_item, rows, units,
};
use oftp_register::{
    AnsweredEntry, Change, Cursor, Identity, IncomingEntry, IssuedEntry, Item, Name, Office,
    OfficeFault, OutgoingEntry, ReceivedEntry, ResponseKind, Side,
};
use oftp_vfile::{Limits, MOST_ROWS, Rows};
use sqlite::Alter;

// Counts an error of the store or out of memory. A refusal isn't counted.
fn counted<T>(faults: &mut u64, found: Result<T, OfficeFault>) -> Result<T, OfficeFault>
    ensures same { result ≡ found }
    ensures counts { Counts faults.old faults.new found }
{
    match found {
        Ok(x) => Ok(x),
        Err(OfficeFault::Refused(cause)) => Err(OfficeFault::Refused(cause)),
        Err(OfficeFault::Store) => {
            *faults = faults.wrapping_add(1);
            Err(OfficeFault::Store)
        }
        Err(OfficeFault::Memory) => {
            *faults = faults.wrapping_add(1);
            Err(OfficeFault::Memory)
        }
    }
}

// Whether no register can have a row from `from` on of the file `no`. The number is too large for the store, or `from` exceeds the rows
// that a file may have.
fn is_past(no: u64, from: u64) -> bool
    ensures { result ≡ (nat_le (2 ^ 63) no || nat_lt MOST_ROWS from) }
{
    no >= FIRST_FAR || from > MOST_ROWS as u64
}

impl<S: Alter> Office for SqlOffice<S> {
    ghost view = { λ o. view_of o.limits o.faults (state S.Store o.conn) };

    fn limits(&self) -> Limits {
        self.limits
    }

    fn look_in(&mut self, identity: &Identity) -> Result<Option<IncomingEntry>, OfficeFault>
        ensures looks { LooksUp (λ r found. found ≡ look_in r identity.now) (shown S.Store self.old) (shown S.Store self.new) result }
        ensures within { IfOk result (λ found. IfSome found IsIncomingWithin) }
        ensures told { IfErr result (HasCause S.Store self.old.conn self.new.conn) }
    {
        let found = file_by_identity::look_in(self.alloc, &mut self.conn, identity);
        counted(&mut self.faults, found)
    }

    fn look_out(&mut self, identity: &Identity) -> Result<Option<OutgoingEntry>, OfficeFault>
        ensures looks { LooksUp (λ r found. found ≡ look_out r identity.now) (shown S.Store self.old) (shown S.Store self.new) result }
        ensures within { IfOk result (λ found. IfSome found IsOutgoingWithin) }
        ensures told { IfErr result (HasCause S.Store self.old.conn self.new.conn) }
    {
        let found = file_by_identity::look_out(self.alloc, &mut self.conn, identity);
        counted(&mut self.faults, found)
    }

    fn in_by_no(&mut self, no: u64) -> Result<Option<IncomingEntry>, OfficeFault>
        ensures looks { LooksUp (λ r found. found ≡ in_by_no r no) (shown S.Store self.old) (shown S.Store self.new) result }
        ensures within { IfOk result (λ found. IfSome found IsIncomingWithin) }
        ensures told { IfErr result (HasCause S.Store self.old.conn self.new.conn) }
    {
        if no >= FIRST_FAR {
            return Ok(None);
        }
        let found = file_by_number::find_incoming_file(self.alloc, &mut self.conn, no);
        counted(&mut self.faults, found)
    }

    fn out_by_no(&mut self, no: u64) -> Result<Option<OutgoingEntry>, OfficeFault>
        ensures looks { LooksUp (λ r found. found ≡ out_by_no r no) (shown S.Store self.old) (shown S.Store self.new) result }
        ensures within { IfOk result (λ found. IfSome found IsOutgoingWithin) }
        ensures told { IfErr result (HasCause S.Store self.old.conn self.new.conn) }
    {
        if no >= FIRST_FAR {
            return Ok(None);
        }
        let found = file_by_number::find_outgoing_file(self.alloc, &mut self.conn, no);
        counted(&mut self.faults, found)
    }

    fn files_full(&mut self, side: Side) -> Result<bool, OfficeFault>
        ensures looks { LooksUp (λ r full. full ≡ files_full r side) (shown S.Store self.old) (shown S.Store self.new) result }
        ensures told { IfErr result (HasCause S.Store self.old.conn self.new.conn) }
    {
        let full = last_number::is_full(&mut self.conn, side, self.limits.files);
        counted(&mut self.faults, full)
    }

    fn has_received(&mut self, kind: ResponseKind, identity: &Identity) -> Result<bool, OfficeFault>
        ensures looks { LooksUp (λ r there. there ≡ has_received r kind identity.now) (shown S.Store self.old) (shown S.Store self.new) result }
        ensures told { IfErr result (HasCause S.Store self.old.conn self.new.conn) }
    {
        let there = identity::has_filed(&mut self.conn, kind, identity);
        counted(&mut self.faults, there)
    }

    fn next_item(
        &mut self,
        partner: &Name<25>,
        cursor: Cursor,
        files: bool,
    ) -> Result<Option<Item>, OfficeFault>
        ensures looks { LooksUp (λ r item. item ≡ next_item r partner.now cursor files) (shown S.Store self.old) (shown S.Store self.new) result }
        ensures within { IfOk result (λ found. IfSome found IsItemWithin) }
        ensures told { IfErr result (HasCause S.Store self.old.conn self.new.conn) }
    {
        if !files {
            let due = next_item::next_due(self.alloc, &mut self.conn, partner, cursor);
            return counted(&mut self.faults, due);
        }
        let found = next_item::next_item(self.alloc, &mut self.conn, partner, cursor);
        counted(&mut self.faults, found)
    }

    fn rows_of(&mut self, side: Side, no: u64, from: u64, most: u64) -> Result<Rows, OfficeFault>
        ensures looks { LooksUp (λ r rows. rows ≡ rows_of r side no from most) (shown S.Store self.old) (shown S.Store self.new) result }
        ensures within { IfOk result (AreRowsWithin from most) }
        ensures told { IfErr result (HasCause S.Store self.old.conn self.new.conn) }
    {
        if is_past(no, from) {
            let none = Vec::new(self.alloc);
            return Ok(Rows::new(none));
        }
        let found = rows::rows_of(self.alloc, &mut self.conn, side, no, from, most);
        counted(&mut self.faults, found)
    }

    fn units_of(&mut self, side: Side, no: u64) -> Result<u64, OfficeFault>
        ensures looks { LooksUp (λ r units. units ≡ units_of r side no) (shown S.Store self.old) (shown S.Store self.new) result }
        ensures within { IfOk result (λ units. units ≤ MOST_UNITS) }
        ensures told { IfErr result (HasCause S.Store self.old.conn self.new.conn) }
    {
        if no >= FIRST_FAR {
            return Ok(0);
        }
        let found = units::count_units(self.alloc, &mut self.conn, side, no);
        counted(&mut self.faults, found)
    }

    fn list_in(&mut self) -> Result<Vec<IncomingEntry>, OfficeFault>
        ensures looks { LooksUp (λ r entries. entries.items ≡ list_in r) (shown S.Store self.old) (shown S.Store self.new) result }
        ensures told { IfErr result (HasCause S.Store self.old.conn self.new.conn) }
    {
        let entries = lists::list::<IncomingEntry, S>(self.alloc, &mut self.conn);
        counted(&mut self.faults, entries)
    }

    fn list_out(&mut self) -> Result<Vec<OutgoingEntry>, OfficeFault>
        ensures looks { LooksUp (λ r entries. entries.items ≡ list_out r) (shown S.Store self.old) (shown S.Store self.new) result }
        ensures told { IfErr result (HasCause S.Store self.old.conn self.new.conn) }
    {
        let entries = lists::list::<OutgoingEntry, S>(self.alloc, &mut self.conn);
        counted(&mut self.faults, entries)
    }

    fn list_issued(&mut self) -> Result<Vec<IssuedEntry>, OfficeFault>
        ensures looks { LooksUp (λ r entries. entries.items ≡ list_issued r) (shown S.Store self.old) (shown S.Store self.new) result }
        ensures told { IfErr result (HasCause S.Store self.old.conn self.new.conn) }
    {
        let entries = lists::list::<IssuedEntry, S>(self.alloc, &mut self.conn);
        counted(&mut self.faults, entries)
    }

    fn list_received(&mut self) -> Result<Vec<ReceivedEntry>, OfficeFault>
        ensures looks { LooksUp (λ r entries. entries.items ≡ list_received r) (shown S.Store self.old) (shown S.Store self.new) result }
        ensures told { IfErr result (HasCause S.Store self.old.conn self.new.conn) }
    {
        let entries = lists::list::<ReceivedEntry, S>(self.alloc, &mut self.conn);
        counted(&mut self.faults, entries)
    }

    fn list_answered(&mut self) -> Result<Vec<AnsweredEntry>, OfficeFault>
        ensures looks { LooksUp (λ r entries. entries.items ≡ list_answered r) (shown S.Store self.old) (shown S.Store self.new) result }
        ensures told { IfErr result (HasCause S.Store self.old.conn self.new.conn) }
    {
        let entries = lists::list::<AnsweredEntry, S>(self.alloc, &mut self.conn);
        counted(&mut self.faults, entries)
    }

    fn commit(&mut self, change: Change<'_>) -> Result<(), OfficeFault>
        ensures commits { Commits change.entry (shown S.Store self.old) (shown S.Store self.new) result }
        ensures told { IfErr result (HasCommitCause S.Store self.old.limits change.entry self.old.conn self.new.conn) }
    {
        let cx = Context {
            alloc: self.alloc,
            limits: self.limits,
        };
        let made = commit_change(cx, &mut self.conn, change);
        counted(&mut self.faults, made)
    }

    ghost sound = { λ o _ stands. stands.holds.sound };

    ghost alone = { λ o _ stands db left. content_alone o.limits _ stands db (S.Store.settled o.conn.store db stands.is_open left) };

    ghost leaves = { λ o clean. S.Store.survives o.conn.store clean };
}
