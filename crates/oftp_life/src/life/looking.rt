//! A life as an office that can only be looked at: it refuses each change.

ghost use Rattle.std.specs.Prelude.{◌≡◌, ◌≤◌, IfOk, IfSome, true};
ghost use Rattle.oftp_register.specs.Register.{has_received};
ghost use Rattle.oftp_register.specs.LookUps.{AreRowsWithin, IsIncomingWithin, IsItemWithin, IsOutgoingWithin, files_full, in_by_no, list_answered, list_in, list_issued, list_out, list_received, look_in, look_out, next_item, out_by_no, rows_of, units_of};
ghost use Rattle.oftp_register.specs.Offices.{Commits};
ghost use Rattle.oftp_register.specs.declared.fit.TheConstants.{MOST_UNITS};
ghost use Rattle.oftp_life.specs.Looks.{IsSameLife, LifeLooksUp, life_seen};

use super::Life;
use crate::faults::{count, lost};
use crate::stage::has_failed;
use oftp_register::{
    AnsweredEntry, Change, Cursor, Identity, IncomingEntry, IssuedEntry, Item, Name, Office,
    OfficeFault, OutgoingEntry, ReceivedEntry, ResponseKind, Side,
};
use oftp_vfile::{Limits, Rows};

/// Whoever has a life as an office can look things up. Each change is refused as an error of the store.
impl<O: Office> Office for Life<O> {
    ghost use Rattle.oftp_life.specs.Looks.{shows};

    ghost view = { λ l. shows (O.view l.office) l.faults l.over };

    fn limits(&self) -> Limits {
        self.office.limits()
    }

    fn look_in(&mut self, identity: &Identity) -> Result<Option<IncomingEntry>, OfficeFault>
        ensures looks { LifeLooksUp O.view (λ r found. found ≡ look_in r identity.now) self.old self.new result }
        ensures within { IfOk result (λ found. IfSome found IsIncomingWithin) }
        ensures idle { self.old.over ≡ true → result ≡ Err OfficeFault.Store }
        ensures same { IsSameLife self.old self.new }
    {
        if self.is_over {
            return Err(lost(&mut self.faults));
        }
        let found = self.office.look_in(identity);
        count(&mut self.faults, &found);
        self.is_over = has_failed(&found);
        found
    }

    fn look_out(&mut self, identity: &Identity) -> Result<Option<OutgoingEntry>, OfficeFault>
        ensures looks { LifeLooksUp O.view (λ r found. found ≡ look_out r identity.now) self.old self.new result }
        ensures within { IfOk result (λ found. IfSome found IsOutgoingWithin) }
        ensures idle { self.old.over ≡ true → result ≡ Err OfficeFault.Store }
        ensures same { IsSameLife self.old self.new }
    {
        if self.is_over {
            return Err(lost(&mut self.faults));
        }
        let found = self.office.look_out(identity);
        count(&mut self.faults, &found);
        self.is_over = has_failed(&found);
        found
    }

    fn in_by_no(&mut self, no: u64) -> Result<Option<IncomingEntry>, OfficeFault>
        ensures looks { LifeLooksUp O.view (λ r found. found ≡ in_by_no r no) self.old self.new result }
        ensures within { IfOk result (λ found. IfSome found IsIncomingWithin) }
        ensures idle { self.old.over ≡ true → result ≡ Err OfficeFault.Store }
        ensures same { IsSameLife self.old self.new }
    {
        if self.is_over {
            return Err(lost(&mut self.faults));
        }
        let found = self.office.in_by_no(no);
        count(&mut self.faults, &found);
        self.is_over = has_failed(&found);
        found
    }

    fn out_by_no(&mut self, no: u64) -> Result<Option<OutgoingEntry>, OfficeFault>
        ensures looks { LifeLooksUp O.view (λ r found. found ≡ out_by_no r no) self.old self.new result }
        ensures within { IfOk result (λ found. IfSome found IsOutgoingWithin) }
        ensures idle { self.old.over ≡ true → result ≡ Err OfficeFault.Store }
        ensures same { IsSameLife self.old self.new }
    {
        if self.is_over {
            return Err(lost(&mut self.faults));
        }
        let found = self.office.out_by_no(no);
        count(&mut self.faults, &found);
        self.is_over = has_failed(&found);
        found
    }

    fn files_full(&mut self, side: Side) -> Result<bool, OfficeFault>
        ensures looks { LifeLooksUp O.view (λ r full. full ≡ files_full r side) self.old self.new result }
        ensures idle { self.old.over ≡ true → result ≡ Err OfficeFault.Store }
        ensures same { IsSameLife self.old self.new }
    {
        if self.is_over {
            return Err(lost(&mut self.faults));
        }
        let found = self.office.files_full(side);
        count(&mut self.faults, &found);
        self.is_over = has_failed(&found);
        found
    }

    fn has_received(&mut self, kind: ResponseKind, identity: &Identity) -> Result<bool, OfficeFault>
        ensures looks { LifeLooksUp O.view (λ r there. there ≡ has_received r kind identity.now) self.old self.new result }
        ensures idle { self.old.over ≡ true → result ≡ Err OfficeFault.Store }
        ensures same { IsSameLife self.old self.new }
    {
        if self.is_over {
            return Err(lost(&mut self.faults));
        }
        let found = self.office.has_received(kind, identity);
        count(&mut self.faults, &found);
        self.is_over = has_failed(&found);
        found
    }

    fn next_item(
        &mut self,
        partner: &Name<25>,
        cursor: Cursor,
        files: bool,
    ) -> Result<Option<Item>, OfficeFault>
        ensures looks { LifeLooksUp O.view (λ r item. item ≡ next_item r partner.now cursor files) self.old self.new result }
        ensures within { IfOk result (λ found. IfSome found IsItemWithin) }
        ensures idle { self.old.over ≡ true → result ≡ Err OfficeFault.Store }
        ensures same { IsSameLife self.old self.new }
    {
        if self.is_over {
            return Err(lost(&mut self.faults));
        }
        let found = self.office.next_item(partner, cursor, files);
        count(&mut self.faults, &found);
        self.is_over = has_failed(&found);
        found
    }

    fn rows_of(&mut self, side: Side, no: u64, from: u64, most: u64) -> Result<Rows, OfficeFault>
        ensures looks { LifeLooksUp O.view (λ r rows. rows ≡ rows_of r side no from most) self.old self.new result }
        ensures within { IfOk result (AreRowsWithin from most) }
        ensures idle { self.old.over ≡ true → result ≡ Err OfficeFault.Store }
        ensures same { IsSameLife self.old self.new }
    {
        if self.is_over {
            return Err(lost(&mut self.faults));
        }
        let found = self.office.rows_of(side, no, from, most);
        count(&mut self.faults, &found);
        self.is_over = has_failed(&found);
        found
    }

    fn units_of(&mut self, side: Side, no: u64) -> Result<u64, OfficeFault>
        ensures looks { LifeLooksUp O.view (λ r units. units ≡ units_of r side no) self.old self.new result }
        ensures within { IfOk result (λ units. units ≤ MOST_UNITS) }
        ensures idle { self.old.over ≡ true → result ≡ Err OfficeFault.Store }
        ensures same { IsSameLife self.old self.new }
    {
        if self.is_over {
            return Err(lost(&mut self.faults));
        }
        let found = self.office.units_of(side, no);
        count(&mut self.faults, &found);
        self.is_over = has_failed(&found);
        found
    }

    fn list_in(&mut self) -> Result<Vec<IncomingEntry>, OfficeFault>
        ensures looks { LifeLooksUp O.view (λ r entries. entries.items ≡ list_in r) self.old self.new result }
        ensures idle { self.old.over ≡ true → result ≡ Err OfficeFault.Store }
        ensures same { IsSameLife self.old self.new }
    {
        if self.is_over {
            return Err(lost(&mut self.faults));
        }
        let found = self.office.list_in();
        count(&mut self.faults, &found);
        self.is_over = has_failed(&found);
        found
    }

    fn list_out(&mut self) -> Result<Vec<OutgoingEntry>, OfficeFault>
        ensures looks { LifeLooksUp O.view (λ r entries. entries.items ≡ list_out r) self.old self.new result }
        ensures idle { self.old.over ≡ true → result ≡ Err OfficeFault.Store }
        ensures same { IsSameLife self.old self.new }
    {
        if self.is_over {
            return Err(lost(&mut self.faults));
        }
        let found = self.office.list_out();
        count(&mut self.faults, &found);
        self.is_over = has_failed(&found);
        found
    }

    fn list_issued(&mut self) -> Result<Vec<IssuedEntry>, OfficeFault>
        ensures looks { LifeLooksUp O.view (λ r entries. entries.items ≡ list_issued r) self.old self.new result }
        ensures idle { self.old.over ≡ true → result ≡ Err OfficeFault.Store }
        ensures same { IsSameLife self.old self.new }
    {
        if self.is_over {
            return Err(lost(&mut self.faults));
        }
        let found = self.office.list_issued();
        count(&mut self.faults, &found);
        self.is_over = has_failed(&found);
        found
    }

    fn list_received(&mut self) -> Result<Vec<ReceivedEntry>, OfficeFault>
        ensures looks { LifeLooksUp O.view (λ r entries. entries.items ≡ list_received r) self.old self.new result }
        ensures idle { self.old.over ≡ true → result ≡ Err OfficeFault.Store }
        ensures same { IsSameLife self.old self.new }
    {
        if self.is_over {
            return Err(lost(&mut self.faults));
        }
        let found = self.office.list_received();
        count(&mut self.faults, &found);
        self.is_over = has_failed(&found);
        found
    }

    fn list_answered(&mut self) -> Result<Vec<AnsweredEntry>, OfficeFault>
        ensures looks { LifeLooksUp O.view (λ r entries. entries.items ≡ list_answered r) self.old self.new result }
        ensures idle { self.old.over ≡ true → result ≡ Err OfficeFault.Store }
        ensures same { IsSameLife self.old self.new }
    {
        if self.is_over {
            return Err(lost(&mut self.faults));
        }
        let found = self.office.list_answered();
        count(&mut self.faults, &found);
        self.is_over = has_failed(&found);
        found
    }

    fn commit(&mut self, _change: Change<'_>) -> Result<(), OfficeFault>
        ensures commits { Commits _change.entry (life_seen O.view self.old) (life_seen O.view self.new) result }
        ensures refuses { result ≡ Err OfficeFault.Store }
        ensures same { IsSameLife self.old self.new }
    {
        Err(lost(&mut self.faults))
    }

    ghost sound = { λ l clean stands. O.sound l.office clean stands.0 };

    ghost alone = { λ l clean stands. O.alone l.office clean stands.0 };

    ghost leaves = { λ l clean. O.leaves l.office clean };
}
