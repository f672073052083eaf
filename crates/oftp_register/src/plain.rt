//! An office in memory.

ghost use Rattle.std.specs.Prelude.{◌≡◌, ◌↔◌, ◌≤◌, ⊤, ℕ, Ok, Err, IfSome, IfOk, IsTrue, MatchResult, map, refl};
ghost use Rattle.oftp_register.specs.Register.{Register, empty, has_received};
ghost use Rattle.oftp_register.specs.Changes.{apply};
ghost use Rattle.oftp_register.specs.Offices.{Counts};
ghost use Rattle.oftp_register.specs.Soundness.{IsFit, IsSound};
ghost use Rattle.oftp_register.specs.SoundProps.{sound-prop};
ghost use Rattle.oftp_register.specs.LookUps.{AreRowsWithin, IsIncomingWithin, IsItemWithin, IsOutgoingWithin, files_full, in_by_no, list_answered, list_in, list_issued, list_out, list_received, look_in, look_out, next_item, out_by_no, rows_of, units_of};
ghost use Rattle.oftp_register.specs.Lists.{CarriesOut, received_of, register_in};
ghost use Rattle.oftp_register.specs.declared.fit.TheConstants.{MOST_FILES, MOST_OCTETS, MOST_UNITS};

mod incoming;
mod lists;
mod outgoing;
mod units;

use crate::change::Change;
use crate::entries::{
    AnsweredEntry, Cursor, IncomingEntry, IssuedEntry, Item, OutgoingEntry, ReceivedEntry,
    ReceivedResponse, Side,
};
use crate::entry::{Identity, ResponseKind};
use crate::name::Name;
use crate::office::{Office, OfficeFault};
use lists::Lists;
use oftp_vfile::{Limits, Rows};
use std::alloc::{AllocError, Global};

/// An office that keeps its register in lists in memory. In its contract a crash leaves its register, but nothing can open it again. It
/// never returns [`OfficeFault::Store`].
#[derive(Drop)]
pub struct PlainOffice {
    lists: Lists,
    faults: u64,
    ghost sound: { IsSound (register_in lists) } by { sound-prop (register_in lists) },
}

impl PlainOffice {
    ghost use Rattle.oftp_register.specs.Plain.{faults_of, register_of};

    /// An office with an empty register. Its limits are at most 1,000,000 files and 1,024,000,000 octets of a file, which
    /// [`are_limits`](crate::are_limits) checks. It allocates nothing.
    pub fn new(alloc: Global, limits: Limits) -> PlainOffice
        requires files { limits.files ≤ MOST_FILES }
        requires octets { limits.octets ≤ MOST_OCTETS }
        ensures { register_of result ≡ empty limits }
    {
        PlainOffice {
            lists: Lists::new(alloc, limits),
            faults: 0,
        }
    }

    // Counts an error if an allocation failed.
    fn counted<T>(&mut self, found: Result<T, AllocError>) -> Result<T, OfficeFault>
        ensures told { MatchResult found (λ x. result ≡ Ok x) (λ _. result ≡ Err OfficeFault.Memory) }
        ensures register { register_of self.new ≡ register_of self.old }
        ensures counts { Counts (faults_of self.old) (faults_of self.new) result }
    {
        match found {
            Ok(x) => Ok(x),
            Err(_) => {
                self.faults = self.faults.wrapping_add(1);
                Err(OfficeFault::Memory)
            }
        }
    }

    /// The received responses, in order of their numbers.
    pub fn received(&self) -> &[ReceivedResponse]
        ensures { map received_of result.now ≡ (register_of self.now).received }
    {
        &self.lists.received
    }

    /// Whether a change is fit for the register, as [`Office::commit`] demands. It allocates nothing.
    pub fn is_fit(&self, change: &Change<'_>) -> bool
        ensures { IsTrue result ↔ IsFit (register_of self.now) change.now }
    {
        self.lists.allows(change)
    }
}

impl Office for PlainOffice {
    ghost use Rattle.oftp_register.specs.Plain.{LooksInMemory, faults_of, register_of, view_of};

    ghost view = { view_of };

    fn limits(&self) -> Limits {
        self.lists.limits
    }

    fn look_in(&mut self, identity: &Identity) -> Result<Option<IncomingEntry>, OfficeFault>
        ensures looks { LooksInMemory (λ r found. found ≡ look_in r identity.now) self.old self.new result }
        ensures within { IfOk result (λ found. IfSome found IsIncomingWithin) }
    {
        let found = self.lists.look_in(identity);
        self.counted(found)
    }

    fn look_out(&mut self, identity: &Identity) -> Result<Option<OutgoingEntry>, OfficeFault>
        ensures looks { LooksInMemory (λ r found. found ≡ look_out r identity.now) self.old self.new result }
        ensures within { IfOk result (λ found. IfSome found IsOutgoingWithin) }
    {
        let found = self.lists.look_out(identity);
        self.counted(found)
    }

    fn in_by_no(&mut self, no: u64) -> Result<Option<IncomingEntry>, OfficeFault>
        ensures looks { LooksInMemory (λ r found. found ≡ in_by_no r no) self.old self.new result }
        ensures within { IfOk result (λ found. IfSome found IsIncomingWithin) }
    {
        let found = self.lists.in_by_no(no);
        self.counted(found)
    }

    fn out_by_no(&mut self, no: u64) -> Result<Option<OutgoingEntry>, OfficeFault>
        ensures looks { LooksInMemory (λ r found. found ≡ out_by_no r no) self.old self.new result }
        ensures within { IfOk result (λ found. IfSome found IsOutgoingWithin) }
    {
        let found = self.lists.out_by_no(no);
        self.counted(found)
    }

    fn files_full(&mut self, side: Side) -> Result<bool, OfficeFault>
        ensures answer { result ≡ Ok (files_full (register_of self.old) side) }
        ensures same { self.new ≡ self.old }
    {
        Ok(self.lists.files_full(side))
    }

    fn has_received(&mut self, kind: ResponseKind, identity: &Identity) -> Result<bool, OfficeFault>
        ensures answer { result ≡ Ok (has_received (register_of self.old) kind identity.now) }
        ensures same { self.new ≡ self.old }
    {
        Ok(self.lists.is_received(kind, identity))
    }

    fn next_item(
        &mut self,
        partner: &Name<25>,
        cursor: Cursor,
        files: bool,
    ) -> Result<Option<Item>, OfficeFault>
        ensures looks { LooksInMemory (λ r item. item ≡ next_item r partner.now cursor files) self.old self.new result }
        ensures within { IfOk result (λ found. IfSome found IsItemWithin) }
    {
        let found = self.lists.next_item(partner, cursor, files);
        self.counted(found)
    }

    fn rows_of(&mut self, side: Side, no: u64, from: u64, most: u64) -> Result<Rows, OfficeFault>
        ensures looks { LooksInMemory (λ r rows. rows ≡ rows_of r side no from most) self.old self.new result }
        ensures within { IfOk result (AreRowsWithin from most) }
    {
        let found = self.lists.rows_of(side, no, from, most);
        self.counted(found)
    }

    fn units_of(&mut self, side: Side, no: u64) -> Result<u64, OfficeFault>
        ensures answer { result ≡ Ok (units_of (register_of self.old) side no) }
        ensures within { IfOk result (λ units. units ≤ MOST_UNITS) }
        ensures same { self.new ≡ self.old }
    {
        Ok(self.lists.units_of(side, no))
    }

    fn list_in(&mut self) -> Result<Vec<IncomingEntry>, OfficeFault>
        ensures looks { LooksInMemory (λ r entries. entries.items ≡ list_in r) self.old self.new result }
    {
        let found = self.lists.list_in();
        self.counted(found)
    }

    fn list_out(&mut self) -> Result<Vec<OutgoingEntry>, OfficeFault>
        ensures looks { LooksInMemory (λ r entries. entries.items ≡ list_out r) self.old self.new result }
    {
        let found = self.lists.list_out();
        self.counted(found)
    }

    fn list_issued(&mut self) -> Result<Vec<IssuedEntry>, OfficeFault>
        ensures looks { LooksInMemory (λ r entries. entries.items ≡ list_issued r) self.old self.new result }
    {
        let found = self.lists.list_issued();
        self.counted(found)
    }

    fn list_received(&mut self) -> Result<Vec<ReceivedEntry>, OfficeFault>
        ensures looks { LooksInMemory (λ r entries. entries.items ≡ list_received r) self.old self.new result }
    {
        let found = self.lists.list_received();
        self.counted(found)
    }

    fn list_answered(&mut self) -> Result<Vec<AnsweredEntry>, OfficeFault>
        ensures looks { LooksInMemory (λ r entries. entries.items ≡ list_answered r) self.old self.new result }
    {
        let found = self.lists.list_answered();
        self.counted(found)
    }

    // It never returns `Store`. A change that isn't fit would make the register unsound, so it is refused as `Memory`.
    fn commit(&mut self, change: Change<'_>) -> Result<(), OfficeFault>
        ensures made { CarriesOut register_of (apply (register_of self.old) change.entry) self.old self.new result }
        ensures counts { Counts (faults_of self.old) (faults_of self.new) result }
    {
        if !self.is_fit(&change) {
            self.faults = self.faults.wrapping_add(1);
            return Err(OfficeFault::Memory);
        }
        let made = self.lists.commit(change);
        if let Err(OfficeFault::Memory) = made {
            self.faults = self.faults.wrapping_add(1);
        }
        made
    }

    ghost sound = { λ o _ _. o.sound };

    ghost alone = { λ o _ _ c left. left };

    ghost leaves = { λ o _. ∣ (register_of o, refl) ∣₁ };
}
