//! An office that stops at a register: it refuses the change behind it.

ghost use Rattle.std.specs.Prelude.{◌≡◌, IfErr, OnOk};
ghost use Rattle.oftp_listing.specs.Texts.{Asks};
ghost use Rattle.oftp_replay.specs.Halting.{IsBehind, counted, up_to};

use oftp_contents::is_left;
use oftp_life::faults::{count, lost};
use oftp_outcomes::Fault;
use oftp_recording::{Digest, RegisterDigests};
use oftp_register::{
    AnsweredEntry, Change, Cursor, Identity, IncomingEntry, IssuedEntry, Item, Name, Office,
    OfficeFault, OutgoingEntry, ReceivedEntry, ResponseKind, Side,
};
use oftp_vfile::{Limits, Rows};
use std::alloc::{AllocError, Global};
use std::cell::Cell;
use std::rc::Rc;

/// How far changes are made.
#[derive(Clone, Copy, Debug, PartialEq, Eq, Drop)]
enum Way {
    /// All of them.
    Open,
    /// Up to this register, if they come by it.
    UpTo(Digest),
    /// They came by it, and the next was refused.
    Closed,
}

impl Way {
    /// The same from now on with a register, if there is one. Once a change was refused, each one is.
    fn up_to(self, register: Option<Digest>) -> Way
        ensures { result ≡ up_to register self }
    {
        match (self, register) {
            (Way::Closed, _) => Way::Closed,
            (Way::Open | Way::UpTo(_), Some(register)) => Way::UpTo(register),
            (way, None) => way,
        }
    }

    /// The same once a change is wanted at this register.
    fn behind(self, now: Digest) -> Way
        ensures { IsBehind now self result }
    {
        match self {
            Way::UpTo(register) if is_left(Some(register), now) => Way::Closed,
            way => way,
        }
    }
}

/// Up to which register changes are made. Whoever plays a record sets it, and the office, which has the same one, asks before each change.
#[derive(Drop)]
pub(crate) struct Halt {
    way: Rc<Cell<Way>>,
    // Those of the registers of that office.
    digests: Rc<RegisterDigests>,
}

impl Halt {
    /// All changes are made.
    pub(crate) fn new(alloc: Global) -> Result<Halt, AllocError> {
        Ok(Halt {
            way: Rc::new(alloc, Cell::new(Way::Open))?,
            digests: Rc::new(alloc, RegisterDigests::new(alloc))?,
        })
    }

    /// The same one for somebody else.
    pub(crate) fn again(&self) -> Result<Halt, AllocError> {
        Ok(Halt {
            way: self.way.clone()?,
            digests: self.digests.clone()?,
        })
    }

    /// The digest of the register of the office, or of a life with it.
    ///
    /// # Errors
    /// [`Fault::Run`] if the office failed; [`Fault::MEMORY`].
    pub(crate) fn register<O: Office>(&self, office: &mut O) -> Result<Digest, Fault>
        ensures asks { Asks (O.view office.old) (O.view office.new) }
        ensures untold { OnOk result ((O.view office.new).told ≡ (O.view office.old).told) }
    {
        self.digests.digest(office)
    }

    /// From now on the office is another one.
    pub(crate) fn turn(&self) {
        self.digests.forget();
    }

    /// From now on changes are made up to a register, if there is one. Once one was refused, each one is.
    pub(crate) fn set(&self, register: Option<Digest>) {
        self.way.set(self.way.get().up_to(register));
    }

    /// From now on all changes are made again. Returns whether one was refused.
    pub(crate) fn lift(&self) -> bool {
        self.way.replace(Way::Open) == Way::Closed
    }
}

/// An office whose changes are made up to a register. The change behind that, and each one then, fails as if the store had. In all else it is the
/// office in it.
#[derive(Drop)]
pub(crate) struct Halting<O> {
    office: O,
    halt: Halt,
    // How many errors it returned, modulo 2^64.
    faults: u64,
}

impl<O> Halting<O> {
    /// An office that asks here before each change.
    pub(crate) fn new(office: O, halt: Halt) -> Halting<O>
        ensures office { result.office ≡ office }
    {
        Halting {
            office,
            halt,
            faults: 0,
        }
    }
}

impl<O: Office> Halting<O> {
    // Lets the next change be made, or refuses it.
    fn pass(&mut self) -> Result<(), OfficeFault>
        ensures asks { Asks (O.view self.old.office) (O.view self.new.office) }
        ensures untold { OnOk result ((O.view self.new.office).told ≡ (O.view self.old.office).told) }
        ensures fault { IfErr result (λ fault. fault ≡ OfficeFault.Store) }
        ensures faults { self.new.faults ≡ self.old.faults }
    {
        let way = match self.halt.way.get() {
            Way::UpTo(register) => {
                let Ok(now) = self.halt.register(&mut self.office) else {
                    return Err(OfficeFault::Store);
                };
                Way::UpTo(register).behind(now)
            }
            way => way,
        };
        self.halt.way.set(way);
        match way {
            Way::Open | Way::UpTo(_) => Ok(()),
            Way::Closed => Err(OfficeFault::Store),
        }
    }
}

impl<O: Office> Office for Halting<O> {
    ghost view = { λ o. counted (O.view o.office) o.faults };

    fn limits(&self) -> Limits {
        self.office.limits()
    }

    fn look_in(&mut self, identity: &Identity) -> Result<Option<IncomingEntry>, OfficeFault> {
        let found = self.office.look_in(identity);
        count(&mut self.faults, &found);
        found
    }

    fn look_out(&mut self, identity: &Identity) -> Result<Option<OutgoingEntry>, OfficeFault> {
        let found = self.office.look_out(identity);
        count(&mut self.faults, &found);
        found
    }

    fn in_by_no(&mut self, no: u64) -> Result<Option<IncomingEntry>, OfficeFault> {
        let found = self.office.in_by_no(no);
        count(&mut self.faults, &found);
        found
    }

    fn out_by_no(&mut self, no: u64) -> Result<Option<OutgoingEntry>, OfficeFault> {
        let found = self.office.out_by_no(no);
        count(&mut self.faults, &found);
        found
    }

    fn files_full(&mut self, side: Side) -> Result<bool, OfficeFault> {
        let found = self.office.files_full(side);
        count(&mut self.faults, &found);
        found
    }

    fn has_received(
        &mut self,
        kind: ResponseKind,
        identity: &Identity,
    ) -> Result<bool, OfficeFault> {
        let found = self.office.has_received(kind, identity);
        count(&mut self.faults, &found);
        found
    }

    fn next_item(
        &mut self,
        partner: &Name<25>,
        cursor: Cursor,
        files: bool,
    ) -> Result<Option<Item>, OfficeFault> {
        let found = self.office.next_item(partner, cursor, files);
        count(&mut self.faults, &found);
        found
    }

    fn rows_of(&mut self, side: Side, no: u64, from: u64, most: u64) -> Result<Rows, OfficeFault> {
        let found = self.office.rows_of(side, no, from, most);
        count(&mut self.faults, &found);
        found
    }

    fn units_of(&mut self, side: Side, no: u64) -> Result<u64, OfficeFault> {
        let found = self.office.units_of(side, no);
        count(&mut self.faults, &found);
        found
    }

    fn list_in(&mut self) -> Result<Vec<IncomingEntry>, OfficeFault> {
        let found = self.office.list_in();
        count(&mut self.faults, &found);
        found
    }

    fn list_out(&mut self) -> Result<Vec<OutgoingEntry>, OfficeFault> {
        let found = self.office.list_out();
        count(&mut self.faults, &found);
        found
    }

    fn list_issued(&mut self) -> Result<Vec<IssuedEntry>, OfficeFault> {
        let found = self.office.list_issued();
        count(&mut self.faults, &found);
        found
    }

    fn list_received(&mut self) -> Result<Vec<ReceivedEntry>, OfficeFault> {
        let found = self.office.list_received();
        count(&mut self.faults, &found);
        found
    }

    fn list_answered(&mut self) -> Result<Vec<AnsweredEntry>, OfficeFault> {
        let found = self.office.list_answered();
        count(&mut self.faults, &found);
        found
    }

    fn commit(&mut self, change: Change<'_>) -> Result<(), OfficeFault> {
        let Ok(()) = self.pass() else {
            return Err(lost(&mut self.faults));
        };
        let made = self.office.commit(change);
        count(&mut self.faults, &made);
        made
    }

    ghost sound = { λ o clean stands. O.sound o.office clean stands };

    ghost alone = { λ o clean stands. O.alone o.office clean stands };

    ghost leaves = { λ o clean. O.leaves o.office clean };
}
