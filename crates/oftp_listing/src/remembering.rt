//! An office that remembers the numbers of octets of files, so that the rows of a file are measured once.

ghost use Rattle.std.specs.Prelude.{◌≡◌};
ghost use Rattle.oftp_register.specs.Offices.{LooksUp};
ghost use Rattle.oftp_listing.specs.Remembering.{AreCountsOf, IsBlank, has_final_rows, remembering};

use crate::counts::OctetCounts;
use oftp_register::{
    AnsweredEntry, Change, Cursor, Identity, IncomingEntry, IncomingState, IssuedEntry, Item, Name,
    Office, OfficeFault, OutgoingEntry, ReceivedEntry, ResponseKind, Side,
};
use oftp_vfile::{Limits, Rows};
use std::alloc::Global;

/// An office that remembers the numbers of octets of its files, as long as it lives. It remembers those of whole incoming files and of
/// outgoing files, whose rows no change alters. Everything else is asked of the office in it.
///
/// That office may also be used directly. Each of its changes leaves what is remembered true, as [`counts_stay`](crate::laws::counts_stay) says.
#[derive(Drop)]
pub struct RememberingOffice<O> {
    /// The office in it.
    pub office: O,
    counts: OctetCounts,
}

// Whether no change alters the rows of the file with this number.
fn has_final_rows<O: Office>(office: &mut O, side: Side, no: u64) -> Result<bool, OfficeFault>
    ensures looks { LooksUp (λ r is_final. is_final ≡ has_final_rows r side no) (O.view office.old) (O.view office.new) result }
{
    match side {
        Side::Incoming => {
            let entry = office.in_by_no(no)?;
            Ok(entry.is_some_and(|entry| entry.state == IncomingState::Whole))
        }
        Side::Outgoing => Ok(office.out_by_no(no)?.is_some()),
    }
}

impl<O> RememberingOffice<O> {
    /// An office that remembers nothing yet.
    pub fn new(alloc: Global, office: O) -> RememberingOffice<O>
        ensures office { result.office ≡ office }
        ensures blank { IsBlank result.counts }
    {
        RememberingOffice {
            office,
            counts: OctetCounts::new(alloc),
        }
    }

    /// Returns the office in it, and drops what is remembered.
    pub fn into_office(self) -> O
        ensures { result ≡ self.office }
    {
        let RememberingOffice { office, counts: _ } = self;
        office
    }
}

impl<O: Office> Office for RememberingOffice<O> {
    ghost view = { λ o. remembering o.counts (O.view o.office) };

    fn limits(&self) -> Limits {
        self.office.limits()
    }

    fn look_in(&mut self, identity: &Identity) -> Result<Option<IncomingEntry>, OfficeFault> {
        self.office.look_in(identity)
    }

    fn look_out(&mut self, identity: &Identity) -> Result<Option<OutgoingEntry>, OfficeFault> {
        self.office.look_out(identity)
    }

    fn in_by_no(&mut self, no: u64) -> Result<Option<IncomingEntry>, OfficeFault> {
        self.office.in_by_no(no)
    }

    fn out_by_no(&mut self, no: u64) -> Result<Option<OutgoingEntry>, OfficeFault> {
        self.office.out_by_no(no)
    }

    fn files_full(&mut self, side: Side) -> Result<bool, OfficeFault> {
        self.office.files_full(side)
    }

    fn has_received(
        &mut self,
        kind: ResponseKind,
        identity: &Identity,
    ) -> Result<bool, OfficeFault> {
        self.office.has_received(kind, identity)
    }

    fn next_item(
        &mut self,
        partner: &Name<25>,
        cursor: Cursor,
        files: bool,
    ) -> Result<Option<Item>, OfficeFault> {
        self.office.next_item(partner, cursor, files)
    }

    fn rows_of(&mut self, side: Side, no: u64, from: u64, most: u64) -> Result<Rows, OfficeFault> {
        self.office.rows_of(side, no, from, most)
    }

    fn units_of(&mut self, side: Side, no: u64) -> Result<u64, OfficeFault> {
        if let Some(units) = self.counts.find(side, no) {
            return Ok(units);
        }
        let is_final = has_final_rows(&mut self.office, side, no)?;
        let units = self.office.units_of(side, no)?;
        if is_final {
            self.counts.remember(side, no, units);
        }
        Ok(units)
    }

    fn list_in(&mut self) -> Result<Vec<IncomingEntry>, OfficeFault> {
        self.office.list_in()
    }

    fn list_out(&mut self) -> Result<Vec<OutgoingEntry>, OfficeFault> {
        self.office.list_out()
    }

    fn list_issued(&mut self) -> Result<Vec<IssuedEntry>, OfficeFault> {
        self.office.list_issued()
    }

    fn list_received(&mut self) -> Result<Vec<ReceivedEntry>, OfficeFault> {
        self.office.list_received()
    }

    fn list_answered(&mut self) -> Result<Vec<AnsweredEntry>, OfficeFault> {
        self.office.list_answered()
    }

    fn commit(&mut self, change: Change<'_>) -> Result<(), OfficeFault> {
        self.office.commit(change)
    }

    ghost sound = { λ o clean stands. O.sound o.office clean stands.0 };

    ghost alone = { λ o clean stands. O.alone o.office clean stands.0 };

    ghost leaves = { λ o clean. O.leaves o.office clean };
}
