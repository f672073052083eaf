//! An office in memory that notes the requests for rows and items, and may lose a row or fail.

ghost use Rattle.std.specs.Prelude.{◌≡◌, IfErr};
ghost use Rattle.oftp_register.specs.Offices.{Counts, IsFailure};

use crate::given::LIMITS;
use oftp_register::{
    AnsweredEntry, Change, Cursor, Identity, IncomingEntry, IssuedEntry, Item, Name, Office,
    OfficeFault, OutgoingEntry, PlainOffice, ReceivedEntry, ResponseKind, Side,
};
use oftp_vfile::{Limits, Rows};
use std::alloc::Global;

const ONE_OCTET: Limits = Limits {
    files: 1,
    octets: 1,
};

/// An office in memory. For contracts it reads nothing that was written, so that only its errors have to be proved.
#[derive(Drop)]
pub struct Noting {
    /// The register, which is still there when the office is opened again.
    pub office: PlainOffice,
    /// The most rows that were requested at once.
    pub most: u64,
    /// How often the next response was looked for, and not the next file alone.
    pub next: u64,
    /// Whether it loses the last of the requested rows.
    pub loses: bool,
    /// Whether it has failed: then each call returns an error.
    pub is_stopped: bool,
    stop: Option<Stop>,
    /// Whether the look-up of responses works even after it has failed, and finds none.
    looks: bool,
    faults: u64,
}

/// When an office fails.
#[derive(Clone, Copy, Drop)]
pub struct Stop {
    /// How many commits it makes before.
    pub commits: u64,
    /// Whether it fails after the change of the next commit, and not before it.
    pub is_made: bool,
}

impl Noting {
    /// An office with an empty register, which may fail.
    pub fn new(alloc: Global, stop: Option<Stop>) -> Noting {
        let mut office = Noting::over(PlainOffice::new(alloc, LIMITS));
        office.stop = stop;
        office
    }

    /// An office over one in memory.
    pub fn over(office: PlainOffice) -> Noting {
        Noting {
            office,
            most: 0,
            next: 0,
            loses: false,
            is_stopped: false,
            stop: None,
            looks: false,
            faults: 0,
        }
    }

    /// An office with room for one octet that has failed, except for the look-up of responses if `looks`.
    pub fn failing(alloc: Global, looks: bool) -> Noting {
        let mut office = Noting::over(PlainOffice::new(alloc, ONE_OCTET));
        office.is_stopped = true;
        office.looks = looks;
        office
    }

    /// How many errors it returned.
    pub fn faults(&self) -> u64 {
        self.faults
    }

    /// Opens it again. It doesn't fail any more.
    pub fn open_again(&mut self) {
        self.is_stopped = false;
        self.stop = None;
    }

    // Returns an error if it has failed.
    fn opened(&mut self) -> Result<(), OfficeFault>
        ensures fault { IfErr result IsFailure }
        ensures counts { Counts self.old.faults self.new.faults result }
    {
        if self.is_stopped {
            return self.counted(Err(OfficeFault::Store));
        }
        Ok(())
    }

    // Fails in a commit, before the change or after it.
    fn stop_at(&mut self, change: Change<'_>, is_made: bool) -> Result<(), OfficeFault>
        ensures counts { Counts self.old.faults self.new.faults result }
    {
        self.is_stopped = true;
        if is_made {
            let _ = self.office.commit(change);
        }
        self.counted(Err(OfficeFault::Store))
    }

    // Counts the error of a call.
    fn counted<T>(&mut self, found: Result<T, OfficeFault>) -> Result<T, OfficeFault>
        ensures found { result ≡ found }
        ensures counts { Counts self.old.faults self.new.faults result }
    {
        if let Err(OfficeFault::Store | OfficeFault::Memory) = &found {
            self.faults = self.faults.wrapping_add(1);
        }
        found
    }
}

impl Office for Noting {
    ghost use Rattle.oftp_register.specs.Plain.{view_of};

    ghost view = { λ o. record (view_of o.office) { told = o.faults; clean = ⊥ } };

    ghost sound = { λ o clean stood. absurd clean };

    ghost alone = { λ o clean stood. absurd clean };

    ghost leaves = { λ o clean. absurd clean };

    fn limits(&self) -> Limits {
        self.office.limits()
    }

    fn look_in(&mut self, identity: &Identity) -> Result<Option<IncomingEntry>, OfficeFault> {
        self.opened()?;
        let found = self.office.look_in(identity);
        self.counted(found)
    }

    fn look_out(&mut self, identity: &Identity) -> Result<Option<OutgoingEntry>, OfficeFault> {
        self.opened()?;
        let found = self.office.look_out(identity);
        self.counted(found)
    }

    fn in_by_no(&mut self, no: u64) -> Result<Option<IncomingEntry>, OfficeFault> {
        self.opened()?;
        let found = self.office.in_by_no(no);
        self.counted(found)
    }

    fn out_by_no(&mut self, no: u64) -> Result<Option<OutgoingEntry>, OfficeFault> {
        self.opened()?;
        let found = self.office.out_by_no(no);
        self.counted(found)
    }

    fn files_full(&mut self, side: Side) -> Result<bool, OfficeFault> {
        self.opened()?;
        let found = self.office.files_full(side);
        self.counted(found)
    }

    fn has_received(
        &mut self,
        kind: ResponseKind,
        identity: &Identity,
    ) -> Result<bool, OfficeFault> {
        if self.looks {
            return Ok(false);
        }
        self.opened()?;
        let found = self.office.has_received(kind, identity);
        self.counted(found)
    }

    fn next_item(
        &mut self,
        partner: &Name<25>,
        cursor: Cursor,
        files: bool,
    ) -> Result<Option<Item>, OfficeFault> {
        self.opened()?;
        if cursor.response < u64::MAX {
            self.next = self.next.saturating_add(1);
        }
        let found = self.office.next_item(partner, cursor, files);
        self.counted(found)
    }

    fn rows_of(&mut self, side: Side, no: u64, from: u64, most: u64) -> Result<Rows, OfficeFault> {
        self.opened()?;
        self.most = self.most.max(most);
        let found = self.office.rows_of(side, no, from, most);
        let rows = self.counted(found)?;
        if !self.loses {
            return Ok(rows);
        }
        let mut rows = rows.into_vec();
        rows.truncate(rows.len().saturating_sub(1));
        Ok(Rows::new(rows))
    }

    fn units_of(&mut self, side: Side, no: u64) -> Result<u64, OfficeFault> {
        self.opened()?;
        let found = self.office.units_of(side, no);
        self.counted(found)
    }

    fn list_in(&mut self) -> Result<Vec<IncomingEntry>, OfficeFault> {
        self.opened()?;
        let found = self.office.list_in();
        self.counted(found)
    }

    fn list_out(&mut self) -> Result<Vec<OutgoingEntry>, OfficeFault> {
        self.opened()?;
        let found = self.office.list_out();
        self.counted(found)
    }

    fn list_issued(&mut self) -> Result<Vec<IssuedEntry>, OfficeFault> {
        self.opened()?;
        let found = self.office.list_issued();
        self.counted(found)
    }

    fn list_received(&mut self) -> Result<Vec<ReceivedEntry>, OfficeFault> {
        self.opened()?;
        let found = self.office.list_received();
        self.counted(found)
    }

    fn list_answered(&mut self) -> Result<Vec<AnsweredEntry>, OfficeFault> {
        self.opened()?;
        let found = self.office.list_answered();
        self.counted(found)
    }

    fn commit(&mut self, change: Change<'_>) -> Result<(), OfficeFault> {
        self.opened()?;
        if let Some(stop) = self.stop {
            if stop.commits == 0 {
                return self.stop_at(change, stop.is_made);
            }
            self.stop = Some(Stop {
                commits: stop.commits - 1,
                ..stop
            });
        }
        let made = self.office.commit(change);
        self.counted(made)
    }
}
