//! The look-ups and the commits of the office over a database's files, each over any store.

ghost use Rattle.std.specs.Prelude.{◌≡◌, ◌≤◌, IfSome, IfOk};
ghost use Rattle.oftp_register.specs.Register.{has_received};
ghost use Rattle.oftp_register.specs.LookUps.{AreRowsWithin, IsIncomingWithin, IsItemWithin, IsOutgoingWithin, files_full, in_by_no, list_answered, list_in, list_issued, list_out, list_received, look_in, look_out, next_item, out_by_no, rows_of, units_of};
ghost use Rattle.oftp_register.specs.Offices.{Commits, LooksUp};
ghost use Rattle.oftp_register.specs.declared.fit.TheConstants.{MOST_UNITS};

use super::StoreErrand;
use oftp_listing::RememberingOffice;
use oftp_register::{
    AnsweredEntry, Change, Cursor, Identity, IncomingEntry, IssuedEntry, Item, Name, Office,
    OfficeFault, OutgoingEntry, ReceivedEntry, ResponseKind, Side,
};
use oftp_store::SqlOffice;
use oftp_vfile::Rows;
use sqlite::Alter;

// Looks up the incoming file of an identity.
pub(crate) struct LookIn<'a> {
    pub(crate) identity: &'a Identity,
}

impl StoreErrand for LookIn<'_> {
    type Outcome = Result<Option<IncomingEntry>, OfficeFault>;

    ghost says = { λ e old new result. LooksUp (λ r found. found ≡ look_in r e.identity.now) old new result
        × IfOk result (λ found. IfSome found IsIncomingWithin) };

    fn run_over<S: Alter>(
        self,
        office: &mut RememberingOffice<SqlOffice<S>>,
    ) -> Result<Option<IncomingEntry>, OfficeFault> {
        let LookIn { identity } = self;
        office.look_in(identity)
    }
}

// Looks up the outgoing file of an identity.
pub(crate) struct LookOut<'a> {
    pub(crate) identity: &'a Identity,
}

impl StoreErrand for LookOut<'_> {
    type Outcome = Result<Option<OutgoingEntry>, OfficeFault>;

    ghost says = { λ e old new result. LooksUp (λ r found. found ≡ look_out r e.identity.now) old new result
        × IfOk result (λ found. IfSome found IsOutgoingWithin) };

    fn run_over<S: Alter>(
        self,
        office: &mut RememberingOffice<SqlOffice<S>>,
    ) -> Result<Option<OutgoingEntry>, OfficeFault> {
        let LookOut { identity } = self;
        office.look_out(identity)
    }
}

// Looks up the incoming file with a number.
pub(crate) struct InByNo {
    pub(crate) no: u64,
}

impl StoreErrand for InByNo {
    type Outcome = Result<Option<IncomingEntry>, OfficeFault>;

    ghost says = { λ e old new result. LooksUp (λ r found. found ≡ in_by_no r e.no) old new result
        × IfOk result (λ found. IfSome found IsIncomingWithin) };

    fn run_over<S: Alter>(
        self,
        office: &mut RememberingOffice<SqlOffice<S>>,
    ) -> Result<Option<IncomingEntry>, OfficeFault> {
        let InByNo { no } = self;
        office.in_by_no(no)
    }
}

// Looks up the outgoing file with a number.
pub(crate) struct OutByNo {
    pub(crate) no: u64,
}

impl StoreErrand for OutByNo {
    type Outcome = Result<Option<OutgoingEntry>, OfficeFault>;

    ghost says = { λ e old new result. LooksUp (λ r found. found ≡ out_by_no r e.no) old new result
        × IfOk result (λ found. IfSome found IsOutgoingWithin) };

    fn run_over<S: Alter>(
        self,
        office: &mut RememberingOffice<SqlOffice<S>>,
    ) -> Result<Option<OutgoingEntry>, OfficeFault> {
        let OutByNo { no } = self;
        office.out_by_no(no)
    }
}

// Asks whether a table is full.
pub(crate) struct FilesFull {
    pub(crate) side: Side,
}

impl StoreErrand for FilesFull {
    type Outcome = Result<bool, OfficeFault>;

    ghost says = { λ e old new result. LooksUp (λ r full. full ≡ files_full r e.side) old new result };

    fn run_over<S: Alter>(
        self,
        office: &mut RememberingOffice<SqlOffice<S>>,
    ) -> Result<bool, OfficeFault> {
        let FilesFull { side } = self;
        office.files_full(side)
    }
}

// Asks whether a response was received.
pub(crate) struct HasReceived<'a> {
    pub(crate) kind: ResponseKind,
    pub(crate) identity: &'a Identity,
}

impl StoreErrand for HasReceived<'_> {
    type Outcome = Result<bool, OfficeFault>;

    ghost says = { λ e old new result. LooksUp (λ r there. there ≡ has_received r e.kind e.identity.now) old new result };

    fn run_over<S: Alter>(
        self,
        office: &mut RememberingOffice<SqlOffice<S>>,
    ) -> Result<bool, OfficeFault> {
        let HasReceived { kind, identity } = self;
        office.has_received(kind, identity)
    }
}

// Looks up what a session sends next.
pub(crate) struct NextItem<'a> {
    pub(crate) partner: &'a Name<25>,
    pub(crate) cursor: Cursor,
    pub(crate) files: bool,
}

impl StoreErrand for NextItem<'_> {
    type Outcome = Result<Option<Item>, OfficeFault>;

    ghost says = { λ e old new result. LooksUp (λ r item. item ≡ next_item r e.partner.now e.cursor e.files) old new result
        × IfOk result (λ found. IfSome found IsItemWithin) };

    fn run_over<S: Alter>(
        self,
        office: &mut RememberingOffice<SqlOffice<S>>,
    ) -> Result<Option<Item>, OfficeFault> {
        let NextItem {
            partner,
            cursor,
            files,
        } = self;
        office.next_item(partner, cursor, files)
    }
}

// Reads rows of a file.
pub(crate) struct RowsOf {
    pub(crate) side: Side,
    pub(crate) no: u64,
    pub(crate) from: u64,
    pub(crate) most: u64,
}

impl StoreErrand for RowsOf {
    type Outcome = Result<Rows, OfficeFault>;

    ghost says = { λ e old new result. LooksUp (λ r rows. rows ≡ rows_of r e.side e.no e.from e.most) old new result
        × IfOk result (AreRowsWithin e.from e.most) };

    fn run_over<S: Alter>(
        self,
        office: &mut RememberingOffice<SqlOffice<S>>,
    ) -> Result<Rows, OfficeFault> {
        let RowsOf {
            side,
            no,
            from,
            most,
        } = self;
        office.rows_of(side, no, from, most)
    }
}

// Counts the octets of a file.
pub(crate) struct UnitsOf {
    pub(crate) side: Side,
    pub(crate) no: u64,
}

impl StoreErrand for UnitsOf {
    type Outcome = Result<u64, OfficeFault>;

    ghost says = { λ e old new result. LooksUp (λ r units. units ≡ units_of r e.side e.no) old new result
        × IfOk result (λ units. units ≤ MOST_UNITS) };

    fn run_over<S: Alter>(
        self,
        office: &mut RememberingOffice<SqlOffice<S>>,
    ) -> Result<u64, OfficeFault> {
        let UnitsOf { side, no } = self;
        office.units_of(side, no)
    }
}

// Lists the incoming files.
pub(crate) struct ListIn;

impl StoreErrand for ListIn {
    type Outcome = Result<Vec<IncomingEntry>, OfficeFault>;

    ghost says = { λ e old new result. LooksUp (λ r entries. entries.items ≡ list_in r) old new result };

    fn run_over<S: Alter>(
        self,
        office: &mut RememberingOffice<SqlOffice<S>>,
    ) -> Result<Vec<IncomingEntry>, OfficeFault> {
        let ListIn = self;
        office.list_in()
    }
}

// Lists the outgoing files.
pub(crate) struct ListOut;

impl StoreErrand for ListOut {
    type Outcome = Result<Vec<OutgoingEntry>, OfficeFault>;

    ghost says = { λ e old new result. LooksUp (λ r entries. entries.items ≡ list_out r) old new result };

    fn run_over<S: Alter>(
        self,
        office: &mut RememberingOffice<SqlOffice<S>>,
    ) -> Result<Vec<OutgoingEntry>, OfficeFault> {
        let ListOut = self;
        office.list_out()
    }
}

// Lists the issued responses.
pub(crate) struct ListIssued;

impl StoreErrand for ListIssued {
    type Outcome = Result<Vec<IssuedEntry>, OfficeFault>;

    ghost says = { λ e old new result. LooksUp (λ r entries. entries.items ≡ list_issued r) old new result };

    fn run_over<S: Alter>(
        self,
        office: &mut RememberingOffice<SqlOffice<S>>,
    ) -> Result<Vec<IssuedEntry>, OfficeFault> {
        let ListIssued = self;
        office.list_issued()
    }
}

// Lists the received responses.
pub(crate) struct ListReceived;

impl StoreErrand for ListReceived {
    type Outcome = Result<Vec<ReceivedEntry>, OfficeFault>;

    ghost says = { λ e old new result. LooksUp (λ r entries. entries.items ≡ list_received r) old new result };

    fn run_over<S: Alter>(
        self,
        office: &mut RememberingOffice<SqlOffice<S>>,
    ) -> Result<Vec<ReceivedEntry>, OfficeFault> {
        let ListReceived = self;
        office.list_received()
    }
}

// Lists the received responses with the files that they answer.
pub(crate) struct ListAnswered;

impl StoreErrand for ListAnswered {
    type Outcome = Result<Vec<AnsweredEntry>, OfficeFault>;

    ghost says = { λ e old new result. LooksUp (λ r entries. entries.items ≡ list_answered r) old new result };

    fn run_over<S: Alter>(
        self,
        office: &mut RememberingOffice<SqlOffice<S>>,
    ) -> Result<Vec<AnsweredEntry>, OfficeFault> {
        let ListAnswered = self;
        office.list_answered()
    }
}

// Commits a change.
pub(crate) struct Commit<'a> {
    pub(crate) change: Change<'a>,
}

impl StoreErrand for Commit<'_> {
    type Outcome = Result<(), OfficeFault>;

    ghost says = { λ e old new result. Commits e.change old new result };

    fn run_over<S: Alter>(
        self,
        office: &mut RememberingOffice<SqlOffice<S>>,
    ) -> Result<(), OfficeFault> {
        let Commit { change } = self;
        office.commit(change)
    }
}
