//! The office over a database's files, as an office.

ghost use Rattle.std.proofs.Common.{inl, refl};
ghost use Rattle.sqlite.specs.Files.{over_files};
ghost use Rattle.sqlite_store.specs.Laws.{settled_at, survives_at};
ghost use Rattle.oftp_store.specs.Views.{content_alone};
ghost use Rattle.oftp_database.specs.Seen.{seen_over};

use super::DatabaseOffice;
use super::errands::{
    Commit, FilesFull, HasReceived, InByNo, ListAnswered, ListIn, ListIssued, ListOut,
    ListReceived, LookIn, LookOut, NextItem, OutByNo, RowsOf, UnitsOf,
};
use oftp_register::{
    AnsweredEntry, Change, Cursor, Identity, IncomingEntry, IssuedEntry, Item, Name, Office,
    OfficeFault, OutgoingEntry, ReceivedEntry, ResponseKind, Side,
};
use oftp_vfile::{Limits, Rows};

/// It answers from the register in the database, and commits to it. Its store is hidden, and what it remembers of files too.
impl Office for DatabaseOffice {
    ghost view = { λ o. seen_over over_files o.office };

    fn limits(&self) -> Limits {
        self.office.limits()
    }

    fn look_in(&mut self, identity: &Identity) -> Result<Option<IncomingEntry>, OfficeFault> {
        self.lend(LookIn { identity })
    }

    fn look_out(&mut self, identity: &Identity) -> Result<Option<OutgoingEntry>, OfficeFault> {
        self.lend(LookOut { identity })
    }

    fn in_by_no(&mut self, no: u64) -> Result<Option<IncomingEntry>, OfficeFault> {
        self.lend(InByNo { no })
    }

    fn out_by_no(&mut self, no: u64) -> Result<Option<OutgoingEntry>, OfficeFault> {
        self.lend(OutByNo { no })
    }

    fn files_full(&mut self, side: Side) -> Result<bool, OfficeFault> {
        self.lend(FilesFull { side })
    }

    fn has_received(
        &mut self,
        kind: ResponseKind,
        identity: &Identity,
    ) -> Result<bool, OfficeFault> {
        self.lend(HasReceived { kind, identity })
    }

    fn next_item(
        &mut self,
        partner: &Name<25>,
        cursor: Cursor,
        files: bool,
    ) -> Result<Option<Item>, OfficeFault> {
        self.lend(NextItem {
            partner,
            cursor,
            files,
        })
    }

    fn rows_of(&mut self, side: Side, no: u64, from: u64, most: u64) -> Result<Rows, OfficeFault> {
        self.lend(RowsOf {
            side,
            no,
            from,
            most,
        })
    }

    fn units_of(&mut self, side: Side, no: u64) -> Result<u64, OfficeFault> {
        self.lend(UnitsOf { side, no })
    }

    fn list_in(&mut self) -> Result<Vec<IncomingEntry>, OfficeFault> {
        self.lend(ListIn)
    }

    fn list_out(&mut self) -> Result<Vec<OutgoingEntry>, OfficeFault> {
        self.lend(ListOut)
    }

    fn list_issued(&mut self) -> Result<Vec<IssuedEntry>, OfficeFault> {
        self.lend(ListIssued)
    }

    fn list_received(&mut self) -> Result<Vec<ReceivedEntry>, OfficeFault> {
        self.lend(ListReceived)
    }

    fn list_answered(&mut self) -> Result<Vec<AnsweredEntry>, OfficeFault> {
        self.lend(ListAnswered)
    }

    fn commit(&mut self, change: Change<'_>) -> Result<(), OfficeFault> {
        self.lend(Commit { change })
    }

    ghost sound = { λ o _ stands. stands.0.holds.sound };

    ghost alone = { λ o _ stands db left.
        content_alone _ _ stands.0 db (settled_at o.office.office.conn.store (λ _. inl refl) db stands.0.is_open left) };

    ghost leaves = { λ o clean. survives_at o.office.office.conn.store (λ _. inl refl) clean };
}
