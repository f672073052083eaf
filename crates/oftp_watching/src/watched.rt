//! An office whose accepted changes are noted.

ghost use Rattle.std.specs.Prelude.{◌≡◌};

use crate::moment::{Moment, moment_of};
use crate::news::News;
use oftp_register::{
    AnsweredEntry, Change, Cursor, Identity, IncomingEntry, IssuedEntry, Item, Name, Office,
    OfficeFault, OutgoingEntry, ReceivedEntry, ResponseKind, Side,
};
use oftp_vfile::{Limits, Rows};
use std::alloc::Global;

/// An office whose accepted changes are noted, if somebody wants to know them. It is the office in it: what is promised of that is promised of
/// it, and nothing is looked up for what is noted.
#[derive(Drop)]
pub struct Watched<'w, O> {
    /// The office in it.
    pub office: O,
    alloc: Global,
    news: Option<&'w News>,
}

impl<'w, O> Watched<'w, O> {
    /// An office whose accepted changes are noted here.
    pub fn new(alloc: Global, office: O, news: Option<&'w News>) -> Watched<'w, O>
        ensures { result.office ≡ office }
    {
        Watched {
            office,
            alloc,
            news,
        }
    }

    // What is noted of a change once it is accepted.
    fn moment_of(&self, change: &Change<'_>) -> Option<Moment> {
        let news = self.news?;
        match moment_of(self.alloc, change) {
            Ok(moment) => moment,
            Err(_) => {
                news.lose();
                None
            }
        }
    }

    // Notes what happened.
    fn tell(&self, moment: Option<Moment>) {
        if let (Some(news), Some(moment)) = (self.news, moment) {
            news.note(moment);
        }
    }
}

impl<O: Office> Office for Watched<'_, O> {
    ghost view = { λ o. O.view o.office };

    fn limits(&self) -> Limits {
        self.office.limits()
    }

    fn look_in(&mut self, identity: &Identity) -> Result<Option<IncomingEntry>, OfficeFault> {
        self.office.look_in(identity)
    }

    fn look_out(&mut self, identity: &Identity) -> Result<Option<OutgoingEntry>, OfficeFault> {
        self.office.look_out(identity)
    }

    fn in_by_no(&mut self, no: u64) -> Result<Option<IncomingEntry>, OfficeFault> {
        self.office.in_by_no(no)
    }

    fn out_by_no(&mut self, no: u64) -> Result<Option<OutgoingEntry>, OfficeFault> {
        self.office.out_by_no(no)
    }

    fn files_full(&mut self, side: Side) -> Result<bool, OfficeFault> {
        self.office.files_full(side)
    }

    fn has_received(
        &mut self,
        kind: ResponseKind,
        identity: &Identity,
    ) -> Result<bool, OfficeFault> {
        self.office.has_received(kind, identity)
    }

    fn next_item(
        &mut self,
        partner: &Name<25>,
        cursor: Cursor,
        files: bool,
    ) -> Result<Option<Item>, OfficeFault> {
        self.office.next_item(partner, cursor, files)
    }

    fn rows_of(&mut self, side: Side, no: u64, from: u64, most: u64) -> Result<Rows, OfficeFault> {
        self.office.rows_of(side, no, from, most)
    }

    fn units_of(&mut self, side: Side, no: u64) -> Result<u64, OfficeFault> {
        self.office.units_of(side, no)
    }

    fn list_in(&mut self) -> Result<Vec<IncomingEntry>, OfficeFault> {
        self.office.list_in()
    }

    fn list_out(&mut self) -> Result<Vec<OutgoingEntry>, OfficeFault> {
        self.office.list_out()
    }

    fn list_issued(&mut self) -> Result<Vec<IssuedEntry>, OfficeFault> {
        self.office.list_issued()
    }

    fn list_received(&mut self) -> Result<Vec<ReceivedEntry>, OfficeFault> {
        self.office.list_received()
    }

    fn list_answered(&mut self) -> Result<Vec<AnsweredEntry>, OfficeFault> {
        self.office.list_answered()
    }

    fn commit(&mut self, change: Change<'_>) -> Result<(), OfficeFault> {
        let moment = self.moment_of(&change);
        let committed = self.office.commit(change);
        if committed.is_ok() {
            self.tell(moment);
        }
        committed
    }

    ghost sound = { λ o clean stands. O.sound o.office clean stands };

    ghost alone = { λ o clean stands. O.alone o.office clean stands };

    ghost leaves = { λ o clean. O.leaves o.office clean };
}
