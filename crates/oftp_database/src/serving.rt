//! The lives for the sessions and requests of a service, each of one session or one request.

ghost use Rattle.std.specs.Prelude.{IfOk};
ghost use Rattle.sqlite.specs.Files.{over_files};
ghost use Rattle.sqlite.specs.WalFiles.{image_at};
ghost use Rattle.oftp_durable.specs.LifeTables.{HasDoneNothing};
ghost use Rattle.oftp_database.specs.Openings.{IsOpened};

use crate::living::{WatchedOffice, live_if_free};
use crate::opening::PATIENCE;
use crate::spare::{Spare, Supply};
use oftp_life::Life;
use oftp_outcomes::{Fault, Term, Trouble};
use oftp_sockets::Keeper;
use oftp_store::{PathFault, StoreFault};
use oftp_watching::News;
use sqlite::{Start, Unknown};
use std::time::{Clock, Duration};

/// The pause before descriptors are asked for again, in milliseconds.
const PAUSE: u64 = 50;

/// The error for a database that one caller can't have now.
const HELD: Trouble = Trouble::OfJob(Fault::Store(StoreFault::Store));

/// A database that is opened for each session and each request, and closed after it.
#[derive(Drop)]
pub struct Opened<'a> {
    database: &'a str,
    // Where accepted changes are noted, if somebody wants to know them.
    news: Option<&'a News>,
    // The descriptors for the next opening.
    spare: Spare,
}

impl<'a> Opened<'a> {
    /// The database in this file, which isn't opened yet. Accepted changes are noted, if somebody wants to know them.
    pub fn new(rt: &HostRuntime, database: &'a str, news: Option<&'a News>) -> Opened<'a> {
        let mut spare = Spare::new(rt.alloc());
        let _ = spare.hold(rt);
        Opened {
            database,
            news,
            spare,
        }
    }

    /// A life over the database. A database that stays locked, or for which there stays no descriptor, is an error of this caller alone.
    fn life(&mut self, rt: &HostRuntime) -> Result<Life<WatchedOffice<'a>>, Trouble>
        ensures begins { IfOk result HasDoneNothing }
        ensures opened { IfOk result (λ l. IsOpened over_files (image_at ⟦<Unknown as Start>⟧) l.began.office.office) }
    {
        for _ in 0..PATIENCE {
            if self.spare.hold(rt) == Supply::Enough {
                self.spare.release();
                match live_if_free(rt, self.database, PATIENCE, self.news) {
                    Err(PathFault::Store(StoreFault::Store)) if self.is_wanting(rt) => {}
                    opened => return opened.map_err(trouble_of),
                }
            }
            rt.sleep(Duration::from_millis(PAUSE));
        }
        Err(HELD)
    }

    /// Whether there is no descriptor for the database, so that it can't be opened now.
    fn is_wanting(&mut self, rt: &HostRuntime) -> bool {
        self.spare.hold(rt) == Supply::Wanting
    }
}

impl<'a> Keeper<Life<WatchedOffice<'a>>> for Opened<'a> {
    // A database that stays locked, or for which there stays no descriptor, is an error of this job alone.
    fn open(&mut self, rt: &HostRuntime) -> Result<Life<WatchedOffice<'a>>, Trouble>
        ensures begins { IfOk result HasDoneNothing }
        ensures opened { IfOk result (λ l. IsOpened over_files (image_at ⟦<Unknown as Start>⟧) l.began.office.office) }
    {
        let opened = self.life(rt);
        if opened.is_err() {
            let _ = self.spare.hold(rt);
        }
        opened
    }

    fn close(&mut self, rt: &HostRuntime, life: Life<WatchedOffice<'a>>) {
        drop(life);
        let _ = self.spare.hold(rt);
    }

    fn term(&self) -> Term {
        Term::OfJob
    }
}

/// The kind of error for a database that can't be opened.
fn trouble_of(fault: PathFault) -> Trouble {
    match fault {
        PathFault::Held => HELD,
        PathFault::Unkept => Trouble::OfService(Fault::Store(StoreFault::Store)),
        PathFault::Store(fault) => Trouble::OfService(Fault::Store(fault)),
    }
}
