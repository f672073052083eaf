//! The records of services.

use oftp_command_line::{RecordSync, VERSION};
use oftp_life::Life;
use oftp_outcomes::{Fault, Term, Trouble};
use oftp_recording::{Recorder, Syncing};
use oftp_register::Office;
use oftp_sockets::Keeper;

/// The record of a service, if it has one, and what stands at its beginning.
#[derive(Clone, Copy)]
pub(crate) struct Recorded<'a> {
    /// The line with the sum of the program's sources.
    pub(crate) sources: &'a str,
    /// The octets of its book.
    pub(crate) book: &'a [u8],
    /// Its record.
    pub(crate) recorder: Option<&'a Recorder<'a>>,
}

impl Recorded<'_> {
    /// Records that the service begins.
    pub(crate) fn begin<O: Office + Drop>(
        &self,
        rt: &HostRuntime,
        keeper: &mut impl Keeper<Life<O>>,
    ) -> Result<(), Fault> {
        let Some(recorder) = self.recorder else {
            return Ok(());
        };
        let mut life = keeper.open(rt).map_err(Trouble::fault)?;
        let begun = recorder.begin(VERSION, self.sources, self.book, &mut life);
        keeper.close(rt, life);
        begun
    }

    /// Records the register at the end.
    pub(crate) fn end<O: Office + Drop>(
        &self,
        rt: &HostRuntime,
        keeper: &mut impl Keeper<Life<O>>,
    ) -> Result<(), Fault> {
        let Some(recorder) = self.recorder else {
            return Ok(());
        };
        let mut life = keeper.open(rt).map_err(Trouble::fault)?;
        let marked = recorder.mark(&mut life);
        keeper.close(rt, life);
        marked
    }
}

/// The record in the folder that a command line names, if it names one. `term` is how long each life with the register lasts.
pub(crate) fn recorder_of<'a>(
    rt: &'a HostRuntime,
    folder: Option<&'a str>,
    sync: RecordSync,
    term: Term,
) -> Result<Option<Recorder<'a>>, Fault> {
    let syncing = match sync {
        RecordSync::Synced => Syncing::Synced,
        RecordSync::Unsynced => Syncing::Unsynced,
    };
    match folder {
        Some(folder) => Ok(Some(Recorder::open(rt, folder, syncing, term)?)),
        None => Ok(None),
    }
}
