//! What is recorded of a command that has the database itself.

use crate::backing::Telling;
use oftp_channel::{Ending, Request};
use oftp_command_line::VERSION;
use oftp_contents::EndCause;
use oftp_files::own_user;
use oftp_listing::OfficeState;
use oftp_outcomes::{Fault, Term};
use oftp_recording::{Recorder, Syncing};
use oftp_register::Office;
use oftp_requests::{ending_with, line_of_ending, office_after, recorded_request};
use std::alloc::Global;

/// The record of a command.
#[derive(Drop)]
pub(crate) struct Recording<'t> {
    recorder: Recorder<'t>,
    // The number of the last operator's call.
    calls: u64,
}

impl<'t> Recording<'t> {
    /// Records that a command begins, if it names a record. Each of its calls has its book, so its beginning has none.
    ///
    /// # Errors
    /// [`Fault::File`] if the record can't be written; [`Fault::Run`] if the office failed; [`Fault::MEMORY`].
    pub(crate) fn begun<O: Office>(
        telling: Telling<'t>,
        office: &mut O,
    ) -> Result<Option<Recording<'t>>, Fault> {
        let Some(folder) = telling.record else {
            return Ok(None);
        };
        let recorder = Recorder::open(telling.rt, folder, Syncing::Synced, Term::OfService)?;
        recorder.begin(VERSION, telling.sources, &[], office)?;
        Ok(Some(Recording { recorder, calls: 0 }))
    }

    /// Records an operator's call that is to be made.
    ///
    /// # Errors
    /// [`Fault::File`] if the record can't be written; [`Fault::MEMORY`].
    pub(crate) fn ask(&mut self, alloc: Global, request: &Request<'_>) -> Result<(), Fault> {
        let octets = recorded_request(alloc, request)?;
        self.calls = self.calls.saturating_add(1);
        self.recorder
            .called(self.calls, Some(own_user()), octets.as_slice())
    }

    /// Records the answer to the last call, unless the office failed.
    ///
    /// # Errors
    /// Those of [`Recording::ask`].
    pub(crate) fn answer(
        &self,
        alloc: Global,
        answer: &Result<Ending, Fault>,
    ) -> Result<(), Fault> {
        let ending = ending_with(*answer);
        match office_after(&ending) {
            OfficeState::Failed => Ok(()),
            OfficeState::Working => {
                let line = line_of_ending(alloc, ending)?;
                self.recorder
                    .ended(self.calls, EndCause::Itself, line.as_str())
            }
        }
    }

    /// Records that the database is about to be copied to a file.
    ///
    /// # Errors
    /// Those of [`Recording::begun`].
    pub(crate) fn back_up<O: Office>(&self, to: &str, office: &mut O) -> Result<(), Fault> {
        self.recorder.back_up(to, office)
    }

    /// Records the register at the end. The answer is out, so what can't be recorded of that isn't told.
    pub(crate) fn end<O: Office>(self, office: &mut O) {
        let Recording { recorder, calls: _ } = self;
        let _ = recorder.mark(office);
    }
}
