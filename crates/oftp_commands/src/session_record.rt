//! What is recorded of a session from file to file.

use oftp_command_line::VERSION;
use oftp_contents::RecordSide;
use oftp_engine::End;
use oftp_life::Stage;
use oftp_listing::OfficeState;
use oftp_outcomes::{Fault, Term};
use oftp_partners::Partner;
use oftp_recording::{Recorder, Syncing, cause_of, line_of_end};
use oftp_register::Office;
use oftp_requests::{office_behind, office_under};
use std::alloc::Global;

/// The number of the session: its program has no other one.
const NUMBER: u64 = 1;

/// The record of a session, if its command names one.
#[derive(Drop)]
pub(crate) struct SessionRecord<'r> {
    recorder: Option<Recorder<'r>>,
    // The file with what the partner sends, which stands for an address.
    peer: &'r str,
}

impl<'r> SessionRecord<'r> {
    /// Opens the record in a folder, if there is one, for a partner whose octets are in this file.
    ///
    /// # Errors
    /// Those of [`Recorder::open`].
    pub(crate) fn open(
        rt: &'r HostRuntime,
        folder: Option<&'r str>,
        peer: &'r str,
    ) -> Result<SessionRecord<'r>, Fault> {
        let recorder = match folder {
            Some(folder) => Some(Recorder::open(rt, folder, Syncing::Synced, Term::OfService)?),
            None => None,
        };
        Ok(SessionRecord { recorder, peer })
    }

    /// Records that the command begins, by a book with these octets. `sources` is the line with the sum of the program's sources.
    ///
    /// # Errors
    /// Those of [`Recorder::begin`].
    pub(crate) fn begin<O: Office>(
        &self,
        sources: &str,
        book: &[u8],
        office: &mut O,
    ) -> Result<(), Fault> {
        match &self.recorder {
            Some(recorder) => recorder.begin(VERSION, sources, book, office),
            None => Ok(()),
        }
    }

    /// Records that the session begins, on a side, with this partner.
    ///
    /// # Errors
    /// Those of [`Recorder::session`].
    pub(crate) fn session(&self, side: RecordSide, partner: Option<&Partner>) -> Result<(), Fault> {
        match &self.recorder {
            Some(recorder) => recorder.session(NUMBER, side, partner, self.peer, &[]),
            None => Ok(()),
        }
    }

    /// Records what the session is to hear.
    ///
    /// # Errors
    /// Those of [`Recorder::heard`].
    pub(crate) fn heard(&self, octets: &[u8]) -> Result<(), Fault> {
        match &self.recorder {
            Some(recorder) => recorder.heard(NUMBER, octets),
            None => Ok(()),
        }
    }

    /// Records what a session that stands like this has said, unless its office failed.
    ///
    /// # Errors
    /// Those of [`Recorder::said`].
    pub(crate) fn said(&self, octets: &[u8], stage: Stage) -> Result<(), Fault> {
        match (&self.recorder, office_behind(stage)) {
            (Some(recorder), OfficeState::Working) => recorder.said(NUMBER, octets),
            _ => Ok(()),
        }
    }

    /// Records how the session ended, unless the office failed. Returns it.
    ///
    /// # Errors
    /// That with which it ended; those of [`Recorder::ended`].
    pub(crate) fn ended(&self, alloc: Global, ended: Result<End, Fault>) -> Result<End, Fault> {
        if let (Some(recorder), OfficeState::Working) = (&self.recorder, office_under(&ended)) {
            let line = line_of_end(alloc, &ended)?;
            recorder.ended(NUMBER, cause_of(&ended), line.as_str())?;
        }
        ended
    }

    /// Records the register behind a session that ended like this, unless the office failed. Returns how it ended.
    ///
    /// # Errors
    /// That with which it ended; those of [`Recorder::mark`].
    pub(crate) fn mark<O: Office>(
        &self,
        ended: Result<End, Fault>,
        office: &mut O,
    ) -> Result<End, Fault> {
        if let (Some(recorder), OfficeState::Working) = (&self.recorder, office_under(&ended)) {
            recorder.mark(office)?;
        }
        ended
    }
}
