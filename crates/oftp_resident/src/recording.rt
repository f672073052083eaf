//! What is recorded of sessions and of operators' calls.

use crate::home::Home;
use crate::peer::{Peer, Task};
use crate::service::{Shell, peer_in};
use crate::telling::Progress;
use oftp_contents::{EndCause, MarkBar, MarkTime, RecordSide};
use oftp_life::{Life, Stage};
use oftp_listing::OfficeState;
use oftp_outcomes::{Fault, plain};
use oftp_partners::Partner;
use oftp_recording::{Recorder, cause_of, line_of_end};
use oftp_register::Office;
use oftp_requests::{Made, office_behind, office_under};
use oftp_sockets::Keeper;
use std::alloc::{AllocError, Global};
use std::mem;

/// What the record has of a connection.
#[derive(Drop)]
pub(crate) enum Recorded {
    /// Nothing.
    Nothing,
    /// Nothing yet: its session is recorded once it begins, with these octets that were heard before.
    Later(Vec<u8>),
    /// Its session.
    Session,
}

/// Records what a session is to hear.
pub(crate) fn record_heard(
    recorder: Option<&Recorder<'_>>,
    id: u64,
    octets: &[u8],
) -> Result<(), Fault> {
    match recorder {
        Some(recorder) => recorder.heard(id, octets),
        None => Ok(()),
    }
}

/// Records what a session that stands like this has said, unless its office failed.
pub(crate) fn record_said(
    recorder: Option<&Recorder<'_>>,
    id: u64,
    octets: &[u8],
    stage: Stage,
) -> Result<(), Fault> {
    match (recorder, office_behind(stage)) {
        (Some(recorder), OfficeState::Working) => recorder.said(id, octets),
        _ => Ok(()),
    }
}

impl Shell<'_> {
    /// When the register is marked in the record.
    pub(crate) fn mark_time(&self, progress: Progress) -> Result<MarkTime, Fault> {
        let bar = match (self.config.recorder, progress) {
            (None, _) => MarkBar::NoRecord,
            (Some(_), Progress::Talking) => MarkBar::Session,
            (Some(_), Progress::Over) => MarkBar::Free,
        };
        let passed = self.now()?.saturating_sub(self.marked);
        Ok(MarkTime::at(bar, passed))
    }

    /// Marks the register in the record, if it is time for that.
    pub(crate) fn mark_in_time<O: Office + Drop>(
        &mut self,
        home: &mut Home<'_, O>,
        keeper: &mut impl Keeper<Life<O>>,
    ) -> Result<(), Fault> {
        if self.mark_time(home.progress())? != MarkTime::Now {
            return Ok(());
        }
        self.marked = self.now()?;
        let opened = home.open(self.rt, keeper);
        if let (Some(recorder), Home::Idle(life)) = (self.config.recorder, home) {
            recorder.mark(life)?;
        }
        self.settle_opening(opened)
    }

    /// Records that a command is about to copy the database, if it is asked for that.
    pub(crate) fn record_backup<O: Office + Drop>(
        &mut self,
        id: u64,
        home: &mut Home<'_, O>,
        keeper: &mut impl Keeper<Life<O>>,
    ) -> Result<(), Fault> {
        let Some(recorder) = self.config.recorder else {
            return Ok(());
        };
        let opened = home.open(self.rt, keeper);
        if let (Some(to), Home::Idle(life)) = (self.copy_to(id), home) {
            recorder.back_up(to, life)?;
        }
        self.settle_opening(opened)
    }

    /// The path of the copy that a command asks for.
    fn copy_to(&self, id: u64) -> Option<&str> {
        self.asked_by(id)?.copy_to()
    }

    /// Records that a session begins, and what was heard of its partner before.
    pub(crate) fn record_begin(&mut self, id: u64) -> Result<(), Fault> {
        let alloc = self.rt.alloc();
        let Some(recorder) = self.config.recorder else {
            return Ok(());
        };
        let Some(peer) = peer_in(&mut self.peers, id) else {
            return Ok(());
        };
        let before = peer.take_recorded(alloc);
        let address = peer.address_text(alloc)?;
        let side = peer.side();
        recorder.session(
            id,
            side,
            peer.partner_of_book(),
            address.as_str(),
            peer.latest,
        )?;
        recorder.heard(id, before.as_slice())
    }

    /// Records the operator's call that a command asks for, which is to be made.
    pub(crate) fn record_call(&self, id: u64) -> Result<(), Fault> {
        match (self.config.recorder, self.asked_by(id)) {
            (Some(recorder), Some(asked)) => {
                let request = asked.recorded(self.rt.alloc())?;
                recorder.called(id, self.user_of(id), request.as_slice())
            }
            _ => Ok(()),
        }
    }

    /// Records the answer to an operator's call, unless the office failed.
    pub(crate) fn record_answer(&self, id: u64, made: &Made) -> Result<(), Fault> {
        match (self.config.recorder, made.office) {
            (Some(recorder), OfficeState::Working) => {
                let line = made.line(self.rt.alloc())?;
                recorder.ended(id, EndCause::Itself, line.as_str())
            }
            _ => Ok(()),
        }
    }
}

impl Peer<'_> {
    /// Keeps octets that are heard before its session, if that is to be recorded.
    pub(crate) fn record_later(&mut self, octets: &[u8]) -> Result<(), Fault> {
        if let Recorded::Later(kept) = &mut self.recorded {
            kept.extend_from_slice(octets)?;
        }
        Ok(())
    }

    /// Takes the octets that were heard before its session, which is recorded from now on.
    fn take_recorded(&mut self, alloc: Global) -> Vec<u8> {
        let before = mem::replace(&mut self.recorded, Recorded::Session);
        match before {
            Recorded::Later(octets) => octets,
            Recorded::Nothing | Recorded::Session => Vec::new(alloc),
        }
    }

    /// The partner, once the code is known, by the book by which it is served.
    fn partner_of_book(&self) -> Option<&Partner> {
        let code = self.code.as_ref()?;
        self.book?.partner(code.as_bytes())
    }

    /// The address of its other end as text; empty where that isn't known.
    fn address_text(&self, alloc: Global) -> Result<String, AllocError> {
        match self.stream.peer_address() {
            Some(address) => format!(in alloc; "{address}"),
            None => Ok(String::new(alloc)),
        }
    }

    /// The side of the station in its session.
    fn side(&self) -> RecordSide {
        match self.task {
            Task::Call(_) => RecordSide::Initiator,
            _ => RecordSide::Responder,
        }
    }

    /// Records how its session ended, if that was recorded and the office didn't fail.
    pub(crate) fn record_end(
        &mut self,
        alloc: Global,
        recorder: Option<&Recorder<'_>>,
    ) -> Result<(), Fault> {
        let (Some(recorder), Some(ended)) = (recorder, self.ended) else {
            return Ok(());
        };
        if !matches!(self.recorded, Recorded::Session) {
            return Ok(());
        }
        self.recorded = Recorded::Nothing;
        let ended = plain(&ended);
        match office_under(&ended) {
            OfficeState::Failed => Ok(()),
            OfficeState::Working => {
                let line = line_of_end(alloc, &ended)?;
                recorder.ended(self.id, cause_of(&ended), line.as_str())
            }
        }
    }
}
