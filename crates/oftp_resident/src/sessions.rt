//! The sessions of a service, step by step, and their ends.

use crate::home::Home;
use crate::peer::{Peer, Reading, Task};
use crate::recording::{record_heard, record_said};
use crate::service::{Shell, peer_in};
use oftp_engine::{End, Role};
use oftp_life::{Life, Stage};
use oftp_outcomes::{Fault, Trouble, Way, plain};
use oftp_recording::Recorder;
use oftp_register::Office;
use oftp_requests::{
    Came, Need, Pace, Sequel, answer_of_call, ended_for, need_of, sequel_of, told_reason,
    trouble_hearing,
};
use oftp_schedule::connection::{self as schedule, Input, Reason, Signal, Step};
use oftp_sockets::{Keeper, Reporter};
use std::alloc::Global;

impl<'a> Shell<'a> {
    /// Begins a session with a partner, and tells what its first step leaves.
    pub(crate) fn begin<O: Office + Drop>(
        &mut self,
        id: u64,
        home: &mut Home<'a, O>,
        keeper: &mut impl Keeper<Life<O>>,
    ) -> Result<(), Fault> {
        let rt = self.rt;
        self.record_begin(id)?;
        if let Some(peer) = peer_in(&mut self.peers, id) {
            if let Some(trace) = &mut peer.trace {
                trace.begin();
            }
            peer.reading = Reading::Session;
            match home.open(rt, keeper) {
                Ok(()) => peer.begin(rt.alloc(), home),
                Err(trouble) => peer.note(Err(trouble)),
            }
        }
        self.note_begin(id);
        self.step(id, home, 0)
    }

    /// Lets the session hear the piece that was read, and tells what that step leaves.
    pub(crate) fn hear<O: Office + Drop>(
        &mut self,
        id: u64,
        home: &mut Home<'_, O>,
    ) -> Result<(), Fault> {
        let alloc = self.rt.alloc();
        let recorder = self.config.recorder;
        let mut count = 0;
        if let (Some(peer), Some(session)) = (peer_in(&mut self.peers, id), home.session()) {
            let piece = peer.take_heard(alloc);
            count = u32::try_from(piece.len()).unwrap_or(u32::MAX);
            record_heard(recorder, id, piece.as_slice())?;
            let heard = session.hear(piece.as_slice());
            if let Some(trouble) = trouble_hearing(heard, session.stage()) {
                peer.note(Err(trouble));
            }
        }
        self.step(id, home, count)
    }

    /// Sends what a session has said, and tells how it stands after a step that heard so many octets.
    fn step<O: Office + Drop>(
        &mut self,
        id: u64,
        home: &mut Home<'_, O>,
        heard: u32,
    ) -> Result<(), Fault> {
        let alloc = self.rt.alloc();
        let recorder = self.config.recorder;
        let Some(peer) = peer_in(&mut self.peers, id) else {
            home.end();
            return self.tell(id, Signal::Ended(schedule::End::Other));
        };
        let stage = peer.take_said(alloc, home, recorder)?;
        // What fails there is noted.
        let _ = peer.send();
        match sequel_of(stage, peer.ended) {
            Sequel::GoesOn => {
                let step = peer.step(&stage, heard);
                self.tell_now(id, Signal::Waits(step))
            }
            Sequel::Ends(ended, farewell) => {
                peer.ended = Some(ended);
                home.end();
                self.tell_now(id, Signal::Ended(farewell))
            }
        }
    }

    /// Reports the end of a session that is over for this reason, unless it ended by itself.
    pub(crate) fn print(
        &mut self,
        id: u64,
        reason: Reason,
        reporter: &mut impl Reporter,
    ) -> Result<(), Fault> {
        let reason = told_reason(self.stop, reason);
        let alloc = self.rt.alloc();
        let recorder = self.config.recorder;
        let told = match peer_in(&mut self.peers, id) {
            Some(peer) => peer.report(alloc, reason, recorder, reporter),
            None => reporter.report(None, Way::In, ended_for(reason)),
        };
        if let Some(ended) = self.ended_of(id) {
            self.note_end(id, ended);
        }
        self.count_end(id);
        self.answer_asker(id);
        self.pace(id);
        match told {
            Ok(()) => Ok(()),
            Err(fault) => self.fail(fault),
        }
    }

    /// How the session of a connection ended.
    fn ended_of(&mut self, id: u64) -> Option<Result<End, Fault>> {
        let peer = peer_in(&mut self.peers, id)?;
        Some(plain(&peer.ended?))
    }

    /// Makes the answer of the command that wanted a call, which is over.
    fn answer_asker(&mut self, id: u64) {
        let alloc = self.rt.alloc();
        let Some(peer) = peer_in(&mut self.peers, id) else {
            return;
        };
        let (Some(asker), Some(ended)) = (peer.asker(), peer.ended) else {
            return;
        };
        let trace = match peer.trace.take() {
            Some(trace) => trace.into_kept(),
            None => Vec::new(alloc),
        };
        if let Some(command) = peer_in(&mut self.peers, asker) {
            let answer = answer_of_call(alloc, trace.as_slice(), &plain(&ended));
            command.answer = Some(answer.unwrap_or(Vec::new(alloc)));
        }
    }
}

impl<'a> Peer<'a> {
    /// Begins its session.
    fn begin<O: Office + Drop>(&mut self, alloc: Global, home: &mut Home<'a, O>) {
        match &mut self.task {
            Task::Caller(opening) => {
                if let Some(opening) = opening.take()
                    && let Ok(guest) = opening.into_guest()
                {
                    home.admit(alloc, guest);
                }
            }
            Task::Call(call) => {
                let book = call.book;
                if let Some(code) = &self.code
                    && let Some(partner) = book.partner(code.as_bytes())
                {
                    home.begin(alloc, book, Role::Initiator(partner));
                }
            }
            _ => {}
        }
    }

    /// Takes what the session has said, and records it. Returns how it stands; `None` if there is none.
    ///
    /// # Errors
    /// The record can't be written.
    fn take_said<O: Office + Drop>(
        &mut self,
        alloc: Global,
        home: &mut Home<'_, O>,
        recorder: Option<&Recorder<'_>>,
    ) -> Result<Option<Stage>, Fault> {
        let Some(session) = home.session() else {
            return Ok(None);
        };
        let said = session.take_out(alloc);
        record_said(recorder, self.id, said.as_slice(), session.stage())?;
        let stage = Some(session.stage());
        if let Err(fault) = self.say(said) {
            self.note(Err(Trouble::OfService(fault)));
        }
        Ok(stage)
    }

    /// What a step leaves that heard so many octets.
    fn step(&mut self, stage: &Option<Stage>, heard: u32) -> Step {
        let input = match need_of(*stage) {
            Need::Nothing => {
                self.reading = Reading::Sending;
                Input::Here
            }
            Need::Octets => {
                self.reading = Reading::Session;
                self.input()
            }
        };
        Step {
            heard,
            input,
            backlog: self.left(),
        }
    }

    /// What there is to hear of it: the next piece is read, if there is one.
    fn input(&mut self) -> Input {
        if !self.readiness.is_readable {
            return Input::Awaited;
        }
        match self.take_in() {
            Came::Octets(_) => Input::Here,
            Came::Nothing => Input::Awaited,
            Came::End | Came::Lost => Input::Gone,
        }
    }

    /// Records and reports its end, and appends that to its trace.
    fn report(
        &mut self,
        alloc: Global,
        reason: Reason,
        recorder: Option<&Recorder<'_>>,
        reporter: &mut impl Reporter,
    ) -> Result<(), Fault> {
        self.note(ended_for(reason));
        self.record_end(alloc, recorder)?;
        let Some(ended) = self.ended else {
            return Ok(());
        };
        if let Some(trace) = &mut self.trace {
            trace.end(&plain(&ended));
        }
        let code = match &self.code {
            Some(code) => Some(code.as_str()),
            None => None,
        };
        reporter.report(code, self.way(), ended)
    }

    /// Takes in how its session ended for the clock's list of partners.
    pub(crate) fn pace(&self, codes: &[String], paces: &mut [Pace], interval: u64) {
        let (Some(code), Some(ended)) = (&self.code, &self.ended) else {
            return;
        };
        let way = self.way();
        for (named, pace) in codes.iter().zip(paces.iter_mut()) {
            if named.as_str() == code.as_str() {
                *pace = pace.end(way, ended, interval);
            }
        }
    }

    /// Which side called.
    pub(crate) fn way(&self) -> Way {
        match self.task {
            Task::Call(_) => Way::Out,
            _ => Way::In,
        }
    }
}
