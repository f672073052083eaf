//! The events of a service. They are noted as things happen, and written once nothing else is to be done: so no answer waits for one.

use crate::home::Home;
use crate::peer::{Peer, Task};
use crate::service::{Shell, peer_in};
use oftp_engine::End;
use oftp_events::Direction;
use oftp_files::{EventFile, Noted};
use oftp_life::Life;
use oftp_outcomes::{Fault, Outcome, Term};
use oftp_progress::Extent;
use oftp_register::Office;
use oftp_schedule::connection::Action;
use oftp_sockets::Keeper;
use oftp_watching::{Cause, Dismissal, Farewell, Moment, Occasion, Talk, not_let_in, not_reached};
use std::alloc::Global;
use std::mem;

/// How many events wait at most while there is always something else to be done.
const MOST_WAITING: usize = 256;

/// How many milliseconds a second has.
const SECOND: u64 = 1_000;

/// Whether a session goes on.
#[derive(Clone, Copy, PartialEq, Eq)]
pub(crate) enum Progress {
    /// It does.
    Talking,
    /// There is none.
    Over,
}

/// An event that is to be written.
#[derive(Drop)]
pub(crate) enum Waiting {
    /// What happened to a file, of which the register is asked first.
    OfFile(Noted),
    /// A line.
    Line(Vec<u8>),
}

impl Shell<'_> {
    /// Notes what an action brought, and whether a session goes on after it.
    pub(crate) fn note_events(&mut self, action: Action, progress: Progress) {
        let Some(events) = self.config.events else {
            return;
        };
        let moments = events.take();
        let id = match action {
            Action::Begin(id) | Action::Hear(id) | Action::Cut(id) => Some(id),
            _ => None,
        };
        let (session, others) = self.noticed(id, moments.as_slice(), progress);
        let occasion = self.occasion_of(action, session);
        self.note_all(events, occasion, moments);
        self.note_all(events, occasion, others);
    }

    /// In what an action was done, which has this session.
    fn occasion_of(&self, action: Action, session: Option<u64>) -> Occasion {
        let user = match action {
            Action::Change(id) => self.user_of(id),
            _ => None,
        };
        Occasion::of(session, user)
    }

    /// Takes in what changes of a session told, if there is one, as [`Peer::noticed`] does.
    fn noticed(
        &mut self,
        id: Option<u64>,
        moments: &[Moment],
        progress: Progress,
    ) -> (Option<u64>, Vec<Moment>) {
        let alloc = self.rt.alloc();
        if let Some(id) = id
            && let Some(peer) = peer_in(&mut self.peers, id)
        {
            return peer.noticed(alloc, moments, progress);
        }
        (None, Vec::new(alloc))
    }

    /// Notes what happened to files.
    fn note_all(&mut self, events: &EventFile<'_>, occasion: Occasion, moments: Vec<Moment>) {
        for moment in moments {
            if let Some(noted) = events.noted(occasion, moment) {
                self.wait_with(events, Waiting::OfFile(noted));
            }
        }
    }

    /// Lets an event wait until it is written. One for which there is no memory is lost.
    fn wait_with(&mut self, events: &EventFile<'_>, waiting: Waiting) {
        if self.waiting.push(waiting).is_err() {
            events.lose();
        }
    }

    /// Notes that the session of a connection begins.
    pub(crate) fn note_begin(&mut self, id: u64) {
        let (Some(events), Ok(began)) = (self.config.events, self.now()) else {
            return;
        };
        let alloc = self.rt.alloc();
        self.sessions = self.sessions.saturating_add(1);
        let number = self.sessions;
        let Some(peer) = peer_in(&mut self.peers, id) else {
            return;
        };
        if let Some(line) = peer.begin_talk(alloc, events, number, began) {
            self.wait_with(events, Waiting::Line(line));
        }
    }

    /// Notes that a connection of a partner is over, which ended like this. It was a session, a caller that wasn't let in, or a call that
    /// wasn't reached.
    pub(crate) fn note_end(&mut self, id: u64, ended: Result<End, Fault>) {
        let (Some(events), Ok(now)) = (self.config.events, self.now()) else {
            return;
        };
        let alloc = self.rt.alloc();
        if let Some(peer) = peer_in(&mut self.peers, id)
            && let Some(line) = peer.last_line(alloc, events, now, ended)
        {
            self.wait_with(events, Waiting::Line(line));
        }
    }

    /// Whether it shows how far its call came.
    pub(crate) fn shows_call(&self) -> bool {
        match &self.gauge {
            Some(gauge) => gauge.shows(),
            None => false,
        }
    }

    /// Shows how far the file came that is on its way in the session of its call. What else happened to files is passed over unless events are
    /// written.
    pub(crate) fn show_call(&mut self) {
        let Some(gauge) = &mut self.gauge else {
            return;
        };
        for peer in self.peers.iter_mut() {
            let (dataset, share) = peer.under_way();
            if !dataset.is_empty() {
                gauge.show(&Extent::Call { dataset, share });
            }
            if self.config.events.is_none() {
                peer.forget();
            }
        }
    }

    /// Writes the events that wait, unless something else is to be done first. A life that lasts for one job is still here then.
    pub(crate) fn tell_in_time<O: Office + Drop>(
        &mut self,
        has_acted: bool,
        home: &mut Home<'_, O>,
        keeper: &mut impl Keeper<Life<O>>,
    ) {
        let is_idle = !has_acted || keeper.term() == Term::OfJob;
        if is_idle || self.waiting.len() >= MOST_WAITING {
            self.tell_events(home, keeper);
        }
    }

    /// Writes the events that wait.
    pub(crate) fn tell_events<O: Office + Drop>(
        &mut self,
        home: &mut Home<'_, O>,
        keeper: &mut impl Keeper<Life<O>>,
    ) {
        let Some(events) = self.config.events else {
            return;
        };
        if self.waiting.is_empty() {
            return;
        }
        if keeper.term() == Term::OfService {
            let _ = home.open(self.rt, keeper);
        }
        let waiting = mem::replace(&mut self.waiting, Vec::new(self.rt.alloc()));
        for event in waiting {
            tell_event(events, event, home);
        }
    }
}

/// Writes an event. What the register has of its file is asked of the life, if that is here.
fn tell_event<O: Office + Drop>(events: &EventFile<'_>, event: Waiting, home: &mut Home<'_, O>) {
    match event {
        Waiting::Line(line) => events.write(line),
        Waiting::OfFile(noted) => {
            let found = match home {
                Home::Idle(life) => noted.look_up(life),
                Home::Talking(session) => noted.look_up(session),
                Home::Away => (None, None),
            };
            events.tell(noted, found)
        }
    }
}

impl Peer<'_> {
    /// Takes in what changes of its session told. Returns the session's number, and what became of its files that no change tells.
    fn noticed(
        &mut self,
        alloc: Global,
        moments: &[Moment],
        progress: Progress,
    ) -> (Option<u64>, Vec<Moment>) {
        let Some(diary) = &mut self.diary else {
            return (None, Vec::new(alloc));
        };
        for moment in moments {
            diary.count(moment);
        }
        let mut others = diary.take();
        if progress == Progress::Over
            && let Some(moment) = diary.end()
        {
            let _ = others.push(moment);
        }
        (diary.session(), others)
    }

    /// Passes over what became of its files.
    fn forget(&mut self) {
        if let Some(diary) = &mut self.diary {
            let _ = diary.take();
        }
    }

    /// Begins its session with this number. Returns the line of that.
    fn begin_talk(
        &mut self,
        alloc: Global,
        events: &EventFile<'_>,
        number: u64,
        began: u64,
    ) -> Option<Vec<u8>> {
        let way = self.direction();
        let peer = self.address(alloc);
        let partner = copy_of(alloc, self.code.as_ref());
        let diary = self.diary.as_mut()?;
        let talk = Talk {
            number,
            partner,
            way,
            peer,
            sent: 0,
            received: 0,
        };
        let at = events.time()?;
        let line = events.line(&talk.begun(at.as_str()));
        diary.began = began;
        diary.talk = Some(talk);
        line
    }

    /// The line of its end.
    fn last_line(
        &mut self,
        alloc: Global,
        events: &EventFile<'_>,
        now: u64,
        ended: Result<End, Fault>,
    ) -> Option<Vec<u8>> {
        let has_code = self.code.is_some();
        let is_called = self.call().is_some();
        let talk = match &mut self.diary {
            Some(diary) => diary.talk.take(),
            None => None,
        };
        let at = events.time()?;
        let end = end_text(alloc, &ended)?;
        if let Some(talk) = talk {
            let farewell = self.farewell(now, end.as_str())?;
            return events.line(&talk.ended(at.as_str(), &farewell));
        }
        if is_called {
            return self.line_unreached(events, at.as_str());
        }
        if has_code {
            return None;
        }
        self.line_dismissed(alloc, events, at.as_str(), ended, end.as_str())
    }

    /// What is told of the end of its session.
    fn farewell<'t>(&self, now: u64, end: &'t str) -> Option<Farewell<'t>> {
        let diary = self.diary.as_ref()?;
        Some(Farewell {
            octets_in: diary.octets_in,
            octets_out: diary.octets_out,
            seconds: now.saturating_sub(diary.began) / SECOND,
            end,
        })
    }

    /// The line of a call that didn't connect.
    fn line_unreached(&self, events: &EventFile<'_>, at: &str) -> Option<Vec<u8>> {
        let call = self.call()?;
        let words = call.cause.unwrap_or(Cause::TimedOut).words();
        events.line(&not_reached(at, lent(&self.code), call.address.as_str(), words))
    }

    /// The line of a caller that wasn't let in.
    fn line_dismissed(
        &self,
        alloc: Global,
        events: &EventFile<'_>,
        at: &str,
        ended: Result<End, Fault>,
        end: &str,
    ) -> Option<Vec<u8>> {
        let reason = match ended {
            Ok(End::Own(reason)) => format!(in alloc; "{reason}").ok(),
            _ => None,
        };
        let peer = self.address(alloc);
        let claimed = self.diary.as_ref()?.claimed();
        let why = dismissal_of(&reason, end);
        events.line(&not_let_in(at, claimed, lent(&peer), why))
    }

    /// Which side called.
    fn direction(&self) -> Direction {
        match self.task {
            Task::Call(_) => Direction::Out,
            _ => Direction::In,
        }
    }

    /// The address and the port at the other end, as text.
    fn address(&self, alloc: Global) -> Option<String> {
        let address = self.stream.peer_address()?;
        format!(in alloc; "{address}").ok()
    }
}

/// A text that may be missing, lent.
fn lent(text: &Option<String>) -> Option<&str> {
    match text {
        Some(text) => Some(text.as_str()),
        None => None,
    }
}

/// Why a caller wasn't let in, by a reason if there is one, and the line of its end.
fn dismissal_of<'d>(reason: &'d Option<String>, end: &'d str) -> Dismissal<'d> {
    let (number, words) = match parted(reason) {
        Some((number, words)) => (Some(number), Some(words)),
        None => (None, None),
    };
    Dismissal {
        reason: number,
        words,
        end,
    }
}

/// The two digits of a reason, and its words.
fn parted(reason: &Option<String>) -> Option<(&str, &str)> {
    reason.as_ref()?.as_str().split_once(' ')
}

/// A copy of a text. `None` if there is none, or no memory for it.
fn copy_of(alloc: Global, text: Option<&String>) -> Option<String> {
    String::from_str(alloc, text?.as_str()).ok()
}

/// The line that a command prints for the end of a session.
fn end_text(alloc: Global, ended: &Result<End, Fault>) -> Option<String> {
    match ended {
        Ok(end) => format!(in alloc; "{}", Outcome::Ended(*end)).ok(),
        Err(fault) => format!(in alloc; "{fault}").ok(),
    }
}
