//! The calls of the station: for whom something waits, and how a call gets its connection.

use crate::dialing::Outgoing;
use crate::diary::Diary;
use crate::home::Home;
use crate::peer::{Peer, Reading, Task};
use crate::service::{Shell, peer_in};
use crate::status::moment;
use crate::stream::Stream;
use oftp_channel::Tracing;
use oftp_engine::{End, RunFault};
use oftp_files::{Lines, SessionTrace, Trace};
use oftp_life::Life;
use oftp_outcomes::{Fault, Trouble};
use oftp_register::Office;
use oftp_requests::{Asked, Wanted, is_due, partner_of};
use oftp_schedule::connection::{self as schedule, Asker, Event, Signal};
use oftp_schedule::durations::millis;
use oftp_sockets::{Keeper, Station};
use std::alloc::Global;

impl<'a> Shell<'a> {
    /// Tells each partner for whom something waits, and that all were told.
    pub(crate) fn review<O: Office + Drop>(
        &mut self,
        home: &mut Home<'_, O>,
        keeper: &mut impl Keeper<Life<O>>,
    ) -> Result<(), Fault> {
        self.reviewed = moment(self.rt);
        let opened = home.open(self.rt, keeper);
        self.settle_opening(opened)?;
        for place in 0..self.config.codes.len() {
            if let Home::Idle(life) = home
                && self.review_at(place, life)?.is_none()
            {
                self.fail(Fault::Run(RunFault::Office))?;
                break;
            }
        }
        self.say(Event::Reviewed)
    }

    /// Tells each partner of the list, whatever waits.
    pub(crate) fn call_all(&mut self) -> Result<(), Fault> {
        for place in 0..self.config.codes.len() {
            self.call_at(place)?;
        }
        Ok(())
    }

    /// Tells the partner at a place of the list.
    fn call_at(&mut self, place: usize) -> Result<(), Fault> {
        let Station {
            book,
            patience,
            longest,
            ..
        } = self.station;
        if let Some(code) = self.config.codes.get(place)
            && let Ok(number) = u32::try_from(place)
            && let Some(partner) = book.partner(code.as_bytes())
        {
            let partner = partner_of(book, number, partner, patience, longest);
            return self.say(Event::Due(partner));
        }
        Ok(())
    }

    /// Tells the partner at a place of the list, if something waits for it. Returns `None` if the office failed.
    fn review_at<O: Office>(&mut self, place: usize, office: &mut O) -> Result<Option<()>, Fault> {
        let Some(code) = self.config.codes.get(place) else {
            return Ok(Some(()));
        };
        let Ok(is_due) = is_due(self.station.book, code.as_str(), office) else {
            return Ok(None);
        };
        if is_due && self.is_ripe(place)? {
            self.call_at(place)?;
        }
        Ok(Some(()))
    }

    /// Whether the clock may call the partner at a place of the list now. If so, it does.
    fn is_ripe(&mut self, place: usize) -> Result<bool, Fault> {
        let now = self.now()?;
        let Some(pace) = self.paces.get_mut(place) else {
            return Ok(true);
        };
        let is_ripe = pace.is_ripe(now);
        if is_ripe {
            *pace = pace.call(now);
        }
        Ok(is_ripe)
    }

    /// Takes in how a session with a partner ended, or a try at one.
    pub(crate) fn pace(&mut self, id: u64) {
        let interval = u64::from(millis(self.config.interval));
        if let Some(peer) = peer_in(&mut self.peers, id) {
            peer.pace(self.config.codes, &mut self.paces, interval);
        }
    }

    /// Looks up the address of a call's partner.
    pub(crate) fn resolve(&mut self, id: u64) -> Result<(), Fault> {
        let rt = self.rt;
        if peer_in(&mut self.peers, id).is_none()
            && let Some(peer) = self.new_call(id)
        {
            let _ = self.peers.push(peer);
        }
        let Some(peer) = peer_in(&mut self.peers, id) else {
            return self.tell(id, Signal::Failed);
        };
        let resolved = match &mut peer.task {
            Task::Call(call) => call.resolve(rt),
            _ => Err(Fault::Socket),
        };
        match resolved {
            Ok(()) => self.tell_now(id, Signal::Resolved),
            Err(fault) => {
                peer.note(Err(Trouble::OfJob(fault)));
                self.tell(id, Signal::Failed)
            }
        }
    }

    /// The connection of a call that isn't begun. `None` if there is no such call, or no memory for it.
    fn new_call(&self, id: u64) -> Option<Peer<'a>> {
        let alloc = self.rt.alloc();
        let book = self.station.book;
        let call = self.schedule.call(id)?;
        let (asker, wanted) = match call.asker {
            Asker::ByClock => (None, self.wanted_by_clock(call.partner)?),
            Asker::By(id) => (Some(id), self.asked_by(id)?.wanted(alloc, book).ok()?),
        };
        let outgoing = Outgoing::new(self.rt, book, asker, wanted.tracing, wanted.address);
        let task = Task::Call(outgoing);
        let mut peer = Peer::new(alloc, id, task, Stream::absent(), Reading::Nothing);
        peer.code = Some(wanted.code);
        peer.book = Some(book);
        peer.latest = self.latest;
        Some(peer)
    }

    /// A call by the clock of a partner of the list.
    fn wanted_by_clock(&self, called: schedule::Partner) -> Option<Wanted> {
        let code = self.config.codes.get(called.number as usize)?;
        let partner = self.station.book.partner(code.as_bytes())?;
        Wanted::of(self.rt.alloc(), called, code, partner, Tracing::None).ok()
    }

    /// The request of a command.
    pub(crate) fn asked_by(&self, command: u64) -> Option<&Asked> {
        match &self.peers.iter().find(|peer| peer.id == command)?.task {
            Task::Command(asked) => asked.as_ref(),
            _ => None,
        }
    }

    /// Connects a call.
    pub(crate) fn dial(&mut self, id: u64) -> Result<(), Fault> {
        let rt = self.rt;
        let alloc = rt.alloc();
        let shared = self.station.trace;
        let events = self.config.events;
        let is_shown = self.shows_call();
        if let Some(peer) = peer_in(&mut self.peers, id) {
            peer.diary = if is_shown {
                Some(Diary::new(alloc))
            } else {
                Diary::wanted(alloc, events)
            };
            peer.trace = match peer.call() {
                Some(call) if call.tracing == Tracing::Kept => {
                    Some(SessionTrace::new(alloc, Lines::Own(Trace::kept(rt))))
                }
                _ => shared_trace(alloc, shared),
            };
        }
        self.connect(rt, id, Fault::Socket)
    }

    /// Connects a call to the next of its addresses, after this error of the one before.
    pub(crate) fn connect(&mut self, rt: &HostRuntime, id: u64, fault: Fault) -> Result<(), Fault> {
        let Some(peer) = peer_in(&mut self.peers, id) else {
            return self.tell(id, Signal::Failed);
        };
        let connecting = match &mut peer.task {
            Task::Call(call) => call.connect(rt, &self.watch, id, fault),
            _ => Err(fault),
        };
        match connecting {
            Ok(stream) => {
                peer.stream = stream;
                peer.reading = Reading::Dial;
                peer.readiness.is_writable = true;
                Ok(())
            }
            Err(fault) => {
                peer.note(Err(Trouble::OfJob(fault)));
                self.tell(id, Signal::Failed)
            }
        }
    }

    /// Closes the connection of a call, which is made again. The trace and the events of a session that gave way end as those of one that is cut
    /// off.
    pub(crate) fn hang_up(&mut self, id: u64) {
        let alloc = self.rt.alloc();
        let ended: Result<End, Fault> = Err(Fault::Run(RunFault::Read));
        let mut has_begun = false;
        if let Some(peer) = peer_in(&mut self.peers, id) {
            if let Reading::Session | Reading::Sending = peer.reading {
                has_begun = true;
                if let Some(trace) = &mut peer.trace {
                    trace.end(&ended);
                }
            }
            peer.hang_up(alloc);
        }
        if has_begun {
            self.note_end(id, ended);
        }
    }
}

/// A trace whose lines go to that of the service, if there is one.
pub(crate) fn shared_trace<'a>(
    alloc: Global,
    shared: Option<&'a Trace<'a>>,
) -> Option<SessionTrace<'a>> {
    match shared {
        Some(trace) => Some(SessionTrace::new(alloc, Lines::Shared(trace))),
        None => None,
    }
}
