//! Connections that are accepted.

use crate::calls::shared_trace;
use crate::diary::Diary;
use crate::peer::{Peer, Reading, Task};
use crate::recording::Recorded;
use crate::service::{ServiceConfig, Shell};
use crate::stream::Stream;
use crate::watch::Source;
use oftp_channel::READY;
use oftp_life::Opening;
use oftp_outcomes::{Fault, Trouble};
use oftp_requests::{Welcome, welcome_of};
use oftp_schedule::accepting::{Attempt, arrival_of};
use oftp_schedule::connection::{Arrival, Door, Event, Signal};
use oftp_sockets::{is_short, passes};
use std::io::{self, ErrorKind};
use std::net::TcpListener;
use std::os::fd::{AsRawFd, RawFd};

/// How many who are gone already are passed over at once, at most.
const MOST_GONE: u32 = 128;

const LAST_TRY: u32 = MOST_GONE - 1;

impl ServiceConfig<'_> {
    /// The listener of a door to the internet, if there is one.
    fn internet(&self, door: Door) -> Option<&TcpListener> {
        match door {
            Door::Partners => self.partners,
            Door::Requests => self.requests,
            Door::Commands | Door::Calls => None,
        }
    }

    /// Lets the calls of a door's listener return at once. Returns its descriptor, if there is one.
    pub(crate) fn opened(&self, door: Door) -> io::Result<Option<RawFd>> {
        if let (Door::Commands, Some(listener)) = (door, self.commands) {
            listener.set_nonblocking(true)?;
            return Ok(Some(listener.as_raw_fd()));
        }
        let Some(listener) = self.internet(door) else {
            return Ok(None);
        };
        listener.set_nonblocking(true)?;
        Ok(Some(listener.as_raw_fd()))
    }

    /// The next connection at a door.
    fn accepted(&self, door: Door) -> io::Result<Stream> {
        if let (Door::Commands, Some(listener)) = (door, self.commands) {
            let (socket, _) = listener.accept()?;
            return Ok(Stream::local(socket));
        }
        let Some(listener) = self.internet(door) else {
            return Err(io::Error::from(ErrorKind::WouldBlock));
        };
        let (socket, _) = listener.accept()?;
        Ok(Stream::internet(socket))
    }
}

impl<'a> Shell<'a> {
    /// Accepts a connection at a door, which has this number from now on, and tells what came of it.
    pub(crate) fn accept(&mut self, id: u64, door: Door) -> Result<(), Fault> {
        let (arrival, stream) = self.next_at(door);
        self.say(Event::Accepted(id, arrival))?;
        match stream {
            Some(stream) => self.welcome(id, door, stream),
            None => Ok(()),
        }
    }

    /// What comes of accepting a connection, and its socket if somebody is there.
    fn next_at(&self, door: Door) -> (Arrival, Option<Stream>) {
        for tried in 0..MOST_GONE {
            let accepted = self.config.accepted(door);
            let left = LAST_TRY.saturating_sub(tried);
            if let Some(arrival) = arrival_of(attempt_of(&accepted), left) {
                return (arrival, accepted.ok());
            }
        }
        (Arrival::Later, None)
    }

    /// Keeps a connection that was accepted. One that can't be kept is lost.
    fn welcome(&mut self, id: u64, door: Door, stream: Stream) -> Result<(), Fault> {
        let is_watched = self.watched(id, door, &stream).is_ok();
        let peer = self.newcomer(id, door, stream);
        let is_lost = !is_watched || peer.ended.is_some();
        if self.peers.push(peer).is_err() || is_lost {
            return self.tell(id, Signal::Lost);
        }
        Ok(())
    }

    /// Watches the socket of a connection that was accepted.
    fn watched(&self, id: u64, door: Door, stream: &Stream) -> io::Result<()> {
        stream.set_nonblocking()?;
        if door != Door::Commands {
            stream.set_nodelay()?;
        }
        self.watch.add(Source::Connection(id), stream.descriptor()?)
    }

    /// A connection that was accepted at a door, with what is said to it first.
    fn newcomer(&self, id: u64, door: Door, stream: Stream) -> Peer<'a> {
        let alloc = self.rt.alloc();
        match door {
            Door::Commands => {
                let task = Task::Command(None);
                let mut peer = Peer::new(alloc, id, task, stream, Reading::Command);
                let _ = peer.say(Vec::from_slice(alloc, &[READY]).unwrap_or(Vec::new(alloc)));
                peer
            }
            Door::Requests | Door::Calls => {
                Peer::new(alloc, id, Task::Visitor(None), stream, Reading::Request)
            }
            Door::Partners => self.caller(id, stream),
        }
    }

    /// A partner who called, and is greeted.
    fn caller(&self, id: u64, stream: Stream) -> Peer<'a> {
        let alloc = self.rt.alloc();
        let mut opening = Opening::new(alloc, self.station.book);
        let welcome = welcome_of(opening.admission());
        let greeting = opening.take_out(alloc);
        let task = Task::Caller(Some(opening));
        let mut peer = Peer::new(alloc, id, task, stream, Reading::Opening);
        peer.trace = shared_trace(alloc, self.station.trace);
        peer.diary = Diary::wanted(alloc, self.config.events);
        peer.book = Some(self.station.book);
        peer.latest = self.latest;
        if self.config.recorder.is_some() {
            peer.recorded = Recorded::Later(Vec::new(alloc));
        }
        if let Welcome::Failed(trouble) = welcome {
            peer.note(Err(trouble));
        } else if let Err(fault) = peer.say(greeting) {
            peer.note(Err(Trouble::OfService(fault)));
        }
        peer
    }
}

/// What an attempt to accept a connection came to.
fn attempt_of(accepted: &io::Result<Stream>) -> Attempt {
    match accepted {
        Ok(_) => Attempt::Connection,
        Err(error) if error.kind() == ErrorKind::WouldBlock => Attempt::Empty,
        Err(error) if is_short(error) => Attempt::Short,
        Err(error) if passes(error) || error.kind() == ErrorKind::Interrupted => Attempt::Gone,
        Err(_) => Attempt::Broken,
    }
}
