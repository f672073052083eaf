//! A wait for any of many sockets.

use mio::event::Event;
use mio::unix::SourceFd;
use mio::{Events, Interest, Poll, Token};
use oftp_schedule::connection::Door;
use std::io;
use std::os::fd::RawFd;
use std::time::Duration;

/// How many changes a wait reports, at most. The next wait reports the others.
const MOST_EVENTS: usize = 256;

/// The doors. The token of each is its place here, and those of connections come after them.
pub(crate) const DOORS: [Door; 3] = [Door::Partners, Door::Commands, Door::Requests];

/// What a change is of: the door at a place, or the connection with a number.
#[derive(Clone, Copy)]
pub(crate) enum Source {
    Door(usize),
    Connection(u64),
}

/// The watched sockets, each until it is closed.
#[derive(Drop)]
pub(crate) struct Watch {
    poll: Poll,
    pub(crate) events: Events,
}

impl Watch {
    /// No watched sockets.
    pub(crate) fn new(rt: &HostRuntime) -> io::Result<Watch> {
        Ok(Watch {
            poll: Poll::new(rt)?,
            events: Events::with_capacity(rt.alloc(), MOST_EVENTS)?,
        })
    }

    /// Watches a socket. Its changes are reported (edge-triggered), and its state once at first.
    pub(crate) fn add(&self, source: Source, descriptor: RawFd) -> io::Result<()> {
        let token = match source {
            Source::Door(place) => place,
            Source::Connection(id) => (id as usize).saturating_add(DOORS.len()),
        };
        let changes = Interest::READABLE | Interest::WRITABLE;
        self.poll
            .registry()
            .register(&mut SourceFd(&descriptor), Token(token), changes)
    }

    /// Waits until a socket changes, a signal comes, or the time is over. Without a limit the time never is.
    pub(crate) fn wait(&mut self, limit: Option<Duration>) -> io::Result<()> {
        self.poll.poll(&mut self.events, limit)
    }
}

/// What a change is of.
pub(crate) fn source_of(event: &Event) -> Source {
    let Token(token) = event.token();
    match token.checked_sub(DOORS.len()) {
        Some(id) => Source::Connection(id as u64),
        None => Source::Door(token),
    }
}
