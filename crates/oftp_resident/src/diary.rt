//! What the events of a connection tell: its session, and the files on their way in it.

use oftp_files::{EventFile, Follower, UnderWay};
use oftp_watching::{Moment, Talk};
use std::alloc::Global;

/// What the events of a partner's connection tell.
#[derive(Drop)]
pub(crate) struct Diary {
    follower: Follower,
    /// Its session, once that has begun.
    pub(crate) talk: Option<Talk>,
    /// When that began, in milliseconds of the service.
    pub(crate) began: u64,
    pub(crate) octets_in: u64,
    pub(crate) octets_out: u64,
}

impl Diary {
    /// That of a connection on which nothing was said.
    pub(crate) fn new(alloc: Global) -> Diary {
        Diary {
            follower: Follower::new(alloc),
            talk: None,
            began: 0,
            octets_in: 0,
            octets_out: 0,
        }
    }

    /// The same, if events are written.
    pub(crate) fn wanted(alloc: Global, events: Option<&EventFile<'_>>) -> Option<Diary> {
        match events {
            Some(_) => Some(Diary::new(alloc)),
            None => None,
        }
    }

    /// Takes in what the partner said.
    pub(crate) fn heard(&mut self, piece: &[u8]) {
        self.octets_in = self.octets_in.saturating_add(piece.len() as u64);
        self.follower.heard(piece);
    }

    /// Takes in what the station says.
    pub(crate) fn said(&mut self, octets: &[u8]) {
        self.follower.said(octets);
    }

    /// Takes in how many octets went.
    pub(crate) fn went(&mut self, count: usize) {
        self.octets_out = self.octets_out.saturating_add(count as u64);
    }

    /// The number of its session.
    pub(crate) fn session(&self) -> Option<u64> {
        Some(self.talk.as_ref()?.number)
    }

    /// Counts what happened in its session.
    pub(crate) fn count(&mut self, moment: &Moment) {
        if let Some(talk) = &mut self.talk {
            talk.count(moment.event);
        }
    }

    /// What became of its files that no change tells.
    pub(crate) fn take(&mut self) -> Vec<Moment> {
        self.follower.take()
    }

    /// What the end of its session tells of a file.
    pub(crate) fn end(&mut self) -> Option<Moment> {
        self.follower.end()
    }

    /// The file that is on its way.
    pub(crate) fn under_way(&self) -> Option<&UnderWay> {
        self.follower.under_way.as_ref()
    }

    /// The code that the partner claimed.
    pub(crate) fn claimed(&self) -> Option<&str> {
        Some(self.follower.claimed.as_ref()?.as_str())
    }
}
