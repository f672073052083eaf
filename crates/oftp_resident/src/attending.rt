//! What the sockets have is read, what is to go out is sent, and both are told to the schedule.

use crate::peer::{MOST_REQUEST_OCTETS, Peer, Reading, Task};
use crate::service::{Shell, peer_in};
use oftp_listing::{Site, read_query};
use oftp_outcomes::{Fault, Trouble};
use oftp_partners::Book;
use oftp_requests::{Asked, Came, Welcome, sought_by, welcome_of};
use oftp_schedule::connection::{Request, Signal};
use oftp_sockets::socket_fault;
use std::alloc::Global;

impl Shell<'_> {
    /// Reads and sends what can be read and sent without a wait.
    pub(crate) fn attend_all(&mut self) -> Result<(), Fault> {
        for place in 0..self.peers.len() {
            self.attend(place)?;
        }
        Ok(())
    }

    /// Attends to the connection at a place.
    fn attend(&mut self, place: usize) -> Result<(), Fault> {
        let alloc = self.rt.alloc();
        let site = self.config.site;
        let book = self.station.book;
        let Some(peer) = self.peers.get_mut(place) else {
            return Ok(());
        };
        let id = peer.id;
        let sent = peer.send();
        peer.end_writing();
        let heard = peer.hear(alloc, book, site);
        let is_dialing = peer.reading == Reading::Dial && peer.readiness.is_writable;
        if let Some(signal) = sent {
            self.tell(id, signal)?;
        }
        if let Some(signal) = heard {
            self.tell(id, signal)?;
        }
        if is_dialing {
            self.heed_dial(id)
        } else {
            Ok(())
        }
    }

    /// Tells whether a call is connected, once that is known. If its address can't be reached, the next one is tried.
    fn heed_dial(&mut self, id: u64) -> Result<(), Fault> {
        let rt = self.rt;
        let Some(peer) = peer_in(&mut self.peers, id) else {
            return Ok(());
        };
        peer.readiness.is_writable = false;
        match peer.stream.is_connected() {
            Ok(false) => Ok(()),
            Ok(true) => {
                peer.connect();
                self.tell(id, Signal::Up)
            }
            Err(error) => {
                if let Task::Call(call) = &mut peer.task {
                    call.blame(&error);
                }
                self.connect(rt, id, socket_fault(&error))
            }
        }
    }
}

impl Peer<'_> {
    /// Makes the socket of a call that is connected one like the others.
    fn connect(&mut self) {
        let _ = self.stream.set_nodelay();
        self.reading = Reading::Nothing;
        self.readiness.is_readable = true;
        self.readiness.is_writable = true;
        self.readiness.is_gone = false;
    }

    /// Reads what is there. Returns what is to be told of it.
    fn hear(&mut self, alloc: Global, book: &Book, site: Site<'_>) -> Option<Signal> {
        if self.reading == Reading::Nothing && self.readiness.is_gone {
            return Some(Signal::Lost);
        }
        if !self.is_ready_to_read() {
            return None;
        }
        match self.take_in() {
            Came::Octets(_) => self.judge(alloc, book, site),
            Came::Nothing => None,
            Came::End => Some(Signal::Ends),
            Came::Lost => Some(Signal::Lost),
        }
    }

    /// Judges what has come so far.
    fn judge(&mut self, alloc: Global, book: &Book, site: Site<'_>) -> Option<Signal> {
        match self.reading {
            Reading::Opening => self.judge_opening(alloc),
            Reading::Session => Some(Signal::Came),
            Reading::Command => self.judge_command(alloc, book),
            Reading::Request => self.judge_request(alloc, site),
            _ => None,
        }
    }

    /// Judges the next octets of a partner that isn't let in yet.
    fn judge_opening(&mut self, alloc: Global) -> Option<Signal> {
        let piece = self.take_heard(alloc);
        if let Err(fault) = self.record_later(piece.as_slice()) {
            self.note(Err(Trouble::OfService(fault)));
            return Some(Signal::Lost);
        }
        let Task::Caller(Some(opening)) = &mut self.task else {
            return None;
        };
        match welcome_of(opening.hear(piece.as_slice())) {
            Welcome::Undecided => None,
            Welcome::LetIn => {
                self.code = match opening.code() {
                    Some(code) => code_of(alloc, code.octets()),
                    None => None,
                };
                self.reading = Reading::Nothing;
                Some(Signal::LetIn)
            }
            Welcome::SentAway(end) => {
                let last = opening.take_out(alloc);
                self.note(Ok(end));
                let _ = self.say(last);
                let _ = self.send();
                Some(Signal::Rejected)
            }
            Welcome::Failed(trouble) => {
                self.note(Err(trouble));
                Some(Signal::Lost)
            }
        }
    }

    /// Judges what has come of a command's request.
    fn judge_command(&mut self, alloc: Global, book: &Book) -> Option<Signal> {
        match oftp_channel::lacking(self.heard.as_slice()) {
            Ok(0) => {}
            Ok(_) => return None,
            Err(_) => return Some(Signal::Rejected),
        }
        let octets = self.take_heard(alloc);
        self.reading = Reading::Nothing;
        let Some(asked) = Asked::of(alloc, octets.as_slice()) else {
            return Some(Signal::Rejected);
        };
        let signal = asked.signal(book);
        self.sought = asked.sought();
        self.task = Task::Command(Some(asked));
        Some(signal)
    }

    /// Judges what has come of a request over HTTP, up to the greatest length. What it asks for is read once it is whole.
    fn judge_request(&mut self, alloc: Global, site: Site<'_>) -> Option<Signal> {
        self.heard.truncate(MOST_REQUEST_OCTETS);
        let address = self.stream.called_address();
        let query = match read_query(alloc, site, address, self.heard.as_slice()) {
            Ok(query) => Ok(query?),
            Err(fault) => Err(fault),
        };
        self.sought = match (site, &query) {
            (Site::Page(_), Ok(query)) => sought_by(*query, self.heard.as_slice()),
            _ => None,
        };
        self.task = Task::Visitor(Some(query));
        self.reading = Reading::Nothing;
        Some(Signal::Asked(Request::Query))
    }
}

/// A code as text.
fn code_of(alloc: Global, octets: &[u8]) -> Option<String> {
    let code = str::from_utf8(octets).ok()?;
    String::from_str(alloc, code).ok()
}
