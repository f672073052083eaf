//! A connection of the station: its socket, what it has sent, what is to go to it, and what it is.

use crate::dialing::Outgoing;
use crate::diary::Diary;
use crate::recording::Recorded;
use crate::stream::Stream;
use oftp_engine::{End, RunFault};
use oftp_files::SessionTrace;
use oftp_life::Opening;
use oftp_listing::{LONGEST_HEAD, ListFault, Query};
use oftp_outcomes::{Fault, Trouble};
use oftp_partners::Book;
use oftp_requests::{Asked, Came, Sought, came_of, end_of_input};
use oftp_schedule::connection::Signal;
use std::alloc::Global;
use std::io::ErrorKind;
use std::mem;

/// How many octets are read at once.
const PIECE: usize = 4_096;

/// The same of a session.
const SESSION_PIECE: usize = 65_536;

/// The same of a request over HTTP: one more than a head may have. All that is there counts.
pub(crate) const MOST_REQUEST_OCTETS: usize = LONGEST_HEAD + 1;

/// How many times one connection is written to before the others get their turn.
const MOST_WRITES: u32 = 16;

/// What is read of a connection.
#[derive(Clone, Copy, PartialEq, Eq)]
pub(crate) enum Reading {
    /// The octets of a partner that isn't let in yet.
    Opening,
    /// The next piece of a session.
    Session,
    /// Nothing, while a session sends a file. What comes meanwhile, and an end, is read after that.
    Sending,
    /// A command's request.
    Command,
    /// A request over HTTP.
    Request,
    /// The end of a copy of the database's files.
    Copy,
    /// What still comes, which is dropped.
    Rest,
    /// Whether a call is connected.
    Dial,
    /// Nothing.
    Nothing,
}

/// What a connection is.
#[derive(Drop)]
pub(crate) enum Task<'a> {
    /// A partner who called, with its opening until its session begins.
    Caller(Option<Opening<'a>>),
    /// A partner who is called.
    Call(Outgoing<'a>),
    /// A command, with its request once that is whole.
    Command(Option<Asked>),
    /// A request over HTTP, with what it asks for once its head is whole, or why that can't be read.
    Visitor(Option<Result<Query, ListFault>>),
}

/// What the system last reported of a socket.
#[derive(Clone, Copy)]
pub(crate) struct Readiness {
    pub(crate) is_readable: bool,
    pub(crate) is_writable: bool,
    /// Nothing can be sent to it any more.
    pub(crate) is_gone: bool,
}

/// A connection.
#[derive(Drop)]
pub(crate) struct Peer<'a> {
    pub(crate) id: u64,
    pub(crate) task: Task<'a>,
    pub(crate) stream: Stream,
    pub(crate) reading: Reading,
    pub(crate) readiness: Readiness,
    /// What it has sent and is still to be taken.
    pub(crate) heard: Vec<u8>,
    // What is to go to it, of which so many octets went.
    out: Vec<u8>,
    sent: usize,
    // Whether the station's direction is ended.
    is_ended: bool,
    /// What it asks for of the station itself, if it does.
    pub(crate) sought: Option<Sought>,
    /// The number of the user whose command it is, once that makes a change, if it is known.
    pub(crate) user: Option<u32>,
    /// The answer to its request, once that is made.
    pub(crate) answer: Option<Vec<u8>>,
    /// The partner's code, once it is known.
    pub(crate) code: Option<String>,
    /// How its session ended, once it did.
    pub(crate) ended: Option<Result<End, Trouble>>,
    pub(crate) trace: Option<SessionTrace<'a>>,
    /// What its events tell, where events are written.
    pub(crate) diary: Option<Diary>,
    /// What the record has of it.
    pub(crate) recorded: Recorded,
    /// The book by which it is served, if it is a partner.
    pub(crate) book: Option<&'a Book>,
    /// Its octets, if that was read since the service began.
    pub(crate) latest: &'a [u8],
}

impl<'a> Peer<'a> {
    /// A connection that has sent nothing.
    pub(crate) fn new(
        alloc: Global,
        id: u64,
        task: Task<'a>,
        stream: Stream,
        reading: Reading,
    ) -> Peer<'a> {
        Peer {
            id,
            task,
            stream,
            reading,
            readiness: Readiness {
                is_readable: true,
                is_writable: true,
                is_gone: false,
            },
            heard: Vec::new(alloc),
            out: Vec::new(alloc),
            sent: 0,
            is_ended: false,
            sought: None,
            user: None,
            answer: None,
            code: None,
            ended: None,
            trace: None,
            diary: None,
            recorded: Recorded::Nothing,
            book: None,
            latest: &[],
        }
    }

    /// Notes how its session ended, unless that was noted before.
    pub(crate) fn note(&mut self, ended: Result<End, Trouble>) {
        if self.ended.is_none() {
            self.ended = Some(ended);
        }
    }

    /// How many octets are to go to it.
    pub(crate) fn left(&self) -> u64 {
        self.out.len().saturating_sub(self.sent) as u64
    }

    /// How many octets are held for it: none once all went.
    fn held(&self) -> u64 {
        match (&self.task, self.left()) {
            (_, 0) => 0,
            (Task::Command(_) | Task::Visitor(_), _) => self.out.len() as u64,
            (Task::Caller(_) | Task::Call(_), left) => left,
        }
    }

    /// Lets octets go to it after those that are to go already.
    ///
    /// # Errors
    /// Out of memory. None of them goes then.
    pub(crate) fn say(&mut self, octets: Vec<u8>) -> Result<(), Fault> {
        if let Some(diary) = &mut self.diary {
            diary.said(octets.as_slice());
        }
        if self.left() == 0 {
            self.out = octets;
            self.sent = 0;
            return Ok(());
        }
        self.out.extend_from_slice(octets.as_slice())?;
        Ok(())
    }

    /// Whether something can be read of it that is to be read, or sent to it.
    pub(crate) fn is_ready(&self) -> bool {
        self.is_ready_to_read() || self.readiness.is_writable && self.left() > 0
    }

    /// Whether something can be read of it that is to be read.
    pub(crate) fn is_ready_to_read(&self) -> bool {
        let is_read = match self.reading {
            Reading::Nothing | Reading::Dial | Reading::Sending => false,
            Reading::Session => self.heard.is_empty(),
            _ => true,
        };
        self.readiness.is_readable && is_read
    }

    /// Reads the next piece, and keeps it behind what came before, unless it is to be dropped. The end and an error of a session are noted.
    pub(crate) fn take_in(&mut self) -> Came {
        match self.reading {
            Reading::Session => self.take_into(&mut [0; SESSION_PIECE]),
            Reading::Request => self.take_into(&mut [0; MOST_REQUEST_OCTETS]),
            _ => self.take_into(&mut [0; PIECE]),
        }
    }

    /// Reads the next piece into this room, and keeps it as [`Peer::take_in`] says.
    fn take_into(&mut self, room: &mut [u8]) -> Came {
        let came = self.read(room);
        match (came, self.reading) {
            (Came::Octets(_), Reading::Copy | Reading::Rest) => {}
            (Came::Octets(count), _) => return self.keep(room.get(..count).unwrap_or(&[])),
            // How an opening ends that is lost is told by the schedule.
            (Came::Lost, Reading::Opening) => {}
            (_, Reading::Opening | Reading::Session) => self.note_input(came),
            _ => {}
        }
        came
    }

    /// Notes how its session ends of whose partner this came, if it does.
    fn note_input(&mut self, came: Came) {
        if let Some(ended) = end_of_input(came) {
            self.note(ended);
        }
    }

    /// Reads a piece.
    fn read(&mut self, piece: &mut [u8]) -> Came {
        match self.stream.read(piece) {
            Ok(count) => came_of(Some(count)),
            Err(error) if error.kind() == ErrorKind::WouldBlock => {
                self.readiness.is_readable = false;
                Came::Nothing
            }
            Err(error) if error.kind() == ErrorKind::Interrupted => Came::Nothing,
            Err(_) => came_of(None),
        }
    }

    /// Keeps a piece until it is taken.
    fn keep(&mut self, piece: &[u8]) -> Came {
        if let Some(trace) = &mut self.trace {
            trace.heard(piece);
        }
        if let Some(diary) = &mut self.diary {
            diary.heard(piece);
        }
        match self.heard.extend_from_slice(piece) {
            Ok(()) => Came::Octets(piece.len()),
            Err(_) => {
                self.note(Err(Trouble::OfService(Fault::MEMORY)));
                Came::Lost
            }
        }
    }

    /// Sends what can be sent. Returns what is to be told of that.
    pub(crate) fn send(&mut self) -> Option<Signal> {
        let before = self.left();
        if before == 0 || !self.readiness.is_writable {
            return None;
        }
        for _ in 0..MOST_WRITES {
            if self.left() == 0 || !self.readiness.is_writable {
                break;
            }
            if !self.write() {
                self.note(Err(Trouble::OfJob(Fault::Run(RunFault::Write))));
                return Some(Signal::Lost);
            }
        }
        self.drop_sent();
        if self.left() == before {
            None
        } else {
            Some(Signal::Went(self.held()))
        }
    }

    /// Writes once. Returns whether the connection stands.
    fn write(&mut self) -> bool {
        let Some(rest) = self.out.get(self.sent..) else {
            return true;
        };
        match self.stream.write(rest) {
            Ok(count) if count > 0 => {
                if let Some(diary) = &mut self.diary {
                    diary.went(count);
                }
                if let (Some(trace), Some(said)) = (&mut self.trace, rest.get(..count)) {
                    trace.said(said);
                }
                self.sent = self.sent.saturating_add(count);
                true
            }
            Err(error) if error.kind() == ErrorKind::WouldBlock => {
                self.readiness.is_writable = false;
                true
            }
            Err(error) => error.kind() == ErrorKind::Interrupted,
            Ok(_) => false,
        }
    }

    /// Forgets the octets that went, once they are as many as those that are left, and gives their memory back.
    fn drop_sent(&mut self) {
        let left = self.out.len().saturating_sub(self.sent);
        if left == 0 {
            self.out.clear();
            self.sent = 0;
        } else if self.sent >= left {
            let _ = self.out.drain(..self.sent);
            self.out.shrink_to_fit();
            self.sent = 0;
        }
    }

    /// Ends the station's direction once all is sent, if only the rest of what comes is read.
    pub(crate) fn end_writing(&mut self) {
        if self.reading == Reading::Rest && self.left() == 0 && !self.is_ended {
            self.is_ended = true;
            let _ = self.stream.end_writing();
        }
    }

    /// Lets go of its socket and of all that belongs to that. What it is stays.
    pub(crate) fn hang_up(&mut self, alloc: Global) {
        self.stream = Stream::absent();
        self.reading = Reading::Nothing;
        self.readiness.is_gone = false;
        self.heard = Vec::new(alloc);
        self.out = Vec::new(alloc);
        self.sent = 0;
        self.is_ended = false;
        self.ended = None;
        self.trace = None;
        self.recorded = Recorded::Nothing;
    }

    /// The call that it is.
    pub(crate) fn call(&self) -> Option<&Outgoing<'a>> {
        match &self.task {
            Task::Call(call) => Some(call),
            _ => None,
        }
    }

    /// The command that wanted this call.
    pub(crate) fn asker(&self) -> Option<u64> {
        self.call()?.asker
    }

    /// Takes what it has sent.
    pub(crate) fn take_heard(&mut self, alloc: Global) -> Vec<u8> {
        mem::replace(&mut self.heard, Vec::new(alloc))
    }
}
