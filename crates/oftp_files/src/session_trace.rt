//! The trace of one session, whose octets are told in pieces.

use crate::tracing::{Strand, Trace};
use crate::transcript::Counted;
use oftp_engine::End;
use oftp_outcomes::Fault;
use oftp_telling::Sender;
use std::alloc::Global;
use std::mem;

/// Where the lines of a session go.
#[derive(Drop)]
pub enum Lines<'a> {
    /// To a trace that other sessions have too.
    Shared(&'a Trace<'a>),
    /// To one of its own.
    Own(Trace<'a>),
}

/// The trace of one session. It is told each piece once, in the order in which they came and went.
#[derive(Drop)]
pub struct SessionTrace<'a> {
    alloc: Global,
    lines: Lines<'a>,
    heard: Strand,
    said: Strand,
    // The DATA that are told once another command comes.
    counted: Option<Counted>,
    // The pieces that are told later. `None` once they are told at once.
    held: Option<Vec<(Sender, Vec<u8>)>>,
}

impl<'a> SessionTrace<'a> {
    /// A trace that holds its pieces until [`SessionTrace::begin`], so that the lines of sessions don't mix.
    pub fn new(alloc: Global, lines: Lines<'a>) -> SessionTrace<'a> {
        SessionTrace {
            alloc,
            lines,
            heard: Strand::new(alloc, Sender::Partner),
            said: Strand::new(alloc, Sender::Station),
            counted: None,
            held: Some(Vec::new(alloc)),
        }
    }

    /// Appends what was held. From now on each piece is appended at once.
    pub fn begin(&mut self) {
        let Some(held) = mem::replace(&mut self.held, None) else {
            return;
        };
        for (sender, piece) in held {
            self.append(sender, piece.as_slice());
        }
    }

    /// A piece of the partner was read.
    pub fn heard(&mut self, piece: &[u8]) {
        self.take(Sender::Partner, piece);
    }

    /// A piece was written to the partner.
    pub fn said(&mut self, piece: &[u8]) {
        self.take(Sender::Station, piece);
    }

    /// Appends the line for the end of the session, after all that was held.
    pub fn end(&mut self, ended: &Result<End, Fault>) {
        self.begin();
        let trace = trace_in(&self.lines);
        trace.tell_counted(&mut self.counted);
        trace.tell_end(ended);
    }

    /// The lines that a trace of its own kept in memory; none of another one.
    pub fn into_kept(self) -> Vec<u8> {
        let SessionTrace { alloc, lines, .. } = self;
        match lines {
            Lines::Own(trace) => trace.into_kept(),
            Lines::Shared(_) => Vec::new(alloc),
        }
    }

    /// Holds or appends a piece. One that there is no memory for is lost.
    fn take(&mut self, sender: Sender, piece: &[u8]) {
        match &mut self.held {
            Some(held) => {
                if let Ok(piece) = Vec::from_slice(self.alloc, piece) {
                    let _ = held.push((sender, piece));
                }
            }
            None => self.append(sender, piece),
        }
    }

    fn append(&mut self, sender: Sender, piece: &[u8]) {
        let trace = trace_in(&self.lines);
        match sender {
            Sender::Partner => self.heard.tell(trace, piece, &mut self.counted),
            Sender::Station => self.said.tell(trace, piece, &mut self.counted),
        }
    }
}

/// The trace to which the lines go.
fn trace_in<'t, 'a>(lines: &'t Lines<'a>) -> &'t Trace<'a> {
    match lines {
        Lines::Shared(trace) => trace,
        Lines::Own(trace) => trace,
    }
}
