//! Traces: the commands on a connection, appended to a file as text. Sessions know nothing of them.

use crate::access::make_private;
use crate::transcript::{Counted, Head, Transcript, tell_counted};
use jiff::Timestamp;
use oftp_engine::End;
use oftp_outcomes::{Fault, Outcome};
use oftp_telling::Sender;
use std::alloc::Global;
use std::cell::RefCell;
use std::fmt;
use std::fs::{File, OpenOptions};
use std::io::{self, ErrorKind, Read, Write};

/// A log to which lines are appended, each with the time. If a line can't be written, only that line is lost.
#[derive(Drop)]
pub struct Trace<'a> {
    rt: &'a HostRuntime,
    target: Target,
    // The DATA of a session that reads and writes through `Traced`.
    counted: RefCell<Option<Counted>>,
}

/// Where the lines of a trace go.
#[derive(Drop)]
enum Target {
    /// To a file.
    File(File),
    /// To a buffer that somebody takes later.
    Kept(RefCell<Vec<u8>>),
}

impl<'a> Trace<'a> {
    /// Opens the trace in a file. A file that doesn't exist is created so that only its owner may read it.
    ///
    /// # Errors
    /// The file can't be created or opened for writing.
    pub fn open(rt: &'a HostRuntime, path: &str) -> io::Result<Trace<'a>> {
        let file = match make_private(rt, path) {
            Err(error) if error.kind() == ErrorKind::AlreadyExists => {
                OpenOptions::new().append(true).open(rt, path)?
            }
            made => made?,
        };
        Ok(Trace {
            rt,
            target: Target::File(file),
            counted: RefCell::new(None),
        })
    }

    /// A trace that is kept in memory until it is taken.
    pub fn kept(rt: &'a HostRuntime) -> Trace<'a> {
        Trace {
            rt,
            target: Target::Kept(RefCell::new(Vec::new(rt.alloc()))),
            counted: RefCell::new(None),
        }
    }

    /// The lines that were kept in memory; none for a trace in a file.
    pub fn into_kept(self) -> Vec<u8> {
        let Trace { rt, target, .. } = self;
        match target {
            Target::Kept(kept) => kept.into_inner(),
            Target::File(file) => {
                drop(file);
                Vec::new(rt.alloc())
            }
        }
    }

    /// Appends lines that have their times already. They are lost if they can't be written.
    pub fn append(&self, lines: &[u8]) {
        self.put(lines)
    }

    /// Appends the line for the end of a session, or for the error that ended it, as [`Trace::tell`] does. DATA that were counted come first.
    pub fn tell_end(&self, ended: &Result<End, Fault>) {
        if let Ok(mut counted) = self.counted.try_replace(None) {
            self.tell_counted(&mut counted);
        }
        match ended {
            Ok(end) => self.tell(&Outcome::Ended(*end)),
            Err(fault) => self.tell(fault),
        }
    }

    /// Appends a line with the time. It is lost if the clock fails, memory runs out or it can't be written.
    pub fn tell<L: fmt::Display>(&self, line: &L) {
        if let Some(time) = self.time() {
            if let Ok(text) = format!(in self.rt.alloc(); "{time:.6} {line}\n") {
                self.put(text.as_bytes());
            }
        }
    }

    /// Appends the line of DATA that were counted. It is lost if memory runs out or it can't be written.
    pub(crate) fn tell_counted(&self, counted: &mut Option<Counted>) {
        let mut lines = String::new(self.rt.alloc());
        if tell_counted(counted, &mut lines).is_ok() {
            self.put(lines.as_bytes());
        }
    }

    /// The time, if the clock can be read.
    fn time(&self) -> Option<Timestamp> {
        Timestamp::now(self.rt).ok()
    }

    /// Appends lines with one write.
    fn put(&self, lines: &[u8]) {
        match &self.target {
            Target::File(file) => {
                let mut file = file;
                let _ = file.write_all(lines);
            }
            Target::Kept(kept) => keep(self.rt.alloc(), kept, lines),
        }
    }
}

/// Appends lines to those in memory.
fn keep(alloc: Global, kept: &RefCell<Vec<u8>>, lines: &[u8]) {
    if let Ok(mut all) = kept.try_replace(Vec::new(alloc)) {
        let _ = all.extend_from_slice(lines);
        let _ = kept.try_replace(all);
    }
}

/// One direction of a session: who sends, and the parser of its octets.
#[derive(Drop)]
pub(crate) struct Strand {
    sender: Sender,
    // `None` after a failure: the start of the next command isn't known then.
    transcript: Option<Transcript>,
}

impl Strand {
    /// What this side sends.
    pub(crate) fn new(alloc: Global, sender: Sender) -> Strand {
        Strand {
            sender,
            transcript: Some(Transcript::new(alloc)),
        }
    }

    /// Appends the lines of a piece to a trace. Once the clock can't be read or memory runs out, this direction isn't traced any more.
    pub(crate) fn tell(&mut self, trace: &Trace<'_>, piece: &[u8], counted: &mut Option<Counted>) {
        if let Some(transcript) = &mut self.transcript
            && append(trace, self.sender, transcript, piece, counted).is_none()
        {
            self.transcript = None;
        }
    }
}

/// Appends the lines of a piece. Returns `None` if the clock can't be read, or memory runs out.
fn append(
    trace: &Trace<'_>,
    sender: Sender,
    transcript: &mut Transcript,
    piece: &[u8],
    counted: &mut Option<Counted>,
) -> Option<()> {
    let time = Some(trace.time()?.as_microsecond());
    let mut lines = String::new(trace.rt.alloc());
    transcript
        .take(piece, Head { sender, time }, counted, &mut lines)
        .ok()?;
    trace.put(lines.as_bytes());
    Some(())
}

/// The reader or writer of a session, with the trace of its octets, if there is one. Once the clock can't be read or memory runs out, the
/// octets aren't traced any more.
#[derive(Drop)]
pub struct Traced<'a, S> {
    stream: S,
    way: Option<Way<'a>>,
}

/// One direction of a session, and its trace.
#[derive(Drop)]
struct Way<'a> {
    trace: &'a Trace<'a>,
    strand: Strand,
}

impl<'a, S> Traced<'a, S> {
    /// A reader for what the partner sends.
    pub fn reader(stream: S, trace: Option<&'a Trace<'a>>) -> Traced<'a, S> {
        Traced {
            stream,
            way: trace.map(|trace| Way {
                trace,
                strand: Strand::new(trace.rt.alloc(), Sender::Partner),
            }),
        }
    }

    /// A writer for what the partner receives.
    pub fn writer(stream: S, trace: Option<&'a Trace<'a>>) -> Traced<'a, S> {
        Traced {
            stream,
            way: trace.map(|trace| Way {
                trace,
                strand: Strand::new(trace.rt.alloc(), Sender::Station),
            }),
        }
    }

    /// Adds a piece to the trace, which was read or written already.
    pub fn tell(&mut self, piece: &[u8]) {
        if let Some(way) = &mut self.way
            && let Ok(mut counted) = way.trace.counted.try_replace(None)
        {
            way.strand.tell(way.trace, piece, &mut counted);
            let _ = way.trace.counted.try_replace(counted);
        }
    }
}

impl<S: Read> Read for Traced<'_, S> {
    fn read(&mut self, piece: &mut [u8]) -> io::Result<usize> {
        let count = self.stream.read(piece)?;
        self.tell(&piece[..count]);
        Ok(count)
    }
}

impl<S: Write> Write for Traced<'_, S> {
    fn write(&mut self, piece: &[u8]) -> io::Result<usize> {
        let count = self.stream.write(piece)?;
        self.tell(&piece[..count]);
        Ok(count)
    }

    fn flush(&mut self) -> io::Result<()> {
        self.stream.flush()
    }
}
