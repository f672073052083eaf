//! Prints a stream of octets: a line for each command, up to the first octets that aren't one.

use jiff::Timestamp;
use oftp_codec::{Deframer, FRAME_HEADER, LONGEST_FRAME};
use oftp_telling::{DataCount, Sender, Telling, gather, tell};
use std::alloc::{AllocError, Global};
use std::fmt;

/// What stands in front of a line: who sent the command, and in a trace the time, with six digits of the second.
#[derive(Clone, Copy)]
pub struct Head {
    /// Who sent it.
    pub sender: Sender,
    /// When it came or went, in microseconds since 1970. `None` where only one side is printed.
    pub time: Option<i64>,
}

impl fmt::Display for Head {
    fn fmt<W: fmt::Write>(&self, f: &mut fmt::Formatter<W>) -> fmt::Result {
        let Some(time) = self.time else {
            return Ok(());
        };
        let Ok(time) = Timestamp::from_microsecond(time) else {
            return Ok(());
        };
        let mark = match self.sender {
            Sender::Partner => '<',
            Sender::Station => '>',
        };
        write!(f, "{time:.6} {mark} ")
    }
}

/// DATA that are told once another command comes, from either side.
#[derive(Clone, Copy)]
pub struct Counted {
    head: Head,
    count: DataCount,
}

/// Adds the line of DATA that were counted.
///
/// # Errors
/// Out of memory: part of the line may be missing.
pub fn tell_counted(counted: &mut Option<Counted>, lines: &mut String) -> Result<(), AllocError> {
    if let Some(Counted { head, count }) = *counted {
        *counted = None;
        write!(lines, "{head}{count}\n")?;
    }
    Ok(())
}

/// Counts one more DATA. Those of the other side, which it ends, become a line.
fn count_data(
    head: Head,
    octets: usize,
    counted: &mut Option<Counted>,
    lines: &mut String,
) -> Result<(), AllocError> {
    let before = match *counted {
        Some(counted) => Some(counted.count),
        None => None,
    };
    let gathered = gather(before, head.sender, octets as u64);
    if gathered.due.is_some() {
        tell_counted(counted, lines)?;
    }
    *counted = Some(Counted {
        head,
        count: gathered.now,
    });
    Ok(())
}

/// A stream that is printed as it arrives.
#[derive(Drop)]
pub struct Transcript {
    alloc: Global,
    deframer: Deframer,
    /// How many octets have arrived.
    came: u64,
    /// Where the next frame begins, in octets from 0.
    offset: u64,
    /// Whether a fault was printed. Nothing is parsed after it.
    is_faulty: bool,
}

impl Transcript {
    /// A stream of which nothing has arrived.
    pub fn new(alloc: Global) -> Transcript {
        Transcript {
            alloc,
            deframer: Deframer::new(alloc, LONGEST_FRAME),
            came: 0,
            offset: 0,
            is_faulty: false,
        }
    }

    /// Whether a fault was printed.
    pub fn is_faulty(&self) -> bool {
        self.is_faulty
    }

    /// Parses the next piece of the stream. Adds a line, with `head` in front, for each command that is whole now, or for the first fault.
    /// DATA are counted, and told before the next line.
    ///
    /// # Errors
    /// Out of memory: part of the lines may be missing.
    pub fn take(
        &mut self,
        piece: &[u8],
        head: Head,
        counted: &mut Option<Counted>,
        lines: &mut String,
    ) -> Result<(), AllocError> {
        if self.is_faulty {
            return Ok(());
        }
        if self.deframer.feed(piece).is_err() {
            return Err(AllocError);
        }
        self.came = self.came.saturating_add(piece.len() as u64);
        // A frame has at least one octet, and the deframer has fewer than a frame and a piece.
        for _ in 0..LONGEST_FRAME.saturating_add(piece.len()) {
            if !self.tell_next(head, counted, lines)? {
                break;
            }
        }
        Ok(())
    }

    /// Adds the line of DATA that were counted, and a line if the end of the stream cuts off a frame.
    ///
    /// # Errors
    /// Out of memory: part of the lines may be missing.
    pub fn end(
        &mut self,
        head: Head,
        counted: &mut Option<Counted>,
        lines: &mut String,
    ) -> Result<(), AllocError> {
        tell_counted(counted, lines)?;
        if !self.is_faulty && self.offset < self.came {
            self.is_faulty = true;
            write!(
                lines,
                "{head}fault at octet {}: the frame isn't whole\n",
                self.offset
            )?;
        }
        Ok(())
    }

    /// Adds the line of the next frame, if it is whole. Returns whether another may follow.
    fn tell_next(
        &mut self,
        head: Head,
        counted: &mut Option<Counted>,
        lines: &mut String,
    ) -> Result<bool, AllocError> {
        let at = self.offset;
        let frame = match self.deframer.next() {
            Ok(Some(frame)) => frame,
            Ok(None) => return Ok(false),
            Err(fault) => {
                self.is_faulty = true;
                tell_counted(counted, lines)?;
                write!(lines, "{head}fault at octet {at}: {fault}\n")?;
                return Ok(false);
            }
        };
        self.offset = at
            .saturating_add(FRAME_HEADER as u64)
            .saturating_add(frame.len() as u64);
        let telling = tell(self.alloc, frame)?;
        self.is_faulty = matches!(telling, Telling::Fault(_));
        add_line(telling, at, head, counted, lines)?;
        Ok(!self.is_faulty)
    }
}

/// Adds what is told of the frame at an octet.
fn add_line(
    telling: Telling,
    at: u64,
    head: Head,
    counted: &mut Option<Counted>,
    lines: &mut String,
) -> Result<(), AllocError> {
    match telling {
        Telling::Data(octets) => count_data(head, octets, counted, lines),
        Telling::Command(line) => {
            tell_counted(counted, lines)?;
            write!(lines, "{head}{line}\n")
        }
        Telling::Fault(line) => {
            tell_counted(counted, lines)?;
            write!(lines, "{head}fault in the command at octet {at}: {line}\n")
        }
    }
}
