//! The command `show`: prints the commands that one side of a session sent.

use crate::files::{file_fault, open_input};
use crate::transcript::{Counted, Head, Transcript};
use oftp_engine::RunFault;
use oftp_outcomes::Fault;
use oftp_telling::Sender;
use std::alloc::AllocError;
use std::io::{Read, Write};

/// What stands in front of a line: nothing.
const HEAD: Head = Head {
    sender: Sender::Partner,
    time: None,
};

/// How many octets are read at once.
const PIECE: usize = 4_096;

/// Writes a line for each command in a file, up to the first fault; DATA between two others have one line. Returns whether there was no fault.
///
/// # Errors
/// [`Fault::File`] if the file can't be read; [`Fault::Run`] with [`RunFault::Write`] if `out` returned an error; [`Fault::MEMORY`]. The
/// lines before it are written.
pub fn show(rt: &HostRuntime, input: &str, out: &mut impl Write) -> Result<bool, Fault> {
    let mut input = open_input(rt, input)?;
    let mut transcript = Transcript::new(rt.alloc());
    let mut counted = None;
    let mut piece = [0; PIECE];
    for _ in 0..u64::MAX {
        let count = input.read(&mut piece).map_err(|error| file_fault(&error))?;
        let lines = lines_of(rt, &mut transcript, &mut counted, &piece[..count])?;
        if out.write_all(lines.as_bytes()).is_err() {
            return Err(Fault::Run(RunFault::Write));
        }
        if count == 0 || transcript.is_faulty() {
            break;
        }
    }
    Ok(!transcript.is_faulty())
}

/// The lines that a piece adds. An empty piece is the end.
fn lines_of(
    rt: &HostRuntime,
    transcript: &mut Transcript,
    counted: &mut Option<Counted>,
    piece: &[u8],
) -> Result<String, AllocError> {
    let mut lines = String::new(rt.alloc());
    if piece.is_empty() {
        transcript.end(HEAD, counted, &mut lines)?;
    } else {
        transcript.take(piece, HEAD, counted, &mut lines)?;
    }
    Ok(lines)
}
