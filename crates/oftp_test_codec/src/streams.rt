//! Streams: deframed into commands.

use crate::line::Line;
use crate::octets::{Fields, print_line, print_whole};
use oftp_codec::{Deframer, header};
use std::io;

/// The greatest length of a frame.
const LIMIT: usize = 100_003;

/// Prints the whole commands, and then the result after them.
fn print_commands(rt: &HostRuntime, deframer: &mut Deframer) -> io::Result<()> {
    for _ in 0..u64::MAX {
        match deframer.next() {
            Ok(Some(command)) => print_whole(rt, command)?,
            Ok(None) => return println!(rt; " none"),
            Err(fault) => return println!(rt; " {fault:?}"),
        }
    }
    Ok(())
}

/// Feeds pieces, and prints the whole commands after each.
pub fn feed(rt: &HostRuntime, pieces: &Fields) -> io::Result<()> {
    let mut deframer = Deframer::new(rt.alloc(), LIMIT);
    for piece in pieces {
        match deframer.feed(piece) {
            Ok(()) => print!(rt; " ")?,
            Err(fault) => print!(rt; "  refused {fault:?}, then")?,
        }
        print_commands(rt, &mut deframer)?;
    }
    Ok(())
}

/// Prints the header of a command with this length.
pub fn header_of(rt: &HostRuntime, line: &mut Line) -> io::Result<()> {
    match header(line.number() as usize) {
        Some(octets) => print_line(rt, "  ", &octets),
        None => println!(rt; "  none"),
    }
}
