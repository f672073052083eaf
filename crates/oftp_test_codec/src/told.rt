//! What a trace tells of a command, and notes.

use oftp_notes::{DatabaseCause, Note, RefusalNote};
use oftp_telling::{Telling, tell};
use std::io;

/// Notes: one whose path has a character that can't be seen, one of a refusal, and one of nothing.
const NOTES: [Note<'static>; 3] = [
    Note::Database {
        path: "/var/lib/a\u{202e}b.db",
        cause: DatabaseCause::IsHeld(4711),
    },
    Note::Refused(RefusalNote::NoFile(12)),
    Note::Memory,
];

/// Prints what is told of the octets of a command.
pub fn command(rt: &HostRuntime, octets: &[u8]) -> io::Result<()> {
    match tell(rt.alloc(), octets)? {
        Telling::Command(line) => println!(rt; "  {line}"),
        Telling::Data(count) => println!(rt; "  {count} octets of a file"),
        Telling::Fault(line) => println!(rt; "  fault: {line}"),
    }
}

/// Prints the notes. Each ends by its own line feed.
pub fn notes(rt: &HostRuntime) -> io::Result<()> {
    for note in &NOTES {
        let line = note.to_line(rt.alloc())?;
        print!(rt; "  {line}")?;
    }
    Ok(())
}
