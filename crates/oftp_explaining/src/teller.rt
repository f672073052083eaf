//! Where notes are written.

use oftp_notes::{Note, SystemError};
use std::io::{self, Write};

/// Writes notes.
#[derive(Drop)]
pub struct Teller<'a, W> {
    /// What the program may do.
    pub rt: &'a HostRuntime,
    /// Where they are written.
    pub err: W,
}

impl<'a, W: Write> Teller<'a, W> {
    /// One that writes here.
    pub fn new(rt: &'a HostRuntime, err: W) -> Teller<'a, W> {
        Teller { rt, err }
    }

    /// Writes a note. One for which there is no memory, or that can't be written, is lost.
    pub fn tell(&mut self, note: &Note<'_>) {
        if let Ok(line) = note.to_line(self.rt.alloc()) {
            let _ = self.err.write_all(line.as_bytes());
        }
    }
}

/// The system's error, if it is one.
pub(crate) fn system_error(error: &io::Error) -> Option<SystemError> {
    let number = error.raw_os_error()?;
    Some(SystemError(u32::try_from(number).ok()?))
}
