//! The lines that the resident station prints for its sessions.

use oftp_engine::End;
use oftp_outcomes::{Fault, ServiceLine, Trouble, Way, last_fault, plain, write_line};
use oftp_sockets::Reporter;
use std::io::Write;

/// The code in the line of a caller who wasn't let in.
const NOBODY: &str = "-";

/// Prints a line for each session, and `ready` before the first.
#[derive(Drop)]
pub struct SessionLines<'w, W> {
    out: &'w mut W,
}

impl<'w, W: Write> SessionLines<'w, W> {
    /// Prints the lines to `out`.
    pub fn new(out: &'w mut W) -> SessionLines<'w, W> {
        SessionLines { out }
    }
}

impl<W: Write> Reporter for SessionLines<'_, W> {
    fn begin(&mut self) -> Result<(), Fault> {
        write_line(self.out, &ServiceLine::Ready)
    }

    // Out of memory ends the session alone.
    fn report(
        &mut self,
        code: Option<&str>,
        way: Way,
        ended: Result<End, Trouble>,
    ) -> Result<(), Fault> {
        let line = ServiceLine::Session {
            code: code.unwrap_or(NOBODY),
            way,
            ended: plain(&ended),
        };
        write_line(self.out, &line)?;
        match last_fault(&ended) {
            Some(fault) => Err(fault),
            None => Ok(()),
        }
    }

    fn refuse(&mut self, _fault: Fault) {}
}
