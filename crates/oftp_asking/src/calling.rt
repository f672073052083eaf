//! The command `call`, which the station that runs over the database carries out.

use crate::beside::Beside;
use oftp_channel::{Request, Tracing};
use oftp_command_line::Call;
use oftp_files::{Trace, open_trace};
use oftp_outcomes::{Fault, Outcome};
use oftp_requests::{Backend, outcome_in};
use std::io::{self, Write};

/// Has the station call a partner of its book for one session. The lines of its trace are written as they come.
///
/// # Errors
/// [`Fault::File`] if the trace can't be opened; those of the session; [`Fault::Run`] if the station is gone; [`Fault::MEMORY`].
pub fn call(rt: &HostRuntime, line: &Call<'_>, station: &mut Beside<'_>) -> Result<Outcome, Fault> {
    let trace = open_trace(
        rt,
        line.terms.trace,
        &[line.files.book],
        Some(line.files.database),
    )?;
    call_traced(line, trace.as_ref(), station)
}

/// Has the station call a partner, with this trace if there is one.
fn call_traced<'t>(
    line: &Call<'_>,
    trace: Option<&'t Trace<'t>>,
    station: &mut Beside<'_>,
) -> Result<Outcome, Fault> {
    let tracing = match trace {
        Some(_) => Tracing::Kept,
        None => Tracing::None,
    };
    let request = Request::Call {
        partner: line.partner,
        patience: line.terms.patience,
        longest: line.terms.longest,
        tracing,
    };
    let mut lines = TraceLines { trace };
    let asked = station.ask(&request, &mut lines);
    outcome_in(asked)
}

/// A writer for the lines of a session's trace. Without a trace they are dropped.
#[derive(Clone, Copy)]
struct TraceLines<'a> {
    trace: Option<&'a Trace<'a>>,
}

impl Write for TraceLines<'_> {
    fn write(&mut self, lines: &[u8]) -> io::Result<usize> {
        if let Some(trace) = self.trace {
            trace.append(lines);
        }
        Ok(lines.len())
    }

    fn flush(&mut self) -> io::Result<()> {
        Ok(())
    }
}
