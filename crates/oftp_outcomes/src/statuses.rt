//! The exit statuses of commands, and which errors are printed.

ghost use Rattle.std.specs.Prelude.{◌≡◌, IfErr, IfOk, OnOk, Some, not};
ghost use Rattle.oftp_outcomes.specs.Printed.{TakesLine, is_refusal, outcome_line, resent_line, write_fault};
ghost use Rattle.oftp_outcomes.specs.Statuses.{is_good, is_told, status_after, status_if, status_of};

use crate::outcome::{Fault, Outcome, Resent, write_line};
use crate::output::Reader;
use oftp_engine::{End, RunFault, Told};
use std::io::Write;

/// The exit status of a command that is done.
pub const DONE: u8 = 0;

/// The exit status of a command that was refused, or failed.
pub const FAILED: u8 = 1;

/// Writes the outcome of a command as a line. Returns the exit status: [`FAILED`] for a refusal, else [`DONE`].
///
/// # Errors
/// [`Fault::Run`]: `out` returned an error.
pub fn tell<W: Write>(outcome: Outcome, out: &mut W) -> Result<u8, Fault>
    ensures written { OnOk result (TakesLine (W.contents out.old) (W.contents out.new) (Some (outcome_line outcome))) }
    ensures status { IfOk result (λ status. status ≡ status_if (is_refusal outcome)) }
    ensures fails { IfErr result (λ fault. fault ≡ write_fault) }
{
    write_line(out, &outcome)?;
    Ok(if outcome.is_refusal() { FAILED } else { DONE })
}

/// Writes the outcome of a command that submits an outgoing file again as a line. Returns the exit status as [`tell`] does.
///
/// # Errors
/// Those of [`tell`].
pub fn tell_resent<W: Write>(resent: Resent, out: &mut W) -> Result<u8, Fault>
    ensures written { OnOk result (TakesLine (W.contents out.old) (W.contents out.new) (Some (resent_line resent.no resent.outcome))) }
    ensures status { IfOk result (λ status. status ≡ status_if (is_refusal resent.outcome)) }
    ensures fails { IfErr result (λ fault. fault ≡ write_fault) }
{
    write_line(out, &resent)?;
    Ok(status_where(!resent.outcome.is_refusal()))
}

/// The exit status of an operator's call, whose line was written: [`FAILED`] for a refusal, else [`DONE`].
pub fn status_of(told: Told) -> u8
    ensures { result ≡ status_of told }
{
    match told {
        Told::Done(_) => DONE,
        Told::Refused(_) => FAILED,
    }
}

/// The exit status of a command over many files, by whether none was refused: [`DONE`], else [`FAILED`].
pub fn status_where(is_done: bool) -> u8
    ensures { result ≡ status_if (not is_done) }
{
    if is_done { DONE } else { FAILED }
}

/// Whether a session ended well: by an ESID of either side that gives the reason 00.
pub fn is_good(end: End) -> bool
    ensures { result ≡ is_good end }
{
    match end {
        End::Own(reason) => reason.number().get() == 0,
        End::Partner(reason) => reason.get() == 0,
        End::Input => false,
    }
}

/// The exit status of a command that runs one session and counts each end but 00 as a failure, after this outcome.
pub fn status_after(outcome: Outcome) -> u8
    ensures { result ≡ status_after outcome }
{
    match outcome {
        Outcome::Ended(end) => status_where(is_good(end)),
        other => { if other.is_refusal() { FAILED } else { DONE } }
    }
}

/// Whether the line of a command's error is printed: not that of a failed write if nobody reads the output any more.
pub fn is_told(fault: Fault, reader: Reader) -> bool
    ensures { result ≡ is_told fault reader }
{
    match (fault, reader) {
        (Fault::Run(RunFault::Write), Reader::Gone) => false,
        _ => true,
    }
}
