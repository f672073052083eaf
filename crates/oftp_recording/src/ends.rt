//! The lines with which sessions end, and why they ended.

ghost use Rattle.std.specs.Prelude.{◌≡◌, ◌⊎◌, None, Some, IfOk, string_bytes};
ghost use Rattle.oftp_outcomes.specs.Service.{ended_line};
ghost use Rattle.oftp_recording.specs.Ends.{cause_of, end_for};

use oftp_contents::EndCause;
use oftp_engine::{End, RunFault};
use oftp_outcomes::{Fault, Outcome};
use std::alloc::{AllocError, Global};

/// Why a session ended that ended so.
pub fn cause_of(ended: &Result<End, Fault>) -> EndCause
    ensures cause { result ≡ cause_of ended.now }
    // A replay plays the same end for the cause, or none.
    ensures played { (end_for result ≡ None) ⊎ (end_for result ≡ Some ended.now) }
{
    match ended {
        Ok(End::Own(_) | End::Partner(_)) => EndCause::Itself,
        Ok(End::Input) => EndCause::Input,
        Err(Fault::Run(RunFault::Read)) => EndCause::Read,
        Err(Fault::Run(RunFault::Write)) => EndCause::Write,
        Err(_) => EndCause::Other,
    }
}

/// How a session ended that ended for this cause, unless that is something that it did itself, or another error.
pub fn end_for(cause: EndCause) -> Option<Result<End, Fault>>
    ensures { result ≡ end_for cause }
{
    match cause {
        EndCause::Input => Some(Ok(End::Input)),
        EndCause::Read => Some(Err(Fault::Run(RunFault::Read))),
        EndCause::Write => Some(Err(Fault::Run(RunFault::Write))),
        EndCause::Itself | EndCause::Other => None,
    }
}

/// The line of a session that ended so.
pub fn line_of_end(alloc: Global, ended: &Result<End, Fault>) -> Result<String, AllocError>
    ensures { IfOk result (λ line. string_bytes line ≡ ended_line ended.now) }
{
    match ended {
        Ok(end) => {
            let outcome = Outcome::Ended(*end);
            format!(in alloc; "{outcome}")
        }
        Err(fault) => format!(in alloc; "{fault}"),
    }
}
