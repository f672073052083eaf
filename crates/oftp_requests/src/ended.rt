//! What a command takes from the end of its request.

ghost use Rattle.std.specs.Prelude.{◌≡◌};
ghost use Rattle.oftp_requests.specs.Ended.{number_in, outcome_in, refusal_in, stopped_in};

use oftp_channel::Ending;
use oftp_engine::{Refusal, RunFault};
use oftp_outcomes::{Fault, Outcome};

/// The error of an office that failed, and of a station that is gone or says what no station says. What was asked may have been done then.
pub const GONE: Fault = Fault::Run(RunFault::Office);

/// The outcome with which a request ended.
///
/// # Errors
/// Its error, or [`GONE`] for an end that it can't have.
pub fn outcome_in(asked: Result<Ending, Fault>) -> Result<Outcome, Fault>
    ensures { result ≡ outcome_in asked }
{
    match asked {
        Ok(Ending::Outcome(outcome)) => Ok(outcome),
        Ok(Ending::Failed(fault)) | Err(fault) => Err(fault),
        Ok(Ending::Listed | Ending::Same | Ending::Other) => Err(GONE),
    }
}

/// The outcome with which a request to end ended. A station that isn't there any more to answer it, since it ends already, has ended, too.
///
/// # Errors
/// Those of [`outcome_in`].
pub fn stopped_in(asked: Result<Ending, Fault>) -> Result<Outcome, Fault>
    ensures { result ≡ stopped_in asked }
{
    match outcome_in(asked) {
        Err(Fault::Socket) => Ok(Outcome::Stopped),
        other => other,
    }
}

/// The number of the file with which a request was done, or why it was refused.
///
/// # Errors
/// That of the request, or [`GONE`].
pub fn number_in(ending: Ending) -> Result<Result<u64, Refusal>, Fault>
    ensures { result ≡ number_in ending }
{
    match outcome_in(Ok(ending)) {
        Ok(Outcome::Done(_, no)) => Ok(Ok(no)),
        Ok(Outcome::Refused(refusal)) => Ok(Err(refusal)),
        Ok(_) => Err(GONE),
        Err(fault) => Err(fault),
    }
}

/// Why a request was refused, if it was.
///
/// # Errors
/// Those of [`number_in`].
pub fn refusal_in(ending: Ending) -> Result<Option<Refusal>, Fault>
    ensures { result ≡ refusal_in ending }
{
    match number_in(ending) {
        Ok(Ok(_)) => Ok(None),
        Ok(Err(refusal)) => Ok(Some(refusal)),
        Err(fault) => Err(fault),
    }
}
