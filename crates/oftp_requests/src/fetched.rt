//! Which incoming file can be fetched.

ghost use Rattle.std.specs.Prelude.{◌≡◌, IfOk, IfErr};
ghost use Rattle.oftp_register.specs.LookUps.{in_by_no};
ghost use Rattle.oftp_listing.specs.Texts.{Asks};
ghost use Rattle.oftp_requests.specs.Fetched.{handed_out};
ghost use Rattle.oftp_requests.specs.LookedUp.{IsLookedUp};

use oftp_engine::{Refusal, RunFault};
use oftp_outcomes::Fault;
use oftp_register::{IncomingEntry, IncomingState, Office};

/// Looks up the whole incoming file with this number, or the refusal if there is none: [`Refusal::Unknown`], or [`Refusal::State`] for
/// a file that isn't whole.
///
/// # Errors
/// [`Fault::Run`] with [`RunFault::Office`]: the office failed.
pub fn entry_to_fetch<O: Office>(
    office: &mut O,
    no: u64,
) -> Result<Result<IncomingEntry, Refusal>, Fault>
    ensures finds { IsLookedUp (λ r. handed_out (in_by_no r no)) (O.view office.old) (O.view office.new) result }
    // This holds also where the store doesn't read what was written.
    ensures whole { IfOk result (λ found. IfOk found (λ entry. entry.state ≡ IncomingState.Whole)) }
    ensures asks { Asks (O.view office.old) (O.view office.new) }
    ensures fails { IfErr result (λ fault. fault ≡ Fault.Run RunFault.Office) }
{
    match office.in_by_no(no) {
        Ok(Some(entry)) => Ok(match entry.state {
            IncomingState::Whole => Ok(entry),
            IncomingState::Open => Err(Refusal::State),
        }),
        Ok(None) => Ok(Err(Refusal::Unknown)),
        Err(_) => Err(Fault::Run(RunFault::Office)),
    }
}
