//! The line of an answer.

ghost use Rattle.std.specs.Prelude.{◌≡◌, IfOk, string_bytes};
ghost use Rattle.oftp_requests.specs.Lines.{line_of_ending};

use oftp_channel::Ending;
use oftp_outcomes::Fault;
use std::alloc::Global;

/// The line of an ending. That of a look-up is empty.
///
/// # Errors
/// [`Fault::MEMORY`].
pub fn line_of_ending(alloc: Global, ending: Ending) -> Result<String, Fault>
    ensures { IfOk result (λ line. string_bytes line ≡ line_of_ending ending) }
{
    match ending {
        Ending::Outcome(outcome) => Ok(format!(in alloc; "{outcome}")?),
        Ending::Failed(fault) => Ok(format!(in alloc; "{fault}")?),
        Ending::Listed | Ending::Same | Ending::Other => Ok(String::new(alloc)),
    }
}
