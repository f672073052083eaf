//! For whom something waits, so that the clock calls them.

ghost use Rattle.std.specs.Prelude.{◌≡◌, IfErr};
ghost use Rattle.oftp_requests.specs.Due.{has_item, is_due, is_due_to};
ghost use Rattle.oftp_requests.specs.LookedUp.{IsLookedUp};

use oftp_engine::RunFault;
use oftp_outcomes::Fault;
use oftp_partners::{Book, Partner};
use oftp_register::{Cursor, Name, Office};
use oftp_wire::Mode;

/// The beginning of all that is to be sent.
const FIRST: Cursor = Cursor {
    response: 0,
    file: 0,
};

/// Whether something waits for the partner with this code. A partner from whom the station only receives never counts, nor one that the book
/// hasn't.
///
/// # Errors
/// [`Fault::Run`] with [`RunFault::Office`]: the office failed.
pub fn is_due<O: Office>(book: &Book, code: &str, office: &mut O) -> Result<bool, Fault>
    ensures due { IsLookedUp (λ r. is_due book.now r code.now) (O.view office.old) (O.view office.new) result }
    ensures fails { IfErr result (λ fault. fault ≡ Fault.Run RunFault.Office) }
{
    match book.partner(code.as_bytes()) {
        Some(partner) => is_due_to(partner, office),
        None => Ok(false),
    }
}

/// Whether something waits for a partner.
fn is_due_to<O: Office>(partner: &Partner, office: &mut O) -> Result<bool, Fault>
    ensures due { IsLookedUp (λ r. is_due_to r partner.now) (O.view office.old) (O.view office.new) result }
    ensures fails { IfErr result (λ fault. fault ≡ Fault.Run RunFault.Office) }
{
    match partner.mode {
        Mode::Receive => Ok(false),
        Mode::Send | Mode::Both => has_item(partner, office),
    }
}

/// Whether there is something to be sent to a partner.
fn has_item<O: Office>(partner: &Partner, office: &mut O) -> Result<bool, Fault>
    ensures item { IsLookedUp (λ r. has_item r partner.now.code) (O.view office.old) (O.view office.new) result }
    ensures fails { IfErr result (λ fault. fault ≡ Fault.Run RunFault.Office) }
{
    let code = Name::of(&partner.code.field());
    match office.next_item(&code, FIRST, true) {
        Ok(item) => Ok(item.is_some()),
        Err(_) => Err(Fault::Run(RunFault::Office)),
    }
}
