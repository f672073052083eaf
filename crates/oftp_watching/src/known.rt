//! What the register has of the file that an event is about.

ghost use Rattle.std.specs.Prelude.{◌≡◌};
ghost use Rattle.oftp_register.specs.Offices.{LooksUp};
ghost use Rattle.oftp_watching.specs.Knowns.{is_measured, known_of, units_measured};

use crate::moment::Subject;
use oftp_events::Event;
use oftp_register::{IncomingEntry, Office, OfficeFault, OutgoingEntry, Side};

/// What the register has of a file.
#[derive(Drop)]
pub enum Known {
    /// An incoming file.
    Incoming(IncomingEntry),
    /// An outgoing file.
    Outgoing(OutgoingEntry),
}

/// Looks up the file that an event is about, unless it was only offered.
///
/// # Errors
///
/// Those of the office.
pub fn known_in<O: Office>(office: &mut O, subject: &Subject) -> Result<Option<Known>, OfficeFault>
    ensures { LooksUp (λ r found. found ≡ known_of r subject.now) (O.view office.old) (O.view office.new) result }
{
    match subject {
        Subject::Numbered(Side::Incoming, no) => Ok(office.in_by_no(*no)?.map(Known::Incoming)),
        Subject::Numbered(Side::Outgoing, no) => Ok(office.out_by_no(*no)?.map(Known::Outgoing)),
        Subject::Named(Side::Incoming, identity) => {
            Ok(office.look_in(identity)?.map(Known::Incoming))
        }
        Subject::Named(Side::Outgoing, identity) => {
            Ok(office.look_out(identity)?.map(Known::Outgoing))
        }
        Subject::Offered(_) => Ok(None),
    }
}

// Whether an event tells how many octets its file has. They are counted where all rows are here for the first time, and where they went out.
fn is_measured(event: Event) -> bool
    ensures { result ≡ is_measured event }
{
    matches!(
        event,
        Event::Submitted | Event::Came | Event::Sent | Event::HandedOver
    )
}

/// Counts the octets of a file, where its event tells them.
///
/// # Errors
///
/// Those of the office.
pub fn measured<O: Office>(
    office: &mut O,
    event: Event,
    known: &Known,
) -> Result<Option<u64>, OfficeFault>
    ensures { LooksUp (λ r units. units ≡ units_measured r event known.now) (O.view office.old) (O.view office.new) result }
{
    if !is_measured(event) {
        return Ok(None);
    }
    match known {
        Known::Incoming(entry) => Ok(Some(office.units_of(Side::Incoming, entry.no)?)),
        Known::Outgoing(entry) => Ok(Some(office.units_of(Side::Outgoing, entry.no)?)),
    }
}
