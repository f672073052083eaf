//! The parts of a register's entries.

ghost use Rattle.std.specs.Prelude.{◌≡◌};
ghost use Rattle.oftp_register.specs.Register.{same_identity};

use crate::name::{DigitString, Name};
use oftp_wire::Count;

/// The identity of a file: its dataset name with date and time (RFC 5024, section 1.5.2), and here also its originator and destination.
#[derive(Drop)]
pub struct Identity {
    /// The virtual file's dataset name.
    pub dataset: Name<26>,
    /// The date stamp, CCYYMMDD.
    pub date: DigitString<8>,
    /// The time stamp, HHMMSScccc.
    pub time: DigitString<10>,
    /// The code of the station that the file comes from.
    pub originator: Name<25>,
    /// The code of the station that the file goes to.
    pub destination: Name<25>,
}

impl Identity {
    /// A copy of the identity.
    pub fn again(&self) -> Identity
        ensures { result ≡ self.now }
    {
        Identity {
            dataset: self.dataset.again(),
            date: self.date.again(),
            time: self.time.again(),
            originator: self.originator.again(),
            destination: self.destination.again(),
        }
    }

    /// Whether both identify the same file.
    pub fn is(&self, other: &Identity) -> bool
        ensures { result ≡ same_identity self.now other.now }
    {
        self.dataset.is(&other.dataset)
            && self.date.is(&other.date)
            && self.time.is(&other.time)
            && self.originator.is(&other.originator)
            && self.destination.is(&other.destination)
    }
}

/// The kinds of response.
#[derive(Clone, Copy, Debug, Drop, PartialEq, Eq)]
pub enum ResponseKind {
    /// An End-to-End Response: the file was delivered (EERP, RFC 5024, section 5.3.13).
    EndResponse,
    /// A Negative End Response: the file was refused after its transfer (NERP, RFC 5024, section 5.3.14).
    NegativeEndResponse,
}

/// The state of an incoming file.
#[derive(Clone, Copy, Debug, Drop, PartialEq, Eq)]
pub enum IncomingState {
    /// It is incomplete, and may have no rows yet.
    Open,
    /// It is complete.
    Whole,
}

/// The state of an outgoing file.
#[derive(Clone, Copy, Debug, Drop, PartialEq, Eq)]
pub enum OutgoingState {
    /// It waits to be sent.
    Waiting,
    /// Its end was sent, and the answer is missing.
    Closing,
    /// The partner has the whole file.
    Handed,
    /// The partner refused it, with this reason of SFNA.
    Refused(Count<2>),
    /// An End-to-End Response was received.
    Delivered,
    /// A Negative End Response was received.
    Returned,
}

/// Whether an issued response was sent.
#[derive(Clone, Copy, Debug, Drop, PartialEq, Eq)]
pub enum Dispatch {
    /// It is to be sent.
    Due,
    /// It was sent, and the partner answered RTR.
    Sent,
}
