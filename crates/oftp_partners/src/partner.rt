//! The station and its partners.

use crate::field::{Address, BufferSize, Code, Credit, Password};
use oftp_wire::Mode;

/// The station itself, with what it offers at the start of a session (RFC 5024, section 5.3.2).
#[derive(Debug, Drop)]
pub struct Station {
    /// The Identification Code.
    pub code: Code,
    /// The Data Exchange Buffer size that it offers.
    pub buffer: BufferSize,
    /// The Credit that it offers.
    pub credit: Credit,
    /// Whether it continues broken transfers.
    pub restart: bool,
}

/// A partner: a station with which this one exchanges files.
#[derive(Drop)]
pub struct Partner {
    /// The Identification Code.
    pub code: Code,
    /// The password that the partner sends.
    pub expects: Password,
    /// The password that this station sends.
    pub sends: Password,
    /// Whether this station sends files to the partner, receives files from it, or both.
    pub mode: Mode,
    /// The address at which the partner is called.
    pub address: Address,
}
