//! The commands of the ODETTE File Transfer Protocol 2 as values (RFC 5024, section 5.3). It has the fifteen commands, their fields, each
//! within its range, and the reasons, with the words in which an operator reads them.
//!
//! `oftp_codec` has their octets, and the stream that carries them.
#![tactic(auto)]

mod command;
mod fault;
mod field;
mod message;
mod reason;
mod scan;
mod words;

pub use command::{
    Command, Eerp, Efid, Efna, Efpa, Esid, Layout, Mode, Nerp, Sfid, Sfna, Sfpa, Ssid,
};
pub use fault::WireFault;
pub use field::{Count, Digits, Octets, Text, X};
pub use reason::{EndReason, SessionReason, StartReason};
pub use scan::{all_digits, is_allowed};
pub use words::{end_phrase, negative_phrase, session_phrase, start_phrase};
