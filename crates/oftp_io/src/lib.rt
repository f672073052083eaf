//! Ports: readers and writers with counts of their octets and errors.
#![tactic(auto)]

mod port;

pub use port::Port;
