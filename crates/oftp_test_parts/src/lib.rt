//! What the tests of stations share: what they are given, octets of sessions, and a register as text.
#![tactic(auto)]

pub mod given;
pub mod hearing;
pub mod noting;
pub mod octets;
pub mod snapshot;
