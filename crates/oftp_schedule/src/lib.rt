//! The schedule of a station, with no sockets and no clock: a shell tells it events and carries out its actions.
#![tactic(auto)]

pub mod accepting;
mod carrying;
mod choosing;
pub mod connection;
pub mod durations;
pub mod laws;
mod receiving;
mod replying;
mod rules;
pub mod schedule;
pub mod sizes;
mod table;
