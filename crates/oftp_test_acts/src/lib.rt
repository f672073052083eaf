//! What the tests of each office share: changes and look-ups, a session, and their play in memory and over databases.
#![tactic(auto)]

pub mod act;
pub mod asking;
pub mod playing;
mod session;
mod telling;
