//! What is evidence in a register, the theorem that no change takes any of it away, and what an audit tells of two registers.
//!
//! The module [`laws`] has the theorems, which no program calls.
#![tactic(auto)]

mod incoming;
pub mod laws;
mod loss;
mod outgoing;
mod rows;
mod said;
mod states;

pub use incoming::{lost_of_incoming, lost_of_issued, unsound_in_incoming, unsound_in_issued};
pub use loss::Loss;
pub use outgoing::{lost_of_outgoing, lost_of_received, unsound_in_outgoing, unsound_in_received};
pub use rows::{Shape, lost_of_row, unsound_in_row};
