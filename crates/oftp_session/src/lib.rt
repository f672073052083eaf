//! One session with a partner, as a state machine without I/O. Each call executes one command that arrived, or makes one command of its own
//! that is due. It returns the frame to send as a borrowed slice.
//!
//! A change of the register is committed before the frame that answers it is returned.
//!
//! The states of a session (RFC 5024, section 9) are in the files opening, listener, receiving, speaker and sending. The file of the same name
//! in specs/ has the definitions of each.
//!
//! The calls are those of [`Session`]. The module [`laws`] has the theorems, which no program calls.
#![tactic(auto)]

mod commands;
mod frame;
pub mod laws;
mod link;
mod listener;
mod opening;
mod payloads;
mod receiving;
mod sending;
mod session;
mod speaker;
mod state;

pub use link::{Link, WhenDone};
pub use session::{Ending, Out, Session, SessionFault};
