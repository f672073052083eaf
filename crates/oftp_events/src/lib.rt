//! What is told of a station's work: which change of the register is which event, and the line of JSON that each event has.
#![tactic(auto)]

mod direction;
mod event;
mod line;
mod members;

pub use direction::Direction;
pub use event::{Event, event_of};
pub use line::EventLine;
