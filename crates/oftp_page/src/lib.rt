//! The page for people, and what it is told of the events.
#![tactic(auto)]

mod page;
mod tail;

pub use page::PAGE;
pub use tail::{MOST_OF_EVENTS, lines_told};
