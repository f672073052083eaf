//! Which files a command takes, and which rows of a report it tells.
#![tactic(auto)]

mod pattern;
mod rows;

pub use pattern::matches;
pub use rows::{Condition, Test, begins_date, keeps};
