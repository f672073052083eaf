//! What a command says on a terminal while it waits for the station that runs over its database, and how much of a file went.
#![tactic(auto)]

mod line;
mod pause;
mod share;

pub use line::{call_line, waiting_line};
pub use pause::pause_after;
pub use share::share_of;
