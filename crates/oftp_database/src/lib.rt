//! The office over a database's files: how it is opened and closed, and what the program does with it.
#![tactic(auto)]

mod file;
pub mod laws;
mod living;
mod office;
mod opening;
mod serving;
mod spare;

pub use living::{WatchedOffice, live, live_if_free, live_shared};
pub use office::DatabaseOffice;
pub use opening::{PATIENCE, make, migrate, open, open_if_free, open_shared};
pub use serving::Opened;
