//! How far a command came: what is said of it on a terminal, and when.
#![tactic(auto)]

mod beat;
mod extent;
mod gauge;
pub mod laws;

pub use beat::Beat;
pub use extent::Extent;
pub use gauge::{Gauge, TAKE_BACK, screen_of};
