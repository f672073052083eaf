//! The services: one loop over sockets, which does one job after another. The schedule says what is done; this crate does it.
#![tactic(auto)]

mod attending;
mod calls;
mod dialing;
mod diary;
mod doors;
mod home;
mod kept;
mod peer;
mod recording;
mod requests;
mod service;
mod session_lines;
mod sessions;
mod status;
mod stream;
mod tail;
mod telling;
mod watch;

pub use kept::Kept;
pub use service::{ServiceConfig, Shelf, Start, serve};
pub use session_lines::SessionLines;
