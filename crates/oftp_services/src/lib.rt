//! The services: `run`, `listen`, `call` and `http`, over sockets. Each is the loop of oftp_resident with its own doors and limits.
#![tactic(auto)]

mod recorded;
mod residence;
mod services;

pub use residence::run;
pub use services::{call, http, listen};
