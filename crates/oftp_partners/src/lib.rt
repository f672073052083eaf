//! The partner book: the station, and the partners with which it exchanges files.
//!
//! [`read`] reads a [`Book`] from a TOML text, or returns the first [`BookFault`] in it.
#![tactic(auto)]

mod book;
mod directory;
mod fault;
mod field;
mod key;
mod partner;
mod printing;
mod reading;

pub use book::{Book, read};
pub use fault::BookFault;
pub use field::{Address, BufferSize, Code, Credit, Password};
pub use partner::{Partner, Station};
