//! What a command tells beside its line: what failed or was refused, where, and why. It is found out after the command has ended, by a
//! look. That is at the files, the book, the database and the addresses that its line names.
#![tactic(auto)]

mod addresses;
mod books;
mod databases;
mod ends;
mod faults;
mod judging;
mod paths;
mod places;
mod refusals;
mod teller;

pub use books::{Names, explain};
pub use faults::tell_fault;
pub use refusals::{tell_folder, tell_outcome};
pub use teller::Teller;
