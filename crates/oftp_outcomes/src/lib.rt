//! How a command ended, what became of a file or a session, and the lines that are printed for that.
#![tactic(auto)]

mod carried;
mod outcome;
mod output;
mod service;
mod statuses;

pub use carried::{Carried, Why};
pub use outcome::{Fault, Outcome, Resent, Verb, outcome_of, write_line};
pub use output::{Output, Reader};
pub use service::{ServiceLine, Term, Trouble, Way, last_fault, plain};
pub use statuses::{
    DONE, FAILED, is_good, is_told, status_after, status_of, status_where, tell, tell_resent,
};
