//! The record of a station: what it heard, said and was told, written to a folder with a file for each day, and read.
#![tactic(auto)]

mod days;
mod ends;
mod moments;
mod passwords;
mod reading;
mod recorder;
mod registers;

pub use days::{DayEnd, file_of, record_files};
pub use ends::{cause_of, end_for, line_of_end};
pub use moments::moment_text;
pub use passwords::{SessionPasswords, instead};
pub use reading::{Found, RecordReader};
pub use recorder::{Recorder, Syncing};
pub use registers::{Digest, RegisterDigests};
