//! What the events of a station say of one file, how the file stands by them, and what that proves.
#![tactic(auto)]

mod detail;
mod history;
mod past;
mod standing;
mod values;

pub use history::FileHistory;
pub use past::PastEvent;
pub use standing::{passed_line, proof_text, standing_line};
pub use values::{number_at, text_at, value_of};
