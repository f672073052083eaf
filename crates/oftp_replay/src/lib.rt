//! Playing a record over a register: what it heard and was told is told again, and what comes of it is compared. And what partners did in its
//! sessions that RFC 5024 doesn't allow. And what a record proves of a file's delivery.
#![tactic(auto)]

mod bundle;
mod evidencing;
mod explaining;
mod halting;
pub mod laws;
mod player;
mod replaying;
mod searching;
mod standing;
mod talking;
mod tape;

pub use evidencing::write_evidence;
pub use explaining::explain_record;
pub use replaying::{NamedBook, Opens, replay};
pub use standing::{Compared, compare_with_record};
