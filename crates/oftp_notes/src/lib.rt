//! Notes: what is told on standard error beside a line that says that a command failed, was refused or ended a session.
#![tactic(auto)]

mod cause;
mod field;
mod finding;
mod judging;
mod keys;
mod note;
mod option;
mod seen;
mod system;

pub use cause::{AddressCause, DatabaseCause, FileState, PathCause};
pub use field::{Field, Handed, first_field};
pub use finding::{Finding, Key, Place, Wrong};
pub use judging::wrong_with;
pub use keys::TableKind;
pub use note::{BookNote, Note, RefusalNote, SessionEnd};
pub use option::{Screen, Wanted};
pub use seen::seen_line;
pub use system::SystemError;
