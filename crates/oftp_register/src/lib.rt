//! The register of a station: incoming and outgoing files and the responses to both, the changes of a register, and the offices that keep
//! one. The module [`laws`] has the theorems, which no program calls.
#![tactic(auto)]

mod change;
mod entries;
mod entry;
mod fit;
pub mod laws;
mod name;
mod note;
mod office;
mod plain;
mod prefix;
mod verdicts;

pub use change::{Cause, Change};
pub use entries::{
    AnsweredEntry, Cursor, IncomingEntry, IssuedEntry, IssuedResponse, Item, OutgoingEntry,
    ReceivedEntry, ReceivedResponse, Side,
};
pub use entry::{Dispatch, Identity, IncomingState, OutgoingState, ResponseKind};
pub use fit::{
    MOST_FILES, MOST_OCTETS, MOST_UNITS, are_full_rows, are_limits, are_rows, is_file, is_response,
};
pub use name::{DigitString, Name};
pub use note::Note;
pub use office::{Office, OfficeFault};
pub use plain::PlainOffice;
pub use prefix::commit_all;
pub use verdicts::{
    EndVerdict, SIZE_UNIT, StartVerdict, Terms, end_verdict, format_of, identity_of, longest_of,
    start_verdict,
};
