//! The program's files: those that it reads, those that it replaces atomically, and traces.
#![tactic(auto)]

mod access;
mod book;
mod content;
mod drafts;
mod events;
mod explaining;
mod files;
mod follower;
mod limits;
mod local;
mod replacing;
mod session_trace;
mod showing;
mod traces;
mod tracing;
mod transcript;

pub use access::{Access, make_private, make_private_folder};
pub use book::{book_of, read_book, read_book_octets, read_regular_book};
pub use content::{content_of, read_content, read_to_compare};
pub use drafts::{Draft, bears, is_free, log_of, remove_log, sweep};
pub use events::{EventFile, Found, Noted, open_events};
pub use explaining::{explain, explained};
pub use files::{
    are_of_one_file, file_fault, is_at, is_beside_database, is_of_database, is_ours, open_at_once,
    open_input, open_regular, own_user, socket_name,
};
pub use follower::{Follower, UnderWay};
pub use limits::LIMITS;
pub use local::LocalTime;
pub use replacing::{
    Name, Place, discard, draft_in_swept, draft_of, free_name, free_name_like, place_of, settle,
};
pub use session_trace::{Lines, SessionTrace};
pub use showing::show;
pub use traces::open_trace;
pub use tracing::{Trace, Traced};
pub use transcript::{Counted, Head, Transcript};
