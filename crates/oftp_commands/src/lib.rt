//! The commands that one call of the program carries out: over a database that it opens itself, or by the station that has it locked.
#![tactic(auto)]

mod audited;
mod auditing;
mod backing;
mod backups;
mod calling;
mod collecting;
mod evidencing;
mod histories;
mod offering;
mod operators;
mod ordering;
mod recording;
mod registers;
mod replaying;
mod reporting;
mod session_record;
mod sessions;
mod standings;
mod talking;

pub use auditing::audit;
pub use backups::back_up;
pub use calling::{Called, call};
pub use collecting::collect;
pub use evidencing::evidence;
pub use histories::history;
pub use offering::offer;
pub use operators::{refuse, release, resend, submit};
pub use ordering::{reload, stop};
pub use registers::{fetch, initiate, migrate, write_report};
pub use replaying::replay;
pub use sessions::feed;
pub use standings::{health, settled, status};
