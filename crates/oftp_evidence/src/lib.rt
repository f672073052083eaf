//! What a record and a register have of one file. It is the commands that say something of it, in the octets of a session's side, and what a
//! folder of evidence tells of it.
#![tactic(auto)]

mod answers;
mod facts;
mod findings;
mod folder;
pub mod laws;
mod names;
mod part;
mod script;
mod session_parts;

pub use answers::response_in;
pub use findings::{Findings, SideFinding, answered_after};
pub use folder::{FileFacts, ResponseFacts, SessionFacts, StationFacts, readme};
pub use part::{Part, part_in};
pub use script::verify_script;
pub use session_parts::SessionParts;
