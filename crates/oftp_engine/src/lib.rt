//! Sessions over any office, any reader and any writer. The engine has no policy: the session decides on each step.
#![tactic(auto)]

mod content;
mod conversation;
pub mod laws;
mod limits;
mod operating;
mod running;
mod serving;
mod submitting;

pub use content::write_content;
pub use conversation::Conversation;
pub use oftp_io::Port;
pub use operating::{Operator, Refusal, Told, operate};
pub use running::{CallJob, Job, SessionJob, run};
pub use serving::{Admission, End, Going, Role, RunFault, serve, serve_in_memory};
pub use submitting::Submission;
