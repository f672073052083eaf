//! The life of a station: one office, and all that is done with it.
#![tactic(auto)]

pub mod faults;
mod history;
pub mod laws;
mod life;
mod note;
mod octet_log;
mod opening;
mod outbox;
mod snapshot;
mod stage;

pub use history::History;
pub use life::{Life, LifeSession};
pub use octet_log::OctetLog;
pub use opening::{Guest, Opening};
pub use outbox::Outbox;
pub use snapshot::Snapshot;
pub use stage::Stage;
