//! The listing of a register over HTTP, and its reports as CSV.
#![tactic(auto)]

mod counts;
mod detail;
mod fault;
mod handler;
mod head;
mod hosts;
mod json;
pub mod laws;
mod names;
mod query;
mod remembering;
mod reply;
mod reports;
mod resource;
mod route;
mod site;
mod state;
mod unasked;
mod units;

pub use counts::OctetCounts;
pub use fault::ListFault;
pub use handler::{answer, reply_at};
pub use head::LONGEST_HEAD;
pub use names::{digit_text, name_text};
pub use query::{Method, Query, read_query};
pub use remembering::RememberingOffice;
pub use reply::{Reply, stopping_reply};
pub use reports::{ReportKind, report};
pub use route::Route;
pub use site::Site;
pub use state::OfficeState;
