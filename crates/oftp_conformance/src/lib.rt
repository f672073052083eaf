//! What a partner does that RFC 5024 doesn't allow, or that this station doesn't take. Here are the rules as data, which of them octets
//! break, and what is printed of each.
//!
//! Fields, their places and their forms are those of oftp_telling and oftp_codec, so there is no second list of them.
#![tactic(auto)]

mod departure;
mod finding;
mod findings;
mod form_rule;
mod forms;
mod frame_rule;
mod hearing;
mod lines;
mod order_rule;
mod orders;
mod rule;
mod session;
mod silence;
mod value_rule;
mod values;
mod walk;

pub use departure::{Bearing, Departure};
pub use finding::{Finding, Place};
pub use findings::{findings_in, header_finding};
pub use form_rule::FormRule;
pub use frame_rule::FrameRule;
pub use hearing::heard_findings;
pub use lines::Explanation;
pub use order_rule::OrderRule;
pub use rule::Rule;
pub use session::{Making, Phase, Session, Start, Transfer, Turn};
pub use silence::Silence;
pub use value_rule::{ValueRule, value_rules};
pub use walk::Walk;
