//! How a station stands: its counters, what waits, texts of both, the verdict on them, and what is still open.
#![tactic(auto)]

mod age;
mod ending;
mod health;
mod lines;
mod object;
mod picture;
mod pieces;
mod prometheus;
mod reply;
mod settled;
mod stamp;
mod standing;
mod subject;
mod tally;
mod way;

pub use ending::Ending;
pub use health::{Grade, Limits, Missing, Overdue, Terms, Verdict, grade_in, verdict_on};
pub use lines::status_lines;
pub use object::status_json;
pub use picture::{Going, Partner, Picture, last_good};
pub use prometheus::metrics;
pub use reply::{Media, reply_with};
pub use settled::{Held, add_open};
pub use stamp::moment_of;
pub use standing::Standing;
pub use subject::Subject;
pub use tally::{Tallies, Tally};
pub use way::Way;
