//! What is noted of a station's work as it is done. It is the changes that its register accepted, what became of the files of a session,
//! and the lines of the events that these are.
#![tactic(auto)]

mod account;
mod answer;
mod cause;
mod ends;
mod following;
mod known;
mod moment;
mod news;
mod notices;
mod occasion;
mod talk;
mod watched;

pub use account::Account;
pub use answer::Answer;
pub use cause::Cause;
pub use ends::{COMMAND_END, EndFile, number_of_end};
pub use following::{Following, Speaker};
pub use known::{Known, known_in, measured};
pub use moment::{Moment, Subject, moment_of};
pub use news::News;
pub use notices::{Dismissal, backed_up, not_let_in, not_reached};
pub use occasion::Occasion;
pub use talk::{Farewell, Talk};
pub use watched::Watched;
