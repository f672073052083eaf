//! The commands over a folder of files: `collect` writes received files there, and `offer` submits files from there. The caller says who
//! carries out their requests.
#![tactic(auto)]

mod collecting;
mod folders;
mod judging;
mod locking;
mod offering;
mod stamps;
mod submitting;

pub use collecting::collect;
pub use folders::Folder;
pub use offering::{names_files, offer};
pub use stamps::Moment;
