//! The engine over a database: what a crash leaves of sessions and of operator's calls, as the content of the tables.
#![tactic(auto)]

mod calling;
mod jobs;
pub mod laws;
mod life;
mod opening;
mod serving;

pub use calling::operate_durable;
pub use jobs::{Ran, run_at, run_durable};
pub use life::{
    admit_durable, begin_durable, end_durable, hear_durable, is_over_durable, live_at,
    live_durable, order_durable, stage_durable,
};
pub use opening::open_durable;
pub use serving::serve_durable;
