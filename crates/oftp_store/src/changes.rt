//! The changes of the register, as SQL in the database.

pub(crate) mod commit;
pub(crate) mod edit;
pub(crate) mod incoming;
mod known;
pub(crate) mod outgoing;
pub(crate) mod responses;
mod statements;
pub(crate) mod transaction;

use oftp_vfile::Limits;
use std::alloc::Global;

/// What each change needs besides the connection: the allocator, and the limits of the register.
#[derive(Clone, Copy, Drop)]
pub(crate) struct Context {
    pub alloc: Global,
    pub limits: Limits,
}
