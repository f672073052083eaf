//! What commands do that is the same over any database. They ask the station that has it open over its socket, read the content that they
//! submit, and write the file that they fetch.
#![tactic(auto)]

mod beside;
mod calling;
mod contents;
mod fetching;
mod waiting;

pub use beside::Beside;
pub use calling::call;
pub use contents::Content;
pub use fetching::fetch;
