//! Virtual files and the subrecords that carry them (RFC 5024, sections 1.5 and 7).
//!
//! The module [`laws`] has the theorems, which no program calls.
#![tactic(auto)]

mod content;
mod fault;
mod filling;
mod format;
mod growth;
mod header;
pub mod laws;
mod limits;
mod local;
mod packing;
mod taking;

pub use content::{Row, Rows};
pub use fault::{LocalFault, TakeFault};
pub use filling::{Filled, Filler};
pub use format::{BLOCK, Format, LONGEST_RECORD, MOST_ROWS};
pub use limits::Limits;
pub use local::VFile;
pub use taking::{Stage, Taker};
