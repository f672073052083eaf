//! The commands of the ODETTE File Transfer Protocol 2 as octets (RFC 5024, section 5), and the stream that carries them in frames (section
//! 8).
//!
//! `parse` reads the octets of one frame and `encode` writes them. Both are proved against Spelling (`specs/Spelling.antt`), which has a
//! table for each kind. It says which octets encode a command, which of them are canonical, and what is wrong with all others. Neither
//! allocates memory.
//!
//! A `Deframer` takes a stream in pieces and returns the commands in its frames. `header` makes the header of a command. The deframer is
//! proved against Front (`specs/Stream.antt`): its commands depend only on the stream, and not on the pieces.
#![tactic(auto)]

mod cutting;
mod deframer;
mod encoding;
mod format;
mod frame_fault;
mod headers;
pub mod laws;
mod limits;
mod parsing;
mod piece;
mod read;
mod scan;

pub use cutting::{CutStream, cut};
pub use deframer::Deframer;
pub use encoding::encode;
pub use frame_fault::FrameFault;
pub use headers::header;
pub use limits::{FRAME_HEADER, LONGEST_FRAME, SHORTEST_FRAME};
pub use parsing::parse;
