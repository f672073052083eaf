//! The channel between a station and the commands beside it. A request is a list of words. An answer is pieces, and then how the request ended.
#![tactic(auto)]

mod answer;
mod asked;
mod asking;
mod codes;
mod coming;
mod ending;
mod fault;
mod fields;
mod inputs;
mod labels;
mod listed;
mod piece_writer;
mod ready;
mod request;
mod stamp;

pub use answer::{AnswerPart, LONGEST_PIECE, Outlet, read_part, write_end, write_piece};
pub use asking::{Form, Haste, Request, Tracing, fits, write_request};
pub use coming::lacking;
pub use ending::Ending;
pub use fault::ReadFault;
pub use listed::{ListedFile, write_entry};
pub use piece_writer::PieceWriter;
pub use ready::{READY, read_ready, write_ready};
pub use request::{LARGEST_REQUEST, MOST_WORDS, Word, read_request, words_fit, write_words};
