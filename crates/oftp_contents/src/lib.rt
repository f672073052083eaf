//! What the entries of a station's record tell, as octets, written and read; and what is done with each entry that is read ([`Playing`], [`Talking`],
//! [`Listening`]).
//!
//! The content of each entry has the same layout ([`ContentFields`]):
//!
//! | Octets | What |
//! |---|---|
//! | 0 to 7 | a number |
//! | 8 | a code |
//! | then | two texts, each with its length before it, in four octets |
//! | the others | octets |
//!
//! Numbers have their most significant octet first. What the fields are depends on the kind of the entry:
//!
//! | Kind | Number | Code | First text | Second text | Octets |
//! |---|---|---|---|---|---|
//! | opening | the salt of the passwords | 0 | the program's version, and behind a line end the sum of its sources | the digest of its register | its book; none of a command |
//! | session | of the session | [`RecordSide`] | the partner's code | the partner's address | |
//! | octets in, octets out | of the session | 0 | | | the octets |
//! | call | of the call | 0 | the number of the user who asked, in digits; none where that isn't known | | the request |
//! | end | of the session or the call | [`EndCause`] | its line | | |
//! | backup | 0 | 0 | the path of the copy | the digest of its register | |
//! | mark | 0 | [`Marked`] | the digest | | |
//!
//! [`ContentFields::octets`] writes a content, and [`ContentFields::of`] reads one. Both are proved against the one encoding (specs/Fields.antt). The
//! theorem of [`laws`] is that octets are read in one way: so what was written is what is read.
#![tactic(auto)]

mod books;
mod codes;
mod days;
mod escapes;
mod fields;
mod handling;
mod hiding;
pub mod laws;
mod links;
mod marks;
mod passwords;
mod pieces;
mod places;
mod playing;
mod program;
mod registers;
mod standing;

pub use codes::{EndCause, Marked, RecordSide};
pub use days::{
    DayTurn, RECORD_ENDING, day_at, day_in, is_same_day, last_before, last_day, number_of_day,
    turn_of,
};
pub use fields::ContentFields;
pub use handling::{Listening, Playing, Talking, is_joined};
pub use hiding::{hidden_book, shown_book, without_passwords};
pub use links::DayLink;
pub use marks::{MarkBar, MarkTime};
pub use passwords::{PasswordFinder, SsidOrder};
pub use pieces::{LEAST_PIECE, PieceMark, SessionOctets};
pub use places::{EntryPlace, RecordPart};
pub use playing::{BookTurn, Doing, EndLine, SaidOctets, is_left, was_made};
pub use program::{SOURCES, program_text, sources_in, version_in};
pub use standing::{Likeness, RegisterStanding, known_behind};
