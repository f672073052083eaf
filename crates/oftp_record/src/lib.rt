//! The entries of a station's record as octets, written and read.
//!
//! A record is what a station heard, said and was told, entry after entry. An entry as it is stored has a header of 22 octets, a content, and a
//! digest of 32 octets:
//!
//! | Octets | What |
//! |---|---|
//! | 0 to 4 | `OREC2`: a word, and the version of the format |
//! | 5 | the number of its kind ([`RecordKind`]) |
//! | 6 to 13 | its moment: microseconds since 1970 began, in UTC |
//! | 14 to 17 | the number of octets of its content, at most [`LONGEST_CONTENT`] |
//! | 18 to 21 | what this number lacks of 4,294,967,295 |
//! | 22 on | the content |
//! | the last 32 | the SHA-256 of two digests: that of header and content, and that of the entry before it |
//!
//! Numbers have their most significant octet first. Before the first entry of a record the digest is 32 octets of 0 ([`ChainDigest::first`]).
//!
//! [`append_entry`] writes an entry, and [`next_entry`] reads one. Both are proved against the one encoding of an entry (specs/Entries.antt).
//! [`ReadAhead`] tells what [`next_entry`] would, entry after entry, and reads eight at once where that can be. The theorems are in [`laws`]. What
//! was written is what is read, and a record that is cut anywhere is read up to the cut. A changed octet is told if SHA-256 gives another value. That
//! it does so is no theorem: there are octets with the same digest, and nobody has found any. Who changes an entry and computes each digest after it
//! anew isn't found out by the record alone, since nothing in it is signed. A digest that was kept elsewhere, as that of another day's first entry,
//! finds it out.
#![tactic(auto)]

mod ahead;
mod chain;
mod eight;
mod eight_read;
mod entry;
mod header;
mod kind;
pub mod laws;
mod next;
mod stream;
mod writing;

pub use ahead::ReadAhead;
pub use chain::{ChainDigest, DIGEST_LEN};
pub use eight::{PieceEntries, append_eight};
pub use eight_read::{PassedEntry, next_eight};
pub use entry::RecordEntry;
pub use header::{HEADER_LEN, LONGEST_CONTENT};
pub use kind::RecordKind;
pub use next::{Alteration, NextEntry, StoredEntry, next_entry};
pub use stream::{Look, RecordStream};
pub use writing::{AppendFault, append_entry};
