//! How far a command came, in words.

ghost use Rattle.std.specs.Prelude.{◌≡◌, IfOk, Some, string_bytes};
ghost use Rattle.std.specs.Fmt.{DisplaysOnOk};
ghost use Rattle.oftp_notes.specs.Seen.{IsOneLine, seen_line};
ghost use Rattle.oftp_progress.specs.Progress.{extent_text, hundredths, place_text};

use oftp_notes::seen_line;
use std::alloc::{AllocError, Global};
use std::fmt;

/// How far a command came. A name may have any characters.
#[derive(Clone, Copy, Drop)]
pub enum Extent<'a> {
    /// `call`: a virtual file is on its way.
    Call {
        /// Its dataset name.
        dataset: &'a str,
        /// How many of a hundred parts of it came or went.
        share: u64,
    },
    /// `backup`: the database is copied.
    Backup {
        /// How many octets were copied.
        done: u64,
        /// Of how many.
        all: u64,
    },
    /// `offer`: files are handed in.
    Offer {
        /// The place of the file among them, from 1 on.
        place: u64,
        /// How many there are.
        count: u64,
        /// The file's name.
        name: &'a str,
    },
    /// `collect`: files are written.
    Collect {
        /// The place of the file among them, from 1 on.
        place: u64,
        /// How many there are.
        count: u64,
        /// The file's dataset name.
        dataset: &'a str,
    },
    /// `replay`: a record is played.
    Replay {
        /// How many entries were read.
        entries: u64,
    },
}

// How many of a hundred parts are done.
fn hundredths(done: u64, all: u64) -> u64
    ensures { result ≡ hundredths done all }
{
    if all == 0 {
        return 100;
    }
    let share = done as u128 * 100 / all as u128;
    share.min(100) as u64
}

// Writes the place of a file among so many, and its name.
fn write_place<W: fmt::Write>(
    f: &mut fmt::Formatter<W>,
    place: u64,
    count: u64,
    name: &str,
) -> fmt::Result
    ensures { DisplaysOnOk W.write_str_gives f.old result (Some (place_text place count name.now)) f.new }
{
    write!(f, "{place} of {count}: {name}")
}

impl fmt::Display for Extent<'_> {
    ghost output = { λ extent. Some (extent_text extent) };

    fn fmt<W: fmt::Write>(&self, f: &mut fmt::Formatter<W>) -> fmt::Result {
        match self {
            Extent::Call { dataset, share } => write!(f, "progress: call: {dataset} {share} %"),
            Extent::Backup { done, all } => {
                write!(f, "progress: backup: {} %", hundredths(*done, *all))
            }
            Extent::Offer { place, count, name } => {
                f.write_str("progress: offer: ")?;
                write_place(f, *place, *count, name)
            }
            Extent::Collect {
                place,
                count,
                dataset,
            } => {
                f.write_str("progress: collect: ")?;
                write_place(f, *place, *count, dataset)
            }
            Extent::Replay { entries } => write!(f, "progress: replay: {entries} entries"),
        }
    }
}

impl Extent<'_> {
    /// The line that says it: characters that can't be seen are escapes, and one line end is behind it.
    ///
    /// # Errors
    ///
    /// Out of memory.
    pub fn to_line(&self, alloc: Global) -> Result<String, AllocError>
        ensures text { IfOk result (λ line. string_bytes line ≡ seen_line (extent_text self.now)) }
        ensures alone { IfOk result (λ line. IsOneLine (string_bytes line)) }
    {
        let text = self.to_string(alloc)?;
        seen_line(alloc, text.as_str())
    }
}
