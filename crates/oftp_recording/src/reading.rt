//! Reading a file of a record, entry by entry.

use crate::days::DayEnd;
use oftp_files::{file_fault, open_at_once};
use oftp_outcomes::Fault;
use oftp_record::{DIGEST_LEN, Look, PassedEntry, RecordKind, RecordStream};
use std::fs::File;
use std::io::Read;

/// How many octets are read at once.
const STEP: usize = 65_536;

/// How many octets are read ahead, so that most entries of a session are read eight at once.
const AHEAD: usize = 1_048_576;

/// What was found behind the last entry.
#[derive(Clone, Copy, Debug, PartialEq, Eq)]
pub enum Found {
    /// The next entry.
    Entry,
    /// The end of the file.
    End,
    /// An entry that is cut off.
    Cut,
    /// No entry as it was written.
    Changed,
}

/// A file of a record that is read from its beginning.
#[derive(Drop)]
pub struct RecordReader {
    file: File,
    stream: RecordStream,
    // Those of the last entry.
    kind: RecordKind,
    moment: u64,
    // How many entries were read, and how many octets they have.
    count: u64,
    whole: u64,
}

/// Refuses a file that isn't a regular one, such as a pipe, which would have to be waited for.
///
/// # Errors
/// [`Fault::File`] for such a file, or if it can't be examined; [`Fault::MEMORY`].
pub(crate) fn refuse_others(file: &File) -> Result<(), Fault> {
    match file.metadata() {
        Ok(about) if about.is_file() => Ok(()),
        Ok(_) => Err(Fault::File),
        Err(error) => Err(file_fault(&error)),
    }
}

impl RecordReader {
    /// Opens a file.
    ///
    /// # Errors
    /// [`Fault::File`] if it can't be opened, or is no regular one; [`Fault::MEMORY`].
    pub fn open(rt: &HostRuntime, path: &str) -> Result<RecordReader, Fault> {
        let file = open_at_once(rt, path).map_err(|error| file_fault(&error))?;
        refuse_others(&file)?;
        Ok(RecordReader {
            file,
            stream: RecordStream::new(rt.alloc()),
            kind: RecordKind::Mark,
            moment: 0,
            count: 0,
            whole: 0,
        })
    }

    /// Goes on to the next entry.
    ///
    /// # Errors
    /// [`Fault::File`] if the file can't be read; [`Fault::MEMORY`].
    pub fn advance(&mut self) -> Result<Found, Fault> {
        for _ in 0..u64::MAX {
            let (lacking, found) = match self.stream.look() {
                Look::Entry(passed) => {
                    self.pass(&passed);
                    return Ok(Found::Entry);
                }
                Look::Changed(_) => return Ok(Found::Changed),
                Look::End => (1, Found::End),
                Look::Cut(lacking) => (lacking.unwrap_or(1), Found::Cut),
            };
            if !self.fill(lacking)? {
                return Ok(found);
            }
        }
        Ok(Found::End)
    }

    /// Notes an entry that was read.
    fn pass(&mut self, passed: &PassedEntry) {
        self.kind = passed.kind;
        self.moment = passed.moment;
        self.count = self.count.saturating_add(1);
        self.whole = self.whole.saturating_add(passed.length as u64);
    }

    /// Reads so many octets more, and maybe others behind them. Returns whether they are there.
    fn fill(&mut self, count: usize) -> Result<bool, Fault> {
        self.stream.forget();
        let wanted = self.stream.left().saturating_add(count);
        let ample = wanted.max(AHEAD);
        let mut step = [0; STEP];
        for _ in 0..u64::MAX {
            if self.stream.left() >= ample {
                break;
            }
            let came = self
                .file
                .read(&mut step)
                .map_err(|error| file_fault(&error))?;
            if came == 0 {
                break;
            }
            self.stream.add(step.get(..came).unwrap_or(&[]))?;
        }
        Ok(self.stream.left() >= wanted)
    }

    /// The kind of the last entry.
    pub fn kind(&self) -> RecordKind {
        self.kind
    }

    /// When the last entry was written: microseconds since 1970 began.
    pub fn moment(&self) -> u64 {
        self.moment
    }

    /// The content of the last entry.
    pub fn content(&self) -> &[u8] {
        self.stream.content()
    }

    /// The digest of the last entry, or what takes its place before the first.
    pub fn digest(&self) -> [u8; DIGEST_LEN] {
        self.stream.digest()
    }

    /// Where the entries that were read end.
    pub fn day_end(&self) -> DayEnd {
        DayEnd {
            entries: self.count,
            digest: self.stream.digest(),
        }
    }

    /// How many entries were read.
    pub fn count(&self) -> u64 {
        self.count
    }

    /// How many octets they have.
    pub fn whole(&self) -> u64 {
        self.whole
    }
}
