//! The entries of a record, one after another, over all its days.

use oftp_contents::{ContentFields, DayLink, EntryPlace, PieceMark, RecordPart, number_of_day};
use oftp_outcomes::Fault;
use oftp_progress::{Extent, Gauge};
use oftp_record::RecordKind;
use oftp_recording::{Digest, Found, RecordReader, file_of, record_files};
use std::alloc::{AllocError, Global};

/// Why playing a record stops.
#[derive(Clone, Copy, Debug)]
pub(crate) enum Stop {
    /// What was recorded isn't what comes of it, or isn't as it was written: this differs.
    Differs(&'static str),
    /// There is no such entry.
    Unknown,
    /// An error.
    Failed(Fault),
}

impl From<Fault> for Stop {
    fn from(fault: Fault) -> Stop {
        Stop::Failed(fault)
    }
}

impl From<AllocError> for Stop {
    fn from(_: AllocError) -> Stop {
        Stop::Failed(Fault::MEMORY)
    }
}

/// What is wrong with a record.
#[derive(Clone, Copy, Debug, PartialEq, Eq)]
pub(crate) enum Damage {
    /// An entry is cut off.
    Cut,
    /// An entry isn't as it was written, or not behind the one before it.
    Changed,
    /// The first entry of a day doesn't name the last one before it.
    Unlinked,
}

impl Damage {
    /// What is said of it.
    pub(crate) fn words(self) -> &'static str {
        match self {
            Damage::Cut => "it is cut off",
            Damage::Changed => "it was changed, or what was before it",
            Damage::Unlinked => "it doesn't follow the day before",
        }
    }

    /// The number of the entry in its file, of which so many entries were read.
    fn entry(self, read: u64) -> u64 {
        match self {
            Damage::Cut | Damage::Changed => read.saturating_add(1),
            Damage::Unlinked => read,
        }
    }
}

/// Where a tape stands.
#[derive(Clone, Copy, PartialEq, Eq)]
pub(crate) enum At {
    /// At an entry of this kind.
    Entry(RecordKind),
    /// At its end.
    End,
    /// At an entry with which this is wrong.
    Broken(Damage),
}

/// A record that is read, entry by entry.
#[derive(Drop)]
pub(crate) struct Tape<'a> {
    rt: &'a HostRuntime,
    folder: &'a str,
    part: RecordPart,
    days: Vec<String>,
    // Which of them is read next.
    next: usize,
    reader: Option<RecordReader>,
    // The last digest of the days before this one; `None` on the first day.
    before: Option<Digest>,
    at: At,
    // How many entries were read.
    entries: u64,
    /// What shows it, if something does.
    pub(crate) gauge: Option<Gauge<'a>>,
}

impl<'a> Tape<'a> {
    /// The record in a folder, at its first entry.
    pub(crate) fn open(rt: &'a HostRuntime, folder: &'a str) -> Result<Tape<'a>, Fault> {
        Tape::open_part(rt, folder, RecordPart::whole())
    }

    /// The record in a folder, at its first entry, and up to the last one of a part.
    pub(crate) fn open_part(
        rt: &'a HostRuntime,
        folder: &'a str,
        part: RecordPart,
    ) -> Result<Tape<'a>, Fault> {
        let mut tape = Tape {
            rt,
            folder,
            part,
            days: record_files(rt, folder)?,
            next: 0,
            reader: None,
            before: None,
            at: At::End,
            entries: 0,
            gauge: None,
        };
        tape.advance()?;
        Ok(tape)
    }

    /// Where it stands.
    pub(crate) fn at(&self) -> At {
        self.at
    }

    /// The kind of the entry at which it stands, if it stands at one.
    pub(crate) fn kind(&self) -> Option<RecordKind> {
        match self.at {
            At::Entry(kind) => Some(kind),
            At::End | At::Broken(_) => None,
        }
    }

    /// Goes on to the next entry. At its end, and at an entry that is broken, it stays.
    pub(crate) fn advance(&mut self) -> Result<(), Fault> {
        if let At::Broken(_) = self.at {
            return Ok(());
        }
        for _ in 0..u64::MAX {
            if let Some(at) = self.step()? {
                self.at = self.within(at);
                self.show();
                return Ok(());
            }
        }
        Ok(())
    }

    /// Where it stands, if an entry behind the part isn't there.
    fn within(&self, at: At) -> At {
        match at {
            At::Entry(_) if !self.place().is_within(self.part.to) => At::End,
            at => at,
        }
    }

    /// The place of the entry that was read last.
    pub(crate) fn place(&self) -> EntryPlace {
        let day = match self.days.get(self.next.saturating_sub(1)) {
            Some(day) => number_of_day(day.as_bytes()).unwrap_or(0),
            None => 0,
        };
        let number = match &self.reader {
            Some(reader) => reader.count(),
            None => 0,
        };
        EntryPlace { day, number }
    }

    /// Counts an entry at which it stands, and shows how many were read.
    fn show(&mut self) {
        if let At::Entry(_) = self.at {
            self.entries = self.entries.saturating_add(1);
        }
        let entries = self.entries;
        if let Some(gauge) = &mut self.gauge {
            gauge.show(&Extent::Replay { entries });
        }
    }

    /// Shows how many entries were read in all.
    pub(crate) fn finish(&mut self) {
        let entries = self.entries;
        if let Some(gauge) = &mut self.gauge {
            gauge.finish(&Extent::Replay { entries });
        }
    }

    /// Goes on in the file of the day, or opens that of the next one. Returns where it stands, if there is something.
    fn step(&mut self) -> Result<Option<At>, Fault> {
        let found = match &mut self.reader {
            Some(reader) => reader.advance()?,
            None => return self.turn(),
        };
        match found {
            Found::Entry => Ok(self.seen()),
            Found::Cut => Ok(Some(At::Broken(Damage::Cut))),
            Found::Changed => Ok(Some(At::Broken(Damage::Changed))),
            Found::End => {
                self.before = self.last_entry();
                self.reader = None;
                Ok(None)
            }
        }
    }

    /// The digest of the last entry up to the end of the day that was read.
    fn last_entry(&self) -> Option<Digest> {
        match &self.reader {
            Some(reader) => reader.day_end().last_entry(self.before),
            None => self.before,
        }
    }

    /// Opens the file of the next day.
    fn turn(&mut self) -> Result<Option<At>, Fault> {
        let Some(day) = self.days.get(self.next) else {
            return Ok(Some(At::End));
        };
        let path = file_of(self.rt, self.folder, day.as_str())?;
        self.reader = Some(RecordReader::open(self.rt, path.as_str())?);
        self.next = self.next.saturating_add(1);
        Ok(None)
    }

    /// What the entry is that was read. The first of each day but the first says which entry was the last before it.
    fn seen(&self) -> Option<At> {
        let reader = self.reader.as_ref()?;
        let kind = reader.kind();
        let named = match ContentFields::of(reader.content()) {
            Some(fields) => fields.day_before(kind),
            None => None,
        };
        match DayLink::at(reader.count(), self.before, named) {
            DayLink::Entry => Some(At::Entry(kind)),
            DayLink::Link => None,
            DayLink::Broken => Some(At::Broken(Damage::Unlinked)),
        }
    }

    /// The content of the entry at which it stands.
    pub(crate) fn content(&self) -> &[u8] {
        match &self.reader {
            Some(reader) => reader.content(),
            None => &[],
        }
    }

    /// A copy of it.
    pub(crate) fn copied(&self, alloc: Global) -> Result<Vec<u8>, Fault> {
        Ok(Vec::from_slice(alloc, self.content())?)
    }

    /// When the entry was written at which it stands: microseconds since 1970 began.
    pub(crate) fn moment(&self) -> u64 {
        match &self.reader {
            Some(reader) => reader.moment(),
            None => 0,
        }
    }

    /// What the entry at which it stands has in common with the other pieces of what was heard or said at once.
    pub(crate) fn piece(&self) -> Option<PieceMark> {
        let kind = self.kind()?;
        let fields = ContentFields::of(self.content())?;
        PieceMark::of(kind, self.moment(), fields.number)
    }

    /// The number that the entry has at which it stands, if its content has one.
    pub(crate) fn number(&self) -> Option<u64> {
        let fields = ContentFields::of(self.content())?;
        Some(fields.number)
    }

    /// How many days were begun, that of the entry at which it stands among them.
    pub(crate) fn count(&self) -> usize {
        self.next
    }

    /// The digest that the entry has at which it stands, if it is an opening, a backup or a mark of a register.
    pub(crate) fn register(&self) -> Option<Digest> {
        let kind = self.kind()?;
        let fields = ContentFields::of(self.content())?;
        fields.register(kind)
    }

    /// The line for what differs where it stands: at the entry that was read last, or behind it if that is broken.
    pub(crate) fn told(&self, what: &str) -> Result<String, Fault> {
        let alloc = self.rt.alloc();
        let (Some(reader), Some(day)) = (&self.reader, self.days.get(self.next.saturating_sub(1)))
        else {
            return Ok(format!(in alloc; "differs: at the end of the record: {what}")?);
        };
        let entry = match self.at {
            At::Broken(damage) => damage.entry(reader.count()),
            At::Entry(_) | At::End => reader.count(),
        };
        Ok(format!(in alloc; "differs: {day}.record, entry {entry}: {what}")?)
    }
}

/// Octets as text.
pub(crate) fn text_of(octets: &[u8]) -> &str {
    match str::from_utf8(octets) {
        Ok(text) => text,
        Err(_) => "?",
    }
}
