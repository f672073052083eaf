//! Changes in short.

use oftp_register::{Change, DigitString, Identity, Name, OfficeFault, ResponseKind};
use oftp_vfile::{Format, Row, Rows};
use oftp_wire::{Count, Digits, Text, X};
use std::alloc::{AllocError, Global};

/// A change in short. Files are named by a letter: A to M go from O1 to O2, and N to Z back. In F and V the longest record is 3.
#[derive(Clone, Copy, Drop)]
pub enum Act {
    Submit(&'static [u8], Format, &'static [&'static [u8]]),
    /// This many records of one octet, in V.
    SubmitLong(&'static [u8], u64),
    Start(&'static [u8], Format, u64),
    Keep(u64, &'static [&'static [u8]]),
    Close(u64, &'static [&'static [u8]]),
    GiveUp(u64),
    File(&'static [u8], ResponseKind, &'static str),
    Issue(u64, ResponseKind, &'static str),
    Mark(u64, u64),
    BeginClosing(u64),
    HandOver(u64),
    Refuse(u64),
    Reopen(u64),
    Send(u64),
}

/// The change of a short form.
pub type Made = Result<Change<'static>, OfficeFault>;

// The error of a wrong fixture. Out of memory is another one.
const BAD: OfficeFault = OfficeFault::Store;

/// The code of a station.
pub fn code(letters: &'static [u8]) -> Result<Name<25>, OfficeFault> {
    Ok(Name::of(&X::new(letters).ok_or(BAD)?))
}

fn text(words: &'static str) -> Result<Text<'static>, OfficeFault> {
    Text::new(words).ok_or(BAD)
}

fn way_of(dataset: &[u8]) -> (&'static [u8], &'static [u8]) {
    match dataset.first() {
        Some(b'N'..=b'Z') => (b"O2", b"O1"),
        _ => (b"O1", b"O2"),
    }
}

/// The identity of the file with this letter.
pub fn identity(dataset: &'static [u8]) -> Result<Identity, OfficeFault> {
    let (originator, destination) = way_of(dataset);
    Ok(Identity {
        dataset: Name::of(&X::new(dataset).ok_or(BAD)?),
        date: DigitString::of(&Digits::new(b"20240131").ok_or(BAD)?),
        time: DigitString::of(&Digits::new(b"1015300001").ok_or(BAD)?),
        originator: code(originator)?,
        destination: code(destination)?,
    })
}

fn longest_of(format: Format) -> u32 {
    if format.is_stream() { 0 } else { 3 }
}

// The description of a file in this format.
fn about(format: Format) -> Result<Text<'static>, OfficeFault> {
    text(match format {
        Format::Fixed => "Maße",
        Format::Variable => "plan",
        Format::Unstructured => "",
        Format::Text => "a note",
    })
}

fn rows(alloc: Global, records: &[&[u8]]) -> Result<Rows, AllocError> {
    let mut rows = Vec::new(alloc);
    for record in records {
        rows.push(Row::new(Vec::from_slice(alloc, record)?))?;
    }
    Ok(Rows::new(rows))
}

fn many_rows(alloc: Global, count: u64) -> Result<Rows, AllocError> {
    let mut rows = Vec::new(alloc);
    for _ in 0..count {
        rows.push(Row::new(Vec::from_slice(alloc, b"x")?))?;
    }
    Ok(Rows::new(rows))
}

fn submit(dataset: &'static [u8], format: Format, rows: Rows) -> Made {
    Ok(Change::Submit {
        identity: identity(dataset)?,
        format,
        longest: longest_of(format),
        description: about(format)?,
        rows,
    })
}

fn start(dataset: &'static [u8], format: Format, count: u64) -> Made {
    Ok(Change::Start {
        identity: identity(dataset)?,
        format,
        longest: longest_of(format),
        description: about(format)?,
        count,
    })
}

// The reason and creator of a response. Only a negative one has them.
fn reason_of(kind: ResponseKind) -> (Count<2>, &'static [u8]) {
    match kind {
        ResponseKind::EndResponse => (Count::new(0), b""),
        ResponseKind::NegativeEndResponse => (Count::new(9), b"O3"),
    }
}

fn file(dataset: &'static [u8], kind: ResponseKind, note: &'static str) -> Made {
    let (reason, creator) = reason_of(kind);
    Ok(Change::File {
        kind,
        identity: identity(dataset)?,
        reason,
        creator: code(creator)?,
        text: text(note)?,
    })
}

fn issue(no: u64, kind: ResponseKind, note: &'static str) -> Made {
    let (reason, _) = reason_of(kind);
    Ok(Change::Issue {
        no,
        kind,
        reason,
        text: text(note)?,
    })
}

impl Act {
    /// The change.
    pub fn change(self, alloc: Global) -> Made {
        match self {
            Act::Submit(dataset, format, records) => {
                submit(dataset, format, rows(alloc, records)?)
            }
            Act::SubmitLong(dataset, count) => {
                submit(dataset, Format::Variable, many_rows(alloc, count)?)
            }
            Act::Start(dataset, format, count) => start(dataset, format, count),
            Act::Keep(no, records) => Ok(Change::Keep {
                no,
                rows: rows(alloc, records)?,
            }),
            Act::Close(no, records) => Ok(Change::Close {
                no,
                rows: rows(alloc, records)?,
            }),
            Act::GiveUp(no) => Ok(Change::GiveUp { no }),
            Act::File(dataset, kind, note) => file(dataset, kind, note),
            Act::Issue(no, kind, note) => issue(no, kind, note),
            Act::Mark(no, rows) => Ok(Change::Mark { no, rows }),
            Act::BeginClosing(no) => Ok(Change::BeginClosing { no }),
            Act::HandOver(no) => Ok(Change::HandOver { no }),
            Act::Refuse(no) => Ok(Change::Refuse {
                no,
                reason: Count::new(13),
            }),
            Act::Reopen(no) => Ok(Change::Reopen { no }),
            Act::Send(no) => Ok(Change::Send { no }),
        }
    }
}
