//! Verdicts and changes over registers that are written by hand.

use oftp_register::{
    Cause, Change, DigitString, EndVerdict, Identity, IncomingEntry, Name, Office, OfficeFault,
    OutgoingEntry, OutgoingState, PlainOffice, ResponseKind, Side, StartVerdict, Terms,
    are_full_rows, are_rows, commit_all, end_verdict, format_of, is_file, is_response, longest_of,
    start_verdict,
};
use oftp_vfile::{Format, LONGEST_RECORD, Limits, Row, Rows};
use oftp_wire::{Count, Digits, Text, X};
use std::alloc::{AllocError, Global};
use std::process::Abort;
use std::test::Fail;

mod fits;
mod memory;
mod verdicts;

const LIMITS: Limits = Limits {
    files: 2,
    octets: 67_108_864,
};

/// A change in short. Files are named by a letter. They are of format V with a longest record of 3, and go from O1 to O2.
#[derive(Clone, Copy)]
enum Act {
    Submit(&'static [u8], &'static [&'static [u8]]),
    Start(&'static [u8], u64),
    Keep(u64, &'static [&'static [u8]]),
    Close(u64, &'static [&'static [u8]]),
    GiveUp(u64),
    File(&'static [u8], ResponseKind),
    Issue(u64, ResponseKind),
    Mark(u64, u64),
    BeginClosing(u64),
    HandOver(u64),
    Refuse(u64),
    Reopen(u64),
    Send(u64),
}

// The error of a wrong fixture. Out of memory is another one.
const BAD: OfficeFault = OfficeFault::Store;

fn text(words: &'static str) -> Result<Text<'static>, OfficeFault> {
    Text::new(words).ok_or(BAD)
}

fn code(letters: &'static [u8]) -> Result<Name<25>, OfficeFault> {
    Ok(Name::of(&X::new(letters).ok_or(BAD)?))
}

fn file(dataset: &'static [u8]) -> Result<Identity, OfficeFault> {
    Ok(Identity {
        dataset: Name::of(&X::new(dataset).ok_or(BAD)?),
        date: DigitString::of(&Digits::new(b"20240131").ok_or(BAD)?),
        time: DigitString::of(&Digits::new(b"1015300001").ok_or(BAD)?),
        originator: code(b"O1")?,
        destination: code(b"O2")?,
    })
}

fn rows(alloc: Global, records: &[&[u8]]) -> Result<Rows, AllocError> {
    let mut rows = Vec::new(alloc);
    for record in records {
        rows.push(Row::new(Vec::from_slice(alloc, record)?))?;
    }
    Ok(Rows::new(rows))
}

fn submit(dataset: &'static [u8], rows: Rows) -> Result<Change<'static>, OfficeFault> {
    Ok(Change::Submit {
        identity: file(dataset)?,
        format: Format::Variable,
        longest: 3,
        description: text("")?,
        rows,
    })
}

fn start_in(
    dataset: &'static [u8],
    format: Format,
    longest: u32,
    count: u64,
) -> Result<Change<'static>, OfficeFault> {
    Ok(Change::Start {
        identity: file(dataset)?,
        format,
        longest,
        description: text("")?,
        count,
    })
}

fn start(dataset: &'static [u8], count: u64) -> Result<Change<'static>, OfficeFault> {
    start_in(dataset, Format::Variable, 3, count)
}

// The reason, creator and text of a response. Only a negative one has them.
fn words(kind: ResponseKind) -> (Count<2>, &'static [u8], &'static str) {
    match kind {
        ResponseKind::EndResponse => (Count::new(0), b"", ""),
        ResponseKind::NegativeEndResponse => (Count::new(9), b"O2", "NO PLANT"),
    }
}

fn file_response(
    dataset: &'static [u8],
    kind: ResponseKind,
) -> Result<Change<'static>, OfficeFault> {
    let (reason, creator, note) = words(kind);
    Ok(Change::File {
        kind,
        identity: file(dataset)?,
        reason,
        creator: code(creator)?,
        text: text(note)?,
    })
}

fn issue(no: u64, kind: ResponseKind) -> Result<Change<'static>, OfficeFault> {
    let (reason, _, note) = words(kind);
    Ok(Change::Issue {
        no,
        kind,
        reason,
        text: text(note)?,
    })
}

fn change(alloc: Global, act: Act) -> Result<Change<'static>, OfficeFault> {
    match act {
        Act::Submit(dataset, records) => submit(dataset, rows(alloc, records)?),
        Act::Start(dataset, count) => start(dataset, count),
        Act::Keep(no, records) => Ok(Change::Keep {
            no,
            rows: rows(alloc, records)?,
        }),
        Act::Close(no, records) => Ok(Change::Close {
            no,
            rows: rows(alloc, records)?,
        }),
        Act::GiveUp(no) => Ok(Change::GiveUp { no }),
        Act::File(dataset, kind) => file_response(dataset, kind),
        Act::Issue(no, kind) => issue(no, kind),
        Act::Mark(no, rows) => Ok(Change::Mark { no, rows }),
        Act::BeginClosing(no) => Ok(Change::BeginClosing { no }),
        Act::HandOver(no) => Ok(Change::HandOver { no }),
        Act::Refuse(no) => Ok(Change::Refuse {
            no,
            reason: Count::new(13),
        }),
        Act::Reopen(no) => Ok(Change::Reopen { no }),
        Act::Send(no) => Ok(Change::Send { no }),
    }
}

// Carries out a change that has to be fit. Another one is an error of the fixture.
fn commit(office: &mut PlainOffice, change: Change<'_>) -> Result<(), OfficeFault> {
    if !office.is_fit(&change) {
        return Err(BAD);
    }
    office.commit(change)
}

fn carry_out(alloc: Global, office: &mut PlainOffice, act: Act) -> Result<(), OfficeFault> {
    let change = change(alloc, act)?;
    commit(office, change)
}

// An office after these changes.
fn office_after(alloc: Global, acts: &[Act]) -> Result<PlainOffice, OfficeFault> {
    let mut office = PlainOffice::new(alloc, LIMITS);
    for act in acts {
        carry_out(alloc, &mut office, *act)?;
    }
    Ok(office)
}

fn letter(identity: &Identity) -> char {
    char::from(identity.dataset.octets().first().copied().unwrap_or(b'-'))
}

fn state_name(state: OutgoingState) -> &'static str {
    match state {
        OutgoingState::Waiting => "waiting",
        OutgoingState::Closing => "closing",
        OutgoingState::Handed => "handed",
        OutgoingState::Refused(_) => "refused",
        OutgoingState::Delivered => "delivered",
        OutgoingState::Returned => "returned",
    }
}

fn kind_name(kind: ResponseKind) -> &'static str {
    match kind {
        ResponseKind::EndResponse => "EERP",
        ResponseKind::NegativeEndResponse => "NERP",
    }
}

fn add_in(all: &mut String, entry: &IncomingEntry, units: u64) -> Result<(), OfficeFault> {
    let (letter, state, rows) = (letter(&entry.identity), entry.state, entry.rows);
    write!(all, "in {letter} {state:?} {rows}/{units}")?;
    if let Some(response) = &entry.response {
        write!(all, " {} {:?}", kind_name(response.kind), response.dispatch)?;
    }
    write!(all, "; ")?;
    Ok(())
}

fn add_incoming(all: &mut String, office: &mut PlainOffice) -> Result<(), OfficeFault> {
    for entry in office.list_in()? {
        let units = office.units_of(Side::Incoming, entry.no)?;
        add_in(all, &entry, units)?;
    }
    Ok(())
}

fn add_out(all: &mut String, entry: &OutgoingEntry, units: u64) -> Result<(), OfficeFault> {
    let (letter, state) = (letter(&entry.identity), state_name(entry.state));
    let (rows, mark) = (entry.rows, entry.mark);
    write!(all, "out {letter} {state} {rows}/{units} mark {mark}; ")?;
    Ok(())
}

fn add_outgoing(all: &mut String, office: &mut PlainOffice) -> Result<(), OfficeFault> {
    for entry in office.list_out()? {
        let units = office.units_of(Side::Outgoing, entry.no)?;
        add_out(all, &entry, units)?;
    }
    Ok(())
}

fn add_received(all: &mut String, office: &mut PlainOffice) -> Result<(), OfficeFault> {
    for entry in office.list_received()? {
        let letter = letter(&entry.response.identity);
        let kind = kind_name(entry.response.kind);
        write!(all, "got {letter} {kind}; ")?;
    }
    Ok(())
}

// The whole register as text.
fn shown(alloc: Global, office: &mut PlainOffice) -> Result<String, OfficeFault> {
    let mut all = String::new(alloc);
    add_incoming(&mut all, office)?;
    add_outgoing(&mut all, office)?;
    add_received(&mut all, office)?;
    Ok(all)
}

// Asserts that an office has this register.
fn shows(
    alloc: Global,
    rt: &impl Abort,
    office: &mut PlainOffice,
    wanted: &str,
) -> Result<(), OfficeFault> {
    let all = shown(alloc, office)?;
    assert_eq!(rt; all.as_str(), wanted);
    Ok(())
}
