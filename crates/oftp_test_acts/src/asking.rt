//! The look-ups of an office, each with its result as a line.

use crate::act::{Act, code, identity};
use crate::session::session_line;
use crate::telling::{add_rows, answered, files_of_number, kept, told, told_of_file};
use oftp_register::{Cause, Cursor, Item, Office, OfficeFault, ResponseKind, Side};
use std::alloc::{AllocError, Global};

/// A look-up or a change.
#[derive(Clone, Copy, Drop)]
pub enum Ask {
    /// Makes a change. The line is its result.
    Change(Act),
    /// A session in which a partner calls and says this, in parts. The line is how it ends, and the octets that go out.
    Serve(&'static [&'static [u8]]),
    /// The register as text.
    Kept,
    /// The results of all look-ups.
    Told,
    /// The incoming and the outgoing file with a number.
    OfNumber(u64),
    /// The results of all look-ups of the files with a letter, of both sides.
    OfFile(&'static [u8]),
    /// The next item for a partner, after a response and a file, with files or without.
    Next(&'static [u8], u64, u64, bool),
    /// Some rows of the first incoming file: the first row, and how many.
    Rows(u64, u64),
    /// The units of a file.
    Units(Side, u64),
    /// The number of the incoming file with a letter.
    LookIn(&'static [u8]),
    /// The number of the outgoing file with a letter.
    LookOut(&'static [u8]),
    /// Whether the incoming and the outgoing file with a number exist.
    ByNo(u64),
    /// Whether a response to the file with a letter was received.
    Received(ResponseKind, &'static [u8]),
    /// How many responses were issued, and how many were received.
    Responses,
    /// The received responses, each with the number of the file that it answers.
    Answered,
    /// Whether the tables of incoming and of outgoing files are full.
    Full,
    /// The limits of files and of octets.
    Limits,
}

/// A line with these words.
pub fn line(alloc: Global, words: &str) -> Result<String, AllocError> {
    String::from_str(alloc, words)
}

/// The line for the result of a change.
pub fn words_of(refused: Option<Cause>) -> &'static str {
    match refused {
        None => "made",
        Some(Cause::Duplicate) => "duplicate",
        Some(Cause::Unknown) => "unknown",
        Some(Cause::State) => "state",
        Some(Cause::Full) => "full",
    }
}

fn change<O: Office>(alloc: Global, office: &mut O, act: Act) -> Result<String, OfficeFault> {
    let refused = match office.commit(act.change(alloc)?) {
        Ok(()) => None,
        Err(OfficeFault::Refused(cause)) => Some(cause),
        Err(fault) => return Err(fault),
    };
    Ok(line(alloc, words_of(refused))?)
}

fn item_line(alloc: Global, item: Option<Item>) -> Result<String, AllocError> {
    let (kind, no) = match &item {
        Some(Item::Response(entry)) => ("response", entry.no),
        Some(Item::File(entry)) => ("file", entry.no),
        None => return line(alloc, "nothing"),
    };
    format!(in alloc; "{kind} {no}")
}

fn next<O: Office>(
    alloc: Global,
    office: &mut O,
    partner: &'static [u8],
    cursor: Cursor,
    files: bool,
) -> Result<String, OfficeFault> {
    let item = office.next_item(&code(partner)?, cursor, files)?;
    Ok(item_line(alloc, item)?)
}

fn rows<O: Office>(
    alloc: Global,
    office: &mut O,
    from: u64,
    most: u64,
) -> Result<String, OfficeFault> {
    let rows = office.rows_of(Side::Incoming, 1, from, most)?;
    let mut all = String::new(alloc);
    add_rows(&mut all, &rows)?;
    Ok(all)
}

fn number_line(alloc: Global, number: u64) -> Result<String, AllocError> {
    format!(in alloc; "{number}")
}

fn two(alloc: Global, one: u64, other: u64) -> Result<String, AllocError> {
    format!(in alloc; "{one} {other}")
}

fn units<O: Office>(
    alloc: Global,
    office: &mut O,
    side: Side,
    no: u64,
) -> Result<String, OfficeFault> {
    let units = office.units_of(side, no)?;
    Ok(number_line(alloc, units)?)
}

// The number of the file with a letter, if it exists.
fn look<O: Office>(
    alloc: Global,
    office: &mut O,
    side: Side,
    dataset: &'static [u8],
) -> Result<String, OfficeFault> {
    let identity = identity(dataset)?;
    let found = match side {
        Side::Incoming => office.look_in(&identity)?.map(|entry| entry.no),
        Side::Outgoing => office.look_out(&identity)?.map(|entry| entry.no),
    };
    match found {
        Some(no) => Ok(number_line(alloc, no)?),
        None => Ok(line(alloc, "none")?),
    }
}

fn by_no<O: Office>(alloc: Global, office: &mut O, no: u64) -> Result<String, OfficeFault> {
    let coming = office.in_by_no(no)?.is_some();
    let going = office.out_by_no(no)?.is_some();
    Ok(two(alloc, u64::from(coming), u64::from(going))?)
}

fn received<O: Office>(
    alloc: Global,
    office: &mut O,
    kind: ResponseKind,
    dataset: &'static [u8],
) -> Result<String, OfficeFault> {
    let came = office.has_received(kind, &identity(dataset)?)?;
    Ok(number_line(alloc, u64::from(came))?)
}

fn responses<O: Office>(alloc: Global, office: &mut O) -> Result<String, OfficeFault> {
    let issued = office.list_issued()?.len();
    let received = office.list_received()?.len();
    Ok(two(alloc, issued as u64, received as u64)?)
}

fn full<O: Office>(alloc: Global, office: &mut O) -> Result<String, OfficeFault> {
    let coming = office.files_full(Side::Incoming)?;
    let going = office.files_full(Side::Outgoing)?;
    Ok(two(alloc, u64::from(coming), u64::from(going))?)
}

/// The result of a look-up or a change.
pub fn answer<O: Office>(alloc: Global, office: &mut O, ask: Ask) -> Result<String, OfficeFault> {
    match ask {
        Ask::Change(act) => change(alloc, office, act),
        Ask::Serve(heard) => session_line(alloc, office, heard),
        Ask::Kept => kept(alloc, office),
        Ask::Told => told(alloc, office),
        Ask::OfNumber(no) => files_of_number(alloc, office, no),
        Ask::OfFile(dataset) => told_of_file(alloc, office, dataset),
        Ask::Next(partner, response, file, files) => {
            next(alloc, office, partner, Cursor { response, file }, files)
        }
        Ask::Rows(from, most) => rows(alloc, office, from, most),
        Ask::Units(side, no) => units(alloc, office, side, no),
        Ask::LookIn(dataset) => look(alloc, office, Side::Incoming, dataset),
        Ask::LookOut(dataset) => look(alloc, office, Side::Outgoing, dataset),
        Ask::ByNo(no) => by_no(alloc, office, no),
        Ask::Received(kind, dataset) => received(alloc, office, kind, dataset),
        Ask::Responses => responses(alloc, office),
        Ask::Answered => answered(alloc, office),
        Ask::Full => full(alloc, office),
        Ask::Limits => Ok(two(alloc, office.limits().files, office.limits().octets)?),
    }
}
