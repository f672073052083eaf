//! The results of an office's look-ups, as text.

use crate::act::{code, identity};
use oftp_register::{
    AnsweredEntry, Cursor, Identity, IncomingEntry, IssuedEntry, IssuedResponse, Item, Name, Note,
    Office, OfficeFault, OutgoingEntry, OutgoingState, ReceivedEntry, ResponseKind, Side,
};
use oftp_vfile::{Format, Limits, Rows};
use std::alloc::{AllocError, Global};

// More rows than a file has.
const ALL: u64 = 1 << 40;

// A number that a database can't have.
const BEYOND: u64 = 1 << 63;

const KINDS: [ResponseKind; 2] = [ResponseKind::EndResponse, ResponseKind::NegativeEndResponse];

const SIDES: [Side; 2] = [Side::Incoming, Side::Outgoing];

const DATASETS: [&[u8]; 8] = [b"A", b"B", b"D", b"E", b"F", b"N", b"P", b"Z"];

fn letter(identity: &Identity) -> char {
    char::from(identity.dataset.octets().first().copied().unwrap_or(b'-'))
}

fn format_letter(format: Format) -> char {
    match format {
        Format::Fixed => 'F',
        Format::Variable => 'V',
        Format::Unstructured => 'U',
        Format::Text => 'T',
    }
}

fn kind_name(kind: ResponseKind) -> &'static str {
    match kind {
        ResponseKind::EndResponse => "EERP",
        ResponseKind::NegativeEndResponse => "NERP",
    }
}

fn add_octets(all: &mut String, octets: &[u8]) -> Result<(), AllocError> {
    for octet in octets {
        all.push(char::from(*octet))?;
    }
    Ok(())
}

/// Adds the octets of some rows, each ended by a bar.
pub fn add_rows(all: &mut String, rows: &Rows) -> Result<(), AllocError> {
    for row in rows.as_slice() {
        add_octets(all, row.octets())?;
        all.push('|')?;
    }
    Ok(())
}

fn add_response(all: &mut String, response: &IssuedResponse) -> Result<(), AllocError> {
    let (kind, reason) = (kind_name(response.kind), response.reason.get());
    let (note, dispatch) = (response.text.as_str(), response.dispatch);
    write!(all, " {kind} {reason} {note} {dispatch:?}")
}

// Adds the header of a file of either direction.
fn add_header(
    all: &mut String,
    identity: &Identity,
    format: Format,
    longest: u32,
    description: &Note,
) -> Result<(), AllocError> {
    let (letter, format, about) = (
        letter(identity),
        format_letter(format),
        description.as_str(),
    );
    write!(all, "{letter} {format}{longest} {about} ")
}

fn add_incoming(all: &mut String, entry: &IncomingEntry) -> Result<(), AllocError> {
    let (no, state, rows) = (entry.no, entry.state, entry.rows);
    write!(all, "in {no} ")?;
    add_header(
        all,
        &entry.identity,
        entry.format,
        entry.longest,
        &entry.description,
    )?;
    write!(all, "{state:?}")?;
    if let Some(response) = &entry.response {
        add_response(all, response)?;
    }
    write!(all, " {rows}")
}

fn add_state(all: &mut String, state: OutgoingState) -> Result<(), AllocError> {
    match state {
        OutgoingState::Refused(reason) => {
            let reason = reason.get();
            write!(all, "Refused {reason}")
        }
        other => write!(all, "{other:?}"),
    }
}

fn add_outgoing(all: &mut String, entry: &OutgoingEntry) -> Result<(), AllocError> {
    let (no, mark, rows) = (entry.no, entry.mark, entry.rows);
    write!(all, "out {no} ")?;
    add_header(
        all,
        &entry.identity,
        entry.format,
        entry.longest,
        &entry.description,
    )?;
    add_state(all, entry.state)?;
    write!(all, " mark {mark} {rows}")
}

fn add_issued(all: &mut String, entry: &IssuedEntry) -> Result<(), AllocError> {
    let letter = letter(&entry.identity);
    let no = entry.no;
    write!(all, "answered {no} {letter}")?;
    add_response(all, &entry.response)?;
    write!(all, "; ")
}

fn add_received(all: &mut String, entry: &ReceivedEntry) -> Result<(), AllocError> {
    let (no, response) = (entry.no, &entry.response);
    let (letter, kind) = (letter(&response.identity), kind_name(response.kind));
    let reason = response.reason.get();
    write!(all, "got {no} {letter} {kind} {reason} ")?;
    add_octets(all, response.creator.octets())?;
    let note = response.text.as_str();
    write!(all, " {note}; ")
}

fn add_answered(all: &mut String, entry: &AnsweredEntry) -> Result<(), AllocError> {
    let no = entry.no;
    match entry.file {
        Some(file) => write!(all, "{no} to {file}; "),
        None => write!(all, "{no} to none; "),
    }
}

// Adds the octets of a file.
fn add_content<O: Office>(
    all: &mut String,
    office: &mut O,
    side: Side,
    no: u64,
) -> Result<(), OfficeFault> {
    let units = office.units_of(side, no)?;
    write!(all, "/{units} ")?;
    add_rows(all, &office.rows_of(side, no, 0, ALL)?)?;
    write!(all, "; ")?;
    Ok(())
}

fn add_all_in<O: Office>(all: &mut String, office: &mut O) -> Result<(), OfficeFault> {
    for entry in &office.list_in()? {
        add_incoming(all, entry)?;
        add_content(all, office, Side::Incoming, entry.no)?;
    }
    Ok(())
}

fn add_all_out<O: Office>(all: &mut String, office: &mut O) -> Result<(), OfficeFault> {
    for entry in &office.list_out()? {
        add_outgoing(all, entry)?;
        add_content(all, office, Side::Outgoing, entry.no)?;
    }
    Ok(())
}

fn add_all_received<O: Office>(all: &mut String, office: &mut O) -> Result<(), OfficeFault> {
    for entry in &office.list_received()? {
        add_received(all, entry)?;
    }
    Ok(())
}

fn add_kept<O: Office>(all: &mut String, office: &mut O) -> Result<(), OfficeFault> {
    add_all_in(all, office)?;
    add_all_out(all, office)?;
    add_all_received(all, office)
}

/// The register as text: the files with their rows, and the received responses.
pub fn kept<O: Office>(alloc: Global, office: &mut O) -> Result<String, OfficeFault> {
    let mut all = String::new(alloc);
    add_kept(&mut all, office)?;
    Ok(all)
}

// Adds some rows of a file.
fn add_part<O: Office>(
    all: &mut String,
    office: &mut O,
    side: Side,
    no: u64,
    part: (u64, u64),
) -> Result<(), OfficeFault> {
    let rows = office.rows_of(side, no, part.0, part.1)?;
    Ok(add_rows(all, &rows)?)
}

// Adds the contents of the files with a number.
fn add_contents<O: Office>(all: &mut String, office: &mut O, no: u64) -> Result<(), OfficeFault> {
    for side in SIDES {
        add_content(all, office, side, no)?;
        for part in [(1, 1), (ALL, ALL)] {
            add_part(all, office, side, no, part)?;
        }
    }
    Ok(())
}

// Adds the files with a number.
fn add_entries<O: Office>(all: &mut String, office: &mut O, no: u64) -> Result<(), OfficeFault> {
    if let Some(entry) = office.in_by_no(no)? {
        add_incoming(all, &entry)?;
    }
    if let Some(entry) = office.out_by_no(no)? {
        add_outgoing(all, &entry)?;
    }
    Ok(())
}

// What is told of a number.
fn add_number<O: Office>(all: &mut String, office: &mut O, no: u64) -> Result<(), OfficeFault> {
    add_entries(all, office, no)?;
    add_contents(all, office, no)
}

fn add_truth(all: &mut String, is_so: bool) -> Result<(), AllocError> {
    all.push_str(if is_so { "true " } else { "false " })
}

// Adds the file with an identity, if it exists.
fn add_look<O: Office>(
    all: &mut String,
    office: &mut O,
    side: Side,
    identity: &Identity,
) -> Result<(), OfficeFault> {
    match side {
        Side::Incoming => {
            if let Some(entry) = office.look_in(identity)? {
                add_truth(all, entry.identity.is(identity))?;
                add_incoming(all, &entry)?;
            }
        }
        Side::Outgoing => {
            if let Some(entry) = office.look_out(identity)? {
                add_truth(all, entry.identity.is(identity))?;
                add_outgoing(all, &entry)?;
            }
        }
    }
    Ok(())
}

// Adds the look-ups of a file.
fn add_file<O: Office>(
    all: &mut String,
    office: &mut O,
    identity: &Identity,
) -> Result<(), OfficeFault> {
    add_look(all, office, Side::Incoming, identity)?;
    add_look(all, office, Side::Outgoing, identity)?;
    for kind in KINDS {
        add_truth(all, office.has_received(kind, identity)?)?;
    }
    Ok(())
}

/// The files of a number, without their content.
pub fn files_of_number<O: Office>(
    alloc: Global,
    office: &mut O,
    no: u64,
) -> Result<String, OfficeFault> {
    let mut all = String::new(alloc);
    add_entries(&mut all, office, no)?;
    Ok(all)
}

/// All that is told of a letter's file.
pub fn told_of_file<O: Office>(
    alloc: Global,
    office: &mut O,
    dataset: &'static [u8],
) -> Result<String, OfficeFault> {
    let mut all = String::new(alloc);
    add_file(&mut all, office, &identity(dataset)?)?;
    Ok(all)
}

fn add_item(all: &mut String, item: Option<Item>) -> Result<(), AllocError> {
    match &item {
        Some(Item::Response(entry)) => add_issued(all, entry),
        Some(Item::File(entry)) => add_outgoing(all, entry),
        None => all.push_str("nothing; "),
    }
}

// Adds the next items for a partner.
fn add_next<O: Office>(
    all: &mut String,
    office: &mut O,
    partner: &Name<25>,
) -> Result<(), OfficeFault> {
    for (response, file, files) in [
        (0, 0, true),
        (1, 0, true),
        (2, 1, true),
        (2, 0, false),
        (BEYOND, 0, true),
        (BEYOND, BEYOND, true),
    ] {
        let item = office.next_item(partner, Cursor { response, file }, files)?;
        add_item(all, item)?;
    }
    Ok(())
}

fn add_all_issued<O: Office>(all: &mut String, office: &mut O) -> Result<(), OfficeFault> {
    for entry in &office.list_issued()? {
        add_issued(all, entry)?;
    }
    Ok(())
}

fn add_all_answered<O: Office>(all: &mut String, office: &mut O) -> Result<(), OfficeFault> {
    for entry in &office.list_answered()? {
        add_answered(all, entry)?;
    }
    Ok(())
}

/// The received responses, each with the file that it answers, by their numbers.
pub fn answered<O: Office>(alloc: Global, office: &mut O) -> Result<String, OfficeFault> {
    let mut all = String::new(alloc);
    add_all_answered(&mut all, office)?;
    Ok(all)
}

fn add_numbers<O: Office>(all: &mut String, office: &mut O) -> Result<(), OfficeFault> {
    for no in 0..office.limits().files + 2 {
        add_number(all, office, no)?;
    }
    add_number(all, office, BEYOND)
}

fn add_files<O: Office>(all: &mut String, office: &mut O) -> Result<(), OfficeFault> {
    for dataset in DATASETS {
        add_file(all, office, &identity(dataset)?)?;
    }
    Ok(())
}

fn add_all_next<O: Office>(all: &mut String, office: &mut O) -> Result<(), OfficeFault> {
    for partner in [b"O1", b"O2", b"O3"] {
        add_next(all, office, &code(partner)?)?;
    }
    Ok(())
}

fn add_limits<O: Office>(all: &mut String, office: &mut O) -> Result<(), OfficeFault> {
    for side in SIDES {
        add_truth(all, office.files_full(side)?)?;
    }
    let Limits { files, octets } = office.limits();
    write!(all, "{files} files of {octets}")?;
    Ok(())
}

fn add_responses<O: Office>(all: &mut String, office: &mut O) -> Result<(), OfficeFault> {
    add_all_issued(all, office)?;
    add_all_answered(all, office)
}

// Adds what is told of numbers, of letters and of partners.
fn add_looks<O: Office>(all: &mut String, office: &mut O) -> Result<(), OfficeFault> {
    add_numbers(all, office)?;
    add_files(all, office)?;
    add_all_next(all, office)
}

/// The results of all look-ups.
pub fn told<O: Office>(alloc: Global, office: &mut O) -> Result<String, OfficeFault> {
    let mut all = kept(alloc, office)?;
    add_responses(&mut all, office)?;
    add_looks(&mut all, office)?;
    add_limits(&mut all, office)?;
    Ok(all)
}
