//! The received responses, as a page lists them.

ghost use Rattle.std.specs.Prelude.{◌≡◌, [], Some, IfOk, IfErr};
ghost use Rattle.oftp_register.specs.LookUps.{list_received, received_entry};
ghost use Rattle.oftp_register.specs.Offices.{IsFailure};
ghost use Rattle.oftp_tables.specs.Tables.{TellsValues};
ghost use Rattle.oftp_store.specs.Reads.{all_listed, paged_note, paged_received, paged_received_number, received_entry_of, received_header_in, received_note_in, received_note_values, received_values};
ghost use Rattle.oftp_store.specs.Causes.{Fits, HasNote, HasReceivedHeader, HasTexts, PageReceived};
ghost use Rattle.oftp_store.specs.declared.queries.received.ReceivedHeader.{ReceivedHeader};
ghost use Rattle.oftp_store.specs.declared.queries.received.ReceivedNote.{ReceivedNote};

use super::last_number::Table;
use super::lists::Listed;
use oftp_register::{
    Identity, Name, Note, OfficeFault, ReceivedEntry, ReceivedResponse, ResponseKind,
};
use oftp_tables::{identity_at, kind_at, name_at, reason_at, text_at};
use oftp_wire::{Count, Text, X};
use sqlite::{Alter, Connection, Row};
use std::alloc::Global;

/// A received response without its texts.
#[derive(Drop)]
pub(crate) struct ReceivedHeader {
    pub kind: ResponseKind,
    pub identity: Identity,
    pub reason: Count<2>,
}

/// The texts of a received response.
#[derive(Drop)]
pub(crate) struct ReceivedNote {
    pub creator: Name<25>,
    pub text: Note,
}

// Reads a response without its texts from a row of a page. Values that no response could have are an error of the store.
fn header_in(row: &Row) -> Result<ReceivedHeader, OfficeFault>
    ensures told { IfOk result (λ header. header ≡ received_header_in row.now) }
    ensures fits { IfOk result (λ header. TellsValues (received_values header) 0 row.now) }
    ensures unfit { IfErr result (λ _. (header : ReceivedHeader) → ¬ HasReceivedHeader header row.now) }
    ensures fails { IfErr result IsFailure }
{
    let kind = kind_at(row, 0).ok_or(OfficeFault::Store)?;
    let identity = identity_at(row, 1).ok_or(OfficeFault::Store)?;
    let reason = reason_at(row, 6, kind).ok_or(OfficeFault::Store)?;
    Ok(ReceivedHeader {
        kind,
        identity,
        reason,
    })
}

// Reads the texts of a Negative End Response from a row of a page. One without texts is an error of the store.
fn note_in(alloc: Global, row: &Row) -> Result<ReceivedNote, OfficeFault>
    ensures told { IfOk result (λ note. note ≡ received_note_in row.now) }
    ensures fits { IfOk result (λ note. TellsValues (received_note_values note) 7 row.now) }
    ensures unfit { IfErr result (λ fault. fault ≡ OfficeFault.Store → (note : ReceivedNote) → ¬ HasNote note row.now) }
    ensures fails { IfErr result IsFailure }
{
    let creator = name_at(row, 7).ok_or(OfficeFault::Store)?;
    let text = text_at(alloc, row, 8)?;
    Ok(ReceivedNote { creator, text })
}

// The texts of an End-to-End Response, which are empty.
fn empty_note(alloc: Global) -> Result<ReceivedNote, OfficeFault>
    ensures told { IfOk result (λ note. note ≡ record { creator = []; text = [] }) }
    ensures memory { IfErr result (λ fault. fault ≡ OfficeFault.Memory) }
    ensures fails { IfErr result IsFailure }
{
    let (Some(creator), Some(text)) = (X::new(b""), Text::new("")) else {
        return Err(OfficeFault::Store);
    };
    Ok(ReceivedNote {
        creator: Name::of(&creator),
        text: Note::of(alloc, &text)?,
    })
}

// The texts in a row of a page, for a response of a kind.
fn texts_in(alloc: Global, row: &Row, kind: ResponseKind) -> Result<ReceivedNote, OfficeFault>
    ensures told { IfOk result (λ note. note ≡ paged_note kind row.now) }
    ensures unfit { IfErr result (λ fault. fault ≡ OfficeFault.Store → ¬ HasTexts kind row.now) }
    ensures fails { IfErr result IsFailure }
{
    match kind {
        ResponseKind::EndResponse => empty_note(alloc),
        ResponseKind::NegativeEndResponse => note_in(alloc, row),
    }
}

// The entry of a received response.
fn entry_of(no: u64, header: ReceivedHeader, note: ReceivedNote) -> ReceivedEntry
    ensures { result ≡ received_entry_of no header note }
{
    ReceivedEntry {
        no,
        response: ReceivedResponse {
            kind: header.kind,
            identity: header.identity,
            reason: header.reason,
            creator: note.creator,
            text: note.text,
        },
    }
}

// The response in a row of a page, with its number.
fn received_in(alloc: Global, row: &Row, no: u64) -> Result<Option<ReceivedEntry>, OfficeFault>
    ensures told { IfOk result (λ found. no ≡ paged_received_number row.now → found ≡ Some (paged_received row.now)) }
    ensures unfit { IfErr result (λ fault. fault ≡ OfficeFault.Store → ¬ Fits PageReceived row.now) }
    ensures fails { IfErr result IsFailure }
{
    let header = header_in(row)?;
    let note = texts_in(alloc, row, header.kind)?;
    Ok(Some(entry_of(no, header, note)))
}

impl Listed for ReceivedEntry {
    ghost asked = { PageReceived };

    ghost items = { λ r. all_listed received_entry r.received };

    ghost entries = { list_received };

    ghost told = { λ r row. Some (paged_received row) };

    const NUMBER: usize = 9;

    ghost NUMBER = { 9 };

    fn table() -> Table {
        Table::ReceivedResponses
    }

    fn page_text() -> &'static str {
        "SELECT kind, dataset, date, time, originator, destination, reason, creator, note, received.no \
            FROM received LEFT JOIN received_note ON received_note.no = received.no WHERE received.no > ?1 ORDER BY received.no LIMIT ?2"
    }

    fn from_page<S: Alter>(
        alloc: Global,
        _conn: &mut Connection<S>,
        row: &Row,
        no: u64,
    ) -> Result<Option<ReceivedEntry>, OfficeFault> {
        received_in(alloc, row, no)
    }
}
