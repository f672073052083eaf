//! The headers of files, which is what their tables hold besides the rows.

ghost use Rattle.std.specs.Prelude.{◌≡◌, ◌<◌, ◌^◌, ℕ, IfOk, IfSome, IfErr, IsSome};
ghost use Rattle.oftp_register.specs.declared.entry.OutgoingState.{OutgoingState};
ghost use Rattle.oftp_register.specs.Offices.{IsFailure};
ghost use Rattle.oftp_tables.specs.Tables.{HasRefusal, TellsValues};
ghost use Rattle.oftp_store.specs.Reads.{IsFileWithin, IsToldOf, file_header_in, file_values, incoming_header_in, incoming_header_of, incoming_values, outgoing_header_in, outgoing_header_of, outgoing_values, mark_and_state_values};
ghost use Rattle.oftp_store.specs.Causes.{HasFile, HeaderIn, HeaderOut};
ghost use Rattle.oftp_store.specs.declared.queries.header.FileHeader.{FileHeader};

use super::by_number::ByNumber;
use oftp_register::{Identity, IncomingState, Note, OfficeFault, OutgoingState};
use oftp_tables::{
    format_at, identity_at, incoming_state_at, number_at, outgoing_state_at, text_at,
};
use oftp_vfile::Format;
use sqlite::Row;
use std::alloc::Global;

/// The columns that the tables of incoming and of outgoing files share.
#[derive(Drop)]
pub(crate) struct FileHeader {
    pub identity: Identity,
    pub format: Format,
    pub longest: u32,
    pub description: Note,
}

/// An incoming file without its rows and its response.
#[derive(Drop)]
pub(crate) struct IncomingHeader {
    pub file: FileHeader,
    pub state: IncomingState,
}

/// An outgoing file without its rows.
#[derive(Drop)]
pub(crate) struct OutgoingHeader {
    pub file: FileHeader,
    pub mark: u32,
    pub state: OutgoingState,
}

// Reads these columns from the first columns of a row. Values that no file could have are an error of the store.
fn file_header_in(alloc: Global, row: &Row) -> Result<FileHeader, OfficeFault>
    ensures told { IfOk result (λ header. header ≡ file_header_in row.now) }
    ensures fits { IfOk result (λ header. TellsValues (file_values header) 0 row.now) }
    ensures within { IfOk result IsFileWithin }
    ensures unfit { IfErr result (λ fault. fault ≡ OfficeFault.Store → (header : FileHeader) → ¬ HasFile header row.now) }
    ensures fails { IfErr result IsFailure }
{
    let identity = identity_at(row, 0).ok_or(OfficeFault::Store)?;
    let format = format_at(row, 5).ok_or(OfficeFault::Store)?;
    let longest = number_at(row, 6).ok_or(OfficeFault::Store)?;
    if !format.allows_longest(longest) {
        return Err(OfficeFault::Store);
    }
    let description = text_at(alloc, row, 7)?;
    Ok(FileHeader {
        identity,
        format,
        longest,
        description,
    })
}

// Reads the mark and the state of an outgoing file from a row.
fn mark_and_state_in(row: &Row) -> Option<(u32, OutgoingState)>
    ensures told { IfSome result (λ shown. (shown.0 ≡ (outgoing_header_in row.now).mark) × (shown.1 ≡ (outgoing_header_in row.now).state)) }
    ensures fits { IfSome result (λ shown. TellsValues (mark_and_state_values shown.0 shown.1) 8 row.now) }
    ensures found { (mark : ℕ) (state : OutgoingState) → mark < 2 ^ 32 → HasRefusal state → TellsValues (mark_and_state_values mark state) 8 row.now → IsSome result }
{
    match (number_at(row, 8), outgoing_state_at(row, 9)) {
        (Some(mark), Some(state)) => Some((mark, state)),
        _ => None,
    }
}

impl ByNumber for IncomingHeader {
    ghost asked = { HeaderIn };

    ghost told = { incoming_header_in };

    ghost values = { incoming_values };

    ghost is_within = { λ header. IsFileWithin header.file };

    ghost is_found = { λ r no found. IsToldOf incoming_header_of r.incoming no found };

    fn query() -> &'static str {
        "SELECT dataset, date, time, originator, destination, format, longest, description, state FROM in_file WHERE no = ?1"
    }

    fn from_row(alloc: Global, row: &Row) -> Result<IncomingHeader, OfficeFault> {
        let state = incoming_state_at(row, 8).ok_or(OfficeFault::Store)?;
        let file = file_header_in(alloc, row)?;
        Ok(IncomingHeader { file, state })
    }
}

impl ByNumber for OutgoingHeader {
    ghost asked = { HeaderOut };

    ghost told = { outgoing_header_in };

    ghost values = { outgoing_values };

    ghost is_within = { λ header. IsFileWithin header.file };

    ghost is_found = { λ r no found. IsToldOf outgoing_header_of r.outgoing no found };

    fn query() -> &'static str {
        "SELECT dataset, date, time, originator, destination, format, longest, description, mark, state, reason FROM out_file WHERE no = ?1"
    }

    fn from_row(alloc: Global, row: &Row) -> Result<OutgoingHeader, OfficeFault> {
        let (mark, state) = mark_and_state_in(row).ok_or(OfficeFault::Store)?;
        let file = file_header_in(alloc, row)?;
        Ok(OutgoingHeader { file, mark, state })
    }
}
