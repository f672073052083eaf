//! The incoming files and the responses to them, as a page lists them.

ghost use Rattle.std.specs.Prelude.{◌≡◌, Some, IfErr, IfOk};
ghost use Rattle.oftp_register.specs.LookUps.{incoming_entry, issued_entry, list_in, list_issued, numbered};
ghost use Rattle.oftp_register.specs.Offices.{IsFailure};
ghost use Rattle.oftp_store.specs.Reads.{all_listed, paged_entry, paged_file, paged_issued, paged_number, paged_response};
ghost use Rattle.oftp_store.specs.Texts.{in_page_text};
ghost use Rattle.oftp_store.specs.Causes.{Fits, HasAnswer, PageIn};

use super::by_number::ByNumber;
use super::file_by_number::incoming_of;
use super::header::IncomingHeader;
use super::issued::issued_of;
use super::last_number::Table;
use super::lists::{Listed, is_null};
use super::response::response_at;
use super::rows::count_rows;
use oftp_register::{IncomingEntry, IssuedEntry, IssuedResponse, OfficeFault, Side};
use sqlite::{Alter, Connection, Row};
use std::alloc::Global;

// The SQL that selects a page of the files behind a number, each with its response.
fn in_page_text() -> &'static str
    ensures { result.now ≡ in_page_text }
{
    "SELECT dataset, date, time, originator, destination, format, longest, description, state, kind, reason, note, sent, in_file.no \
        FROM in_file LEFT JOIN issued ON issued.no = in_file.no WHERE in_file.no > ?1 ORDER BY in_file.no LIMIT ?2"
}

// The response in a row of a page, if there is one.
fn response_in(alloc: Global, row: &Row) -> Result<Option<IssuedResponse>, OfficeFault>
    ensures told { IfOk result (λ response. response ≡ paged_response row.now) }
    ensures unfit { IfErr result (λ fault. fault ≡ OfficeFault.Store → ¬ HasAnswer 9 row.now) }
    ensures fails { IfErr result IsFailure }
{
    if is_null(row, 9) {
        return Ok(None);
    }
    Ok(Some(response_at(alloc, row, 9)?))
}

// The file in a row of a page, with its number and so many rows.
fn file_in(
    alloc: Global,
    row: &Row,
    no: u64,
    rows: u32,
) -> Result<Option<IncomingEntry>, OfficeFault>
    ensures told { IfOk result (λ found. no ≡ paged_number row.now → found ≡ Some (paged_file row.now rows)) }
    ensures unfit { IfErr result (λ fault. fault ≡ OfficeFault.Store → ¬ Fits PageIn row.now) }
    ensures fails { IfErr result IsFailure }
{
    let header = IncomingHeader::from_row(alloc, row)?;
    let response = response_in(alloc, row)?;
    Ok(Some(incoming_of(no, header, rows, response)))
}

// The response in a row of a page, if there is one, with the number and the identity of its file.
fn issued_in(alloc: Global, row: &Row, no: u64) -> Result<Option<IssuedEntry>, OfficeFault>
    ensures told { IfOk result (λ found. no ≡ paged_number row.now → found ≡ paged_issued row.now) }
    ensures unfit { IfErr result (λ fault. fault ≡ OfficeFault.Store → ¬ Fits PageIn row.now) }
    ensures fails { IfErr result IsFailure }
{
    let Some(response) = response_in(alloc, row)? else {
        return Ok(None);
    };
    let header = IncomingHeader::from_row(alloc, row)?;
    Ok(Some(issued_of(no, header, response)))
}

// One statement more counts the rows of each file.
impl Listed for IncomingEntry {
    ghost asked = { PageIn };

    ghost items = { λ r. all_listed incoming_entry r.incoming };

    ghost entries = { list_in };

    ghost told = { λ r row. Some (paged_entry r row) };

    const NUMBER: usize = 13;

    ghost NUMBER = { 13 };

    fn table() -> Table {
        Table::IncomingFiles
    }

    fn page_text() -> &'static str {
        in_page_text()
    }

    fn from_page<S: Alter>(
        alloc: Global,
        conn: &mut Connection<S>,
        row: &Row,
        no: u64,
    ) -> Result<Option<IncomingEntry>, OfficeFault> {
        let rows = count_rows(conn, Side::Incoming, no)?;
        file_in(alloc, row, no, rows)
    }
}

impl Listed for IssuedEntry {
    ghost asked = { PageIn };

    ghost items = { λ r. numbered issued_entry 1 r.incoming };

    ghost entries = { list_issued };

    ghost told = { λ r row. paged_issued row };

    const NUMBER: usize = 13;

    ghost NUMBER = { 13 };

    fn table() -> Table {
        Table::IncomingFiles
    }

    fn page_text() -> &'static str {
        in_page_text()
    }

    fn from_page<S: Alter>(
        alloc: Global,
        _conn: &mut Connection<S>,
        row: &Row,
        no: u64,
    ) -> Result<Option<IssuedEntry>, OfficeFault> {
        issued_in(alloc, row, no)
    }
}
