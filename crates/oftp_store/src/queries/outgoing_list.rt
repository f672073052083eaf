//! The outgoing files, as a page lists them.

ghost use Rattle.std.specs.Prelude.{◌≡◌, ◌≤◌, ◌<◌, Some, IfErr, IfOk, IfSome};
ghost use Rattle.oftp_register.specs.LookUps.{list_out, outgoing_entry};
ghost use Rattle.oftp_register.specs.Offices.{IsFailure};
ghost use Rattle.oftp_store.specs.Reads.{all_listed, outgoing_header_in, paged_out_entry, paged_out_file, paged_out_number};
ghost use Rattle.oftp_store.specs.Causes.{Fits, PageOut};

use super::by_number::ByNumber;
use super::file_by_number::outgoing_of;
use super::header::OutgoingHeader;
use super::last_number::Table;
use super::lists::Listed;
use super::rows::count_rows;
use oftp_register::{OfficeFault, OutgoingEntry, Side};
use sqlite::{Alter, Connection, Row};
use std::alloc::Global;

// The file in a row of a page, with its number and so many rows. A mark that exceeds them is an error of the store.
fn file_in(
    alloc: Global,
    row: &Row,
    no: u64,
    rows: u32,
) -> Result<Option<OutgoingEntry>, OfficeFault>
    ensures told { IfOk result (λ found. no ≡ paged_out_number row.now → found ≡ Some (paged_out_file row.now rows)) }
    ensures mark { IfOk result (λ found. IfSome found (λ entry. entry.mark ≤ entry.rows)) }
    ensures unfit { IfErr result (λ fault. fault ≡ OfficeFault.Store → Fits PageOut row.now → rows < (outgoing_header_in row.now).mark) }
    ensures fails { IfErr result IsFailure }
{
    let header = OutgoingHeader::from_row(alloc, row)?;
    let entry = outgoing_of(no, header, rows)?;
    Ok(Some(entry))
}

// One statement more counts the rows of each file.
impl Listed for OutgoingEntry {
    ghost asked = { PageOut };

    ghost items = { λ r. all_listed outgoing_entry r.outgoing };

    ghost entries = { list_out };

    ghost told = { λ r row. Some (paged_out_entry r row) };

    const NUMBER: usize = 11;

    ghost NUMBER = { 11 };

    fn table() -> Table {
        Table::OutgoingFiles
    }

    fn page_text() -> &'static str {
        "SELECT dataset, date, time, originator, destination, format, longest, description, mark, state, reason, no FROM out_file WHERE no > ?1 ORDER BY no LIMIT ?2"
    }

    fn from_page<S: Alter>(
        alloc: Global,
        conn: &mut Connection<S>,
        row: &Row,
        no: u64,
    ) -> Result<Option<OutgoingEntry>, OfficeFault> {
        let rows = count_rows(conn, Side::Outgoing, no)?;
        file_in(alloc, row, no, rows)
    }
}
