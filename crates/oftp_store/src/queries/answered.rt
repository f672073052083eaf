//! The files that the received responses answer, as a page lists them.

ghost use Rattle.std.specs.Prelude.{◌≡◌, Some, IfErr, IfOk};
ghost use Rattle.oftp_register.specs.LookUps.{answered_entry, list_answered};
ghost use Rattle.oftp_register.specs.Offices.{IsFailure};
ghost use Rattle.oftp_store.specs.Reads.{all_listed, paged_answered, paged_answered_file, paged_answered_number};
ghost use Rattle.oftp_store.specs.Causes.{HasAnswered, PageAnswered};

use super::last_number::Table;
use super::lists::{Listed, is_null};
use oftp_register::{AnsweredEntry, OfficeFault};
use oftp_tables::no_at;
use sqlite::{Alter, Connection, Row};
use std::alloc::Global;

// The number of the file in a row of a page, if there is one. A value that is no number is an error of the store.
fn file_no_in(row: &Row) -> Result<Option<u64>, OfficeFault>
    ensures told { IfOk result (λ file. file ≡ paged_answered_file row.now) }
    ensures unfit { IfErr result (λ _. ¬ HasAnswered row.now) }
    ensures fails { IfErr result IsFailure }
{
    if is_null(row, 1) {
        return Ok(None);
    }
    Ok(Some(no_at(row, 1).ok_or(OfficeFault::Store)?))
}

// The response in a row of a page, with its number and that of its file.
fn answered_in(row: &Row, no: u64) -> Result<Option<AnsweredEntry>, OfficeFault>
    ensures told { IfOk result (λ found. no ≡ paged_answered_number row.now → found ≡ Some (paged_answered row.now)) }
    ensures unfit { IfErr result (λ _. ¬ HasAnswered row.now) }
    ensures fails { IfErr result IsFailure }
{
    let file = file_no_in(row)?;
    Ok(Some(AnsweredEntry { no, file }))
}

impl Listed for AnsweredEntry {
    ghost asked = { PageAnswered };

    ghost items = { λ r. all_listed (answered_entry r) r.received };

    ghost entries = { list_answered };

    ghost told = { λ r row. Some (paged_answered row) };

    const NUMBER: usize = 0;

    ghost NUMBER = { 0 };

    fn table() -> Table {
        Table::ReceivedResponses
    }

    fn page_text() -> &'static str {
        "SELECT received.no, out_file.no FROM received LEFT JOIN out_file ON out_file.dataset = received.dataset AND out_file.date = received.date \
            AND out_file.time = received.time AND out_file.originator = received.originator AND out_file.destination = received.destination \
            WHERE received.no > ?1 ORDER BY received.no LIMIT ?2"
    }

    fn from_page<S: Alter>(
        _alloc: Global,
        _conn: &mut Connection<S>,
        row: &Row,
        no: u64,
    ) -> Result<Option<AnsweredEntry>, OfficeFault> {
        answered_in(row, no)
    }
}
