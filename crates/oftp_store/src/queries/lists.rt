//! Lists of all entries of a kind, which are read by pages of their table.

ghost use Rattle.std.specs.Prelude.{◌≡◌, ◌+◌, ◌<◌, ◌≤◌, ◌^◌, ◌++◌, ℕ, List, [], ◌∷◌, Option, Some, length, map, take, drop, slice_get, IfErr, IfOk, IsTrue, OnOk};
ghost use Rattle.std.specs.List.{filter_map};
ghost use Rattle.sqlite.specs.declared.types.Value.{Value};
ghost use Rattle.sqlite.specs.declared.types.Value.TheVariants as value;
ghost use Rattle.sqlite.specs.Order.{column};
ghost use Rattle.sqlite.specs.Held.{state};
ghost use Rattle.sqlite.specs.State.{HasCleanDisk, Shown};
ghost use Rattle.oftp_register.specs.Register.{Register};
ghost use Rattle.oftp_register.specs.LookUps.{entry_at};
ghost use Rattle.oftp_register.specs.Offices.{IsFailure};
ghost use Rattle.oftp_tables.specs.Tables.{number_in, number_value};
ghost use Rattle.oftp_store.specs.Numbers.{entries_in};
ghost use Rattle.oftp_store.specs.Reads.{numbers_of};
ghost use Rattle.oftp_store.specs.Tells.{FindsPages, LooksAtMost, OnlyLooks, Tells, listed};
ghost use Rattle.oftp_store.specs.Texts.{IsPlainText};
ghost use Rattle.oftp_store.specs.Causes.{HasCause, HasCauseWhere, HasRowCause, Query, sql_of, values_of};
ghost use Rattle.oftp_store.specs.declared.queries.lists.TheConstants.{PAGE};

use super::last_number::{FIRST_FAR, Table, last_number};
use oftp_register::OfficeFault;
use oftp_tables::{ask, no_at, number};
use sqlite::types::ValueRef;
use sqlite::{Alter, Connection, Row, params};
use std::alloc::Global;

/// How many entries are asked for at a time.
pub(crate) const PAGE: u64 = 128;

/// A kind of entry, listed from a table whose entries are numbered from 1 on without gaps. An entry of the table may have none.
pub(crate) trait Listed: Sized {
    // the query of a page
    ghost asked: { Query };

    // what each entry of the table has
    ghost items: { Register → List (Option Self) };

    // all entries of this kind
    ghost entries: { Register → List Self };

    // what a row of a page is read as, with the rows that its file has in a register
    ghost told: { Register → List Value → Option Self };

    /// The column of a page that has the number of the entry.
    const NUMBER: usize;

    ghost NUMBER: { ℕ };

    /// The table.
    fn table() -> Table
        ensures count { (r : Register) → entries_in r result ≡ length (items r) }
        ensures entries { (r : Register) → filter_map (λ item. item) (items r) ≡ entries r };

    /// The SQL that selects a page of the table behind a number, with a row for each entry.
    fn page_text() -> &'static str
        ensures finds { FindsPages result.now told items }
        ensures numbers { FindsPages result.now (λ _ row. number_in (column row NUMBER)) (λ r. numbers_of (items r)) }
        ensures asked { result.now ≡ sql_of asked }
        ensures given { values_of asked ≡ 2 };

    /// Reads a row of a page, of the entry with a number. A row that no entry could have is an error of the store.
    fn from_page<S: Alter>(
        alloc: Global,
        conn: &mut Connection<S>,
        row: &Row,
        no: u64,
    ) -> Result<Option<Self>, OfficeFault>
        requires { no < 2 ^ 63 }
        ensures looks { LooksAtMost S.Store conn.old conn.new result }
        ensures answer { Tells S.Store (λ r found. no ≡ number_in (column row.now NUMBER) → found ≡ told r row.now) conn.old conn.new result }
        ensures told { no ≡ number_in (column row.now NUMBER)
            → IfErr result (HasRowCause S.Store asked (λ r. entry_at no (items r) ≡ Some (told r row.now)) row.now conn.old conn.new) };
}

/// Whether a row has NULL in a column.
pub(super) fn is_null(row: &Row, at: usize) -> bool
    ensures null { IsTrue result → column row.now at ≡ value.Null }
    ensures found { slice_get row.now at ≡ Some value.Null → IsTrue result }
{
    match row.get_ref(at) {
        Ok(value) => matches!(value, ValueRef::Null),
        Err(_) => false,
    }
}

// The number in a column of a row, which is the one after `last`. Entries are numbered without gaps, so any other is an error of the
// store.
fn next_no(row: &Row, at: usize, last: u64) -> Result<u64, OfficeFault>
    ensures told { IfOk result (λ no. no ≡ number_in (column row.now at)) }
    ensures next { IfOk result (λ no. no ≡ last + 1) }
    ensures small { IfOk result (λ no. no < 2 ^ 63) }
    ensures unfit { IfErr result (λ _. column row.now at ≡ number_value (last + 1) → 2 ^ 63 ≤ last + 1) }
    ensures fails { IfErr result IsFailure }
{
    match no_at(row, at) {
        Some(no) if no < FIRST_FAR && no > last && no - last == 1 => Ok(no),
        _ => Err(OfficeFault::Store),
    }
}

// Appends an entry, if there is one.
fn add_if_any<E: Drop>(entries: &mut Vec<E>, found: Option<E>) -> Result<(), OfficeFault>
    ensures added { OnOk result (entries.new.items ≡ entries.old.items ++ listed found) }
    ensures memory { IfErr result (λ fault. fault ≡ OfficeFault.Memory) }
    ensures fails { IfErr result IsFailure }
{
    if let Some(entry) = found {
        entries.push(entry)?;
    }
    Ok(())
}

// A page of the table behind a number, with a row for each entry.
fn find_page<E: Listed, S: Alter>(
    conn: &mut Connection<S>,
    behind: u64,
) -> Result<Vec<Row>, OfficeFault>
    requires { behind < 2 ^ 63 }
    ensures looks { OnlyLooks S.Store conn.old conn.new result }
    ensures answer { Tells S.Store (λ r rows. map (E.told r) rows.items ≡ take PAGE (drop behind (E.items r))) conn.old conn.new result }
    ensures numbers { Tells S.Store (λ r rows. map (λ row. number_in (column row E.NUMBER)) rows.items ≡ take PAGE (drop behind (numbers_of (E.items r)))) conn.old conn.new result }
    ensures shown { HasCleanDisk (state S.Store conn.new)
        → IfOk result (λ rows. Shown (sql_of E.asked) (number_value behind ∷ number_value PAGE ∷ []) (state S.Store conn.old) (state S.Store conn.new) rows.items) }
    ensures plain { IsPlainText (sql_of E.asked) }
    ensures given { values_of E.asked ≡ 2 }
    ensures told { IfErr result (HasCause S.Store conn.old conn.new) }
{
    ask(conn, E::page_text(), params![number(behind), number(PAGE)])
}

// Appends the entries of a page behind a number.
fn add_page<E: Listed + Drop, S: Alter>(
    alloc: Global,
    conn: &mut Connection<S>,
    behind: u64,
    entries: &mut Vec<E>,
) -> Result<(), OfficeFault>
    requires { behind < 2 ^ 63 }
    ensures looks { OnlyLooks S.Store conn.old conn.new result }
    ensures answer { Tells S.Store (λ r _. entries.new.items ≡ entries.old.items ++ filter_map (λ item. item) (take PAGE (drop behind (E.items r)))) conn.old conn.new result }
    ensures told { IfErr result (HasCauseWhere S.Store (λ r. length (E.items r) < 2 ^ 63) conn.old conn.new) }
{
    let rows = find_page::<E, S>(conn, behind)?;
    let mut last = behind;
    'rows: for row in rows.as_slice() {
        let no = next_no(row, E::NUMBER, last)?;
        let found = E::from_page(alloc, conn, row, no)?;
        add_if_any(entries, found)?;
        last = no;
    }
    Ok(())
}

/// All entries of a kind, in order of number.
pub(crate) fn list<E: Listed + Drop, S: Alter>(
    alloc: Global,
    conn: &mut Connection<S>,
) -> Result<Vec<E>, OfficeFault>
    ensures looks { OnlyLooks S.Store conn.old conn.new result }
    ensures answer { Tells S.Store (λ r entries. entries.items ≡ E.entries r) conn.old conn.new result }
    ensures told { IfErr result (HasCause S.Store conn.old conn.new) }
{
    let last = last_number(conn, E::table())?;
    let mut entries = Vec::new(alloc);
    'pages: for page in 0..last / PAGE + 1 {
        add_page(alloc, conn, page * PAGE, &mut entries)?;
    }
    Ok(entries)
}
