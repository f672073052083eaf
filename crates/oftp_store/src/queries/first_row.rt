//! Queries of which only the first row is used.

ghost use Rattle.std.specs.Prelude.{◌≡◌, ◌<◌, ◌^◌, IfOk, IfSome, IfErr, OnErr, ⊤};
ghost use Rattle.sqlite.specs.Values.{bound};
ghost use Rattle.sqlite.specs.Order.{column};
ghost use Rattle.oftp_register.specs.Offices.{IsFailure};
ghost use Rattle.oftp_tables.specs.Tables.{number_value};
ghost use Rattle.oftp_store.specs.Numbers.{TellsNo};
ghost use Rattle.oftp_store.specs.Tells.{OnlyLooks, TellsFirst};
ghost use Rattle.oftp_store.specs.Texts.{IsPlainText};
ghost use Rattle.oftp_store.specs.Causes.{HasNumber, HasQueryCause};

use super::last_number::FIRST_FAR;
use oftp_register::OfficeFault;
use oftp_tables::{ask, no_at};
use sqlite::types::ValueRef;
use sqlite::{Alter, Connection, Row};

/// The first row of a query over the office's tables, if there is one.
pub(crate) fn first_row<S: Alter>(
    conn: &mut Connection<S>,
    sql: &str,
    params: &[ValueRef<'_>],
) -> Result<Option<Row>, OfficeFault>
    requires { IsPlainText sql.now }
    ensures looks { OnlyLooks S.Store conn.old conn.new result }
    ensures shown { TellsFirst S.Store sql.now (bound params.now) (λ first row. first ≡ row) conn.old conn.new result }
    ensures told { IfErr result (HasQueryCause S.Store sql.now (bound params.now) (λ _. ⊤) conn.old conn.new) }
{
    let rows = ask(conn, sql, params)?;
    Ok(rows.into_iter().next())
}

// The number in the first column of a row. A value that isn't the number of an entry is an error of the store.
fn number_in(row: &Row) -> Result<u64, OfficeFault>
    ensures told { IfOk result (λ no. column row.now 0 ≡ number_value no) }
    ensures small { IfOk result (λ no. no < 2 ^ 63) }
    ensures unfit { OnErr result (¬ HasNumber row.now) }
    ensures fails { IfErr result IsFailure }
{
    match no_at(row, 0) {
        Some(no) if no < FIRST_FAR => Ok(no),
        _ => Err(OfficeFault::Store),
    }
}

/// The number in the first row of such a query, if there is one. A value that isn't the number of an entry is an error of the store.
pub(crate) fn first_number<S: Alter>(
    conn: &mut Connection<S>,
    sql: &str,
    params: &[ValueRef<'_>],
) -> Result<Option<u64>, OfficeFault>
    requires { IsPlainText sql.now }
    ensures looks { OnlyLooks S.Store conn.old conn.new result }
    ensures shown { TellsFirst S.Store sql.now (bound params.now) TellsNo conn.old conn.new result }
    ensures small { IfOk result (λ found. IfSome found (λ no. no < 2 ^ 63)) }
    ensures told { IfErr result (HasQueryCause S.Store sql.now (bound params.now) HasNumber conn.old conn.new) }
{
    let Some(row) = first_row(conn, sql, params)? else {
        return Ok(None);
    };
    Ok(Some(number_in(&row)?))
}
