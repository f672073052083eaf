//! Queries over the office's tables.

ghost use Rattle.std.specs.Prelude.{◌≡◌, ◌↔◌, ◌<◌, ◌^◌, pos, IfErr, IfOk};
ghost use Rattle.sqlite.specs.Held.{state};
ghost use Rattle.sqlite.specs.Given.{IsPlain};
ghost use Rattle.sqlite.specs.Listing.{understood};
ghost use Rattle.sqlite.specs.Values.{bound};
ghost use Rattle.sqlite.specs.State.{FailsToQuery, HasCleanDisk, Shown};
ghost use Rattle.oftp_register.specs.Offices.{IsFailure};
ghost use Rattle.oftp_tables.specs.Schema.{office_schema};
ghost use Rattle.oftp_tables.specs.Statements.{IsFaultOf, Looks};

use oftp_register::OfficeFault;
use sqlite::types::ValueRef;
use sqlite::{Alter, Connection, Error, ErrorCode, Row};

/// A number below 2^63 as an integer of the database.
pub fn number(no: u64) -> i64
    requires { no < 2 ^ 63 }
    ensures { result ≡ pos no }
{
    no as i64
}

/// The office's error for an error of the store: [`OfficeFault::Memory`] where memory ran out, and [`OfficeFault::Store`] for all others.
pub fn office_fault_of(error: Error) -> OfficeFault
    ensures fails { IsFailure result }
    ensures memory { (result ≡ OfficeFault.Memory) ↔ (error ≡ Error.SqliteFailure ErrorCode.OutOfMemory) }
{
    match error {
        Error::SqliteFailure(ErrorCode::OutOfMemory) => OfficeFault::Memory,
        _ => OfficeFault::Store,
    }
}

/// Runs a query over the office's tables, with values for its parameters. All rows of the result are in memory.
///
/// # Errors
///
/// That of the query, as [`office_fault_of`] gives it. A query that only reads leaves the tables as they are, except that an open
/// transaction may be undone.
pub fn ask<S: Alter>(
    conn: &mut Connection<S>,
    sql: &str,
    params: &[ValueRef<'_>],
) -> Result<Vec<Row>, OfficeFault>
    ensures looks { IsPlain (understood office_schema sql.now) → Looks (state S.Store conn.old) (state S.Store conn.new) result }
    ensures shown { HasCleanDisk (state S.Store conn.new) → IfOk result (λ rows. Shown sql.now (bound params.now) (state S.Store conn.old) (state S.Store conn.new) rows.items) }
    ensures error { HasCleanDisk (state S.Store conn.new) → IfErr result (IsFaultOf (FailsToQuery sql.now (bound params.now) (state S.Store conn.old) (state S.Store conn.new))) }
{
    match conn.query_all(sql, params) {
        Ok(rows) => Ok(rows),
        Err(error) => Err(office_fault_of(error)),
    }
}
