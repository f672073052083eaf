//! Queries for the one row that a table has of an entry, by the entry's number.

ghost use Rattle.std.specs.Prelude.{◌≡◌, ◌<◌, ◌^◌, ℕ, List, Option, IfOk, IfErr, IfSome};
ghost use Rattle.sqlite.specs.declared.types.Value.{Value};
ghost use Rattle.oftp_register.specs.Register.{Register};
ghost use Rattle.oftp_register.specs.Offices.{IsFailure};
ghost use Rattle.oftp_tables.specs.Tables.{TellsValues};
ghost use Rattle.oftp_store.specs.Tells.{FindsByNumber, OnlyLooks, TellsStored};
ghost use Rattle.oftp_store.specs.Causes.{Fits, HasCause, Query, sql_of, values_of};

use super::first_row::first_row;
use oftp_register::OfficeFault;
use oftp_tables::number;
use sqlite::{Alter, Connection, Row, params};
use std::alloc::Global;

/// A value that a table stores in one row, under the number of its entry.
pub(crate) trait ByNumber: Sized {
    // the query
    ghost asked: { Query };

    // the value that a row is read as
    ghost told: { List Value → Self };

    // the columns of a value
    ghost values: { Self → List Value };

    // what holds of a value that was read, whatever the register
    ghost is_within: { Self → Type 0 };

    // what is read, compared with the entry with a number in a register
    ghost is_found: { Register → ℕ → Option Self → Type 0 };

    /// The SQL that selects the row with a number.
    fn query() -> &'static str
        ensures finds { FindsByNumber result.now told is_found }
        ensures asked { result.now ≡ sql_of asked }
        ensures given { values_of asked ≡ 1 };

    /// Reads the value from a row. A row that no entry could have is an error of the store.
    fn from_row(alloc: Global, row: &Row) -> Result<Self, OfficeFault>
        ensures told { IfOk result (λ x. x ≡ told row.now) }
        ensures fits { IfOk result (λ x. TellsValues (values x) 0 row.now) }
        ensures within { IfOk result is_within }
        ensures unfit { IfErr result (λ fault. fault ≡ OfficeFault.Store → ¬ Fits asked row.now) }
        ensures fails { IfErr result IsFailure };
}

/// The value of the entry with a number, if there is one.
pub(crate) fn find<T: ByNumber, S: Alter>(
    alloc: Global,
    conn: &mut Connection<S>,
    no: u64,
) -> Result<Option<T>, OfficeFault>
    requires { no < 2 ^ 63 }
    ensures looks { OnlyLooks S.Store conn.old conn.new result }
    ensures answer { TellsStored S.Store (λ r found. T.is_found r no found) conn.old conn.new result }
    ensures within { IfOk result (λ found. IfSome found T.is_within) }
    ensures told { IfErr result (HasCause S.Store conn.old conn.new) }
{
    let Some(row) = first_row(conn, T::query(), params![number(no)])? else {
        return Ok(None);
    };
    Ok(Some(T::from_row(alloc, &row)?))
}
