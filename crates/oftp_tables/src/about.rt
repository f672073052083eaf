//! The table `about`, which has the number of the schema.

ghost use Rattle.std.specs.Prelude.{◌≡◌, ◌≢◌, ◌↔◌, ◌⊎◌, ◌<◌, ◌≤◌, [], false, length, pos, IfErr, IfOk, OnOk, OnErr, IsTrue};
ghost use Rattle.sqlite.specs.declared.types.Value.TheVariants.{Int};
ghost use Rattle.sqlite.specs.Order.{column};
ghost use Rattle.sqlite.specs.Held.{state};
ghost use Rattle.sqlite.specs.Tree.{Trees};
ghost use Rattle.sqlite.specs.View.{doubt};
ghost use Rattle.sqlite.specs.State.{FailsToQuery, HasCleanDisk, IsUnchanged};
ghost use Rattle.oftp_tables.specs.Transactions.{IsSpared, IsStoreFaultOf};
ghost use Rattle.oftp_tables.specs.Making.{HasAbout, IsAsBefore, about_rows, about_text, about_told};

use crate::fault::{StoreFault, store_fault_of};
use sqlite::types::ValueRef;
use sqlite::{Alter, Connection, Error, Row};

// Whether the value at an index of a row is this number.
fn is_number(row: &Row, at: usize, wanted: u32) -> bool
    requires { at < length row.now }
    ensures { IsTrue result ↔ (column row.now at ≡ Int (pos wanted)) }
{
    match row.get_ref(at) {
        Ok(ValueRef::Int(n)) => n == i64::from(wanted),
        _ => false,
    }
}

// Whether the rows of `about` are just the one with id 1 and this schema.
fn tells(rows: &[Row], schema: u32) -> bool
    ensures { IsTrue result ↔ (rows.now ≡ about_rows schema) }
{
    match rows {
        [row] => row.column_count() == 2 && is_number(row, 0, 1) && is_number(row, 1, schema),
        _ => false,
    }
}

// Whether `about` has this schema. The database has schema 1 or 2. An error is that of the query.
fn about_tells<S: Alter>(conn: &mut Connection<S>, schema: u32) -> Result<bool, Error>
    requires has { HasAbout conn.old.schema }
    requires autocommit { conn.old.in_transaction ≡ false }
    ensures mode { conn.new.in_transaction ≡ false }
    ensures clean { doubt (state S.Store conn.old).is_clean ≤ doubt (state S.Store conn.new).is_clean }
    ensures same { HasCleanDisk (state S.Store conn.new) → OnOk result (IsUnchanged (state S.Store conn.old) (state S.Store conn.new)) }
    ensures failed { HasCleanDisk (state S.Store conn.new) → OnErr result (IsSpared (state S.Store conn.old) (state S.Store conn.new)) }
    ensures left { HasCleanDisk (state S.Store conn.new) → (db : Trees) → (state S.Store conn.new).may_leave db → (state S.Store conn.old).may_leave db }
    ensures answer { HasCleanDisk (state S.Store conn.new) → IfOk result (λ right. IsTrue right ↔ (about_told (state S.Store conn.old).now.trees ≡ about_rows schema)) }
    ensures error { HasCleanDisk (state S.Store conn.new) → IfErr result (FailsToQuery about_text [] (state S.Store conn.old) (state S.Store conn.new)) }
{
    let rows = conn.query_all("SELECT id, schema FROM about", &[])?;
    Ok(tells(rows.as_slice(), schema))
}

// Returns `WrongSchema` unless `about` has this schema. The database has schema 1 or 2.
pub(crate) fn expect_schema<S: Alter>(
    conn: &mut Connection<S>,
    schema: u32,
) -> Result<(), StoreFault>
    requires has { HasAbout conn.old.schema }
    requires autocommit { conn.old.in_transaction ≡ false }
    ensures mode { conn.new.in_transaction ≡ false }
    ensures clean { doubt (state S.Store conn.old).is_clean ≤ doubt (state S.Store conn.new).is_clean }
    ensures same { HasCleanDisk (state S.Store conn.new) → OnOk result (IsUnchanged (state S.Store conn.old) (state S.Store conn.new)) }
    ensures known { HasCleanDisk (state S.Store conn.new) → OnOk result (about_told (state S.Store conn.old).now.trees ≡ about_rows schema) }
    ensures wrong { HasCleanDisk (state S.Store conn.new) → IfErr result (λ fault. fault ≡ StoreFault.WrongSchema
        → (about_told (state S.Store conn.old).now.trees ≢ about_rows schema) × IsAsBefore (state S.Store conn.old) (state S.Store conn.new)) }
    ensures told { HasCleanDisk (state S.Store conn.new) → IfErr result (λ fault. (fault ≡ StoreFault.WrongSchema)
        ⊎ IsStoreFaultOf (FailsToQuery about_text [] (state S.Store conn.old) (state S.Store conn.new)) fault) }
    ensures left { HasCleanDisk (state S.Store conn.new) → (db : Trees) → (state S.Store conn.new).may_leave db → (state S.Store conn.old).may_leave db }
{
    match about_tells(conn, schema) {
        Ok(true) => Ok(()),
        Ok(false) => Err(StoreFault::WrongSchema),
        Err(error) => Err(store_fault_of(error)),
    }
}
