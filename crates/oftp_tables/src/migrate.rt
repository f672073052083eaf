//! Migrating a store of schema 1, in one transaction.

ghost use Rattle.std.specs.Prelude.{◌≡◌, ◌≢◌, ◌∷◌, ◌⊎◌, ◌≤◌, [], Err, false, IfOk, IfErr, MatchResult, OnOk, OnErr, IsTrue};
ghost use Rattle.sqlite.specs.Held.{state};
ghost use Rattle.sqlite.specs.Tree.{Trees};
ghost use Rattle.sqlite.specs.View.{doubt};
ghost use Rattle.sqlite.specs.Effect.{Database};
ghost use Rattle.sqlite.specs.State.{HasCleanDisk, IsUnchanged};
ghost use Rattle.oftp_vfile.specs.declared.limits.Limits.{Limits};
ghost use Rattle.oftp_tables.specs.Schema.{first_schema, office_schema};
ghost use Rattle.oftp_tables.specs.Transactions.{IsCommitted, IsSpared, MayLeave, Runs, Transacts};
ghost use Rattle.oftp_tables.specs.Making.{HasFirst, HasOffice, IsAsBefore, about_rows, about_told};
ghost use Rattle.oftp_tables.specs.Migration.{IsMigrated};
ghost use Rattle.oftp_tables.specs.Opening.{FailsToMigrate, IsAtFirst, IsMigratable, Opens, Refuses};
ghost use Rattle.oftp_tables.specs.MigrationSteps.{AddsNotes, AreNegatives, SetsSchema, Upgrades};

use crate::about::expect_schema;
use crate::fault::{StoreFault, store_fault_of};
use crate::make::make_table;
use crate::shape::{is_first, is_ours};
use sqlite::{Alter, Connection, Error, Row, Transaction, params};
use std::alloc::Global;

// The numbers of the received Negative End Responses, in ascending order.
fn find_negatives<S: Alter>(conn: &mut Connection<S>) -> Result<Vec<Row>, Error>
    requires { conn.old.in_transaction ≡ false }
    ensures mode { conn.new.in_transaction ≡ false }
    ensures clean { doubt (state S.Store conn.old).is_clean ≤ doubt (state S.Store conn.new).is_clean }
    ensures same { HasCleanDisk (state S.Store conn.new) → conn.old.schema ≡ first_schema → OnOk result (IsUnchanged (state S.Store conn.old) (state S.Store conn.new)) }
    ensures left { HasCleanDisk (state S.Store conn.new) → conn.old.schema ≡ first_schema → (db : Trees) → (state S.Store conn.new).may_leave db → (state S.Store conn.old).may_leave db }
    ensures answer { HasCleanDisk (state S.Store conn.new) → conn.old.schema ≡ first_schema → IfOk result (λ numbers. AreNegatives (state S.Store conn.old).now.trees numbers.items) }
{
    conn.query_all(
        "SELECT no FROM received WHERE kind = 'NERP' ORDER BY no",
        &[],
    )
}

// Adds the note of one Negative End Response, with two empty texts.
fn add_note<S: Alter>(tx: &mut Transaction<'_, S>, number: &Row) -> Result<usize, Error>
    ensures same_reference { tx.new.conn.ghost_name ≡ tx.old.conn.ghost_name }
    ensures runs { Runs (λ db. db.schema ≡ office_schema) (AddsNotes (number.now ∷ [])) (state S.Store tx.old.conn.now) (state S.Store tx.new.conn.now) result }
{
    tx.execute(
        "INSERT INTO received_note (no, creator, note) VALUES (?1, '', '')",
        &[number.get_ref(0)?],
    )
}

// Adds the notes of all Negative End Responses.
fn add_notes<S: Alter>(tx: &mut Transaction<'_, S>, numbers: &[Row]) -> Result<(), Error>
    ensures same_reference { tx.new.conn.ghost_name ≡ tx.old.conn.ghost_name }
    ensures runs { Runs (λ db. db.schema ≡ office_schema) (AddsNotes numbers.now) (state S.Store tx.old.conn.now) (state S.Store tx.new.conn.now) result }
{
    'notes: for number in numbers {
        add_note(tx, number)?;
    }
    Ok(())
}

// Writes schema 2 into `about`.
fn set_schema<S: Alter>(tx: &mut Transaction<'_, S>) -> Result<usize, Error>
    ensures same_reference { tx.new.conn.ghost_name ≡ tx.old.conn.ghost_name }
    ensures runs { Runs (λ db. db.schema ≡ office_schema) SetsSchema (state S.Store tx.old.conn.now) (state S.Store tx.new.conn.now) result }
{
    tx.execute(
        "UPDATE about SET schema = ?2 WHERE id = ?1",
        params![1u32, 2u32],
    )
}

// Turns the tables of schema 1 into those of schema 2, given the numbers of the Negative End Responses.
fn upgrade<S: Alter>(tx: &mut Transaction<'_, S>, numbers: &[Row]) -> Result<(), Error>
    ensures same_reference { tx.new.conn.ghost_name ≡ tx.old.conn.ghost_name }
    ensures runs { Runs (λ db. db.schema ≡ first_schema) (Upgrades numbers.now) (state S.Store tx.old.conn.now) (state S.Store tx.new.conn.now) result }
{
    make_table(tx, 7)?;
    add_notes(tx, numbers)?;
    set_schema(tx)?;
    Ok(())
}

// The same in one transaction.
fn upgrade_at_once<S: Alter>(conn: &mut Connection<S>, numbers: &[Row]) -> Result<(), Error>
    requires { conn.old.in_transaction ≡ false }
    ensures { Transacts (λ db. db.schema ≡ first_schema) (Upgrades numbers.now) (state S.Store conn.old) (state S.Store conn.new) result }
{
    let mut tx = conn.transaction();
    upgrade(&mut tx, numbers)?;
    tx.commit()
}

// Migrates a store with the tables of schema 1 to schema 2.
fn renew<S: Alter>(conn: &mut Connection<S>) -> Result<(), Error>
    requires { conn.old.in_transaction ≡ false }
    ensures mode { conn.new.in_transaction ≡ false }
    ensures clean { doubt (state S.Store conn.old).is_clean ≤ doubt (state S.Store conn.new).is_clean }
    ensures migrated { HasCleanDisk (state S.Store conn.new) → IsTrue (state S.Store conn.old).is_open → conn.old.schema ≡ first_schema
        → OnOk result (IsMigrated (state S.Store conn.old).now (state S.Store conn.new).now × IsCommitted (state S.Store conn.old) (state S.Store conn.new)) }
    ensures left { HasCleanDisk (state S.Store conn.new) → IsTrue (state S.Store conn.old).is_open → conn.old.schema ≡ first_schema → (db : Trees) → (state S.Store conn.new).may_leave db
        → (state S.Store conn.old).may_leave db ⊎ MayLeave IsMigrated (state S.Store conn.old).now db }
{
    let numbers = find_negatives(conn)?;
    upgrade_at_once(conn, numbers.as_slice())
}

// Migrates a store with the tables of schema 1 to schema 2, if `about` has schema 1.
fn migrate_first<S: Alter>(conn: &mut Connection<S>) -> Result<(), StoreFault>
    requires autocommit { conn.old.in_transaction ≡ false }
    requires has { conn.old.schema ≡ first_schema }
    ensures mode { conn.new.in_transaction ≡ false }
    ensures clean { doubt (state S.Store conn.old).is_clean ≤ doubt (state S.Store conn.new).is_clean }
    ensures known { HasCleanDisk (state S.Store conn.new) → OnOk result (about_told (state S.Store conn.old).now.trees ≡ about_rows 1) }
    ensures wrong { HasCleanDisk (state S.Store conn.new) → IfErr result (λ fault. fault ≡ StoreFault.WrongSchema
        → (about_told (state S.Store conn.old).now.trees ≢ about_rows 1) × IsAsBefore (state S.Store conn.old) (state S.Store conn.new)) }
    ensures migrated { HasCleanDisk (state S.Store conn.new) → IsTrue (state S.Store conn.old).is_open
        → OnOk result (IsMigrated (state S.Store conn.old).now (state S.Store conn.new).now × IsCommitted (state S.Store conn.old) (state S.Store conn.new)) }
    ensures left { HasCleanDisk (state S.Store conn.new) → IsTrue (state S.Store conn.old).is_open → (db : Trees) → (state S.Store conn.new).may_leave db
        → (state S.Store conn.old).may_leave db ⊎ (HasFirst (state S.Store conn.old).now × MayLeave IsMigrated (state S.Store conn.old).now db) }
{
    expect_schema(conn, 1)?;
    match renew(conn) {
        Ok(()) => Ok(()),
        Err(error) => Err(store_fault_of(error)),
    }
}

/// Migrates a store of schema 1 to schema 2, in one transaction. It adds the table `received_note`, with one row of two empty texts for
/// each received Negative End Response, and sets `about`. A store of schema 2 is accepted. The connection is outside a transaction.
///
/// # Errors
///
/// - [`StoreFault::WrongSchema`] exactly where the store has neither schema, so also where it has no table. The store is unchanged.
/// - [`StoreFault::Store`] and [`StoreFault::Memory`]: the store has its old tables or those of schema 2. The call may be repeated.
pub fn migrate_tables<S: Alter>(conn: &mut Connection<S>) -> Result<(), StoreFault>
    requires { conn.old.in_transaction ≡ false }
    ensures mode { conn.new.in_transaction ≡ false }
    ensures opened { MatchResult result
        (λ _. (limits : Limits) → Opens IsMigratable HasFirst IsAtFirst limits (state S.Store conn.old) (state S.Store conn.new))
        (λ fault. Refuses IsMigratable HasFirst IsAtFirst fault (state S.Store conn.old) (state S.Store conn.new)) }
    ensures foreign { (state S.Store conn.old).now.schema ≢ first_schema → (state S.Store conn.old).now.schema ≢ office_schema → result ≡ Err StoreFault.WrongSchema }
    ensures told { HasCleanDisk (state S.Store conn.new) → IfErr result (λ fault. fault ≢ StoreFault.WrongSchema → FailsToMigrate S.Store conn.old conn.new fault) }
    ensures found { HasCleanDisk (state S.Store conn.new) → HasOffice (state S.Store conn.old).now → OnOk result (IsUnchanged (state S.Store conn.old) (state S.Store conn.new)) }
{
    if is_first(conn.schema()) {
        return migrate_first(conn);
    }
    if !is_ours(conn.schema()) {
        return Err(StoreFault::WrongSchema);
    }
    expect_schema(conn, 2)
}
