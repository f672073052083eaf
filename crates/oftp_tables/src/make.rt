//! Making the tables.

ghost use Rattle.std.specs.Prelude.{◌≡◌, ◌<◌, [], false, Err, IfErr, IsTrue};
ghost use Rattle.sqlite.specs.Held.{state};
ghost use Rattle.sqlite.specs.State.{ExecutesInside, HasCleanDisk};
ghost use Rattle.oftp_tables.specs.Schema.{text_at};
ghost use Rattle.oftp_tables.specs.Transactions.{IsInside, IsStatementError, Runs, Transacts};
ghost use Rattle.oftp_tables.specs.Making.{Creates, FailsToMake, HasEmptyTables, HasTables, IsEmpty, IsMakingError, IsNew, add_about_text};

use sqlite::{Alter, Connection, Error, Transaction};

// The SQL that makes a table, by its index in the order of making.
fn text_of(at: usize) -> &'static str
    requires { at < 8 }
    ensures { result.now ≡ text_at at }
{
    match at {
        0 => "CREATE TABLE about (id INTEGER NOT NULL PRIMARY KEY, schema INTEGER NOT NULL) STRICT",
        1 => "CREATE TABLE in_file (no INTEGER NOT NULL PRIMARY KEY, \
             dataset TEXT NOT NULL, date TEXT NOT NULL, time TEXT NOT NULL, originator TEXT NOT NULL, destination TEXT NOT NULL, \
             format TEXT NOT NULL, longest INTEGER NOT NULL, description TEXT NOT NULL, state TEXT NOT NULL, \
             UNIQUE (dataset, date, time, originator, destination)) STRICT",
        2 =>
            "CREATE TABLE in_row (no INTEGER NOT NULL REFERENCES in_file (no), pos INTEGER NOT NULL, body BLOB NOT NULL, \
             PRIMARY KEY (no, pos)) STRICT",
        3 => "CREATE TABLE out_file (no INTEGER NOT NULL PRIMARY KEY, \
             dataset TEXT NOT NULL, date TEXT NOT NULL, time TEXT NOT NULL, originator TEXT NOT NULL, destination TEXT NOT NULL, \
             format TEXT NOT NULL, longest INTEGER NOT NULL, description TEXT NOT NULL, \
             mark INTEGER NOT NULL, state TEXT NOT NULL, reason TEXT NOT NULL, \
             UNIQUE (dataset, date, time, originator, destination)) STRICT",
        4 =>
            "CREATE TABLE out_row (no INTEGER NOT NULL REFERENCES out_file (no), pos INTEGER NOT NULL, body BLOB NOT NULL, \
             PRIMARY KEY (no, pos)) STRICT",
        5 => "CREATE TABLE issued (no INTEGER NOT NULL PRIMARY KEY REFERENCES in_file (no), \
             kind TEXT NOT NULL, reason TEXT NOT NULL, note TEXT NOT NULL, sent INTEGER NOT NULL) STRICT",
        6 => "CREATE TABLE received (no INTEGER NOT NULL PRIMARY KEY, kind TEXT NOT NULL, \
             dataset TEXT NOT NULL, date TEXT NOT NULL, time TEXT NOT NULL, originator TEXT NOT NULL, destination TEXT NOT NULL, \
             reason TEXT NOT NULL, UNIQUE (kind, dataset, date, time, originator, destination)) STRICT",
        _ =>
            "CREATE TABLE received_note (no INTEGER NOT NULL PRIMARY KEY REFERENCES received (no), \
             creator TEXT NOT NULL, note TEXT NOT NULL) STRICT",
    }
}

/// Makes one table, by its index below 8 in the order of making. It returns the result of the statement.
pub(crate) fn make_table<S: Alter>(tx: &mut Transaction<'_, S>, at: usize) -> Result<usize, Error>
    requires { at < 8 }
    ensures same_reference { tx.new.conn.ghost_name ≡ tx.old.conn.ghost_name }
    ensures runs { Runs (HasTables at) (Creates at) (state S.Store tx.old.conn.now) (state S.Store tx.new.conn.now) result }
    ensures told { HasCleanDisk (state S.Store tx.new.conn.now) → IfErr result (IsStatementError S.Store tx.new.conn.now) }
    ensures statement { HasCleanDisk (state S.Store tx.new.conn.now) → IsTrue (state S.Store tx.old.conn.now).in_transaction
        → ExecutesInside 0 (text_at at) [] (state S.Store tx.old.conn.now) (state S.Store tx.new.conn.now) result }
{
    tx.execute(text_of(at), &[])
}

fn make_tables<S: Alter>(tx: &mut Transaction<'_, S>) -> Result<(), Error>
    ensures same_reference { tx.new.conn.ghost_name ≡ tx.old.conn.ghost_name }
    ensures runs { Runs IsEmpty (λ old new. HasEmptyTables 8 new) (state S.Store tx.old.conn.now) (state S.Store tx.new.conn.now) result }
    ensures told { HasCleanDisk (state S.Store tx.new.conn.now) → IsInside (state S.Store tx.old.conn.now) → IsEmpty (state S.Store tx.old.conn.now).now
        → IfErr result (FailsToMake S.Store tx.old.conn.now tx.new.conn.now) }
{
    'tables: for at in 0..8 {
        make_table(tx, at)?;
    }
    Ok(())
}

fn add_about<S: Alter>(tx: &mut Transaction<'_, S>) -> Result<usize, Error>
    ensures same_reference { tx.new.conn.ghost_name ≡ tx.old.conn.ghost_name }
    ensures runs { Runs (HasEmptyTables 8) (λ old new. IsNew new) (state S.Store tx.old.conn.now) (state S.Store tx.new.conn.now) result }
    ensures told { HasCleanDisk (state S.Store tx.new.conn.now) → IsInside (state S.Store tx.old.conn.now)
        → IfErr result (λ e. ExecutesInside 0 add_about_text [] (state S.Store tx.old.conn.now) (state S.Store tx.new.conn.now) (Err e)) }
{
    tx.execute("INSERT INTO about (id, schema) VALUES (1, 2)", &[])
}

fn make_all<S: Alter>(tx: &mut Transaction<'_, S>) -> Result<(), Error>
    ensures same_reference { tx.new.conn.ghost_name ≡ tx.old.conn.ghost_name }
    ensures runs { Runs IsEmpty (λ old new. IsNew new) (state S.Store tx.old.conn.now) (state S.Store tx.new.conn.now) result }
    ensures told { HasCleanDisk (state S.Store tx.new.conn.now) → IsInside (state S.Store tx.old.conn.now) → IsEmpty (state S.Store tx.old.conn.now).now
        → IfErr result (FailsToMake S.Store tx.old.conn.now tx.new.conn.now) }
{
    make_tables(tx)?;
    add_about(tx)?;
    Ok(())
}

// Makes the tables in a database that has none, in one transaction.
pub(crate) fn create<S: Alter>(conn: &mut Connection<S>) -> Result<(), Error>
    requires { conn.old.in_transaction ≡ false }
    ensures transacts { Transacts IsEmpty (λ old new. IsNew new) (state S.Store conn.old) (state S.Store conn.new) result }
    ensures told { HasCleanDisk (state S.Store conn.new) → IsTrue (state S.Store conn.old).is_open → IsEmpty (state S.Store conn.old).now
        → IfErr result (IsMakingError S.Store conn.old conn.new) }
{
    let mut tx = conn.transaction();
    make_all(&mut tx)?;
    tx.commit()
}
