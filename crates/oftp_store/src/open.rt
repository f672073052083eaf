//! Opening and migrating an office over a database connection.

ghost use Rattle.std.specs.Prelude.{◌≡◌, ◌≢◌, ◌≤◌, false, IfErr, IfOk, MatchResult};
ghost use Rattle.sqlite.specs.Held.{state};
ghost use Rattle.sqlite.specs.State.{HasCleanDisk};
ghost use Rattle.oftp_register.specs.Register.{Register};
ghost use Rattle.oftp_tables.specs.Schema.{first_schema, office_schema};
ghost use Rattle.oftp_tables.specs.Making.{HasFirst, HasOffice, IsEmpty};
ghost use Rattle.oftp_register.specs.declared.fit.TheConstants.{MOST_FILES, MOST_OCTETS};
ghost use Rattle.oftp_tables.specs.Opening.{FailsToMigrate, FailsToOpen, IsAt, IsAtFirst};
ghost use Rattle.oftp_store.specs.Opens.{Has, IsMigratable, IsOpenable, Opens, Refuses};

use crate::office::SqlOffice;
use oftp_tables::{StoreFault, migrate_tables, open_tables};
use oftp_vfile::Limits;
use sqlite::{Alter, Connection};
use std::alloc::Global;

/// Why an office wasn't opened. The connection is returned with the fault.
#[derive(Drop)]
pub struct OpenRefused<S: Alter> {
    /// The fault.
    pub fault: StoreFault,
    /// The connection, outside a transaction.
    pub conn: Connection<S>,
}

impl<S: Alter> SqlOffice<S> {
    /// Opens the office in a store. Where the store has no table, no index and no view, it makes the office's tables. The connection is
    /// outside a transaction. The limits are at most 1,000,000 files and 1,024,000,000 octets of a file, which
    /// [`are_limits`](oftp_register::are_limits) checks.
    ///
    /// # Errors
    ///
    /// - [`StoreFault::WrongSchema`] exactly where the store isn't empty and doesn't hold just the office's tables, as this call makes
    ///   them, with the right `about`. The store is unchanged.
    /// - [`StoreFault::Store`] and [`StoreFault::Memory`], from an error of SQLite: the store has its old content or the new tables.
    pub fn open(
        alloc: Global,
        conn: Connection<S>,
        limits: Limits,
    ) -> Result<SqlOffice<S>, OpenRefused<S>>
        requires autocommit { conn.in_transaction ≡ false }
        requires files { limits.files ≤ MOST_FILES }
        requires octets { limits.octets ≤ MOST_OCTETS }
        ensures opened { MatchResult result
            (λ o. (o.limits ≡ limits) × (o.faults ≡ 0) × Opens IsOpenable IsEmpty IsAt limits (state S.Store conn) (state S.Store o.conn))
            (λ e. Refuses IsOpenable IsEmpty IsAt e.fault (state S.Store conn) (state S.Store e.conn)) }
        ensures foreign { ¬ IsEmpty (state S.Store conn).now → (state S.Store conn).now.schema ≢ office_schema
            → MatchResult result (λ _. ⊥) (λ refused. refused.fault ≡ StoreFault.WrongSchema) }
        ensures told { IfErr result (λ e. HasCleanDisk (state S.Store e.conn) → e.fault ≢ StoreFault.WrongSchema → FailsToOpen S.Store conn e.conn e.fault) }
    {
        let mut conn = conn;
        match open_tables(&mut conn) {
            Ok(()) => Ok(SqlOffice::over(alloc, conn, limits)),
            Err(fault) => Err(OpenRefused { fault, conn }),
        }
    }

    /// Migrates a store of schema 1 to schema 2, in one transaction, and opens its office. On schema 2 it does what
    /// [`open`](SqlOffice::open) does. The connection is outside a transaction, and the limits are those that `open` accepts.
    ///
    /// # Errors
    ///
    /// - [`StoreFault::WrongSchema`] exactly where the store has neither schema, so also where it has no table. The store is unchanged.
    /// - [`StoreFault::Store`] and [`StoreFault::Memory`]: the store has its old content or the tables of schema 2. The call may be
    ///   repeated.
    pub fn migrate(
        alloc: Global,
        conn: Connection<S>,
        limits: Limits,
    ) -> Result<SqlOffice<S>, OpenRefused<S>>
        requires autocommit { conn.in_transaction ≡ false }
        requires files { limits.files ≤ MOST_FILES }
        requires octets { limits.octets ≤ MOST_OCTETS }
        ensures opened { MatchResult result
            (λ o. (o.limits ≡ limits) × (o.faults ≡ 0)
            × Opens IsMigratable HasFirst IsAtFirst limits (state S.Store conn) (state S.Store o.conn))
            (λ e. Refuses IsMigratable HasFirst IsAtFirst e.fault (state S.Store conn) (state S.Store e.conn)) }
        ensures found { IfOk result (λ o. HasCleanDisk (state S.Store o.conn)
            → (r : Register) → r.limits ≡ limits → IsAt r (state S.Store conn)
            → HasOffice (state S.Store conn).now → Has limits r (state S.Store o.conn)) }
        ensures foreign { (state S.Store conn).now.schema ≢ first_schema → (state S.Store conn).now.schema ≢ office_schema
            → MatchResult result (λ _. ⊥) (λ refused. refused.fault ≡ StoreFault.WrongSchema) }
        ensures told { IfErr result (λ e. HasCleanDisk (state S.Store e.conn) → e.fault ≢ StoreFault.WrongSchema → FailsToMigrate S.Store conn e.conn e.fault) }
    {
        let mut conn = conn;
        match migrate_tables(&mut conn) {
            Ok(()) => Ok(SqlOffice::over(alloc, conn, limits)),
            Err(fault) => Err(OpenRefused { fault, conn }),
        }
    }
}
