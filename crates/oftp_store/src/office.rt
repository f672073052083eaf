//! The office over a SQLite database.

ghost use Rattle.std.specs.Prelude.{◌≡◌, ◌≤◌, false};
ghost use Rattle.oftp_register.specs.declared.fit.TheConstants.{MOST_FILES, MOST_OCTETS};

mod law;

use oftp_vfile::Limits;
use sqlite::{Alter, Connection};
use std::alloc::Global;

/// An office that keeps its register in a SQLite database, so that it outlives the process. One process at a time uses a database.
#[derive(Drop)]
pub struct SqlOffice<S: Alter> {
    alloc: Global,
    conn: Connection<S>,
    limits: Limits,
    faults: u64,
    ghost autocommit: { conn.in_transaction ≡ false },
    ghost few: { limits.files ≤ MOST_FILES },
    ghost small: { limits.octets ≤ MOST_OCTETS },
}

impl<S: Alter> SqlOffice<S> {
    // A new office over a connection, with no error counted.
    pub(crate) fn over(alloc: Global, conn: Connection<S>, limits: Limits) -> SqlOffice<S>
        requires autocommit { conn.in_transaction ≡ false }
        requires files { limits.files ≤ MOST_FILES }
        requires octets { limits.octets ≤ MOST_OCTETS }
        ensures conn { result.conn ≡ conn }
        ensures limits { result.limits ≡ limits }
        ensures faults { result.faults ≡ 0 }
    {
        SqlOffice {
            alloc,
            conn,
            limits,
            faults: 0,
        }
    }

    /// Drops the office and returns its connection, which is outside a transaction. The store is unchanged.
    pub fn into_conn(self) -> Connection<S>
        ensures conn { result ≡ self.conn }
        ensures autocommit { result.in_transaction ≡ false }
    {
        let SqlOffice {
            alloc: _,
            conn,
            limits: _,
            faults: _,
        } = self;
        conn
    }
}
