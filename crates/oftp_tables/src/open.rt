//! Opening a store.

ghost use Rattle.std.specs.Prelude.{◌≡◌, ◌≢◌, Err, false, IfErr, MatchResult, OnOk, IsTrue};
ghost use Rattle.sqlite.specs.Held.{state};
ghost use Rattle.sqlite.specs.State.{HasCleanDisk, IsUnchanged};
ghost use Rattle.oftp_vfile.specs.declared.limits.Limits.{Limits};
ghost use Rattle.oftp_tables.specs.Schema.{office_schema};
ghost use Rattle.oftp_tables.specs.Transactions.{IsCommitted};
ghost use Rattle.oftp_tables.specs.Making.{HasOffice, IsEmpty, IsNew};
ghost use Rattle.oftp_tables.specs.Opening.{FailsToOpen, IsAt, IsOpenable, Opens, Refuses};

use crate::about::expect_schema;
use crate::fault::{StoreFault, store_fault_of};
use crate::make::create;
use crate::shape::{is_blank, is_ours};
use sqlite::{Alter, Connection};

/// Accepts a store with the tables of schema 2, and makes these tables in an empty store. The connection is outside a transaction.
///
/// # Errors
///
/// - [`StoreFault::WrongSchema`] exactly where the store isn't empty and doesn't hold just those tables, with the right `about`. The store
///   is unchanged. For a store with other tables this is the error whatever its disk does.
/// - [`StoreFault::Store`] and [`StoreFault::Memory`], from an error of SQLite: the store has its old content or the new tables.
pub fn open_tables<S: Alter>(conn: &mut Connection<S>) -> Result<(), StoreFault>
    requires { conn.old.in_transaction ≡ false }
    ensures mode { conn.new.in_transaction ≡ false }
    ensures opened { MatchResult result
        (λ _. (limits : Limits) → Opens IsOpenable IsEmpty IsAt limits (state S.Store conn.old) (state S.Store conn.new))
        (λ fault. Refuses IsOpenable IsEmpty IsAt fault (state S.Store conn.old) (state S.Store conn.new)) }
    ensures foreign { ¬ IsEmpty (state S.Store conn.old).now → (state S.Store conn.old).now.schema ≢ office_schema → result ≡ Err StoreFault.WrongSchema }
    ensures told { HasCleanDisk (state S.Store conn.new) → IfErr result (λ fault. fault ≢ StoreFault.WrongSchema
        → FailsToOpen S.Store conn.old conn.new fault) }
    ensures made { HasCleanDisk (state S.Store conn.new) → IsTrue (state S.Store conn.old).is_open → IsEmpty (state S.Store conn.old).now
        → OnOk result (IsNew (state S.Store conn.new).now × IsCommitted (state S.Store conn.old) (state S.Store conn.new)) }
    ensures found { HasCleanDisk (state S.Store conn.new) → HasOffice (state S.Store conn.old).now → OnOk result (IsUnchanged (state S.Store conn.old) (state S.Store conn.new)) }
{
    if is_blank(conn.schema()) {
        return match create(conn) {
            Ok(()) => Ok(()),
            Err(error) => Err(store_fault_of(error)),
        };
    }
    if !is_ours(conn.schema()) {
        return Err(StoreFault::WrongSchema);
    }
    expect_schema(conn, 2)
}
