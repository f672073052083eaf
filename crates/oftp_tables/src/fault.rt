//! Why a store wasn't opened.

ghost use Rattle.std.specs.Prelude.{◌≡◌, ◌≢◌, ◌↔◌};

use sqlite::{Error, ErrorCode};

/// Why a store wasn't opened, or wasn't migrated to schema 2.
#[derive(Clone, Copy, Debug, PartialEq, Eq, Drop)]
pub enum StoreFault {
    /// The store failed (fault 1).
    Store,
    /// Out of memory (fault 2).
    Memory,
    /// The store isn't one that the call accepts (fault 3).
    WrongSchema,
}

/// The fault of a failed call of the store: [`StoreFault::Memory`] where memory ran out, and [`StoreFault::Store`] for all other errors.
pub fn store_fault_of(error: Error) -> StoreFault
    ensures named { result ≢ StoreFault.WrongSchema }
    ensures memory { (result ≡ StoreFault.Memory) ↔ (error ≡ Error.SqliteFailure ErrorCode.OutOfMemory) }
{
    match error {
        Error::SqliteFailure(ErrorCode::OutOfMemory) => StoreFault::Memory,
        _ => StoreFault::Store,
    }
}
