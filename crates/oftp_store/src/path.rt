//! Opening the files at a path.

ghost use Rattle.std.specs.Prelude.{◌≡◌, ◌≢◌, ◌↔◌, ◌⊎◌, Err, IfErr, IfOk, IsErrAnd, IsTrue, Ok};
ghost use Rattle.sqlite.specs.State.{HasCleanDisk};
ghost use Rattle.sqlite.specs.Start.{FindsIn};
ghost use Rattle.sqlite.specs.Held.{IsNew};
ghost use Rattle.sqlite.specs.Files.{file_state, IsOpened};
ghost use Rattle.sqlite.specs.WalFiles.{image_at};
ghost use Rattle.oftp_store.specs.Paths.{IsFaultFor, IsKept, IsOpeningFault};

use oftp_tables::{StoreFault, store_fault_of};
use sqlite::{Connection, Error, ErrorCode, FileFrom, FileStore, Leftover, Start};
use std::marker::Model;

/// Why the office at a path wasn't opened.
#[derive(Clone, Copy, Debug, PartialEq, Eq, Drop)]
pub enum PathFault {
    /// The path is empty or `:memory:`. SQLite would keep nothing there.
    Unkept,
    /// Another connection has locked the database. The call may be repeated.
    Held,
    /// An error of [`SqlOffice::open`] or [`SqlOffice::migrate`]. A path that can't be opened is [`StoreFault::Store`].
    Store(StoreFault),
}

/// The files at a path weren't opened. Only [`connect`] makes one, so whoever has one never had a connection to these files.
#[derive(Drop)]
pub struct Unopened {
    fault: PathFault,
}

impl Model for Unopened {
    ghost use Rattle.oftp_store.specs.declared.path.PathFault.{PathFault};

    ghost Value = { PathFault };

    ghost view = { λ u. u.fault };
}

impl Unopened {
    /// Why they weren't.
    pub fn fault(&self) -> PathFault
        ensures { result ≡ self.now }
    {
        self.fault
    }
}

// The fault of a path whose files couldn't be opened.
fn path_fault_of(error: Error) -> PathFault
    ensures held { (result ≡ PathFault.Held) ↔ (error ≡ Error.SqliteFailure ErrorCode.DatabaseBusy) }
    ensures memory { (result ≡ PathFault.Store StoreFault.Memory) ↔ (error ≡ Error.SqliteFailure ErrorCode.OutOfMemory) }
    ensures named { result ≢ PathFault.Store StoreFault.WrongSchema }
    ensures kept { result ≢ PathFault.Unkept }
{
    match error {
        Error::SqliteFailure(ErrorCode::DatabaseBusy) => PathFault::Held,
        other => PathFault::Store(store_fault_of(other)),
    }
}

// Whether SQLite keeps a database under this path.
fn is_kept(path: &str) -> bool
    ensures { IsTrue result ↔ IsKept path.now }
{
    !path.is_empty() && path != ":memory:"
}

// What the library's answer comes to: its connection, or the fault for its error.
fn connected<S: Start>(
    opened: Result<Connection<FileStore<FileFrom<S>>>, (Error, Option<Leftover<FileFrom<S>>>)>,
) -> Result<Connection<FileStore<FileFrom<S>>>, Unopened>
    ensures opened { IfOk opened (λ conn. result ≡ Ok conn) }
    ensures cause { IfErr opened (λ e. IsErrAnd result (IsFaultFor e.0)) }
{
    match opened {
        Ok(conn) => Ok(conn),
        Err((error, _)) => Err(Unopened {
            fault: path_fault_of(error),
        }),
    }
}

/// Opens the files at a path. `S` stands for their content. [`open_over`](crate::open_over) and [`migrate_over`](crate::migrate_over) open
/// the office over the connection.
///
/// # Errors
///
/// No connection was made. The fault is [`PathFault::Unkept`] exactly where the path is empty or `:memory:`, and no file was opened then.
/// Otherwise it is that of SQLite's error: [`PathFault::Held`] where another connection has locked the files, [`StoreFault::Memory`] where
/// memory ran out, and [`StoreFault::Store`] for all others.
pub fn connect<S: Start>(
    rt: &HostRuntime,
    path: &str,
    start: S,
) -> Result<Connection<FileStore<FileFrom<S>>>, Unopened>
    ensures unkept { (result ≡ Err PathFault.Unkept) ↔ ¬ IsKept path.now }
    ensures cause { IfErr result (λ fault. (fault ≡ PathFault.Unkept) ⊎ IsOpeningFault fault) }
    ensures opened { IfOk result (λ conn. HasCleanDisk (file_state conn) → IsOpened conn) }
    ensures found { IfOk result (λ conn. HasCleanDisk (file_state conn) → FindsIn (image_at S.Start) (file_state conn)) }
    ensures fresh { IfOk result IsNew }
{
    if !is_kept(path) {
        return Err(Unopened {
            fault: PathFault::Unkept,
        });
    }
    connected(Connection::open_from(rt, path, false, start))
}
