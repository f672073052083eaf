//! Opening an office over the files at a path.

ghost use Rattle.std.specs.Prelude.{◌≡◌, ◌≢◌, ◌≤◌, ◌↔◌, Err, IfErr, IfOk};
ghost use Rattle.sqlite.specs.Tree.{Trees};
ghost use Rattle.sqlite.specs.State.{HasCleanDisk};
ghost use Rattle.sqlite.specs.Start.{FindsIn};
ghost use Rattle.sqlite.specs.Held.{IsNew, state};
ghost use Rattle.sqlite.specs.Files.{file_state, over_files, HoldsDatabase, IsOpened};
ghost use Rattle.sqlite.specs.WalFiles.{image_at};
ghost use Rattle.oftp_register.specs.Register.{Register, empty};
ghost use Rattle.oftp_register.specs.Soundness.{IsSound};
ghost use Rattle.oftp_register.specs.declared.fit.TheConstants.{MOST_FILES, MOST_OCTETS};
ghost use Rattle.oftp_tables.specs.Opening.{FailsToMigrate, FailsToOpen, IsFirstOf, IsStoreOf};
ghost use Rattle.oftp_tables.specs.Stands.{IsContentOf};
ghost use Rattle.oftp_store.specs.Opens.{Has, HoldsNoTable, HoldsTaken, IsMigratable, IsOpenable, IsUnopened, LeavesCommitted, RefusesFiles, RefusesPath, TellsPath, fault_told, to_migrate, to_open};
ghost use Rattle.oftp_store.specs.Paths.{IsKept};

use crate::office::SqlOffice;
use crate::open::OpenRefused;
use crate::path::{PathFault, Unopened, connect};
use oftp_tables::StoreFault;
use oftp_vfile::Limits;
use sqlite::{Alter, Connection, FileFrom, FileStore, Start};
use std::alloc::Global;

/// Why the office at a path wasn't opened. If its files were opened, the error returns their connection.
#[derive(Drop)]
pub enum PathRefused<S: Alter> {
    /// The files weren't opened.
    Path(Unopened),
    /// The files were opened, and the store in them was refused.
    Store(OpenRefused<S>),
}

impl<S: Alter + Drop> PathRefused<S> {
    /// Returns the fault alone and drops the connection, if there is one. The store stays as it is.
    pub fn into_fault(self) -> PathFault
        ensures told { result ≡ fault_told self }
    {
        match self {
            PathRefused::Path(unopened) => unopened.fault(),
            PathRefused::Store(refused) => PathFault::Store(refused.fault),
        }
    }
}

// A crash while the connection is open leaves its last commit. The function does nothing.
fn leaves_committed<S: Alter>(conn: &Connection<S>)
    ensures { LeavesCommitted (state S.Store conn.now) }
{
    let _ = conn;
}

/// Opens the office in the files over which the connection was just opened. Where they hold no table, it makes the office's tables. `S`
/// stands for the content of the files. The limits are those that [`SqlOffice::open`] accepts.
///
/// # Errors
///
/// [`SqlOffice::open`] refused the store in the files. After [`StoreFault::WrongSchema`], which is never returned for files without a table,
/// they are unchanged. After another fault they hold their old content or the new tables.
pub fn open_over<S: Start>(
    alloc: Global,
    conn: Connection<FileStore<FileFrom<S>>>,
    limits: Limits,
) -> Result<SqlOffice<FileStore<FileFrom<S>>>, OpenRefused<FileStore<FileFrom<S>>>>
    requires unused { IsNew conn }
    requires opened { HasCleanDisk (file_state conn) → IsOpened conn }
    requires reads { HasCleanDisk (file_state conn) → FindsIn (image_at S.Start) (file_state conn) }
    requires files { limits.files ≤ MOST_FILES }
    requires octets { limits.octets ≤ MOST_OCTETS }
    ensures limits { IfOk result (λ o. o.limits ≡ limits) }
    ensures faults { IfOk result (λ o. o.faults ≡ 0) }
    // The files hold no table, or the office's tables.
    ensures known { IfOk result (λ o. HasCleanDisk (file_state o.conn) → HoldsTaken IsOpenable (HoldsDatabase (image_at S.Start))) }
    // The office has the register whose tables the files hold.
    ensures found { IfOk result (λ o. HasCleanDisk (file_state o.conn) → (r : Register) (db : Trees) → r.limits ≡ limits → IsSound r
        → HoldsDatabase (image_at S.Start) db → IsStoreOf r db → Has limits r (file_state o.conn)) }
    // Where they hold no table, the office has the empty register.
    ensures fresh { IfOk result (λ o. HasCleanDisk (file_state o.conn) → HoldsNoTable (image_at S.Start) → Has limits (empty limits) (file_state o.conn)) }
    // Another database is a wrong schema and stays unchanged. After any other error the files hold their old content or the new tables.
    ensures refused { IfErr result (λ e. HasCleanDisk (file_state e.conn) → RefusesFiles to_open (image_at S.Start) e.fault (file_state e.conn)) }
    // An error other than a wrong schema is one of SQLite in this call.
    ensures told { IfErr result (λ e. HasCleanDisk (file_state e.conn) → e.fault ≢ StoreFault.WrongSchema → FailsToOpen over_files conn e.conn e.fault) }
{
    leaves_committed(&conn);
    SqlOffice::open(alloc, conn, limits)
}

/// Migrates the database in the files over which the connection was just opened to schema 2, as [`SqlOffice::migrate`] does, and opens its
/// office. `S` stands for the content of the files. The limits are those that [`SqlOffice::open`] accepts.
///
/// # Errors
///
/// [`SqlOffice::migrate`] refused the store in the files. After [`StoreFault::WrongSchema`], which is the error for all files without a
/// table, they are unchanged. After another fault they hold their old content, or its tables of schema 2, and the call may be repeated.
pub fn migrate_over<S: Start>(
    alloc: Global,
    conn: Connection<FileStore<FileFrom<S>>>,
    limits: Limits,
) -> Result<SqlOffice<FileStore<FileFrom<S>>>, OpenRefused<FileStore<FileFrom<S>>>>
    requires unused { IsNew conn }
    requires opened { HasCleanDisk (file_state conn) → IsOpened conn }
    requires reads { HasCleanDisk (file_state conn) → FindsIn (image_at S.Start) (file_state conn) }
    requires files { limits.files ≤ MOST_FILES }
    requires octets { limits.octets ≤ MOST_OCTETS }
    ensures limits { IfOk result (λ o. o.limits ≡ limits) }
    ensures faults { IfOk result (λ o. o.faults ≡ 0) }
    // The files hold the tables of schema 1 or of schema 2.
    ensures known { IfOk result (λ o. HasCleanDisk (file_state o.conn) → HoldsTaken IsMigratable (HoldsDatabase (image_at S.Start))) }
    // The office has the register whose tables of schema 1 the files hold.
    ensures migrated { IfOk result (λ o. HasCleanDisk (file_state o.conn) → (r : Register) (db : Trees) → r.limits ≡ limits
        → HoldsDatabase (image_at S.Start) db → IsFirstOf r db → Has limits r (file_state o.conn)) }
    // It has the register whose tables of schema 2 they hold.
    ensures found { IfOk result (λ o. HasCleanDisk (file_state o.conn) → (r : Register) (db : Trees) → r.limits ≡ limits
        → HoldsDatabase (image_at S.Start) db → IsContentOf db r → Has limits r (file_state o.conn)) }
    // The files hold a table.
    ensures fresh { IfOk result (λ o. HasCleanDisk (file_state o.conn) → ¬ HoldsNoTable (image_at S.Start)) }
    // Another database is a wrong schema and stays unchanged. After any other error the files hold their old content, or its tables of
    // schema 2.
    ensures refused { IfErr result (λ e. HasCleanDisk (file_state e.conn) → RefusesFiles to_migrate (image_at S.Start) e.fault (file_state e.conn)) }
    // An error other than a wrong schema is one of SQLite in this call.
    ensures told { IfErr result (λ e. HasCleanDisk (file_state e.conn) → e.fault ≢ StoreFault.WrongSchema → FailsToMigrate over_files conn e.conn e.fault) }
{
    leaves_committed(&conn);
    SqlOffice::migrate(alloc, conn, limits)
}

// Opens the files at a path, with the error of an office that wasn't opened.
fn connect_at<S: Start>(
    rt: &HostRuntime,
    path: &str,
    start: S,
) -> Result<Connection<FileStore<FileFrom<S>>>, PathRefused<FileStore<FileFrom<S>>>>
    ensures unkept { (result ≡ Err (PathRefused.Path PathFault.Unkept)) ↔ ¬ IsKept path.now }
    ensures unopened { IfErr result IsUnopened }
    ensures opened { IfOk result (λ conn. HasCleanDisk (file_state conn) → IsOpened conn) }
    ensures found { IfOk result (λ conn. HasCleanDisk (file_state conn) → FindsIn (image_at S.Start) (file_state conn)) }
    ensures fresh { IfOk result IsNew }
{
    match connect(rt, path, start) {
        Ok(conn) => Ok(conn),
        Err(unopened) => Err(PathRefused::Path(unopened)),
    }
}

/// Opens the office in the files at a path. Where the files hold no table, it makes the office's tables. `S` stands for the content of the
/// files. The limits are those that [`SqlOffice::open`] accepts.
///
/// # Errors
///
/// - [`PathRefused::Path`]: the files weren't opened. It is [`PathFault::Unkept`] exactly where the path is empty or `:memory:`,
///   [`PathFault::Held`] where another connection has locked them, and [`StoreFault::Store`] or [`StoreFault::Memory`] where SQLite fails.
/// - [`PathRefused::Store`]: [`SqlOffice::open`] refused the store in the files. After [`StoreFault::WrongSchema`], which is never returned
///   for files without a table, they are unchanged. After another fault they hold their old content or the new tables.
pub fn open_at<S: Start>(
    rt: &HostRuntime,
    path: &str,
    limits: Limits,
    start: S,
) -> Result<SqlOffice<FileStore<FileFrom<S>>>, PathRefused<FileStore<FileFrom<S>>>>
    requires files { limits.files ≤ MOST_FILES }
    requires octets { limits.octets ≤ MOST_OCTETS }
    ensures unkept { (result ≡ Err (PathRefused.Path PathFault.Unkept)) ↔ ¬ IsKept path.now }
    ensures limits { IfOk result (λ o. o.limits ≡ limits) }
    ensures faults { IfOk result (λ o. o.faults ≡ 0) }
    // The files hold no table, or the office's tables.
    ensures known { IfOk result (λ o. HasCleanDisk (file_state o.conn) → HoldsTaken IsOpenable (HoldsDatabase (image_at S.Start))) }
    // The office has the register whose tables the files hold.
    ensures found { IfOk result (λ o. HasCleanDisk (file_state o.conn) → (r : Register) (db : Trees) → r.limits ≡ limits → IsSound r
        → HoldsDatabase (image_at S.Start) db → IsStoreOf r db → Has limits r (file_state o.conn)) }
    // Where they hold no table, the office has the empty register.
    ensures fresh { IfOk result (λ o. HasCleanDisk (file_state o.conn) → HoldsNoTable (image_at S.Start) → Has limits (empty limits) (file_state o.conn)) }
    // Another database is a wrong schema and stays unchanged. After any other error the files hold their old content or the new tables.
    ensures refused { IfErr result (RefusesPath over_files to_open (image_at S.Start)) }
    // An error of the store other than a wrong schema is one of SQLite in this call.
    ensures told { IfErr result (TellsPath over_files (FailsToOpen over_files) (image_at S.Start)) }
{
    let conn = connect_at(rt, path, start)?;
    match open_over(rt.alloc(), conn, limits) {
        Ok(office) => Ok(office),
        Err(refused) => Err(PathRefused::Store(refused)),
    }
}

/// Migrates the database in the files at a path to schema 2, as [`SqlOffice::migrate`] does, and opens its office. Where there is no file,
/// it creates an empty one and returns [`StoreFault::WrongSchema`]; a caller who doesn't want that file checks first. `S` stands for the
/// content of the files. The limits are those that [`SqlOffice::open`] accepts.
///
/// # Errors
///
/// - [`PathRefused::Path`] as for [`open_at`].
/// - [`PathRefused::Store`]: [`SqlOffice::migrate`] refused the store in the files. After [`StoreFault::WrongSchema`], which is the error
///   for all files without a table, they are unchanged. After another fault they hold their old content, or its tables of schema 2, and the
///   call may be repeated.
pub fn migrate_at<S: Start>(
    rt: &HostRuntime,
    path: &str,
    limits: Limits,
    start: S,
) -> Result<SqlOffice<FileStore<FileFrom<S>>>, PathRefused<FileStore<FileFrom<S>>>>
    requires files { limits.files ≤ MOST_FILES }
    requires octets { limits.octets ≤ MOST_OCTETS }
    ensures unkept { (result ≡ Err (PathRefused.Path PathFault.Unkept)) ↔ ¬ IsKept path.now }
    ensures limits { IfOk result (λ o. o.limits ≡ limits) }
    ensures faults { IfOk result (λ o. o.faults ≡ 0) }
    // The files hold the tables of schema 1 or of schema 2.
    ensures known { IfOk result (λ o. HasCleanDisk (file_state o.conn) → HoldsTaken IsMigratable (HoldsDatabase (image_at S.Start))) }
    // The office has the register whose tables of schema 1 the files hold.
    ensures migrated { IfOk result (λ o. HasCleanDisk (file_state o.conn) → (r : Register) (db : Trees) → r.limits ≡ limits
        → HoldsDatabase (image_at S.Start) db → IsFirstOf r db → Has limits r (file_state o.conn)) }
    // It has the register whose tables of schema 2 they hold.
    ensures found { IfOk result (λ o. HasCleanDisk (file_state o.conn) → (r : Register) (db : Trees) → r.limits ≡ limits
        → HoldsDatabase (image_at S.Start) db → IsContentOf db r → Has limits r (file_state o.conn)) }
    // The files hold a table.
    ensures fresh { IfOk result (λ o. HasCleanDisk (file_state o.conn) → ¬ HoldsNoTable (image_at S.Start)) }
    // Another database is a wrong schema and stays unchanged. After any other error the files hold their old content, or its tables of
    // schema 2.
    ensures refused { IfErr result (RefusesPath over_files to_migrate (image_at S.Start)) }
    // An error of the store other than a wrong schema is one of SQLite in this call.
    ensures told { IfErr result (TellsPath over_files (FailsToMigrate over_files) (image_at S.Start)) }
{
    let conn = connect_at(rt, path, start)?;
    match migrate_over(rt.alloc(), conn, limits) {
        Ok(office) => Ok(office),
        Err(unmigrated) => Err(PathRefused::Store(unmigrated)),
    }
}
