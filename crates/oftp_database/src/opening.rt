//! Opens the database that a command line names.

ghost use Rattle.std.specs.Prelude.{◌≡◌, ◌↔◌, Err, IfErr, IfOk};
ghost use Rattle.sqlite.specs.Files.{HoldsDatabase, over_files};
ghost use Rattle.sqlite.specs.State.{HasCleanDisk};
ghost use Rattle.sqlite.specs.WalFiles.{image_at};
ghost use Rattle.oftp_store.specs.Opens.{HoldsTaken, RefusesPath};
ghost use Rattle.oftp_store.specs.Paths.{IsKept};
ghost use Rattle.oftp_store.specs.Shown.{database_of};
ghost use Rattle.oftp_database.specs.Attempts.{Takes, demanded};
ghost use Rattle.oftp_database.specs.Openings.{IsGained, IsMigrated, IsOpened};

use crate::file::make_file;
use crate::office::{DatabaseOffice, FileOffice};
use oftp_durable::open_durable;
use oftp_files::LIMITS;
use oftp_listing::RememberingOffice;
use oftp_outcomes::Fault;
use oftp_sockets::SocketPlace;
use oftp_store::{PathFault, PathRefused, StoreFault, migrate_at};
use sqlite::{FileFrom, FileStore, Start, Unknown};
use std::fs;
use std::io::ErrorKind;
use std::time::{Clock, Duration};

/// How often a command tries a locked database again, each time after 50 milliseconds. This is for ten seconds.
pub const PATIENCE: u32 = 200;

/// The pause before that, in milliseconds.
const PAUSE: u64 = 50;

/// The error for a database that stays locked.
const HELD: Fault = Fault::Store(StoreFault::Store);

/// What is supposed of files that are tried again while they are locked. The program supposes nothing of them: [`Unknown`].
trait Anew {
    /// The same for one more try.
    fn anew() -> Self;
}

impl Anew for Unknown {
    fn anew() -> Unknown {
        Unknown
    }
}

/// How a database is opened.
#[derive(Clone, Copy)]
enum Opening {
    /// Its tables are created if it has none.
    Open,
    /// It is migrated to schema 2.
    Migrate,
}

/// Opens the office of a database. If the database is empty or doesn't exist, its tables are created. If another process has it locked, it
/// is tried again `patience` times, each time after 50 milliseconds.
///
/// # Errors
/// [`Fault::Store`]:
///
/// - [`StoreFault::WrongSchema`]: it is another database, which is unchanged.
/// - [`StoreFault::Store`]: SQLite failed or would keep nothing of it, or it stays locked.
/// - [`StoreFault::Memory`]: out of memory.
///
/// A file that was created stays, with or without the tables.
pub fn open(rt: &HostRuntime, path: &str, patience: u32) -> Result<DatabaseOffice, Fault>
    // The office has the register that the files hold, and remembers nothing.
    ensures opened { IfOk result (λ o. IsOpened over_files (image_at ⟦<Unknown as Start>⟧) o.office) }
{
    open_if_free(rt, path, patience).map_err(store_fault)
}

/// Opens the office as [`open`] does with [`PATIENCE`], for a command that a station can carry out. Gives up as soon as a station runs over
/// the database, with the error for one that stays locked.
///
/// # Errors
/// Those of [`open`].
pub fn open_shared(rt: &HostRuntime, path: &str) -> Result<DatabaseOffice, Fault>
    ensures opened { IfOk result (λ o. IsOpened over_files (image_at ⟦<Unknown as Start>⟧) o.office) }
{
    make_file(rt, path);
    for _ in 0..PATIENCE {
        match gained(rt, path, Opening::Open, 0) {
            Err(PathFault::Held) if is_served(rt, path) => return Err(HELD),
            Err(PathFault::Held) => rt.sleep(Duration::from_millis(PAUSE)),
            done => return done.map_err(store_fault),
        }
    }
    gained(rt, path, Opening::Open, 0).map_err(store_fault)
}

/// Whether a station runs over a database.
fn is_served(rt: &HostRuntime, path: &str) -> bool {
    match SocketPlace::beside(rt, path) {
        Ok(place) => place.connect(rt).is_ok(),
        Err(_) => false,
    }
}

/// Opens a database as [`open`] does with [`PATIENCE`], which creates its tables, and closes it.
///
/// # Errors
/// Those of [`open`].
pub fn make(rt: &HostRuntime, path: &str) -> Result<(), Fault> {
    open(rt, path, PATIENCE)?;
    Ok(())
}

/// Opens the office as [`open`] does, with an error of its own for a database that stays locked.
///
/// # Errors
/// [`PathFault::Held`] if the database stays locked; [`PathFault::Unkept`] if SQLite would keep nothing of it; [`PathFault::Store`] for an
/// error of the store.
pub fn open_if_free(
    rt: &HostRuntime,
    path: &str,
    patience: u32,
) -> Result<DatabaseOffice, PathFault>
    ensures opened { IfOk result (λ o. IsOpened over_files (image_at ⟦<Unknown as Start>⟧) o.office) }
{
    make_file(rt, path);
    gained(rt, path, Opening::Open, patience)
}

/// Migrates a database to schema 2. One that doesn't exist isn't created. One that is locked is tried again `patience` times, as in
/// [`open`].
///
/// # Errors
/// Those of [`open`]. If the database doesn't exist or has no table, it is the one for a wrong schema. The call may be repeated.
pub fn migrate(rt: &HostRuntime, path: &str, patience: u32) -> Result<DatabaseOffice, Fault>
    // The office has the register that the files hold in the tables of either schema, and remembers nothing.
    ensures migrated { IfOk result (λ o. IsMigrated over_files (image_at ⟦<Unknown as Start>⟧) o.office) }
{
    match fs::metadata(rt, path) {
        Err(error) if error.kind() == ErrorKind::NotFound => {
            Err(Fault::Store(StoreFault::WrongSchema))
        }
        _ => gained(rt, path, Opening::Migrate, patience).map_err(store_fault),
    }
}

/// Opens the office of the program, whose files hold what nobody knows.
fn gained(
    rt: &HostRuntime,
    path: &str,
    how: Opening,
    patience: u32,
) -> Result<DatabaseOffice, PathFault>
    ensures gained { IfOk result (λ o. IsGained how over_files (image_at ⟦<Unknown as Start>⟧) o.office) }
{
    let office = patiently::<Unknown>(rt, path, how, patience)?;
    Ok(DatabaseOffice::new(office))
}

/// Tries until the database isn't locked, or the patience is used up. `S` stands for what the files hold where they are opened: the tries
/// before weren't connected to them.
fn patiently<S: Start + Anew>(
    rt: &HostRuntime,
    path: &str,
    how: Opening,
    patience: u32,
) -> Result<FileOffice<S>, PathFault>
    ensures gained { IfOk result (IsGained how over_files (image_at S.Start)) }
{
    for _ in 0..patience {
        match attempt(rt, path, how) {
            Err(PathFault::Held) => rt.sleep(Duration::from_millis(PAUSE)),
            done => return done,
        }
    }
    attempt(rt, path, how)
}

/// Tries once.
fn attempt<S: Start + Anew>(
    rt: &HostRuntime,
    path: &str,
    how: Opening,
) -> Result<FileOffice<S>, PathFault>
    ensures gained { IfOk result (IsGained how over_files (image_at S.Start)) }
{
    match office_at(rt, path, how, S::anew()) {
        Ok(office) => Ok(office),
        Err(refused) => Err(refused.into_fault()),
    }
}

/// Opens the office over the files at a path, or migrates them. `S` stands for their content.
///
/// # Errors
/// Those of [`open_durable`], or of [`migrate_at`].
fn office_at<S: Start>(
    rt: &HostRuntime,
    path: &str,
    how: Opening,
    start: S,
) -> Result<FileOffice<S>, PathRefused<FileStore<FileFrom<S>>>>
    ensures unkept { (result ≡ Err (PathRefused.Path PathFault.Unkept)) ↔ ¬ IsKept path.now }
    // The files hold a database that is taken where it is opened in this way.
    ensures known { IfOk result (λ o. HasCleanDisk (database_of over_files o.office) → HoldsTaken (Takes how) (HoldsDatabase (image_at S.Start))) }
    // The office has the register that they hold, and remembers nothing.
    ensures gained { IfOk result (IsGained how over_files (image_at S.Start)) }
    // Another database is a wrong schema and stays unchanged. After any other error the files hold their old content, or what this way makes of it.
    ensures refused { IfErr result (RefusesPath over_files (demanded how) (image_at S.Start)) }
{
    match how {
        Opening::Open => {
            let office = open_durable(rt, path, LIMITS, start)?;
            Ok(RememberingOffice::new(rt.alloc(), office))
        }
        Opening::Migrate => {
            let office = migrate_at(rt, path, LIMITS, start)?;
            Ok(RememberingOffice::new(rt.alloc(), office))
        }
    }
}

/// The error for a database. One that stays locked, or isn't kept, is a store that failed.
fn store_fault(fault: PathFault) -> Fault {
    match fault {
        PathFault::Unkept | PathFault::Held => HELD,
        PathFault::Store(fault) => Fault::Store(fault),
    }
}
