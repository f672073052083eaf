//! Opening the office in the files at a path.

ghost use Rattle.std.specs.Prelude.{◌≡◌, ◌≤◌, ◌↔◌, IfErr, IfOk};
ghost use Rattle.sqlite.specs.Files.{HoldsDatabase, over_files};
ghost use Rattle.sqlite.specs.State.{HasCleanDisk};
ghost use Rattle.sqlite.specs.WalFiles.{image_at};
ghost use Rattle.oftp_register.specs.declared.fit.TheConstants.{MOST_FILES, MOST_OCTETS};
ghost use Rattle.oftp_register.specs.Register.{Register, empty};
ghost use Rattle.oftp_tables.specs.Opening.{FailsToOpen};
ghost use Rattle.oftp_store.specs.Opens.{Has, HoldsNoTable, HoldsTaken, IsOpenable, RefusesPath, TellsPath, to_open};
ghost use Rattle.oftp_store.specs.Paths.{IsKept};
ghost use Rattle.oftp_store.specs.Shown.{database_of, faults_of, limits_of};
ghost use Rattle.oftp_durable.specs.Databases.{ReopensPrefix, WhereFilesHold};
ghost use Rattle.oftp_durable.specs.Headline.{LeavesAlone};

use oftp_store::{PathFault, PathRefused, SqlOffice, open_at};
use oftp_vfile::Limits;
use sqlite::{Alter, FileFrom, FileStore, Start};

// After a crash, an office that has a register leaves its tables and nothing else.
fn leaves_alone<S: Alter>(office: &SqlOffice<S>)
    ensures { (r : Register) → Has (limits_of office.now) r (database_of S.Store office.now) → LeavesAlone (limits_of office.now) (database_of S.Store office.now) r }
{
    let _ = office;
}

/// Opens the office in the files at a path, as [`open_at`] does. Where the files hold no table, it makes the office's tables. `S` stands
/// for the content of the files.
///
/// If a crash left the tables of a register after a prefix of some changes, the office has that register. The next crash leaves its
/// tables and nothing else. The limits are those of the register, at most 1,000,000 files and 1,024,000,000 octets of a file.
///
/// # Errors
///
/// Those of [`open_at`], with what they leave.
pub fn open_durable<S: Start>(
    rt: &HostRuntime,
    path: &str,
    limits: Limits,
    start: S,
) -> Result<SqlOffice<FileStore<FileFrom<S>>>, PathRefused<FileStore<FileFrom<S>>>>
    requires files { limits.files ≤ MOST_FILES }
    requires octets { limits.octets ≤ MOST_OCTETS }
    ensures unkept { (result ≡ Err (PathRefused.Path PathFault.Unkept)) ↔ ¬ IsKept path.now }
    ensures limits { IfOk result (λ o. limits_of o ≡ limits) }
    ensures faults { IfOk result (λ o. faults_of o ≡ 0) }
    // The files hold no table, or the office's tables.
    ensures known { IfOk result (λ o. HasCleanDisk (database_of over_files o) → HoldsTaken IsOpenable (HoldsDatabase (image_at S.Start))) }
    // The office has the register whose tables the files hold.
    ensures found { IfOk result (λ o. HasCleanDisk (database_of over_files o)
        → WhereFilesHold (image_at S.Start) limits (LeavesAlone limits (database_of over_files o))) }
    // So it has the register after a prefix of the changes of a run that crashed, where the files hold what that crash left.
    ensures reopened { IfOk result (λ o. HasCleanDisk (database_of over_files o) → ReopensPrefix (image_at S.Start) limits (database_of over_files o)) }
    // Where they hold no table, the office has the empty register.
    ensures fresh { IfOk result (λ o. HasCleanDisk (database_of over_files o) → HoldsNoTable (image_at S.Start) → LeavesAlone limits (database_of over_files o) (empty limits)) }
    // Another database is a wrong schema and stays unchanged. After any other error the files hold their old content or the new tables.
    ensures refused { IfErr result (RefusesPath over_files to_open (image_at S.Start)) }
    // An error of the store other than a wrong schema is one of SQLite in this call.
    ensures told { IfErr result (TellsPath over_files (FailsToOpen over_files) (image_at S.Start)) }
{
    let office = open_at(rt, path, limits, start)?;
    leaves_alone(&office);
    Ok(office)
}
