//! A list of jobs over a database.

ghost use Rattle.std.specs.Prelude.{◌≡◌, ◌≤◌, ◌↔◌, IfErr, IfOk, OnErr};
ghost use Rattle.sqlite.specs.Files.{HoldsDatabase, over_files};
ghost use Rattle.sqlite.specs.State.{HasCleanDisk};
ghost use Rattle.sqlite.specs.WalFiles.{image_at};
ghost use Rattle.oftp_register.specs.declared.fit.TheConstants.{MOST_FILES, MOST_OCTETS};
ghost use Rattle.oftp_register.specs.Register.{empty};
ghost use Rattle.oftp_tables.specs.Opening.{FailsToOpen};
ghost use Rattle.oftp_store.specs.Opens.{HoldsNoTable, HoldsTaken, IsOpenable, RefusesPath, TellsPath, to_open};
ghost use Rattle.oftp_store.specs.Paths.{IsKept};
ghost use Rattle.oftp_store.specs.Shown.{database_of, faults_of};
ghost use Rattle.oftp_durable.specs.Databases.{LeavesItsOwn, OnCleanDisk, WhereFilesHold};
ghost use Rattle.oftp_durable.specs.Headline.{ButForOffice};
ghost use Rattle.oftp_durable.specs.Lists.{ListLeavesOver};

use crate::opening::open_durable;
use oftp_engine::{Job, RunFault, run};
use oftp_partners::Book;
use oftp_store::{PathFault, PathRefused, SqlOffice};
use oftp_vfile::Limits;
use sqlite::{Alter, FileFrom, FileStore, Start};
use std::alloc::Global;
use std::io::{Read, Write};

/// Does a list of jobs, as [`run`] does, by the office over a database.
///
/// At every return, also with an error, a crash leaves the tables of the register after a prefix of the changes of all jobs. The prefix has
/// each change whose answer has one octet out. Except after an error of the office, a crash leaves the tables of the office's register and
/// nothing else. The premise is a disk that keeps what it has synced, and a database that nobody else writes.
///
/// # Errors
///
/// Those of [`run`], with what they leave.
pub fn run_durable<S: Alter, R: Read, W: Write>(
    alloc: Global,
    office: &mut SqlOffice<S>,
    book: &Book,
    jobs: &mut [Job<'_, R, W>],
) -> Result<(), RunFault>
    ensures leaves { OnCleanDisk S.Store office.old office.new (λ r.
        ListLeavesOver S.Store R.remaining W.contents book.now r (faults_of office.old) office.new jobs.old jobs.new result) }
    ensures alone { OnCleanDisk S.Store office.old office.new (λ _. ButForOffice result (LeavesItsOwn S.Store office.new)) }
    ensures clean { HasCleanDisk (database_of S.Store office.new) → HasCleanDisk (database_of S.Store office.old) }
{
    run(alloc, office, book, jobs)
}

/// The result of a list of jobs, and the office that did it.
#[derive(Drop)]
pub struct Ran<S: Alter> {
    /// The office.
    pub office: SqlOffice<S>,
    /// What [`run`] returned.
    pub result: Result<(), RunFault>,
}

/// Opens the office in the files at a path, and does a list of jobs by it: [`open_durable`], then [`run_durable`]. The limits are those
/// that `open_durable` accepts.
///
/// # Errors
///
/// Those of [`open_durable`], with what they leave. No job was begun, and the jobs are unchanged.
pub fn run_at<S: Start, R: Read, W: Write>(
    rt: &HostRuntime,
    path: &str,
    limits: Limits,
    start: S,
    book: &Book,
    jobs: &mut [Job<'_, R, W>],
) -> Result<Ran<FileStore<FileFrom<S>>>, PathRefused<FileStore<FileFrom<S>>>>
    requires files { limits.files ≤ MOST_FILES }
    requires octets { limits.octets ≤ MOST_OCTETS }
    ensures unkept { (result ≡ Err (PathRefused.Path PathFault.Unkept)) ↔ ¬ IsKept path.now }
    ensures idle { OnErr result (jobs.new ≡ jobs.old) }
    // The files hold no table, or the office's tables.
    ensures known { IfOk result (λ ran. HasCleanDisk (database_of over_files ran.office) → HoldsTaken IsOpenable (HoldsDatabase (image_at S.Start))) }
    // The headline, from the content of the files.
    ensures leaves { IfOk result (λ ran. HasCleanDisk (database_of over_files ran.office) → WhereFilesHold (image_at S.Start) limits (λ r.
        ListLeavesOver over_files R.remaining W.contents book.now r 0 ran.office jobs.old jobs.new ran.result)) }
    ensures alone { IfOk result (λ ran. HasCleanDisk (database_of over_files ran.office) → WhereFilesHold (image_at S.Start) limits (λ _.
        ButForOffice ran.result (LeavesItsOwn over_files ran.office))) }
    // The headline of a first run, from files that hold no table.
    ensures fresh { IfOk result (λ ran. HasCleanDisk (database_of over_files ran.office) → HoldsNoTable (image_at S.Start)
        → ListLeavesOver over_files R.remaining W.contents book.now (empty limits) 0 ran.office jobs.old jobs.new ran.result) }
    // Another database is a wrong schema and stays unchanged. After any other error the files hold their old content or the new tables.
    ensures refused { IfErr result (RefusesPath over_files to_open (image_at S.Start)) }
    // An error of the store other than a wrong schema is one of SQLite in this call.
    ensures told { IfErr result (TellsPath over_files (FailsToOpen over_files) (image_at S.Start)) }
{
    let mut office = open_durable(rt, path, limits, start)?;
    let result = run_durable(rt.alloc(), &mut office, book, jobs);
    Ok(Ran { office, result })
}
