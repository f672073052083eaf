//! Lists of jobs, done one after another.

ghost use Rattle.std.specs.Prelude.{◌≡◌, None};
ghost use Rattle.oftp_engine.specs.Jobs.{Runs};
ghost use Rattle.oftp_engine.specs.Serving.{OnCleanStore, WasClean};
ghost use Rattle.oftp_engine.specs.InsideRunning.{IsListResult, TriesJob};

use crate::operating::{Operator, Told, operate};
use crate::serving::{End, Role, RunFault, serve};
use oftp_io::Port;
use oftp_partners::Book;
use oftp_register::Office;
use std::alloc::Global;
use std::io::{Read, Write};

/// A session as a job, with its ports.
#[derive(Drop)]
pub struct SessionJob<'b, R, W> {
    /// Which side calls.
    pub role: Role<'b>,
    /// The octets from the partner.
    pub reader: Port<R>,
    /// The octets to the partner.
    pub writer: Port<W>,
    /// What [`serve`] returned, once the session was served.
    pub result: Option<Result<End, RunFault>>,
}

/// An operator's call as a job, with its port.
#[derive(Drop)]
pub struct CallJob<'a, W> {
    /// The call.
    pub call: Operator<'a>,
    /// The output for the line that reports it.
    pub writer: Port<W>,
    /// What [`operate`] returned, once the call was carried out.
    pub result: Option<Result<Told, RunFault>>,
}

/// A job: a session or an operator's call.
#[derive(Drop)]
pub enum Job<'a, R, W> {
    /// A session.
    Session(SessionJob<'a, R, W>),
    /// An operator's call.
    Call(CallJob<'a, W>),
}

impl<'a, R, W> Job<'a, R, W> {
    /// The job of a session in a role, over these ports.
    pub fn session(role: Role<'a>, reader: Port<R>, writer: Port<W>) -> Job<'a, R, W>
        ensures { result ≡ Job.Session (record { role = role.entry; reader = reader; writer = writer; result = None }) }
    {
        Job::Session(SessionJob {
            role,
            reader,
            writer,
            result: None,
        })
    }

    /// The job of an operator's call whose line goes to this port.
    pub fn call(call: Operator<'a>, writer: Port<W>) -> Job<'a, R, W>
        ensures { result ≡ Job.Call (record { call = call.entry; writer = writer; result = None }) }
    {
        Job::Call(CallJob {
            call,
            writer,
            result: None,
        })
    }
}

// The result of a list after a job's result. An error of the job's ports doesn't end the list.
fn list_result<T>(answer: &Result<T, RunFault>) -> Result<(), RunFault>
    ensures { IsListResult answer.now result }
{
    match answer {
        Ok(_) | Err(RunFault::Read | RunFault::Write) => Ok(()),
        Err(RunFault::Office) => Err(RunFault::Office),
        Err(RunFault::Memory) => Err(RunFault::Memory),
    }
}

// Serves a session and stores the result in its job.
fn serve_job<O: Office, R: Read, W: Write>(
    alloc: Global,
    office: &mut O,
    book: &Book,
    job: &mut SessionJob<'_, R, W>,
) -> Result<(), RunFault>
    ensures clean { WasClean (O.view office.old) (O.view office.new) }
    ensures does { TriesJob R.remaining W.contents book.now (O.view office.old) (O.view office.new) (Job.Session job.old) (Job.Session job.new) result }
{
    let role = job.role;
    let answer = serve(alloc, office, book, role, &mut job.reader, &mut job.writer);
    let after = list_result(&answer);
    job.result = Some(answer);
    after
}

// Carries out an operator's call and stores the result in its job.
fn operate_job<O: Office, R: Read, W: Write>(
    alloc: Global,
    office: &mut O,
    book: &Book,
    job: &mut CallJob<'_, W>,
) -> Result<(), RunFault>
    ensures clean { WasClean (O.view office.old) (O.view office.new) }
    ensures does { TriesJob R.remaining W.contents book.now (O.view office.old) (O.view office.new) (Job.Call job.old) (Job.Call job.new) result }
{
    let answer = operate(alloc, office, book, &job.call, &mut job.writer);
    let after = list_result(&answer);
    job.result = Some(answer);
    after
}

// Does a job.
fn do_job<O: Office, R: Read, W: Write>(
    alloc: Global,
    office: &mut O,
    book: &Book,
    job: &mut Job<'_, R, W>,
) -> Result<(), RunFault>
    ensures clean { WasClean (O.view office.old) (O.view office.new) }
    ensures does { TriesJob R.remaining W.contents book.now (O.view office.old) (O.view office.new) job.old job.new result }
{
    match job {
        Job::Session(session) => serve_job(alloc, office, book, session),
        Job::Call(call) => operate_job::<O, R, W>(alloc, office, book, call),
    }
}

/// Does the jobs of a list in order, and stores the result of each in it: that of [`serve`] or of [`operate`]. An error of a job's reader
/// or writer ends only that job.
///
/// Each job starts from the register that the job before it left.
///
/// # Errors
///
/// [`RunFault::Office`] or [`RunFault::Memory`], where a job returned it. The list ends there, and the jobs after that one are unchanged,
/// without a result. The register is the one after a prefix of all changes, with each that was answered. After [`RunFault::Memory`] a crash
/// leaves this register. After [`RunFault::Office`] it leaves the register after such a prefix.
pub fn run<O: Office, R: Read, W: Write>(
    alloc: Global,
    office: &mut O,
    book: &Book,
    jobs: &mut [Job<'_, R, W>],
) -> Result<(), RunFault>
    ensures runs { OnCleanStore (O.view office.old) (O.view office.new) (Runs R.remaining W.contents book.now
        (O.view office.old) (O.view office.new) jobs.old jobs.new result) }
    ensures clean { WasClean (O.view office.old) (O.view office.new) }
{
    for i in 0..jobs.len() {
        do_job(alloc, office, book, &mut jobs[i])?;
    }
    Ok(())
}
