//! What a service is given: its settings, the life for its jobs, and who is told the ends of its sessions.

use oftp_engine::End;
use oftp_files::Trace;
use oftp_outcomes::{Fault, Term, Trouble, Way};
use oftp_partners::Book;

/// The settings of sessions.
#[derive(Clone, Copy)]
pub struct Station<'a> {
    /// The book with the partners.
    pub book: &'a Book,
    /// How many seconds a partner may be idle before its session is given up. 0 is no limit.
    pub patience: u64,
    /// How many seconds a session may take in all.
    pub longest: u64,
    /// The trace of the connections, if there is one.
    pub trace: Option<&'a Trace<'a>>,
}

/// Who has the life of a service between its jobs.
pub trait Keeper<L> {
    /// The life, for one job.
    ///
    /// # Errors
    /// It can't be had: for this job, or for any.
    fn open(&mut self, rt: &HostRuntime) -> Result<L, Trouble>;

    /// Takes the life back after a job.
    fn close(&mut self, rt: &HostRuntime, life: L);

    /// How long each life lasts.
    fn term(&self) -> Term;
}

/// Who is told what becomes of a service.
pub trait Reporter {
    /// Takes in that it begins.
    ///
    /// # Errors
    /// The service is to end with this error.
    fn begin(&mut self) -> Result<(), Fault>;

    /// Takes in how a session with the partner with this code ended. `None` is a caller that wasn't let in.
    ///
    /// # Errors
    /// The service is to end with this error.
    fn report(
        &mut self,
        code: Option<&str>,
        way: Way,
        ended: Result<End, Trouble>,
    ) -> Result<(), Fault>;

    /// Takes in the error of a request that has no answer for it.
    fn refuse(&mut self, fault: Fault);
}
