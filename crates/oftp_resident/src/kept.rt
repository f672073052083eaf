//! The life of a station that keeps its database open.

use oftp_engine::RunFault;
use oftp_life::Life;
use oftp_outcomes::{Fault, Term, Trouble};
use oftp_register::Office;
use oftp_sockets::Keeper;

/// Keeps one life for all jobs.
#[derive(Drop)]
pub struct Kept<O: Office> {
    // `None` in a job.
    life: Option<Life<O>>,
}

impl<O: Office> Kept<O> {
    /// Keeps this life.
    pub fn new(life: Life<O>) -> Kept<O> {
        Kept { life: Some(life) }
    }
}

impl<O: Office + Drop> Keeper<Life<O>> for Kept<O> {
    fn open(&mut self, _rt: &HostRuntime) -> Result<Life<O>, Trouble> {
        match self.life.take() {
            Some(life) => Ok(life),
            None => Err(Trouble::OfService(Fault::Run(RunFault::Office))),
        }
    }

    fn close(&mut self, _rt: &HostRuntime, life: Life<O>) {
        self.life = Some(life);
    }

    fn term(&self) -> Term {
        Term::OfService
    }
}
