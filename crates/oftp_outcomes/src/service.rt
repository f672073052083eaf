//! The lines of a station that runs, and which errors of its sessions end it.

ghost use Rattle.std.specs.Prelude.{◌≡◌, Some};
ghost use Rattle.oftp_outcomes.specs.Service.{last_fault, plain, service_line, trouble_fault, way_text};

use crate::outcome::{Fault, Outcome};
use oftp_engine::{End, RunFault};
use std::fmt;

/// The side that called for a session.
#[derive(Clone, Copy, Debug, PartialEq, Eq, Drop)]
pub enum Way {
    /// The partner called.
    In,
    /// The station called.
    Out,
}

impl fmt::Display for Way {
    ghost output = { λ way. Some (way_text way) };

    fn fmt<W: fmt::Write>(&self, f: &mut fmt::Formatter<W>) -> fmt::Result {
        match self {
            Way::In => f.write_str("in"),
            Way::Out => f.write_str("out"),
        }
    }
}

/// Why a job or a session failed.
#[derive(Clone, Copy, Debug, PartialEq, Eq, Drop)]
pub enum Trouble {
    /// An error of this job alone. The service goes on.
    OfJob(Fault),
    /// An error of the service.
    OfService(Fault),
}

impl Trouble {
    /// The error of either kind.
    pub fn fault(self) -> Fault
        ensures { result ≡ trouble_fault self }
    {
        match self {
            Trouble::OfJob(fault) | Trouble::OfService(fault) => fault,
        }
    }
}

/// How long a life lasts in which a job is done.
#[derive(Clone, Copy, Debug, PartialEq, Eq, Drop)]
pub enum Term {
    /// As long as the service.
    OfService,
    /// For one job.
    OfJob,
}

/// The error of a session that ends the service: each of the service but out of memory, which ends the session alone.
pub fn last_fault(ended: &Result<End, Trouble>) -> Option<Fault>
    ensures { result ≡ last_fault ended.now }
{
    match ended {
        Err(Trouble::OfService(Fault::Run(RunFault::Memory))) => None,
        Err(Trouble::OfService(fault)) => Some(*fault),
        _ => None,
    }
}

/// How a session ended, whoever else its error concerns.
pub fn plain(ended: &Result<End, Trouble>) -> Result<End, Fault>
    ensures { result ≡ plain ended.now }
{
    match ended {
        Ok(end) => Ok(*end),
        Err(trouble) => Err(trouble.fault()),
    }
}

/// A line of a station that runs.
#[derive(Clone, Copy, Drop)]
pub enum ServiceLine<'a> {
    /// It takes calls.
    Ready,
    /// A session ended.
    Session {
        /// The partner's code, or `-` for a caller that wasn't let in.
        code: &'a str,
        /// The side that called.
        way: Way,
        /// How it ended.
        ended: Result<End, Fault>,
    },
}

impl fmt::Display for ServiceLine<'_> {
    ghost output = { λ line. Some (service_line line) };

    fn fmt<W: fmt::Write>(&self, f: &mut fmt::Formatter<W>) -> fmt::Result {
        match self {
            ServiceLine::Ready => f.write_str("ready"),
            ServiceLine::Session { code, way, ended } => match ended {
                Ok(end) => write!(f, "session {code} {way}: {}", Outcome::Ended(*end)),
                Err(fault) => write!(f, "session {code} {way}: {fault}"),
            },
        }
    }
}
