//! The results of commands, as they are printed.

ghost use Rattle.std.specs.Prelude.{◌≡◌, IfErr, OnOk, Some};
ghost use Rattle.oftp_outcomes.specs.Printed.{TakesLine, fault_in_memory, fault_line, fault_of_report, is_refusal, outcome_line, outcome_of, out_of_memory, resent_line, verb_text, write_fault};

use oftp_engine::{End, Refusal, RunFault, Told};
use oftp_listing::ListFault;
use oftp_partners::BookFault;
use oftp_tables::StoreFault;
use std::alloc::{AllocError, AllocFailed};
use std::fmt;
use std::io::{self, Write};

/// Why a command failed: the line on standard error.
#[derive(Clone, Copy, Debug, PartialEq, Eq, Drop)]
pub enum Fault {
    /// A session failed.
    Run(RunFault),
    /// The book is invalid.
    Book(BookFault),
    /// The database can't be opened or migrated.
    Store(StoreFault),
    /// A file that the command line names can't be read or written.
    File,
    /// An address can't be bound or connected to, or a caller can't be accepted.
    Socket,
}

impl Fault {
    /// Out of memory.
    pub const MEMORY: Fault = Fault::Run(RunFault::Memory);

    /// The error of what was written to memory: a write that failed there is out of memory.
    pub fn in_memory(self) -> Fault
        ensures { result ≡ fault_in_memory self }
    {
        match self {
            Fault::Run(RunFault::Write) => Fault::MEMORY,
            other => other,
        }
    }
}

impl From<AllocError> for Fault {
    ghost from_gives = { λ _ fault. fault ≡ out_of_memory };

    fn from(_error: AllocError) -> Fault {
        Fault::MEMORY
    }
}

impl<T: Drop> From<AllocFailed<T>> for Fault {
    ghost from_gives = { λ _ fault. fault ≡ out_of_memory };

    fn from(_error: AllocFailed<T>) -> Fault {
        Fault::from(AllocError)
    }
}

impl From<ListFault> for Fault {
    ghost from_gives = { λ told fault. fault ≡ fault_of_report told };

    // A whole request or a report never gives `Incomplete`.
    fn from(fault: ListFault) -> Fault {
        Fault::Run(match fault {
            ListFault::Incomplete | ListFault::Memory => RunFault::Memory,
            ListFault::Office => RunFault::Office,
            ListFault::Write => RunFault::Write,
        })
    }
}

impl fmt::Display for Fault {
    ghost output = { λ fault. Some (fault_line fault) };

    fn fmt<W: fmt::Write>(&self, f: &mut fmt::Formatter<W>) -> fmt::Result {
        match self {
            Fault::Run(RunFault::Read) => f.write_str("fault: 1 read"),
            Fault::Run(RunFault::Write) => f.write_str("fault: 2 write"),
            Fault::Run(RunFault::Office) => f.write_str("fault: 3 office"),
            Fault::Run(RunFault::Memory) => f.write_str("fault: 4 memory"),
            Fault::Book(fault) => write!(f, "fault: 5 book {}", fault.number()),
            Fault::Store(StoreFault::Store) => f.write_str("fault: 6 store 1"),
            Fault::Store(StoreFault::Memory) => f.write_str("fault: 6 store 2"),
            Fault::Store(StoreFault::WrongSchema) => f.write_str("fault: 6 store 3"),
            Fault::File => f.write_str("fault: 7 file"),
            Fault::Socket => f.write_str("fault: 8 socket"),
        }
    }
}

/// What a command does with one file.
#[derive(Clone, Copy, Debug, PartialEq, Eq, Drop)]
pub enum Verb {
    /// Submits it.
    Submit,
    /// Issues its End-to-End Response.
    Release,
    /// Issues its Negative End Response.
    Refuse,
    /// Writes its content.
    Fetch,
}

impl fmt::Display for Verb {
    ghost output = { λ verb. Some (verb_text verb) };

    fn fmt<W: fmt::Write>(&self, f: &mut fmt::Formatter<W>) -> fmt::Result {
        match self {
            Verb::Submit => f.write_str("submit"),
            Verb::Release => f.write_str("release"),
            Verb::Refuse => f.write_str("refuse"),
            Verb::Fetch => f.write_str("fetch"),
        }
    }
}

/// What a command did: the line on standard output.
#[derive(Clone, Copy, Debug, PartialEq, Eq, Drop)]
pub enum Outcome {
    /// The database was opened, and has its tables.
    Initiated,
    /// The database has schema 2.
    Migrated,
    /// The book is valid, and has this number of partners.
    Checked(usize),
    /// A session was served, with this end.
    Ended(End),
    /// This was done with the file with this number.
    Done(Verb, u64),
    /// The database was copied.
    BackedUp,
    /// The station has ended.
    Stopped,
    /// The station has read its book again.
    Reloaded,
    /// The command was refused, and nothing was changed.
    Refused(Refusal),
}

impl Outcome {
    /// Whether the command was refused.
    pub fn is_refusal(&self) -> bool
        ensures { result ≡ is_refusal self.now }
    {
        match self {
            Outcome::Initiated | Outcome::Migrated | Outcome::BackedUp => false,
            Outcome::Stopped | Outcome::Reloaded => false,
            Outcome::Checked(_) | Outcome::Ended(_) | Outcome::Done(..) => false,
            Outcome::Refused(_) => true,
        }
    }
}

impl fmt::Display for Outcome {
    ghost output = { λ outcome. Some (outcome_line outcome) };

    fn fmt<W: fmt::Write>(&self, f: &mut fmt::Formatter<W>) -> fmt::Result {
        match self {
            Outcome::Initiated => f.write_str("done: init"),
            Outcome::Migrated => f.write_str("done: migrate"),
            Outcome::Checked(count) => write!(f, "ok: {count} partners"),
            Outcome::Ended(End::Own(reason)) => {
                let number = reason.number().get();
                write!(f, "end: own {}{}", number / 10, number % 10)
            }
            Outcome::Ended(End::Partner(reason)) => {
                let number = reason.get();
                write!(f, "end: partner {}{}", number / 10, number % 10)
            }
            Outcome::Ended(End::Input) => f.write_str("end: input"),
            Outcome::Done(verb, no) => write!(f, "done: {verb} {no}"),
            Outcome::BackedUp => f.write_str("done: backup"),
            Outcome::Stopped => f.write_str("done: stop"),
            Outcome::Reloaded => f.write_str("done: reload"),
            Outcome::Refused(why) => write!(f, "{why}"),
        }
    }
}

/// How the command ended that submits an outgoing file again: the line on standard output.
#[derive(Clone, Copy, Debug, PartialEq, Eq, Drop)]
pub struct Resent {
    /// The number of the outgoing file.
    pub no: u64,
    /// The outcome. Its number is that of the new file.
    pub outcome: Outcome,
}

impl fmt::Display for Resent {
    ghost output = { λ resent. Some (resent_line resent.no resent.outcome) };

    fn fmt<W: fmt::Write>(&self, f: &mut fmt::Formatter<W>) -> fmt::Result {
        match self.outcome {
            Outcome::Done(_, copy) => write!(f, "done: resend {} {copy}", self.no),
            outcome => write!(f, "{outcome}"),
        }
    }
}

/// The outcome of an operator's call on one file.
pub fn outcome_of(verb: Verb, told: Told) -> Outcome
    ensures { result ≡ outcome_of verb told }
{
    match told {
        Told::Done(no) => Outcome::Done(verb, no),
        Told::Refused(why) => Outcome::Refused(why),
    }
}

/// Writes a line and its line end, and flushes the output, so that its readers get the line at once.
///
/// # Errors
///
/// [`Fault::Run`] with [`RunFault::Write`]: the output returned an error. It may have the line, or a beginning of it.
pub fn write_line<L: fmt::Display, W: Write>(out: &mut W, line: &L) -> Result<(), Fault>
    ensures written { OnOk result (TakesLine (W.contents out.old) (W.contents out.new) (L.output line.now)) }
    ensures fails { IfErr result (λ fault. fault ≡ write_fault) }
{
    match put_line(out, line) {
        Ok(()) => Ok(()),
        Err(_) => Err(Fault::Run(RunFault::Write)),
    }
}

/// Writes a line and flushes the output.
fn put_line<L: fmt::Display, W: Write>(out: &mut W, line: &L) -> io::Result<()>
    ensures { OnOk result (TakesLine (W.contents out.old) (W.contents out.new) (L.output line.now)) }
{
    writeln!(out, "{line}")?;
    out.flush()
}
