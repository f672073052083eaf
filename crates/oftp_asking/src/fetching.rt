//! The command `fetch`, which writes an incoming file in its local form.

use crate::contents::is_awaited;
use oftp_channel::{Ending, Request};
use oftp_command_line::Fetch;
use oftp_engine::RunFault;
use oftp_files::{Draft, Name, Place, draft_of, file_fault, place_of, settle};
use oftp_outcomes::{Fault, Outcome};
use oftp_requests::{Backend, outcome_in};
use std::fs::File;
use std::io::{self, ErrorKind, Write};
use std::mem;

/// Writes a whole incoming file to a file, by whoever carries out the request. What isn't a regular file, such as a pipe, is opened and written
/// once the backend is let go, which closes its database. Its reader may take long.
///
/// # Errors
/// Those of the backend; [`Fault::File`] if the file can't be written; [`Fault::MEMORY`]. The file is as it was then.
pub fn fetch<'a, B: Backend + Drop>(
    rt: &'a HostRuntime,
    line: &'a Fetch<'a>,
    backend: B,
) -> Result<Outcome, Fault> {
    let mut backend = backend;
    let mut file = FetchedFile::new(rt, line);
    let asked = backend.ask(&Request::Fetch { no: line.no }, &mut file);
    drop(backend);
    file.settled(asked)
}

/// Where a content goes that is being fetched.
#[derive(Drop)]
enum Target {
    /// None of it came yet.
    Unopened,
    /// To a draft of the file with a name.
    Draft(Name, Draft),
    /// To memory, until the database is closed.
    Memory(Vec<u8>),
    /// The file can't be made.
    Failed(Fault),
}

/// The file that a command line names for a content. It is opened with the first octets.
#[derive(Drop)]
struct FetchedFile<'a> {
    rt: &'a HostRuntime,
    line: &'a Fetch<'a>,
    target: Target,
}

impl<'a> FetchedFile<'a> {
    /// A file of which nothing came yet.
    fn new(rt: &'a HostRuntime, line: &'a Fetch<'a>) -> FetchedFile<'a> {
        FetchedFile {
            rt,
            line,
            target: Target::Unopened,
        }
    }

    /// Opens it, unless it is.
    fn open(&mut self) {
        if let Target::Unopened = &self.target {
            self.target = match self.opened() {
                Ok(target) => target,
                Err(fault) => Target::Failed(fault),
            };
        }
    }

    /// The target of its octets.
    fn opened(&self) -> Result<Target, Fault> {
        if is_awaited(self.rt, self.line.file) {
            return Ok(Target::Memory(Vec::new(self.rt.alloc())));
        }
        match place_of(self.rt, self.line.file, self.line.database)? {
            Place::Device(_) => Ok(Target::Memory(Vec::new(self.rt.alloc()))),
            Place::Name(name) => {
                let draft = draft_of(self.rt, &name)?;
                Ok(Target::Draft(name, draft))
            }
        }
    }

    /// Finishes the file if all of it came, and else removes its draft. Returns the outcome.
    fn settled(mut self, asked: Result<Ending, Fault>) -> Result<Outcome, Fault> {
        let outcome = outcome_in(asked);
        if let Ok(Outcome::Done(_, _)) = &outcome {
            self.open();
        }
        let target = mem::replace(&mut self.target, Target::Unopened);
        finished(self.rt, self.line, target, outcome)
    }
}

/// Finishes a file whose content came with this outcome.
fn finished(
    rt: &HostRuntime,
    line: &Fetch<'_>,
    target: Target,
    outcome: Result<Outcome, Fault>,
) -> Result<Outcome, Fault> {
    match target {
        Target::Unopened => outcome,
        Target::Failed(fault) => Err(fault),
        Target::Draft(name, draft) => {
            let written = match &outcome {
                Ok(_) => Ok(()),
                Err(fault) => Err(written_fault(*fault)),
            };
            settle(rt, draft, &name, written)?;
            outcome
        }
        Target::Memory(octets) => {
            let outcome = outcome?;
            write_device(rt, line, octets.as_slice())?;
            Ok(outcome)
        }
    }
}

/// Writes what came to what isn't a regular file.
fn write_device(rt: &HostRuntime, line: &Fetch<'_>, octets: &[u8]) -> Result<(), Fault> {
    match place_of(rt, line.file, line.database)? {
        Place::Device(mut device) => put(&mut device, octets),
        Place::Name(name) => {
            let mut draft = draft_of(rt, &name)?;
            let written = put(&mut draft.file, octets);
            settle(rt, draft, &name, written)
        }
    }
}

/// Writes octets.
fn put(file: &mut File, octets: &[u8]) -> Result<(), Fault> {
    file.write_all(octets).map_err(|error| file_fault(&error))
}

/// The error for a content that didn't come whole. A failed write is an error of the file.
fn written_fault(fault: Fault) -> Fault {
    match fault {
        Fault::Run(RunFault::Write) => Fault::File,
        other => other,
    }
}

impl Write for FetchedFile<'_> {
    fn write(&mut self, octets: &[u8]) -> io::Result<usize> {
        self.open();
        let is_kept = match &mut self.target {
            Target::Draft(_, draft) => return draft.file.write(octets),
            Target::Memory(kept) => kept.extend_from_slice(octets).is_ok(),
            Target::Unopened | Target::Failed(_) => {
                return Err(io::Error::from(ErrorKind::Other));
            }
        };
        if is_kept {
            return Ok(octets.len());
        }
        self.target = Target::Failed(Fault::MEMORY);
        Err(io::Error::from(ErrorKind::OutOfMemory))
    }

    fn flush(&mut self) -> io::Result<()> {
        Ok(())
    }
}
