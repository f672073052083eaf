//! The command `feed`, which runs one session from file to file.

use crate::session_record::SessionRecord;
use crate::talking::Wire;
use oftp_command_line::{Feed, FeedRole};
use oftp_database::{self as database, PATIENCE, WatchedOffice};
use oftp_engine::{End, Port, Refusal, Role, serve_in_memory};
use oftp_files::{
    LIMITS, Trace, Traced, are_of_one_file, file_fault, is_at, is_beside_database, is_of_database,
    open_input, open_trace, read_book_octets,
};
use oftp_life::Life;
use oftp_outcomes::{Fault, Outcome};
use oftp_partners::{Book, Partner};
use oftp_recording::{file_of, record_files};
use oftp_register::PlainOffice;
use oftp_sockets::ports_of;
use std::fs::{self, File, Metadata, OpenFile};
use std::io::ErrorKind;

/// Runs one session with the octets of one file as input and another file as output, and records it if a record is named. Without a database the
/// register is in memory.
///
/// # Errors
/// [`Fault::Book`], [`Fault::Store`] or [`Fault::File`] if the book, the database or a file can't be opened; [`Fault::File`] if the record can't be
/// written; [`Fault::Run`] if the session failed.
pub fn feed(rt: &HostRuntime, line: &Feed<'_>, sources: &str) -> Result<Outcome, Fault> {
    let (octets, book) = read_book_octets(rt, line.book)?;
    let Some(role) = role_of(&book, line) else {
        return Ok(Outcome::Refused(Refusal::Unknown));
    };
    match line.database {
        Some(path) => {
            let life = database::live(rt, path, PATIENCE, None)?;
            let told = Told {
                octets: octets.as_slice(),
                sources,
            };
            feed_durable(rt, line, told, &book, role, life)
        }
        None => feed_in_memory(rt, line, &book, role),
    }
}

/// What the beginning of a record tells: the octets of the book, and the line with the sum of the program's sources.
#[derive(Clone, Copy)]
struct Told<'t> {
    octets: &'t [u8],
    sources: &'t str,
}

/// Runs the session in a life over a database, by a book, and closes it.
fn feed_durable(
    rt: &HostRuntime,
    line: &Feed<'_>,
    told: Told<'_>,
    book: &Book,
    role: Role<'_>,
    life: Life<WatchedOffice<'_>>,
) -> Result<Outcome, Fault> {
    let mut life = life;
    let input = open_input(rt, line.input)?;
    let trace = trace_of(rt, line)?;
    let record = SessionRecord::open(rt, line.record, line.input)?;
    let (reader, writer) = ports(rt, line, input, trace.as_ref())?;
    record.begin(told.sources, told.octets, &mut life)?;
    let mut wire = Wire {
        alloc: rt.alloc(),
        reader,
        writer,
        record: &record,
    };
    let (life, ended) = wire.run(life, book, role);
    let mut life = life;
    let ended = record.mark(ended, &mut life);
    drop(life);
    outcome_of(ended, trace.as_ref())
}

/// Runs the session with a register in memory.
fn feed_in_memory(
    rt: &HostRuntime,
    line: &Feed<'_>,
    book: &Book,
    role: Role<'_>,
) -> Result<Outcome, Fault> {
    let input = open_input(rt, line.input)?;
    let trace = trace_of(rt, line)?;
    let (mut reader, mut writer) = ports(rt, line, input, trace.as_ref())?;
    let alloc = rt.alloc();
    let mut office = PlainOffice::new(alloc, LIMITS);
    let ended = serve_in_memory(alloc, &mut office, book, role, &mut reader, &mut writer);
    outcome_of(ended.map_err(Fault::Run), trace.as_ref())
}

/// The outcome of a session, which is also the last line of its trace.
fn outcome_of(ended: Result<End, Fault>, trace: Option<&Trace<'_>>) -> Result<Outcome, Fault> {
    if let Some(trace) = trace {
        trace.tell_end(&ended);
    }
    ended.map(Outcome::Ended)
}

/// The trace that the command line asks for.
fn trace_of<'a>(rt: &'a HostRuntime, line: &Feed<'_>) -> Result<Option<Trace<'a>>, Fault> {
    open_trace(rt, line.trace, &[line.input, line.book], line.database)
}

/// The role in the session. An initiator needs a partner, and a named partner has to be in the book.
fn role_of<'b>(book: &'b Book, line: &Feed<'_>) -> Option<Role<'b>> {
    let named = match line.partner {
        Some(code) => Some(book.partner(code.as_bytes())?),
        None => None,
    };
    role_with(line.role, named)
}

/// The role for this side of the session, with the named partner.
fn role_with<'b>(side: FeedRole, named: Option<&'b Partner>) -> Option<Role<'b>> {
    match side {
        FeedRole::Responder => Some(Role::Responder),
        FeedRole::Initiator => named.map(Role::Initiator),
    }
}

/// The ports for the files that the command line names.
fn ports<'a>(
    rt: &HostRuntime,
    line: &Feed<'_>,
    input: File,
    trace: Option<&'a Trace<'a>>,
) -> Result<(Port<Traced<'a, File>>, Port<Traced<'a, File>>), Fault> {
    check_output(rt, line, &input)?;
    check_name(rt, line)?;
    let output = fs::create(rt, line.output).map_err(|error| file_fault(&error))?;
    Ok(ports_of(Traced::reader(input, trace), Traced::writer(output, trace)))
}

/// Refuses an output file that the session needs, since it would be truncated. A device isn't.
fn check_output(rt: &HostRuntime, line: &Feed<'_>, input: &File) -> Result<(), Fault> {
    let output = match fs::metadata(rt, line.output) {
        Ok(output) => output,
        Err(error) if error.kind() == ErrorKind::NotFound => return Ok(()),
        Err(error) => return Err(file_fault(&error)),
    };
    let input = input.metadata().map_err(|error| file_fault(&error))?;
    if output.is_file() && is_needed(rt, line, &output, &input)? {
        return Err(Fault::File);
    }
    Ok(())
}

/// Refuses an output with the name of a file that may appear beside the database.
fn check_name(rt: &HostRuntime, line: &Feed<'_>) -> Result<(), Fault> {
    match line.database {
        Some(database) if is_beside_database(rt, line.output, database)? => Err(Fault::File),
        _ => Ok(()),
    }
}

/// Whether the output is the input, the book, the trace, or a file of the record or of the database.
fn is_needed(
    rt: &HostRuntime,
    line: &Feed<'_>,
    output: &Metadata,
    input: &Metadata,
) -> Result<bool, Fault> {
    if are_of_one_file(output, input) || is_at(rt, output, line.book)? {
        return Ok(true);
    }
    if let Some(trace) = line.trace
        && is_at(rt, output, trace)?
    {
        return Ok(true);
    }
    if let Some(folder) = line.record
        && is_of_record(rt, output, folder)?
    {
        return Ok(true);
    }
    match line.database {
        Some(path) => is_of_database(rt, output, path),
        None => Ok(false),
    }
}

/// Whether a file is one of the record in a folder.
fn is_of_record(rt: &HostRuntime, about: &Metadata, folder: &str) -> Result<bool, Fault> {
    for day in record_files(rt, folder)? {
        let path = file_of(rt, folder, day.as_str())?;
        if is_at(rt, about, path.as_str())? {
            return Ok(true);
        }
    }
    Ok(false)
}
