//! The commands.

use crate::noted::Noted;
use crate::sources::SOURCES;
use crate::words::Words;
use oftp_command_line::{Call, Explain, Line, LineFault, VERSION, help, line_of};
use oftp_commands::{self as commands, Called};
use oftp_files::{explain, read_book, show};
use oftp_notes::Screen;
use oftp_outcomes::{
    DONE, FAILED, Fault, Outcome, Output, Reader, is_told, status_after, status_where, write_line,
};
use oftp_replay::explain_record;
use oftp_services as services;
use std::io::{self, ErrorKind, Write};

/// The exit status for a bad command line.
const BAD_LINE: u8 = 2;

/// Carries out a command line, given by the arguments after the program's name. Its output goes to `out`; the line of an error, or the text
/// for a bad command line, goes to `err`, and so do notes. Returns the exit status: 0 done, 1 refused or failed, 2 a bad command line.
pub fn perform(
    rt: &HostRuntime,
    words: &Words,
    screen: Screen,
    out: &mut Output<impl Write>,
    err: &mut impl Write,
) -> u8 {
    match line_of(rt.alloc(), words.line.as_slice()) {
        Ok(line) => {
            let mut noted = Noted::new(rt, words, screen, err);
            match carry_out(rt, &line, out, &mut noted) {
                Ok(status) => status,
                Err(fault) => tell_fault(fault, &line, reader_of(&line, out), &mut noted),
            }
        }
        Err(LineFault::Bad(text)) => {
            let _ = err.write_all(text.as_bytes());
            BAD_LINE
        }
        Err(LineFault::Memory) => {
            let _ = writeln!(err, "{}", Fault::MEMORY);
            FAILED
        }
    }
}

/// Whether somebody reads the output of a command, as far as that matters: a command that does more than to print tells each error.
fn reader_of<W>(line: &Line<'_>, out: &Output<W>) -> Reader {
    if line.only_prints() {
        out.reader()
    } else {
        Reader::There
    }
}

/// Prints the line of an error and its note, unless nobody is there to read it. Returns the exit status.
fn tell_fault<W: Write>(
    fault: Fault,
    line: &Line<'_>,
    reader: Reader,
    noted: &mut Noted<'_, W>,
) -> u8 {
    if is_told(fault, reader) {
        let _ = writeln!(noted.teller.err, "{fault}");
        noted.note_fault(line, fault);
    }
    FAILED
}

/// Reports to `err` that the arguments can't be read. Returns the exit status: 1 if memory ran out, or 2 for a word that isn't UTF-8.
pub fn tell_unread(error: &io::Error, err: &mut impl Write) -> u8 {
    if error.kind() == ErrorKind::OutOfMemory {
        let _ = writeln!(err, "{}", Fault::MEMORY);
        return FAILED;
    }
    let _ = err.write_all(b"error: a word of the command line isn't UTF-8\n");
    BAD_LINE
}

/// Carries out a command and writes its line, and beside it its note. Returns the exit status.
fn carry_out<W: Write>(
    rt: &HostRuntime,
    line: &Line<'_>,
    out: &mut impl Write,
    noted: &mut Noted<'_, W>,
) -> Result<u8, Fault> {
    if let Line::Check { book } = line {
        noted.explain(book, out);
    }
    match outcome_of(rt, line, out)? {
        Some(outcome) => {
            noted.note_outcome(line, &outcome);
            Ok(status_of(line, outcome))
        }
        None => {
            let status = carry_out_alone(rt, line, out, &mut noted.teller.err)?;
            noted.note_status(line, status);
            Ok(status)
        }
    }
}

/// Carries out a command whose outcome is one line, and writes that. Returns `None` for another command.
fn outcome_of(
    rt: &HostRuntime,
    line: &Line<'_>,
    out: &mut impl Write,
) -> Result<Option<Outcome>, Fault> {
    let outcome = match line {
        Line::Submit(submit) => commands::submit(rt, submit, SOURCES, out)?,
        Line::Resend(resend) => commands::resend(rt, resend, SOURCES, out)?,
        Line::Release(release) => commands::release(rt, release, SOURCES, out)?,
        Line::Refuse(refuse) => commands::refuse(rt, refuse, SOURCES, out)?,
        Line::Backup(backup) => commands::back_up(rt, backup, SOURCES, out)?,
        Line::Init { database } => told(commands::initiate(rt, database), out)?,
        Line::Migrate { database } => told(commands::migrate(rt, database), out)?,
        Line::Check { book } => told(check(rt, book), out)?,
        Line::Fetch(fetch) => told(commands::fetch(rt, fetch), out)?,
        Line::Feed(feed) => told(commands::feed(rt, feed, SOURCES), out)?,
        Line::Stop(stop) => told(commands::stop(rt, stop), out)?,
        Line::Reload { database } => told(commands::reload(rt, database), out)?,
        Line::Call(call) => told(call_partner(rt, call), out)?,
        _ => return Ok(None),
    };
    Ok(Some(outcome))
}

/// Writes the line of an outcome, if there is one, and gives it back.
fn told(outcome: Result<Outcome, Fault>, out: &mut impl Write) -> Result<Outcome, Fault> {
    let outcome = outcome?;
    write_line(out, &outcome)?;
    Ok(outcome)
}

/// Carries out a command that writes its lines itself, as reports, services and commands over a folder do. Returns the exit status.
fn carry_out_alone(
    rt: &HostRuntime,
    line: &Line<'_>,
    out: &mut impl Write,
    err: &mut impl Write,
) -> Result<u8, Fault> {
    match line {
        Line::Help => print_help(rt, out),
        Line::Version => print_version(out),
        Line::Offer(offer) => commands::offer(rt, offer, SOURCES, out),
        Line::Collect(collect) => commands::collect(rt, collect, SOURCES, out),
        Line::Report(what) => commands::write_report(rt, what, out),
        Line::Audit(audit) => commands::audit(rt, audit, out),
        Line::History(history) => commands::history(rt, history, out),
        Line::Status(status) => commands::status(rt, status, out),
        Line::Health(health) => commands::health(rt, health, out),
        Line::Settled { database } => commands::settled(rt, database, out),
        Line::Show { input } => Ok(status_where(show(rt, input, out)?)),
        Line::Explain(Explain::Octets(input, output)) => {
            Ok(status_where(explain(rt, input, *output, out)?))
        }
        Line::Explain(Explain::Recorded(folder, session)) => {
            explain_record(rt, folder, *session, out)
        }
        Line::Replay(replay) => commands::replay(rt, replay, out),
        Line::Evidence(evidence) => commands::evidence(rt, evidence, out),
        Line::Run(run) => done(services::run(rt, run, SOURCES, out)),
        Line::Listen(listen) => done(services::listen(rt, listen, SOURCES, out, err)),
        Line::Http(http) => done(services::http(rt, http, out, err)),
        _ => Ok(DONE),
    }
}

/// Has the station that runs over the database call a partner, or calls it here if none does.
fn call_partner(rt: &HostRuntime, line: &Call<'_>) -> Result<Outcome, Fault> {
    match commands::call(rt, line)? {
        Called::Told(outcome) => Ok(outcome),
        Called::Alone(octets, book) => services::call(rt, line, SOURCES, octets.as_slice(), &book),
    }
}

/// The exit status of a command whose line was written. Where the command is asked to fail with its session, it is that of the session's end.
fn status_of(line: &Line<'_>, outcome: Outcome) -> u8 {
    match line {
        Line::Call(call) if call.fails => status_after(outcome),
        _ => status_where(!outcome.is_refusal()),
    }
}

/// The exit status of a command that has written its lines.
fn done(ended: Result<(), Fault>) -> Result<u8, Fault> {
    ended?;
    Ok(DONE)
}

/// Prints what each command takes and does.
fn print_help(rt: &HostRuntime, out: &mut impl Write) -> Result<u8, Fault> {
    match help(rt.alloc()) {
        Ok(text) => print(text.as_str(), out),
        Err(_) => Err(Fault::MEMORY),
    }
}

/// Prints a text of the program and a line end.
fn print(text: &str, out: &mut impl Write) -> Result<u8, Fault> {
    write_line(out, &text)?;
    Ok(DONE)
}

/// Prints the version, and which sources the program was built from.
fn print_version(out: &mut impl Write) -> Result<u8, Fault> {
    print(VERSION, out)?;
    print(SOURCES, out)
}

/// Reads the book, and counts its partners.
fn check(rt: &HostRuntime, book: &str) -> Result<Outcome, Fault> {
    let book = read_book(rt, book)?;
    Ok(Outcome::Checked(book.count()))
}
