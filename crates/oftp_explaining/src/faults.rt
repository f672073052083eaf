//! What is told beside a `fault:` line.

use crate::addresses::{bound_cause, called_cause};
use crate::books::tell_book;
use crate::databases::{database_cause, is_missing};
use crate::paths::faulty_path;
use crate::places::{book_of, database_of};
use crate::teller::Teller;
use oftp_command_line::{Call, Line, Run};
use oftp_engine::RunFault;
use oftp_files::read_book;
use oftp_notes::{AddressCause, DatabaseCause, Note};
use oftp_outcomes::Fault;
use oftp_partners::BookFault;
use oftp_tables::StoreFault;
use std::io::Write;

/// Tells why a command failed.
pub fn tell_fault<W: Write>(teller: &mut Teller<'_, W>, line: &Line<'_>, fault: Fault) {
    match fault {
        Fault::Run(RunFault::Memory)
        | Fault::Store(StoreFault::Memory)
        | Fault::Book(BookFault::Memory) => teller.tell(&Note::Memory),
        Fault::Run(RunFault::Write) => teller.tell(&Note::Output),
        Fault::Run(RunFault::Read) => tell_silence(teller, line),
        Fault::Run(RunFault::Office) => tell_database(teller, line, DatabaseCause::IsFailing),
        Fault::Book(_) => tell_book(teller, book_of(line)),
        Fault::Store(StoreFault::WrongSchema) => tell_schema(teller, line),
        Fault::Store(StoreFault::Store) => tell_store(teller, line),
        Fault::File => tell_path(teller, line),
        Fault::Socket => tell_socket(teller, line),
    }
}

/// Tells that the other end was silent.
fn tell_silence<W: Write>(teller: &mut Teller<'_, W>, line: &Line<'_>) {
    let word = match line {
        Line::Call(call) => call.partner,
        Line::Feed(feed) => feed.input,
        _ => "caller",
    };
    teller.tell(&Note::Session {
        word,
        cause: AddressCause::IsSilent,
    });
}

/// Tells why the database can't be used.
fn tell_database<W: Write>(teller: &mut Teller<'_, W>, line: &Line<'_>, cause: DatabaseCause) {
    match database_of(line) {
        Some(path) => teller.tell(&Note::Database { path, cause }),
        None => teller.tell(&Note::Memory),
    }
}

/// Tells what is there instead of the station's tables.
fn tell_schema<W: Write>(teller: &mut Teller<'_, W>, line: &Line<'_>) {
    let is_there = match database_of(line) {
        Some(path) => !is_missing(teller.rt, path),
        None => false,
    };
    let cause = if is_there {
        DatabaseCause::IsOfOthers
    } else {
        DatabaseCause::IsMissing
    };
    tell_database(teller, line, cause);
}

/// Tells why the database can't be opened.
fn tell_store<W: Write>(teller: &mut Teller<'_, W>, line: &Line<'_>) {
    if let Some(path) = database_of(line) {
        let cause = database_cause(teller.rt, path);
        teller.tell(&Note::Database { path, cause });
    }
}

/// Tells which path can't be used.
fn tell_path<W: Write>(teller: &mut Teller<'_, W>, line: &Line<'_>) {
    if let Some((path, cause)) = faulty_path(teller.rt, line) {
        teller.tell(&Note::Path { path, cause });
    }
}

/// Tells which address can't be connected or bound.
fn tell_socket<W: Write>(teller: &mut Teller<'_, W>, line: &Line<'_>) {
    match line {
        Line::Call(call) => tell_call(teller, call),
        Line::Run(run) => tell_doors(teller, run),
        Line::Listen(listen) => tell_port(teller, listen.entrance.address, listen.entrance.port),
        Line::Http(http) => tell_port(teller, http.address, http.port),
        _ => teller.tell(&Note::Session {
            word: "the station",
            cause: AddressCause::IsEnding,
        }),
    }
}

/// Tells why a partner can't be called.
fn tell_call<W: Write>(teller: &mut Teller<'_, W>, call: &Call<'_>) {
    let Ok(book) = read_book(teller.rt, call.files.book) else {
        return;
    };
    let Some(partner) = book.partner(call.partner.as_bytes()) else {
        return;
    };
    let address = partner.address.as_str();
    let cause = called_cause(teller.rt, address);
    teller.tell(&Note::Called {
        code: call.partner,
        address,
        cause,
    });
}

/// Tells which door of a station can't be opened: that of partners, or else that of browsers.
fn tell_doors<W: Write>(teller: &mut Teller<'_, W>, run: &Run<'_>) {
    let address = run.entrance.address;
    let cause = bound_cause(teller.rt, address, run.entrance.port);
    if run.http_port != 0 && cause == AddressCause::IsOther {
        tell_port(teller, address, run.http_port);
    } else {
        tell_port(teller, address, run.entrance.port);
    }
}

/// Tells why nobody can be waited for at an address.
fn tell_port<W: Write>(teller: &mut Teller<'_, W>, address: &str, port: u16) {
    let cause = bound_cause(teller.rt, address, port);
    teller.tell(&Note::Bound {
        address,
        port,
        cause,
    });
}
