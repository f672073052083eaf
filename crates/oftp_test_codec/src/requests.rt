//! The values that are sent over the channel as words: requests, and files of lists.

use crate::line::Line;
use crate::octets::print_whole;
use oftp_channel::{
    Form, Haste, ListedFile, Request, Tracing, fits, read_request, write_entry, write_request,
};
use oftp_engine::{Operator, Submission};
use oftp_io::Port;
use oftp_listing::ReportKind;
use oftp_vfile::Format;
use std::{io, str};

/// The fields of a call. A field that is missing is empty.
#[derive(Clone, Copy, Drop)]
struct Given<'a> {
    fields: &'a [Vec<u8>],
}

impl<'a> Given<'a> {
    fn octets(&self, at: usize) -> &'a [u8] {
        match self.fields.get(at) {
            Some(field) => field.as_slice(),
            None => &[],
        }
    }

    fn text(&self, at: usize) -> &'a str {
        str::from_utf8(self.octets(at)).unwrap_or("")
    }

    fn number(&self, at: usize) -> u64 {
        self.text(at).parse::<u64>().unwrap_or(0)
    }

    fn format(&self, at: usize) -> Format {
        Line::new(self.text(at)).format()
    }

    fn tracing(&self, at: usize) -> Tracing {
        match self.text(at) {
            "kept" => Tracing::Kept,
            _ => Tracing::None,
        }
    }

    fn haste(&self, at: usize) -> Haste {
        match self.text(at) {
            "now" => Haste::AtOnce,
            _ => Haste::InTurn,
        }
    }

    fn form(&self, at: usize) -> Form {
        match self.text(at) {
            "json" => Form::Json,
            _ => Form::Lines,
        }
    }

    fn report(&self, at: usize) -> ReportKind {
        match self.text(at) {
            "in" => ReportKind::Incoming,
            "out" => ReportKind::Outgoing,
            "issued" => ReportKind::Issued,
            _ => ReportKind::Received,
        }
    }

    fn submission(&self) -> Submission<'a> {
        Submission {
            dataset: self.text(2),
            date: self.text(3),
            time: self.text(4),
            to: self.text(5),
            format: self.format(6),
            longest: u32::try_from(self.number(7)).unwrap_or(0),
            description: self.text(8),
            content: self.octets(9),
        }
    }

    fn call(&self) -> Operator<'a> {
        match self.text(0) {
            "submit" => Operator::Submit(self.submission()),
            "release" => Operator::Release { no: self.number(2) },
            _ => Operator::Refuse {
                no: self.number(2),
                reason: self.number(3),
                text: self.text(4),
            },
        }
    }

    fn request(&self) -> Request<'a> {
        match self.text(0) {
            "call" => Request::Call {
                partner: self.text(1),
                patience: self.number(2),
                longest: self.number(3),
                tracing: self.tracing(4),
            },
            "report" => Request::Report(self.report(1)),
            "unanswered" => Request::Unanswered,
            "outgoing" => Request::Outgoing { to: self.text(1) },
            "fetch" => Request::Fetch { no: self.number(1) },
            "holds" => Request::Holds {
                no: self.number(1),
                content: self.octets(2),
            },
            "backup" => Request::Backup { to: self.text(1) },
            "init" => Request::Init,
            "stop" => Request::Stop(self.haste(1)),
            "reload" => Request::Reload,
            "resend" => Request::Resend {
                book: self.octets(1),
                no: self.number(2),
                date: self.text(3),
                time: self.text(4),
            },
            "status" => Request::Status(self.form(1)),
            "health" => Request::Health {
                warn: self.number(1),
                critical: self.number(2),
            },
            "settled" => Request::Settled,
            _ => Request::Operate {
                book: self.octets(1),
                call: self.call(),
            },
        }
    }

    fn entry(&self) -> ListedFile<'a> {
        ListedFile {
            no: self.number(0),
            dataset: self.text(1),
            date: self.text(2),
            time: self.text(3),
            code: self.text(4),
        }
    }
}

/// Prints several fields.
fn print_all(rt: &HostRuntime, fields: &[&[u8]]) -> io::Result<()> {
    for field in fields {
        print_whole(rt, field)?;
    }
    Ok(())
}

/// Prints the words that were written.
fn print_words(rt: &HostRuntime, octets: &[u8]) -> io::Result<()> {
    let mut port = Port::new(octets, u64::MAX);
    match read_request(rt.alloc(), &mut port) {
        Ok(words) => {
            print!(rt; " ")?;
            for word in &words {
                print_whole(rt, word)?;
            }
            println!(rt)
        }
        Err(fault) => println!(rt; "  {fault:?}"),
    }
}

/// Prints the words of a request.
fn ask(rt: &HostRuntime, request: &Request<'_>) -> io::Result<()> {
    let mut port = Port::new(Vec::new(rt.alloc()), 0);
    if fits(request) && write_request(&mut port, request) {
        print_words(rt, port.inner())
    } else {
        println!(rt; "  no request")
    }
}

/// Prints the words of a file in a list.
fn list(rt: &HostRuntime, file: &ListedFile<'_>) -> io::Result<()> {
    let mut port = Port::new(Vec::new(rt.alloc()), 0);
    if write_entry(&mut port, file) {
        print_words(rt, port.inner())
    } else {
        println!(rt; "  no file")
    }
}

/// Prints a submission.
fn print_submission(rt: &HostRuntime, submission: &Submission<'_>) -> io::Result<()> {
    print!(rt; " {:?} {}", submission.format, submission.longest)?;
    print_all(
        rt,
        &[
            submission.dataset.as_bytes(),
            submission.date.as_bytes(),
            submission.time.as_bytes(),
            submission.to.as_bytes(),
            submission.description.as_bytes(),
            submission.content,
        ],
    )
}

/// Prints an operator's call.
fn print_call(rt: &HostRuntime, call: &Operator<'_>) -> io::Result<()> {
    match call {
        Operator::Submit(submission) => {
            print!(rt; " submit")?;
            print_submission(rt, submission)
        }
        Operator::Release { no } => print!(rt; " release {no}"),
        Operator::Refuse { no, reason, text } => {
            print!(rt; " refuse {no} {reason}")?;
            print_whole(rt, text.as_bytes())
        }
    }
}

/// Prints the stamps and the book of a request to submit a file again.
fn print_again(rt: &HostRuntime, request: &Request<'_>) -> io::Result<()> {
    match request {
        Request::Resend {
            book,
            date,
            time,
            ..
        } => print_all(rt, &[date.as_bytes(), time.as_bytes(), book]),
        _ => Ok(()),
    }
}

/// Prints a request.
fn print_request(rt: &HostRuntime, request: &Request<'_>) -> io::Result<()> {
    match request {
        Request::Operate { book, call } => {
            print_call(rt, call)?;
            print_whole(rt, book)
        }
        Request::Call {
            partner,
            patience,
            longest,
            tracing,
        } => {
            print!(rt; " call {patience} {longest} {tracing:?}")?;
            print_whole(rt, partner.as_bytes())
        }
        Request::Report(kind) => print!(rt; " report {kind:?}"),
        Request::Unanswered => print!(rt; " unanswered"),
        Request::Outgoing { to } => {
            print!(rt; " outgoing")?;
            print_whole(rt, to.as_bytes())
        }
        Request::Fetch { no } => print!(rt; " fetch {no}"),
        Request::Holds { no, content } => {
            print!(rt; " holds {no}")?;
            print_whole(rt, content)
        }
        Request::Backup { to } => {
            print!(rt; " backup")?;
            print_whole(rt, to.as_bytes())
        }
        Request::Init => print!(rt; " init"),
        Request::Stop(haste) => print!(rt; " stop {haste:?}"),
        Request::Reload => print!(rt; " reload"),
        Request::Resend { no, .. } => {
            print!(rt; " resend {no}")?;
            print_again(rt, request)
        }
        Request::Status(form) => print!(rt; " status {form:?}"),
        Request::Health { warn, critical } => print!(rt; " health {warn} {critical}"),
        Request::Settled => print!(rt; " settled"),
    }
}

/// Prints the request that words stand for.
fn asked(rt: &HostRuntime, words: &[Vec<u8>]) -> io::Result<()> {
    print!(rt; " ")?;
    match Request::of(words) {
        Some(request) => print_request(rt, &request)?,
        None => print!(rt; " none")?,
    }
    println!(rt)
}

/// Prints the file of a list that words stand for.
fn listed(rt: &HostRuntime, words: &[Vec<u8>]) -> io::Result<()> {
    match ListedFile::of(words) {
        Some(file) => {
            print!(rt; "  {}", file.no)?;
            print_all(
                rt,
                &[
                    file.dataset.as_bytes(),
                    file.date.as_bytes(),
                    file.time.as_bytes(),
                    file.code.as_bytes(),
                ],
            )?;
            println!(rt)
        }
        None => println!(rt; "  none"),
    }
}

/// Carries out a call about a value that is sent as words.
pub fn answer(rt: &HostRuntime, line: &mut Line) -> io::Result<()> {
    let call = line.word();
    let fields = line.words(rt.alloc())?;
    let given = Given { fields: &fields };
    match call {
        "ask" => ask(rt, &given.request()),
        "asked" => asked(rt, &fields),
        "list" => list(rt, &given.entry()),
        _ => listed(rt, &fields),
    }
}
