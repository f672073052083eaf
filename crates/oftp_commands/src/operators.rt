//! The commands `submit`, `resend`, `release` and `refuse`, which are operator's calls.

use crate::backing::{Backing, Telling};
use oftp_asking::Content;
use oftp_channel::Request;
use oftp_command_line::{Files, Refuse, Release, Resend, Submit};
use oftp_engine::{Operator, Refusal, Submission};
use oftp_files::read_book_octets;
use oftp_folders::Moment;
use oftp_outcomes::{Fault, Outcome, Resent, write_line};
use oftp_requests::{Backend, outcome_in};
use oftp_watching::News;
use std::io::{self, Write};

/// How many times are tried for a file, each a tick after the last: more than a register has files.
const MOST_MOMENTS: u32 = 1_000_001;

/// What is submitted, under a date and time that are still to be chosen.
#[derive(Clone, Copy)]
enum Matter<'a> {
    /// This content.
    Content(&'a Submit<'a>, &'a [u8]),
    /// The content of the outgoing file with this number.
    Outgoing(u64),
}

/// The date and time that a command line gives.
#[derive(Clone, Copy)]
struct Given<'a> {
    date: Option<&'a str>,
    time: Option<&'a str>,
}

/// Submits a file, and writes its line. Returns its outcome. What is read of a pipe is read before the database is opened. A date or time
/// that the command line lacks is that of the moment. As far as the time is to be chosen, it may be the first later one that no file with
/// this name has.
///
/// # Errors
/// [`Fault::Book`], [`Fault::Store`] or [`Fault::File`] if the book, the database, the file or the events can't be opened. [`Fault::Run`] if
/// the office failed, the station is gone or `out` returned an error; [`Fault::MEMORY`].
pub fn submit<'a>(
    rt: &'a HostRuntime,
    submit: &Submit<'a>,
    sources: &'a str,
    out: &mut impl Write,
) -> Result<Outcome, Fault> {
    let content = Content::of(rt, submit);
    let (octets, book) = read_book_octets(rt, submit.files.book)?;
    let news = News::new(rt.alloc());
    let telling = Telling::of(rt, &submit.files, sources, &news);
    let database = submit.files.database;
    let backing = Backing::opened(rt, database, Some(&book), Some(telling))?;
    submit_over(rt, submit, content, backing, octets.as_slice(), out)
}

/// Submits a file by whoever carries that out, and writes its line. Returns its outcome.
fn submit_over(
    rt: &HostRuntime,
    submit: &Submit<'_>,
    content: Content,
    backing: Backing<'_, '_, '_>,
    book: &[u8],
    out: &mut impl Write,
) -> Result<Outcome, Fault> {
    let (mut content, mut backing) = (content, backing);
    let content = content.take(rt, submit)?;
    let given = Given {
        date: submit.date,
        time: submit.time,
    };
    let matter = Matter::Content(&*submit, content.as_slice());
    let outcome = submit_by(rt, given, matter, &mut backing, book)?;
    write_line(out, &outcome)?;
    Ok(outcome)
}

/// Submits the content of an outgoing file again, under another date and time, which are chosen as those of [`submit`], and writes its line.
/// Returns its outcome.
///
/// # Errors
/// Those of [`submit`] but for its file.
pub fn resend<'a>(
    rt: &'a HostRuntime,
    resend: &Resend<'a>,
    sources: &'a str,
    out: &mut impl Write,
) -> Result<Outcome, Fault> {
    let (octets, book) = read_book_octets(rt, resend.files.book)?;
    let news = News::new(rt.alloc());
    let telling = Telling::of(rt, &resend.files, sources, &news);
    let database = resend.files.database;
    let backing = Backing::opened(rt, database, Some(&book), Some(telling))?;
    resend_over(rt, resend, backing, octets.as_slice(), out)
}

/// Submits the content of an outgoing file again by whoever carries that out, and writes its line. Returns its outcome.
fn resend_over(
    rt: &HostRuntime,
    resend: &Resend<'_>,
    backing: Backing<'_, '_, '_>,
    book: &[u8],
    out: &mut impl Write,
) -> Result<Outcome, Fault> {
    let mut backing = backing;
    let given = Given {
        date: resend.date,
        time: resend.time,
    };
    let no = resend.no;
    let outcome = submit_by(rt, given, Matter::Outgoing(no), &mut backing, book)?;
    let resent = Resent { no, outcome };
    write_line(out, &resent)?;
    let Resent { outcome, .. } = resent;
    Ok(outcome)
}

/// Submits something, by whoever carries that out.
fn submit_by(
    rt: &HostRuntime,
    given: Given<'_>,
    matter: Matter<'_>,
    backing: &mut Backing<'_, '_, '_>,
    book: &[u8],
) -> Result<Outcome, Fault> {
    if let (Some(date), Some(time)) = (given.date, given.time) {
        return carried_out(backing, &matter.under(book, date, time));
    }
    let mut moment = Moment::now(rt)?;
    for _ in 0..MOST_MOMENTS {
        let (day, hour) = moment.stamps(rt.alloc())?;
        let date = given.date.unwrap_or(day.as_str());
        let time = given.time.unwrap_or(hour.as_str());
        let outcome = carried_out(backing, &matter.under(book, date, time))?;
        match (outcome, given.time) {
            (Outcome::Refused(Refusal::Duplicate), None) => moment = moment.next(),
            (outcome, _) => return Ok(outcome),
        }
    }
    Err(Fault::File)
}

impl<'a> Matter<'a> {
    /// The request to submit it, by a book, under this date and time.
    fn under(self, book: &'a [u8], date: &'a str, time: &'a str) -> Request<'a> {
        match self {
            Matter::Content(submit, content) => Request::Operate {
                book,
                call: submission_at(submit, date, time, content),
            },
            Matter::Outgoing(no) => Request::Resend {
                book,
                no,
                date,
                time,
            },
        }
    }
}

/// The submission with this date and time.
fn submission_at<'a>(
    submit: &Submit<'a>,
    date: &'a str,
    time: &'a str,
    content: &'a [u8],
) -> Operator<'a> {
    Operator::Submit(Submission {
        dataset: submit.dataset,
        date,
        time,
        to: submit.to,
        format: submit.format,
        longest: submit.longest,
        description: submit.description,
        content,
    })
}

/// Issues the End-to-End Response of an incoming file, and writes its line. Returns its outcome.
///
/// # Errors
/// Those of [`submit`] but for its file.
pub fn release<'a>(
    rt: &'a HostRuntime,
    release: &Release<'a>,
    sources: &'a str,
    out: &mut impl Write,
) -> Result<Outcome, Fault> {
    let call = Operator::Release { no: release.no };
    respond(rt, release.files, call, sources, out)
}

/// Issues the Negative End Response of an incoming file, and writes its line. Returns its outcome.
///
/// # Errors
/// Those of [`release`].
pub fn refuse<'a>(
    rt: &'a HostRuntime,
    refuse: &Refuse<'a>,
    sources: &'a str,
    out: &mut impl Write,
) -> Result<Outcome, Fault> {
    let call = Operator::Refuse {
        no: refuse.no,
        reason: refuse.reason,
        text: refuse.text,
    };
    respond(rt, refuse.files, call, sources, out)
}

/// Issues a response, and writes the line of that.
fn respond<'a>(
    rt: &'a HostRuntime,
    files: Files<'a>,
    call: Operator<'_>,
    sources: &'a str,
    out: &mut impl Write,
) -> Result<Outcome, Fault> {
    let (octets, book) = read_book_octets(rt, files.book)?;
    let news = News::new(rt.alloc());
    let telling = Telling::of(rt, &files, sources, &news);
    let backing = Backing::opened(rt, files.database, Some(&book), Some(telling))?;
    let book = octets.as_slice();
    respond_over(backing, &Request::Operate { book, call }, out)
}

/// Issues a response by whoever carries that out, and writes its line. Returns its outcome.
fn respond_over(
    backing: Backing<'_, '_, '_>,
    request: &Request<'_>,
    out: &mut impl Write,
) -> Result<Outcome, Fault> {
    let mut backing = backing;
    let outcome = carried_out(&mut backing, request)?;
    write_line(out, &outcome)?;
    Ok(outcome)
}

/// Has a request carried out.
fn carried_out(backing: &mut Backing<'_, '_, '_>, request: &Request<'_>) -> Result<Outcome, Fault> {
    let asked = backing.ask(request, &mut io::sink());
    outcome_in(asked)
}
