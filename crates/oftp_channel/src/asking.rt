//! Requests of commands as typed values, and how they are written.

ghost use Rattle.std.specs.Prelude.{◌≡◌, ◌≤◌, ◌↔◌, ◌∷◌, [], IsTrue, length};
ghost use Rattle.oftp_io.specs.Ports.{Sent};
ghost use Rattle.oftp_channel.specs.Asked.{call_fields, call_kind, number_word, octet_word, octets_in, request_code, submission_fields, tracing_code, words_of, written_words};
ghost use Rattle.oftp_channel.specs.Requests.{IsRequest, spelled_request};
ghost use Rattle.oftp_channel.specs.declared.codes.RequestKind.TheVariants.{Call, Health, Holds, Refuse, Release, Resend, Submit};

use crate::codes::{RequestKind, format_code, report_code};
use crate::request::{Word, words_fit, write_words};
use arrayvec::ArrayVec;
use oftp_engine::{Operator, Submission};
use oftp_io::Port;
use oftp_listing::ReportKind;
use std::io::Write;

/// The most words of one request, those of a submission.
const MOST_IN_ONE: usize = 10;

/// Whether a command wants the trace of its call.
#[derive(Clone, Copy, Debug, PartialEq, Eq, Drop)]
pub enum Tracing {
    /// The trace is kept, so its lines are sent to the command.
    Kept,
    /// No trace is kept.
    None,
}

/// When a station ends that is told to.
#[derive(Clone, Copy, Debug, PartialEq, Eq, Drop)]
pub enum Haste {
    /// Once the session that goes on has ended.
    InTurn,
    /// Now: the session that goes on is cut off.
    AtOnce,
}

/// How a station's status is told.
#[derive(Clone, Copy, Debug, PartialEq, Eq, Drop)]
pub enum Form {
    /// In lines for people.
    Lines,
    /// As JSON.
    Json,
}

/// What a command asks of the station that has its database open. The texts and contents are borrowed.
#[derive(Clone, Copy, Drop)]
pub enum Request<'a> {
    /// To carry out an operator's call by a book.
    Operate {
        /// The text of the book.
        book: &'a [u8],
        /// The call.
        call: Operator<'a>,
    },
    /// To call a partner of the station's book for a session.
    Call {
        /// The code of the partner.
        partner: &'a str,
        /// The most seconds without an octet of the partner.
        patience: u64,
        /// The most seconds of the session.
        longest: u64,
        /// Whether the trace is wanted.
        tracing: Tracing,
    },
    /// For a report.
    Report(ReportKind),
    /// For the incoming files that are whole and have no response.
    Unanswered,
    /// For the outgoing files to a partner.
    Outgoing {
        /// The code of the partner.
        to: &'a str,
    },
    /// For the content of a whole incoming file.
    Fetch {
        /// The file's number.
        no: u64,
    },
    /// Whether an outgoing file has this content.
    Holds {
        /// The file's number.
        no: u64,
        /// The content in its local form.
        content: &'a [u8],
    },
    /// To let the database's files be copied.
    Backup {
        /// The path of the copy, as the command names it.
        to: &'a str,
    },
    /// Whether the database is open.
    Init,
    /// To end.
    Stop(Haste),
    /// To read the book again.
    Reload,
    /// To submit the content of an outgoing file again, by a book.
    Resend {
        /// The text of the book.
        book: &'a [u8],
        /// The file's number.
        no: u64,
        /// The date stamp of the new file.
        date: &'a str,
        /// Its time stamp.
        time: &'a str,
    },
    /// How the station stands.
    Status(Form),
    /// For the verdict on the station.
    Health {
        /// The age in seconds above which something is a warning.
        warn: u64,
        /// The age in seconds above which something is critical.
        critical: u64,
    },
    /// For the files that are still open.
    Settled,
}

/// Whether a request can be sent: its words are within the limits of [`words_fit`].
pub fn fits(request: &Request<'_>) -> bool
    ensures { IsTrue result ↔ IsRequest (words_of request.now) }
{
    let words = request.words();
    words_fit(words.as_slice())
}

/// Writes a request that passes [`fits`], and returns whether the writer took all of it. If it didn't, it returned an error and has a
/// beginning of the request.
pub fn write_request<W: Write>(writer: &mut Port<W>, request: &Request<'_>) -> bool
    requires { IsRequest (words_of request.now) }
    ensures { Sent W.contents writer.old writer.new (spelled_request (words_of request.now)) result }
{
    let words = request.words();
    write_words(writer, words.as_slice())
}

// A list of words that are borrowed.
fn listed<'a>(words: &[Word<'a>]) -> ArrayVec<Word<'a>, MOST_IN_ONE>
    requires { length words.now ≤ MOST_IN_ONE }
    ensures { result.items ≡ words.now }
{
    let mut list = ArrayVec::new();
    let _ = list.try_extend_from_slice(words);
    list
}

impl<'a> Request<'a> {
    // Its words.
    fn words(&self) -> ArrayVec<Word<'a>, MOST_IN_ONE>
        ensures { written_words result.items ≡ words_of self.now }
    {
        match *self {
            Request::Operate { book, call } => operator_words(book, call),
            Request::Call {
                partner,
                patience,
                longest,
                tracing,
            } => call_words(partner, patience, longest, tracing),
            Request::Report(kind) => {
                two_words(RequestKind::Report, Word::Octet(report_code(kind)))
            }
            Request::Unanswered => one_word(RequestKind::Unanswered),
            Request::Outgoing { to } => {
                two_words(RequestKind::Outgoing, Word::Octets(to.as_bytes()))
            }
            Request::Fetch { no } => two_words(RequestKind::Fetch, Word::Number(no)),
            Request::Holds { no, content } => holds_words(no, content),
            Request::Backup { to } => two_words(RequestKind::Backup, Word::Octets(to.as_bytes())),
            Request::Init => one_word(RequestKind::Init),
            Request::Stop(haste) => two_words(RequestKind::Stop, Word::Octet(haste.code())),
            Request::Reload => one_word(RequestKind::Reload),
            Request::Resend {
                book,
                no,
                date,
                time,
            } => resend_words(book, no, date, time),
            Request::Status(form) => two_words(RequestKind::Status, Word::Octet(form.code())),
            Request::Health { warn, critical } => health_words(warn, critical),
            Request::Settled => one_word(RequestKind::Settled),
        }
    }
}

// The word of a request without fields.
fn one_word<'a>(kind: RequestKind) -> ArrayVec<Word<'a>, MOST_IN_ONE>
    ensures { written_words result.items ≡ octet_word (request_code kind) ∷ [] }
{
    listed(&[Word::Octet(kind.code())])
}

// The words of a request with one field.
fn two_words<'a>(kind: RequestKind, field: Word<'a>) -> ArrayVec<Word<'a>, MOST_IN_ONE>
    ensures { written_words result.items ≡ octet_word (request_code kind) ∷ octets_in field.entry ∷ [] }
{
    listed(&[Word::Octet(kind.code()), field])
}

// The words of the request to compare a content.
fn holds_words<'a>(no: u64, content: &'a [u8]) -> ArrayVec<Word<'a>, MOST_IN_ONE>
    ensures { written_words result.items ≡ octet_word (request_code Holds) ∷ number_word no ∷ content.now ∷ [] }
{
    listed(&[
        Word::Octet(RequestKind::Holds.code()),
        Word::Number(no),
        Word::Octets(content),
    ])
}

// The words of the request for the verdict on a station.
fn health_words<'a>(warn: u64, critical: u64) -> ArrayVec<Word<'a>, MOST_IN_ONE>
    ensures { written_words result.items ≡ octet_word (request_code Health) ∷ number_word warn ∷ number_word critical ∷ [] }
{
    listed(&[
        Word::Octet(RequestKind::Health.code()),
        Word::Number(warn),
        Word::Number(critical),
    ])
}

// The words of the request for a call.
fn call_words<'a>(
    partner: &'a str,
    patience: u64,
    longest: u64,
    tracing: Tracing,
) -> ArrayVec<Word<'a>, MOST_IN_ONE>
    ensures { written_words result.items ≡ octet_word (request_code Call) ∷ partner.now ∷ number_word patience ∷ number_word longest
        ∷ octet_word (tracing_code tracing) ∷ [] }
{
    listed(&[
        Word::Octet(RequestKind::Call.code()),
        Word::Octets(partner.as_bytes()),
        Word::Number(patience),
        Word::Number(longest),
        Word::Octet(tracing.code()),
    ])
}

// The words of the request to submit a file again.
fn resend_words<'a>(
    book: &'a [u8],
    no: u64,
    date: &'a str,
    time: &'a str,
) -> ArrayVec<Word<'a>, MOST_IN_ONE>
    ensures { written_words result.items ≡ octet_word (request_code Resend) ∷ book.now ∷ number_word no ∷ date.now ∷ time.now ∷ [] }
{
    listed(&[
        Word::Octet(RequestKind::Resend.code()),
        Word::Octets(book),
        Word::Number(no),
        Word::Octets(date.as_bytes()),
        Word::Octets(time.as_bytes()),
    ])
}

// The words of the request for an operator's call.
fn operator_words<'a>(book: &'a [u8], call: Operator<'a>) -> ArrayVec<Word<'a>, MOST_IN_ONE>
    ensures { written_words result.items ≡ octet_word (request_code (call_kind call.entry)) ∷ book.now ∷ call_fields call.entry }
{
    match call {
        Operator::Submit(submission) => submission_words(book, submission),
        Operator::Release { no } => release_words(book, no),
        Operator::Refuse { no, reason, text } => refuse_words(book, no, reason, text),
    }
}

// The words of the request to release a file.
fn release_words<'a>(book: &'a [u8], no: u64) -> ArrayVec<Word<'a>, MOST_IN_ONE>
    ensures { written_words result.items ≡ octet_word (request_code Release) ∷ book.now ∷ number_word no ∷ [] }
{
    listed(&[
        Word::Octet(RequestKind::Release.code()),
        Word::Octets(book),
        Word::Number(no),
    ])
}

// The words of the request to refuse a file.
fn refuse_words<'a>(
    book: &'a [u8],
    no: u64,
    reason: u64,
    text: &'a str,
) -> ArrayVec<Word<'a>, MOST_IN_ONE>
    ensures { written_words result.items ≡ octet_word (request_code Refuse) ∷ book.now ∷ number_word no ∷ number_word reason ∷ text.now ∷ [] }
{
    listed(&[
        Word::Octet(RequestKind::Refuse.code()),
        Word::Octets(book),
        Word::Number(no),
        Word::Number(reason),
        Word::Octets(text.as_bytes()),
    ])
}

// The words of the request to submit a file.
fn submission_words<'a>(
    book: &'a [u8],
    submission: Submission<'a>,
) -> ArrayVec<Word<'a>, MOST_IN_ONE>
    ensures { written_words result.items ≡ octet_word (request_code Submit) ∷ book.now ∷ submission_fields submission.entry }
{
    listed(&[
        Word::Octet(RequestKind::Submit.code()),
        Word::Octets(book),
        Word::Octets(submission.dataset.as_bytes()),
        Word::Octets(submission.date.as_bytes()),
        Word::Octets(submission.time.as_bytes()),
        Word::Octets(submission.to.as_bytes()),
        Word::Octet(format_code(submission.format)),
        Word::Number(u64::from(submission.longest)),
        Word::Octets(submission.description.as_bytes()),
        Word::Octets(submission.content),
    ])
}
