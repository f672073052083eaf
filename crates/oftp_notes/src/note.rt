//! The notes: what is told beside a line of a command.

ghost use Rattle.std.specs.Prelude.{◌≡◌, ◌≤◌, IfOk, Some, length, string_bytes};
ghost use Rattle.std.specs.Fmt.{DisplaysOnOk};
ghost use Rattle.oftp_notes.specs.Notes.{book_text, book_word, duplicate_text, end_text, file_text, note_text, refusal_text};
ghost use Rattle.oftp_notes.specs.Seen.{IsOneLine, seen_line};

use crate::cause::{AddressCause, DatabaseCause, FileState, PathCause};
use crate::field::Field;
use crate::finding::Finding;
use crate::seen::line_of;
use oftp_wire::{Count, session_phrase};
use std::alloc::{AllocError, Global};
use std::fmt;

/// How a session ended.
#[derive(Clone, Copy, Drop)]
pub enum SessionEnd {
    /// By this station's ESID, with this reason.
    Own(Count<2>),
    /// By the partner's ESID, with this reason.
    Partner(Count<2>),
    /// By the end of the connection.
    Input,
}

/// What is told of a line of the book.
#[derive(Clone, Copy, Drop)]
pub enum BookNote<'a> {
    /// It is an error.
    Error(Finding<'a>),
    /// It can't be used, or looks wrong, and is no error.
    Warning(Finding<'a>),
    /// It has a key that is ignored.
    Ignored {
        /// The key.
        key: &'a str,
        /// How the key is spelled that looks most like it.
        nearest: &'a str,
    },
}

/// Why a command was refused.
#[derive(Clone, Copy, Drop)]
pub enum RefusalNote<'a> {
    /// No incoming file has this number.
    NoFile(u64),
    /// No outgoing file has this number.
    NoOutgoing(u64),
    /// No event is of a file with this number.
    NoEvent {
        /// The number.
        no: u64,
        /// The path of the events.
        path: &'a str,
    },
    /// The outgoing file with this number is still to be sent.
    Unsent(u64),
    /// No partner of the book has this code.
    NoPartner {
        /// The code.
        code: &'a str,
        /// The book's path.
        book: &'a str,
    },
    /// An initiator has no partner.
    NoneNamed,
    /// An incoming file is in another state.
    State {
        /// Its number.
        no: u64,
        /// The state.
        state: FileState,
    },
    /// A file was handed in already.
    Duplicate {
        /// Its dataset name.
        dataset: &'a str,
        /// Its date stamp.
        date: &'a str,
        /// Its time stamp.
        time: &'a str,
        /// The code of the partner that it goes to.
        to: &'a str,
    },
    /// A field isn't allowed.
    Field {
        /// Which one.
        field: Field,
        /// What it is.
        value: &'a str,
    },
}

/// What is told beside a line of a command. A text may have any characters, but no password.
#[derive(Clone, Copy, Drop)]
pub enum Note<'a> {
    /// Out of memory.
    Memory,
    /// Standard output, or a connection, took nothing.
    Output,
    /// A file or a folder can't be read or made.
    Path {
        /// Its path.
        path: &'a str,
        /// Why.
        cause: PathCause,
    },
    /// Something is found in the book.
    Book {
        /// Its path.
        path: &'a str,
        /// The line, from 1 on.
        line: u64,
        /// What is found there.
        note: BookNote<'a>,
    },
    /// The database can't be used.
    Database {
        /// Its path.
        path: &'a str,
        /// Why.
        cause: DatabaseCause,
    },
    /// A partner can't be called.
    Called {
        /// The partner's code.
        code: &'a str,
        /// The address in the book.
        address: &'a str,
        /// Why.
        cause: AddressCause,
    },
    /// No partner can call here.
    Bound {
        /// The address.
        address: &'a str,
        /// The port.
        port: u16,
        /// Why.
        cause: AddressCause,
    },
    /// The session's octets of a file or of callers can't be read.
    Session {
        /// The command's word for the other end.
        word: &'a str,
        /// Why.
        cause: AddressCause,
    },
    /// The command was refused.
    Refused(RefusalNote<'a>),
    /// A session ended.
    End(SessionEnd),
}

impl fmt::Display for SessionEnd {
    ghost output = { λ end. Some (end_text end) };

    fn fmt<W: fmt::Write>(&self, f: &mut fmt::Formatter<W>) -> fmt::Result {
        match self {
            SessionEnd::Own(number) => {
                let reason = number.get();
                write!(
                    f,
                    "own {}{}: {}",
                    reason / 10,
                    reason % 10,
                    session_phrase(*number)
                )
            }
            SessionEnd::Partner(number) => {
                let reason = number.get();
                write!(
                    f,
                    "partner {}{}: {}",
                    reason / 10,
                    reason % 10,
                    session_phrase(*number)
                )
            }
            SessionEnd::Input => f.write_str("input: the connection ended during the session"),
        }
    }
}

/// The word that begins a line about a book.
fn book_word(note: &BookNote<'_>) -> &'static str
    ensures { result.now ≡ book_word note.now }
{
    match note {
        BookNote::Error(_) => "note",
        BookNote::Warning(_) | BookNote::Ignored { .. } => "warning",
    }
}

/// Writes the state of a file.
fn write_state<W: fmt::Write>(f: &mut fmt::Formatter<W>, no: u64, state: FileState) -> fmt::Result
    ensures { DisplaysOnOk W.write_str_gives f.old result (Some (file_text no state)) f.new }
{
    write!(f, "{no}: this incoming file {state}")
}

/// Writes that a file was handed in.
fn write_duplicate<W: fmt::Write>(
    f: &mut fmt::Formatter<W>,
    dataset: &str,
    date: &str,
    time: &str,
    to: &str,
) -> fmt::Result
    ensures { DisplaysOnOk W.write_str_gives f.old result (Some (duplicate_text dataset.now date.now time.now to.now)) f.new }
{
    write!(f, "{dataset} {date} {time} to {to}: was handed in already")
}

impl fmt::Display for BookNote<'_> {
    ghost output = { λ note. Some (book_text note) };

    fn fmt<W: fmt::Write>(&self, f: &mut fmt::Formatter<W>) -> fmt::Result {
        match self {
            BookNote::Error(finding) | BookNote::Warning(finding) => write!(f, "{finding}"),
            BookNote::Ignored { key, nearest } => {
                write!(f, "{key}: is ignored; {nearest} is the nearest")
            }
        }
    }
}

impl fmt::Display for RefusalNote<'_> {
    ghost output = { λ note. Some (refusal_text note) };

    fn fmt<W: fmt::Write>(&self, f: &mut fmt::Formatter<W>) -> fmt::Result {
        match self {
            RefusalNote::NoFile(no) => write!(f, "{no}: no incoming file has this number"),
            RefusalNote::NoOutgoing(no) => write!(f, "{no}: no outgoing file has this number"),
            RefusalNote::NoEvent { no, path } => {
                write!(f, "{no}: no event of {path} has this number")
            }
            RefusalNote::Unsent(no) => write!(f, "{no}: this outgoing file isn't sent yet"),
            RefusalNote::NoPartner { code, book } => {
                write!(f, "{code}: no partner in {book} has this code")
            }
            RefusalNote::NoneNamed => f.write_str("--partner: an initiator needs it"),
            RefusalNote::State { no, state } => write_state(f, *no, *state),
            RefusalNote::Duplicate {
                dataset,
                date,
                time,
                to,
            } => write_duplicate(f, dataset, date, time, to),
            RefusalNote::Field { field, value } => {
                write!(f, "{} {value}: {}", field.word(), field.rule())
            }
        }
    }
}

impl fmt::Display for Note<'_> {
    ghost output = { λ note. Some (note_text note) };

    fn fmt<W: fmt::Write>(&self, f: &mut fmt::Formatter<W>) -> fmt::Result {
        match self {
            Note::Memory => f.write_str("note: memory: this process gets no more"),
            Note::Output => f.write_str("note: output: nobody takes it, or its disk is full"),
            Note::Path { path, cause } => write!(f, "note: {path}: {cause}"),
            Note::Book { path, line, note } => {
                write!(f, "{}: {path}:{line}: {note}", book_word(note))
            }
            Note::Database { path, cause } => write!(f, "note: {path}: {cause}"),
            Note::Called {
                code,
                address,
                cause,
            } => write!(f, "note: {code} at {address}: {cause}"),
            Note::Bound {
                address,
                port,
                cause,
            } => write!(f, "note: {address}:{port}: {cause}"),
            Note::Session { word, cause } => write!(f, "note: {word}: {cause}"),
            Note::Refused(note) => write!(f, "note: {note}"),
            Note::End(end) => write!(f, "note: end: {end}"),
        }
    }
}

impl Note<'_> {
    /// The note as a line. Characters that can't be seen are escapes, a text that is too long is cut, and one line end is behind it.
    ///
    /// # Errors
    ///
    /// Out of memory.
    #[tactic(auto, using(crate::proofs::Lines::short_of))]
    pub fn to_line(&self, alloc: Global) -> Result<String, AllocError>
        ensures text { IfOk result (λ line. string_bytes line ≡ seen_line (note_text self.now)) }
        ensures alone { IfOk result (λ line. IsOneLine (string_bytes line)) }
        ensures short { IfOk result (λ line. length (string_bytes line) ≤ 2_100) }
    {
        let text = self.to_string(alloc)?;
        line_of(alloc, text.as_str())
    }
}
