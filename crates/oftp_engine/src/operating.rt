//! An operator's calls on a register, and the lines that report them.

ghost use Rattle.std.specs.Prelude.{◌≡◌, ◌≤◌, length, codes, IfOk, IfErr, Some, is_ok};
ghost use Rattle.oftp_io.specs.Ports.{Puts, Sent};
ghost use Rattle.oftp_engine.specs.Served.{WriterTold};
ghost use Rattle.oftp_engine.specs.Serving.{FailsOnlyBy, OnCleanStore, WasClean, scene};
ghost use Rattle.oftp_engine.specs.Operating.{IsDeed, done_line, refusal_line, refusal_of, refusal_phrase, refused, released};
ghost use Rattle.oftp_engine.specs.InsideOperating.{Decides, MayFail, Tries, TriesDeed, call_result, line_as, verb_of};
ghost use Rattle.oftp_engine.specs.InsideServing.{OnlyWrites};
ghost use Rattle.oftp_engine.specs.Operated.{Operates};

use crate::limits::HIGHEST_REASON;
use crate::serving::RunFault;
use crate::submitting::{Submission, submit};
use arrayvec::ArrayVec;
use itoa::Buffer;
use oftp_io::Port;
use oftp_partners::Book;
use oftp_register::{Cause, Change, Office, OfficeFault, ResponseKind};
use oftp_wire::{Count, Text};
use std::alloc::Global;
use std::fmt;
use std::io::Write;

// Room for each line that reports a call: a verb, a number and a line end.
type CallLine = ArrayVec<u8, 48>;

/// A call of an operator.
#[derive(Clone, Copy, Drop)]
pub enum Operator<'a> {
    /// Submit a file, which will be sent to a partner.
    Submit(Submission<'a>),
    /// Issue the End-to-End Response of an incoming file, which was delivered.
    Release {
        /// The file's number.
        no: u64,
    },
    /// Issue the Negative End Response of an incoming file, which wasn't delivered.
    Refuse {
        /// The file's number.
        no: u64,
        /// The reason code, 0 to 99.
        reason: u64,
        /// The reason in words, at most 999 octets.
        text: &'a str,
    },
}

/// Why a call is refused. Where several apply, it is the first of Field, Unknown, Duplicate, State and Limit.
#[derive(Clone, Copy, Debug, Drop, PartialEq, Eq)]
pub enum Refusal {
    /// There is a submitted file with this identity.
    Duplicate,
    /// There is no such partner, or no file with this number.
    Unknown,
    /// The file isn't whole, or has a response.
    State,
    /// The file exceeds the limits, or there are as many files as they allow.
    Limit,
    /// A field is out of its range, or the content isn't a file of its format.
    Field,
}

/// The result of a call.
#[derive(Clone, Copy, Debug, Drop, PartialEq, Eq)]
pub enum Told {
    /// The call was carried out. Its file has this number: the new outgoing file of a submission, else the incoming file.
    Done(u64),
    /// The call was refused, and nothing was changed.
    Refused(Refusal),
}

impl From<Cause> for Refusal {
    ghost from_gives = { λ cause refusal. refusal ≡ refusal_of cause };

    fn from(cause: Cause) -> Refusal {
        match cause {
            Cause::Duplicate => Refusal::Duplicate,
            Cause::Unknown => Refusal::Unknown,
            Cause::State => Refusal::State,
            Cause::Full => Refusal::Limit,
        }
    }
}

impl Refusal {
    // The line that reports the refusal, without its line end.
    fn phrase(self) -> &'static str
        ensures phrase { result.now ≡ refusal_phrase self }
        ensures short { length result.now ≤ 20 }
    {
        match self {
            Refusal::Duplicate => "refused: 1 duplicate",
            Refusal::Unknown => "refused: 2 unknown",
            Refusal::State => "refused: 3 state",
            Refusal::Limit => "refused: 4 limit",
            Refusal::Field => "refused: 5 field",
        }
    }

    // The line that reports the refusal. It allocates nothing.
    fn line(self) -> CallLine
        ensures { result.items ≡ refusal_line self }
    {
        let mut line = ArrayVec::new();
        let phrase = self.phrase();
        let _ = line.try_extend_from_slice(phrase.as_bytes());
        let _ = line.try_extend_from_slice(b"\n");
        line
    }
}

/// Shows the line that reports the refusal, without its line end.
impl fmt::Display for Refusal {
    ghost output = { λ refusal. Some (refusal_phrase refusal) };

    fn fmt<W: fmt::Write>(&self, f: &mut fmt::Formatter<W>) -> fmt::Result {
        f.write_str(self.phrase())
    }
}

impl<'a> Operator<'a> {
    // The beginning of the line that reports the call.
    fn verb(&self) -> &'static [u8]
        ensures verb { result.now ≡ verb_of self.now }
        ensures short { length result.now ≤ 20 }
    {
        match self {
            Operator::Submit(_) => b"done: submit ",
            Operator::Release { .. } => b"done: release ",
            Operator::Refuse { .. } => b"done: refuse ",
        }
    }
}

// The line of a call that was carried out. It allocates nothing.
fn done_line(verb: &[u8], no: u64) -> CallLine
    requires { length verb.now ≤ 20 }
    ensures { result.items ≡ done_line verb.now no }
{
    let mut line = ArrayVec::new();
    let mut number = Buffer::new();
    let _ = line.try_extend_from_slice(verb);
    let _ = line.try_extend_from_slice(number.format(no).as_bytes());
    let _ = line.try_extend_from_slice(b"\n");
    line
}

// The line that reports a result.
fn line_of(verb: &[u8], told: Told) -> CallLine
    requires { length verb.now ≤ 20 }
    ensures { result.items ≡ line_as verb.now told }
{
    match told {
        Told::Done(no) => done_line(verb, no),
        Told::Refused(refusal) => refusal.line(),
    }
}

// Writes the line that reports a result.
#[tactic(auto, using(oftp_io::proofs::Puts::puts_none, oftp_io::proofs::Puts::puts_on, oftp_io::proofs::Puts::puts_sent))]
fn report_result<W: Write>(writer: &mut Port<W>, verb: &[u8], told: Told) -> Result<Told, RunFault>
    requires { length verb.now ≤ 20 }
    ensures sent { Sent W.contents writer.old writer.new (line_as verb.now told) (is_ok result) }
    ensures told { IfOk result (λ t. t ≡ told) }
    ensures writes { OnlyWrites W.contents writer.old writer.new result }
{
    let line = line_of(verb, told);
    if writer.send(line.as_slice()) {
        Ok(told)
    } else {
        Err(RunFault::Write)
    }
}

// The result of a commit.
pub(crate) fn call_result(made: Result<(), OfficeFault>, no: u64) -> Result<Told, RunFault>
    ensures { result ≡ call_result no made }
{
    match made {
        Ok(()) => Ok(Told::Done(no)),
        Err(OfficeFault::Refused(cause)) => Ok(Told::Refused(Refusal::from(cause))),
        Err(OfficeFault::Store | OfficeFault::Memory) => Err(RunFault::Office),
    }
}

// Commits a change of the file with a number, and returns the office's verdict.
fn decide<O: Office>(office: &mut O, change: Change<'_>, no: u64) -> Result<Told, RunFault>
    ensures clean { WasClean (O.view office.old) (O.view office.new) }
    ensures does { Decides no change.entry (O.view office.old) (O.view office.new) result }
    ensures err { FailsOnlyBy RunFault.Office result }
{
    let made = office.commit(change);
    call_result(made, no)
}

// Issues the End-to-End Response of a file.
fn release<O: Office>(office: &mut O, no: u64) -> Result<Told, RunFault>
    ensures clean { WasClean (O.view office.old) (O.view office.new) }
    ensures does { TriesDeed (codes "done: release ") (λ r. released r no) (O.view office.old) (O.view office.new) result }
    ensures err { FailsOnlyBy RunFault.Office result }
{
    let Some(text) = Text::new("") else {
        unreachable!()
    };
    let change = Change::Issue {
        no,
        kind: ResponseKind::EndResponse,
        reason: Count::new(0),
        text,
    };
    decide(office, change, no)
}

// Issues the Negative End Response of a file.
fn refuse<O: Office>(office: &mut O, no: u64, reason: u64, text: &str) -> Result<Told, RunFault>
    ensures clean { WasClean (O.view office.old) (O.view office.new) }
    ensures does { TriesDeed (codes "done: refuse ") (λ r. refused r no reason text.now) (O.view office.old) (O.view office.new) result }
    ensures err { FailsOnlyBy RunFault.Office result }
{
    let Some(text) = Text::new(text) else {
        return Ok(Told::Refused(Refusal::Field));
    };
    if reason > HIGHEST_REASON {
        return Ok(Told::Refused(Refusal::Field));
    }
    let change = Change::Issue {
        no,
        kind: ResponseKind::NegativeEndResponse,
        reason: Count::new(reason),
        text,
    };
    decide(office, change, no)
}

// Carries out a call, without its line.
fn attempt<O: Office>(
    alloc: Global,
    office: &mut O,
    book: &Book,
    call: &Operator<'_>,
) -> Result<Told, RunFault>
    ensures clean { WasClean (O.view office.old) (O.view office.new) }
    ensures does { Tries (verb_of call.now) (λ r. IsDeed book.now r call.now) (O.view office.old) (O.view office.new) result }
    ensures err { IfErr result (MayFail call.now) }
{
    match *call {
        Operator::Submit(submission) => submit(alloc, office, book, &submission),
        Operator::Release { no } => release(office, no),
        Operator::Refuse { no, reason, text } => refuse(office, no, reason, text),
    }
}

/// Carries out an operator's call and writes the line that reports it, ended by LF. The line is `done: submit NO`, `done: release NO` or
/// `done: refuse NO` with the file's number; or `refused: 1 duplicate`, `refused: 2 unknown`, `refused: 3 state`, `refused: 4 limit` or
/// `refused: 5 field`.
///
/// The change is committed before the first octet of the line is written, so that a crash doesn't undo it.
///
/// # Errors
///
/// - [`RunFault::Write`] only where the writer returned an error. A beginning of the line is out, and what the line says is done.
/// - [`RunFault::Office`]: the office returned an error. Nothing is out, and a crash leaves the register with the change or without it.
/// - [`RunFault::Memory`]: out of memory while the content of a file was read. Nothing is out, and nothing is changed.
pub fn operate<O: Office, W: Write>(
    alloc: Global,
    office: &mut O,
    book: &Book,
    call: &Operator<'_>,
    writer: &mut Port<W>,
) -> Result<Told, RunFault>
    ensures operates { OnCleanStore (O.view office.old) (O.view office.new) (Operates book.now call.now
        (scene W.contents (O.view office.old) writer.old) (scene W.contents (O.view office.new) writer.new) result) }
    ensures clean { WasClean (O.view office.old) (O.view office.new) }
    ensures out { Puts W.contents writer.old writer.new }
    ensures writer_told { WriterTold writer.old writer.new result }
{
    let told = attempt(alloc, office, book, call)?;
    report_result(writer, call.verb(), told)
}
