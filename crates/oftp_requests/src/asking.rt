//! How requests are carried out: an operator's calls in a life, and look-ups by any office.

ghost use Rattle.std.specs.Prelude.{◌≡◌, ◌∷◌, IfOk, false, true};
ghost use Rattle.oftp_life.specs.Acts.{Ordered};
ghost use Rattle.oftp_life.specs.Lives.{HasLeft};
ghost use Rattle.oftp_requests.specs.Operated.{IsCarriedOut};
ghost use Rattle.oftp_requests.specs.Verbs.{verb_of};

use crate::comparing::Comparison;
use crate::fetched::entry_to_fetch;
use crate::listed::{list_outgoing, list_unanswered};
use crate::outgoing::write_outgoing;
use crate::settled::list_open;
use oftp_channel::{Ending, Request};
use oftp_engine::{Operator, Port, write_content};
use oftp_life::Life;
use oftp_listing::{ReportKind, report};
use oftp_outcomes::{Fault, Outcome, Verb, outcome_of};
use oftp_partners::Book;
use oftp_register::Office;
use std::alloc::Global;
use std::io::{self, Write};

/// Who carries out requests: the database itself, or the station that has it open.
pub trait Backend {
    /// Carries out a request. A report, a list, a content or a trace goes to `out`.
    ///
    /// # Errors
    /// Those of the request; [`Fault::Run`] if the office failed, the station is gone or `out` returned an error; [`Fault::MEMORY`]. What was
    /// asked may have been done then.
    fn ask(&mut self, request: &Request<'_>, out: &mut impl Write) -> Result<Ending, Fault>;
}

/// What a call of an operator does with its file.
fn verb_of(call: &Operator<'_>) -> Verb
    ensures { result ≡ verb_of call.now }
{
    match call {
        Operator::Submit(_) => Verb::Submit,
        Operator::Release { .. } => Verb::Release,
        Operator::Refuse { .. } => Verb::Refuse,
    }
}

/// Carries out an operator's call in a life, by a book. Its line isn't written: who asked for it writes it from the outcome.
///
/// # Errors
/// [`Fault::Run`] if the office failed, after which the life is over, or if it was over before; [`Fault::MEMORY`], after which nothing is
/// changed.
pub fn operate<O: Office>(
    alloc: Global,
    life: &mut Life<O>,
    book: &Book,
    call: &Operator<'_>,
) -> Result<Outcome, Fault>
    ensures acts { life.old.over ≡ false → IfOk result (λ outcome. life.new.acts ≡ Ordered book.now call.now ∷ life.old.acts) }
    ensures over { life.old.over ≡ true → IfOk result (λ outcome. ⊥) }
    ensures done { life.old.over ≡ false → (O.view life.new.office).clean → (O.view life.old.office).stands
        → IfOk result (IsCarriedOut book.now call.now (O.view life.old.office) (O.view life.new.office)) }
    // The headline.
    ensures leaves { HasLeft O.view life.new.began life.new.acts life.new.over life.new.office }
{
    // Nobody reads this line: the program prints one of what this returns.
    let mut line = Port::new(io::sink(), 0);
    match life.order(alloc, book, call, &mut line) {
        Ok(told) => Ok(outcome_of(verb_of(call), told)),
        Err(fault) => Err(Fault::Run(fault).in_memory()),
    }
}

/// Looks up what a request asks for, and writes the report, the list or the content to `out`.
///
/// # Errors
/// [`Fault::Run`] if the office failed, or `out` returned an error; [`Fault::MEMORY`]; [`Fault::Socket`] if the request is for no look-up of
/// the register.
/// A beginning is written then.
pub fn look_up<O: Office, W: Write>(
    alloc: Global,
    office: &mut O,
    request: &Request<'_>,
    out: &mut Port<W>,
) -> Result<Ending, Fault> {
    match *request {
        Request::Report(kind) => write_report(alloc, office, kind, out),
        Request::Unanswered => list_unanswered(office, out),
        Request::Outgoing { to } => list_outgoing(office, to, out),
        Request::Fetch { no } => fetch(alloc, office, no, out),
        Request::Holds { no, content } => compare(alloc, office, no, content),
        Request::Init => Ok(Ending::Outcome(Outcome::Initiated)),
        Request::Settled => list_open(alloc, office, out),
        Request::Status(_) | Request::Health { .. } => Err(Fault::Socket),
        Request::Operate { .. } | Request::Call { .. } => Err(Fault::Socket),
        Request::Backup { .. } | Request::Resend { .. } => Err(Fault::Socket),
        Request::Stop(_) | Request::Reload => Err(Fault::Socket),
    }
}

/// Writes a report.
fn write_report<O: Office, W: Write>(
    alloc: Global,
    office: &mut O,
    kind: ReportKind,
    out: &mut Port<W>,
) -> Result<Ending, Fault> {
    match report(alloc, kind, office, out) {
        Ok(()) => Ok(Ending::Listed),
        Err(fault) => Err(Fault::from(fault)),
    }
}

/// Writes the content of a whole incoming file.
fn fetch<O: Office, W: Write>(
    alloc: Global,
    office: &mut O,
    no: u64,
    out: &mut Port<W>,
) -> Result<Ending, Fault> {
    match entry_to_fetch(office, no)? {
        Ok(entry) => match write_content(alloc, office, &entry, out) {
            Ok(()) => Ok(Ending::Outcome(Outcome::Done(Verb::Fetch, entry.no))),
            Err(fault) => Err(Fault::Run(fault)),
        },
        Err(refusal) => Ok(Ending::Outcome(Outcome::Refused(refusal))),
    }
}

/// Compares a content with that of an outgoing file.
fn compare<O: Office>(
    alloc: Global,
    office: &mut O,
    no: u64,
    content: &[u8],
) -> Result<Ending, Fault> {
    let mut comparison = Comparison::with(content);
    let is_there = write_outgoing(alloc, office, no, &mut comparison)?;
    Ok(if is_there && comparison.is_equal() {
        Ending::Same
    } else {
        Ending::Other
    })
}
