//! The notes beside the lines of a command, where they are wanted.

use crate::words::Words;
use oftp_command_line::{Line, Report};
use oftp_commands::write_report;
use oftp_engine::Refusal;
use oftp_explaining::{Names, Teller, explain, tell_fault, tell_folder, tell_outcome};
use oftp_listing::ReportKind;
use oftp_notes::{Screen, Wanted};
use oftp_outcomes::{DONE, Fault, Outcome};
use std::io::Write;

/// Whether notes are printed.
#[derive(Clone, Copy, PartialEq, Eq)]
enum Notes {
    /// They are.
    Printed,
    /// They aren't.
    Left,
}

/// Standard error, and what is told there.
#[derive(Drop)]
pub(crate) struct Noted<'a, W> {
    /// What writes to it.
    pub(crate) teller: Teller<'a, W>,
    notes: Notes,
    explain: Wanted,
    resolve: Wanted,
}

impl<'a, W: Write> Noted<'a, W> {
    /// What the words ask for, on this standard error.
    pub(crate) fn new(rt: &'a HostRuntime, words: &Words, screen: Screen, err: W) -> Noted<'a, W> {
        Noted {
            teller: Teller::new(rt, err),
            notes: if words.notes.prints_on(screen) {
                Notes::Printed
            } else {
                Notes::Left
            },
            explain: words.explain,
            resolve: words.resolve,
        }
    }

    /// Explains a book on standard output, if that is asked for. What is told there isn't told again as a note.
    pub(crate) fn explain(&mut self, book: &str, out: &mut impl Write) {
        if self.explain == Wanted::ByOption {
            let names = if self.resolve == Wanted::ByOption {
                Names::LookedUp
            } else {
                Names::Left
            };
            explain(&mut Teller::new(self.teller.rt, out), book, names);
        }
    }

    /// Tells why a command failed.
    pub(crate) fn note_fault(&mut self, line: &Line<'_>, fault: Fault) {
        if self.notes == Notes::Printed && !self.was_explained(fault) {
            tell_fault(&mut self.teller, line, fault);
        }
    }

    /// Whether an error of the book was explained.
    fn was_explained(&self, fault: Fault) -> bool {
        self.explain == Wanted::ByOption && matches!(fault, Fault::Book(_))
    }

    /// Tells why a command was refused, or how its session ended.
    pub(crate) fn note_outcome(&mut self, line: &Line<'_>, outcome: &Outcome) {
        if self.notes == Notes::Printed {
            let report = report_for(self.teller.rt, line, outcome);
            tell_outcome(&mut self.teller, line, outcome, report.as_slice());
        }
    }

    /// Tells why a command over a folder was refused.
    pub(crate) fn note_status(&mut self, line: &Line<'_>, status: u8) {
        if self.notes == Notes::Printed && status != DONE {
            tell_folder(&mut self.teller, line);
        }
    }
}

/// The report that says in which state a file is, where a command was refused for that. It is empty if there is none.
fn report_for(rt: &HostRuntime, line: &Line<'_>, outcome: &Outcome) -> Vec<u8> {
    let mut report = Vec::new(rt.alloc());
    if let Outcome::Refused(Refusal::State) = outcome
        && let Some(database) = answered_in(line)
    {
        let what = Report {
            database,
            kind: ReportKind::Incoming,
            state: None,
            partner: None,
            since: None,
            json: false,
        };
        let _ = write_report(rt, &what, &mut report);
    }
    report
}

/// The database of a command that answers or fetches an incoming file.
fn answered_in<'a>(line: &Line<'a>) -> Option<&'a str> {
    match line {
        Line::Release(release) => Some(release.files.database),
        Line::Refuse(refuse) => Some(refuse.files.database),
        Line::Fetch(fetch) => Some(fetch.database),
        _ => None,
    }
}
