//! What is told beside an `end:` or a `refused:` line.

use crate::ends::end_of;
use crate::places::{book_of, database_of};
use crate::teller::Teller;
use oftp_command_line::{Line, Offer, Submit};
use oftp_engine::Refusal;
use oftp_files::read_book;
use oftp_notes::{DatabaseCause, Field, FileState, Handed, Note, RefusalNote, first_field};
use oftp_outcomes::Outcome;
use std::io::Write;

/// A date that is allowed, as the station's own always is.
const ALLOWED_DATE: &str = "20000101";

/// A time that is allowed, as the station's own always is.
const ALLOWED_TIME: &str = "0000000001";

/// Tells what became of a command, if there is something to tell. What the incoming files are is read in a report of them, where a command was
/// refused for the state of one.
pub fn tell_outcome<W: Write>(
    teller: &mut Teller<'_, W>,
    line: &Line<'_>,
    outcome: &Outcome,
    report: &[u8],
) {
    match outcome {
        Outcome::Ended(end) => teller.tell(&Note::End(end_of(*end))),
        Outcome::Refused(Refusal::State) => tell_state(teller, line, report),
        Outcome::Refused(refusal) => tell_refusal(teller, line, *refusal),
        Outcome::Initiated | Outcome::Migrated | Outcome::Checked(_) => {}
        Outcome::Done(..) | Outcome::BackedUp => {}
        Outcome::Stopped | Outcome::Reloaded => {}
    }
}

/// Tells why a command was refused.
fn tell_refusal<W: Write>(teller: &mut Teller<'_, W>, line: &Line<'_>, refusal: Refusal) {
    match refusal {
        Refusal::Duplicate => tell_duplicate(teller, line),
        Refusal::Unknown => tell_unknown(teller, line),
        Refusal::State => tell_state(teller, line, &[]),
        Refusal::Limit => tell_limit(teller, line),
        Refusal::Field => tell_field(teller, line),
    }
}

/// Tells why a command was refused.
fn tell<W: Write>(teller: &mut Teller<'_, W>, note: RefusalNote<'_>) {
    teller.tell(&Note::Refused(note));
}

/// Tells which file was handed in already.
fn tell_duplicate<W: Write>(teller: &mut Teller<'_, W>, line: &Line<'_>) {
    if let Line::Submit(submit) = line {
        tell(
            teller,
            RefusalNote::Duplicate {
                dataset: submit.dataset,
                date: submit.date.unwrap_or("today"),
                time: submit.time.unwrap_or("now"),
                to: submit.to,
            },
        );
    }
}

/// Tells which partner or which file is unknown.
fn tell_unknown<W: Write>(teller: &mut Teller<'_, W>, line: &Line<'_>) {
    if let Some(no) = number_of(line) {
        return tell(teller, RefusalNote::NoFile(no));
    }
    if let Line::Resend(resend) = line {
        return tell(teller, RefusalNote::NoOutgoing(resend.no));
    }
    match (partner_of(line), book_of(line)) {
        (Some(code), Some(book)) => tell(teller, RefusalNote::NoPartner { code, book }),
        _ => tell(teller, RefusalNote::NoneNamed),
    }
}

/// The number of the incoming file that a line names.
fn number_of(line: &Line<'_>) -> Option<u64> {
    match line {
        Line::Release(release) => Some(release.no),
        Line::Refuse(refuse) => Some(refuse.no),
        Line::Fetch(fetch) => Some(fetch.no),
        _ => None,
    }
}

/// The code of the partner that a line names.
fn partner_of<'a>(line: &Line<'a>) -> Option<&'a str> {
    match line {
        Line::Submit(submit) => Some(submit.to),
        Line::Offer(offer) => Some(offer.to),
        Line::Call(call) => Some(call.partner),
        Line::Feed(feed) => feed.partner,
        _ => None,
    }
}

/// Tells in which state a file is.
fn tell_state<W: Write>(teller: &mut Teller<'_, W>, line: &Line<'_>, report: &[u8]) {
    if let Line::Resend(resend) = line {
        return tell(teller, RefusalNote::Unsent(resend.no));
    }
    let Some(no) = number_of(line) else {
        return;
    };
    let state = match str::from_utf8(report) {
        Ok(text) => state_in(text, no),
        Err(_) => FileState::Other,
    };
    tell(teller, RefusalNote::State { no, state });
}

/// The state of a file in a report.
fn state_in(report: &str, no: u64) -> FileState {
    for row in report.lines() {
        if let Some((number, rest)) = row.split_once(',') {
            if let Ok(found) = number.parse::<u64>()
                && found == no
            {
                return state_behind(rest);
            }
        }
    }
    FileState::Other
}

/// The state in which a row of a report ends.
fn state_behind(row: &str) -> FileState {
    if row.ends_with(",EERP") {
        FileState::Released
    } else if row.ends_with(",NERP") {
        FileState::Refused
    } else if row.ends_with(",whole,none") {
        FileState::Other
    } else {
        FileState::Incomplete
    }
}

/// Tells how much a database may have.
fn tell_limit<W: Write>(teller: &mut Teller<'_, W>, line: &Line<'_>) {
    if let Some(path) = database_of(line) {
        teller.tell(&Note::Database {
            path,
            cause: DatabaseCause::IsFull,
        });
    }
}

/// Tells which field isn't allowed.
fn tell_field<W: Write>(teller: &mut Teller<'_, W>, line: &Line<'_>) {
    match line {
        Line::Submit(submit) => tell_submission(teller, submit),
        Line::Offer(offer) => tell_longest(teller, offer.longest),
        Line::Refuse(refuse) => tell(
            teller,
            RefusalNote::Field {
                field: Field::Text,
                value: refuse.text,
            },
        ),
        _ => {}
    }
}

/// Tells which field of a submission isn't allowed.
fn tell_submission<W: Write>(teller: &mut Teller<'_, W>, submit: &Submit<'_>) {
    let field = first_field(&Handed {
        dataset: submit.dataset,
        date: submit.date.unwrap_or(ALLOWED_DATE),
        time: submit.time.unwrap_or(ALLOWED_TIME),
        format: submit.format,
        longest: submit.longest,
        description: submit.description,
    });
    let value = match field {
        Some(Field::Dataset) => submit.dataset,
        Some(Field::Date) => submit.date.unwrap_or(ALLOWED_DATE),
        Some(Field::Time) => submit.time.unwrap_or(ALLOWED_TIME),
        Some(Field::Longest) => return tell_longest(teller, submit.longest),
        Some(Field::Description) => submit.description,
        _ => submit.file,
    };
    let field = field.unwrap_or(Field::Content);
    tell(teller, RefusalNote::Field { field, value });
}

/// Tells that a record length isn't allowed.
fn tell_longest<W: Write>(teller: &mut Teller<'_, W>, longest: u32) {
    if let Ok(value) = longest.to_string(teller.rt.alloc()) {
        tell(
            teller,
            RefusalNote::Field {
                field: Field::Longest,
                value: value.as_str(),
            },
        );
    }
}

/// Tells why `offer` was refused as a whole, if it was, and why `history` was.
pub fn tell_folder<W: Write>(teller: &mut Teller<'_, W>, line: &Line<'_>) {
    match line {
        Line::Offer(offer) => tell_offer(teller, line, offer),
        Line::History(history) => tell(
            teller,
            RefusalNote::NoEvent {
                no: history.no,
                path: history.events,
            },
        ),
        _ => {}
    }
}

/// Tells which partner is unknown, or that the record length isn't allowed.
fn tell_offer<W: Write>(teller: &mut Teller<'_, W>, line: &Line<'_>, offer: &Offer<'_>) {
    let Ok(book) = read_book(teller.rt, offer.files.book) else {
        return;
    };
    if book.partner(offer.to.as_bytes()).is_none() {
        tell_unknown(teller, line);
    } else if !offer.format.allows_longest(offer.longest) {
        tell_longest(teller, offer.longest);
    }
}
