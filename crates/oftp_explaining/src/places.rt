//! The files, folders and addresses that a command line names.

use oftp_command_line::{Explain, Files, Line};

/// The database that a line names.
pub(crate) fn database_of<'a>(line: &Line<'a>) -> Option<&'a str> {
    match line {
        Line::Help | Line::Version | Line::Check { .. } => None,
        Line::Show { .. } | Line::Explain(_) | Line::History(_) => None,
        Line::Init { database } | Line::Migrate { database } => Some(*database),
        Line::Settled { database } | Line::Reload { database } => Some(*database),
        Line::Stop(stop) => Some(stop.database),
        Line::Status(status) => Some(status.database),
        Line::Health(health) => Some(health.database),
        Line::Audit(audit) => Some(audit.database),
        Line::Evidence(evidence) => Some(evidence.database),
        Line::Replay(replay) => Some(replay.database),
        Line::Fetch(fetch) => Some(fetch.database),
        Line::Report(report) => Some(report.database),
        Line::Backup(backup) => Some(backup.database),
        Line::Http(http) => Some(http.database),
        Line::Feed(feed) => feed.database,
        other => files_of(other).map(|files| files.database),
    }
}

/// The book that a line names.
pub(crate) fn book_of<'a>(line: &Line<'a>) -> Option<&'a str> {
    match line {
        Line::Check { book } => Some(*book),
        Line::Feed(feed) => Some(feed.book),
        Line::Replay(replay) => replay.book,
        other => files_of(other).map(|files| files.book),
    }
}

/// The database and the book of a command that needs both.
fn files_of<'a>(line: &Line<'a>) -> Option<Files<'a>> {
    match line {
        Line::Submit(submit) => Some(submit.files),
        Line::Resend(resend) => Some(resend.files),
        Line::Offer(offer) => Some(offer.files),
        Line::Release(release) => Some(release.files),
        Line::Refuse(refuse) => Some(refuse.files),
        Line::Collect(collect) => Some(collect.files),
        Line::Run(run) => Some(run.files),
        Line::Listen(listen) => Some(listen.files),
        Line::Call(call) => Some(call.files),
        _ => None,
    }
}

/// The file that a line has read.
pub(crate) fn input_of<'a>(line: &Line<'a>) -> Option<&'a str> {
    match line {
        Line::Submit(submit) => Some(submit.file),
        Line::Feed(feed) => Some(feed.input),
        Line::Show { input } => Some(*input),
        Line::Explain(Explain::Octets(input, _)) => Some(*input),
        Line::History(history) => Some(history.events),
        _ => None,
    }
}

/// The folder that a line works on.
pub(crate) fn folder_of<'a>(line: &Line<'a>) -> Option<&'a str> {
    match line {
        Line::Offer(offer) => Some(offer.folder),
        Line::Collect(collect) => Some(collect.folder),
        Line::Replay(replay) => Some(replay.folder),
        Line::Explain(Explain::Recorded(folder, _)) => Some(*folder),
        Line::Evidence(evidence) => Some(evidence.folder),
        _ => None,
    }
}

/// The file or the folder that a line has written.
pub(crate) fn output_of<'a>(line: &Line<'a>) -> Option<&'a str> {
    match line {
        Line::Fetch(fetch) => Some(fetch.file),
        Line::Backup(backup) => Some(backup.to),
        Line::Feed(feed) => Some(feed.output),
        Line::Evidence(evidence) => Some(evidence.to),
        _ => None,
    }
}

/// The file to which the events of a line are appended.
pub(crate) fn events_of<'a>(line: &Line<'a>) -> Option<&'a str> {
    match line {
        Line::Backup(backup) => backup.events,
        other => files_of(other)?.events,
    }
}

/// The folder of the record that a line asks for.
pub(crate) fn record_of<'a>(line: &Line<'a>) -> Option<&'a str> {
    match line {
        Line::Feed(feed) => feed.record,
        Line::Backup(backup) => backup.record,
        other => files_of(other)?.record,
    }
}

/// The trace that a line asks for.
pub(crate) fn trace_of<'a>(line: &Line<'a>) -> Option<&'a str> {
    match line {
        Line::Feed(feed) => feed.trace,
        Line::Run(run) => run.terms.trace,
        Line::Listen(listen) => listen.terms.trace,
        Line::Call(call) => call.terms.trace,
        _ => None,
    }
}
