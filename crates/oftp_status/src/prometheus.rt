//! The picture of a station in Prometheus' text form.

ghost use Rattle.std.specs.Prelude.{◌≡◌, OnOk, IfOk, fold};
ghost use Rattle.oftp_status.specs.Metrics.{counted_families, file_texts, help_texts, last_good_line, metrics_text, not_reached_texts, plain_texts, reason_texts, scalars, session_texts, single_texts, single_families, with_family, with_good, with_sample};
ghost use Rattle.oftp_status.specs.declared.prometheus.Family.{Family};
ghost use Rattle.oftp_status.specs.declared.prometheus.Family.TheVariants.{Files, Oldest};
ghost use Rattle.oftp_status.specs.Pieces.{with_texts};

use crate::ending::{Ending, add_end};
use crate::picture::{Partner, Picture, last_good};
use crate::pieces::{Piece, add};
use crate::standing::Standing;
use crate::subject::Subject;
use crate::tally::Tally;
use crate::way::Way;
use oftp_wire::Count;
use std::alloc::{AllocError, Global};

/// A metric that has a line for each counter of its kind.
#[derive(Clone, Copy)]
pub(crate) enum Family {
    Files,
    Oldest,
    Sessions,
    NotLetIn,
    NotReached,
    EventsLost,
    Backups,
    LastBackup,
}

impl Family {
    // Its lines HELP and TYPE.
    fn help(self) -> &'static str
        ensures { result.now ≡ help_texts self }
    {
        match self {
            Family::Files => {
                "# HELP oftp_files Files by way, state and partner.\n# TYPE oftp_files gauge\n"
            }
            Family::Oldest => {
                "# HELP oftp_oldest_seconds Age of the oldest file by its stamp.\n# TYPE oftp_oldest_seconds gauge\n"
            }
            Family::Sessions => {
                "# HELP oftp_sessions_total Sessions since the start.\n# TYPE oftp_sessions_total counter\n"
            }
            Family::NotLetIn => {
                "# HELP oftp_not_let_in_total Callers that weren't let in since the start, by reason of ESID.\n# TYPE oftp_not_let_in_total counter\n"
            }
            Family::NotReached => {
                "# HELP oftp_not_reached_total Calls that didn't connect since the start.\n# TYPE oftp_not_reached_total counter\n"
            }
            Family::EventsLost => {
                "# HELP oftp_events_lost_total Events that couldn't be written since the start.\n# TYPE oftp_events_lost_total counter\n"
            }
            Family::Backups => {
                "# HELP oftp_backups_total Backups since the start.\n# TYPE oftp_backups_total counter\n"
            }
            Family::LastBackup => {
                "# HELP oftp_last_backup_timestamp_seconds When the last backup since the start was made.\n# TYPE oftp_last_backup_timestamp_seconds gauge\n"
            }
        }
    }
}

// Appends the line of files.
fn add_file(
    alloc: Global,
    front: &'static str,
    partner: &str,
    standing: Standing,
    value: u64,
    text: &mut Vec<u8>,
) -> Result<(), AllocError>
    ensures { OnOk result (text.new.items ≡ with_texts text.old.items (file_texts front.now partner.now standing value)) }
{
    add(
        alloc,
        &[
            Piece::Text(front),
            Piece::Text("{way=\""),
            Piece::Text(standing.way().word()),
            Piece::Text("\",state=\""),
            Piece::Text(standing.word()),
            Piece::Text("\",partner=\""),
            Piece::Text(partner),
            Piece::Text("\"} "),
            Piece::Number(value),
            Piece::Text("\n"),
        ],
        text,
    )
}

// Appends the line of sessions.
fn add_session(
    alloc: Global,
    partner: &str,
    way: Way,
    end: Ending,
    value: u64,
    text: &mut Vec<u8>,
) -> Result<(), AllocError>
    ensures { OnOk result (text.new.items ≡ with_texts text.old.items (session_texts partner.now way end value)) }
{
    add(
        alloc,
        &[
            Piece::Text("oftp_sessions_total{partner=\""),
            Piece::Text(partner),
            Piece::Text("\",way=\""),
            Piece::Text(way.word()),
            Piece::Text("\",end=\""),
        ],
        text,
    )?;
    add_end(alloc, end, text)?;
    add_plain(alloc, "\"} ", value, text)
}

// Appends the line of callers that weren't let in for a reason.
fn add_reason(
    alloc: Global,
    reason: Count<2>,
    value: u64,
    text: &mut Vec<u8>,
) -> Result<(), AllocError>
    ensures { OnOk result (text.new.items ≡ with_texts text.old.items (reason_texts reason value)) }
{
    let number = reason.get();
    add(
        alloc,
        &[
            Piece::Text("oftp_not_let_in_total{reason=\""),
            Piece::Number(number / 10),
            Piece::Number(number % 10),
            Piece::Text("\"} "),
            Piece::Number(value),
            Piece::Text("\n"),
        ],
        text,
    )
}

// Appends the line of calls of a partner that didn't connect.
fn add_not_reached(
    alloc: Global,
    partner: &str,
    value: u64,
    text: &mut Vec<u8>,
) -> Result<(), AllocError>
    ensures { OnOk result (text.new.items ≡ with_texts text.old.items (not_reached_texts partner.now value)) }
{
    add(
        alloc,
        &[
            Piece::Text("oftp_not_reached_total{partner=\""),
            Piece::Text(partner),
            Piece::Text("\"} "),
            Piece::Number(value),
            Piece::Text("\n"),
        ],
        text,
    )
}

// Appends a line without labels.
fn add_plain(
    alloc: Global,
    front: &'static str,
    value: u64,
    text: &mut Vec<u8>,
) -> Result<(), AllocError>
    ensures { OnOk result (text.new.items ≡ with_texts text.old.items (plain_texts front.now value)) }
{
    add(
        alloc,
        &[Piece::Text(front), Piece::Number(value), Piece::Text("\n")],
        text,
    )
}

// Appends the line of a counter that has no labels, if it is of this family.
fn add_single(
    alloc: Global,
    family: Family,
    subject: &Subject,
    tally: &Tally,
    text: &mut Vec<u8>,
) -> Result<(), AllocError>
    ensures { OnOk result (text.new.items ≡ with_texts text.old.items (single_texts family tally.now subject.now)) }
{
    match (family, subject) {
        (Family::EventsLost, Subject::EventLost) => {
            add_plain(alloc, "oftp_events_lost_total ", tally.count, text)
        }
        (Family::Backups, Subject::Backup) => {
            add_plain(alloc, "oftp_backups_total ", tally.count, text)
        }
        (Family::LastBackup, Subject::Backup) => {
            add_plain(
                alloc,
                "oftp_last_backup_timestamp_seconds ",
                tally.last,
                text,
            )
        }
        _ => Ok(()),
    }
}

// Appends the line of a counter, if it is of this family.
fn add_sample(
    alloc: Global,
    family: Family,
    now: u64,
    tally: &Tally,
    text: &mut Vec<u8>,
) -> Result<(), AllocError>
    ensures { OnOk result (text.new.items ≡ with_sample family now text.old.items tally.now) }
{
    let count = tally.count;
    match (family, &tally.subject) {
        (Family::Files, Subject::File { partner, standing }) => {
            add_file(
                alloc,
                "oftp_files",
                partner.as_str(),
                *standing,
                count,
                text,
            )
        }
        (Family::Oldest, Subject::File { partner, standing }) => {
            let age = now.saturating_sub(tally.first);
            add_file(
                alloc,
                "oftp_oldest_seconds",
                partner.as_str(),
                *standing,
                age,
                text,
            )
        }
        (Family::Sessions, Subject::Session { partner, way, end }) => {
            add_session(alloc, partner.as_str(), *way, *end, count, text)
        }
        (Family::NotLetIn, Subject::NotLetIn { reason }) => {
            add_reason(alloc, *reason, count, text)
        }
        (Family::NotReached, Subject::NotReached { partner }) => {
            add_not_reached(alloc, partner.as_str(), count, text)
        }
        (family, subject) => add_single(alloc, family, subject, tally, text),
    }
}

// Appends a family: its lines HELP and TYPE, and a line for each counter of its kind.
fn add_family(
    alloc: Global,
    family: Family,
    now: u64,
    tallies: &[Tally],
    text: &mut Vec<u8>,
) -> Result<(), AllocError>
    ensures { OnOk result (text.new.items ≡ with_family now tallies.now text.old.items family) }
{
    text.extend_from_slice(family.help().as_bytes())?;
    for tally in tallies {
        add_sample(alloc, family, now, tally, text)?;
    }
    Ok(())
}

// Appends when the last good session with a partner ended that was called for a way, if there was one.
fn add_last_good(
    alloc: Global,
    counters: &[Tally],
    code: &str,
    way: Way,
    text: &mut Vec<u8>,
) -> Result<(), AllocError>
    ensures { OnOk result (text.new.items ≡ last_good_line counters.now code.now way text.old.items) }
{
    let time = last_good(counters, code, way);
    if time == 0 {
        return Ok(());
    }
    add(
        alloc,
        &[
            Piece::Text("oftp_last_good_session_timestamp_seconds{partner=\""),
            Piece::Text(code),
            Piece::Text("\",way=\""),
            Piece::Text(way.word()),
            Piece::Text("\"} "),
            Piece::Number(time),
            Piece::Text("\n"),
        ],
        text,
    )
}

// Appends the last good sessions of all partners.
fn add_good(
    alloc: Global,
    counters: &[Tally],
    partners: &[Partner<'_>],
    text: &mut Vec<u8>,
) -> Result<(), AllocError>
    ensures { OnOk result (text.new.items ≡ fold (with_good counters.now) text.old.items partners.now) }
{
    for partner in partners {
        add_last_good(alloc, counters, partner.code, Way::In, text)?;
        add_last_good(alloc, counters, partner.code, Way::Out, text)?;
    }
    Ok(())
}

// Appends what has one value.
fn add_scalars(alloc: Global, picture: &Picture<'_>, text: &mut Vec<u8>) -> Result<(), AllocError>
    ensures { OnOk result (text.new.items ≡ with_texts text.old.items (scalars picture.now)) }
{
    add(
        alloc,
        &[
            Piece::Text(
                "# HELP oftp_up Whether the station runs.\n# TYPE oftp_up gauge\noftp_up 1\n",
            ),
            Piece::Text(
                "# HELP oftp_build_info The program's version.\n# TYPE oftp_build_info gauge\noftp_build_info{version=\"",
            ),
            Piece::Text(picture.version),
            Piece::Text(
                "\"} 1\n# HELP oftp_start_time_seconds When the station began.\n# TYPE oftp_start_time_seconds gauge\noftp_start_time_seconds ",
            ),
            Piece::Number(picture.since),
            Piece::Text(
                "\n# HELP oftp_database_bytes Size of the database's file.\n# TYPE oftp_database_bytes gauge\noftp_database_bytes ",
            ),
            Piece::Number(picture.octets),
            Piece::Text(
                "\n# HELP oftp_sessions_running Sessions that are going on.\n# TYPE oftp_sessions_running gauge\noftp_sessions_running ",
            ),
            Piece::Number(u64::from(picture.going.is_some())),
            Piece::Text(
                "\n# HELP oftp_last_good_session_timestamp_seconds When the last session with ESID 00 ended.\n# TYPE oftp_last_good_session_timestamp_seconds gauge\n",
            ),
        ],
        text,
    )
}

/// The picture of a station in Prometheus' text form, with HELP and TYPE of each metric.
///
/// # Errors
///
/// Out of memory.
pub fn metrics(alloc: Global, picture: &Picture<'_>) -> Result<Vec<u8>, AllocError>
    ensures { IfOk result (λ text. text.items ≡ metrics_text picture.now) }
{
    let mut text = Vec::new(alloc);
    add_scalars(alloc, picture, &mut text)?;
    add_good(alloc, picture.counters, picture.partners, &mut text)?;
    add_files(alloc, picture, &mut text)?;
    add_counters(alloc, picture, &mut text)?;
    Ok(text)
}

// Appends the families of the files.
fn add_files(alloc: Global, picture: &Picture<'_>, text: &mut Vec<u8>) -> Result<(), AllocError>
    ensures { OnOk result (text.new.items ≡ with_family picture.now.moment picture.now.files.now (with_family picture.now.moment picture.now.files.now text.old.items Files) Oldest) }
{
    add_family(alloc, Family::Files, picture.moment, picture.files, text)?;
    add_family(alloc, Family::Oldest, picture.moment, picture.files, text)
}

// Appends the families of the counters.
fn add_counters(alloc: Global, picture: &Picture<'_>, text: &mut Vec<u8>) -> Result<(), AllocError>
    ensures { OnOk result (text.new.items ≡ fold (with_family picture.now.moment picture.now.counters.now) text.old.items counted_families) }
{
    let (now, counters) = (picture.moment, picture.counters);
    add_family(alloc, Family::Sessions, now, counters, text)?;
    add_family(alloc, Family::NotLetIn, now, counters, text)?;
    add_family(alloc, Family::NotReached, now, counters, text)?;
    add_rest(alloc, picture, text)
}

// Appends the families of the counters that have one line.
fn add_rest(alloc: Global, picture: &Picture<'_>, text: &mut Vec<u8>) -> Result<(), AllocError>
    ensures { OnOk result (text.new.items ≡ fold (with_family picture.now.moment picture.now.counters.now) text.old.items single_families) }
{
    let (now, counters) = (picture.moment, picture.counters);
    add_family(alloc, Family::EventsLost, now, counters, text)?;
    add_family(alloc, Family::Backups, now, counters, text)?;
    add_family(alloc, Family::LastBackup, now, counters, text)
}
