//! The picture of a station as JSON.

ghost use Rattle.std.specs.Prelude.{◌≡◌, OnOk, IfOk};
ghost use Rattle.oftp_status.specs.Pieces.{with_texts};
ghost use Rattle.oftp_status.specs.Objects.{ends_begun, file_begun, reason_begun, status_json, with_counter, with_counters, with_going, with_head, with_later_counter, with_later_partner, with_lists, with_next, with_partner, with_partners, with_session, with_subject};

use crate::ending::{Ending, add_end, add_words};
use crate::picture::{Going, Partner, Picture};
use crate::pieces::{Piece, add};
use crate::standing::Standing;
use crate::subject::Subject;
use crate::tally::Tally;
use crate::way::Way;
use oftp_wire::Count;
use std::alloc::{AllocError, Global};

// Appends how sessions ended.
fn add_ends(alloc: Global, end: &Ending, text: &mut Vec<u8>) -> Result<(), AllocError>
    ensures { OnOk result (text.new.items ≡ with_texts text.old.items (ends_begun end.now)) }
{
    text.extend_from_slice(b"\",\"end\":\"")?;
    add_end(alloc, *end, text)?;
    text.extend_from_slice(b"\",\"words\":\"")?;
    add_words(alloc, *end, text)
}

// Appends the beginning of the object of sessions.
fn add_session(
    alloc: Global,
    partner: &str,
    way: Way,
    end: &Ending,
    text: &mut Vec<u8>,
) -> Result<(), AllocError>
    ensures { OnOk result (text.new.items ≡ with_session text.old.items partner.now way end.now) }
{
    add(
        alloc,
        &[
            Piece::Text("{\"kind\":\"session\",\"partner\":"),
            Piece::Quoted(partner),
            Piece::Text(",\"way\":\""),
            Piece::Text(way.word()),
        ],
        text,
    )?;
    add_ends(alloc, end, text)?;
    text.extend_from_slice(b"\"")
}

// Appends the beginning of the object of files.
fn add_file(
    alloc: Global,
    partner: &str,
    standing: Standing,
    text: &mut Vec<u8>,
) -> Result<(), AllocError>
    ensures { OnOk result (text.new.items ≡ with_texts text.old.items (file_begun partner.now standing)) }
{
    add(
        alloc,
        &[
            Piece::Text("{\"kind\":\"file\",\"partner\":"),
            Piece::Quoted(partner),
            Piece::Text(",\"way\":\""),
            Piece::Text(standing.way().word()),
            Piece::Text("\",\"state\":\""),
            Piece::Text(standing.word()),
            Piece::Text("\""),
        ],
        text,
    )
}

// Appends the beginning of the object of callers that weren't let in.
fn add_reason(alloc: Global, reason: Count<2>, text: &mut Vec<u8>) -> Result<(), AllocError>
    ensures { OnOk result (text.new.items ≡ with_texts text.old.items (reason_begun reason)) }
{
    add(
        alloc,
        &[
            Piece::Text("{\"kind\":\"not let in\",\"reason\":"),
            Piece::Number(reason.get()),
        ],
        text,
    )
}

// Appends the beginning of a counter's object: what it counts.
fn add_subject(alloc: Global, subject: &Subject, text: &mut Vec<u8>) -> Result<(), AllocError>
    ensures { OnOk result (text.new.items ≡ with_subject text.old.items subject.now) }
{
    match subject {
        Subject::Session { partner, way, end } => {
            add_session(alloc, partner.as_str(), *way, end, text)
        }
        Subject::NotLetIn { reason } => add_reason(alloc, *reason, text),
        Subject::NotReached { partner } => add(
            alloc,
            &[
                Piece::Text("{\"kind\":\"not reached\",\"partner\":"),
                Piece::Quoted(partner.as_str()),
            ],
            text,
        ),
        Subject::File { partner, standing } => {
            add_file(alloc, partner.as_str(), *standing, text)
        }
        Subject::EventLost => text.extend_from_slice(b"{\"kind\":\"event lost\""),
        Subject::Backup => text.extend_from_slice(b"{\"kind\":\"backup\""),
    }
}

// Appends the object of a counter.
fn add_counter(alloc: Global, tally: &Tally, text: &mut Vec<u8>) -> Result<(), AllocError>
    ensures { OnOk result (text.new.items ≡ with_counter text.old.items tally.now) }
{
    add_subject(alloc, &tally.subject, text)?;
    add(
        alloc,
        &[
            Piece::Text(",\"count\":"),
            Piece::Number(tally.count),
            Piece::Text(",\"first\":"),
            Piece::Number(tally.first),
            Piece::Text(",\"last\":"),
            Piece::Number(tally.last),
            Piece::Text("}"),
        ],
        text,
    )
}

// Appends a counter behind another one.
fn add_later_counter(alloc: Global, tally: &Tally, text: &mut Vec<u8>) -> Result<(), AllocError>
    ensures { OnOk result (text.new.items ≡ with_later_counter text.old.items tally.now) }
{
    text.extend_from_slice(b",")?;
    add_counter(alloc, tally, text)
}

// Appends counters with commas between them.
fn add_counters(alloc: Global, tallies: &[Tally], text: &mut Vec<u8>) -> Result<(), AllocError>
    ensures { OnOk result (text.new.items ≡ with_counters text.old.items tallies.now) }
{
    let [first, others @ ..] = tallies else {
        return Ok(());
    };
    add_counter(alloc, first, text)?;
    for tally in others {
        add_later_counter(alloc, tally, text)?;
    }
    Ok(())
}

// Appends when a partner is called next, if it is.
fn add_next(alloc: Global, time: Option<u64>, text: &mut Vec<u8>) -> Result<(), AllocError>
    ensures { OnOk result (text.new.items ≡ with_next text.old.items time) }
{
    match time {
        Some(time) => add(
            alloc,
            &[Piece::Text(",\"next_call\":"), Piece::Number(time)],
            text,
        ),
        None => Ok(()),
    }
}

// Appends the object of a partner.
fn add_partner(alloc: Global, partner: &Partner<'_>, text: &mut Vec<u8>) -> Result<(), AllocError>
    ensures { OnOk result (text.new.items ≡ with_partner text.old.items partner.now) }
{
    add(
        alloc,
        &[Piece::Text("{\"code\":"), Piece::Quoted(partner.code)],
        text,
    )?;
    add_next(alloc, partner.next_call, text)?;
    text.extend_from_slice(b"}")
}

// Appends a partner behind another one.
fn add_later_partner(
    alloc: Global,
    partner: &Partner<'_>,
    text: &mut Vec<u8>,
) -> Result<(), AllocError>
    ensures { OnOk result (text.new.items ≡ with_later_partner text.old.items partner.now) }
{
    text.extend_from_slice(b",")?;
    add_partner(alloc, partner, text)
}

// Appends partners with commas between them.
fn add_partners(
    alloc: Global,
    partners: &[Partner<'_>],
    text: &mut Vec<u8>,
) -> Result<(), AllocError>
    ensures { OnOk result (text.new.items ≡ with_partners text.old.items partners.now) }
{
    let [first, others @ ..] = partners else {
        return Ok(());
    };
    add_partner(alloc, first, text)?;
    for partner in others {
        add_later_partner(alloc, partner, text)?;
    }
    Ok(())
}

// Appends the session that is going on, if there is one.
fn add_going(alloc: Global, going: Option<Going<'_>>, text: &mut Vec<u8>) -> Result<(), AllocError>
    ensures { OnOk result (text.new.items ≡ with_going text.old.items going.entry) }
{
    match going {
        None => text.extend_from_slice(b"null"),
        Some(going) => add(
            alloc,
            &[
                Piece::Text("{\"partner\":"),
                Piece::Quoted(going.partner),
                Piece::Text(",\"way\":\""),
                Piece::Text(going.way.word()),
                Piece::Text("\",\"dataset\":"),
                Piece::Quoted(going.dataset),
                Piece::Text(",\"share\":"),
                Piece::Number(going.share),
                Piece::Text("}"),
            ],
            text,
        ),
    }
}

// Appends what has one value.
fn add_head(alloc: Global, picture: &Picture<'_>, text: &mut Vec<u8>) -> Result<(), AllocError>
    ensures { OnOk result (text.new.items ≡ with_head text.old.items picture.now) }
{
    add(
        alloc,
        &[
            Piece::Text("{\"version\":"),
            Piece::Quoted(picture.version),
            Piece::Text(",\"now\":"),
            Piece::Number(picture.moment),
            Piece::Text(",\"since\":"),
            Piece::Number(picture.since),
            Piece::Text(",\"database\":"),
            Piece::Quoted(picture.database),
            Piece::Text(",\"octets\":"),
            Piece::Number(picture.octets),
        ],
        text,
    )
}

/// The picture of a station as JSON: one object, and a line feed.
///
/// # Errors
///
/// Out of memory.
pub fn status_json(alloc: Global, picture: &Picture<'_>) -> Result<Vec<u8>, AllocError>
    ensures { IfOk result (λ text. text.items ≡ status_json picture.now) }
{
    let mut text = Vec::new(alloc);
    add_head(alloc, picture, &mut text)?;
    text.extend_from_slice(b",\"session\":")?;
    add_going(alloc, picture.going, &mut text)?;
    add_lists(alloc, picture, &mut text)?;
    Ok(text)
}

// Appends the lists.
fn add_lists(alloc: Global, picture: &Picture<'_>, text: &mut Vec<u8>) -> Result<(), AllocError>
    ensures { OnOk result (text.new.items ≡ with_lists text.old.items picture.now) }
{
    text.extend_from_slice(b",\"partners\":[")?;
    add_partners(alloc, picture.partners, text)?;
    text.extend_from_slice(b"],\"counters\":[")?;
    add_counters(alloc, picture.counters, text)?;
    text.extend_from_slice(b"],\"files\":[")?;
    add_counters(alloc, picture.files, text)?;
    text.extend_from_slice(b"]}\n")
}
