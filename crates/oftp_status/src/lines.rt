//! The picture of a station for people, in lines.

ghost use Rattle.std.specs.Prelude.{◌≡◌, OnOk, IfOk, fold};
ghost use Rattle.oftp_status.specs.PlainLines.{status_lines, with_called, with_count, with_general, with_going_line, with_next_call, with_of, with_own, with_part, with_partner_lines, with_title, with_to_do};

use crate::ending::{Ending, add_words};
use crate::picture::{Going, Partner, Picture};
use crate::pieces::{Piece, add};
use crate::standing::Standing;
use crate::subject::Subject;
use crate::tally::Tally;
use std::alloc::{AllocError, Global};

// Appends how often something was counted, and how long ago last.
fn add_count(alloc: Global, now: u64, tally: &Tally, text: &mut Vec<u8>) -> Result<(), AllocError>
    ensures { OnOk result (text.new.items ≡ with_count now tally.now text.old.items) }
{
    add(
        alloc,
        &[
            Piece::Text(", "),
            Piece::Age(now.saturating_sub(tally.last)),
            Piece::Text(" ago, "),
            Piece::Number(tally.count),
            Piece::Text(" since the start\n"),
        ],
        text,
    )
}

// Appends how many files stand like this, and how old the oldest is.
fn add_files(
    alloc: Global,
    now: u64,
    standing: Standing,
    tally: &Tally,
    text: &mut Vec<u8>,
) -> Result<(), AllocError>
    ensures { OnOk result (text.new.items ≡ with_of now standing tally.now text.old.items) }
{
    add(
        alloc,
        &[
            Piece::Text("  "),
            Piece::Text(standing.way().word()),
            Piece::Text(" "),
            Piece::Text(standing.word()),
            Piece::Text(": "),
            Piece::Number(tally.count),
            Piece::Text(", the oldest of "),
            Piece::Age(now.saturating_sub(tally.first)),
            Piece::Text(" ago\n"),
        ],
        text,
    )
}

// Appends the line of a counter of a partner.
fn add_own(alloc: Global, now: u64, tally: &Tally, text: &mut Vec<u8>) -> Result<(), AllocError>
    ensures { OnOk result (text.new.items ≡ with_own now text.old.items tally.now) }
{
    match &tally.subject {
        Subject::Session { way, end, .. } => {
            add(
                alloc,
                &[
                    Piece::Text("  session "),
                    Piece::Text(way.word()),
                    Piece::Text(": "),
                ],
                text,
            )?;
            add_words(alloc, *end, text)?;
            add_count(alloc, now, tally, text)
        }
        Subject::NotReached { .. } => {
            text.extend_from_slice(b"  not reached")?;
            add_count(alloc, now, tally, text)
        }
        Subject::File { standing, .. } => add_files(alloc, now, *standing, tally, text),
        Subject::NotLetIn { .. } | Subject::EventLost | Subject::Backup => Ok(()),
    }
}

// Appends the line of a counter, if it is of the partner with this code.
fn add_if_own(
    alloc: Global,
    now: u64,
    code: &str,
    tally: &Tally,
    text: &mut Vec<u8>,
) -> Result<(), AllocError>
    ensures { OnOk result (text.new.items ≡ with_called now code.now text.old.items tally.now) }
{
    if tally.subject.partner() == code {
        add_own(alloc, now, tally, text)
    } else {
        Ok(())
    }
}

// Appends the lines of the counters of a partner.
fn add_all_own(
    alloc: Global,
    now: u64,
    code: &str,
    tallies: &[Tally],
    text: &mut Vec<u8>,
) -> Result<(), AllocError>
    ensures { OnOk result (text.new.items ≡ fold (with_called now code.now) text.old.items tallies.now) }
{
    for tally in tallies {
        add_if_own(alloc, now, code, tally, text)?;
    }
    Ok(())
}

// Appends when a partner is called next.
fn add_next_call(
    alloc: Global,
    now: u64,
    time: Option<u64>,
    text: &mut Vec<u8>,
) -> Result<(), AllocError>
    ensures { OnOk result (text.new.items ≡ with_next_call now time text.old.items) }
{
    match time {
        Some(time) => add(
            alloc,
            &[
                Piece::Text(", next call in "),
                Piece::Age(time.saturating_sub(now)),
            ],
            text,
        ),
        None => Ok(()),
    }
}

// Appends the lines of a partner.
fn add_partner(
    alloc: Global,
    picture: &Picture<'_>,
    partner: &Partner<'_>,
    text: &mut Vec<u8>,
) -> Result<(), AllocError>
    ensures { OnOk result (text.new.items ≡ with_partner_lines picture.now text.old.items partner.now) }
{
    text.extend_from_slice(partner.code.as_bytes())?;
    add_next_call(alloc, picture.moment, partner.next_call, text)?;
    text.extend_from_slice(b"\n")?;
    add_all_own(alloc, picture.moment, partner.code, picture.counters, text)?;
    add_all_own(alloc, picture.moment, partner.code, picture.files, text)
}

// Appends the lines of all partners.
fn add_partners(alloc: Global, picture: &Picture<'_>, text: &mut Vec<u8>) -> Result<(), AllocError>
    ensures { OnOk result (text.new.items ≡ fold (with_partner_lines picture.now) text.old.items picture.now.partners.now) }
{
    for partner in picture.partners {
        add_partner(alloc, picture, partner, text)?;
    }
    Ok(())
}

// Appends the line of a counter that is of no partner.
fn add_general(alloc: Global, now: u64, tally: &Tally, text: &mut Vec<u8>) -> Result<(), AllocError>
    ensures { OnOk result (text.new.items ≡ with_general now text.old.items tally.now) }
{
    match &tally.subject {
        Subject::NotLetIn { reason } => {
            text.extend_from_slice(b"not let in: ")?;
            add_words(alloc, Ending::Own(*reason), text)?;
            add_count(alloc, now, tally, text)
        }
        Subject::EventLost => {
            text.extend_from_slice(b"an event couldn't be written")?;
            add_count(alloc, now, tally, text)
        }
        Subject::Backup => {
            text.extend_from_slice(b"backup")?;
            add_count(alloc, now, tally, text)
        }
        Subject::Session { .. } | Subject::NotReached { .. } | Subject::File { .. } => Ok(()),
    }
}

// Appends the lines of the counters that are of no partner.
fn add_generals(
    alloc: Global,
    now: u64,
    tallies: &[Tally],
    text: &mut Vec<u8>,
) -> Result<(), AllocError>
    ensures { OnOk result (text.new.items ≡ fold (with_general now) text.old.items tallies.now) }
{
    for tally in tallies {
        add_general(alloc, now, tally, text)?;
    }
    Ok(())
}

// Appends what is to be done here with the files of a counter, if something is.
fn add_to_do(alloc: Global, tally: &Tally, text: &mut Vec<u8>) -> Result<(), AllocError>
    ensures { OnOk result (text.new.items ≡ with_to_do text.old.items tally.now) }
{
    match &tally.subject {
        Subject::File {
            partner,
            standing: Standing::Whole,
        } => add(
            alloc,
            &[
                Piece::Text("to do: release or refuse "),
                Piece::Number(tally.count),
                Piece::Text(" from "),
                Piece::Text(partner.as_str()),
                Piece::Text("\n"),
            ],
            text,
        ),
        _ => Ok(()),
    }
}

// Appends what is to be done here.
fn add_to_dos(alloc: Global, tallies: &[Tally], text: &mut Vec<u8>) -> Result<(), AllocError>
    ensures { OnOk result (text.new.items ≡ fold with_to_do text.old.items tallies.now) }
{
    for tally in tallies {
        add_to_do(alloc, tally, text)?;
    }
    Ok(())
}

// Appends how much of a file came or went, if its name is known.
fn add_part(alloc: Global, dataset: &str, share: u64, text: &mut Vec<u8>) -> Result<(), AllocError>
    ensures { OnOk result (text.new.items ≡ with_part text.old.items dataset.now share) }
{
    if dataset.is_empty() {
        return Ok(());
    }
    add(
        alloc,
        &[
            Piece::Text(", "),
            Piece::Text(dataset),
            Piece::Text(" "),
            Piece::Number(share),
            Piece::Text(" %"),
        ],
        text,
    )
}

// Appends the session that is going on.
fn add_going(alloc: Global, going: Option<Going<'_>>, text: &mut Vec<u8>) -> Result<(), AllocError>
    ensures { OnOk result (text.new.items ≡ with_going_line text.old.items going.entry) }
{
    match going {
        None => text.extend_from_slice(b"no session\n"),
        Some(going) => {
            add(
                alloc,
                &[
                    Piece::Text("session "),
                    Piece::Text(going.way.word()),
                    Piece::Text(" with "),
                    Piece::Text(going.partner),
                ],
                text,
            )?;
            add_part(alloc, going.dataset, going.share, text)?;
            text.extend_from_slice(b"\n")
        }
    }
}

// Appends the version, the age and the database.
fn add_title(alloc: Global, picture: &Picture<'_>, text: &mut Vec<u8>) -> Result<(), AllocError>
    ensures { OnOk result (text.new.items ≡ with_title text.old.items picture.now) }
{
    add(
        alloc,
        &[
            Piece::Text("version "),
            Piece::Text(picture.version),
            Piece::Text(", up for "),
            Piece::Age(picture.moment.saturating_sub(picture.since)),
            Piece::Text("\ndatabase "),
            Piece::Text(picture.database),
            Piece::Text(", "),
            Piece::Number(picture.octets),
            Piece::Text(" octets\n"),
        ],
        text,
    )
}

/// The picture of a station for people, in lines.
///
/// # Errors
///
/// Out of memory.
pub fn status_lines(alloc: Global, picture: &Picture<'_>) -> Result<Vec<u8>, AllocError>
    ensures { IfOk result (λ text. text.items ≡ status_lines picture.now) }
{
    let mut text = Vec::new(alloc);
    add_title(alloc, picture, &mut text)?;
    add_going(alloc, picture.going, &mut text)?;
    add_partners(alloc, picture, &mut text)?;
    add_generals(alloc, picture.moment, picture.counters, &mut text)?;
    add_to_dos(alloc, picture.files, &mut text)?;
    Ok(text)
}
