//! The command `explain`: prints what a partner did that RFC 5024 doesn't allow, or that this station doesn't take.

use crate::files::{file_fault, open_input};
use oftp_codec::{CutStream, FRAME_HEADER, LONGEST_FRAME, cut};
use oftp_conformance::{
    Explanation, Finding, Session, findings_in, header_finding, heard_findings,
};
use oftp_engine::RunFault;
use oftp_outcomes::Fault;
use oftp_telling::{CommandKind, Sender, kind_in, rest_of};
use std::alloc::{AllocError, Global};
use std::io::{Read, Write};

/// One side of a session: its octets, and the commands in them.
#[derive(Drop)]
struct Side {
    octets: Vec<u8>,
    stream: CutStream,
}

/// How far the commands of a side were heard.
#[derive(Clone, Copy)]
struct Mark {
    /// How many commands were heard.
    count: usize,
    /// Where the next one begins, in octets from 0.
    offset: usize,
}

/// Nothing was heard.
const START: Mark = Mark {
    count: 0,
    offset: 0,
};

impl Mark {
    /// After the command with these octets.
    fn after(self, frame: &[u8]) -> Mark {
        Mark {
            count: self.count.saturating_add(1),
            offset: self
                .offset
                .saturating_add(FRAME_HEADER)
                .saturating_add(frame.len()),
        }
    }
}

/// Reads the octets of a side from a file.
///
/// # Errors
/// [`Fault::File`] if it can't be read, or is a folder; [`Fault::MEMORY`].
fn read_octets(rt: &HostRuntime, path: &str) -> Result<Vec<u8>, Fault> {
    let mut file = open_input(rt, path)?;
    let mut octets = Vec::new(rt.alloc());
    file.read_to_end(&mut octets)
        .map_err(|error| file_fault(&error))?;
    Ok(octets)
}

/// The side with these octets.
fn side_of(alloc: Global, octets: &[u8]) -> Result<Side, Fault> {
    let stream = cut(alloc, LONGEST_FRAME, &[octets])?;
    let octets = Vec::from_slice(alloc, octets)?;
    Ok(Side { octets, stream })
}

/// The octets of the next command of a side, if it has one.
fn next_frame(side: &Side, mark: Mark) -> Option<&[u8]> {
    match side.stream.commands.get(mark.count) {
        Some(frame) => Some(frame.as_slice()),
        None => None,
    }
}

/// The kind that the next command of a side begins as, if it has one.
fn next_kind(side: &Side, mark: Mark) -> Option<CommandKind> {
    match next_frame(side, mark) {
        Some(frame) => kind_in(frame),
        None => None,
    }
}

/// Adds the lines of what was found in a command of the partner.
fn add_findings(
    found: &[Finding],
    mark: Mark,
    octets: &[u8],
    lines: &mut String,
) -> Result<(), AllocError> {
    for finding in found {
        let explanation = Explanation {
            finding: *finding,
            octets,
        };
        let number = mark.count.saturating_add(1);
        let offset = mark.offset;
        write!(lines, "command {number} at octet {offset}: {explanation}\n")?;
    }
    Ok(())
}

/// Adds what is found behind the last command of the partner: a stream header, or a frame that isn't whole.
fn add_rest(side: &Side, mark: Mark, lines: &mut String) -> Result<(), AllocError> {
    let rest = rest_of(side.octets.as_slice(), mark.offset);
    if let Some(finding) = header_finding(rest) {
        return add_findings(&[finding], mark, rest, lines);
    }
    if !rest.is_empty() {
        let offset = mark.offset;
        write!(lines, "octet {offset}: the frame isn't whole\n")?;
    }
    Ok(())
}

/// Adds what is found in the commands of the partner alone.
fn add_alone(alloc: Global, side: &Side, lines: &mut String) -> Result<(), AllocError> {
    let mut mark = START;
    for frame in &side.stream.commands {
        let found = findings_in(alloc, frame.as_slice())?;
        add_findings(found.as_slice(), mark, frame.as_slice(), lines)?;
        mark = mark.after(frame.as_slice());
    }
    add_rest(side, mark, lines)
}

/// Both sides of a session, as far as they were heard.
#[derive(Drop)]
struct Talk<'f> {
    session: Session<'f>,
    partner: Mark,
    station: Mark,
}

/// Hears the next command of the partner, and adds what is found in it. Returns whether there was one.
fn hear_partner<'f>(
    alloc: Global,
    talk: &mut Talk<'f>,
    side: &'f Side,
    lines: &mut String,
) -> Result<bool, AllocError> {
    let Some(frame) = next_frame(side, talk.partner) else {
        return Ok(false);
    };
    let found = heard_findings(alloc, &talk.session, Sender::Partner, frame)?;
    add_findings(found.as_slice(), talk.partner, frame, lines)?;
    talk.session.hear(Sender::Partner, frame);
    talk.partner = talk.partner.after(frame);
    Ok(true)
}

/// Hears the next command of this station. Returns whether there was one.
fn hear_station<'f>(talk: &mut Talk<'f>, side: &'f Side) -> bool {
    let Some(frame) = next_frame(side, talk.station) else {
        return false;
    };
    talk.session.hear(Sender::Station, frame);
    talk.station = talk.station.after(frame);
    true
}

/// The side whose command is heard next.
fn next_side(talk: &Talk<'_>, partner: &Side, station: &Side) -> Sender {
    let heard = next_frame(partner, talk.partner);
    let said = next_frame(station, talk.station);
    match talk.session.owing() {
        Sender::Partner => talk.session.next_side(heard, said),
        Sender::Station => talk.session.next_side(said, heard),
    }
}

/// Adds what is found in the commands of the partner, by what both sides said.
fn add_both<'f>(
    alloc: Global,
    partner: &'f Side,
    station: &'f Side,
    lines: &mut String,
) -> Result<(), AllocError> {
    let mut talk = Talk {
        session: Session::begun(next_kind(partner, START)),
        partner: START,
        station: START,
    };
    for _ in 0..u64::MAX {
        let went_on = match next_side(&talk, partner, station) {
            Sender::Partner => hear_partner(alloc, &mut talk, partner, lines)?,
            Sender::Station => hear_station(&mut talk, station),
        };
        if !went_on {
            break;
        }
    }
    add_rest(partner, talk.partner, lines)?;
    if let Some(silence) = talk.session.silence() {
        write!(lines, "{silence}\n")?;
    }
    Ok(())
}

/// What the partner did in a session that RFC 5024 doesn't allow, or that this station doesn't take, in lines. It is told by the octets that came
/// from it, and by those that went to it if they are given.
///
/// # Errors
/// [`Fault::MEMORY`].
pub fn explained(alloc: Global, heard: &[u8], said: Option<&[u8]>) -> Result<String, Fault> {
    let partner = side_of(alloc, heard)?;
    let mut lines = String::new(alloc);
    match said {
        Some(octets) => {
            let station = side_of(alloc, octets)?;
            add_both(alloc, &partner, &station, &mut lines)?;
        }
        None => add_alone(alloc, &partner, &mut lines)?,
    }
    Ok(lines)
}

/// Prints what the partner did in a session that RFC 5024 doesn't allow, or that this station doesn't take. It is told by the octets that came
/// from it, and by those that went to it if a file has them. Returns whether there was nothing.
///
/// # Errors
/// [`Fault::File`] if a file can't be read; [`Fault::Run`] with [`RunFault::Write`] if `out` returned an error; [`Fault::MEMORY`].
pub fn explain(
    rt: &HostRuntime,
    input: &str,
    output: Option<&str>,
    out: &mut impl Write,
) -> Result<bool, Fault> {
    let heard = read_octets(rt, input)?;
    let lines = match output {
        Some(path) => {
            let said = read_octets(rt, path)?;
            explained(rt.alloc(), heard.as_slice(), Some(said.as_slice()))?
        }
        None => explained(rt.alloc(), heard.as_slice(), None)?,
    };
    if out.write_all(lines.as_bytes()).is_err() {
        return Err(Fault::Run(RunFault::Write));
    }
    Ok(lines.is_empty())
}
