//! The command `history`, which tells what the events say of a file, and what its state proves.

use crate::standings::put;
use oftp_command_line::{History, Ways};
use oftp_engine::Refusal;
use oftp_events::Direction;
use oftp_files::{LocalTime, file_fault, open_input};
use oftp_history::{FileHistory, passed_line, standing_line};
use oftp_outcomes::{DONE, Fault, Outcome, tell};
use std::alloc::AllocError;
use std::io::{Read, Write};

/// How many octets are read at once.
const PIECE: usize = 4_096;

/// Tells what the events in a file say of the files with a number, a line each, or the events themselves. Returns the exit status, which is that
/// of a refusal if no event is of such a file.
///
/// # Errors
/// [`Fault::File`] if the file of the events can't be read; [`Fault::Run`] if `out` returned an error; [`Fault::MEMORY`].
pub fn history(rt: &HostRuntime, line: &History<'_>, out: &mut impl Write) -> Result<u8, Fault> {
    let histories = read_all(rt, line)?;
    if histories.iter().all(|history| history.events().is_empty()) {
        return tell(Outcome::Refused(Refusal::Unknown), out);
    }
    if line.json {
        tell_events(&histories, out)?;
    } else {
        tell_lines(rt, &histories, out)?;
    }
    put(&[], out)?;
    Ok(DONE)
}

/// The ways that are asked for.
fn ways_of(ways: Ways) -> &'static [Direction] {
    match ways {
        Ways::In => &[Direction::In],
        Ways::Out => &[Direction::Out],
        Ways::Both => &[Direction::In, Direction::Out],
    }
}

/// Reads what the events say of each file that is asked for.
fn read_all(rt: &HostRuntime, line: &History<'_>) -> Result<Vec<FileHistory>, Fault> {
    let mut histories = Vec::new(rt.alloc());
    for way in ways_of(line.ways) {
        histories.push(FileHistory::new(rt.alloc(), *way, line.no))?;
    }
    let mut file = open_input(rt, line.events)?;
    let mut piece = [0; PIECE];
    for _ in 0..u64::MAX {
        let count = file.read(&mut piece).map_err(|error| file_fault(&error))?;
        if count == 0 {
            break;
        }
        take_all(&mut histories, &piece[..count])?;
    }
    end_all(&mut histories)?;
    Ok(histories)
}

/// Each takes the next octets.
fn take_all(histories: &mut Vec<FileHistory>, piece: &[u8]) -> Result<(), AllocError> {
    for history in histories.iter_mut() {
        history.take(piece)?;
    }
    Ok(())
}

/// Each takes the end of the octets.
fn end_all(histories: &mut Vec<FileHistory>) -> Result<(), AllocError> {
    for history in histories.iter_mut() {
        history.end()?;
    }
    Ok(())
}

/// Tells the events themselves.
fn tell_events(histories: &Vec<FileHistory>, out: &mut impl Write) -> Result<(), Fault> {
    for history in histories.iter() {
        for event in history.events() {
            put(event.text().as_bytes(), out)?;
            put(b"\n", out)?;
        }
    }
    Ok(())
}

/// Tells of each file of which there are events, and how many lines were none.
fn tell_lines(
    rt: &HostRuntime,
    histories: &Vec<FileHistory>,
    out: &mut impl Write,
) -> Result<(), Fault> {
    let local = LocalTime::read(rt);
    for history in histories.iter() {
        if !history.events().is_empty() {
            tell_history(rt, &local, history, out)?;
        }
    }
    match histories.first() {
        Some(history) => tell_passed(rt, history.passed(), out),
        None => Ok(()),
    }
}

/// Tells of one file: its events, and how it stands by them.
fn tell_history(
    rt: &HostRuntime,
    local: &LocalTime,
    history: &FileHistory,
    out: &mut impl Write,
) -> Result<(), Fault> {
    let (way, no) = (history.way(), history.no());
    for event in history.events() {
        let time = local.spell(event.at())?;
        let line = event.to_line(rt.alloc(), way, no, time.as_str())?;
        put(line.as_bytes(), out)?;
    }
    let line = standing_line(rt.alloc(), way, no, history.standing())?;
    put(line.as_bytes(), out)
}

/// Tells how many lines were no events, if there were any.
fn tell_passed(rt: &HostRuntime, count: u64, out: &mut impl Write) -> Result<(), Fault> {
    if count == 0 {
        return Ok(());
    }
    put(passed_line(rt.alloc(), count)?.as_bytes(), out)
}
