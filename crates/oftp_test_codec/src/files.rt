//! Virtual files: their payloads, and their local form.

ghost use Rattle.std.specs.Prelude.{◌<◌, ◌↔◌, IsTrue, length, All};

use crate::commands::print_frame;
use crate::line::Line;
use crate::octets::print_line;
use crate::takers::{LIMITS, print_compared, print_rows, print_taken};
use oftp_vfile::{Filled, Filler, Format, MOST_ROWS, Row, Taker, VFile};
use oftp_wire::{Command, Count, Efid, Octets};
use std::io;

/// How many rows are given to a filler at a time. A payload of 16,383 octets needs no more.
const LENT: usize = 17;

/// Whether no row is empty.
fn are_filled(rows: &[Row]) -> bool
    ensures { IsTrue result ↔ All (λ r. 0 < length r) rows.now }
{
    rows.iter().all(|row| row.len() > 0)
}

/// Makes the next payload, if the rows may be given to the filler and the buffer is long enough.
fn fill(filler: &mut Filler, rows: &[Row], last: bool, out: &mut [u8]) -> Filled {
    let few = rows.len() <= MOST_ROWS && filler.row() <= MOST_ROWS - rows.len();
    if out.len() < 2 || !few || !filler.is_in(rows) {
        return Filled::Done;
    }
    if filler.format().is_stream() && !are_filled(rows) {
        return Filled::Done;
    }
    filler.next_buffer(rows, last, out)
}

/// The rows from `from` on that are given to a filler, and whether they reach the end.
fn lent_of(rows: &[Row], from: usize) -> (&[Row], bool) {
    let rest = rows.get(from..).unwrap_or(&[]);
    match rest.get(..LENT) {
        Some(lent) => (lent, rest.len() == LENT),
        None => (rest, true),
    }
}

/// What is printed for each payload.
#[derive(Clone, Copy, Drop)]
enum Shown {
    /// Its octets, and the mark after it.
    Marks,
    /// The frame of its DATA.
    Frames,
    Nothing,
}

/// Prints a payload.
fn print_payload(rt: &HostRuntime, shown: Shown, mark: usize, payload: &[u8]) -> io::Result<()> {
    match shown {
        Shown::Marks => {
            print!(rt; "  mark {mark}:")?;
            print_line(rt, " ", payload)
        }
        Shown::Frames => print_frame(rt, &Command::Data(Octets::new(payload)), payload.len()),
        Shown::Nothing => Ok(()),
    }
}

/// Fills the payloads of a file, takes each of them again, and prints them. Returns their number.
fn carry(
    rt: &HostRuntime,
    format: Format,
    rows: &[Row],
    out: &mut [u8],
    taker: &mut Taker,
    shown: Shown,
) -> io::Result<u64> {
    let mut filler = Filler::new(format, 0);
    for count in 0..u64::MAX {
        let (lent, last) = lent_of(rows, filler.row());
        let Filled::Buffer(len) = fill(&mut filler, lent, last, out) else {
            return Ok(count);
        };
        let payload = out.get(..len).unwrap_or(&[]);
        print_payload(rt, shown, filler.mark(), payload)?;
        if taker.take(payload).is_err() {
            return Ok(count);
        }
    }
    Ok(u64::MAX)
}

/// Prints the payloads of the rows with the mark after each, and then the rows that they carry.
pub fn send(rt: &HostRuntime, line: &mut Line) -> io::Result<()> {
    let (format, longest) = (line.format(), line.number());
    let mut out = vec![in rt.alloc(); 0u8; line.number() as usize]?;
    let rows = line.rows(rt.alloc())?;
    let mut taker = Taker::new(rt.alloc(), format, longest, 0, 0, LIMITS);
    let count = carry(rt, format, &rows, &mut out, &mut taker, Shown::Marks)?;
    print_taken(rt, count, &taker)?;
    print_compared(rt, taker, &rows)
}

/// The least number with more digits than a field of EFID.
const LEAST_BEYOND: u64 = 100_000_000_000_000_000;

/// Prints the frames of a file: DATA for each payload of the rows, and EFID with their counts.
pub fn frames(rt: &HostRuntime, line: &mut Line) -> io::Result<()> {
    let (format, longest) = (line.format(), line.number());
    let mut out = vec![in rt.alloc(); 0u8; line.number() as usize]?;
    let rows = line.rows(rt.alloc())?;
    let mut taker = Taker::new(rt.alloc(), format, longest, 0, 0, LIMITS);
    carry(rt, format, &rows, &mut out, &mut taker, Shown::Frames)?;
    let (records, units) = taker.counts();
    if records >= LEAST_BEYOND || units >= LEAST_BEYOND {
        return Ok(());
    }
    let efid = Efid {
        records: Count::new(records),
        units: Count::new(units),
    };
    print_frame(rt, &Command::Efid(efid), 0)
}

/// Prints the number of payloads of a file in format U, and what they carry.
pub fn whole(rt: &HostRuntime, line: &mut Line) -> io::Result<()> {
    let mut out = vec![in rt.alloc(); 0u8; line.number() as usize]?;
    let content = line.octets(rt.alloc())?;
    let Ok(file) = VFile::from_local(rt.alloc(), Format::Unstructured, 0, &content) else {
        return Ok(());
    };
    let rows = file.rows.as_slice();
    let mut taker = Taker::new(rt.alloc(), Format::Unstructured, 0, 0, 0, LIMITS);
    let shown = Shown::Nothing;
    let count = carry(rt, Format::Unstructured, rows, &mut out, &mut taker, shown)?;
    print_taken(rt, count, &taker)?;
    print_compared(rt, taker, rows)
}

/// Prints the result of filling a payload with these rows, from a row on.
pub fn next(rt: &HostRuntime, line: &mut Line) -> io::Result<()> {
    let mut filler = Filler::new(line.format(), line.number() as usize);
    let size = line.number() as usize;
    let last = line.word() == "last";
    let rows = line.rows(rt.alloc())?;
    let mut out = vec![in rt.alloc(); 0u8; size]?;
    let filled = fill(&mut filler, &rows, last, &mut out);
    println!(rt;
        "  {filled:?}, row {}, mark {}",
        filler.row(),
        filler.mark()
    )
}

/// Prints whether the format allows this longest record.
pub fn longest(rt: &HostRuntime, line: &mut Line) -> io::Result<()> {
    let format = line.format();
    println!(rt; "  {}", format.allows_longest(line.number()))
}

/// Prints the rows of a local form, and whether they are written as the same local form.
pub fn local(rt: &HostRuntime, line: &mut Line) -> io::Result<()> {
    let (format, longest) = (line.format(), line.number());
    let content = line.octets(rt.alloc())?;
    if !format.allows_longest(longest) {
        return println!(rt; "  no such length");
    }
    let file = match VFile::from_local(rt.alloc(), format, longest, &content) {
        Ok(file) => file,
        Err(fault) => return println!(rt; "  {fault:?}"),
    };
    print_rows(rt, file.rows.as_slice())?;
    let again = file.to_local(rt.alloc());
    println!(rt;
        "  written as read: {}",
        again.is_ok_and(|octets| octets == content)
    )
}
