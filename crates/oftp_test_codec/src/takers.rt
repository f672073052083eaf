//! Payloads of a virtual file that is received.

use crate::line::Line;
use crate::octets::print_whole;
use oftp_vfile::{Limits, MOST_ROWS, Row, Taker};
use std::io;

/// The limits of the takers.
pub const LIMITS: Limits = Limits {
    files: 1000,
    octets: 8_388_608,
};

/// Prints rows.
pub fn print_rows(rt: &HostRuntime, rows: &[Row]) -> io::Result<()> {
    print!(rt; "  {} rows", rows.len())?;
    for row in rows {
        print_whole(rt, row.octets())?;
    }
    println!(rt)
}

/// Whether rows have the same octets.
fn are_same(rows: &[Row], others: &[Row]) -> bool {
    rows.len() == others.len()
        && rows
            .iter()
            .zip(others)
            .all(|(row, other)| row.octets() == other.octets())
}

/// Prints how many payloads were taken, and the state of the taker.
pub fn print_taken(rt: &HostRuntime, count: u64, taker: &Taker) -> io::Result<()> {
    let (counts, open) = (taker.counts(), taker.is_open());
    let whole = taker.whole_rows().len();
    println!(rt; "  {count} taken, counts {counts:?}, open {open}, {whole} whole rows")
}

/// Prints the number of rows of the closed file, and whether they are these.
pub fn print_compared(rt: &HostRuntime, taker: Taker, rows: &[Row]) -> io::Result<()> {
    let kept = taker.close()?;
    let same = are_same(kept.as_slice(), rows);
    println!(rt; "  closed with {} rows, the same {same}", kept.len())
}

/// Takes a payload, and prints the state of the taker.
fn take_one(rt: &HostRuntime, taker: &mut Taker, payload: &[u8]) -> io::Result<()> {
    let taken = taker.take(payload);
    let (counts, open) = (taker.counts(), taker.is_open());
    let whole = taker.whole_rows().len();
    print!(rt; "  {taken:?}, counts {counts:?}, open {open}, {whole} whole rows, then")?;
    print_whole(rt, taker.open_tail())?;
    println!(rt)
}

/// Takes the rows away, and prints them, the state of the taker, and the rows of the closed file.
fn take_away(rt: &HostRuntime, mut taker: Taker) -> io::Result<()> {
    print_rows(rt, &taker.take_rows())?;
    print!(rt; "  then counts {:?}, ", taker.counts())?;
    println!(rt; "{} whole rows, and closed:", taker.whole_rows().len())?;
    let rows = taker.close()?;
    print_rows(rt, rows.as_slice())
}

/// Takes payloads, and prints the state of the taker after each.
pub fn take(rt: &HostRuntime, line: &mut Line) -> io::Result<()> {
    let (format, longest) = (line.format(), line.number());
    let kept_rows = u64::from(line.number()).min(MOST_ROWS as u64);
    let kept_units = u64::from(line.number());
    let mut taker = Taker::new(rt.alloc(), format, longest, kept_rows, kept_units, LIMITS);
    for payload in line.fields(rt.alloc())? {
        take_one(rt, &mut taker, &payload)?;
    }
    take_away(rt, taker)
}
