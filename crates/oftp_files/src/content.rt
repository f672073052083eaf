//! Reads the content that is submitted, as far as it is needed to judge it.

use crate::files::{file_fault, open_input};
use crate::limits::LIMITS;
use oftp_command_line::Submit;
use oftp_outcomes::Fault;
use oftp_vfile::{Format, MOST_ROWS};
use std::fs::{File, Metadata};
use std::io::Read;

/// The greatest local form of a file within the limits, in octets: its content, and five digits for each record.
const MOST_CONTENT: u64 = LIMITS.octets + 5 * MOST_ROWS as u64;

/// The number of digits of a record's length in format V.
const DIGITS: u32 = 5;

/// How many octets are read at once after the part that is kept in memory.
const PIECE: usize = 4_096;

/// Reads the content of the file that a command line names, as [`content_of`] does.
///
/// # Errors
/// [`Fault::File`] if the file can't be read, or is a folder; [`Fault::MEMORY`].
pub fn read_content(rt: &HostRuntime, submit: &Submit<'_>) -> Result<Vec<u8>, Fault> {
    let file = open_input(rt, submit.file)?;
    content_of(rt, submit, &file)
}

/// Reads the content of a file. If it is longer than any file within the limits, only a beginning is kept, which shows that. The beginning
/// is valid in its format if the whole file is. In format F it leaves the same remainder of a record, and in format V it ends where a
/// record ends. A device is judged by this beginning alone.
///
/// # Errors
/// [`Fault::File`] if the file can't be read; [`Fault::MEMORY`].
pub fn content_of(rt: &HostRuntime, submit: &Submit<'_>, file: &File) -> Result<Vec<u8>, Fault> {
    let about = file.metadata().map_err(|error| file_fault(&error))?;
    let octets = read_up_to(rt, file, most_of(submit, &about))?;
    if submit.format == Format::Variable && octets.len() as u64 > MOST_CONTENT {
        cut_records(submit.longest, octets, file, &about)
    } else {
        Ok(octets)
    }
}

/// Reads a file to compare it with one of a register. Of one that is longer than any there, only a beginning is read, which is too long, too.
///
/// # Errors
/// [`Fault::File`] if the file can't be read; [`Fault::MEMORY`].
pub fn read_to_compare(rt: &HostRuntime, file: &File) -> Result<Vec<u8>, Fault> {
    read_up_to(rt, file, MOST_CONTENT + 1)
}

/// How many octets of the content are read into memory, at most.
fn most_of(submit: &Submit<'_>, about: &Metadata) -> u64 {
    let longest = u64::from(submit.longest);
    let behind = match submit.format {
        Format::Fixed => left_over(longest, about),
        Format::Variable => longest.saturating_add(u64::from(DIGITS)),
        _ => 0,
    };
    (MOST_CONTENT + 1).saturating_add(behind)
}

/// How many octets to read beyond the first that is too many. In records of one length, the beginning then leaves the same remainder as the
/// whole file. A device is taken to have whole records. For records of length 0 the result is 0.
fn left_over(longest: u64, about: &Metadata) -> u64 {
    if longest == 0 {
        return 0;
    }
    let first = MOST_CONTENT + 1;
    let length = if about.is_file() {
        about.len()
    } else {
        (first / longest).saturating_add(1).saturating_mul(longest)
    };
    length.saturating_sub(first) % longest
}

/// Reads the first octets of a file, at most `most`.
fn read_up_to(rt: &HostRuntime, file: &File, most: u64) -> Result<Vec<u8>, Fault> {
    let mut octets = Vec::new(rt.alloc());
    let mut beginning = Read::take(file, most);
    match beginning.read_to_end(&mut octets) {
        Ok(_) => Ok(octets),
        Err(error) => Err(file_fault(&error)),
    }
}

/// Cuts a beginning in format V that is too long. It ends where a record ends, or one octet after that if the rest of the file isn't whole
/// records.
fn cut_records(
    longest: u32,
    mut octets: Vec<u8>,
    file: &File,
    about: &Metadata,
) -> Result<Vec<u8>, Fault> {
    let mut records = Records::new(longest);
    let Some(end) = records.end_behind(octets.as_slice()) else {
        return Ok(octets);
    };
    if !about.is_file() || records.read_on(file)? {
        octets.truncate(end);
    } else {
        octets.truncate(end.saturating_add(1));
    }
    Ok(octets)
}

/// A parser of records in format V: five digits of a length, then that many octets.
#[derive(Drop)]
struct Records {
    longest: u32,
    /// The number of digits of the current length so far, and their value.
    digits: u32,
    length: u32,
    /// How many octets of the record are still missing.
    left: u32,
    is_faulty: bool,
}

impl Records {
    /// A parser that has seen nothing.
    fn new(longest: u32) -> Records {
        Records {
            longest,
            digits: 0,
            length: 0,
            left: 0,
            is_faulty: false,
        }
    }

    /// Whether all octets so far are whole records.
    fn are_whole(&self) -> bool {
        !self.is_faulty && self.left == 0 && self.digits == 0
    }

    /// Parses the first octets. Returns the first end of a record beyond the limit, if more octets follow it.
    fn end_behind(&mut self, octets: &[u8]) -> Option<usize> {
        let mut end = None;
        for (at, octet) in octets.iter().enumerate() {
            if end.is_none() && at as u64 > MOST_CONTENT && self.are_whole() {
                end = Some(at);
            }
            self.take(*octet);
        }
        end
    }

    /// Parses the rest of a file, up to its first fault. Returns whether all octets are whole records.
    fn read_on(&mut self, file: &File) -> Result<bool, Fault> {
        let mut file = file;
        let mut piece = [0; PIECE];
        for _ in 0..u64::MAX {
            let count = file.read(&mut piece).map_err(|error| file_fault(&error))?;
            if count == 0 || self.is_faulty {
                break;
            }
            self.take_all(&piece[..count]);
        }
        Ok(self.are_whole())
    }

    /// Parses octets.
    fn take_all(&mut self, octets: &[u8]) {
        for octet in octets {
            self.take(*octet);
        }
    }

    /// Parses an octet.
    fn take(&mut self, octet: u8) {
        if self.left > 0 {
            self.left -= 1;
        } else if octet.is_ascii_digit() {
            self.take_digit(octet);
        } else {
            self.is_faulty = true;
        }
    }

    /// Parses a digit of a length.
    fn take_digit(&mut self, digit: u8) {
        let value = u32::from(digit.saturating_sub(b'0'));
        self.length = self.length.saturating_mul(10).saturating_add(value);
        self.digits = self.digits.saturating_add(1);
        if self.digits >= DIGITS {
            self.is_faulty = self.is_faulty || self.length > self.longest;
            self.left = self.length;
            self.length = 0;
            self.digits = 0;
        }
    }
}
