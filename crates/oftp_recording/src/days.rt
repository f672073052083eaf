//! The files of a record, one for each day.

ghost use Rattle.std.specs.Prelude.{◌≡◌};
ghost use Rattle.oftp_recording.specs.Days.{last_entry, link_due};

use crate::registers::Digest;
use oftp_contents::{RECORD_ENDING, day_in};
use oftp_files::file_fault;
use oftp_outcomes::Fault;
use std::fs;

/// Where the whole entries in the file of a day end.
#[derive(Clone, Copy, Debug, PartialEq, Eq)]
pub struct DayEnd {
    /// How many there are.
    pub entries: u64,
    /// The digest of the last one, or what takes its place before the first.
    pub digest: Digest,
}

impl DayEnd {
    /// The digest of the last entry of a record up to here, by that of the days before: a day without an entry leaves that.
    pub fn last_entry(&self, before: Option<Digest>) -> Option<Digest>
        ensures { result ≡ last_entry self.now before }
    {
        match self.entries {
            0 => before,
            _ => Some(self.digest),
        }
    }

    /// The digest that the next entry has to name, by that of the days before: the first entry of a day names the last one before it, if there is one.
    pub(crate) fn link_due(&self, before: Option<Digest>) -> Option<Digest>
        ensures { result ≡ link_due self.now before }
    {
        match self.entries {
            0 => before,
            _ => None,
        }
    }
}

/// The path of a day's file in a folder.
///
/// # Errors
/// [`Fault::MEMORY`].
pub fn file_of(rt: &HostRuntime, folder: &str, day: &str) -> Result<String, Fault> {
    Ok(format!(in rt.alloc(); "{folder}/{day}{}", RECORD_ENDING)?)
}

/// A day as text: its eight digits.
pub(crate) fn day_text(rt: &HostRuntime, day: u64) -> Result<String, Fault> {
    Ok(format!(in rt.alloc(); "{day:08}")?)
}

/// The days of which a folder has files, in the order in which it names them.
///
/// # Errors
/// [`Fault::File`] if there is no such folder, or it can't be read; [`Fault::MEMORY`].
pub(crate) fn record_days(rt: &HostRuntime, folder: &str) -> Result<Vec<u64>, Fault> {
    let mut days = Vec::new(rt.alloc());
    let entries = fs::read_dir(rt, folder).map_err(|error| file_fault(&error))?;
    for entry in entries {
        let entry = entry.map_err(|error| file_fault(&error))?;
        if let Some(day) = day_in(entry.file_name().as_bytes()) {
            days.push(day)?;
        }
    }
    Ok(days)
}

/// The days of which a folder has files as texts, the earliest first.
///
/// # Errors
/// Those of `record_days`.
pub fn record_files(rt: &HostRuntime, folder: &str) -> Result<Vec<String>, Fault> {
    let mut days = record_days(rt, folder)?;
    days.sort_unstable();
    let mut texts = Vec::new(rt.alloc());
    for day in days.as_slice() {
        texts.push(day_text(rt, *day)?)?;
    }
    Ok(texts)
}
