//! The events of a station's work, appended to a file as lines of JSON. Whoever makes changes knows nothing of the file.

use crate::traces::{appended, refuse_needed};
use jiff::Timestamp;
use oftp_events::{Event, EventLine};
use oftp_outcomes::Fault;
use oftp_register::Office;
use oftp_watching::{Account, Known, Moment, News, Occasion, backed_up, known_in, measured};
use std::alloc::Global;
use std::cell::Cell;
use std::fs::{self, File};
use std::io::Write;
use std::os::unix::fs::FileExt;

/// A file to which events are appended. A line that can't be written is counted, and stops nothing.
#[derive(Drop)]
pub struct EventFile<'a> {
    rt: &'a HostRuntime,
    file: File,
    news: &'a News,
    // Whether the last line isn't whole.
    is_cut: Cell<bool>,
}

/// What happened to a file, when, and in what.
#[derive(Drop)]
pub struct Noted {
    at: String,
    occasion: Occasion,
    moment: Moment,
}

/// What the register has of the file of an event, and how many octets it has where its event tells them.
pub type Found = (Option<Known>, Option<u64>);

/// Opens the file of the events at a path, if there is one. `news` is where they are noted. A file that the command needs, one of its database
/// or a pipe may not be it. A device may.
///
/// # Errors
/// [`Fault::File`] if it is such a file, or can't be created or written; [`Fault::MEMORY`].
pub fn open_events<'a>(
    rt: &'a HostRuntime,
    path: Option<&str>,
    news: &'a News,
    needed: &[&str],
    database: Option<&str>,
) -> Result<Option<EventFile<'a>>, Fault> {
    let Some(path) = path else {
        return Ok(None);
    };
    refuse_needed(rt, path, needed, database)?;
    let file = appended(rt, path)?;
    Ok(Some(EventFile {
        rt,
        file,
        news,
        is_cut: Cell::new(ends_cut(rt, path)),
    }))
}

/// Whether the last line of a file isn't whole, as a kill or a full disk leaves it. That of one that can't be read counts as whole.
fn ends_cut(rt: &HostRuntime, path: &str) -> bool {
    let mut last = [b'\n'];
    if let Ok(file) = fs::open(rt, path)
        && let Ok(about) = file.metadata()
        && about.is_file()
        && about.len() > 0
    {
        let _ = file.read_at(&mut last, about.len().saturating_sub(1));
    }
    last != [b'\n']
}

impl Noted {
    /// What the register has of its file. Where nothing can be looked up, nothing is known.
    pub fn look_up<O: Office>(&self, office: &mut O) -> Found {
        let Ok(Some(file)) = known_in(office, &self.moment.subject) else {
            return (None, None);
        };
        let units = measured(office, self.moment.event, &file).unwrap_or(None);
        (Some(file), units)
    }
}

impl<'a> EventFile<'a> {
    /// How many events weren't written.
    pub fn lost(&self) -> u64 {
        self.news.lost()
    }

    /// Counts an event that can't be told.
    pub fn lose(&self) {
        self.news.lose();
    }

    /// Takes what was noted since the last time.
    pub fn take(&self) -> Vec<Moment> {
        self.news.take(self.rt.alloc())
    }

    /// The time: UTC by RFC 3339, with six digits of the second. Without it an event is lost.
    pub fn time(&self) -> Option<String> {
        let told = match Timestamp::now(self.rt) {
            Ok(time) => format!(in self.rt.alloc(); "{time:.6}").ok(),
            Err(_) => None,
        };
        if told.is_none() {
            self.news.lose();
        }
        told
    }

    /// What happened now to a file.
    pub fn noted(&self, occasion: Occasion, moment: Moment) -> Option<Noted> {
        Some(Noted {
            at: self.time()?,
            occasion,
            moment,
        })
    }

    /// Appends what happened now to files. What there is no memory for is lost.
    pub fn note_all(&self, occasion: Occasion, moments: Vec<Moment>, noted: &mut Vec<Noted>) {
        for moment in moments {
            if let Some(one) = self.noted(occasion, moment)
                && noted.push(one).is_err()
            {
                self.lose();
            }
        }
    }

    /// Writes what happened to files, which are looked up.
    pub fn tell_all<O: Office>(&self, noted: Vec<Noted>, office: &mut O) {
        for one in noted {
            let found = one.look_up(office);
            self.tell(one, found);
        }
    }

    /// Writes what happened to a file, of which so much was found.
    pub fn tell(&self, noted: Noted, found: Found) {
        let Noted {
            at,
            occasion,
            moment,
        } = noted;
        let (file, units) = found;
        let alloc = self.rt.alloc();
        match line_of(alloc, at.as_str(), occasion, moment, &file, units) {
            Some(line) => self.write(line),
            None => self.news.lose(),
        }
    }

    /// The line of an event that is about no file. Without memory it is lost.
    pub fn line(&self, line: &EventLine<'_>) -> Option<Vec<u8>> {
        let octets = line.to_line(self.rt.alloc()).ok();
        if octets.is_none() {
            self.news.lose();
        }
        octets
    }

    /// Writes an event that says no more than when it happened.
    pub fn tell_plain(&self, event: Event) {
        let Some(at) = self.time() else {
            return;
        };
        if let Some(line) = self.line(&EventLine::new(at.as_str(), event)) {
            self.write(line);
        }
    }

    /// Writes that a backup was made, which has this path.
    pub fn tell_backup(&self, path: &str) {
        let Some(at) = self.time() else {
            return;
        };
        if let Some(line) = self.line(&backed_up(at.as_str(), path)) {
            self.write(line);
        }
    }

    /// Appends a line with one write. After one that isn't whole it begins with a line end.
    pub fn write(&self, line: Vec<u8>) {
        let mut file = &self.file;
        let octets = match self.begun(line) {
            Some(octets) => octets,
            None => return self.news.lose(),
        };
        let written = file.write(octets.as_slice()).unwrap_or(0);
        if written == octets.len() {
            self.is_cut.set(false);
        } else {
            self.is_cut.set(written > 0 || self.is_cut.get());
            self.news.lose();
        }
    }

    // A line, behind a line end if the last one isn't whole.
    fn begun(&self, line: Vec<u8>) -> Option<Vec<u8>> {
        if !self.is_cut.get() {
            return Some(line);
        }
        let mut octets = Vec::from_slice(self.rt.alloc(), b"\n").ok()?;
        octets.extend_from_slice(line.as_slice()).ok()?;
        Some(octets)
    }
}

/// The line of what happened to a file. `None` if there is no memory for it.
fn line_of(
    alloc: Global,
    at: &str,
    occasion: Occasion,
    moment: Moment,
    file: &Option<Known>,
    units: Option<u64>,
) -> Option<Vec<u8>> {
    let account = Account::new(alloc, occasion, moment, file, units).ok()?;
    account.to_line(alloc, at).ok()
}
