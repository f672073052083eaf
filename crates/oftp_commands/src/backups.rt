//! The command `backup`, which copies a database to one file.

use crate::backing::{Backing, Telling};
use oftp_channel::{Ending, Request};
use oftp_command_line::Backup;
use oftp_database as database;
use oftp_files::{
    Access, Draft, Name, Place, draft_of, file_fault, log_of, make_private, open_events,
    open_input, place_of, remove_log, settle,
};
use oftp_outcomes::{Fault, Outcome, write_line};
use oftp_progress::{Extent, Gauge};
use oftp_requests::{Backend, GONE};
use oftp_watching::News;
use std::fs::{self, File};
use std::io::{self, ErrorKind, Read, Write};

/// How many octets are copied at once.
const PIECE: usize = 16_384;

/// The endings of the files that SQLite reads together with a database.
const READ_WITH_IT: [&str; 2] = ["-wal", "-journal"];

/// Copies a database to a file. Nothing changes it while its files are copied: it is locked here, or its station does no job meanwhile. The
/// copy is finished after that. Writes its line, and returns its outcome.
///
/// # Errors
/// [`Fault::Store`] if the database can't be opened; [`Fault::File`] if the copy can't be made; [`Fault::Run`] if the station is gone;
/// [`Fault::MEMORY`]. Nothing is copied then.
pub fn back_up<'a>(
    rt: &'a HostRuntime,
    line: &Backup<'a>,
    sources: &'a str,
    out: &mut impl Write,
) -> Result<Outcome, Fault> {
    let news = News::new(rt.alloc());
    let telling = Telling::of_record(rt, line.record, sources, &news);
    let backing = Backing::opened(rt, line.database, None, Some(telling))?;
    back_up_over(rt, line, backing, &news, out)
}

/// Copies a database that is reached, writes the line of that, and then its event.
fn back_up_over<'n>(
    rt: &'n HostRuntime,
    line: &Backup<'_>,
    backing: Backing<'_, '_, '_>,
    news: &'n News,
    out: &mut impl Write,
) -> Result<Outcome, Fault> {
    let events = open_events(rt, line.events, news, &[line.to], Some(line.database))?;
    let outcome = copied(rt, line, backing)?;
    write_line(out, &outcome)?;
    if let Some(events) = &events {
        events.tell_backup(line.to);
    }
    Ok(outcome)
}

/// Copies a database to a file, and lets it go before the copy is finished.
fn copied(
    rt: &HostRuntime,
    line: &Backup<'_>,
    backing: Backing<'_, '_, '_>,
) -> Result<Outcome, Fault> {
    let mut backing = backing;
    let copy = DatabaseCopy::begun(rt, line)?;
    let mut copying = Copying {
        rt,
        database: line.database,
        copy: &copy,
        written: Err(GONE),
    };
    let asked = backing.ask(&Request::Backup { to: line.to }, &mut copying);
    let written = copying.written;
    drop(backing);
    match asked {
        Ok(Ending::Outcome(Outcome::BackedUp)) => copy.finish(rt, written),
        Ok(_) => {
            copy.give_up(rt);
            Err(GONE)
        }
        Err(fault) => {
            copy.give_up(rt);
            Err(fault)
        }
    }
}

/// A writer that is told when the database's files may be copied, and copies them.
#[derive(Clone, Copy)]
struct Copying<'a> {
    rt: &'a HostRuntime,
    database: &'a str,
    copy: &'a DatabaseCopy,
    written: Result<(), Fault>,
}

impl Write for Copying<'_> {
    fn write(&mut self, told: &[u8]) -> io::Result<usize> {
        self.written = self.copy.write(self.rt, self.database);
        Ok(told.len())
    }

    fn flush(&mut self) -> io::Result<()> {
        Ok(())
    }
}

/// A copy of a database, which is a draft until it is whole.
#[derive(Drop)]
struct DatabaseCopy {
    name: Name,
    draft: Draft,
}

impl DatabaseCopy {
    /// Begins a copy to the file that a command line names.
    fn begun(rt: &HostRuntime, line: &Backup<'_>) -> Result<DatabaseCopy, Fault> {
        let name = name_of(rt, line)?;
        let draft = draft_of(rt, &name)?;
        Ok(DatabaseCopy { name, draft })
    }

    /// Copies the files of a database. Nothing may change them meanwhile. The copy is then what a crash would leave.
    fn write(&self, rt: &HostRuntime, database: &str) -> Result<(), Fault> {
        let real = fs::canonicalize(rt, database).map_err(|error| file_fault(&error))?;
        let log = log_of(rt, real.as_str())?;
        let mut pouring = Pouring::new(rt, real.as_str(), log.as_str());
        pouring.pour(real.as_str(), &self.draft.file)?;
        self.write_log(log.as_str(), &mut pouring)?;
        pouring.finish();
        Ok(())
    }

    /// Copies the log of a database, if there is one.
    fn write_log(&self, log: &str, pouring: &mut Pouring<'_>) -> Result<(), Fault> {
        let rt = pouring.rt;
        if !is_there(rt, log)? {
            return Ok(());
        }
        let copied = log_of(rt, self.draft.path.as_str())?;
        let copied = make_private(rt, copied.as_str()).map_err(|error| file_fault(&error))?;
        pouring.pour(log, &copied)
    }

    /// Gives the copy its name, after it was opened as a station opens it. If writing or opening it failed, it is removed.
    fn finish(self, rt: &HostRuntime, written: Result<(), Fault>) -> Result<Outcome, Fault> {
        let DatabaseCopy { name, draft } = self;
        let united = unite(rt, &name, &draft, written);
        remove_log(rt, draft.path.as_str());
        settle(rt, draft, &name, united)?;
        Ok(Outcome::BackedUp)
    }

    /// Removes the copy.
    fn give_up(self, rt: &HostRuntime) {
        let _ = self.finish(rt, Err(Fault::File));
    }
}

/// Opens a copy, which tests it, and writes its log into its one file.
fn unite(
    rt: &HostRuntime,
    name: &Name,
    draft: &Draft,
    written: Result<(), Fault>,
) -> Result<(), Fault> {
    written?;
    database::open(rt, draft.path.as_str(), 0)?.close()?;
    refuse_logged(rt, name)
}

/// The later name of a copy, with the permissions and the owner of the database. It may not be a device or a file of a database.
fn name_of(rt: &HostRuntime, line: &Backup<'_>) -> Result<Name, Fault> {
    let about = fs::metadata(rt, line.database).map_err(|error| file_fault(&error))?;
    if is_there(rt, line.to)? && !is_file(rt, line.to)? {
        return Err(Fault::File);
    }
    match place_of(rt, line.to, line.database)? {
        Place::Device(_) => Err(Fault::File),
        Place::Name(name) => {
            refuse_logged(rt, &name)?;
            Ok(name.with_access(Access::of_file(&about)))
        }
    }
}

/// Refuses a name with a log or journal beside it. That is another database's, and would be read into the copy.
fn refuse_logged(rt: &HostRuntime, name: &Name) -> Result<(), Fault> {
    for ending in READ_WITH_IT {
        let path = name.path();
        let beside = format!(in rt.alloc(); "{path}{ending}")?;
        if is_there(rt, beside.as_str())? {
            return Err(Fault::File);
        }
    }
    Ok(())
}

/// Whether a path exists, even as a dangling link.
fn is_there(rt: &HostRuntime, path: &str) -> Result<bool, Fault> {
    match fs::symlink_metadata(rt, path) {
        Ok(_) => Ok(true),
        Err(error) if error.kind() == ErrorKind::NotFound => Ok(false),
        Err(error) => Err(file_fault(&error)),
    }
}

/// Whether a path leads to a regular file.
fn is_file(rt: &HostRuntime, path: &str) -> Result<bool, Fault> {
    match fs::metadata(rt, path) {
        Ok(about) => Ok(about.is_file()),
        Err(error) => Err(file_fault(&error)),
    }
}

/// How many octets the file at a path has; 0 if there is none.
fn octets_at(rt: &HostRuntime, path: &str) -> u64 {
    match fs::metadata(rt, path) {
        Ok(about) => about.len(),
        Err(_) => 0,
    }
}

/// The copying of files, which shows how far it came.
#[derive(Drop)]
struct Pouring<'r> {
    rt: &'r HostRuntime,
    gauge: Gauge<'r>,
    // How many octets were copied, and of how many.
    done: u64,
    all: u64,
}

impl<'r> Pouring<'r> {
    /// The copying of two files, which are measured where that is shown.
    fn new(rt: &'r HostRuntime, first: &str, second: &str) -> Pouring<'r> {
        let gauge = Gauge::new(rt);
        let all = if gauge.shows() {
            octets_at(rt, first).saturating_add(octets_at(rt, second))
        } else {
            0
        };
        Pouring {
            rt,
            gauge,
            done: 0,
            all,
        }
    }

    /// Copies the content of a file to another.
    fn pour(&mut self, from: &str, to: &File) -> Result<(), Fault> {
        let mut from = open_input(self.rt, from)?;
        let mut to = to;
        let mut piece = [0; PIECE];
        for _ in 0..u64::MAX {
            let count = from.read(&mut piece).map_err(|error| file_fault(&error))?;
            if count == 0 {
                break;
            }
            to.write_all(&piece[..count])
                .map_err(|error| file_fault(&error))?;
            self.add(count);
        }
        Ok(())
    }

    /// Counts octets that were copied.
    fn add(&mut self, count: usize) {
        self.done = self.done.saturating_add(count as u64);
        let (done, all) = (self.done, self.all);
        self.gauge.show(&Extent::Backup { done, all });
    }

    /// Shows that all is copied.
    fn finish(&mut self) {
        let (done, all) = (self.done, self.all);
        self.gauge.finish(&Extent::Backup { done, all });
    }
}
