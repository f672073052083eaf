//! The command `collect`: incoming files that are whole and have no response are written to a folder.

use crate::folders::{Folder, Room, Stamps, has_something, keep, name_of, numbered, path_in};
use crate::judging::{Collecting, Content, Named, collecting_of};
use oftp_channel::{ListedFile, Request};
use oftp_command_line::Collect;
use oftp_engine::{Operator, Refusal, RunFault};
use oftp_files::{
    Access, Name, discard, draft_in_swept, free_name, free_name_like, open_regular,
    read_to_compare, settle, sweep,
};
use oftp_filters::matches;
use oftp_outcomes::{Carried, Fault, Why, write_line};
use oftp_progress::{Extent, Gauge};
use oftp_requests::{Backend, Comparison, FileList, refusal_in};
use std::io::{self, Write};

/// Writes each incoming file that is whole, has no response and is asked for to a folder, unless it is there already. If the command line
/// asks for it, its End-to-End Response is issued once the file is synced. Each gets a line in `out`, except one that is there already and isn't
/// released. Returns whether none was refused.
///
/// # Errors
/// Those of the backend. [`Fault::File`] if a file can't be created, something that isn't this file has its name, or the folder can't be synced.
/// [`Fault::Run`] if `out` returned an error; [`Fault::MEMORY`]. What was written and released so far stays, and the next call continues there.
pub fn collect<B: Backend + Drop>(
    rt: &HostRuntime,
    line: &Collect<'_>,
    folder: &Folder,
    book: &[u8],
    backend: B,
    out: &mut impl Write,
) -> Result<bool, Fault> {
    let mut collection = Collection::new(rt, line, &folder.room, book, backend);
    collection.collect_all(out)
}

/// The collection of files to a folder.
#[derive(Drop)]
struct Collection<'a, B> {
    rt: &'a HostRuntime,
    line: &'a Collect<'a>,
    folder: &'a Room,
    book: &'a [u8],
    backend: B,
    // The access of a new file in the folder, once the drafts that killed processes left there were removed.
    access: Option<Access>,
    gauge: Gauge<'a>,
    // The place of the file that is collected among those that are asked for, and how many these are.
    place: u64,
    count: u64,
}

impl<'a, B: Backend> Collection<'a, B> {
    /// A collection that has written nothing yet.
    fn new(
        rt: &'a HostRuntime,
        line: &'a Collect<'a>,
        folder: &'a Room,
        book: &'a [u8],
        backend: B,
    ) -> Collection<'a, B> {
        Collection {
            rt,
            line,
            folder,
            book,
            backend,
            access: None,
            gauge: Gauge::new(rt),
            place: 0,
            count: 0,
        }
    }

    /// Collects all files. Returns whether none was refused.
    fn collect_all(&mut self, out: &mut impl Write) -> Result<bool, Fault> {
        let alloc = self.rt.alloc();
        if self.gauge.shows() {
            self.count_all()?;
        }
        let mut list = FileList::asked(alloc, &mut self.backend, &Request::Unanswered)?;
        let mut is_done = true;
        for _ in 0..u64::MAX {
            let Some(entry) = list.next_file()? else {
                break;
            };
            let file = entry.file()?;
            if is_wanted(self.line, &file) && !self.collect(&file, out)? {
                is_done = false;
            }
        }
        Ok(is_done)
    }

    /// Counts the files that are asked for.
    fn count_all(&mut self) -> Result<(), Fault> {
        let alloc = self.rt.alloc();
        let mut list = FileList::asked(alloc, &mut self.backend, &Request::Unanswered)?;
        for _ in 0..u64::MAX {
            let Some(entry) = list.next_file()? else {
                break;
            };
            if is_wanted(self.line, &entry.file()?) {
                self.count = self.count.saturating_add(1);
            }
        }
        Ok(())
    }

    /// Collects a file. Returns whether it wasn't refused. A file that is in the folder isn't written again.
    fn collect(&mut self, file: &ListedFile<'_>, out: &mut impl Write) -> Result<bool, Fault> {
        self.show(file.dataset);
        let name = name_in_folder(self.rt, file)?;
        let path = path_in(self.rt, self.folder.path(), name.as_str())?;
        let refusal = match collecting_of(self.named(file.no, path.as_str())?) {
            Collecting::Write => self.write(file.no, path.as_str())?,
            Collecting::Leave if self.line.releases => self.answer(file.no)?,
            Collecting::Leave => return Ok(true),
            Collecting::Refuse => return Err(Fault::File),
        };
        self.gauge.take_back();
        tell(refusal, file.no, name.as_str(), out)
    }

    /// Shows which file is collected. One that came since they were counted is of as many as there are up to it.
    fn show(&mut self, dataset: &str) {
        self.place = self.place.saturating_add(1);
        let place = self.place;
        let count = self.count.max(place);
        self.gauge.show(&Extent::Collect {
            place,
            count,
            dataset,
        });
    }

    /// What is at the path of a file in the folder. A file that is to be released is synced: another program may have put it there.
    fn named(&mut self, no: u64, path: &str) -> Result<Named, Fault> {
        if !has_something(self.rt, path)? {
            return Ok(Named::Nothing);
        }
        let Some(file) = open_regular(self.rt, path)? else {
            return Ok(Named::Else);
        };
        let there = read_to_compare(self.rt, &file)?;
        let mut comparison = Comparison::with(there.as_slice());
        let refusal = self.fetch(no, &mut comparison)?;
        if refusal.is_some() || !comparison.is_equal() {
            return Ok(Named::File(Content::Other));
        }
        if self.line.releases {
            keep(&file)?;
        }
        Ok(Named::File(Content::Same))
    }

    /// Writes the content of a file to `out`. Returns why not, if it is refused. A failed write is an error of the file.
    fn fetch(&mut self, no: u64, out: &mut impl Write) -> Result<Option<Refusal>, Fault> {
        match self.backend.ask(&Request::Fetch { no }, out) {
            Ok(ending) => refusal_in(ending),
            Err(fault) => Err(file_written(fault)),
        }
    }

    /// Writes a file, and releases it if that is asked for. Returns why not, if it is refused.
    fn write(&mut self, no: u64, path: &str) -> Result<Option<Refusal>, Fault> {
        let name = self.name_at(path)?;
        let mut draft = draft_in_swept(self.rt, &name)?;
        let written = match self.fetch(no, &mut draft.file) {
            Ok(Some(refusal)) => {
                discard(self.rt, &draft);
                return Ok(Some(refusal));
            }
            Ok(None) => Ok(()),
            Err(fault) => Err(fault),
        };
        settle(self.rt, draft, &name, written)?;
        if self.line.releases {
            self.release(no)
        } else {
            Ok(None)
        }
    }

    /// A path at which nothing is, for a new file. With the first one the drafts that killed processes left are removed.
    fn name_at(&mut self, path: &str) -> Result<Name, Fault> {
        let line = self.line;
        if let Some(access) = self.access {
            return free_name_like(self.rt, path, line.files.database, access);
        }
        sweep(self.rt, self.folder.path());
        let name = free_name(self.rt, path, line.files.database)?;
        self.access = Some(name.access());
        Ok(name)
    }

    /// Releases a file that an earlier call has written, once its name is synced. Returns why not, if it is refused.
    fn answer(&mut self, no: u64) -> Result<Option<Refusal>, Fault> {
        self.folder.keep()?;
        self.release(no)
    }

    /// Releases a file whose name is synced. A file that got a response meanwhile isn't refused. Returns why not, if it is refused.
    fn release(&mut self, no: u64) -> Result<Option<Refusal>, Fault> {
        let request = Request::Operate {
            book: self.book,
            call: Operator::Release { no },
        };
        match refusal_in(self.backend.ask(&request, &mut io::sink())?)? {
            Some(Refusal::State) => Ok(None),
            refusal => Ok(refusal),
        }
    }
}

/// Whether the command line asks for a file.
fn is_wanted(line: &Collect<'_>, file: &ListedFile<'_>) -> bool {
    let is_from = match line.from {
        Some(code) => file.code == code,
        None => true,
    };
    let is_named = match line.dataset {
        Some(pattern) => matches(pattern.as_bytes(), file.dataset.as_bytes()),
        None => true,
    };
    is_from && is_named
}

/// The error of a content that is written to a file: a failed write is one of the file.
fn file_written(fault: Fault) -> Fault {
    match fault {
        Fault::Run(RunFault::Write) => Fault::File,
        other => other,
    }
}

/// The name of a file in the folder.
fn name_in_folder(rt: &HostRuntime, file: &ListedFile<'_>) -> Result<String, Fault> {
    let name = name_of(rt.alloc(), Stamps::of(file), file.code)?;
    numbered(rt.alloc(), file.no, name.as_str())
}

/// Writes the line of a file. Returns whether it wasn't refused.
fn tell(
    refusal: Option<Refusal>,
    no: u64,
    name: &str,
    out: &mut impl Write,
) -> Result<bool, Fault> {
    match refusal {
        None => {
            write_line(out, &Carried::Collected { no, name })?;
            Ok(true)
        }
        Some(refusal) => {
            let why = Why::Refused(refusal);
            write_line(out, &Carried::Left { why, name })?;
            Ok(false)
        }
    }
}
