//! Writing a record.

use crate::days::{DayEnd, day_text, file_of, record_days};
use crate::moments::moment_text;
use crate::passwords::{SessionPasswords, instead};
use crate::reading::{Found, RecordReader, refuse_others};
use crate::registers::{Digest, RegisterDigests};
use jiff::Timestamp;
use oftp_contents::{
    ContentFields, DayTurn, EndCause, Marked, RecordSide, SessionOctets, day_at, hidden_book,
    is_same_day, last_before, last_day, program_text, turn_of, without_passwords,
};
use oftp_files::{file_fault, is_free, make_private, open_at_once};
use oftp_outcomes::{Fault, Term};
use oftp_partners::Partner;
use oftp_record::{AppendFault, ChainDigest, RecordEntry, RecordKind, append_entry};
use oftp_register::Office;
use std::cell::RefCell;
use std::fs::{self, File, OpenFile, OpenOptions};
use std::hash::{BuildHasher, RandomState};
use std::io::{ErrorKind, Write};

/// Whether what is recorded is synced before an answer to it goes out.
#[derive(Clone, Copy, Debug, PartialEq, Eq)]
pub enum Syncing {
    /// It is.
    Synced,
    /// It isn't.
    Unsynced,
}

/// The fields of a content that has none.
const NOTHING: ContentFields<'static> = ContentFields {
    number: 0,
    code: 0,
    first: &[],
    second: &[],
    rest: &[],
};

/// A record that is written.
#[derive(Drop)]
pub struct Recorder<'a> {
    rt: &'a HostRuntime,
    folder: &'a str,
    syncing: Syncing,
    term: Term,
    digests: RegisterDigests,
    // `None` once the record couldn't be written.
    day: RefCell<Option<Day>>,
    // Those of the session that is recorded, if one is.
    passwords: RefCell<Option<SessionPasswords>>,
}

/// The file of a day.
#[derive(Drop)]
struct Day {
    // The number with its digits, YYYYMMDD.
    day: u64,
    // A moment on the day on which its last entry was written, if that is known.
    known: Option<u64>,
    file: File,
    // That of its last entry.
    digest: Digest,
}

impl<'a> Recorder<'a> {
    /// Goes on with the record in a folder. What is behind the last whole entry is cut off, also on the day before. `term` is how long each office has
    /// the register.
    ///
    /// # Errors
    /// [`Fault::File`] if there is no such folder, a file of it can't be written or was changed, or another station writes it; [`Fault::MEMORY`].
    pub fn open(
        rt: &'a HostRuntime,
        folder: &'a str,
        syncing: Syncing,
        term: Term,
    ) -> Result<Recorder<'a>, Fault> {
        let today = today(rt)?;
        let days = record_days(rt, folder)?;
        let last = last_day(today, days.as_slice());
        let before = digest_before(rt, folder, last, days.as_slice())?;
        let day = Day::open(rt, folder, last, before)?;
        Ok(Recorder {
            rt,
            folder,
            syncing,
            term,
            digests: RegisterDigests::new(rt.alloc()),
            day: RefCell::new(Some(day)),
            passwords: RefCell::new(None),
        })
    }

    /// Records that the program begins: its version, the line with the sum of its sources, the octets of its book, of which passwords are hidden, and
    /// the register. A command has no octets of a book.
    ///
    /// # Errors
    /// [`Fault::File`] if the record can't be written; [`Fault::Run`] if the office failed; [`Fault::MEMORY`].
    pub fn begin<O: Office>(
        &self,
        version: &str,
        sources: &str,
        book: &[u8],
        office: &mut O,
    ) -> Result<(), Fault> {
        let register = self.register(office)?;
        let salt = salt_drawn(self.rt)?;
        let program = program_text(self.rt.alloc(), version, sources)?;
        let book = hidden_book(self.rt.alloc(), book, salt)?;
        let fields = ContentFields {
            number: salt,
            first: program.as_bytes(),
            second: register.as_slice(),
            rest: book.as_slice(),
            ..NOTHING
        };
        self.put(RecordKind::Opening, &fields)?;
        self.sync()
    }

    /// Records the register at this moment.
    ///
    /// # Errors
    /// Those of [`Recorder::begin`].
    pub fn mark<O: Office>(&self, office: &mut O) -> Result<(), Fault> {
        let register = self.register(office)?;
        self.put(RecordKind::Mark, &mark_of(Marked::Register, &register))?;
        self.sync()
    }

    /// Records that the database is about to be copied to a file, with the register that the copy has.
    ///
    /// # Errors
    /// Those of [`Recorder::begin`].
    pub fn back_up<O: Office>(&self, to: &str, office: &mut O) -> Result<(), Fault> {
        let register = self.register(office)?;
        self.put(RecordKind::Backup, &backup_of(to, &register))?;
        self.sync()
    }

    /// Records that a session begins with a partner of the book, with the partner's address and the book of the command that wanted it. What is recorded
    /// of this session has none of its passwords. Sessions follow one another.
    ///
    /// # Errors
    /// Those of [`Recorder::begin`].
    pub fn session(
        &self,
        number: u64,
        side: RecordSide,
        partner: Option<&Partner>,
        peer: &str,
        book: &[u8],
    ) -> Result<(), Fault> {
        let passwords = SessionPasswords::of_partner(self.rt.alloc(), side, partner)?;
        let _ = self.passwords.try_replace(Some(passwords));
        let code = partner.map_or("", |partner| partner.code.as_str());
        let book = without_passwords(self.rt.alloc(), book)?;
        let fields = ContentFields {
            number,
            code: side.code(),
            first: code.as_bytes(),
            second: peer.as_bytes(),
            rest: book.as_slice(),
        };
        self.put(RecordKind::Session, &fields)
    }

    /// Records what a session is to hear.
    ///
    /// # Errors
    /// Those of [`Recorder::begin`].
    pub fn heard(&self, number: u64, octets: &[u8]) -> Result<(), Fault> {
        if octets.is_empty() {
            return Ok(());
        }
        self.put_octets(RecordKind::OctetsIn, number, octets)
    }

    /// Records what a session has said, before it goes out.
    ///
    /// # Errors
    /// Those of [`Recorder::begin`].
    pub fn said(&self, number: u64, octets: &[u8]) -> Result<(), Fault> {
        if octets.is_empty() {
            return Ok(());
        }
        self.put_octets(RecordKind::OctetsOut, number, octets)?;
        self.sync()
    }

    /// Records an operator's call that is to be made, and the number of the user who asks, if that is known.
    ///
    /// # Errors
    /// Those of [`Recorder::begin`].
    pub fn called(&self, number: u64, user: Option<u32>, request: &[u8]) -> Result<(), Fault> {
        let user = user_text(self.rt, user)?;
        self.put(RecordKind::Call, &call_of(number, user.as_str(), request))
    }

    /// Records how a session or an operator's call ended.
    ///
    /// # Errors
    /// Those of [`Recorder::begin`].
    pub fn ended(&self, number: u64, cause: EndCause, line: &str) -> Result<(), Fault> {
        let fields = ContentFields {
            number,
            code: cause.code(),
            first: line.as_bytes(),
            ..NOTHING
        };
        self.put(RecordKind::End, &fields)?;
        self.sync()
    }

    /// The digest of the register at this moment.
    fn register<O: Office>(&self, office: &mut O) -> Result<Digest, Fault> {
        match self.term {
            Term::OfService => {}
            Term::OfJob => self.digests.forget(),
        }
        self.digests.digest(office)
    }

    /// Appends an entry.
    fn put(&self, kind: RecordKind, fields: &ContentFields<'_>) -> Result<(), Fault> {
        let moment = moment_now(self.rt)?;
        let day = self.taken(moment)?;
        let day = day.put(self.rt, moment, kind, fields)?;
        let _ = self.day.try_replace(Some(day));
        Ok(())
    }

    /// Appends what the session heard or said, without its passwords.
    fn put_octets(&self, kind: RecordKind, number: u64, octets: &[u8]) -> Result<(), Fault> {
        let hidden = self.hidden(kind, octets)?;
        let octets = instead(&hidden, octets);
        let moment = moment_now(self.rt)?;
        let day = self.taken(moment)?;
        let talked = SessionOctets {
            kind,
            moment,
            number,
            octets,
        };
        let day = day.put_octets(self.rt, &talked)?;
        let _ = self.day.try_replace(Some(day));
        Ok(())
    }

    /// What the session heard or said, as it is recorded, unless that is as it is.
    fn hidden(&self, kind: RecordKind, octets: &[u8]) -> Result<Option<Vec<u8>>, Fault> {
        let Ok(Some(mut passwords)) = self.passwords.try_replace(None) else {
            return Ok(None);
        };
        let hidden = match kind {
            RecordKind::OctetsIn => passwords.hide_heard(octets)?,
            _ => passwords.hide_said(octets)?,
        };
        let _ = self.passwords.try_replace(Some(passwords));
        Ok(hidden)
    }

    /// Takes the file of the day of a moment, until it is put back. It isn't put back if it can't be written.
    fn taken(&self, moment: u64) -> Result<Day, Fault> {
        let Ok(Some(day)) = self.day.try_replace(None) else {
            return Err(Fault::File);
        };
        self.day_at(day, moment)
    }

    /// The file of the day of a moment. A day that is earlier than the last one goes on as that.
    fn day_at(&self, day: Day, moment: u64) -> Result<Day, Fault> {
        if is_same_day(day.known, moment) {
            return Ok(day);
        }
        let mut day = self.turned(day, moment)?;
        day.known = Some(moment);
        Ok(day)
    }

    /// The file of a day, or of the day of a moment if that is a later one.
    fn turned(&self, day: Day, moment: u64) -> Result<Day, Fault> {
        let time = moment_text(self.rt.alloc(), moment)?;
        let Some(now) = day_at(time.as_bytes()) else {
            return Err(Fault::File);
        };
        match turn_of(day.day, now) {
            DayTurn::GoesOn => Ok(day),
            DayTurn::Turns => {
                day.sync()?;
                Day::open(self.rt, self.folder, now, Some(day.digest))
            }
        }
    }

    /// Syncs what was recorded, unless that is left out.
    fn sync(&self) -> Result<(), Fault> {
        if self.syncing == Syncing::Unsynced {
            return Ok(());
        }
        let Ok(Some(day)) = self.day.try_replace(None) else {
            return Err(Fault::File);
        };
        day.sync()?;
        let _ = self.day.try_replace(Some(day));
        Ok(())
    }
}

impl Day {
    /// Opens the file of a day, and makes it if it isn't there. Its first entry says which one was the last of the days before, with this digest.
    fn open(
        rt: &HostRuntime,
        folder: &str,
        day: u64,
        before: Option<Digest>,
    ) -> Result<Day, Fault> {
        let path = path_of(rt, folder, day)?;
        match make_private(rt, path.as_str()) {
            Ok(file) => {
                sync_folder(rt, folder);
                Day::new(rt, day, file, before)
            }
            Err(error) if error.kind() == ErrorKind::AlreadyExists => {
                Day::go_on(rt, path.as_str(), day, before)
            }
            Err(error) => Err(file_fault(&error)),
        }
    }

    /// Begins a file.
    fn new(rt: &HostRuntime, day: u64, file: File, before: Option<Digest>) -> Result<Day, Fault> {
        if !is_free(&file) {
            return Err(Fault::File);
        }
        let digest = ChainDigest::first().0;
        let begun = DayEnd { entries: 0, digest };
        Day::at(day, file, &begun).linked(rt, begun.link_due(before))
    }

    /// Goes on with a file behind its last whole entry.
    fn go_on(rt: &HostRuntime, path: &str, day: u64, before: Option<Digest>) -> Result<Day, Fault> {
        let file = OpenOptions::new()
            .read(true)
            .append(true)
            .open(rt, path)
            .map_err(|error| file_fault(&error))?;
        let end = settled(rt, path, &file)?;
        Day::at(day, file, &end).linked(rt, end.link_due(before))
    }

    /// A file that ends so.
    fn at(day: u64, file: File, end: &DayEnd) -> Day {
        Day {
            day,
            known: None,
            file,
            digest: end.digest,
        }
    }

    /// Appends the entry that names the last one of the days before, if one is to be named.
    fn linked(self, rt: &HostRuntime, named: Option<Digest>) -> Result<Day, Fault> {
        match named {
            Some(named) => {
                let fields = mark_of(Marked::DayBefore, &named);
                self.put(rt, moment_now(rt)?, RecordKind::Mark, &fields)
            }
            None => Ok(self),
        }
    }

    /// Appends an entry of a moment, with one write.
    fn put(
        self,
        rt: &HostRuntime,
        moment: u64,
        kind: RecordKind,
        fields: &ContentFields<'_>,
    ) -> Result<Day, Fault> {
        let content = fields.octets(rt.alloc()).map_err(append_fault)?;
        let mut octets = Vec::new(rt.alloc());
        let entry = RecordEntry {
            kind,
            moment,
            content: content.as_slice(),
        };
        let before = ChainDigest(self.digest);
        let digest = append_entry(&mut octets, &entry, &before).map_err(append_fault)?;
        self.write(octets.as_slice(), digest)
    }

    /// Appends what a session heard or said, with one write.
    fn put_octets(self, rt: &HostRuntime, talked: &SessionOctets<'_>) -> Result<Day, Fault> {
        let mut octets = Vec::new(rt.alloc());
        let before = ChainDigest(self.digest);
        let digest = talked
            .append(rt.alloc(), &mut octets, &before)
            .map_err(append_fault)?;
        self.write(octets.as_slice(), digest)
    }

    /// Writes entries, of which the last one has this digest.
    fn write(mut self, octets: &[u8], digest: ChainDigest) -> Result<Day, Fault> {
        match self.file.write_all(octets) {
            Ok(()) => {
                let digest = digest.0;
                self.digest = digest;
                Ok(self)
            }
            Err(error) => Err(file_fault(&error)),
        }
    }

    /// Syncs it.
    fn sync(&self) -> Result<(), Fault> {
        match self.file.sync_data() {
            Ok(()) => Ok(()),
            Err(_) => Err(Fault::File),
        }
    }
}

/// Where the whole entries of a file end that no other program writes. What is behind them is cut off.
///
/// # Errors
/// [`Fault::File`] if it isn't a regular file, another program writes it, it can't be read or cut off, or was changed; [`Fault::MEMORY`].
fn settled(rt: &HostRuntime, path: &str, file: &File) -> Result<DayEnd, Fault> {
    refuse_others(file)?;
    if !is_free(file) {
        return Err(Fault::File);
    }
    let mut reader = RecordReader::open(rt, path)?;
    if read_to_end(&mut reader)? == Found::Cut {
        cut_off(file, reader.whole())?;
    }
    Ok(reader.day_end())
}

/// Reads a file to the end of its whole entries. Returns what is behind them.
///
/// # Errors
/// [`Fault::File`] if it can't be read, or was changed; [`Fault::MEMORY`].
fn read_to_end(reader: &mut RecordReader) -> Result<Found, Fault> {
    for _ in 0..u64::MAX {
        match reader.advance()? {
            Found::Entry => {}
            Found::Changed => return Err(Fault::File),
            behind => return Ok(behind),
        }
    }
    Ok(Found::End)
}

/// Cuts off what is behind the first octets of a file, so that it isn't there after a loss of power either.
fn cut_off(file: &File, length: u64) -> Result<(), Fault> {
    file.set_len(length).map_err(|error| file_fault(&error))?;
    file.sync_all().map_err(|error| file_fault(&error))
}

/// The digest of the last entry of the days before one; `None` if they have none. What is behind it in its file is cut off.
fn digest_before(
    rt: &HostRuntime,
    folder: &str,
    day: u64,
    days: &[u64],
) -> Result<Option<Digest>, Fault> {
    let mut day = day;
    for _ in days {
        let Some(before) = last_before(day, days) else {
            break;
        };
        let end = end_of(rt, folder, before)?;
        if let Some(digest) = end.last_entry(None) {
            return Ok(Some(digest));
        }
        day = before;
    }
    Ok(None)
}

/// Where the entries of an earlier day end.
fn end_of(rt: &HostRuntime, folder: &str, day: u64) -> Result<DayEnd, Fault> {
    let path = path_of(rt, folder, day)?;
    let file = open_at_once(rt, path.as_str()).map_err(|error| file_fault(&error))?;
    settled(rt, path.as_str(), &file)
}

/// The path of the file of a day in a folder.
fn path_of(rt: &HostRuntime, folder: &str, day: u64) -> Result<String, Fault> {
    let day = day_text(rt, day)?;
    file_of(rt, folder, day.as_str())
}

/// Syncs a folder, so that the names in it are durable. File systems that don't sync folders are accepted.
fn sync_folder(rt: &HostRuntime, folder: &str) {
    if let Ok(folder) = fs::open(rt, folder) {
        let _ = folder.sync_all();
    }
}

/// The number of a user in digits; empty if it isn't known.
fn user_text(rt: &HostRuntime, user: Option<u32>) -> Result<String, Fault> {
    match user {
        Some(user) => Ok(format!(in rt.alloc(); "{user}")?),
        None => Ok(String::new(rt.alloc())),
    }
}

/// The fields of an operator's call.
fn call_of<'f>(number: u64, user: &'f str, request: &'f [u8]) -> ContentFields<'f> {
    ContentFields {
        number,
        first: user.as_bytes(),
        rest: request,
        ..NOTHING
    }
}

/// The fields of a backup.
fn backup_of<'f>(to: &'f str, register: &'f Digest) -> ContentFields<'f> {
    ContentFields {
        first: to.as_bytes(),
        second: register.as_slice(),
        ..NOTHING
    }
}

/// The fields of a mark.
fn mark_of(marked: Marked, digest: &Digest) -> ContentFields<'_> {
    ContentFields {
        code: marked.code(),
        first: digest.as_slice(),
        ..NOTHING
    }
}

/// A number that nobody knows before.
fn salt_drawn(rt: &HostRuntime) -> Result<u64, Fault> {
    match RandomState::new(rt) {
        Ok(random) => Ok(random.hash_one(&0u8)),
        Err(_) => Err(Fault::File),
    }
}

/// The day that it is.
fn today(rt: &HostRuntime) -> Result<u64, Fault> {
    let Ok(now) = Timestamp::now(rt) else {
        return Err(Fault::File);
    };
    let time = format!(in rt.alloc(); "{now}")?;
    match day_at(time.as_bytes()) {
        Some(day) => Ok(day),
        None => Err(Fault::File),
    }
}

/// The time: microseconds since 1970 began. One before that counts as its beginning.
fn moment_now(rt: &HostRuntime) -> Result<u64, Fault> {
    match Timestamp::now(rt) {
        Ok(now) => Ok(u64::try_from(now.as_microsecond()).unwrap_or(0)),
        Err(_) => Err(Fault::File),
    }
}

/// The error for an entry that can't be written.
fn append_fault(fault: AppendFault) -> Fault {
    match fault {
        AppendFault::TooLong => Fault::File,
        AppendFault::Memory => Fault::MEMORY,
    }
}
