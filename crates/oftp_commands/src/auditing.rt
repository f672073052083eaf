//! The command `audit`, which tells what is unsound in a database, and what it has lost of an older one.

use crate::audited::{Database, FileRow, Found, Hanging, Table};
use oftp_audit::{
    Loss, Shape, lost_of_incoming, lost_of_issued, lost_of_outgoing, lost_of_received, lost_of_row,
    unsound_in_incoming, unsound_in_issued, unsound_in_outgoing, unsound_in_received,
    unsound_in_row,
};
use oftp_command_line::Audit;
use oftp_database::{self as database, PATIENCE};
use oftp_outcomes::{Fault, status_where, write_line};
use oftp_register::IncomingState;
use oftp_replay::{Compared, compare_with_record};
use oftp_store::StoreFault;
use std::fmt;
use std::io::Write;

/// Tells what is unsound in a database, and what it has lost of an older one if the command line names one, a line each. Neither changes.
/// Then tells whether a record has another register after that of the database, or not that one, if the command line names a record. Returns the
/// exit status, which is that of a refusal if there was a line.
///
/// # Errors
/// [`Fault::Store`] if a database can't be opened or read, or if the older one has an entry that can't be read. [`Fault::File`] if the record
/// can't be read. [`Fault::Run`] if the office failed or `out` returned an error; [`Fault::MEMORY`].
pub fn audit(rt: &HostRuntime, line: &Audit<'_>, out: &mut impl Write) -> Result<u8, Fault> {
    let is_sound = judge_all(rt, line, out)?;
    let is_recorded = match line.record {
        Some(folder) => {
            let mut life = database::live(rt, line.database, PATIENCE, None)?;
            compare_with_record(rt, folder, &mut life, out)? == Compared::Same
        }
        None => true,
    };
    Ok(status_where(is_sound && is_recorded))
}

/// Tells what is unsound in a database, and what it has lost of an older one. Returns whether there was nothing to tell.
fn judge_all(rt: &HostRuntime, line: &Audit<'_>, out: &mut impl Write) -> Result<bool, Fault> {
    let newer = Database::opened(rt, line.database)?;
    let mut audit = Auditing {
        newer,
        out,
        is_sound: true,
    };
    audit.judge()?;
    if let Some(old) = line.old {
        let mut older = Database::opened(rt, old)?;
        audit.compare(&mut older)?;
    }
    Ok(audit.is_sound)
}

/// What a line is about.
#[derive(Clone, Copy)]
enum About {
    /// An incoming file.
    In(i64),
    /// A row of an incoming file, by its place.
    InRow(i64, u64),
    /// An outgoing file.
    Out(i64),
    /// A row of an outgoing file, by its place.
    OutRow(i64, u64),
    /// A response that this station issued.
    Issued(i64),
    /// A response that a partner sent.
    Received(i64),
    /// The text of a response that a partner sent.
    Note(i64),
}

impl fmt::Display for About {
    fn fmt<W: fmt::Write>(&self, f: &mut fmt::Formatter<W>) -> fmt::Result {
        match self {
            About::In(no) => write!(f, "in {no}"),
            About::InRow(no, at) => write!(f, "row {at} of in {no}"),
            About::Out(no) => write!(f, "out {no}"),
            About::OutRow(no, at) => write!(f, "row {at} of out {no}"),
            About::Issued(no) => write!(f, "issued {no}"),
            About::Received(no) => write!(f, "received {no}"),
            About::Note(no) => write!(f, "text of received {no}"),
        }
    }
}

/// A line of an audit.
#[derive(Clone, Copy)]
struct LossLine {
    about: About,
    loss: Loss,
}

impl fmt::Display for LossLine {
    fn fmt<W: fmt::Write>(&self, f: &mut fmt::Formatter<W>) -> fmt::Result {
        let LossLine { about, loss } = self;
        write!(f, "{about} {loss}")
    }
}

/// The subject of a line about an entry of a table.
fn subject_of(table: Table, no: i64) -> About {
    match table {
        Table::Incoming => About::In(no),
        Table::Issued => About::Issued(no),
        Table::Outgoing => About::Out(no),
        Table::Received => About::Received(no),
    }
}

/// The subject of a line about a row of a file.
fn about_row(rows: Hanging, no: i64, at: u64) -> About {
    match rows {
        Hanging::OutgoingRows => About::OutRow(no, at),
        _ => About::InRow(no, at),
    }
}

/// An entry of an older database, which has to be readable.
fn readable<T>(found: Found<T>) -> Result<Option<T>, Fault> {
    match found {
        Found::Entry(entry) => Ok(Some(entry)),
        Found::Nothing => Ok(None),
        Found::Unread => Err(Fault::Store(StoreFault::Store)),
    }
}

/// An entry of the newer database. One that can't be read was told before, and counts as missing.
fn entry_of<T>(found: Found<T>) -> Option<T> {
    match found {
        Found::Entry(entry) => Some(entry),
        Found::Nothing | Found::Unread => None,
    }
}

/// An audit that is under way.
#[derive(Drop)]
struct Auditing<'a, W> {
    newer: Database,
    out: &'a mut W,
    is_sound: bool,
}

impl<W: Write> Auditing<'_, W> {
    /// Tells a loss, if there is one.
    fn tell(&mut self, about: About, loss: Option<Loss>) -> Result<(), Fault> {
        let Some(loss) = loss else {
            return Ok(());
        };
        self.is_sound = false;
        write_line(self.out, &LossLine { about, loss })
    }

    /// Tells each loss.
    fn tell_all(&mut self, about: About, losses: &[Option<Loss>]) -> Result<(), Fault> {
        for loss in losses {
            self.tell(about, *loss)?;
        }
        Ok(())
    }

    /// Tells what is unsound in the newer database.
    fn judge(&mut self) -> Result<(), Fault> {
        for table in [
            Table::Incoming,
            Table::Issued,
            Table::Outgoing,
            Table::Received,
        ] {
            self.judge_table(table)?;
        }
        for hanging in [Hanging::IncomingRows, Hanging::OutgoingRows, Hanging::Notes] {
            self.judge_hanging(hanging)?;
        }
        Ok(())
    }

    /// Judges each entry of a table, and whether their numbers are those from 1 on.
    fn judge_table(&mut self, table: Table) -> Result<(), Fault> {
        let mut last = 0;
        let mut behind = i64::MIN;
        for _ in 0..u64::MAX {
            let page = self.newer.numbers(table, behind)?;
            for no in page.as_slice() {
                self.judge_number(table, last, *no)?;
                self.judge_entry(table, *no)?;
                last = *no;
            }
            match page.last() {
                Some(no) => behind = *no,
                None => return Ok(()),
            }
        }
        Ok(())
    }

    /// Tells a number that is missing before another. Not each file has a response.
    fn judge_number(&mut self, table: Table, last: i64, no: i64) -> Result<(), Fault> {
        if table == Table::Issued {
            return Ok(());
        }
        if no < 1 {
            return self.tell(subject_of(table, no), Some(Loss::Stray));
        }
        match last.checked_add(1) {
            Some(next) if next != no => self.tell(subject_of(table, next), Some(Loss::Missing)),
            _ => Ok(()),
        }
    }

    /// Judges the entry with a number.
    fn judge_entry(&mut self, table: Table, no: i64) -> Result<(), Fault> {
        match table {
            Table::Incoming => self.judge_incoming(no),
            Table::Issued => self.judge_issued(no),
            Table::Outgoing => self.judge_outgoing(no),
            Table::Received => self.judge_received(no),
        }
    }

    /// Judges an incoming file.
    fn judge_incoming(&mut self, no: i64) -> Result<(), Fault> {
        let Found::Entry(file) = self.newer.incoming(no)? else {
            return self.tell(About::In(no), Some(Loss::Unread));
        };
        self.tell_all(About::In(no), &unsound_in_incoming(&file))?;
        let shape = Shape {
            format: file.format,
            longest: file.longest,
            state: file.state,
            rows: file.rows,
        };
        self.judge_rows(Hanging::IncomingRows, no, shape)
    }

    /// Judges an outgoing file.
    fn judge_outgoing(&mut self, no: i64) -> Result<(), Fault> {
        let Found::Entry(file) = self.newer.outgoing(no)? else {
            return self.tell(About::Out(no), Some(Loss::Unread));
        };
        self.tell_all(About::Out(no), &unsound_in_outgoing(&file))?;
        let shape = Shape {
            format: file.format,
            longest: file.longest,
            state: IncomingState::Whole,
            rows: file.rows,
        };
        self.judge_rows(Hanging::OutgoingRows, no, shape)
    }

    /// Judges an issued response.
    fn judge_issued(&mut self, no: i64) -> Result<(), Fault> {
        if !self.newer.has(Table::Incoming, no)? {
            self.tell(About::Issued(no), Some(Loss::Stray))?;
        }
        match self.newer.issued(no)? {
            Found::Entry(response) => self.tell(About::Issued(no), unsound_in_issued(&response)),
            Found::Nothing | Found::Unread => self.tell(About::Issued(no), Some(Loss::Unread)),
        }
    }

    /// Judges a received response.
    fn judge_received(&mut self, no: i64) -> Result<(), Fault> {
        match self.newer.received(no)? {
            Found::Entry(response) => {
                self.tell(About::Received(no), unsound_in_received(&response))
            }
            Found::Nothing | Found::Unread => self.tell(About::Received(no), Some(Loss::Unread)),
        }
    }

    /// Judges the rows of a file, page by page.
    fn judge_rows(&mut self, rows: Hanging, no: i64, shape: Shape) -> Result<(), Fault> {
        let mut next = 0;
        for _ in 0..u64::MAX {
            let page = self.newer.rows(rows, no, next)?;
            for row in page.as_slice() {
                self.judge_row(
                    about_row(rows, no, row.at),
                    about_row(rows, no, next),
                    shape,
                    next,
                    row,
                )?;
                next = row.at.saturating_add(1);
            }
            if page.is_empty() {
                return Ok(());
            }
        }
        Ok(())
    }

    /// Judges a row, which should be at the place `next`.
    fn judge_row(
        &mut self,
        here: About,
        before: About,
        shape: Shape,
        next: u64,
        row: &FileRow,
    ) -> Result<(), Fault> {
        if row.at != next {
            self.tell(before, Some(Loss::Missing))?;
        }
        match row.octets() {
            Some(octets) => self.tell(here, unsound_in_row(shape, row.at, octets.len() as u64)),
            None => self.tell(here, Some(Loss::Unread)),
        }
    }

    /// Tells what belongs to no entry.
    fn judge_hanging(&mut self, hanging: Hanging) -> Result<(), Fault> {
        let mut behind = i64::MIN;
        for _ in 0..u64::MAX {
            let Some(no) = self.newer.next(hanging, behind)? else {
                return Ok(());
            };
            if !self.newer.is_owned(hanging, no)? {
                let about = match hanging {
                    Hanging::Notes => About::Note(no),
                    _ => about_row(hanging, no, 0),
                };
                self.tell(about, Some(Loss::Stray))?;
            }
            behind = no;
        }
        Ok(())
    }

    /// Tells what the newer database has lost of an older one.
    fn compare(&mut self, older: &mut Database) -> Result<(), Fault> {
        for table in [
            Table::Incoming,
            Table::Issued,
            Table::Outgoing,
            Table::Received,
        ] {
            self.compare_table(older, table)?;
        }
        Ok(())
    }

    /// Compares each entry of a table.
    fn compare_table(&mut self, older: &mut Database, table: Table) -> Result<(), Fault> {
        let mut behind = i64::MIN;
        for _ in 0..u64::MAX {
            let page = older.numbers(table, behind)?;
            for no in page.as_slice() {
                match table {
                    Table::Incoming => self.compare_incoming(older, *no)?,
                    Table::Issued => self.compare_issued(older, *no)?,
                    Table::Outgoing => self.compare_outgoing(older, *no)?,
                    Table::Received => self.compare_received(older, *no)?,
                }
            }
            match page.last() {
                Some(no) => behind = *no,
                None => return Ok(()),
            }
        }
        Ok(())
    }

    /// Compares an incoming file, and its rows if it was whole.
    fn compare_incoming(&mut self, older: &mut Database, no: i64) -> Result<(), Fault> {
        let Some(was) = readable(older.incoming(no)?)? else {
            return Ok(());
        };
        let is = entry_of(self.newer.incoming(no)?);
        self.tell_all(About::In(no), &lost_of_incoming(&was, is.as_ref()))?;
        if is.is_none() || was.state == IncomingState::Open {
            return Ok(());
        }
        self.compare_rows(older, Hanging::IncomingRows, no)
    }

    /// Compares an outgoing file with its rows.
    fn compare_outgoing(&mut self, older: &mut Database, no: i64) -> Result<(), Fault> {
        let Some(was) = readable(older.outgoing(no)?)? else {
            return Ok(());
        };
        let is = entry_of(self.newer.outgoing(no)?);
        self.tell_all(About::Out(no), &lost_of_outgoing(&was, is.as_ref()))?;
        if is.is_none() {
            return Ok(());
        }
        self.compare_rows(older, Hanging::OutgoingRows, no)
    }

    /// Compares an issued response.
    fn compare_issued(&mut self, older: &mut Database, no: i64) -> Result<(), Fault> {
        let Some(was) = readable(older.issued(no)?)? else {
            return Ok(());
        };
        let is = entry_of(self.newer.issued(no)?);
        self.tell_all(About::Issued(no), &lost_of_issued(&was, is.as_ref()))
    }

    /// Compares a received response.
    fn compare_received(&mut self, older: &mut Database, no: i64) -> Result<(), Fault> {
        let Some(was) = readable(older.received(no)?)? else {
            return Ok(());
        };
        let is = entry_of(self.newer.received(no)?);
        self.tell_all(About::Received(no), &lost_of_received(&was, is.as_ref()))
    }

    /// Compares the rows of a file, page by page.
    fn compare_rows(&mut self, older: &mut Database, rows: Hanging, no: i64) -> Result<(), Fault> {
        let mut next = 0;
        for _ in 0..u64::MAX {
            let were = older.rows(rows, no, next)?;
            let are = self.newer.rows(rows, no, next)?;
            let Some(last) = were.last() else {
                return Ok(());
            };
            next = last.at.saturating_add(1);
            self.compare_page(rows, no, were.as_slice(), are.as_slice())?;
        }
        Ok(())
    }

    /// Compares a page of rows.
    fn compare_page(
        &mut self,
        rows: Hanging,
        no: i64,
        were: &[FileRow],
        are: &[FileRow],
    ) -> Result<(), Fault> {
        for was in were {
            let octets = was.octets().ok_or(Fault::Store(StoreFault::Store))?;
            let is = are.iter().find(|row| row.at == was.at);
            let lost = match is {
                Some(row) => lost_of_row(octets, row.octets()),
                None => lost_of_row(octets, None),
            };
            self.tell(about_row(rows, no, was.at), lost)?;
        }
        Ok(())
    }
}
