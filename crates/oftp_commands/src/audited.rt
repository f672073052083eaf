//! What an audit reads of a database: entries by their numbers, and the rows of files by their places.

use oftp_database::PATIENCE;
use oftp_outcomes::Fault;
use oftp_register::{
    IncomingEntry, IssuedResponse, Name, Note, OfficeFault, OutgoingEntry, ReceivedResponse,
    ResponseKind,
};
use oftp_store::{PathFault, StoreFault, connect};
use oftp_tables::{
    ask, dispatch_at, format_at, identity_at, incoming_state_at, kind_at, name_at, no_at,
    number_at, open_tables, outgoing_state_at, reason_at, text_at,
};
use oftp_vfile::MOST_ROWS;
use oftp_wire::{Text, X};
use sqlite::types::ValueRef;
use sqlite::{Connection, FileFrom, FileStore, Row, Unknown};
use std::alloc::Global;
use std::fs;
use std::time::{Clock, Duration};

/// How many entries or rows are read at once.
const PAGE: i64 = 64;

/// The pause before a locked database is tried again, in milliseconds.
const PAUSE: u64 = 50;

/// The error for a database that can't be read.
const UNREAD: Fault = Fault::Store(StoreFault::Store);

/// The tables of entries.
#[derive(Clone, Copy, PartialEq, Eq)]
pub(crate) enum Table {
    /// The incoming files.
    Incoming,
    /// The responses that this station issued.
    Issued,
    /// The outgoing files.
    Outgoing,
    /// The responses that partners sent.
    Received,
}

impl Table {
    /// The SQL that selects a page of numbers behind a number.
    fn numbers(self) -> &'static str {
        match self {
            Table::Incoming => "SELECT no FROM in_file WHERE no > ?1 ORDER BY no LIMIT ?2",
            Table::Issued => "SELECT no FROM issued WHERE no > ?1 ORDER BY no LIMIT ?2",
            Table::Outgoing => "SELECT no FROM out_file WHERE no > ?1 ORDER BY no LIMIT ?2",
            Table::Received => "SELECT no FROM received WHERE no > ?1 ORDER BY no LIMIT ?2",
        }
    }

    /// The SQL that selects the entry with a number.
    fn entry(self) -> &'static str {
        match self {
            Table::Incoming =>
                "SELECT dataset, date, time, originator, destination, format, longest, description, state FROM in_file WHERE no = ?1",
            Table::Issued => "SELECT kind, reason, note, sent FROM issued WHERE no = ?1",
            Table::Outgoing =>
                "SELECT dataset, date, time, originator, destination, format, longest, description, mark, state, reason FROM out_file WHERE no = ?1",
            Table::Received =>
                "SELECT kind, dataset, date, time, originator, destination, reason FROM received WHERE no = ?1",
        }
    }
}

/// The tables that hang on entries of another table.
#[derive(Clone, Copy, PartialEq, Eq)]
pub(crate) enum Hanging {
    /// The rows of incoming files.
    IncomingRows,
    /// The rows of outgoing files.
    OutgoingRows,
    /// The texts of received responses.
    Notes,
}

impl Hanging {
    /// The SQL that selects the first number behind a number.
    fn next(self) -> &'static str {
        match self {
            Hanging::IncomingRows => "SELECT no FROM in_row WHERE no > ?1 ORDER BY no LIMIT 1",
            Hanging::OutgoingRows => "SELECT no FROM out_row WHERE no > ?1 ORDER BY no LIMIT 1",
            Hanging::Notes => "SELECT no FROM received_note WHERE no > ?1 ORDER BY no LIMIT 1",
        }
    }

    /// The table of their entries.
    fn owner(self) -> Table {
        match self {
            Hanging::IncomingRows => Table::Incoming,
            Hanging::OutgoingRows => Table::Outgoing,
            Hanging::Notes => Table::Received,
        }
    }
}

/// An entry, as far as it could be read.
#[derive(Drop)]
pub(crate) enum Found<T> {
    /// There is none with this number.
    Nothing,
    /// A column has a value that no entry has.
    Unread,
    /// The entry.
    Entry(T),
}

/// A row of a file: its place, and its octets if they are octets.
#[derive(Drop)]
pub(crate) struct FileRow {
    pub at: u64,
    pub row: Row,
}

impl FileRow {
    /// Its octets.
    pub(crate) fn octets(&self) -> Option<&[u8]> {
        match self.row.get_ref(1) {
            Ok(ValueRef::Blob(octets)) => Some(octets),
            _ => None,
        }
    }
}

/// A database that is read and not changed.
#[derive(Drop)]
pub(crate) struct Database {
    alloc: Global,
    conn: Connection<FileStore<FileFrom<Unknown>>>,
}

/// Opens the files of a database. Where another process has them locked, they are tried again as [`PATIENCE`] says.
fn connected(
    rt: &HostRuntime,
    path: &str,
) -> Result<Connection<FileStore<FileFrom<Unknown>>>, Fault> {
    for _ in 0..PATIENCE {
        let fault = match connect(rt, path, Unknown) {
            Ok(conn) => return Ok(conn),
            Err(unopened) => unopened.fault(),
        };
        if fault != PathFault::Held {
            return Err(UNREAD);
        }
        rt.sleep(Duration::from_millis(PAUSE));
    }
    Err(UNREAD)
}

/// The error of a command for one of a look-up.
fn fault_of(fault: OfficeFault) -> Fault {
    match fault {
        OfficeFault::Memory => Fault::MEMORY,
        OfficeFault::Store | OfficeFault::Refused(_) => UNREAD,
    }
}

/// A text that was read, or `None` where it is none that an entry has.
fn noted(text: Result<Note, OfficeFault>) -> Result<Option<Note>, Fault> {
    match text {
        Ok(note) => Ok(Some(note)),
        Err(OfficeFault::Memory) => Err(Fault::MEMORY),
        Err(_) => Ok(None),
    }
}

impl Database {
    /// Opens a database that has the tables of schema 2. One that doesn't exist isn't created.
    ///
    /// # Errors
    /// [`Fault::Store`]: it doesn't exist, has other tables, is locked, or can't be read.
    pub(crate) fn opened(rt: &HostRuntime, path: &str) -> Result<Database, Fault> {
        if fs::metadata(rt, path).is_err() {
            return Err(UNREAD);
        }
        let mut conn = connected(rt, path)?;
        if conn.schema().tables.is_empty() {
            return Err(Fault::Store(StoreFault::WrongSchema));
        }
        if !conn.is_autocommit() {
            return Err(UNREAD);
        }
        match open_tables(&mut conn) {
            Ok(()) => Ok(Database {
                alloc: rt.alloc(),
                conn,
            }),
            Err(fault) => Err(Fault::Store(fault)),
        }
    }

    /// The rows of a query.
    fn asked(&mut self, sql: &str, values: &[ValueRef<'_>]) -> Result<Vec<Row>, Fault> {
        ask(&mut self.conn, sql, values).map_err(fault_of)
    }

    /// The first row of a query.
    fn first(&mut self, sql: &str, values: &[ValueRef<'_>]) -> Result<Option<Row>, Fault> {
        Ok(self.asked(sql, values)?.into_iter().next())
    }

    /// A page of the numbers of a table behind a number.
    pub(crate) fn numbers(&mut self, table: Table, behind: i64) -> Result<Vec<i64>, Fault> {
        let rows = self.asked(
            table.numbers(),
            &[ValueRef::Int(behind), ValueRef::Int(PAGE)],
        )?;
        let mut numbers = Vec::new(self.alloc);
        for row in rows.as_slice() {
            if let Ok(ValueRef::Int(no)) = row.get_ref(0) {
                numbers.push(no)?;
            }
        }
        Ok(numbers)
    }

    /// The first number behind another, in a table that hangs on entries.
    pub(crate) fn next(&mut self, table: Hanging, behind: i64) -> Result<Option<i64>, Fault> {
        let Some(row) = self.first(table.next(), &[ValueRef::Int(behind)])? else {
            return Ok(None);
        };
        match row.get_ref(0) {
            Ok(ValueRef::Int(no)) => Ok(Some(no)),
            _ => Ok(None),
        }
    }

    /// The row of a table with a number.
    fn entry(&mut self, table: Table, no: i64) -> Result<Option<Row>, Fault> {
        self.first(table.entry(), &[ValueRef::Int(no)])
    }

    /// Whether a table has an entry with a number.
    pub(crate) fn has(&mut self, table: Table, no: i64) -> Result<bool, Fault> {
        Ok(self.entry(table, no)?.is_some())
    }

    /// How many rows a file has, from the place of its last one. `None` where that is no place.
    fn count(&mut self, rows: Hanging, no: i64) -> Result<Option<u64>, Fault> {
        let sql = match rows {
            Hanging::OutgoingRows =>
                "SELECT pos FROM out_row WHERE no = ?1 ORDER BY pos DESC LIMIT 1",
            _ => "SELECT pos FROM in_row WHERE no = ?1 ORDER BY pos DESC LIMIT 1",
        };
        let Some(row) = self.first(sql, &[ValueRef::Int(no)])? else {
            return Ok(Some(0));
        };
        match number_at(&row, 0) {
            Some(at) if (at as usize) < MOST_ROWS => Ok(Some(u64::from(at) + 1)),
            _ => Ok(None),
        }
    }

    /// A page of the rows of a file, from a place on.
    pub(crate) fn rows(
        &mut self,
        rows: Hanging,
        no: i64,
        from: u64,
    ) -> Result<Vec<FileRow>, Fault> {
        let sql = match rows {
            Hanging::OutgoingRows =>
                "SELECT pos, body FROM out_row WHERE no = ?1 AND pos >= ?2 ORDER BY pos LIMIT ?3",
            _ => "SELECT pos, body FROM in_row WHERE no = ?1 AND pos >= ?2 ORDER BY pos LIMIT ?3",
        };
        let mut page = Vec::new(self.alloc);
        let Ok(from) = i64::try_from(from) else {
            return Ok(page);
        };
        let from = ValueRef::Int(from);
        let found = self.asked(sql, &[ValueRef::Int(no), from, ValueRef::Int(PAGE)])?;
        for row in found {
            let at = no_at(&row, 0).ok_or(UNREAD)?;
            page.push(FileRow { at, row })?;
        }
        Ok(page)
    }

    /// The incoming file with a number.
    pub(crate) fn incoming(&mut self, no: i64) -> Result<Found<IncomingEntry>, Fault> {
        let Some(row) = self.entry(Table::Incoming, no)? else {
            return Ok(Found::Nothing);
        };
        let description = noted(text_at(self.alloc, &row, 7))?;
        let rows = self.count(Hanging::IncomingRows, no)?;
        let response = match self.issued(no)? {
            Found::Entry(response) => Some(response),
            Found::Nothing | Found::Unread => None,
        };
        Ok(found_as(incoming_in(no, &row, description, rows, response)))
    }

    /// The outgoing file with a number.
    pub(crate) fn outgoing(&mut self, no: i64) -> Result<Found<OutgoingEntry>, Fault> {
        let Some(row) = self.entry(Table::Outgoing, no)? else {
            return Ok(Found::Nothing);
        };
        let description = noted(text_at(self.alloc, &row, 7))?;
        let rows = self.count(Hanging::OutgoingRows, no)?;
        Ok(found_as(outgoing_in(no, &row, description, rows)))
    }

    /// The response to the incoming file with a number.
    pub(crate) fn issued(&mut self, no: i64) -> Result<Found<IssuedResponse>, Fault> {
        let Some(row) = self.entry(Table::Issued, no)? else {
            return Ok(Found::Nothing);
        };
        let text = noted(text_at(self.alloc, &row, 2))?;
        Ok(found_as(issued_in(&row, text)))
    }

    /// The received response with a number.
    pub(crate) fn received(&mut self, no: i64) -> Result<Found<ReceivedResponse>, Fault> {
        let Some(row) = self.entry(Table::Received, no)? else {
            return Ok(Found::Nothing);
        };
        let note = self.first(
            "SELECT creator, note FROM received_note WHERE no = ?1",
            &[ValueRef::Int(no)],
        )?;
        match kind_at(&row, 0) {
            Some(kind) => {
                let (creator, text) = self.said(kind, note)?;
                Ok(found_as(received_in(&row, kind, creator, text)))
            }
            None => Ok(Found::Unread),
        }
    }

    /// The creator and the text of a response. Those of an End-to-End Response are empty, and no other response is without them.
    fn said(
        &self,
        kind: ResponseKind,
        note: Option<Row>,
    ) -> Result<(Option<Name<25>>, Option<Note>), Fault> {
        match (note, kind) {
            (Some(note), _) => Ok((name_at(&note, 0), noted(text_at(self.alloc, &note, 1))?)),
            (None, ResponseKind::NegativeEndResponse) => Ok((None, None)),
            (None, ResponseKind::EndResponse) => {
                let text = Text::new("").ok_or(UNREAD)?;
                let creator = no_creator();
                Ok((creator, Some(Note::of(self.alloc, &text)?)))
            }
        }
    }

    /// Whether what hangs on an entry belongs to it. Only a Negative End Response has a text.
    pub(crate) fn is_owned(&mut self, hanging: Hanging, no: i64) -> Result<bool, Fault> {
        let Some(row) = self.entry(hanging.owner(), no)? else {
            return Ok(false);
        };
        match hanging {
            Hanging::Notes => Ok(kind_at(&row, 0) != Some(ResponseKind::EndResponse)),
            Hanging::IncomingRows | Hanging::OutgoingRows => Ok(true),
        }
    }
}

/// The creator of an End-to-End Response.
fn no_creator() -> Option<Name<25>> {
    match X::new(b"".as_slice()) {
        Some(field) => Some(Name::of(&field)),
        None => None,
    }
}

/// What was found of an entry that is there.
fn found_as<T>(entry: Option<T>) -> Found<T> {
    match entry {
        Some(entry) => Found::Entry(entry),
        None => Found::Unread,
    }
}

/// The number of an entry.
fn number_of(no: i64) -> Option<u64> {
    match u64::try_from(no) {
        Ok(no) => Some(no),
        Err(_) => None,
    }
}

/// An incoming file in a row.
fn incoming_in(
    no: i64,
    row: &Row,
    description: Option<Note>,
    rows: Option<u64>,
    response: Option<IssuedResponse>,
) -> Option<IncomingEntry> {
    Some(IncomingEntry {
        no: number_of(no)?,
        identity: identity_at(row, 0)?,
        format: format_at(row, 5)?,
        longest: number_at(row, 6)?,
        description: description?,
        state: incoming_state_at(row, 8)?,
        rows: rows?,
        response,
    })
}

/// An outgoing file in a row.
fn outgoing_in(
    no: i64,
    row: &Row,
    description: Option<Note>,
    rows: Option<u64>,
) -> Option<OutgoingEntry> {
    Some(OutgoingEntry {
        no: number_of(no)?,
        identity: identity_at(row, 0)?,
        format: format_at(row, 5)?,
        longest: number_at(row, 6)?,
        description: description?,
        rows: rows?,
        mark: u64::from(number_at(row, 8)?),
        state: outgoing_state_at(row, 9)?,
    })
}

/// An issued response in a row.
fn issued_in(row: &Row, text: Option<Note>) -> Option<IssuedResponse> {
    let kind = kind_at(row, 0)?;
    Some(IssuedResponse {
        kind,
        reason: reason_at(row, 1, kind)?,
        text: text?,
        dispatch: dispatch_at(row, 3)?,
    })
}

/// A received response in a row.
fn received_in(
    row: &Row,
    kind: ResponseKind,
    creator: Option<Name<25>>,
    text: Option<Note>,
) -> Option<ReceivedResponse> {
    Some(ReceivedResponse {
        kind,
        identity: identity_at(row, 1)?,
        reason: reason_at(row, 6, kind)?,
        creator: creator?,
        text: text?,
    })
}
