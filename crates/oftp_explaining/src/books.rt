//! What is wrong in a partner book: the first error, or each thing that is found.

use crate::addresses::{has_name, is_called};
use crate::judging::{Table, line_at, line_in, nearest};
use crate::teller::Teller;
use oftp_notes::{BookNote, Finding, Key, Note, Place, TableKind, Wrong, wrong_with};
use std::fs;
use std::io::{Read, Write};
use std::os::unix::fs::MetadataExt;
use toml::{Table as Members, Value};

/// How many octets a book may have, and one more.
const MOST: u64 = 16_777_217;

/// How many partners a book may have.
const MOST_PARTNERS: usize = 1_000;

/// The mode bit by which others may read a file.
const OTHERS_READ: u32 = 0o004;

/// How much is told of a book.
#[derive(Clone, Copy, PartialEq, Eq)]
enum Extent {
    /// The first error.
    First,
    /// All errors, and what is ignored or looks wrong.
    All,
}

/// Whether the names of hosts are looked up.
#[derive(Clone, Copy, PartialEq, Eq)]
pub enum Names {
    /// They are.
    LookedUp,
    /// They aren't.
    Left,
}

/// A book that is looked through.
#[derive(Drop)]
struct Reading<'a, 't, W> {
    teller: &'a mut Teller<'t, W>,
    path: &'a str,
    text: &'a str,
    extent: Extent,
    names: Names,
    // How many notes were told.
    told: u64,
}

/// Tells the first error of a book.
pub(crate) fn tell_book<W: Write>(teller: &mut Teller<'_, W>, path: Option<&str>) {
    if let Some(path) = path {
        look_through(teller, path, Extent::First, Names::Left);
    }
}

/// Tells each thing that is found in a book.
pub fn explain<W: Write>(teller: &mut Teller<'_, W>, path: &str, names: Names) {
    look_through(teller, path, Extent::All, names);
}

/// Looks through a book, if it can be read.
fn look_through<W: Write>(teller: &mut Teller<'_, W>, path: &str, extent: Extent, names: Names) {
    let Some(octets) = octets_of(teller.rt, path) else {
        return;
    };
    let text = str::from_utf8(octets.as_slice()).ok();
    let mut reading = Reading {
        teller,
        path,
        text: text.unwrap_or(""),
        extent,
        names,
        told: 0,
    };
    match text {
        Some(_) => reading.read(),
        None => reading.tell(1, Place::Top, Key::Book, Wrong::NotToml),
    }
    if extent == Extent::All {
        reading.look_at_mode();
    }
}

/// The octets of a book.
fn octets_of(rt: &HostRuntime, path: &str) -> Option<Vec<u8>> {
    let file = fs::open(rt, path).ok()?;
    let mut octets = Vec::new(rt.alloc());
    let mut beginning = Read::take(file, MOST);
    beginning.read_to_end(&mut octets).ok()?;
    Some(octets)
}

impl<W: Write> Reading<'_, '_, W> {
    /// Whether enough was told.
    fn is_over(&self) -> bool {
        self.extent == Extent::First && self.told > 0
    }

    /// Tells something about a line, unless enough was told.
    fn tell(&mut self, line: u64, place: Place<'_>, key: Key, wrong: Wrong) {
        if self.is_over() {
            return;
        }
        self.told = self.told.saturating_add(1);
        let note = BookNote::Error(Finding { place, key, wrong });
        self.teller.tell(&note_at(self.path, line, note));
    }

    /// Warns of something.
    fn warn(&mut self, line: u64, place: Place<'_>, key: Key, wrong: Wrong) {
        if self.extent == Extent::All {
            let note = BookNote::Warning(Finding { place, key, wrong });
            self.teller.tell(&note_at(self.path, line, note));
        }
    }

    /// Tells the error of a value in a table.
    fn find(&mut self, table: Table, place: Place<'_>, key: Key, wrong: Wrong) {
        let line = line_in(self.text, table, key.word());
        self.tell(line, place, key, wrong);
    }

    /// Reads the whole text.
    fn read(&mut self) {
        match toml::table_from_str(self.teller.rt.alloc(), self.text) {
            Ok(members) => self.read_book(&members),
            Err(error) => {
                let octet = match error.span() {
                    Some(span) => span.start,
                    None => 0,
                };
                self.tell(
                    line_at(self.text, octet),
                    Place::Top,
                    Key::Book,
                    Wrong::NotToml,
                );
            }
        }
    }

    /// Reads the station and the partners.
    fn read_book(&mut self, members: &Members) {
        self.look_for_others(members, Table::Top, TableKind::Top);
        self.read_key(members, Key::Station);
        let station = members.get("station").and_then(Value::as_table);
        if let Some(station) = station {
            self.read_table(station, Table::Station, Place::Station, TableKind::Station);
        }
        self.read_key(members, Key::Partner);
        if let Some(partners) = members.get("partner").and_then(Value::as_array) {
            self.read_partners(station, partners.as_slice());
        }
    }

    /// Tells the error of a value outside of all tables.
    fn read_key(&mut self, members: &Members, key: Key) {
        if let Some(wrong) = wrong_with(members.get(key.word()), key) {
            self.find(Table::Top, Place::Top, key, wrong);
        }
    }

    /// Reads the values of a table.
    fn read_table(&mut self, members: &Members, table: Table, place: Place<'_>, kind: TableKind) {
        self.look_for_others(members, table, kind);
        for key in kind.keys() {
            if let Some(wrong) = wrong_with(members.get(key.word()), *key) {
                self.find(table, place, *key, wrong);
            }
        }
    }

    /// Reads the tables of the partners.
    fn read_partners(&mut self, station: Option<&Members>, values: &[Value]) {
        if values.len() > MOST_PARTNERS {
            self.find(Table::Partner(1), Place::Top, Key::Partner, Wrong::TooMany);
        }
        for (index, value) in values.iter().enumerate() {
            let number = (index as u64).saturating_add(1);
            match value.as_table() {
                Some(members) => {
                    let before = values.get(..index).unwrap_or(&[]);
                    self.read_partner(station, before, number, members);
                }
                None => self.find(
                    Table::Partner(number),
                    Place::Numbered(number),
                    Key::Partner,
                    Wrong::NoTable,
                ),
            }
        }
    }

    /// Reads the table of a partner.
    fn read_partner(
        &mut self,
        station: Option<&Members>,
        before: &[Value],
        number: u64,
        members: &Members,
    ) {
        let table = Table::Partner(number);
        let code = code_in(members);
        let place = match code {
            Some(code) => Place::Partner(code),
            None => Place::Numbered(number),
        };
        if let Some(code) = code {
            if is_station(station, code) || is_before(before, code) {
                self.find(table, place, Key::Code, Wrong::Twice);
            }
        }
        self.read_table(members, table, place, TableKind::Partner);
        self.look_at_address(members, table, place);
    }

    /// Warns of an address that can't be called.
    fn look_at_address(&mut self, members: &Members, table: Table, place: Place<'_>) {
        let Some(address) = text_in(members, Key::Address) else {
            return;
        };
        let line = line_in(self.text, table, Key::Address.word());
        if !is_called(address) {
            self.warn(line, place, Key::Address, Wrong::NoPort);
        } else if self.names == Names::LookedUp && !has_name(self.teller.rt, address) {
            self.warn(line, place, Key::Address, Wrong::NoHost);
        }
    }

    /// Warns of keys that are ignored.
    fn look_for_others(&mut self, members: &Members, table: Table, kind: TableKind) {
        if self.extent == Extent::First {
            return;
        }
        for (key, _) in members {
            if !kind.reads(key.as_str()) {
                self.tell_ignored(table, kind, key.as_str());
            }
        }
    }

    /// Warns of a key that is ignored.
    fn tell_ignored(&mut self, table: Table, kind: TableKind, key: &str) {
        let Ok(nearest) = nearest(self.teller.rt.alloc(), kind.keys(), key) else {
            return;
        };
        let line = line_in(self.text, table, key);
        let note = BookNote::Ignored {
            key,
            nearest: nearest.word(),
        };
        self.teller.tell(&note_at(self.path, line, note));
    }

    /// Warns of a book that others may read.
    fn look_at_mode(&mut self) {
        if let Ok(about) = fs::metadata(self.teller.rt, self.path) {
            if about.mode() & OTHERS_READ != 0 {
                self.warn(1, Place::Top, Key::Book, Wrong::Exposed);
            }
        }
    }
}

/// A note about a line of a book.
fn note_at<'n>(path: &'n str, line: u64, note: BookNote<'n>) -> Note<'n> {
    Note::Book { path, line, note }
}

/// The text of a key.
fn text_in(members: &Members, key: Key) -> Option<&str> {
    members.get(key.word())?.as_str()
}

/// The code of a table, if it is one.
fn code_in(members: &Members) -> Option<&str> {
    match wrong_with(members.get(Key::Code.word()), Key::Code) {
        None => text_in(members, Key::Code),
        Some(_) => None,
    }
}

/// Whether a code is the station's.
fn is_station(station: Option<&Members>, code: &str) -> bool {
    match station {
        Some(members) => text_in(members, Key::Code) == Some(code),
        None => false,
    }
}

/// Whether one of these partners has a code.
fn is_before(values: &[Value], code: &str) -> bool {
    for value in values {
        if let Some(members) = value.as_table() {
            if text_in(members, Key::Code) == Some(code) {
                return true;
            }
        }
    }
    false
}
