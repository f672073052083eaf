//! The tables that the office makes, as a catalog has them.

use sqlite_schema::schema::Kind::{self, Blob, Integer, Text};

/// Columns, by their names and types.
pub(crate) type Columns = &'static [(&'static str, Kind)];

/// A table as a catalog has it.
pub(crate) enum Wanted {
    /// A table whose first column, a number, is its key.
    Numbered {
        name: &'static str,
        tree: u32,
        columns: &'static [Columns],
        /// The columns of its UNIQUE.
        unique: Option<&'static [usize]>,
        /// The table to whose numbers it refers.
        parent: Option<&'static str>,
    },
    /// A table of rows of files: its name, its tree, and the table of the files.
    Rows(&'static str, u32, &'static str),
}

// The columns that several tables share: a number, an identity, and other fields of a file.
const NUMBER: Columns = &[("no", Integer)];

const NAMES: Columns = &[
    ("dataset", Text),
    ("date", Text),
    ("time", Text),
    ("originator", Text),
    ("destination", Text),
];

const FILE: Columns = &[
    ("format", Text),
    ("longest", Integer),
    ("description", Text),
];

/// The columns of a table of rows.
pub(crate) const ROW: Columns = &[("no", Integer), ("pos", Integer), ("body", Blob)];

/// The indexes of a row's number and position.
pub(crate) const POSITION: &[usize] = &[1, 2];

// The indexes of an identity, and of a kind with an identity.
const IDENTITY: &[usize] = &[2, 3, 4, 5, 6];

const RESPONSE: &[usize] = &[2, 3, 4, 5, 6, 7];

/// The tables of schema 1, in the order in which they are made.
pub(crate) const FIRST: [Wanted; 7] = [
    Wanted::Numbered {
        name: "about",
        tree: 0,
        columns: &[&[("id", Integer), ("schema", Integer)]],
        unique: None,
        parent: None,
    },
    Wanted::Numbered {
        name: "in_file",
        tree: 1,
        columns: &[NUMBER, NAMES, FILE, &[("state", Text)]],
        unique: Some(IDENTITY),
        parent: None,
    },
    Wanted::Rows("in_row", 3, "in_file"),
    Wanted::Numbered {
        name: "out_file",
        tree: 5,
        columns: &[
            NUMBER,
            NAMES,
            FILE,
            &[("mark", Integer), ("state", Text), ("reason", Text)],
        ],
        unique: Some(IDENTITY),
        parent: None,
    },
    Wanted::Rows("out_row", 7, "out_file"),
    Wanted::Numbered {
        name: "issued",
        tree: 9,
        columns: &[
            NUMBER,
            &[
                ("kind", Text),
                ("reason", Text),
                ("note", Text),
                ("sent", Integer),
            ],
        ],
        unique: None,
        parent: Some("in_file"),
    },
    Wanted::Numbered {
        name: "received",
        tree: 10,
        columns: &[NUMBER, &[("kind", Text)], NAMES, &[("reason", Text)]],
        unique: Some(RESPONSE),
        parent: None,
    },
];

/// The tables that schema 2 adds.
pub(crate) const LATER: [Wanted; 1] = [Wanted::Numbered {
    name: "received_note",
    tree: 12,
    columns: &[NUMBER, &[("creator", Text), ("note", Text)]],
    unique: None,
    parent: Some("received"),
}];

/// The index of each UNIQUE: its name, its tree, that of its table, and the columns.
pub(crate) const INDEXES: [(&str, u32, u32, &[usize]); 5] = [
    ("sqlite_autoindex_in_file_1", 2, 1, IDENTITY),
    ("sqlite_autoindex_in_row_1", 4, 3, POSITION),
    ("sqlite_autoindex_out_file_1", 6, 5, IDENTITY),
    ("sqlite_autoindex_out_row_1", 8, 7, POSITION),
    ("sqlite_autoindex_received_1", 11, 10, RESPONSE),
];
