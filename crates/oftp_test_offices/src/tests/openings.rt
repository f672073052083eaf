//! Opening stores: one of schema 2 twice, one of schema 1 that is migrated, and stores that are neither. The numbers are counted by hand.

use Step::{Batch, Migrate, Number, Open};
use oftp_test_acts::playing::{FEW, Image, NO_STOP, Step, play};
use std::alloc::{AllocError, Global};
use std::process::Abort;
use std::test::Fail;

// The tables of schema 1, with an End-to-End Response and two negative ones.
const FIRST: &str =
    "CREATE TABLE about (id INTEGER NOT NULL PRIMARY KEY, schema INTEGER NOT NULL) STRICT;
        CREATE TABLE in_file (no INTEGER NOT NULL PRIMARY KEY, dataset TEXT NOT NULL, date TEXT NOT NULL, time TEXT NOT NULL,
            originator TEXT NOT NULL, destination TEXT NOT NULL, format TEXT NOT NULL, longest INTEGER NOT NULL, description TEXT NOT NULL,
            state TEXT NOT NULL, UNIQUE (dataset, date, time, originator, destination)) STRICT;
        CREATE TABLE in_row (no INTEGER NOT NULL REFERENCES in_file (no), pos INTEGER NOT NULL, body BLOB NOT NULL, PRIMARY KEY (no, pos)) STRICT;
        CREATE TABLE out_file (no INTEGER NOT NULL PRIMARY KEY, dataset TEXT NOT NULL, date TEXT NOT NULL, time TEXT NOT NULL,
            originator TEXT NOT NULL, destination TEXT NOT NULL, format TEXT NOT NULL, longest INTEGER NOT NULL, description TEXT NOT NULL,
            mark INTEGER NOT NULL, state TEXT NOT NULL, reason TEXT NOT NULL, UNIQUE (dataset, date, time, originator, destination)) STRICT;
        CREATE TABLE out_row (no INTEGER NOT NULL REFERENCES out_file (no), pos INTEGER NOT NULL, body BLOB NOT NULL, PRIMARY KEY (no, pos)) STRICT;
        CREATE TABLE issued (no INTEGER NOT NULL PRIMARY KEY REFERENCES in_file (no), kind TEXT NOT NULL, reason TEXT NOT NULL, note TEXT NOT NULL, sent INTEGER NOT NULL) STRICT;
        CREATE TABLE received (no INTEGER NOT NULL PRIMARY KEY, kind TEXT NOT NULL, dataset TEXT NOT NULL, date TEXT NOT NULL,
            time TEXT NOT NULL, originator TEXT NOT NULL, destination TEXT NOT NULL, reason TEXT NOT NULL, UNIQUE (kind, dataset, date,
            time, originator, destination)) STRICT;
        INSERT INTO about VALUES (1, 1);
        INSERT INTO received VALUES (1, 'NERP', 'A', 'D', 'T', 'O', 'P', '07'), (2, 'EERP', 'B', 'D', 'T', 'O', 'P', ''), (3, 'NERP', 'C', 'D', 'T', 'O', 'P', '23')";

const OBJECTS: &str = "SELECT count(*) FROM sqlite_schema";

const SCHEMA: &str = "SELECT schema FROM about WHERE id = 1";

// The steps with an empty store, and the lines that they give.
type Tale = (&'static [Step<'static>], &'static [&'static str]);

// An office is created twice, with the same objects.
const TWICE: Tale = (
    &[
        Open(&[]),
        Number(OBJECTS),
        Open(&[]),
        Number(OBJECTS),
        Number(SCHEMA),
    ],
    &["open", "13", "open", "13", "2"],
);

const MIGRATED: Tale = (
    &[
        Migrate(&[]),
        Batch(FIRST),
        Open(&[]),
        Migrate(&[]),
        Number("SELECT count(*) FROM received_note"),
        Number(
            "SELECT count(*) FROM received_note WHERE (no = 1 OR no = 3) AND creator = '' AND note = ''",
        ),
        Number("SELECT schema FROM about"),
        Number("SELECT count(*) FROM received"),
        Open(&[]),
        Migrate(&[]),
    ],
    &[
        "wrong schema",
        "wrong schema",
        "open",
        "2",
        "2",
        "2",
        "3",
        "open",
        "open",
    ],
);

fn compare(rt: &impl Abort, said: &[String], wanted: &[&str]) {
    assert_eq!(rt; said.len(), wanted.len());
    for (found, wanted) in said.iter().zip(wanted) {
        assert_eq!(rt; found.as_str(), *wanted);
    }
}

fn tell(alloc: Global, rt: &impl Abort, steps: &[Step<'_>], wanted: &[&str]) -> Result<(), Fail> {
    let played = play(alloc, FEW, steps, &Image::empty(alloc), NO_STOP)?;
    compare(rt, played.said.as_slice(), wanted);
    Ok(())
}

#[test]
fn opened_twice_and_migrated(rt: HostRuntime) -> Result<(), Fail> {
    for (steps, wanted) in [TWICE, MIGRATED] {
        tell(rt.alloc(), &rt, steps, wanted)?;
    }
    Ok(())
}

// A statement for the store of an office, and how many objects and rows of `about` it then has.
type Wrong = (&'static str, &'static str, &'static str);

const EDITS: &[Wrong] = &[
    ("CREATE TABLE t (a)", "14", "1"),
    ("CREATE VIEW v AS SELECT no FROM in_file", "14", "1"),
    ("CREATE INDEX i ON received (date)", "14", "1"),
    ("DROP TABLE received_note", "12", "1"),
    (
        "DROP TABLE received_note; CREATE TABLE received_note (no INTEGER NOT NULL PRIMARY KEY REFERENCES received (no), creator TEXT NOT NULL) STRICT",
        "13",
        "1",
    ),
    (
        "DROP TABLE received_note; CREATE TABLE received_note (no INTEGER NOT NULL PRIMARY KEY REFERENCES received (no), creator TEXT NOT NULL, note TEXT) STRICT",
        "13",
        "1",
    ),
    (
        "DROP TABLE received_note; CREATE TABLE received_note (no INTEGER NOT NULL PRIMARY KEY, creator TEXT NOT NULL, note TEXT NOT NULL) STRICT",
        "13",
        "1",
    ),
    ("DELETE FROM about", "13", "0"),
    ("INSERT INTO about VALUES (2, 2)", "13", "2"),
    ("UPDATE about SET id = 2", "13", "1"),
    ("UPDATE about SET schema = 1", "13", "1"),
    ("UPDATE about SET schema = 7", "13", "1"),
    (
        "DROP TABLE about; CREATE TABLE about (id INTEGER NOT NULL PRIMARY KEY, schema TEXT NOT NULL) STRICT; INSERT INTO about VALUES (1, '2')",
        "13",
        "1",
    ),
];

// Statements that make a store that is neither empty nor an office's.
const FOREIGN: [&str; 3] = [
    "CREATE TABLE t (a)",
    "CREATE TABLE about (id INTEGER NOT NULL PRIMARY KEY, schema INTEGER NOT NULL) STRICT",
    "CREATE VIEW v AS SELECT 1",
];

// The steps after such a statement. Neither way of opening accepts the store.
const OPENINGS: [Step<'static>; 4] = [
    Open(&[]),
    Migrate(&[]),
    Number(OBJECTS),
    Number("SELECT count(*) FROM about"),
];

fn steps_of(
    alloc: Global,
    before: &[Step<'static>],
    edit: &'static str,
    openings: &[Step<'static>],
) -> Result<Vec<Step<'static>>, AllocError> {
    let mut steps = Vec::from_slice(alloc, before)?;
    steps.push(Batch(edit))?;
    steps.extend_from_slice(openings)?;
    Ok(steps)
}

fn tell_edit(alloc: Global, rt: &impl Abort, row: Wrong) -> Result<(), Fail> {
    let (edit, objects, rows) = row;
    let steps = steps_of(alloc, &[Open(&[])], edit, &OPENINGS)?;
    let wanted = ["open", "wrong schema", "wrong schema", objects, rows];
    tell(alloc, rt, steps.as_slice(), &wanted)
}

fn tell_foreign(alloc: Global, rt: &impl Abort, edit: &'static str) -> Result<(), Fail> {
    let steps = steps_of(alloc, &[], edit, &OPENINGS[..3])?;
    let wanted = ["wrong schema", "wrong schema", "1"];
    tell(alloc, rt, steps.as_slice(), &wanted)
}

/// A store that is neither empty nor an office's is refused, and unchanged.
#[test]
fn wrong_schema(rt: HostRuntime) -> Result<(), Fail> {
    for row in EDITS {
        tell_edit(rt.alloc(), &rt, *row)?;
    }
    for edit in FOREIGN {
        tell_foreign(rt.alloc(), &rt, edit)?;
    }
    Ok(())
}

#[test]
fn wrong_about_of_schema_1(rt: HostRuntime) -> Result<(), Fail> {
    for edit in ["UPDATE about SET schema = 2", "DELETE FROM about"] {
        let steps = [Batch(FIRST), Batch(edit), Migrate(&[]), Open(&[])];
        tell(rt.alloc(), &rt, &steps, &["wrong schema", "wrong schema"])?;
    }
    Ok(())
}
