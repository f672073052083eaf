//! Runs steps with an office in memory, and with one over a database. Only this file names the type of the office.

use crate::asking::{Ask, answer, line};
use oftp_register::{Office, OfficeFault, PlainOffice, are_limits};
use oftp_store::{OpenRefused, SqlOffice, migrate_at, open_at};
use oftp_tables::StoreFault;
use oftp_vfile::Limits;
use sqlite::{Alter, Connection, Error, FileStore, Files, Options, Unknown};
use sqlite_disk::{Crash, Disk, Fuse, Memory};
use std::alloc::{AllocError, Global};
use std::io;
use std::test::Fail;

/// Limits with few files in a table.
pub const FEW: Limits = Limits {
    files: 3,
    octets: 67_108_864,
};

/// A step with a database, or with an office.
#[derive(Clone, Copy, Drop)]
pub enum Step<'a> {
    /// Opens the office. Gives a line that it is open, and a line for each look-up.
    Open(&'a [Ask]),
    /// The same, after a migration of the database to schema 2.
    Migrate(&'a [Ask]),
    /// Executes statements, without a line.
    Batch(&'static str),
    /// Gives a line with the number that a statement selects.
    Number(&'static str),
}

/// The octets of a database's two files.
#[derive(Drop)]
pub struct Image {
    log: Vec<u8>,
    db: Vec<u8>,
}

impl Image {
    /// Two empty files.
    pub fn empty(alloc: Global) -> Image {
        Image {
            log: Vec::new(alloc),
            db: Vec::new(alloc),
        }
    }
}

/// A simulated crash: which file fails, from which call on, and whether writes without a sync are kept.
#[derive(Clone, Copy, Drop)]
pub struct Stop {
    pub in_log: bool,
    pub calls: u64,
    pub stays: bool,
}

pub const NO_STOP: Stop = Stop {
    in_log: true,
    calls: u64::MAX,
    stays: true,
};

/// More calls than a run makes.
pub const MOST_CALLS: u64 = 100_000;

/// Either file, with both states that a crash may leave.
pub const STOPS: [Stop; 4] = [
    Stop {
        in_log: true,
        calls: 0,
        stays: true,
    },
    Stop {
        in_log: true,
        calls: 0,
        stays: false,
    },
    Stop {
        in_log: false,
        calls: 0,
        stays: true,
    },
    Stop {
        in_log: false,
        calls: 0,
        stays: false,
    },
];

// Adds a line. If there is no memory for it, it is missing, which fails the test.
fn say(alloc: Global, said: &mut Vec<String>, words: &str) {
    if let Ok(words) = line(alloc, words) {
        let _ = said.push(words);
    }
}

fn fault_words(fault: OfficeFault) -> &'static str {
    match fault {
        OfficeFault::Memory => "fault of memory",
        _ => "fault of the store",
    }
}

fn refusal_words(fault: StoreFault) -> &'static str {
    match fault {
        StoreFault::Store => "store",
        StoreFault::Memory => "memory",
        StoreFault::WrongSchema => "wrong schema",
    }
}

// Does look-ups up to the first error.
fn ask_all<O: Office>(alloc: Global, office: &mut O, asks: &[Ask], said: &mut Vec<String>) {
    say(alloc, said, "open");
    for ask in asks {
        match answer(alloc, office, *ask) {
            Ok(words) => {
                let _ = said.push(words);
            }
            Err(fault) => return say(alloc, said, fault_words(fault)),
        }
    }
}

/// Runs steps with an office in memory, which has no database.
pub fn play_plain(alloc: Global, limits: Limits, steps: &[Step<'_>]) -> Vec<String> {
    let mut said = Vec::new(alloc);
    if !are_limits(limits) {
        say(alloc, &mut said, "no office is opened so");
        return said;
    }
    let mut office = PlainOffice::new(alloc, limits);
    for step in steps {
        if let Step::Open(asks) = step {
            ask_all(alloc, &mut office, asks, &mut said);
        }
    }
    said
}

// Does look-ups with an opened office, and returns its connection.
fn use_office<S: Alter>(
    alloc: Global,
    opened: Result<SqlOffice<S>, OpenRefused<S>>,
    asks: &[Ask],
    said: &mut Vec<String>,
) -> Connection<S> {
    match opened {
        Ok(office) => {
            let mut office = office;
            ask_all(alloc, &mut office, asks, said);
            office.into_conn()
        }
        Err(OpenRefused { fault, conn }) => {
            say(alloc, said, refusal_words(fault));
            conn
        }
    }
}

// These have no clauses, so that the proof of a step doesn't carry the state of each call.
fn batch<S: Alter>(conn: &mut Connection<S>, sql: &str) -> Result<(), Error> {
    conn.execute_batch(sql)
}

fn say_fault(alloc: Global, said: &mut Vec<String>, done: Result<(), Error>) {
    if done.is_err() {
        say(alloc, said, "not carried out");
    }
}

fn number<S: Alter>(conn: &mut Connection<S>, sql: &str) -> Result<i64, Error> {
    conn.query_row(sql, &[])?.get(0)
}

fn say_number(alloc: Global, said: &mut Vec<String>, number: Result<i64, Error>) {
    if let Ok(number) = number
        && let Ok(words) = format!(in alloc; "{number}")
    {
        let _ = said.push(words);
    }
}

// Runs a step on a connection.
fn take<S: Alter>(
    alloc: Global,
    limits: Limits,
    step: Step<'_>,
    conn: Connection<S>,
    said: &mut Vec<String>,
) -> Connection<S> {
    let mut conn = conn;
    if !conn.is_autocommit() || !are_limits(limits) {
        say(alloc, said, "no office is opened so");
        return conn;
    }
    match step {
        Step::Open(asks) => use_office(alloc, SqlOffice::open(alloc, conn, limits), asks, said),
        Step::Migrate(asks) => {
            use_office(alloc, SqlOffice::migrate(alloc, conn, limits), asks, said)
        }
        Step::Batch(sql) => {
            let done = batch(&mut conn, sql);
            say_fault(alloc, said, done);
            conn
        }
        Step::Number(sql) => {
            let found = number(&mut conn, sql);
            say_number(alloc, said, found);
            conn
        }
    }
}

fn take_all<S: Alter>(
    alloc: Global,
    limits: Limits,
    steps: &[Step<'_>],
    conn: Connection<S>,
    said: &mut Vec<String>,
) -> Connection<S> {
    let mut conn = conn;
    for step in steps {
        conn = take(alloc, limits, *step, conn, said);
    }
    conn
}

// A file that fails after this many calls.
fn file_of(alloc: Global, octets: &[u8], calls: u64) -> io::Result<Fuse<Memory>> {
    let mut file = Memory::new(alloc);
    file.write_at(0, octets)?;
    file.sync()?;
    Ok(Fuse::new(file, calls))
}

fn files_of(alloc: Global, image: &Image, stop: Stop) -> io::Result<Files<Fuse<Memory>>> {
    let (log, db) = if stop.in_log {
        (stop.calls, u64::MAX)
    } else {
        (u64::MAX, stop.calls)
    };
    Ok(Files {
        log: file_of(alloc, image.log.as_slice(), log)?,
        db: file_of(alloc, image.db.as_slice(), db)?,
    })
}

// The octets of a file after a crash.
fn octets_of(alloc: Global, file: Fuse<Memory>, stop: Stop) -> Result<Vec<u8>, Fail> {
    let mut file = file;
    if !stop.stays {
        file.crash();
    }
    Ok(Vec::from_slice(alloc, file.inner().bytes())?)
}

fn image_of(alloc: Global, files: Files<Fuse<Memory>>, stop: Stop) -> Result<Image, Fail> {
    let Files { log, db } = files;
    Ok(Image {
        log: octets_of(alloc, log, stop)?,
        db: octets_of(alloc, db, stop)?,
    })
}

// A connection that copies its log into the database often.
fn connect<D: Disk + Drop>(
    alloc: Global,
    files: Files<D>,
) -> Result<Connection<FileStore<D>>, Files<D>> {
    if !files.may_be_used() {
        return Err(files);
    }
    let mut options = Options::new(1);
    options.checkpoint_frames = 8;
    match Connection::open_files(alloc, files, options) {
        Ok(conn) => Ok(conn),
        Err((_, left)) => Err(left.into_files()),
    }
}

// Runs steps on files, and returns them. The files aren't used after the last step.
fn play_on<D: Disk + Drop>(
    alloc: Global,
    limits: Limits,
    steps: &[Step<'_>],
    files: Files<D>,
    said: &mut Vec<String>,
) -> Files<D> {
    match connect(alloc, files) {
        Ok(conn) => take_all(alloc, limits, steps, conn, said)
            .into_store()
            .close(),
        Err(left) => {
            say(alloc, said, "no connection");
            left
        }
    }
}

/// The lines of a run over a database, and the files after it.
#[derive(Drop)]
pub struct Played {
    pub said: Vec<String>,
    pub left: Image,
}

/// Runs steps over a database in memory, up to a crash.
pub fn play(
    alloc: Global,
    limits: Limits,
    steps: &[Step<'_>],
    image: &Image,
    stop: Stop,
) -> Result<Played, Fail> {
    let mut said = Vec::new(alloc);
    let files = files_of(alloc, image, stop)?;
    let files = play_on(alloc, limits, steps, files, &mut said);
    let left = image_of(alloc, files, stop)?;
    Ok(Played { said, left })
}

/// Whether the line at an index is this one.
pub fn is_at(lines: &[String], at: usize, wanted: &str) -> bool {
    match lines.get(at) {
        Some(line) => line.as_str() == wanted,
        None => false,
    }
}

/// Compares lines.
///
/// # Errors
/// A line differs, or there are more of them than wanted.
pub fn same(alloc: Global, found: &[String], wanted: &[String]) -> Result<(), Fail> {
    for (at, line) in wanted.iter().enumerate() {
        let line = line.as_str();
        if !is_at(found, at, line) {
            return Err(format!(in alloc; "line {at} isn't {line}")?.into());
        }
    }
    if found.len() != wanted.len() {
        return Err("there are more lines than wanted".into());
    }
    Ok(())
}

/// Runs steps with an office in memory and with one over an empty database, and returns the lines.
///
/// # Errors
/// The lines of the two differ.
pub fn play_both(alloc: Global, limits: Limits, steps: &[Step<'_>]) -> Result<Vec<String>, Fail> {
    let wanted = play_plain(alloc, limits, steps);
    let played = play(alloc, limits, steps, &Image::empty(alloc), NO_STOP)?;
    same(alloc, played.said.as_slice(), wanted.as_slice())?;
    Ok(wanted)
}

// Opens the office before each part of the look-ups.
fn openings_of<'a>(
    alloc: Global,
    asks: &'a [Ask],
    part: usize,
) -> Result<Vec<Step<'a>>, AllocError> {
    let mut steps = Vec::new(alloc);
    for asks in asks.chunks(part.max(1)) {
        steps.push(Step::Open(asks))?;
    }
    Ok(steps)
}

/// The same for look-ups. The office over the database is opened again after each part of them.
pub fn play_in_parts(
    alloc: Global,
    limits: Limits,
    asks: &[Ask],
    part: usize,
) -> Result<Vec<String>, Fail> {
    let steps = openings_of(alloc, asks, part)?;
    play_both(alloc, limits, steps.as_slice())
}

// Does look-ups with an office, and drops it.
fn use_once<S: Alter + Drop>(
    alloc: Global,
    office: SqlOffice<S>,
    asks: &[Ask],
    said: &mut Vec<String>,
) {
    let _ = use_office(alloc, Ok(office), asks, said);
}

/// Opens the office of the files at a path, after a migration if `is_migrated`, and does look-ups.
pub fn play_at(
    rt: &HostRuntime,
    path: &str,
    is_migrated: bool,
    asks: &[Ask],
) -> Result<Vec<String>, Fail> {
    let mut said = Vec::new(rt.alloc());
    let opened = if is_migrated {
        migrate_at(rt, path, FEW, Unknown)
    } else {
        open_at(rt, path, FEW, Unknown)
    };
    match opened {
        Ok(office) => use_once(rt.alloc(), office, asks, &mut said),
        Err(_) => return Err("not opened".into()),
    }
    Ok(said)
}
