//! The command `run`, over sockets.

use crate::recorded::{Recorded, recorder_of};
use crate::services::{admission_of, events_of, noting, station_of, trace_of};
use bumpalo::Bump;
use oftp_channel::{Ending, READY};
use oftp_command_line::Run;
use oftp_database::{self as database, PATIENCE, WatchedOffice};
use oftp_files::{EventFile, read_book_octets};
use oftp_life::Life;
use oftp_listing::Site;
use oftp_outcomes::{Fault, Term};
use oftp_register::Office;
use oftp_requests::{bare_answer, codes_of, overdues_of};
use oftp_resident::{Kept, ServiceConfig, SessionLines, Shelf, Start, serve};
use oftp_schedule::connection::Counted;
use oftp_sockets::{Keeper, SocketPlace, Station, bound, socket_fault};
use oftp_watching::News;
use std::alloc::Global;
use std::io::Write;
use std::os::unix::net::UnixListener;

/// For how many seconds a call is connected at most: the system has sent four SYNs by then.
const DIALING: u64 = 15;

/// How many commands wait to be accepted at most, as the system is set up by itself.
const MOST_WAITING: u32 = 4_096;

/// What is written beside the database.
#[derive(Clone, Copy)]
struct Written<'a> {
    /// The file of events, if there is one.
    events: Option<&'a EventFile<'a>>,
    /// The record, if there is one.
    recorded: Recorded<'a>,
}

/// Serves partners and commands over the database, which stays open. Writes a line to `out` when it is ready, and one for each session.
///
/// # Errors
/// [`Fault::Book`], [`Fault::File`], [`Fault::Store`] or [`Fault::Socket`] if the book, the trace, the events, the database or a port can't be
/// opened;
/// those of [`serve`].
pub fn run(
    rt: &HostRuntime,
    line: &Run<'_>,
    sources: &str,
    out: &mut impl Write,
) -> Result<(), Fault> {
    let news = News::new(rt.alloc());
    run_noting(rt, line, sources, &news, out)
}

/// Serves partners and commands as [`run`] says. Its events are noted here.
fn run_noting<'n>(
    rt: &'n HostRuntime,
    line: &Run<'_>,
    sources: &str,
    news: &'n News,
    out: &mut impl Write,
) -> Result<(), Fault> {
    let (octets, book) = read_book_octets(rt, line.files.book)?;
    let life = database::live(rt, line.files.database, PATIENCE, noting(&line.files, news))?;
    let trace = trace_of(rt, &line.files, &line.terms)?;
    let events = events_of(rt, &line.files, news)?;
    let recorder = recorder_of(rt, line.files.record, line.sync, Term::OfService)?;
    let station = station_of(&book, &line.terms, trace.as_ref());
    let recorded = Recorded {
        sources,
        book: octets.as_slice(),
        recorder: recorder.as_ref(),
    };
    let written = Written {
        events: events.as_ref(),
        recorded,
    };
    run_over(rt, line, &station, written, life, out)
}

/// A copy of a name, if there is one.
fn name_of(alloc: Global, name: Option<&str>) -> Result<Option<String>, Fault> {
    match name {
        Some(name) => Ok(Some(String::from_str(alloc, name)?)),
        None => Ok(None),
    }
}

/// A name as text, if there is one.
fn text_of(name: &Option<String>) -> Option<&str> {
    match name {
        Some(name) => Some(name.as_str()),
        None => None,
    }
}

/// Where the station reads its book again.
fn shelf_of<'a>(line: &Run<'a>, room: &'a Bump) -> Option<Shelf<'a>> {
    Some(Shelf {
        path: line.files.book,
        room,
    })
}

/// Serves them in a life over the database.
fn run_over(
    rt: &HostRuntime,
    line: &Run<'_>,
    station: &Station<'_>,
    written: Written<'_>,
    life: Life<WatchedOffice<'_>>,
    out: &mut impl Write,
) -> Result<(), Fault> {
    let Written { events, recorded } = written;
    let codes = codes_of(rt.alloc(), recorded.book)?;
    let limits = overdues_of(rt.alloc(), recorded.book)?;
    let host = name_of(rt.alloc(), line.host)?;
    let partners = bound(rt, line.entrance.address, line.entrance.port)?;
    let requests = match line.http_port {
        0 => None,
        port => Some(bound(rt, line.entrance.address, port)?),
    };
    let place = SocketPlace::beside(rt, line.files.database).map_err(|error| socket_fault(&error))?;
    let commands = place.listen(rt).map_err(|error| socket_fault(&error))?;
    let room = Bump::new(rt.alloc());
    let config = ServiceConfig {
        partners: Some(&partners),
        commands: Some(&commands),
        place: Some(&place),
        requests: requests.as_ref(),
        site: Site::Page(text_of(&host)),
        places: u64::MAX,
        admission: admission_of(&line.entrance, &line.terms),
        dialing: DIALING,
        shelf: shelf_of(line, &room),
        database: line.files.database,
        limits: limits.as_slice(),
        codes: codes.as_slice(),
        interval: line.interval,
        start: Start::Waiting,
        counted: Counted::Jobs,
        jobs: line.jobs,
        events,
        told: line.files.events,
        recorder: recorded.recorder,
    };
    let ended = serve_on(rt, &config, station, recorded, life, out);
    let _ = place.remove(rt);
    dismiss(rt.alloc(), &commands);
    ended
}

/// Serves them, and records the register before and after that.
fn serve_on<O: Office + Drop>(
    rt: &HostRuntime,
    config: &ServiceConfig<'_>,
    station: &Station<'_>,
    recorded: Recorded<'_>,
    life: Life<O>,
    out: &mut impl Write,
) -> Result<(), Fault> {
    let mut kept = Kept::new(life);
    recorded.begin(rt, &mut kept)?;
    serve(rt, config, station, &mut kept, &mut SessionLines::new(out))?;
    recorded.end(rt, &mut kept)
}

/// Answers each command that was never accepted that the station has ended, so that nothing of it was begun.
fn dismiss(alloc: Global, commands: &UnixListener) {
    let answer = bare_answer(alloc, Ending::Failed(Fault::Socket));
    if commands.set_nonblocking(true).is_err() {
        return;
    }
    for _ in 0..MOST_WAITING {
        let Ok((socket, _)) = commands.accept() else {
            return;
        };
        let mut socket = &socket;
        let _ = socket.write(&[READY]);
        let _ = socket.write(answer.as_slice());
    }
}
