//! The commands `listen`, `call` and `http`, over sockets.

use crate::recorded::{Recorded, recorder_of};
use oftp_command_line::{Call, Entrance, Files, Http, Listen, RecordSync, SessionTerms};
use oftp_database::{self as database, Opened};
use oftp_engine::End;
use oftp_files::{EventFile, Trace, book_of, open_events, open_trace, read_book_octets};
use oftp_listing::Site;
use oftp_outcomes::{Fault, Outcome, Term, Trouble, Way, write_line};
use oftp_partners::Book;
use oftp_resident::{ServiceConfig, Start, serve};
use oftp_schedule::connection::Counted;
use oftp_sockets::{Reporter, Station, bound};
use oftp_watching::News;
use std::io::Write;
use std::net::TcpListener;

/// The trace that the command line of a service asks for.
///
/// # Errors
/// Those of [`open_trace`].
pub(crate) fn trace_of<'a>(
    rt: &'a HostRuntime,
    files: &Files<'_>,
    terms: &SessionTerms<'_>,
) -> Result<Option<Trace<'a>>, Fault> {
    open_trace(rt, terms.trace, &[files.book], Some(files.database))
}

/// The file to which the command line of a service has its events appended.
///
/// # Errors
/// Those of [`open_events`].
pub(crate) fn events_of<'a>(
    rt: &'a HostRuntime,
    files: &Files<'_>,
    news: &'a News,
) -> Result<Option<EventFile<'a>>, Fault> {
    open_events(rt, files.events, news, &[files.book], Some(files.database))
}

/// Where accepted changes are noted, if the command line asks for events.
pub(crate) fn noting<'w>(files: &Files<'_>, news: &'w News) -> Option<&'w News> {
    match files.events {
        Some(_) => Some(news),
        None => None,
    }
}

/// How many seconds a caller has to be admitted, which is no longer than a session may take.
pub(crate) fn admission_of(entrance: &Entrance<'_>, terms: &SessionTerms<'_>) -> u64 {
    entrance.admission.min(terms.longest)
}

/// The settings for the sessions of a service.
pub(crate) fn station_of<'a>(
    book: &'a Book,
    terms: &SessionTerms<'_>,
    trace: Option<&'a Trace<'a>>,
) -> Station<'a> {
    Station {
        book,
        patience: terms.patience,
        longest: terms.longest,
        trace,
    }
}

/// A service without doors, codes or a clock.
fn idle_config<'a>(jobs: u64) -> ServiceConfig<'a> {
    ServiceConfig {
        partners: None,
        commands: None,
        place: None,
        requests: None,
        site: Site::Register,
        places: 0,
        admission: 0,
        dialing: 0,
        shelf: None,
        database: "",
        limits: &[],
        codes: &[],
        interval: 0,
        start: Start::Waiting,
        counted: Counted::Jobs,
        jobs,
        events: None,
        told: None,
        recorder: None,
    }
}

/// The settings of a service without sessions.
fn bare_station(book: &Book) -> Station<'_> {
    Station {
        book,
        patience: 0,
        longest: 0,
        trace: None,
    }
}

/// Serves the sessions of partners that call, and writes a line for each: its end to `out`, or its error to `err`.
///
/// # Errors
/// [`Fault::Book`], [`Fault::File`], [`Fault::Store`] or [`Fault::Socket`] if the book, the trace, the events, the record, the database or the port
/// can't be opened; those of [`serve`].
pub fn listen(
    rt: &HostRuntime,
    line: &Listen<'_>,
    sources: &str,
    out: &mut impl Write,
    err: &mut impl Write,
) -> Result<(), Fault> {
    let news = News::new(rt.alloc());
    listen_noting(rt, line, sources, &news, &mut EndLines { out, err })
}

/// Serves the sessions of callers as [`listen`] says. Their events are noted here.
fn listen_noting<'n>(
    rt: &'n HostRuntime,
    line: &Listen<'_>,
    sources: &str,
    news: &'n News,
    reporter: &mut impl Reporter,
) -> Result<(), Fault> {
    let (octets, book) = read_book_octets(rt, line.files.book)?;
    database::make(rt, line.files.database)?;
    let trace = trace_of(rt, &line.files, &line.terms)?;
    let events = events_of(rt, &line.files, news)?;
    let recorder = recorder_of(rt, line.files.record, RecordSync::Synced, Term::OfJob)?;
    let station = station_of(&book, &line.terms, trace.as_ref());
    let listener = bound(rt, line.entrance.address, line.entrance.port)?;
    let keeper = Opened::new(rt, line.files.database, noting(&line.files, news));
    let config = config_of_callers(line, &listener, events.as_ref());
    let config = ServiceConfig {
        recorder: recorder.as_ref(),
        ..config
    };
    let recorded = Recorded {
        sources,
        book: octets.as_slice(),
        recorder: recorder.as_ref(),
    };
    serve_recorded(rt, &config, &station, recorded, keeper, reporter)
}

/// The settings of a service for callers who come to this listener.
fn config_of_callers<'c>(
    line: &Listen<'_>,
    listener: &'c TcpListener,
    events: Option<&'c EventFile<'c>>,
) -> ServiceConfig<'c> {
    ServiceConfig {
        partners: Some(listener),
        places: line.sessions,
        admission: admission_of(&line.entrance, &line.terms),
        events,
        ..idle_config(line.sessions)
    }
}

/// Serves whoever comes, or calls, with a life over the database for each job. Records the register before and after that.
fn serve_recorded(
    rt: &HostRuntime,
    config: &ServiceConfig<'_>,
    station: &Station<'_>,
    recorded: Recorded<'_>,
    keeper: Opened<'_>,
    reporter: &mut impl Reporter,
) -> Result<(), Fault> {
    let mut keeper = keeper;
    recorded.begin(rt, &mut keeper)?;
    serve(rt, config, station, &mut keeper, reporter)?;
    recorded.end(rt, &mut keeper)
}

/// Calls a partner of a book, whose octets are given too, for one session, over a database that isn't locked.
///
/// # Errors
/// [`Fault::File`], [`Fault::Store`] or [`Fault::Socket`] if the trace, the events, the record, the database or the connection can't be opened; those of
/// the session.
pub fn call(
    rt: &HostRuntime,
    line: &Call<'_>,
    sources: &str,
    octets: &[u8],
    book: &Book,
) -> Result<Outcome, Fault> {
    let news = News::new(rt.alloc());
    call_noting(rt, line, sources, octets, book, &news)
}

/// Calls a partner as [`call`] says. The events of that are noted here.
fn call_noting<'n>(
    rt: &'n HostRuntime,
    line: &Call<'_>,
    sources: &str,
    octets: &[u8],
    book: &Book,
    news: &'n News,
) -> Result<Outcome, Fault> {
    let trace = trace_of(rt, &line.files, &line.terms)?;
    let events = events_of(rt, &line.files, news)?;
    let recorder = recorder_of(rt, line.files.record, RecordSync::Synced, Term::OfJob)?;
    let recorded = Recorded {
        sources,
        book: octets,
        recorder: recorder.as_ref(),
    };
    let station = station_of(book, &line.terms, trace.as_ref());
    let code = String::from_str(rt.alloc(), line.partner)?;
    let config = ServiceConfig {
        dialing: station.longest,
        codes: &[code],
        start: Start::Calling,
        events: events.as_ref(),
        recorder: recorded.recorder,
        ..idle_config(1)
    };
    let keeper = Opened::new(rt, line.files.database, noting(&line.files, news));
    end_of_call(rt, &config, &station, recorded, keeper)
}

/// Makes a call, with a life over the database. Returns how it ended.
fn end_of_call(
    rt: &HostRuntime,
    config: &ServiceConfig<'_>,
    station: &Station<'_>,
    recorded: Recorded<'_>,
    keeper: Opened<'_>,
) -> Result<Outcome, Fault> {
    let mut ended = LastEnd { ended: None };
    serve_recorded(rt, config, station, recorded, keeper, &mut ended)?;
    match ended.ended {
        Some(ended) => ended.map(Outcome::Ended),
        None => Err(Fault::Socket),
    }
}

/// A book without partners: nobody is served by it, and nobody called.
const NOBODY: &[u8] = b"[station]\ncode = 'O'\nbuffer = 128\ncredit = 1\nrestart = false\n";

/// Answers HTTP requests about a database. The error of one client is written to `err`.
///
/// # Errors
/// [`Fault::Store`] or [`Fault::Socket`] if the database or the port can't be opened; those of [`serve`].
pub fn http(
    rt: &HostRuntime,
    line: &Http<'_>,
    out: &mut impl Write,
    err: &mut impl Write,
) -> Result<(), Fault> {
    database::make(rt, line.database)?;
    let listener = bound(rt, line.address, line.port)?;
    let config = ServiceConfig {
        requests: Some(&listener),
        counted: Counted::Connections,
        ..idle_config(line.requests)
    };
    let book = book_of(rt.alloc(), NOBODY)?;
    let keeper = Opened::new(rt, line.database, None);
    serve_each(rt, &config, &bare_station(&book), keeper, out, err)
}

/// Serves whoever comes, with a life over the database for each job.
fn serve_each(
    rt: &HostRuntime,
    config: &ServiceConfig<'_>,
    station: &Station<'_>,
    keeper: Opened<'_>,
    out: &mut impl Write,
    err: &mut impl Write,
) -> Result<(), Fault> {
    let mut keeper = keeper;
    serve(rt, config, station, &mut keeper, &mut EndLines { out, err })
}

/// Writes the end of each session to one output, and the error of each session or request to the other. That the error can't be written
/// doesn't matter.
#[derive(Drop)]
struct EndLines<'w, W, E> {
    out: &'w mut W,
    err: &'w mut E,
}

impl<W: Write, E: Write> Reporter for EndLines<'_, W, E> {
    fn begin(&mut self) -> Result<(), Fault> {
        Ok(())
    }

    fn report(
        &mut self,
        _code: Option<&str>,
        _way: Way,
        ended: Result<End, Trouble>,
    ) -> Result<(), Fault> {
        match ended {
            Ok(end) => write_line(self.out, &Outcome::Ended(end)),
            Err(Trouble::OfJob(fault)) => {
                self.refuse(fault);
                Ok(())
            }
            Err(Trouble::OfService(fault)) => Err(fault),
        }
    }

    fn refuse(&mut self, fault: Fault) {
        let _ = write_line(self.err, &fault);
    }
}

/// The end of the last session.
#[derive(Clone, Copy)]
struct LastEnd {
    ended: Option<Result<End, Fault>>,
}

impl Reporter for LastEnd {
    fn begin(&mut self) -> Result<(), Fault> {
        Ok(())
    }

    fn report(
        &mut self,
        _code: Option<&str>,
        _way: Way,
        ended: Result<End, Trouble>,
    ) -> Result<(), Fault> {
        self.ended = Some(ended.map_err(Trouble::fault));
        Ok(())
    }

    fn refuse(&mut self, _fault: Fault) {}
}
