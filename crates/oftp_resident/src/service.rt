//! A service: one loop over a schedule. Each turn tells it the time and what the sockets have, and carries out one action.

use crate::home::Home;
use crate::peer::Peer;
use crate::status::moment;
use crate::telling::{Progress, Waiting};
use crate::watch::{DOORS, Source, Watch, source_of};
use bumpalo::Bump;
use oftp_channel::Haste;
use oftp_events::Event as Happening;
use oftp_files::EventFile;
use oftp_life::Life;
use oftp_listing::Site;
use oftp_outcomes::{Fault, Term};
use oftp_progress::Gauge;
use oftp_recording::Recorder;
use oftp_register::Office;
use oftp_requests::{Closing, Pace, PartnerLimit, closing_of, last_status, result_at};
use oftp_schedule::connection::{Action, Counted, Event, Limits, Signal, Status};
use oftp_schedule::durations::{millis, wait_of};
use oftp_schedule::schedule::Schedule;
use oftp_schedule::sizes::SIZES;
use oftp_sockets::{Keeper, Reporter, SocketPlace, Station, socket_fault};
use oftp_status::Tallies;
use std::alloc::Global;
use std::io;
use std::net::TcpListener;
use std::os::unix::net::UnixListener;
use std::time::{Duration, Instant};

/// For how many connections there is room from the beginning: as many as there are places, and some calls.
const MOST_PLACES: usize = 512;

/// The first moment that can't be told.
const LATEST: u64 = 1 << 63;

/// What a service begins with.
#[derive(Clone, Copy, PartialEq, Eq)]
pub enum Start {
    /// It waits for whoever comes.
    Waiting,
    /// It calls each partner of the list of codes.
    Calling,
}

/// Where a service finds its book, and keeps what it reads of it: the books of earlier callers stay.
#[derive(Clone, Copy)]
pub struct Shelf<'a> {
    /// The book's file.
    pub path: &'a str,
    /// What was read.
    pub room: &'a Bump,
}

/// The listeners and settings of a service. [`serve`] makes its listeners non-blocking.
#[derive(Clone, Copy)]
pub struct ServiceConfig<'a> {
    /// The listener for partners, if there is one.
    pub partners: Option<&'a TcpListener>,
    /// The listener for commands, if there is one.
    pub commands: Option<&'a UnixListener>,
    /// Where that is, beside the database.
    pub place: Option<&'a SocketPlace>,
    /// The listener for HTTP, if there is one.
    pub requests: Option<&'a TcpListener>,
    /// What requests over HTTP are answered.
    pub site: Site<'a>,
    /// How many partners at most are connected at once, of the 128 places.
    pub places: u64,
    /// How many seconds a caller has to be admitted.
    pub admission: u64,
    /// How many seconds a call has to be connected; each as long as its partner may be idle if that is less.
    pub dialing: u64,
    /// Where it reads its book again, if it may.
    pub shelf: Option<Shelf<'a>>,
    /// The database's file.
    pub database: &'a str,
    /// How long something of a partner may wait, of those partners that have this for themselves.
    pub limits: &'a [PartnerLimit],
    /// The codes of the partners, in their order.
    pub codes: &'a [String],
    /// The seconds after which each partner is called that something waits for; 0 is never.
    pub interval: u64,
    /// What it begins with.
    pub start: Start,
    /// What is counted as a job.
    pub counted: Counted,
    /// The number of jobs after which it ends; 0 is never.
    pub jobs: u64,
    /// The file to which its events are appended, if there is one.
    pub events: Option<&'a EventFile<'a>>,
    /// The path of that file, if requests over HTTP are told its last events.
    pub told: Option<&'a str>,
    /// The record of its sessions and of the operators' calls, if there is one.
    pub recorder: Option<&'a Recorder<'a>>,
}

/// A running service.
#[derive(Drop)]
pub(crate) struct Shell<'a> {
    pub(crate) rt: &'a HostRuntime,
    pub(crate) station: Station<'a>,
    pub(crate) config: ServiceConfig<'a>,
    pub(crate) schedule: Schedule,
    pub(crate) peers: Vec<Peer<'a>>,
    pub(crate) watch: Watch,
    began: Instant,
    // How the clock stands with each partner of the list.
    pub(crate) paces: Vec<Pace>,
    // The octets of the book that it has read since it began, if it has.
    pub(crate) latest: &'a [u8],
    // Whether it was told to end, and how.
    pub(crate) stop: Option<Haste>,
    /// How many sessions have begun.
    pub(crate) sessions: u64,
    /// The events that are to be written.
    pub(crate) waiting: Vec<Waiting>,
    // When the record last had the register, in milliseconds since it began.
    pub(crate) marked: u64,
    // When it began, and when it last looked for whom something waits, in seconds since 1970.
    pub(crate) since: u64,
    pub(crate) reviewed: u64,
    /// What is counted.
    pub(crate) counters: Tallies,
    /// How many events that couldn't be written are among that.
    pub(crate) lost: u64,
    /// What shows how far its call came, if it only calls.
    pub(crate) gauge: Option<Gauge<'a>>,
    // The error with which it ends, if there is one.
    fault: Option<Fault>,
}

/// Serves whoever comes, and calls, in lives that a keeper has; a reporter is told the end of each session.
///
/// # Errors
/// The error with which a keeper, a job or the reporter ended it; [`Fault::Socket`] for one of a listener or of the clock; [`Fault::MEMORY`].
/// The jobs that were done stay done.
pub fn serve<O: Office + Drop>(
    rt: &HostRuntime,
    config: &ServiceConfig<'_>,
    station: &Station<'_>,
    keeper: &mut impl Keeper<Life<O>>,
    reporter: &mut impl Reporter,
) -> Result<(), Fault> {
    let watch = watch_over(rt, config).map_err(|error| socket_fault(&error))?;
    let alloc = rt.alloc();
    let limits = limits_of(config, station);
    let began = Instant::now(rt).map_err(|_| Fault::Socket)?;
    let schedule = Schedule::new(alloc, limits)?;
    let peers = Vec::with_capacity(alloc, MOST_PLACES)?;
    let paces = paces_of(alloc, config.codes)?;
    let since = moment(rt);
    let mut shell = Shell {
        rt,
        station: *station,
        config: *config,
        schedule,
        peers,
        watch,
        began,
        paces,
        latest: &[],
        stop: None,
        sessions: 0,
        waiting: Vec::new(alloc),
        marked: 0,
        since,
        reviewed: since,
        counters: Tallies::new(alloc),
        lost: 0,
        gauge: gauge_of(rt, config.start),
        fault: None,
    };
    reporter.begin()?;
    tell_program(config, Happening::Started);
    shell.serve(keeper, reporter)?;
    tell_program(config, Happening::Stopped);
    Ok(())
}

/// Writes an event of the program, unless it only calls.
fn tell_program(config: &ServiceConfig<'_>, event: Happening) {
    if let (Start::Waiting, Some(events)) = (config.start, config.events) {
        events.tell_plain(event);
    }
}

/// What shows how far the call of a service came that only calls.
fn gauge_of(rt: &HostRuntime, start: Start) -> Option<Gauge<'_>> {
    match start {
        Start::Calling => Some(Gauge::new(rt)),
        Start::Waiting => None,
    }
}

/// How the clock stands with each partner of a list at first.
pub(crate) fn paces_of(alloc: Global, codes: &[String]) -> Result<Vec<Pace>, Fault> {
    let mut paces = Vec::new(alloc);
    for _ in codes {
        paces.push(Pace::new())?;
    }
    Ok(paces)
}

/// Watches the listeners.
fn watch_over(rt: &HostRuntime, config: &ServiceConfig<'_>) -> io::Result<Watch> {
    let watch = Watch::new(rt)?;
    for (place, door) in DOORS.iter().enumerate() {
        if let Some(descriptor) = config.opened(*door)? {
            watch.add(Source::Door(place), descriptor)?;
        }
    }
    Ok(watch)
}

/// The limits of the schedule.
fn limits_of(config: &ServiceConfig<'_>, station: &Station<'_>) -> Limits {
    let most = u32::try_from(config.places).unwrap_or(u32::MAX);
    Limits {
        partners: most.min(SIZES.partners),
        admission: millis(config.admission),
        patience: wait_of(station.patience),
        longest: millis(station.longest),
        dialing: millis(config.dialing),
        interval: millis(config.interval),
        counted: config.counted,
        jobs: config.jobs,
        ..SIZES
    }
}

/// The connection with a number, if it is there.
pub(crate) fn peer_in<'p, 'a>(peers: &'p mut [Peer<'a>], id: u64) -> Option<&'p mut Peer<'a>> {
    peers.iter_mut().find(|peer| peer.id == id)
}

impl<'a> Shell<'a> {
    /// Works until the service ends.
    fn serve<O: Office + Drop>(
        &mut self,
        keeper: &mut impl Keeper<Life<O>>,
        reporter: &mut impl Reporter,
    ) -> Result<(), Fault> {
        if self.config.start == Start::Calling {
            self.call_all()?;
        }
        let status = self.work(keeper, reporter)?;
        match result_at(self.fault, last_status(self.stop, status)) {
            Some(fault) => Err(fault),
            None => Ok(()),
        }
    }

    /// Lets the service end with an error, unless it does so with another one.
    pub(crate) fn fail(&mut self, fault: Fault) -> Result<(), Fault> {
        if self.fault.is_none() {
            self.fault = Some(fault);
        }
        self.say(Event::Over(Status::OfficeFailed))
    }

    /// Carries out one action after another, up to the end. Returns why it ends.
    fn work<O: Office + Drop>(
        &mut self,
        keeper: &mut impl Keeper<Life<O>>,
        reporter: &mut impl Reporter,
    ) -> Result<Status, Fault> {
        let mut home = Home::Away;
        for _ in 0..u64::MAX {
            let action = self.next_action()?;
            if let Some(Action::Exit(status)) = action {
                self.tell_events(&mut home, keeper);
                self.give_back(&mut home, keeper);
                return Ok(status);
            }
            self.take_turn(action, &mut home, keeper, reporter)?;
        }
        Ok(Status::Stopped)
    }

    /// Carries out an action, if there is one, gives a life that isn't in a session back to its keeper, and waits for the sockets.
    fn take_turn<O: Office + Drop>(
        &mut self,
        action: Option<Action>,
        home: &mut Home<'a, O>,
        keeper: &mut impl Keeper<Life<O>>,
        reporter: &mut impl Reporter,
    ) -> Result<(), Fault> {
        if let Some(action) = action {
            self.carry_out(action, home, keeper, reporter)?;
            self.note_events(action, home.progress());
            self.show_call();
        }
        self.tell_in_time(action.is_some(), home, keeper);
        self.mark_in_time(home, keeper)?;
        self.give_back(home, keeper);
        self.wait(action.is_some(), home.progress())
    }

    /// Gives a life that isn't in a session back to its keeper.
    fn give_back<O: Office + Drop>(
        &self,
        home: &mut Home<'_, O>,
        keeper: &mut impl Keeper<Life<O>>,
    ) {
        if let Some(life) = home.take() {
            keeper.close(self.rt, life);
        }
    }

    /// The next action, after the schedule was told the time and what the sockets have. What comes counts from the time at which it is told, and not from
    /// before the wait for it.
    fn next_action(&mut self) -> Result<Option<Action>, Fault> {
        self.tell_time()?;
        self.attend_all()?;
        Ok(self.schedule.poll_action()?)
    }

    /// Carries out an action.
    fn carry_out<O: Office + Drop>(
        &mut self,
        action: Action,
        home: &mut Home<'a, O>,
        keeper: &mut impl Keeper<Life<O>>,
        reporter: &mut impl Reporter,
    ) -> Result<(), Fault> {
        match action {
            Action::Begin(id) => self.begin(id, home, keeper)?,
            Action::Hear(id) => self.hear(id, home)?,
            Action::Look(id) => self.look(id, home, keeper)?,
            Action::Change(id) => self.change(id, home, keeper)?,
            Action::Review => self.review(home, keeper)?,
            Action::Cut(_) => home.end(),
            Action::Print(id, reason) => self.print(id, reason, reporter)?,
            Action::Close(id, _) => self.close(id, keeper.term(), reporter)?,
            Action::Accept(id, door) => self.accept(id, door)?,
            Action::Answer(id) => self.answer(id)?,
            Action::Decline(id, reason) => self.decline(id, reason)?,
            Action::Copy(id) => self.let_copy(id, home, keeper)?,
            Action::Resolve(id) => self.resolve(id)?,
            Action::Dial(id) => self.dial(id)?,
            Action::Part(id) => self.part(id),
            Action::HangUp(id) => self.hang_up(id),
            Action::Shut | Action::Exit(_) => {}
        }
        Ok(())
    }

    /// Closes a connection. The error of a request that has no answer for it is told.
    fn close(&mut self, id: u64, term: Term, reporter: &mut impl Reporter) -> Result<(), Fault> {
        let trouble = match peer_in(&mut self.peers, id) {
            Some(peer) => peer.trouble(),
            None => None,
        };
        // A command that was killed within its request has left its name.
        self.take_name(id);
        self.peers.retain(|peer| peer.id != id);
        match closing_of(trouble, term) {
            Closing::Nothing => Ok(()),
            Closing::Tell(fault) => {
                reporter.refuse(fault);
                Ok(())
            }
            Closing::Fail(fault) => self.fail(fault),
        }
    }

    /// Tells the schedule something.
    ///
    /// # Errors
    /// Out of memory.
    pub(crate) fn say(&mut self, event: Event) -> Result<(), Fault> {
        match event {
            Event::Passed(time) => {
                if time < LATEST {
                    self.schedule.handle(Event::Passed(time))?;
                }
            }
            other => self.schedule.handle(other)?,
        }
        Ok(())
    }

    /// Tells the schedule something of a connection.
    ///
    /// # Errors
    /// Out of memory.
    pub(crate) fn tell(&mut self, id: u64, signal: Signal) -> Result<(), Fault> {
        self.say(Event::Told(id, signal))
    }

    /// Tells the schedule the time, and then something of a connection that took a while: whoever is waited for after it has all of that wait.
    ///
    /// # Errors
    /// The clock can't be read; out of memory.
    pub(crate) fn tell_now(&mut self, id: u64, signal: Signal) -> Result<(), Fault> {
        self.tell_time()?;
        self.tell(id, signal)
    }

    /// Tells the schedule the time.
    ///
    /// # Errors
    /// The clock can't be read; out of memory.
    pub(crate) fn tell_time(&mut self) -> Result<(), Fault> {
        let time = self.now()?;
        self.say(Event::Passed(time))
    }

    /// The milliseconds since the service began.
    pub(crate) fn now(&self) -> Result<u64, Fault> {
        match self.began.elapsed(self.rt) {
            Ok(passed) => Ok(u64::try_from(passed.as_millis()).unwrap_or(LATEST)),
            Err(_) => Err(Fault::Socket),
        }
    }

    /// Waits for the sockets, and notes what they have. After an action it only looks.
    fn wait(&mut self, has_acted: bool, progress: Progress) -> Result<(), Fault> {
        let limit = if has_acted || self.peers.iter().any(|peer| peer.is_ready()) {
            Some(Duration::from_millis(0))
        } else {
            self.limit(progress)?
        };
        if self.watch.wait(limit).is_err() {
            return Err(Fault::Socket);
        }
        self.heed()
    }

    /// How long the wait may be.
    fn limit(&self, progress: Progress) -> Result<Option<Duration>, Fault> {
        let marking = self.mark_time(progress)?.left();
        match (self.schedule.poll_timeout(), marking) {
            (Some(time), marking) => {
                let left = time.saturating_sub(self.now()?);
                let left = left.min(marking.unwrap_or(LATEST));
                Ok(Some(Duration::from_millis(left)))
            }
            (None, Some(left)) => Ok(Some(Duration::from_millis(left))),
            (None, None) => Ok(None),
        }
    }

    /// Notes what the sockets have.
    fn heed(&mut self) -> Result<(), Fault> {
        let mut knocked = [false; DOORS.len()];
        for event in self.watch.events.iter() {
            match source_of(event) {
                Source::Door(place) => {
                    if let Some(knocked) = knocked.get_mut(place) {
                        *knocked = true;
                    }
                }
                Source::Connection(id) => {
                    if let Some(peer) = peer_in(&mut self.peers, id) {
                        let readiness = &mut peer.readiness;
                        readiness.is_readable |= event.is_readable() || event.is_read_closed();
                        readiness.is_writable |= event.is_writable() || event.is_write_closed();
                        readiness.is_gone |= event.is_write_closed();
                    }
                }
            }
        }
        for (door, knocked) in DOORS.iter().zip(knocked.iter()) {
            if *knocked {
                self.say(Event::Knock(*door))?;
            }
        }
        Ok(())
    }
}
