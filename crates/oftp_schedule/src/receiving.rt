//! What is told to the schedule.

ghost use Rattle.std.specs.Prelude.{◌≡◌, ◌+◌, ◌++◌, ◌^◌, ◌<◌, ◌≤◌, ◌∷◌, [], OnOk, IfOk, OnErr, map, filter};
ghost use Rattle.oftp_schedule.specs.Rules.{became};
ghost use Rattle.oftp_schedule.specs.Machine.{with_connections, is_ending, hasty, limits_now, IsInTime, and_then, received, told, accepted, accepted_at, came, evicted, makes_room, places, gate, with_gate, knocked, first_phase, called, worse, passed, rested, due_to, reviewed, is_reviewing};

use crate::connection::{
    Arrival, Asker, Clock, Connection, Course, Door, Event, Gate, Limits, Millis, Partner, Phase,
    Reason, Reply, Signal, Status,
};
use crate::replying::{in_numbers, new_call};
use crate::schedule::{LAST, Schedule};
use crate::{rules, table};
use std::alloc::AllocError;

/// How many connections a door may have.
pub(crate) fn places(limits: &Limits, door: Door) -> u32
    ensures { result ≡ places limits.now door }
{
    match door {
        Door::Partners => limits.partners,
        Door::Commands => limits.commands,
        Door::Requests => limits.requests,
        Door::Calls => 0,
    }
}

/// Whether no job begins any more.
pub(crate) fn is_ending(course: Course) -> bool
    ensures { result ≡ is_ending course }
{
    !matches!(course, Course::Serving)
}

/// The limits once the station ends: answers have no longer than last octets do, and gain no time.
fn hasty(limits: &Limits) -> Limits
    ensures { result ≡ hasty limits.now }
{
    Limits {
        asking: 0,
        requesting: 0,
        ..*limits
    }
}

/// A door at which somebody waits. One that rests does so to its end.
fn knocked(gate: Gate) -> Gate
    ensures { result ≡ knocked gate }
{
    match gate {
        Gate::Resting(until) => Gate::Resting(until),
        _ => Gate::Knocked,
    }
}

/// A door at this moment.
fn rested(now: Millis, gate: Gate) -> Gate
    ensures { result ≡ rested now gate }
{
    match gate {
        Gate::Resting(until) if until <= now => Gate::Knocked,
        other => other,
    }
}

/// The phase of one who has come.
fn first_phase(now: Millis, limits: &Limits, door: Door) -> Phase
    requires { now < 2 ^ 63 }
    ensures { result ≡ first_phase now limits.now door }
{
    match door {
        Door::Partners => Phase::Stranger(
            now + u64::from(limits.admission),
            now + u64::from(limits.shelter),
        ),
        Door::Requests => Phase::Asking(now + u64::from(limits.requesting)),
        _ => Phase::Asking(now + u64::from(limits.asking)),
    }
}

/// The worse of two causes.
fn worse(one: Status, other: Status) -> Status
    ensures { result ≡ worse one other }
{
    match one {
        Status::OfficeFailed => one,
        _ => match other {
            Status::OfficeFailed => other,
            _ => one,
        },
    }
}

/// The course of a station that is to end.
fn called(status: Status, course: Course) -> Course
    ensures { result ≡ called status course }
{
    match course {
        Course::Serving => Course::Called(status),
        Course::Called(before) => Course::Called(worse(before, status)),
        Course::Ending(before) => Course::Ending(worse(before, status)),
        Course::Past => Course::Past,
    }
}

impl Schedule {
    /// Takes in what has happened.
    pub(crate) fn receive(&mut self, event: Event) -> Result<(), AllocError>
        requires { IsInTime event }
        ensures { OnOk result (self.new ≡ and_then self.old (received self.old.0 event)) }
    {
        match event {
            Event::Knock(door) => self.set_gate(door, knocked(self.gate(door))),
            Event::Accepted(id, arrival) => return self.accept(id, arrival),
            Event::Passed(time) => self.pass(time),
            Event::Told(id, signal) => return self.hear(id, signal),
            Event::Due(partner) => return self.want(partner),
            Event::Reviewed => self.end_review(),
            Event::Over(status) => self.course = called(status, self.course),
        }
        Ok(())
    }

    /// The limits at this moment.
    pub(crate) fn limits_now(&self) -> Limits
        ensures { result ≡ limits_now self.now.0 }
    {
        if is_ending(self.course) {
            hasty(&self.limits)
        } else {
            self.limits
        }
    }

    /// Whether somebody waits at a door.
    pub(crate) fn gate(&self, door: Door) -> Gate
        ensures { result ≡ gate self.now.0 door }
    {
        match door {
            Door::Partners => self.partners,
            Door::Commands => self.commands,
            Door::Requests => self.requests,
            Door::Calls => Gate::Quiet,
        }
    }

    fn set_gate(&mut self, door: Door, gate: Gate)
        ensures { self.new ≡ (with_gate self.old.0 door gate, self.old.1) }
    {
        match door {
            Door::Partners => self.partners = gate,
            Door::Commands => self.commands = gate,
            Door::Requests => self.requests = gate,
            Door::Calls => {}
        }
    }

    /// It is this moment now.
    fn pass(&mut self, time: Millis)
        requires { time < 2 ^ 63 }
        ensures { self.new ≡ (passed self.old.0 time, self.old.1) }
    {
        let now = self.time.max(time);
        self.time = now;
        self.partners = rested(now, self.partners);
        self.commands = rested(now, self.commands);
        self.requests = rested(now, self.requests);
    }

    /// This was told of the connection with this number.
    fn hear(&mut self, id: u64, signal: Signal) -> Result<(), AllocError>
        ensures { OnOk result (self.new ≡ and_then self.old (told self.old.0 id signal)) }
    {
        match table::at(&self.connections, id) {
            Some(connection) => {
                let reply = rules::reply(
                    self.time,
                    &self.limits_now(),
                    connection.door,
                    connection.phase,
                    signal,
                );
                self.settle(connection, reply)
            }
            None => Ok(()),
        }
    }

    /// This came of accepting the connection with this number.
    fn accept(&mut self, id: u64, arrival: Arrival) -> Result<(), AllocError>
        ensures { OnOk result (self.new ≡ and_then self.old (received self.old.0 (Event.Accepted id arrival))) }
    {
        match table::at(&self.connections, id) {
            Some(connection) if rules::is_arriving(connection.phase) => {
                self.end_arrival(connection, arrival)
            }
            _ => Ok(()),
        }
    }

    fn end_arrival(&mut self, connection: Connection, arrival: Arrival) -> Result<(), AllocError>
        ensures { OnOk result (self.new ≡ and_then self.old (accepted self.old.0 connection arrival)) }
    {
        if arrival == Arrival::Somebody {
            return self.welcome(connection);
        }
        table::remove(&mut self.connections, connection.id);
        match arrival {
            Arrival::Later => {
                let until = self.time + u64::from(self.limits.rest);
                self.set_gate(connection.door, Gate::Resting(until));
            }
            Arrival::Never => self.course = called(Status::DoorFailed, self.course),
            _ => self.set_gate(connection.door, Gate::Quiet),
        }
        Ok(())
    }

    /// Somebody has come. At a door that is too full the oldest stranger leaves for it.
    fn welcome(&mut self, connection: Connection) -> Result<(), AllocError>
        ensures { OnOk result (self.new ≡ and_then self.old (came self.old.0 connection)) }
    {
        let phase = first_phase(self.time, &self.limits, connection.door);
        self.set_phase(connection.id, phase);
        self.make_room(connection.door)
    }

    fn set_phase(&mut self, id: u64, phase: Phase)
        ensures { self.new ≡ (with_connections self.old.0 (map (became id phase) self.old.0.connections), self.old.1) }
    {
        table::set_phase(&mut self.connections, id, phase);
    }

    fn make_room(&mut self, door: Door) -> Result<(), AllocError>
        ensures { OnOk result (self.new ≡ and_then self.old (evicted self.old.0 (makes_room self.old.0 door))) }
    {
        match self.leaver(door) {
            Some(stranger) => self.settle(stranger, Reply::Leave(Reason::Evicted)),
            None => Ok(()),
        }
    }

    /// The stranger that leaves a door that is too full.
    fn leaver(&self, door: Door) -> Option<Connection>
        ensures { result ≡ makes_room self.now.0 door }
    {
        let most = places(&self.limits, door) as usize;
        if most < table::count_at(&self.connections, door) {
            table::first_ripe(&self.connections, self.time)
        } else {
            None
        }
    }

    /// Something waits for a partner. It is called, unless the clock calls it already.
    fn want(&mut self, partner: Partner) -> Result<(), AllocError>
        ensures { OnOk result (self.new ≡ and_then self.old (received self.old.0 (Event.Due partner))) }
    {
        let is_called = table::is_called_by_clock(&self.connections, partner.number);
        if is_called || self.next >= LAST {
            return Ok(());
        }
        let call = new_call(&self.limits, partner, Asker::ByClock);
        self.connections.push(Connection {
            id: self.next,
            door: Door::Calls,
            phase: Phase::Wanted(call),
        })?;
        self.next += 1;
        Ok(())
    }

    /// All for whom something waits were told.
    fn end_review(&mut self)
        ensures { self.new ≡ (reviewed self.old.0 self.old.0.clock, self.old.1) }
    {
        if let Clock::Reviewing = self.clock {
            self.clock = Clock::At(self.time + u64::from(self.limits.interval));
        }
    }
}
