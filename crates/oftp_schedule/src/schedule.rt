//! The schedule: what was told, what is done next, and what is to be done for it.

ghost use Rattle.std.specs.Prelude.{◌≡◌, ◌+◌, min, ◌++◌, ◌^◌, ◌<◌, ◌≤◌, ◌∷◌, [], OnOk, IfOk, IsTrue, OnErr, find, map, filter, count_by};
ghost use Rattle.std.specs.Vec.{vec_capacity};
ghost use Rattle.std.specs.VecDeque.{deque_capacity};
ghost use Rattle.oftp_schedule.specs.declared.schedule.TheConstants.{MOST_RESERVED, RESERVED_ACTIONS};
ghost use Rattle.oftp_schedule.specs.Rules.{call_at, connection_at};
ghost use Rattle.oftp_schedule.specs.Machine.{start, step, Tell, Ask, IsInTime, and_then, polled, next_time};

use crate::connection::{
    Action, Call, Clock, Connection, Course, Event, Gate, Kind, Limits, Millis,
};
use crate::{rules, table};
use std::alloc::{AllocError, Global};
use std::collections::VecDeque;
use std::marker::Model;

/// The number of no connection: none is accepted, and no call made, from here on.
pub(crate) const LAST: u64 = 1 << 63;

/// The most connections for which a new schedule reserves room.
const MOST_RESERVED: u64 = 4_096;

/// The actions for which a new schedule reserves room.
const RESERVED_ACTIONS: usize = 64;

/// The schedule of a station. The shell around it tells it what has happened by [`Schedule::handle`], and does what
/// [`Schedule::poll_action`] says until it says nothing. Then it waits for the next event, or until [`Schedule::poll_timeout`].
#[derive(Drop)]
pub struct Schedule {
    pub(crate) time: Millis,
    pub(crate) looked: Millis,
    pub(crate) quiet: Millis,
    pub(crate) next: u64,
    pub(crate) left: u64,
    pub(crate) last: Kind,
    pub(crate) guest_first: bool,
    pub(crate) clock: Clock,
    pub(crate) course: Course,
    pub(crate) partners: Gate,
    pub(crate) commands: Gate,
    pub(crate) requests: Gate,
    pub(crate) limits: Limits,
    pub(crate) connections: Vec<Connection>,
    pub(crate) actions: VecDeque<Action>,
}

impl Model for Schedule {
    ghost use Rattle.oftp_schedule.specs.Machine.{Turn, State, has_room};

    ghost Value = { Turn };

    ghost view = { λ a. (
      record {
        now = a.time;
        looked = a.looked;
        quiet = a.quiet;
        next = a.next;
        left = a.left;
        last = a.last;
        guest_first = a.guest_first;
        clock = a.clock;
        course = a.course;
        partners = a.partners;
        commands = a.commands;
        requests = a.requests;
        limits = a.limits;
        connections = a.connections.items;
      },
      a.actions.items,
    ) };

    ghost invariant = { λ a. has_room a.time a.next };
}

/// How many connections a new schedule reserves room for: one at each place, and a call for each command.
fn reserved(limits: &Limits) -> usize
    ensures { result ≡ min (limits.now.partners + limits.now.commands + limits.now.requests + limits.now.commands) MOST_RESERVED }
{
    let calls = limits.commands;
    let doors = u64::from(limits.partners)
        + u64::from(limits.commands)
        + u64::from(limits.requests);
    (doors + u64::from(calls)).min(MOST_RESERVED) as usize
}

/// An empty table with room for so many.
fn table_for(alloc: Global, limits: &Limits) -> Result<Vec<Connection>, AllocError>
    ensures { IfOk result (λ table. (table.items ≡ []) ×
        (min (limits.now.partners + limits.now.commands + limits.now.requests + limits.now.commands) MOST_RESERVED ≤ vec_capacity table)) }
{
    Vec::with_capacity(alloc, reserved(limits))
}

/// An empty list of actions with room for some.
fn actions_reserved(alloc: Global) -> Result<VecDeque<Action>, AllocError>
    ensures { IfOk result (λ actions. (actions.items ≡ []) × (RESERVED_ACTIONS ≤ deque_capacity actions)) }
{
    VecDeque::with_capacity(alloc, RESERVED_ACTIONS)
}

impl Schedule {
    /// A schedule with these limits, at moment 0 of the clock. It has room for as many connections as its doors have places, and for a call
    /// for each command, but for 4,096 at most. While no more are there at once, it allocates nothing for them later.
    ///
    /// # Errors
    /// Out of memory.
    pub fn new(alloc: Global, limits: Limits) -> Result<Schedule, AllocError>
        ensures { IfOk result (λ made. made ≡ (start limits, [])) }
    {
        let connections = table_for(alloc, &limits)?;
        let actions = actions_reserved(alloc)?;
        let clock = if limits.interval > 0 {
            Clock::At(u64::from(limits.interval))
        } else {
            Clock::Off
        };
        Ok(Schedule {
            time: 0,
            looked: 0,
            quiet: 0,
            next: 0,
            left: limits.jobs,
            last: Kind::Updates,
            guest_first: false,
            clock,
            course: Course::Serving,
            partners: Gate::Quiet,
            commands: Gate::Quiet,
            requests: Gate::Quiet,
            limits,
            connections,
            actions,
        })
    }

    /// Takes in what has happened.
    ///
    /// # Errors
    /// Out of memory. The schedule is to be dropped then.
    pub fn handle(&mut self, event: Event) -> Result<(), AllocError>
        requires { IsInTime event }
        ensures { OnOk result (self.new ≡ and_then self.old (step self.old.0 (Tell event))) }
    {
        self.receive(event)
    }

    /// The next action. Without one there is nothing to do before the next event, or [`Schedule::poll_timeout`].
    ///
    /// # Errors
    /// Out of memory. The schedule is to be dropped then.
    pub fn poll_action(&mut self) -> Result<Option<Action>, AllocError>
        ensures { IfOk result (λ action. (action, self.new) ≡ polled self.old) }
    {
        if self.actions.is_empty() {
            self.choose()?;
        }
        Ok(self.actions.pop_front())
    }

    /// When the schedule is to be told the time, if nothing happens before.
    pub fn poll_timeout(&self) -> Option<Millis>
        ensures { result ≡ next_time self.now.0 }
    {
        self.next_time()
    }

    /// The call with this number: whom it calls, and for whom. `None` if there is no such call.
    pub fn call(&self, id: u64) -> Option<Call>
        ensures { result ≡ call_at (connection_at id self.now.0.connections) }
    {
        match table::at(&self.connections, id) {
            Some(connection) => rules::call_in(connection.phase),
            None => None,
        }
    }
}
