//! What is done for what was chosen.

ghost use Rattle.std.specs.Prelude.{◌≡◌, ◌+◌, ◌-◌, ◌++◌, ◌^◌, ◌<◌, ◌≤◌, ◌∷◌, [], OnOk, IfOk, OnErr, map, filter, find};
ghost use Rattle.oftp_schedule.specs.Machine.{State, and_then, choice, chosen, replied_at, is_in, became_all};

use crate::connection::{
    Action, Call, Choice, Clock, Connection, Course, Door, Kind, Phase, Reply, Request, Session,
    Status, Way,
};
use crate::replying::order_one;
use crate::schedule::{LAST, Schedule};
use crate::table;
use std::alloc::AllocError;

impl Schedule {
    /// Chooses what is done next, and orders it.
    pub(crate) fn choose(&mut self) -> Result<(), AllocError>
        ensures { OnOk result (self.new ≡ and_then self.old (chosen self.old.0 (choice self.old.0))) }
    {
        match self.choice() {
            Choice::Nothing => Ok(()),
            Choice::Finish(status) => self.finish_with(status),
            Choice::Settle(id, reply) => self.settle_at(id, reply),
            Choice::Admit(door) => self.admit_at(door),
            Choice::Inspect => self.inspect(),
            Choice::Start(id, session) => self.start(id, session),
            Choice::Proceed(id, session) => self.proceed(id, session),
            Choice::Consult(id) => self.look_up(id),
            Choice::Perform(id) => self.perform(id),
            Choice::Lend(id) => self.lend(id),
            Choice::Seek(id, call) => self.seek(id, call),
            Choice::Depart(status) => self.depart(status),
        }
    }

    fn finish_with(&mut self, status: Status) -> Result<(), AllocError>
        ensures { OnOk result (self.new ≡ and_then self.old (chosen self.old.0 (Choice.Finish status))) }
    {
        let latest = self.time + u64::from(self.limits.farewell);
        table::hurry_all(&mut self.connections, latest);
        self.course = Course::Ending(status);
        order_one(&mut self.actions, Action::Shut)
    }

    fn settle_at(&mut self, id: u64, reply: Reply) -> Result<(), AllocError>
        ensures { OnOk result (self.new ≡ and_then self.old (chosen self.old.0 (Choice.Settle id reply))) }
    {
        match table::at(&self.connections, id) {
            Some(connection) => self.settle(connection, reply),
            None => Ok(()),
        }
    }

    fn admit_at(&mut self, door: Door) -> Result<(), AllocError>
        ensures { OnOk result (self.new ≡ and_then self.old (chosen self.old.0 (Choice.Admit door))) }
    {
        let id = self.next;
        if id >= LAST {
            return Ok(());
        }
        self.connections.push(Connection {
            id,
            door,
            phase: Phase::Arriving,
        })?;
        self.next = id + 1;
        order_one(&mut self.actions, Action::Accept(id, door))
    }

    fn inspect(&mut self) -> Result<(), AllocError>
        ensures { OnOk result (self.new ≡ and_then self.old (chosen self.old.0 Choice.Inspect)) }
    {
        self.clock = Clock::Reviewing;
        order_one(&mut self.actions, Action::Review)
    }

    fn start(&mut self, id: u64, session: Session) -> Result<(), AllocError>
        ensures { OnOk result (self.new ≡ and_then self.old (chosen self.old.0 (Choice.Start id session))) }
    {
        table::set_phase(&mut self.connections, id, Phase::Stepping(session));
        self.last = Kind::Sessions;
        self.guest_first = !matches!(session.way, Way::In);
        order_one(&mut self.actions, Action::Begin(id))
    }

    fn proceed(&mut self, id: u64, session: Session) -> Result<(), AllocError>
        ensures { OnOk result (self.new ≡ and_then self.old (chosen self.old.0 (Choice.Proceed id session))) }
    {
        table::set_phase(&mut self.connections, id, Phase::Stepping(session));
        order_one(&mut self.actions, Action::Hear(id))
    }

    fn look_up(&mut self, id: u64) -> Result<(), AllocError>
        ensures { OnOk result (self.new ≡ and_then self.old (chosen self.old.0 (Choice.Consult id))) }
    {
        table::set_phase(&mut self.connections, id, Phase::Served(Request::Query));
        table::share_all(&mut self.connections, self.limits.share);
        self.looked = self.time;
        self.last = Kind::Queries;
        order_one(&mut self.actions, Action::Look(id))
    }

    fn perform(&mut self, id: u64) -> Result<(), AllocError>
        ensures { OnOk result (self.new ≡ and_then self.old (chosen self.old.0 (Choice.Perform id))) }
    {
        table::set_phase(&mut self.connections, id, Phase::Served(Request::Update));
        self.last = Kind::Updates;
        order_one(&mut self.actions, Action::Change(id))
    }

    fn lend(&mut self, id: u64) -> Result<(), AllocError>
        ensures { OnOk result (self.new ≡ and_then self.old (chosen self.old.0 (Choice.Lend id))) }
    {
        let until = self.time + u64::from(self.limits.copying);
        table::set_phase(&mut self.connections, id, Phase::Copying(until));
        self.last = Kind::Updates;
        order_one(&mut self.actions, Action::Copy(id))
    }

    fn seek(&mut self, id: u64, call: Call) -> Result<(), AllocError>
        ensures { OnOk result (self.new ≡ and_then self.old (chosen self.old.0 (Choice.Seek id call))) }
    {
        table::set_phase(&mut self.connections, id, Phase::Resolving(call));
        order_one(&mut self.actions, Action::Resolve(id))
    }

    fn depart(&mut self, status: Status) -> Result<(), AllocError>
        ensures { OnOk result (self.new ≡ and_then self.old (chosen self.old.0 (Choice.Depart status))) }
    {
        self.course = Course::Past;
        order_one(&mut self.actions, Action::Exit(status))
    }
}
