//! What becomes of a connection: its new phase, and what is ordered for it.

ghost use Rattle.std.specs.Prelude.{◌≡◌, ◌+◌, ◌-◌, ◌++◌, ◌^◌, ◌<◌, ◌≤◌, ◌∷◌, [], OnOk, IfOk, OnErr, map, filter};
ghost use Rattle.oftp_schedule.specs.Rules.{orders, line, leaves_line, has_line, became, owed, is_other, ends_session, is_counted};
ghost use Rattle.oftp_schedule.specs.Machine.{State, and_then, replied, replied_at, edited, after_session, at_door, new_call, with_connections, in_numbers, numbers, guest_next, quiet_after, jobs, counted};

use crate::connection::{
    Action, Asker, Call, Connection, Door, Limits, Millis, Partner, Phase, Reason, Reply, Request,
};
use crate::schedule::{LAST, Schedule};
use crate::{rules, table};
use std::alloc::AllocError;
use std::collections::VecDeque;

/// A call of a partner that is wanted now.
pub(crate) fn new_call(limits: &Limits, partner: Partner, asker: Asker) -> Call
    ensures { result ≡ new_call limits.now partner asker }
{
    Call {
        partner,
        asker,
        times: limits.times,
    }
}

/// A reply, if there is a number for what it begins.
pub(crate) fn in_numbers(next: u64, reply: Reply) -> Reply
    ensures { result ≡ in_numbers next reply }
{
    match reply {
        Reply::Want(_) if next >= LAST => Reply::Leave(Reason::Stopping),
        other => other,
    }
}

/// Orders one action more.
pub(crate) fn order_one(actions: &mut VecDeque<Action>, action: Action) -> Result<(), AllocError>
    ensures { OnOk result (actions.new.items ≡ actions.old.items ++ action ∷ []) }
{
    actions.push_back(action)?;
    Ok(())
}

/// Orders the line of a connection, if it has one.
fn order_line(
    actions: &mut VecDeque<Action>,
    id: u64,
    reason: Reason,
    has_line: bool,
) -> Result<(), AllocError>
    ensures { OnOk result (actions.new.items ≡ actions.old.items ++ line id reason has_line) }
{
    if has_line {
        order_one(actions, Action::Print(id, reason))?;
    }
    Ok(())
}

/// Orders what a reply to a connection in this phase needs.
fn order(
    actions: &mut VecDeque<Action>,
    id: u64,
    phase: Phase,
    reply: Reply,
) -> Result<(), AllocError>
    ensures { OnOk result (actions.new.items ≡ actions.old.items ++ orders id phase reply) }
{
    match reply {
        Reply::Stay | Reply::Become(_) | Reply::Queue(_) | Reply::Want(_) => Ok(()),
        Reply::Respond(_) => order_one(actions, Action::Answer(id)),
        Reply::Refuse(_, reason) => order_one(actions, Action::Decline(id, reason)),
        Reply::Connect(_) => order_one(actions, Action::Dial(id)),
        Reply::Redial(_) => order_one(actions, Action::HangUp(id)),
        Reply::Yield(_) => {
            order_one(actions, Action::Cut(id))?;
            order_one(actions, Action::HangUp(id))
        }
        Reply::Farewell(_) => {
            order_line(actions, id, Reason::Finished, rules::has_line(phase))?;
            order_one(actions, Action::Part(id))
        }
        Reply::Leave(reason) => {
            order_line(actions, id, reason, rules::leaves_line(phase, reason))?;
            order_one(actions, Action::Close(id, reason))
        }
        Reply::Break(reason) => order_break(actions, id, reason),
    }
}

/// Orders the end of a session as it stands, its line, and that its connection is closed.
fn order_break(actions: &mut VecDeque<Action>, id: u64, reason: Reason) -> Result<(), AllocError>
    ensures { OnOk result (actions.new.items ≡ actions.old.items ++ Action.Cut id ∷ Action.Print id reason ∷ Action.Close id reason ∷ []) }
{
    order_one(actions, Action::Cut(id))?;
    order_one(actions, Action::Print(id, reason))?;
    order_one(actions, Action::Close(id, reason))
}

impl Schedule {
    /// Edits the table as a reply to a connection has it.
    fn edit(&mut self, connection: Connection, reply: Reply) -> Result<(), AllocError>
        ensures { OnOk result (self.new ≡ (with_connections self.old.0 (edited self.old.0 connection reply), self.old.1)) }
    {
        let id = connection.id;
        match reply {
            Reply::Stay => {}
            Reply::Become(phase)
            | Reply::Respond(phase)
            | Reply::Refuse(phase, _)
            | Reply::Connect(phase)
            | Reply::Redial(phase)
            | Reply::Farewell(phase) => table::set_phase(&mut self.connections, id, phase),
            Reply::Queue(phase) | Reply::Yield(phase) => {
                table::remove(&mut self.connections, id);
                self.connections.push(Connection {
                    phase,
                    ..connection
                })?;
            }
            Reply::Want(partner) => {
                let call = new_call(&self.limits, partner, Asker::By(id));
                table::set_phase(&mut self.connections, id, Phase::Calling(self.next));
                self.connections.push(Connection {
                    id: self.next,
                    door: Door::Calls,
                    phase: Phase::Wanted(call),
                })?;
            }
            Reply::Leave(_) | Reply::Break(_) => table::remove(&mut self.connections, id),
        }
        Ok(())
    }
}

impl Schedule {
    /// Until when no look-up begins within a session, after a reply to a connection in this phase.
    fn quiet_after(&self, phase: Phase, reply: Reply) -> Millis
        ensures { result ≡ quiet_after self.now.0 phase reply }
    {
        match (phase, reply) {
            (Phase::Served(Request::Query), Reply::Respond(_)) => {
                let took = self.time.saturating_sub(self.looked);
                self.quiet.max(self.time + took)
            }
            _ => self.quiet,
        }
    }

    /// Counts what a reply to a connection in this phase does. It is a job, the time of a look-up, a number for a call, and a guest that
    /// comes first.
    fn count(&mut self, door: Door, phase: Phase, reply: Reply)
        requires { in_numbers self.old.0.next reply ≡ reply }
        ensures { self.new ≡ (counted self.old.0 door phase reply, self.old.1) }
    {
        if rules::is_counted(self.limits.counted, door, phase, reply) {
            self.left = self.left.saturating_sub(1);
        }
        self.quiet = self.quiet_after(phase, reply);
        match reply {
            Reply::Want(_) => self.next += 1,
            Reply::Yield(_) => self.guest_first = true,
            _ => {}
        }
    }

    /// Does to a connection what a reply has it.
    pub(crate) fn settle(&mut self, connection: Connection, reply: Reply) -> Result<(), AllocError>
        ensures { OnOk result (self.new ≡ and_then self.old (replied self.old.0 connection (in_numbers self.old.0.next reply))) }
    {
        let reply = in_numbers(self.next, reply);
        self.edit(connection, reply)?;
        if rules::ends_session(connection.phase, reply) {
            table::owe_all(&mut self.connections);
        }
        self.count(connection.door, connection.phase, reply);
        order(&mut self.actions, connection.id, connection.phase, reply)
    }
}
