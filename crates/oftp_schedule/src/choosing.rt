//! What is done next.

ghost use Rattle.std.specs.Prelude.{◌≡◌, ◌+◌, ◌-◌, ◌++◌, ◌^◌, ◌<◌, ◌≤◌, ◌∷◌, [], OnOk, IfOk, OnErr, map, filter, find};
ghost use Rattle.oftp_schedule.specs.Rules.{answered, late, is_update_phase, is_owed_phase};
ghost use Rattle.oftp_schedule.specs.Machine.{choice, limits_now, or_else, is_enough, finish, expiry, dismissed, orphaned, call_over, is_to_yield, yielded, yield_to, yield_for, way_given, is_ending, is_knocked, has_place, admit, admission, is_busy, may_dial, sought, dial, consult, consult_within, within, requested, update, new_session, guest_session, called_session, call_session, in_turn, inspection, between_jobs, outside, job_for, job, departure, is_reviewing, clock_time, waits_for_room, way_time, yield_time, yield_time_of, quiet_time, rest_over, earlier, next_time};

use crate::connection::{
    Call, Choice, Clock, Connection, Course, Door, Gate, Kind, Limits, Millis, Phase, Reason,
    Reply, Request, Session, Status, Way,
};
use crate::receiving::{is_ending, places};
use crate::schedule::{LAST, Schedule};
use crate::{rules, table};

impl Choice {
    /// This choice, or another one if it is nothing.
    fn or_else(self, other: Choice) -> Choice
        ensures { result ≡ or_else self other }
    {
        match self {
            Choice::Nothing => other,
            _ => self,
        }
    }
}

/// What becomes of a session whose call gives way.
fn yielded(call: Call) -> Reply
    ensures { result ≡ yielded call }
{
    if call.times > 0 {
        Reply::Yield(Phase::Wanted(rules::once_less(call)))
    } else {
        Reply::Break(Reason::TimedOut)
    }
}

/// Whether a call that isn't answered gives way to a guest that was let in at this moment.
fn is_to_yield(now: Millis, session: Session, call: Call, since: Millis) -> bool
    ensures { result ≡ is_to_yield now session call since }
{
    let waited = now.saturating_sub(session.begun.max(since));
    rules::is_awaited(session.input) && u64::from(call.partner.pause) <= waited
}

/// Whether a session gives way to a guest.
fn yield_for(now: Millis, id: u64, phase: Phase, guest: Phase) -> Choice
    ensures { result ≡ yield_for now id phase guest }
{
    match (phase, guest) {
        (Phase::Between(session), Phase::Guest(since)) => match session.way {
            Way::Unanswered(call, _) => {
                if is_to_yield(now, session, call, since) {
                    Choice::Settle(id, yielded(call))
                } else {
                    Choice::Nothing
                }
            }
            _ => Choice::Nothing,
        },
        _ => Choice::Nothing,
    }
}

/// The choice of a request that has its turn.
fn requested(id: u64, phase: Phase) -> Choice
    ensures { result ≡ requested id phase }
{
    match phase {
        Phase::Ready(Request::Update, _) => Choice::Perform(id),
        Phase::Ready(Request::Backup, _) => Choice::Lend(id),
        _ => Choice::Nothing,
    }
}

/// A session that begins now.
fn new_session(now: Millis, limits: &Limits, way: Way, patience: u32, longest: u32) -> Session
    requires { now < 2 ^ 63 }
    ensures { result ≡ new_session now limits.now way patience longest }
{
    Session {
        way,
        begun: now,
        ends: now + u64::from(longest),
        patience,
        until: now + u64::from(patience),
        input: crate::connection::Input::Awaited,
        share: limits.share,
        backlog: 0,
    }
}

/// The kinds of jobs in turn, the last one last.
fn in_turn(last: Kind, query: Choice, guest: Choice, update: Choice) -> Choice
    ensures { result ≡ in_turn last query guest update }
{
    match last {
        Kind::Queries => guest.or_else(update.or_else(query)),
        Kind::Sessions => update.or_else(query.or_else(guest)),
        Kind::Updates => query.or_else(guest.or_else(update)),
    }
}

impl Schedule {
    /// What is done next.
    pub(crate) fn choice(&self) -> Choice
        ensures { result ≡ choice self.now.0 }
    {
        if let Course::Past = self.course {
            return Choice::Nothing;
        }
        let settled = self.expiry().or_else(
            self.dismissed().or_else(
                self.orphaned().or_else(
                    self.call_over()
                        .or_else(self.way_given().or_else(self.service())),
                ),
            ),
        );
        self.finish().or_else(settled)
    }

    /// Somebody is let in, a call is begun, a job is done, or the program ends.
    fn service(&self) -> Choice
        ensures { result ≡ or_else (admission self.now.0) (or_else (dial self.now.0) (or_else (job self.now.0) (departure self.now.0 self.now.0.course))) }
    {
        let rest = self.dial().or_else(self.job().or_else(self.departure()));
        self.admission().or_else(rest)
    }

    /// Whether as many jobs were done as there may be.
    fn is_enough(&self) -> bool
        ensures { result ≡ is_enough self.now.0 }
    {
        self.limits.jobs > 0 && self.left == 0
    }

    fn finish(&self) -> Choice
        ensures { result ≡ finish self.now.0 self.now.0.course }
    {
        match self.course {
            Course::Serving => {
                if self.is_enough() {
                    Choice::Finish(Status::Stopped)
                } else {
                    Choice::Nothing
                }
            }
            Course::Called(status) => Choice::Finish(status),
            _ => Choice::Nothing,
        }
    }

    /// Somebody's time is over.
    fn expiry(&self) -> Choice
        ensures { result ≡ expiry self.now.0 }
    {
        match table::first_late(&self.connections, self.time) {
            Some(it) => Choice::Settle(it.id, self.late(it)),
            None => Choice::Nothing,
        }
    }

    /// What becomes of a connection whose time is over.
    fn late(&self, it: Connection) -> Reply
        ensures { result ≡ late self.now.0.now (limits_now self.now.0) it.door it.phase }
    {
        rules::late(self.time, &self.limits_now(), it.door, it.phase)
    }

    /// The end of the station concerns somebody.
    fn dismissed(&self) -> Choice
        ensures { result ≡ dismissed self.now.0 self.now.0.course }
    {
        match self.course {
            Course::Ending(status) => match table::first_dismissed(&self.connections, status) {
                Some(it) => {
                    let reply = rules::dismissal(self.time, &self.limits, it.door, it.phase);
                    Choice::Settle(it.id, reply)
                }
                None => Choice::Nothing,
            },
            _ => Choice::Nothing,
        }
    }

    /// The command of a call is gone.
    fn orphaned(&self) -> Choice
        ensures { result ≡ orphaned self.now.0 }
    {
        match table::first_orphan(&self.connections) {
            Some(it) => Choice::Settle(it.id, Reply::Leave(Reason::Orphaned)),
            None => Choice::Nothing,
        }
    }

    /// The call of a command is over.
    fn call_over(&self) -> Choice
        ensures { result ≡ call_over self.now.0 }
    {
        match table::first_to_tell(&self.connections) {
            Some(it) => {
                let answer = rules::answered(self.time, &self.limits_now(), it.door, 0);
                Choice::Settle(it.id, Reply::Respond(answer))
            }
            None => Choice::Nothing,
        }
    }

    /// A call that isn't answered gives way to a guest.
    fn way_given(&self) -> Choice
        ensures { result ≡ way_given self.now.0 }
    {
        match table::session(&self.connections) {
            Some(session) => match table::first_guest(&self.connections) {
                Some(guest) => yield_for(self.time, session.id, session.phase, guest.phase),
                None => Choice::Nothing,
            },
            None => Choice::Nothing,
        }
    }

    /// Whether there is a place at a door, or a stranger that leaves for who comes.
    fn has_place(&self, door: Door) -> bool
        ensures { result ≡ has_place self.now.0 door }
    {
        let most = places(&self.limits, door) as usize;
        let count = table::count_at(&self.connections, door);
        if count < most {
            return true;
        }
        rules::same_door(door, Door::Partners)
            && count == most
            && table::is_any_ripe(&self.connections, self.time)
    }

    fn admit(&self, door: Door) -> Choice
        ensures { result ≡ admit self.now.0 door }
    {
        let is_knocked = matches!(self.gate(door), Gate::Knocked);
        if is_knocked && self.has_place(door) {
            Choice::Admit(door)
        } else {
            Choice::Nothing
        }
    }

    /// Somebody is accepted, one at a time.
    fn admission(&self) -> Choice
        ensures { result ≡ admission self.now.0 }
    {
        if is_ending(self.course)
            || self.next >= LAST
            || table::is_any_arriving(&self.connections)
        {
            return Choice::Nothing;
        }
        let others = self
            .admit(Door::Commands)
            .or_else(self.admit(Door::Requests));
        self.admit(Door::Partners).or_else(others)
    }

    fn is_reviewing(&self) -> bool
        ensures { result ≡ is_reviewing self.now.0.clock }
    {
        matches!(self.clock, Clock::Reviewing)
    }

    /// Whether something is with the office.
    fn is_busy(&self) -> bool
        ensures { result ≡ is_busy self.now.0 }
    {
        self.is_reviewing() || table::is_any_at_office(&self.connections)
    }

    /// Whether a call may be begun.
    fn may_dial(&self) -> bool
        ensures { result ≡ may_dial self.now.0 }
    {
        if is_ending(self.course)
            || table::is_any_in_session(&self.connections)
            || table::is_any_up(&self.connections)
            || table::is_any_copying(&self.connections)
        {
            return false;
        }
        !(self.guest_first && table::is_any_guest(&self.connections))
    }

    /// A call is begun.
    fn dial(&self) -> Choice
        ensures { result ≡ dial self.now.0 }
    {
        if !self.may_dial() {
            return Choice::Nothing;
        }
        match table::first_wanted(&self.connections) {
            Some(it) => match rules::call_in(it.phase) {
                Some(call) => Choice::Seek(it.id, call),
                None => Choice::Nothing,
            },
            None => Choice::Nothing,
        }
    }

    /// A look-up, if there is room for its answer.
    fn consult(&self) -> Choice
        ensures { result ≡ consult self.now.0 }
    {
        if table::room_left(&self.connections, self.limits.held) == 0 {
            return Choice::Nothing;
        }
        match table::first_query(&self.connections) {
            Some(it) => Choice::Consult(it.id),
            None => Choice::Nothing,
        }
    }

    /// Within a session: a look-up, once as long has passed as the last one took.
    fn consult_within(&self) -> Choice
        ensures { result ≡ consult_within self.now.0 }
    {
        if self.quiet <= self.time {
            self.consult()
        } else {
            Choice::Nothing
        }
    }

    /// Within a session: what its partner sent, or a look-up.
    fn within(&self, id: u64, phase: Phase) -> Choice
        ensures { result ≡ within self.now.0 id phase }
    {
        let Phase::Between(session) = phase else {
            return Choice::Nothing;
        };
        if !rules::is_hearable(&self.limits, &session) {
            return self.consult_within();
        }
        if session.share == 0 {
            self.consult_within().or_else(Choice::Proceed(id, session))
        } else {
            Choice::Proceed(id, session)
        }
    }

    /// A change or a backup.
    fn update(&self) -> Choice
        ensures { result ≡ update self.now.0 is_update_phase }
    {
        match table::first_update(&self.connections) {
            Some(it) => requested(it.id, it.phase),
            None => Choice::Nothing,
        }
    }

    /// A change or a backup that came within the last session.
    fn owed(&self) -> Choice
        ensures { result ≡ update self.now.0 is_owed_phase }
    {
        match table::first_owed(&self.connections) {
            Some(it) => requested(it.id, it.phase),
            None => Choice::Nothing,
        }
    }

    /// The session of a guest.
    fn guest_session(&self) -> Choice
        ensures { result ≡ guest_session self.now.0 }
    {
        match table::first_guest(&self.connections) {
            Some(it) => {
                let limits = &self.limits;
                let session = new_session(
                    self.time,
                    limits,
                    Way::In,
                    limits.patience,
                    limits.longest,
                );
                Choice::Start(it.id, session)
            }
            None => Choice::Nothing,
        }
    }

    /// The session of a call that is connected.
    fn call_session(&self) -> Choice
        ensures { result ≡ call_session self.now.0 }
    {
        match table::first_connected(&self.connections) {
            Some(it) => match rules::call_in(it.phase) {
                Some(call) => self.called_session(it.id, call),
                None => Choice::Nothing,
            },
            None => Choice::Nothing,
        }
    }

    fn called_session(&self, id: u64, call: Call) -> Choice
        ensures { result ≡ called_session self.now.0.now self.now.0.limits id (Some call) }
    {
        let way = Way::Unanswered(call, self.limits.greeting.saturating_add(1));
        let Call { partner, .. } = call;
        let session = new_session(
            self.time,
            &self.limits,
            way,
            partner.patience,
            partner.longest,
        );
        Choice::Start(id, session)
    }

    /// It is looked up for whom something waits.
    fn inspection(&self) -> Choice
        ensures { result ≡ inspection self.now.0 self.now.0.clock }
    {
        match self.clock {
            Clock::At(time) if time <= self.time => Choice::Inspect,
            _ => Choice::Nothing,
        }
    }

    fn between_jobs(&self) -> Choice
        ensures { result ≡ between_jobs self.now.0 }
    {
        let turn = in_turn(
            self.last,
            self.consult(),
            self.guest_session(),
            self.update(),
        );
        let rest = self.owed().or_else(self.call_session().or_else(turn));
        self.inspection().or_else(rest)
    }

    /// Without a session.
    fn outside(&self) -> Choice
        ensures { result ≡ outside self.now.0 }
    {
        if table::is_any_copying(&self.connections) {
            return self.consult();
        }
        if is_ending(self.course) {
            Choice::Nothing
        } else {
            self.between_jobs()
        }
    }

    /// A job, or the next piece of a session.
    fn job(&self) -> Choice
        ensures { result ≡ job self.now.0 }
    {
        if self.is_busy() {
            return Choice::Nothing;
        }
        match table::session(&self.connections) {
            Some(it) => self.within(it.id, it.phase),
            None => self.outside(),
        }
    }

    /// The last connection is gone, so the program ends.
    fn departure(&self) -> Choice
        ensures { result ≡ departure self.now.0 self.now.0.course }
    {
        match self.course {
            Course::Ending(status) => {
                if self.is_reviewing() || !self.connections.is_empty() {
                    Choice::Nothing
                } else {
                    Choice::Depart(status)
                }
            }
            _ => Choice::Nothing,
        }
    }
}

/// The moment at which a session gives way to a guest.
fn yield_time(phase: Phase, guest: Phase) -> Option<Millis>
    ensures { result ≡ yield_time_of phase guest }
{
    match (phase, guest) {
        (Phase::Between(session), Phase::Guest(since)) => match session.way {
            Way::Unanswered(call, _) if rules::is_awaited(session.input) => {
                let from = session.begun.max(since);
                Some(from.saturating_add(u64::from(call.partner.pause)))
            }
            _ => None,
        },
        _ => None,
    }
}

/// The moment at which a door has rested.
fn rest_over(gate: Gate) -> Option<Millis>
    ensures { result ≡ rest_over gate }
{
    match gate {
        Gate::Resting(until) => Some(until),
        _ => None,
    }
}

impl Schedule {
    /// The moment at which the clock looks for whom something waits.
    fn clock_time(&self) -> Option<Millis>
        ensures { result ≡ clock_time self.now.0.now self.now.0.clock }
    {
        match self.clock {
            Clock::At(time) if self.time < time => Some(time),
            _ => None,
        }
    }

    /// The moment from which on a stranger may leave for who waits.
    fn room_time(&self) -> Option<Millis>
        ensures { result ≡ waits_for_room self.now.0 }
    {
        match self.partners {
            Gate::Knocked => table::first_ripe_time(&self.connections, self.time),
            _ => None,
        }
    }

    /// The moment at which a call gives way.
    fn way_time(&self) -> Option<Millis>
        ensures { result ≡ way_time self.now.0 }
    {
        match table::session(&self.connections) {
            Some(session) => match table::first_guest(&self.connections) {
                Some(guest) => yield_time(session.phase, guest.phase),
                None => None,
            },
            None => None,
        }
    }

    /// The moment at which a look-up may begin within a session.
    fn quiet_time(&self) -> Option<Millis>
        ensures { result ≡ quiet_time self.now.0 }
    {
        if self.is_busy() || table::session(&self.connections).is_none() {
            return None;
        }
        match self.consult() {
            Choice::Consult(_) if self.time < self.quiet => Some(self.quiet),
            _ => None,
        }
    }

    /// The first moment at which a door has rested.
    fn rest_time(&self) -> Option<Millis>
        ensures { result ≡ earlier (rest_over self.now.0.partners) (earlier (rest_over self.now.0.commands) (rest_over self.now.0.requests)) }
    {
        let others = table::earlier(rest_over(self.commands), rest_over(self.requests));
        table::earlier(rest_over(self.partners), others)
    }

    /// The first moment at which something is to be done.
    pub(crate) fn next_time(&self) -> Option<Millis>
        ensures { result ≡ next_time self.now.0 }
    {
        let others = table::earlier(
            self.clock_time(),
            table::earlier(
                self.room_time(),
                table::earlier(self.way_time(), self.quiet_time()),
            ),
        );
        let doors = table::earlier(self.rest_time(), others);
        table::earlier(table::first_deadline(&self.connections), doors)
    }
}
