//! The rules of one connection, apart from all others.

ghost use Rattle.std.specs.Prelude.{max, ◌≡◌, ◌+◌, ◌^◌, ◌<◌, ◌≤◌, true};
ghost use Rattle.oftp_schedule.specs.Rules.{heard_on, wait_after, is_awaited, share_left, stepped, with_octets, with_backlog, with_last, with_share, after_step, at_end, is_hearable, answering, answered, parting, answered_whole, went, dialing_time, rule, due, is_over, is_late, once_less, redialed, late, overdue, is_parting_phase, dismissal, is_dismissed, hurried_phase, at_office, in_session, is_between_phase, is_guest_phase, is_query_phase, is_update_phase, is_owed_phase, is_copying_phase, is_wanted_phase, is_connected_phase, is_up_phase, is_arriving_phase, is_ripe_phase, same_door, call_in, call_of, is_by_clock, is_here, has_line, is_told, leaves_line, is_carried_out, is_job, is_counted, ends_session, owed_phase, shared_phase, answer_octets, arrived};

use crate::connection::{
    Asker, Call, Counted, Door, End, Input, Limits, Millis, Phase, Rank, Reason, Reply, Request,
    Session, Signal, Status, Step, Way,
};

/// Who began a session, after so many octets more of the partner.
fn heard_on(way: Way, heard: u32) -> Way
    ensures { result ≡ heard_on way heard }
{
    match way {
        Way::Unanswered(call, left) if heard < left => Way::Unanswered(call, left - heard),
        Way::Unanswered(call, _) => Way::Out(call),
        other => other,
    }
}

/// Whether there is nothing yet.
pub fn is_awaited(input: Input) -> bool
    ensures { result ≡ is_awaited input }
{
    matches!(input, Input::Awaited)
}

/// Whether there are octets to hear.
fn is_here(input: Input) -> bool
    ensures { result ≡ is_here input }
{
    matches!(input, Input::Here | Input::Last)
}

/// When the wait of a session is over: that of a partner who was to take octets goes on, and else it begins anew.
fn wait_after(now: Millis, session: Session, backlog: u64) -> Millis
    requires { now < 2 ^ 63 }
    ensures { result ≡ wait_after now session backlog }
{
    if backlog > 0 && session.backlog > 0 {
        session.until
    } else {
        now + u64::from(session.patience)
    }
}

/// How many octets are still to be heard until a look-up has its turn, which a wait gives it too.
fn share_left(session: Session, step: Step) -> u32
    ensures { result ≡ share_left session step }
{
    match step.input {
        Input::Awaited => 0,
        _ => session.share.saturating_sub(step.heard),
    }
}

/// The session after a step of it.
fn stepped(now: Millis, session: Session, step: Step) -> Session
    requires { now < 2 ^ 63 }
    ensures { result ≡ stepped now session step }
{
    Session {
        way: heard_on(session.way, step.heard),
        until: wait_after(now, session, step.backlog),
        input: step.input,
        share: share_left(session, step),
        backlog: step.backlog,
        ..session
    }
}

/// What becomes of a session after a step of it.
fn after_step(now: Millis, session: Session, step: Step) -> Reply
    requires { now < 2 ^ 63 }
    ensures { result ≡ after_step now session step step.input }
{
    match step.input {
        Input::Gone => Reply::Break(Reason::Quit),
        _ => Reply::Become(Phase::Between(stepped(now, session, step))),
    }
}

/// A session of which octets came.
fn with_octets(now: Millis, session: Session) -> Session
    requires { now < 2 ^ 63 }
    ensures { result ≡ with_octets now session }
{
    let input = match session.input {
        Input::Awaited => Input::Here,
        other => other,
    };
    Session {
        until: wait_after(now, session, session.backlog),
        input,
        ..session
    }
}

/// A session of which octets went out, and so many are left.
fn with_backlog(now: Millis, session: Session, backlog: u64) -> Session
    requires { now < 2 ^ 63 }
    ensures { result ≡ with_backlog now session backlog }
{
    Session {
        until: now + u64::from(session.patience),
        backlog,
        ..session
    }
}

/// What becomes of a session whose input has ended.
fn at_end(session: Session) -> Reply
    ensures { result ≡ at_end session session.input }
{
    match session.input {
        Input::Here => Reply::Become(Phase::Between(Session {
            input: Input::Last,
            ..session
        })),
        Input::Last => Reply::Stay,
        Input::Awaited | Input::Gone => Reply::Break(Reason::Quit),
    }
}

/// Whether there is something to hear, and room for what it says.
pub fn is_hearable(limits: &Limits, session: &Session) -> bool
    ensures { result ≡ is_hearable limits.now session.now }
{
    is_here(session.input) && session.backlog <= limits.backlog
}

/// How long an answer may take without progress.
fn answering(limits: &Limits, door: Door) -> u32
    ensures { result ≡ answering limits.now door }
{
    match door {
        Door::Requests => limits.requesting,
        _ => limits.asking,
    }
}

/// An answer of which so many octets are left.
pub fn answered(now: Millis, limits: &Limits, door: Door, octets: u64) -> Phase
    requires { now < 2 ^ 63 }
    ensures { result ≡ answered now limits.now door octets }
{
    let length = answering(limits, door).max(limits.farewell);
    Phase::Answered(now + u64::from(length), octets)
}

/// Last octets go out.
fn parting(now: Millis, limits: &Limits) -> Phase
    requires { now < 2 ^ 63 }
    ensures { result ≡ parting now limits.now }
{
    Phase::Parting(now + u64::from(limits.farewell))
}

/// What becomes of one whose answer went out but for so many octets. What is left has its time again.
fn went(now: Millis, limits: &Limits, door: Door, until: Millis, left: u64) -> Reply
    requires { now < 2 ^ 63 }
    ensures { result ≡ went now limits.now door until left }
{
    if left > 0 {
        let latest = until.max(now + u64::from(answering(limits, door)));
        return Reply::Become(Phase::Answered(latest, left));
    }
    match door {
        Door::Requests => Reply::Farewell(parting(now, limits)),
        _ => Reply::Leave(Reason::Finished),
    }
}

/// What a signal does to a session.
fn reply_in_session(now: Millis, limits: &Limits, door: Door, phase: Phase, signal: Signal) -> Reply
    requires counted { now < 2 ^ 63 }
    requires talks { in_session phase ≡ true }
    ensures { result ≡ rule now limits.now door phase signal }
{
    match (phase, signal) {
        (Phase::Stepping(session), Signal::Waits(step)) => after_step(now, session, step),
        (Phase::Stepping(_), Signal::Ended(End::Own)) => Reply::Farewell(parting(now, limits)),
        (Phase::Stepping(_), Signal::Ended(End::Other)) => Reply::Leave(Reason::Finished),
        (Phase::Between(session), Signal::Came) => {
            Reply::Become(Phase::Between(with_octets(now, session)))
        }
        (Phase::Between(session), Signal::Went(left)) => {
            Reply::Become(Phase::Between(with_backlog(now, session, left)))
        }
        (Phase::Between(session), Signal::Ends) => at_end(session),
        (Phase::Between(_), Signal::Lost) => Reply::Break(Reason::Vanished),
        _ => Reply::Stay,
    }
}

/// How long a call may take to connect: no longer than a wait of its session.
fn dialing_time(limits: &Limits, call: Call) -> u32
    ensures { result ≡ dialing_time limits.now call }
{
    limits.dialing.min(call.partner.patience)
}

/// What a signal does to a call that has no session.
fn reply_in_call(now: Millis, limits: &Limits, door: Door, phase: Phase, signal: Signal) -> Reply
    requires counted { now < 2 ^ 63 }
    requires calls { is_up_phase phase ≡ true }
    ensures { result ≡ rule now limits.now door phase signal }
{
    match (phase, signal) {
        (Phase::Resolving(call), Signal::Resolved) => {
            let length = dialing_time(limits, call);
            Reply::Connect(Phase::Dialing(call, now + u64::from(length)))
        }
        (Phase::Dialing(call, _), Signal::Up) => {
            Reply::Become(Phase::Connected(call, now + u64::from(limits.standing)))
        }
        (Phase::Resolving(_) | Phase::Dialing(_, _), Signal::Failed) => {
            Reply::Leave(Reason::Unreached)
        }
        (Phase::Connected(_, _), Signal::Lost) => Reply::Leave(Reason::Vanished),
        _ => Reply::Stay,
    }
}

/// What a signal does to a connection of this door in this phase.
pub fn reply(now: Millis, limits: &Limits, door: Door, phase: Phase, signal: Signal) -> Reply
    requires { now < 2 ^ 63 }
    ensures { result ≡ rule now limits.now door phase signal }
{
    if in_session(phase) {
        return reply_in_session(now, limits, door, phase, signal);
    }
    if is_up(phase) {
        return reply_in_call(now, limits, door, phase, signal);
    }
    match (phase, signal) {
        (Phase::Stranger(_, _), Signal::LetIn) => Reply::Queue(Phase::Guest(now)),
        (Phase::Stranger(_, _), Signal::Rejected) => Reply::Farewell(parting(now, limits)),
        (Phase::Asking(_), Signal::Asked(request)) => {
            Reply::Queue(Phase::Ready(request, Rank::Usual))
        }
        (Phase::Asking(_), Signal::Wants(partner)) => Reply::Want(partner),
        (Phase::Asking(_), Signal::Rejected) => Reply::Leave(Reason::Invalid),
        (Phase::Served(_), Signal::Done(octets)) => {
            Reply::Respond(answered(now, limits, door, octets))
        }
        (Phase::Copying(_), Signal::Ends) => Reply::Respond(answered(now, limits, door, 0)),
        (Phase::Answered(until, _), Signal::Went(left)) => went(now, limits, door, until, left),
        (Phase::Parting(_), Signal::Ends | Signal::Lost) => Reply::Leave(Reason::Finished),
        (Phase::Stranger(_, _) | Phase::Asking(_), Signal::Ends) => Reply::Leave(Reason::Quit),
        (
            Phase::Stranger(_, _)
            | Phase::Guest(_)
            | Phase::Asking(_)
            | Phase::Ready(_, _)
            | Phase::Calling(_)
            | Phase::Copying(_)
            | Phase::Answered(_, _),
            Signal::Lost,
        ) => Reply::Leave(Reason::Vanished),
        _ => Reply::Stay,
    }
}

/// When the time of a connection in this phase is over.
pub fn deadline(phase: Phase) -> Option<Millis>
    ensures { result ≡ due phase }
{
    match phase {
        Phase::Between(session) => Some(session.until.min(session.ends)),
        Phase::Stranger(until, _)
        | Phase::Parting(until)
        | Phase::Asking(until)
        | Phase::Copying(until)
        | Phase::Answered(until, _)
        | Phase::Dialing(_, until)
        | Phase::Connected(_, until) => Some(until),
        _ => None,
    }
}

/// Whether the time of a connection in this phase is over.
pub fn is_over(now: Millis, phase: Phase) -> bool
    ensures { result ≡ is_over now (due phase) }
{
    match deadline(phase) {
        Some(until) => until <= now,
        None => false,
    }
}

/// Why a session's time is over: its partner said nothing, or took nothing.
fn overdue(session: &Session) -> Reason
    ensures { result ≡ overdue session.now }
{
    if session.backlog == 0 {
        Reason::TimedOut
    } else {
        Reason::Stalled
    }
}

/// A call that hangs up, which it may do once less from then on.
pub fn once_less(call: Call) -> Call
    ensures { result ≡ once_less call }
{
    Call {
        times: call.times.saturating_sub(1),
        ..call
    }
}

/// What becomes of a call whose session didn't begin in its time.
fn redialed(call: Call) -> Reply
    ensures { result ≡ redialed call }
{
    if call.times > 0 {
        Reply::Redial(Phase::Wanted(once_less(call)))
    } else {
        Reply::Leave(Reason::TimedOut)
    }
}

/// What becomes of a connection whose time is over.
pub fn late(now: Millis, limits: &Limits, door: Door, phase: Phase) -> Reply
    requires { now < 2 ^ 63 }
    ensures { result ≡ late now limits.now door phase }
{
    match phase {
        Phase::Between(session) => Reply::Break(overdue(&session)),
        Phase::Copying(_) => Reply::Refuse(answered(now, limits, door, 0), Reason::TimedOut),
        Phase::Dialing(_, _) => Reply::Leave(Reason::Unreached),
        Phase::Connected(call, _) => redialed(call),
        _ => Reply::Leave(Reason::TimedOut),
    }
}

/// What becomes of a connection that the end of the station concerns.
pub fn dismissal(now: Millis, limits: &Limits, door: Door, phase: Phase) -> Reply
    requires { now < 2 ^ 63 }
    ensures { result ≡ dismissal now limits.now door phase }
{
    let answer = Phase::Answered(now + u64::from(limits.farewell), 0);
    match (door, phase) {
        (_, Phase::Ready(_, _)) | (Door::Commands, Phase::Asking(_)) => {
            Reply::Refuse(answer, Reason::Stopping)
        }
        (_, Phase::Between(_)) => Reply::Break(Reason::Stopping),
        _ => Reply::Leave(Reason::Stopping),
    }
}

/// Whether the end of the station concerns a connection in this phase.
pub fn is_dismissed(status: Status, phase: Phase) -> bool
    ensures { result ≡ is_dismissed status phase }
{
    match phase {
        Phase::Stranger(_, _)
        | Phase::Guest(_)
        | Phase::Asking(_)
        | Phase::Ready(_, _)
        | Phase::Wanted(_)
        | Phase::Resolving(_)
        | Phase::Dialing(_, _)
        | Phase::Connected(_, _) => true,
        Phase::Between(_) => matches!(status, Status::OfficeFailed),
        _ => false,
    }
}

/// The phase of an answer that may take no longer than until this moment.
pub fn hurried(latest: Millis, phase: Phase) -> Phase
    ensures { result ≡ hurried_phase latest phase }
{
    match phase {
        Phase::Answered(until, left) => Phase::Answered(until.min(latest), left),
        other => other,
    }
}

/// Whether it is with the office.
pub fn at_office(phase: Phase) -> bool
    ensures { result ≡ at_office phase }
{
    matches!(phase, Phase::Stepping(_) | Phase::Served(_))
}

/// Whether it has a session.
pub fn in_session(phase: Phase) -> bool
    ensures { result ≡ in_session phase }
{
    matches!(phase, Phase::Stepping(_) | Phase::Between(_))
}

/// Whether its session is between two steps.
pub fn is_between(phase: Phase) -> bool
    ensures { result ≡ is_between_phase phase }
{
    matches!(phase, Phase::Between(_))
}

/// Whether it is a guest.
pub fn is_guest(phase: Phase) -> bool
    ensures { result ≡ is_guest_phase phase }
{
    matches!(phase, Phase::Guest(_))
}

/// Whether its look-up waits for its turn.
pub fn is_query(phase: Phase) -> bool
    ensures { result ≡ is_query_phase phase }
{
    matches!(phase, Phase::Ready(Request::Query, _))
}

/// Whether its change or backup waits for its turn.
pub fn is_update(phase: Phase) -> bool
    ensures { result ≡ is_update_phase phase }
{
    matches!(phase, Phase::Ready(Request::Update | Request::Backup, _))
}

/// Whether its change or backup came within the last session.
pub fn is_owed(phase: Phase) -> bool
    ensures { result ≡ is_owed_phase phase }
{
    matches!(
        phase,
        Phase::Ready(Request::Update | Request::Backup, Rank::Owed)
    )
}

/// Whether it copies the database's files.
pub fn is_copying(phase: Phase) -> bool
    ensures { result ≡ is_copying_phase phase }
{
    matches!(phase, Phase::Copying(_))
}

/// Whether it is a call that isn't begun.
pub fn is_wanted(phase: Phase) -> bool
    ensures { result ≡ is_wanted_phase phase }
{
    matches!(phase, Phase::Wanted(_))
}

/// Whether it is a call that is connected.
pub fn is_connected(phase: Phase) -> bool
    ensures { result ≡ is_connected_phase phase }
{
    matches!(phase, Phase::Connected(_, _))
}

/// Whether it is a call that is begun and has no session.
pub fn is_up(phase: Phase) -> bool
    ensures { result ≡ is_up_phase phase }
{
    matches!(
        phase,
        Phase::Resolving(_) | Phase::Dialing(_, _) | Phase::Connected(_, _)
    )
}

/// Whether only its last octets go out.
pub fn is_parting(phase: Phase) -> bool
    ensures { result ≡ is_parting_phase phase }
{
    matches!(phase, Phase::Parting(_))
}

/// Whether it is being accepted.
pub fn is_arriving(phase: Phase) -> bool
    ensures { result ≡ is_arriving_phase phase }
{
    matches!(phase, Phase::Arriving)
}

/// Whether it is a stranger that may be closed for another.
pub fn is_ripe(now: Millis, phase: Phase) -> bool
    ensures { result ≡ is_ripe_phase now phase }
{
    match phase {
        Phase::Stranger(_, from) => from <= now,
        _ => false,
    }
}

/// Whether two doors are the same.
pub fn same_door(one: Door, other: Door) -> bool
    ensures { result ≡ same_door one other }
{
    match one {
        Door::Partners => matches!(other, Door::Partners),
        Door::Commands => matches!(other, Door::Commands),
        Door::Requests => matches!(other, Door::Requests),
        Door::Calls => matches!(other, Door::Calls),
    }
}

/// The call of a session.
fn call_of(way: Way) -> Option<Call>
    ensures { result ≡ call_of way }
{
    match way {
        Way::In => None,
        Way::Out(call) | Way::Unanswered(call, _) => Some(call),
    }
}

/// The call of a phase.
pub fn call_in(phase: Phase) -> Option<Call>
    ensures { result ≡ call_in phase }
{
    match phase {
        Phase::Wanted(call)
        | Phase::Resolving(call)
        | Phase::Dialing(call, _)
        | Phase::Connected(call, _) => Some(call),
        Phase::Stepping(session) | Phase::Between(session) => call_of(session.way),
        _ => None,
    }
}

/// Whether the clock calls the partner with this number in this phase.
pub fn calls(number: u32, phase: Phase) -> bool
    ensures { result ≡ is_by_clock number (call_in phase) }
{
    match call_in(phase) {
        Some(call) => match call.asker {
            Asker::ByClock => call.partner.number == number,
            Asker::By(_) => false,
        },
        None => false,
    }
}

/// Whether a line is printed for a connection in this phase.
pub fn has_line(phase: Phase) -> bool
    ensures { result ≡ has_line phase }
{
    matches!(
        phase,
        Phase::Stranger(_, _)
            | Phase::Guest(_)
            | Phase::Stepping(_)
            | Phase::Between(_)
            | Phase::Wanted(_)
            | Phase::Resolving(_)
            | Phase::Dialing(_, _)
            | Phase::Connected(_, _)
    )
}

/// Whether a line is printed for a connection in this phase that is closed.
pub fn leaves_line(phase: Phase, reason: Reason) -> bool
    ensures { result ≡ leaves_line phase reason }
{
    has_line(phase) && !matches!(reason, Reason::Orphaned | Reason::Stopping)
}

/// Whether a command's request was carried out.
fn is_carried_out(door: Door, phase: Phase) -> bool
    ensures { result ≡ is_carried_out door phase }
{
    matches!(door, Door::Commands) && matches!(phase, Phase::Served(_) | Phase::Copying(_))
}

/// Whether a job is done by a reply.
fn is_job(door: Door, phase: Phase, reply: Reply) -> bool
    ensures { result ≡ is_job door phase reply }
{
    match reply {
        Reply::Respond(_) | Reply::Refuse(_, _) => is_carried_out(door, phase),
        Reply::Farewell(_) => has_line(phase),
        Reply::Leave(reason) => leaves_line(phase, reason),
        Reply::Break(_) => true,
        _ => false,
    }
}

/// Whether what is counted is done by a reply.
pub fn is_counted(counted: Counted, door: Door, phase: Phase, reply: Reply) -> bool
    ensures { result ≡ is_counted counted door phase reply }
{
    match (counted, reply) {
        (Counted::Jobs, _) => is_job(door, phase, reply),
        (Counted::Connections, Reply::Leave(_)) => same_door(Door::Requests, door),
        _ => false,
    }
}

/// Whether a session ends by a reply.
pub fn ends_session(phase: Phase, reply: Reply) -> bool
    ensures { result ≡ ends_session phase reply }
{
    match reply {
        Reply::Yield(_) | Reply::Farewell(_) | Reply::Leave(_) | Reply::Break(_) => {
            in_session(phase)
        }
        _ => false,
    }
}

/// The phase at the end of a session.
pub fn owed(phase: Phase) -> Phase
    ensures { result ≡ owed_phase phase }
{
    match phase {
        Phase::Ready(request, _) => Phase::Ready(request, Rank::Owed),
        other => other,
    }
}

/// The phase after a look-up within a session.
pub fn shared(share: u32, phase: Phase) -> Phase
    ensures { result ≡ shared_phase share phase }
{
    match phase {
        Phase::Between(session) => Phase::Between(Session { share, ..session }),
        other => other,
    }
}

/// The octets of an answer that are held.
pub fn answer_octets(phase: Phase) -> u64
    ensures { result ≡ answer_octets phase }
{
    match phase {
        Phase::Answered(_, octets) => octets,
        _ => 0,
    }
}
