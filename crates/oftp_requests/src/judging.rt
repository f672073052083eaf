//! What a request asks of the schedule, how a session ended, and what becomes of an error.

ghost use Rattle.std.specs.Prelude.{◌≡◌};
ghost use Rattle.oftp_requests.specs.Judged.{asking_of, changes_register, closing_of, declined, ended_for, ending_with, farewell_of, goes_on, office_after, office_within, told_reason, result_at, result_of, signal_of, last_status, told_status, trouble_of, trouble_within};

use oftp_channel::{Ending as Answered, Haste, Request};
use oftp_engine::{End, RunFault};
use oftp_life::Stage;
use oftp_listing::OfficeState;
use oftp_outcomes::{Fault, Term, Trouble};
use oftp_schedule::connection::{self as schedule, Partner, Reason, Signal, Status};
use oftp_session::Ending;

/// What a request asks of the schedule.
#[derive(Clone, Copy)]
pub(crate) enum Asking {
    /// A job of this kind.
    For(schedule::Request),
    /// A call of a partner.
    Call,
}

/// What a request asks of the schedule.
pub(crate) fn asking_of(request: &Request<'_>) -> Asking
    ensures { result ≡ asking_of request.now }
{
    match request {
        Request::Operate { .. } => Asking::For(schedule::Request::Update),
        Request::Resend { .. } => Asking::For(schedule::Request::Update),
        Request::Call { .. } => Asking::Call,
        Request::Backup { .. } => Asking::For(schedule::Request::Backup),
        Request::Stop(Haste::InTurn) | Request::Reload => Asking::For(schedule::Request::Update),
        Request::Stop(Haste::AtOnce) => Asking::For(schedule::Request::Query),
        Request::Report(_) | Request::Init => Asking::For(schedule::Request::Query),
        Request::Unanswered | Request::Outgoing { .. } => Asking::For(schedule::Request::Query),
        Request::Fetch { .. } | Request::Holds { .. } => Asking::For(schedule::Request::Query),
        Request::Status(_) | Request::Health { .. } => Asking::For(schedule::Request::Query),
        Request::Settled => Asking::For(schedule::Request::Query),
    }
}

/// Whether a request is for a change of the register. The station tells and records whose it is.
pub fn changes_register(request: &Request<'_>) -> bool
    ensures { result ≡ changes_register request.now }
{
    matches!(request, Request::Operate { .. } | Request::Resend { .. })
}

/// What the schedule is told of a request that asks for this, and whose call would be one of this partner. A call that can't be made is a
/// look-up, whose answer says why.
pub(crate) fn signal_of(asking: Asking, partner: Option<Partner>) -> Signal
    ensures { result ≡ signal_of asking partner }
{
    match (asking, partner) {
        (Asking::For(kind), _) => Signal::Asked(kind),
        (Asking::Call, Some(partner)) => Signal::Wants(partner),
        (Asking::Call, None) => Signal::Asked(schedule::Request::Query),
    }
}

/// The error of a request that isn't done for this reason.
pub fn declined(reason: Reason) -> Fault
    ensures { result ≡ declined reason }
{
    match reason {
        Reason::TimedOut => Fault::File,
        _ => Fault::Socket,
    }
}

/// An error of a session: of that session alone, or of the service.
pub fn trouble_of(fault: RunFault) -> Trouble
    ensures { result ≡ trouble_of fault }
{
    match fault {
        RunFault::Read | RunFault::Write => Trouble::OfJob(Fault::Run(fault)),
        RunFault::Office | RunFault::Memory => Trouble::OfService(Fault::Run(fault)),
    }
}

/// An error within a session. What it says is kept in memory, so a failed write there is out of memory.
pub(crate) fn trouble_within(fault: RunFault) -> Trouble
    ensures { result ≡ trouble_within fault }
{
    match fault {
        RunFault::Write => trouble_of(RunFault::Memory),
        other => trouble_of(other),
    }
}

/// Whether a session goes on that stands like this.
pub fn goes_on(stage: Option<Stage>) -> bool
    ensures { result ≡ goes_on stage }
{
    matches!(stage, Some(Stage::Waits | Stage::Sends))
}

/// How a session ended that stands like this, or was cut off while it waited.
pub fn result_of(stage: Option<Stage>) -> Result<End, Trouble>
    ensures { result ≡ result_of stage }
{
    match stage {
        Some(Stage::Ended(ending)) => Ok(End::from(ending)),
        Some(Stage::Failed(fault)) => Err(trouble_within(fault)),
        Some(Stage::Lost) => Err(trouble_of(RunFault::Office)),
        Some(Stage::Waits | Stage::Sends) | None => Err(trouble_of(RunFault::Write)),
    }
}

/// Whether the last words of a session that stands like this are still to go out.
pub fn farewell_of(stage: Option<Stage>) -> schedule::End
    ensures { result ≡ farewell_of stage }
{
    match stage {
        Some(Stage::Ended(Ending::Own(_))) => schedule::End::Own,
        Some(Stage::Failed(RunFault::Office)) => schedule::End::Own,
        Some(Stage::Lost) => schedule::End::Own,
        _ => schedule::End::Other,
    }
}

/// How a session ended that was cut off for this reason, or was never begun.
pub fn ended_for(reason: Reason) -> Result<End, Trouble>
    ensures { result ≡ ended_for reason }
{
    match reason {
        Reason::Quit | Reason::Finished => Ok(End::Input),
        Reason::Stalled => Err(trouble_of(RunFault::Write)),
        Reason::Unreached | Reason::Orphaned => Err(Trouble::OfJob(Fault::Socket)),
        // A session that goes on is cut off only by a failing office.
        Reason::Stopping => Err(trouble_of(RunFault::Office)),
        Reason::Evicted | Reason::Invalid | Reason::TimedOut | Reason::Vanished => {
            Err(trouble_of(RunFault::Read))
        }
    }
}

/// The reason for which a session is over, if the station was told to end. One that is cut off for this isn't over for a failing office.
pub fn told_reason(stop: Option<Haste>, reason: Reason) -> Reason
    ensures { result ≡ told_reason stop reason }
{
    match (stop, reason) {
        (Some(Haste::AtOnce), Reason::Stopping) => Reason::Vanished,
        (_, reason) => reason,
    }
}

/// How the schedule is told that the station ends: as for a failing office where the session is cut off.
pub fn told_status(haste: Haste) -> Status
    ensures { result ≡ told_status haste }
{
    match haste {
        Haste::InTurn => Status::Stopped,
        Haste::AtOnce => Status::OfficeFailed,
    }
}

/// How the station ended, where it was told to: not for a failing office because a session was cut off.
pub fn last_status(stop: Option<Haste>, status: Status) -> Status
    ensures { result ≡ last_status stop status }
{
    match (stop, status) {
        (Some(Haste::AtOnce), Status::OfficeFailed) => Status::Stopped,
        (_, status) => status,
    }
}

/// What becomes of the error of a request that has no answer for it.
#[derive(Clone, Copy)]
pub enum Closing {
    /// There is none, or the service ends with it already.
    Nothing,
    /// It is told, and the service goes on.
    Tell(Fault),
    /// The service ends with it.
    Fail(Fault),
}

/// What becomes of the error of a request that has no answer for it, where a life lasts so long.
pub fn closing_of(trouble: Option<Trouble>, term: Term) -> Closing
    ensures { result ≡ closing_of trouble term }
{
    match (trouble, term) {
        (None, _) => Closing::Nothing,
        (Some(Trouble::OfJob(fault)), _) => Closing::Tell(fault),
        (Some(Trouble::OfService(fault)), Term::OfJob) => Closing::Fail(fault),
        (Some(Trouble::OfService(_)), Term::OfService) => Closing::Nothing,
    }
}

/// How a request ended that had this end, or this error. What it says is kept in memory, so a failed write there is out of memory.
pub fn ending_with(told: Result<Answered, Fault>) -> Answered
    ensures { result ≡ ending_with told }
{
    match told {
        Ok(ending) => ending,
        Err(fault) => Answered::Failed(fault.in_memory()),
    }
}

/// Whether the office failed under a request that ended like this. Then nothing more is recorded, as after a kill.
pub fn office_after(ending: &Answered) -> OfficeState
    ensures { result ≡ office_after ending.now }
{
    match ending {
        Answered::Failed(Fault::Run(RunFault::Office)) => OfficeState::Failed,
        _ => OfficeState::Working,
    }
}

/// Whether the service's office failed, if a life lasts so long and the office of a look-up was so. What fails with a job is no matter of
/// the service.
pub fn office_within(term: Term, office: OfficeState) -> OfficeState
    ensures { result ≡ office_within term office }
{
    match term {
        Term::OfService => office,
        Term::OfJob => OfficeState::Working,
    }
}

/// The error of a service that ended like this, if it is one. It is that with which the service ended, or that of its door or its office.
pub fn result_at(fault: Option<Fault>, status: Status) -> Option<Fault>
    ensures { result ≡ result_at fault status }
{
    match (fault, status) {
        (Some(fault), _) => Some(fault),
        (None, Status::Stopped) => None,
        (None, Status::DoorFailed) => Some(Fault::Socket),
        (None, Status::OfficeFailed) => Some(Fault::Run(RunFault::Office)),
    }
}
