//! What becomes of a session, or of a caller, by what was said, read and heard.

ghost use Rattle.std.specs.Prelude.{◌≡◌};
ghost use Rattle.oftp_requests.specs.Talking.{came_of, came_count, end_after, end_of_input, need_of, office_behind, office_of, office_under, sequel_of, trouble_greeting, trouble_hearing, welcome_after, welcome_of};

use crate::judging::{farewell_of, goes_on, result_of, trouble_of, trouble_within};
use oftp_engine::{Admission, End, RunFault};
use oftp_life::Stage;
use oftp_listing::OfficeState;
use oftp_outcomes::{Fault, Trouble, plain};
use oftp_schedule::connection as schedule;
use oftp_session::Ending;

/// Whether what was said went out.
#[derive(Clone, Copy, Debug, PartialEq, Eq, Drop)]
pub enum Saying {
    /// All of it did, or nothing was said.
    Sent,
    /// The writer returned an error, or accepted no octet.
    Unsent,
}

/// What a session hears next.
#[derive(Clone, Copy, Debug, PartialEq, Eq, Drop)]
pub enum Need {
    /// The next octets of its partner.
    Octets,
    /// Nothing: it sends a file, and goes on without more octets.
    Nothing,
}

/// What reading gave.
#[derive(Clone, Copy, Debug, PartialEq, Eq, Drop)]
pub enum Came {
    /// So many octets.
    Octets(usize),
    /// Nothing yet.
    Nothing,
    /// The end.
    End,
    /// An error.
    Lost,
}

/// What follows a step of a session.
#[derive(Clone, Copy)]
pub enum Sequel {
    /// It goes on.
    GoesOn,
    /// It ended like this, and its last words are still to go out or not.
    Ends(Result<End, Trouble>, schedule::End),
}

/// What comes of a caller.
#[derive(Clone, Copy, Debug, PartialEq, Eq, Drop)]
pub enum Welcome {
    /// It is to send more octets.
    Undecided,
    /// It is let in.
    LetIn,
    /// It is sent away: its session ended like this.
    SentAway(End),
    /// Its session failed.
    Failed(Trouble),
}

/// Whether the office of a session failed that stands like this. Then nothing more is recorded, as after a kill.
pub fn office_behind(stage: Stage) -> OfficeState
    ensures { result ≡ office_behind stage }
{
    match stage {
        Stage::Waits | Stage::Sends | Stage::Ended(_) => OfficeState::Working,
        Stage::Failed(RunFault::Read | RunFault::Write | RunFault::Memory) => OfficeState::Working,
        Stage::Failed(RunFault::Office) | Stage::Lost => OfficeState::Failed,
    }
}

/// Whether the office of a session failed that ended like this. Then nothing more is recorded.
pub fn office_under(ended: &Result<End, Fault>) -> OfficeState
    ensures { result ≡ office_under ended.now }
{
    match ended {
        Err(Fault::Run(RunFault::Office)) => OfficeState::Failed,
        _ => OfficeState::Working,
    }
}

/// How a session ended that stands like this, after what it said went out or not. `None` if it goes on.
///
/// # Errors
/// The session was cut short, or else it couldn't send what it said.
pub fn end_after(stage: Stage, saying: Saying) -> Result<Option<End>, Fault>
    ensures { result ≡ end_after stage saying }
{
    match (stage, saying) {
        (Stage::Waits | Stage::Sends, Saying::Sent) => Ok(None),
        (Stage::Ended(_), Saying::Unsent) => Err(Fault::Run(RunFault::Write)),
        // It was cut short, is over, or waits for an answer to what didn't go out.
        (stage, _) => match plain(&result_of(Some(stage))) {
            Ok(end) => Ok(Some(end)),
            Err(fault) => Err(fault),
        },
    }
}

// Whether the office of a session failed that stands like this, or is none.
fn office_of(stage: Option<Stage>) -> OfficeState
    ensures { result ≡ office_of stage }
{
    match stage {
        Some(stage) => office_behind(stage),
        None => OfficeState::Working,
    }
}

/// What follows a step after which a session stands like this, if this end of it is noted already: that is how it ended, unless its office failed.
pub fn sequel_of(stage: Option<Stage>, noted: Option<Result<End, Trouble>>) -> Sequel
    ensures { result ≡ sequel_of stage noted }
{
    // It is copied more than once.
    let standing = &stage;
    match office_of(*standing) {
        OfficeState::Failed => Sequel::Ends(result_of(*standing), farewell_of(*standing)),
        OfficeState::Working => match noted {
            Some(ended) => Sequel::Ends(ended, farewell_of(*standing)),
            None if goes_on(*standing) => Sequel::GoesOn,
            None => Sequel::Ends(result_of(*standing), farewell_of(*standing)),
        },
    }
}

/// What a session hears next that stands like this.
pub fn need_of(stage: Option<Stage>) -> Need
    ensures { result ≡ need_of stage }
{
    match stage {
        Some(Stage::Sends) => Need::Nothing,
        _ => Need::Octets,
    }
}

/// What came of reading that gave so many octets; `None` is an error.
pub fn came_of(count: Option<usize>) -> Came
    ensures { result ≡ came_of count }
{
    match count {
        None => Came::Lost,
        Some(0) => Came::End,
        Some(count) => Came::Octets(count),
    }
}

impl Came {
    /// How many octets came.
    pub fn count(self) -> usize
        ensures { result ≡ came_count self }
    {
        match self {
            Came::Octets(count) => count,
            Came::Nothing | Came::End | Came::Lost => 0,
        }
    }
}

/// How a session ends of whose partner this came. `None` if it goes on.
pub fn end_of_input(came: Came) -> Option<Result<End, Trouble>>
    ensures { result ≡ end_of_input came }
{
    match came {
        Came::Octets(_) | Came::Nothing => None,
        Came::End => Some(Ok(End::Input)),
        Came::Lost => Some(Err(trouble_of(RunFault::Read))),
    }
}

/// The error of a session that heard octets with this result, and then stands like this, if there was no room for them. How a session stands that
/// they cut short is told after what it said.
pub fn trouble_hearing(heard: Result<Option<Ending>, RunFault>, stage: Stage) -> Option<Trouble>
    ensures { result ≡ trouble_hearing heard stage }
{
    match (heard, stage) {
        (Err(fault), Stage::Waits | Stage::Sends) => Some(trouble_of(fault)),
        _ => None,
    }
}

/// The error of an opening that heard octets with this result, if there was no room for them. What else comes of its caller is told after what was
/// said to it.
pub fn trouble_greeting(heard: Result<Admission, RunFault>) -> Option<Trouble>
    ensures { result ≡ trouble_greeting heard }
{
    match heard {
        Err(RunFault::Memory) => Some(trouble_of(RunFault::Memory)),
        _ => None,
    }
}

/// What comes of a caller whose octets amount to this.
pub fn welcome_of(admission: Result<Admission, RunFault>) -> Welcome
    ensures { result ≡ welcome_of admission }
{
    match admission {
        Ok(Admission::Undecided) => Welcome::Undecided,
        Ok(Admission::LetIn) => Welcome::LetIn,
        Ok(Admission::SentAway(ending)) => Welcome::SentAway(End::from(ending)),
        Err(fault) => Welcome::Failed(trouble_within(fault)),
    }
}

/// The same after what was said to it went out or not. Who was let in hears the rest from its session.
pub fn welcome_after(admission: Result<Admission, RunFault>, saying: Saying) -> Welcome
    ensures { result ≡ welcome_after admission saying }
{
    match (welcome_of(admission), saying) {
        (Welcome::Undecided | Welcome::SentAway(_), Saying::Unsent) => {
            Welcome::Failed(trouble_of(RunFault::Write))
        }
        (welcome, _) => welcome,
    }
}
