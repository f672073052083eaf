//! How a session of a life stands.

ghost use Rattle.std.specs.Prelude.{◌≡◌};
ghost use Rattle.oftp_life.specs.Lives.{after_look, answer_of, ends_life, has_ceased, has_failed, is_of_office, is_over_at, stage_of};

use oftp_engine::{Going, RunFault};
use oftp_session::Ending;

/// How a session of a life stands.
#[derive(Clone, Copy, Debug, Drop, PartialEq, Eq)]
pub enum Stage {
    /// It waits for more octets.
    Waits,
    /// It sends a file, and goes on without more octets.
    Sends,
    /// It has ended.
    Ended(Ending),
    /// It was cut short.
    Failed(RunFault),
    /// The life was over before it, or the office returned an error in a look-up while it waited.
    Lost,
}

// Whether an error is the office's.
fn is_of_office(fault: RunFault) -> bool
    ensures { result ≡ is_of_office fault }
{
    match fault {
        RunFault::Office => true,
        RunFault::Read | RunFault::Write | RunFault::Memory => false,
    }
}

// Whether a life is over after this result.
pub(crate) fn ends_life<T>(answer: &Result<T, RunFault>) -> bool
    ensures { result ≡ ends_life answer.now }
{
    match answer {
        Ok(_) => false,
        Err(fault) => is_of_office(*fault),
    }
}

// Whether a look-up returned an error.
pub(crate) fn has_failed<T, E>(found: &Result<T, E>) -> bool
    ensures { result ≡ has_failed found.now }
{
    match found {
        Ok(_) => false,
        Err(_) => true,
    }
}

// How a session that stood like this stands after a look-up.
pub(crate) fn after_look<T, E>(before: Stage, found: &Result<T, E>) -> Stage
    ensures { result ≡ after_look before found.now }
{
    match found {
        Ok(_) => before,
        Err(_) => Stage::Lost,
    }
}

// How a session stands that went on with this result.
pub(crate) fn stage_of(went: &Result<Going, RunFault>) -> Stage
    ensures { result ≡ stage_of went.now }
{
    match went {
        Ok(Going::Waits) => Stage::Waits,
        Ok(Going::Sends) => Stage::Sends,
        Ok(Going::Ended(ending)) => Stage::Ended(*ending),
        Err(fault) => Stage::Failed(*fault),
    }
}

impl Stage {
    // Whether the life is over.
    pub(crate) fn is_over(self) -> bool
        ensures { result ≡ is_over_at self }
    {
        match self {
            Stage::Failed(fault) => is_of_office(fault),
            Stage::Lost => true,
            Stage::Waits | Stage::Sends | Stage::Ended(_) => false,
        }
    }

    // Whether the session can't go on.
    pub(crate) fn has_ceased(self) -> bool
        ensures { result ≡ has_ceased self }
    {
        match self {
            Stage::Waits | Stage::Sends => false,
            Stage::Ended(_) | Stage::Failed(_) | Stage::Lost => true,
        }
    }

    // The result with which a session stands like this.
    pub(crate) fn answer(self) -> Result<Option<Ending>, RunFault>
        ensures { result ≡ answer_of self }
    {
        match self {
            Stage::Waits | Stage::Sends => Ok(None),
            Stage::Ended(ending) => Ok(Some(ending)),
            Stage::Failed(fault) => Err(fault),
            Stage::Lost => Err(RunFault::Office),
        }
    }
}
