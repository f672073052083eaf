//! What is told of an attempt to accept a connection, and when another one is made.

ghost use Rattle.std.specs.Prelude.{◌≡◌};
ghost use Rattle.oftp_schedule.specs.Accepting.{arrival_of};

use crate::connection::Arrival;

/// What an attempt to accept a connection came to.
#[derive(Clone, Copy, Debug, PartialEq, Eq)]
pub enum Attempt {
    /// A connection.
    Connection,
    /// Nobody waits.
    Empty,
    /// The system had no descriptor or no memory for it.
    Short,
    /// Who waited is gone, or the system interrupted it.
    Gone,
    /// The door failed for good.
    Broken,
}

/// What is told of an attempt after which so many others may be made. `None` where another one is made.
pub fn arrival_of(attempt: Attempt, left: u32) -> Option<Arrival>
    ensures { result ≡ arrival_of attempt left }
{
    match attempt {
        Attempt::Connection => Some(Arrival::Somebody),
        Attempt::Empty => Some(Arrival::Nobody),
        Attempt::Short => Some(Arrival::Later),
        Attempt::Broken => Some(Arrival::Never),
        Attempt::Gone => {
            if left == 0 {
                Some(Arrival::Later)
            } else {
                None
            }
        }
    }
}
