//! The theorem about progress: it is said once a second at most.

ghost use Rattle.oftp_progress.specs.Laws.{IsSaidInTime};

/// However often a command asks for a line, the lines are a second or more apart. The function does nothing; its contract is the theorem.
pub fn said_in_time()
    ensures { IsSaidInTime }
{}
