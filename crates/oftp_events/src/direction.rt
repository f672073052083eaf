//! Which way a session or a file goes.

ghost use Rattle.std.specs.Prelude.{◌≡◌, Some};
ghost use Rattle.oftp_events.specs.Events.{direction_text};

use std::fmt;

/// Which way a session or a file goes.
#[derive(Clone, Copy, Debug, Drop, PartialEq, Eq)]
pub enum Direction {
    /// The partner called, or the file comes from it.
    In,
    /// The station called, or the file goes to the partner.
    Out,
}

impl Direction {
    /// The word that a line has for it: `in` or `out`.
    pub fn word(self) -> &'static str
        ensures { result.now ≡ direction_text self }
    {
        match self {
            Direction::In => "in",
            Direction::Out => "out",
        }
    }
}

impl fmt::Display for Direction {
    ghost output = { λ direction. Some (direction_text direction) };

    fn fmt<W: fmt::Write>(&self, f: &mut fmt::Formatter<W>) -> fmt::Result {
        f.write_str(self.word())
    }
}
