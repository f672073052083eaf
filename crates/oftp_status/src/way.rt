//! Which way a session or a file goes.

ghost use Rattle.std.specs.Prelude.{◌≡◌};
ghost use Rattle.oftp_status.specs.Subjects.{same_way, way_text};

use std::fmt;

/// Which way a session or a file goes.
#[derive(Clone, Copy, Debug, Drop, PartialEq, Eq)]
pub enum Way {
    /// The partner called, or the file comes from it.
    In,
    /// The station called, or the file goes to the partner.
    Out,
}

impl Way {
    /// Its word.
    pub fn word(self) -> &'static str
        ensures { result.now ≡ way_text self }
    {
        match self {
            Way::In => "in",
            Way::Out => "out",
        }
    }

    /// Whether both are the same.
    pub fn is(self, other: Way) -> bool
        ensures { result ≡ same_way self other }
    {
        match (self, other) {
            (Way::In, Way::In) | (Way::Out, Way::Out) => true,
            _ => false,
        }
    }
}
