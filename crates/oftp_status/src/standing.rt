//! How a file stands: what it waits for, or what became of it.

ghost use Rattle.std.specs.Prelude.{◌≡◌};
ghost use Rattle.oftp_status.specs.Subjects.{is_open, same_standing, standing_text, way_of};

use crate::way::Way;

/// How a file stands.
#[derive(Clone, Copy, Debug, Drop, PartialEq, Eq)]
pub enum Standing {
    /// It comes: not all of it is here.
    Coming,
    /// It is whole, and waits to be released or refused.
    Whole,
    /// Its response was issued, and is to be sent.
    Due,
    /// Its response was sent.
    Answered,
    /// It waits to be sent.
    Waiting,
    /// All of it went out, and the partner's answer to its end is missing.
    Closing,
    /// The partner has it, and owes its End-to-End Response.
    Handed,
    /// The partner refused it.
    Refused,
    /// The partner's End-to-End Response came.
    Delivered,
    /// The partner's Negative End Response came.
    Returned,
}

impl Standing {
    /// Which way the file goes.
    pub fn way(self) -> Way
        ensures { result ≡ way_of self }
    {
        match self {
            Standing::Coming | Standing::Whole | Standing::Due | Standing::Answered => { Way::In }
            _ => Way::Out,
        }
    }

    /// Its word.
    pub fn word(self) -> &'static str
        ensures { result.now ≡ standing_text self }
    {
        match self {
            Standing::Coming => "open",
            Standing::Whole => "whole",
            Standing::Due => "due",
            Standing::Answered => "answered",
            Standing::Waiting => "waiting",
            Standing::Closing => "closing",
            Standing::Handed => "handed",
            Standing::Refused => "refused",
            Standing::Delivered => "delivered",
            Standing::Returned => "returned",
        }
    }

    /// Whether something is still to be done with the file, here or by the partner.
    pub fn is_open(self) -> bool
        ensures { result ≡ is_open self }
    {
        match self {
            Standing::Coming | Standing::Whole | Standing::Due => true,
            Standing::Waiting | Standing::Closing | Standing::Handed => true,
            Standing::Answered | Standing::Refused => false,
            Standing::Delivered | Standing::Returned => false,
        }
    }

    /// Whether both are the same.
    pub fn is(self, other: Standing) -> bool
        ensures { result ≡ same_standing self other }
    {
        self.word() == other.word()
    }
}
