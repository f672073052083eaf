//! The rules on stream headers.

ghost use Rattle.std.specs.Prelude.{◌≡◌};
ghost use Rattle.oftp_conformance.specs.FrameRules.{frame_section, frame_says, frame_wanted, frame_advice, frame_bearing, frame_departure};

use crate::departure::{Bearing, Departure};

/// A rule on stream headers.
#[derive(Clone, Copy, Debug, Drop, PartialEq, Eq)]
pub enum FrameRule {
    /// The version of a stream header.
    Version,
    /// The flags of a stream header.
    Flags,
    /// The length in a stream header.
    Length,
}

impl FrameRule {
    /// The section of RFC 5024 that has it.
    pub fn section(self) -> &'static str
        ensures { result.now ≡ frame_section self }
    {
        match self {
            FrameRule::Version | FrameRule::Flags | FrameRule::Length => "8.2",
        }
    }

    /// What the standard says.
    pub fn says(self) -> &'static str
        ensures { result.now ≡ frame_says self }
    {
        match self {
            FrameRule::Version => "a stream header has version 1",
            FrameRule::Flags => "the flags of a stream header are 0",
            FrameRule::Length => "a length has its header, and is 5 to 100003",
        }
    }

    /// What is expected.
    pub fn wanted(self) -> &'static str
        ensures { result.now ≡ frame_wanted self }
    {
        match self {
            FrameRule::Version | FrameRule::Flags => "the octet 10 (hexadecimal)",
            FrameRule::Length => "5 to 100003",
        }
    }

    /// What to tell the partner.
    pub fn advice(self) -> &'static str
        ensures { result.now ≡ frame_advice self }
    {
        match self {
            FrameRule::Version => "send stream headers of version 1",
            FrameRule::Flags => "send stream headers without flags",
            FrameRule::Length => "count each header with its command",
        }
    }

    /// Whether the standard forbids what breaks it.
    pub fn bearing(self) -> Bearing
        ensures { result ≡ frame_bearing self }
    {
        match self {
            FrameRule::Version | FrameRule::Flags | FrameRule::Length => Bearing::Forbidden,
        }
    }

    /// The departure of this station that takes part, if one does.
    pub fn departure(self) -> Option<Departure>
        ensures { result ≡ frame_departure self }
    {
        match self {
            FrameRule::Version | FrameRule::Length => None,
            FrameRule::Flags => Some(Departure::StrictHeaders),
        }
    }
}
