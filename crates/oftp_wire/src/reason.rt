//! The reasons of SFNA, EFNA and ESID.

ghost use Rattle.std.specs.Prelude.{◌≡◌, ◌≢◌, IfSome, IfNone};
ghost use Rattle.oftp_wire.specs.Reasons.{start_number, start_reason, end_number, end_reason, session_number, session_reason, reason_of};

use crate::fault::WireFault;
use crate::field::Count;
use crate::words::{write_end_reason, write_session_reason, write_start_reason};
use std::fmt;

/// Why a station refuses a virtual file: the reasons of SFNA (RFC 5024, section 5.3.5).
#[derive(Clone, Copy, Debug, PartialEq, Eq)]
pub enum StartReason {
    /// 01: the dataset name isn't one that the station accepts.
    InvalidFilename,
    /// 02: the station neither is nor reaches the destination.
    InvalidDestination,
    /// 03: the station doesn't accept files of the originator.
    InvalidOrigin,
    /// 05: the longest record is above the station's limit, or 0.
    MaximumRecordLengthNotSupported,
    /// 06: the file is larger than the station accepts.
    FileSizeTooBig,
    /// 13: the station has the file already.
    DuplicateFile,
    /// 14: the station doesn't accept files in this direction.
    FileDirectionRefused,
    /// 99: none of the others.
    Unspecified,
}

/// Why a station refuses the end of a virtual file: the reasons of EFNA (RFC 5024, section 5.3.10).
#[derive(Clone, Copy, Debug, PartialEq, Eq)]
pub enum EndReason {
    /// 10: EFID has another number of records than were received.
    InvalidRecordCount,
    /// 11: EFID has another number of octets than were received.
    InvalidByteCount,
}

/// Why a station ends the session: the reasons of ESID (RFC 5024, section 5.3.11).
#[derive(Clone, Copy, Debug, PartialEq, Eq)]
pub enum SessionReason {
    /// 00: there is nothing more to do.
    Normal,
    /// 01: no command begins with the octet that was received.
    CommandNotRecognised,
    /// 02: the command isn't allowed now, or a frame is faulty.
    ProtocolViolation,
    /// 03: the station has no partner with this Identification Code.
    UserCodeNotKnown,
    /// 04: the password isn't the partner's.
    InvalidPassword,
    /// 06: a field has an invalid value.
    InvalidData,
    /// 07: the command is longer or shorter than its kind allows.
    BufferSizeError,
    /// 08: the station has no memory or no space left.
    ResourcesNotAvailable,
    /// 10: the stations agree on no mode, or one lacks what the other needs.
    ModeIncompatible,
    /// 12: one station requires secure authentication, the other doesn't.
    AuthenticationIncompatible,
}

impl StartReason {
    /// The two digits of SFNA's reason field, as a number.
    pub fn number(self) -> Count<2>
        ensures { result ≡ start_number self }
    {
        Count::new(match self {
            StartReason::InvalidFilename => 1,
            StartReason::InvalidDestination => 2,
            StartReason::InvalidOrigin => 3,
            StartReason::MaximumRecordLengthNotSupported => 5,
            StartReason::FileSizeTooBig => 6,
            StartReason::DuplicateFile => 13,
            StartReason::FileDirectionRefused => 14,
            StartReason::Unspecified => 99,
        })
    }

    /// The reason with a number, or `None` where no listed reason has it.
    pub fn from_number(number: Count<2>) -> Option<StartReason>
        ensures value { result ≡ start_reason number }
        ensures listed { IfSome result (λ r. start_number r ≡ number) }
        ensures other { IfNone result ((r : StartReason) → start_number r ≢ number) }
    {
        match number.get() {
            1 => Some(StartReason::InvalidFilename),
            2 => Some(StartReason::InvalidDestination),
            3 => Some(StartReason::InvalidOrigin),
            5 => Some(StartReason::MaximumRecordLengthNotSupported),
            6 => Some(StartReason::FileSizeTooBig),
            13 => Some(StartReason::DuplicateFile),
            14 => Some(StartReason::FileDirectionRefused),
            99 => Some(StartReason::Unspecified),
            _ => None,
        }
    }
}

impl EndReason {
    /// The two digits of EFNA's reason field, as a number.
    pub fn number(self) -> Count<2>
        ensures { result ≡ end_number self }
    {
        Count::new(match self {
            EndReason::InvalidRecordCount => 10,
            EndReason::InvalidByteCount => 11,
        })
    }

    /// The reason with a number, or `None` where no listed reason has it.
    pub fn from_number(number: Count<2>) -> Option<EndReason>
        ensures value { result ≡ end_reason number }
        ensures listed { IfSome result (λ r. end_number r ≡ number) }
        ensures other { IfNone result ((r : EndReason) → end_number r ≢ number) }
    {
        match number.get() {
            10 => Some(EndReason::InvalidRecordCount),
            11 => Some(EndReason::InvalidByteCount),
            _ => None,
        }
    }
}

impl SessionReason {
    /// The two digits of ESID's reason field, as a number.
    pub fn number(self) -> Count<2>
        ensures { result ≡ session_number self }
    {
        Count::new(match self {
            SessionReason::Normal => 0,
            SessionReason::CommandNotRecognised => 1,
            SessionReason::ProtocolViolation => 2,
            SessionReason::UserCodeNotKnown => 3,
            SessionReason::InvalidPassword => 4,
            SessionReason::InvalidData => 6,
            SessionReason::BufferSizeError => 7,
            SessionReason::ResourcesNotAvailable => 8,
            SessionReason::ModeIncompatible => 10,
            SessionReason::AuthenticationIncompatible => 12,
        })
    }

    /// The reason with a number, or `None` where no listed reason has it.
    pub fn from_number(number: Count<2>) -> Option<SessionReason>
        ensures value { result ≡ session_reason number }
        ensures listed { IfSome result (λ r. session_number r ≡ number) }
        ensures other { IfNone result ((r : SessionReason) → session_number r ≢ number) }
    {
        match number.get() {
            0 => Some(SessionReason::Normal),
            1 => Some(SessionReason::CommandNotRecognised),
            2 => Some(SessionReason::ProtocolViolation),
            3 => Some(SessionReason::UserCodeNotKnown),
            4 => Some(SessionReason::InvalidPassword),
            6 => Some(SessionReason::InvalidData),
            7 => Some(SessionReason::BufferSizeError),
            8 => Some(SessionReason::ResourcesNotAvailable),
            10 => Some(SessionReason::ModeIncompatible),
            12 => Some(SessionReason::AuthenticationIncompatible),
            _ => None,
        }
    }
}

impl WireFault {
    /// The reason of the ESID that answers faulty octets, or `None` for `NoRoom`, which `parse` never returns.
    pub fn reason(self) -> Option<SessionReason>
        ensures { result ≡ reason_of self }
    {
        match self {
            WireFault::UnknownCommand => Some(SessionReason::CommandNotRecognised),
            WireFault::WrongLength => Some(SessionReason::BufferSizeError),
            WireFault::BadField(_) | WireFault::BadText => Some(SessionReason::InvalidData),
            WireFault::NoRoom => None,
        }
    }
}

impl fmt::Display for StartReason {
    ghost use Rattle.std.specs.Prelude.{Some};
    ghost use Rattle.oftp_wire.specs.Reasons.{start_number, start_text};

    ghost output = { λ r. Some (start_text (start_number r)) };

    fn fmt<W: fmt::Write>(&self, f: &mut fmt::Formatter<W>) -> fmt::Result {
        write_start_reason(f, self.number())
    }
}

impl fmt::Display for EndReason {
    ghost use Rattle.std.specs.Prelude.{Some};
    ghost use Rattle.oftp_wire.specs.Reasons.{end_number, end_text};

    ghost output = { λ r. Some (end_text (end_number r)) };

    fn fmt<W: fmt::Write>(&self, f: &mut fmt::Formatter<W>) -> fmt::Result {
        write_end_reason(f, self.number())
    }
}

impl fmt::Display for SessionReason {
    ghost use Rattle.std.specs.Prelude.{Some};
    ghost use Rattle.oftp_wire.specs.Reasons.{session_number, session_text};

    ghost output = { λ r. Some (session_text (session_number r)) };

    fn fmt<W: fmt::Write>(&self, f: &mut fmt::Formatter<W>) -> fmt::Result {
        write_session_reason(f, self.number())
    }
}
