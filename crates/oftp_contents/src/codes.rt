//! The codes of what is one of a few.

ghost use Rattle.std.specs.Prelude.{◌≡◌, None, IfSome};
ghost use Rattle.oftp_contents.specs.Codes.{cause_code, marked_code, side_code};
ghost use Rattle.oftp_contents.specs.declared.codes.EndCause.{EndCause};
ghost use Rattle.oftp_contents.specs.declared.codes.Marked.{Marked};
ghost use Rattle.oftp_contents.specs.declared.codes.RecordSide.{RecordSide};

/// The side of a session that the station has (RFC 5024, section 4.2.1).
#[derive(Clone, Copy, Debug, PartialEq, Eq, Drop)]
pub enum RecordSide {
    /// The partner called.
    Responder,
    /// The station called.
    Initiator,
}

impl RecordSide {
    /// Its code.
    pub fn code(self) -> u8
        ensures { result ≡ side_code self }
    {
        match self {
            RecordSide::Responder => 1,
            RecordSide::Initiator => 2,
        }
    }

    /// The side with a code; `None` where none has it.
    pub fn of_code(code: u8) -> Option<RecordSide>
        ensures one { IfSome result (λ side. side_code side ≡ code) }
        ensures none { result ≡ None → (side : RecordSide) → side_code side ≡ code → ⊥ }
    {
        match code {
            1 => Some(RecordSide::Responder),
            2 => Some(RecordSide::Initiator),
            _ => None,
        }
    }
}

/// Why a session or a call ended.
#[derive(Clone, Copy, Debug, PartialEq, Eq, Drop)]
pub enum EndCause {
    /// It came to its end: what it heard determines its line.
    Itself,
    /// Its input ended.
    Input,
    /// It was cut off, or reading failed.
    Read,
    /// Writing failed, or its partner took nothing.
    Write,
    /// Another error.
    Other,
}

impl EndCause {
    /// Its code.
    pub fn code(self) -> u8
        ensures { result ≡ cause_code self }
    {
        match self {
            EndCause::Itself => 1,
            EndCause::Input => 2,
            EndCause::Read => 3,
            EndCause::Write => 4,
            EndCause::Other => 5,
        }
    }

    /// The cause with a code; `None` where none has it.
    pub fn of_code(code: u8) -> Option<EndCause>
        ensures one { IfSome result (λ cause. cause_code cause ≡ code) }
        ensures none { result ≡ None → (cause : EndCause) → cause_code cause ≡ code → ⊥ }
    {
        match code {
            1 => Some(EndCause::Itself),
            2 => Some(EndCause::Input),
            3 => Some(EndCause::Read),
            4 => Some(EndCause::Write),
            5 => Some(EndCause::Other),
            _ => None,
        }
    }
}

/// Of what a mark has the digest.
#[derive(Clone, Copy, Debug, PartialEq, Eq, Drop)]
pub enum Marked {
    /// Of the register at this moment.
    Register,
    /// Of the last entry of the day before: the first entry of a day is such a mark.
    DayBefore,
}

impl Marked {
    /// Its code.
    pub fn code(self) -> u8
        ensures { result ≡ marked_code self }
    {
        match self {
            Marked::Register => 1,
            Marked::DayBefore => 2,
        }
    }

    /// What has a code; `None` where nothing has it.
    pub fn of_code(code: u8) -> Option<Marked>
        ensures one { IfSome result (λ marked. marked_code marked ≡ code) }
        ensures none { result ≡ None → (marked : Marked) → marked_code marked ≡ code → ⊥ }
    {
        match code {
            1 => Some(Marked::Register),
            2 => Some(Marked::DayBefore),
            _ => None,
        }
    }
}
