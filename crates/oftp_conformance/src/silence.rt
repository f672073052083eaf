//! What a session lacks whose octets end.

ghost use Rattle.std.specs.Prelude.{◌≡◌, Some};
ghost use Rattle.std.specs.Fmt.{DisplaysOnOk};
ghost use Rattle.oftp_conformance.specs.Silences.{side_text, due_text, silence_text, silence};

use crate::session::{Phase, Session};
use oftp_telling::Sender;
use std::fmt;

/// Which side was silent at the end, and what it owed (RFC 5024, section 4.7.2).
#[derive(Clone, Copy, Debug, PartialEq, Eq)]
pub struct Silence {
    /// The side.
    pub side: Sender,
    /// What came next.
    pub phase: Phase,
}

// A side in words.
fn side_text(side: Sender) -> &'static str
    ensures { result.now ≡ side_text side }
{
    match side {
        Sender::Partner => "the partner",
        Sender::Station => "this station",
    }
}

// The commands that a phase waits for.
fn due_text(phase: Phase) -> &'static str
    ensures { result.now ≡ due_text phase }
{
    match phase {
        Phase::Greeting => "SSRM",
        Phase::Starting | Phase::Answering => "SSID",
        Phase::Speaking => "SFID, EERP, NERP, CD or ESID",
        Phase::Offered => "SFPA or SFNA",
        Phase::Sending => "DATA or EFID",
        Phase::Refilling => "CDT",
        Phase::Closing => "EFPA or EFNA",
        Phase::Turning => "CD",
        Phase::Responding => "RTR",
        Phase::Over => "nothing",
    }
}

// Writes who was silent.
#[tactic(auto, unfolding(crate::specs::Silences::silence_text))]
fn write_silence<W: fmt::Write>(f: &mut fmt::Formatter<W>, silence: Silence) -> fmt::Result
    ensures { DisplaysOnOk W.write_str_gives f.old result (Some (silence_text silence)) f.new }
{
    write!(
        f,
        "no command follows: {} owes {} (RFC 5024, section 4.7.2)",
        side_text(silence.side),
        due_text(silence.phase)
    )
}

impl fmt::Display for Silence {
    ghost use Rattle.std.specs.Prelude.{Some};
    ghost use Rattle.oftp_conformance.specs.Silences.{silence_text};

    ghost output = { λ s. Some (silence_text s) };

    fn fmt<W: fmt::Write>(&self, f: &mut fmt::Formatter<W>) -> fmt::Result {
        write_silence(f, *self)
    }
}

impl Session<'_> {
    /// Which side was silent, if nothing follows. Nobody was if the session is over.
    pub fn silence(&self) -> Option<Silence>
        ensures { result ≡ silence self.now }
    {
        match self.phase {
            Phase::Over => None,
            phase => Some(Silence {
                side: self.owing(),
                phase,
            }),
        }
    }
}
