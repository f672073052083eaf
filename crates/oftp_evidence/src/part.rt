//! What a command says of a file.

ghost use Rattle.std.specs.Prelude.{◌≡◌};
ghost use Rattle.oftp_evidence.specs.Parts.{part_about, part_by, part_in, part_word, refusal_identity, response_identity};

use oftp_codec::parse;
use oftp_register::{DigitString, Identity, Name, identity_of};
use oftp_wire::{Command, Eerp, Nerp};

/// What a command says of a file.
#[derive(Clone, Copy, Debug, Drop, PartialEq, Eq)]
pub enum Part {
    /// An SFID offers it (RFC 5024, section 5.3.3).
    Offer,
    /// An EERP says that it was delivered (section 5.3.13).
    Response,
    /// A NERP says that it won't be delivered (section 5.3.14).
    Refusal,
}

impl Part {
    /// The name of the command that says it.
    pub fn word(self) -> &'static str
        ensures { result.now ≡ part_word self }
    {
        match self {
            Part::Offer => "SFID",
            Part::Response => "EERP",
            Part::Refusal => "NERP",
        }
    }
}

// The identity of the file that an EERP answers: the response goes to its originator.
fn response_identity(eerp: &Eerp<'_>) -> Identity
    ensures { result ≡ response_identity eerp.now }
{
    Identity {
        dataset: Name::of(&eerp.dataset),
        date: DigitString::of(&eerp.date),
        time: DigitString::of(&eerp.time),
        originator: Name::of(&eerp.destination),
        destination: Name::of(&eerp.originator),
    }
}

// The identity of the file that a NERP answers: the response goes to its originator.
fn refusal_identity(nerp: &Nerp<'_>) -> Identity
    ensures { result ≡ refusal_identity nerp.now }
{
    Identity {
        dataset: Name::of(&nerp.dataset),
        date: DigitString::of(&nerp.date),
        time: DigitString::of(&nerp.time),
        originator: Name::of(&nerp.destination),
        destination: Name::of(&nerp.originator),
    }
}

// What is said of a file, if it is the one of which this is said.
fn part_about(file: &Identity, other: &Identity, part: Part) -> Option<Part>
    ensures { result ≡ part_about file.now other.now part }
{
    if file.is(other) { Some(part) } else { None }
}

// What a command says of a file.
fn part_by(file: &Identity, command: &Command<'_>) -> Option<Part>
    ensures { result ≡ part_by file.now command.now }
{
    match command {
        Command::Sfid(sfid) => part_about(file, &identity_of(sfid), Part::Offer),
        Command::Eerp(eerp) => part_about(file, &response_identity(eerp), Part::Response),
        Command::Nerp(nerp) => part_about(file, &refusal_identity(nerp), Part::Refusal),
        _ => None,
    }
}

/// What the octets of a frame, without its stream header, say of a file: whether they are its SFID, or its EERP or NERP. `None` if they are
/// another command, one of another file, or none.
pub fn part_in(file: &Identity, frame: &[u8]) -> Option<Part>
    ensures { result ≡ part_in file.now frame.now }
{
    match parse(frame) {
        Ok(command) => part_by(file, &command),
        Err(_) => None,
    }
}
