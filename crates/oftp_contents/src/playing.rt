//! How what is played stands to what a record has.

ghost use Rattle.std.specs.Prelude.{◌≡◌, ◌↔◌, Some, IsTrue, option_map};
ghost use Rattle.oftp_contents.specs.Playing.{book_behind, doing_before, is_line, line_of, said_at};

use crate::codes::EndCause;
use oftp_record::{DIGEST_LEN, RecordKind};

/// Whether the station did what a record has last before an entry.
#[derive(Clone, Copy, Debug, PartialEq, Eq, Drop)]
pub enum Doing {
    /// It did: it went on behind it.
    Done,
    /// The record ends there, so nothing tells it.
    Untold,
    /// It was killed there. The register that it left, which the entry has, tells it.
    ByRegister,
}

impl Doing {
    /// Whether the station did what stands before an entry of a kind; `None` is the end of the record.
    pub fn before(next: Option<RecordKind>) -> Doing
        ensures { result ≡ doing_before next }
    {
        match next {
            None => Doing::Untold,
            Some(RecordKind::Opening) => Doing::ByRegister,
            Some(
                RecordKind::Session
                | RecordKind::OctetsIn
                | RecordKind::OctetsOut
                | RecordKind::Call
                | RecordKind::End
                | RecordKind::Backup
                | RecordKind::Mark,
            ) => Doing::Done,
        }
    }
}

/// Whether a register is the one that the station left when it was killed. A replay makes no change behind it.
pub fn is_left(left: Option<[u8; DIGEST_LEN]>, now: [u8; DIGEST_LEN]) -> bool
    ensures { IsTrue result ↔ left ≡ Some now }
{
    left == Some(now)
}

/// Whether the station made an operator's call before it was killed: it left another register than the one before the call.
pub fn was_made(left: Option<[u8; DIGEST_LEN]>, before: [u8; DIGEST_LEN]) -> bool
    ensures { IsTrue result ↔ ¬ (left ≡ Some before) }
{
    !is_left(left, before)
}

/// How the octets that a record has next stand to those that the session has said.
#[derive(Clone, Copy, Debug, PartialEq, Eq, Drop)]
pub enum SaidOctets {
    /// It said them.
    Same,
    /// It said others.
    Other,
    /// It hasn't said so many yet.
    Fewer,
}

impl SaidOctets {
    /// How recorded octets stand to those that the session has said, and that the record hasn't had yet.
    pub fn at(said: &[u8], recorded: &[u8]) -> SaidOctets
        ensures { result ≡ said_at said.now recorded.now }
    {
        match said.get(..recorded.len()) {
            None => SaidOctets::Fewer,
            Some(first) if first == recorded => SaidOctets::Same,
            Some(_) => SaidOctets::Other,
        }
    }
}

/// Which line the end of a session or a call has to have.
#[derive(Clone, Copy, Debug, PartialEq, Eq, Drop)]
pub enum EndLine {
    /// That of its cause.
    OfCause,
    /// The one with which it ended when it was played.
    Played,
    /// Any one.
    Any,
}

impl EndLine {
    /// The line of an end with this cause.
    pub fn of(cause: EndCause) -> EndLine
        ensures { result ≡ line_of cause }
    {
        match cause {
            EndCause::Itself => EndLine::Played,
            EndCause::Input | EndCause::Read | EndCause::Write => EndLine::OfCause,
            EndCause::Other => EndLine::Any,
        }
    }

    /// Whether a recorded line is this one, which is `None` where there is none.
    pub fn is(self, line: Option<&[u8]>, recorded: &[u8]) -> bool
        ensures { result ≡ is_line self (option_map (λ text. text.now) line.entry) recorded.now }
    {
        match (self, line) {
            (EndLine::Any, _) => true,
            (EndLine::OfCause | EndLine::Played, Some(line)) => line == recorded,
            (EndLine::OfCause | EndLine::Played, None) => false,
        }
    }
}

/// By which book the sessions behind an opening are played.
#[derive(Clone, Copy, Debug, PartialEq, Eq, Drop)]
pub enum BookTurn {
    /// By the one before: the opening has none.
    Stays,
    /// By the one that was named.
    Named,
    /// By the one that the opening has, with passwords of the one that was named.
    Recorded,
    /// By none: that one has a password that the one that was named lacks.
    Lacking,
}

impl BookTurn {
    /// By which book the sessions behind an opening with these octets of a book are played. `shown` is that book with passwords of the one that was
    /// named, `None` if one is lacking. `named` are the octets of the one that was named.
    pub fn behind(recorded: &[u8], shown: Option<&[u8]>, named: &[u8]) -> BookTurn
        ensures { result ≡ book_behind recorded.now (option_map (λ text. text.now) shown.entry) named.now }
    {
        if recorded.is_empty() {
            return BookTurn::Stays;
        }
        match shown {
            None => BookTurn::Lacking,
            Some(text) if text == named => BookTurn::Named,
            Some(_) => BookTurn::Recorded,
        }
    }
}
