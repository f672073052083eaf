//! What is done with each entry of a record that is read: where it is played, within a session, and where its sessions are told of.

ghost use Rattle.std.specs.Prelude.{◌≡◌, ◌↔◌, IsSome, IsTrue};
ghost use Rattle.oftp_contents.specs.Handling.{listening_at, playing_at, talking_at};

use crate::pieces::PieceMark;
use oftp_record::RecordKind;

/// What is done with an entry that is played, between sessions.
#[derive(Clone, Copy, Debug, PartialEq, Eq, Drop)]
pub enum Playing {
    /// A session begins.
    Begins,
    /// The register is compared with the one that it has.
    Compares,
    /// An operator's call is made.
    Calls,
    /// A session or a call that is over has to have this end.
    Ends,
    /// It belongs to no session.
    Strays,
}

impl Playing {
    /// What is done with an entry of a kind.
    pub fn at(kind: RecordKind) -> Playing
        ensures { result ≡ playing_at kind }
    {
        match kind {
            RecordKind::Session => Playing::Begins,
            RecordKind::Opening | RecordKind::Backup | RecordKind::Mark => Playing::Compares,
            RecordKind::Call => Playing::Calls,
            RecordKind::End => Playing::Ends,
            RecordKind::OctetsIn | RecordKind::OctetsOut => Playing::Strays,
        }
    }
}

/// What is done with an entry behind the beginning of a session that is played.
#[derive(Clone, Copy, Debug, PartialEq, Eq, Drop)]
pub enum Talking {
    /// The session hears its octets.
    Hears,
    /// Its octets have to be those that the session says.
    Compares,
    /// The session has to have this end, and is over.
    Ends,
    /// Another session or a call that is over has to have this end.
    OtherEnds,
    /// The station was killed in the session, which has to come to the register that the entry has, and is over.
    Settles,
    /// The session is over without an end.
    Leaves,
    /// Its octets are none of the session's.
    Strays,
}

impl Talking {
    /// What the session with the number `own` does at an entry of a kind with a number; `None` if its content has none.
    pub fn at(kind: RecordKind, number: Option<u64>, own: u64) -> Talking
        ensures { result ≡ talking_at kind number own }
    {
        match (kind, number) {
            (RecordKind::OctetsIn, Some(number)) if number == own => Talking::Hears,
            (RecordKind::OctetsOut, Some(number)) if number == own => Talking::Compares,
            (RecordKind::OctetsIn | RecordKind::OctetsOut, _) => Talking::Strays,
            (RecordKind::End, Some(number)) if number == own => Talking::Ends,
            (RecordKind::End, _) => Talking::OtherEnds,
            (RecordKind::Opening, _) => Talking::Settles,
            (RecordKind::Session | RecordKind::Call | RecordKind::Backup | RecordKind::Mark, _) =>
                Talking::Leaves,
        }
    }
}

/// Whether an entry is one more piece of what a session heard at once, by the marks of the first piece and of the entry. They are `None` for what is no
/// piece.
pub fn is_joined(first: Option<PieceMark>, next: Option<PieceMark>) -> bool
    ensures { IsTrue result ↔ IsSome first × (next ≡ first) }
{
    first.is_some() && next == first
}

/// What is done with an entry where sessions are told of.
#[derive(Clone, Copy, Debug, PartialEq, Eq, Drop)]
pub enum Listening {
    /// The session that is read is over, and this one begins, which is asked for.
    Begins,
    /// The session that is read heard its octets.
    Hears,
    /// The session that is read said its octets.
    Says,
    /// The session that is read is over.
    Closes,
    /// The same, since the station begins: what follows is of the program and the book that the entry has.
    Opens,
    /// Nothing.
    Passes,
}

impl Listening {
    /// What is done with an entry of a kind with a number, if the sessions with the number `wanted` are asked for, or each with `None`. `reading` is the
    /// number of the session that is read, if one is.
    pub fn at(kind: RecordKind, number: u64, wanted: Option<u64>, reading: Option<u64>) -> Listening
        ensures { result ≡ listening_at kind number wanted reading }
    {
        match kind {
            RecordKind::Session if wanted.is_none() || wanted == Some(number) => Listening::Begins,
            RecordKind::Session => Listening::Closes,
            RecordKind::OctetsIn if reading == Some(number) => Listening::Hears,
            RecordKind::OctetsOut if reading == Some(number) => Listening::Says,
            RecordKind::End if reading == Some(number) => Listening::Closes,
            RecordKind::Opening => Listening::Opens,
            RecordKind::OctetsIn
            | RecordKind::OctetsOut
            | RecordKind::End
            | RecordKind::Call
            | RecordKind::Backup
            | RecordKind::Mark => Listening::Passes,
        }
    }
}
