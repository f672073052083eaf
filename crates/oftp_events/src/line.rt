//! The line of an event.

ghost use Rattle.std.specs.Prelude.{◌≡◌, ◌∷◌, IfOk, Some, codes};
ghost use Rattle.serde_json.specs.Data.{string};
ghost use Rattle.oftp_events.specs.InsideMembers.{key_values};
ghost use Rattle.oftp_events.specs.Lines.{IsOneLine, direction_data, line_members, line_text, plain_line, text_data};

use crate::direction::Direction;
use crate::event::Event;
use crate::members::{Field, Member, add_members, add_text};
use std::alloc::{AllocError, Global};

/// What is told of an event. Each field is a key of its line. One that is `None` doesn't apply, and its key is left out.
///
/// A text may have any characters. None of them ends the line, or looks like another key of it.
#[derive(Clone, Copy, Drop)]
pub struct EventLine<'a> {
    /// When it happened: UTC by RFC 3339, with six digits of the second.
    pub at: &'a str,
    /// What happened.
    pub event: Event,
    /// The number of the session, from 1 on in each run of the program.
    pub session: Option<u64>,
    /// The partner's code. Of a caller that wasn't let in, it is the code that it claimed.
    pub partner: Option<&'a str>,
    /// Which way the session or the file goes.
    pub way: Option<Direction>,
    /// The address and the port at the other end.
    pub peer: Option<&'a str>,
    /// The number of the file, from 1 on, separately for each way.
    pub no: Option<u64>,
    /// The file's dataset name.
    pub dataset: Option<&'a str>,
    /// The file's date stamp, CCYYMMDD.
    pub date: Option<&'a str>,
    /// The file's time stamp, HHMMSScccc.
    pub time: Option<&'a str>,
    /// The code of the station that the file comes from.
    pub originator: Option<&'a str>,
    /// The code of the station that the file goes to.
    pub destination: Option<&'a str>,
    /// The letter of the file's format: F, V, U or T.
    pub format: Option<&'a str>,
    /// How many rows the file has.
    pub rows: Option<u64>,
    /// How many octets its rows have.
    pub units: Option<u64>,
    /// The kind of a response: EERP or NERP.
    pub kind: Option<&'a str>,
    /// The number of a reason, in two digits.
    pub reason: Option<&'a str>,
    /// A reason in words, why a call didn't connect, or the path of a backup.
    pub words: Option<&'a str>,
    /// The partner's text.
    pub text: Option<&'a str>,
    /// How many files and responses went out in the session.
    pub sent: Option<u64>,
    /// How many files and responses came in.
    pub received: Option<u64>,
    /// How many octets came in.
    pub octets_in: Option<u64>,
    /// How many octets went out.
    pub octets_out: Option<u64>,
    /// How long the session took, in whole seconds.
    pub seconds: Option<u64>,
    /// The number of the user who asked, where a command came over the station's socket.
    pub uid: Option<u32>,
    /// How the session ended, as the command prints it.
    pub end: Option<&'a str>,
}

// The word of a direction, if there is one.
fn word_of_direction(direction: Option<Direction>) -> Option<&'static str>
    ensures { text_data result ≡ direction_data direction }
{
    Some(direction?.word())
}

// The number of a user, if there is one.
fn number_of_user(uid: Option<u32>) -> Option<u64>
    ensures { result ≡ uid }
{
    Some(u64::from(uid?))
}

impl<'a> EventLine<'a> {
    /// The line of an event of which only the time is told so far. `at` is UTC by RFC 3339, with six digits of the second.
    pub fn new(at: &'a str, event: Event) -> EventLine<'a>
        ensures { result ≡ plain_line at.entry event }
    {
        EventLine {
            at,
            event,
            session: None,
            partner: None,
            way: None,
            peer: None,
            no: None,
            dataset: None,
            date: None,
            time: None,
            originator: None,
            destination: None,
            format: None,
            rows: None,
            units: None,
            kind: None,
            reason: None,
            words: None,
            text: None,
            sent: None,
            received: None,
            octets_in: None,
            octets_out: None,
            seconds: None,
            uid: None,
            end: None,
        }
    }

    // The keys behind the first, in their order, each with what it has.
    fn members(&self) -> [Member<'a>; 25]
        ensures { (codes "at", Some (string self.now.at.now)) ∷ key_values result ≡ line_members self.now }
    {
        [
            ("event", Field::Text(Some(self.event.words()))),
            ("session", Field::Number(self.session)),
            ("partner", Field::Text(self.partner)),
            ("way", Field::Text(word_of_direction(self.way))),
            ("peer", Field::Text(self.peer)),
            ("no", Field::Number(self.no)),
            ("dataset", Field::Text(self.dataset)),
            ("date", Field::Text(self.date)),
            ("time", Field::Text(self.time)),
            ("originator", Field::Text(self.originator)),
            ("destination", Field::Text(self.destination)),
            ("format", Field::Text(self.format)),
            ("rows", Field::Number(self.rows)),
            ("units", Field::Number(self.units)),
            ("kind", Field::Text(self.kind)),
            ("reason", Field::Text(self.reason)),
            ("words", Field::Text(self.words)),
            ("text", Field::Text(self.text)),
            ("sent", Field::Number(self.sent)),
            ("received", Field::Number(self.received)),
            ("octets_in", Field::Number(self.octets_in)),
            ("octets_out", Field::Number(self.octets_out)),
            ("seconds", Field::Number(self.seconds)),
            ("uid", Field::Number(number_of_user(self.uid))),
            ("end", Field::Text(self.end)),
        ]
    }

    /// Its octets: a JSON object without a space, with the keys that have something, in the order of the fields, and a line feed. There is
    /// no other line feed in it, so the line is written whole by one write.
    ///
    /// # Errors
    ///
    /// Out of memory.
    pub fn to_line(&self, alloc: Global) -> Result<Vec<u8>, AllocError>
        ensures text { IfOk result (λ line. line.items ≡ line_text self.now) }
        ensures alone { IfOk result (λ line. IsOneLine line.items) }
    {
        let mut line = Vec::from_slice(alloc, b"{\"at\":")?;
        add_text(alloc, self.at, &mut line)?;
        add_members(alloc, &self.members(), &mut line)?;
        line.extend_from_slice(b"}\n")?;
        Ok(line)
    }
}
