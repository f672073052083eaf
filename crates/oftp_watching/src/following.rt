//! What becomes of the files of a session, by the commands of both sides: what no change of the register tells.

ghost use Rattle.std.specs.Prelude.{◌≡◌};
ghost use Rattle.oftp_watching.specs.Followed.{broken_off, followed, told_of, unchanged};

use crate::answer::Answer;
use crate::moment::{Moment, Subject};
use oftp_events::Event;
use oftp_register::{Identity, Side, identity_of};
use oftp_wire::Command;
use std::mem;

/// Who said a command.
#[derive(Clone, Copy, Debug, Drop, PartialEq, Eq)]
pub enum Speaker {
    /// The partner.
    Partner,
    /// The station.
    Station,
}

/// The file of a session that is on its way, by the commands that were said so far.
#[derive(Drop)]
pub enum Following {
    /// There is none.
    Idle,
    /// It was offered, and isn't answered yet.
    Offered(Side, Identity),
    /// It was accepted.
    Going(Side, Identity),
    /// Its end was told, and isn't answered yet.
    Closing(Side, Identity),
}

// What happened to a file without a change of the register.
fn unchanged(event: Event, subject: Subject, answer: Option<Answer>) -> Moment
    ensures { result ≡ unchanged event subject answer }
{
    Moment {
        event,
        subject,
        format: None,
        rows: None,
        answer,
    }
}

impl Following {
    /// Takes in a command. Returns what it tells.
    pub fn hear(&mut self, speaker: Speaker, command: &Command<'_>) -> Option<Moment>
        ensures next { self.new ≡ followed self.old speaker command.now }
        ensures told { result ≡ told_of self.old speaker command.now }
    {
        let before = mem::replace(self, Following::Idle);
        let (after, told) = before.after(speaker, command);
        *self = after;
        told
    }

    // How it goes on after a command, and what that tells.
    fn after(self, speaker: Speaker, command: &Command<'_>) -> (Following, Option<Moment>)
        ensures next { result.0 ≡ followed self speaker command.now }
        ensures told { result.1 ≡ told_of self speaker command.now }
    {
        match (self, speaker, command) {
            (_, Speaker::Partner, Command::Sfid(sfid)) => {
                (Following::Offered(Side::Incoming, identity_of(sfid)), None)
            }
            (_, Speaker::Station, Command::Sfid(sfid)) => {
                (Following::Offered(Side::Outgoing, identity_of(sfid)), None)
            }
            (Following::Offered(Side::Incoming, i), Speaker::Station, Command::Sfpa(_)) => {
                (Following::Going(Side::Incoming, i), None)
            }
            (Following::Offered(Side::Outgoing, i), Speaker::Partner, Command::Sfpa(_)) => {
                (Following::Going(Side::Outgoing, i), None)
            }
            (Following::Offered(Side::Incoming, i), Speaker::Station, Command::Sfna(sfna)) => {
                let answer = Answer::Sfna(sfna.reason);
                let moment = unchanged(Event::RefusedFile, Subject::Offered(i), Some(answer));
                (Following::Idle, Some(moment))
            }
            (Following::Going(Side::Incoming, i), Speaker::Partner, Command::Efid(_)) => {
                (Following::Closing(Side::Incoming, i), None)
            }
            (Following::Going(Side::Outgoing, i), Speaker::Station, Command::Efid(_)) => {
                (Following::Closing(Side::Outgoing, i), None)
            }
            (Following::Closing(Side::Incoming, i), Speaker::Station, Command::Efna(efna)) => {
                let answer = Answer::Efna(efna.reason);
                let file = Subject::Named(Side::Incoming, i);
                let moment = unchanged(Event::RefusedEnd, file, Some(answer));
                (Following::Idle, Some(moment))
            }
            (Following::Closing(Side::Incoming, _), Speaker::Station, Command::Efpa(_))
            | (Following::Offered(Side::Outgoing, _), Speaker::Partner, Command::Sfna(_))
            | (Following::Closing(Side::Outgoing, _), Speaker::Partner, Command::Efpa(_))
            | (Following::Closing(Side::Outgoing, _), Speaker::Partner, Command::Efna(_)) => {
                (Following::Idle, None)
            }
            (before, _, _) => (before, None),
        }
    }

    /// What the end of the session tells.
    pub fn end(self) -> Option<Moment>
        ensures { result ≡ broken_off self }
    {
        match self {
            Following::Going(side, identity) | Following::Closing(side, identity) => {
                let file = Subject::Named(side, identity);
                Some(unchanged(Event::BrokenOff, file, None))
            }
            Following::Idle | Following::Offered(..) => None,
        }
    }
}
