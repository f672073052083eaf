//! A session of a station, as its events tell it.

ghost use Rattle.std.specs.Prelude.{◌≡◌, Some, string_bytes, option_map};
ghost use Rattle.oftp_events.specs.Lines.{line_members, text_data};
ghost use Rattle.oftp_watching.specs.Accounts.{text_value};
ghost use Rattle.oftp_watching.specs.Talks.{begun_members, counted, ended_members};

use oftp_events::{Direction, Event, EventLine};

/// A session that is going on.
#[derive(Drop)]
pub struct Talk {
    /// Its number, from 1 on in each run of the program.
    pub number: u64,
    /// The partner's code, if there was memory for it.
    pub partner: Option<String>,
    /// Which side called.
    pub way: Direction,
    /// The address and the port at the other end, where they are known.
    pub peer: Option<String>,
    /// How many files and responses went out.
    pub sent: u64,
    /// How many files and responses came in.
    pub received: u64,
}

/// How a session ended.
#[derive(Clone, Copy, Drop)]
pub struct Farewell<'a> {
    /// How many octets came in.
    pub octets_in: u64,
    /// How many octets went out.
    pub octets_out: u64,
    /// How long it took, in whole seconds.
    pub seconds: u64,
    /// The line that the command prints for it.
    pub end: &'a str,
}

// A text that may be missing, lent.
fn lent(text: &Option<String>) -> Option<&str>
    ensures { text_data result ≡ text_value (option_map string_bytes text.now) }
{
    match text {
        Some(text) => Some(text.as_str()),
        None => None,
    }
}

impl Talk {
    /// Counts what happened in it: a file or a response that is through.
    pub fn count(&mut self, event: Event)
        ensures { self.new ≡ counted event self.old }
    {
        match event {
            Event::HandedOver | Event::ResponseSent => self.sent = self.sent.saturating_add(1),
            Event::Came | Event::ResponseReceived => self.received = self
                .received
                .saturating_add(1),
            _ => {}
        }
    }

    /// The line of its beginning. `at` is UTC by RFC 3339, with six digits of the second.
    pub fn begun<'a>(&'a self, at: &'a str) -> EventLine<'a>
        ensures { line_members result ≡ begun_members at.entry.now self.now }
    {
        EventLine {
            session: Some(self.number),
            partner: lent(&self.partner),
            way: Some(self.way),
            peer: lent(&self.peer),
            ..EventLine::new(at, Event::SessionBegun)
        }
    }

    /// The line of its end.
    pub fn ended<'a>(&'a self, at: &'a str, farewell: &Farewell<'a>) -> EventLine<'a>
        ensures { line_members result ≡ ended_members at.entry.now farewell.now self.now }
    {
        EventLine {
            session: Some(self.number),
            partner: lent(&self.partner),
            way: Some(self.way),
            peer: lent(&self.peer),
            sent: Some(self.sent),
            received: Some(self.received),
            octets_in: Some(farewell.octets_in),
            octets_out: Some(farewell.octets_out),
            seconds: Some(farewell.seconds),
            end: Some(farewell.end),
            ..EventLine::new(at, Event::SessionEnded)
        }
    }
}
