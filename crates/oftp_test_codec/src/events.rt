//! The events of a station's work, and their lines.

use crate::line::Line;
use oftp_events::{Direction, Event, EventLine};
use std::{io, str};

/// All events.
const EVENTS: [Event; 22] = [
    Event::Started,
    Event::Stopped,
    Event::SessionBegun,
    Event::SessionEnded,
    Event::NotLetIn,
    Event::NotReached,
    Event::Submitted,
    Event::StartedToCome,
    Event::Came,
    Event::BrokenOff,
    Event::GivenUp,
    Event::Sent,
    Event::HandedOver,
    Event::Refused,
    Event::Reopened,
    Event::Released,
    Event::RefusedHere,
    Event::ResponseSent,
    Event::ResponseReceived,
    Event::RefusedFile,
    Event::RefusedEnd,
    Event::Backup,
];

/// Prints the words of each event, and of each direction.
pub fn words(rt: &HostRuntime) -> io::Result<()> {
    for event in EVENTS {
        println!(rt; "  {event:?}: {event}")?;
    }
    for direction in [Direction::In, Direction::Out] {
        println!(rt; "  {direction:?}: {direction}")?;
    }
    Ok(())
}

/// The event with these words, the first one for others.
fn event_named(words: &str) -> Event {
    for event in EVENTS {
        if event.words() == words {
            return event;
        }
    }
    Event::Started
}

/// The keys of a line, each with what it has behind `=`.
#[derive(Clone, Copy, Drop)]
struct Given<'a> {
    fields: &'a [Vec<u8>],
}

impl<'a> Given<'a> {
    fn text(&self, key: &str) -> Option<&'a str> {
        for field in self.fields {
            let (name, text) = str::from_utf8(field).ok()?.split_once('=')?;
            if name == key {
                return Some(text);
            }
        }
        None
    }

    fn number(&self, key: &str) -> Option<u64> {
        self.text(key)?.parse::<u64>().ok()
    }

    fn direction(&self) -> Option<Direction> {
        match self.text("way")? {
            "in" => Some(Direction::In),
            _ => Some(Direction::Out),
        }
    }

    fn user(&self) -> Option<u32> {
        self.text("uid")?.parse::<u32>().ok()
    }

    /// What is told of a file and of a response.
    fn file(&self) -> EventLine<'a> {
        let event = event_named(self.text("event").unwrap_or(""));
        EventLine {
            no: self.number("no"),
            dataset: self.text("dataset"),
            date: self.text("date"),
            time: self.text("time"),
            originator: self.text("originator"),
            destination: self.text("destination"),
            format: self.text("format"),
            rows: self.number("rows"),
            units: self.number("units"),
            kind: self.text("kind"),
            reason: self.text("reason"),
            words: self.text("words"),
            text: self.text("text"),
            ..EventLine::new(self.text("at").unwrap_or(""), event)
        }
    }

    fn line(&self) -> EventLine<'a> {
        EventLine {
            session: self.number("session"),
            partner: self.text("partner"),
            way: self.direction(),
            peer: self.text("peer"),
            sent: self.number("sent"),
            received: self.number("received"),
            octets_in: self.number("octets_in"),
            octets_out: self.number("octets_out"),
            seconds: self.number("seconds"),
            uid: self.user(),
            end: self.text("end"),
            ..self.file()
        }
    }
}

/// Prints the line of an event. It ends by its own line feed.
pub fn line(rt: &HostRuntime, line: &mut Line) -> io::Result<()> {
    let fields = line.fields(rt.alloc())?;
    let given = Given { fields: &fields };
    let octets = given.line().to_line(rt.alloc())?;
    print!(rt; "  {}", str::from_utf8(&octets).unwrap_or("none"))
}
