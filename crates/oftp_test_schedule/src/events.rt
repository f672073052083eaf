//! The event of a line.

use crate::words::Words;
use oftp_schedule::connection::{
    Arrival, Door, End, Event, Input, Partner, Request, Signal, Status, Step,
};

fn door(word: &str) -> Door {
    match word {
        "partners" => Door::Partners,
        "commands" => Door::Commands,
        "requests" => Door::Requests,
        _ => Door::Calls,
    }
}

fn arrival(word: &str) -> Arrival {
    match word {
        "somebody" => Arrival::Somebody,
        "nobody" => Arrival::Nobody,
        "later" => Arrival::Later,
        _ => Arrival::Never,
    }
}

fn status(word: &str) -> Status {
    match word {
        "stopped" => Status::Stopped,
        "door-failed" => Status::DoorFailed,
        _ => Status::OfficeFailed,
    }
}

fn request(word: &str) -> Request {
    match word {
        "query" => Request::Query,
        "update" => Request::Update,
        _ => Request::Backup,
    }
}

fn input(word: &str) -> Input {
    match word {
        "awaited" => Input::Awaited,
        "here" => Input::Here,
        "last" => Input::Last,
        _ => Input::Gone,
    }
}

fn end(word: &str) -> End {
    match word {
        "own" => End::Own,
        _ => End::Other,
    }
}

/// A partner: its number, and the lengths of its pause, its waits and its sessions.
fn partner(line: &mut Words) -> Partner {
    Partner {
        number: line.number(),
        pause: line.number(),
        patience: line.number(),
        longest: line.number(),
    }
}

/// What a step leaves: how many octets it heard, what there is to hear, and how many octets are to go out.
fn step(line: &mut Words) -> Step {
    Step {
        heard: line.number(),
        input: input(line.word()),
        backlog: line.long(),
    }
}

/// What is told of a call.
fn signal_of_call(word: &str) -> Option<Signal> {
    match word {
        "resolved" => Some(Signal::Resolved),
        "up" => Some(Signal::Up),
        "failed" => Some(Signal::Failed),
        _ => None,
    }
}

/// What is told of any connection.
fn signal(line: &mut Words) -> Option<Signal> {
    match line.word() {
        "let-in" => Some(Signal::LetIn),
        "rejected" => Some(Signal::Rejected),
        "asked" => Some(Signal::Asked(request(line.word()))),
        "wants" => Some(Signal::Wants(partner(line))),
        "waits" => Some(Signal::Waits(step(line))),
        "ended" => Some(Signal::Ended(end(line.word()))),
        "done" => Some(Signal::Done(line.long())),
        "came" => Some(Signal::Came),
        "went" => Some(Signal::Went(line.long())),
        "ends" => Some(Signal::Ends),
        "lost" => Some(Signal::Lost),
        word => signal_of_call(word),
    }
}

/// What is told of the connection whose number is next.
fn told(line: &mut Words) -> Option<Event> {
    let id = line.long();
    match signal(line) {
        Some(signal) => Some(Event::Told(id, signal)),
        None => None,
    }
}

/// The event that this word begins, or None where it begins none.
pub fn read(word: &str, line: &mut Words) -> Option<Event> {
    match word {
        "knock" => Some(Event::Knock(door(line.word()))),
        "accepted" => Some(Event::Accepted(line.long(), arrival(line.word()))),
        "passed" => Some(Event::Passed(line.long())),
        "told" => told(line),
        "due" => Some(Event::Due(partner(line))),
        "reviewed" => Some(Event::Reviewed),
        "over" => Some(Event::Over(status(line.word()))),
        _ => None,
    }
}
