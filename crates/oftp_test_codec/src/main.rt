//! Carries out the calls that it reads, one per line. Prints each line, and then the result of the call.
#![tactic(auto)]

mod channel;
mod commands;
mod events;
mod files;
mod found;
mod line;
mod octets;
mod requests;
mod streams;
mod takers;
mod told;
mod values;
mod words;

use line::Line;
use std::io;

/// Carries out a call of the wire.
fn answer_of_wire(rt: &HostRuntime, call: &str, line: &mut Line) -> io::Result<()> {
    match call {
        "read" => commands::read(rt, &line.octets(rt.alloc())?),
        "write" => commands::write(rt, &line.octets(rt.alloc())?),
        "show" => commands::show(rt, &line.octets(rt.alloc())?),
        "fields" => commands::fields(rt, &line.fields(rt.alloc())?),
        "room" => commands::room(rt, &line.octets(rt.alloc())?),
        "feed" => streams::feed(rt, &line.fields(rt.alloc())?),
        "header" => streams::header_of(rt, line),
        "value" => values::answer(rt, line),
        _ => words::answer(rt, call),
    }
}

/// Carries out a call.
fn answer(rt: &HostRuntime, line: &mut Line) -> io::Result<()> {
    match line.word() {
        "longest" => files::longest(rt, line),
        "frames" => files::frames(rt, line),
        "local" => files::local(rt, line),
        "next" => files::next(rt, line),
        "send" => files::send(rt, line),
        "whole" => files::whole(rt, line),
        "take" => takers::take(rt, line),
        "channel" => channel::answer(rt, line),
        "typed" => requests::answer(rt, line),
        "event" => events::line(rt, line),
        "events" => events::words(rt),
        "tell" => told::command(rt, &line.octets(rt.alloc())?),
        "notes" => told::notes(rt),
        "found" => found::command(rt, &line.octets(rt.alloc())?),
        "stream" => found::header(rt, &line.octets(rt.alloc())?),
        "heard" => found::session(rt, line.fields(rt.alloc())?.as_slice()),
        call => answer_of_wire(rt, call, line),
    }
}

fn main(rt: HostRuntime) -> io::Result<()> {
    for text in rt.lines(rt.alloc()) {
        let text = text?;
        println!(rt; "{text}")?;
        answer(&rt, &mut Line::new(text.as_str()))?;
    }
    Ok(())
}
