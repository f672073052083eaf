//! Plays a schedule: tells it the event of each line that it reads, and prints what it orders then.
#![tactic(auto)]

mod actions;
mod events;
mod limits;
mod words;

use oftp_schedule::connection::Event;
use oftp_schedule::schedule::Schedule;
use std::io;
use words::Words;

/// The first moment that can't be told.
const LATEST: u64 = 1 << 63;

/// Tells an event, unless it is a moment that can't be told.
fn tell(schedule: &mut Schedule, event: Event) -> io::Result<()> {
    match event {
        Event::Passed(time) => {
            if time < LATEST {
                schedule.handle(Event::Passed(time))?;
            }
        }
        other => schedule.handle(other)?,
    }
    Ok(())
}

/// Tells the event of a line. A line that is none changes nothing.
fn tell_line(schedule: &mut Schedule, word: &str, line: &mut Words) -> io::Result<()> {
    match events::read(word, line) {
        Some(event) => tell(schedule, event),
        None => Ok(()),
    }
}

/// Prints the next action, and returns whether there is one.
fn print_next(rt: &HostRuntime, schedule: &mut Schedule) -> io::Result<bool> {
    match schedule.poll_action()? {
        Some(action) => {
            actions::print(rt, action)?;
            Ok(true)
        }
        None => Ok(false),
    }
}

/// Prints each action until nothing is to be done.
fn print_all(rt: &HostRuntime, schedule: &mut Schedule) -> io::Result<()> {
    for _ in 0..u64::MAX {
        if !print_next(rt, schedule)? {
            break;
        }
    }
    Ok(())
}

/// Prints when the schedule is to be told the time.
fn print_timeout(rt: &HostRuntime, schedule: &Schedule) -> io::Result<()> {
    match schedule.poll_timeout() {
        Some(time) => println!(rt; "timeout {time}"),
        None => println!(rt; "timeout never"),
    }
}

/// Does what a line says.
fn play(rt: &HostRuntime, schedule: &mut Schedule, line: &mut Words) -> io::Result<()> {
    match line.word() {
        "timeout" => print_timeout(rt, schedule),
        "next" => {
            print_next(rt, schedule)?;
            Ok(())
        }
        "+" => {
            let word = line.word();
            tell_line(schedule, word, line)
        }
        word => {
            tell_line(schedule, word, line)?;
            print_all(rt, schedule)
        }
    }
}

fn main(rt: HostRuntime) -> io::Result<()> {
    let mut schedule = Schedule::new(rt.alloc(), limits::read(&mut Words::new("")))?;
    for text in rt.lines(rt.alloc()) {
        let text = text?;
        let mut line = Words::new(text.as_str());
        match text.as_str().strip_prefix("limits ") {
            Some(rest) => {
                schedule = Schedule::new(rt.alloc(), limits::read(&mut Words::new(rest)))?;
            }
            None => play(&rt, &mut schedule, &mut line)?,
        }
    }
    Ok(())
}
