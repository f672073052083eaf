//! Actions in words.

use oftp_schedule::connection::{Action, Door, Reason, Status};
use std::io;

fn door(door: Door) -> &'static str {
    match door {
        Door::Partners => "partners",
        Door::Commands => "commands",
        Door::Requests => "requests",
        Door::Calls => "calls",
    }
}

fn reason(reason: Reason) -> &'static str {
    match reason {
        Reason::Evicted => "evicted",
        Reason::Invalid => "invalid",
        Reason::TimedOut => "timed-out",
        Reason::Stalled => "stalled",
        Reason::Quit => "quit",
        Reason::Vanished => "vanished",
        Reason::Finished => "finished",
        Reason::Unreached => "unreached",
        Reason::Orphaned => "orphaned",
        Reason::Stopping => "stopping",
    }
}

fn status(status: Status) -> &'static str {
    match status {
        Status::Stopped => "stopped",
        Status::DoorFailed => "door-failed",
        Status::OfficeFailed => "office-failed",
    }
}

/// Prints an action.
pub fn print(rt: &HostRuntime, action: Action) -> io::Result<()> {
    match action {
        Action::Accept(id, it) => println!(rt; "accept {id} {}", door(it)),
        Action::Print(id, why) => println!(rt; "print {id} {}", reason(why)),
        Action::Close(id, why) => println!(rt; "close {id} {}", reason(why)),
        Action::Part(id) => println!(rt; "part {id}"),
        Action::Answer(id) => println!(rt; "answer {id}"),
        Action::Decline(id, why) => println!(rt; "decline {id} {}", reason(why)),
        Action::Begin(id) => println!(rt; "begin {id}"),
        Action::Hear(id) => println!(rt; "hear {id}"),
        Action::Cut(id) => println!(rt; "cut {id}"),
        Action::Look(id) => println!(rt; "look {id}"),
        Action::Change(id) => println!(rt; "change {id}"),
        Action::Copy(id) => println!(rt; "copy {id}"),
        Action::Review => println!(rt; "review"),
        Action::Resolve(id) => println!(rt; "resolve {id}"),
        Action::Dial(id) => println!(rt; "dial {id}"),
        Action::HangUp(id) => println!(rt; "hang-up {id}"),
        Action::Shut => println!(rt; "shut"),
        Action::Exit(why) => println!(rt; "exit {}", status(why)),
    }
}
