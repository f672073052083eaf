//! A station of the ODETTE File Transfer Protocol 2 (RFC 5024).
#![tactic(auto)]

mod noted;
mod perform;
mod sources;
mod words;

use oftp_outcomes::Output;
use oftp_progress::screen_of;
use perform::{perform, tell_unread};
use std::io::{self, LineWriter, Write};
use std::process::ExitCode;
use words::words_of;

/// Carries out the command of the program's arguments. Returns the exit status.
fn run(rt: &HostRuntime, err: &mut impl Write) -> io::Result<u8> {
    let words = words_of(rt)?;
    // A line goes out in one write, so that a command that is killed has printed all of its line or nothing.
    let lines = LineWriter::new(rt.alloc(), rt.stdout())?;
    Ok(perform(rt, &words, screen_of(rt), &mut Output::new(lines), err))
}

fn main(rt: HostRuntime) -> ExitCode {
    let mut err = rt.stderr();
    ExitCode::from(match run(&rt, &mut err) {
        Ok(status) => status,
        Err(error) => tell_unread(&error, &mut err),
    })
}
