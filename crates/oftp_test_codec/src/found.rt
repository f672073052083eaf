//! What is found in the octets of commands, in a stream header, and in a session of both sides.

use oftp_conformance::{
    Explanation, Finding, Session, findings_in, header_finding, heard_findings,
};
use oftp_telling::Sender;
use std::io;

/// Prints what was found in octets.
fn print(rt: &HostRuntime, found: &[Finding], octets: &[u8]) -> io::Result<()> {
    for finding in found {
        let explanation = Explanation {
            finding: *finding,
            octets,
        };
        println!(rt; "  {explanation}")?;
    }
    Ok(())
}

/// Prints what is found in the octets of a command.
pub fn command(rt: &HostRuntime, octets: &[u8]) -> io::Result<()> {
    let found = findings_in(rt.alloc(), octets)?;
    print(rt, found.as_slice(), octets)
}

/// Prints what is found in a stream header.
pub fn header(rt: &HostRuntime, octets: &[u8]) -> io::Result<()> {
    match header_finding(octets) {
        Some(finding) => print(rt, &[finding], octets),
        None => Ok(()),
    }
}

/// The side of a frame, by the sign in front of it, and the frame's octets.
fn side_of(frame: &[u8]) -> (Sender, &[u8]) {
    match frame {
        [b'<', octets @ ..] => (Sender::Partner, octets),
        [_, octets @ ..] => (Sender::Station, octets),
        [] => (Sender::Station, &[]),
    }
}

/// Prints what is found in the frames of both sides, in their order, and who was silent behind them.
pub fn session(rt: &HostRuntime, frames: &[Vec<u8>]) -> io::Result<()> {
    let mut session = Session::begun(None);
    for frame in frames {
        let (who, octets) = side_of(frame.as_slice());
        let found = heard_findings(rt.alloc(), &session, who, octets)?;
        print(rt, found.as_slice(), octets)?;
        session.hear(who, octets);
    }
    match session.silence() {
        Some(silence) => println!(rt; "  {silence}"),
        None => Ok(()),
    }
}
