//! Sessions over an office that fails, and over a port with a limit. The expected octets are written by hand from RFC 5024.

use oftp_engine::{End, Role, RunFault};
use oftp_partners::{Book, read};
use oftp_test_parts::given::BOOK;
use oftp_test_parts::hearing::{Line, hear};
use oftp_test_parts::noting::Noting;
use std::alloc::Global;
use std::process::Abort;
use std::test::Fail;

mod answers;
mod asking;
mod lists;
mod operators;
mod refused;
mod stations;
mod third;

/// The partner's SSID and an EERP.
const INPUT: &[u8] = b"\x10\0\0\x41X5O0177CARMAKER            CARPW   00128BNYN002N            \r\
      \x10\0\0\x72EINV.7                        202402010800000001        O0013SUPPLIER            O0177CARMAKER            \0\0\0\0";

/// The station's SSRM, its SSID and ESID 08.
const OUTPUT: &[u8] =
    b"\x10\0\0\x17IODETTE FTP READY \r\x10\0\0\x41X5O0013SUPPLIER            SUPPW   00128BNYN002N            \r\x10\0\0\x0bF08000\r";

// A session over an office that fails.
fn fails(alloc: Global, rt: &impl Abort, book: &Book, looks: bool) {
    let mut office = Noting::failing(alloc, looks);
    let line = Line::of(INPUT);
    let heard = hear(alloc, &mut office, book, Role::Responder, line, 1_000_000);
    assert!(rt; heard.end == Err(RunFault::Office));
    assert_eq!(rt; office.faults(), 1);
    assert_eq!(rt; heard.faults, 0);
    assert!(rt; heard.said.as_slice() == OUTPUT);
}

/// The store fails in the look-up of a response, or in the commit.
#[test]
fn office_fails(rt: HostRuntime) -> Result<(), Fail> {
    let book = read(rt.alloc(), BOOK)?;
    for looks in [false, true] {
        fails(rt.alloc(), &rt, &book, looks);
    }
    Ok(())
}

// A session over a port with a limit.
fn ends(alloc: Global, rt: &impl Abort, book: &Book, most: u64, sent: u64) {
    let mut office = Noting::failing(alloc, false);
    let line = Line::of(INPUT);
    let heard = hear(alloc, &mut office, book, Role::Responder, line, most);
    assert!(rt; heard.end == Ok(End::Input), "at most {most}");
    assert!(rt; heard.has_ended);
    assert_eq!(rt; heard.octets, most);
    assert_eq!(rt; heard.moved, sent, "at most {most}");
    assert!(rt; OUTPUT.starts_with(heard.said.as_slice()));
}

/// The port's limit ends the input, even within a frame.
#[test]
fn limit_ends_the_input(rt: HostRuntime) -> Result<(), Fail> {
    let book = read(rt.alloc(), BOOK)?;
    for (most, sent) in [(0, 23), (64, 23), (65, 88), (100, 88)] {
        ends(rt.alloc(), &rt, &book, most, sent);
    }
    Ok(())
}
