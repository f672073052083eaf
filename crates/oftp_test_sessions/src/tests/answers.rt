//! A partner's answers to SFID, over an office in memory, in one piece and octet by octet. The octets of both sides are written by hand
//! from RFC 5024.

use oftp_engine::{End, Operator, Told};
use oftp_partners::{Book, read};
use oftp_register::{Office, OfficeFault, OutgoingState};
use oftp_test_parts::given::BOOK;
use oftp_test_parts::hearing::{Heard, Line, call, caller, hear};
use oftp_test_parts::noting::Noting;
use oftp_test_parts::octets::{GREETING, OFFER, SENT, TAKES, THREE_OCTETS, joined};
use oftp_wire::{Count, SessionReason};
use std::alloc::{AllocError, Global};
use std::process::Abort;
use std::test::Fail;

/// The partner's octets after the offer, the station's octets after it, the end of the session, and the state of the file.
#[derive(Clone, Copy, Drop)]
struct Answer<'a> {
    heard: &'a [u8],
    said: &'a [u8],
    end: End,
    state: OutgoingState,
}

/// Submits the file.
pub(crate) fn submit(alloc: Global, rt: &impl Abort, office: &mut Noting, book: &Book) {
    let submit = Operator::Submit(THREE_OCTETS);
    let told = call(alloc, office, book, &submit, &mut Vec::new(alloc));
    assert!(rt; told == Ok(Told::Done(1)));
}

// Compares the station's octets.
fn compare(
    alloc: Global,
    rt: &impl Abort,
    heard: &Heard,
    answer: &Answer<'_>,
) -> Result<(), AllocError> {
    assert!(rt; heard.end == Ok(answer.end));
    let said = joined(alloc, &[OFFER, answer.said])?;
    assert!(rt; heard.said.as_slice() == said.as_slice());
    Ok(())
}

// Calls the partner, whose octets arrive in pieces of `at_once`.
fn call_partner(
    alloc: Global,
    rt: &impl Abort,
    office: &mut Noting,
    book: &Book,
    answer: &Answer<'_>,
    at_once: usize,
) -> Result<(), Fail> {
    let octets = joined(alloc, &[GREETING, answer.heard])?;
    let line = Line {
        octets: octets.as_slice(),
        at_once,
        breaks: false,
    };
    let role = caller(book, b"O0177CARMAKER")?;
    let heard = hear(alloc, office, book, role, line, 1_000_000);
    Ok(compare(alloc, rt, &heard, answer)?)
}

// Whether the file is in this state, and has no mark.
fn is_left(office: &mut Noting, state: OutgoingState) -> Result<bool, OfficeFault> {
    let file = office.out_by_no(1)?;
    Ok(file.is_some_and(|file| file.state == state && file.mark == 0))
}

/// Submits the file and calls the partner, whose octets arrive in pieces of `at_once`. Compares the station's octets and what is left.
fn answers(
    alloc: Global,
    rt: &impl Abort,
    answer: &Answer<'_>,
    at_once: usize,
) -> Result<(), Fail> {
    let book = read(alloc, BOOK)?;
    let mut office = Noting::new(alloc, None);
    submit(alloc, rt, &mut office, &book);
    call_partner(alloc, rt, &mut office, &book, answer, at_once)?;
    assert!(rt; is_left(&mut office, answer.state)?);
    Ok(())
}

fn table() -> [Answer<'static>; 3] {
    [
        // The file is sent and handed over.
        Answer {
            heard: TAKES,
            said: SENT,
            end: End::Partner(Count::new(0)),
            state: OutgoingState::Handed,
        },
        // SFNA with a text that isn't UTF-8: ESID 06.
        Answer {
            heard: b"\x10\0\0\x0c399N001\xff",
            said: b"\x10\0\0\x0bF06000\r",
            end: End::Own(SessionReason::InvalidData),
            state: OutgoingState::Waiting,
        },
        // SFPA from row 1 on: ESID 02.
        Answer {
            heard: b"\x10\0\0\x16200000000000000001",
            said: b"\x10\0\0\x0bF02000\r",
            end: End::Own(SessionReason::ProtocolViolation),
            state: OutgoingState::Waiting,
        },
    ]
}

/// In one piece, and octet by octet.
#[test]
fn answers_to_an_offer(rt: HostRuntime) -> Result<(), Fail> {
    let table = table();
    for answer in &table {
        for at_once in [usize::MAX, 1] {
            answers(rt.alloc(), &rt, answer, at_once)?;
        }
    }
    Ok(())
}
