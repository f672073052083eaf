//! Jobs of a life, each done as it comes. The octets are written by hand from RFC 5024.

use oftp_engine::{Operator, Port, Role, RunFault, Told};
use oftp_life::{Life, Stage};
use oftp_partners::{Book, read};
use oftp_session::Ending;
use oftp_test_parts::given::BOOK;
use oftp_test_parts::hearing::caller;
use oftp_test_parts::noting::Noting;
use oftp_test_parts::octets::{GREETING, OFFER, SENT, TAKES, THREE_OCTETS, joined};
use oftp_test_parts::snapshot::snapshot;
use oftp_wire::Count;
use std::alloc::{AllocError, Global};
use std::process::Abort;
use std::test::Fail;

/// The result of a call, and the line that it wrote.
#[derive(Drop)]
struct Called {
    told: Result<Told, RunFault>,
    line: Vec<u8>,
}

/// How a session stood at its end, and all that it said.
#[derive(Drop)]
struct Talked {
    stage: Stage,
    said: Vec<u8>,
}

// Submits the file, in a function of its own, so that the proof of a test doesn't carry its effects.
fn submit(alloc: Global, life: &mut Life<Noting>, book: &Book) -> Called {
    let mut writer = Port::new(Vec::new(alloc), 0);
    let told = life.order(alloc, book, &Operator::Submit(THREE_OCTETS), &mut writer);
    Called {
        told,
        line: writer.into_inner(),
    }
}

// Holds a session in which the partner's octets arrive in pieces of seven.
fn talk(
    alloc: Global,
    life: Life<Noting>,
    book: &Book,
    role: Role<'_>,
    octets: &[u8],
) -> Result<(Life<Noting>, Talked), AllocError> {
    let mut session = life.begin(alloc, book, role);
    let mut said = session.take_out(alloc);
    for piece in octets.chunks(7) {
        let _ = session.hear(piece);
        said.extend_from_slice(session.take_out(alloc).as_slice())?;
    }
    let stage = session.stage();
    let (life, _out) = session.end();
    Ok((life, Talked { stage, said }))
}

// Whether a call was done to the file with this number, and wrote this.
fn is_done(call: &Called, no: u64, line: &[u8]) -> bool {
    call.told == Ok(Told::Done(no)) && call.line.as_slice() == line
}

// Whether the partner ended a session without an error, with this output.
fn is_ended(talked: &Talked, said: &[u8]) -> bool {
    talked.stage == Stage::Ended(Ending::Partner(Count::new(0))) && talked.said.as_slice() == said
}

/// The file, which the partner took.
const HANDED: &str =
    "out 1 Handed 0 of 1 ABC 20240131 1015300001 O0013SUPPLIER O0177CARMAKER Unstructured 0 |ABC\n";

// Submits the file.
fn does_submit(alloc: Global, rt: &impl Abort, life: &mut Life<Noting>, book: &Book) {
    let called = submit(alloc, life, book);
    assert!(rt; is_done(&called, 1, b"done: submit 1\n"));
}

// Calls the partner, which takes the file.
fn does_call(
    alloc: Global,
    rt: &impl Abort,
    life: Life<Noting>,
    book: &Book,
) -> Result<Life<Noting>, Fail> {
    let octets = joined(alloc, &[GREETING, TAKES])?;
    let role = caller(book, b"O0177CARMAKER")?;
    let (life, talked) = talk(alloc, life, book, role, octets.as_slice())?;
    let said = joined(alloc, &[OFFER, SENT])?;
    assert!(rt; is_ended(&talked, said.as_slice()));
    Ok(life)
}

/// A file is submitted, and then the partner is called, which takes it.
#[test]
fn jobs_as_they_come(rt: HostRuntime) -> Result<(), Fail> {
    let alloc = rt.alloc();
    let book = read(alloc, BOOK)?;
    let mut life = Life::new(Noting::new(alloc, None));
    does_submit(alloc, &rt, &mut life, &book);
    let mut life = does_call(alloc, &rt, life, &book)?;
    let left = snapshot(alloc, &mut life)?;
    assert_eq!(rt; left.as_str(), HANDED);
    Ok(())
}
