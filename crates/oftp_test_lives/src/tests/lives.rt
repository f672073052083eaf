//! A life over an office in memory, and over one that fails. The octets are written by hand from RFC 5024.

use oftp_engine::{Operator, Port, Role, RunFault, Told};
use oftp_life::{Life, LifeSession, Stage};
use oftp_partners::{Book, read};
use oftp_register::{Office, OutgoingState, PlainOffice};
use oftp_test_parts::given::{BOOK, LIMITS};
use oftp_test_parts::noting::{Noting, Stop};
use oftp_test_parts::octets::{GREETING, OFFER, SENT, TAKES, THREE_OCTETS, joined};
use std::alloc::Global;
use std::process::Abort;
use std::test::Fail;

/// Carries out an operator's call.
pub(crate) fn order<O: Office>(
    alloc: Global,
    life: &mut Life<O>,
    book: &Book,
    call: &Operator<'_>,
) -> Result<Told, RunFault> {
    let mut line = Port::new(Vec::new(alloc), 0);
    life.order(alloc, book, call, &mut line)
}

/// Hands the file in.
fn submit<O: Office>(alloc: Global, life: &mut Life<O>, book: &Book) -> Result<Told, RunFault> {
    order(alloc, life, book, &Operator::Submit(THREE_OCTETS))
}

/// Lets a session hear these octets, some at once, and returns what it says. Between two pieces the file is looked up.
pub(crate) fn converse<O: Office>(
    alloc: Global,
    session: &mut LifeSession<'_, O>,
    octets: &[u8],
    at_once: usize,
) -> Result<Vec<u8>, Fail> {
    let mut said = Vec::new(alloc);
    for piece in octets.chunks(at_once.max(1)) {
        let _ = session.hear(piece);
        said.extend_from_slice(session.take_out(alloc).as_slice())?;
        if session.stage() == Stage::Waits {
            let _ = session.out_by_no(1)?;
        }
    }
    Ok(said)
}

// Calls the partner, who takes a file and whose octets come in pieces of this size. Returns what the session says.
fn call(
    alloc: Global,
    life: Life<PlainOffice>,
    book: &Book,
    at_once: usize,
) -> Result<(Life<PlainOffice>, Vec<u8>), Fail> {
    let heard = joined(alloc, &[GREETING, TAKES])?;
    let partner = book.partner(b"O0177CARMAKER").ok_or("no partner")?;
    let mut session = life.begin(alloc, book, Role::Initiator(partner));
    let out = converse(alloc, &mut session, heard.as_slice(), at_once)?;
    let (life, _out) = session.end();
    Ok((life, out))
}

// Whether the file was handed over, in a life that goes on.
fn is_handed(life: &mut Life<PlainOffice>) -> Result<bool, Fail> {
    let file = life.out_by_no(1)?;
    Ok(!life.is_over() && file.is_some_and(|file| file.state == OutgoingState::Handed))
}

// The file goes out in a life of its own, in pieces of this size.
fn goes_out(alloc: Global, rt: &impl Abort, book: &Book, at_once: usize) -> Result<(), Fail> {
    let mut life = Life::new(PlainOffice::new(alloc, LIMITS));
    assert!(rt; submit(alloc, &mut life, book) == Ok(Told::Done(1)));
    let (mut life, out) = call(alloc, life, book, at_once)?;
    let said = joined(alloc, &[OFFER, SENT])?;
    assert!(rt; out.as_slice() == said.as_slice(), "{at_once} at once");
    assert!(rt; is_handed(&mut life)?);
    Ok(())
}

/// A file goes out in pieces of any size, with a look-up at each wait. What is taken out is what the session says.
#[test]
fn file_out_in_pieces(rt: HostRuntime) -> Result<(), Fail> {
    let alloc = rt.alloc();
    let book = read(alloc, BOOK)?;
    for at_once in [1, 7, 4_096] {
        goes_out(alloc, &rt, &book, at_once)?;
    }
    Ok(())
}

// A life whose office fails at an operator's call, and that call.
fn life_over(alloc: Global, rt: &impl Abort, book: &Book) -> Life<Noting> {
    let stop = Stop {
        commits: 0,
        is_made: false,
    };
    let mut life = Life::new(Noting::new(alloc, Some(stop)));
    assert!(rt; submit(alloc, &mut life, book) == Err(RunFault::Office));
    assert!(rt; life.is_over());
    life
}

// No session of a life that is over says or hears anything.
fn has_no_session(alloc: Global, rt: &impl Abort, life: Life<Noting>, book: &Book) {
    let mut session = life.begin(alloc, book, Role::Responder);
    assert!(rt; session.stage() == Stage::Lost);
    assert!(rt; session.take_out(alloc).is_empty());
    assert!(rt; session.hear(GREETING) == Err(RunFault::Office));
}

// A session whose office fails at a look-up is lost, and its life is over.
fn lost_by_a_look_up(alloc: Global, rt: &impl Abort, book: &Book) {
    let failing = Life::new(Noting::failing(alloc, true));
    let mut session = failing.begin(alloc, book, Role::Responder);
    assert!(rt; session.stage() == Stage::Waits);
    assert!(rt; session.out_by_no(1).is_err());
    assert!(rt; session.stage() == Stage::Lost);
    let (life, _out) = session.end();
    assert!(rt; life.is_over());
}

/// After an error of the office in an operator's call, in a session or in a look-up, the life is over. Nothing is done any more.
#[test]
fn error_of_the_office_ends_it(rt: HostRuntime) -> Result<(), Fail> {
    let alloc = rt.alloc();
    let book = read(alloc, BOOK)?;
    let mut life = life_over(alloc, &rt, &book);
    assert!(rt; submit(alloc, &mut life, &book) == Err(RunFault::Office));
    has_no_session(alloc, &rt, life, &book);
    lost_by_a_look_up(alloc, &rt, &book);
    Ok(())
}
