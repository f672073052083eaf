//! Openings of sessions with callers, and a life that admits one. The octets are written by hand from RFC 5024.

use oftp_engine::{Admission, RunFault};
use oftp_life::{Guest, Life, LifeSession, Opening, Stage};
use oftp_partners::{Book, read};
use oftp_register::{Office, OfficeFault, PlainOffice};
use oftp_session::Ending;
use oftp_test_parts::given::{BOOK, LIMITS};
use oftp_test_parts::noting::Noting;
use oftp_test_parts::octets::joined;
use oftp_wire::SessionReason;
use std::alloc::{AllocError, Global};
use std::process::Abort;
use std::test::Fail;

/// The station's SSRM.
const GREETING: &[u8] = b"\x10\0\0\x17IODETTE FTP READY \r";

/// The partner's SSID.
const SSID: &[u8] = b"\x10\0\0\x41X5O0177CARMAKER            CARPW   00128BNYN002N            \r";

/// The partner's SFID, DATA, EFID and ESID.
const FILE: &[u8] =
    b"\x10\0\0\xa9HABC                          202401311015300001        O0013SUPPLIER            O0177CARMAKER            U00000\
      0000000000001000000000000100000000000000000\
      00000\
      0N000\x10\0\0\x09D\x83ABC\x10\0\0\x27T0000000000000000000000000000000003\x10\0\0\x0bF00000\r";

/// The station's SSID, SFPA and EFPA.
const ANSWERS: &[u8] = b"\x10\0\0\x41X5O0013SUPPLIER            SUPPW   00128BNYN002N            \r\
      \x10\0\0\x16200000000000000000\x10\0\0\x064N";

// Lets an opening hear a piece, in a function of its own, so that the proof of the others doesn't carry its effects.
fn hear(opening: &mut Opening<'_>, octets: &[u8]) -> Result<Admission, RunFault> {
    opening.hear(octets)
}

// Lets an opening hear octets, some at once, and returns what goes out.
fn open(
    alloc: Global,
    opening: &mut Opening<'_>,
    octets: &[u8],
    at_once: usize,
) -> Result<Vec<u8>, AllocError> {
    let mut said = opening.take_out(alloc);
    for piece in octets.chunks(at_once.max(1)) {
        let _ = hear(opening, piece);
        said.extend_from_slice(opening.take_out(alloc).as_slice())?;
    }
    Ok(said)
}

// Whether a caller was let in under its code.
fn is_let_in(opening: &Opening<'_>) -> bool {
    opening.admission() == Ok(Admission::LetIn)
        && opening
            .code()
            .is_some_and(|code| code.octets() == b"O0177CARMAKER".as_slice())
}

// The caller that was let in.
fn guest_of<'b>(opening: Opening<'b>) -> Option<Guest<'b>> {
    opening.into_guest().ok()
}

// Begins the session of a caller that was let in, in a life that has done nothing.
fn admit<'b>(alloc: Global, guest: Guest<'b>) -> LifeSession<'b, PlainOffice> {
    Life::new(PlainOffice::new(alloc, LIMITS)).admit(alloc, guest)
}

// Whether the partner has ended a session.
fn is_ended(stage: Stage) -> bool {
    matches!(stage, Stage::Ended(Ending::Partner(_)))
}

// Opens a session with a caller whose octets come some at once. It is a guest where SSRM alone goes out, and it is let in under its code.
fn let_in<'b>(
    alloc: Global,
    book: &'b Book,
    octets: &[u8],
    at_once: usize,
) -> Result<Option<Guest<'b>>, AllocError> {
    let mut opening = Opening::new(alloc, book);
    let said = open(alloc, &mut opening, octets, at_once)?;
    Ok(if said.as_slice() == GREETING && is_let_in(&opening) {
        guest_of(opening)
    } else {
        None
    })
}

// Whether a session has answered SSID and a file, was ended by the partner, and left the file.
fn has_taken(alloc: Global, session: LifeSession<'_, PlainOffice>) -> Result<bool, OfficeFault> {
    let mut session = session;
    let said = session.take_out(alloc);
    let stage = session.stage();
    let (mut life, _out) = session.end();
    let file = life.in_by_no(1)?;
    Ok(said.as_slice() == ANSWERS && is_ended(stage) && file.is_some())
}

/// A caller is let in by its SSID, whatever the pieces. What came with it isn't lost: the session goes on with it.
#[test]
fn caller_let_in_with_a_file(rt: HostRuntime) -> Result<(), Fail> {
    let alloc = rt.alloc();
    let book = read(alloc, BOOK)?;
    let octets = joined(alloc, &[SSID, FILE])?;
    for at_once in [1, 7, 4_096] {
        let guest = let_in(alloc, &book, octets.as_slice(), at_once)?.ok_or("not let in")?;
        let is_so = has_taken(alloc, admit(alloc, guest))?;
        assert!(rt; is_so, "{at_once} at once");
    }
    Ok(())
}

// Lets an opening hear octets one by one. Whether it was undecided before each of them.
fn waits_for_each(opening: &mut Opening<'_>, octets: &[u8]) -> bool {
    for octet in octets {
        if opening.admission() != Ok(Admission::Undecided) {
            return false;
        }
        let _ = hear(opening, &[*octet]);
    }
    true
}

// Lets a session hear octets one by one.
fn hear_each(session: &mut LifeSession<'_, PlainOffice>, octets: &[u8]) {
    for octet in octets {
        let _ = session.hear(&[*octet]);
    }
}

// Whether the session of a guest waits, goes on with the file, hands out SSRM and the answers, and was ended by the partner.
fn goes_on(alloc: Global, guest: Guest<'_>) -> Result<bool, AllocError> {
    let all = joined(alloc, &[GREETING, ANSWERS])?;
    let mut session = admit(alloc, guest);
    let first = session.stage();
    hear_each(&mut session, FILE);
    let said = session.take_out(alloc);
    let last = session.stage();
    Ok(first == Stage::Waits && said.as_slice() == all.as_slice() && is_ended(last))
}

/// Who is let in waits, and goes on octet by octet in the session. SSRM that wasn't handed out yet goes first.
#[test]
fn guest_goes_on_in_the_session(rt: HostRuntime) -> Result<(), Fail> {
    let alloc = rt.alloc();
    let book = read(alloc, BOOK)?;
    let mut opening = Opening::new(alloc, &book);
    assert!(rt; waits_for_each(&mut opening, SSID));
    let guest = guest_of(opening).ok_or("not let in")?;
    assert!(rt; goes_on(alloc, guest)?);
    Ok(())
}

/// What goes out to a caller, what its octets amount to, and whether it is a guest.
#[derive(Drop)]
struct Reply {
    said: Vec<u8>,
    told: Result<Admission, RunFault>,
    is_guest: bool,
}

// Opens a session with a caller whose octets come some at once.
fn reply_to(
    alloc: Global,
    book: &Book,
    octets: &[u8],
    at_once: usize,
) -> Result<Reply, AllocError> {
    let mut opening = Opening::new(alloc, book);
    let said = open(alloc, &mut opening, octets, at_once)?;
    let told = opening.admission();
    let is_guest = guest_of(opening).is_some();
    Ok(Reply {
        said,
        told,
        is_guest,
    })
}

// Whether an opening that has sent its caller away for this cause hears nothing more, and has no code.
fn stays_so(alloc: Global, opening: &mut Opening<'_>, away: Admission) -> bool {
    let heard = hear(opening, SSID);
    let has_code = opening.code().is_some();
    let out = opening.take_out(alloc);
    heard == Ok(away) && !has_code && out.is_empty()
}

/// A caller that is sent away: its octets, the cause, and the ESID that goes out.
#[derive(Clone, Copy, Drop)]
struct Away<'a> {
    octets: &'a [u8],
    reason: SessionReason,
    esid: &'a [u8],
}

// Whether a caller whose octets come some at once is sent away so, and hears nothing more.
fn is_sent_away(
    alloc: Global,
    book: &Book,
    caller: &Away<'_>,
    at_once: usize,
) -> Result<bool, AllocError> {
    let away = Admission::SentAway(Ending::Own(caller.reason));
    let all = joined(alloc, &[GREETING, caller.esid])?;
    let mut opening = Opening::new(alloc, book);
    let said = open(alloc, &mut opening, caller.octets, at_once)?;
    let told = opening.admission();
    let stays = stays_so(alloc, &mut opening, away);
    let is_guest = guest_of(opening).is_some();
    Ok(told == Ok(away) && said.as_slice() == all.as_slice() && stays && !is_guest)
}

fn table() -> [Away<'static>; 5] {
    [
        // A wrong password.
        Away {
            octets: b"\x10\0\0\x41X5O0177CARMAKER            GUESS   00128BNYN002N            \r",
            reason: SessionReason::InvalidPassword,
            esid: b"\x10\0\0\x0bF04000\r",
        },
        // An unknown code.
        Away {
            octets: b"\x10\0\0\x41X5O0177STRANGER            CARPW   00128BNYN002N            \r",
            reason: SessionReason::UserCodeNotKnown,
            esid: b"\x10\0\0\x0bF03000\r",
        },
        // Octets that are no stream header.
        Away {
            octets: b"GET / HTTP/1.1\r\n",
            reason: SessionReason::ProtocolViolation,
            esid: b"\x10\0\0\x0bF02000\r",
        },
        // A command other than SSID.
        Away {
            octets: b"\x10\0\0\x05R",
            reason: SessionReason::ProtocolViolation,
            esid: b"\x10\0\0\x0bF02000\r",
        },
        // A command that there isn't.
        Away {
            octets: b"\x10\0\0\x05?",
            reason: SessionReason::CommandNotRecognised,
            esid: b"\x10\0\0\x0bF01000\r",
        },
    ]
}

/// A wrong password, an unknown code, octets that are no stream header, a command other than SSID, and one that there isn't.
#[test]
fn callers_sent_away(rt: HostRuntime) -> Result<(), Fail> {
    let alloc = rt.alloc();
    let book = read(alloc, BOOK)?;
    let table = table();
    for caller in &table {
        for at_once in [1, 4_096] {
            let is_so = is_sent_away(alloc, &book, caller, at_once)?;
            assert!(rt; is_so, "{at_once} at once");
        }
    }
    Ok(())
}

// It ends the session itself.
fn leaves(alloc: Global, rt: &impl Abort, book: &Book) -> Result<(), AllocError> {
    let left = reply_to(alloc, book, b"\x10\0\0\x0bF00000\r", 1)?;
    assert!(rt; left.said.as_slice() == GREETING);
    assert!(rt; matches!(left.told, Ok(Admission::SentAway(Ending::Partner(_)))));
    Ok(())
}

// It begins a long frame.
fn waits(alloc: Global, rt: &impl Abort, book: &Book) -> Result<(), AllocError> {
    let waits = reply_to(alloc, book, b"\x10\x01\x86\xa3D0123456789", 4_096)?;
    assert!(rt; waits.said.as_slice() == GREETING);
    assert!(rt; waits.told == Ok(Admission::Undecided));
    assert!(rt; !waits.is_guest);
    Ok(())
}

/// A caller that ends the session itself is told nothing more. One that begins a long frame is undecided.
#[test]
fn callers_that_leave_or_wait(rt: HostRuntime) -> Result<(), Fail> {
    let alloc = rt.alloc();
    let book = read(alloc, BOOK)?;
    leaves(alloc, &rt, &book)?;
    waits(alloc, &rt, &book)?;
    Ok(())
}

// A life that is over, since a look-up failed.
fn over(alloc: Global) -> Option<Life<Noting>> {
    let mut life = Life::new(Noting::failing(alloc, true));
    let has_failed = life.out_by_no(1).is_err();
    (has_failed && life.is_over()).then_some(life)
}

// Whether a life admits nobody: the session of a guest is lost, and nothing goes out.
fn admits_nobody(alloc: Global, life: Life<Noting>, guest: Guest<'_>) -> bool {
    let mut session = life.admit(alloc, guest);
    let stage = session.stage();
    let out = session.take_out(alloc);
    stage == Stage::Lost && out.is_empty()
}

/// A life that is over admits nobody: nothing goes out.
#[test]
fn life_that_is_over_admits_nobody(rt: HostRuntime) -> Result<(), Fail> {
    let alloc = rt.alloc();
    let book = read(alloc, BOOK)?;
    let mut opening = Opening::new(alloc, &book);
    assert!(rt; hear(&mut opening, SSID) == Ok(Admission::LetIn));
    let guest = guest_of(opening).ok_or("not let in")?;
    let life = over(alloc).ok_or("not over")?;
    assert!(rt; admits_nobody(alloc, life, guest));
    Ok(())
}
