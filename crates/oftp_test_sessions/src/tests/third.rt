//! A third partner, who calls a station after its session with another one. The octets of both sides are written by hand from RFC 5024.

use super::answers::submit;
use super::stations::told;
use oftp_engine::{End, Role};
use oftp_partners::{Book, read};
use oftp_test_parts::given::BOOK_OF_TWO;
use oftp_test_parts::hearing::{Line, caller, hear};
use oftp_test_parts::noting::Noting;
use oftp_test_parts::octets::{
    ANOTHERS_ANSWER, ANOTHERS_FILE, GREETING, NOT_TAKEN, SENT_AWAY, TAKES, THIRD, THREE_OCTETS,
    joined,
};
use oftp_wire::SessionReason;
use std::alloc::Global;
use std::process::Abort;
use std::test::Fail;

/// SFID of the same file as its own, with DATA and EFID. Then comes EERP of the file that was sent to the car maker, as if it had been sent
/// to the third partner.
const OWN: &[u8] =
    b"\x10\0\0\xa9HABC                          202401311015300001        O0013SUPPLIER            O0099OTHER               U00000\
      0000000000001000000000000100000000000000000\
      00000\
      0N000\
      \x10\0\0\x09D\x83ABC\x10\0\0\x27T0000000000000000000000000000000003\
      \x10\0\0\x72EABC                          202401311015300001        O0013SUPPLIER            O0099OTHER               \0\0\0\0";

/// SFPA from row 0 on, EFPA and RTR.
const TAKEN: &[u8] = b"\x10\0\0\x16200000000000000000\x10\0\0\x064N\x10\0\0\x05P";

/// The file to the car maker is handed over and not delivered. The third partner's own file of its name is there, and so is its response.
const LEFT: &str = "out Handed 0\nin Whole 1 1\nreceived EndResponse\n";

// Calls the car maker, which takes the file.
fn hand_over(alloc: Global, office: &mut Noting, book: &Book) -> Result<(), Fail> {
    let role = caller(book, b"O0177CARMAKER")?;
    let octets = joined(alloc, &[GREETING, TAKES])?;
    let line = Line::of(octets.as_slice());
    let _ = hear(alloc, office, book, role, line, u64::MAX);
    Ok(())
}

// The third partner calls, offers a file of the car maker's and its own, and answers the car maker's.
fn lie(alloc: Global, rt: &impl Abort, office: &mut Noting, book: &Book) -> Result<(), Fail> {
    let octets = joined(alloc, &[THIRD, ANOTHERS_FILE, OWN, ANOTHERS_ANSWER])?;
    let said = joined(alloc, &[NOT_TAKEN, TAKEN, SENT_AWAY])?;
    let line = Line::of(octets.as_slice());
    let third = hear(alloc, office, book, Role::Responder, line, u64::MAX);
    assert!(rt; third.end == Ok(End::Own(SessionReason::InvalidData)));
    assert!(rt; third.said.as_slice() == said.as_slice());
    Ok(())
}

/// A third partner sends no file under another one's code, and answers none that is for another one.
#[test]
fn third_partner_between(rt: HostRuntime) -> Result<(), Fail> {
    let alloc = rt.alloc();
    let book = read(alloc, BOOK_OF_TWO)?;
    let mut office = Noting::new(alloc, None);
    submit(alloc, &rt, &mut office, &book);
    hand_over(alloc, &mut office, &book)?;
    lie(alloc, &rt, &mut office, &book)?;
    let left = told(alloc, &mut office.office, THREE_OCTETS.content)?;
    assert_eq!(rt; left.as_str(), LEFT);
    Ok(())
}
