//! Files over an office that notes the requests for rows and items, and may lose a row. The partner's octets are written by hand from RFC
//! 5024.

use oftp_engine::{End, Operator, Role, RunFault, Submission, Told};
use oftp_partners::{Book, read};
use oftp_test_parts::given::{BOOK, FILE};
use oftp_test_parts::hearing::{Line, call, caller, hear};
use oftp_test_parts::noting::Noting;
use oftp_vfile::Format;
use oftp_wire::Count;
use std::alloc::{AllocError, Global};
use std::process::Abort;
use std::test::Fail;

/// The partner's SSRM, its SSID, SFPA from row 0 on, CDT, EFPA and ESID 00.
const PARTNER: &[u8] =
    b"\x10\0\0\x17IODETTE FTP READY \r\x10\0\0\x41X5O0177CARMAKER            CARPW   00128BNYN002N            \r\x10\0\0\x16200000000000000000\x10\0\0\x07C  \x10\0\0\x064N\x10\0\0\x0bF00000\r";

/// 300 empty records, in their local form.
const RECORDS: Submission<'static> = Submission {
    format: Format::Variable,
    longest: 1,
    content: &[b'0'; 1500],
    ..FILE
};

/// Submits a file, which gets this number.
fn submit(
    alloc: Global,
    rt: &impl Abort,
    office: &mut Noting,
    book: &Book,
    (no, file): (u64, Submission<'_>),
) {
    let submit = Operator::Submit(file);
    let told = call(alloc, office, book, &submit, &mut Vec::new(alloc));
    assert!(rt; told == Ok(Told::Done(no)));
}

/// Submits a file, and calls the partner. Asserts how many octets were sent. Returns the end of the session.
fn send(
    alloc: Global,
    rt: &impl Abort,
    office: &mut Noting,
    file: Submission<'_>,
    octets: u64,
) -> Result<Result<End, RunFault>, Fail> {
    let book = read(alloc, BOOK)?;
    submit(alloc, rt, office, &book, (1, file));
    let role = caller(&book, b"O0177CARMAKER")?;
    let heard = hear(alloc, office, &book, role, Line::of(PARTNER), 1_000_000);
    assert_eq!(rt; heard.moved, octets);
    Ok(heard.end)
}

/// The speaker requests 64 rows and, while there is room for more, twice as many, but never more than fit into a DATA.
#[test]
fn rows_asked_for(rt: HostRuntime) -> Result<(), Fail> {
    let mut office = Noting::new(rt.alloc(), None);
    // SSID, SFID, DATA of 127, 127 and 46 records, EFID and CD.
    let octets = 65 + 178 + 132 + 132 + 51 + 39 + 5;
    let end = send(rt.alloc(), &rt, &mut office, RECORDS, octets)?;
    assert!(rt; end == Ok(End::Partner(Count::new(0))));
    assert_eq!(rt; office.most, 127);
    Ok(())
}

/// If the store loses a row, the session ends with ESID 08, before a payload with the other rows is sent.
#[test]
fn row_lost_by_the_store(rt: HostRuntime) -> Result<(), Fail> {
    let mut office = Noting::new(rt.alloc(), None);
    office.loses = true;
    let end = send(rt.alloc(), &rt, &mut office, FILE, 65 + 178 + 11)?;
    assert!(rt; end == Err(RunFault::Office));
    Ok(())
}

/// The partner's SSID.
const CALLER: &[u8] = b"\x10\0\0\x41X5O0177CARMAKER            CARPW   00128BNYN002N            \r";

/// SFID up to the last digit of the time, and the rest of it.
const NAMED: &[u8] = b"\x10\0\0\xa9HABC                          20240131101530000";

const OFFERED: &[u8] = b"        O0013SUPPLIER            O0177CARMAKER            U00000\
      0000000000001000000000000100000000000000000\
      00000\
      0N000";

/// DATA of three octets, and EFID.
const CONTENT: &[u8] = b"\x10\0\0\x09D\x83ABC\x10\0\0\x27T0000000000000000000000000000000003";

/// ESID 00.
const OVER: &[u8] = b"\x10\0\0\x0bF00000\r";

/// The station's SSRM and its SSID.
const GREETED: &[u8] =
    b"\x10\0\0\x17IODETTE FTP READY \r\x10\0\0\x41X5O0013SUPPLIER            SUPPW   00128BNYN002N            \r";

/// SFPA from row 0 on and EFPA, without a request for CD and with one.
const TAKEN: &[u8] = b"\x10\0\0\x16200000000000000000\x10\0\0\x064N";

const TAKEN_AND_ASKED: &[u8] = b"\x10\0\0\x16200000000000000000\x10\0\0\x064Y";

/// The octets of a partner that calls and sends three files, with these digits in their times.
fn three_files(alloc: Global, digits: &[u8; 3]) -> Result<Vec<u8>, AllocError> {
    let mut octets = CALLER.to_vec(alloc)?;
    for digit in digits {
        octets.extend_from_slice(NAMED)?;
        octets.push(*digit)?;
        octets.extend_from_slice(OFFERED)?;
        octets.extend_from_slice(CONTENT)?;
    }
    octets.extend_from_slice(OVER)?;
    Ok(octets)
}

/// What the station says to three files, with this answer to each.
fn three_answers(alloc: Global, answer: &[u8]) -> Result<Vec<u8>, AllocError> {
    let mut said = GREETED.to_vec(alloc)?;
    for _ in 0..3 {
        said.extend_from_slice(answer)?;
    }
    Ok(said)
}

/// Serves a session with these octets, which the partner ends without an error, and compares the station's octets.
fn serve(
    alloc: Global,
    rt: &impl Abort,
    office: &mut Noting,
    octets: &[u8],
    said: &[u8],
) -> Result<(), Fail> {
    let book = read(alloc, BOOK)?;
    let line = Line::of(octets);
    let heard = hear(alloc, office, &book, Role::Responder, line, 1_000_000);
    assert!(rt; heard.end == Ok(End::Partner(Count::new(0))));
    assert!(rt; heard.said.as_slice() == said);
    Ok(())
}

/// Receives three files, with this answer to each.
fn take(
    alloc: Global,
    rt: &impl Abort,
    office: &mut Noting,
    digits: &[u8; 3],
    answer: &[u8],
) -> Result<(), Fail> {
    let octets = three_files(alloc, digits)?;
    let said = three_answers(alloc, answer)?;
    serve(alloc, rt, office, octets.as_slice(), said.as_slice())
}

/// Releases the first file.
fn release(alloc: Global, rt: &impl Abort, office: &mut Noting) -> Result<(), Fail> {
    let book = read(alloc, BOOK)?;
    let release = Operator::Release { no: 1 };
    let told = call(alloc, office, &book, &release, &mut Vec::new(alloc));
    assert!(rt; told == Ok(Told::Done(1)));
    Ok(())
}

/// However many files a session receives, the next response is looked for once, both if no response is due and if one is.
#[test]
fn next_looked_up_once(rt: HostRuntime) -> Result<(), Fail> {
    let mut office = Noting::new(rt.alloc(), None);
    take(rt.alloc(), &rt, &mut office, b"123", TAKEN)?;
    assert_eq!(rt; office.next, 1);
    release(rt.alloc(), &rt, &mut office)?;
    take(rt.alloc(), &rt, &mut office, b"456", TAKEN_AND_ASKED)?;
    assert_eq!(rt; office.next, 2);
    Ok(())
}

/// The partner's SSRM and its SSID.
const ANSWERED: &[u8] =
    b"\x10\0\0\x17IODETTE FTP READY \r\x10\0\0\x41X5O0177CARMAKER            CARPW   00128BNYN002N            \r";

/// The octets of a partner that is called and takes this number of files.
fn all_taken(alloc: Global, files: usize) -> Result<Vec<u8>, AllocError> {
    let mut octets = ANSWERED.to_vec(alloc)?;
    for _ in 0..files {
        octets.extend_from_slice(TAKEN)?;
    }
    octets.extend_from_slice(OVER)?;
    Ok(octets)
}

/// Calls the partner, which takes three files.
fn send_three(
    alloc: Global,
    rt: &impl Abort,
    office: &mut Noting,
    book: &Book,
) -> Result<(), Fail> {
    let octets = all_taken(alloc, 3)?;
    let role = caller(book, b"O0177CARMAKER")?;
    let line = Line::of(octets.as_slice());
    let heard = hear(alloc, office, book, role, line, 1_000_000);
    assert!(rt; heard.end == Ok(End::Partner(Count::new(0))));
    // SSID, three times SFID, DATA and EFID, and CD.
    assert_eq!(rt; heard.moved, 65 + 3 * (178 + 9 + 39) + 5);
    Ok(())
}

/// However many files a session sends, the next response is looked for once.
#[test]
fn response_looked_for_once(rt: HostRuntime) -> Result<(), Fail> {
    let alloc = rt.alloc();
    let mut office = Noting::new(alloc, None);
    let book = read(alloc, BOOK)?;
    for (no, time) in [(1, "1015300001"), (2, "1015300002"), (3, "1015300003")] {
        let file = Submission { time, ..FILE };
        submit(alloc, &rt, &mut office, &book, (no, file));
    }
    send_three(alloc, &rt, &mut office, &book)?;
    assert_eq!(rt; office.next, 1);
    Ok(())
}
