//! Sessions of which one allocation may be refused, whichever it is. The partner then says the same again, and the register comes to be that of a
//! session with enough memory. checks/faults/each_allocation_refused.sh refuses each in turn. The octets are written by hand from RFC 5024.

use oftp_engine::{End, Operator, Role, RunFault, Submission};
use oftp_partners::{Book, read};
use oftp_register::OfficeFault;
use oftp_test_parts::given::{BOOK, FILE};
use oftp_test_parts::hearing::{Line, call, caller, hear};
use oftp_test_parts::noting::Noting;
use oftp_test_parts::snapshot::snapshot;
use oftp_wire::Count;
use std::alloc::{AllocError, Global};
use std::process::Abort;
use std::test::Fail;

/// ESID 08.
const LAST_WORDS: &[u8] = b"\x10\0\0\x0bF08000\r";

/// What the partner says in a session, what the station says, how it ends, and the register afterwards.
#[derive(Drop)]
struct Script<'a> {
    heard: &'a [u8],
    said: &'a [u8],
    end: End,
    left: &'a str,
}

// The book. Where memory was refused, it is read again: only one allocation is refused.
fn book_again(alloc: Global) -> Result<Book, Fail> {
    match read(alloc, BOOK) {
        Ok(book) => Ok(book),
        Err(_) => Ok(read(alloc, BOOK)?),
    }
}

// The register, in the same way.
fn left_again(alloc: Global, office: &mut Noting) -> Result<String, OfficeFault> {
    match snapshot(alloc, office) {
        Ok(left) => Ok(left),
        Err(_) => snapshot(alloc, office),
    }
}

// Whether these are all answers up to some octet, and then perhaps ESID 08.
fn is_beginning(said: &[u8], answers: &[u8]) -> bool {
    match said.strip_suffix(LAST_WORDS) {
        Some(front) => answers.starts_with(front),
        None => answers.starts_with(said),
    }
}

// Whether a session ended so and said so. One that memory cut short has said a beginning of the answers.
fn is_so(end: Result<End, RunFault>, said: &[u8], script: &Script<'_>) -> bool {
    match end {
        Ok(end) => end == script.end && said == script.said,
        // the writer keeps what is said in memory as well
        Err(RunFault::Memory | RunFault::Office | RunFault::Write) => {
            is_beginning(said, script.said)
        }
        Err(RunFault::Read) => false,
    }
}

// Serves a session once.
fn attempt(
    alloc: Global,
    rt: &impl Abort,
    office: &mut Noting,
    book: &Book,
    role: Role<'_>,
    script: &Script<'_>,
) {
    let line = Line::of(script.heard);
    let heard = hear(alloc, office, book, role, line, 1_000_000);
    let is_so = is_so(heard.end, heard.said.as_slice(), script);
    assert!(rt; is_so);
}

// Serves a session, and once more if memory cut it short. Then the register is as wanted.
fn take(
    alloc: Global,
    rt: &impl Abort,
    office: &mut Noting,
    book: &Book,
    role: Role<'_>,
    script: &Script<'_>,
) -> Result<(), Fail> {
    attempt(alloc, rt, office, book, role, script);
    let left = left_again(alloc, office)?;
    if left.as_str() != script.left {
        attempt(alloc, rt, office, book, role, script);
    }
    let left = left_again(alloc, office)?;
    assert_eq!(rt; left.as_str(), script.left);
    Ok(())
}

/// The partner's SSRM, its SSID, SFPA from row 0 on, EFPA and ESID 00.
const CALLED: &[u8] =
    b"\x10\0\0\x17IODETTE FTP READY \r\x10\0\0\x41X5O0177CARMAKER            CARPW   00128BNYN002N            \r\x10\0\0\x16200000000000000000\x10\0\0\x064N\x10\0\0\x0bF00000\r";

/// The station's SSID, SFID, DATA of three octets, EFID and CD.
const SENT: &[u8] = b"\x10\0\0\x41X5O0013SUPPLIER            SUPPW   00128BNYN002N            \r\
      \x10\0\0\xa9HABC                          202401311015300001        O0177CARMAKER            O0013SUPPLIER            U00000\
      0000000000001000000000000100000000000000000\
      00000\
      0N000\
      \x10\0\0\x09D\x83abc\x10\0\0\x27T0000000000000000000000000000000003\x10\0\0\x05R";

const HANDED: &str =
    "out 1 Handed 0 of 1 ABC 20240131 1015300001 O0013SUPPLIER O0177CARMAKER Unstructured 0 |abc\n";

// Hands in a file of three octets. Where only its line was cut off, it is refused as a duplicate the second time.
fn hand_in(alloc: Global, office: &mut Noting, book: &Book) {
    let submit = Operator::Submit(Submission {
        description: "",
        ..FILE
    });
    for _ in 0..2 {
        let _ = call(alloc, office, book, &submit, &mut Vec::new(alloc));
    }
}

/// A file of three octets goes out.
#[test]
fn three_octets_out(rt: HostRuntime) -> Result<(), Fail> {
    let alloc = rt.alloc();
    let book = book_again(alloc)?;
    let mut office = Noting::new(alloc, None);
    hand_in(alloc, &mut office, &book);
    let role = caller(&book, b"O0177CARMAKER")?;
    let script = Script {
        heard: CALLED,
        said: SENT,
        end: End::Partner(Count::new(0)),
        left: HANDED,
    };
    take(alloc, &rt, &mut office, &book, role, &script)
}

/// The partner's SSID, and SFID of a file of three blocks up to its restart position.
const OFFERED: &[u8] = b"\x10\0\0\x41X5O0177CARMAKER            CARPW   00128BNYN002N            \r\
      \x10\0\0\xa9HABC                          202401311015300001        O0013SUPPLIER            O0177CARMAKER            U00000\
      00000000000030000000000003";

/// Restart positions, and the rest of SFID.
const FROM_0: &[u8] = b"00000000000000000000000N000";

const FROM_2: &[u8] = b"00000000000000002000000N000";

/// EFID of 2,500 octets, and ESID 00.
const ENDED: &[u8] = b"\x10\0\0\x27T0000000000000000000000000000002500\x10\0\0\x0bF00000\r";

/// The station's SSRM and its SSID, SFPA from row 0 on, and nine CDT.
const NINE: &[u8] =
    b"\x10\0\0\x17IODETTE FTP READY \r\x10\0\0\x41X5O0013SUPPLIER            SUPPW   00128BNYN002N            \r\x10\0\0\x16200000000000000000\
      \x10\0\0\x07C  \x10\0\0\x07C  \x10\0\0\x07C  \x10\0\0\x07C  \x10\0\0\x07C  \x10\0\0\x07C  \x10\0\0\x07C  \x10\0\0\x07C  \x10\0\0\x07C  ";

/// The same with SFPA from row 2 on, two CDT, and EFPA.
const TWO: &[u8] =
    b"\x10\0\0\x17IODETTE FTP READY \r\x10\0\0\x41X5O0013SUPPLIER            SUPPW   00128BNYN002N            \r\x10\0\0\x16200000000000000002\
      \x10\0\0\x07C  \x10\0\0\x07C  \x10\0\0\x064N";

// The octets of the file: 2,500.
fn content_of(alloc: Global) -> Result<Vec<u8>, AllocError> {
    let mut content = Vec::new(alloc);
    for at in 0..2500u32 {
        content.push((at % 251) as u8)?;
    }
    Ok(content)
}

// DATA of 125 octets, or the last one, of 77. Each has two subrecords.
fn add_data(octets: &mut Vec<u8>, content: &[u8]) -> Result<(), AllocError> {
    let (length, headers) = match content.len() {
        125 => (0x84, [0x3f, 0x3e]),
        _ => (0x54, [0x3f, 0x8e]),
    };
    octets.extend_from_slice(&[0x10, 0, 0, length, b'D'])?;
    for (header, piece) in headers.iter().zip(content.chunks(63)) {
        octets.push(*header)?;
        octets.extend_from_slice(piece)?;
    }
    Ok(())
}

// What the partner says who sends at most this many DATA of this content.
fn offer(
    alloc: Global,
    from: &[u8],
    content: &[u8],
    most: usize,
    end: &[u8],
) -> Result<Vec<u8>, AllocError> {
    let mut octets = OFFERED.to_vec(alloc)?;
    octets.extend_from_slice(from)?;
    for piece in content.chunks(125).take(most) {
        add_data(&mut octets, piece)?;
    }
    octets.extend_from_slice(end)?;
    Ok(octets)
}

// The register as text: a file in this state with these rows.
fn kept(alloc: Global, state: &str, rows: &[&[u8]]) -> Result<String, AllocError> {
    let count = rows.len();
    let mut text = format!(in alloc;
        "in 1 {state} {count} ABC 20240131 1015300001 O0177CARMAKER O0013SUPPLIER Unstructured 0 "
    )?;
    for row in rows {
        text.push('|')?;
        for octet in *row {
            text.push(char::from(*octet))?;
        }
    }
    text.push('\n')?;
    Ok(text)
}

// The connection breaks after nine CDT, when two rows are stored.
fn break_off(
    alloc: Global,
    rt: &impl Abort,
    office: &mut Noting,
    book: &Book,
    content: &[u8],
    rows: &[&[u8]],
) -> Result<(), Fail> {
    let heard = offer(alloc, FROM_0, content, 18, b"")?;
    let left = kept(alloc, "Open", rows)?;
    let script = Script {
        heard: heard.as_slice(),
        said: NINE,
        end: End::Input,
        left: left.as_str(),
    };
    take(alloc, rt, office, book, Role::Responder, &script)
}

// The next session begins at the third row, and the file is whole.
fn take_up(
    alloc: Global,
    rt: &impl Abort,
    office: &mut Noting,
    book: &Book,
    rest: &[u8],
    rows: &[&[u8]],
) -> Result<(), Fail> {
    let heard = offer(alloc, FROM_2, rest, 4, ENDED)?;
    let left = kept(alloc, "Whole", rows)?;
    let script = Script {
        heard: heard.as_slice(),
        said: TWO,
        end: End::Partner(Count::new(0)),
        left: left.as_str(),
    };
    take(alloc, rt, office, book, Role::Responder, &script)
}

// Both sessions, over this content of three rows.
fn play(alloc: Global, rt: &impl Abort, book: &Book, content: &[u8]) -> Result<(), Fail> {
    let mut rows = content.chunks(1024);
    let (Some(first), Some(second), Some(third)) = (rows.next(), rows.next(), rows.next()) else {
        return Err("the file is too short".into());
    };
    let mut office = Noting::new(alloc, None);
    break_off(alloc, rt, &mut office, book, content, &[first, second])?;
    let rows = [first, second, third];
    take_up(alloc, rt, &mut office, book, third, &rows)
}

/// A file of 2,500 octets comes. The connection breaks after nine CDT, and the second session goes on at the third row.
#[test]
fn broken_and_taken_up(rt: HostRuntime) -> Result<(), Fail> {
    let alloc = rt.alloc();
    let book = book_again(alloc)?;
    let content = content_of(alloc)?;
    play(alloc, &rt, &book, content.as_slice())
}
