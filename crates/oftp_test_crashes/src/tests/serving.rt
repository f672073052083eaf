//! Sessions with each office. One has a file that passes its limit, and one is over a disk that stops at each of its calls in turn. The octets
//! are spelled by hand from RFC 5024, and so is what is kept.

use oftp_test_acts::asking::Ask;
use oftp_test_acts::playing::{
    FEW, Image, MOST_CALLS, NO_STOP, Played, STOPS, Step, Stop, is_at, play, play_both,
};
use oftp_vfile::Limits;
use std::alloc::{AllocError, Global};
use std::process::Abort;
use std::test::Fail;

// Some parts in one.
fn joined(alloc: Global, parts: &[&str]) -> Result<String, AllocError> {
    let mut all = String::new(alloc);
    for part in parts {
        all.push_str(part)?;
    }
    Ok(all)
}

/// The partner's SSID.
const CALLER: &[u8] = b"\x10\0\0\x41X5O0177CARMAKER            CARPW   00128BNYN002N            \r";

/// SFID of an unstructured file up to the last digit of the time, and the rest of it.
const NAMED: &[u8] = b"\x10\0\0\xa9HABC                          20240131101530000";

const OFFERED: &[u8] = b"        O0013SUPPLIER            O0177CARMAKER            U00000\
      0000000000001000000000000100000000000000000\
      00000\
      0N000";

/// ESID 00.
const OVER: &[u8] = b"\x10\0\0\x0bF00000\r";

/// The station's SSRM and its SSID, SFPA from row 0 on, and CDT.
const GREETED: &str =
    "\x10\0\0\x17IODETTE FTP READY \r\x10\0\0\x41X5O0013SUPPLIER            SUPPW   00128BNYN001N            \r";

const TAKEN: &str = "\x10\0\0\x16200000000000000000";

const CREDIT: &str = "\x10\0\0\x07C  ";

/// DATA of 125 octets, which is all that a buffer of 128 holds, of 24, and of one more.
const FULL: &[u8] =
    b"\x10\0\0\x84D\x3fAAAAAAAAAAAAAAAAAAAAAAAAAAAAAAAAAAAAAAAAAAAAAAAAAAAAAAAAAAAAAAA\x3eAAAAAAAAAAAAAAAAAAAAAAAAAAAAAAAAAAAAAAAAAAAAAAAAAAAAAAAAAAAAAA";

const PART: &[u8] = b"\x10\0\0\x1eD\x18AAAAAAAAAAAAAAAAAAAAAAAA";

const MORE: &[u8] = b"\x10\0\0\x07D\x01A";

/// An eighth of the row.
const EIGHTH: &str =
    "AAAAAAAAAAAAAAAAAAAAAAAAAAAAAAAAAAAAAAAAAAAAAAAAAAAAAAAAAAAAAAAAAAAAAAAAAAAAAAAAAAAAAAAAAAAAAAAAAAAAAAAAAAAAAAAAAAAAAAAAAAAAAAAA";

/// Eight full DATA come, one that fills the file up to its limit of 1,024 octets, and one of an octet more.
const TOO_MUCH: &[&[u8]] = &[
    CALLER, NAMED, b"1", OFFERED, FULL, FULL, FULL, FULL, FULL, FULL, FULL, FULL, PART, MORE,
];

/// ESID 06, with 184 octets out in all.
const REFUSED: [&str; 13] = [
    "own ",
    GREETED,
    TAKEN,
    CREDIT,
    CREDIT,
    CREDIT,
    CREDIT,
    CREDIT,
    CREDIT,
    CREDIT,
    CREDIT,
    CREDIT,
    "\x10\0\0\x0bF06000\r",
];

/// One row is kept.
const KEPT: [&str; 10] = [
    "in 1 A U0  Open 1/1024 ",
    EIGHTH,
    EIGHTH,
    EIGHTH,
    EIGHTH,
    EIGHTH,
    EIGHTH,
    EIGHTH,
    EIGHTH,
    "|; ",
];

const SHORT: Limits = Limits {
    files: 9,
    octets: 1024,
};

// Whether the line at an index is these parts in one.
fn is_joined_at(
    alloc: Global,
    lines: &[String],
    at: usize,
    parts: &[&str],
) -> Result<bool, AllocError> {
    let wanted = joined(alloc, parts)?;
    Ok(is_at(lines, at, wanted.as_str()))
}

#[test]
fn octets_pass_the_limit(rt: HostRuntime) -> Result<(), Fail> {
    let alloc = rt.alloc();
    let asks = [Ask::Serve(TOO_MUCH), Ask::Kept];
    let lines = play_both(alloc, SHORT, &[Step::Open(&asks)])?;
    let lines = lines.as_slice();
    assert_eq!(rt; lines.len(), 3);
    assert!(rt; is_joined_at(alloc, lines, 1, &REFUSED)?);
    assert!(rt; is_joined_at(alloc, lines, 2, &KEPT)?);
    Ok(())
}

/// A file of one record, an end response, and ESID 00.
const HEARD: &[&[u8]] = &[
    CALLER,
    NAMED,
    b"1        O0013SUPPLIER            O0177CARMAKER            V00003\
      0000000000001000000000000100000000000000000\
      00000\
      0N000\
      \x10\0\0\x07D\x81a\x10\0\0\x27T0000000000000000100000000000000001\
      \x10\0\0\x72EINV.7                        202402010800000001        O0013SUPPLIER            O0177CARMAKER            \0\0\0\0",
    OVER,
];

/// What is kept before the first change, and after each, and how many octets are out before each: before SFPA, CDT, EFPA and RTR.
const REGISTERS: [&str; 5] = [
    "",
    "in 1 A V3  Open 0/0 ; ",
    "in 1 A V3  Open 1/1 a|; ",
    "in 1 A V3  Whole 1/1 a|; ",
    "in 1 A V3  Whole 1/1 a|; got 1 I EERP 0  ; ",
];

const BEGINS: [usize; 4] = [88, 110, 117, 123];

/// ESID 08.
const LAST_WORDS: &str = "\x10\0\0\x0bF08000\r";

const ANSWERS: [&str; 4] = [GREETED, TAKEN, CREDIT, "\x10\0\0\x064N\x10\0\0\x05P"];

// How many octets of these answers are out, and whether a fault of the office ended the session. None is what mustn't be said.
fn out_of(answers: &str, line: &str) -> Option<(usize, bool)> {
    if let Some(said) = line.strip_prefix("partner ") {
        return (said == answers).then_some((said.len(), false));
    }
    let said = line.strip_prefix("office ")?.strip_suffix(LAST_WORDS)?;
    answers.starts_with(said).then_some((said.len(), true))
}

fn octets_out(alloc: Global, line: &str) -> Result<Option<(usize, bool)>, AllocError> {
    let answers = joined(alloc, &ANSWERS)?;
    Ok(out_of(answers.as_str(), line))
}

fn is_register(changes: usize, found: &[String]) -> bool {
    match REGISTERS.get(changes) {
        Some(register) => is_at(found, 1, register),
        None => false,
    }
}

// Whether each change is found that comes before an answer of which one octet is out. At most one more may be, which ended in an error.
fn is_kept(out: usize, is_fault: bool, found: &[String]) -> bool {
    let least = BEGINS.iter().filter(|begin| **begin < out).count();
    is_register(least, found) || is_fault && is_register(least.saturating_add(1), found)
}

// Compares what a run said with what is found after it.
fn compare(
    alloc: Global,
    rt: &impl Abort,
    said: &[String],
    found: &[String],
) -> Result<Option<bool>, Fail> {
    let Some(line) = said.get(1) else {
        assert!(rt; is_kept(0, false, found));
        return Ok(None);
    };
    let Some((out, is_fault)) = octets_out(alloc, line.as_str())? else {
        return Err("another answer".into());
    };
    assert!(rt; is_kept(out, is_fault, found), "after {out} octets");
    Ok(Some(is_fault))
}

const LOOKS: [Step<'static>; 1] = [Step::Open(&[Ask::Kept])];

// Looks at what a run left that may have been stopped. It answers whether a session was stopped, or ended well; none began where the stop came
// within the opening.
fn look_at(alloc: Global, rt: &impl Abort, played: &Played) -> Result<Option<bool>, Fail> {
    let found = play(alloc, FEW, &LOOKS, &played.left, NO_STOP)?;
    compare(alloc, rt, played.said.as_slice(), found.said.as_slice())
}

const SERVES: [Step<'static>; 1] = [Step::Open(&[Ask::Serve(HEARD)])];

// Stops the session once, and looks at what it left.
fn stop_once(alloc: Global, rt: &impl Abort, stop: Stop) -> Result<Option<bool>, Fail> {
    let played = play(alloc, FEW, &SERVES, &Image::empty(alloc), stop)?;
    look_at(alloc, rt, &played)
}

// Stops the session at each call on one file in turn, up to one that isn't stopped. It answers how many were.
fn stop_at_each(alloc: Global, rt: &impl Abort, stop: Stop) -> Result<u64, Fail> {
    let mut stopped = 0_u64;
    for calls in 0..MOST_CALLS {
        match stop_once(alloc, rt, Stop { calls, ..stop })? {
            Some(true) => stopped = stopped.saturating_add(1),
            Some(false) => return Ok(stopped),
            None => {}
        }
    }
    Err("no session ended".into())
}

/// What is found after a crash is compared with the octets that are out, with and without what was written since the last sync.
#[test]
fn stop_within_a_session(rt: HostRuntime) -> Result<(), Fail> {
    let mut stopped = 0_u64;
    for stop in STOPS {
        stopped = stopped.saturating_add(stop_at_each(rt.alloc(), &rt, stop)?);
    }
    assert!(rt; stopped > 16, "{stopped} sessions were stopped");
    Ok(())
}
