//! The results of look-ups, worked out by hand.

use Ask::{
    Answered, ByNo, Change, Full, Limits, LookIn, LookOut, Next, Received, Responses, Rows, Told,
    Units,
};
use ResponseKind::{EndResponse, NegativeEndResponse};
use Side::{Incoming, Outgoing};
use oftp_register::{ResponseKind, Side};
use oftp_test_acts::act::Act;
use oftp_test_acts::asking::Ask;
use oftp_test_acts::playing::{FEW, Step, play_at, play_both, same};
use oftp_vfile::Format::{Fixed, Text, Variable};
use std::alloc::Global;
use std::fs;
use std::process::Abort;
use std::test::Fail;

const ANSWERS: &[(Ask, &str)] = &[
    (Full, "0 0"),
    // Three files from O1, each with a response. The second response was sent.
    (Change(Act::Start(b"D", Variable, 0)), "made"),
    (Change(Act::Keep(1, &[b"abc"])), "made"),
    (Change(Act::Close(1, &[b"", b"de"])), "made"),
    (Change(Act::Issue(1, EndResponse, "")), "made"),
    (Change(Act::Start(b"E", Fixed, 0)), "made"),
    (Change(Act::Close(2, &[])), "made"),
    (
        Change(Act::Issue(2, NegativeEndResponse, "NO PLANT")),
        "made",
    ),
    (Change(Act::Send(2)), "made"),
    (Change(Act::Start(b"F", Text, 0)), "made"),
    (Change(Act::Close(3, &[b"short"])), "made"),
    (
        Change(Act::Issue(3, NegativeEndResponse, "NO ROOM")),
        "made",
    ),
    // Three outgoing files, the second closing. Two of them go to O1.
    (Change(Act::Submit(b"N", Variable, &[b"x"])), "made"),
    (Change(Act::Submit(b"P", Variable, &[])), "made"),
    (Change(Act::BeginClosing(2)), "made"),
    (Change(Act::Submit(b"A", Fixed, &[b"abc", b"def"])), "made"),
    (
        Change(Act::File(b"Z", NegativeEndResponse, "NO PLANT")),
        "made",
    ),
    (Change(Act::File(b"Z", EndResponse, "")), "made"),
    (Full, "1 1"),
    (Limits, "3 67108864"),
    // A response goes to its file's originator, and a file to its destination. Responses go first.
    (Next(b"O1", 0, 0, true), "response 1"),
    (Next(b"O1", 0, 0, false), "response 1"),
    (Next(b"O1", 0, 2, true), "response 1"),
    (Next(b"O1", 1, 0, true), "response 3"),
    (Next(b"O1", 2, 0, true), "response 3"),
    (Next(b"O1", 3, 0, false), "nothing"),
    (Next(b"O1", 3, 0, true), "file 1"),
    (Next(b"O1", 3, 1, true), "file 2"),
    (Next(b"O1", 3, 2, true), "nothing"),
    (Next(b"O2", 0, 0, true), "file 3"),
    (Next(b"O2", 0, 0, false), "nothing"),
    (Next(b"O2", 0, 3, true), "nothing"),
    (Next(b"O3", 0, 0, true), "nothing"),
    // The rows are read in parts.
    (Rows(0, 64), "abc||de|"),
    (Rows(1, 1), "|"),
    (Rows(2, 9), "de|"),
    (Rows(3, 1), ""),
    (Rows(0, 0), ""),
    (Units(Incoming, 1), "5"),
    (Units(Outgoing, 3), "6"),
    (Units(Outgoing, 4), "0"),
    (LookIn(b"E"), "2"),
    (LookIn(b"A"), "none"),
    (LookOut(b"P"), "2"),
    (LookOut(b"D"), "none"),
    (ByNo(0), "0 0"),
    (ByNo(1), "1 1"),
    (ByNo(2), "1 1"),
    (ByNo(3), "1 1"),
    (ByNo(4), "0 0"),
    (Responses, "3 2"),
    (Received(EndResponse, b"Z"), "1"),
    (Received(EndResponse, b"N"), "0"),
    (Received(NegativeEndResponse, b"Z"), "1"),
    (Received(NegativeEndResponse, b"N"), "0"),
    // What was sent isn't next any more.
    (Change(Act::Send(1)), "made"),
    (Change(Act::HandOver(2)), "made"),
    (Next(b"O1", 0, 1, true), "response 3"),
    (Next(b"O1", 3, 1, true), "nothing"),
    // The first two responses have no file. The third answers the second of three files.
    (Change(Act::File(b"P", EndResponse, "")), "made"),
    (Answered, "1 to none; 2 to none; 3 to 2; "),
];

// The database's files.
const FILES: [&str; 2] = ["offices_test.db", "offices_test.db-wal"];

fn remove_files(rt: &HostRuntime) {
    for name in FILES {
        let _ = fs::remove_file(rt, name);
    }
}

// The look-ups: each row of the table, and then all look-ups.
fn asks(rt: &HostRuntime) -> Result<Vec<Ask>, Fail> {
    let mut asks = Vec::new(rt.alloc());
    for (ask, _) in ANSWERS {
        asks.push(*ask)?;
    }
    asks.push(Told)?;
    Ok(asks)
}

fn last(said: &[String]) -> &str {
    said.last().map_or("", |line| line.as_str())
}

fn compare(rt: &impl Abort, rows: &[(Ask, &str)], lines: &[String]) {
    for ((_, wanted), found) in rows.iter().zip(lines) {
        assert_eq!(rt; found.as_str(), *wanted);
    }
}

// The look-ups in memory. Returns their lines, after that of the opening.
fn look_up(alloc: Global, rt: &impl Abort, asks: &[Ask]) -> Result<Vec<String>, Fail> {
    let said = play_both(alloc, FEW, &[Step::Open(asks)])?;
    assert_eq!(rt; said.len().saturating_sub(ANSWERS.len()), 2);
    if let [_, lines @ ..] = said.as_slice() {
        compare(rt, ANSWERS, lines);
    }
    Ok(said)
}

// The same over new files, with the same lines.
fn look_up_in_files(rt: &HostRuntime, asks: &[Ask], said: &[String]) -> Result<(), Fail> {
    let in_files = play_at(rt, FILES[0], false, asks)?;
    same(rt.alloc(), in_files.as_slice(), said)
}

// All look-ups over the files that are opened again. `rt` is the test's own runtime again, since a borrowed one may not end a test.
fn look_up_again(
    host: &HostRuntime,
    rt: &impl Abort,
    is_migrated: bool,
    wanted: &str,
) -> Result<(), Fail> {
    let again = play_at(host, FILES[0], is_migrated, &[Told])?;
    assert_eq!(rt; again.len(), 2);
    assert_eq!(rt; last(again.as_slice()), wanted);
    Ok(())
}

/// The look-ups over an office in memory, over a database in memory, and over files that are opened again.
#[test]
fn look_ups_answer(rt: HostRuntime) -> Result<(), Fail> {
    let asks = asks(&rt)?;
    let said = look_up(rt.alloc(), &rt, asks.as_slice())?;
    remove_files(&rt);
    look_up_in_files(&rt, asks.as_slice(), said.as_slice())?;
    for is_migrated in [false, true] {
        look_up_again(&rt, &rt, is_migrated, last(said.as_slice()))?;
    }
    remove_files(&rt);
    Ok(())
}
