//! Each change and each refusal, with the register after it, worked out by hand from the table of changes, and the look-ups of both
//! offices.

use Act::{
    BeginClosing, Close, File, GiveUp, HandOver, Issue, Keep, Mark, Refuse, Reopen, Send, Start,
    Submit,
};
use Cause::{Duplicate, Full, State, Unknown};
use Format::{Fixed, Text, Unstructured, Variable};
use ResponseKind::{EndResponse, NegativeEndResponse};
use oftp_register::{Cause, ResponseKind};
use oftp_test_acts::act::Act;
use oftp_test_acts::asking::{Ask, words_of};
use oftp_test_acts::playing::{FEW, play_in_parts};
use oftp_vfile::Format;
use std::alloc::{AllocError, Global};
use std::process::Abort;
use std::test::Fail;

// A change, the cause if it is refused, and the register after it.
type Row = (Act, Option<Cause>, &'static str);

const BEYOND: u64 = 1 << 63;

const A: &str = "out 1 A V3 plan Waiting mark 0 2/3 abc||; ";

const AB: &str =
    "out 1 A V3 plan Waiting mark 0 2/3 abc||; out 2 B F3 Maße Waiting mark 0 2/6 abc|def|; ";

const ABN: &str =
    "out 1 A V3 plan Waiting mark 0 2/3 abc||; out 2 B F3 Maße Waiting mark 0 2/6 abc|def|; out 3 N T0 a note Waiting mark 0 1/4 text|; ";

// A file is submitted whole, and only once.
const SUBMITTED: &[Row] = &[
    (Mark(1, 0), Some(Unknown), ""),
    (Submit(b"A", Variable, &[b"abc", b""]), None, A),
    (Submit(b"A", Fixed, &[]), Some(Duplicate), A),
    (Submit(b"B", Fixed, &[b"abc", b"def"]), None, AB),
    (Submit(b"N", Text, &[b"text"]), None, ABN),
    (Submit(b"P", Unstructured, &[]), Some(Full), ABN),
    // Both causes apply: the first of the table is returned.
    (Submit(b"B", Fixed, &[]), Some(Duplicate), ABN),
    (Mark(0, 0), Some(Unknown), ABN),
    (Mark(4, 0), Some(Unknown), ABN),
    (Mark(BEYOND, 0), Some(Unknown), ABN),
    (BeginClosing(4), Some(Unknown), ABN),
    (HandOver(4), Some(Unknown), ABN),
    (Refuse(4), Some(Unknown), ABN),
    (Reopen(4), Some(Unknown), ABN),
];

const CLOSING: &str =
    "out 1 A V3 plan Closing mark 2 2/3 abc||; out 2 B F3 Maße Waiting mark 0 2/6 abc|def|; ";

const HANDED: &str =
    "out 1 A V3 plan Handed mark 0 2/3 abc||; out 2 B F3 Maße Waiting mark 0 2/6 abc|def|; ";

const REFUSED: &str =
    "out 1 A V3 plan Handed mark 0 2/3 abc||; out 2 B F3 Maße Refused 13 mark 0 2/6 abc|def|; ";

const SENT: &[Row] = &[
    (Submit(b"A", Variable, &[b"abc", b""]), None, A),
    (Submit(b"B", Fixed, &[b"abc", b"def"]), None, AB),
    (Mark(1, 3), Some(State), AB),
    (HandOver(1), Some(State), AB),
    (Reopen(1), Some(State), AB),
    (
        Mark(1, 2),
        None,
        "out 1 A V3 plan Waiting mark 2 2/3 abc||; out 2 B F3 Maße Waiting mark 0 2/6 abc|def|; ",
    ),
    (BeginClosing(1), None, CLOSING),
    (BeginClosing(1), Some(State), CLOSING),
    (Mark(1, 1), Some(State), CLOSING),
    (Reopen(1), None, AB),
    (
        BeginClosing(1),
        None,
        "out 1 A V3 plan Closing mark 0 2/3 abc||; out 2 B F3 Maße Waiting mark 0 2/6 abc|def|; ",
    ),
    (HandOver(1), None, HANDED),
    (HandOver(1), Some(State), HANDED),
    (BeginClosing(1), Some(State), HANDED),
    (Reopen(1), Some(State), HANDED),
    (Mark(1, 1), Some(State), HANDED),
    (Refuse(1), Some(State), HANDED),
    (Refuse(2), None, REFUSED),
    (Refuse(2), Some(State), REFUSED),
    (Reopen(2), Some(State), REFUSED),
];

const EMPTY: &str = "out 1 N V3 plan Waiting mark 0 0/0 ; ";

const EMPTY_CLOSING: &str = "out 1 N V3 plan Closing mark 0 0/0 ; ";

const EMPTY_REFUSED: &str = "out 1 N V3 plan Refused 13 mark 0 0/0 ; ";

// A file whose EFID was sent can still be refused, and then stays refused.
const REFUSED_AT_THE_END: &[Row] = &[
    (Submit(b"N", Variable, &[]), None, EMPTY),
    (BeginClosing(1), None, EMPTY_CLOSING),
    (Refuse(1), None, EMPTY_REFUSED),
    (Mark(1, 0), Some(State), EMPTY_REFUSED),
    (BeginClosing(1), Some(State), EMPTY_REFUSED),
    (HandOver(1), Some(State), EMPTY_REFUSED),
    (Reopen(1), Some(State), EMPTY_REFUSED),
    (
        File(b"N", EndResponse, ""),
        None,
        "out 1 N V3 plan Refused 13 mark 0 0/0 ; got 1 N EERP 0  ; ",
    ),
];

const UNASKED: &str = "out 1 N V3 plan Waiting mark 0 0/0 ; got 1 Z EERP 0  ; got 2 N EERP 0  ; ";

const RETURNED: &str =
    "out 1 N V3 plan Returned mark 0 0/0 ; got 1 Z EERP 0  ; got 2 N EERP 0  ; got 3 N NERP 9 O3 NO PLANT; ";

const ANSWERED: &[Row] = &[
    (Submit(b"N", Variable, &[]), None, EMPTY),
    // It answers no file, or one that waits. These are unchanged.
    (
        File(b"Z", EndResponse, ""),
        None,
        "out 1 N V3 plan Waiting mark 0 0/0 ; got 1 Z EERP 0  ; ",
    ),
    (File(b"N", EndResponse, ""), None, UNASKED),
    (File(b"N", EndResponse, ""), Some(Duplicate), UNASKED),
    (
        BeginClosing(1),
        None,
        "out 1 N V3 plan Closing mark 0 0/0 ; got 1 Z EERP 0  ; got 2 N EERP 0  ; ",
    ),
    (File(b"N", NegativeEndResponse, "NO PLANT"), None, RETURNED),
    // The first text is kept.
    (
        File(b"N", NegativeEndResponse, "LATER"),
        Some(Duplicate),
        RETURNED,
    ),
    (Mark(1, 0), Some(State), RETURNED),
    (BeginClosing(1), Some(State), RETURNED),
    (HandOver(1), Some(State), RETURNED),
    (Refuse(1), Some(State), RETURNED),
    (Reopen(1), Some(State), RETURNED),
];

const DELIVERED: &str = "out 1 N V3 plan Delivered mark 0 0/0 ; got 1 N EERP 0  ; ";

const ANSWERED_WHEN_HANDED: &[Row] = &[
    (Submit(b"N", Variable, &[]), None, EMPTY),
    (BeginClosing(1), None, EMPTY_CLOSING),
    (HandOver(1), None, "out 1 N V3 plan Handed mark 0 0/0 ; "),
    (File(b"N", EndResponse, ""), None, DELIVERED),
    (Mark(1, 0), Some(State), DELIVERED),
    (BeginClosing(1), Some(State), DELIVERED),
    (HandOver(1), Some(State), DELIVERED),
    (Refuse(1), Some(State), DELIVERED),
    (Reopen(1), Some(State), DELIVERED),
    // The first response to a file decides.
    (
        File(b"N", NegativeEndResponse, "LATE"),
        None,
        "out 1 N V3 plan Delivered mark 0 0/0 ; got 1 N EERP 0  ; got 2 N NERP 9 O3 LATE; ",
    ),
];

// An End-to-End Response may arrive before the answer to EFID.
const ANSWERED_WHEN_CLOSING: &[Row] = &[
    (Submit(b"N", Variable, &[]), None, EMPTY),
    (BeginClosing(1), None, EMPTY_CLOSING),
    (File(b"N", EndResponse, ""), None, DELIVERED),
];

const RETURNED_WHEN_HANDED: &[Row] = &[
    (Submit(b"N", Variable, &[]), None, EMPTY),
    (BeginClosing(1), None, EMPTY_CLOSING),
    (HandOver(1), None, "out 1 N V3 plan Handed mark 0 0/0 ; "),
    (
        File(b"N", NegativeEndResponse, "NO PLANT"),
        None,
        "out 1 N V3 plan Returned mark 0 0/0 ; got 1 N NERP 9 O3 NO PLANT; ",
    ),
    (
        File(b"N", EndResponse, ""),
        None,
        "out 1 N V3 plan Returned mark 0 0/0 ; got 1 N NERP 9 O3 NO PLANT; got 2 N EERP 0  ; ",
    ),
];

const THREE_ROWS: &str = "in 1 D V3 plan Open 3/5 abc||de|; ";

const FIXED: &str = "in 1 D F3 Maße Open 1/3 abc|; ";

const WHOLE: &str = "in 1 D F3 Maße Whole 2/6 abc|def|; ";

const TWO: &str = "in 1 D F3 Maße Whole 2/6 abc|def|; in 2 E V3 plan Open 1/1 x|; ";

const THREE: &str =
    "in 1 D F3 Maße Whole 2/6 abc|def|; in 2 E V3 plan Open 1/1 x|; in 3 F U0  Open 0/0 ; ";

const COMING: &[Row] = &[
    (Start(b"D", Variable, 1), Some(State), ""),
    (Keep(1, &[]), Some(Unknown), ""),
    (Close(1, &[]), Some(Unknown), ""),
    (GiveUp(1), Some(Unknown), ""),
    (Start(b"D", Variable, 0), None, "in 1 D V3 plan Open 0/0 ; "),
    (Keep(1, &[b"abc", b"", b"de"]), None, THREE_ROWS),
    (Keep(0, &[]), Some(Unknown), THREE_ROWS),
    (Close(2, &[]), Some(Unknown), THREE_ROWS),
    (GiveUp(BEYOND), Some(Unknown), THREE_ROWS),
    (Start(b"D", Variable, 4), Some(State), THREE_ROWS),
    (Start(b"D", Variable, 3), None, THREE_ROWS),
    (
        Start(b"D", Variable, 2),
        None,
        "in 1 D V3 plan Open 2/3 abc||; ",
    ),
    // The header is that of the last start.
    (Start(b"D", Fixed, 1), None, FIXED),
    (GiveUp(1), None, "in 1 D F3 Maße Open 0/0 ; "),
    (Keep(1, &[b"abc"]), None, FIXED),
    (Close(1, &[b"def"]), None, WHOLE),
    (Keep(1, &[]), Some(State), WHOLE),
    (Close(1, &[]), Some(State), WHOLE),
    (GiveUp(1), Some(State), WHOLE),
    (Start(b"D", Fixed, 0), Some(State), WHOLE),
    (
        Start(b"E", Variable, 0),
        None,
        "in 1 D F3 Maße Whole 2/6 abc|def|; in 2 E V3 plan Open 0/0 ; ",
    ),
    (Keep(2, &[b"x"]), None, TWO),
    (Start(b"F", Unstructured, 0), None, THREE),
    (Start(b"A", Variable, 0), Some(Full), THREE),
    // Both causes apply: the first of the table is returned.
    (Start(b"A", Variable, 1), Some(State), THREE),
    // The rows of another file are kept.
    (
        GiveUp(2),
        None,
        "in 1 D F3 Maße Whole 2/6 abc|def|; in 2 E V3 plan Open 0/0 ; in 3 F U0  Open 0/0 ; ",
    ),
];

const OPEN: &str = "in 1 D V3 plan Open 0/0 ; ";

const UNANSWERED: &str = "in 1 D V3 plan Whole 1/2 ab|; ";

const DUE: &str = "in 1 D V3 plan Whole NERP 9 NO ROOM Due 1/2 ab|; ";

const GONE: &str = "in 1 D V3 plan Whole NERP 9 NO ROOM Sent 1/2 ab|; ";

const ISSUED: &[Row] = &[
    (Issue(1, EndResponse, ""), Some(Unknown), ""),
    (Send(1), Some(Unknown), ""),
    (Start(b"D", Variable, 0), None, OPEN),
    (Issue(1, EndResponse, ""), Some(State), OPEN),
    (Send(1), Some(State), OPEN),
    (Close(1, &[b"ab"]), None, UNANSWERED),
    (Send(1), Some(State), UNANSWERED),
    (Issue(2, EndResponse, ""), Some(Unknown), UNANSWERED),
    (Send(0), Some(Unknown), UNANSWERED),
    (Issue(1, NegativeEndResponse, "NO ROOM"), None, DUE),
    (Issue(1, EndResponse, ""), Some(State), DUE),
    (Send(1), None, GONE),
    (Send(1), Some(State), GONE),
    (Issue(1, EndResponse, ""), Some(State), GONE),
];

const STORIES: [&[Row]; 9] = [
    SUBMITTED,
    SENT,
    REFUSED_AT_THE_END,
    ANSWERED,
    ANSWERED_WHEN_HANDED,
    ANSWERED_WHEN_CLOSING,
    RETURNED_WHEN_HANDED,
    COMING,
    ISSUED,
];

// A change, then the register as text and the results of all look-ups.
fn add_change(asks: &mut Vec<Ask>, act: Act) -> Result<(), AllocError> {
    for ask in [Ask::Change(act), Ask::Kept, Ask::Told] {
        asks.push(ask)?;
    }
    Ok(())
}

// The steps of a story.
fn asks_of(alloc: Global, story: &[Row]) -> Result<Vec<Ask>, AllocError> {
    let mut asks = Vec::new(alloc);
    for (act, ..) in story {
        add_change(&mut asks, *act)?;
    }
    Ok(asks)
}

// Whether an office was opened, made or refused the change, and has the register of a row.
fn is_row(lines: &[String], row: &Row) -> bool {
    let (_, cause, register) = row;
    match lines {
        [open, answer, kept, _] => {
            open.as_str() == "open"
                && answer.as_str() == words_of(*cause)
                && kept.as_str() == *register
        }
        _ => false,
    }
}

fn compare(rt: &impl Abort, said: &[String], story: &[Row]) {
    assert_eq!(rt; (said.len() / 4, said.len() % 4), (story.len(), 0));
    for (lines, row) in said.chunks(4).zip(story) {
        assert!(rt; is_row(lines, row), "with {}", row.2);
    }
}

// The office over a database is opened again after each change.
fn tell(alloc: Global, rt: &impl Abort, story: &[Row]) -> Result<(), Fail> {
    let asks = asks_of(alloc, story)?;
    let said = play_in_parts(alloc, FEW, asks.as_slice(), 3)?;
    compare(rt, said.as_slice(), story);
    Ok(())
}

#[test]
fn each_change_and_each_refusal(rt: HostRuntime) -> Result<(), Fail> {
    for story in STORIES {
        tell(rt.alloc(), &rt, story)?;
    }
    Ok(())
}
