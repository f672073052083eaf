//! A crash at each call on a database's files. It leaves the register before a change, or after it.

use Act::{
    BeginClosing, Close, File, GiveUp, HandOver, Issue, Keep, Mark, Refuse, Reopen, Send, Start,
    Submit,
};
use Format::{Fixed, Variable};
use ResponseKind::{EndResponse, NegativeEndResponse};
use oftp_register::ResponseKind;
use oftp_test_acts::act::Act;
use oftp_test_acts::asking::Ask;
use oftp_test_acts::playing::{
    FEW, Image, MOST_CALLS, NO_STOP, Played, STOPS, Step, Stop, play, play_plain,
};
use oftp_vfile::Format;
use std::alloc::{AllocError, Global};
use std::process::Abort;
use std::test::Fail;

// A change of each kind. Each leaves another register.
const CHANGES: &[Act] = &[
    Submit(b"A", Variable, &[b"abc", b""]),
    Mark(1, 1),
    BeginClosing(1),
    Reopen(1),
    BeginClosing(1),
    HandOver(1),
    File(b"A", NegativeEndResponse, "NO PLANT"),
    Submit(b"B", Fixed, &[]),
    Refuse(2),
    File(b"B", EndResponse, ""),
    Start(b"D", Variable, 0),
    Keep(1, &[b"abc", b"", b"de"]),
    Start(b"D", Variable, 2),
    GiveUp(1),
    Keep(1, &[b"ab"]),
    Close(1, &[b"cd"]),
    Issue(1, NegativeEndResponse, "NO ROOM"),
    Send(1),
];

// The changes of a store that is then turned into schema 1, where a negative response has no creator and no text.
const FIRST: &[Act] = &[
    Submit(b"A", Variable, &[b"abc", b""]),
    BeginClosing(1),
    File(b"A", NegativeEndResponse, "NO PLANT"),
];

const MIGRATED: &str = "out 1 A V3 plan Returned mark 0 2/3 abc||; got 1 A NERP 9  ; ";

fn add_changes(asks: &mut Vec<Ask>, changes: &[Act]) -> Result<(), AllocError> {
    for act in changes {
        asks.push(Ask::Change(*act))?;
    }
    Ok(())
}

// The look-ups for some changes: each change.
fn asks_of(alloc: Global, changes: &[Act]) -> Result<Vec<Ask>, AllocError> {
    let mut asks = Vec::new(alloc);
    add_changes(&mut asks, changes)?;
    Ok(asks)
}

// The same, with the register as text before and after them.
fn asks_to_go_on(alloc: Global, changes: &[Act]) -> Result<Vec<Ask>, AllocError> {
    let mut asks = Vec::new(alloc);
    asks.push(Ask::Kept)?;
    add_changes(&mut asks, changes)?;
    asks.push(Ask::Kept)?;
    Ok(asks)
}

// All changes, with the register as text before the first, and after each.
fn asks_for_registers(alloc: Global) -> Result<Vec<Ask>, AllocError> {
    let mut asks = Vec::new(alloc);
    asks.push(Ask::Kept)?;
    for act in CHANGES {
        asks.push(Ask::Change(*act))?;
        asks.push(Ask::Kept)?;
    }
    Ok(asks)
}

// The second of each two lines.
fn second_lines(alloc: Global, said: &[String]) -> Result<Vec<String>, AllocError> {
    let mut all = Vec::new(alloc);
    for lines in said.chunks(2) {
        if let [_, kept] = lines {
            all.push(kept.clone()?)?;
        }
    }
    Ok(all)
}

// The register as text before the first change, and after each.
fn registers(alloc: Global) -> Result<Vec<String>, AllocError> {
    let asks = asks_for_registers(alloc)?;
    let said = play_plain(alloc, FEW, &[Step::Open(asks.as_slice())]);
    second_lines(alloc, said.as_slice())
}

// How many changes were made.
fn made(said: &[String]) -> usize {
    said.iter().filter(|line| line.as_str() == "made").count()
}

// Whether an office has made the changes that remain, and had the register at an index before them and the last register after them.
fn has_gone_on(registers: &[String], at: usize, rest: &[Act], said: &[String]) -> bool {
    made(said) == rest.len()
        && is_at(registers.get(at), said.get(1))
        && is_at(registers.last(), said.last())
}

// Whether a crash left the register at an index. If so, an office makes the remaining changes and has the last register.
fn goes_on_at(alloc: Global, registers: &[String], at: usize, left: &Image) -> Result<bool, Fail> {
    let rest = CHANGES.get(at..).unwrap_or(&[]);
    let asks = asks_to_go_on(alloc, rest)?;
    let all = play(alloc, FEW, &[Step::Open(asks.as_slice())], left, NO_STOP)?;
    Ok(has_gone_on(registers, at, rest, all.said.as_slice()))
}

fn is_at(register: Option<&String>, found: Option<&String>) -> bool {
    match (register, found) {
        (Some(register), Some(found)) => register.as_str() == found.as_str(),
        _ => false,
    }
}

// Whether a crash left the register before the change that returned an error, or after it.
fn goes_on(alloc: Global, registers: &[String], stopped: &Played) -> Result<bool, Fail> {
    let first = made(stopped.said.as_slice());
    let has_begun = stopped.said.len().saturating_sub(first) == 2;
    if goes_on_at(alloc, registers, first, &stopped.left)? {
        return Ok(true);
    }
    if has_begun {
        return goes_on_at(alloc, registers, first.saturating_add(1), &stopped.left);
    }
    Ok(false)
}

// Crashes a run at a call. Returns whether it ended without a crash.
fn stop_once(
    alloc: Global,
    rt: &impl Abort,
    registers: &[String],
    asks: &[Ask],
    stop: Stop,
) -> Result<bool, Fail> {
    let steps = [Step::Open(asks)];
    let played = play(alloc, FEW, &steps, &Image::empty(alloc), stop)?;
    let goes_on = goes_on(alloc, registers, &played)?;
    assert!(rt; goes_on, "after a stop at call {}", stop.calls);
    Ok(made(played.said.as_slice()) == CHANGES.len())
}

// Crashes runs at each call on one file in turn, until one ends without a crash.
fn stop_at_each(
    alloc: Global,
    rt: &impl Abort,
    registers: &[String],
    stop: Stop,
) -> Result<u64, Fail> {
    let asks = asks_of(alloc, CHANGES)?;
    for calls in 0..MOST_CALLS {
        if stop_once(
            alloc,
            rt,
            registers,
            asks.as_slice(),
            Stop { calls, ..stop },
        )? {
            return Ok(calls);
        }
    }
    Err("no run ended".into())
}

// Fewer calls than a run makes on either file.
const FEW_CALLS: u64 = 4;

fn stop_on(alloc: Global, rt: &impl Abort, stops: &[Stop]) -> Result<(), Fail> {
    let registers = registers(alloc)?;
    assert_eq!(rt; registers.len().saturating_sub(CHANGES.len()), 1);
    for stop in stops {
        let calls = stop_at_each(alloc, rt, registers.as_slice(), *stop)?;
        assert!(rt; calls > FEW_CALLS, "it made {calls} calls");
    }
    Ok(())
}

#[test]
fn stop_at_each_call(rt: HostRuntime) -> Result<(), Fail> {
    stop_on(rt.alloc(), &rt, &STOPS[..2])
}

#[test]
fn stop_at_each_call_on_the_database(rt: HostRuntime) -> Result<(), Fail> {
    stop_on(rt.alloc(), &rt, &STOPS[2..])
}

// The files of a store after the changes of `FIRST`.
fn changed_image(alloc: Global, rt: &impl Abort) -> Result<Image, Fail> {
    let asks = asks_of(alloc, FIRST)?;
    let steps = [Step::Open(asks.as_slice())];
    let Played { said, left } = play(alloc, FEW, &steps, &Image::empty(alloc), NO_STOP)?;
    assert_eq!(rt; made(said.as_slice()), FIRST.len());
    assert_eq!(rt; said.len().saturating_sub(FIRST.len()), 1);
    Ok(left)
}

// It turns that store into one of schema 1.
const TO_FIRST: [Step<'static>; 1] = [Step::Batch(
    "DROP TABLE received_note; UPDATE about SET schema = 1",
)];

// The files of a store of schema 1.
fn first_image(alloc: Global, rt: &impl Abort) -> Result<Image, Fail> {
    let changed = changed_image(alloc, rt)?;
    let Played { said, left } = play(alloc, FEW, &TO_FIRST, &changed, NO_STOP)?;
    assert!(rt; said.is_empty());
    Ok(left)
}

// Whether the office was opened and has the migrated register.
fn is_migrated(said: &[String]) -> bool {
    match said {
        [open, kept] => open.as_str() == "open" && kept.as_str() == MIGRATED,
        _ => false,
    }
}

fn is_of_schema_1(said: &[String]) -> bool {
    match said {
        [refused] => refused.as_str() == "wrong schema",
        _ => false,
    }
}

// Whether files are migrated or, if the migration wasn't finished, of schema 1.
fn is_either(alloc: Global, left: &Image, ended: bool) -> Result<bool, Fail> {
    let opened = play(alloc, FEW, &[Step::Open(&[Ask::Kept])], left, NO_STOP)?;
    let opened = opened.said.as_slice();
    Ok(is_migrated(opened) || is_of_schema_1(opened) && !ended)
}

fn can_be_migrated(alloc: Global, left: &Image) -> Result<bool, Fail> {
    let migrated = play(alloc, FEW, &[Step::Migrate(&[Ask::Kept])], left, NO_STOP)?;
    Ok(is_migrated(migrated.said.as_slice()))
}

// Migrates, up to a crash. Returns whether the migration was finished. The files are of schema 1 or migrated, and can then be migrated.
fn migrate_once(alloc: Global, rt: &impl Abort, first: &Image, stop: Stop) -> Result<bool, Fail> {
    let Played { said, left } = play(alloc, FEW, &[Step::Migrate(&[])], first, stop)?;
    let ended = said.iter().any(|line| line.as_str() == "open");
    assert!(rt; is_either(alloc, &left, ended)?);
    let is_so = can_be_migrated(alloc, &left)?;
    assert!(rt; is_so, "at call {}", stop.calls);
    Ok(ended)
}

// Crashes migrations at each call on one file in turn, until one ends without a crash.
fn stop_in_each(alloc: Global, rt: &impl Abort, first: &Image, stop: Stop) -> Result<u64, Fail> {
    for calls in 0..MOST_CALLS {
        if migrate_once(alloc, rt, first, Stop { calls, ..stop })? {
            return Ok(calls);
        }
    }
    Err("no migration ended".into())
}

#[test]
fn stop_in_migrate(rt: HostRuntime) -> Result<(), Fail> {
    let alloc = rt.alloc();
    let first = first_image(alloc, &rt)?;
    for stop in STOPS {
        let calls = stop_in_each(alloc, &rt, &first, stop)?;
        assert!(rt; calls > FEW_CALLS, "it made {calls} calls");
    }
    Ok(())
}
