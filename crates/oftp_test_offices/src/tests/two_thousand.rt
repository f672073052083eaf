//! Two thousand changes in a row.

ghost use Rattle.std.specs.Prelude.{◌<◌};

use oftp_register::{Cause, ResponseKind};
use oftp_test_acts::act::Act;
use oftp_test_acts::asking::{Ask, words_of};
use oftp_test_acts::playing::{is_at, play_in_parts};
use oftp_vfile::{Format, Limits};
use std::alloc::AllocError;
use std::process::Abort;
use std::test::Fail;

const MANY: Limits = Limits {
    files: 20,
    octets: 67_108_864,
};

const LETTERS: &[u8] = b"ABCDEFGHIJKLMNOPQRSTUVWXYZ";

const CONTENTS: [&[&[u8]]; 4] = [&[], &[b"abc"], &[b"ab", b""], &[b"a", b"bc", b"def"]];

// A linear congruential generator. It gives the same numbers in each run.
#[derive(Drop)]
struct Draw(u64);

impl Draw {
    fn below(&mut self, bound: usize) -> usize
        requires { 0 < bound }
        ensures { result < bound }
    {
        self.0 = self
            .0
            .wrapping_mul(6_364_136_223_846_793_005)
            .wrapping_add(1_442_695_040_888_963_407);
        (self.0 >> 33) as usize % bound
    }

    fn number(&mut self) -> u64 {
        self.below(23) as u64
    }

    fn dataset(&mut self) -> &'static [u8] {
        let at = self.below(LETTERS.len());
        &LETTERS[at..=at]
    }

    fn content(&mut self) -> &'static [&'static [u8]] {
        CONTENTS[self.below(CONTENTS.len())]
    }

    fn response(&mut self) -> (ResponseKind, &'static str) {
        [
            (ResponseKind::EndResponse, ""),
            (ResponseKind::NegativeEndResponse, "NO PLANT"),
        ][self.below(2)]
    }

    // A change of a kind.
    fn act(&mut self, kind: usize) -> Act {
        match kind {
            0 => Act::Submit(self.dataset(), Format::Variable, self.content()),
            1 => Act::Start(self.dataset(), Format::Variable, self.below(3) as u64),
            2 => Act::Keep(self.number(), self.content()),
            3 => Act::Close(self.number(), self.content()),
            4 => Act::GiveUp(self.number()),
            5 => {
                let (kind, note) = self.response();
                Act::File(self.dataset(), kind, note)
            }
            6 => {
                let (kind, note) = self.response();
                Act::Issue(self.number(), kind, note)
            }
            7 => Act::Mark(self.number(), self.below(3) as u64),
            8 => Act::BeginClosing(self.number()),
            9 => Act::HandOver(self.number()),
            10 => Act::Refuse(self.number()),
            11 => Act::Reopen(self.number()),
            _ => Act::Send(self.number()),
        }
    }
}

const KINDS: usize = 13;

// How a change may be answered.
const ANSWERS: [Option<Cause>; 5] = [
    None,
    Some(Cause::Duplicate),
    Some(Cause::Unknown),
    Some(Cause::State),
    Some(Cause::Full),
];

// Which of these answers a submission can have, a start, a response that is filed, and each change of a file by its number.
const SUBMITTED: [bool; 5] = [true, true, false, false, true];

const STARTED: [bool; 5] = [true, false, false, true, true];

const FILED: [bool; 5] = [true, true, false, false, false];

const NUMBERED: [bool; 5] = [true, false, true, true, false];

// The same for each kind.
const WANTED: [[bool; 5]; KINDS] = [
    SUBMITTED, STARTED, NUMBERED, NUMBERED, NUMBERED, FILED, NUMBERED, NUMBERED, NUMBERED,
    NUMBERED, NUMBERED, NUMBERED, NUMBERED,
];

// Which answers each kind of change had.
#[derive(Drop)]
struct Tally([[bool; 5]; KINDS]);

impl Tally {
    fn note(&mut self, kind: usize, answer: &str) {
        if let Some(row) = self.0.get_mut(kind) {
            for (cause, came) in ANSWERS.into_iter().zip(row) {
                *came = *came || answer == words_of(cause);
            }
        }
    }
}

// The look-up for a change: of its number, or of its letter.
fn look_up(act: Act) -> Ask {
    match act {
        Act::Submit(dataset, ..)
        | Act::SubmitLong(dataset, _)
        | Act::Start(dataset, ..)
        | Act::File(dataset, ..) => Ask::OfFile(dataset),
        Act::Keep(no, _)
        | Act::Close(no, _)
        | Act::GiveUp(no)
        | Act::Issue(no, ..)
        | Act::Mark(no, _)
        | Act::BeginClosing(no)
        | Act::HandOver(no)
        | Act::Refuse(no)
        | Act::Reopen(no)
        | Act::Send(no) => Ask::OfNumber(no),
    }
}

// A change, and a look-up after it.
fn add_change(asks: &mut Vec<Ask>, act: Act) -> Result<(), AllocError> {
    asks.push(Ask::Change(act))?;
    asks.push(look_up(act))?;
    Ok(())
}

// A random change, and a look-up after it.
fn draw_change(
    draw: &mut Draw,
    asks: &mut Vec<Ask>,
    kinds: &mut Vec<usize>,
) -> Result<(), AllocError> {
    let kind = draw.below(KINDS);
    add_change(asks, draw.act(kind))?;
    kinds.push(kind)?;
    Ok(())
}

// A file of two thousand rows, and then random changes, with a look-up after each. All look-ups are done after each two hundred changes, and at
// the end.
fn draw_asks(asks: &mut Vec<Ask>, kinds: &mut Vec<usize>) -> Result<(), AllocError> {
    let mut draw = Draw(0);
    add_change(asks, Act::SubmitLong(b"L", 2_000))?;
    kinds.push(KINDS)?;
    for turn in 1..2_000 {
        draw_change(&mut draw, asks, kinds)?;
        if turn % 200 == 199 {
            asks.push(Ask::Told)?;
        }
    }
    asks.push(Ask::Told)?;
    Ok(())
}

// Tallies the results of the changes. After an opening each result is a line, and the look-up after it another.
fn tally_of(kinds: &[usize], said: &[String]) -> Tally {
    let mut tally = Tally([[false; 5]; KINDS]);
    for (kinds, lines) in kinds.chunks(200).zip(said.chunks(402)) {
        let lines = lines.get(1..).unwrap_or(&[]);
        for (kind, pair) in kinds.iter().zip(lines.chunks(2)) {
            if let Some(answer) = pair.first() {
                tally.note(*kind, answer.as_str());
            }
        }
    }
    tally
}

// Compares the results of the changes with those that they can have.
fn compare(rt: &impl Abort, kinds: &[usize], said: &[String]) {
    assert_eq!(rt; said.len(), 4_022);
    assert!(rt; is_at(said, 1, "made"));
    let tally = tally_of(kinds, said);
    assert!(rt;
        tally.0 == WANTED,
        "an answer to a kind never came, or one that it can't have"
    );
}

/// Each kind of change is made, and refused for each cause that it can have. The office over a database is opened again after each two hundred
/// changes, and before the last look-ups.
#[test]
fn two_thousand_changes(rt: HostRuntime) -> Result<(), Fail> {
    let alloc = rt.alloc();
    let mut asks = Vec::new(alloc);
    let mut kinds = Vec::new(alloc);
    draw_asks(&mut asks, &mut kinds)?;
    let said = play_in_parts(alloc, MANY, asks.as_slice(), 401)?;
    compare(&rt, kinds.as_slice(), said.as_slice());
    Ok(())
}
