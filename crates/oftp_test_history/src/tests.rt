//! What events say of a file, worked out by hand.

use oftp_events::Direction;
use oftp_history::{FileHistory, PastEvent, passed_line, standing_line};
use oftp_status::Standing;
use std::alloc::{AllocError, Global};
use std::process::Abort;
use std::test::Fail;

/// Events of incoming file 1, and between them those of other files, four lines that are no events, and a last line that is cut.
const EVENTS: &[u8] = b"{\"at\":\"10:00\",\"event\":\"started\"}
{\"at\":\"10:01\",\"event\":\"refused file\",\"way\":\"in\",\"dataset\":\"D\",\"date\":\"9\",\"time\":\"1\",\"originator\":\"O\",\"destination\":\"S\"}
{\"at\":\"10:02\",\"event\":\"started to come\",\"way\":\"in\",\"no\":1,\"dataset\":\"D\",\"date\":\"9\",\"time\":\"1\",\"originator\":\"O\",\"destination\":\"S\"}
{\"at\":\"10:03\",\"event\":\"submitted\",\"way\":\"out\",\"no\":1}
{\"at\":\"10:04\",\"event\":\"started to come\",\"way\":\"in\",\"no\":2}
garbage

[1]
{\"event\":\"came\",\"way\":\"in\",\"no\":1}
{\"at\":\"10:05\",\"event\":\"came\",\"session\":3,\"partner\":\"O\",\"way\":\"in\",\"no\":1,\"dataset\":\"D\",\"rows\":2,\"units\":2048,\"novel\":{\"a\":[]}}
{\"at\":\"10:06\",\"event\":\"refused file\",\"way\":\"in\",\"dataset\":\"D\",\"date\":\"9\",\"time\":\"1\",\"originator\":\"O\",\"destination\":\"S\",\"reason\":\"13\",\"words\":\"duplicate file\"}
{\"at\":\"10:07\",\"event\":\"refused file\",\"way\":\"in\",\"dataset\":\"E\",\"date\":\"9\",\"time\":\"1\",\"originator\":\"O\",\"destination\":\"S\"}
{\"at\":\"10:08";

/// What is told of the three events of incoming file 1.
const LINES: [&str; 3] = [
    "t in 1 started to come: D 9 1\n",
    "t in 1 came: D with O, session 3, 2 rows, 2048 octets\n",
    "t in 1 refused file: D 9 1, reason 13 duplicate file\n",
];

/// The history of a file, by octets that come in pieces of this length.
fn history_by(
    alloc: Global,
    way: Direction,
    no: u64,
    octets: &[u8],
    length: usize,
) -> Result<FileHistory, AllocError> {
    let mut history = FileHistory::new(alloc, way, no);
    for piece in octets.chunks(length.max(1)) {
        history.take(piece)?;
    }
    history.end()?;
    Ok(history)
}

#[test]
fn octets_in_pieces(rt: HostRuntime) -> Result<(), Fail> {
    for length in [1, 2, 7, 64, 4_096] {
        let history = history_by(rt.alloc(), Direction::In, 1, EVENTS, length)?;
        assert_eq!(rt; history.events().len(), 3);
        assert_eq!(rt; history.passed(), 5);
        assert_eq!(rt; history.standing(), Some(Standing::Whole));
        assert!(rt; history.way() == Direction::In && history.no() == 1);
    }
    Ok(())
}

#[test]
fn lines_for_people(rt: HostRuntime) -> Result<(), Fail> {
    let alloc = rt.alloc();
    let history = history_by(alloc, Direction::In, 1, EVENTS, 100)?;
    for (event, wanted) in history.events().iter().zip(&LINES) {
        let line = event.to_line(alloc, Direction::In, 1, "t")?;
        assert_eq!(rt; line.as_str(), *wanted);
    }
    let Some(first) = history.events().first() else {
        return Ok(());
    };
    assert_eq!(rt; first.at(), "10:02");
    assert!(rt; first.text().starts_with("{\"at\":\"10:02\""));
    let passed = passed_line(alloc, history.passed())?;
    assert_eq!(rt;
        passed.as_str(),
        "passed over: 5 lines that are no events\n"
    );
    Ok(())
}

#[test]
fn texts_that_can_not_be_seen(rt: HostRuntime) -> Result<(), Fail> {
    let alloc = rt.alloc();
    let line =
        b"{\"at\":\"\",\"event\":\"response received\",\"kind\":\"NERP\",\"text\":\"a\\nout 1 sent:\\u001b\"}";
    let Some(event) = PastEvent::read(alloc, line)? else {
        return Ok(());
    };
    let told = event.to_line(alloc, Direction::Out, 7, "t")?;
    assert_eq!(rt;
        told.as_str(),
        "t out 7 response received:, NERP, text a\\u{a}out 1 sent:\\u{1b}\n"
    );
    Ok(())
}

/// How an outgoing file stands after the events with these words, each a response of this kind if it is one.
fn standing_after(
    alloc: Global,
    words: &[&str],
    kind: &str,
) -> Result<Option<Standing>, AllocError> {
    let mut history = FileHistory::new(alloc, Direction::Out, 5);
    for event in words {
        let line = format!(in alloc;
            "{{\"at\":\"\",\"event\":\"{event}\",\"way\":\"out\",\"no\":5,\"kind\":\"{kind}\"}}\n"
        )?;
        history.take(line.as_bytes())?;
    }
    history.end()?;
    Ok(history.standing())
}

#[test]
fn how_a_file_stands(rt: HostRuntime) -> Result<(), Fail> {
    let alloc = rt.alloc();
    let gone = ["submitted", "sent", "handed over", "response received"];
    assert_eq!(rt; standing_after(alloc, &gone[..0], "")?, None);
    assert_eq!(rt;
        standing_after(alloc, &gone[..1], "")?,
        Some(Standing::Waiting)
    );
    assert_eq!(rt;
        standing_after(alloc, &gone[..2], "")?,
        Some(Standing::Closing)
    );
    assert_eq!(rt;
        standing_after(alloc, &gone[..3], "")?,
        Some(Standing::Handed)
    );
    assert_eq!(rt;
        standing_after(alloc, &gone, "EERP")?,
        Some(Standing::Delivered)
    );
    assert_eq!(rt;
        standing_after(alloc, &gone, "NERP")?,
        Some(Standing::Returned)
    );
    assert_eq!(rt;
        standing_after(alloc, &["submitted", "response received"], "EERP")?,
        Some(Standing::Waiting)
    );
    assert_eq!(rt;
        standing_after(alloc, &["sent", "refused", "response received"], "EERP")?,
        Some(Standing::Refused)
    );
    assert_eq!(rt;
        standing_after(alloc, &["handed over", "weighed"], "")?,
        Some(Standing::Handed)
    );
    Ok(())
}

#[test]
fn lines_of_standings(rt: HostRuntime) -> Result<(), Fail> {
    let alloc = rt.alloc();
    let waiting = standing_line(alloc, Direction::Out, 7, Some(Standing::Waiting))?;
    assert_eq!(rt;
        waiting.as_str(),
        "by these events out 7 is waiting; between two such stations this proves: nothing of the partner\n"
    );
    let none = standing_line(alloc, Direction::In, 8, None)?;
    assert_eq!(rt; none.as_str(), "no event says how in 8 stands\n");
    Ok(())
}

#[test]
fn line_that_is_too_long(rt: HostRuntime) -> Result<(), Fail> {
    let alloc = rt.alloc();
    let mut octets = Vec::from_slice(
        alloc,
        b"{\"at\":\"\",\"event\":\"sent\",\"way\":\"out\",\"no\":5,\"text\":\"",
    )?;
    for _ in 0..65_600 {
        octets.push(b'x')?;
    }
    octets.extend_from_slice(b"\"}\n{\"at\":\"\",\"event\":\"sent\",\"way\":\"out\",\"no\":5}")?;
    let history = history_by(alloc, Direction::Out, 5, octets.as_slice(), 1_000)?;
    assert_eq!(rt; history.events().len(), 1);
    assert_eq!(rt; history.passed(), 1);
    Ok(())
}
