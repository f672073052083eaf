//! A record of three entries.

use oftp_record::{
    Alteration, AppendFault, ChainDigest, HEADER_LEN, Look, NextEntry, RecordEntry, RecordKind,
    RecordStream, append_entry, next_entry,
};
use std::process::Abort;
use std::test::Fail;

/// The entries. The second is what a station heard in its session 1, the command RTR.
const ENTRIES: [RecordEntry<'static>; 3] = [
    RecordEntry {
        kind: RecordKind::Opening,
        moment: 1_700_000_000_000_000,
        content: b"jukeralo",
    },
    RecordEntry {
        kind: RecordKind::OctetsIn,
        moment: 1_700_000_000_250_000,
        content: &[0, 0, 0, 0, 0, 0, 0, 1, 0x10, 0, 0, 5, 0x50],
    },
    RecordEntry {
        kind: RecordKind::Mark,
        moment: 1_700_003_600_000_000,
        content: &[],
    },
];

/// Where each of them ends.
const ENDS: [usize; 3] = [62, 129, 183];

/// Their octets: of each the header, the content, and the digest, which Python's hashlib worked out.
#[rattlefmt::skip]
const RECORD: [u8; 183] = [
    // The first entry: its header,
    0x4F, 0x52, 0x45, 0x43, 0x32, 1, 0, 0x06, 0x0A, 0x24, 0x18, 0x1E, 0x40, 0, 0, 0, 0, 8, 0xFF, 0xFF, 0xFF, 0xF7,
    // its content,
    0x6A, 0x75, 0x6B, 0x65, 0x72, 0x61, 0x6C, 0x6F,
    // and its digest.
    0x8C, 0xB4, 0x4C, 0x30, 0x0C, 0x52, 0x40, 0xDF, 0x89, 0x66, 0x0F, 0xB5, 0x4B, 0x6F, 0xB7, 0xBF,
    0x9A, 0xF7, 0xBD, 0x25, 0x74, 0x30, 0x41, 0x3C, 0x8A, 0x77, 0x32, 0x8D, 0x5E, 0x09, 0xB7, 0x1D,
    // The second.
    0x4F, 0x52, 0x45, 0x43, 0x32, 3, 0, 0x06, 0x0A, 0x24, 0x18, 0x22, 0x10, 0x90, 0, 0, 0, 13, 0xFF, 0xFF, 0xFF, 0xF2,
    0, 0, 0, 0, 0, 0, 0, 1, 0x10, 0, 0, 5, 0x50,
    0x4D, 0x14, 0xE3, 0x09, 0xD9, 0x1C, 0xAC, 0x0F, 0xA5, 0xEF, 0x7F, 0x2C, 0x34, 0x98, 0x28, 0x8E,
    0x05, 0x9A, 0x5A, 0x0C, 0xC5, 0xC6, 0x72, 0x02, 0xCC, 0x45, 0x37, 0xE0, 0xC1, 0xCB, 0x5E, 0x7F,
    // The third, which has no content.
    0x4F, 0x52, 0x45, 0x43, 0x32, 8, 0, 0x06, 0x0A, 0x24, 0xEE, 0xB1, 0xE4, 0, 0, 0, 0, 0, 0xFF, 0xFF, 0xFF, 0xFF,
    0x4C, 0xD5, 0xEE, 0x0F, 0xC5, 0x17, 0xFD, 0x7C, 0x55, 0x85, 0x07, 0xCD, 0x60, 0x89, 0x86, 0xD1,
    0xD4, 0x45, 0x2E, 0x04, 0x2C, 0x05, 0xC8, 0x26, 0x83, 0x25, 0x7B, 0xF7, 0x15, 0x66, 0xF8, 0x44,
];

/// Appends an entry. If memory was refused, the record is as it was, and then takes the entry.
fn append_again(
    rt: &impl Abort,
    record: &mut Vec<u8>,
    entry: &RecordEntry<'_>,
    before: &ChainDigest,
) -> Result<ChainDigest, AppendFault> {
    let count = record.len();
    match append_entry(record, entry, before) {
        Err(fault) => {
            assert_eq!(rt; fault, AppendFault::Memory);
            assert_eq!(rt; record.len(), count);
            append_entry(record, entry, before)
        }
        digest => digest,
    }
}

// This is also run with each allocation refused in turn.
#[test]
fn three_entries_written(rt: HostRuntime) -> Result<(), Fail> {
    let mut record = Vec::new(rt.alloc());
    let mut before = ChainDigest::first();
    for entry in &ENTRIES {
        before = append_again(&rt, &mut record, entry, &before)?;
    }
    assert!(rt; record.as_slice() == RECORD.as_slice());
    assert!(rt; before.0.as_slice() == &RECORD[183 - 32..]);
    Ok(())
}

/// What octets are read as: how many whole entries, which have to be those above, and what is told behind them.
fn read_all<'a>(rt: &impl Abort, octets: &'a [u8]) -> (usize, NextEntry<'a>) {
    let mut before = ChainDigest::first();
    let mut rest = octets;
    for (count, entry) in ENTRIES.iter().enumerate() {
        let NextEntry::Whole(stored) = next_entry(rest, &before) else {
            return (count, next_entry(rest, &before));
        };
        assert_eq!(rt; stored.entry.kind, entry.kind);
        assert_eq!(rt; stored.entry.moment, entry.moment);
        assert!(rt; stored.entry.content == entry.content);
        rest = &rest[stored.length..];
        before = stored.digest;
    }
    (ENTRIES.len(), next_entry(rest, &before))
}

/// How many entries end before this octet or at it, and how many octets of the next one there are then.
fn whole_before(at: usize) -> (usize, usize) {
    let mut whole = (0, at);
    for (count, end) in ENDS.iter().enumerate() {
        if *end <= at {
            whole = (count + 1, at - *end);
        }
    }
    whole
}

#[test]
fn cut_at_each_octet(rt: HostRuntime) {
    for at in 0..RECORD.len() {
        let (whole, part) = whole_before(at);
        let (count, told) = read_all(&rt, &RECORD[..at]);
        assert_eq!(rt; count, whole);
        match told {
            NextEntry::End => assert_eq!(rt; part, 0),
            NextEntry::Cut(None) => assert!(rt; part > 0 && part < HEADER_LEN),
            NextEntry::Cut(Some(lacking)) => {
                assert!(rt; part >= HEADER_LEN);
                assert_eq!(rt; at.checked_add(lacking), ENDS.get(whole).copied());
            }
            _ => assert!(rt; false),
        }
    }
    assert!(rt; matches!(read_all(&rt, &RECORD), (3, NextEntry::End)));
}

#[test]
fn each_octet_changed(rt: HostRuntime) -> Result<(), Fail> {
    let mut record = Vec::from_slice(rt.alloc(), &RECORD)?;
    for at in 0..RECORD.len() {
        let (whole, _) = whole_before(at);
        record.clear();
        record.extend_from_slice(&RECORD[..at])?;
        record.push(RECORD[at] ^ 1)?;
        record.extend_from_slice(&RECORD[at + 1..])?;
        let (count, told) = read_all(&rt, record.as_slice());
        assert_eq!(rt; count, whole);
        assert!(rt; matches!(told, NextEntry::Changed(_)));
    }
    Ok(())
}

// Without the second entry the third doesn't stand behind the first.
#[test]
fn entry_taken_out(rt: HostRuntime) -> Result<(), Fail> {
    let mut record = Vec::from_slice(rt.alloc(), &RECORD[..62])?;
    record.extend_from_slice(&RECORD[129..])?;
    let (count, told) = read_all(&rt, record.as_slice());
    assert_eq!(rt; count, 1);
    assert!(rt; matches!(told, NextEntry::Changed(Alteration::Digest)));
    Ok(())
}

/// Whether this is the content of the entry with this number above.
fn is_content(content: &[u8], number: usize) -> bool {
    match ENTRIES.get(number) {
        Some(entry) => content == entry.content,
        None => false,
    }
}

/// Takes what a stream tells, behind so many of the entries above. Returns how many it has told then.
fn looked_at(rt: &impl Abort, stream: &mut RecordStream, told: usize) -> usize {
    let mut count = told;
    for _ in 0..4 {
        let Look::Entry(passed) = stream.look() else {
            break;
        };
        assert!(rt; count < ENTRIES.len());
        assert_eq!(rt; passed.kind, ENTRIES[count].kind);
        assert_eq!(rt; passed.moment, ENTRIES[count].moment);
        assert!(rt; is_content(stream.content(), count));
        count += 1;
    }
    count
}

// In pieces of each size, which are forgotten or kept.
#[test]
fn read_in_pieces(rt: HostRuntime) -> Result<(), Fail> {
    for size in 1..184usize {
        let mut stream = RecordStream::new(rt.alloc());
        let mut told = 0;
        for piece in RECORD.chunks(size) {
            stream.add(piece)?;
            told = looked_at(&rt, &mut stream, told);
            if size % 2 == 0 {
                stream.forget();
            }
        }
        assert_eq!(rt; told, 3);
        assert_eq!(rt; stream.left(), 0);
        assert!(rt; stream.digest().as_slice() == &RECORD[183 - 32..]);
        assert!(rt; matches!(stream.look(), Look::End));
    }
    Ok(())
}

// Once the octets that lack have come, a look tells the entry.
#[test]
fn lacking_octets_told(rt: HostRuntime) -> Result<(), Fail> {
    let mut stream = RecordStream::new(rt.alloc());
    stream.add(&RECORD[..22])?;
    assert!(rt; matches!(stream.look(), Look::Cut(Some(40))));
    stream.add(&RECORD[22..63])?;
    assert_eq!(rt; looked_at(&rt, &mut stream, 0), 1);
    assert!(rt; matches!(stream.look(), Look::Cut(None)));
    stream.add(&[0; 21])?;
    assert!(rt; matches!(stream.look(), Look::Changed(Alteration::Header)));
    Ok(())
}
