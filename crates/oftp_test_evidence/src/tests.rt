//! What belongs to a file, worked out by hand from RFC 5024.

use oftp_events::Direction;
use oftp_evidence::{
    FileFacts, Part, ResponseFacts, SessionFacts, SessionParts, StationFacts, part_in, readme,
    verify_script,
};
use oftp_register::{DigitString, Identity, Name, OfficeFault, ResponseKind};
use oftp_status::Standing;
use oftp_vfile::Format;
use oftp_wire::{Count, Digits, X};
use std::test::Fail;

/// Frames without stream headers, and what each says of the file INVOICE from O0001 to O0002.
const FRAMES: [(&[u8], Option<Part>); 18] = [
    // The SFID of the file.
    (
        b"HINVOICE                      202601021112130001        O0002                    O0001                    F000800000000000001000000000000100000000000000000000000N000",
        Some(Part::Offer),
    ),
    // With another user field, format and position.
    (
        b"HINVOICE                      202601021112130001USER    O0002                    O0001                    U000000000000000001000000000000100000000000000001000000N000",
        Some(Part::Offer),
    ),
    // The SFID of another dataset.
    (
        b"HINVOICES                     202601021112130001        O0002                    O0001                    F000800000000000001000000000000100000000000000000000000N000",
        None,
    ),
    // Of another date.
    (
        b"HINVOICE                      202601031112130001        O0002                    O0001                    F000800000000000001000000000000100000000000000000000000N000",
        None,
    ),
    // Of another time.
    (
        b"HINVOICE                      202601021112130002        O0002                    O0001                    F000800000000000001000000000000100000000000000000000000N000",
        None,
    ),
    // Of a file to another station.
    (
        b"HINVOICE                      202601021112130001        O0003                    O0001                    F000800000000000001000000000000100000000000000000000000N000",
        None,
    ),
    // Of a file from another station.
    (
        b"HINVOICE                      202601021112130001        O0002                    O0003                    F000800000000000001000000000000100000000000000000000000N000",
        None,
    ),
    // Of the file that goes back.
    (
        b"HINVOICE                      202601021112130001        O0001                    O0002                    F000800000000000001000000000000100000000000000000000000N000",
        None,
    ),
    // An SFID that is cut off.
    (
        b"HINVOICE                      202601021112130001        O0002                    O0001                    F000800000000000001000000000000100000000000000000000000N00",
        None,
    ),
    // Its EERP.
    (
        b"EINVOICE                      202601021112130001        O0001                    O0002                    \0\0\0\0",
        Some(Part::Response),
    ),
    // An EERP with the stations of an SFID.
    (
        b"EINVOICE                      202601021112130001        O0002                    O0001                    \0\0\0\0",
        None,
    ),
    // An EERP for another time.
    (
        b"EINVOICE                      202601021112130002        O0001                    O0002                    \0\0\0\0",
        None,
    ),
    // Its NERP.
    (
        b"NINVOICE                         202601021112130001O0001                    O0002                    O0003                    34003bad\0\0\0\0",
        Some(Part::Refusal),
    ),
    // A NERP with the stations of an SFID.
    (
        b"NINVOICE                         202601021112130001O0002                    O0001                    O0003                    34000\0\0\0\0",
        None,
    ),
    // A NERP for another dataset.
    (
        b"NORDER                           202601021112130001O0001                    O0002                    O0003                    34000\0\0\0\0",
        None,
    ),
    // An EFPA.
    (b"4N", None),
    // No octets.
    (b"", None),
    // Octets that begin as no command does.
    (b"Z", None),
];

/// The octets of a side: SSRM, the file's SFID, a payload, its EERP, the SFID of another file, and the file's NERP. Then come a stream header of
/// version 2, and the file's SFID again.
const SIDE: [&[u8]; 8] = [
    b"\x10\0\0\x17IODETTE FTP READY \r",
    b"\x10\0\0\xa9HINVOICE                      202601021112130001        O0002                    O0001                    F000800000000000001000000000000100000000000000000000000N000",
    b"\x10\0\0\rDHINVOICE",
    b"\x10\0\0rEINVOICE                      202601021112130001        O0001                    O0002                    \0\0\0\0",
    b"\x10\0\0\xa9HINVOICES                     202601021112130001        O0002                    O0001                    F000800000000000001000000000000100000000000000000000000N000",
    b"\x10\0\0\x8eNINVOICE                         202601021112130001O0001                    O0002                    O0003                    34003bad\0\0\0\0",
    b" \0\0\x05C",
    b"\x10\0\0\xa9HINVOICE                      202601021112130001        O0002                    O0001                    F000800000000000001000000000000100000000000000000000000N000",
];

/// The README of the folder below.
const README: &str = "Evidence of one file

The file
way: out
number: 7
dataset: INVOICE
date: 20260102
time: 1112130001
originator: O0001
destination: O0002
format: F
longest record: 80
rows: 3
octets: 240
description: bill\\u{a}of May
SHA-256 of its content: 00ff

Its response
kind: NERP
moment: 2026-01-03T09:00:00Z
reason: 09
text: later

Its sessions
session 12: with O0002 at 10.0.0.1:3305, from 2026-01-02T11:20:00Z to 2026-01-02T11:21:00Z; heard: nothing; said: SFID
session 15: with O0002 at 10.0.0.1:3305, from 2026-01-03T09:00:00Z to 2026-01-03T09:00:01Z; heard: EERP, NERP; said: nothing

The station
program: 2.0
SHA-256 of its sources: 11ee
SHA-256 of its book: 22dd

What its state proves
state: returned
between two such stations this proves: the file is whole at the partner, record by record; it was refused there, and that response is kept there

What this folder doesn't prove
Nothing here is signed: the folder shows what came over the wire and what went, and not who sent it.
Who can change SHA256SUMS can change each file with it: keep its sum elsewhere.

How it is checked
sh verify.sh BOOK compares the sums, and plays the sessions over a new database by the station's book, which has the passwords.
";

// The error of a wrong fixture. Out of memory is another one.
const BAD: OfficeFault = OfficeFault::Store;

/// The file INVOICE from O0001 to O0002.
fn invoice() -> Result<Identity, OfficeFault> {
    Ok(Identity {
        dataset: Name::of(&X::new(b"INVOICE").ok_or(BAD)?),
        date: DigitString::of(&Digits::new(b"20260102").ok_or(BAD)?),
        time: DigitString::of(&Digits::new(b"1112130001").ok_or(BAD)?),
        originator: Name::of(&X::new(b"O0001").ok_or(BAD)?),
        destination: Name::of(&X::new(b"O0002").ok_or(BAD)?),
    })
}

/// What a folder tells of the file.
fn file_facts(identity: &Identity) -> FileFacts<'_> {
    FileFacts {
        way: Direction::Out,
        no: 7,
        identity,
        format: Format::Fixed,
        longest: 80,
        rows: 3,
        units: 240,
        description: "bill\nof May",
        digest: "00ff",
    }
}

/// The sessions of the file: it went, and later it was refused.
fn sessions() -> [SessionFacts<'static>; 2] {
    [
        SessionFacts {
            no: 12,
            partner: "O0002",
            peer: "10.0.0.1:3305",
            begun: "2026-01-02T11:20:00Z",
            ended: "2026-01-02T11:21:00Z",
            heard: &[],
            said: &[Part::Offer],
        },
        SessionFacts {
            no: 15,
            partner: "O0002",
            peer: "10.0.0.1:3305",
            begun: "2026-01-03T09:00:00Z",
            ended: "2026-01-03T09:00:01Z",
            heard: &[Part::Response, Part::Refusal],
            said: &[],
        },
    ]
}

/// The response to the file.
fn refusal() -> ResponseFacts<'static> {
    ResponseFacts {
        kind: ResponseKind::NegativeEndResponse,
        moment: "2026-01-03T09:00:00Z",
        reason: Count::new(9),
        text: "later",
    }
}

/// The station.
fn station() -> StationFacts<'static> {
    StationFacts {
        version: "2.0",
        sources: "11ee",
        book: "22dd",
    }
}

#[test]
fn what_commands_say(rt: HostRuntime) -> Result<(), Fail> {
    let file = invoice()?;
    for (frame, wanted) in &FRAMES {
        assert!(rt; part_in(&file, frame) == *wanted);
    }
    Ok(())
}

#[test]
fn what_a_side_says(rt: HostRuntime) -> Result<(), Fail> {
    let alloc = rt.alloc();
    let mut octets = Vec::new(alloc);
    for frame in &SIDE {
        octets.extend_from_slice(frame)?;
    }
    for length in [1, 7, 300] {
        let mut parts = SessionParts::new(alloc, invoice()?);
        for piece in octets.chunks(length) {
            parts.hear(piece)?;
        }
        assert!(rt; matches!(parts.found(), [Part::Offer, Part::Response, Part::Refusal]));
    }
    Ok(())
}

#[test]
fn what_a_folder_tells(rt: HostRuntime) -> Result<(), Fail> {
    let alloc = rt.alloc();
    let identity = invoice()?;
    let text = readme(
        alloc,
        &file_facts(&identity),
        &Some(refusal()),
        &sessions(),
        &station(),
        Standing::Returned,
    )?;
    assert_eq!(rt; text.as_str(), README);
    assert!(rt; verify_script().starts_with("#!/bin/sh\n"));
    Ok(())
}
