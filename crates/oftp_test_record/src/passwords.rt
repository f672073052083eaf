//! The passwords of SSIDs, hidden and put back. The octets are spelled by hand from RFC 5024, sections 5.3.1, 5.3.2 and 8.

use oftp_contents::{PasswordFinder, RecordSide};
use std::alloc::Global;
use std::process::Abort;
use std::test::Fail;

/// SSRM, as a partner says it who is called, in an exchange buffer of 23 octets.
const SSRM: &[u8; 23] = b"\x10\0\0\x17IODETTE FTP READY \r";

/// An SSID with the password CARPW, in an exchange buffer of 65 octets, and the beginning of the next one.
const SSID: &[u8; 70] =
    b"\x10\0\0\x41X5O0177CARMAKER            CARPW   00128BNYN002N            \r\x10\0\0\x05P";

/// The same as it is recorded by a book with that password.
const HIDDEN: &[u8; 70] =
    b"\x10\0\0\x41X5O0177CARMAKER            *****   00128BNYN002N            \r\x10\0\0\x05P";

/// The same by a book with the password CAPERS, of which the first two characters are those.
const OTHERS: &[u8; 70] =
    b"\x10\0\0\x41X5O0177CARMAKER            **???   00128BNYN002N            \r\x10\0\0\x05P";

/// Octets in pieces of so many, hidden by a password. Out of memory is one of the outcomes, as `None`.
fn hidden(
    alloc: Global,
    finder: PasswordFinder,
    password: &[u8],
    octets: &[u8],
    size: usize,
) -> Option<Vec<u8>> {
    let mut finder = finder;
    let mut hidden = Vec::new(alloc);
    for piece in octets.chunks(size.max(1)) {
        if finder.hide(password, piece, &mut hidden).is_err() {
            return None;
        }
    }
    Some(hidden)
}

/// Octets in pieces of so many, played by a password.
fn shown(
    alloc: Global,
    finder: PasswordFinder,
    password: &[u8],
    octets: &[u8],
    size: usize,
) -> Option<Vec<u8>> {
    let mut finder = finder;
    let mut shown = Vec::new(alloc);
    for piece in octets.chunks(size.max(1)) {
        if finder.show(password, piece, &mut shown).is_err() {
            return None;
        }
    }
    Some(shown)
}

/// Whether some octets are these, or memory was refused.
fn are(found: Option<Vec<u8>>, wanted: &[u8]) -> bool {
    match found {
        Some(found) => found.as_slice() == wanted,
        None => true,
    }
}

#[test]
fn password_of_a_caller(rt: HostRuntime) {
    let finder = PasswordFinder::heard(RecordSide::Responder);
    for size in [1, 7, 31, 32, 39, 40, 70] {
        assert!(rt;
            are(
                hidden(rt.alloc(), finder, b"CARPW", SSID.as_slice(), size),
                HIDDEN.as_slice()
            )
        );
        assert!(rt;
            are(
                hidden(rt.alloc(), finder, b"CAPERS", SSID.as_slice(), size),
                OTHERS.as_slice()
            )
        );
        assert!(rt;
            are(
                shown(rt.alloc(), finder, b"CARPW", HIDDEN.as_slice(), size),
                SSID.as_slice()
            )
        );
        // A record of another program may have the password itself.
        assert!(rt;
            are(
                shown(rt.alloc(), finder, b"CARPW", SSID.as_slice(), size),
                SSID.as_slice()
            )
        );
    }
}

#[test]
fn password_behind_ssrm(rt: HostRuntime) {
    let finder = PasswordFinder::heard(RecordSide::Initiator);
    let mut octets = [0; 93];
    let mut wanted = [0; 93];
    octets[..23].copy_from_slice(SSRM.as_slice());
    octets[23..].copy_from_slice(SSID.as_slice());
    wanted[..23].copy_from_slice(SSRM.as_slice());
    wanted[23..].copy_from_slice(HIDDEN.as_slice());
    for size in [1, 23, 54, 55, 62, 63, 93] {
        assert!(rt;
            are(
                hidden(rt.alloc(), finder, b"CARPW", octets.as_slice(), size),
                wanted.as_slice()
            )
        );
        assert!(rt;
            are(
                shown(rt.alloc(), finder, b"CARPW", wanted.as_slice(), size),
                octets.as_slice()
            )
        );
    }
    // Without SSRM no password is found there.
    assert!(rt;
        are(
            hidden(rt.alloc(), finder, b"CARPW", SSID.as_slice(), 70),
            SSID.as_slice()
        )
    );
}

#[test]
fn no_password_in_another_command(rt: HostRuntime) {
    let mut octets = [b'A'; 70];
    octets[4] = b'F';
    let finder = PasswordFinder::said();
    assert!(rt;
        are(
            hidden(rt.alloc(), finder, b"AAAAAAAA", octets.as_slice(), 70),
            octets.as_slice()
        )
    );
    octets[4] = b'X';
    octets[31..39].copy_from_slice(b"A Ba\x00\xFF A");
    let found = hidden(rt.alloc(), finder, b"AAAAAAAA", octets.as_slice(), 3);
    octets[31..39].copy_from_slice(b"* ?!!! *");
    assert!(rt; are(found, octets.as_slice()));
    let found = shown(rt.alloc(), finder, b"AAAAAAAA", octets.as_slice(), 3);
    octets[31..39].copy_from_slice(b"A B!!! A");
    assert!(rt; are(found, octets.as_slice()));
}
