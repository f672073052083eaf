//! Octets of sessions, written by hand from RFC 5024.

use crate::given::FILE;
use oftp_engine::Submission;
use std::alloc::{AllocError, Global};

/// The file, without a description, of which a partner is sent three octets.
pub const THREE_OCTETS: Submission<'static> = Submission {
    description: "",
    content: b"ABC",
    ..FILE
};

/// The partner's SSRM and its SSID.
pub const GREETING: &[u8] =
    b"\x10\0\0\x17IODETTE FTP READY \r\x10\0\0\x41X5O0177CARMAKER            CARPW   00128BNYN002N            \r";

/// The station's SSID, and SFID with the size and the original size of one block, from row 0 on.
pub const OFFER: &[u8] =
    b"\x10\0\0\x41X5O0013SUPPLIER            SUPPW   00128BNYN002N            \r\
      \x10\0\0\xa9HABC                          202401311015300001        O0177CARMAKER            O0013SUPPLIER            U00000\
      0000000000001000000000000100000000000000000\
      00000\
      0N000";

/// SFPA from row 0 on, EFPA and ESID 00.
pub const TAKES: &[u8] = b"\x10\0\0\x16200000000000000000\x10\0\0\x064N\x10\0\0\x0bF00000\r";

/// DATA, EFID and CD.
pub const SENT: &[u8] =
    b"\x10\0\0\x09D\x83ABC\x10\0\0\x27T0000000000000000000000000000000003\x10\0\0\x05R";

/// The SSID of the third partner.
pub const THIRD: &[u8] =
    b"\x10\0\0\x41X5O0099OTHER               OTHERPW 00128BNYN002N            \r";

/// SFID of a file that it says is the car maker's.
pub const ANOTHERS_FILE: &[u8] =
    b"\x10\0\0\xa9HABC                          202401311015300001        O0013SUPPLIER            O0177CARMAKER            U00000\
      0000000000001000000000000100000000000000000\
      00000\
      0N000";

/// EERP of the file that was sent to the car maker, under the car maker's code.
pub const ANOTHERS_ANSWER: &[u8] =
    b"\x10\0\0\x72EABC                          202401311015300001        O0013SUPPLIER            O0177CARMAKER            \0\0\0\0";

/// The station's SSRM, its SSID and SFNA 03.
pub const NOT_TAKEN: &[u8] =
    b"\x10\0\0\x17IODETTE FTP READY \r\x10\0\0\x41X5O0013SUPPLIER            SUPPW   00128BNYN002N            \r\
      \x10\0\0\x0b303N000";

/// ESID 06.
pub const SENT_AWAY: &[u8] = b"\x10\0\0\x0bF06000\r";

/// Some parts in one.
pub fn joined(alloc: Global, parts: &[&[u8]]) -> Result<Vec<u8>, AllocError> {
    let mut all = Vec::new(alloc);
    for part in parts {
        all.extend_from_slice(part)?;
    }
    Ok(all)
}
