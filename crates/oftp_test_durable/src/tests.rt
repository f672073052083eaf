//! What the tests share. The expected octets are written by hand from RFC 5024.

mod conversing;
mod files;
mod growing;
mod lists;

/// The station's SSRM.
const READY: &[u8] = b"\x10\0\0\x17IODETTE FTP READY \r";
