//! Sizes that functions and definitions cite.

/// The smallest exchange buffer in octets (RFC 5024, section 5.3.2).
pub(crate) const SMALLEST_BUFFER: u32 = 128;

/// The highest reason code of a Negative End Response (RFC 5024, section 5.3.14).
pub(crate) const HIGHEST_REASON: u64 = 99;

/// The length of the longest description, and of the longest text of a response, in octets (RFC 5024, sections 5.3.3 and 5.3.14).
pub(crate) const LONGEST_TEXT: usize = 999;

/// The number of octets that one read asks for.
pub(crate) const PIECE: usize = 4096;

/// After so many turns a session that sends a file in parts leaves the others for later.
pub(crate) const MOST_TURNS: u32 = 32;
