//! The sizes of frames (RFC 5024, section 8).

/// The length of the header of a frame, in octets.
pub const FRAME_HEADER: usize = 4;

/// The length of the shortest frame, in octets: its header, and a command of one octet.
pub const SHORTEST_FRAME: usize = 5;

/// The length of the longest frame, in octets: its header, and a command of 99,999.
pub const LONGEST_FRAME: usize = 100_003;
