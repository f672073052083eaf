//! The stream header.

ghost use Rattle.std.specs.Prelude.{◌≡◌, ◌+◌, ◌≤◌, ◌<◌, ◌⊎◌, IfSome, IfNone};
ghost use Rattle.oftp_codec.specs.Header.{header_of};

use crate::limits::FRAME_HEADER;

/// The most octets of a command. With its header it has 100,003.
const LONGEST_COMMAND: usize = 99_999;

/// The stream header of a command of `n` octets, or `None` where `n` isn't 1 to 99,999 (RFC 5024, section 8).
pub fn header(n: usize) -> Option<[u8; 4]>
    ensures some { IfSome result (λ h. (1 ≤ n) × (n ≤ 99999) × (h ≡ header_of (n + 4))) }
    ensures none { IfNone result ((n ≡ 0) ⊎ (99999 < n)) }
{
    if n == 0 || n > LONGEST_COMMAND {
        return None;
    }
    let len = n + FRAME_HEADER;
    Some([
        0x10,
        (len / 65_536) as u8,
        (len / 256 % 256) as u8,
        (len % 256) as u8,
    ])
}
