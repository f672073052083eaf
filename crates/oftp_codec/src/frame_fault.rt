//! Why a stream can't be split into commands.

ghost use Rattle.std.specs.Prelude.{◌≡◌, Some};
ghost use Rattle.oftp_codec.specs.declared.frame_fault.FrameFault.TheVariants.{Memory};
ghost use Rattle.oftp_codec.specs.FrameFaults.{frame_fault_text};

use std::alloc::AllocError;
use std::error::Error;
use std::fmt;

/// Why a stream can't be split into commands (RFC 5024, section 8).
#[derive(Clone, Copy, Debug, PartialEq, Eq)]
pub enum FrameFault {
    /// A frame doesn't begin with the octet 10 (hexadecimal).
    BadHeader,
    /// The length of a frame is below 5 or above the limit.
    BadLength,
    /// Out of memory.
    Memory,
}

impl fmt::Display for FrameFault {
    ghost output = { λ e. Some (frame_fault_text e) };

    fn fmt<W: fmt::Write>(&self, f: &mut fmt::Formatter<W>) -> fmt::Result {
        f.write_str(match self {
            FrameFault::BadHeader => "no stream header begins so",
            FrameFault::BadLength => "a stream header has a length out of range",
            FrameFault::Memory => "out of memory",
        })
    }
}

impl Error for FrameFault {}

impl From<AllocError> for FrameFault {
    ghost from_gives = { λ _ e. e ≡ Memory };

    fn from(_refused: AllocError) -> FrameFault {
        FrameFault::Memory
    }
}
