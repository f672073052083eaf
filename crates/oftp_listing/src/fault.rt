//! Why there is no reply, or no report.

ghost use Rattle.std.specs.Prelude.{◌≡◌};
ghost use Rattle.oftp_listing.specs.declared.fault.ListFault.TheVariants.{Memory, Office};

use oftp_register::OfficeFault;
use std::alloc::{AllocError, AllocFailed};
use std::error::Error;
use std::fmt;

/// Why there is no reply to a request, or no report.
#[derive(Clone, Copy, Debug, Drop, PartialEq, Eq)]
pub enum ListFault {
    /// The head of the request is incomplete.
    Incomplete,
    /// Out of memory.
    Memory,
    /// The office returned an error.
    Office,
    /// The writer returned an error.
    Write,
}

impl fmt::Display for ListFault {
    ghost use Rattle.std.specs.Prelude.{Some};
    ghost use Rattle.oftp_listing.specs.FaultTexts.{fault_text};

    ghost output = { λ fault. Some (fault_text fault) };

    fn fmt<W: fmt::Write>(&self, f: &mut fmt::Formatter<W>) -> fmt::Result {
        f.write_str(match self {
            ListFault::Incomplete => "the request isn't whole",
            ListFault::Memory => "out of memory",
            ListFault::Office => "the office failed",
            ListFault::Write => "the output failed",
        })
    }
}

impl Error for ListFault {}

impl From<AllocError> for ListFault {
    ghost from_gives = { λ _ fault. fault ≡ Memory };

    fn from(_error: AllocError) -> ListFault {
        ListFault::Memory
    }
}

impl<T: Drop> From<AllocFailed<T>> for ListFault {
    ghost from_gives = { λ _ fault. fault ≡ Memory };

    fn from(_error: AllocFailed<T>) -> ListFault {
        ListFault::Memory
    }
}

impl From<OfficeFault> for ListFault {
    ghost from_gives = { λ _ fault. fault ≡ Office };

    fn from(_fault: OfficeFault) -> ListFault {
        ListFault::Office
    }
}
