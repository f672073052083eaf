//! Errors of a taker and of the local form.
ghost use Rattle.std.specs.Prelude.{◌≡◌};
ghost use Rattle.oftp_vfile.specs.declared.fault.LocalFault.TheVariants.{Memory as NoLocalMemory};
ghost use Rattle.oftp_vfile.specs.declared.fault.TakeFault.TheVariants.{Memory};

use std::alloc::{AllocError, AllocFailed};
use std::error::Error;
use std::fmt;

/// Why a taker refuses a payload (RFC 5024, section 7.2).
#[derive(Clone, Copy, Debug, PartialEq, Eq, Hash)]
pub enum TakeFault {
    /// A subrecord extends past the end of its payload.
    Cut,
    /// A subrecord has the compression flag, which wasn't agreed.
    Compressed,
    /// A record exceeds the longest length, or a record of F ends with another length.
    RecordSize,
    /// A subrecord follows the end flag of a stream.
    AfterEnd,
    /// The file exceeds its limit of octets, or 1,000,000 rows.
    TooBig,
    /// Out of memory.
    Memory,
}

impl fmt::Display for TakeFault {
    ghost use Rattle.std.specs.Prelude.{Some};
    ghost use Rattle.oftp_vfile.specs.FaultTexts.{take_text};

    ghost output = { λ e. Some (take_text e) };

    fn fmt<W: fmt::Write>(&self, f: &mut fmt::Formatter<W>) -> fmt::Result {
        f.write_str(match self {
            TakeFault::Cut => "a subrecord passes the end of its buffer",
            TakeFault::Compressed => "a subrecord is compressed",
            TakeFault::RecordSize => "a record has a wrong length",
            TakeFault::AfterEnd => "a subrecord comes after the end of the file",
            TakeFault::TooBig => "the file is too big",
            TakeFault::Memory => "out of memory",
        })
    }
}

impl Error for TakeFault {}

impl From<AllocError> for TakeFault {
    ghost from_gives = { λ _ e. e ≡ Memory };

    fn from(_e: AllocError) -> TakeFault {
        TakeFault::Memory
    }
}

impl<T: Drop> From<AllocFailed<T>> for TakeFault {
    ghost from_gives = { λ _ e. e ≡ Memory };

    fn from(_e: AllocFailed<T>) -> TakeFault {
        TakeFault::Memory
    }
}

/// Why a file isn't read from its local form, or written in it.
#[derive(Clone, Copy, Debug, PartialEq, Eq, Hash)]
pub enum LocalFault {
    /// The content isn't the local form of a file of this format.
    NotLocal,
    /// Out of memory.
    Memory,
}

impl fmt::Display for LocalFault {
    ghost use Rattle.std.specs.Prelude.{Some};
    ghost use Rattle.oftp_vfile.specs.FaultTexts.{local_text};

    ghost output = { λ e. Some (local_text e) };

    fn fmt<W: fmt::Write>(&self, f: &mut fmt::Formatter<W>) -> fmt::Result {
        f.write_str(match self {
            LocalFault::NotLocal => "the content is no file of this format",
            LocalFault::Memory => "out of memory",
        })
    }
}

impl Error for LocalFault {}

impl From<AllocError> for LocalFault {
    ghost from_gives = { λ _ e. e ≡ NoLocalMemory };

    fn from(_e: AllocError) -> LocalFault {
        LocalFault::Memory
    }
}

impl<T: Drop> From<AllocFailed<T>> for LocalFault {
    ghost from_gives = { λ _ e. e ≡ NoLocalMemory };

    fn from(_e: AllocFailed<T>) -> LocalFault {
        LocalFault::Memory
    }
}
