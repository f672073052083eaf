//! Why a text isn't a partner book.

ghost use Rattle.std.specs.Prelude.{◌≡◌, Some};
ghost use Rattle.oftp_partners.specs.Faults.{number_of, fault_text};
ghost use Rattle.oftp_partners.specs.declared.fault.BookFault.TheVariants.{Memory};

use std::alloc::{AllocError, AllocFailed};
use std::error::Error;
use std::fmt;

/// The first fault in the text of a book.
#[derive(Clone, Copy, Debug, PartialEq, Eq, Hash)]
pub enum BookFault {
    /// The text isn't TOML.
    NotToml,
    /// A key is missing.
    MissingKey,
    /// A value has the wrong type for its key.
    WrongKind,
    /// A code, a password, a mode or an address isn't valid.
    BadCode,
    /// A number is out of its range.
    BadNumber,
    /// A partner has the same code as an earlier partner or the station.
    DuplicateCode,
    /// There are more than 1,000 partners.
    TooMany,
    /// Out of memory.
    Memory,
}

impl BookFault {
    /// The number of the fault, 1 to 8.
    pub fn number(self) -> u8
        ensures { result ≡ number_of self }
    {
        match self {
            BookFault::NotToml => 1,
            BookFault::MissingKey => 2,
            BookFault::WrongKind => 3,
            BookFault::BadCode => 4,
            BookFault::BadNumber => 5,
            BookFault::DuplicateCode => 6,
            BookFault::TooMany => 7,
            BookFault::Memory => 8,
        }
    }
}

impl fmt::Display for BookFault {
    ghost output = { λ e. Some (fault_text e) };

    fn fmt<W: fmt::Write>(&self, f: &mut fmt::Formatter<W>) -> fmt::Result {
        match self {
            BookFault::NotToml => f.write_str("the text isn't TOML"),
            BookFault::MissingKey => f.write_str("a key is missing"),
            BookFault::WrongKind => f.write_str("a value has the wrong kind"),
            BookFault::BadCode => {
                f.write_str("a code, password, mode or address has a bad content")
            }
            BookFault::BadNumber => f.write_str("a number is out of its range"),
            BookFault::DuplicateCode => f.write_str("a code stands twice"),
            BookFault::TooMany => f.write_str("there are more than 1000 partners"),
            BookFault::Memory => f.write_str("out of memory"),
        }
    }
}

impl Error for BookFault {}

impl From<AllocError> for BookFault {
    ghost from_gives = { λ _ e. e ≡ Memory };

    fn from(_e: AllocError) -> BookFault {
        BookFault::Memory
    }
}

impl<T: Drop> From<AllocFailed<T>> for BookFault {
    ghost from_gives = { λ _ e. e ≡ Memory };

    fn from(_e: AllocFailed<T>) -> BookFault {
        BookFault::Memory
    }
}
