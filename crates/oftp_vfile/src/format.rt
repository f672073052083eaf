//! The formats of virtual files (RFC 5024, section 1.5.3).
ghost use Rattle.std.specs.Prelude.{◌≡◌, ◌↔◌, IsTrue};
ghost use Rattle.oftp_vfile.specs.VirtualFile.{IsLongest, is_stream};

/// The number of octets of a block, which is a row of a stream other than the last (RFC 5024, section 1.5.4).
pub const BLOCK: usize = 1024;

/// The most rows of a file: records in F and V, blocks in U and T.
pub const MOST_ROWS: usize = 1_000_000;

/// The greatest length of a record, in octets. RFC 5024 allows 99,999 (section 5.3.3).
pub const LONGEST_RECORD: u32 = 16_384;

/// The format of a virtual file (RFC 5024, section 1.5.3).
#[derive(Clone, Copy, Debug, PartialEq, Eq, Hash)]
pub enum Format {
    /// F: records of one length.
    Fixed,
    /// V: records of any length up to the longest.
    Variable,
    /// U: a stream of octets.
    Unstructured,
    /// T: a text, which is sent as a stream of octets, like U.
    Text,
}

impl Format {
    /// Whether a file is one stream of octets (U, T) and not a list of records (F, V).
    pub fn is_stream(self) -> bool
        ensures { result ≡ is_stream self }
    {
        match self {
            Format::Fixed | Format::Variable => false,
            Format::Unstructured | Format::Text => true,
        }
    }

    /// Whether a file may have this longest record, in octets. It is 1 to 16,384 in F and V, and 0 in U and T, which have no records.
    pub fn allows_longest(self, longest: u32) -> bool
        ensures { IsTrue result ↔ IsLongest self longest }
    {
        match self {
            Format::Fixed | Format::Variable => 0 < longest && longest <= LONGEST_RECORD,
            Format::Unstructured | Format::Text => longest == 0,
        }
    }
}
