//! The limits of a station.

/// The limits of a station.
#[derive(Clone, Copy, Debug, PartialEq, Eq, Hash)]
pub struct Limits {
    /// The most files in each of the two file tables.
    pub files: u64,
    /// The most octets of a file.
    pub octets: u64,
}
