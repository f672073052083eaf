//! Whether the office failed.

/// Whether the office failed while a reply was made.
#[derive(Clone, Copy, Debug, Drop, PartialEq, Eq)]
pub enum OfficeState {
    /// It returned no error.
    Working,
    /// It returned an error.
    Failed,
}
