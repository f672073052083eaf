//! An entry as a value.

use crate::kind::RecordKind;

/// An entry of a record. Its content is borrowed.
#[derive(Clone, Copy, Debug, Drop)]
pub struct RecordEntry<'a> {
    /// What it is about.
    pub kind: RecordKind,
    /// When that was: microseconds since 1970 began, in UTC.
    pub moment: u64,
    /// What there is to tell, in the layout of its kind: at most [`LONGEST_CONTENT`](crate::LONGEST_CONTENT) octets.
    pub content: &'a [u8],
}
