//! The moments of entries as texts.

use jiff::Timestamp;
use std::alloc::{AllocError, Global};

/// A moment of an entry, which is in microseconds since 1970 began: UTC by RFC 3339, with six digits of the second. One that no clock has is a number.
///
/// # Errors
/// Out of memory.
pub fn moment_text(alloc: Global, moment: u64) -> Result<String, AllocError> {
    let Ok(microsecond) = i64::try_from(moment) else {
        return format!(in alloc; "{moment}");
    };
    match Timestamp::from_microsecond(microsecond) {
        Ok(time) => format!(in alloc; "{time:.6}"),
        Err(_) => format!(in alloc; "{moment}"),
    }
}
