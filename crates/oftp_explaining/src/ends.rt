//! How a session ended, as a note has it.

use oftp_engine::End;
use oftp_notes::SessionEnd;

/// The end of a session.
pub(crate) fn end_of(end: End) -> SessionEnd {
    match end {
        End::Own(reason) => SessionEnd::Own(reason.number()),
        End::Partner(reason) => SessionEnd::Partner(reason),
        End::Input => SessionEnd::Input,
    }
}
