//! The rows of a file, one by one.

ghost use Rattle.std.specs.Prelude.{◌≡◌};
ghost use Rattle.std.specs.Option.{option_map};
ghost use Rattle.oftp_audit.specs.Losses.{allows, is_full, is_last, lost_of_row, may_have, unsound_in_row};

use crate::loss::{Loss, unless};
use crate::states::is_open;
use oftp_register::IncomingState;
use oftp_vfile::{BLOCK, Format, LONGEST_RECORD};

/// What decides which lengths the rows of a file may have.
#[derive(Clone, Copy, Debug, Drop, PartialEq, Eq)]
pub struct Shape {
    /// The format of the file.
    pub format: Format,
    /// Its longest record in octets, 0 in U and T.
    pub longest: u32,
    /// Whether it is complete. An outgoing file is.
    pub state: IncomingState,
    /// How many rows it has.
    pub rows: u64,
}

/// Whether a format allows a longest record.
pub(crate) fn allows(format: Format, longest: u32) -> bool
    ensures { result ≡ allows format longest }
{
    match format {
        Format::Fixed | Format::Variable => 0 < longest && longest <= LONGEST_RECORD,
        Format::Unstructured | Format::Text => longest == 0,
    }
}

// Whether a row of this length is a full one.
fn is_full(format: Format, longest: u32, len: u64) -> bool
    ensures { result ≡ is_full format longest len }
{
    match format {
        Format::Fixed => len == u64::from(longest),
        Format::Variable => len <= u64::from(longest),
        Format::Unstructured | Format::Text => len == BLOCK as u64,
    }
}

// Whether the last row of a whole file may have this length.
fn is_last(format: Format, longest: u32, len: u64) -> bool
    ensures { result ≡ is_last format longest len }
{
    match format {
        Format::Fixed => len == u64::from(longest),
        Format::Variable => len <= u64::from(longest),
        Format::Unstructured | Format::Text => 0 < len && len <= BLOCK as u64,
    }
}

// Whether the row at a place may have this length.
fn may_have(shape: Shape, at: u64, len: u64) -> bool
    ensures { result ≡ may_have shape at len }
{
    if !is_open(shape.state) && shape.rows.saturating_sub(at) == 1 {
        is_last(shape.format, shape.longest, len)
    } else {
        is_full(shape.format, shape.longest, len)
    }
}

/// What is unsound in a row of a file: its length, if it can't have that at its place. Places are counted from 0.
pub fn unsound_in_row(shape: Shape, at: u64, len: u64) -> Option<Loss>
    ensures { result ≡ unsound_in_row shape at len }
{
    unless(may_have(shape, at, len), Loss::UnfitLength)
}

/// What is lost of a row whose file keeps its content. The second is the row at the same place in the newer register, if there is one.
pub fn lost_of_row(older: &[u8], newer: Option<&[u8]>) -> Option<Loss>
    ensures { result ≡ lost_of_row older.now (option_map (λ y. y.now) newer.entry) }
{
    match newer {
        Some(newer) => unless(older == newer, Loss::Octets),
        None => Some(Loss::Missing),
    }
}
