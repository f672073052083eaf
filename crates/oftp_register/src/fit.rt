//! Checks of an office's limits and of a file's fields.

ghost use Rattle.std.specs.Prelude.{◌≡◌, ◌↔◌, ◌<◌, ◌≤◌, IsTrue, All, length};
ghost use Rattle.oftp_vfile.specs.VirtualFile.{AreBlocks, AreRows};
ghost use Rattle.oftp_register.specs.Soundness.{AreFullRows, IsFile, IsResponse};
ghost use Rattle.oftp_vfile.specs.declared.format.TheConstants.{BLOCK};
ghost use Rattle.oftp_register.specs.declared.fit.TheConstants.{MOST_FILES, MOST_OCTETS};

use crate::entry::ResponseKind;
use oftp_vfile::{BLOCK, Format, Limits, MOST_ROWS, Row};
use oftp_wire::{Count, Text};

/// The most files that an office may hold in one table.
pub const MOST_FILES: u64 = 1_000_000;

/// The most octets that an office may hold of one file.
pub const MOST_OCTETS: u64 = 1_024_000_000;

/// The most octets that the rows of a file can have: 1,000,000 records of 16,384.
pub const MOST_UNITS: u64 = 16_384_000_000;

/// Whether an office may have these limits: at most 1,000,000 files and 1,024,000,000 octets of a file.
pub fn are_limits(limits: Limits) -> bool
    ensures { IsTrue result ↔ (limits.files ≤ MOST_FILES) × (limits.octets ≤ MOST_OCTETS) }
{
    limits.files <= MOST_FILES && limits.octets <= MOST_OCTETS
}

/// Whether these rows fit a file that isn't complete. They are records of the right length in F and V, and full blocks of 1,024 octets in
/// U and T (RFC 5024, section 1.5.4).
pub fn are_full_rows(format: Format, longest: u32, rows: &[Row]) -> bool
    ensures { IsTrue result ↔ AreFullRows format longest rows.now }
{
    match format {
        Format::Fixed => rows.iter().all(|row| row.len() == longest as usize),
        Format::Variable => rows.iter().all(|row| row.len() <= longest as usize),
        Format::Unstructured | Format::Text => rows.iter().all(|row| row.len() == BLOCK),
    }
}

fn is_last_block(row: &Row) -> bool
    ensures { IsTrue result ↔ (0 < length row.now) × (length row.now ≤ BLOCK) }
{
    !row.is_empty() && row.len() <= BLOCK
}

fn are_blocks(rows: &[Row]) -> bool
    ensures { IsTrue result ↔ AreBlocks BLOCK rows.now }
{
    match rows.split_last() {
        Some((last, full)) => {
            is_last_block(last) && are_full_rows(Format::Unstructured, 0, full)
        }
        None => true,
    }
}

/// Whether these are the rows of a complete file. They are full rows, except that in U and T the last one may be shorter, but not empty.
pub fn are_rows(format: Format, longest: u32, rows: &[Row]) -> bool
    ensures { IsTrue result ↔ AreRows format longest rows.now }
{
    match format {
        Format::Fixed | Format::Variable => are_full_rows(format, longest, rows),
        Format::Unstructured | Format::Text => are_blocks(rows),
    }
}

/// Whether a register may have a file with this longest record and these rows, which are at most 1,000,000.
pub fn is_file(format: Format, longest: u32, rows: &[Row]) -> bool
    ensures { IsTrue result ↔ IsFile format longest rows.now }
{
    format.allows_longest(longest) && rows.len() <= MOST_ROWS && are_rows(format, longest, rows)
}

/// Whether a response may have this reason, this creator and this text. An End-to-End Response has none of them (RFC 5024, sections 5.3.13
/// and 5.3.14).
pub fn is_response(kind: ResponseKind, reason: Count<2>, creator: &[u8], text: &Text<'_>) -> bool
    ensures { IsTrue result ↔ IsResponse kind reason creator.now text.now }
{
    match kind {
        ResponseKind::EndResponse => {
            reason.get() == 0 && creator.is_empty() && text.text().is_empty()
        }
        ResponseKind::NegativeEndResponse => true,
    }
}
