//! The number of octets of rows.

ghost use Rattle.std.specs.Prelude.{◌≡◌, ◌<◌, ◌≤◌, ◌^◌, ℕ, List, length};
ghost use Rattle.oftp_vfile.specs.VirtualFile.{units_in};
ghost use Rattle.oftp_vfile.specs.declared.format.TheConstants.{MOST_ROWS};
ghost use Rattle.oftp_register.specs.Units.{units_in_blocks, units_told};
ghost use Rattle.oftp_register.specs.declared.fit.TheConstants.{MOST_UNITS};

use oftp_vfile::{BLOCK, Format, Row};

// The number of octets of these rows.
fn count_units(rows: &[Row]) -> u64
    requires { units_in rows.now < 2 ^ 64 }
    ensures { result ≡ units_in rows.now }
{
    let mut units = 0;
    for row in rows {
        units += row.len() as u64;
    }
    units
}

// The number of octets of rows that are all full blocks but the last.
fn count_blocks(rows: &[Row]) -> u64
    requires few { length rows.now ≤ MOST_ROWS }
    requires small { units_in rows.now ≤ MOST_UNITS }
    ensures { result ≡ units_in_blocks rows.now }
{
    match rows.split_last() {
        Some((last, full)) => full.len() as u64 * BLOCK as u64 + last.len() as u64,
        None => 0,
    }
}

// The number of octets of rows that fit this format.
pub(crate) fn units_told(format: Format, longest: u32, rows: &[Row]) -> u64
    requires few { length rows.now ≤ MOST_ROWS }
    requires small { units_in rows.now ≤ MOST_UNITS }
    ensures { result ≡ units_told format longest rows.now }
{
    match format {
        Format::Fixed => rows.len() as u64 * u64::from(longest),
        Format::Variable => count_units(rows),
        Format::Unstructured | Format::Text => count_blocks(rows),
    }
}
