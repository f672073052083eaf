//! The number of octets of each file that the office returned in a list.

ghost use Rattle.std.specs.Prelude.{◌≡◌, ◌≤◌, length};
ghost use Rattle.oftp_vfile.specs.VirtualFile.{units_in};
ghost use Rattle.oftp_register.specs.LookUps.{file_rows, units_of};
ghost use Rattle.oftp_register.specs.Offices.{LooksUp};
ghost use Rattle.oftp_listing.specs.Finding.{Finds};
ghost use Rattle.oftp_listing.specs.InsideResource.{AreRelated, CountsBlocks, EntryKind, IsAmong, IsListed, incoming_files, outgoing_files};

use crate::fault::ListFault;
use oftp_register::{IncomingEntry, Office, OfficeFault, OutgoingEntry, Side};
use oftp_vfile::{BLOCK, Format, Rows};
use std::alloc::Global;

// The number of octets of these rows, of which there is at most one.
fn octets_of(rows: &Rows) -> u64
    ensures { length rows.now ≤ 1 → result ≡ units_in rows.now }
{
    match rows.as_slice().first() {
        None => 0,
        Some(row) => row.len() as u64,
    }
}

// The number of octets of a file with this number of rows, which are all full blocks but the last. Only the last row is read.
fn units_in_blocks<O: Office>(
    office: &mut O,
    side: Side,
    no: u64,
    rows: u64,
) -> Result<u64, OfficeFault>
    ensures looks { LooksUp (λ r units. CountsBlocks rows (file_rows r side no) units) (O.view office.old) (O.view office.new) result }
{
    let full = rows.saturating_sub(1);
    let last = office.rows_of(side, no, full, 1)?;
    Ok(
        full.saturating_mul(BLOCK as u64)
            .saturating_add(octets_of(&last)),
    )
}

// The number of octets of a file that the office returned in a list. Its number, its format, its longest record in octets and its
// number of rows are given. In format F no row is read, in U and T the last one, and in V the office measures each.
fn units_of_file<O: Office>(
    office: &mut O,
    side: Side,
    no: u64,
    format: Format,
    longest: u32,
    rows: u64,
) -> Result<u64, OfficeFault>
    ensures looks { LooksUp (λ r units. IsListed r side no format longest rows → units ≡ units_of r side no) (O.view office.old) (O.view office.new) result }
{
    match format {
        Format::Fixed => Ok(rows.saturating_mul(u64::from(longest))),
        Format::Variable => office.units_of(side, no),
        Format::Unstructured | Format::Text => units_in_blocks(office, side, no, rows),
    }
}

/// A kind of file, whose entries in a list say how it is measured.
pub(crate) trait Measured: Sized {
    // its entries in a register, and the number of octets of one
    ghost kind: { EntryKind Self };

    /// The number of octets of a file that the office returned in a list.
    fn units_in_list<O: Office>(&self, office: &mut O) -> Result<u64, OfficeFault>
        ensures looks { LooksUp (λ r units. IsAmong self.now (kind.entries r) → units ≡ kind.related r self.now) (O.view office.old) (O.view office.new) result };
}

impl Measured for IncomingEntry {
    ghost kind = { incoming_files };

    fn units_in_list<O: Office>(&self, office: &mut O) -> Result<u64, OfficeFault> {
        units_of_file(
            office,
            Side::Incoming,
            self.no,
            self.format,
            self.longest,
            self.rows,
        )
    }
}

impl Measured for OutgoingEntry {
    ghost kind = { outgoing_files };

    fn units_in_list<O: Office>(&self, office: &mut O) -> Result<u64, OfficeFault> {
        units_of_file(
            office,
            Side::Outgoing,
            self.no,
            self.format,
            self.longest,
            self.rows,
        )
    }
}

/// The numbers of octets of all files of a list that the office returned, in their order.
///
/// # Errors
///
/// [`ListFault::Office`]: the office returned an error. [`ListFault::Memory`]: out of memory.
pub(crate) fn units_of_each<F: Measured, O: Office>(
    alloc: Global,
    files: &[F],
    office: &mut O,
) -> Result<Vec<u64>, ListFault>
    ensures { Finds (λ r numbers. files.now ≡ F.kind.entries r → AreRelated F.kind r numbers.items) (O.view office.old) (O.view office.new) result }
{
    let mut numbers = Vec::with_capacity(alloc, files.len())?;
    for file in files {
        let units = file.units_in_list(office)?;
        numbers.push(units)?;
    }
    Ok(numbers)
}
