//! Whether there is a file of an identity, and else the number of a new one.

ghost use Rattle.std.specs.Prelude.{◌≡◌, ◌+◌, ◌≤◌, ◌^◌, IfOk, IfErr};
ghost use Rattle.oftp_register.specs.Offices.{IsFailure};
ghost use Rattle.oftp_store.specs.Allocations.{IsIncomingAllocationOf, IsAllocationOf, HasSmallNumber, allocation_after};
ghost use Rattle.oftp_store.specs.Tells.{OnlyLooks, TellsLimited};
ghost use Rattle.oftp_store.specs.Causes.{HasCause};

use super::identity::file_number;
use super::last_number::{last_number, number_after, table_of};
use super::progress::{IncomingProgress, Progress};
use oftp_register::{Identity, OfficeFault, Side};
use oftp_vfile::Limits;
use sqlite::{Alter, Connection};
use std::alloc::Global;

/// Whether there is a file of an identity, and else the number of a new one.
#[derive(Drop)]
pub(crate) enum Allocation {
    /// There is one, with this number.
    Existing(u64),
    /// There is none. A new one gets this number.
    New(u64),
    /// There is none, and the table has as many files as the limits allow.
    Full,
}

/// What a start finds of an incoming file.
#[derive(Drop)]
pub(crate) enum IncomingAllocation {
    /// There is one, with this number and this progress.
    Known { no: u64, progress: IncomingProgress },
    /// There is none. A new one gets this number.
    New(u64),
    /// There is none, and the table has as many files as the limits allow.
    Full,
}

// The allocation of a new file in a table with `last` files.
fn allocation_after(limits: Limits, last: u64) -> Result<Allocation, OfficeFault>
    ensures allocation { IfOk result (λ allocation. allocation ≡ allocation_after limits last) }
    ensures small { IfOk result HasSmallNumber }
    ensures full { IfErr result (λ _. 2 ^ 63 ≤ last + 1) }
    ensures fails { IfErr result IsFailure }
{
    if last >= limits.files {
        return Ok(Allocation::Full);
    }
    Ok(Allocation::New(number_after(last)?))
}

/// Whether there is a file of an identity, and else the number of a new one.
///
/// # Errors
///
/// [`OfficeFault::Store`] also where no number is left, and the errors of a look-up.
pub(crate) fn find_allocation<S: Alter>(
    conn: &mut Connection<S>,
    limits: Limits,
    side: Side,
    identity: &Identity,
) -> Result<Allocation, OfficeFault>
    ensures looks { OnlyLooks S.Store conn.old conn.new result }
    ensures answer { TellsLimited S.Store limits (λ r found. IsAllocationOf r side identity.now found) conn.old conn.new result }
    ensures small { IfOk result HasSmallNumber }
    ensures told { IfErr result (HasCause S.Store conn.old conn.new) }
{
    if let Some(no) = file_number(conn, side, identity)? {
        return Ok(Allocation::Existing(no));
    }
    let last = last_number(conn, table_of(side))?;
    allocation_after(limits, last)
}

/// What a start finds of the incoming file of an identity.
///
/// # Errors
///
/// [`OfficeFault::Store`] also where no number is left, and the errors of a look-up.
pub(crate) fn find_incoming_allocation<S: Alter>(
    alloc: Global,
    conn: &mut Connection<S>,
    limits: Limits,
    identity: &Identity,
) -> Result<IncomingAllocation, OfficeFault>
    ensures looks { OnlyLooks S.Store conn.old conn.new result }
    ensures answer { TellsLimited S.Store limits (λ r found. IsIncomingAllocationOf r identity.now found) conn.old conn.new result }
    ensures told { IfErr result (HasCause S.Store conn.old conn.new) }
{
    match find_allocation(conn, limits, Side::Incoming, identity)? {
        Allocation::Full => Ok(IncomingAllocation::Full),
        Allocation::New(no) => Ok(IncomingAllocation::New(no)),
        Allocation::Existing(no) => {
            let progress = IncomingProgress::find(alloc, conn, no)?.ok_or(OfficeFault::Store)?;
            Ok(IncomingAllocation::Known { no, progress })
        }
    }
}
