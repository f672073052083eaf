//! The memory of a taker, its refused allocations, and empty rows.

use oftp_vfile::{Format, Limits, Row, Rows, TakeFault, Taker};
use std::alloc::{AllocError, Global};
use std::process::Abort;
use std::test::Fail;

const LIMITS: Limits = Limits {
    files: 1000,
    octets: 8_388_608,
};

fn taker(alloc: Global, format: Format, longest: u32) -> Taker {
    Taker::new(alloc, format, longest, 0, 0, LIMITS)
}

fn is_short(rt: &impl Abort, row: Row) {
    let octets = row.into_octets();
    assert_eq!(rt; octets.as_slice(), b"AB".as_slice());
    assert!(rt; octets.capacity() <= 4);
}

// A short record from two subrecords uses little more memory than its octets need.
#[test]
fn short_record_in_two(rt: HostRuntime) -> Result<(), Fail> {
    let mut taker = taker(rt.alloc(), Format::Variable, 16_384);
    taker.take(&[0x01, 0x41, 0x81, 0x42])?;
    for row in taker.take_rows() {
        is_short(&rt, row);
    }
    Ok(())
}

#[test]
fn empty_rows(rt: HostRuntime) -> Result<(), Fail> {
    let mut records = taker(rt.alloc(), Format::Variable, 2);
    records.take(&[0x81, 0x41, 0x80])?;
    let mut rows = records.close()?.into_vec();
    assert_eq!(rt; rows.len(), 2);
    assert!(rt; !rows[0].is_empty() && rows[1].is_empty());
    rows.clear();
    assert!(rt; Rows::new(rows).is_empty());
    Ok(())
}

// A payload of 20 subrecords.
fn long_payload(alloc: Global) -> Result<Vec<u8>, AllocError> {
    let mut payload = Vec::with_capacity(alloc, 2048)?;
    for _ in 0..20 {
        payload.push(0x3f)?;
        payload.extend_from_slice(&[1; 63])?;
    }
    Ok(payload)
}

// Asserts how many rows are whole, how long the open one is, and how many octets were taken.
fn has_taken(rt: &impl Abort, taker: &Taker, (rows, tail, units): (usize, usize, u64)) {
    assert_eq!(rt; taker.whole_rows().len(), rows);
    assert_eq!(rt; taker.open_tail().len(), tail);
    assert_eq!(rt; taker.counts(), (0, units));
}

// Takes a payload. If memory was refused, the taker is as it was, and then takes it.
fn take_again(
    rt: &impl Abort,
    taker: &mut Taker,
    payload: &[u8],
    before: (usize, usize, u64),
) -> Result<(), TakeFault> {
    if let Err(fault) = taker.take(payload) {
        assert_eq!(rt; fault, TakeFault::Memory);
        has_taken(rt, taker, before);
        assert_eq!(rt; taker.is_open(), before.0 > 0);
        taker.take(payload)?;
    }
    Ok(())
}

// If an allocation in `take` is refused, the taker is unchanged and then takes the same payload. This needs `rt try --test --fail-alloc N`,
// which refuses the Nth allocation (from 2 on: the first is the test's own). Without it no allocation is refused.
#[test]
fn refused_and_taken_again(rt: HostRuntime) -> Result<(), Fail> {
    let payload = long_payload(rt.alloc())?;
    let mut taker = taker(rt.alloc(), Format::Unstructured, 0);
    for before in [(0, 0, 0), (1, 236, 1260)] {
        take_again(&rt, &mut taker, payload.as_slice(), before)?;
    }
    has_taken(&rt, &taker, (2, 472, 2520));
    Ok(())
}
