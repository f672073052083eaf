//! Rows and an open tail, and how they grow.
ghost use Rattle.std.specs.Prelude.{◌≡◌, ◌+◌, ◌<◌, ◌≤◌, ◌++◌, ◌∷◌, [], ℕ, List, length, take, drop, OnOk, OnErr, vec_len, vec_capacity, false, if◌then◌else◌};
ghost use Rattle.oftp_vfile.specs.Growth.{HasGrown, stream_rows, stream_tail};

use crate::content::Row;
use crate::format::BLOCK;
use std::alloc::{AllocError, Global};
use std::mem;

// Appends octets to the tail. If it hasn't the capacity, `size` octets are allocated at once.
fn append(tail: &mut Vec<u8>, part: &[u8], size: usize) -> Result<(), AllocError>
    ensures ok { OnOk result (tail.new.items ≡ tail.old.items ++ part.now) }
    ensures room { OnOk result (vec_capacity tail.old < vec_len tail.old + length part.now
        → size ≤ vec_capacity tail.new) }
    ensures err { OnErr result (tail.new.items ≡ tail.old.items) }
{
    if tail.capacity() - tail.len() < part.len() {
        tail.reserve_exact(part.len().max(size.saturating_sub(tail.len())))?;
    }
    tail.extend_from_slice(part)
}

// Makes the tail a row, without a copy. An error changes nothing.
fn close(alloc: Global, rows: &mut Vec<Row>, tail: &mut Vec<u8>) -> Result<(), AllocError>
    ensures rows { OnOk result (rows.new.items ≡ rows.old.items ++ tail.old.items ∷ []) }
    ensures tail { OnOk result (tail.new.items ≡ []) }
    ensures same_rows { OnErr result (rows.new.items ≡ rows.old.items) }
    ensures same_tail { OnErr result (tail.new.items ≡ tail.old.items) }
{
    let whole = mem::replace(tail, Vec::new(alloc));
    match rows.push(Row::new(whole)) {
        Ok(()) => Ok(()),
        Err(refused) => {
            *tail = refused.value.into_octets();
            Err(AllocError)
        }
    }
}

// Appends octets of a stream, and makes a full block a row. After an error the rows and the tail may have grown.
fn grow_stream(
    alloc: Global,
    rows: &mut Vec<Row>,
    tail: &mut Vec<u8>,
    part: &[u8],
) -> Result<(), AllocError>
    requires open { length tail.old.items < BLOCK }
    requires short { length part.now < BLOCK }
    ensures filled { OnOk result (BLOCK ≤ length tail.old.items + length part.now
        → (rows.new.items ≡ rows.old.items ++ take BLOCK (tail.old.items ++ part.now) ∷ [])
        × (tail.new.items ≡ drop BLOCK (tail.old.items ++ part.now))) }
    ensures short { OnOk result (length tail.old.items + length part.now < BLOCK
        → (rows.new.items ≡ rows.old.items) × (tail.new.items ≡ tail.old.items ++ part.now)) }
    ensures err { OnErr result
        (HasGrown rows.old.items tail.old.items rows.new.items tail.new.items) }
{
    let room = BLOCK - tail.len();
    if part.len() < room {
        append(tail, part, BLOCK)?;
        return Ok(());
    }
    let (front, rest) = part.split_at(room);
    append(tail, front, BLOCK)?;
    close(alloc, rows, tail)?;
    append(tail, rest, BLOCK)?;
    Ok(())
}

/// Goes back to `row_count` rows and a tail of `tail_len` octets, which are the beginning of what is there.
pub fn back_to(rows: &mut Vec<Row>, tail: &mut Vec<u8>, row_count: usize, tail_len: usize)
    ensures { (old : List (List ℕ)) → (front : List ℕ)
        → HasGrown old front rows.old.items tail.old.items
        → length old ≡ row_count → length front ≡ tail_len
        → (rows.new.items ≡ old) × (tail.new.items ≡ front) }
{
    if row_count < rows.len() {
        *tail = rows.remove(row_count).into_octets();
        rows.truncate(row_count);
    }
    tail.truncate(tail_len);
}

/// Appends a part of a record, and makes the record a row where it ends, which `ends` says. Where it goes on and the tail has no room for
/// the part, `size` octets are allocated at once.
///
/// # Errors
///
/// Out of memory. Nothing has changed.
pub fn add_to_record(
    alloc: Global,
    rows: &mut Vec<Row>,
    tail: &mut Vec<u8>,
    ends: bool,
    part: &[u8],
    size: usize,
) -> Result<(), AllocError>
    ensures rows { let octets = tail.old.items ++ part.now in OnOk result
        (rows.new.items ≡ (if ends then rows.old.items ++ octets ∷ [] else rows.old.items)) }
    ensures tail { OnOk result (tail.new.items ≡ (if ends then [] else tail.old.items ++ part.now)) }
    ensures room { OnOk result (ends ≡ false
        → vec_capacity tail.old < vec_len tail.old + length part.now
        → size ≤ vec_capacity tail.new) }
    ensures same_rows { OnErr result (rows.new.items ≡ rows.old.items) }
    ensures same_tail { OnErr result (tail.new.items ≡ tail.old.items) }
{
    let tail_len = tail.len();
    append(tail, part, size)?;
    if !ends {
        return Ok(());
    }
    match close(alloc, rows, tail) {
        Ok(()) => Ok(()),
        Err(refused) => {
            tail.truncate(tail_len);
            Err(refused)
        }
    }
}

/// Appends octets of a stream, and makes a full block a row. The octets, and those of the tail, are fewer than a block.
///
/// # Errors
///
/// Out of memory. Nothing has changed.
pub fn add_to_stream(
    alloc: Global,
    rows: &mut Vec<Row>,
    tail: &mut Vec<u8>,
    part: &[u8],
) -> Result<(), AllocError>
    requires below { length tail.old.items < BLOCK }
    requires short { length part.now < BLOCK }
    ensures rows { OnOk result
        (rows.new.items ≡ stream_rows rows.old.items (tail.old.items ++ part.now)) }
    ensures tail { OnOk result (tail.new.items ≡ stream_tail (tail.old.items ++ part.now)) }
    ensures same_rows { OnErr result (rows.new.items ≡ rows.old.items) }
    ensures same_tail { OnErr result (tail.new.items ≡ tail.old.items) }
{
    let row_count = rows.len();
    let tail_len = tail.len();
    match grow_stream(alloc, rows, tail, part) {
        Ok(()) => Ok(()),
        Err(refused) => {
            back_to(rows, tail, row_count, tail_len);
            Err(refused)
        }
    }
}
