//! Writing subrecords.
ghost use Rattle.std.specs.Prelude.{◌≡◌, ◌+◌, ◌-◌, ◌<◌, ◌≤◌, ◌++◌, ◌∷◌, [], ◌⊎◌, ℕ, List, length, take, drop, min, slice_index_or, if◌then◌else◌, IfSome, IfNone, true, false, ◌&&◌, All};
ghost use Rattle.oftp_vfile.specs.Subrecord.{Subrecord, spelled, payload_of};
ghost use Rattle.oftp_vfile.specs.Fill.{needs, Packs, IsFull};
ghost use Rattle.oftp_vfile.specs.Filling.{from_offset};
ghost use Rattle.oftp_vfile.specs.VirtualFile.{octets_in};
ghost use Rattle.oftp_vfile.specs.Packing.{HasPacked, rest_at, HasStreamed, HasEnded};

use crate::content::Row;
use crate::header::{MOST_COUNT, header_octet};

// Writes a subrecord.
fn put(out: &mut [u8], at: usize, ends: bool, part: &[u8])
    requires short { length part.now < 64 }
    requires room { at + 1 + length part.now ≤ length out.old }
    ensures { take (at + (1 + length part.now)) out.new
        ≡ take at out.old ++ spelled (record { ends = ends; octets = part.now }) }
{
    let count = part.len();
    out[at] = header_octet(ends, count);
    out[at + 1..at + 1 + count].copy_from_slice(part);
}

/// A place in the given rows: a row, counted from 0, and the number of its octets before the place.
#[derive(Clone, Copy)]
pub struct Place {
    pub row: usize,
    pub offset: usize,
}

// Writes octets of rows, one row after another, as long as there is room. It returns how many, and where it stopped.
fn gather(rows: &[Row], from: Place, out: &mut [u8]) -> (usize, Place)
    requires row { from.row ≤ length rows.now }
    requires offset { 0 < from.offset → from.offset < length (slice_index_or rows.now from.row []) }
    ensures count { result.0
        ≡ min (length out.old) (length (rest_at rows.now from.row from.offset)) }
    ensures octets { take result.0 out.new ≡ take result.0 (rest_at rows.now from.row from.offset) }
    ensures rest { rest_at rows.now result.1.row result.1.offset
        ≡ drop result.0 (rest_at rows.now from.row from.offset) }
    ensures row { result.1.row ≤ length rows.now }
    ensures offset { 0 < result.1.offset
        → result.1.offset < length (slice_index_or rows.now result.1.row []) }
{
    let mut row = from.row;
    let mut offset = from.offset;
    let mut at = 0;
    while row < rows.len() && at < out.len() {
        let octets = rows[row].octets();
        let count = (octets.len() - offset).min(out.len() - at);
        out[at..at + count].copy_from_slice(&octets[offset..offset + count]);
        at += count;
        offset += count;
        if offset == octets.len() {
            row += 1;
            offset = 0;
        }
    }
    (at, Place { row, offset })
}

// How many octets the next subrecord of a record needs, if these octets of it are left.
fn needed(octets: &[u8]) -> usize
    ensures { result ≡ needs octets.now }
{
    match octets {
        [] => 1,
        _ => 2,
    }
}

/// Writes subrecords of records, the first one from an offset on, until no further one fits or the rows end. It returns how many octets
/// were written, and the next place. The offset is 0, or within the first row.
pub fn pack_records(rows: &[Row], offset: usize, out: &mut [u8]) -> (usize, Place)
    requires { 0 < offset → offset < length (slice_index_or rows.now 0 []) }
    ensures room { result.0 ≤ length out.old }
    ensures row { result.1.row ≤ length rows.now }
    ensures offset { 0 < result.1.offset
        → result.1.offset < length (slice_index_or rows.now result.1.row []) }
    ensures packed { let left = from_offset result.1.offset (drop result.1.row rows.now) in
        HasPacked (length out.old) (from_offset offset rows.now) (take result.0 out.new)
        (length out.old - result.0) left }
    ensures full { let left = from_offset result.1.offset (drop result.1.row rows.now) in
        result.1.row < length rows.now → IsFull (length out.old - result.0) left }
{
    let mut place = Place { row: 0, offset };
    let mut at = 0;
    while place.row < rows.len() {
        let (_, rest) = rows[place.row].octets().split_at(place.offset);
        let free = out.len() - at;
        if free < needed(rest) {
            break;
        }
        let count = rest.len().min(free - 1).min(MOST_COUNT);
        let ends = count == rest.len();
        let (part, _) = rest.split_at(count);
        put(out, at, ends, part);
        at += 1 + count;
        place = if ends {
            Place {
                row: place.row + 1,
                offset: 0,
            }
        } else {
            Place {
                row: place.row,
                offset: place.offset + count,
            }
        };
    }
    (at, place)
}

// A subrecord of a stream that was written, and the next place.
#[derive(Clone, Copy)]
struct Written {
    count: usize,
    ends: bool,
    next: Place,
}

// Writes the next subrecord of a stream. It returns `None` where the subrecord needs more octets than the rows have, and they aren't the
// last.
fn put_from(rows: &[Row], from: Place, last: bool, out: &mut [u8], at: usize) -> Option<Written>
    requires row { from.row ≤ length rows.now }
    requires offset { 0 < from.offset → from.offset < length (slice_index_or rows.now from.row []) }
    requires some { All (λ r. 0 < length r) rows.now }
    requires room { at + 2 ≤ length out.old }
    ensures count { let left = rest_at rows.now from.row from.offset in
        IfSome result (λ w. w.count ≡ min (min 63 (length out.old - at - 1)) (length left)) }
    ensures enough { let left = rest_at rows.now from.row from.offset in
        IfSome result (λ w. last ≡ false → min 63 (length out.old - at - 1) ≤ length left) }
    ensures written { let left = rest_at rows.now from.row from.offset in
        IfSome result (λ w. take (at + (1 + w.count)) out.new
        ≡ take at out.old ++ spelled (record { ends = w.ends; octets = take w.count left })) }
    ensures next { let left = rest_at rows.now from.row from.offset in
        IfSome result (λ w. rest_at rows.now w.next.row w.next.offset ≡ drop w.count left) }
    ensures ends { IfSome result (λ w. w.ends ≡ true
        → (last ≡ true) × (rest_at rows.now w.next.row w.next.offset ≡ [])
        × (w.next.row ≡ length rows.now)) }
    ensures goes_on { IfSome result (λ w. w.ends ≡ false
        → last ≡ true → 0 < length (rest_at rows.now w.next.row w.next.offset)) }
    ensures row { IfSome result (λ w. w.next.row ≤ length rows.now) }
    ensures offset { IfSome result (λ w. 0 < w.next.offset
        → w.next.offset < length (slice_index_or rows.now w.next.row [])) }
    ensures none { let left = rest_at rows.now from.row from.offset in
        IfNone result ((last ≡ false) × (length left < min 63 (length out.old - at - 1))) }
    ensures front { IfNone result (take at out.new ≡ take at out.old) }
{
    let want = (out.len() - at - 1).min(MOST_COUNT);
    let (count, next) = gather(rows, from, &mut out[at + 1..at + 1 + want]);
    if count < want && !last {
        return None;
    }
    let ends = last && next.row == rows.len();
    out[at] = header_octet(ends, count);
    Some(Written { count, ends, next })
}

/// Why a payload of a stream ends.
#[derive(Clone, Copy, PartialEq, Eq)]
pub enum End {
    /// No further subrecord fits.
    Full,
    /// The stream is at its end.
    Ended,
    /// The given rows ended before.
    Short,
}

/// Writes subrecords of a stream, from an offset of the first row on. It returns how many octets were written, the next place, and why the
/// payload ends there. `last` says whether the rows reach the end of the stream. The offset is 0, or within the first row. No row is empty,
/// and `out` has at least 2 octets.
pub fn pack_stream(rows: &[Row], offset: usize, last: bool, out: &mut [u8]) -> (usize, Place, End)
    requires offset { 0 < offset → offset < length (slice_index_or rows.now 0 []) }
    requires some { All (λ r. 0 < length r) rows.now }
    requires room { 2 ≤ length out.old }
    ensures room { result.0 ≤ length out.old }
    ensures row { result.1.row ≤ length rows.now }
    ensures offset { 0 < result.1.offset
        → result.1.offset < length (slice_index_or rows.now result.1.row []) }
    ensures ended { result.2 ≡ End.Ended → (last ≡ true)
        × HasEnded (length out.old) (rest_at rows.now 0 offset) (take result.0 out.new)
        × (result.1.row ≡ length rows.now) }
    ensures full { let left = rest_at rows.now result.1.row result.1.offset in
        result.2 ≡ End.Full → (length out.old - result.0 < 2) × (last ≡ true → 0 < length left)
        × HasStreamed last (length out.old) (rest_at rows.now 0 offset) (take result.0 out.new)
        (length out.old - result.0) left }
    ensures short { let left = rest_at rows.now result.1.row result.1.offset in
        result.2 ≡ End.Short → (last ≡ false) × (length left < min 63 (length out.old - result.0 - 1))
        × HasStreamed last (length out.old) (rest_at rows.now 0 offset) (take result.0 out.new)
        (length out.old - result.0) left }
{
    let mut place = Place { row: 0, offset };
    let mut at = 0;
    while out.len() - at >= 2 {
        let Some(written) = put_from(rows, place, last, out, at) else {
            return (at, place, End::Short);
        };
        at += 1 + written.count;
        place = written.next;
        if written.ends {
            return (at, place, End::Ended);
        }
    }
    (at, place, End::Full)
}
