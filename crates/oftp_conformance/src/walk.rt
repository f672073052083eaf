//! A walk over the subrecords of payloads (RFC 5024, sections 7.2 and 7.3).

ghost use Rattle.std.specs.Prelude.{◌≡◌};
ghost use Rattle.oftp_vfile.specs.Subrecord.{has_end, has_compression, count_in};
ghost use Rattle.oftp_conformance.specs.Walks.{is_ended, is_filled, stage_after, count_after, headed, walked, first_walk, anew, walk_over};

use oftp_vfile::Stage;

/// The flag of the end of a record, or of a stream.
const END: u8 = 0x80;

/// The flag of compression.
const COMPRESSION: u8 = 0x40;

/// The bits of the number of octets.
const COUNT: u8 = 0x3f;

/// A walk over the octets of payloads.
#[derive(Clone, Copy, Debug, PartialEq, Eq)]
pub struct Walk {
    /// How many octets of the subrecord under way are still to come.
    pub due: u8,
    /// Whether a subrecord of this buffer was compressed.
    pub compressed: bool,
    /// Whether a subrecord of this buffer with octets, or with the end flag, came behind one with the end flag.
    pub beyond: bool,
    /// Whether an empty subrecord of this buffer without the end flag did.
    pub hollow: bool,
    /// Whether a subrecord came, and whether the last one had the end flag.
    pub stage: Stage,
    /// How many octets the subrecords say that they have.
    pub units: u64,
    /// How many end flags came.
    pub ends: u64,
}

// Whether a subrecord with this header ends a record, or a stream.
fn has_end(header: u8) -> bool
    ensures { result ≡ has_end header }
{
    header & END != 0
}

// Whether a subrecord with this header is compressed.
fn has_compression(header: u8) -> bool
    ensures { result ≡ has_compression header }
{
    header % END >= COMPRESSION
}

// How many octets of the file a subrecord with this header has.
fn count_in(header: u8) -> u8
    ensures { result ≡ count_in header }
{
    header & COUNT
}

// How many octets follow the header of a subrecord.
fn count_after(header: u8) -> u8
    ensures { result ≡ count_after header }
{
    if has_compression(header) {
        1
    } else {
        count_in(header)
    }
}

/// Whether the last subrecord had the end flag.
pub(crate) fn is_ended(stage: Stage) -> bool
    ensures { result ≡ is_ended stage }
{
    match stage {
        Stage::Fresh | Stage::Open => false,
        Stage::Ended => true,
    }
}

// Whether a subrecord with this header has octets, or the end flag.
fn is_filled(header: u8) -> bool
    ensures { result ≡ is_filled header }
{
    has_end(header) || count_in(header) != 0
}

// The stage after a header.
fn stage_after(stage: Stage, header: u8) -> Stage
    ensures { result ≡ stage_after stage header }
{
    if has_end(header) {
        return Stage::Ended;
    }
    if count_in(header) == 0 {
        stage
    } else {
        Stage::Open
    }
}

// A walk after a header.
fn headed(walk: Walk, header: u8) -> Walk
    ensures { result ≡ headed walk header }
{
    let ended = if has_end(header) { 1 } else { 0 };
    Walk {
        due: count_after(header),
        compressed: walk.compressed || has_compression(header),
        beyond: walk.beyond || (is_ended(walk.stage) && is_filled(header)),
        hollow: walk.hollow || (is_ended(walk.stage) && !is_filled(header)),
        stage: stage_after(walk.stage, header),
        units: walk.units.saturating_add(u64::from(count_in(header))),
        ends: walk.ends.saturating_add(ended),
    }
}

// A walk after one more octet.
fn walked(walk: Walk, octet: u8) -> Walk
    ensures { result ≡ walked walk octet }
{
    if walk.due == 0 {
        return headed(walk, octet);
    }
    Walk {
        due: walk.due - 1,
        ..walk
    }
}

/// A walk before the first octet of a file.
pub(crate) fn first_walk() -> Walk
    ensures { result ≡ first_walk }
{
    Walk {
        due: 0,
        compressed: false,
        beyond: false,
        hollow: false,
        stage: Stage::Fresh,
        units: 0,
        ends: 0,
    }
}

// A walk that goes on with the next buffer.
fn anew(walk: Walk) -> Walk
    ensures { result ≡ anew walk }
{
    Walk {
        due: 0,
        compressed: false,
        beyond: false,
        hollow: false,
        ..walk
    }
}

/// A walk over the next buffer.
pub(crate) fn walk_over(before: Walk, payload: &[u8]) -> Walk
    ensures { result ≡ walk_over before payload.now }
{
    let mut walk = anew(before);
    for octet in payload {
        walk = walked(walk, *octet);
    }
    walk
}
