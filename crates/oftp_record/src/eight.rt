//! Writing eight entries at once.

ghost use Rattle.std.specs.Prelude.{◌≡◌, ◌+◌, ◌*◌, ◌/◌, ◌%◌, ◌<◌, ◌≤◌, ◌++◌, ℕ, Err, IfErr, IfOk, OnErr, OnOk, length, take, drop};
ghost use Rattle.oftp_digest.specs.declared.digests.TheConstants.{BLOCK_LEN};
ghost use Rattle.oftp_record.specs.Entries.{entry_body};
ghost use Rattle.oftp_record.specs.Pieces.{piece_entries, piece_entry, shared};
ghost use Rattle.oftp_record.specs.Records.{last_digest, record_octets};
ghost use Rattle.oftp_record.specs.declared.header.TheConstants.{HEADER_LEN, LONGEST_CONTENT};
ghost use Rattle.oftp_record.specs.declared.writing.AppendFault.TheVariants.{TooLong};

use crate::chain::{ChainDigest, DIGEST_LEN};
use crate::header::{HEADER_LEN, Header, LONGEST_CONTENT};
use crate::kind::RecordKind;
use crate::writing::{AppendFault, append};
use oftp_digest::{LANES, digests_of_eight};
use std::alloc::{AllocError, Global};

/// Eight entries of one kind and one moment, which share out octets.
#[derive(Clone, Copy, Debug, Drop)]
pub struct PieceEntries<'a> {
    /// What they are about.
    pub kind: RecordKind,
    /// When that was: microseconds since 1970 began, in UTC.
    pub moment: u64,
    /// What stands before the piece in the content of each.
    pub head: &'a [u8],
    /// The pieces, one behind another. Each is an eighth of these octets.
    pub pieces: &'a [u8],
}

impl PieceEntries<'_> {
    // Header and content of each, one behind another.
    fn bodies(&self, alloc: Global) -> Result<Vec<u8>, AllocError>
        requires { length self.now.head.now + length self.now.pieces.now / 8 ≤ LONGEST_CONTENT }
        ensures long { IfOk result (λ bodies. length bodies.items ≡ 8 * (HEADER_LEN + length self.now.head.now + length self.now.pieces.now / 8)) }
        ensures each { IfOk result (λ bodies. (j : ℕ) → j < 8
            → take (HEADER_LEN + length self.now.head.now + length self.now.pieces.now / 8)
            (drop (j * (HEADER_LEN + length self.now.head.now + length self.now.pieces.now / 8)) bodies.items)
            ≡ entry_body (piece_entry (shared self.now) (length self.now.pieces.now / 8) j)) }
    {
        let size = self.pieces.len() / LANES;
        let header = Header {
            kind: self.kind,
            moment: self.moment,
            count: (self.head.len() + size) as u32,
        };
        let mut bodies = Vec::with_capacity(alloc, LANES * (HEADER_LEN + self.head.len() + size))?;
        'each: for place in 0..LANES {
            bodies.extend_from_slice(header.octets().as_slice())?;
            bodies.extend_from_slice(self.head)?;
            bodies.extend_from_slice(&self.pieces[place * size..place * size + size])?;
        }
        Ok(bodies)
    }
}

/// Appends eight entries to the octets of a record, one behind another, and returns the digest of the last one. `before` is the digest of the entry
/// before them. Their headers and contents are whole blocks of SHA-256, and are digested side by side.
///
/// # Errors
///
/// - [`AppendFault::TooLong`] exactly where a content has more than [`LONGEST_CONTENT`] octets.
/// - [`AppendFault::Memory`]: out of memory.
///
/// The octets are unchanged.
pub fn append_eight(
    alloc: Global,
    octets: &mut Vec<u8>,
    entries: &PieceEntries<'_>,
    before: &ChainDigest,
) -> Result<ChainDigest, AppendFault>
    requires eighths { length entries.now.pieces.now % 8 ≡ 0 }
    requires blocks { (HEADER_LEN + length entries.now.head.now + length entries.now.pieces.now / 8) % BLOCK_LEN ≡ 0 }
    ensures written { OnOk result (octets.new.items
        ≡ octets.old.items ++ record_octets before.now.0 (piece_entries (shared entries.now) (length entries.now.pieces.now / 8) 8)) }
    ensures digest { IfOk result (λ digest. digest.0 ≡ last_digest before.now.0 (piece_entries (shared entries.now) (length entries.now.pieces.now / 8) 8)) }
    ensures long { LONGEST_CONTENT < length entries.now.head.now + length entries.now.pieces.now / 8 → result ≡ Err TooLong }
    ensures too_long { IfErr result (λ fault. fault ≡ TooLong → LONGEST_CONTENT < length entries.now.head.now + length entries.now.pieces.now / 8) }
    ensures err { OnErr result (octets.new.items ≡ octets.old.items) }
{
    let size = entries.pieces.len() / LANES;
    if entries.head.len() > LONGEST_CONTENT || size > LONGEST_CONTENT - entries.head.len() {
        return Err(AppendFault::TooLong);
    }
    let count = HEADER_LEN + entries.head.len() + size;
    octets.reserve(LANES * (count + DIGEST_LEN))?;
    let bodies = entries.bodies(alloc)?;
    let digests = digests_of_eight(&bodies, count, count);
    let mut digest = *before;
    'each: for place in 0..LANES {
        digest = ChainDigest::over(&digests[place], &digest);
        append(octets, &bodies[place * count..place * count + count]);
        append(octets, digest.0.as_slice());
    }
    Ok(digest)
}
