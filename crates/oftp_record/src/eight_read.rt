//! Reading eight entries at once.

ghost use Rattle.std.specs.Prelude.{◌≡◌, ◌+◌, ◌-◌, ◌*◌, ◌<◌, ◌≤◌, ℕ, [], ◌∷◌, IfSome, length, take, drop, slice_index_or};
ghost use Rattle.sha2.specs.Sha256.{sha256};
ghost use Rattle.oftp_record.specs.Inside.{AreAt, IsAt};
ghost use Rattle.oftp_record.specs.Next.{ArePassed};
ghost use Rattle.oftp_record.specs.declared.chain.TheConstants.{DIGEST_LEN};
ghost use Rattle.oftp_record.specs.declared.header.TheConstants.{HEADER_LEN};

use crate::chain::{ChainDigest, DIGEST_LEN};
use crate::header::{HEADER_LEN, Header};
use crate::kind::RecordKind;
use crate::next::{NextEntry, entry_over};
use oftp_digest::{BLOCK_LEN, LANES, digests_of_eight};

/// An entry that was read and passed over. Its content stands between a header and a digest.
#[derive(Clone, Copy, Debug, Drop)]
pub struct PassedEntry {
    /// What it is about.
    pub kind: RecordKind,
    /// When that was: microseconds since 1970 began, in UTC.
    pub moment: u64,
    /// How many octets it has with its header and its digest. The next entry begins after them.
    pub length: usize,
    /// Its digest, behind which the next entry is read.
    pub digest: ChainDigest,
}

// Octets that have eight entries of `stride` octets each. `bodies` are the SHA-256 of header and content of each.
#[derive(Clone, Copy, Drop)]
struct Eight<'a> {
    octets: &'a [u8],
    stride: usize,
    bodies: [[u8; 32]; 8],
}

// Four entries, one after another.
type Four = (PassedEntry, PassedEntry, PassedEntry, PassedEntry);

impl Eight<'_> {
    // The entry at a place, behind one whose digest is `before`.
    fn entry_at(&self, place: usize, before: &ChainDigest) -> Option<PassedEntry>
        requires place { place < 8 }
        requires there { 8 * self.now.stride ≤ length self.now.octets.now }
        requires room { HEADER_LEN + DIGEST_LEN ≤ self.now.stride }
        requires bodies { (j : ℕ) → j < 8 → slice_index_or self.now.bodies j []
            ≡ sha256 (take (self.now.stride - DIGEST_LEN) (drop (j * self.now.stride) self.now.octets.now)) }
        ensures { IfSome result (IsAt self.now.stride self.now.octets.now place before.now.0) }
    {
        let octets = self.octets;
        let octets = &octets[place * self.stride..];
        let header = Header::of(&octets[..HEADER_LEN])?;
        if HEADER_LEN + header.count as usize + DIGEST_LEN != self.stride {
            return None;
        }
        let body = self.bodies[place];
        match entry_over(octets, header, &body, before) {
            NextEntry::Whole(stored) => Some(PassedEntry {
                kind: stored.entry.kind,
                moment: stored.entry.moment,
                length: stored.length,
                digest: stored.digest,
            }),
            _ => None,
        }
    }

    // The four entries from a place on, behind one whose digest is `before`.
    fn four_at(&self, place: usize, before: &ChainDigest) -> Option<Four>
        requires place { place + 4 ≤ 8 }
        requires there { 8 * self.now.stride ≤ length self.now.octets.now }
        requires room { HEADER_LEN + DIGEST_LEN ≤ self.now.stride }
        requires bodies { (j : ℕ) → j < 8 → slice_index_or self.now.bodies j []
            ≡ sha256 (take (self.now.stride - DIGEST_LEN) (drop (j * self.now.stride) self.now.octets.now)) }
        ensures { IfSome result (λ four. AreAt self.now.stride self.now.octets.now place before.now.0 (four.0 ∷ four.1 ∷ four.2 ∷ four.3 ∷ [])) }
    {
        let a = self.entry_at(place, before)?;
        let b = self.entry_at(place + 1, &a.digest)?;
        let c = self.entry_at(place + 2, &b.digest)?;
        let d = self.entry_at(place + 3, &c.digest)?;
        Some((a, b, c, d))
    }
}

/// The eight entries that octets begin with, behind an entry with the digest `before`. Each is the one that [`next_entry`](crate::next_entry) would
/// tell. Their digests are computed side by side. It is `None` unless they are of one length, and header and content are whole blocks of SHA-256:
/// then the entries are read one by one.
///
/// It takes no memory.
pub fn next_eight(octets: &[u8], before: &ChainDigest) -> Option<[PassedEntry; 8]>
    ensures { IfSome result (ArePassed before.now.0 octets.now) }
{
    if octets.len() < HEADER_LEN {
        return None;
    }
    let header = Header::of(&octets[..HEADER_LEN])?;
    let body = HEADER_LEN + header.count as usize;
    let stride = body + DIGEST_LEN;
    if body % BLOCK_LEN != 0 || octets.len() / LANES < stride {
        return None;
    }
    let bodies = digests_of_eight(octets, stride, body);
    let eight = Eight {
        octets,
        stride,
        bodies,
    };
    let first = eight.four_at(0, before)?;
    let last = eight.four_at(4, &first.3.digest)?;
    Some([
        first.0, first.1, first.2, first.3, last.0, last.1, last.2, last.3,
    ])
}
