//! Reading an entry.

ghost use Rattle.std.specs.Prelude.{◌≡◌, ◌+◌, ◌<◌, ◌≤◌, ◌^◌, ◌++◌, drop, length, take};
ghost use Rattle.sha2.specs.Sha256.{sha256};
ghost use Rattle.oftp_record.specs.Entries.{entry_header};
ghost use Rattle.oftp_record.specs.Next.{IsNext, IsThere, shown_next};
ghost use Rattle.oftp_record.specs.declared.chain.TheConstants.{DIGEST_LEN};
ghost use Rattle.oftp_record.specs.declared.header.TheConstants.{HEADER_LEN, LONGEST_CONTENT};
ghost use Rattle.oftp_record.specs.declared.next.NextEntry.TheVariants as NextEntry;
ghost use Rattle.oftp_record.specs.declared.next.StoredEntry.{StoredEntry};

use crate::chain::{ChainDigest, DIGEST_LEN};
use crate::entry::RecordEntry;
use crate::header::{HEADER_LEN, Header};
use sha2::{Digest, Sha256};

/// What shows that octets aren't as they were written.
#[derive(Clone, Copy, Debug, PartialEq, Eq, Drop)]
pub enum Alteration {
    /// They begin with no header.
    Header,
    /// The digest isn't that of the header, the content and the digest before.
    Digest,
}

/// An entry that was read.
#[derive(Clone, Copy, Debug, Drop)]
pub struct StoredEntry<'a> {
    /// The entry.
    pub entry: RecordEntry<'a>,
    /// How many octets it has with its header and its digest. The next entry begins after them.
    pub length: usize,
    /// Its digest, behind which the next entry is read.
    pub digest: ChainDigest,
}

/// What stands at the beginning of octets of a record.
#[derive(Clone, Copy, Debug, Drop)]
pub enum NextEntry<'a> {
    /// An entry as it was written.
    Whole(StoredEntry<'a>),
    /// Nothing: there are no octets.
    End,
    /// An entry that is cut off: fewer octets than its header has, or fewer than the header says. The number is how many are lacking, and it
    /// isn't known where the header is cut off.
    Cut(Option<usize>),
    /// No entry as it was written behind one with this digest. Something was changed, or is missing.
    Changed(Alteration),
}

/// What stands at the beginning of octets, behind an entry with the digest `before`. A record is read by calling this until it isn't `Whole`,
/// each time with the octets after the entry and its digest.
///
/// It takes no memory, and its time is linear in the octets of one entry; no clause says this.
pub fn next_entry<'a>(octets: &'a [u8], before: &ChainDigest) -> NextEntry<'a>
    ensures next { IsNext before.now.0 octets.now (shown_next result) }
    ensures there { IsThere octets.now result }
{
    if octets.is_empty() {
        return NextEntry::End;
    }
    if octets.len() < HEADER_LEN {
        return NextEntry::Cut(None);
    }
    match Header::of(&octets[..HEADER_LEN]) {
        Some(header) => entry_behind(octets, header, before),
        None => NextEntry::Changed(Alteration::Header),
    }
}

// What stands at the beginning of octets that begin with this header.
fn entry_behind<'a>(octets: &'a [u8], header: Header, before: &ChainDigest) -> NextEntry<'a>
    requires headed { octets.now ≡ entry_header header.kind header.moment header.count ++ drop HEADER_LEN octets.now }
    requires moment { header.moment < 2 ^ 64 }
    requires count { header.count ≤ LONGEST_CONTENT }
    ensures next { IsNext before.now.0 octets.now (shown_next result) }
    ensures there { IsThere octets.now result }
{
    let body = HEADER_LEN + header.count as usize;
    let length = body + DIGEST_LEN;
    if octets.len() < length {
        return NextEntry::Cut(Some(length - octets.len()));
    }
    entry_over(octets, header, &Sha256::digest(&octets[..body]), before)
}

// What stands at the beginning of octets that begin with this header, if there are as many as it says. `body` is the SHA-256 of header and content.
pub(crate) fn entry_over<'a>(
    octets: &'a [u8],
    header: Header,
    body: &[u8; DIGEST_LEN],
    before: &ChainDigest,
) -> NextEntry<'a>
    requires headed { octets.now ≡ entry_header header.kind header.moment header.count ++ drop HEADER_LEN octets.now }
    requires moment { header.moment < 2 ^ 64 }
    requires count { header.count ≤ LONGEST_CONTENT }
    requires enough { HEADER_LEN + header.count + DIGEST_LEN ≤ length octets.now }
    requires digest { body.now ≡ sha256 (take (HEADER_LEN + header.count) octets.now) }
    ensures next { IsNext before.now.0 octets.now (shown_next result) }
    ensures there { IsThere octets.now result }
    ensures size { (stored : StoredEntry) → result ≡ NextEntry.Whole stored → stored.length ≡ HEADER_LEN + header.count + DIGEST_LEN }
{
    let begin = HEADER_LEN + header.count as usize;
    let length = begin + DIGEST_LEN;
    let digest = ChainDigest::over(body, before);
    if &octets[begin..length] != digest.0.as_slice() {
        return NextEntry::Changed(Alteration::Digest);
    }
    let entry = RecordEntry {
        kind: header.kind,
        moment: header.moment,
        content: &octets[HEADER_LEN..begin],
    };
    NextEntry::Whole(StoredEntry {
        entry,
        length,
        digest,
    })
}
