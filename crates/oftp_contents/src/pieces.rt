//! Recording what a session heard or said.

ghost use Rattle.std.specs.Prelude.{◌≡◌, ◌+◌, ◌*◌, ◌/◌, ◌%◌, ◌<◌, ◌≤◌, ◌++◌, ℕ, List, IfErr, IfOk, OnErr, OnOk, length};
ghost use Rattle.oftp_contents.specs.Pieces.{Appends, mark_of, piece_noted, talked};
ghost use Rattle.oftp_contents.specs.declared.fields.TheConstants.{FIXED};
ghost use Rattle.oftp_contents.specs.declared.pieces.TheConstants.{LEAST_PIECE};
ghost use Rattle.oftp_digest.specs.declared.digests.TheConstants.{BLOCK_LEN};
ghost use Rattle.oftp_record.specs.declared.header.TheConstants.{HEADER_LEN, LONGEST_CONTENT};
ghost use Rattle.oftp_record.specs.declared.writing.AppendFault.TheVariants.{TooLong};

use crate::fields::{ContentFields, FIXED};
use oftp_digest::{BLOCK_LEN, LANES};
use oftp_record::{
    AppendFault, ChainDigest, HEADER_LEN, PieceEntries, RecordEntry, RecordKind, append_eight,
    append_entry,
};
use std::alloc::Global;

/// The least octets of a piece. Shorter ones would be dearer by their headers than by what is spared.
pub const LEAST_PIECE: usize = 1024;

/// What a session heard or said.
#[derive(Clone, Copy, Debug, Drop)]
pub struct SessionOctets<'a> {
    /// [`RecordKind::OctetsIn`] or [`RecordKind::OctetsOut`].
    pub kind: RecordKind,
    /// When that was: microseconds since 1970 began, in UTC.
    pub moment: u64,
    /// The number of the session.
    pub number: u64,
    /// The octets.
    pub octets: &'a [u8],
}

/// What the pieces have in common that one session heard or said at once.
#[derive(Clone, Copy, Debug, PartialEq, Eq, Drop)]
pub struct PieceMark {
    /// [`RecordKind::OctetsIn`] or [`RecordKind::OctetsOut`].
    pub kind: RecordKind,
    /// When that was.
    pub moment: u64,
    /// The number of the session.
    pub number: u64,
}

impl PieceMark {
    /// That of an entry with this kind, moment and number. `None` if it has no octets of a session.
    pub fn of(kind: RecordKind, moment: u64, number: u64) -> Option<PieceMark>
        ensures { result ≡ mark_of kind moment number }
    {
        match kind {
            RecordKind::OctetsIn | RecordKind::OctetsOut => Some(PieceMark {
                kind,
                moment,
                number,
            }),
            RecordKind::Opening
            | RecordKind::Session
            | RecordKind::End
            | RecordKind::Call
            | RecordKind::Backup
            | RecordKind::Mark => None,
        }
    }
}

// How many octets each of eight pieces has that are recorded of so many, so that their bodies are whole blocks. 0 if they are too few.
fn piece_size(count: usize) -> usize
    ensures eighths { 8 * result ≤ count }
    ensures blocks { 0 < result → (HEADER_LEN + FIXED + result) % BLOCK_LEN ≡ 0 }
    ensures least { 8 * (LEAST_PIECE + BLOCK_LEN) ≤ count → LEAST_PIECE ≤ result }
{
    let most = count / LANES;
    if most < LEAST_PIECE + BLOCK_LEN {
        return 0;
    }
    most - (HEADER_LEN + FIXED + most) % BLOCK_LEN
}

impl SessionOctets<'_> {
    // The beginning of a content: the number, the code 0, and the lengths of two empty texts.
    fn head(&self) -> [u8; 17]
        ensures { (rest : List ℕ) → result ++ rest ≡ (piece_noted (talked self.now) rest).content }
    {
        let n = self.number.to_be_bytes();
        [
            n[0], n[1], n[2], n[3], n[4], n[5], n[6], n[7], 0, 0, 0, 0, 0, 0, 0, 0, 0,
        ]
    }

    // Appends them as one entry.
    fn append_whole(
        &self,
        alloc: Global,
        record: &mut Vec<u8>,
        before: &ChainDigest,
    ) -> Result<ChainDigest, AppendFault>
        ensures { Appends (talked self.now) record.old.items record.new.items before.now.0 result }
    {
        let fields = ContentFields {
            number: self.number,
            code: 0,
            first: &[],
            second: &[],
            rest: self.octets,
        };
        let content = fields.octets(alloc)?;
        let entry = RecordEntry {
            kind: self.kind,
            moment: self.moment,
            content: content.as_slice(),
        };
        let digest = append_entry(record, &entry, before)?;
        Ok(digest)
    }

    // Appends them as one entry, if there are any.
    fn append_rest(
        &self,
        alloc: Global,
        record: &mut Vec<u8>,
        before: &ChainDigest,
    ) -> Result<ChainDigest, AppendFault>
        ensures { Appends (talked self.now) record.old.items record.new.items before.now.0 result }
    {
        if self.octets.is_empty() {
            return Ok(*before);
        }
        self.append_whole(alloc, record, before)
    }

    // Appends them as eight entries with pieces of so many octets.
    fn append_pieces(
        &self,
        alloc: Global,
        record: &mut Vec<u8>,
        size: usize,
        before: &ChainDigest,
    ) -> Result<ChainDigest, AppendFault>
        requires eighths { length self.now.octets.now ≡ 8 * size }
        requires blocks { (HEADER_LEN + FIXED + size) % BLOCK_LEN ≡ 0 }
        ensures { Appends (talked self.now) record.old.items record.new.items before.now.0 result }
    {
        let entries = PieceEntries {
            kind: self.kind,
            moment: self.moment,
            head: &self.head(),
            pieces: self.octets,
        };
        let digest = append_eight(alloc, record, &entries, before)?;
        Ok(digest)
    }

    /// Appends them to the octets of a record, as one entry or as pieces, which are digested side by side. Returns the digest of the last entry.
    /// `before` is that of the entry before them.
    ///
    /// # Errors
    ///
    /// - [`AppendFault::TooLong`] only where they are more than an entry has room for.
    /// - [`AppendFault::Memory`]: out of memory.
    ///
    /// The octets of the record are unchanged.
    pub fn append(
        &self,
        alloc: Global,
        record: &mut Vec<u8>,
        before: &ChainDigest,
    ) -> Result<ChainDigest, AppendFault>
        ensures { Appends (talked self.now) record.old.items record.new.items before.now.0 result }
    {
        let size = piece_size(self.octets.len());
        if size == 0 {
            return self.append_whole(alloc, record, before);
        }
        let begin = record.len();
        let first = SessionOctets {
            octets: &self.octets[..LANES * size],
            ..*self
        };
        let rest = SessionOctets {
            octets: &self.octets[LANES * size..],
            ..*self
        };
        let digest = first.append_pieces(alloc, record, size, before)?;
        match rest.append_rest(alloc, record, &digest) {
            Ok(digest) => Ok(digest),
            Err(fault) => {
                record.truncate(begin);
                Err(fault)
            }
        }
    }
}
