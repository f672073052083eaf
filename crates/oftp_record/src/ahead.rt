//! Reading entries one after another, eight ahead where that can be.

ghost use Rattle.std.specs.Prelude.{◌≡◌, ◌∷◌, [], IfSome};
ghost use Rattle.oftp_record.specs.Ahead.{AreBehind, ahead_in};
ghost use Rattle.oftp_record.specs.Inside.{IsStoredAt};
ghost use Rattle.oftp_record.specs.Next.{ArePassed, IsNext, IsThere, shown_next};

use crate::chain::{ChainDigest, DIGEST_LEN};
use crate::eight_read::{PassedEntry, next_eight};
use crate::entry::RecordEntry;
use crate::header::HEADER_LEN;
use crate::next::{NextEntry, StoredEntry, next_entry};

/// Entries that were read ahead. They are those that octets begin with, behind an entry with a digest.
#[derive(Clone, Copy, Debug, Drop)]
pub struct ReadAhead {
    eight: Option<[PassedEntry; 8]>,
    // How many of them were told.
    told: usize,
}

impl ReadAhead {
    /// Nothing was read ahead.
    pub fn new() -> ReadAhead
        ensures { ahead_in result ≡ [] }
    {
        ReadAhead {
            eight: None,
            told: 0,
        }
    }

    // The eight entries that octets begin with, if they can be read at once.
    fn of(octets: &[u8], before: &ChainDigest) -> ReadAhead
        ensures { ArePassed before.now.0 octets.now (ahead_in result) }
    {
        ReadAhead {
            eight: next_eight(octets, before),
            told: 0,
        }
    }

    // The first one that wasn't told, which then was.
    fn take(&mut self) -> Option<PassedEntry>
        ensures { IfSome result (λ passed. ahead_in self.old ≡ passed ∷ ahead_in self.new) }
    {
        let passed = *self.eight.as_ref()?.get(self.told)?;
        self.told += 1;
        Some(passed)
    }

    // The first one, after eight more were read where none was left.
    fn take_or_read(&mut self, octets: &[u8], before: &ChainDigest) -> Option<PassedEntry>
        ensures { ArePassed before.now.0 octets.now (ahead_in self.old)
            → IfSome result (λ passed. ArePassed before.now.0 octets.now (passed ∷ ahead_in self.new)) }
    {
        if let Some(passed) = self.take() {
            return Some(passed);
        }
        *self = ReadAhead::of(octets, before);
        self.take()
    }

    /// What stands at the beginning of octets, behind an entry with the digest `before`, as [`next_entry`] tells it. The octets are those behind the
    /// entry that was told last, and `before` is its digest. Or nothing was read ahead, as behind anything but a whole entry. It takes no memory.
    pub fn next<'a>(&mut self, octets: &'a [u8], before: &ChainDigest) -> NextEntry<'a>
        ensures next { ArePassed before.now.0 octets.now (ahead_in self.old) → IsNext before.now.0 octets.now (shown_next result) }
        ensures behind { ArePassed before.now.0 octets.now (ahead_in self.old) → AreBehind octets.now result (ahead_in self.new) }
        ensures there { IsThere octets.now result }
    {
        if let Some(passed) = self.take_or_read(octets, before) {
            if let Some(stored) = stored_at(octets, &passed) {
                return NextEntry::Whole(stored);
            }
        }
        *self = ReadAhead::new();
        next_entry(octets, before)
    }
}

// An entry that was passed over, at the beginning of octets; `None` where they are fewer.
fn stored_at<'a>(octets: &'a [u8], passed: &PassedEntry) -> Option<StoredEntry<'a>>
    ensures { IfSome result (IsStoredAt octets.now passed.now) }
{
    if passed.length < HEADER_LEN + DIGEST_LEN || octets.len() < passed.length {
        return None;
    }
    let entry = RecordEntry {
        kind: passed.kind,
        moment: passed.moment,
        content: &octets[HEADER_LEN..passed.length - DIGEST_LEN],
    };
    Some(StoredEntry {
        entry,
        length: passed.length,
        digest: passed.digest,
    })
}
