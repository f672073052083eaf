//! How the days of a record follow one another.

ghost use Rattle.std.specs.Prelude.{◌≡◌, option_map};
ghost use Rattle.oftp_contents.specs.Fields.{laid};
ghost use Rattle.oftp_contents.specs.Links.{day_before_in, link_at};

use crate::codes::Marked;
use crate::fields::ContentFields;
use oftp_record::{DIGEST_LEN, RecordKind};

/// How an entry of a day stands to the day before.
#[derive(Clone, Copy, Debug, PartialEq, Eq, Drop)]
pub enum DayLink {
    /// It is an entry like any other.
    Entry,
    /// It says which entry was the last one of the day before, and tells nothing else.
    Link,
    /// It is the first of its day, and doesn't follow the day before.
    Broken,
}

impl<'a> ContentFields<'a> {
    /// What an entry of a kind with these fields names as the digest of the last entry of the day before; `None` if it names none.
    pub fn day_before(&self, kind: RecordKind) -> Option<&'a [u8]>
        ensures { option_map (λ digest. digest.now) result ≡ day_before_in kind (laid self.now) }
    {
        match kind {
            RecordKind::Mark if self.code == Marked::DayBefore.code() => Some(self.first),
            RecordKind::Opening
            | RecordKind::Session
            | RecordKind::OctetsIn
            | RecordKind::OctetsOut
            | RecordKind::End
            | RecordKind::Call
            | RecordKind::Backup
            | RecordKind::Mark => None,
        }
    }
}

impl DayLink {
    /// How the entry with this number in the file of its day stands to the day before. `last` is the digest with which that ended, or `None` if no day
    /// before was read. `named` is what the entry names as that digest.
    pub fn at(number: u64, last: Option<[u8; DIGEST_LEN]>, named: Option<&[u8]>) -> DayLink
        ensures { result ≡ link_at number last (option_map (λ digest. digest.now) named.entry) }
    {
        match (number, last, named) {
            (1, None, Some(_)) => DayLink::Link,
            (1, Some(last), Some(named)) if named == last.as_slice() => DayLink::Link,
            (1, Some(_), _) => DayLink::Broken,
            _ => DayLink::Entry,
        }
    }
}
