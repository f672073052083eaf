//! How a register stands to those of which a record has the digests.

ghost use Rattle.std.specs.Prelude.{◌≡◌};
ghost use Rattle.oftp_contents.specs.Standings.{known_behind, likeness_at, likeness_behind, standing_after};

use oftp_record::{DIGEST_LEN, RecordKind};

/// How a register stands to those that a record has.
#[derive(Clone, Copy, Debug, PartialEq, Eq, Drop)]
pub enum RegisterStanding {
    /// The record has no such register.
    Unknown,
    /// It is the last one that the record has.
    Last,
    /// The record has it, and goes on behind it.
    Earlier,
}

/// What an entry of a record tells of a register.
#[derive(Clone, Copy, Debug, PartialEq, Eq, Drop)]
pub enum Likeness {
    /// It has its digest.
    Same,
    /// It has that of another one, or behind it the register may be another one.
    Other,
}

impl Likeness {
    /// What an entry of a kind tells of the register with a digest, if it has the digest of one or has none. `None` if it tells nothing.
    pub fn at(
        kind: RecordKind,
        digest: Option<[u8; DIGEST_LEN]>,
        register: [u8; DIGEST_LEN],
    ) -> Option<Likeness>
        ensures { result ≡ likeness_at kind digest register }
    {
        match digest {
            Some(digest) if digest == register => Some(Likeness::Same),
            Some(_) => Some(Likeness::Other),
            None => Likeness::behind(kind),
        }
    }

    /// What an entry without a digest tells: behind the beginning of a session or a call the register may be another one. `None` if it tells nothing.
    pub fn behind(kind: RecordKind) -> Option<Likeness>
        ensures { result ≡ likeness_behind kind }
    {
        match kind {
            RecordKind::Session | RecordKind::Call => Some(Likeness::Other),
            RecordKind::Opening
            | RecordKind::OctetsIn
            | RecordKind::OctetsOut
            | RecordKind::End
            | RecordKind::Backup
            | RecordKind::Mark => None,
        }
    }
}

/// The digest of the register as far as it is known behind an entry of a kind, before which it was known like this. It has to be worked out anew where
/// the register may be another one.
pub fn known_behind(kind: RecordKind, known: Option<[u8; DIGEST_LEN]>) -> Option<[u8; DIGEST_LEN]>
    ensures { result ≡ known_behind kind known }
{
    match Likeness::behind(kind) {
        Some(_) => None,
        None => known,
    }
}

impl RegisterStanding {
    /// How it stands once the record has one more entry that tells of it.
    pub fn after(self, likeness: Likeness) -> RegisterStanding
        ensures { result ≡ standing_after self likeness }
    {
        match (self, likeness) {
            (_, Likeness::Same) => RegisterStanding::Last,
            (RegisterStanding::Unknown, Likeness::Other) => RegisterStanding::Unknown,
            (RegisterStanding::Last | RegisterStanding::Earlier, Likeness::Other) => {
                RegisterStanding::Earlier
            }
        }
    }
}
