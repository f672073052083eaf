//! The digests of registers in a record.

ghost use Rattle.std.specs.Prelude.{◌≡◌};
ghost use Rattle.oftp_contents.specs.Fields.{laid};
ghost use Rattle.oftp_contents.specs.Registers.{digest_in, register_in};

use crate::codes::Marked;
use crate::fields::ContentFields;
use oftp_record::{DIGEST_LEN, RecordKind};

// The digest that a text is, or `None` if it is none.
fn digest_in(text: &[u8]) -> Option<[u8; DIGEST_LEN]>
    ensures { result ≡ digest_in text.now }
{
    <[u8; DIGEST_LEN]>::try_from(text).ok()
}

impl ContentFields<'_> {
    /// The digest of a register that an entry of a kind with these fields has; `None` if it has none.
    pub fn register(&self, kind: RecordKind) -> Option<[u8; DIGEST_LEN]>
        ensures { result ≡ register_in kind (laid self.now) }
    {
        match kind {
            RecordKind::Opening | RecordKind::Backup => digest_in(self.second),
            RecordKind::Mark if self.code == Marked::Register.code() => digest_in(self.first),
            RecordKind::Session
            | RecordKind::OctetsIn
            | RecordKind::OctetsOut
            | RecordKind::End
            | RecordKind::Call
            | RecordKind::Mark => None,
        }
    }
}
