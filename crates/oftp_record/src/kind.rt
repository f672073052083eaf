//! The kinds of entries.

ghost use Rattle.std.specs.Prelude.{◌≡◌, None, IfSome};
ghost use Rattle.oftp_record.specs.Entries.{kind_number};
ghost use Rattle.oftp_record.specs.declared.kind.RecordKind.{RecordKind};

/// What an entry of a record is about, and how its content is laid out.
///
/// The fields of a content stand one after another, in the order that is given here. A number has eight octets, with the most significant
/// first. A text, or octets, have their length before them, in four octets. A digest has 32 octets, and what is one of a few has one. Octets
/// that a partner sent, or was sent, end a content, and have no length before them. This crate takes any content of any kind.
#[derive(Clone, Copy, Debug, PartialEq, Eq, Drop)]
pub enum RecordKind {
    /// A program begins to record: its version and the sum of its sources, as texts, and 16 octets of salt. Then come the octets of its book
    /// and the digest of its register. In the book the SHA-256 of salt and password is in the place of each password.
    Opening,
    /// A session begins: its number; 1 for the responder, 2 for the initiator; the partner's code and its address, as texts.
    Session,
    /// Octets were heard: the session's number, and the octets. The password of an SSID is there as `****`, with its length.
    OctetsIn,
    /// Octets were handed to the writer: the session's number, and the octets.
    OctetsOut,
    /// A session has ended: its number; its line, as a text; one octet for how its input ended.
    End,
    /// An operator's call was made: the number of who made it (uid); the words of the request, as octets; its line, as a text.
    Call,
    /// A copy of the database was made: its path, as octets; the digest of the register.
    Backup,
    /// The register at this moment, each hour and at each clean end: its digest.
    Mark,
}

impl RecordKind {
    /// The number by which it is stored: 1 to 8, in the order of the kinds.
    pub fn number(self) -> u8
        ensures { result ≡ kind_number self }
    {
        match self {
            RecordKind::Opening => 1,
            RecordKind::Session => 2,
            RecordKind::OctetsIn => 3,
            RecordKind::OctetsOut => 4,
            RecordKind::End => 5,
            RecordKind::Call => 6,
            RecordKind::Backup => 7,
            RecordKind::Mark => 8,
        }
    }

    /// The kind that has this number, or `None` where none has.
    pub fn of_number(number: u8) -> Option<RecordKind>
        ensures one { IfSome result (λ kind. kind_number kind ≡ number) }
        ensures none { result ≡ None → (kind : RecordKind) → kind_number kind ≡ number → ⊥ }
    {
        match number {
            1 => Some(RecordKind::Opening),
            2 => Some(RecordKind::Session),
            3 => Some(RecordKind::OctetsIn),
            4 => Some(RecordKind::OctetsOut),
            5 => Some(RecordKind::End),
            6 => Some(RecordKind::Call),
            7 => Some(RecordKind::Backup),
            8 => Some(RecordKind::Mark),
            _ => None,
        }
    }
}
