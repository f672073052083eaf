//! The keys of a partner book that something reads, table by table.

ghost use Rattle.std.specs.Prelude.{◌≡◌};
ghost use Rattle.std.specs.List.{list_any};
ghost use Rattle.std.specs.Str.{bytes_eq};
ghost use Rattle.oftp_notes.specs.Findings.{key_word};
ghost use Rattle.oftp_notes.specs.Keys.{is_read, table_keys};

use crate::finding::Key;

/// The key of a partner that `health` alone reads.
const OVERDUE: &str = "overdue";

/// A kind of table of a book.
#[derive(Clone, Copy, Debug, PartialEq, Eq, Drop)]
pub enum TableKind {
    /// What is outside of all tables.
    Top,
    /// That of the station.
    Station,
    /// That of a partner.
    Partner,
}

impl TableKind {
    /// The keys that the station reads, in this order.
    pub fn keys(self) -> &'static [Key]
        ensures { result.now ≡ table_keys self }
    {
        match self {
            TableKind::Top => &[Key::Station, Key::Partner],
            TableKind::Station => &[Key::Code, Key::Buffer, Key::Credit, Key::Restart],
            TableKind::Partner => &[Key::Code, Key::Expects, Key::Sends, Key::Mode, Key::Address],
        }
    }

    /// Whether something reads a key: the station, or `health`.
    pub fn reads(self, word: &str) -> bool
        ensures { result ≡ is_read self word.now }
    {
        is_among(self.keys(), word) || self == TableKind::Partner && OVERDUE == word
    }
}

// Whether one of these keys has a word.
fn is_among(keys: &[Key], word: &str) -> bool
    ensures { result ≡ list_any (λ key. bytes_eq (key_word key) word.now) keys.now }
{
    keys.iter().any(|key| key.word() == word)
}
