//! What an audit tells of an entry.

ghost use Rattle.std.specs.Prelude.{◌≡◌, Some};
ghost use Rattle.oftp_audit.specs.Losses.{loss_text, unless};

use std::fmt;

/// What is lost of an older entry in a newer one, or what is unsound in an entry alone.
#[derive(Clone, Copy, Debug, Drop, PartialEq, Eq)]
pub enum Loss {
    /// The entry or the row isn't there.
    Missing,
    /// A file, or the file that a response answers, has another identity.
    Identity,
    /// A whole file isn't whole any more, or what a partner answered to a file is gone.
    State,
    /// A file has another format.
    Format,
    /// A file has another longest record.
    Longest,
    /// A file has another description.
    Description,
    /// A file has another number of rows.
    Count,
    /// A row has other octets.
    Octets,
    /// A response is of the other kind.
    Kind,
    /// A response has another reason.
    Reason,
    /// A received response has another creator.
    Creator,
    /// A response has another text.
    Words,
    /// A response that was sent is due again.
    Dispatch,
    /// The format doesn't allow the longest record.
    UnfitLongest,
    /// A file has more rows than a file can have.
    UnfitCount,
    /// The mark of an outgoing file is above its rows.
    UnfitMark,
    /// The format doesn't allow the length of a row.
    UnfitLength,
    /// A file that isn't whole has a response.
    UnfitResponse,
    /// An End-to-End Response has a reason, a creator or a text.
    UnfitWords,
    /// A column has a value that no entry could have.
    Unread,
    /// A row, a response or a text belongs to no entry.
    Stray,
}

impl Loss {
    /// The words that a line has for it, behind the name of what is lost or unsound.
    pub fn words(self) -> &'static str
        ensures { result.now ≡ loss_text self }
    {
        match self {
            Loss::Missing => "is missing",
            Loss::Identity => "has another identity",
            Loss::State => "has lost its state",
            Loss::Format => "has another format",
            Loss::Longest => "has another longest record",
            Loss::Description => "has another description",
            Loss::Count => "has another number of rows",
            Loss::Octets => "has other octets",
            Loss::Kind => "is of another kind",
            Loss::Reason => "has another reason",
            Loss::Creator => "has another creator",
            Loss::Words => "has another text",
            Loss::Dispatch => "was sent, and is due again",
            Loss::UnfitLongest => "has a longest record that its format doesn't allow",
            Loss::UnfitCount => "has too many rows",
            Loss::UnfitMark => "has a mark above its rows",
            Loss::UnfitLength => "has a length that the format doesn't allow",
            Loss::UnfitResponse => "has a response, and isn't whole",
            Loss::UnfitWords => "has a reason, a creator or a text, and is an EERP",
            Loss::Unread => "has a value that no entry has",
            Loss::Stray => "belongs to no entry",
        }
    }
}

impl fmt::Display for Loss {
    ghost output = { λ loss. Some (loss_text loss) };

    fn fmt<W: fmt::Write>(&self, f: &mut fmt::Formatter<W>) -> fmt::Result {
        f.write_str(self.words())
    }
}

/// A loss, unless this holds.
pub(crate) fn unless(holds: bool, loss: Loss) -> Option<Loss>
    ensures { result ≡ unless holds loss }
{
    if holds { None } else { Some(loss) }
}
