//! What is wrong in a partner book.

ghost use Rattle.std.specs.Prelude.{◌≡◌, Some};
ghost use Rattle.oftp_notes.specs.Findings.{finding_text, key_word, place_text, wrong_text};

use std::fmt;

/// A key of a book, or what stands for all of it.
#[derive(Clone, Copy, Debug, PartialEq, Eq, Drop)]
pub enum Key {
    /// The whole text.
    Book,
    /// The table of the station.
    Station,
    /// The list of the partners.
    Partner,
    /// The identification code.
    Code,
    /// The greatest exchange buffer.
    Buffer,
    /// The greatest credit.
    Credit,
    /// Whether a transfer that broke may continue.
    Restart,
    /// The password that the partner sends.
    Expects,
    /// The password that the station sends.
    Sends,
    /// What the station does in sessions with the partner.
    Mode,
    /// Where the partner is called.
    Address,
}

impl Key {
    /// How the book spells it.
    pub fn word(self) -> &'static str
        ensures { result.now ≡ key_word self }
    {
        match self {
            Key::Book => "the text",
            Key::Station => "station",
            Key::Partner => "partner",
            Key::Code => "code",
            Key::Buffer => "buffer",
            Key::Credit => "credit",
            Key::Restart => "restart",
            Key::Expects => "expects",
            Key::Sends => "sends",
            Key::Mode => "mode",
            Key::Address => "address",
        }
    }
}

/// What is wrong with the value of a key.
#[derive(Clone, Copy, Debug, PartialEq, Eq, Drop)]
pub enum Wrong {
    /// The text can't be read.
    NotToml,
    /// The key isn't there.
    Missing,
    /// It is no table.
    NoTable,
    /// It is no list of tables.
    NoList,
    /// It is no text.
    NoText,
    /// It is no whole number.
    NoNumber,
    /// It is neither true nor false.
    NoFlag,
    /// It is no code.
    BadCode,
    /// It is no password.
    BadPassword,
    /// It is no mode.
    BadMode,
    /// It is no address.
    BadAddress,
    /// It is no size of a buffer.
    BadBuffer,
    /// It is no credit.
    BadCredit,
    /// Another partner or the station has this code.
    Twice,
    /// There are too many.
    TooMany,
    /// The address has no port, or one that is none.
    NoPort,
    /// The host of the address is unknown.
    NoHost,
    /// Others may read the file.
    Exposed,
}

impl Wrong {
    /// In words, with what is allowed, and never what the book has.
    pub fn words(self) -> &'static str
        ensures { result.now ≡ wrong_text self }
    {
        match self {
            Wrong::NotToml => "is no TOML in UTF-8",
            Wrong::Missing => "is missing",
            Wrong::NoTable => "has to be a table",
            Wrong::NoList => "has to be a list of tables, [[partner]]",
            Wrong::NoText => "has to be a text, in quotes",
            Wrong::NoNumber => "has to be a whole number",
            Wrong::NoFlag => "has to be true or false",
            Wrong::BadCode => "has to be 1 to 25 of 0-9 A-Z / - . & ( )",
            Wrong::BadPassword => "has to be at most 8 of 0-9 A-Z / - . & ( )",
            Wrong::BadMode => "has to be S, R or B",
            Wrong::BadAddress => "has to be HOST:PORT, of 1 to 255 octets",
            Wrong::BadBuffer => "has to be 128 to 16384",
            Wrong::BadCredit => "has to be 1 to 99",
            Wrong::Twice => "is the code of the station or of a partner above, too",
            Wrong::TooMany => "has more than 1000 partners",
            Wrong::NoPort => "can't be called: HOST:PORT, with a port of 1 to 65535",
            Wrong::NoHost => "can't be called: its host has no address now",
            Wrong::Exposed => "may be read by others than its owner, with its passwords",
        }
    }
}

/// Where a key is.
#[derive(Clone, Copy, Drop)]
pub enum Place<'a> {
    /// In no table.
    Top,
    /// In the table of the station.
    Station,
    /// In the table of a partner whose code is readable.
    Partner(&'a str),
    /// In the table of the partner with this number, from 1 on.
    Numbered(u64),
}

impl fmt::Display for Place<'_> {
    ghost output = { λ place. Some (place_text place) };

    fn fmt<W: fmt::Write>(&self, f: &mut fmt::Formatter<W>) -> fmt::Result {
        match self {
            Place::Top => f.write_str(""),
            Place::Station => f.write_str("station: "),
            Place::Partner(code) => write!(f, "partner {code}: "),
            Place::Numbered(number) => write!(f, "partner number {number}: "),
        }
    }
}

/// What is wrong in a book, and where.
#[derive(Clone, Copy, Drop)]
pub struct Finding<'a> {
    /// Where the key is.
    pub place: Place<'a>,
    /// The key.
    pub key: Key,
    /// What is wrong with it.
    pub wrong: Wrong,
}

impl fmt::Display for Finding<'_> {
    ghost output = { λ finding. Some (finding_text finding) };

    fn fmt<W: fmt::Write>(&self, f: &mut fmt::Formatter<W>) -> fmt::Result {
        write!(
            f,
            "{}{}: {}",
            self.place,
            self.key.word(),
            self.wrong.words()
        )
    }
}
