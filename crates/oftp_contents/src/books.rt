//! The text of a partner book as it is read for its passwords: strings behind the key of a password, and the text between them.

ghost use Rattle.std.specs.Prelude.{◌≡◌, ◌++◌, IfOk, OnOk};
ghost use Rattle.oftp_contents.specs.Books.{before, behind_opening, closing_quotes, ended, ended_before, equals_step, fresh_step, instead_in, is_key, is_passed_over, is_string, key_step, letters_step, line_step, lines_step, next_read, opening_quotes, parts_of, password_in, place_step, quote_octet, quote_of, with_letter};

use crate::escapes::{Escape, EscapeStep};
use std::alloc::{AllocError, Global};
use std::marker::Model;
use std::mem;

/// The letters `expects`, as a number with the base 256.
pub(crate) const EXPECTS: u64 = 0x65_7870_6563_7473;

/// The letters `sends`, as such a number.
pub(crate) const SENDS: u64 = 0x73_656e_6473;

/// The quotes round a string.
#[derive(Clone, Copy, Debug, PartialEq, Eq, Drop)]
pub(crate) enum Quote {
    /// Double ones, between which a backslash has a meaning.
    Double,
    /// Single ones.
    Single,
}

impl Quote {
    /// Its octet.
    fn octet(&self) -> u8
        ensures { result ≡ quote_octet self.now }
    {
        match *self {
            Quote::Double => b'"',
            Quote::Single => b'\'',
        }
    }
}

/// What was read of a key: the last seven letters as a number with the base 256, and how far the spelling of one by its number is read.
#[derive(Clone, Copy, Debug, PartialEq, Eq, Drop)]
pub(crate) struct KeyLetters {
    pub(crate) letters: u64,
    pub(crate) escape: Escape,
}

/// A string of several lines, behind so many quotes in a row.
#[derive(Clone, Copy, Debug, PartialEq, Eq, Drop)]
pub(crate) struct LinesPlace {
    pub(crate) quote: Quote,
    pub(crate) quotes: u8,
}

/// How far the text of a book is read.
#[derive(Clone, Copy, Debug, PartialEq, Eq, Drop)]
pub(crate) enum BookPlace {
    /// Before the key of a password.
    Before(KeyLetters),
    /// Behind such a key, which may go on.
    Behind,
    /// Behind its equals sign.
    Equals,
    /// Behind the first quote of its string.
    Opened(Quote),
    /// Behind a second quote: the string is empty, or one of several lines begins.
    OpenedTwice(Quote),
    /// In a string of one line.
    Line(Quote),
    /// In one, behind a backslash.
    LineBackslash,
    /// Behind the last quote of one.
    Closed(Quote),
    /// In a string of several lines, or behind its last quote.
    Lines(LinesPlace),
    /// In one, behind a backslash.
    LinesBackslash,
}

impl BookPlace {
    /// Whether a string of a password has begun, which isn't over.
    pub(crate) fn is_string(&self) -> bool
        ensures { result ≡ is_string self.now }
    {
        match *self {
            BookPlace::Before(_) | BookPlace::Behind | BookPlace::Equals => false,
            BookPlace::Opened(_)
            | BookPlace::OpenedTwice(_)
            | BookPlace::Line(_)
            | BookPlace::LineBackslash
            | BookPlace::Closed(_)
            | BookPlace::Lines(_)
            | BookPlace::LinesBackslash => true,
        }
    }

    // Where the next octet leads.
    fn step(&self, octet: u8) -> BookPlace
        ensures { result ≡ place_step self.now octet }
    {
        match *self {
            BookPlace::Before(letters) => letters.step(octet),
            BookPlace::Behind => key_step(octet),
            BookPlace::Equals => equals_step(octet),
            BookPlace::Opened(quote) if octet == quote.octet() => BookPlace::OpenedTwice(quote),
            BookPlace::Opened(quote) => line_step(quote, octet),
            BookPlace::OpenedTwice(quote) if octet == quote.octet() => {
                BookPlace::Lines(LinesPlace { quote, quotes: 0 })
            }
            BookPlace::OpenedTwice(_) => fresh_step(octet),
            BookPlace::Line(quote) => line_step(quote, octet),
            BookPlace::LineBackslash if octet == b'\n' => fresh_step(octet),
            BookPlace::LineBackslash => BookPlace::Line(Quote::Double),
            BookPlace::Closed(_) => fresh_step(octet),
            BookPlace::Lines(place) => place.step(octet),
            BookPlace::LinesBackslash => BookPlace::Lines(LinesPlace {
                quote: Quote::Double,
                quotes: 0,
            }),
        }
    }
}

impl BookPlace {
    /// The quotes round the string that has begun. Where none has, that of none is told as double ones.
    pub(crate) fn quote(&self) -> Quote
        ensures { result ≡ quote_of self.now }
    {
        match *self {
            BookPlace::Opened(quote)
            | BookPlace::OpenedTwice(quote)
            | BookPlace::Line(quote)
            | BookPlace::Closed(quote) => quote,
            BookPlace::Lines(place) => place.quote,
            BookPlace::LineBackslash
            | BookPlace::LinesBackslash
            | BookPlace::Before(_)
            | BookPlace::Behind
            | BookPlace::Equals => Quote::Double,
        }
    }

    // How many quotes are before the password in the string that has begun.
    fn opening_quotes(&self) -> usize
        ensures { result ≡ opening_quotes self.now }
    {
        match *self {
            BookPlace::Before(_) | BookPlace::Behind | BookPlace::Equals => 0,
            BookPlace::Lines(_) | BookPlace::LinesBackslash => 3,
            BookPlace::Opened(_)
            | BookPlace::OpenedTwice(_)
            | BookPlace::Line(_)
            | BookPlace::LineBackslash
            | BookPlace::Closed(_) => 1,
        }
    }

    // How many quotes are behind it.
    fn closing_quotes(&self) -> usize
        ensures { result ≡ closing_quotes self.now }
    {
        match *self {
            BookPlace::OpenedTwice(_) | BookPlace::Closed(_) => 1,
            BookPlace::Lines(place) if place.quotes >= 3 => usize::from(place.quotes),
            BookPlace::Lines(_)
            | BookPlace::Before(_)
            | BookPlace::Behind
            | BookPlace::Equals
            | BookPlace::Opened(_)
            | BookPlace::Line(_)
            | BookPlace::LineBackslash
            | BookPlace::LinesBackslash => 0,
        }
    }
}

impl KeyLetters {
    // Where the next octet leads.
    #[tactic(auto, unfolding(crate::specs::Books::letters_step))]
    fn step(&self, octet: u8) -> BookPlace
        ensures { result ≡ letters_step self.now octet }
    {
        let letters = self.letters;
        match self.escape.step(octet) {
            EscapeStep::Plain if is_passed_over(octet) => { before(letters, Escape::Outside) }
            EscapeStep::Plain => with_letter(letters, octet),
            EscapeStep::Begins => before(letters, Escape::Backslash),
            EscapeStep::Goes(escape) => before(letters, escape),
            EscapeStep::Spells(letter) => with_letter(letters, letter),
        }
    }
}

// Before a key, of which this was read.
fn before(letters: u64, escape: Escape) -> BookPlace
    ensures { result ≡ before letters escape }
{
    BookPlace::Before(KeyLetters { letters, escape })
}

// Whether an octet is a blank or a quote, which may stand round the letters of a key.
fn is_passed_over(octet: u8) -> bool
    ensures { result ≡ is_passed_over octet }
{
    matches!(octet, b' ' | b'\t' | b'"' | b'\'')
}

// Whether the last letters are the key of a password.
fn is_key(letters: u64) -> bool
    ensures { result ≡ is_key letters }
{
    letters == EXPECTS || letters % (1 << 40) == SENDS
}

// With one letter more.
fn with_letter(letters: u64, letter: u8) -> BookPlace
    ensures { result ≡ with_letter letters letter }
{
    let letters = letters % (1 << 48) * 256 + u64::from(letter);
    if is_key(letters) {
        BookPlace::Behind
    } else {
        before(letters, Escape::Outside)
    }
}

// Where an octet leads before any letter of a key.
fn fresh_step(octet: u8) -> BookPlace
    ensures { result ≡ fresh_step octet }
{
    let letters = KeyLetters {
        letters: 0,
        escape: Escape::Outside,
    };
    letters.step(octet)
}

// Where an octet leads behind the key of a password.
fn key_step(octet: u8) -> BookPlace
    ensures { result ≡ key_step octet }
{
    match octet {
        b'=' => BookPlace::Equals,
        b'\n' | b',' => before(0, Escape::Outside),
        _ => BookPlace::Behind,
    }
}

// Where an octet leads behind the equals sign of a password.
fn equals_step(octet: u8) -> BookPlace
    ensures { result ≡ equals_step octet }
{
    match octet {
        b' ' | b'\t' => BookPlace::Equals,
        b'"' => BookPlace::Opened(Quote::Double),
        b'\'' => BookPlace::Opened(Quote::Single),
        _ => fresh_step(octet),
    }
}

// Where an octet leads in a string of one line.
fn line_step(quote: Quote, octet: u8) -> BookPlace
    ensures { result ≡ line_step quote octet }
{
    if octet == quote.octet() {
        return BookPlace::Closed(quote);
    }
    match octet {
        b'\n' => fresh_step(octet),
        b'\\' if quote == Quote::Double => BookPlace::LineBackslash,
        _ => BookPlace::Line(quote),
    }
}

impl LinesPlace {
    // Where the next octet leads. Up to two quotes may stand right before the last three.
    fn step(&self, octet: u8) -> BookPlace
        ensures { result ≡ lines_step self.now octet }
    {
        let quote = self.quote;
        if octet == quote.octet() && self.quotes < 5 {
            return BookPlace::Lines(LinesPlace {
                quote,
                quotes: self.quotes + 1,
            });
        }
        if self.quotes >= 3 {
            return fresh_step(octet);
        }
        if octet == b'\\' && quote == Quote::Double {
            return BookPlace::LinesBackslash;
        }
        BookPlace::Lines(LinesPlace { quote, quotes: 0 })
    }
}

/// A part of the text of a book: a string that is a password, with its quotes, or the text before, between and behind such strings.
#[derive(Drop)]
pub(crate) struct BookPart {
    // How far the text is read with it.
    place: BookPlace,
    octets: Vec<u8>,
}

impl Model for BookPart {
    ghost use Rattle.oftp_contents.specs.Books.{Part};

    ghost Value = { Part };

    ghost view = { λ p. record { place = p.place; octets = p.octets.items } };
}

impl BookPart {
    /// Whether it is a string that is a password.
    pub(crate) fn is_string(&self) -> bool
        ensures { result ≡ is_string self.now.place }
    {
        self.place.is_string()
    }

    /// The quotes round it, if it is a string.
    pub(crate) fn quote(&self) -> Quote
        ensures { result ≡ quote_of self.now.place }
    {
        self.place.quote()
    }

    /// Its octets.
    pub(crate) fn octets(&self) -> &[u8]
        ensures { result.now ≡ self.now.octets }
    {
        self.octets.as_slice()
    }

    // The octets behind the first quotes.
    fn behind_opening(&self) -> &[u8]
        ensures { result.now ≡ behind_opening self.now }
    {
        let octets = self.octets.as_slice();
        &octets[self.place.opening_quotes().min(octets.len())..]
    }

    /// The password, as it is written between the quotes.
    pub(crate) fn password(&self) -> &[u8]
        ensures { result.now ≡ password_in self.now }
    {
        let rest = self.behind_opening();
        &rest[..rest.len().saturating_sub(self.place.closing_quotes())]
    }

    /// Appends it with other octets in the place of the password.
    ///
    /// # Errors
    /// Out of memory. Some octets may have been appended.
    pub(crate) fn add_instead(&self, other: &[u8], to: &mut Vec<u8>) -> Result<(), AllocError>
        ensures { OnOk result (to.new.items ≡ to.old.items ++ instead_in self.now other.now) }
    {
        let octets = self.octets.as_slice();
        let rest = self.behind_opening();
        to.extend_from_slice(&octets[..octets.len() - rest.len()])?;
        to.extend_from_slice(other)?;
        to.extend_from_slice(&rest[self.password().len()..])
    }
}

/// What of the text of a book was read.
#[derive(Drop)]
struct BookReading {
    alloc: Global,
    // The parts that are over, and the octets of the next one.
    parts: Vec<BookPart>,
    octets: Vec<u8>,
    place: BookPlace,
}

impl Model for BookReading {
    ghost use Rattle.oftp_contents.specs.Books.{Reading};

    ghost Value = { Reading };

    ghost view = { λ r. record { parts = r.parts.items; octets = r.octets.items; place = r.place } };
}

impl BookReading {
    // Ends a part.
    fn end_part(&mut self) -> Result<(), AllocError>
        ensures { OnOk result (self.new ≡ ended self.old) }
    {
        let octets = mem::replace(&mut self.octets, Vec::new(self.alloc));
        self.parts.push(BookPart {
            place: self.place,
            octets,
        })?;
        Ok(())
    }

    // Ends a part, if the octet that leads to a place is the first of another one.
    fn end_before(&mut self, place: &BookPlace) -> Result<(), AllocError>
        ensures { OnOk result (self.new ≡ ended_before place.now self.old) }
    {
        if self.place.is_string() {
            if !place.is_string() {
                self.end_part()?;
            }
        } else if place.is_string() {
            self.end_part()?;
        }
        Ok(())
    }

    // Reads one more octet.
    #[tactic(auto, unfolding(crate::specs::Books::next_read))]
    fn take(&mut self, octet: u8) -> Result<(), AllocError>
        ensures { OnOk result (self.new ≡ next_read self.old octet) }
    {
        let place = self.place.step(octet);
        self.end_before(&place)?;
        self.octets.push(octet)?;
        self.place = place;
        Ok(())
    }
}

/// The parts of the text of a book.
///
/// # Errors
/// Out of memory.
#[tactic(auto, unfolding(crate::specs::Books::parts_of))]
pub(crate) fn parts_of(alloc: Global, book: &[u8]) -> Result<Vec<BookPart>, AllocError>
    ensures { IfOk result (λ parts. parts.items ≡ parts_of book.now) }
{
    let mut reading = BookReading {
        alloc,
        parts: Vec::new(alloc),
        octets: Vec::new(alloc),
        place: before(0, Escape::Outside),
    };
    for octet in book {
        reading.take(*octet)?;
    }
    reading.end_part()?;
    Ok(reading.parts)
}
