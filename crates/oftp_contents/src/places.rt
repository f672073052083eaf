//! The places of entries in a record, and the part of it that two of them name.

ghost use Rattle.std.specs.Prelude.{◌≡◌, ◌↔◌, IsTrue, Some, option_map};
ghost use Rattle.oftp_contents.specs.Places.{IsUpTo, entry_number, part_of, place_named, place_of, whole_part};
ghost use Rattle.oftp_contents.specs.declared.places.EntryPlace.{EntryPlace};

use crate::days::{DIGITS, number_of_day};

/// The place of an entry: its day, and its number in the file of that day.
#[derive(Clone, Copy, Debug, PartialEq, Eq, Drop)]
pub struct EntryPlace {
    /// The day, as the number with the digits YYYYMMDD.
    pub day: u64,
    /// The number, from 1 on.
    pub number: u64,
}

/// The part of a record that is played.
#[derive(Clone, Copy, Debug, PartialEq, Eq, Drop)]
pub struct RecordPart {
    /// Its first entry, if one is named.
    pub from: Option<EntryPlace>,
    /// Its last entry, if one is named.
    pub to: Option<EntryPlace>,
}

// The number that a text is; `None` if it isn't digits alone, or too great.
#[tactic(auto, unfolding(crate::specs::Places::entry_number), using(crate::proofs::Digits::more, crate::proofs::Digits::too_great, crate::proofs::Digits::all, crate::proofs::Digits::whole))]
fn entry_number(text: &[u8]) -> Option<u64>
    ensures { result ≡ entry_number text.now }
{
    if text.is_empty() {
        return None;
    }
    let mut number: u64 = 0;
    for digit in text {
        if !digit.is_ascii_digit() {
            return None;
        }
        number = number
            .checked_mul(10)?
            .checked_add(u64::from(*digit - b'0'))?;
    }
    Some(number)
}

impl EntryPlace {
    /// The place that a text names: the eight digits of the day, a colon, and the digits of the number. `None` for any other text.
    #[tactic(auto, unfolding(crate::specs::Places::place_of))]
    pub fn of_text(text: &[u8]) -> Option<EntryPlace>
        ensures { result ≡ place_of text.now }
    {
        if text.get(DIGITS) != Some(&b':') {
            return None;
        }
        let day = number_of_day(&text[..DIGITS])?;
        let number = entry_number(&text[DIGITS + 1..])?;
        Some(EntryPlace { day, number })
    }

    /// Whether it is this place, or before it.
    pub fn is_up_to(&self, last: &EntryPlace) -> bool
        ensures { IsTrue result ↔ IsUpTo self.now last.now }
    {
        self.day < last.day || self.day == last.day && self.number <= last.number
    }

    /// Whether it isn't behind the last place, if there is one.
    pub fn is_within(&self, last: Option<EntryPlace>) -> bool
        ensures { IsTrue result ↔ ((place : EntryPlace) → last ≡ Some place → IsUpTo self.now place) }
    {
        match &last {
            Some(last) => self.is_up_to(last),
            None => true,
        }
    }
}

// The place that a text names, if there is a text. `None` if it names none.
fn place_named(text: Option<&[u8]>) -> Option<Option<EntryPlace>>
    ensures { result ≡ place_named (option_map (λ text. text.now) text.entry) }
{
    match text {
        Some(text) => Some(Some(EntryPlace::of_text(text)?)),
        None => Some(None),
    }
}

impl RecordPart {
    /// The whole record.
    pub fn whole() -> RecordPart
        ensures { result ≡ whole_part }
    {
        RecordPart {
            from: None,
            to: None,
        }
    }

    /// The part that two texts name: its first entry, and its last one. `None` if one of them is no place.
    pub fn of_texts(from: Option<&[u8]>, to: Option<&[u8]>) -> Option<RecordPart>
        ensures { result ≡ part_of (option_map (λ text. text.now) from.entry) (option_map (λ text. text.now) to.entry) }
    {
        let from = place_named(from)?;
        let to = place_named(to)?;
        Some(RecordPart { from, to })
    }
}
