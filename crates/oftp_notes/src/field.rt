//! The fields of a command that `refused: 5 field` may be about: how its line spells each, and what each may be.

ghost use Rattle.std.specs.Prelude.{◌≡◌, Some};
ghost use Rattle.std.specs.List.{list_all};
ghost use Rattle.oftp_wire.specs.Octets.{is_allowed};
ghost use Rattle.oftp_partners.specs.Fields.{is_name};
ghost use Rattle.oftp_notes.specs.Fields.{are_digits, field_rule, field_word, first_field, is_longest};

use oftp_vfile::Format;
use oftp_wire::{all_digits, is_allowed};
use std::fmt;

/// A field of the commands `submit`, `offer` and `refuse`.
#[derive(Clone, Copy, Debug, PartialEq, Eq, Drop)]
pub enum Field {
    /// The dataset name.
    Dataset,
    /// The date stamp.
    Date,
    /// The time stamp.
    Time,
    /// The record length.
    Longest,
    /// The description.
    Description,
    /// The content, in its local form.
    Content,
    /// The number of a reason.
    Reason,
    /// The text of a Negative End Response.
    Text,
}

impl Field {
    /// How the command line spells it.
    pub fn word(self) -> &'static str
        ensures { result.now ≡ field_word self }
    {
        match self {
            Field::Dataset => "--dataset",
            Field::Date => "--date",
            Field::Time => "--time",
            Field::Longest => "--longest",
            Field::Description => "--description",
            Field::Content => "FILE",
            Field::Reason => "REASON",
            Field::Text => "TEXT",
        }
    }

    /// What it may be.
    pub fn rule(self) -> &'static str
        ensures { result.now ≡ field_rule self }
    {
        match self {
            Field::Dataset => "1 to 26 of 0-9 A-Z / - . & ( )",
            Field::Date => "a date CCYYMMDD, eight digits",
            Field::Time => "a time HHMMSScccc, ten digits",
            Field::Longest => "1 to 16384 in formats F and V, and 0 in U and T",
            Field::Description => "at most 999 octets of UTF-8",
            Field::Content =>
                "whole records of --longest in F, records after five digits of their length in V",
            Field::Reason => "a reason of NERP (RFC 5024, section 5.3.14)",
            Field::Text => "at most 999 octets of UTF-8",
        }
    }
}

/// The fields with which a file is handed in, as far as they are judged without its content.
#[derive(Clone, Copy)]
pub struct Handed<'a> {
    /// Its dataset name.
    pub dataset: &'a str,
    /// Its date stamp.
    pub date: &'a str,
    /// Its time stamp.
    pub time: &'a str,
    /// The format of its records.
    pub format: Format,
    /// The length of its records in F, and that of the longest one in V.
    pub longest: u32,
    /// Its description.
    pub description: &'a str,
}

/// Whether each character of a text is allowed in a field.
fn are_allowed(text: &str) -> bool
    ensures { result ≡ list_all is_allowed text.now }
{
    text.as_bytes().iter().all(|c| is_allowed(*c))
}

/// Whether a text may be the value of a field of this many characters.
#[tactic(auto, unfolding(oftp_partners::specs::Fields::is_name))]
pub(crate) fn is_name(text: &str, most: usize) -> bool
    ensures { result ≡ is_name most text.now }
{
    text.len() <= most && are_allowed(text)
}

/// Whether a text has exactly this many digits.
fn are_digits(text: &str, count: usize) -> bool
    ensures { result ≡ are_digits count text.now }
{
    text.len() == count && all_digits(text.as_bytes())
}

/// Whether a format may have this longest record.
fn is_longest(format: Format, longest: u32) -> bool
    ensures { result ≡ is_longest format longest }
{
    match format {
        Format::Fixed | Format::Variable => 1 <= longest && longest <= 16_384,
        Format::Unstructured | Format::Text => longest == 0,
    }
}

/// The first field of a file that is handed in that isn't allowed.
pub fn first_field(handed: &Handed<'_>) -> Option<Field>
    ensures { result ≡ first_field handed.now }
{
    if handed.dataset.is_empty() || !is_name(handed.dataset, 26) {
        return Some(Field::Dataset);
    }
    if !is_longest(handed.format, handed.longest) {
        return Some(Field::Longest);
    }
    if !are_digits(handed.date, 8) {
        return Some(Field::Date);
    }
    if !are_digits(handed.time, 10) {
        return Some(Field::Time);
    }
    if handed.description.len() > 999 {
        return Some(Field::Description);
    }
    None
}
