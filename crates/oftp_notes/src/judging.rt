//! What is wrong with the values of a partner book, key by key.

ghost use Rattle.std.specs.Prelude.{◌≡◌, option_map};
ghost use Rattle.toml.specs.View.{view};
ghost use Rattle.oftp_partners.specs.Fields.{is_address, is_code, is_name};
ghost use Rattle.oftp_notes.specs.Judging.{is_mode, number_wrong, rule_of, text_wrong, wrong_in, wrong_with};

use crate::field::is_name;
use crate::finding::{Key, Wrong};
use toml::Value;

/// What the value of a key has to be.
#[derive(Clone, Copy, Debug, PartialEq, Eq)]
enum Rule {
    /// A text of one of four kinds.
    Text,
    /// The size of an exchange buffer.
    Buffer,
    /// A credit.
    Credit,
    /// True or false.
    Flag,
    /// A table.
    Table,
    /// A list of tables.
    List,
}

/// What the value of a key has to be.
fn rule_of(key: Key) -> Rule
    ensures { result ≡ rule_of key }
{
    match key {
        Key::Book | Key::Code | Key::Expects | Key::Sends | Key::Mode | Key::Address => Rule::Text,
        Key::Buffer => Rule::Buffer,
        Key::Credit => Rule::Credit,
        Key::Restart => Rule::Flag,
        Key::Station => Rule::Table,
        Key::Partner => Rule::List,
    }
}

/// Whether a text is a code.
#[tactic(auto, unfolding(oftp_partners::specs::Fields::is_code))]
fn is_code(text: &str) -> bool
    ensures { result ≡ is_code text.now }
{
    !text.is_empty() && is_name(text, 25)
}

/// Whether a text is an address, of whatever form.
#[tactic(auto, unfolding(oftp_partners::specs::Fields::is_address))]
fn is_address(text: &str) -> bool
    ensures { result ≡ is_address text.now }
{
    !text.is_empty() && text.len() <= 255
}

/// Whether a text is a mode.
fn is_mode(text: &str) -> bool
    ensures { result ≡ is_mode text.now }
{
    text == "S" || text == "R" || text == "B"
}

/// What is wrong with the text of a key, if something is.
fn text_wrong(text: &str, key: Key) -> Option<Wrong>
    ensures { result ≡ text_wrong text.now key }
{
    match key {
        Key::Code if !is_code(text) => Some(Wrong::BadCode),
        Key::Expects | Key::Sends if !is_name(text, 8) => Some(Wrong::BadPassword),
        Key::Mode if !is_mode(text) => Some(Wrong::BadMode),
        Key::Address if !is_address(text) => Some(Wrong::BadAddress),
        _ => None,
    }
}

/// What is wrong with a number, if something is.
fn number_wrong(number: Option<i64>, low: i64, high: i64, wrong: Wrong) -> Option<Wrong>
    ensures { result ≡ number_wrong number low high wrong }
{
    match number {
        None => Some(Wrong::NoNumber),
        Some(number) if low <= number && number <= high => None,
        Some(_) => Some(wrong),
    }
}

/// What is wrong with the value of a key that is there, if something is.
fn wrong_in(value: &Value, key: Key) -> Option<Wrong>
    ensures { result ≡ wrong_in (view value.now) key }
{
    match rule_of(key) {
        Rule::Text => match value.as_str() {
            Some(text) => text_wrong(text, key),
            None => Some(Wrong::NoText),
        },
        Rule::Buffer => number_wrong(value.as_integer(), 128, 16_384, Wrong::BadBuffer),
        Rule::Credit => number_wrong(value.as_integer(), 1, 99, Wrong::BadCredit),
        Rule::Flag if value.as_bool().is_none() => Some(Wrong::NoFlag),
        Rule::Table if value.as_table().is_none() => Some(Wrong::NoTable),
        Rule::List if value.as_array().is_none() => Some(Wrong::NoList),
        Rule::Flag | Rule::Table | Rule::List => None,
    }
}

/// What is wrong with the value of a key, if something is. Only the list of the partners may be missing.
pub fn wrong_with(value: Option<&Value>, key: Key) -> Option<Wrong>
    ensures { result ≡ wrong_with (option_map (λ v. view v.now) value.entry) key }
{
    match value {
        Some(value) => wrong_in(value, key),
        None if key == Key::Partner => None,
        None => Some(Wrong::Missing),
    }
}
