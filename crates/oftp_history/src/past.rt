//! An event as a line tells it.

ghost use Rattle.std.specs.Prelude.{◌≡◌, codes, option_map, IfOk};
ghost use Rattle.std.specs.List.{list_any};
ghost use Rattle.serde_json.specs.View.{view};
ghost use Rattle.oftp_history.specs.Past.{has_number, has_same, has_same_name, has_way, is_about, is_event, is_same, line_in, past_in, past_value};
ghost use Rattle.oftp_history.specs.Proofs.{said_at};
ghost use Rattle.oftp_history.specs.Values.{number_at, text_at};

use crate::values::{number_at, text_at, value_of};
use oftp_events::Direction;
use serde_json::Value;
use std::alloc::{AllocError, Global};
use std::marker::Model;

/// The length of the longest line that is read, in octets: many times what an event has.
pub(crate) const LONGEST_LINE: usize = 65_536;

/// An event that a line tells. Keys and words that this version doesn't know are kept in its line.
#[derive(Drop)]
pub struct PastEvent {
    text: String,
    value: Value,
}

impl Model for PastEvent {
    ghost use Rattle.std.specs.Prelude.{◌≡◌, Some, string_bytes};
    ghost use Rattle.serde_json.specs.Read.{read};
    ghost use Rattle.serde_json.specs.View.{view as value_view};
    ghost use Rattle.oftp_history.specs.Past.{Past, past_of};

    ghost Value = { Past };

    ghost view = { λ event. past_of event.text };

    ghost invariant = { λ event. read (string_bytes event.text) ≡ Some (value_view event.value) };
}

// A line as a text: one that isn't too long, and is UTF-8.
#[tactic(auto, using(crate::proofs::Utf8::not_utf8, crate::proofs::Utf8::utf8_is))]
fn line_in(line: &[u8]) -> Option<&str>
    ensures { option_map (λ s. s.now) result ≡ line_in line.now }
{
    if line.len() > LONGEST_LINE {
        return None;
    }
    match str::from_utf8(line) {
        Ok(text) => Some(text),
        Err(_) => None,
    }
}

// Whether a value has a time and the words of an event.
fn is_event(value: &Value) -> bool
    ensures { result ≡ is_event (view value.now) }
{
    text_at(value, "at").is_some() && text_at(value, "event").is_some()
}

// Whether both texts are there and the same.
fn is_same(text: Option<&str>, other: Option<&str>) -> bool
    ensures { result ≡ is_same (option_map (λ s. s.now) text.entry) (option_map (λ s. s.now) other.entry) }
{
    match (text, other) {
        (Some(text), Some(other)) => text == other,
        _ => false,
    }
}

impl PastEvent {
    /// Reads a line without its end. `None` if it is no event: if it has more than 65,536 octets, or isn't a value of JSON with the texts `at`
    /// and `event`.
    ///
    /// # Errors
    ///
    /// Out of memory.
    pub fn read(alloc: Global, line: &[u8]) -> Result<Option<PastEvent>, AllocError>
        ensures { IfOk result (λ event. event ≡ past_in line.now) }
    {
        let Some(text) = line_in(line) else {
            return Ok(None);
        };
        let Some(value) = value_of(alloc, text)? else {
            return Ok(None);
        };
        if !is_event(&value) {
            return Ok(None);
        }
        let text = String::from_str(alloc, text)?;
        Ok(Some(PastEvent { text, value }))
    }

    /// The line, without its end.
    pub fn text(&self) -> &str
        ensures { result.now ≡ self.now.text }
    {
        self.text.as_str()
    }

    /// The text under a key, if there is one.
    #[tactic(auto, using(crate::proofs::PastLemmas::value_is))]
    pub(crate) fn text_at(&self, key: &str) -> Option<&str>
        ensures { option_map (λ s. s.now) result ≡ text_at key.now (past_value self.now) }
    {
        text_at(&self.value, key)
    }

    /// The number under a key, if there is one.
    #[tactic(auto, using(crate::proofs::PastLemmas::value_is))]
    pub(crate) fn number_at(&self, key: &str) -> Option<u64>
        ensures { result ≡ number_at key.now (past_value self.now) }
    {
        number_at(&self.value, key)
    }

    /// The text under a key, empty if there is none.
    pub(crate) fn said_at(&self, key: &str) -> &str
        ensures { result.now ≡ said_at key.now self.now }
    {
        match self.text_at(key) {
            Some(text) => text,
            None => "",
        }
    }

    /// When it happened, as its line has it.
    pub fn at(&self) -> &str
        ensures { result.now ≡ said_at (codes "at") self.now }
    {
        self.said_at("at")
    }

    // Whether both events have this text.
    fn has_same(&self, other: &PastEvent, key: &str) -> bool
        ensures { result ≡ has_same key.now self.now other.now }
    {
        is_same(self.text_at(key), other.text_at(key))
    }

    // Whether both tell of a file with the same name.
    fn has_same_name(&self, other: &PastEvent) -> bool
        ensures { result ≡ has_same_name self.now other.now }
    {
        self.has_same(other, "dataset")
            && self.has_same(other, "date")
            && self.has_same(other, "time")
            && self.has_same(other, "originator")
            && self.has_same(other, "destination")
    }

    // Whether it is of a file that goes this way.
    fn has_way(&self, way: Direction) -> bool
        ensures { result ≡ has_way way self.now }
    {
        is_same(self.text_at("way"), Some(way.word()))
    }

    // Whether it has the name of one of these events.
    fn has_name_of(&self, events: &[PastEvent]) -> bool
        ensures { result ≡ list_any (λ event. has_same_name self.now event) events.now }
    {
        events.iter().any(|event| self.has_same_name(event))
    }

    // Whether it has this number, or tells none and has the name of one of these events.
    fn has_number(&self, no: u64, events: &[PastEvent]) -> bool
        ensures { result ≡ has_number no events.now self.now (number_at (codes "no") (past_value self.now)) }
    {
        match self.number_at("no") {
            Some(other) => other == no,
            None => self.has_name_of(events),
        }
    }

    /// Whether it is of the file that goes this way under this number, and of which these events told before.
    pub(crate) fn is_about(&self, way: Direction, no: u64, events: &[PastEvent]) -> bool
        ensures { result ≡ is_about way no events.now self.now }
    {
        self.has_way(way) && self.has_number(no, events)
    }
}
