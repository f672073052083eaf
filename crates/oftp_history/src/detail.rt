//! The line of an event for people.

ghost use Rattle.std.specs.Prelude.{◌≡◌, ◌++◌, IfOk, OnOk, fold, string_bytes};
ghost use Rattle.oftp_notes.specs.Seen.{IsOneLine, seen_line};
ghost use Rattle.oftp_history.specs.Past.{past_value};
ghost use Rattle.oftp_history.specs.Details.{detail_text, detail_texts, details, past_line, with_detail, with_texts};

use crate::past::PastEvent;
use oftp_events::Direction;
use oftp_notes::seen_line;
use std::alloc::{AllocError, Global};

/// Something that an event tells, with what stands before it and behind it.
#[derive(Clone, Copy)]
pub(crate) enum Detail<'a> {
    /// A text.
    Text(&'a str, Option<&'a str>),
    /// A number.
    Number(&'a str, Option<u64>, &'a str),
}

// Appends a detail, if it is there.
fn add_detail(detail: Detail<'_>, text: &mut String) -> Result<(), AllocError>
    ensures { OnOk result (string_bytes text.new ≡ string_bytes text.old ++ detail_text detail.entry) }
{
    match detail {
        Detail::Text(before, Some(told)) => write!(text, "{before}{told}"),
        Detail::Number(before, Some(count), behind) => write!(text, "{before}{count}{behind}"),
        Detail::Text(_, None) | Detail::Number(_, None, _) => Ok(()),
    }
}

// Appends details.
fn add_details(details: &[Detail<'_>], text: &mut String) -> Result<(), AllocError>
    ensures { OnOk result (string_bytes text.new ≡ fold with_detail (string_bytes text.old) details.now) }
{
    for detail in details {
        add_detail(*detail, text)?;
    }
    Ok(())
}

impl PastEvent {
    // What it tells of its file.
    fn details(&self) -> [Detail<'_>; 11]
        ensures { detail_texts result ≡ details (past_value self.now) }
    {
        [
            Detail::Text(" ", self.text_at("dataset")),
            Detail::Text(" ", self.text_at("date")),
            Detail::Text(" ", self.text_at("time")),
            Detail::Text(" with ", self.text_at("partner")),
            Detail::Number(", session ", self.number_at("session"), ""),
            Detail::Number(", ", self.number_at("rows"), " rows"),
            Detail::Number(", ", self.number_at("units"), " octets"),
            Detail::Text(", ", self.text_at("kind")),
            Detail::Text(", reason ", self.text_at("reason")),
            Detail::Text(" ", self.text_at("words")),
            Detail::Text(", text ", self.text_at("text")),
        ]
    }

    // Appends what it tells of its file.
    fn add_told(&self, text: &mut String) -> Result<(), AllocError>
        ensures { OnOk result (string_bytes text.new ≡ with_texts (string_bytes text.old) (details (past_value self.now))) }
    {
        let details = self.details();
        add_details(&details, text)
    }

    // Its line, before each of its characters can be seen.
    fn plain_line(
        &self,
        alloc: Global,
        way: Direction,
        no: u64,
        time: &str,
    ) -> Result<String, AllocError>
        ensures { IfOk result (λ line. string_bytes line ≡ past_line way no time.now self.now) }
    {
        let mut line = format!(in alloc; "{time} {way} {no} {}:", self.said_at("event"))?;
        self.add_told(&mut line)?;
        Ok(line)
    }

    /// Its line for people, with its end. It has the time as the caller spells it, the file's way and number, what happened, and what is told of
    /// the file. Characters that can't be seen are escapes, and a text that is too long is cut.
    ///
    /// # Errors
    ///
    /// Out of memory.
    pub fn to_line(
        &self,
        alloc: Global,
        way: Direction,
        no: u64,
        time: &str,
    ) -> Result<String, AllocError>
        ensures text { IfOk result (λ line. string_bytes line ≡ seen_line (past_line way no time.now self.now)) }
        ensures alone { IfOk result (λ line. IsOneLine (string_bytes line)) }
    {
        let line = self.plain_line(alloc, way, no, time)?;
        seen_line(alloc, line.as_str())
    }
}
